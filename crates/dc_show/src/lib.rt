//! The texts of the lookup tools: what each writes of a packet that answers its question.
//!
//! A text goes to a sink in pieces, and takes no memory. Where the sink fails, a front of the text was put.
#![tactic(auto)]

mod answers;
mod names;
mod packet;
mod parts;
mod piece;
mod show;

pub use names::dot;
pub use packet::show_packet;
pub use piece::show_address;
pub use show::{host_of, show_ip, show_mx, show_name, show_txt};
