//! Messages of the domain name system, read from packets and written into them (RFC 1035, 4).
//!
//! A packet has at most 65535 bytes, as both UDP and the length before a message in TCP allow no more.
#![tactic(auto)]

mod data;
mod malformed;
mod message;
mod name;
mod number;
mod part;
mod query;
mod question;
mod record;
mod request;
mod rows;
mod table;
#[cfg(test)]
mod tests;
mod ttl;

pub use data::Data;
pub use malformed::Malformed;
pub use message::Message;
pub use name::read_name;
pub use number::{u16_at, u32_at};
pub use query::{QueryBytes, write_query};
pub use question::{Question, question_of};
pub use record::{Rr, Section};
pub use request::{Request, read_request};
pub use table::Table;
pub use ttl::kept_ttl;
