//! Text on its way to a sink, in pieces.
#![tactic(auto)]

mod words;
mod writer;

pub use words::{MOST_WORDS, Words, push_address, push_all, push_number};
pub use writer::Writer;
