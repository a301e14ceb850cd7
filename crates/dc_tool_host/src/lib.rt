//! A lookup tool in its process: the real words, files, sockets, input and output, and what is said of how it ended.
#![tactic(auto)]

mod host;
mod report;

pub use host::{filter, tool};
