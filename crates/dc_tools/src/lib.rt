//! The five lookup tools: what their words come to, and their runs.
//!
//! One theorem stands on `run`, for any tool: what passed in the world is what passes at the tool's machine over the events that were
//! heard, and what the sink gained is the machine's text, by how the run ended.
#![tactic(auto)]

mod job;
mod kind;
pub mod laws;
mod running;
mod tools;
mod words;

pub use running::run;
pub use tools::{DnsIp, DnsMx, DnsName, DnsQr, DnsTxt, Refusal, Tool};
