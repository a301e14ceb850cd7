//! The clients of a core: each event comes to a request, a query or a connection, and what follows is done.
#![tactic(auto)]

mod clients;
mod clock;
pub mod laws;
mod requests;
mod settle;
mod step;
mod streams;

pub use clients::Clients;
