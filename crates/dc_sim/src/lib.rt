//! The simulated world: a client that asks for names of a made tree, and servers that answer.
#![tactic(auto)]

mod answer;
mod bytes;
mod entry;
mod links;
mod names;
mod reply;
mod request;
mod server;
mod world;

pub use world::SimWorld;
