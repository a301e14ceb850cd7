//! What a message says of a name: the marks that a resolver goes by, and the message's class.
#![tactic(auto)]

mod class;
mod mark;
mod row;
#[cfg(test)]
mod tests;
mod walk;

pub use class::{Class, class_of, classify};
pub use mark::Found;
pub use walk::found;
