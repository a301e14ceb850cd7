//! Recording: the head of a configuration and a seed, and a world whose run is recorded: each event that it hands out is written as a line
//! of a script before it is handled.
#![tactic(auto)]

mod head;
#[cfg(test)]
mod head_tests;
pub mod laws;
mod lent;
mod recorder;
mod sayable;
#[cfg(test)]
mod tests;
mod typed;

pub use head::head_of;
pub use lent::LentWorld;
pub use recorder::RecordWorld;
pub use sayable::{HeadError, head_error};
