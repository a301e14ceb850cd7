//! How a command of the program ends, and of which object a call failed where it ended by a fault.
#![tactic(auto)]

mod status;

pub use status::Status;
