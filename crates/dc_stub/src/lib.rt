//! One question that is asked of servers which know all, and the tools that ask.
#![tactic(auto)]

mod engine;
mod look;
mod run;
mod servers;
mod status;
mod word;

pub use engine::{StubEngine, ask};
pub use look::{Job, look_up};
pub use run::run_jobs;
pub use servers::{StubError, servers_of};
pub use status::ToolStatus;
pub use word::{Session, Shows, ask_word};
