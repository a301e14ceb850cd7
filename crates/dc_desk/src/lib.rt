//! What the queries of a resolver share, and how one of them goes on.
#![tactic(auto)]

mod desk;
mod key;
mod moment;
mod outcome;
mod step;

pub use desk::{Counts, Desk};
pub use key::Key;
pub use moment::Moment;
pub use outcome::{Cause, Outcome};
pub use step::{Point, Step};
