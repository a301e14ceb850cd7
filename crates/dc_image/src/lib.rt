//! Images of caches: a cache as a file.
#![tactic(auto)]

pub mod check;
mod fronts;
pub mod laws;
pub mod load;
pub mod save;

pub use check::check_layout;
pub use load::{ImageError, load_image};
pub use save::{Saved, save_image};
