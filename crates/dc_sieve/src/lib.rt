//! The filter over an input: lines are read, their hosts are asked for, and lines are written.
#![tactic(auto)]

mod input;
mod settle;
mod sifting;

pub use input::{Input, Read};
pub use sifting::{Sieve, sift};
