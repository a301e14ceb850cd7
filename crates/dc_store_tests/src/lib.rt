//! Tests of the cache's crates: worked rows on both stores, on the block and on the chains.
#![tactic(auto)]

#[cfg(test)]
mod block;
#[cfg(test)]
mod both;
#[cfg(test)]
mod chains;
#[cfg(test)]
mod rows;
