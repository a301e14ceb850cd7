//! What is answered where a packet says nothing.

use thiserror::Error;

/// A name or a message that can't be read.
#[derive(Clone, Copy, Debug, PartialEq, Eq, Error)]
#[error("the packet is malformed")]
pub struct Malformed;
