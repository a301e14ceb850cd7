//! Why a text is no name.

use thiserror::Error;

/// Why a dotted text is no name: by the first part, from the left, that can't be a label of it.
#[derive(Clone, Copy, Debug, PartialEq, Eq, Error)]
pub enum NameError {
    /// The part has no byte.
    #[error("a part of the name is empty")]
    EmptyLabel,
    /// The part has over 63 bytes (RFC 1035, 2.3.4).
    #[error("a part of the name has over 63 bytes")]
    LongLabel,
    /// With the part the name has over 255 bytes in a message (RFC 1035, 2.3.4).
    #[error("the name has over 255 bytes")]
    LongName,
}
