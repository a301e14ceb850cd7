//! Why a zone or a permission isn't added.

use thiserror::Error;

/// Why a zone isn't added.
#[derive(Clone, Copy, Debug, PartialEq, Eq, Error)]
pub enum ZoneError {
    /// A zone of the same name is there, case aside.
    #[error("the zone is configured already")]
    Duplicate,
    /// There are 256 zones.
    #[error("there are 256 zones already")]
    Full,
}

/// Why a permission isn't added.
#[derive(Clone, Copy, Debug, PartialEq, Eq, Error)]
pub enum PermitError {
    /// The text isn't one to four numbers up to 255 that are joined by dots.
    #[error("the text isn't the beginning of an address")]
    BadName,
    /// All 4096 places are taken.
    #[error("there are 4096 permissions already")]
    Full,
}
