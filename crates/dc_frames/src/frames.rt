//! The frames of a query, in slots that stay.
ghost use Rattle.std.specs.Prelude.{◌≤◌};
ghost use Rattle.dc_model.specs.Limits.{most_levels};

use crate::frame::Frame;
use dc_limits::MOST_LEVELS;

/// At most five frames, the lowest first. Each stays in its slot while others come and go, and a free slot keeps what was in it.
#[derive(Drop)]
pub struct Frames {
    pub slots: [Frame; MOST_LEVELS],
    pub len: usize,
    pub ghost few: { len ≤ most_levels },
}
