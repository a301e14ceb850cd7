//! The moment of an event.
ghost use Rattle.std.specs.Prelude.{◌≡◌};
ghost use Rattle.dc_model.specs.Event.{second};

/// The moment of an event, and its random words.
#[derive(Clone, Copy)]
pub struct Moment<'a> {
    /// In milliseconds.
    pub time: u64,
    /// The random words.
    pub draws: &'a [u32; 17],
}

impl<'a> Moment<'a> {
    /// The second that it lies in, which is the cache's clock.
    pub fn second(self) -> u64
        ensures { result ≡ second self.entry.time }
    {
        self.time / 1000
    }
}
