//! Links over TCP that are remembered.
ghost use Rattle.std.specs.Prelude.{◌≡◌, ◌==◌, find};
ghost use Rattle.dc_simulation.specs.World.{Connected as ModelConnected};

use circular_buffer::HeapCircularBuffer;
use std::marker::Model;

/// A link and the server that it was made to.
#[derive(Clone, Copy, Debug)]
pub(crate) struct Connected {
    pub(crate) link: u64,
    pub(crate) server: [u8; 4],
}

impl Model for Connected {
    ghost use Rattle.dc_simulation.specs.World.{Connected as ModelConnected};

    ghost Value = { ModelConnected };

    ghost view = { λ a. record { link = a.link; server = a.server } };

    ghost inverse = { λ d. record { link = d.link; server = d.server } };
}

impl Connected {
    /// A link to a server.
    pub(crate) fn new(link: u64, server: [u8; 4]) -> Connected
        ensures { result ≡ record { link = link; server = server } }
    {
        Connected { link, server }
    }
}

/// The newest link of this number.
pub(crate) fn newest(ring: &HeapCircularBuffer<Connected>, link: u64) -> Option<Connected>
    ensures { result ≡ find (λ c. c.link == link) ring.now.items }
{
    ring.iter().copied().find(|c| c.link == link)
}
