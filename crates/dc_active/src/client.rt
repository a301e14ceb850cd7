//! Who is replied to.
ghost use Rattle.std.specs.Prelude.{◌≡◌};
ghost use Rattle.dc_machine.specs.Machine.{is_udp, is_on, one_if};
ghost use Rattle.dc_active.specs.View.{client_of};

/// Who is replied to.
#[derive(Clone, Copy, Debug, PartialEq, Eq)]
pub enum Client {
    /// Over UDP, at this address and port.
    Udp { addr: [u8; 4], port: u16 },
    /// On the connection of this number.
    Tcp { number: u64 },
}

impl Client {
    /// Whether the client came over UDP.
    pub fn is_udp(self) -> bool
        ensures { result ≡ is_udp (client_of self) }
    {
        match self {
            Client::Udp { .. } => true,
            Client::Tcp { .. } => false,
        }
    }

    /// Whether the client is on the connection of this number.
    pub fn is_on(self, number: u64) -> bool
        ensures { result ≡ is_on number (client_of self) }
    {
        match self {
            Client::Udp { .. } => false,
            Client::Tcp { number: own } => own == number,
        }
    }

    /// How much a query of this client adds to the number of UDP queries.
    pub(crate) fn udp_count(self) -> usize
        ensures { result ≡ one_if (is_udp (client_of self)) }
    {
        match self {
            Client::Udp { .. } => 1,
            Client::Tcp { .. } => 0,
        }
    }
}
