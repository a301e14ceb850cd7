//! Events without their bytes.

/// What kind of event came.
#[derive(Clone, Copy, PartialEq, Eq, Debug)]
pub enum Kind {
    /// The clock alone.
    Tick,
    /// A datagram of a client.
    Request,
    /// A datagram of a server.
    Datagram,
    /// A connection to a server stands.
    LinkUp,
    /// A part of a server's stream.
    LinkBytes,
    /// A connection to a server, or a datagram to it, failed or ended.
    LinkDown,
    /// The local port of a link is taken.
    BindRefused,
    /// A client opened a connection.
    ConnUp,
    /// A part of a client's stream.
    ConnBytes,
    /// A client's connection ended.
    ConnDown,
}

/// An event without its bytes.
#[derive(Clone, Copy, Debug)]
pub struct Event {
    /// The moment in milliseconds, below 2^62.
    pub now: u64,
    pub kind: Kind,
    /// The number of a link or of a client's connection, and 0 for Tick and Request.
    pub id: u64,
    /// Where it came from, or 0.0.0.0.
    pub addr: [u8; 4],
    pub port: u16,
    /// How many bytes came with it, at most 65535.
    pub len: usize,
}
