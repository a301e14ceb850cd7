//! Why the system can't be used any further.

use std::net::SocketAddr;
use std::{fmt, io};

/// A call that the service can't go on without.
#[derive(Clone, Copy)]
pub(crate) enum Vital {
    /// A socket for clients' datagrams at an address and port.
    Datagrams(SocketAddr),
    /// A socket for clients' connections at an address and port.
    Connections(SocketAddr),
    /// The wait for sockets.
    Wait,
    /// The reading of the clock.
    Clock,
    /// The writing of the log.
    Log,
}

/// Such a call that failed, and the reason that the system gave.
#[derive(Clone, Copy)]
pub struct Failure {
    pub(crate) call: Vital,
    pub(crate) reason: io::Error,
}

impl fmt::Display for Failure {
    /// The call, with its address and port if it has one, and the system's reason.
    fn fmt<W: fmt::Write>(&self, f: &mut fmt::Formatter<W>) -> fmt::Result {
        let reason = self.reason;
        match self.call {
            Vital::Datagrams(at) => write!(f, "unable to take datagrams at {at}: {reason}"),
            Vital::Connections(at) => write!(f, "unable to take connections at {at}: {reason}"),
            Vital::Wait => write!(f, "unable to wait for sockets: {reason}"),
            Vital::Clock => write!(f, "unable to read the clock: {reason}"),
            Vital::Log => write!(f, "unable to write the log: {reason}"),
        }
    }
}
