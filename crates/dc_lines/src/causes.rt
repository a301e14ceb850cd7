//! Why queries are dropped and connections closed, and the types with a word of their own.
ghost use Rattle.std.specs.Prelude.{◌≡◌, ◌≤◌, length};
ghost use Rattle.dc_model.specs.Line.{drop_word, close_word, host_word};
ghost use Rattle.dc_lines.specs.Causes.{drop_cause_of, close_cause_of, host_kind_of};

/// Why a query is dropped.
#[derive(Clone, Copy, Debug, PartialEq, Eq)]
pub enum DropCause {
    /// It asks for a whole zone.
    Axfr,
    /// An answer to it has no message.
    Malformed,
    /// It took too many turns.
    Turns,
    /// It met too many aliases.
    Aliases,
    /// Its answer belongs to no name that was asked for.
    Foreign,
    /// Its reply would pass 65535 bytes.
    TooLong,
    /// No local port could be had.
    NoPort,
    /// A newer query took its place.
    Displaced,
    /// The client's connection was closed.
    Closed,
}

/// Why a client's connection is closed.
#[derive(Clone, Copy, Debug, PartialEq, Eq)]
pub enum CloseCause {
    /// A newer connection took its place.
    Displaced,
    /// The client closed it.
    Closed,
    /// Nothing came in time.
    Timeout,
    /// What came is no request.
    Proto,
    /// Its query was dropped.
    Drop,
    /// More came than one request has.
    Long,
}

/// A type whose records hold the name of a host and nothing else.
#[derive(Clone, Copy, Debug, PartialEq, Eq)]
pub enum HostKind {
    /// A name server.
    Ns,
    /// The name that an alias stands for.
    Cname,
    /// The name of an address.
    Ptr,
}

impl DropCause {
    /// The cause's word in a line.
    pub(crate) fn word(self) -> &'static [u8]
        ensures word { result.now ≡ drop_word (drop_cause_of self) }
        ensures short { length result.now ≤ 9 }
    {
        match self {
            DropCause::Axfr => b"axfr",
            DropCause::Malformed => b"malformed",
            DropCause::Turns => b"turns",
            DropCause::Aliases => b"aliases",
            DropCause::Foreign => b"foreign",
            DropCause::TooLong => b"long",
            DropCause::NoPort => b"noport",
            DropCause::Displaced => b"displaced",
            DropCause::Closed => b"closed",
        }
    }
}

impl CloseCause {
    /// The cause's word in a line.
    pub(crate) fn word(self) -> &'static [u8]
        ensures word { result.now ≡ close_word (close_cause_of self) }
        ensures short { length result.now ≤ 9 }
    {
        match self {
            CloseCause::Displaced => b"displaced",
            CloseCause::Closed => b"closed",
            CloseCause::Timeout => b"timeout",
            CloseCause::Proto => b"proto",
            CloseCause::Drop => b"drop",
            CloseCause::Long => b"long",
        }
    }
}

impl HostKind {
    /// The type's word in a line.
    pub(crate) fn word(self) -> &'static [u8]
        ensures word { result.now ≡ host_word (host_kind_of self) }
        ensures short { length result.now ≤ 5 }
    {
        match self {
            HostKind::Ns => b"ns",
            HostKind::Cname => b"cname",
            HostKind::Ptr => b"ptr",
        }
    }
}
