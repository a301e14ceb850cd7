//! The data of records.
ghost use Rattle.std.specs.Prelude.{◌≡◌};
ghost use Rattle.dc_reply.specs.Bodies.{body_of};
ghost use Rattle.dc_reply.specs.Put.{plain_length};

use dc_name::Name;

/// The data of a record, for a reply (RFC 1035, 3.3). Names in it may be written as pointers.
#[derive(Clone, Copy, Debug)]
pub enum Body<'a> {
    /// Bytes as they are.
    Bytes(&'a [u8]),
    /// A name alone, as of NS, CNAME and PTR records.
    Host(&'a Name),
    /// A preference and a mail exchange.
    Mx(u16, &'a Name),
    /// The primary server and the mailbox of a zone, and five numbers of four bytes each.
    Soa(&'a Name, &'a Name, &'a [u8]),
}

impl Body<'_> {
    /// How many bytes of it are written as they are.
    pub(crate) fn plain_len(&self) -> usize
        ensures { result ≡ plain_length (body_of self.now) }
    {
        match self {
            Body::Bytes(bytes) | Body::Soa(_, _, bytes) => bytes.len(),
            _ => 0,
        }
    }
}
