//! Actions, as they are written.

/// What an engine did, with the bytes that it handed out.
#[derive(Clone, Copy)]
pub enum Action<'a> {
    /// A message to a client over UDP.
    Reply {
        addr: [u8; 4],
        port: u16,
        bytes: &'a [u8],
    },
    /// Two length bytes and a message to a client's connection.
    ConnReply {
        conn: u64,
        bytes: &'a [u8],
    },
    /// A client's connection is closed.
    ConnClose {
        conn: u64,
    },
    /// A query to port 53 of a server over UDP.
    Udp {
        link: u64,
        local_port: u16,
        server: [u8; 4],
        query: &'a [u8],
    },
    /// A connection to port 53 of a server.
    Tcp {
        link: u64,
        local_port: u16,
        server: [u8; 4],
    },
    /// Two length bytes and a query to a server's connection.
    LinkWrite {
        link: u64,
        bytes: &'a [u8],
    },
    /// A link is closed.
    LinkClose {
        link: u64,
    },
    /// A line of the log, without its end.
    Line {
        text: &'a [u8],
    },
}
