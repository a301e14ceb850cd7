//! An open connection.
use crate::stream::Stream;

/// A client's connection: its number, the client's address and port, the moment of its deadline in milliseconds, and the bytes
/// that came and weren't used.
#[derive(Drop)]
pub(crate) struct Entry {
    pub(crate) number: u64,
    pub(crate) addr: [u8; 4],
    pub(crate) port: u16,
    pub(crate) deadline: u64,
    pub(crate) stream: Stream,
}
