//! What the queries share.

use dc_packet::Table;
use dc_reply::Reply;
use dc_rules::Zones;
use dc_store::Store;

/// What the queries of a resolver share.
#[derive(Drop)]
pub struct Desk<S: Store> {
    /// The zones with servers of their own, and the rule.
    pub zones: Zones,
    /// Whether all questions go to the configured servers, with recursion wanted.
    pub forward: bool,
    /// The cache.
    pub store: S,
    /// The records of the message at work.
    pub table: Table,
    /// The reply that is being made.
    pub reply: Reply,
    /// How many links were used so far.
    pub link: u64,
    /// How many queries and connections there were and are.
    pub counts: Counts,
}

/// How many queries and connections there were and are.
#[derive(Clone, Copy, Debug, PartialEq, Eq)]
pub struct Counts {
    /// Queries accepted so far.
    pub accepted: u64,
    /// Queries replied to so far.
    pub sent: u64,
    /// Queries dropped so far.
    pub dropped: u64,
    /// Active queries.
    pub active: u64,
    /// Active queries of clients over UDP.
    pub udp: u64,
    /// Open connections.
    pub tcp: u64,
}
