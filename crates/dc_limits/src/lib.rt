//! The numbers of the profile as code has them, each proved to be the one of `dc_model`.
#![tactic(auto)]

ghost use Rattle.std.specs.Prelude.{◌≡◌};
ghost use Rattle.dc_model.specs.Limits.{longest_label, longest_name, most_name_steps, longest_packet, longest_datagram, longest_request, longest_gathered, most_suffixes, longest_suffix, least_cache, most_cache, longest_key, longest_body, longest_group, longest_kept, most_ttl, longest_negative, lasting, most_zones, most_permissions, most_levels, most_hosts, most_aliases, most_rows, most_queries, most_connections, most_works, most_seats, most_links, first_wait, second_wait, third_wait, fourth_wait, tcp_wait, client_wait, most_refusals};

/// How many bytes a label has at most.
pub const LONGEST_LABEL: u8 = 63;

/// How many bytes a name has at most on the wire.
pub const LONGEST_NAME: usize = 255;

/// How many bytes of a name and pointers in it are read at most.
pub const MOST_NAME_STEPS: usize = 999;

/// How many bytes a message has at most.
pub const LONGEST_PACKET: usize = 65535;

/// How many bytes a datagram between a server and its client has at most.
pub const LONGEST_DATAGRAM: usize = 512;

/// How many bytes of a client's datagram are looked at.
pub const LONGEST_REQUEST: usize = 1023;

/// How many bytes of a stream are gathered: a length and the longest message.
pub const LONGEST_GATHERED: usize = 65537;

/// How many names a reply's pointers lead to at most.
pub const MOST_SUFFIXES: usize = 100;

/// How many bytes such a name has at most.
pub const LONGEST_SUFFIX: usize = 128;

/// How many bytes a cache has at least.
pub const LEAST_CACHE: u32 = 100;

/// How many bytes a cache has at most.
pub const MOST_CACHE: u32 = 1_000_000_000;

/// How many bytes an entry's key has at most.
pub const LONGEST_KEY: usize = 1000;

/// How many bytes an entry's body has at most.
pub const LONGEST_BODY: usize = 1_000_000;

/// How many bytes a packet's group of records has at most, to be put.
pub const LONGEST_GROUP: usize = 8192;

/// How many seconds an entry is kept at most: a week.
pub const LONGEST_KEPT: u32 = 604_800;

/// A TTL of more seconds counts as none.
pub const MOST_TTL: u32 = 1_000_000_000;

/// How many seconds it is kept at most that something isn't there: an hour.
pub const LONGEST_NEGATIVE: u32 = 3600;

/// The TTL of what is built in, in seconds.
pub const LASTING: u32 = 655_360;

/// How many zones are configured at most.
pub const MOST_ZONES: usize = 256;

/// How many permissions there are at most.
pub const MOST_PERMISSIONS: usize = 4096;

/// How many frames a query has at most.
pub const MOST_LEVELS: usize = 5;

/// How many server names a frame has at most.
pub const MOST_HOSTS: usize = 16;

/// How many aliases a query follows at most.
pub const MOST_ALIASES: usize = 16;

/// More rows than a turn comes to.
pub const MOST_ROWS: u32 = 4000;

/// How many queries of clients over UDP are active at most.
pub const MOST_QUERIES: usize = 200;

/// How many connections of clients are open at most.
pub const MOST_CONNECTIONS: usize = 20;

/// How many queries there are at most: the active ones over UDP, one on each connection, and the one that begins.
pub const MOST_WORKS: usize = 221;

/// How many sockets there are for connections of clients.
pub const MOST_SEATS: usize = 24;

/// How many sockets there are for links to servers.
pub const MOST_LINKS: usize = 224;

/// How many milliseconds a server is given over UDP in the first round.
pub const FIRST_WAIT: u64 = 1_000;

/// And in the second.
pub const SECOND_WAIT: u64 = 3_000;

/// And in the third.
pub const THIRD_WAIT: u64 = 11_000;

/// And in the fourth.
pub const FOURTH_WAIT: u64 = 45_000;

/// How many milliseconds a server is given over TCP.
pub const TCP_WAIT: u64 = 10_000;

/// How many milliseconds a client's connection may be idle.
pub const CLIENT_WAIT: u64 = 10_000;

/// So many refusals of a local port are borne, and the next ends the transmission.
pub const MOST_REFUSALS: u8 = 9;

/// These are the numbers that the definitions have.
pub fn numbers()
    ensures longest_label_is { LONGEST_LABEL ≡ longest_label }
    ensures longest_name_is { LONGEST_NAME ≡ longest_name }
    ensures most_name_steps_is { MOST_NAME_STEPS ≡ most_name_steps }
    ensures longest_packet_is { LONGEST_PACKET ≡ longest_packet }
    ensures longest_datagram_is { LONGEST_DATAGRAM ≡ longest_datagram }
    ensures longest_request_is { LONGEST_REQUEST ≡ longest_request }
    ensures longest_gathered_is { LONGEST_GATHERED ≡ longest_gathered }
    ensures most_suffixes_is { MOST_SUFFIXES ≡ most_suffixes }
    ensures longest_suffix_is { LONGEST_SUFFIX ≡ longest_suffix }
    ensures least_cache_is { LEAST_CACHE ≡ least_cache }
    ensures most_cache_is { MOST_CACHE ≡ most_cache }
    ensures longest_key_is { LONGEST_KEY ≡ longest_key }
    ensures longest_body_is { LONGEST_BODY ≡ longest_body }
    ensures longest_group_is { LONGEST_GROUP ≡ longest_group }
    ensures longest_kept_is { LONGEST_KEPT ≡ longest_kept }
    ensures most_ttl_is { MOST_TTL ≡ most_ttl }
    ensures longest_negative_is { LONGEST_NEGATIVE ≡ longest_negative }
    ensures lasting_is { LASTING ≡ lasting }
    ensures most_zones_is { MOST_ZONES ≡ most_zones }
    ensures most_permissions_is { MOST_PERMISSIONS ≡ most_permissions }
    ensures most_levels_is { MOST_LEVELS ≡ most_levels }
    ensures most_hosts_is { MOST_HOSTS ≡ most_hosts }
    ensures most_aliases_is { MOST_ALIASES ≡ most_aliases }
    ensures most_rows_is { MOST_ROWS ≡ most_rows }
    ensures most_queries_is { MOST_QUERIES ≡ most_queries }
    ensures most_connections_is { MOST_CONNECTIONS ≡ most_connections }
    ensures most_works_is { MOST_WORKS ≡ most_works }
    ensures most_seats_is { MOST_SEATS ≡ most_seats }
    ensures most_links_is { MOST_LINKS ≡ most_links }
    ensures first_wait_is { FIRST_WAIT ≡ first_wait }
    ensures second_wait_is { SECOND_WAIT ≡ second_wait }
    ensures third_wait_is { THIRD_WAIT ≡ third_wait }
    ensures fourth_wait_is { FOURTH_WAIT ≡ fourth_wait }
    ensures tcp_wait_is { TCP_WAIT ≡ tcp_wait }
    ensures client_wait_is { CLIENT_WAIT ≡ client_wait }
    ensures most_refusals_is { MOST_REFUSALS ≡ most_refusals }
{}
