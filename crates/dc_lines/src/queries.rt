//! Lines on the life of queries and connections.
ghost use Rattle.std.specs.Prelude.{◌≡◌};
ghost use Rattle.dc_model.specs.Line.{line_starting, line_query, line_sent, line_drop, line_stats, line_tcpopen, line_tcpclose};
ghost use Rattle.dc_lines.specs.Causes.{drop_cause_of, close_cause_of};

use crate::{CloseCause, DropCause, Line};
use dc_name::Name;

/// The engine starts: `starting`.
#[tactic(auto, unfolding(dc_model::specs::Line::line_starting))]
pub fn line_starting(out: &mut Line)
    ensures { out.new ≡ line_starting }
{
    out.begin(b"starting");
}

/// A query is begun: `query N IP:PORT:ID TYPE NAME`, its serial number, the client, the id of its request, type and name.
#[tactic(auto, using(crate::proofs::WordLemmas::words_fold), unfolding(dc_model::specs::Line::line_query))]
pub fn line_query(
    out: &mut Line,
    serial: u64,
    addr: [u8; 4],
    port: u16,
    id: u16,
    qtype: u16,
    name: &Name,
)
    ensures { out.new ≡ line_query serial addr port id qtype name.now }
{
    out.begin(b"query");
    out.number(serial);
    out.client(addr, port);
    out.hex_number(id);
    out.number(u64::from(qtype));
    out.name(name);
}

/// A query is replied to: `sent N N`, its serial number and the message's length.
#[tactic(auto, using(crate::proofs::WordLemmas::words_fold), unfolding(dc_model::specs::Line::line_sent))]
pub fn line_sent(out: &mut Line, serial: u64, len: usize)
    ensures { out.new ≡ line_sent serial len }
{
    out.begin(b"sent");
    out.number(serial);
    out.number(len as u64);
}

/// A query is dropped: `drop N CAUSE`, its serial number and the cause.
#[tactic(auto, using(crate::proofs::WordLemmas::words_fold), unfolding(dc_model::specs::Line::line_drop))]
pub fn line_drop(out: &mut Line, serial: u64, cause: DropCause)
    ensures { out.new ≡ line_drop serial (drop_cause_of cause) }
{
    out.begin(b"drop");
    out.number(serial);
    out.word(cause.word());
}

/// The counts of queries accepted, bytes put into the cache, active UDP queries and open connections: `stats N N N N`.
#[tactic(auto, using(crate::proofs::WordLemmas::words_fold), unfolding(dc_model::specs::Line::line_stats))]
pub fn line_stats(out: &mut Line, accepted: u64, motion: u64, udp: u64, tcp: u64)
    ensures { out.new ≡ line_stats accepted motion udp tcp }
{
    out.begin(b"stats");
    out.number(accepted);
    out.number(motion);
    out.number(udp);
    out.number(tcp);
}

/// A client connects: `tcpopen IP:PORT`.
#[tactic(auto, using(crate::proofs::WordLemmas::words_fold), unfolding(dc_model::specs::Line::line_tcpopen))]
pub fn line_tcpopen(out: &mut Line, addr: [u8; 4], port: u16)
    ensures { out.new ≡ line_tcpopen addr port }
{
    out.begin(b"tcpopen");
    out.client(addr, port);
}

/// The connection of a client is closed: `tcpclose IP:PORT CAUSE`.
#[tactic(auto, using(crate::proofs::WordLemmas::words_fold), unfolding(dc_model::specs::Line::line_tcpclose))]
pub fn line_tcpclose(out: &mut Line, addr: [u8; 4], port: u16, cause: CloseCause)
    ensures { out.new ≡ line_tcpclose addr port (close_cause_of cause) }
{
    out.begin(b"tcpclose");
    out.client(addr, port);
    out.word(cause.word());
}
