//! The packet, by its class.
ghost use Rattle.std.specs.Prelude.{◌≡◌, ◌<◌, ◌≤◌, ◌^◌, length, map};
ghost use Rattle.dc_model.specs.Limits.{longest_packet, most_turns};
ghost use Rattle.dc_model.specs.Event.{second, line};
ghost use Rattle.dc_model.specs.Message.{message_of};
ghost use Rattle.dc_model.specs.Puts.{all_put, given_of, lines_given, puts_given};
ghost use Rattle.dc_packet.specs.Rows.{AreRowsOf, message_in};
ghost use Rattle.dc_frames.specs.View.{query_of};
ghost use Rattle.dc_machine.specs.Query.{top_of};
ghost use Rattle.dc_machine.specs.Turn.{heard_row, message_row, kept_of};
ghost use Rattle.dc_desk.specs.Steps.{TookRow};
ghost use Rattle.dc_heard.specs.Accepted.{accepted_of};
ghost use Rattle.dc_heard.specs.Said.{class_said};

use crate::follow::follow;
use crate::record::said;
use crate::says::{Says, said_by};
use dc_desk::{Cause, Desk, Moment, Outcome, Step};
use dc_engine::Effects;
use dc_frames::{Query, found, puts};
use dc_store::Store;

/// A packet that was accepted, and the server that sent it.
#[derive(Clone, Copy)]
pub struct Answered<'a> {
    /// At most 65535 bytes.
    pub packet: &'a [u8],
    /// The server's address.
    pub server: [u8; 4],
    /// The server's place among those that were asked, below 16.
    pub place: usize,
}

/// A packet that a server sent is heard. It counts a turn: the hundredth drops the query with `Turns`, and a packet that is no
/// message with `Malformed`. The records of a message are put into the cache, unless its server is lame, and the message is then
/// followed by its class (after djbdns' query.c; RFC 1034, 5.3.3; RFC 2308). The moment is in milliseconds.
pub fn hear<S: Store, O: Effects>(
    query: &mut Query,
    desk: &mut Desk<S>,
    answer: Answered<'_>,
    moment: Moment<'_>,
    out: &mut O,
) -> Step
    requires some { 0 < length (query_of query.old).frames }
    requires turns { (query_of query.old).turns < most_turns }
    requires packet { length answer.packet.now ≤ longest_packet }
    requires place { answer.place < 16 }
    requires moment { moment.time < 2 ^ 62 }
    ensures { TookRow O.acted S.cache (heard_row (accepted_of answer.entry)) moment.entry out.old query.old desk.old out.new query.new desk.new result }
{
    query.count();
    if query.turns() >= 100 {
        return Step::End(Outcome::Dropped(Cause::Turns));
    }
    read(query, desk, answer, moment, out)
}

/// The packet is read. One that is no message drops the query.
fn read<S: Store, O: Effects>(
    query: &mut Query,
    desk: &mut Desk<S>,
    answer: Answered<'_>,
    moment: Moment<'_>,
    out: &mut O,
) -> Step
    requires some { 0 < length (query_of query.old).frames }
    requires packet { length answer.packet.now ≤ longest_packet }
    requires place { answer.place < 16 }
    requires moment { moment.time < 2 ^ 62 }
    ensures { TookRow O.acted S.cache (message_row (message_of answer.entry.packet.now) (accepted_of answer.entry)) moment.entry out.old query.old desk.old out.new query.new desk.new result }
{
    match desk.table.read(answer.packet) {
        Ok(()) => take(query, desk, answer, moment, out),
        Err(_) => Step::End(Outcome::Dropped(Cause::Malformed)),
    }
}

/// A message is taken: its records are put into the cache, and it is followed.
fn take<S: Store, O: Effects>(
    query: &mut Query,
    desk: &mut Desk<S>,
    answer: Answered<'_>,
    moment: Moment<'_>,
    out: &mut O,
) -> Step
    requires some { 0 < length (query_of query.old).frames }
    requires packet { length answer.packet.now ≤ longest_packet }
    requires rows { AreRowsOf answer.packet.now desk.old.table }
    requires place { answer.place < 16 }
    requires moment { moment.time < 2 ^ 62 }
    ensures { TookRow O.acted S.cache (message_row (message_of answer.entry.packet.now) (accepted_of answer.entry)) moment.entry out.old query.old desk.old out.new query.new desk.new result }
{
    let found = found(&desk.table, answer.packet, query.name(), query.wanted());
    let says = said_by(&said(answer.packet, &desk.table), &found, query.control());
    keep(query, desk, says, answer, moment, out);
    follow(query, desk, says, &found, answer, moment, out)
}

/// The records of a message are put into the cache, and told. Of a lame server's message nothing is kept.
fn keep<S: Store, O: Effects>(
    query: &Query,
    desk: &mut Desk<S>,
    says: Says,
    answer: Answered<'_>,
    moment: Moment<'_>,
    out: &mut O,
)
    requires some { 0 < length (query_of query.now).frames }
    requires packet { length answer.packet.now ≤ longest_packet }
    requires rows { AreRowsOf answer.packet.now desk.old.table }
    requires moment { moment.time < 2 ^ 62 }
    ensures store { S.cache desk.new.store ≡ all_put (puts_given (kept_of (class_said (message_in answer.entry.packet.now) says) (given_of desk.old.zones (top_of (query_of query.now)).control answer.entry.server (message_in answer.entry.packet.now)))) (second moment.entry.time) (S.cache desk.old.store) }
    ensures acts { O.acted out.old (map line (lines_given (kept_of (class_said (message_in answer.entry.packet.now) says) (given_of desk.old.zones (top_of (query_of query.now)).control answer.entry.server (message_in answer.entry.packet.now))))) out.new }
    ensures rest { desk.new ≡ record desk.old { store = desk.new.store } }
{
    if let Says::Lame(_) = says {
        return;
    }
    puts(
        &mut desk.table,
        answer.packet,
        query.control(),
        &desk.zones,
        answer.server,
        moment.second(),
        &mut desk.store,
        out,
    );
}
