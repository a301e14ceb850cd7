//! How queries end, and connections with them.
ghost use Rattle.std.specs.Prelude.{◌≡◌, ◌+◌, ◌<◌, ◌^◌, [], ◌∷◌, length, IsTrue, Some, slice_get};
ghost use Rattle.std.specs.List.{remove};
ghost use Rattle.dc_model.specs.Limits.{most_active, most_works};
ghost use Rattle.dc_model.specs.Event.{line};
ghost use Rattle.dc_model.specs.Line as words;
ghost use Rattle.dc_model.specs.Reply as model;
ghost use Rattle.dc_lines.specs.Causes.{drop_cause_of, close_cause_of};
ghost use Rattle.dc_reply.specs.Draft.{draft_of};
ghost use Rattle.dc_frames.specs.View.{query_of};
ghost use Rattle.dc_machine.specs.Turn as turn;
ghost use Rattle.dc_machine.specs.Machine.{Active, did, after, drop_actions, closed_alone, closed_with, replied_to, dropped_for, settled, drop_cause as cause_with};
ghost use Rattle.dc_resolve.specs.Steps.{Ends};
ghost use Rattle.dc_active.specs.View.{client_of};
ghost use Rattle.dc_connections.specs.Places.{connection_at};
ghost use Rattle.dc_clients.specs.View.{machine_of, rules_of, works, AreBelow, Took};
ghost use Rattle.dc_clients.specs.Endings.{EndsWell};

use crate::clients::Clients;
use dc_active::{Client, Taken};
use dc_desk::Outcome;
use dc_engine::Effects;
use dc_limits::CLIENT_WAIT;
use dc_lines::{CloseCause, DropCause, Line, line_drop, line_sent, line_tcpclose};
use dc_store::Store;

/// How many bytes a message's length takes, which stand before it in a stream.
const FRAME: usize = 2;

/// Why a query is dropped with its connection.
fn drop_cause(cause: CloseCause) -> DropCause
    ensures { drop_cause_of result ≡ cause_with (close_cause_of cause) }
{
    match cause {
        CloseCause::Displaced => DropCause::Displaced,
        CloseCause::Long => DropCause::TooLong,
        CloseCause::Closed | CloseCause::Timeout | CloseCause::Proto | CloseCause::Drop => {
            DropCause::Closed
        }
    }
}

impl<S: Store> Clients<S> {
    /// Closes the connection at a place, which has no query.
    pub(crate) fn close_alone<O: Effects>(&mut self, i: usize, cause: CloseCause, out: &mut O)
        requires place { i < length self.old.connections }
        ensures step { Took O.acted S.cache out.old self.old out.new self.new
            (closed_alone (close_cause_of cause) (connection_at self.old.connections i) (machine_of S.cache self.old)) }
        ensures desk { self.new.desk ≡ self.old.desk }
        ensures queries { self.new.queries ≡ self.old.queries }
        ensures fewer { length self.new.connections + 1 ≡ length self.old.connections }
    {
        let number = self.connections.number(i);
        let mut line = Line::new();
        line_tcpclose(
            &mut line,
            self.connections.addr(i),
            self.connections.port(i),
            cause,
        );
        out.line(line.text());
        out.conn_close(number);
        self.connections.close(i);
    }

    /// Drops the active query at a place: its link is closed first.
    pub(crate) fn drop_active<O: Effects>(&mut self, i: usize, cause: DropCause, out: &mut O)
        requires place { i < length self.old.queries.queries }
        requires works { works self.old ≡ most_works }
        requires counts { AreBelow (2 ^ 63) self.old.desk.counts }
        ensures step { (a : Active) → slice_get self.old.queries.queries i ≡ Some a → Took O.acted S.cache out.old self.old out.new self.new
            (did (drop_actions (drop_cause_of cause) a) (record (machine_of S.cache self.old) {
              queries = remove self.old.queries.queries i;
              dropped = self.old.desk.counts.dropped + 1;
            })) }
        ensures works { works self.new ≡ most_works }
        ensures connections { self.new.connections ≡ self.old.connections }
        ensures accepted { self.new.desk.counts.accepted ≡ self.old.desk.counts.accepted }
    {
        let Taken {
            serial,
            client: _client,
            mut work,
        } = self.queries.take(i);
        work.sender.stop(out);
        let mut line = Line::new();
        line_drop(&mut line, serial, cause);
        out.line(line.text());
        self.queries.give_back(work);
        self.desk.counts.dropped += 1;
    }

    /// Closes the connection at a place. Its query, where it has one, is dropped first.
    pub(crate) fn close<O: Effects>(&mut self, i: usize, cause: CloseCause, out: &mut O)
        requires place { i < length self.old.connections }
        requires works { works self.old ≡ most_works }
        requires counts { AreBelow (2 ^ 63) self.old.desk.counts }
        ensures step { Took O.acted S.cache out.old self.old out.new self.new
            (closed_with (close_cause_of cause) (connection_at self.old.connections i) (machine_of S.cache self.old)) }
        ensures works { works self.new ≡ most_works }
        ensures accepted { self.new.desk.counts.accepted ≡ self.old.desk.counts.accepted }
        ensures fewer { length self.new.connections + 1 ≡ length self.old.connections }
    {
        let number = self.connections.number(i);
        if let Some(place) = self.queries.find_connection(number) {
            self.drop_active(place, drop_cause(cause), out);
        }
        self.close_alone(i, cause, out);
    }

    /// Replies to a query, which was taken out, by the reply that is kept. Its connection has ten seconds for its next request.
    fn reply<O: Effects>(&mut self, serial: u64, client: Client, now: u64, out: &mut O)
        requires begun { IsTrue self.old.desk.reply.begun }
        requires counts { AreBelow (2 ^ 63) self.old.desk.counts }
        requires moment { now < 2 ^ 62 }
        ensures step { (r : model.Reply) → self.old.desk.reply ≡ draft_of r → Took O.acted S.cache out.old self.old out.new self.new
            (replied_to (client_of client) serial now r (machine_of S.cache self.old)) }
        ensures queries { self.new.queries ≡ self.old.queries }
        ensures accepted { self.new.desk.counts.accepted ≡ self.old.desk.counts.accepted }
    {
        let mut line = Line::new();
        self.desk.counts.sent += 1;
        match client {
            Client::Udp { addr, port } => {
                let bytes = self.desk.reply.finish_udp();
                out.reply(addr, port, bytes);
                line_sent(&mut line, serial, bytes.len());
            }
            Client::Tcp { number } => {
                let bytes = self.desk.reply.finish_tcp();
                out.conn_reply(number, bytes);
                line_sent(&mut line, serial, bytes.len().saturating_sub(FRAME));
                self.connections.renew(number, now + CLIENT_WAIT);
            }
        }
        out.line(line.text());
    }

    /// Drops a query, which was taken out, and closes its connection.
    fn give_up<O: Effects>(&mut self, serial: u64, client: Client, cause: DropCause, out: &mut O)
        requires counts { AreBelow (2 ^ 63) self.old.desk.counts }
        ensures step { Took O.acted S.cache out.old self.old out.new self.new
            (after (line (words.line_drop serial (drop_cause_of cause)) ∷ []) (dropped_for (client_of client) (record (machine_of S.cache self.old) { dropped = self.old.desk.counts.dropped + 1 }))) }
        ensures queries { self.new.queries ≡ self.old.queries }
        ensures accepted { self.new.desk.counts.accepted ≡ self.old.desk.counts.accepted }
    {
        let mut line = Line::new();
        line_drop(&mut line, serial, cause);
        out.line(line.text());
        self.desk.counts.dropped += 1;
        if let Client::Tcp { number } = client {
            if let Some(i) = self.connections.find(number) {
                self.close_alone(i, CloseCause::Drop, out);
            }
        }
    }

    /// Does what the outcome of a turn asks for. The query was taken out.
    pub(crate) fn settle<O: Effects>(
        &mut self,
        taken: Taken,
        outcome: Outcome,
        now: u64,
        out: &mut O,
    )
        requires ended { EndsWell outcome self.old.desk.reply taken.work.value }
        requires works { works self.old ≡ most_active }
        requires counts { AreBelow (2 ^ 63) self.old.desk.counts }
        requires moment { now < 2 ^ 62 }
        ensures step { (o : turn.Outcome) → Ends outcome self.old.desk.reply taken.work.value.sender o → Took O.acted S.cache out.old self.old out.new self.new
            (settled o (client_of taken.client) taken.serial now (query_of taken.work.value.query) (machine_of S.cache self.old)) }
        ensures works { works self.new ≡ most_works }
        ensures accepted { self.new.desk.counts.accepted ≡ self.old.desk.counts.accepted }
    {
        match outcome {
            Outcome::Waiting => self.queries.put(taken),
            Outcome::Replied => {
                self.queries.give_back(taken.work);
                self.reply(taken.serial, taken.client, now, out);
            }
            Outcome::Dropped(cause) => {
                self.queries.give_back(taken.work);
                self.give_up(taken.serial, taken.client, cause.drop_cause(), out);
            }
        }
    }
}
