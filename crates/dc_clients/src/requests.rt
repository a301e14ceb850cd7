//! Requests: a query begins, goes on at an event of its link, and makes room for another.
ghost use Rattle.std.specs.Prelude.{◌≡◌, ℕ, ◌+◌, ◌<◌, ◌≤◌, ◌^◌, ◌==◌, ◌&&◌, not, nat_lt, List, length, Some, slice_get};
ghost use Rattle.std.specs.List.{remove};
ghost use Rattle.dc_model.specs.Limits.{most_active, most_works};
ghost use Rattle.dc_model.specs.Transmission.{after_event};
ghost use Rattle.dc_packet.specs.Question.{asked};
ghost use Rattle.dc_machine.specs.Kept.{IsSound};
ghost use Rattle.dc_machine.specs.Query.{query_for};
ghost use Rattle.dc_machine.specs.Turn.{at_begin};
ghost use Rattle.dc_machine.specs.Machine.{Active, turned, begun, progressed_by, occasion_of, is_refused, with_room, request_step, link_step};
ghost use Rattle.dc_active.specs.View.{client_of};
ghost use Rattle.dc_clients.specs.View.{machine_of, input_of, rules_of, works, AreBelow, Took};

use crate::clients::Clients;
use dc_active::{Client, Taken};
use dc_engine::{Effects, Inbox};
use dc_limits::{LONGEST_REQUEST, MOST_QUERIES};
use dc_lines::{DropCause, Line, line_query};
use dc_packet::{Request, read_request};
use dc_resolve::{event, start};
use dc_store::Store;

/// The first port that isn't a privileged one.
const FIRST_FREE_PORT: u16 = 1024;

/// The port of servers.
const SERVER_PORT: u16 = 53;

/// Whether a port is a privileged one, but for the port of servers.
fn is_privileged(port: u16) -> bool
    ensures { result ≡ (nat_lt port 1024 && not (port == 53)) }
{
    port < FIRST_FREE_PORT && port != SERVER_PORT
}

impl<S: Store> Clients<S> {
    /// A query of this serial number begins with a request, and has its first turn.
    fn begin<O: Effects>(
        &mut self,
        serial: u64,
        client: Client,
        request: &Request,
        inbox: &Inbox,
        draws: &[u32; 17],
        out: &mut O,
    )
        requires works { works self.old ≡ most_works }
        requires few { length self.old.queries.queries ≤ most_active }
        requires links { self.old.desk.link < 2 ^ 60 }
        requires counts { AreBelow (2 ^ 63) self.old.desk.counts }
        ensures step { Took O.acted S.cache out.old self.old out.new self.new
            (turned (input_of self.old inbox.now draws.now) at_begin (client_of client) serial (query_for (asked request.now)) (machine_of S.cache self.old)) }
        ensures works { works self.new ≡ most_works }
        ensures accepted { self.new.desk.counts.accepted ≡ self.old.desk.counts.accepted }
    {
        self.count(client);
        let mut taken = Taken {
            serial,
            client,
            work: self.queries.new_work(),
        };
        let now = inbox.event().now;
        let work = &mut *taken.work;
        let outcome = start(
            &mut work.query,
            &mut work.sender,
            request,
            &mut self.desk,
            draws,
            now,
            out,
        );
        self.settle(taken, outcome, now, out);
    }

    /// Accepts a request: a new query begins, with the next serial number, and has its first turn.
    pub(crate) fn accept<O: Effects>(
        &mut self,
        client: Client,
        addr: [u8; 4],
        port: u16,
        request: &Request,
        inbox: &Inbox,
        draws: &[u32; 17],
        out: &mut O,
    )
        requires works { works self.old ≡ most_works }
        requires few { length self.old.queries.queries ≤ most_active }
        requires links { self.old.desk.link < 2 ^ 60 }
        requires counts { AreBelow (2 ^ 62) self.old.desk.counts }
        ensures step { Took O.acted S.cache out.old self.old out.new self.new
            (begun (input_of self.old inbox.now draws.now) (client_of client) addr port (asked request.now) (machine_of S.cache self.old)) }
        ensures works { works self.new ≡ most_works }
        ensures accepted { self.new.desk.counts.accepted ≡ self.old.desk.counts.accepted + 1 }
    {
        let serial = self.desk.counts.accepted + 1;
        self.desk.counts.accepted = serial;
        let mut line = Line::new();
        line_query(
            &mut line,
            serial,
            addr,
            port,
            request.id,
            request.qtype,
            &request.name,
        );
        out.line(line.text());
        self.begin(serial, client, request, inbox, draws, out);
    }

    /// Gives an event to the active query at a place.
    pub(crate) fn give<O: Effects>(
        &mut self,
        i: usize,
        inbox: &Inbox,
        draws: &[u32; 17],
        out: &mut O,
    )
        requires place { i < length self.old.queries.queries }
        requires sound { IsSound (machine_of S.cache self.old) }
        requires works { works self.old ≡ most_works }
        requires links { self.old.desk.link < 2 ^ 60 }
        requires counts { AreBelow (2 ^ 62) self.old.desk.counts }
        ensures step { (a : Active) → slice_get self.old.queries.queries i ≡ Some a → Took O.acted S.cache out.old self.old out.new self.new
            (progressed_by (after_event inbox.now a.attempt (occasion_of (input_of self.old inbox.now draws.now) (machine_of S.cache self.old)))
            (input_of self.old inbox.now draws.now) a (record (machine_of S.cache self.old) { queries = remove self.old.queries.queries i })) }
        ensures works { works self.new ≡ most_works }
        ensures accepted { self.new.desk.counts.accepted ≡ self.old.desk.counts.accepted }
    {
        let mut taken = self.queries.take(i);
        self.count(taken.client);
        let work = &mut *taken.work;
        let outcome = event(
            &mut work.query,
            &mut work.sender,
            &mut self.desk,
            inbox,
            draws,
            out,
        );
        self.settle(taken, outcome, inbox.event().now, out);
    }

    /// Gives an event of a link to the query that waits on it.
    pub(crate) fn hear_link<O: Effects>(&mut self, inbox: &Inbox, draws: &[u32; 17], out: &mut O)
        requires sound { IsSound (machine_of S.cache self.old) }
        requires works { works self.old ≡ most_works }
        requires links { self.old.desk.link < 2 ^ 60 }
        requires counts { AreBelow (2 ^ 62) self.old.desk.counts }
        ensures step { Took O.acted S.cache out.old self.old out.new self.new
            (link_step (input_of self.old inbox.now draws.now) (machine_of S.cache self.old)) }
        ensures works { works self.new ≡ most_works }
        ensures accepted { self.new.desk.counts.accepted ≡ self.old.desk.counts.accepted }
    {
        if let Some(i) = self.queries.find_link(inbox.event().id) {
            self.give(i, inbox, draws, out);
        }
    }

    /// Whether who sent an event isn't served: the port is below 1024 and not 53, or the address isn't permitted (after djbdns'
    /// dnscache.c and okclient.c).
    pub(crate) fn refuses(&self, inbox: &Inbox) -> bool
        ensures { (draws : List ℕ) → result ≡ is_refused (input_of self.now inbox.now draws) }
    {
        let event = inbox.event();
        is_privileged(event.port) || !self.permit.allows(event.addr)
    }

    /// Makes room for one more query over UDP: where 200 are active, the oldest is dropped.
    fn make_room<O: Effects>(&mut self, out: &mut O)
        requires works { works self.old ≡ most_works }
        requires counts { AreBelow (2 ^ 61) self.old.desk.counts }
        ensures step { Took O.acted S.cache out.old self.old out.new self.new (with_room (machine_of S.cache self.old)) }
        ensures works { works self.new ≡ most_works }
        ensures fewer { length self.new.queries.queries ≤ length self.old.queries.queries }
        ensures links { self.new.desk.link ≡ self.old.desk.link }
        ensures counts { AreBelow (2 ^ 62) self.new.desk.counts }
        ensures accepted { self.new.desk.counts.accepted ≡ self.old.desk.counts.accepted }
    {
        if self.queries.udp() < MOST_QUERIES {
            return;
        }
        if let Some(i) = self.queries.first_udp() {
            self.drop_active(i, DropCause::Displaced, out);
        }
    }

    /// A datagram of a client came. Where it is a request, and who sent it is served, a query begins.
    pub(crate) fn hear_request<O: Effects>(&mut self, inbox: &Inbox, draws: &[u32; 17], out: &mut O)
        requires works { works self.old ≡ most_works }
        requires few { length self.old.queries.queries ≤ most_active }
        requires links { self.old.desk.link < 2 ^ 60 }
        requires counts { AreBelow (2 ^ 61) self.old.desk.counts }
        ensures step { Took O.acted S.cache out.old self.old out.new self.new
            (request_step (input_of self.old inbox.now draws.now) (machine_of S.cache self.old)) }
        ensures works { works self.new ≡ most_works }
        ensures accepted { self.new.desk.counts.accepted ≤ self.old.desk.counts.accepted + 1 }
    {
        let bytes = inbox.bytes();
        if bytes.len() > LONGEST_REQUEST || self.refuses(inbox) {
            return;
        }
        let Some(request) = read_request(bytes) else {
            return;
        };
        self.make_room(out);
        let event = inbox.event();
        let addr = event.addr;
        let port = event.port;
        let client = Client::Udp { addr, port };
        self.accept(client, addr, port, &request, inbox, draws, out);
    }
}
