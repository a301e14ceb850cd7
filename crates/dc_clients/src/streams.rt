//! Clients' connections: they open, bring requests, and close.
ghost use Rattle.std.specs.Prelude.{◌≡◌, ◌+◌, ◌<◌, ◌≤◌, ◌^◌, length, true};
ghost use Rattle.dc_model.specs.Limits.{most_active, most_connections, most_works};
ghost use Rattle.dc_model.specs.Transmission.{is_whole};
ghost use Rattle.dc_machine.specs.Machine.{connection, is_ready, asked as asked_step, with_place, conn_up_by, conn_bytes_by, conn_down_by};
ghost use Rattle.dc_connections.specs.Places.{connection_at};
ghost use Rattle.dc_clients.specs.View.{machine_of, input_of, works, AreBelow, Took};

use crate::clients::Clients;
use dc_active::Client;
use dc_engine::{Effects, Inbox};
use dc_limits::{CLIENT_WAIT, LONGEST_GATHERED, MOST_CONNECTIONS};
use dc_lines::{CloseCause, Line, line_tcpopen};
use dc_packet::read_request;
use dc_store::Store;

impl<S: Store> Clients<S> {
    /// Whether a whole request came on the connection at a place, and no query is at work for it.
    pub(crate) fn is_ready(&self, i: usize) -> bool
        requires { i < length self.now.connections }
        ensures ready { result ≡ is_ready (machine_of S.cache self.now) (connection_at self.now.connections i) }
        ensures whole { result ≡ true → is_whole (connection_at self.now.connections i).gathered ≡ true }
    {
        self.connections.is_whole(i) && !self.queries.is_busy(self.connections.number(i))
    }

    /// Takes the first request off the bytes of the connection at a place, and accepts it. Where it is no request, the connection is
    /// closed.
    pub(crate) fn ask<O: Effects>(
        &mut self,
        i: usize,
        inbox: &Inbox,
        draws: &[u32; 17],
        out: &mut O,
    )
        requires place { i < length self.old.connections }
        requires whole { is_whole (connection_at self.old.connections i).gathered ≡ true }
        requires works { works self.old ≡ most_works }
        requires few { length self.old.queries.queries ≤ most_active }
        requires links { self.old.desk.link < 2 ^ 60 }
        requires counts { AreBelow (2 ^ 62) self.old.desk.counts }
        ensures step { Took O.acted S.cache out.old self.old out.new self.new
            (asked_step (input_of self.old inbox.now draws.now) (connection_at self.old.connections i) (machine_of S.cache self.old)) }
        ensures works { works self.new ≡ most_works }
        ensures accepted { self.new.desk.counts.accepted ≤ self.old.desk.counts.accepted + 1 }
    {
        let number = self.connections.number(i);
        let addr = self.connections.addr(i);
        let port = self.connections.port(i);
        let request = read_request(self.connections.message(i));
        self.connections.take_off(i);
        match request {
            Some(request) => {
                let client = Client::Tcp { number };
                self.accept(client, addr, port, &request, inbox, draws, out);
            }
            None => self.close(i, CloseCause::Proto, out),
        }
    }

    /// Makes place for one more connection: where 20 are open, the one opened first is closed.
    fn make_place<O: Effects>(&mut self, out: &mut O)
        requires works { works self.old ≡ most_works }
        requires counts { AreBelow (2 ^ 63) self.old.desk.counts }
        ensures step { Took O.acted S.cache out.old self.old out.new self.new (with_place (machine_of S.cache self.old)) }
        ensures place { length self.new.connections < most_connections }
        ensures works { works self.new ≡ most_works }
        ensures accepted { self.new.desk.counts.accepted ≡ self.old.desk.counts.accepted }
    {
        if self.connections.len() >= MOST_CONNECTIONS {
            self.close(0, CloseCause::Displaced, out);
        }
    }

    /// A client opened a connection. A number in use is ignored, and who isn't served is sent away.
    pub(crate) fn hear_opening<O: Effects>(&mut self, inbox: &Inbox, draws: &[u32; 17], out: &mut O)
        requires works { works self.old ≡ most_works }
        requires counts { AreBelow (2 ^ 63) self.old.desk.counts }
        ensures step { Took O.acted S.cache out.old self.old out.new self.new
            (conn_up_by (connection inbox.now.id (machine_of S.cache self.old)) (input_of self.old inbox.now draws.now) (machine_of S.cache self.old)) }
        ensures works { works self.new ≡ most_works }
        ensures accepted { self.new.desk.counts.accepted ≡ self.old.desk.counts.accepted }
    {
        let event = inbox.event();
        if self.connections.find(event.id).is_some() {
            return;
        }
        if self.refuses(inbox) {
            out.conn_close(event.id);
            return;
        }
        self.make_place(out);
        let mut line = Line::new();
        line_tcpopen(&mut line, event.addr, event.port);
        out.line(line.text());
        let deadline = event.now + CLIENT_WAIT;
        self.connections
            .open(event.id, event.addr, event.port, deadline);
    }

    /// Bytes of a client's connection came. Where they make it ready, its request is begun; where they are too many, it is closed.
    pub(crate) fn hear_bytes<O: Effects>(&mut self, inbox: &Inbox, draws: &[u32; 17], out: &mut O)
        requires works { works self.old ≡ most_works }
        requires few { length self.old.queries.queries ≤ most_active }
        requires links { self.old.desk.link < 2 ^ 60 }
        requires counts { AreBelow (2 ^ 62) self.old.desk.counts }
        ensures step { Took O.acted S.cache out.old self.old out.new self.new
            (conn_bytes_by (connection inbox.now.id (machine_of S.cache self.old)) (input_of self.old inbox.now draws.now) (machine_of S.cache self.old)) }
        ensures works { works self.new ≡ most_works }
        ensures accepted { self.new.desk.counts.accepted ≤ self.old.desk.counts.accepted + 1 }
    {
        let Some(i) = self.connections.find(inbox.event().id) else {
            return;
        };
        let bytes = inbox.bytes();
        if self.connections.gathered_len(i) + bytes.len() > LONGEST_GATHERED {
            self.close(i, CloseCause::Long, out);
            return;
        }
        self.connections.append(i, bytes);
        if self.is_ready(i) {
            self.ask(i, inbox, draws, out);
        }
    }

    /// A client closed its connection.
    pub(crate) fn hear_closing<O: Effects>(&mut self, inbox: &Inbox, out: &mut O)
        requires works { works self.old ≡ most_works }
        requires counts { AreBelow (2 ^ 63) self.old.desk.counts }
        ensures step { Took O.acted S.cache out.old self.old out.new self.new
            (conn_down_by (connection inbox.now.id (machine_of S.cache self.old)) (machine_of S.cache self.old)) }
        ensures works { works self.new ≡ most_works }
        ensures accepted { self.new.desk.counts.accepted ≡ self.old.desk.counts.accepted }
    {
        if let Some(i) = self.connections.find(inbox.event().id) {
            self.close(i, CloseCause::Closed, out);
        }
    }
}
