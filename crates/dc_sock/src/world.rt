//! The world of sockets.
ghost use Rattle.std.specs.Prelude.{◌≡◌, List, [], ◌∷◌, IfOk, None, true, false, refl, is_ok, not, if◌then◌else◌};
ghost use Rattle.dc_model.specs.Event.{IsEvent};
ghost use Rattle.dc_event.specs.Answers.{count_heard, IfMore, Warrants};
ghost use Rattle.dc_event.specs.Causes.{counted, count_by};
ghost use Rattle.dc_event.specs.History.{listened, asked, answer_by, gathered_by};
ghost use Rattle.dc_system.specs.Call.{Call};
ghost use Rattle.dc_sock.specs.Edge.{edge_of};
ghost use Rattle.dc_sock.specs.Log.{PrintsAll};
ghost use Rattle.dc_sock.specs.Passed.{exchanged, more_by};
ghost use Rattle.dc_sock.specs.World.{Shown, IsFresh, Accounted, Explained, Explained-none, Explained-both, Explained-one, Explained-more, ActedBy, ActedBy-both, ActedBy-explained, ActedBy-faults, Gives, Gave, AnswerNumbers, MoreNumbers};

use crate::clients::reply;
use crate::sockets::{Sockets, Turn};
use dc_event::{BatchWorld, Effects, Heard, Inbox, World, WorldFailed};
use dc_system::System;
use std::alloc::{AllocError, Global};
use std::marker::Model;
use std::sync::Wait;

/// The port of name servers.
const DNS_PORT: u16 = 53;

/// A world over UDP and TCP sockets, the clock and the log of a system.
///
/// It hears clients at the address and port that it listens on, and asks servers on port 53. Moments are milliseconds since 1970. At most
/// 24 connections of clients and 224 links are open at once; a further connection is closed, and a further link gives nothing. A link
/// or a connection that fails is told of as `LinkDown` or `ConnDown`, and a local port that is taken as `BindRefused`. Bytes that a
/// client's connection doesn't take wait, 65537 at most; a connection for which more would wait is closed as `ConnDown`. The log is
/// gathered, and written before the world waits. All memory is taken when the world is made.
#[derive(Drop)]
pub struct SocketWorld<R, S> {
    rt: R,
    system: S,
    port: u16,
    sockets: Sockets,
    faults: u64,
}

impl<R, S> Model for SocketWorld<R, S> {
    ghost use Rattle.std.specs.Prelude.{None};
    ghost use Rattle.dc_sock.specs.Edge.{edge_of};
    ghost use Rattle.dc_sock.specs.World.{Shown};

    ghost Value = { Shown S };

    ghost view = { λ a. record {
      system = a.system;
      faults = a.faults;
      port = a.port;
      edge = edge_of None a.sockets;
    } };
}

impl<R, S> SocketWorld<R, S> {
    /// A world that will hear clients on port 53.
    pub fn new(rt: R, system: S, alloc: Global) -> Result<SocketWorld<R, S>, AllocError>
    where
        R: Drop,
        S: Drop,
        ensures { IfOk result (IsFresh system 53) }
    {
        SocketWorld::on_port(rt, system, alloc, DNS_PORT)
    }

    /// A world that will hear clients on this port.
    pub fn on_port(
        rt: R,
        system: S,
        alloc: Global,
        port: u16,
    ) -> Result<SocketWorld<R, S>, AllocError>
    where
        R: Drop,
        S: Drop,
        ensures { IfOk result (IsFresh system port) }
    {
        let sockets = Sockets::new(alloc)?;
        Ok(SocketWorld {
            rt,
            system,
            port,
            sockets,
            faults: 0,
        })
    }
}

/// Takes turns until one gives an event or fails.
fn hear<R: Wait, S: System>(
    rt: &R,
    system: &mut S,
    sockets: &mut Sockets,
    wake: Option<u64>,
    inbox: &mut Inbox,
) -> Heard
    ensures bounds { Gives result inbox.new }
    ensures numbers { AnswerNumbers result inbox.new sockets.old.clients.next sockets.new.clients.next }
    ensures failure { sockets.old.log.failed ≡ true → result ≡ Heard.Failed }
    ensures log { sockets.new.log.failed ≡ false }
    ensures gave { (calls : List Call) × (S.called system.old calls system.new × Gave wake (answer_by result inbox.new) (edge_of None sockets.old) calls (edge_of None sockets.new)) }
{
    for _ in rt.forever() {
        match sockets.turn(system, wake, inbox) {
            Turn::Event => return Heard::Event,
            Turn::Failed => return Heard::Failed,
            Turn::Nothing => {}
        }
    }
    unreachable!()
}

impl<R, S: System> SocketWorld<R, S> {
    /// The system that it calls.
    pub fn system(&self) -> &S
        ensures { result.now ≡ self.now.system }
    {
        &self.system
    }

    /// Writes what is left of the log, for a run that ends, and answers whether no call that prints failed.
    pub fn finish(&mut self) -> bool
        ensures printed { (calls : List Call) × (S.called self.old.system calls self.new.system × PrintsAll self.old.edge.log calls self.new.edge.log) }
        ensures well { result ≡ not self.new.edge.log.failed }
    {
        self.sockets.log.write(&mut self.system);
        !self.sockets.log.has_failed()
    }

    /// Counts an answer where it is a fault.
    fn note(&mut self, answer: Heard)
        ensures note { self.new ≡ record self.old { faults = count_heard answer self.old.faults } }
    {
        if let Heard::Failed = answer {
            self.faults = self.faults.saturating_add(1);
        }
    }

    /// Listens for clients, and answers whether that went well.
    fn begin(&mut self, addr: [u8; 4], send_from: [u8; 4]) -> bool
        ensures listened { Accounted S.called self.old (exchanged (listened addr send_from result) ∷ []) self.new }
        ensures faults { self.new.faults ≡ (if result then self.old.faults else counted self.old.faults) }
    {
        if !self
            .sockets
            .listen(&mut self.system, addr, self.port, send_from)
        {
            self.faults = self.faults.saturating_add(1);
            return false;
        }
        true
    }

    /// Tells the next event, or that the world failed.
    fn tell(&mut self, wake: Option<u64>, inbox: &mut Inbox) -> Heard
    where
        R: Wait,
        ensures bounds { Gives result inbox.new }
        ensures told { Accounted S.called self.old (exchanged (asked wake (answer_by result inbox.new)) ∷ []) self.new }
        ensures faults { self.new.faults ≡ count_heard result self.old.faults }
        ensures log { self.old.edge.log.failed ≡ true → result ≡ Heard.Failed }
        ensures numbers { AnswerNumbers result inbox.new self.old.edge.next_conn self.new.edge.next_conn }
    {
        let answer = hear(&self.rt, &mut self.system, &mut self.sockets, wake, inbox);
        self.note(answer);
        answer
    }

    /// Gives one more event that has come already, if there is one.
    fn gather(&mut self, inbox: &mut Inbox) -> bool
        ensures bounds { IfMore result (IsEvent inbox.new) }
        ensures passed { Accounted S.called self.old (more_by result inbox.new ∷ []) self.new }
        ensures faults { self.new.faults ≡ self.old.faults }
        ensures log { self.new.edge.log ≡ self.old.edge.log }
        ensures numbers { MoreNumbers result inbox.new self.old.edge.next_conn self.new.edge.next_conn }
    {
        self.sockets.further(&mut self.system, inbox)
    }
}

impl<R, S: System> Effects for SocketWorld<R, S> {
    ghost acted = { ActedBy S.called };

    fn reply(&mut self, addr: [u8; 4], port: u16, bytes: &[u8]) {
        let hears = self.sockets.clients.hears();
        reply(&mut self.system, hears, addr, port, bytes);
    }

    fn conn_reply(&mut self, conn: u64, bytes: &[u8]) {
        let sockets = &mut self.sockets;
        sockets
            .clients
            .conn_reply(&mut self.system, &mut sockets.watch, conn, bytes);
    }

    fn conn_close(&mut self, conn: u64) {
        self.sockets.clients.conn_close(&mut self.system, conn);
    }

    fn udp(&mut self, link: u64, local_port: u16, server: [u8; 4], query: &[u8]) {
        let sockets = &mut self.sockets;
        sockets.links.udp(
            &mut self.system,
            &mut sockets.watch,
            link,
            local_port,
            server,
            query,
        );
    }

    fn tcp(&mut self, link: u64, local_port: u16, server: [u8; 4]) {
        let sockets = &mut self.sockets;
        sockets.links.tcp(
            &mut self.system,
            &mut sockets.watch,
            link,
            local_port,
            server,
        );
    }

    fn link_write(&mut self, link: u64, bytes: &[u8]) {
        let sockets = &mut self.sockets;
        sockets
            .links
            .write(&mut self.system, &mut sockets.watch, link, bytes);
    }

    fn link_close(&mut self, link: u64) {
        let sockets = &mut self.sockets;
        sockets
            .links
            .close(&mut self.system, &mut sockets.watch, link);
    }

    fn line(&mut self, text: &[u8]) {
        self.sockets.log.line(&mut self.system, text);
    }

    ghost acted_none = { λ a. refl };

    ghost acted_both = { ActedBy-both S.called };
}

impl<R: Wait, S: System> World for SocketWorld<R, S> {
    ghost history = { Explained S.called };

    ghost faults = { λ w. w.faults };

    /// It never ends.
    ghost used_up = { λ w. ⊥ };

    /// It has no lines.
    ghost broken = { λ w number. ⊥ };

    fn listen(&mut self, addr: [u8; 4], send_from: [u8; 4]) -> Result<(), WorldFailed>
        ensures passed { Accounted S.called self.old (exchanged (listened addr send_from (is_ok result)) ∷ []) self.new }
        ensures history { Explained S.called self.old (listened addr send_from (is_ok result) ∷ []) self.new }
        ensures count { self.new.faults ≡ count_by result self.old.faults }
    {
        if self.begin(addr, send_from) {
            Ok(())
        } else {
            Err(WorldFailed)
        }
    }

    fn next(&mut self, wake: Option<u64>, inbox: &mut Inbox) -> Heard
        ensures passed { Accounted S.called self.old (exchanged (asked wake (answer_by result inbox.new)) ∷ []) self.new }
        ensures history { Explained S.called self.old (asked wake (answer_by result inbox.new) ∷ []) self.new }
        ensures count { self.new.faults ≡ count_heard result self.old.faults }
        ensures warrant { Warrants result inbox.new ⊥ (λ number. ⊥) }
        ensures log { self.old.edge.log.failed ≡ true → result ≡ Heard.Failed }
        ensures numbers { AnswerNumbers result inbox.new self.old.edge.next_conn self.new.edge.next_conn }
    {
        self.tell(wake, inbox)
    }

    fn faults(&self) -> u64 {
        self.faults
    }

    ghost history_none = { Explained-none S.called };

    ghost history_both = { Explained-both S.called };

    ghost acted_history = { ActedBy-explained S.called };

    ghost acted_faults = { ActedBy-faults S.called };
}

impl<R: Wait, S: System> BatchWorld for SocketWorld<R, S> {
    /// Gives an event of a source that the last wait told to be ready, if one has any, without waiting. After 64 looks it is time to wait, and
    /// none is given.
    fn more(&mut self, inbox: &mut Inbox) -> bool
        ensures passed { Accounted S.called self.old (more_by result inbox.new ∷ []) self.new }
        ensures history { Explained S.called self.old (gathered_by result inbox.new) self.new }
        ensures count { self.new.faults ≡ self.old.faults }
        ensures bounds { IfMore result (IsEvent inbox.new) }
        ensures log { self.new.edge.log ≡ self.old.edge.log }
        ensures numbers { MoreNumbers result inbox.new self.old.edge.next_conn self.new.edge.next_conn }
    {
        self.gather(inbox)
    }
}
