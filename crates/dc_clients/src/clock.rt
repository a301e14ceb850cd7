//! The clock: what is due first, and what a tick does.
ghost use Rattle.std.specs.Prelude.{◌≡◌, ◌+◌, ◌<◌, ◌≤◌, ◌^◌, length, true, option_map, IfSome};
ghost use Rattle.dc_model.specs.Limits.{most_active, most_works};
ghost use Rattle.dc_model.specs.Transmission.{is_whole};
ghost use Rattle.dc_machine.specs.Kept.{IsSound};
ghost use Rattle.dc_machine.specs.Machine.{Holder, first_ready, is_idle, deadline_of, wake, tick_by, due_step};
ghost use Rattle.dc_connections.specs.Places.{connection_at};
ghost use Rattle.dc_clients.specs.Due.{Stands, IsFirstDue, IsFirstIdle, is_sooner};
ghost use Rattle.dc_clients.specs.View.{machine_of, input_of, works, AreBelow, Took};

use crate::clients::Clients;
use dc_engine::{Effects, Inbox};
use dc_lines::CloseCause;
use dc_store::Store;

/// What is due.
#[derive(Clone, Copy, Debug, PartialEq, Eq)]
pub(crate) enum Due {
    /// The active query at this place.
    Query(usize),
    /// The connection at this place.
    Connection(usize),
}

impl<S: Store> Clients<S> {
    /// The place of the ready connection that was opened first.
    fn first_ready(&self) -> Option<usize>
        ensures ready { option_map (connection_at self.now.connections) result ≡ first_ready (machine_of S.cache self.now) }
        ensures place { IfSome result (λ i. i < length self.now.connections) }
        ensures whole { IfSome result (λ i. is_whole (connection_at self.now.connections i).gathered ≡ true) }
    {
        for i in 0..self.connections.len() {
            if self.is_ready(i) {
                return Some(i);
            }
        }
        None
    }

    /// Whether the connection at a place has a deadline: no query is at work for it, and no whole request came.
    fn is_idle(&self, i: usize) -> bool
        requires { i < length self.now.connections }
        ensures { result ≡ is_idle (machine_of S.cache self.now) (connection_at self.now.connections i) }
    {
        !self.connections.is_whole(i) && !self.queries.is_busy(self.connections.number(i))
    }

    /// Whether the connection at a place is due before the one at another: its deadline is less, or the same and its number less.
    fn is_sooner(&self, i: usize, than: usize) -> bool
        requires place { i < length self.now.connections }
        requires other { than < length self.now.connections }
        ensures { result ≡ is_sooner (connection_at self.now.connections i) (connection_at self.now.connections than) }
    {
        let deadline = self.connections.deadline(i);
        let other = self.connections.deadline(than);
        deadline < other
            || (deadline == other && self.connections.number(i) < self.connections.number(than))
    }

    /// The place of the connection that is due first.
    fn first_idle(&self) -> Option<usize>
        ensures first { IsFirstIdle (machine_of S.cache self.now) result }
        ensures place { IfSome result (λ i. i < length self.now.connections) }
    {
        let mut first = None;
        for i in 0..self.connections.len() {
            if self.is_idle(i) {
                first = match first {
                    Some(place) if !self.is_sooner(i, place) => Some(place),
                    _ => Some(i),
                };
            }
        }
        first
    }

    /// When what stands there is due, in milliseconds.
    fn deadline(&self, due: Due) -> u64
        requires stands { (h : Holder) × Stands (machine_of S.cache self.now) due h }
        ensures { (h : Holder) → Stands (machine_of S.cache self.now) due h → result ≡ deadline_of h }
    {
        match due {
            Due::Query(i) => self.queries.deadline(i),
            Due::Connection(i) => self.connections.deadline(i),
        }
    }

    /// What is due first: the least deadline, and where two are equal queries before connections, and then the least number.
    fn first_due(&self) -> Option<Due>
        ensures { IsFirstDue (machine_of S.cache self.now) result }
    {
        let Some(query) = self.queries.earliest() else {
            return self.first_idle().map(Due::Connection);
        };
        let Some(connection) = self.first_idle() else {
            return Some(Due::Query(query));
        };
        if self.queries.deadline(query) <= self.connections.deadline(connection) {
            Some(Due::Query(query))
        } else {
            Some(Due::Connection(connection))
        }
    }

    /// When a tick is wanted, in milliseconds: at once where a connection is ready, and else at the first deadline.
    pub fn wake(&self) -> Option<u64>
        ensures { result ≡ wake (machine_of S.cache self.now) }
    {
        if self.first_ready().is_some() {
            return Some(0);
        }
        let due = self.first_due()?;
        Some(self.deadline(due))
    }

    /// One thing is done at a tick: the first ready connection has its request begun, or else the first deadline that has come is met.
    pub(crate) fn tick<O: Effects>(&mut self, inbox: &Inbox, draws: &[u32; 17], out: &mut O)
        requires sound { IsSound (machine_of S.cache self.old) }
        requires works { works self.old ≡ most_works }
        requires few { length self.old.queries.queries ≤ most_active }
        requires links { self.old.desk.link < 2 ^ 60 }
        requires counts { AreBelow (2 ^ 62) self.old.desk.counts }
        ensures step { Took O.acted S.cache out.old self.old out.new self.new
            (tick_by (first_ready (machine_of S.cache self.old)) (input_of self.old inbox.now draws.now) (machine_of S.cache self.old)) }
        ensures works { works self.new ≡ most_works }
        ensures accepted { self.new.desk.counts.accepted ≤ self.old.desk.counts.accepted + 1 }
    {
        if let Some(i) = self.first_ready() {
            self.ask(i, inbox, draws, out);
            return;
        }
        let Some(due) = self.first_due() else {
            return;
        };
        if self.deadline(due) <= inbox.event().now {
            self.meet(due, inbox, draws, out);
        }
    }

    /// Meets a deadline that has come: the query's transmission hears of it, or the connection is closed.
    fn meet<O: Effects>(&mut self, due: Due, inbox: &Inbox, draws: &[u32; 17], out: &mut O)
        requires stands { (h : Holder) × Stands (machine_of S.cache self.old) due h }
        requires sound { IsSound (machine_of S.cache self.old) }
        requires works { works self.old ≡ most_works }
        requires links { self.old.desk.link < 2 ^ 60 }
        requires counts { AreBelow (2 ^ 62) self.old.desk.counts }
        ensures step { (h : Holder) → Stands (machine_of S.cache self.old) due h → Took O.acted S.cache out.old self.old out.new self.new
            (due_step h (input_of self.old inbox.now draws.now) (machine_of S.cache self.old)) }
        ensures works { works self.new ≡ most_works }
        ensures accepted { self.new.desk.counts.accepted ≡ self.old.desk.counts.accepted }
    {
        match due {
            Due::Query(i) => self.give(i, inbox, draws, out),
            Due::Connection(i) => self.close(i, CloseCause::Timeout, out),
        }
    }
}
