//! A world in memory that keeps its history.
ghost use Rattle.std.specs.Prelude.{◌≡◌, ℕ, List, [], ◌∷◌, ◌++◌, IfOk, IfErr, Some, None, MatchOption, drop, map, length, true, false, nat_lt, vec_capacity, ◌≤◌, if◌then◌else◌};
ghost use Rattle.std.specs.Result.{is_ok};
ghost use Rattle.std.proofs.Common.{ap};
ghost use Rattle.dc_model.specs.Event.{Action as ModelAction, IsEvent};
ghost use Rattle.dc_event.specs.Answers.{count_heard, IfMore, Warrants};
ghost use Rattle.dc_event.specs.Bytes.{Grows-none, Grows-both};
ghost use Rattle.dc_event.specs.Causes.{count_by};
ghost use Rattle.dc_event.specs.History.{Exchange, listened, asked, did, answer_by, gathered_by};
ghost use Rattle.dc_event.specs.Kept.{Kept, Acted, Acted-none, Acted-both, IsSound, exchange_of, action_of, given_by, kept_more, KeepsOrStops, first_of, is_event, InboxStays, Gathers};
ghost use Rattle.dc_event.specs.Told.{Grows};

use crate::kept::{Action, FullEvent, Given, Passed};
use crate::{BatchWorld, Effects, Heard, Inbox, World, WorldFailed};
use std::alloc::{AllocError, Global};
use std::collections::VecDeque;
use std::marker::Model;

/// A world in memory. It gives what it was handed, in order, and then its events are used up. It keeps what passes, as long as its room for
/// exchanges and the memory for their bytes last; after that it doesn't tell what passed, and doesn't fail for it.
#[derive(Drop)]
pub struct MemoryWorld {
    alloc: Global,
    left: VecDeque<Given>,
    listens: bool,
    named: Option<u64>,
    faults: u64,
    kept: Vec<Passed>,
    room: usize,
    told: bool,
}

impl Model for MemoryWorld {
    ghost use Rattle.std.specs.Prelude.{◌≤◌, Some, None, map, cond, All, vec_capacity};
    ghost use Rattle.dc_event.specs.Kept.{Kept, IsSound, exchange_of, given_by};

    ghost Value = { Kept };

    ghost view = { λ a. record { room = a.room; history = cond a.told (Some (map exchange_of a.kept.items)) None; left = map given_by a.left.items; listens = a.listens; named = a.named; faults = a.faults } };

    ghost invariant = { λ a. All IsSound a.left.items × (a.room ≤ vec_capacity a.kept) };
}

impl MemoryWorld {
    /// A world with nothing to give, which goes well or fails when it is asked to listen, and has room for so many exchanges. It takes
    /// all memory for them here.
    pub fn new(alloc: Global, room: usize, listens: bool) -> Result<MemoryWorld, AllocError>
        ensures { IfOk result (λ world. world ≡ record { room = room; history = Some []; left = []; listens = listens; named = None; faults = 0 }) }
    {
        Ok(MemoryWorld {
            alloc,
            left: VecDeque::new(alloc),
            listens,
            named: None,
            faults: 0,
            kept: Vec::with_capacity(alloc, room)?,
            room,
            told: true,
        })
    }

    /// Has this to give behind all that is left. Where memory is refused nothing changes.
    pub fn add(&mut self, given: Given) -> Result<(), AllocError>
        requires { IsSound given }
        ensures added { self.new.left ≡ (if is_ok result then self.old.left ++ given_by given ∷ [] else self.old.left) }
        ensures same { self.new ≡ record self.old { left = self.new.left } }
    {
        self.left.push_back(given)?;
        Ok(())
    }

    /// What passed, in order, where it is told.
    pub fn held(&self) -> Option<&[Passed]>
        ensures { MatchOption result (self.now.history ≡ None) (λ passed. self.now.history ≡ Some (map exchange_of passed.now)) }
    {
        if self.told {
            Some(&self.kept[..])
        } else {
            None
        }
    }

    /// Keeps this behind what passed, where room is left.
    fn keep(&mut self, passed: Passed)
        ensures { self.new ≡ record self.old { history = kept_more self.old.room self.old.history (exchange_of passed) } }
    {
        let fits = push_within(&mut self.kept, self.room, passed);
        self.told &= fits;
    }

    /// Keeps this action. It couldn't be copied where memory was refused.
    fn keep_action(&mut self, action: Result<Action, AllocError>)
        ensures kept { IfOk action (λ x. self.new ≡ record self.old { history = kept_more self.old.room self.old.history (did (action_of x)) }) }
        ensures stops { IfErr action (λ _. self.new ≡ record self.old { history = None }) }
    {
        match action {
            Ok(action) => self.keep(Passed::Did(action)),
            Err(_) => self.told = false,
        }
    }
}

/// Puts this behind the others where fewer than `room` are there, and says whether it did.
fn push_within(kept: &mut Vec<Passed>, room: usize, passed: Passed) -> bool
    requires { room ≤ vec_capacity kept.old }
    ensures answer { result ≡ nat_lt (length kept.old.items) room }
    ensures items { result ≡ true → kept.new.items ≡ kept.old.items ++ passed ∷ [] }
    ensures capacity { room ≤ vec_capacity kept.new }
{
    if kept.len() >= room {
        return false;
    }
    kept.push(passed).is_ok()
}

/// Takes the first of these if it is an event.
fn take_event(left: &mut VecDeque<Given>) -> Option<FullEvent>
    ensures { MatchOption result (left.new.items ≡ left.old.items × is_event (first_of (map given_by left.old.items)) ≡ false) (λ e. left.old.items ≡ Given.Event e ∷ left.new.items) }
{
    let Some(Given::Event(_)) = left.front() else {
        return None;
    };
    match left.pop_front() {
        Some(Given::Event(event)) => Some(event),
        _ => None,
    }
}

impl Effects for MemoryWorld {
    ghost acted = { Acted };

    fn reply(&mut self, addr: [u8; 4], port: u16, bytes: &[u8])
        ensures acted { Acted self.old (ModelAction.reply addr port bytes.now ∷ []) self.new }
        ensures kept { KeepsOrStops self.old.room self.old.history (did (ModelAction.reply addr port bytes.now)) self.new.history }
    {
        self.keep_action(
            bytes
                .to_vec(self.alloc)
                .map(|bytes| Action::Reply { addr, port, bytes }),
        );
    }

    fn conn_reply(&mut self, conn: u64, bytes: &[u8])
        ensures acted { Acted self.old (ModelAction.conn_reply conn bytes.now ∷ []) self.new }
        ensures kept { KeepsOrStops self.old.room self.old.history (did (ModelAction.conn_reply conn bytes.now)) self.new.history }
    {
        self.keep_action(
            bytes
                .to_vec(self.alloc)
                .map(|bytes| Action::ConnReply { conn, bytes }),
        );
    }

    fn conn_close(&mut self, conn: u64)
        ensures acted { Acted self.old (ModelAction.conn_close conn ∷ []) self.new }
        ensures kept { self.new.history ≡ kept_more self.old.room self.old.history (did (ModelAction.conn_close conn)) }
    {
        self.keep_action(Ok(Action::ConnClose { conn }));
    }

    fn udp(&mut self, link: u64, local_port: u16, server: [u8; 4], query: &[u8])
        ensures acted { Acted self.old (ModelAction.udp link local_port server query.now ∷ []) self.new }
        ensures kept { KeepsOrStops self.old.room self.old.history (did (ModelAction.udp link local_port server query.now)) self.new.history }
    {
        self.keep_action(
            query.to_vec(self.alloc).map(|query| Action::Udp {
                link,
                local_port,
                server,
                query,
            }),
        );
    }

    fn tcp(&mut self, link: u64, local_port: u16, server: [u8; 4])
        ensures acted { Acted self.old (ModelAction.tcp link local_port server ∷ []) self.new }
        ensures kept { self.new.history ≡ kept_more self.old.room self.old.history (did (ModelAction.tcp link local_port server)) }
    {
        self.keep_action(Ok(Action::Tcp {
            link,
            local_port,
            server,
        }));
    }

    fn link_write(&mut self, link: u64, bytes: &[u8])
        ensures acted { Acted self.old (ModelAction.link_write link bytes.now ∷ []) self.new }
        ensures kept { KeepsOrStops self.old.room self.old.history (did (ModelAction.link_write link bytes.now)) self.new.history }
    {
        self.keep_action(
            bytes
                .to_vec(self.alloc)
                .map(|bytes| Action::LinkWrite { link, bytes }),
        );
    }

    fn link_close(&mut self, link: u64)
        ensures acted { Acted self.old (ModelAction.link_close link ∷ []) self.new }
        ensures kept { self.new.history ≡ kept_more self.old.room self.old.history (did (ModelAction.link_close link)) }
    {
        self.keep_action(Ok(Action::LinkClose { link }));
    }

    fn line(&mut self, text: &[u8])
        ensures acted { Acted self.old (ModelAction.line text.now ∷ []) self.new }
        ensures kept { KeepsOrStops self.old.room self.old.history (did (ModelAction.line text.now)) self.new.history }
    {
        self.keep_action(text.to_vec(self.alloc).map(|text| Action::Line { text }));
    }

    ghost acted_none = { Acted-none };

    ghost acted_both = { Acted-both };
}

impl World for MemoryWorld {
    ghost history = { λ a h b. Grows a.history h b.history };

    ghost faults = { λ w. w.faults };

    ghost used_up = { λ w. w.left ≡ [] };

    ghost broken = { λ w number. w.named ≡ Some number };

    fn listen(&mut self, addr: [u8; 4], send_from: [u8; 4]) -> Result<(), WorldFailed>
        ensures history { Grows self.old.history (listened addr send_from (is_ok result) ∷ []) self.new.history }
        ensures count { self.new.faults ≡ count_by result self.old.faults }
        ensures answer { is_ok result ≡ self.old.listens }
        ensures kept { self.new.history ≡ kept_more self.old.room self.old.history (listened addr send_from self.old.listens) }
        ensures same { self.new ≡ record self.old { history = self.new.history; faults = self.new.faults } }
    {
        let well = self.listens;
        self.keep(Passed::Listened {
            addr,
            send_from,
            well,
        });
        if well {
            Ok(())
        } else {
            self.faults = self.faults.saturating_add(1);
            Err(WorldFailed)
        }
    }

    fn next(&mut self, wake: Option<u64>, inbox: &mut Inbox) -> Heard
        ensures history { Grows self.old.history (asked wake (answer_by result inbox.new) ∷ []) self.new.history }
        ensures count { self.new.faults ≡ count_heard result self.old.faults }
        ensures warrant { Warrants result inbox.new (self.new.left ≡ []) (λ number. self.new.named ≡ Some number) }
        ensures answer { answer_by result inbox.new ≡ first_of self.old.left }
        ensures inbox { InboxStays result inbox.old inbox.new }
        ensures kept { self.new.history ≡ kept_more self.old.room self.old.history (asked wake (first_of self.old.left)) }
        ensures left { self.new.left ≡ drop 1 self.old.left }
        ensures same { self.new ≡ record self.old { history = self.new.history; left = self.new.left; named = self.new.named; faults = self.new.faults } }
    {
        let given = self.left.pop_front();
        let heard = match &given {
            None => Heard::End,
            Some(Given::Event(event)) => {
                event.put(inbox);
                Heard::Event
            }
            Some(Given::Failed) => {
                self.faults = self.faults.saturating_add(1);
                Heard::Failed
            }
            Some(Given::Bad { line }) => {
                self.named = Some(*line);
                Heard::Bad { line: *line }
            }
        };
        self.keep(Passed::Asked { wake, gave: given });
        heard
    }

    fn faults(&self) -> u64 {
        self.faults
    }

    ghost history_none = { λ a. Grows-none a.history };

    ghost history_both = { λ a b c. Grows-both a.history b.history c.history };

    ghost acted_history = { λ a b xs p. p.grows };

    ghost acted_faults = { λ a b xs p. ap {A = Kept} (λ w. w.faults) p.same };
}

impl BatchWorld for MemoryWorld {
    fn more(&mut self, inbox: &mut Inbox) -> bool
        ensures history { Grows self.old.history (gathered_by result inbox.new) self.new.history }
        ensures count { self.new.faults ≡ self.old.faults }
        ensures bounds { IfMore result (IsEvent inbox.new) }
        ensures answer { result ≡ is_event (first_of self.old.left) }
        ensures moves { Gathers result inbox.old inbox.new self.old self.new }
    {
        let Some(event) = take_event(&mut self.left) else {
            return false;
        };
        event.put(inbox);
        self.keep(Passed::Gathered(event));
        true
    }
}
