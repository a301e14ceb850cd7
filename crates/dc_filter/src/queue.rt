//! Which line of a queue an event is for.
ghost use Rattle.std.specs.Prelude.{◌≡◌, map};
ghost use Rattle.std.specs.List.{position};
ghost use Rattle.dc_model.specs.Event.{Event as ModelEvent};
ghost use Rattle.dc_engine.specs.View.{event_of};
ghost use Rattle.dc_lookup.specs.Filter as model;
ghost use Rattle.dc_filter.specs.Queue.{slots_of};
ghost use Rattle.dc_filter.specs.View.{slot_of};
ghost use Rattle.dc_filter.specs.Places.{due_place, tick_place, event_place};

use crate::slot::Slot;
use dc_engine::{Event, Kind};

/// The place of the first line whose host is still to be asked for.
fn fresh_place(queue: &[Box<Slot>]) -> Option<usize>
    ensures { result ≡ position (λ s. model.is_fresh_at (slot_of s.value).at) queue.now }
{
    queue.iter().position(|slot| slot.is_fresh())
}

/// The place of the first line with this link.
fn link_place(queue: &[Box<Slot>], link: u64) -> Option<usize>
    ensures { result ≡ position (λ s. model.has_link link (slot_of s.value).at) queue.now }
{
    queue.iter().position(|slot| slot.has_link(link))
}

/// The place of the first line with this deadline.
fn deadline_place(queue: &[Box<Slot>], moment: u64) -> Option<usize>
    ensures { result ≡ position (λ s. model.has_deadline moment (slot_of s.value).at) queue.now }
{
    queue.iter().position(|slot| slot.has_deadline(moment))
}

/// The lesser of two moments, where they are there.
fn sooner(one: Option<u64>, other: Option<u64>) -> Option<u64>
    ensures { result ≡ model.sooner one other }
{
    match (one, other) {
        (Some(one), Some(other)) => Some(one.min(other)),
        (Some(one), None) => Some(one),
        (None, other) => other,
    }
}

/// When a tick is wanted, in milliseconds.
pub(crate) fn soonest(queue: &[Box<Slot>]) -> Option<u64>
    ensures { result ≡ model.soonest (map (λ s. model.due_at s.at) (slots_of queue.now)) }
{
    let mut found = None;
    let mut place = queue.len();
    while place > 0 {
        place -= 1;
        found = sooner(queue[place].due(), found);
    }
    found
}

/// The place of the first line with the least deadline, where that has come.
fn due_place(queue: &[Box<Slot>], now: u64) -> Option<usize>
    ensures { result ≡ due_place (model.soonest (map (λ s. model.due_at s.at) (slots_of queue.now))) now (slots_of queue.now) }
{
    let moment = soonest(queue)?;
    if moment > now {
        return None;
    }
    deadline_place(queue, moment)
}

/// The place of the line that a tick is for.
fn tick_place(queue: &[Box<Slot>], now: u64) -> Option<usize>
    ensures { result ≡ tick_place now (slots_of queue.now) }
{
    match fresh_place(queue) {
        Some(place) => Some(place),
        None => due_place(queue, now),
    }
}

/// The place of the line that an event is for.
pub(crate) fn event_place(queue: &[Box<Slot>], event: Event) -> Option<usize>
    ensures { (e : ModelEvent) → event_of event e.bytes ≡ e → result ≡ event_place e.kind e (slots_of queue.now) }
{
    match event.kind {
        Kind::Tick => tick_place(queue, event.now),
        Kind::Datagram | Kind::LinkUp | Kind::LinkBytes | Kind::LinkDown | Kind::BindRefused => {
            link_place(queue, event.id)
        }
        Kind::Request | Kind::ConnUp | Kind::ConnBytes | Kind::ConnDown => None,
    }
}
