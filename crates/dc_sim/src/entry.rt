//! Events that wait.
ghost use Rattle.std.specs.Prelude.{◌≡◌, ◌<◌, ◌^◌, [], option_map};
ghost use Rattle.dc_model.specs.Event.{IsEvent, link_up};
ghost use Rattle.dc_model.specs.Places.{no_address};
ghost use Rattle.dc_simulation.specs.Tree as tree;
ghost use Rattle.dc_simulation.specs.World.{link_event};
ghost use Rattle.dc_sim.specs.Servers.{IsPlaced};
ghost use Rattle.dc_sim.specs.Coming.{back_event, answer_event};

use crate::answer::{Asked, framed};
use crate::server::Server;
use dc_engine::{Event, Inbox, Kind};
use std::marker::Model;

/// The port of servers.
const PORT: u16 = 53;

/// What comes on a link.
#[derive(Drop)]
pub(crate) enum Coming {
    /// It stands.
    Up,
    /// A server's answer, which is built when it is given.
    Answer {
        addr: [u8; 4],
        server: Server,
        over_tcp: bool,
        asked: Asked,
    },
}

/// An event that waits. Contracts see the event, whose moment isn't known yet.
#[derive(Drop)]
pub(crate) struct Entry {
    link: u64,
    coming: Coming,
}

impl Model for Entry {
    ghost use Rattle.dc_model.specs.Event.{Event as ModelEvent};

    ghost Value = { ModelEvent };

    ghost use Rattle.dc_sim.specs.Coming.{event_by, IsPlacedIn};

    ghost view = { λ a. event_by a.link a.coming };

    ghost invariant = { λ a. IsPlacedIn a.coming };
}

/// An event of a link, without its bytes.
fn event(now: u64, kind: Kind, link: u64, addr: [u8; 4], port: u16, len: usize) -> Event
    ensures { result ≡ record { now = now; kind = kind; id = link; addr = addr; port = port; len = len } }
{
    Event {
        now,
        kind,
        id: link,
        addr,
        port,
        len,
    }
}

/// Puts an answer into the inbox.
fn give_answer(
    now: u64,
    link: u64,
    addr: [u8; 4],
    server: Server,
    over_tcp: bool,
    asked: &Asked,
    inbox: &mut Inbox,
)
    requires moment { now < 2 ^ 62 }
    requires placed { IsPlaced server }
    ensures event { inbox.new ≡ answer_event now link addr server over_tcp asked.now }
    ensures bounds { IsEvent inbox.new }
{
    let reply = server.reply(over_tcp, &asked.question.name);
    let answer = asked.answer(&reply);
    if over_tcp {
        let message = framed(&answer);
        inbox.set(
            event(now, Kind::LinkBytes, link, addr, PORT, message.len()),
            message.as_slice(),
        );
    } else {
        inbox.set(
            event(now, Kind::Datagram, link, addr, PORT, answer.len()),
            answer.as_slice(),
        );
    }
}

impl Entry {
    /// A link stands.
    pub(crate) fn up(link: u64) -> Entry
        ensures { result ≡ link_event link_up link no_address 0 [] }
    {
        Entry {
            link,
            coming: Coming::Up,
        }
    }

    /// What the server at an address answers to a query on this link, if there is one and the query reads.
    #[tactic(auto, unfolding(dc_simulation::specs::Tree::answer_to))]
    pub(crate) fn back(link: u64, addr: [u8; 4], over_tcp: bool, query: &[u8]) -> Option<Entry>
        ensures { result ≡ option_map (back_event over_tcp link addr) (tree.answer_to addr over_tcp query.now) }
    {
        let server = Server::at(addr)?;
        let asked = Asked::of(query)?;
        Some(Entry {
            link,
            coming: Coming::Answer {
                addr,
                server,
                over_tcp,
                asked,
            },
        })
    }

    /// Puts it into the inbox, at this moment.
    pub(crate) fn give(&self, now: u64, inbox: &mut Inbox)
        requires { now < 2 ^ 62 }
        ensures event { inbox.new ≡ record self.now { now = now } }
        ensures bounds { IsEvent inbox.new }
    {
        match &self.coming {
            Coming::Up => inbox.set(event(now, Kind::LinkUp, self.link, [0; 4], 0, 0), &[]),
            Coming::Answer {
                addr,
                server,
                over_tcp,
                asked,
            } => give_answer(now, self.link, *addr, *server, *over_tcp, asked, inbox),
        }
    }
}
