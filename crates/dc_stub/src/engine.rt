//! One question as an engine.
ghost use Rattle.std.specs.Prelude.{◌≡◌, ◌+◌, ◌<◌, ◌≤◌, ◌^◌, ℕ, List, min, length, IfOk, IfSome, option_map, Some, None, false, refl};
ghost use Rattle.dc_model.specs.Limits.{longest_packet};
ghost use Rattle.dc_model.specs.Draws.{draws_of};
ghost use Rattle.dc_model.specs.Event.{Event, tick};
ghost use Rattle.dc_model.specs.Places.{all_empty};
ghost use Rattle.dc_lookup.specs.Asking.{unasked, ask_step, ask_by, fresh_step, begins, followed_by, is_over, accepted_by, is_refused_by};
ghost use Rattle.dc_serve.specs.Serve.{passes, Ran, count_served, Justified};
ghost use Rattle.dc_stub.specs.Stub.{Stub, stub_machine};

use dc_draws::{Draws, shuffle};
use dc_event::{Effects, Engine, Inbox, Kind, World};
use dc_name::Name;
use dc_serve::{Served, serve};
use dc_transmit::{Progress, Transmit};
use std::alloc::{AllocError, Global};
use std::marker::Model;

/// One question, asked with recursion wanted. It begins at its first Tick.
///
/// Contracts see the question, how its transmission stands, and how many events were handled.
#[derive(Drop)]
pub struct StubEngine {
    name: Name,
    kind: u16,
    servers: [[u8; 4]; 16],
    sender: Transmit,
    answer: Option<Progress>,
    link: u64,
    handled: u64,
}

impl Model for StubEngine {
    ghost use Rattle.std.specs.Prelude.{◌≡◌, ◌≤◌, false};
    ghost use Rattle.dc_model.specs.Places.{all_empty};
    ghost use Rattle.dc_stub.specs.Stub.{Stub};
    ghost use Rattle.dc_stub.specs.View.{stands_of, Fits};

    ghost Value = { Stub };

    ghost view = { λ s. record {
      asking = record { name = s.name; kind = s.kind; servers = s.servers; stands = stands_of s.answer s.sender; links = s.link };
      handled = s.handled;
    } };

    ghost invariant = { λ s. Fits s.answer s.sender × (s.link ≤ s.handled) × (all_empty s.servers ≡ false) };
}

impl StubEngine {
    /// A question that nobody was asked yet. It takes all memory that it needs.
    pub fn new(
        alloc: Global,
        servers: &[[u8; 4]; 16],
        name: &Name,
        qtype: u16,
    ) -> Result<StubEngine, AllocError>
        requires place { all_empty servers.now ≡ false }
        ensures { IfOk result (λ stub. stub ≡ record { asking = unasked servers.now name.now qtype; handled = 0 }) }
    {
        let sender = Transmit::new(alloc)?;
        Ok(StubEngine {
            name: name.copy(),
            kind: qtype,
            servers: *servers,
            sender,
            answer: None,
            link: 0,
            handled: 0,
        })
    }

    /// The packet that was accepted. `None` exactly where none was.
    pub fn answer(&self) -> Option<&[u8]>
        ensures value { option_map (λ b. b.now) result ≡ accepted_by self.now.asking.stands }
        ensures most { IfSome result (λ b. length b.now ≤ longest_packet) }
    {
        match self.answer {
            Some(Progress::Packet) => Some(self.sender.packet()),
            _ => None,
        }
    }

    /// How many events it has handled.
    pub fn handled(&self) -> u64
        ensures { result ≡ self.now.handled }
    {
        self.handled
    }

    /// Whether its ports were refused.
    pub fn port_refused(&self) -> bool
        ensures { result ≡ is_refused_by self.now.asking.stands }
    {
        matches!(self.answer, Some(Progress::NoPort))
    }

    /// The first attempt, at a Tick.
    fn begin<O: Effects>(&mut self, inbox: &Inbox, draws: &[u32; 17], out: &mut O)
        requires fresh { self.old.asking.stands ≡ None }
        requires links { self.old.asking.links < 2 ^ 60 }
        requires handled { self.old.asking.links + 1 ≤ self.old.handled }
        ensures acts { O.acted out.old (begins self.old.asking inbox.now draws.now).actions out.new }
        ensures next { self.new ≡ record { asking = (begins self.old.asking inbox.now draws.now).asking; handled = self.old.handled } }
    {
        let mut servers = self.servers;
        shuffle(&mut servers, draws);
        self.sender.start(
            &servers,
            &self.name,
            self.kind,
            true,
            draws,
            inbox.event().now,
            &mut self.link,
            out,
        );
        self.answer = Some(Progress::Waiting);
    }

    /// An event before the first attempt.
    fn hear_first<O: Effects>(&mut self, inbox: &Inbox, draws: &[u32; 17], out: &mut O)
        requires fresh { self.old.asking.stands ≡ None }
        requires links { self.old.asking.links < 2 ^ 60 }
        requires handled { self.old.asking.links + 1 ≤ self.old.handled }
        ensures acts { O.acted out.old (ask_step self.old.asking inbox.now draws.now).actions out.new }
        ensures next { self.new ≡ record { asking = (ask_step self.old.asking inbox.now draws.now).asking; handled = self.old.handled } }
    {
        match inbox.event().kind {
            Kind::Tick => self.begin(inbox, draws, out),
            Kind::Request
            | Kind::Datagram
            | Kind::LinkUp
            | Kind::LinkBytes
            | Kind::LinkDown
            | Kind::BindRefused
            | Kind::ConnUp
            | Kind::ConnBytes
            | Kind::ConnDown => {}
        }
    }

    /// An event.
    fn hear<O: Effects>(&mut self, inbox: &Inbox, draws: &[u32; 17], out: &mut O)
        requires links { self.old.asking.links < 2 ^ 60 }
        requires handled { self.old.asking.links + 1 ≤ self.old.handled }
        ensures acts { O.acted out.old (ask_step self.old.asking inbox.now draws.now).actions out.new }
        ensures next { self.new ≡ record { asking = (ask_step self.old.asking inbox.now draws.now).asking; handled = self.old.handled } }
    {
        match self.answer {
            None => self.hear_first(inbox, draws, out),
            Some(last) => match last {
                Progress::Waiting => {
                    let answer = self.sender.on_event(inbox, draws, &mut self.link, out);
                    self.answer = Some(answer);
                }
                Progress::Packet => {}
                Progress::Failed => {}
                Progress::NoPort => {}
            },
        }
    }
}

impl Engine for StubEngine {
    ghost State = { Stub };

    ghost machine = { stub_machine };

    ghost state = { λ s. s };

    fn launch<O: Effects>(&mut self, _out: &mut O) {
        let _ = &self.handled;
    }

    fn step<O: Effects>(&mut self, inbox: &Inbox, draws: &[u32; 17], out: &mut O) {
        self.handled += 1;
        self.hear(inbox, draws, out);
    }

    fn wake(&self) -> Option<u64> {
        match self.answer {
            None => Some(0),
            Some(_) => self.sender.deadline(),
        }
    }

    fn finished(&self) -> bool {
        match self.answer {
            None | Some(Progress::Waiting) => false,
            Some(_) => true,
        }
    }

    ghost counts = { λ s e words. refl };
}

/// Hands a world's events to a question until it has its answer.
pub fn ask<W: World>(
    stub: &mut StubEngine,
    world: &mut W,
    draws: &mut Draws,
    inbox: &mut Inbox,
    turns: u64,
) -> Served
    requires events { stub.old.handled + min turns (2 ^ 60) ≤ 2 ^ 60 }
    requires words { draws.old.given + min turns (2 ^ 60) ≤ 2 ^ 60 }
    ensures run { (events : List Event) ×
        W.history world.old (passes stub_machine (draws_of draws.old.seed) draws.old.given stub.old events result) world.new
        × Ran stub_machine (draws_of draws.old.seed) draws.old.given stub.old stub.new (min turns (2 ^ 60)) events result
        × (draws.new ≡ record { seed = draws.old.seed; given = draws.old.given + length events }) }
    ensures count { W.faults world.new ≡ count_served result (W.faults world.old) }
    ensures justified { Justified result (W.used_up world.new) (W.broken world.new) }
{
    serve(world, stub, draws, inbox, turns)
}
