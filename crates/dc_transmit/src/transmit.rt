//! A transmission.
ghost use Rattle.std.specs.Prelude.{◌≡◌, ◌+◌, ◌<◌, ◌≤◌, ◌^◌, ◌∷◌, [], length, Some, IsSome, IsNone, IfOk, option_map, false};
ghost use Rattle.dc_model.specs.Limits.{longest_packet};
ghost use Rattle.dc_model.specs.Places.{all_empty};
ghost use Rattle.dc_model.specs.Transmission.{waiting, opening_of, started};
ghost use Rattle.dc_transmit.specs.Attempts.{occasion};
ghost use Rattle.dc_transmit.specs.Standing.{idle, standing_at, answer_of, closed, followed, stopped};

use crate::attempt::{Asked, Attempt};
use crate::progress::Progress;
use dc_engine::{Effects, Inbox};
use dc_name::Name;
use std::alloc::{AllocError, Global};
use std::marker::Model;

/// Asks up to sixteen servers one question, over UDP in rounds, and over TCP where an answer was cut short.
///
/// Contracts see the attempt that is made, or none where the transmission is idle; and the packet that was accepted, where that was
/// what ended it.
#[derive(Drop)]
pub struct Transmit {
    /// The last answer, where it was started and not stopped since.
    answer: Option<Progress>,
    attempt: Attempt,
}

impl Model for Transmit {
    ghost use Rattle.dc_transmit.specs.Standing.{Standing};

    ghost Value = { Standing };

    ghost use Rattle.dc_transmit.specs.View.{standing_of};

    ghost view = { λ t. standing_of t.answer t.attempt };
}

/// Closes a link, where there is one.
fn close<O: Effects>(link: Option<u64>, out: &mut O)
    ensures { O.acted out.old (closed link) out.new }
{
    match link {
        Some(link) => out.link_close(link),
        None => {}
    }
}

impl Transmit {
    /// An idle transmission. It takes all memory that it needs.
    pub fn new(alloc: Global) -> Result<Transmit, AllocError>
        ensures { IfOk result (λ t. t ≡ idle) }
    {
        let attempt = Attempt::new(alloc)?;
        Ok(Transmit {
            answer: None,
            attempt,
        })
    }

    /// Makes the first attempt at `now` milliseconds, with the first number behind `link`, the links used so far.
    pub fn start<O: Effects>(
        &mut self,
        servers: &[[u8; 4]; 16],
        name: &Name,
        qtype: u16,
        recursive: bool,
        draws: &[u32; 17],
        now: u64,
        link: &mut u64,
        out: &mut O,
    )
        requires idle { IsNone self.old.attempt }
        requires place { all_empty servers.now ≡ false }
        requires moment { now < 2 ^ 62 }
        requires links { link.old < 2 ^ 60 }
        ensures standing { self.new ≡ standing_at (waiting (started name.now qtype recursive servers.now (occasion now draws.now link.old))) }
        ensures acts { O.acted out.old (opening_of (started name.now qtype recursive servers.now (occasion now draws.now link.old)) ∷ []) out.new }
        ensures links { link.new ≡ link.old + 1 }
    {
        let copied = name.copy();
        let asked = Asked {
            name: copied,
            kind: qtype,
            recursive,
            servers: *servers,
        };
        self.attempt.start(asked, now, draws, link, out);
        self.answer = Some(Progress::Waiting);
    }

    /// What follows an event. After each answer but `Waiting` the transmission is idle.
    pub fn on_event<O: Effects>(
        &mut self,
        inbox: &Inbox,
        draws: &[u32; 17],
        link: &mut u64,
        out: &mut O,
    ) -> Progress
        requires asking { IsSome self.old.attempt }
        requires links { link.old < 2 ^ 60 }
        ensures standing { self.new ≡ standing_at (followed self.old.attempt inbox.now (occasion inbox.now.now draws.now link.old)).progress }
        ensures answer { result ≡ answer_of (followed self.old.attempt inbox.now (occasion inbox.now.now draws.now link.old)).progress }
        ensures acts { O.acted out.old (followed self.old.attempt inbox.now (occasion inbox.now.now draws.now link.old)).actions out.new }
        ensures links { link.new ≡ (followed self.old.attempt inbox.now (occasion inbox.now.now draws.now link.old)).links }
    {
        let answer = self.attempt.hear(inbox, draws, link, out);
        self.answer = Some(answer);
        answer
    }

    /// Closes the link, where one is open. Afterwards the transmission is idle.
    pub fn stop<O: Effects>(&mut self, out: &mut O)
        ensures acts { O.acted out.old (stopped self.old.attempt) out.new }
        ensures idle { self.new ≡ idle }
    {
        let open = self.link();
        self.answer = None;
        close(open, out);
    }

    /// When the attempt ends, in milliseconds. `None` exactly where the transmission is idle.
    pub fn deadline(&self) -> Option<u64>
        ensures { result ≡ option_map (λ a. a.deadline) self.now.attempt }
    {
        match self.answer {
            Some(Progress::Waiting) => Some(self.attempt.link.deadline),
            _ => None,
        }
    }

    /// The link of the attempt. `None` exactly where the transmission is idle.
    pub fn link(&self) -> Option<u64>
        ensures { result ≡ option_map (λ a. a.link) self.now.attempt }
    {
        match self.answer {
            Some(Progress::Waiting) => Some(self.attempt.link.number),
            _ => None,
        }
    }

    /// The packet that was accepted.
    pub fn packet(&self) -> &[u8]
        requires { IsSome self.now.accepted }
        ensures packet { option_map (λ p. p.packet) self.now.accepted ≡ Some result.now }
        ensures most { length result.now ≤ longest_packet }
    {
        self.attempt.gathering.packet()
    }

    /// The server that sent it.
    pub fn server(&self) -> [u8; 4]
        requires { IsSome self.now.accepted }
        ensures { option_map (λ p. p.server) self.now.accepted ≡ Some result }
    {
        self.attempt.server()
    }

    /// The place of that server, below 16.
    pub fn place(&self) -> usize
        requires { IsSome self.now.accepted }
        ensures place { option_map (λ p. p.place) self.now.accepted ≡ Some result }
        ensures range { result < 16 }
    {
        self.attempt.course.place
    }
}
