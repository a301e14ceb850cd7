//! Actions are kept in memory.
ghost use Rattle.std.specs.Prelude.{◌≡◌, true, false, [], ◌∷◌, IfOk, IfErr, map};
ghost use Rattle.dc_event.specs.Kept.{action_of};
ghost use Rattle.dc_shard.specs.Taped.{Gains, Gains-none, Gains-both, blank};

use dc_event::{Action, Effects};
use std::alloc::{AllocError, Global};
use std::marker::Model;

/// How many actions a new tape has memory for.
const ROOM: usize = 64;

/// Keeps the actions that it is given, in memory that grows. `short` says whether it wanted for memory.
///
/// Contracts see whether it did, and the actions that it holds.
#[derive(Drop)]
pub struct Tape {
    alloc: Global,
    kept: Vec<Action>,
    short: bool,
}

impl Model for Tape {
    ghost use Rattle.std.specs.Prelude.{map};
    ghost use Rattle.dc_event.specs.Kept.{action_of};
    ghost use Rattle.dc_shard.specs.Taped.{Taped};

    ghost Value = { Taped };

    ghost view = { λ t. record { short = t.short; actions = map action_of t.kept.items } };
}

impl Tape {
    /// A tape that holds nothing.
    pub fn new(alloc: Global) -> Result<Tape, AllocError>
        ensures { IfOk result (λ t. t ≡ blank) }
    {
        Ok(Tape {
            alloc,
            kept: Vec::with_capacity(alloc, ROOM)?,
            short: false,
        })
    }

    /// Whether memory was wanting since it was made or cleared.
    pub fn short(&self) -> bool
        ensures { result ≡ self.now.short }
    {
        self.short
    }

    /// Forgets what it holds.
    pub fn clear(&mut self)
        ensures { self.new ≡ blank }
    {
        self.kept.clear();
        self.short = false;
    }

    /// Gives its actions in order.
    pub fn play<E: Effects>(&self, out: &mut E)
        requires { self.now.short ≡ false }
        ensures { E.acted out.old self.now.actions out.new }
    {
        play_all(&self.kept, out);
    }

    /// Keeps an action, or is short from then on. It couldn't be copied where memory was refused.
    fn keep(&mut self, action: Result<Action, AllocError>)
        ensures kept { IfOk action (λ x. Gains self.old (action_of x ∷ []) self.new) }
        ensures short { IfErr action (λ _. self.new.short ≡ true) }
    {
        let Ok(action) = action else {
            self.short = true;
            return;
        };
        if self.kept.push(action).is_err() {
            self.short = true;
        }
    }
}

/// Gives one action.
fn play_one<E: Effects>(action: &Action, out: &mut E)
    ensures { E.acted out.old (action_of action.now ∷ []) out.new }
{
    match action {
        Action::Reply { addr, port, bytes } => out.reply(*addr, *port, bytes),
        Action::ConnReply { conn, bytes } => out.conn_reply(*conn, bytes),
        Action::ConnClose { conn } => out.conn_close(*conn),
        Action::Udp {
            link,
            local_port,
            server,
            query,
        } => out.udp(*link, *local_port, *server, query),
        Action::Tcp {
            link,
            local_port,
            server,
        } => out.tcp(*link, *local_port, *server),
        Action::LinkWrite { link, bytes } => out.link_write(*link, bytes),
        Action::LinkClose { link } => out.link_close(*link),
        Action::Line { text } => out.line(text),
    }
}

/// Gives these actions in order.
fn play_all<E: Effects>(kept: &[Action], out: &mut E)
    ensures { E.acted out.old (map action_of kept.now) out.new }
{
    for action in kept {
        play_one(action, out);
    }
}

impl Effects for Tape {
    ghost acted = { Gains };

    fn reply(&mut self, addr: [u8; 4], port: u16, bytes: &[u8]) {
        let bytes = bytes.to_vec(self.alloc);
        self.keep(bytes.map(|bytes| Action::Reply { addr, port, bytes }));
    }

    fn conn_reply(&mut self, conn: u64, bytes: &[u8]) {
        let bytes = bytes.to_vec(self.alloc);
        self.keep(bytes.map(|bytes| Action::ConnReply { conn, bytes }));
    }

    fn conn_close(&mut self, conn: u64) {
        self.keep(Ok(Action::ConnClose { conn }));
    }

    fn udp(&mut self, link: u64, local_port: u16, server: [u8; 4], query: &[u8]) {
        let query = query.to_vec(self.alloc);
        self.keep(query.map(|query| Action::Udp {
            link,
            local_port,
            server,
            query,
        }));
    }

    fn tcp(&mut self, link: u64, local_port: u16, server: [u8; 4]) {
        self.keep(Ok(Action::Tcp {
            link,
            local_port,
            server,
        }));
    }

    fn link_write(&mut self, link: u64, bytes: &[u8]) {
        let bytes = bytes.to_vec(self.alloc);
        self.keep(bytes.map(|bytes| Action::LinkWrite { link, bytes }));
    }

    fn link_close(&mut self, link: u64) {
        self.keep(Ok(Action::LinkClose { link }));
    }

    fn line(&mut self, text: &[u8]) {
        let text = text.to_vec(self.alloc);
        self.keep(text.map(|text| Action::Line { text }));
    }

    ghost acted_none = { Gains-none };

    ghost acted_both = { Gains-both };
}
