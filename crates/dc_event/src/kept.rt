//! Events, answers, actions and exchanges that own their bytes.
ghost use Rattle.std.specs.Prelude.{◌≡◌};
ghost use Rattle.dc_model.specs.Event.{IsEvent};
ghost use Rattle.dc_event.specs.Kept.{event_with, IsWithin};

use dc_engine::{Event, Inbox, Kind};

/// An event with its bytes.
#[derive(Debug, PartialEq, Eq, Drop)]
pub struct FullEvent {
    /// The moment in milliseconds, below 2^62.
    pub now: u64,
    pub kind: Kind,
    /// The number of a link or of a client's connection, and 0 for Tick and Request.
    pub id: u64,
    /// Where it came from, or 0.0.0.0.
    pub addr: [u8; 4],
    pub port: u16,
    /// At most 65535 bytes.
    pub bytes: Vec<u8>,
}

impl FullEvent {
    /// Puts the event into the inbox.
    pub(crate) fn put(&self, inbox: &mut Inbox)
        requires { IsWithin self.now }
        ensures event { inbox.new ≡ event_with self.entry.now }
        ensures bounds { IsEvent inbox.new }
    {
        let event = Event {
            now: self.now,
            kind: self.kind,
            id: self.id,
            addr: self.addr,
            port: self.port,
            len: self.bytes.len(),
        };
        inbox.set(event, &self.bytes);
    }
}

/// What a world in memory gives when it is asked for an event.
#[derive(Debug, PartialEq, Eq, Drop)]
pub enum Given {
    Event(FullEvent),
    /// It fails.
    Failed,
    /// It names a line outside the grammar.
    Bad { line: u64 },
}

/// What an engine did.
#[derive(Debug, PartialEq, Eq, Drop)]
pub enum Action {
    Reply {
        addr: [u8; 4],
        port: u16,
        bytes: Vec<u8>,
    },
    ConnReply {
        conn: u64,
        bytes: Vec<u8>,
    },
    ConnClose {
        conn: u64,
    },
    Udp {
        link: u64,
        local_port: u16,
        server: [u8; 4],
        query: Vec<u8>,
    },
    Tcp {
        link: u64,
        local_port: u16,
        server: [u8; 4],
    },
    LinkWrite {
        link: u64,
        bytes: Vec<u8>,
    },
    LinkClose {
        link: u64,
    },
    Line {
        text: Vec<u8>,
    },
}

/// What passed between a world and its user.
#[derive(Debug, PartialEq, Eq, Drop)]
pub enum Passed {
    /// It was asked to listen on `addr` and to send from `send_from`, and does so or failed.
    Listened {
        addr: [u8; 4],
        send_from: [u8; 4],
        well: bool,
    },
    /// It was asked for an event with this wake, and gave this. Behind all that it had to give it gave nothing, and its events are used up.
    Asked {
        wake: Option<u64>,
        gave: Option<Given>,
    },
    /// It gave one more event, that had come already.
    Gathered(FullEvent),
    /// This was done.
    Did(Action),
}
