//! A recorded text, with which the text of actions is compared.
ghost use Rattle.std.specs.Prelude.{◌≡◌, ℕ, ◌≤◌, ◌<◌, List, [], ◌∷◌, ◌++◌, Some, None, length, take, is_some, MatchOption, refl};
ghost use Rattle.dc_event.specs.Answers.{put_by, PutsSome, count_put, IfPutFailed};
ghost use Rattle.dc_script.specs.Text.{text_of};
ghost use Rattle.dc_script.specs.View.{action_of};
ghost use Rattle.dc_audit.specs.Matched.{matched, matched_none, matched_both, acted_none, acted_both};

use dc_event::{Effects, Put, Sink};
use dc_script::{Action, write_action};
use std::marker::Model;

/// What is left of a recorded text behind all that was put, as long as it goes on with that. It keeps nothing.
#[derive(Drop)]
pub struct Matching<'a> {
    rest: &'a [u8],
    differs: bool,
}

impl<'a> Model for Matching<'a> {
    ghost use Rattle.std.specs.Prelude.{ℕ, List, Option, Some, None, cond};

    ghost Value = { Option (List ℕ) };

    ghost view = { λ a. cond a.differs None (Some a.rest.now) };
}

impl<'a> Matching<'a> {
    /// Nothing was put.
    pub fn new(recorded: &'a [u8]) -> Matching<'a>
        ensures { result ≡ Some recorded.now }
    {
        Matching {
            rest: recorded,
            differs: false,
        }
    }

    /// Whether the text goes on with all that was put.
    pub fn goes_on(&self) -> bool
        ensures { result ≡ is_some self.now }
    {
        !self.differs
    }

    /// What is left, where it does.
    pub fn rest(&self) -> Option<&[u8]>
        ensures { MatchOption result (self.now ≡ None) (λ rest. self.now ≡ Some rest.now) }
    {
        if self.differs { None } else { Some(self.rest) }
    }

    /// Compares the text of an action.
    fn act(&mut self, action: Action<'_>)
        ensures { self.new ≡ matched (text_of (action_of action.entry ∷ [])) self.old }
    {
        match write_action(self, action) {
            Put::Taken(_) => {}
            Put::Failed => unreachable!(),
        }
    }
}

impl Sink for Matching<'_> {
    ghost gained = { λ a xs b. b ≡ matched xs a };

    ghost faults = { λ _. 0 };

    ghost refused = { λ a b. ⊥ };

    fn put(&mut self, bytes: &[u8]) -> Put {
        if !self.differs {
            match self.rest.strip_prefix(bytes) {
                Some(rest) => self.rest = rest,
                None => self.differs = true,
            }
        }
        Put::Taken(bytes.len())
    }

    fn faults(&self) -> u64 {
        0
    }

    ghost gained_none = { matched_none };

    ghost gained_both = { matched_both };
}

impl Effects for Matching<'_> {
    ghost acted = { λ a xs b. b ≡ matched (text_of xs) a };

    fn reply(&mut self, addr: [u8; 4], port: u16, bytes: &[u8]) {
        self.act(Action::Reply { addr, port, bytes });
    }

    fn conn_reply(&mut self, conn: u64, bytes: &[u8]) {
        self.act(Action::ConnReply { conn, bytes });
    }

    fn conn_close(&mut self, conn: u64) {
        self.act(Action::ConnClose { conn });
    }

    fn udp(&mut self, link: u64, local_port: u16, server: [u8; 4], query: &[u8]) {
        self.act(Action::Udp {
            link,
            local_port,
            server,
            query,
        });
    }

    fn tcp(&mut self, link: u64, local_port: u16, server: [u8; 4]) {
        self.act(Action::Tcp {
            link,
            local_port,
            server,
        });
    }

    fn link_write(&mut self, link: u64, bytes: &[u8]) {
        self.act(Action::LinkWrite { link, bytes });
    }

    fn link_close(&mut self, link: u64) {
        self.act(Action::LinkClose { link });
    }

    fn line(&mut self, text: &[u8]) {
        self.act(Action::Line { text });
    }

    ghost acted_none = { acted_none };

    ghost acted_both = { acted_both };
}
