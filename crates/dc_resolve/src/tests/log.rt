//! What is done, as text.

use dc_engine::Effects;
use dc_lines::{Line, line_sent};
use std::alloc::{AllocError, Global};

/// How many bytes are kept.
const ROOM: usize = 8192;

/// Keeps the lines and what is asked, each with a line feed, and counts them. What comes when there is no more room isn't kept.
#[derive(Drop)]
pub(super) struct Log {
    bytes: Vec<u8>,
    len: usize,
    /// How many lines there were.
    pub(super) lines: usize,
    /// The server that was asked last.
    pub(super) server: [u8; 4],
}

impl Log {
    pub(super) fn new(alloc: Global) -> Result<Log, AllocError> {
        Ok(Log {
            bytes: vec![in alloc; 0u8; ROOM]?,
            len: 0,
            lines: 0,
            server: [0; 4],
        })
    }

    fn add(&mut self, bytes: &[u8]) {
        for byte in bytes {
            if let Some(place) = self.bytes.get_mut(self.len) {
                *place = *byte;
                self.len += 1;
            }
        }
    }

    /// A line of two words, the second one a number below 100.
    fn number(&mut self, word: &[u8], number: u64) {
        self.add(word);
        if number > 9 {
            self.add(&[b'0' + (number / 10 % 10) as u8]);
        }
        self.add(&[b'0' + (number % 10) as u8]);
        self.line(b"");
    }

    /// A reply: its header, and the line on its length.
    pub(super) fn replied(&mut self, message: &[u8]) {
        self.add(b"reply ");
        self.line(message.get(..12).unwrap_or(b"cut"));
        let mut line = Line::new();
        line_sent(&mut line, 1, message.len());
        self.line(line.text());
    }

    pub(super) fn text(&self) -> &[u8] {
        self.bytes.get(..self.len).unwrap_or(b"")
    }
}

impl Effects for Log {
    ghost acted = { λ a xs b. Unit {0} };

    fn reply(&mut self, _addr: [u8; 4], _port: u16, _bytes: &[u8]) {}

    fn conn_reply(&mut self, _conn: u64, _bytes: &[u8]) {}

    fn conn_close(&mut self, _conn: u64) {}

    fn udp(&mut self, link: u64, _local_port: u16, server: [u8; 4], _query: &[u8]) {
        self.server = server;
        self.number(b"udp ", link);
    }

    fn tcp(&mut self, link: u64, _local_port: u16, server: [u8; 4]) {
        self.server = server;
        self.number(b"tcp ", link);
    }

    fn link_write(&mut self, link: u64, _bytes: &[u8]) {
        self.number(b"write ", link);
    }

    fn link_close(&mut self, link: u64) {
        self.number(b"close ", link);
    }

    fn line(&mut self, text: &[u8]) {
        self.add(text);
        self.add(b"\n");
        self.lines = self.lines.saturating_add(1);
    }

    ghost acted_none = { λ a. tt };

    ghost acted_both = { λ a b c xs ys p q. tt };
}
