//! What follows an event on an attempt.
ghost use Rattle.dc_model.specs.Limits.{longest_packet};

use crate::attempt::Attempt;
use crate::progress::Progress;
use crate::relevance::{is_served, is_truncated};
use dc_engine::{Effects, Event, Inbox, Kind};
use dc_limits::{LONGEST_DATAGRAM, MOST_REFUSALS};
use dc_packet::{QueryBytes, Question, question_of, u16_at};
use dc_types::class;

/// The port of servers.
const SERVER_PORT: u16 = 53;

impl Attempt {
    ghost use Rattle.std.specs.Prelude.{◌≡◌, ◌≤◌, ◌<◌, ◌^◌, ◌&&◌, not, length, IsTrue, IfSome, MatchOption, Some, true, false, []};
    ghost use Rattle.dc_model.specs.Transmission.{asks_for, is_relevant, is_from_server, accepted, answered, after_datagram, after_link_bytes, after_link_up, after_refusal, after_tick, after_link_event, after_event, is_whole};
    ghost use Rattle.dc_packet.specs.Question.{question_read};
    ghost use Rattle.dc_engine.specs.View.{event_of};
    ghost use Rattle.dc_transmit.specs.Rounds.{is_stream};
    ghost use Rattle.dc_transmit.specs.Gathered.{message_of};
    ghost use Rattle.dc_transmit.specs.Attempts.{attempt_of, occasion, is_good, Did};

    /// Whether a packet answers the attempt: it has the attempt's id, and one question, that which was asked, in class IN
    /// (after djbdns' dns_transmit.c, `irrelevant`).
    fn is_relevant(&self, packet: &[u8]) -> bool
        requires { length packet.now ≤ longest_packet }
        ensures relevant { result ≡ is_relevant (attempt_of self.now) packet.now }
        ensures header { IsTrue result → 12 ≤ length packet.now }
    {
        if packet.len() < 12 {
            return false;
        }
        let id = u16_at(packet, 0);
        if id != self.link.id {
            return false;
        }
        match question_of(packet) {
            None => false,
            Some(question) => self.asks_for(&question),
        }
    }

    /// Whether a question is the one that is asked, in class IN.
    fn asks_for(&self, question: &Question) -> bool
        ensures { result ≡ asks_for (attempt_of self.now) (Some (question_read question.now)) }
    {
        if question.name.same(&self.asked.name) {
            question.kind == self.asked.kind && question.class == class::IN
        } else {
            false
        }
    }

    /// Takes a packet over UDP as the answer, and ends the transmission.
    fn accept_datagram<O: Effects>(&mut self, packet: &[u8], links: &u64, out: &mut O) -> Progress
        requires { length packet.now ≤ longest_packet }
        ensures { Did O.acted out.old out.new (accepted packet.now (attempt_of self.old) links.now) links.now result self.new }
    {
        self.gathering.keep(packet);
        out.link_close(self.link.number);
        Progress::Packet
    }

    /// After a relevant packet over UDP.
    fn hear_answer<O: Effects>(
        &mut self,
        packet: &[u8],
        now: u64,
        draws: &[u32; 17],
        links: &mut u64,
        out: &mut O,
    ) -> Progress
        requires least { 12 ≤ length packet.now }
        requires most { length packet.now ≤ longest_packet }
        requires moment { now < 2 ^ 62 }
        requires links { links.old < 2 ^ 60 }
        ensures { Did O.acted out.old out.new (answered packet.now (attempt_of self.old) (occasion now draws.now links.old)) links.new result self.new }
    {
        if is_truncated(packet) {
            self.ask_by_tcp(now, draws, links, out)
        } else if is_served(packet) {
            self.accept_datagram(packet, links, out)
        } else {
            self.hear_bad_news(now, draws, links, out)
        }
    }

    /// After a datagram of the server.
    fn hear_datagram<O: Effects>(
        &mut self,
        packet: &[u8],
        now: u64,
        draws: &[u32; 17],
        links: &mut u64,
        out: &mut O,
    ) -> Progress
        requires most { length packet.now ≤ longest_packet }
        requires moment { now < 2 ^ 62 }
        requires links { links.old < 2 ^ 60 }
        ensures { Did O.acted out.old out.new (after_datagram packet.now (attempt_of self.old) (occasion now draws.now links.old)) links.new result self.new }
    {
        if self.course.round.is_stream() {
            return Progress::Waiting;
        }
        if packet.len() > LONGEST_DATAGRAM {
            return Progress::Waiting;
        }
        if self.is_relevant(packet) {
            self.hear_answer(packet, now, draws, links, out)
        } else {
            Progress::Waiting
        }
    }

    /// Whether a packet over TCP is the answer: relevant, not cut short, and the server could serve.
    fn is_good(&self, packet: &[u8]) -> bool
        requires { length packet.now ≤ longest_packet }
        ensures { result ≡ is_good (attempt_of self.now) packet.now }
    {
        self.is_relevant(packet) && !is_truncated(packet) && is_served(packet)
    }

    /// Whether the message that was gathered is the answer, where it is whole.
    fn is_answered(&self) -> Option<bool>
        ensures whole { MatchOption result (is_whole self.now.gathering.bytes ≡ false) (λ b. is_whole self.now.gathering.bytes ≡ true) }
        ensures room { MatchOption result (length self.now.gathering.bytes < 65537) (λ b. Unit {0}) }
        ensures answer { IfSome result (λ b. b ≡ is_good (attempt_of self.now) (message_of self.now.gathering.bytes)) }
    {
        match self.gathering.message() {
            None => None,
            Some(packet) => Some(self.is_good(packet)),
        }
    }

    /// Whether bytes are gathered: over TCP, once the link is up.
    fn gathers(&self) -> bool
        ensures { result ≡ (is_stream self.now.course.round && self.now.is_up) }
    {
        self.course.round.is_stream() && self.is_up
    }

    /// Whether the query waits for the link: over TCP, until it is up.
    fn is_connecting(&self) -> bool
        ensures { result ≡ (is_stream self.now.course.round && not self.now.is_up) }
    {
        self.course.round.is_stream() && !self.is_up
    }

    /// After bytes of the server's stream.
    fn hear_bytes<O: Effects>(
        &mut self,
        bytes: &[u8],
        now: u64,
        draws: &[u32; 17],
        links: &mut u64,
        out: &mut O,
    ) -> Progress
        requires moment { now < 2 ^ 62 }
        requires links { links.old < 2 ^ 60 }
        ensures { Did O.acted out.old out.new (after_link_bytes bytes.now (attempt_of self.old) (occasion now draws.now links.old)) links.new result self.new }
    {
        if !self.gathers() {
            return Progress::Waiting;
        }
        self.gathering.append(bytes);
        match self.is_answered() {
            None => Progress::Waiting,
            Some(good) => {
                if good {
                    self.gathering.keep_message();
                    out.link_close(self.link.number);
                    Progress::Packet
                } else {
                    self.try_next(now, draws, links, out)
                }
            }
        }
    }

    /// After the link is up: the query is written, once.
    fn hear_up<O: Effects>(&mut self, links: &u64, out: &mut O) -> Progress
        ensures { Did O.acted out.old out.new (after_link_up (attempt_of self.old) links.now) links.now result self.new }
    {
        if self.is_connecting() {
            self.is_up = true;
            let mut bytes: QueryBytes = [0; 273];
            let len = self.write_query(&mut bytes);
            out.link_write(self.link.number, &bytes[..len + 2]);
        }
        Progress::Waiting
    }

    /// After a local port was refused: the same attempt on another. The tenth refusal in a row ends the transmission.
    fn hear_refusal<O: Effects>(
        &mut self,
        now: u64,
        draws: &[u32; 17],
        links: &mut u64,
        out: &mut O,
    ) -> Progress
        requires moment { now < 2 ^ 62 }
        requires links { links.old < 2 ^ 60 }
        ensures { Did O.acted out.old out.new (after_refusal (attempt_of self.old) (occasion now draws.now links.old)) links.new result self.new }
    {
        if self.refusals >= MOST_REFUSALS {
            out.link_close(self.link.number);
            return Progress::NoPort;
        }
        self.refusals += 1;
        self.open(now, draws, links, out);
        Progress::Waiting
    }

    /// After a tick: at the deadline the next attempt is made.
    fn hear_tick<O: Effects>(
        &mut self,
        now: u64,
        draws: &[u32; 17],
        links: &mut u64,
        out: &mut O,
    ) -> Progress
        requires moment { now < 2 ^ 62 }
        requires links { links.old < 2 ^ 60 }
        ensures { Did O.acted out.old out.new (after_tick (attempt_of self.old) (occasion now draws.now links.old)) links.new result self.new }
    {
        if now < self.link.deadline {
            return Progress::Waiting;
        }
        self.try_next(now, draws, links, out)
    }

    /// Whether an event is from port 53 of the server that is asked.
    fn is_from_server(&self, event: Event) -> bool
        ensures { result ≡ is_from_server (attempt_of self.now) (event_of event []) }
    {
        event.addr == self.server() && event.port == SERVER_PORT
    }

    /// After an event on the attempt's own link.
    fn hear_link<O: Effects>(
        &mut self,
        inbox: &Inbox,
        draws: &[u32; 17],
        links: &mut u64,
        out: &mut O,
    ) -> Progress
        requires { links.old < 2 ^ 60 }
        ensures { Did O.acted out.old out.new (after_link_event inbox.now.kind inbox.now (attempt_of self.old) (occasion inbox.now.now draws.now links.old)) links.new result self.new }
    {
        let event = inbox.event();
        match event.kind {
            Kind::Datagram => {
                if self.is_from_server(event) {
                    self.hear_datagram(inbox.bytes(), event.now, draws, links, out)
                } else {
                    Progress::Waiting
                }
            }
            Kind::LinkBytes => {
                if self.is_from_server(event) {
                    self.hear_bytes(inbox.bytes(), event.now, draws, links, out)
                } else {
                    Progress::Waiting
                }
            }
            Kind::LinkUp => self.hear_up(links, out),
            Kind::LinkDown => self.hear_bad_news(event.now, draws, links, out),
            Kind::BindRefused => self.hear_refusal(event.now, draws, links, out),
            _ => Progress::Waiting,
        }
    }

    /// After an event. A tick has no link; events of other links change nothing.
    pub(crate) fn hear<O: Effects>(
        &mut self,
        inbox: &Inbox,
        draws: &[u32; 17],
        links: &mut u64,
        out: &mut O,
    ) -> Progress
        requires { links.old < 2 ^ 60 }
        ensures { Did O.acted out.old out.new (after_event inbox.now (attempt_of self.old) (occasion inbox.now.now draws.now links.old)) links.new result self.new }
    {
        let event = inbox.event();
        match event.kind {
            Kind::Tick => self.hear_tick(event.now, draws, links, out),
            _ => {
                if event.id == self.link.number {
                    self.hear_link(inbox, draws, links, out)
                } else {
                    Progress::Waiting
                }
            }
        }
    }
}
