//! One attempt at a server, and the next.
use crate::course::Course;
use crate::gathering::Gathering;
use crate::places::{NO_ADDRESS, Servers};
use crate::progress::Progress;
use crate::round::Round;
use dc_draws::{id_of, port_of};
use dc_engine::Effects;
use dc_name::Name;
use dc_packet::{QueryBytes, write_query};
use std::alloc::{AllocError, Global};

/// What is asked of which servers.
#[derive(Drop)]
pub(crate) struct Asked {
    pub(crate) name: Name,
    pub(crate) kind: u16,
    pub(crate) recursive: bool,
    pub(crate) servers: Servers,
}

/// The link of an attempt.
#[derive(Clone, Copy, Debug)]
pub(crate) struct Link {
    pub(crate) number: u64,
    pub(crate) id: u16,
    pub(crate) port: u16,
    /// In milliseconds.
    pub(crate) deadline: u64,
}

/// A transmission at one of its attempts.
#[derive(Drop)]
pub(crate) struct Attempt {
    pub(crate) asked: Asked,
    pub(crate) course: Course,
    pub(crate) link: Link,
    /// How many local ports were refused in a row.
    pub(crate) refusals: u8,
    /// Over TCP, whether the link is up.
    pub(crate) is_up: bool,
    pub(crate) gathering: Gathering,
}

impl Attempt {
    ghost use Rattle.std.specs.Prelude.{◌≡◌, ◌≤◌, ◌<◌, ◌+◌, ◌^◌, ◌∷◌, [], length, take, IfSome, false};
    ghost use Rattle.dc_model.specs.Event.{link_close};
    ghost use Rattle.dc_model.specs.Message as model;
    ghost use Rattle.dc_model.specs.Transmission.{linked, opening_of, server_of, query_of, next_try, bad_news, asked_by_tcp, tried, started};
    ghost use Rattle.dc_model.specs.Places.{all_empty};
    ghost use Rattle.dc_transmit.specs.Rounds.{is_stream, tries_from};
    ghost use Rattle.dc_transmit.specs.Course.{tries_of};
    ghost use Rattle.dc_transmit.specs.Attempts.{attempt_of, occasion, steered, Did};

    /// An attempt at no server, with the memory of those to come.
    pub(crate) fn new(alloc: Global) -> Result<Attempt, AllocError> {
        let gathering = Gathering::new(alloc)?;
        Ok(Attempt {
            asked: Asked {
                name: Name::root(),
                kind: 0,
                recursive: false,
                servers: [NO_ADDRESS; 16],
            },
            course: Course {
                round: Round::First,
                place: 0,
            },
            link: Link {
                number: 0,
                id: 0,
                port: 0,
                deadline: 0,
            },
            refusals: 0,
            is_up: false,
            gathering,
        })
    }

    /// The server that is asked.
    pub(crate) fn server(&self) -> [u8; 4]
        ensures { result ≡ server_of (attempt_of self.now) }
    {
        self.asked.servers[self.course.place]
    }

    /// Writes the query behind its length, and answers the length of the query.
    pub(crate) fn write_query(&self, out: &mut QueryBytes) -> usize
        ensures length { result ≡ length (query_of (attempt_of self.now)) }
        ensures bytes { take (result + 2) out.new ≡ model.framed (query_of (attempt_of self.now)) }
        ensures most { result ≤ 271 }
    {
        write_query(
            &self.asked.name,
            self.asked.kind,
            self.link.id,
            self.asked.recursive,
            out,
        )
    }

    /// Makes the link: over UDP the query goes out on it at once.
    fn make_link<O: Effects>(&self, out: &mut O)
        ensures { O.acted out.old (opening_of (attempt_of self.now) ∷ []) out.new }
    {
        let server = self.server();
        if self.course.round.is_stream() {
            out.tcp(self.link.number, self.link.port, server);
        } else {
            let mut bytes: QueryBytes = [0; 273];
            let len = self.write_query(&mut bytes);
            out.udp(self.link.number, self.link.port, server, &bytes[2..len + 2]);
        }
    }

    /// Makes the attempt on a new link, with an id and a local port of its own.
    pub(crate) fn open<O: Effects>(
        &mut self,
        now: u64,
        draws: &[u32; 17],
        links: &mut u64,
        out: &mut O,
    )
        requires moment { now < 2 ^ 62 }
        requires links { links.old < 2 ^ 60 }
        ensures attempt { attempt_of self.new ≡ linked (attempt_of self.old) (occasion now draws.now links.old) }
        ensures acts { O.acted out.old (opening_of (attempt_of self.new) ∷ []) out.new }
        ensures links { links.new ≡ links.old + 1 }
    {
        let id = id_of(draws);
        let port = port_of(draws);
        let wait = self.course.round.wait();
        *links += 1;
        self.link = Link {
            number: *links,
            id,
            port,
            deadline: now + wait,
        };
        self.is_up = false;
        self.gathering.clear();
        self.make_link(out);
    }

    /// Makes the first attempt of all.
    pub(crate) fn start<O: Effects>(
        &mut self,
        asked: Asked,
        now: u64,
        draws: &[u32; 17],
        links: &mut u64,
        out: &mut O,
    )
        requires place { all_empty asked.servers ≡ false }
        requires moment { now < 2 ^ 62 }
        requires links { links.old < 2 ^ 60 }
        ensures attempt { attempt_of self.new ≡ started asked.name asked.kind asked.recursive asked.servers (occasion now draws.now links.old) }
        ensures acts { O.acted out.old (opening_of (started asked.name asked.kind asked.recursive asked.servers (occasion now draws.now links.old)) ∷ []) out.new }
        ensures links { links.new ≡ links.old + 1 }
    {
        let round = Round::opening(asked.recursive);
        match Course::first(round, &asked.servers) {
            None => unreachable!(),
            Some(course) => {
                self.course = course;
                self.asked = asked;
                self.refusals = 0;
                self.open(now, draws, links, out);
            }
        }
    }

    /// Ends the attempt and makes the next one, where there is one.
    fn go_on<O: Effects>(
        &mut self,
        next: Option<Course>,
        now: u64,
        draws: &[u32; 17],
        links: &mut u64,
        out: &mut O,
    ) -> Progress
        requires moment { now < 2 ^ 62 }
        requires links { links.old < 2 ^ 60 }
        ensures { Did O.acted out.old out.new (tried (tries_of next self.old.asked.servers) (link_close self.old.link.number ∷ []) (steered next (attempt_of self.old)) (occasion now draws.now links.old)) links.new result self.new }
    {
        out.link_close(self.link.number);
        match next {
            None => Progress::Failed,
            Some(course) => {
                self.course = course;
                self.refusals = 0;
                self.open(now, draws, links, out);
                Progress::Waiting
            }
        }
    }

    /// Ends the attempt and makes the next one of the plan.
    pub(crate) fn try_next<O: Effects>(
        &mut self,
        now: u64,
        draws: &[u32; 17],
        links: &mut u64,
        out: &mut O,
    ) -> Progress
        requires moment { now < 2 ^ 62 }
        requires links { links.old < 2 ^ 60 }
        ensures { Did O.acted out.old out.new (next_try (attempt_of self.old) (occasion now draws.now links.old)) links.new result self.new }
    {
        let next = self.course.next(&self.asked.servers);
        self.go_on(next, now, draws, links, out)
    }

    /// Asks the servers over TCP, from the first on.
    pub(crate) fn ask_by_tcp<O: Effects>(
        &mut self,
        now: u64,
        draws: &[u32; 17],
        links: &mut u64,
        out: &mut O,
    ) -> Progress
        requires moment { now < 2 ^ 62 }
        requires links { links.old < 2 ^ 60 }
        ensures { Did O.acted out.old out.new (asked_by_tcp (attempt_of self.old) (occasion now draws.now links.old)) links.new result self.new }
    {
        let first = Course::first(Round::Stream, &self.asked.servers);
        self.go_on(first, now, draws, links, out)
    }

    /// After bad news of the server: the next attempt, but in the third round over UDP the server is waited for.
    pub(crate) fn hear_bad_news<O: Effects>(
        &mut self,
        now: u64,
        draws: &[u32; 17],
        links: &mut u64,
        out: &mut O,
    ) -> Progress
        requires moment { now < 2 ^ 62 }
        requires links { links.old < 2 ^ 60 }
        ensures { Did O.acted out.old out.new (bad_news (attempt_of self.old) (occasion now draws.now links.old)) links.new result self.new }
    {
        if self.course.round.is_patient() {
            Progress::Waiting
        } else {
            self.try_next(now, draws, links, out)
        }
    }
}
