//! What no clause says: a script byte for byte, how commands end, and serving in a recorded world.
ghost use Rattle.std.specs.Prelude.{◌≡◌, length, IfOk};

use crate::{Status, dnscache};
use dc_config::{Env, QuietFiles, Variable};
use dc_event::{MemorySink, MemorySource, QuietSink, QuietSource};
use dc_script::{LineRest, ScriptWorld};
use std::alloc::{AllocError, Global};
use std::test::Fail;
use std::thread::Threads;

/// The seven lines before the events.
const HEAD: &[u8] = b"dnscache-script 1
cachesize 1000000
forwardonly no
allow 127
zone @ 198.51.100.1
seed 0000000000000000000000000000000000000000000000000000000000000000
begin
";

/// A request for the address of localhost.
const ASKED: &[u8] =
    b"at 1000000 request 127.0.0.1 4096 123401000001000000000000096c6f63616c686f73740000010001
end
";

/// The same request twice.
const ASKED_TWICE: &[u8] =
    b"at 1000000 request 127.0.0.1 4096 123401000001000000000000096c6f63616c686f73740000010001
at 1000000 request 127.0.0.1 4096 123401000001000000000000096c6f63616c686f73740000010001
end
";

/// Its line, its reply, and the line of the reply.
const ANSWERED: &[u8] = b"line starting
line query 1 7f000001:1000:1234 1 localhost.
reply 127.0.0.1 4096 123481800001000100000000096c6f63616c686f73740000010001c00c00010001000a000000047f000001
line sent 1 43
";

/// The opening alone.
const STARTED: &[u8] = b"line starting\n";

/// A world in memory.
type MemoryWorld = ScriptWorld<MemorySource, MemorySink>;

/// A world of these events. The calls of its source with these numbers fail.
fn world_of(alloc: Global, events: &[u8], failing: &[u64]) -> Result<MemoryWorld, AllocError> {
    let source = MemorySource::new(events.to_vec(alloc)?, 64, failing.to_vec(alloc)?);
    let sink = MemorySink::new(alloc, 4096, Vec::new(alloc))?;
    ScriptWorld::new(alloc, LineRest::new(alloc)?, 0, source, sink)
}

/// A replay: the words of the command, the head and the events of its script, which calls of the source fail, the room of the sink, and
/// the turns.
#[derive(Clone, Copy)]
struct Replay {
    words: &'static [&'static str],
    head: &'static [u8],
    events: &'static [u8],
    failing: &'static [u64],
    room: usize,
    turns: u64,
}

impl Replay {
    /// All goes well.
    fn of(events: &'static [u8]) -> Replay {
        Replay {
            words: &["replay"],
            head: HEAD,
            events,
            failing: &[],
            room: 4096,
            turns: 1000,
        }
    }

    /// Plays it: how that ended, and what was written.
    fn play(
        &self,
        rt: &(impl Threads + Sync),
        alloc: Global,
    ) -> Result<(Status, Vec<u8>), AllocError> {
        let mut words = Vec::new(alloc);
        for word in self.words {
            words.push(String::from_str(alloc, word)?)?;
        }
        let mut script = self.head.to_vec(alloc)?;
        script.extend_from_slice(self.events)?;
        let mut source = MemorySource::new(script, 64, self.failing.to_vec(alloc)?);
        let mut sink = MemorySink::new(alloc, self.room, Vec::new(alloc))?;
        let status = dnscache(
            rt,
            alloc,
            &words,
            &Env::new(alloc)?,
            &mut QuietFiles::new(Vec::new(alloc)),
            &mut source,
            &mut sink,
            &mut world_of(alloc, b"", &[])?,
            &mut QuietSource::new(Vec::new(alloc)),
            &mut QuietSink::new(alloc, 0)?,
            self.turns,
        );
        Ok((status, sink.held().to_vec(alloc)?))
    }
}

/// Scripts that stop in a line, go on behind the end, hold no event, or hold requests that get no answer.
#[test]
fn ends_of_scripts(rt: HostRuntime) -> Result<(), Fail> {
    for (events, wanted, written) in [
        (ASKED, Status::Done, ANSWERED),
        (
            &b"at 1000000 request 127.0.0.1 4096 1234"[..],
            Status::BadScript(8),
            STARTED,
        ),
        (b"", Status::BadScript(8), STARTED),
        (b"at 5 tick\nend\nend\n", Status::BadScript(10), STARTED),
        (b"end\n", Status::Done, STARTED),
        (
            b"at 5 request 127.0.0.1 1000 123401000001000000000000096c6f63616c686f73740000010001\nend\n",
            Status::Done,
            STARTED,
        ),
        (
            b"at 5 request 10.0.0.1 4096 123401000001000000000000096c6f63616c686f73740000010001\nend\n",
            Status::Done,
            STARTED,
        ),
    ] {
        let (status, text) = Replay::of(events).play(&rt, rt.alloc())?;
        assert_eq!(rt; status, wanted);
        assert_eq!(rt; &text[..], written);
    }
    Ok(())
}

/// A source that fails in the head or behind an event, a sink without room, and turns that are used up.
#[test]
fn faults_and_turns(rt: HostRuntime) -> Result<(), Fail> {
    let all = Replay::of(ASKED_TWICE);
    for (replay, wanted, written) in [
        (
            Replay {
                failing: &[2],
                ..all
            },
            Status::ReadFault,
            &b""[..],
        ),
        (
            Replay {
                failing: &[5],
                ..all
            },
            Status::ReadFault,
            ANSWERED,
        ),
        (
            Replay { room: 10, ..all },
            Status::WriteFault,
            b"line start",
        ),
        (Replay { turns: 1, ..all }, Status::Spent, ANSWERED),
    ] {
        let (status, text) = replay.play(&rt, rt.alloc())?;
        assert_eq!(rt; status, wanted);
        assert_eq!(rt; &text[..], written);
    }
    Ok(())
}

/// Heads outside the grammar, and other words.
#[test]
fn heads_and_words(rt: HostRuntime) -> Result<(), Fail> {
    for (words, head, wanted) in [
        (
            &["replay"][..],
            &b"dnscache-script 3\n"[..],
            Status::BadScript(1),
        ),
        (
            &["replay"],
            b"dnscache-script 1\ncachesize x\n",
            Status::BadScript(2),
        ),
        (&[], HEAD, Status::BadVariable(Variable::Ip)),
        (&["simulate"], HEAD, Status::Usage),
        (&["replay", "replay"], HEAD, Status::Usage),
        (&["Replay"], HEAD, Status::Usage),
        (&["audit"], HEAD, Status::Usage),
    ] {
        let (status, text) = Replay {
            words,
            head,
            ..Replay::of(ASKED)
        }
        .play(&rt, rt.alloc())?;
        assert_eq!(rt; status, wanted);
        assert!(rt; text.is_empty());
    }
    Ok(())
}

/// A variable's name and its value.
type Setting = (&'static str, &'static str);

/// How clients are served: the first variable, at most two behind CACHESIZE, the first file, how long the seed is, and which calls of the
/// world's source fail.
#[derive(Clone, Copy)]
struct Service {
    variable: &'static str,
    mode: Option<Setting>,
    further: Option<Setting>,
    file: &'static str,
    seed: usize,
    failing: &'static [u64],
}

/// All goes well.
const GOOD: Service = Service {
    variable: "IP",
    mode: None,
    further: None,
    file: "servers/@",
    seed: 32,
    failing: &[],
};

impl Service {
    /// Its environment.
    fn env(&self, alloc: Global) -> Result<Env, AllocError> {
        let mut env = Env::new(alloc)?;
        let address = String::from_str(alloc, "127.0.0.1")?;
        env.set(String::from_str(alloc, self.variable)?, address);
        let address = String::from_str(alloc, "0.0.0.0")?;
        env.set(String::from_str(alloc, "IPSEND")?, address);
        let size = String::from_str(alloc, "10000")?;
        env.set(String::from_str(alloc, "CACHESIZE")?, size);
        if let Some((name, value)) = self.mode {
            let value = String::from_str(alloc, value)?;
            env.set(String::from_str(alloc, name)?, value);
        }
        if let Some((name, value)) = self.further {
            let value = String::from_str(alloc, value)?;
            env.set(String::from_str(alloc, name)?, value);
        }
        Ok(env)
    }

    /// Its files.
    fn files(&self, alloc: Global) -> Result<QuietFiles, AllocError> {
        let mut files = Vec::new(alloc);
        let root = b"198.51.100.1\n".to_vec(alloc)?;
        files.push((String::from_str(alloc, self.file)?, root))?;
        files.push((String::from_str(alloc, "ip/127")?, Vec::new(alloc)))?;
        Ok(QuietFiles::new(files))
    }

    /// Serves a request: how that ended, and what the world was told.
    fn serve(
        &self,
        rt: &(impl Threads + Sync),
        alloc: Global,
    ) -> Result<(Status, Vec<u8>), AllocError> {
        let mut world = world_of(alloc, ASKED, self.failing)?;
        let seed = vec![in alloc; 0u8; self.seed]?;
        let status = dnscache(
            rt,
            alloc,
            &[],
            &self.env(alloc)?,
            &mut self.files(alloc)?,
            &mut MemorySource::new(seed, 10, Vec::new(alloc)),
            &mut MemorySink::new(alloc, 4096, Vec::new(alloc))?,
            &mut world,
            &mut QuietSource::new(Vec::new(alloc)),
            &mut QuietSink::new(alloc, 0)?,
            1000,
        );
        Ok((status, world.sink().held().to_vec(alloc)?))
    }
}

#[test]
fn serving(rt: HostRuntime) -> Result<(), Fail> {
    for (service, wanted, told) in [
        (GOOD, Status::Done, ANSWERED),
        (Service { seed: 31, ..GOOD }, Status::SeedShort, b""),
        (
            Service {
                variable: "FORWARDONLY",
                ..GOOD
            },
            Status::BadVariable(Variable::Ip),
            b"",
        ),
        (
            Service {
                file: "servers/example.org",
                ..GOOD
            },
            Status::NoRoot,
            b"",
        ),
        (
            Service {
                failing: &[1],
                ..GOOD
            },
            Status::WorldFault,
            STARTED,
        ),
    ] {
        let (status, text) = service.serve(&rt, rt.alloc())?;
        assert_eq!(rt; status, wanted);
        assert_eq!(rt; &text[..], told);
    }
    Ok(())
}

/// How the variables choose the way in which clients are served, and which of them are refused.
#[test]
fn ways_to_serve(rt: HostRuntime) -> Result<(), Fail> {
    let image = Some(("IMAGE", "image"));
    let rows: [(Option<Setting>, Option<Setting>, Status, &[u8]); 10] = [
        (Some(("EVENTS", "x")), None, Status::Done, ANSWERED),
        (Some(("CORES", "1")), None, Status::Done, ANSWERED),
        (
            Some(("CORES", "9")),
            None,
            Status::BadVariable(Variable::Cores),
            b"",
        ),
        (
            Some(("CORES", "")),
            None,
            Status::BadVariable(Variable::Cores),
            b"",
        ),
        (image, None, Status::Done, ANSWERED),
        (image, Some(("EVENTS", "1")), Status::Spent, ANSWERED),
        (
            image,
            Some(("EVENTS", "x")),
            Status::BadVariable(Variable::Events),
            b"",
        ),
        (Some(("RECORD", "")), None, Status::Done, ANSWERED),
        (
            image,
            Some(("RECORD", "")),
            Status::BadVariable(Variable::Record),
            b"",
        ),
        (
            image,
            Some(("CORES", "9")),
            Status::BadVariable(Variable::Image),
            b"",
        ),
    ];
    for (mode, further, wanted, told) in rows {
        let (status, text) = Service {
            mode,
            further,
            ..GOOD
        }
        .serve(&rt, rt.alloc())?;
        assert_eq!(rt; status, wanted);
        assert_eq!(rt; &text[..], told);
    }
    Ok(())
}
