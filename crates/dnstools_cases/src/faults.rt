//! Runs of `dnsmx` over two words, of which the file or the world fails.

use dc_config::{Env, MemoryFiles};
use dc_event::{QuietSink, QuietSource};
use dc_script::{FaultWorld, LineRest, ScriptWorld};
use dc_tools::{DnsMx, run};
use std::alloc::{AllocError, Global};
use std::io;

/// What the world gives: the answer to the first word.
const EVENTS: &[u8] = b"at 0 tick
at 5 datagram 1 127.0.0.1 53 eeb284000001000200000000076578616d706c6503636f6d00000f0001076578616d706c6503636f6d00000f00010000012c0011000a0161076578616d706c6503636f6d00076578616d706c6503636f6d00000f00010000012c001100140162076578616d706c6503636f6d00
end
";

/// The most bytes of a text.
const MOST_TEXT: usize = 4096;

/// A run: whether DNSCACHEIP names its server, and which calls fail, counted from 1, on the files and of the world.
#[derive(Clone, Copy)]
struct Run {
    name: &'static str,
    own_server: bool,
    files: &'static [u64],
    world: &'static [u64],
}

/// The runs.
const RUNS: [Run; 3] = [
    Run {
        name: "the file can't be read",
        own_server: false,
        files: &[1],
        world: &[],
    },
    Run {
        name: "no file is read",
        own_server: true,
        files: &[1],
        world: &[],
    },
    Run {
        name: "the world fails at the second word",
        own_server: false,
        files: &[],
        world: &[3],
    },
];

impl Run {
    /// The environment.
    fn env(&self, alloc: Global) -> Result<Env, AllocError> {
        let mut env = Env::new(alloc)?;
        if self.own_server {
            env.set(
                String::from_str(alloc, "DNSCACHEIP")?,
                String::from_str(alloc, "127.0.0.1")?,
            );
        }
        Ok(env)
    }

    /// The files.
    fn files(&self, alloc: Global) -> Result<MemoryFiles, AllocError> {
        let mut files = Vec::new(alloc);
        let path = String::from_str(alloc, "/etc/resolv.conf")?;
        files.push((path, b"nameserver 127.0.0.1\n".to_vec(alloc)?))?;
        Ok(MemoryFiles::new(files, self.files.to_vec(alloc)?))
    }

    /// The world.
    fn world(&self, alloc: Global) -> Result<FaultWorld, AllocError> {
        let source = QuietSource::new(EVENTS.to_vec(alloc)?);
        let actions = QuietSink::new(alloc, MOST_TEXT)?;
        let inner = ScriptWorld::new(alloc, LineRest::new(alloc)?, 0, source, actions)?;
        Ok(FaultWorld::new(inner, self.world.to_vec(alloc)?))
    }

    /// How it ended, behind what was written.
    fn outcome(&self, alloc: Global) -> Result<Vec<u8>, AllocError> {
        let mut words = Vec::new(alloc);
        words.push(String::from_str(alloc, "example.com")?)?;
        words.push(String::from_str(alloc, "example.org")?)?;
        let mut sink = QuietSink::new(alloc, MOST_TEXT)?;
        let status = run::<DnsMx, _, _, _>(
            alloc,
            &words,
            &self.env(alloc)?,
            &mut self.files(alloc)?,
            [0; 32],
            &mut sink,
            &mut self.world(alloc)?,
            u64::MAX,
        );
        let mut all = sink.held().unwrap_or(b"").to_vec(alloc)?;
        all.extend_from_slice(format!(in alloc; "{status:?}")?.as_bytes())?;
        Ok(all)
    }
}

/// Says of each run what was written and how it ended.
pub fn say_all(rt: &HostRuntime) -> io::Result<()> {
    for run in &RUNS {
        let outcome = run.outcome(rt.alloc())?;
        let text = str::from_utf8(&outcome).unwrap_or("no text");
        println!(rt.stdout(); "{}:\n{}", run.name, text)?;
    }
    Ok(())
}
