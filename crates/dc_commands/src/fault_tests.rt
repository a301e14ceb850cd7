//! Each fault that serving and replaying can have, made to happen in memory.

use crate::{Session, Status, dnscache, serve_command};
use dc_config::{Env, MemoryFiles, QuietFiles};
use dc_event::{MemorySink, MemorySource, QuietSink, QuietSource};
use dc_script::{FaultWorld, LineRest, ScriptWorld};
use std::alloc::{AllocError, Global};
use std::test::Fail;
use std::thread::Threads;

/// The request of a client for the address of www.example.com.
const ASKED: &[u8] =
    b"at 1000000 request 127.0.0.1 4096 00010100000100000000000003777777076578616d706c6503636f6d0000010001
end
";

/// What is done until the first server is asked.
const ASKING: &[u8] = b"line starting
line query 1 7f000001:1000:0001 1 www.example.com.
line tx 0 1 www.example.com. . c6336401
udp 1 20352 198.51.100.1 eeb20000000100000000000003777777076578616d706c6503636f6d0000010001
";

/// A script of two requests that are answered at once, and one that is not.
const SCRIPT: &[u8] = b"dnscache-script 1
cachesize 100
forwardonly no
allow 127
zone @ 198.51.100.1
seed 0000000000000000000000000000000000000000000000000000000000000000
begin
at 1000000 request 127.0.0.1 4096 123401000001000000000000096c6f63616c686f73740000010001
at 1000001 request 127.0.0.1 4096 00010100000100000000000003777777076578616d706c6503636f6d0000010001
at 1000002 request 127.0.0.1 4096 123401000001000000000000096c6f63616c686f73740000010001
end
";

/// What the first of its events is answered with, as long as nothing else is.
const FIRST: &[u8] = b"line starting
line query 1 7f000001:1000:1234 1 localhost.
reply 127.0.0.1 4096 123481800001000100000000096c6f63616c686f73740000010001c00c00010001000a000000047f000001
line sent 1 43
";

/// Which calls fail, counted from 1: on the files, on the source of the seed, and of the world's `listen` and `next` together.
#[derive(Clone, Copy)]
struct Failing {
    files: &'static [u64],
    source: &'static [u64],
    world: &'static [u64],
}

/// None.
const NONE: Failing = Failing {
    files: &[],
    source: &[],
    world: &[],
};

/// A good environment.
fn environment(alloc: Global) -> Result<Env, AllocError> {
    let mut env = Env::new(alloc)?;
    env.set(
        String::from_str(alloc, "IP")?,
        String::from_str(alloc, "127.0.0.1")?,
    );
    env.set(
        String::from_str(alloc, "IPSEND")?,
        String::from_str(alloc, "0.0.0.0")?,
    );
    env.set(
        String::from_str(alloc, "CACHESIZE")?,
        String::from_str(alloc, "1000000")?,
    );
    Ok(env)
}

/// Good files, of which these calls fail: the list of `servers`, the reading of `servers/@` and the list of `ip` are the first three.
fn files(alloc: Global, failing: &[u64]) -> Result<MemoryFiles, AllocError> {
    let mut files = Vec::new(alloc);
    let root = b"198.51.100.1\n".to_vec(alloc)?;
    files.push((String::from_str(alloc, "servers/@")?, root))?;
    files.push((String::from_str(alloc, "ip/127")?, Vec::new(alloc)))?;
    Ok(MemoryFiles::new(files, failing.to_vec(alloc)?))
}

/// A world of one request, of which these calls fail.
fn world(alloc: Global, failing: &[u64]) -> Result<FaultWorld, AllocError> {
    let source = QuietSource::new(ASKED.to_vec(alloc)?);
    let sink = QuietSink::new(alloc, 4096)?;
    let inner = ScriptWorld::new(alloc, LineRest::new(alloc)?, 0, source, sink)?;
    Ok(FaultWorld::new(inner, failing.to_vec(alloc)?))
}

/// Serves one request: how that ended, and the world behind it.
fn serve(alloc: Global, failing: Failing) -> Result<(Session, FaultWorld), AllocError> {
    let mut world = world(alloc, failing.world)?;
    let session = serve_command(
        alloc,
        &environment(alloc)?,
        &mut files(alloc, failing.files)?,
        &mut MemorySource::new(vec![in alloc; 0u8; 32]?, 32, failing.source.to_vec(alloc)?),
        &mut world,
        1000,
    );
    Ok((session, world))
}

#[test]
fn serving_meets_faults(rt: HostRuntime) -> Result<(), Fail> {
    let rows: [(Failing, Status, bool, &[u8], &[Option<u64>]); 8] = [
        (NONE, Status::Done, true, ASKING, &[None, Some(1001000)]),
        (
            Failing {
                files: &[1],
                ..NONE
            },
            Status::FilesFault,
            false,
            b"",
            &[],
        ),
        (
            Failing {
                files: &[2],
                ..NONE
            },
            Status::FilesFault,
            false,
            b"",
            &[],
        ),
        (
            Failing {
                files: &[3],
                ..NONE
            },
            Status::FilesFault,
            false,
            b"",
            &[],
        ),
        (
            Failing {
                source: &[1],
                ..NONE
            },
            Status::ReadFault,
            false,
            b"",
            &[],
        ),
        (
            Failing {
                world: &[1],
                ..NONE
            },
            Status::WorldFault,
            false,
            b"",
            &[],
        ),
        (
            Failing {
                world: &[2],
                ..NONE
            },
            Status::WorldFault,
            true,
            b"line starting\n",
            &[None],
        ),
        (
            Failing {
                world: &[3],
                ..NONE
            },
            Status::WorldFault,
            true,
            ASKING,
            &[None, Some(1001000)],
        ),
    ];
    for (failing, status, has_core, done, wakes) in rows {
        let (session, world) = serve(rt.alloc(), failing)?;
        assert_eq!(rt; session.status, status);
        assert!(rt; session.core.is_some() == has_core);
        assert!(rt; world.world().sink().held() == Some(done));
        assert!(rt; world.wakes() == wakes);
    }
    Ok(())
}

/// Replays the script: how that ended, and what was written.
fn replay(
    rt: &(impl Threads + Sync),
    alloc: Global,
    failing_takes: &[u64],
    failing_puts: &[u64],
) -> Result<(Status, Vec<u8>), AllocError> {
    let mut words = Vec::new(alloc);
    words.push(String::from_str(alloc, "replay")?)?;
    let mut source = MemorySource::new(SCRIPT.to_vec(alloc)?, 64, failing_takes.to_vec(alloc)?);
    let mut sink = MemorySink::new(alloc, 4096, failing_puts.to_vec(alloc)?)?;
    let status = dnscache(
        rt,
        alloc,
        &words,
        &Env::new(alloc)?,
        &mut QuietFiles::new(Vec::new(alloc)),
        &mut source,
        &mut sink,
        &mut world(alloc, &[])?,
        &mut QuietSource::new(Vec::new(alloc)),
        &mut QuietSink::new(alloc, 0)?,
        1000,
    );
    Ok((status, sink.held().to_vec(alloc)?))
}

#[test]
fn a_read_or_a_write_of_a_replay_fails(rt: HostRuntime) -> Result<(), Fail> {
    let rows: [(&[u64], &[u64], Status, usize); 11] = [
        (&[9], &[11], Status::Done, 533),
        (&[1], &[], Status::ReadFault, 0),
        (&[3], &[], Status::ReadFault, 0),
        (&[4], &[], Status::ReadFault, 14),
        (&[6], &[], Status::ReadFault, 182),
        (&[7], &[], Status::ReadFault, 365),
        (&[8], &[], Status::ReadFault, 533),
        (&[], &[1], Status::WriteFault, 0),
        (&[], &[2], Status::WriteFault, 14),
        (&[], &[5], Status::WriteFault, 182),
        (&[], &[10], Status::WriteFault, 518),
    ];
    for (takes, puts, wanted, length) in rows {
        let (status, written) = replay(&rt, rt.alloc(), takes, puts)?;
        assert_eq!(rt; status, wanted);
        assert!(rt; written.len() == length);
        assert!(rt; length < FIRST.len() || written.starts_with(FIRST));
    }
    Ok(())
}
