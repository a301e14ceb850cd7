//! What no clause says: a recorded run byte for byte, one that is cut off by a sink without room, and zones that can't be said.
use crate::record_command;
use dc_config::{Env, QuietFiles, Variable};
use dc_event::{MemorySink, MemorySource};
use dc_script::{LineRest, ScriptWorld};
use dc_status::Status;
use std::alloc::{AllocError, Global};
use std::test::Fail;

/// The head of the configuration below, whose zones were added in another order.
const HEAD: &[u8] = b"dnscache-script 2
cachesize 1000000
forwardonly no
allow 127
zone @ 198.51.100.1
zone 10.in-addr.arpa. 198.51.100.2
seed 0000000000000000000000000000000000000000000000000000000000000000
begin
";

/// A tick, and a request for the address of localhost.
const EVENTS: &[u8] = b"at 1000000 tick
at 1000000 request 127.0.0.1 4096 123401000001000000000000096c6f63616c686f73740000010001
";

/// What is done then.
const DONE: &[u8] = b"line starting
line query 1 7f000001:1000:1234 1 localhost.
reply 127.0.0.1 4096 123481800001000100000000096c6f63616c686f73740000010001c00c00010001000a000000047f000001
line sent 1 43
";

/// The variables.
fn env_of(alloc: Global) -> Result<Env, AllocError> {
    let mut env = Env::new(alloc)?;
    let address = String::from_str(alloc, "127.0.0.1")?;
    env.set(String::from_str(alloc, "IP")?, address);
    let address = String::from_str(alloc, "0.0.0.0")?;
    env.set(String::from_str(alloc, "IPSEND")?, address);
    let size = String::from_str(alloc, "1000000")?;
    env.set(String::from_str(alloc, "CACHESIZE")?, size);
    Ok(env)
}

/// The root's zone, and another before it in the order of bytes.
fn files_of(alloc: Global, zone: &str) -> Result<QuietFiles, AllocError> {
    let mut files = Vec::new(alloc);
    let root = b"198.51.100.1\n".to_vec(alloc)?;
    files.push((String::from_str(alloc, "servers/@")?, root))?;
    let other = b"198.51.100.2\n".to_vec(alloc)?;
    files.push((String::from_str(alloc, zone)?, other))?;
    files.push((String::from_str(alloc, "ip/127")?, Vec::new(alloc)))?;
    Ok(QuietFiles::new(files))
}

/// Records a run with so much room: how that ended, what was recorded, and what was done.
fn record(
    alloc: Global,
    zone: &str,
    room: usize,
) -> Result<(Status, Vec<u8>, Vec<u8>), AllocError> {
    let mut script = EVENTS.to_vec(alloc)?;
    script.extend_from_slice(b"end\n")?;
    let source = MemorySource::new(script, 64, Vec::new(alloc));
    let log = MemorySink::new(alloc, 4096, Vec::new(alloc))?;
    let mut world = ScriptWorld::new(alloc, LineRest::new(alloc)?, 0, source, log)?;
    let seed = vec![in alloc; 0u8; 32]?;
    let mut sink = MemorySink::new(alloc, room, Vec::new(alloc))?;
    let session = record_command(
        alloc,
        &env_of(alloc)?,
        &mut files_of(alloc, zone)?,
        &mut MemorySource::new(seed, 10, Vec::new(alloc)),
        &mut world,
        &mut sink,
        1000,
    );
    let (_, log) = world.into_parts();
    Ok((
        session.status,
        sink.held().to_vec(alloc)?,
        log.held().to_vec(alloc)?,
    ))
}

#[test]
fn runs_are_recorded(rt: HostRuntime) -> Result<(), Fail> {
    let alloc: Global = rt.alloc();
    let mut whole = HEAD.to_vec(alloc)?;
    whole.extend_from_slice(EVENTS)?;
    let (status, text, done) = record(alloc, "servers/10.in-addr.arpa", 4096)?;
    assert_eq!(rt; status, Status::Done);
    assert!(rt; text == whole);
    assert!(rt; &done[..] == DONE);
    for room in [HEAD.len() - 1, HEAD.len() + 20] {
        let (status, text, done) = record(alloc, "servers/10.in-addr.arpa", room)?;
        assert_eq!(rt; status, Status::WriteFault);
        assert!(rt; whole.starts_with(&text) && text.len() == room);
        assert!(rt; DONE.starts_with(&done) && done.len() < 20);
    }
    let (status, text, done) = record(alloc, "servers/a b", 4096)?;
    assert_eq!(rt; status, Status::BadVariable(Variable::Record));
    assert!(rt; text.is_empty() && done.is_empty());
    Ok(())
}
