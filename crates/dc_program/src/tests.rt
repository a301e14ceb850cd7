//! What is read and said, in words.

use crate::{
    Invocation, MemoryInvocation, ProcessInvocation, environment, exit_code, report, words,
};
use dc_config::{Env, FileName, Variable};
use dc_event::{MemorySink, QuietSink};
use dc_status::Status;
use std::alloc::{AllocError, Global};
use std::test::Fail;

/// Arguments and variables: one that isn't read, two that are set, and one that is set to nothing.
fn invocation(alloc: Global) -> Result<MemoryInvocation, AllocError> {
    let mut arguments = Vec::new(alloc);
    for argument in ["./dnscache", "replay", "twice"] {
        arguments.push(String::from_str(alloc, argument)?)?;
    }
    let mut variables = Env::new(alloc)?;
    variables.set(
        String::from_str(alloc, "CORES")?,
        String::from_str(alloc, "2")?,
    );
    variables.set(
        String::from_str(alloc, "HOME")?,
        String::from_str(alloc, "/root")?,
    );
    variables.set(
        String::from_str(alloc, "IP")?,
        String::from_str(alloc, "127.0.0.1")?,
    );
    variables.set(
        String::from_str(alloc, "IPSEND")?,
        String::from_str(alloc, "0.0.0.0")?,
    );
    variables.set(String::from_str(alloc, "FORWARDONLY")?, String::new(alloc));
    Ok(MemoryInvocation::new(arguments, variables))
}

#[test]
fn words_and_variables_are_read(rt: HostRuntime) -> Result<(), Fail> {
    let process = invocation(rt.alloc())?;
    match words(rt.alloc(), &process) {
        Ok(words) => {
            assert!(rt;
                words.len() == 2 && words[0].as_str() == "replay" && words[1].as_str() == "twice"
            )
        }
        Err(_) => panic!(rt; "no words"),
    }
    let environment = environment(rt.alloc(), &process)?;
    assert!(rt; environment.get("IP") == Some("127.0.0.1"));
    assert!(rt; environment.get("IPSEND") == Some("0.0.0.0"));
    assert!(rt; environment.get("CACHESIZE").is_none());
    assert!(rt; environment.get("FORWARDONLY") == Some(""));
    assert!(rt; environment.get("CORES") == Some("2"));
    assert!(rt; environment.get("HOME").is_none());
    Ok(())
}

#[test]
fn a_process_has_arguments(rt: HostRuntime) -> Result<(), Fail> {
    let process = ProcessInvocation::new(&rt);
    match process.arguments(rt.alloc()) {
        Ok(arguments) => assert!(rt; !arguments.is_empty()),
        Err(_) => panic!(rt; "no arguments"),
    }
    assert!(rt; process.value(rt.alloc(), "NO SUCH VARIABLE")?.is_none());
    Ok(())
}

/// The name of a file.
fn file(alloc: Global, name: &str) -> Result<FileName, AllocError> {
    Ok(FileName::new(String::from_str(alloc, name)?))
}

#[test]
fn each_refusal_has_its_line(rt: HostRuntime) -> Result<(), Fail> {
    let alloc = rt.alloc();
    let rows: [(Status, &[u8]); 17] = [
        (Status::Done, b""),
        (Status::Spent, b""),
        (
            Status::Usage,
            b"dnscache: fatal: usage: dnscache [replay | simulate SEED EVENTS | audit FILE ..]\n",
        ),
        (
            Status::BadVariable(Variable::Ipsend),
            b"dnscache: fatal: unable to read $IPSEND\n",
        ),
        (
            Status::BadVariable(Variable::Record),
            b"dnscache: fatal: unable to read $RECORD\n",
        ),
        (Status::NoRoot, b"dnscache: fatal: no root servers\n"),
        (
            Status::BadZone(file(alloc, "a..b")?),
            b"dnscache: fatal: bad server file a..b\n",
        ),
        (
            Status::BadPermit(file(alloc, "256")?),
            b"dnscache: fatal: bad permission file 256\n",
        ),
        (
            Status::FilesFault,
            b"dnscache: fatal: unable to read files\n",
        ),
        (Status::SeedShort, b"dnscache: fatal: seed too short\n"),
        (
            Status::ReadFault,
            b"dnscache: fatal: unable to read input\n",
        ),
        (
            Status::WriteFault,
            b"dnscache: fatal: unable to write output\n",
        ),
        (
            Status::BadScript(18446744073709551615),
            b"dnscache: fatal: bad script line 18446744073709551615\n",
        ),
        (Status::BadImage, b"dnscache: fatal: bad cache image\n"),
        (Status::Unequal, b""),
        (
            Status::WorldFault,
            b"dnscache: fatal: network or log fault\n",
        ),
        (Status::NoMemory, b"dnscache: fatal: out of memory\n"),
    ];
    for (status, line) in rows {
        let mut sink = QuietSink::new(alloc, 100)?;
        assert!(rt; report(&mut sink, &status));
        assert!(rt; sink.held() == Some(line));
    }
    let mut full = MemorySink::new(alloc, 20, Vec::new(alloc))?;
    assert!(rt; !report(&mut full, &Status::NoMemory));
    assert!(rt; full.held() == b"dnscache: fatal: out".as_slice());
    let _done = exit_code(&Status::Done);
    Ok(())
}
