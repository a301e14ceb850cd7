//! A tool over the system's own files and sockets.

use crate::report::{exit_code, report, tell_unreadable};
use dc_config::{Env as Environment, HostFiles};
use dc_event::{ReaderSource, WriterSink};
use dc_os::Os;
use dc_sock::SocketWorld;
use dc_stub::ToolStatus;
use dc_tools::{Tool, run};
use std::alloc::AllocError;
use std::env::{self, VarError};
use std::io::{self, ErrorKind, Read, Write};
use std::net::Net;
use std::process::ExitCode;
use std::random::RandomSource;
use std::rt::{Env, Runtime};
use std::sync::Wait;

/// The variable that names a server to ask.
const SERVER: &str = "DNSCACHEIP";

/// What a tool wants of its process.
pub trait Host: Runtime + AllocGlobal + Net + Wait + RandomSource {}

impl<R: Runtime + AllocGlobal + Net + Wait + RandomSource> Host for R {}

/// How a tool ends whose words can't be read: words that aren't UTF-8 aren't usable.
fn unreadable(why: &io::Error) -> ToolStatus {
    match why.kind() {
        ErrorKind::OutOfMemory => ToolStatus::NoMemory,
        _ => ToolStatus::Usage,
    }
}

/// The words behind the program's name.
fn words<R: Env + AllocGlobal>(rt: &R) -> io::Result<Vec<String>> {
    let mut args = env::args(rt)?;
    let _program = args.next();
    let mut words = Vec::new(rt.alloc());
    for word in args {
        words.push(word)?;
    }
    Ok(words)
}

/// The environment. A variable whose value isn't UTF-8 counts as absent.
fn environment<R: Env + AllocGlobal>(rt: &R) -> Result<Environment, AllocError> {
    let alloc = rt.alloc();
    let mut environment = Environment::new(alloc)?;
    match env::var(rt, SERVER) {
        Ok(value) => environment.set(String::from_str(alloc, SERVER)?, value),
        Err(VarError::OutOfMemory) => return Err(AllocError),
        Err(_) => {}
    }
    Ok(environment)
}

/// The world of the system's own sockets.
fn world<R: Net + AllocGlobal>(rt: &R) -> Result<SocketWorld<&R, Os<&R>>, AllocError> {
    let system = Os::new(rt, rt.alloc())?;
    SocketWorld::new(rt, system, rt.alloc())
}

/// Runs a tool with these words, and a seed of the system's random source.
fn run_words<T: Tool, R: Host, O: Write + Drop>(
    rt: &R,
    name: &str,
    words: &[String],
    output: O,
) -> ToolStatus {
    let Ok(environment) = environment(rt) else {
        return ToolStatus::NoMemory;
    };
    let mut seed = [0u8; 32];
    if rt.fill_bytes(&mut seed).is_err() {
        return ToolStatus::FilesFault;
    }
    let Ok(mut world) = world(rt) else {
        return ToolStatus::NoMemory;
    };
    let mut files = HostFiles::new(rt);
    let status = run::<T, _, _, _>(
        rt.alloc(),
        words,
        &environment,
        &mut files,
        seed,
        &mut WriterSink::new(output),
        &mut world,
        u64::MAX,
    );
    tell_unreadable(rt, name, &files);
    status
}

/// Runs the filter with these words, and a seed of the system's random source.
fn run_filter<R: Host, I: Read + Drop, O: Write + Drop>(
    rt: &R,
    name: &str,
    words: &[String],
    input: I,
    output: O,
) -> ToolStatus {
    let Ok(environment) = environment(rt) else {
        return ToolStatus::NoMemory;
    };
    let mut seed = [0u8; 32];
    if rt.fill_bytes(&mut seed).is_err() {
        return ToolStatus::FilesFault;
    }
    let Ok(mut world) = world(rt) else {
        return ToolStatus::NoMemory;
    };
    let mut files = HostFiles::new(rt);
    let status = dc_filtering::run(
        rt.alloc(),
        words,
        &environment,
        &mut files,
        seed,
        &mut ReaderSource::new(input),
        &mut WriterSink::new(output),
        &mut world,
        u64::MAX,
    );
    tell_unreadable(rt, name, &files);
    status
}

/// Says how a tool ended, and answers the exit status.
fn end<R: Host>(rt: &R, name: &str, status: ToolStatus) -> ExitCode {
    report(rt, name, status);
    exit_code(status)
}

/// Runs a tool, says how it ended, and answers the exit status.
pub fn tool<T: Tool, R: Host, O: Write + Drop>(rt: &R, name: &str, output: O) -> ExitCode {
    let status = match words(rt) {
        Ok(words) => run_words::<T, R, O>(rt, name, &words, output),
        Err(why) => unreadable(&why),
    };
    end(rt, name, status)
}

/// Runs the filter over an input, says how it ended, and answers the exit status.
pub fn filter<R: Host, I: Read + Drop, O: Write + Drop>(
    rt: &R,
    name: &str,
    input: I,
    output: O,
) -> ExitCode {
    let status = match words(rt) {
        Ok(words) => run_filter(rt, name, &words, input, output),
        Err(why) => unreadable(&why),
    };
    end(rt, name, status)
}
