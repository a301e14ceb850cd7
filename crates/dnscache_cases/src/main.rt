//! Replays each script of its folder, and compares what is written with the file of the same name that ends in `.stdout`.
#![tactic(auto)]

use dc_commands::{Status, replay_command};
use dc_event::{QuietSink, ReaderSource};
use std::alloc::Global;
use std::fs;
use std::io::{self, Read};

/// What the files with the text that is wanted end in.
const ENDING: &str = ".stdout";

/// The most bytes of a text.
const MOST_TEXT: usize = 1_000_000;

/// The names of the scripts, in order.
fn script_names(rt: &HostRuntime) -> io::Result<Vec<String>> {
    let mut names = Vec::new(rt.alloc());
    for entry in fs::read_dir(rt, ".")? {
        let entry = entry?;
        if let Some(name) = entry.file_name().strip_suffix(ENDING) {
            names.push(String::from_str(rt.alloc(), name)?)?;
        }
    }
    names.sort_unstable();
    Ok(names)
}

/// The bytes of a file.
fn bytes_of(rt: &HostRuntime, path: &str) -> io::Result<Vec<u8>> {
    let mut bytes = Vec::new(rt.alloc());
    fs::open(rt, path)?
        .take(MOST_TEXT as u64)
        .read_to_end(&mut bytes)?;
    Ok(bytes)
}

/// How the replay of a script compares with what is wanted.
fn verdict(alloc: Global, script: impl Read + Drop, wanted: &[u8]) -> io::Result<&'static str> {
    let mut source = ReaderSource::new(script);
    let mut sink = QuietSink::new(alloc, MOST_TEXT)?;
    let status = replay_command(alloc, &mut source, &mut sink, u64::MAX);
    let Status::Done = status else {
        return Ok("ends otherwise");
    };
    if sink.held() == Some(wanted) {
        Ok("as wanted")
    } else {
        Ok("writes otherwise")
    }
}

/// Replays all scripts.
fn run(rt: &HostRuntime) -> io::Result<()> {
    for name in script_names(rt)? {
        let script = fs::open(rt, name.as_str())?;
        let mut path = String::from_str(rt.alloc(), name.as_str())?;
        path.push_str(ENDING)?;
        let wanted = bytes_of(rt, path.as_str())?;
        println!(rt.stdout(); "{}: {}", name, verdict(rt.alloc(), script, &wanted)?)?;
    }
    Ok(())
}

fn main(rt: HostRuntime) -> io::Result<()> {
    run(&rt)
}
