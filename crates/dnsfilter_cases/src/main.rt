//! Runs the filter on each case of its folder, and compares what it writes with the file of the same name that ends in `.stdout`.
//!
//! A case has a seed, a number of turns, the filter with its words, the numbers of the calls that fail, and lines of `/etc/resolv.conf`; and
//! behind an empty line the events of its world. Its input is the file of the same name that ends in `.input`. What is wanted is the filter's
//! text, the world's actions, and how the filter ended.
#![tactic(auto)]

use dc_config::{Env, Files, MemoryFiles};
use dc_event::{MemorySink, MemorySource, QuietSink, QuietSource, Sink, Source, World};
use dc_filtering::run;
use dc_script::{FaultWorld, LineRest, ScriptWorld};
use dc_stub::ToolStatus;
use std::alloc::{AllocError, Global};
use std::fs;
use std::io::{self, Read};

/// What the files with the text that is wanted end in.
const ENDING: &str = ".stdout";

/// What the files with the input end in.
const INPUT: &str = ".input";

/// The most bytes of a text.
const MOST_TEXT: usize = 100_000;

/// The most bytes that the input gives at a time.
const PIECE: usize = 5;

/// A run of the filter.
#[derive(Drop)]
struct Case<'a> {
    seed: [u8; 32],
    turns: u64,
    /// The filter and its words, each behind a space.
    words: &'a str,
    /// Which call fails, counted from 1, of the files, the input, the output and the world; 0 is none.
    fails: [u64; 4],
    /// The lines of `/etc/resolv.conf`.
    servers: &'a str,
    /// The lines of the world's script.
    events: &'a str,
}

/// Four numbers, of which one is parted from the next by a space.
fn numbers_of(text: &str) -> Option<[u64; 4]> {
    let (first, text) = text.split_once(' ')?;
    let (second, text) = text.split_once(' ')?;
    let (third, fourth) = text.split_once(' ')?;
    Some([
        first.parse().ok()?,
        second.parse().ok()?,
        third.parse().ok()?,
        fourth.parse().ok()?,
    ])
}

/// The case that a text is.
fn case_of(text: &str) -> Option<Case<'_>> {
    let (head, events) = text.split_once("\n\n")?;
    let (seed, head) = head.split_once('\n')?;
    let (turns, head) = head.split_once('\n')?;
    let (words, head) = head.split_once('\n')?;
    let (fails, servers) = head.split_once('\n')?;
    let mut bytes = [0u8; 32];
    hex::decode_to_slice(seed, &mut bytes).ok()?;
    Some(Case {
        seed: bytes,
        turns: turns.parse().ok()?,
        words,
        fails: numbers_of(fails)?,
        servers,
        events,
    })
}

/// The words behind the filter.
fn words_of(alloc: Global, case: &Case<'_>) -> Result<Vec<String>, AllocError> {
    let mut words = Vec::new(alloc);
    let mut parts = case.words.split(' ');
    let _filter = parts.next();
    for part in parts {
        words.push(String::from_str(alloc, part)?)?;
    }
    Ok(words)
}

/// A list of one number.
fn alone(alloc: Global, number: u64) -> Result<Vec<u64>, AllocError> {
    [number].to_vec(alloc)
}

/// Files with one text.
fn files_of(alloc: Global, case: &Case<'_>) -> Result<MemoryFiles, AllocError> {
    let mut files = Vec::new(alloc);
    let path = String::from_str(alloc, "/etc/resolv.conf")?;
    files.push((path, case.servers.as_bytes().to_vec(alloc)?))?;
    Ok(MemoryFiles::new(files, alone(alloc, case.fails[0])?))
}

/// The recorded world.
fn world_of(alloc: Global, case: &Case<'_>) -> Result<FaultWorld, AllocError> {
    let source = QuietSource::new(case.events.as_bytes().to_vec(alloc)?);
    let actions = QuietSink::new(alloc, MOST_TEXT)?;
    let world = ScriptWorld::new(alloc, LineRest::new(alloc)?, 0, source, actions)?;
    Ok(FaultWorld::new(world, alone(alloc, case.fails[3])?))
}

/// Runs the filter.
fn run_case<F: Files, S: Source, K: Sink, W: World>(
    alloc: Global,
    case: &Case<'_>,
    files: &mut F,
    source: &mut S,
    sink: &mut K,
    world: &mut W,
) -> Result<ToolStatus, AllocError> {
    let words = words_of(alloc, case)?;
    let env = Env::new(alloc)?;
    Ok(run(
        alloc, &words, &env, files, case.seed, source, sink, world, case.turns,
    ))
}

/// Plays a case: the filter's text, the world's actions, and how the filter ended.
fn play(alloc: Global, case: &Case<'_>, input: &[u8]) -> Result<Vec<u8>, AllocError> {
    let mut files = files_of(alloc, case)?;
    let mut source = MemorySource::new(input.to_vec(alloc)?, PIECE, alone(alloc, case.fails[1])?);
    let mut sink = MemorySink::new(alloc, MOST_TEXT, alone(alloc, case.fails[2])?)?;
    let mut world = world_of(alloc, case)?;
    let status = run_case(alloc, case, &mut files, &mut source, &mut sink, &mut world)?;
    let mut all = sink.held().to_vec(alloc)?;
    all.extend_from_slice(world.world().sink().held().unwrap_or(b""))?;
    all.extend_from_slice(format!(in alloc; "{status:?}\n")?.as_bytes())?;
    Ok(all)
}

/// The names of the cases, in order.
fn case_names(rt: &HostRuntime) -> io::Result<Vec<String>> {
    let mut names = Vec::new(rt.alloc());
    for entry in fs::read_dir(rt, ".")? {
        let entry = entry?;
        if let Some(name) = entry.file_name().strip_suffix(ENDING) {
            names.push(String::from_str(rt.alloc(), name)?)?;
        }
    }
    names.sort_unstable();
    Ok(names)
}

/// The bytes of the file with this name and this ending.
fn bytes_of(rt: &HostRuntime, name: &str, ending: &str) -> io::Result<Vec<u8>> {
    let mut path = String::from_str(rt.alloc(), name)?;
    path.push_str(ending)?;
    let mut bytes = Vec::new(rt.alloc());
    fs::open(rt, path.as_str())?
        .take(MOST_TEXT as u64)
        .read_to_end(&mut bytes)?;
    Ok(bytes)
}

/// How the run of a case compares with what is wanted.
fn verdict(alloc: Global, text: &[u8], input: &[u8], wanted: &[u8]) -> io::Result<&'static str> {
    let Ok(text) = str::from_utf8(text) else {
        return Ok("isn't text");
    };
    let Some(case) = case_of(text) else {
        return Ok("is no case");
    };
    if play(alloc, &case, input)?.as_slice() == wanted {
        Ok("as wanted")
    } else {
        Ok("otherwise")
    }
}

fn main(rt: HostRuntime) -> io::Result<()> {
    let alloc = rt.alloc();
    for name in case_names(&rt)? {
        let text = bytes_of(&rt, name.as_str(), "")?;
        let input = bytes_of(&rt, name.as_str(), INPUT)?;
        let wanted = bytes_of(&rt, name.as_str(), ENDING)?;
        println!(rt.stdout(); "{}: {}", name, verdict(alloc, &text, &input, &wanted)?)?;
    }
    Ok(())
}
