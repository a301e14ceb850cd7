//! Runs the tools on each case of its folder, and compares what they write with the file of the same name that ends in `.stdout`.
//!
//! A case has a seed, a number of turns, a tool with its words, and lines of `/etc/resolv.conf`; and behind an empty line the events of its
//! world. What is wanted is the tool's text, the world's actions, and how the tool ended. Behind them come runs of which a file or the world
//! fails.
#![tactic(auto)]

mod faults;

use dc_config::{Env, QuietFiles};
use dc_event::{MemorySource, QuietSink, Sink, World};
use dc_script::{LineRest, ScriptWorld};
use dc_stub::ToolStatus;
use dc_tools::{DnsIp, DnsMx, DnsName, DnsQr, DnsTxt, Tool, run};
use std::alloc::{AllocError, Global};
use std::fs;
use std::io::{self, Read};

/// What the files with the text that is wanted end in.
const ENDING: &str = ".stdout";

/// The most bytes of a text.
const MOST_TEXT: usize = 1_000_000;

/// A run of a tool.
#[derive(Drop)]
struct Case<'a> {
    seed: [u8; 32],
    turns: u64,
    /// The tool and its words, each behind a space.
    words: &'a str,
    /// The lines of `/etc/resolv.conf`.
    servers: &'a str,
    /// The lines of the world's script.
    events: &'a str,
}

/// The case that a text is.
fn case_of(text: &str) -> Option<Case<'_>> {
    let (head, events) = text.split_once("\n\n")?;
    let (seed, head) = head.split_once('\n')?;
    let (turns, head) = head.split_once('\n')?;
    let (words, servers) = head.split_once('\n')?;
    let mut bytes = [0u8; 32];
    hex::decode_to_slice(seed, &mut bytes).ok()?;
    Some(Case {
        seed: bytes,
        turns: turns.parse().ok()?,
        words,
        servers,
        events,
    })
}

/// The words behind the tool.
fn words_of(alloc: Global, case: &Case<'_>) -> Result<Vec<String>, AllocError> {
    let mut words = Vec::new(alloc);
    let mut parts = case.words.split(' ');
    let _tool = parts.next();
    for part in parts {
        words.push(String::from_str(alloc, part)?)?;
    }
    Ok(words)
}

/// Files with one text.
fn files_of(alloc: Global, case: &Case<'_>) -> Result<QuietFiles, AllocError> {
    let mut files = Vec::new(alloc);
    let path = String::from_str(alloc, "/etc/resolv.conf")?;
    files.push((path, case.servers.as_bytes().to_vec(alloc)?))?;
    Ok(QuietFiles::new(files))
}

/// Runs a tool.
fn run_as<T: Tool, K: Sink, W: World>(
    alloc: Global,
    case: &Case<'_>,
    sink: &mut K,
    world: &mut W,
) -> Result<ToolStatus, AllocError> {
    let words = words_of(alloc, case)?;
    let mut files = files_of(alloc, case)?;
    let env = Env::new(alloc)?;
    Ok(run::<T, _, _, _>(
        alloc, &words, &env, &mut files, case.seed, sink, world, case.turns,
    ))
}

/// Runs the tool that a case names.
fn run_case<K: Sink, W: World>(
    alloc: Global,
    case: &Case<'_>,
    sink: &mut K,
    world: &mut W,
) -> Result<ToolStatus, AllocError> {
    match case.words.split(' ').next() {
        Some("dnsip") => run_as::<DnsIp, K, W>(alloc, case, sink, world),
        Some("dnsname") => run_as::<DnsName, K, W>(alloc, case, sink, world),
        Some("dnstxt") => run_as::<DnsTxt, K, W>(alloc, case, sink, world),
        Some("dnsmx") => run_as::<DnsMx, K, W>(alloc, case, sink, world),
        _ => run_as::<DnsQr, K, W>(alloc, case, sink, world),
    }
}

/// Plays a case: the tool's text, the world's actions, and how the tool ended.
fn play(alloc: Global, case: &Case<'_>) -> Result<Vec<u8>, AllocError> {
    let events = case.events.as_bytes().to_vec(alloc)?;
    let source = MemorySource::new(events, 512, Vec::new(alloc));
    let actions = QuietSink::new(alloc, MOST_TEXT)?;
    let mut world = ScriptWorld::new(alloc, LineRest::new(alloc)?, 0, source, actions)?;
    let mut sink = QuietSink::new(alloc, MOST_TEXT)?;
    let status = run_case(alloc, case, &mut sink, &mut world)?;
    let mut all = sink.held().unwrap_or(b"").to_vec(alloc)?;
    all.extend_from_slice(world.sink().held().unwrap_or(b""))?;
    all.extend_from_slice(format!(in alloc; "{status:?}\n")?.as_bytes())?;
    Ok(all)
}

/// The names of the cases, in order.
fn case_names(rt: &HostRuntime) -> io::Result<Vec<String>> {
    let mut names = Vec::new(rt.alloc());
    for entry in fs::read_dir(rt, ".")? {
        let entry = entry?;
        if let Some(name) = entry.file_name().strip_suffix(ENDING) {
            names.push(String::from_str(rt.alloc(), name)?)?;
        }
    }
    names.sort_unstable();
    Ok(names)
}

/// The bytes of a file.
fn bytes_of(rt: &HostRuntime, path: &str) -> io::Result<Vec<u8>> {
    let mut bytes = Vec::new(rt.alloc());
    fs::open(rt, path)?
        .take(MOST_TEXT as u64)
        .read_to_end(&mut bytes)?;
    Ok(bytes)
}

/// How the run of a case compares with what is wanted.
fn verdict(alloc: Global, text: &[u8], wanted: &[u8]) -> io::Result<&'static str> {
    let Ok(text) = str::from_utf8(text) else {
        return Ok("isn't text");
    };
    let Some(case) = case_of(text) else {
        return Ok("is no case");
    };
    if play(alloc, &case)?.as_slice() == wanted {
        Ok("as wanted")
    } else {
        Ok("otherwise")
    }
}

/// Runs all cases.
fn run_all(rt: &HostRuntime) -> io::Result<()> {
    for name in case_names(rt)? {
        let text = bytes_of(rt, name.as_str())?;
        let mut path = String::from_str(rt.alloc(), name.as_str())?;
        path.push_str(ENDING)?;
        let wanted = bytes_of(rt, path.as_str())?;
        println!(rt.stdout(); "{}: {}", name, verdict(rt.alloc(), &text, &wanted)?)?;
    }
    Ok(())
}

fn main(rt: HostRuntime) -> io::Result<()> {
    run_all(&rt)?;
    faults::say_all(&rt)
}
