//! Runs each script of its folder over several cores, and compares what is done with the file of the same name that ends in the number of
//! cores and `.actions`. One of them, two requests of one moment, is then run with one event a round, and over two cores whose caches look for
//! each other.
#![tactic(auto)]

mod alone;
mod meeting;

ghost use Rattle.std.specs.Prelude.{◌≤◌};

use alone::Alone;
use dc_draws::Draws;
use dc_event::{BatchWorld, QuietSink, QuietSource};
use dc_rules::Config;
use dc_script::{ScriptWorld, read_head};
use dc_shard::{ShardServed, serve_shards};
use dc_shards::memory_of;
use meeting::{Meeting, serve_meeting};
use std::alloc::{AllocError, Global};
use std::fs;
use std::io::{self, Read};
use std::thread::Threads;

/// What the files with the text that is wanted end in.
const ENDING: &str = ".actions";

/// The most bytes of a text.
const MOST_TEXT: usize = 1_000_000;

/// The most cores.
const MOST_CORES: u64 = 8;

/// The script of two requests of one moment, which go to two cores.
const TWO_REQUESTS: &str = "two_requests_of_one_moment";

/// A script: the head, and the world of its events, which keeps the text of what is done.
#[derive(Drop)]
struct Script {
    config: Config,
    seed: [u8; 32],
    world: ScriptWorld<QuietSource, QuietSink>,
}

/// The names of the runs, in order: of each a script's name, a dot and a number of cores.
fn run_names(rt: &HostRuntime) -> io::Result<Vec<String>> {
    let mut names = Vec::new(rt.alloc());
    for entry in fs::read_dir(rt, ".")? {
        let entry = entry?;
        if let Some(name) = entry.file_name().strip_suffix(ENDING) {
            names.push(String::from_str(rt.alloc(), name)?)?;
        }
    }
    names.sort_unstable();
    Ok(names)
}

/// The bytes of a file.
fn bytes_of(rt: &HostRuntime, path: &str) -> io::Result<Vec<u8>> {
    let mut bytes = Vec::new(rt.alloc());
    fs::open(rt, path)?
        .take(MOST_TEXT as u64)
        .read_to_end(&mut bytes)?;
    Ok(bytes)
}

/// The text that is wanted of a run.
fn wanted_of(rt: &HostRuntime, name: &str) -> io::Result<Vec<u8>> {
    let mut path = String::from_str(rt.alloc(), name)?;
    path.push_str(ENDING)?;
    bytes_of(rt, path.as_str())
}

/// The script that a text is, where it has a head.
fn script_of(alloc: Global, text: &[u8]) -> Result<Option<Script>, AllocError> {
    let mut source = QuietSource::new(text.to_vec(alloc)?);
    let Ok(script) = read_head(alloc, &mut source) else {
        return Ok(None);
    };
    let sink = QuietSink::new(alloc, MOST_TEXT)?;
    Ok(Some(Script {
        config: script.config,
        seed: script.seed,
        world: ScriptWorld::new(alloc, script.rest, script.lines, source, sink)?,
    }))
}

/// Serves a world over so many cores of a configuration.
fn serve<W: BatchWorld>(
    threads: &(impl Threads + Sync),
    alloc: Global,
    cores: u64,
    config: &Config,
    seed: [u8; 32],
    world: &mut W,
) -> Result<ShardServed, AllocError>
    requires least { 1 ≤ cores }
    requires most { cores ≤ 8 }
{
    let (mut shards, mut inbox) = memory_of(alloc, config, cores)?;
    let mut draws = Draws::from_seed(seed);
    Ok(serve_shards(
        threads,
        world,
        &mut shards,
        &mut inbox,
        &mut draws,
        u64::MAX,
    ))
}

/// How a run ended and what it did, compared with what is wanted.
fn compared(ended: ShardServed, done: Option<&[u8]>, wanted: &[u8]) -> &'static str {
    let ShardServed::Ended = ended else {
        return "ends otherwise";
    };
    if done == Some(wanted) {
        "as wanted"
    } else {
        "does otherwise"
    }
}

/// How the run of a script over so many cores compares with what is wanted.
fn in_rounds(
    threads: &(impl Threads + Sync),
    alloc: Global,
    cores: u64,
    text: &[u8],
    wanted: &[u8],
) -> Result<&'static str, AllocError>
    requires least { 1 ≤ cores }
    requires most { cores ≤ 8 }
{
    let Some(script) = script_of(alloc, text)? else {
        return Ok("has another head");
    };
    let mut world = script.world;
    let ended = serve(
        threads,
        alloc,
        cores,
        &script.config,
        script.seed,
        &mut world,
    )?;
    Ok(compared(ended, world.sink().held(), wanted))
}

/// How the run of a script over two cores compares with what is wanted, with one event a round.
fn one_by_one(
    threads: &(impl Threads + Sync),
    alloc: Global,
    text: &[u8],
    wanted: &[u8],
) -> Result<&'static str, AllocError> {
    let Some(script) = script_of(alloc, text)? else {
        return Ok("has another head");
    };
    let mut world = Alone {
        world: script.world,
    };
    let ended = serve(threads, alloc, 2, &script.config, script.seed, &mut world)?;
    Ok(compared(ended, world.world.sink().held(), wanted))
}

/// Says how one run compares with what is wanted.
fn say(rt: &HostRuntime, threads: &(impl Threads + Sync), name: &str) -> io::Result<()> {
    let Some((script, cores)) = name.rsplit_once('.') else {
        return println!(rt.stdout(); "{}: says no number of cores", name);
    };
    let cores = match cores.parse::<u64>() {
        Ok(cores) if 1 <= cores && cores <= MOST_CORES => cores,
        _ => return println!(rt.stdout(); "{}: says no number of cores", name),
    };
    let text = bytes_of(rt, script)?;
    let wanted = wanted_of(rt, name)?;
    let verdict = in_rounds(threads, rt.alloc(), cores, &text, &wanted)?;
    println!(rt.stdout(); "{}: {}", name, verdict)
}

/// How a run over caches that look for each other compares with what is wanted.
fn met(
    threads: &(impl Threads + Sync),
    alloc: Global,
    meeting: &Meeting,
    text: &[u8],
    wanted: &[u8],
) -> Result<&'static str, AllocError> {
    let Some(script) = script_of(alloc, text)? else {
        return Ok("has another head");
    };
    let mut world = script.world;
    let ended = serve_meeting(
        threads,
        alloc,
        &script.config,
        script.seed,
        meeting,
        &mut world,
    )?;
    Ok(compared(ended, world.sink().held(), wanted))
}

/// Says how two requests of one moment are handled with one event a round; and over caches that look for each other, how many of which saw
/// the other.
fn say_two(rt: &HostRuntime, threads: &(impl Threads + Sync)) -> io::Result<()> {
    let text = bytes_of(rt, TWO_REQUESTS)?;
    let mut name = String::from_str(rt.alloc(), TWO_REQUESTS)?;
    name.push_str(".2")?;
    let wanted = wanted_of(rt, name.as_str())?;
    let alone = one_by_one(threads, rt.alloc(), &text, &wanted)?;
    println!(rt.stdout(); "{}, one event a round: {}", name, alone)?;
    let meeting = Meeting::new();
    let together = met(threads, rt.alloc(), &meeting, &text, &wanted)?;
    println!(rt.stdout();
        "{}, over caches that look for each other: {}, {} saw the other",
        name,
        together,
        meeting.met()
    )
}

/// Runs all scripts.
fn run(rt: &HostRuntime, threads: &(impl Threads + Sync)) -> io::Result<()> {
    for name in run_names(rt)? {
        say(rt, threads, name.as_str())?;
    }
    say_two(rt, threads)
}

fn main(rt: HostRuntime) -> io::Result<()> {
    run(&rt, &rt)
}
