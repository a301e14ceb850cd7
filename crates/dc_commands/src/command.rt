//! The top call: what the words of a command and the environment ask for is done.
ghost use Rattle.std.specs.Prelude.{◌≡◌, ◌≢◌, ◌↔◌, ℕ, List, map, drop, string_bytes};
ghost use Rattle.std.specs.declared.option.Option.{Option};
ghost use Rattle.dc_event.specs.Causes.{Fares, count_where};
ghost use Rattle.dc_core.specs.Running.{Running};
ghost use Rattle.dc_play.specs.Playing.{limit_of};
ghost use Rattle.dc_simulate.specs.Told.{summary_of};
ghost use Rattle.dc_auditing.specs.Audited.{Audited};
ghost use Rattle.dc_commands.specs.Command.{command_of, mode_of, asks_audit};
ghost use Rattle.dc_commands.specs.Alone.{Alone};
ghost use Rattle.dc_status.specs.Faults.{fault_of, files_well, source_well, sink_well, world_well};
ghost use Rattle.dc_commands.specs.Replay.{Replayed};
ghost use Rattle.dc_keep.specs.Keeping.{Kept, turns_of};
ghost use Rattle.dc_recording.specs.Recording.{Recorded};
ghost use Rattle.dc_serving.specs.Serving.{Served};
ghost use Rattle.dc_shards.specs.Serving.{SplitServed};
ghost use Rattle.dc_commands.specs.Simulating.{Simulates};

use crate::replay::replay_command;
use dc_auditing::audit_command;
use dc_config::{Env, Files, Variable, is_set};
use dc_event::{BatchWorld, Sink, Source};
use dc_keep::keep_command;
use dc_recording::record_command;
use dc_serving::serve_command;
use dc_shards::shards_command;
use dc_simulate::{Simulation, simulate_command};
use dc_status::Status;
use std::alloc::Global;
use std::thread::Threads;

/// The most names whose runs are judged at once.
const MOST_NAMES: usize = 1000;

/// What the words of a command and the environment ask for.
#[derive(Clone, Copy, Debug, PartialEq, Eq)]
pub enum Command {
    /// To serve clients.
    Serve,
    /// To serve clients, and write down the run.
    Record,
    /// To serve clients with a cache that is kept.
    Keep,
    /// To serve clients over several cores.
    Shards,
    /// To replay a script.
    Replay,
    /// To run the resolver in the simulated world of a number, for so many events.
    Simulate { seed: u64, events: u64 },
    /// To judge the recorded runs that the words behind the first one name.
    Audit,
    /// Nothing that is known.
    Unknown,
}

/// Whether words are `audit` and 1 to 1000 names.
fn asks_audit(words: &[String]) -> bool
    ensures { result ≡ asks_audit (map string_bytes words.now) }
{
    match words {
        [word, names @ ..] => {
            word.as_bytes() == b"audit".as_slice() && 1 <= names.len() && names.len() <= MOST_NAMES
        }
        [] => false,
    }
}

impl Command {
    /// How clients are served: the run is written down where RECORD is set; else the cache is kept where IMAGE is set; else several cores
    /// serve where CORES is set.
    fn serving(env: &Env) -> Command
        ensures { result ≡ mode_of env.now }
    {
        if is_set(Variable::Record, env) {
            Command::Record
        } else if is_set(Variable::Image, env) {
            Command::Keep
        } else if is_set(Variable::Cores, env) {
            Command::Shards
        } else {
            Command::Serve
        }
    }

    /// What these words and variables ask for.
    pub fn of(words: &[String], env: &Env) -> Command
        ensures { result ≡ command_of words.now env.now }
    {
        match words.len() {
            0 => Command::serving(env),
            1 if words[0].as_bytes() == b"replay".as_slice() => Command::Replay,
            _ if asks_audit(words) => Command::Audit,
            _ => match Simulation::of(words) {
                Some(asked) => Command::Simulate {
                    seed: asked.seed,
                    events: asked.events,
                },
                None => Command::Unknown,
            },
        }
    }
}

/// Does what the words behind the program's name ask for: with no word it serves, with `replay` it replays a script, with `simulate` and two
/// numbers it runs in a simulated world, and with `audit` and 1 to 1000 names it judges recorded runs, in threads. At most `turns` events
/// are handled while serving and replaying, and never more than 2^60.
///
/// Where it serves and RECORD is set, the run is written to `sink` as a script. Where IMAGE is set, the cache begins with the image that `image_in` has left, and the last cache is saved to `image_out`. Where
/// CORES is set and IMAGE isn't, names are split over so many cores, which step in threads.
pub fn dnscache<R: Threads + Sync, F: Files, S: Source, K: Sink, W: BatchWorld, I: Source, O: Sink>(
    rt: &R,
    alloc: Global,
    words: &[String],
    env: &Env,
    files: &mut F,
    source: &mut S,
    sink: &mut K,
    world: &mut W,
    image_in: &mut I,
    image_out: &mut O,
    turns: u64,
) -> Status
    ensures usage { (result ≡ Status.Usage) ↔ (command_of words.now env.now ≡ Command.Unknown) }
    ensures alone { Alone (record {
      files = files.new ≡ files.old;
      source = source.new ≡ source.old;
      sink = sink.new ≡ sink.old;
      world = world.new ≡ world.old;
      image_in = image_in.new ≡ image_in.old;
      image_out = image_out.new ≡ image_out.old;
    }) (command_of words.now env.now) }
    ensures files_fare { Fares F.asked F.refused F.faults (files_well (fault_of result)) files.old files.new }
    ensures source_fares { command_of words.now env.now ≢ Command.Keep → Fares S.took S.refused S.faults (source_well (fault_of result)) source.old source.new }
    ensures sink_fares { command_of words.now env.now ≢ Command.Keep → Fares K.gained K.refused K.faults (sink_well (fault_of result)) sink.old sink.new }
    ensures image_fares { command_of words.now env.now ≡ Command.Keep → Fares O.gained O.refused O.faults (sink_well (fault_of result)) image_out.old image_out.new }
    ensures world_fares { W.faults world.new ≡ count_where (world_well (fault_of result)) (W.faults world.old) }
    ensures served { command_of words.now env.now ≡ Command.Serve → (core : Option Running)
        × Served S.took S.left W.history W.used_up W.broken env.now (F.tree files.old) source.old source.new world.old world.new (limit_of turns) result core }
    ensures recorded { command_of words.now env.now ≡ Command.Record → (core : Option Running)
        × Recorded S.took S.left W.history W.used_up W.broken K.gained env.now (F.tree files.old) source.old source.new world.old world.new sink.old sink.new (limit_of turns) result core }
    ensures kept { command_of words.now env.now ≡ Command.Keep → (core : Option Running)
        × Kept S.took S.left S.refused S.faults W.history W.used_up W.broken I.took I.left I.refused I.faults O.gained env.now (F.tree files.old)
        source.old source.new world.old world.new image_in.old image_in.new image_out.old image_out.new (limit_of (turns_of env.now turns)) result core }
    ensures split { command_of words.now env.now ≡ Command.Shards → (cores : Option (List Running))
        × SplitServed S.took S.left W.history W.used_up W.broken env.now (F.tree files.old) source.old source.new world.old world.new (limit_of turns) result cores }
    ensures simulated { (seed events : ℕ) → command_of words.now env.now ≡ Command.Simulate seed events → Simulates K.gained result sink.old (summary_of seed events) sink.new }
    ensures audited { command_of words.now env.now ≡ Command.Audit → Audited F.tree F.asked K.gained (map string_bytes (drop 1 words.now)) files.old files.new sink.old sink.new result }
    ensures replayed { command_of words.now env.now ≡ Command.Replay → Replayed S.took S.left K.gained source.old source.new sink.old sink.new (limit_of turns) result }
{
    match Command::of(words, env) {
        Command::Serve => serve_command(alloc, env, files, source, world, turns).status,
        Command::Record => record_command(alloc, env, files, source, world, sink, turns).status,
        Command::Keep => {
            keep_command(alloc, env, files, source, image_in, image_out, world, turns).status
        }
        Command::Shards => shards_command(rt, alloc, env, files, source, world, turns).status,
        Command::Replay => replay_command(alloc, source, sink, turns),
        Command::Simulate { seed, events } => {
            Status::from(simulate_command(alloc, seed, events, sink))
        }
        Command::Audit => audit_command(rt, alloc, &words[1..], files, sink),
        Command::Unknown => Status::Usage,
    }
}
