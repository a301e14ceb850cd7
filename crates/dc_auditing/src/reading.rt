//! The files of recorded runs.
ghost use Rattle.std.specs.Prelude.{◌≡◌, ℕ, List, [], ◌∷◌, length, ◌++◌, map, option_map, string_bytes, Some, IfOk, OnOk};
ghost use Rattle.dc_event.specs.Causes.{Fares};
ghost use Rattle.dc_config.specs.Tree.{Tree};
ghost use Rattle.dc_auditing.specs.Findings.{both, recorded_at, recording_of, paths_of};
ghost use Rattle.dc_auditing.specs.Runs.{recorded_of, held_in, IsWhole, well};

use dc_audit::Pair;
use dc_config::{FileRead, Files};
use std::alloc::{AllocError, Global};

/// Recorded runs: for each name whether both its files are there, and the pairs of those that have both, in the order of the names.
#[derive(Drop)]
pub struct Runs {
    pub present: Vec<bool>,
    pub pairs: Vec<Pair>,
}

/// Why files weren't read.
#[derive(Clone, Copy, Debug, Drop, PartialEq, Eq)]
pub enum Unread {
    /// A call on the files failed, which was the last.
    Failed,
    /// There is no memory.
    NoMemory,
}

impl From<AllocError> for Unread {
    ghost use Rattle.std.specs.Prelude.{◌≡◌};
    ghost use Rattle.dc_auditing.specs.declared.reading.Unread.TheVariants.{NoMemory};

    ghost from_gives = { λ _ e. e ≡ NoMemory };

    fn from(_refused: AllocError) -> Unread {
        Unread::NoMemory
    }
}

/// The bytes of a file, where it is there.
fn read_file<F: Files>(alloc: Global, files: &mut F, path: &str) -> Result<Option<Vec<u8>>, Unread>
    ensures told { (t : Tree) → F.tree files.old ≡ Some t → IfOk result (λ bytes. option_map (λ b. b.items) bytes ≡ t.bytes path.now) }
    ensures same { F.tree files.new ≡ F.tree files.old }
    ensures asked { IfOk result (λ _. F.asked files.old (path.now ∷ []) files.new) }
    ensures fares { Fares F.asked F.refused F.faults (well result) files.old files.new }
{
    match files.read(alloc, path) {
        FileRead::Bytes(bytes) => Ok(Some(bytes)),
        FileRead::Absent => Ok(None),
        FileRead::Failed => Err(Unread::Failed),
        FileRead::NoMemory => Err(Unread::NoMemory),
    }
}

/// The path of the text that was recorded of a name's run.
fn recording(alloc: Global, name: &str) -> Result<String, AllocError>
    ensures { IfOk result (λ path. string_bytes path ≡ recording_of name.now) }
{
    let mut path = String::from_str(alloc, name)?;
    path.push_str(".actions")?;
    Ok(path)
}

/// A pair, where both parts are there.
fn pair(script: Option<Vec<u8>>, recorded: Option<Vec<u8>>) -> Option<Pair>
    ensures { option_map recorded_of result ≡ both (option_map (λ b. b.items) script) (option_map (λ b. b.items) recorded) }
{
    match (script, recorded) {
        (Some(script), Some(recorded)) => Some(Pair { script, recorded }),
        _ => None,
    }
}

/// The recorded run of a name, where both its files are there. Both are read.
fn read_run<F: Files>(alloc: Global, files: &mut F, name: &str) -> Result<Option<Pair>, Unread>
    ensures told { (t : Tree) → F.tree files.old ≡ Some t → IfOk result (λ run. option_map recorded_of run ≡ recorded_at t name.now) }
    ensures same { F.tree files.new ≡ F.tree files.old }
    ensures asked { IfOk result (λ _. F.asked files.old (name.now ∷ recording_of name.now ∷ []) files.new) }
    ensures fares { Fares F.asked F.refused F.faults (well result) files.old files.new }
{
    let path = recording(alloc, name)?;
    let script = read_file(alloc, files, name)?;
    let recorded = read_file(alloc, files, path.as_str())?;
    Ok(pair(script, recorded))
}

impl Runs {
    /// No runs.
    fn new(alloc: Global) -> Runs
        ensures present { result.present.items ≡ [] }
        ensures pairs { result.pairs.items ≡ [] }
    {
        Runs {
            present: Vec::new(alloc),
            pairs: Vec::new(alloc),
        }
    }

    /// Adds what is there of one more name.
    fn push(&mut self, run: Option<Pair>) -> Result<(), AllocError>
        requires { IsWhole self.old.present.items self.old.pairs.items }
        ensures held { OnOk result (held_in self.new.present.items self.new.pairs.items ≡ held_in self.old.present.items self.old.pairs.items ++ option_map recorded_of run ∷ []) }
        ensures whole { OnOk result (IsWhole self.new.present.items self.new.pairs.items) }
    {
        self.present.push(run.is_some())?;
        if let Some(pair) = run {
            self.pairs.push(pair)?;
        }
        Ok(())
    }
}

/// The recorded runs of names. All files are read, in order.
pub(crate) fn read_runs<F: Files>(
    alloc: Global,
    files: &mut F,
    names: &[String],
) -> Result<Runs, Unread>
    ensures told { (t : Tree) → F.tree files.old ≡ Some t → IfOk result (λ runs. held_in runs.present.items runs.pairs.items ≡ map (recorded_at t) (map string_bytes names.now)) }
    ensures each { IfOk result (λ runs. length runs.present.items ≡ length names.now) }
    ensures same { F.tree files.new ≡ F.tree files.old }
    ensures asked { IfOk result (λ _. F.asked files.old (paths_of (map string_bytes names.now)) files.new) }
    ensures fares { Fares F.asked F.refused F.faults (well result) files.old files.new }
{
    let mut runs = Runs::new(alloc);
    for name in names {
        let run = read_run(alloc, files, name.as_str())?;
        runs.push(run)?;
    }
    Ok(runs)
}
