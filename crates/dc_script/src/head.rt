//! The head of a script.
ghost use Rattle.std.specs.Prelude.{◌≡◌, ◌≢◌, ◌≤◌, ◌++◌, ℕ, List, [], Some, IfOk};
ghost use Rattle.dc_event.specs.Causes.{Fares};
ghost use Rattle.dc_script.specs.Head.{at_version, no_head};
ghost use Rattle.dc_script.specs.Heads.{stage_of, head_in, Reads, LinesStand, HeadStands, HeadIs, well_next, well_read};

use crate::lines::{LineRest, NextLine};
use crate::setup::{Setup, Step};
use dc_event::Source;
use dc_rules::Config;
use std::alloc::{AllocError, Global};

/// What the head of a script says, and where its events begin.
#[derive(Drop)]
pub struct Script {
    /// What a resolver is configured by. The addresses `ip` and `ipsend` are 0.0.0.0, since a script says none.
    pub config: Config,
    /// The seed of the random words.
    pub seed: [u8; 32],
    /// How many lines the head has.
    pub lines: u64,
    /// The version of the script: 1 or 2.
    pub version: u64,
    /// The bytes that were taken and stand behind the head.
    pub rest: LineRest,
}

/// Why a head wasn't read.
#[derive(Clone, Copy, Debug, PartialEq, Eq)]
pub enum ScriptError {
    /// The line of this number, counted from 1, is the first outside the grammar.
    Bad { line: u64 },
    /// The source failed. Its count of faults rose.
    ReadFault,
    /// There is no memory. Nothing was taken of the source.
    NoMemory,
}

impl From<AllocError> for ScriptError {
    ghost use Rattle.std.specs.Prelude.{◌≡◌};
    ghost use Rattle.dc_script.specs.declared.head.ScriptError.TheVariants.{NoMemory};

    ghost from_gives = { λ _ e. e ≡ NoMemory };

    fn from(_refused: AllocError) -> ScriptError {
        ScriptError::NoMemory
    }
}

/// What came of a head's next line.
#[derive(Clone, Copy, PartialEq, Eq)]
pub(crate) enum HeadNext {
    /// It was read, and other lines may come.
    Going,
    /// The head is whole.
    Begun,
    /// The line is bad.
    Bad,
    /// The source failed.
    Failed,
}

/// Reads the next line of a head.
fn read_line<S: Source>(setup: &mut Setup, rest: &mut LineRest, source: &mut S) -> HeadNext
    ensures reads { (more : List ℕ) × S.took source.old more source.new × Reads result setup.old rest.old.rest more setup.new rest.new.rest (S.left source.new) }
    ensures fares { Fares S.took S.refused S.faults (well_next result) source.old source.new }
{
    match rest.next_line(source) {
        NextLine::Found => match setup.read(rest.line()) {
            Step::Going => HeadNext::Going,
            Step::Begun => HeadNext::Begun,
            Step::Refused => HeadNext::Bad,
        },
        NextLine::TooLong => HeadNext::Bad,
        NextLine::Ended => HeadNext::Bad,
        NextLine::Failed => HeadNext::Failed,
    }
}

/// Reads all lines of a head, of which nothing was taken yet, and says how many there are.
fn read_lines<S: Source>(
    setup: &mut Setup,
    rest: &mut LineRest,
    source: &mut S,
) -> Result<u64, ScriptError>
    requires stage { stage_of setup.old.stage ≡ at_version }
    requires head { head_in setup.old ≡ no_head }
    requires rest { rest.old.rest ≡ [] }
    ensures head { (bytes : List ℕ) × S.took source.old bytes source.new × LinesStand result setup.new rest.new.rest bytes (S.left source.new) }
    ensures fares { Fares S.took S.refused S.faults (well_read result) source.old source.new }
    ensures memory { result ≡ Err ScriptError.NoMemory → ⊥ }
    ensures few { IfOk result (λ lines. lines ≤ 4358) }
{
    let mut lines: u64 = 0;
    loop {
        lines += 1;
        match read_line(setup, rest, source) {
            HeadNext::Going => {}
            HeadNext::Begun => return Ok(lines),
            HeadNext::Bad => return Err(ScriptError::Bad { line: lines }),
            HeadNext::Failed => return Err(ScriptError::ReadFault),
        }
    }
}

/// Reads the head of a script off a source, of which nothing was taken yet. All memory is taken first. Further bytes are taken only where
/// no whole line is held.
pub fn read_head<S: Source>(alloc: Global, source: &mut S) -> Result<Script, ScriptError>
    ensures head { (bytes : List ℕ) × S.took source.old bytes source.new × HeadStands result bytes (S.left source.new) }
    ensures exact { (text : List ℕ) → S.left source.old ≡ Some text → HeadIs result text (S.left source.new) }
    ensures fares { Fares S.took S.refused S.faults (well_read result) source.old source.new }
    ensures memory { result ≡ Err ScriptError.NoMemory → source.new ≡ source.old }
    ensures few { IfOk result (λ script. script.lines ≤ 4358) }
{
    let mut rest = LineRest::new(alloc)?;
    let mut setup = Setup::new(alloc)?;
    let lines = read_lines(&mut setup, &mut rest, source)?;
    Ok(Script {
        config: setup.config,
        seed: setup.seed,
        lines,
        version: setup.version,
        rest,
    })
}
