//! Recorded runs are judged, all at once.
ghost use Rattle.std.specs.Prelude.{◌≡◌, ◌≤◌, Bool, List, ◌∷◌, drop, length, IfOk, map};
ghost use Rattle.dc_auditing.specs.Findings.{finding_of};
ghost use Rattle.dc_auditing.specs.Runs.{spread, found_of, held_in};

use crate::reading::Runs;
use crate::{Finding, NoMemory};
use dc_audit::{PlainJudge, Verdict, verdicts};
use std::alloc::Global;
use std::thread::Threads;

/// What is found of a name, by whether its files are there, and how many verdicts it takes of those that are left.
fn placed(there: bool, rest: &[Verdict]) -> (Finding, usize)
    ensures found { (bs : List Bool) → map found_of (spread (there ∷ bs) rest.now) ≡ result.0 ∷ map found_of (spread bs (drop result.1 rest.now)) }
    ensures bound { result.1 ≤ length rest.now }
{
    match rest {
        [first, ..] if there => (Finding::Judged(*first), 1),
        _ => (Finding::Missing, 0),
    }
}

/// The verdicts, each where its name stands.
fn findings(alloc: Global, present: &[bool], verdicts: &[Verdict]) -> Result<Vec<Finding>, NoMemory>
    ensures { IfOk result (λ f. f.items ≡ map found_of (spread present.now verdicts.now)) }
{
    let mut findings = Vec::with_capacity(alloc, present.len())?;
    let mut next: usize = 0;
    for there in present {
        let (finding, count) = placed(*there, &verdicts[next..]);
        findings.push(finding)?;
        next += count;
    }
    Ok(findings)
}

/// What is found of each name, in order.
pub(crate) fn judged<R: Threads + Sync>(
    rt: &R,
    alloc: Global,
    runs: &Runs,
) -> Result<Vec<Finding>, NoMemory>
    ensures { IfOk result (λ f. f.items ≡ map finding_of (held_in runs.now.present.items runs.now.pairs.items)) }
{
    let verdicts = verdicts(rt, alloc, runs.pairs.as_slice(), &PlainJudge)?;
    findings(alloc, runs.present.as_slice(), verdicts.as_slice())
}
