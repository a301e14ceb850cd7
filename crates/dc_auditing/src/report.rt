//! The lines of an audit, and how many names aren't as recorded.
ghost use Rattle.std.specs.Prelude.{◌≡◌, ◌++◌, ℕ, length, map, not, if◌then◌else◌, count_by, string_bytes, IfOk, OnOk};
ghost use Rattle.dc_auditing.specs.Findings.{is_same};
ghost use Rattle.dc_auditing.specs.Report.{line_of, word_of, number_of, number_text, report_of};

use crate::{Finding, NoMemory};
use dc_audit::Verdict;
use itoa::Buffer as Digits;
use rayon::prelude::*;
use std::alloc::Global;
use std::thread::Threads;

/// 1 for a name whose run isn't as recorded, and else 0.
fn unequal(finding: &Finding) -> u64
    ensures { result ≡ (if not (is_same finding.now) then 1 else 0) }
{
    u64::from(!finding.is_same())
}

/// How many names aren't as recorded, as a sum in parts.
pub(crate) fn count_unequal<R: Threads + Sync>(rt: &R, findings: &[Finding]) -> u64
    ensures { result ≡ count_by (λ f. not (is_same f)) findings.now }
{
    findings
        .par_iter()
        .map(
            |finding: &Finding| -> u64
                ensures { result ≡ (if not (is_same finding.now) then 1 else 0) }
            { unequal(finding) },
        )
        .sum(rt)
}

/// The word with which the line of a finding begins.
fn word(finding: Finding) -> &'static str
    ensures { result.now ≡ word_of finding }
{
    match finding {
        Finding::Judged(Verdict::Same) => "same",
        Finding::Judged(Verdict::Differs(_)) => "differs",
        Finding::Judged(Verdict::Bad(_)) => "bad",
        Finding::Judged(Verdict::Large) => "large",
        Finding::Missing => "missing",
    }
}

/// The number with which it ends, where it has one.
fn number(finding: Finding) -> Option<u64>
    ensures { result ≡ number_of finding }
{
    match finding {
        Finding::Judged(Verdict::Differs(number) | Verdict::Bad(number)) => Some(number),
        Finding::Judged(Verdict::Same | Verdict::Large) | Finding::Missing => None,
    }
}

/// Adds a space and a number in decimal, where there is one.
fn push_number(text: &mut Vec<u8>, number: Option<u64>) -> Result<(), NoMemory>
    ensures { OnOk result (text.new.items ≡ text.old.items ++ number_text number) }
{
    let Some(number) = number else {
        return Ok(());
    };
    let mut digits = Digits::new();
    text.extend_from_slice(b" ")?;
    text.extend_from_slice(digits.format(number).as_bytes())?;
    Ok(())
}

/// Adds the line of a name.
fn push_line(text: &mut Vec<u8>, name: &str, finding: Finding) -> Result<(), NoMemory>
    ensures { OnOk result (text.new.items ≡ text.old.items ++ line_of name.now finding) }
{
    text.extend_from_slice(word(finding).as_bytes())?;
    text.extend_from_slice(b" ")?;
    text.extend_from_slice(name.as_bytes())?;
    push_number(text, number(finding))?;
    text.extend_from_slice(b"\n")?;
    Ok(())
}

/// The lines of all names, in order.
pub(crate) fn report(
    alloc: Global,
    names: &[String],
    findings: &[Finding],
) -> Result<Vec<u8>, NoMemory>
    requires { length findings.now ≡ length names.now }
    ensures { IfOk result (λ text. text.items ≡ report_of (map string_bytes names.now) findings.now) }
{
    let mut text = Vec::new(alloc);
    for i in 0..names.len() {
        push_line(&mut text, names[i].as_str(), findings[i])?;
    }
    Ok(text)
}
