//! What words come to, one after another.
ghost use Rattle.std.specs.Prelude.{◌≡◌, ◌≢◌, ℕ, List, map, Some, None, IfOk, IfErr, true, false};
ghost use Rattle.dc_lookup.specs.Words.{some_each};
ghost use Rattle.dc_stub.specs.Look.{job_of};
ghost use Rattle.dc_stub.specs.Begun.{bytes_of};

use crate::job::Word;
use crate::tools::Refusal;
use dc_stub::Job;
use std::alloc::Global;

/// Whether there are words, and each is usable.
fn are_usable<T: Word>(words: &[String]) -> bool
    ensures usable { result ≡ true → some_each T.said (bytes_of words.now) ≢ None }
    ensures unusable { result ≡ false → some_each T.said (bytes_of words.now) ≡ None }
{
    if words.is_empty() {
        return false;
    }
    let mut at: usize = 0;
    'words: while at < words.len() {
        match T::job(words[at].as_bytes()) {
            None => return false,
            Some(_) => at += 1,
        }
    }
    true
}

/// What the words come to. They are tried before memory is taken.
pub(crate) fn jobs_of_each<T: Word>(alloc: Global, words: &[String]) -> Result<Vec<Job>, Refusal>
    ensures jobs { IfOk result (λ jobs. some_each T.said (bytes_of words.now) ≡ Some (map job_of jobs.items)) }
    ensures usage { IfErr result (λ why. why ≡ Refusal.Usage → some_each T.said (bytes_of words.now) ≡ None) }
    ensures memory { IfErr result (λ why. why ≡ Refusal.NoMemory → some_each T.said (bytes_of words.now) ≢ None) }
{
    if !are_usable::<T>(words) {
        return Err(Refusal::Usage);
    }
    let mut jobs = Vec::new(alloc);
    let mut at: usize = 0;
    'words: while at < words.len() {
        match T::job(words[at].as_bytes()) {
            None => return Err(Refusal::Usage),
            Some(next) => match jobs.push(next) {
                Ok(()) => at += 1,
                Err(_) => return Err(Refusal::NoMemory),
            },
        }
    }
    Ok(jobs)
}
