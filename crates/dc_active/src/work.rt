//! What an active query works with.
ghost use Rattle.std.specs.Prelude.{◌≡◌, ◌≤◌, length, vec_capacity, vec_len, IfOk, IsNone};
ghost use Rattle.dc_machine.specs.Kept.{AllOf};

use crate::client::Client;
use dc_frames::Query;
use dc_limits::MOST_WORKS;
use dc_transmit::Transmit;
use std::alloc::{AllocError, Global};

/// What a query works with.
#[derive(Drop)]
pub struct Work {
    pub query: Query,
    pub sender: Transmit,
}

/// An active query that was taken out, or that is to be put in. The large parts stand behind a box, so that it moves cheaply.
#[derive(Drop)]
pub struct Taken {
    pub serial: u64,
    pub client: Client,
    pub work: Box<Work>,
}

/// A work with an idle sender.
fn idle_work(alloc: Global) -> Result<Box<Work>, AllocError>
    ensures { IfOk result (λ w. IsNone w.value.sender.attempt) }
{
    let query = Query::new(alloc)?;
    let sender = Transmit::new(alloc)?;
    Ok(Box::new(alloc, Work { query, sender })?)
}

/// Works for as many queries as may be active, each with an idle sender.
pub(crate) fn spare_works(alloc: Global) -> Result<Vec<Box<Work>>, AllocError>
    ensures many { IfOk result (λ works. vec_len works ≡ MOST_WORKS) }
    ensures room { IfOk result (λ works. MOST_WORKS ≤ vec_capacity works) }
    ensures idle { IfOk result (λ works. AllOf (λ w. IsNone w.value.sender.attempt) works.items) }
{
    let mut works = Vec::with_capacity(alloc, MOST_WORKS)?;
    for i in 0..MOST_WORKS {
        works.push(idle_work(alloc)?).unwrap();
    }
    Ok(works)
}
