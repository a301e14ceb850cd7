//! What no clause says: summaries of another program, sinks that fail, and words.
mod rows;

use crate::{Simulated, Simulation, simulate_command};
use dc_event::MemorySink;
use rows::ROWS;
use std::alloc::{AllocError, Global};
use std::test::Fail;

/// Runs a simulation: how it ended, and what was written. The sink has so much room, and its calls with these numbers fail.
fn simulate(
    alloc: Global,
    seed: u64,
    events: u64,
    room: usize,
    failing: &[u64],
) -> Result<(Simulated, Vec<u8>), AllocError> {
    let mut sink = MemorySink::new(alloc, room, failing.to_vec(alloc)?)?;
    let status = simulate_command(alloc, seed, events, &mut sink);
    Ok((status, sink.held().to_vec(alloc)?))
}

#[test]
fn summaries(rt: HostRuntime) -> Result<(), Fail> {
    for row in ROWS {
        let (status, told) = simulate(rt.alloc(), row.seed, row.events, 4096, &[])?;
        assert_eq!(rt; status, Simulated::Done);
        assert_eq!(rt; &told[..], row.told.as_bytes());
    }
    Ok(())
}

#[test]
fn sinks_fail(rt: HostRuntime) -> Result<(), Fail> {
    for (room, failing, written) in [
        (10, &[][..], &b"events 4\na"[..]),
        (0, &[], b""),
        (4096, &[1], b""),
    ] {
        let (status, told) = simulate(rt.alloc(), 1, 4, room, failing)?;
        assert_eq!(rt; status, Simulated::WriteFault);
        assert_eq!(rt; &told[..], written);
    }
    Ok(())
}

#[test]
fn runs_are_the_same(rt: HostRuntime) -> Result<(), Fail> {
    let (first, told) = simulate(rt.alloc(), 1, 100_000, 4096, &[])?;
    let (second, told_again) = simulate(rt.alloc(), 1, 100_000, 4096, &[])?;
    assert_eq!(rt; first, Simulated::Done);
    assert_eq!(rt; second, Simulated::Done);
    assert_eq!(rt; told, told_again);
    Ok(())
}

#[test]
fn words(rt: HostRuntime) -> Result<(), Fail> {
    let wanted = |seed, events| Some(Simulation { seed, events });
    for (texts, numbers) in [
        (&["simulate", "1", "0"][..], wanted(1, 0)),
        (
            &["simulate", "18446744073709551615", "18446744073709551615"],
            wanted(u64::MAX, u64::MAX),
        ),
        (&["simulate", "1", "18446744073709551616"], None),
        (&["simulate", "18446744073709551616", "1"], None),
        (&["simulate", "01", "1"], None),
        (&["simulate", "1", "00"], None),
        (&["simulate", "+1", "1"], None),
        (&["simulate", "-1", "1"], None),
        (&["simulate", "1", "1 "], None),
        (&["simulate", "", "1"], None),
        (&["simulate", "1"], None),
        (&["simulate"], None),
        (&["simulate", "1", "2", "3"], None),
        (&["Simulate", "1", "2"], None),
        (&["replay", "1", "2"], None),
        (&[], None),
    ] {
        let mut words = Vec::new(rt.alloc());
        for text in texts {
            words.push(String::from_str(rt.alloc(), text)?)?;
        }
        assert_eq!(rt; Simulation::of(&words), numbers);
    }
    Ok(())
}
