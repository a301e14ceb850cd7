//! The program `dnscache`, with recorded runs to be judged.
#![tactic(auto)]

use dc_program::{ProcessInvocation, start};
use std::process::ExitCode;

fn main(rt: HostRuntime) -> ExitCode {
    start(&rt, &rt, &ProcessInvocation::new(&rt))
}
