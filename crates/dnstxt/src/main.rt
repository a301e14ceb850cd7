//! The program `dnstxt`: the texts of names.
#![tactic(auto)]

use dc_tool_host::tool;
use dc_tools::DnsTxt;
use std::process::ExitCode;

fn main(rt: HostRuntime) -> ExitCode {
    tool::<DnsTxt, _, _>(&rt, "dnstxt", rt.stdout())
}
