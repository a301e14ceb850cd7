//! The program `dnsmx`: the mail exchanges of names.
#![tactic(auto)]

use dc_tool_host::tool;
use dc_tools::DnsMx;
use std::process::ExitCode;

fn main(rt: HostRuntime) -> ExitCode {
    tool::<DnsMx, _, _>(&rt, "dnsmx", rt.stdout())
}
