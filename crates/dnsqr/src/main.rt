//! The program `dnsqr`: a whole packet, for a type and a name.
#![tactic(auto)]

use dc_tool_host::tool;
use dc_tools::DnsQr;
use std::process::ExitCode;

fn main(rt: HostRuntime) -> ExitCode {
    tool::<DnsQr, _, _>(&rt, "dnsqr", rt.stdout())
}
