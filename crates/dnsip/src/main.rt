//! The program `dnsip`: the addresses of names.
#![tactic(auto)]

use dc_tool_host::tool;
use dc_tools::DnsIp;
use std::process::ExitCode;

fn main(rt: HostRuntime) -> ExitCode {
    tool::<DnsIp, _, _>(&rt, "dnsip", rt.stdout())
}
