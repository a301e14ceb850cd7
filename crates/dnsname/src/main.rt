//! The program `dnsname`: the names of addresses.
#![tactic(auto)]

use dc_tool_host::tool;
use dc_tools::DnsName;
use std::process::ExitCode;

fn main(rt: HostRuntime) -> ExitCode {
    tool::<DnsName, _, _>(&rt, "dnsname", rt.stdout())
}
