//! The program `dnsfilter`: hosts behind the addresses that lines begin with.
#![tactic(auto)]

use dc_tool_host::filter;
use std::process::ExitCode;

fn main(rt: HostRuntime) -> ExitCode {
    filter(&rt, "dnsfilter", rt.stdin(), rt.stdout())
}
