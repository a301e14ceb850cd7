//! The program `dnscache`, where the port of name servers is taken at its address. It serves on no other port, so it ends at once.
#![tactic(auto)]

use dc_config::Env;
use dc_program::{MemoryInvocation, NoMemory, run_system};
use std::alloc::Global;
use std::io;
use std::net::UdpSocket;

/// The address to be served on.
const ADDRESS: &str = "127.0.53.53";

/// The port of name servers.
const DNS_PORT: u16 = 53;

/// The program's name alone, and the variables of a configuration.
fn invocation(alloc: Global) -> Result<MemoryInvocation, NoMemory> {
    let mut arguments = Vec::new(alloc);
    arguments.push(String::from_str(alloc, "dnscache")?)?;
    let mut variables = Env::new(alloc)?;
    variables.set(
        String::from_str(alloc, "IP")?,
        String::from_str(alloc, ADDRESS)?,
    );
    variables.set(
        String::from_str(alloc, "IPSEND")?,
        String::from_str(alloc, "0.0.0.0")?,
    );
    variables.set(
        String::from_str(alloc, "CACHESIZE")?,
        String::from_str(alloc, "1000000")?,
    );
    Ok(MemoryInvocation::new(arguments, variables))
}

/// Takes the port, and starts. Who may not take it may not serve there either.
fn main(rt: HostRuntime) -> io::Result<()> {
    let _taken = UdpSocket::bind(&rt, (ADDRESS, DNS_PORT));
    let status = run_system(&rt, &rt, &invocation(rt.alloc())?);
    println!(rt; "{status:?}")?;
    Ok(())
}
