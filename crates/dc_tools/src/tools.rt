//! The five tools.
ghost use Rattle.std.specs.Prelude.{◌≡◌, ◌≢◌, [], ◌∷◌, map, option_map, Some, None, IfOk, IfErr};
ghost use Rattle.dc_lookup.specs.Words as model;
ghost use Rattle.dc_stub.specs.Look.{job_of};
ghost use Rattle.dc_stub.specs.Begun.{bytes_of};

use crate::job::name_of;
use crate::kind::kind_of;
use crate::words::jobs_of_each;
use dc_event::{Put, Sink};
use dc_name::Name;
use dc_packet::Table;
use dc_show::{show_address, show_ip, show_mx, show_name, show_packet, show_txt};
use dc_stub::{Job, Shows};
use std::alloc::Global;

/// The addresses of names.
pub struct DnsIp;

/// The names of addresses.
pub struct DnsName;

/// The texts of names.
pub struct DnsTxt;

/// The mail exchanges of names.
pub struct DnsMx;

/// A whole packet, for a type and a name.
pub struct DnsQr;

/// Why there are no jobs.
#[derive(Clone, Copy, Debug, PartialEq, Eq)]
pub enum Refusal {
    /// The words aren't usable.
    Usage,
    /// There is no memory.
    NoMemory,
}

/// A lookup tool.
pub trait Tool: Shows {
    /// What the words come to. They are tried before memory is taken.
    fn jobs(alloc: Global, words: &[String]) -> Result<Vec<Job>, Refusal>
        ensures jobs { IfOk result (λ jobs. model.jobs_of Self.tool (bytes_of words.now) ≡ Some (map job_of jobs.items)) }
        ensures usage { IfErr result (λ why. why ≡ Refusal.Usage → model.jobs_of Self.tool (bytes_of words.now) ≡ None) }
        ensures memory { IfErr result (λ why. why ≡ Refusal.NoMemory → model.jobs_of Self.tool (bytes_of words.now) ≢ None) };
}

impl Shows for DnsIp {
    ghost tool = { model.dnsip };

    fn show<K: Sink>(name: &Name, kind: u16, packet: &[u8], table: &Table, sink: &mut K) -> Put {
        show_ip(name, kind, packet, table, sink)
    }

    fn say<K: Sink>(addr: [u8; 4], sink: &mut K) -> Put {
        show_address(addr, sink)
    }
}

impl Shows for DnsName {
    ghost tool = { model.dnsname };

    fn show<K: Sink>(name: &Name, kind: u16, packet: &[u8], table: &Table, sink: &mut K) -> Put {
        show_name(name, kind, packet, table, sink)
    }

    fn say<K: Sink>(addr: [u8; 4], sink: &mut K) -> Put {
        show_address(addr, sink)
    }
}

impl Shows for DnsTxt {
    ghost tool = { model.dnstxt };

    fn show<K: Sink>(name: &Name, kind: u16, packet: &[u8], table: &Table, sink: &mut K) -> Put {
        show_txt(name, kind, packet, table, sink)
    }

    fn say<K: Sink>(addr: [u8; 4], sink: &mut K) -> Put {
        show_address(addr, sink)
    }
}

impl Shows for DnsMx {
    ghost tool = { model.dnsmx };

    fn show<K: Sink>(name: &Name, kind: u16, packet: &[u8], table: &Table, sink: &mut K) -> Put {
        show_mx(name, kind, packet, table, sink)
    }

    fn say<K: Sink>(addr: [u8; 4], sink: &mut K) -> Put {
        show_address(addr, sink)
    }
}

impl Shows for DnsQr {
    ghost tool = { model.dnsqr };

    fn show<K: Sink>(name: &Name, kind: u16, packet: &[u8], table: &Table, sink: &mut K) -> Put {
        show_packet(name, kind, packet, table, sink)
    }

    fn say<K: Sink>(addr: [u8; 4], sink: &mut K) -> Put {
        show_address(addr, sink)
    }
}

impl Tool for DnsIp {
    #[tactic(auto, unfolding(dc_lookup::specs::Words::jobs_of))]
    fn jobs(alloc: Global, words: &[String]) -> Result<Vec<Job>, Refusal> {
        jobs_of_each::<DnsIp>(alloc, words)
    }
}

impl Tool for DnsName {
    #[tactic(auto, unfolding(dc_lookup::specs::Words::jobs_of))]
    fn jobs(alloc: Global, words: &[String]) -> Result<Vec<Job>, Refusal> {
        jobs_of_each::<DnsName>(alloc, words)
    }
}

impl Tool for DnsTxt {
    #[tactic(auto, unfolding(dc_lookup::specs::Words::jobs_of))]
    fn jobs(alloc: Global, words: &[String]) -> Result<Vec<Job>, Refusal> {
        jobs_of_each::<DnsTxt>(alloc, words)
    }
}

impl Tool for DnsMx {
    #[tactic(auto, unfolding(dc_lookup::specs::Words::jobs_of))]
    fn jobs(alloc: Global, words: &[String]) -> Result<Vec<Job>, Refusal> {
        jobs_of_each::<DnsMx>(alloc, words)
    }
}

/// The job that a type and a name come to.
fn typed_job(words: &[String]) -> Option<Job>
    ensures { option_map (λ j. job_of j ∷ []) result ≡ model.typed_job (bytes_of words.now) }
{
    let [kind, name] = words else {
        return None;
    };
    let kind = kind_of(kind.as_bytes())?;
    let name = name_of(name.as_bytes())?;
    Some(Job::Asks(name, kind))
}

impl Tool for DnsQr {
    #[tactic(auto, unfolding(dc_lookup::specs::Words::jobs_of))]
    fn jobs(alloc: Global, words: &[String]) -> Result<Vec<Job>, Refusal> {
        let Some(job) = typed_job(words) else {
            return Err(Refusal::Usage);
        };
        let mut jobs = Vec::new(alloc);
        match jobs.push(job) {
            Ok(()) => Ok(jobs),
            Err(_) => Err(Refusal::NoMemory),
        }
    }
}
