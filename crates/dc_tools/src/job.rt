//! What a word comes to.
ghost use Rattle.std.specs.Prelude.{◌≡◌, ℕ, List, option_map};
ghost use Rattle.std.specs.declared.option.Option.{Option};
ghost use Rattle.dc_lookup.specs.Words as model;
ghost use Rattle.dc_stub.specs.Look.{job_of};
ghost use Rattle.dc_tools.specs.Ran.{ip_word, name_word, txt_word, mx_word};

use crate::tools::{DnsIp, DnsMx, DnsName, DnsTxt};
use dc_name::Name;
use dc_stub::Job;
use dc_text::address;
use dc_types::rtype;

/// A tool each of whose words is a job.
pub trait Word {
    /// What a word comes to; nothing where it isn't usable.
    ghost said: { List ℕ → Option model.Job };

    /// What a word comes to.
    fn job(word: &[u8]) -> Option<Job>
        ensures { option_map job_of result ≡ said word.now };
}

/// The name that a word is.
pub(crate) fn name_of(word: &[u8]) -> Option<Name>
    ensures { result ≡ model.name_of word.now }
{
    match Name::from_dotted(word) {
        Ok(name) => Some(name),
        Err(_) => None,
    }
}

impl Word for DnsIp {
    ghost said = { ip_word };

    fn job(word: &[u8]) -> Option<Job> {
        let name = name_of(word)?;
        match name.is_address() {
            Some(addr) => Some(Job::Says(addr)),
            None => Some(Job::Asks(name, rtype::A)),
        }
    }
}

impl Word for DnsName {
    ghost said = { name_word };

    fn job(word: &[u8]) -> Option<Job> {
        let addr = address(word)?;
        Some(Job::Asks(Name::reverse_of(addr), rtype::PTR))
    }
}

impl Word for DnsTxt {
    ghost said = { txt_word };

    fn job(word: &[u8]) -> Option<Job> {
        let name = name_of(word)?;
        Some(Job::Asks(name, rtype::TXT))
    }
}

impl Word for DnsMx {
    ghost said = { mx_word };

    fn job(word: &[u8]) -> Option<Job> {
        let name = name_of(word)?;
        Some(Job::Asks(name, rtype::MX))
    }
}
