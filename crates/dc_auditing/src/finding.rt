//! What an audit says of a name.
ghost use Rattle.std.specs.Prelude.{◌≡◌};
ghost use Rattle.dc_auditing.specs.Findings.{is_same};

use dc_audit::Verdict;

/// What an audit says of a name.
#[derive(Clone, Copy, Debug, Drop, PartialEq, Eq)]
pub enum Finding {
    /// Both its files are there, and this is the verdict on them.
    Judged(Verdict),
    /// One of its files is absent.
    Missing,
}

impl Finding {
    /// Whether the recorded text is what the resolver does.
    pub fn is_same(&self) -> bool
        ensures { result ≡ is_same self.now }
    {
        matches!(self, Finding::Judged(Verdict::Same))
    }
}
