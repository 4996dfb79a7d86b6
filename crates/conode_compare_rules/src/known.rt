//! What a recording shows of a device so far, for a report.

ghost use Rattle.std.specs.Prelude.{◌≡◌};
ghost use Rattle.conode_compare_rules.specs.Progresses.{is_begun, takes_rpdos};

use crate::progress::Progress;
use conode_compare_nmt::{Entries, NmtState, Subject};
use conode_compare_pdos::Pdos;

impl Progress {
    /// The NMT state that is known.
    pub fn state(&self) -> NmtState
        ensures { result ≡ self.now.nmt.state }
    {
        self.nmt.state
    }

    /// The entries in force, as far as they are known.
    pub fn entries(&self) -> Entries
        ensures { result ≡ self.now.entries }
    {
        self.entries
    }

    /// Its TPDOs, as far as they are known.
    pub fn pdos(&self) -> &Pdos
        ensures { result.now ≡ self.now.pdos }
    {
        &self.pdos
    }

    /// Whether it takes RPDOs: it is operational, as commands and heartbeats show it, and the tolerance
    /// was over since the newest command when the bus was free last.
    pub fn takes_rpdos(&self, subject: &Subject) -> bool
        ensures { result ≡ takes_rpdos subject.now self.now }
    {
        self.nmt.state.is_operational()
            && self
                .nmt
                .is_settled(&subject.limits, self.started, self.free)
    }

    /// Whether the recording begins with the newest frame, or begins anew; or that is an error
    /// frame.
    pub fn is_begun(&self) -> bool
        ensures { result ≡ is_begun self.now }
    {
        self.begins
    }
}
