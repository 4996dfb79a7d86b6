//! Frames that may have waited until the device could send again.

ghost use Rattle.std.specs.Prelude.{◌≡◌};
ghost use Rattle.conode_compare_rules.specs.Waits.{
  counts_since,
  first_shown,
  is_among_first,
  later,
  sends_first,
  was_held_up,
};

use crate::progress::Progress;
use conode_compare_nmt::{Leaving, Limits, Nmt, Subject};
use conode_compare_transfers::is_past;

// whether a frame is among the first ones that show that the device sends
fn is_among_first(limits: &Limits, leaving: Leaving, free: u64) -> bool
    ensures { result ≡ is_among_first limits.now leaving free }
{
    match leaving {
        Leaving::Nothing => false,
        Leaving::Awaited => true,
        Leaving::Shown(micros) => !is_past(micros, limits.tolerance, free),
    }
}

// whether it is so after an error frame, or where the recording begins anew, and no command came since
fn sends_first(limits: &Limits, nmt: &Nmt, free: u64) -> bool
    ensures { result ≡ sends_first limits.now nmt.now free }
{
    nmt.commanded.is_none() && is_among_first(limits, nmt.leaving, free)
}

// when a frame showed first that the device isn't stopped
fn first_shown(leaving: Leaving) -> Option<u64>
    ensures { result ≡ first_shown leaving }
{
    match leaving {
        Leaving::Shown(micros) => Some(micros),
        _ => None,
    }
}

// the later of two stamps
fn later(stamp: u64, other: Option<u64>) -> u64
    ensures { result ≡ later stamp other }
{
    match other {
        Some(other) if stamp < other => other,
        _ => stamp,
    }
}

impl Progress {
    /// Whether a frame of the device may have waited until it could send again, by when the bus was
    /// free before it.
    pub(crate) fn was_held_up(&self, subject: &Subject, free: u64) -> bool
        ensures { result ≡ was_held_up subject.now self.now free }
    {
        sends_first(&subject.limits, &self.nmt, free)
    }

    /// Since when the times of TPDOs count: since the newest command; where none came, since the begin
    /// of the recording, or the device's first frame since.
    pub(crate) fn counts_since(&self) -> u64
        ensures { result ≡ counts_since self.now }
    {
        match self.nmt.commanded {
            Some(commanded) => commanded.micros,
            None => later(self.started, first_shown(self.nmt.leaving)),
        }
    }
}
