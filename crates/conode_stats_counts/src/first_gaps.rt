//! The gaps that come first.

ghost use Rattle.std.specs.Prelude.{◌≡◌, ◌≤◌, []};
ghost use Rattle.conode_stats_counts.specs.Heartbeats.{first_with};

use std::marker::Model;

/// How many gaps are kept.
const MOST_GAPS: usize = 32;

/// The gaps that came first, in microseconds; at most 32.
#[derive(Drop)]
pub struct FirstGaps {
    gaps: [u64; 32],
    count: usize,
}

impl Model for FirstGaps {
    ghost use Rattle.std.specs.Prelude.{List, ℕ, ◌≤◌, take};

    ghost Value = { List ℕ };

    ghost view = { λ first. take first.count first.gaps };

    ghost invariant = { λ first. first.count ≤ 32 };
}

impl FirstGaps {
    /// No gap.
    pub(crate) fn new() -> FirstGaps
        ensures { result ≡ [] }
    {
        FirstGaps {
            gaps: [0; 32],
            count: 0,
        }
    }

    /// Appends a gap, if there is room.
    #[tactic(auto, using(crate::proofs::Beaten::one_added, crate::proofs::Beaten::none_added))]
    pub(crate) fn add(&mut self, gap: u64)
        ensures { self.new ≡ first_with gap self.old }
    {
        if self.count < MOST_GAPS {
            self.gaps[self.count] = gap;
            self.count += 1;
        }
    }

    /// The gaps.
    pub fn as_slice(&self) -> &[u64]
        ensures { result.now ≡ self.now }
    {
        &self.gaps[..self.count]
    }
}
