//! A part of a list.

ghost use Rattle.std.specs.Prelude.{◌≡◌, ◌+◌, ◌-◌};
ghost use Rattle.conode_stats_text.specs.Findings.{is_listed};
ghost use Rattle.conode_stats_counts.specs.Gaps.{counted};

/// Which findings are listed, by their places in the order in which they come.
#[derive(Clone, Copy)]
pub(crate) struct Excerpt {
    /// How many came. It saturates at 2^64 - 1.
    pub(crate) seen: u64,
    /// The first place.
    pub(crate) from: u64,
    /// The place after the last.
    pub(crate) until: u64,
}

impl Excerpt {
    /// Of these places, before the first finding.
    pub(crate) fn new(from: u64, until: u64) -> Excerpt
        ensures { result ≡ record { seen = 0; from = from; until = until } }
    {
        Excerpt {
            seen: 0,
            from,
            until,
        }
    }

    /// Passes a finding, and returns whether it is listed.
    pub(crate) fn pass(&mut self) -> bool
        ensures listed { result ≡ is_listed self.old }
        ensures seen { self.new ≡ record self.old { seen = counted (self.old.seen + 1) } }
    {
        let place = self.seen;
        self.seen = place.saturating_add(1);
        self.from <= place && place < self.until
    }

    /// How many came after the last place.
    pub(crate) fn left(&self) -> u64
        ensures { result ≡ self.now.seen - self.now.until }
    {
        self.seen.saturating_sub(self.until)
    }
}
