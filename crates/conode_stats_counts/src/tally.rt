//! Frames counted, and the gaps between their stamps.

ghost use Rattle.std.specs.Prelude.{◌≡◌, [], ◌+◌, ◌-◌, ◌^◌};
ghost use Rattle.conode_stats_counts.specs.Gaps.{counted};
ghost use Rattle.conode_stats_counts.specs.Tallies.{elapsed, tally_of, tally_with};

/// Frames and the gaps between their stamps, in microseconds. Every frame has a gap but the first,
/// and those that step back. Counts and sums saturate at 2^64 - 1.
#[derive(Clone, Copy)]
pub struct Tally {
    /// The stamp of the first frame; 0 without frames.
    pub first: u64,
    /// The stamp of the last frame; 0 without frames.
    pub last: u64,
    /// The number of frames.
    pub frames: u64,
    /// How many frames have a stamp before that of the frame before them.
    pub steps_back: u64,
    /// The stamp before the last one that steps back; 0 if none does.
    pub step_from: u64,
    /// The last stamp that steps back; 0 if none does.
    pub step_to: u64,
    /// The number of gaps.
    pub gaps: u64,
    /// The sum of the gaps.
    pub total: u64,
    /// The smallest gap; 2^64 - 1 without gaps.
    pub smallest: u64,
    /// The greatest gap; 0 without gaps.
    pub greatest: u64,
}

/// A sum that saturates at 2^64 - 1.
pub(crate) fn counted(count: u64, more: u64) -> u64
    ensures { result ≡ counted (count + more) }
{
    count.checked_add(more).unwrap_or(u64::MAX)
}

impl Tally {
    /// The tally of no frame.
    #[tactic(auto, using(crate::proofs::Tallied::none))]
    pub fn new() -> Tally
        ensures { result ≡ tally_of [] }
    {
        Tally {
            first: 0,
            last: 0,
            frames: 0,
            steps_back: 0,
            step_from: 0,
            step_to: 0,
            gaps: 0,
            total: 0,
            smallest: u64::MAX,
            greatest: 0,
        }
    }

    /// The time from a stamp to that of the last frame, in microseconds. A stamp above that of the
    /// last frame came before the last step back: the time up to this step, and from it on.
    pub fn elapsed(&self, stamp: u64) -> u64
        ensures { result ≡ elapsed self.now stamp }
    {
        if self.last < stamp {
            counted(
                self.step_from.saturating_sub(stamp),
                self.last.saturating_sub(self.step_to),
            )
        } else {
            self.last - stamp
        }
    }

    /// Counts a frame with this stamp, in microseconds.
    #[tactic(auto, unfolding(crate::specs::Tallies::tally_with))]
    pub(crate) fn add(&mut self, micros: u64)
        ensures { self.new ≡ tally_with self.old micros }
    {
        if self.frames == 0 {
            *self = Tally {
                first: micros,
                last: micros,
                frames: 1,
                steps_back: 0,
                step_from: 0,
                step_to: 0,
                gaps: 0,
                total: 0,
                smallest: u64::MAX,
                greatest: 0,
            };
            return;
        }
        let gap = micros.saturating_sub(self.last);
        if micros < self.last {
            self.steps_back = counted(self.steps_back, 1);
            self.step_from = self.last;
            self.step_to = micros;
        } else {
            self.gaps = counted(self.gaps, 1);
            self.total = counted(self.total, gap);
            self.smallest = self.smallest.min(gap);
            self.greatest = self.greatest.max(gap);
        }
        self.frames = counted(self.frames, 1);
        self.last = micros;
    }
}
