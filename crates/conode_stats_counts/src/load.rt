//! The bits that frames take on a bus.

ghost use Rattle.std.specs.Prelude.{◌≡◌, [], ◌+◌};
ghost use Rattle.conode_stats_counts.specs.Gaps.{counted};
ghost use Rattle.conode_stats_counts.specs.Loads.{load_of, load_with, second_with};

use crate::size::Size;
use crate::tally::counted;

/// Consecutive frames with stamps in the same second. Sums saturate at 2^64 - 1.
#[derive(Clone, Copy)]
pub struct Second {
    /// The second, counted from stamp 0.
    pub second: u64,
    /// The bits of these frames.
    pub bits: u64,
    /// The most bits that such frames can take.
    pub most: u64,
}

/// The bits that the frames of a bus take. Sums saturate at 2^64 - 1.
#[derive(Clone, Copy)]
pub struct Load {
    /// The bits of all frames.
    pub bits: u64,
    /// The most bits that such frames can take.
    pub most: u64,
    /// How many frames have an unknown size; their bits count as 0.
    pub unknown: u64,
    /// The second of the newest frame.
    pub now: Second,
    /// The second with the most bits, the first one if several have as many.
    pub busiest: Second,
}

impl Second {
    // one frame more
    fn with(self, second: u64, size: Size) -> Second
        ensures { result ≡ second_with self second size }
    {
        if self.second == second {
            Second {
                second,
                bits: counted(self.bits, size.bits as u64),
                most: counted(self.most, size.most as u64),
            }
        } else {
            Second {
                second,
                bits: size.bits as u64,
                most: size.most as u64,
            }
        }
    }
}

impl Load {
    /// The load of no frame.
    #[tactic(auto, using(crate::proofs::Loaded::none))]
    pub fn new() -> Load
        ensures { result ≡ load_of [] }
    {
        let none = Second {
            second: 0,
            bits: 0,
            most: 0,
        };
        Load {
            bits: 0,
            most: 0,
            unknown: 0,
            now: none,
            busiest: none,
        }
    }

    /// Adds a frame of this size, with its stamp in this second.
    #[tactic(auto, unfolding(crate::specs::Loads::load_with))]
    pub(crate) fn add(&mut self, second: u64, size: Size)
        ensures { self.new ≡ load_with self.old second size }
    {
        let now = self.now.with(second, size);
        let unknown = if size.bits == 0 { 1 } else { 0 };
        *self = Load {
            bits: counted(self.bits, size.bits as u64),
            most: counted(self.most, size.most as u64),
            unknown: counted(self.unknown, unknown),
            now,
            busiest: if self.busiest.bits < now.bits {
                now
            } else {
                self.busiest
            },
        };
    }
}
