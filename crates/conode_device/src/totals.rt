//! The totals of a trace.

ghost use Rattle.std.specs.Prelude.{◌≡◌, ◌+◌, ◌≤◌, ◌<◌, ◌^◌};
ghost use Rattle.conode_device.specs.Counts.{counted, room_taken};

use conode_trace::{TimedLine, TraceLine};

/// The totals of a trace that a device replays.
#[derive(Clone, Copy, Debug, PartialEq, Eq)]
pub struct Totals {
    /// How many frames were handed to the device.
    pub handed: u128,
    /// How many frames were printed, with the boot-up.
    pub printed: u128,
    /// How many ticks of 1 ms the device took.
    pub ticks: u128,
}

impl Totals {
    /// After the boot-up.
    pub(crate) fn new() -> Self
        ensures { result ≡ record { handed = 0; printed = 1; ticks = 0 } }
    {
        Totals {
            handed: 0,
            printed: 1,
            ticks: 0,
        }
    }

    /// Counts a line whose inputs printed so many frames.
    pub(crate) fn count(&mut self, timed: &TimedLine<'_>, printed: u64)
        requires { room_taken self.old + 2 ^ 65 < 2 ^ 128 }
        ensures counted { self.new ≡ counted self.old timed.now printed }
        ensures few { room_taken self.new ≤ room_taken self.old + printed + 2 ^ 33 }
    {
        if matches!(&timed.said, TraceLine::Data { .. }) {
            self.handed += 1;
        }
        self.printed += u128::from(printed);
        self.ticks += u128::from(timed.ticks);
    }
}
