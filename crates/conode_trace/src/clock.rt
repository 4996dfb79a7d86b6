//! The clock of a trace.

ghost use Rattle.std.specs.Prelude.{◌≡◌, ◌+◌, ◌<◌, ◌≤◌, ◌^◌, Some, None, IfSome, IfNone};
ghost use Rattle.std.specs.Option.{option_map};
ghost use Rattle.conode_trace.specs.Clocks.{ClockState, clock_at_start, move_to, move_by};

use std::marker::Model;

/// How far a frame line may be past the clock, in ms: a day.
const GREATEST_STEP: u32 = 86_400_000;

/// The clock of a trace in ms. It begins at 0 and follows the stamps of the frame lines.
///
/// A stamp is below 2^64 ms, and a line moves the clock by at most a day: so the time stays far
/// below 2^128 whatever the number of lines.
#[derive(Clone, Copy)]
pub(crate) struct Clock {
    ms: u128,
    started: bool,
}

impl Model for Clock {
    ghost use Rattle.conode_trace.specs.Clocks.{ClockState};

    ghost Value = { ClockState };

    ghost view = { λ clock. record { ms = clock.ms; started = clock.started } };

    ghost inverse = { λ clock. record { ms = clock.ms; started = clock.started } };
}

impl Clock {
    /// A clock that no frame line has set: 0 ms.
    pub(crate) fn new() -> Self
        ensures { result ≡ clock_at_start }
    {
        Clock {
            ms: 0,
            started: false,
        }
    }

    /// The time in ms.
    pub(crate) fn ms(self) -> u128
        ensures { result ≡ self.ms }
    {
        self.ms
    }

    /// Advances the clock to the stamp of a frame line, in ms, and returns the ticks of 1 ms
    /// elapsed. The first frame line sets the clock without a tick, also backwards. After that an
    /// older stamp doesn't move it. `None` if the stamp is more than a day past the clock: the
    /// clock stays.
    pub(crate) fn move_to(&mut self, stamp: u64) -> Option<u32>
        ensures exact { option_map (λ ticks. (ticks, self.new)) result ≡ move_to self.old stamp }
        ensures within { IfSome result (λ ticks. ticks ≤ 86400000) }
        ensures far { IfNone result (self.new ≡ self.old) }
    {
        let stamp = u128::from(stamp);
        if !self.started {
            self.ms = stamp;
            self.started = true;
            return Some(0);
        }
        let ticks = stamp.saturating_sub(self.ms);
        if ticks > u128::from(GREATEST_STEP) {
            return None;
        }
        self.ms = self.ms.max(stamp);
        Some(ticks as u32)
    }

    /// Moves the clock by ticks of 1 ms.
    pub(crate) fn move_by(&mut self, ticks: u32)
        requires { self.old.ms + ticks < 2 ^ 128 }
        ensures { (ticks, self.new) ≡ move_by self.old ticks }
    {
        self.ms += u128::from(ticks);
    }
}
