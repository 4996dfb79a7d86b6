//! NMT states, and the time in them.

ghost use Rattle.std.specs.Prelude.{◌≡◌, [], ◌+◌, ◌-◌};
ghost use Rattle.conode_stats_counts.specs.States.{numbered, same_state, state_of, times_of, times_with};
ghost use Rattle.conode_stats_counts.specs.declared.state.NmtState.TheVariants.{BootUp};

use crate::tally::counted;

/// What a frame of error control shows of its node's NMT state (CiA 301, 7.2.8.3.2).
#[derive(Clone, Copy)]
pub enum NmtState {
    /// The node has booted: the boot-up message, a byte of 0.
    BootUp,
    /// Pre-operational, 127.
    PreOperational,
    /// Operational, 5.
    Operational,
    /// Stopped, 4.
    Stopped,
    /// A number that no state has.
    Unknown,
}

/// How long a node showed each state, in microseconds. Sums saturate at 2^64 - 1.
#[derive(Clone, Copy)]
pub struct StateTimes {
    /// From the boot-up message to the next frame of error control.
    pub boot_up: u64,
    /// Pre-operational.
    pub pre_operational: u64,
    /// Operational.
    pub operational: u64,
    /// Stopped.
    pub stopped: u64,
    /// A number that no state has.
    pub unknown: u64,
}

impl NmtState {
    // the state with a number
    fn numbered(number: u8) -> NmtState
        ensures { result ≡ numbered number }
    {
        if number == 4 {
            NmtState::Stopped
        } else if number == 5 {
            NmtState::Operational
        } else if number == 127 {
            NmtState::PreOperational
        } else {
            NmtState::Unknown
        }
    }

    /// The state that a byte shows; bit 7 is the toggle bit of node guarding.
    pub(crate) fn of(byte: u8) -> NmtState
        ensures { result ≡ state_of byte }
    {
        if byte == 0 {
            NmtState::BootUp
        } else {
            NmtState::numbered(byte % 128)
        }
    }

    /// Whether it is that of a boot-up message.
    pub(crate) fn is_boot_up(self) -> bool
        ensures { result ≡ same_state self BootUp }
    {
        match self {
            NmtState::BootUp => true,
            _ => false,
        }
    }
}

impl StateTimes {
    /// Of no frame.
    #[tactic(auto, unfolding(crate::specs::States::time_in))]
    pub(crate) fn new() -> StateTimes
        ensures { result ≡ times_of [] }
    {
        StateTimes {
            boot_up: 0,
            pre_operational: 0,
            operational: 0,
            stopped: 0,
            unknown: 0,
        }
    }

    /// Adds a time in a state.
    pub(crate) fn add(&mut self, state: NmtState, micros: u64)
        ensures { self.new ≡ times_with state micros self.old }
    {
        match state {
            NmtState::BootUp => self.boot_up = counted(self.boot_up, micros),
            NmtState::PreOperational => {
                self.pre_operational = counted(self.pre_operational, micros);
            }
            NmtState::Operational => self.operational = counted(self.operational, micros),
            NmtState::Stopped => self.stopped = counted(self.stopped, micros),
            NmtState::Unknown => self.unknown = counted(self.unknown, micros),
        }
    }
}
