//! Whether a device may still be stopped after a command that leads out of stopped.

ghost use Rattle.std.specs.Prelude.{◌≡◌};
ghost use Rattle.conode_compare_nmt.specs.Leavings.{
  is_running,
  leaving_after,
  leaving_shown,
  may_be_stopped,
  may_be_stopped_at,
  was_stopped,
};
ghost use Rattle.conode_compare_nmt.specs.States.{with_left};

use crate::finding::NmtState;
use crate::nmt::Nmt;

/// Whether a device has left stopped since a command: CiA 301 sets no time for a transition
/// (7.3.2.2).
#[derive(Clone, Copy)]
pub enum Leaving {
    /// No command came while it may have been stopped.
    Nothing,
    /// One came, and no frame shows that it isn't stopped any more.
    Awaited,
    /// A frame with this stamp, in microseconds, showed that first.
    Shown(u64),
}

// whether a device may be stopped, as far as commands and heartbeats show
fn may_be_stopped(state: NmtState) -> bool
    ensures { result ≡ may_be_stopped state }
{
    matches!(state, NmtState::Stopped | NmtState::Unknown)
}

/// Whether a heartbeat that shows this state shows that the device isn't stopped.
pub(crate) fn is_running(state: NmtState) -> bool
    ensures { result ≡ is_running state }
{
    matches!(state, NmtState::PreOperational | NmtState::Operational)
}

impl Leaving {
    /// A command came while the device was in this state.
    pub(crate) fn after(self, state: NmtState) -> Leaving
        ensures { result ≡ leaving_after state self }
    {
        if may_be_stopped(state) {
            Leaving::Awaited
        } else {
            self
        }
    }

    /// A frame came; `shows`: it shows that the device isn't stopped.
    pub(crate) fn shown(self, shows: bool, micros: u64) -> Leaving
        ensures { result ≡ leaving_shown shows micros self }
    {
        match self {
            Leaving::Awaited if shows => Leaving::Shown(micros),
            _ => self,
        }
    }

    /// Whether the device may have been stopped when a request came after the command, at this stamp
    /// in microseconds.
    pub fn was_stopped(self, asked: u64) -> bool
        ensures { result ≡ was_stopped self asked }
    {
        match self {
            Leaving::Nothing => false,
            Leaving::Awaited => true,
            Leaving::Shown(micros) => asked <= micros,
        }
    }
}

impl Nmt {
    /// A frame came at a stamp in microseconds; `shows`: it shows that the device isn't stopped.
    pub fn note_left(&mut self, shows: bool, micros: u64)
        ensures { self.new ≡ with_left self.old shows micros }
    {
        self.leaving = self.leaving.shown(shows, micros);
    }

    /// Whether the device may be stopped when a frame comes at a stamp in microseconds, so that it may
    /// not take a client's: a stopped device has no SDO (CiA 301, 7.3.2.2).
    pub fn may_be_stopped_at(&self, micros: u64) -> bool
        ensures { result ≡ may_be_stopped_at self.now.state self.now.leaving micros }
    {
        may_be_stopped(self.state) || self.leaving.was_stopped(micros)
    }
}
