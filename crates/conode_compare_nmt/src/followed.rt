//! Whether a device has followed a command, by what it sends (CiA 301, 7.3.2.2): no time is set for a
//! transition.

ghost use Rattle.std.specs.Prelude.{◌≡◌, true};
ghost use Rattle.conode_compare_nmt.specs.States.{
  has_followed,
  is_back,
  is_idle,
  is_stopped,
  with_back,
  with_followed,
};

use crate::finding::NmtState;
use crate::limits::Limits;
use crate::nmt::Nmt;
use crate::states::same_state;
use conode_compare_transfers::is_past;

/// Whether a device in this state sends no PDOs: they are sent while operational alone (CiA 301,
/// 7.3.2.2), and where it may start itself (1F80h) it may be that in place of pre-operational.
pub fn is_idle(starts_itself: bool, state: NmtState) -> bool
    ensures { result ≡ is_idle starts_itself state }
{
    match state {
        NmtState::PreOperational => !starts_itself,
        NmtState::Stopped => true,
        _ => false,
    }
}

// whether a device in this state sends no EMCY and no answers
fn is_stopped(state: NmtState) -> bool
    ensures { result ≡ is_stopped state }
{
    matches!(state, NmtState::Stopped)
}

impl Nmt {
    /// Whether it has followed a command, where it sends a PDO: by the state that was shown it sends
    /// none, and in that which the newest command leads to it may.
    pub fn is_running(&self, starts_itself: bool) -> bool
        ensures { result ≡ has_followed (is_idle starts_itself) self.now }
    {
        is_idle(starts_itself, self.state) && !is_idle(starts_itself, self.judged_state())
    }

    /// Whether it has followed a command, where it sends an EMCY or an answer: a stopped device sends
    /// none.
    pub fn has_left_stopped(&self) -> bool
        ensures { result ≡ has_followed is_stopped self.now }
    {
        is_stopped(self.state) && !is_stopped(self.judged_state())
    }

    /// A frame with this stamp, in microseconds, comes that shows that the device has followed the
    /// command: the first one counts.
    pub fn note_followed(&mut self, micros: u64)
        ensures { self.new ≡ with_followed self.old true micros }
    {
        if self.followed.is_none() {
            self.followed = Some(micros);
        }
    }

    /// Whether a heartbeat shows the state before once more, later than the tolerance after a frame
    /// that showed that the device had followed the command.
    pub(crate) fn is_back(&self, limits: &Limits, free: u64, shown: NmtState) -> bool
        ensures { result ≡ is_back limits.now self.now free shown }
    {
        match self.followed {
            Some(followed) if same_state(shown, self.state) => {
                is_past(followed, limits.tolerance, free)
            }
            _ => false,
        }
    }

    /// The device left the state that was due.
    pub(crate) fn leave_due(&mut self, micros: u64)
        ensures { self.new ≡ with_back true micros self.old }
    {
        self.due = NmtState::Unknown;
        self.followed = None;
        self.changed = Some(micros);
    }
}
