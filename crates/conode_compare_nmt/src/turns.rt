//! States in turn: the heartbeats of two devices with one node-ID.

ghost use Rattle.std.specs.Prelude.{◌≡◌};
ghost use Rattle.conode_compare_nmt.specs.States.{after_turn, judged_state, strays, strays_again};

use crate::finding::NmtState;
use crate::limits::Subject;
use crate::nmt::Nmt;
use crate::states::{is_state, is_wrong, same_state, state_of};

impl Nmt {
    /// Whether a heartbeat shows a state that the device can't have reached by itself; the bus was
    /// free last at `free`.
    pub(crate) fn strays(
        &self,
        subject: &Subject,
        started: u64,
        guarded: bool,
        free: u64,
        byte: u8,
    ) -> bool
        ensures { result ≡ strays subject.now started guarded self.now free byte }
    {
        if guarded || !self.is_settled(&subject.limits, started, free) {
            return false;
        }
        let starts_itself = subject.facts.starts_itself;
        is_state(byte) && is_wrong(starts_itself, self.judged_state(), state_of(byte))
    }

    /// Whether it went so out of the same state before, and returned to it; `early`: the heartbeat
    /// comes sooner than its period.
    pub(crate) fn strays_again(
        &self,
        subject: &Subject,
        started: u64,
        guarded: bool,
        early: bool,
        free: u64,
        byte: u8,
    ) -> bool
        ensures { result ≡ strays_again subject.now started guarded early self.now free byte }
    {
        self.strays(subject, started, guarded, free, byte)
            && (same_state(self.judged_state(), self.strayed) && early)
    }

    /// What is known once a heartbeat with this byte came (CiA 301, 7.2.8.3.2), after which `next` is
    /// known of one device; of two devices the state is unknown until a boot-up or a command. Stamps
    /// in microseconds: the recording began at `started`, and the bus was free last at `free`.
    /// `early`: it comes sooner than its period; `guarded`: node guarding was seen.
    pub fn after_turn(
        &self,
        subject: &Subject,
        started: u64,
        guarded: bool,
        early: bool,
        free: u64,
        byte: u8,
        next: Nmt,
    ) -> Nmt
        ensures { result ≡ after_turn subject.now started guarded early self.now free byte next }
    {
        let mut next = next;
        if self.strays(subject, started, guarded, free, byte) {
            next.strayed = self.judged_state();
        }
        if self.strays_again(subject, started, guarded, early, free, byte) {
            next.state = NmtState::Unknown;
            next.due = NmtState::Unknown;
            next.mixed = true;
        }
        next
    }
}
