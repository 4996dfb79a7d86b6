//! The begin of a recording, and gaps in it: where the recorder may have missed frames.

ghost use Rattle.std.specs.Prelude.{◌≡◌};
ghost use Rattle.conode_compare_rules.specs.Gaps.{
  after_fault,
  anew_since,
  asked_since,
  begins_anew,
  begun,
  breaks_off,
  client_since,
  earlier_at,
  forgotten,
  former_begun,
  former_lost,
  free_at,
  is_later,
  period_then,
  recent,
  was_quiet,
  with_bad_line,
  with_gap,
};

use crate::progress::Progress;
use conode_compare_nmt::{
    LONGEST_PERIOD, Limits, Nmt, Since, Subject, follows_closely, former_asked, is_gap,
};
use conode_compare_transfers::is_past;
use conode_compare_values::Written;

// when something came that the device may follow still: no longer ago than it takes to boot up
fn recent(limits: &Limits, last: Option<u64>, micros: u64) -> Option<u64>
    ensures { result ≡ recent limits.now last micros }
{
    match last {
        Some(last) if !is_past(last, limits.boot, micros) => {
            Some(if micros < last { micros } else { last })
        }
        _ => None,
    }
}

impl Progress {
    // Whether the recording begins anew: a stamp steps back, or the recorder may have rested.
    fn begins_anew(&self, limits: &Limits, micros: u64) -> bool
        ensures { result ≡ begins_anew limits.now self.now micros }
    {
        match self.newest {
            Some(newest) => {
                micros < newest || is_gap(limits, self.entries.period, newest, micros)
            }
            None => true,
        }
    }

    // Whether nothing was recorded for longer than an answer may take.
    fn was_quiet(&self, limits: &Limits, micros: u64) -> bool
        ensures { result ≡ was_quiet limits.now self.now micros }
    {
        match self.newest {
            Some(newest) => is_past(newest, limits.answer, micros),
            None => false,
        }
    }

    // Whether a frame comes later than the newest one.
    fn is_later(&self, micros: u64) -> bool
        ensures { result ≡ is_later self.now.newest micros }
    {
        match self.newest {
            Some(newest) => newest < micros,
            None => false,
        }
    }

    // The newest stamp before that of a frame.
    fn earlier_at(&self, micros: u64) -> Option<u64>
        ensures { result ≡ earlier_at self.now micros }
    {
        if self.is_later(micros) {
            self.newest
        } else {
            self.earlier
        }
    }

    // Whether nothing is open any more with a frame: nothing was recorded for long, or the newest
    // frame of the SDO channel was a wrong answer, which was said.
    fn breaks_off(&self, limits: &Limits, micros: u64) -> bool
        ensures { result ≡ breaks_off limits.now self.now micros }
    {
        self.was_quiet(limits, micros) || self.wrong && self.is_later(micros)
    }

    // When the bus was free last: frames that follow one another closely may have waited.
    fn free_at(&self, micros: u64) -> u64
        ensures { result ≡ free_at self.now.newest self.now.free micros }
    {
        match self.newest {
            Some(newest) if follows_closely(newest, micros) => self.free,
            _ => micros,
        }
    }

    // Whether the client of another SDO channel may have sent: a bad line may have had its frame.
    fn client_since(&self, subject: &Subject) -> bool
        ensures { result ≡ client_since subject.now self.now }
    {
        self.other_client || self.damaged.is_some() && subject.facts.clients.are_any()
    }

    // When a client may have asked to write last: a bad line may have had its request.
    fn asked_since(&self, micros: u64) -> Option<u64>
        ensures { result ≡ asked_since self.now micros }
    {
        if self.damaged.is_some() {
            Some(micros)
        } else {
            None
        }
    }

    // When the newest command came that is forgotten, or when the recording began anew before, where
    // the device may follow a command still.
    fn forgotten(&self, limits: &Limits, micros: u64) -> Option<u64>
        ensures { result ≡ forgotten limits.now self.now.nmt micros }
    {
        match self.nmt.commanded {
            Some(command) => recent(limits, Some(command.micros), micros),
            None => recent(limits, self.nmt.reset, micros),
        }
    }

    // Since when the recording begins anew, where it doesn't begin as at its first frame.
    fn anew_since(&self, limits: &Limits, micros: u64) -> Option<u64>
        ensures { result ≡ anew_since limits.now self.now micros }
    {
        if self.damaged.is_some() {
            Some(micros)
        } else {
            self.forgotten(limits, micros)
        }
    }

    /// What 1017:00 may have, as far as one number says it: what it has, or what a client asked to
    /// write last.
    pub(crate) fn period_then(&self) -> Option<u16>
        ensures { result ≡ period_then self.now }
    {
        self.entries.period.or(self.heartbeats.asked)
    }

    // The longest period that may run, once a line is bad: that had one write at most.
    fn former_lost(&self) -> Option<u16>
        ensures { result ≡ former_lost self.now }
    {
        if self.newest.is_none() {
            return Some(LONGEST_PERIOD);
        }
        let period = self.period_then().unwrap_or(LONGEST_PERIOD);
        former_asked(Some(period), self.heartbeats.former)
    }

    // The longest period that may run where the recording begins anew: any, but after one bad line.
    fn former_begun(&self, limits: &Limits, micros: u64) -> Option<u16>
        ensures { result ≡ former_begun limits.now self.now micros }
    {
        match self.damaged {
            Some(newest)
                if micros >= newest && !is_gap(limits, self.entries.period, newest, micros) => {
                self.heartbeats.former
            }
            _ => Some(LONGEST_PERIOD),
        }
    }

    /// A line of the recording is bad: what it had is unknown, so with the next frame the recording
    /// begins anew.
    pub fn note_bad_line(&mut self)
        ensures { self.new ≡ with_bad_line self.old }
    {
        self.heartbeats.former = self.former_lost();
        self.damaged = self.damaged.or(self.newest);
        self.newest = None;
    }

    /// A frame comes. Where the recording begins anew, nothing is known, but that an answer which
    /// may take long is awaited, and that a sub-block may be open; where it was quiet, or after a
    /// wrong answer, no request is known. After a bad line a client may have asked to write until
    /// now. A command that came before may still be followed.
    #[tactic(auto, unfolding(crate::specs::Gaps::begun))]
    pub(crate) fn begin(&mut self, subject: &Subject, micros: u64)
        ensures { self.new ≡ begun subject.now self.old micros }
    {
        if self.begins_anew(&subject.limits, micros) {
            self.dialogue.interrupt(micros);
            let slow = self.dialogue.slow;
            let sub_block = self.dialogue.sub_block;
            let other_client = self.client_since(subject);
            let asked_at = self.asked_since(micros);
            let anew = self.anew_since(&subject.limits, micros);
            let former = self.former_begun(&subject.limits, micros);
            *self = Progress::new(subject);
            self.nmt = Nmt::at_begin(anew);
            self.heartbeats.former = former;
            self.started = micros;
            self.asked_at = asked_at;
            self.begins = true;
            self.dialogue.slow = slow;
            self.dialogue.sub_block = sub_block;
            self.other_client = other_client;
        } else {
            self.earlier = self.earlier_at(micros);
            self.begins = false;
            let was_quiet = self.was_quiet(&subject.limits, micros);
            if self.breaks_off(&subject.limits, micros) {
                self.dialogue.interrupt(micros);
            }
            if was_quiet {
                self.pdos.interrupt();
            }
            self.wrong = self.wrong && !self.is_later(micros);
        }
        self.free = self.free_at(micros);
        self.newest = Some(micros);
        if self.exchange.is_some() {
            self.exchange = None;
        }
        self.remark = None;
    }

    /// What is open is no longer known.
    #[tactic(auto, unfolding(crate::specs::Gaps::with_gap))]
    pub(crate) fn break_off(&mut self, micros: u64)
        ensures { self.new ≡ with_gap self.old micros }
    {
        self.heartbeats.since = None;
        self.heartbeats.awaited = Since::Heartbeat;
        self.heartbeats.sent = None;
        self.heartbeats.slow = None;
        self.heartbeats.asked = None;
        self.emergency = None;
        self.dialogue.interrupt(micros);
        self.pdos.interrupt();
        self.written = Written::nothing();
    }

    /// An error frame: what came with it may be missing in the recording.
    #[tactic(auto, unfolding(crate::specs::Gaps::after_fault))]
    pub(crate) fn take_fault(&mut self, micros: u64)
        ensures { self.new ≡ after_fault self.old micros }
    {
        self.break_off(micros);
        self.nmt = Nmt::at_begin(Some(micros));
        self.started = micros;
        self.begins = true;
    }
}
