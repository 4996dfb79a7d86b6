//! The boot-ups and heartbeats of a device, its error control (CiA 301, 7.2.8.3.2 and 7.2.8.3.3):
//! what each is judged by, and what it shows.

ghost use Rattle.std.specs.Prelude.{◌≡◌};
ghost use Rattle.conode_compare_rules.specs.NmtFrames.{
  after_control,
  after_length,
  boot_findings,
  booted,
  booted_entries,
  booted_former,
  booted_pdos,
  byte_finding,
  comes_again,
  comes_aside,
  comes_early,
  control_findings,
  control_judged,
  heartbeat_findings,
  is_again,
  is_overdue,
  is_repeated,
  late_alone,
  late_at,
  late_by,
  late_coming,
  may_be_written,
  may_differ,
  odd_control_findings,
  off_coming,
  steady_when_free,
  heartbeats_by,
  was_asked,
};

use crate::answers::silence_finding;
use crate::progress::Progress;
use crate::verdict::Findings;
use conode_compare_nmt::{Entries, Finding, LONGEST_PERIOD, NmtState, Odd, Since, Subject};
use conode_compare_pdos::Pdos;
use conode_compare_transfers::{Left, is_past};

impl Progress {
    /// Whether a client asked to write an entry of the communication profile within the tolerance
    /// before the frame, which is a boot-up, when the bus was free last: the device may have booted
    /// up by then, and its frame waited.
    pub fn was_asked(&self, subject: &Subject) -> bool
        ensures { result ≡ was_asked subject.now self.now }
    {
        match self.asked_at {
            Some(asked) => !is_past(asked, subject.limits.tolerance, self.free),
            None => false,
        }
    }

    // whether the entries may have other values than the data sheet's after a boot-up
    fn may_differ(&self, subject: &Subject) -> bool
        ensures { result ≡ may_differ subject.now self.now }
    {
        self.other_client || self.was_asked(subject)
    }

    // what is known of the entries after a boot-up
    fn booted_entries(&self, subject: &Subject) -> Entries
        ensures { result ≡ booted_entries subject.now self.now }
    {
        if self.may_differ(subject) {
            subject.facts.before
        } else {
            subject.facts.booted
        }
    }

    // what is known of the TPDOs after a boot-up
    fn booted_pdos(&self, subject: &Subject) -> Pdos
        ensures { result ≡ booted_pdos subject.now self.now }
    {
        if self.may_differ(subject) {
            Pdos::unknown()
        } else {
            subject.facts.pdos
        }
    }

    // whether a client may have written 1017:00 since the boot-up: also one of another SDO channel
    // whose frames can't be told
    fn may_be_written(&self, subject: &Subject) -> bool
        ensures { result ≡ may_be_written subject.now self.now }
    {
        let facts = &subject.facts;
        self.may_differ(subject) || facts.as_sheet && facts.booted.period.is_none()
    }

    // the longest period that may run after a boot-up, beside what 1017:00 has
    fn booted_former(&self, subject: &Subject) -> Option<u16>
        ensures { result ≡ booted_former subject.now self.now }
    {
        if self.may_be_written(subject) {
            Some(LONGEST_PERIOD)
        } else {
            None
        }
    }

    /// A boot-up.
    #[tactic(auto, unfolding(crate::specs::NmtFrames::booted, crate::specs::Gaps::with_gap))]
    pub(crate) fn take_boot_up(&mut self, subject: &Subject, micros: u64) -> Findings
        ensures findings { result ≡ boot_findings self.old micros }
        ensures progress { self.new ≡ booted subject.now self.old micros }
    {
        let frame = self.nmt.second_boot_up(micros);
        self.remark = self.nmt.restart_remark(&subject.limits, micros);
        self.nmt = self
            .nmt
            .after_control(&subject.limits, self.started, self.free, micros, 0);
        self.break_off(micros);
        self.dialogue.slow = Left::new();
        self.dialogue.sub_block = false;
        self.entries = self.booted_entries(subject);
        self.pdos = self.booted_pdos(subject);
        self.heartbeats.since = Some(micros);
        self.heartbeats.awaited = Since::BootUp;
        self.heartbeats.sent = Some(self.free);
        self.heartbeats.former = self.booted_former(subject);
        self.heartbeats.asked = None;
        Findings::of(None, None, None, frame, true)
    }

    /// Whether the next heartbeat was late when the bus was free last, by what 1017:00 has: the
    /// device may have been switched off and on since.
    pub(crate) fn is_overdue(&self, subject: &Subject) -> bool
        ensures { result ≡ is_overdue subject.now self.now }
    {
        self.heartbeats
            .overdue_with(&subject.limits, &self.entries, self.free, self.free)
            .is_some()
    }

    // whether the tolerance was over when the bus was free last: since the newest command, and since
    // a heartbeat showed that it left operational or stopped, or entered stopped; and none was late
    pub(crate) fn steady_when_free(&self, subject: &Subject) -> bool
        ensures { result ≡ steady_when_free subject.now self.now }
    {
        let limits = &subject.limits;
        self.nmt.is_settled(limits, self.started, self.free)
            && self.nmt.is_steady(limits, self.free)
            && !self.is_overdue(subject)
    }

    // whether a heartbeat is judged: the state is known, and was settled when the bus was free last
    #[tactic(auto, unfolding(crate::specs::NmtFrames::control_judged))]
    fn control_judged(&self, subject: &Subject) -> bool
        ensures { result ≡ control_judged subject.now self.now }
    {
        if self.heartbeats.guarded
            || matches!(self.nmt.state, NmtState::Unknown | NmtState::Initialising)
        {
            return false;
        }
        self.nmt
            .is_settled(&subject.limits, self.started, self.free)
    }

    // the difference of a heartbeat that is late, whether the last one was late, too, or not
    fn late_alone(&self, subject: &Subject, micros: u64) -> Option<Finding>
        ensures { result ≡ late_alone subject.now self.now micros }
    {
        self.heartbeats
            .late_finding(&subject.limits, &self.entries, self.free, micros)
    }

    // whether a heartbeat that is late takes no longer so far than the last ones, which were late, too
    fn is_again(&self, subject: &Subject) -> bool
        ensures { result ≡ is_again subject.now self.now }
    {
        self.heartbeats
            .is_late_again(&subject.limits, &self.entries, self.free)
    }

    /// The difference of a heartbeat that is late, before it comes, where that isn't said already.
    pub(crate) fn late_at(&self, subject: &Subject, micros: u64) -> Option<Finding>
        ensures { result ≡ late_at subject.now self.now micros }
    {
        if self.is_again(subject) {
            None
        } else {
            self.late_alone(subject, micros)
        }
    }

    // whether a heartbeat that comes late is the same mistake as the last ones
    fn comes_again(&self, subject: &Subject) -> bool
        ensures { result ≡ comes_again subject.now self.now }
    {
        self.heartbeats
            .comes_again(&subject.limits, &self.entries, self.free)
    }

    // the difference of a heartbeat that comes late, where that isn't said already
    fn late_coming(&self, subject: &Subject, micros: u64) -> Option<Finding>
        ensures { result ≡ late_coming subject.now self.now micros }
    {
        if self.comes_again(subject) {
            None
        } else {
            self.late_alone(subject, micros)
        }
    }

    // whether a heartbeat comes sooner than its period
    fn comes_early(&self, subject: &Subject, micros: u64, byte: u8) -> bool
        ensures { result ≡ comes_early subject.now self.now micros byte }
    {
        self.heartbeats
            .early_remark(&subject.limits, &self.entries, self.earlier, micros, byte)
            .is_some()
    }

    // the difference of a heartbeat's byte
    fn byte_finding(&self, subject: &Subject, micros: u64, byte: u8) -> Option<Finding>
        ensures { result ≡ byte_finding subject.now self.now micros byte }
    {
        let guarded = self.heartbeats.guarded;
        let early = self.comes_early(subject, micros, byte);
        self.nmt
            .control_finding(subject, self.started, guarded, early, self.free, byte)
    }

    // whether a heartbeat comes early, or may be sent at a change of the state
    fn comes_aside(&self, subject: &Subject, micros: u64, byte: u8) -> bool
        ensures { result ≡ comes_aside subject.now self.now micros byte }
    {
        self.comes_early(subject, micros, byte) || self.nmt.may_be_of_change(byte)
    }

    // whether what is wrong about a heartbeat was said of an earlier one
    fn is_repeated(&self, subject: &Subject, micros: u64, byte: u8) -> bool
        ensures { result ≡ is_repeated subject.now self.now micros byte }
    {
        self.nmt.is_same_byte(byte)
            || self.comes_again(subject) && self.late_alone(subject, micros).is_some()
            || self.heartbeats.is_off_again(&self.entries)
    }

    // what is found at a heartbeat; `frame`: the difference of its byte, `off`: that it comes though
    // 1017:00 has 0
    #[tactic(auto, unfolding(crate::specs::NmtFrames::heartbeat_findings))]
    fn heartbeat_findings(
        &self,
        subject: &Subject,
        answer: Option<Finding>,
        frame: Option<Finding>,
        off: Option<Finding>,
        micros: u64,
        byte: u8,
    ) -> Findings
        requires frame_is { frame ≡ byte_finding subject.now self.now micros byte }
        requires off_is { off ≡ off_coming subject.now self.now micros byte }
        ensures { result ≡ heartbeat_findings subject.now self.now answer micros byte }
    {
        let is_repeated = self.is_repeated(subject, micros, byte);
        Findings::of(
            self.nmt.boot_finding(&subject.limits, micros),
            self.late_coming(subject, micros).or(off),
            answer,
            frame,
            self.control_judged(subject) && !is_repeated,
        )
    }

    /// The difference of an answer, an EMCY or a TPDO, where the device's heartbeat is missing; `own`: the
    /// frame is surely the device's. The first that shows a late heartbeat is noted; what is missing
    /// isn't said again until the next heartbeat.
    pub(crate) fn notice_late(
        &mut self,
        subject: &Subject,
        own: bool,
        micros: u64,
    ) -> Option<Finding>
        ensures finding { result ≡ late_by subject.now self.old own micros }
        ensures progress { self.new ≡ record self.old {
          heartbeats = heartbeats_by subject.now self.old own micros;
        } }
    {
        if !own {
            return None;
        }
        let is_missing = self
            .heartbeats
            .is_missing(&subject.limits, &self.entries, self.free);
        let late = self.late_at(subject, micros);
        if late.is_some() {
            self.heartbeats.note_shown(micros);
        }
        if !is_missing {
            return None;
        }
        if late.is_some() {
            self.heartbeats.since = None;
        }
        late
    }

    /// A heartbeat.
    #[tactic(auto, unfolding(crate::specs::NmtFrames::control_findings, crate::specs::NmtFrames::after_control))]
    pub(crate) fn take_heartbeat(&mut self, subject: &Subject, micros: u64, byte: u8) -> Findings
        ensures findings { result ≡ control_findings subject.now self.old micros byte }
        ensures progress { self.new ≡ after_control subject.now self.old micros byte }
    {
        let limits = &subject.limits;
        let answer = silence_finding(
            limits,
            self.started,
            &self.nmt,
            &self.dialogue,
            micros,
            byte,
        );
        let early = self.comes_early(subject, micros, byte);
        let frame = self.byte_finding(subject, micros, byte);
        let aside = self.comes_aside(subject, micros, byte);
        let off = self.heartbeats.off_finding(&self.entries, aside, byte);
        let findings = self.heartbeat_findings(subject, answer, frame, off, micros, byte);
        let slow = self
            .heartbeats
            .slow_after(limits, &self.entries, self.free, micros);
        let former = self
            .heartbeats
            .former_after(limits, aside, self.entries.period, self.free);
        let awaited = self
            .heartbeats
            .awaited_after(&self.entries, former, off.is_some());
        self.remark = self
            .heartbeats
            .early_remark(limits, &self.entries, self.earlier, micros, byte);
        let odd = self.nmt.odd_after(frame, byte);
        let next = self
            .nmt
            .after_control(limits, self.started, self.free, micros, byte);
        let guarded = self.heartbeats.guarded;
        self.nmt = self.nmt.after_turn(
            subject,
            self.started,
            guarded,
            early,
            self.free,
            byte,
            next,
        );
        self.nmt.odd = odd;
        self.heartbeats = self.heartbeats.after_control(self.free, micros, byte);
        self.heartbeats.awaited = awaited;
        self.heartbeats.slow = slow;
        self.heartbeats.former = former;
        if byte != 5 {
            self.pdos.command();
        }
        if answer.is_some() {
            self.dialogue.give_up(micros);
        }
        findings
    }

    /// Error control of another number of bytes than one.
    #[tactic(auto, unfolding(crate::specs::NmtFrames::after_odd_control))]
    pub(crate) fn take_odd_control(
        &mut self,
        subject: &Subject,
        micros: u64,
        length: u8,
    ) -> Findings
        ensures findings { result ≡ odd_control_findings subject.now self.old micros length }
        ensures progress { self.new ≡ after_length subject.now self.old micros length }
    {
        let limits = &subject.limits;
        let boot = self.nmt.boot_finding(limits, micros);
        let heartbeat = self.late_coming(subject, micros);
        let frame = self.nmt.odd_finding(length);
        let is_repeated = self.nmt.is_same_length(length);
        self.nmt = self.nmt.after_other(limits, micros);
        self.nmt.odd = Some(Odd::Length(length));
        self.heartbeats.since = Some(micros);
        self.heartbeats.awaited = Since::Heartbeat;
        self.heartbeats.sent = None;
        Findings::of(boot, heartbeat, None, frame, !is_repeated)
    }
}
