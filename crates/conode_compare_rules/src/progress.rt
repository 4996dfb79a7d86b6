//! What a recording shows of a device, frame by frame, and its differences.

ghost use Rattle.std.specs.Prelude.{◌≡◌, true, map};
ghost use Rattle.std.specs.List.{AllPairs};
ghost use Rattle.co_sheet.specs.SheetViews.{row_view};
ghost use Rattle.co_value.specs.Keys.{is_key_before};
ghost use Rattle.conode_compare_rules.specs.Gaps.{before_recording};
ghost use Rattle.conode_compare_rules.specs.NmtFrames.{after_command};
ghost use Rattle.conode_compare_rules.specs.EmergencyRules.{
  after_emergency,
  emergency_findings,
  emergency_noted,
  odd_emergency_findings,
};
ghost use Rattle.conode_compare_rules.specs.Progresses.{
  progress_with,
  findings_at,
  findings_in,
  is_end_judged,
  is_number_kept,
  after_frame,
};

use crate::emergencies::length_finding;
use crate::kind::FrameKind;
use crate::verdict::Findings;
use co_frame::NmtService;
use co_sheet::EntryRow;
use conode_compare_nmt::{Entries, Heartbeats, Nmt, Remark, Subject, is_reset};
use conode_compare_pdos::Pdos;
use conode_compare_transfers::{Dialogue, Exchange};
use conode_compare_values::Written;
use conode_explain_transfers::Side;

/// What a recording shows of a device.
#[derive(Drop)]
pub struct Progress {
    /// The stamp of the newest frame.
    pub newest: Option<u64>,
    /// The newest stamp before that one, since the recording began, also anew.
    pub(crate) earlier: Option<u64>,
    /// The stamp of the first frame, or of the first one after a gap.
    pub started: u64,
    /// Whether the recording begins with the newest frame, or begins anew; or that is an error frame.
    pub(crate) begins: bool,
    /// The stamp of the newest frame before a line that is bad, where no frame came since.
    pub(crate) damaged: Option<u64>,
    /// When the bus was free last: the stamp of the first of the frames that follow one another
    /// closely.
    pub free: u64,
    pub(crate) nmt: Nmt,
    pub(crate) heartbeats: Heartbeats,
    pub(crate) entries: Entries,
    /// When the bus was free before its newest EMCY, which may have waited since then.
    pub(crate) emergency: Option<u64>,
    pub(crate) dialogue: Dialogue,
    pub(crate) pdos: Pdos,
    /// Whether a frame came that may be of the client of another SDO channel.
    pub(crate) other_client: bool,
    /// When a client asked last to write an entry of the communication profile.
    pub(crate) asked_at: Option<u64>,
    /// What was written to the entries that are held.
    pub written: Written,
    /// What the newest frame is on its SDO channel, if it is of that.
    pub exchange: Option<Exchange>,
    /// Whether the newest frame of the SDO channel is a wrong answer, which was said, and none came
    /// later.
    pub(crate) wrong: bool,
    /// What else the newest frame shows.
    pub remark: Option<Remark>,
}

impl Progress {
    /// No frame came.
    pub fn new(subject: &Subject) -> Progress
        ensures { result ≡ before_recording subject.now }
    {
        Progress {
            newest: None,
            earlier: None,
            started: 0,
            begins: false,
            damaged: None,
            free: 0,
            nmt: Nmt::new(),
            heartbeats: Heartbeats::new(),
            entries: subject.facts.before,
            emergency: None,
            dialogue: Dialogue::new(),
            pdos: Pdos::unknown(),
            other_client: false,
            asked_at: None,
            written: Written::nothing(),
            exchange: None,
            wrong: false,
            remark: None,
        }
    }

    // A command; `own`: the device needn't follow it, since it may have sent it itself, or it has
    // more than two bytes. After a reset nothing is known of its PDOs until the boot-up, nor of the
    // inhibit time of its EMCY.
    #[tactic(auto, unfolding(crate::specs::NmtFrames::after_command, crate::specs::Gaps::with_gap))]
    fn take_command(&mut self, service: NmtService, own: bool, micros: u64)
        ensures { self.new ≡ after_command self.old service own micros }
    {
        self.nmt = self.nmt.after_command(service, own, micros);
        self.heartbeats.slow = None;
        self.pdos.command();
        if is_reset(service) {
            self.break_off(micros);
            self.entries = self.entries.after_reset();
            self.pdos = Pdos::unknown();
        }
    }

    #[tactic(auto, unfolding(crate::specs::EmergencyRules::after_emergency))]
    fn note_emergency(&mut self)
        ensures { self.new ≡ after_emergency self.old }
    {
        self.emergency = Some(self.free);
        self.nmt.booted = None;
    }

    // an EMCY, by which a heartbeat may be missing
    #[tactic(auto, unfolding(crate::specs::EmergencyRules::emergency_findings, crate::specs::EmergencyRules::after_emergency))]
    fn take_emergency(
        &mut self,
        subject: &Subject,
        micros: u64,
        code: u16,
        register: u8,
    ) -> Findings
        ensures findings { result ≡ emergency_findings subject.now self.old micros code register }
        ensures progress { self.new ≡ emergency_noted subject.now self.old micros }
    {
        let shows = self.shows_by_emergency(subject);
        let follows = self.nmt.has_left_stopped() && shows;
        let frame = self.emergency_difference(subject, micros, code, register);
        let late = self.notice_late(subject, self.entries.emergencies, micros);
        if follows {
            self.nmt.note_followed(micros);
        }
        self.nmt.note_left(shows, micros);
        self.note_emergency();
        Findings::of(None, late, None, frame, self.entries.emergencies)
    }

    // an EMCY of another number of bytes than eight
    #[tactic(auto, unfolding(crate::specs::EmergencyRules::after_emergency))]
    fn take_odd_emergency(&mut self, length: u8) -> Findings
        ensures findings { result ≡ odd_emergency_findings self.old length }
        ensures progress { self.new ≡ after_emergency self.old }
    {
        let frame = length_finding(&self.entries, length);
        self.note_emergency();
        Findings::of(None, None, None, frame, self.entries.emergencies)
    }

    // a frame, once the recording is begun
    fn take_kind(
        &mut self,
        subject: &Subject,
        rows: &[EntryRow<'_>],
        micros: u64,
        kind: &FrameKind,
    ) -> Findings
        requires { AllPairs (λ e f. is_key_before e.key f.key ≡ true) rows.now }
        ensures findings { result
            ≡ findings_in subject.now (map row_view rows.now) self.old micros kind.now }
        ensures progress { self.new ≡ after_frame subject.now self.old micros kind.now }
    {
        match kind {
            FrameKind::Sdo(Side::Server, frame) => {
                return self.take_answer(subject, rows, micros, frame);
            }
            FrameKind::Control(0) => return self.take_boot_up(subject, micros),
            FrameKind::Control(byte) => return self.take_heartbeat(subject, micros, *byte),
            FrameKind::OddControl(length) => return self.take_odd_control(subject, micros, *length),
            FrameKind::Emergency(code, register) => {
                return self.take_emergency(subject, micros, *code, *register);
            }
            FrameKind::OddEmergency(length) => return self.take_odd_emergency(*length),
            FrameKind::Sdo(Side::Client, frame) => {
                return self.take_request(subject, rows, micros, frame);
            }
            FrameKind::Process(id, length) => {
                return self.take_process(subject, micros, *id, *length);
            }
            FrameKind::Polled(id) => self.pdos.poll(*id),
            FrameKind::Command(service) => self.take_command(*service, false, micros),
            FrameKind::CommandToAll(service) => {
                self.take_command(*service, subject.facts.starts_itself, micros)
            }
            FrameKind::LongCommand(service) => self.take_command(*service, true, micros),
            FrameKind::Guarding => self.heartbeats.guarded = true,
            FrameKind::Fault => self.take_fault(micros),
            FrameKind::Other => self.written.forget_mapped(&subject.held),
        }
        Findings::none()
    }

    /// Takes a frame of the recording with its stamp in microseconds, by what it is to the device.
    /// Returns what is found at it; `rows` are the data sheet's entries, in increasing key.
    #[tactic(auto, unfolding(crate::specs::Progresses::findings_at, crate::specs::Progresses::progress_with))]
    pub fn take(
        &mut self,
        subject: &Subject,
        rows: &[EntryRow<'_>],
        micros: u64,
        kind: &FrameKind,
    ) -> Findings
        requires { AllPairs (λ e f. is_key_before e.key f.key ≡ true) rows.now }
        ensures findings { result
            ≡ findings_at subject.now (map row_view rows.now) self.old micros kind.now }
        ensures progress { self.new ≡ progress_with subject.now self.old micros kind.now }
    {
        self.begin(subject, micros);
        self.take_kind(subject, rows, micros, kind)
    }

    /// Whether the newest frame is the end of an upload that could have shown another number than
    /// was written to its entry, which is held, and doesn't.
    pub fn is_number_kept(&self, subject: &Subject) -> bool
        ensures { result ≡ is_number_kept subject.now self.now }
    {
        match &self.exchange {
            Some(exchange) => {
                let ended = &exchange.heard.ended;
                self.written.is_kept(&subject.held, exchange.certain, ended)
            }
            None => false,
        }
    }

    /// Whether the newest frame ends a transfer, and that end is judged: no earlier request can be
    /// answered.
    pub fn is_end_judged(&self) -> bool
        ensures { result ≡ is_end_judged self.now }
    {
        match &self.exchange {
            Some(exchange) => exchange.certain && exchange.heard.ended.is_some(),
            None => false,
        }
    }
}
