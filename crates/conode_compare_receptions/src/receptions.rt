//! What RPDOs write to the entries that are held to what was written (CiA 301, 7.2.2 and 7.3.2.2.3).

ghost use Rattle.std.specs.Prelude.{◌≡◌, true, map};
ghost use Rattle.std.specs.List.{AllPairs};
ghost use Rattle.co_sheet.specs.SheetViews.{row_view};
ghost use Rattle.co_value.specs.Keys.{is_key_before};
ghost use Rattle.conode_record.specs.Grammar.{IsIdentifier};
ghost use Rattle.conode_compare_receptions.specs.Receptions.{
  booted_receptions,
  commanded,
  controlled,
  holds_none,
  no_receptions,
  receptions_at,
  receptions_with,
  unless_asked,
  with_beat,
  with_receptions,
  with_written,
  without_brought,
};

use crate::other_ids::{OtherIds, has_further_ids};
use co_frame::NmtService;
use co_sheet::EntryRow;
use conode_compare_nmt::{Subject, is_reset};
use conode_compare_pdos::{Rpdos, has_few_rpdos};
use conode_compare_rules::{FrameKind, Progress};
use conode_compare_values::{RpdoWrites, Written};
use conode_record::{Content, Identifier};

/// What a recording shows of what RPDOs write to the entries that are held.
#[derive(Clone, Copy)]
pub struct Receptions {
    /// What is known of the RPDOs.
    pub rpdos: Rpdos,
    /// What is known of the other identifiers of the device.
    pub others: OtherIds,
    /// What is known of the entries.
    pub writes: RpdoWrites,
    /// Whether RPDOs are followed: there are none but the first four, nor other TPDOs or SDO channels,
    /// and nothing that they received may still take effect.
    pub followed: bool,
    /// Whether a download may be open.
    pub writing: bool,
    /// The stamp of the newest frame that may have been an RPDO.
    pub touched: Option<u64>,
    /// When the bus was free before the newest heartbeat, if that shows the device operational.
    pub operational: Option<u64>,
}

fn holds_none(subject: &Subject) -> bool
    ensures { result ≡ holds_none subject.now }
{
    subject.held.entries.is_empty()
}

impl Receptions {
    /// Nothing is known.
    #[tactic(auto, unfolding(crate::specs::Receptions::no_receptions))]
    pub fn none() -> Receptions
        ensures { result ≡ no_receptions }
    {
        Receptions {
            rpdos: Rpdos::unknown(),
            others: OtherIds::unknown(),
            writes: RpdoWrites::none(),
            followed: false,
            writing: true,
            touched: None,
            operational: None,
        }
    }

    // The device booted up.
    #[tactic(auto, unfolding(crate::specs::Receptions::booted_receptions))]
    fn booted(subject: &Subject, rows: &[EntryRow<'_>]) -> Receptions
        requires { AllPairs (λ e f. is_key_before e.key f.key ≡ true) rows.now }
        ensures { result ≡ booted_receptions subject.now (map row_view rows.now) }
    {
        Receptions {
            rpdos: Rpdos::of(rows, subject.node, subject.facts.as_sheet),
            others: OtherIds::of(rows, subject.node, subject.facts.as_sheet),
            writes: RpdoWrites::none(),
            followed: !subject.facts.starts_itself
                && !subject.facts.modular
                && has_few_rpdos(rows)
                && !has_further_ids(rows),
            writing: false,
            touched: None,
            operational: None,
        }
    }

    // What is known of the entries is what the recording shows.
    pub(crate) fn set_written(&mut self, written: Written)
        ensures { self.new ≡ with_written self.old written }
    {
        self.writes.written = written;
    }

    // Nothing is known of what RPDOs brought.
    fn forget_brought(&mut self)
        ensures { self.new ≡ without_brought self.old }
    {
        self.writes.forget_values();
        self.operational = None;
    }

    // A heartbeat came.
    fn take_beat(&mut self, free: u64, byte: u8)
        ensures { self.new ≡ with_beat self.old free byte }
    {
        if byte == 5 {
            self.operational = Some(free);
        } else {
            self.forget_brought();
        }
    }

    // RPDOs aren't followed where a client asked to write their parameters right before the boot-up.
    fn forbid_asked(&mut self, asked: bool)
        ensures { self.new ≡ unless_asked asked self.old }
    {
        self.followed = self.followed && !asked;
    }

    // A boot-up or a heartbeat came.
    fn take_control(
        &mut self,
        subject: &Subject,
        rows: &[EntryRow<'_>],
        progress: &Progress,
        byte: u8,
    )
        requires { AllPairs (λ e f. is_key_before e.key f.key ≡ true) rows.now }
        ensures { self.new
            ≡ controlled subject.now (map row_view rows.now) self.old progress.now byte }
    {
        if byte == 0 {
            *self = Receptions::booted(subject, rows);
            self.forbid_asked(progress.was_asked(subject));
        } else {
            self.take_beat(progress.free, byte);
            self.set_written(progress.written);
        }
    }

    // A command came.
    fn take_command(&mut self, progress: &Progress, service: NmtService)
        ensures { self.new ≡ commanded self.old progress.now service }
    {
        if is_reset(service) {
            *self = Receptions::none();
        } else {
            self.forget_brought();
            self.set_written(progress.written);
        }
    }

    // A frame, once what isn't known any more is forgotten.
    fn take_kind(
        &mut self,
        subject: &Subject,
        rows: &[EntryRow<'_>],
        progress: &Progress,
        micros: u64,
        kind: &FrameKind,
        id: Identifier,
        content: &Content<'_>,
    )
        requires rows { AllPairs (λ e f. is_key_before e.key f.key ≡ true) rows.now }
        requires id { IsIdentifier id }
        ensures { self.new ≡ receptions_at
            subject.now (map row_view rows.now) self.old progress.now micros kind.now id content.now }
    {
        match kind {
            FrameKind::Control(byte) => self.take_control(subject, rows, progress, *byte),
            FrameKind::OddControl(_) => {
                self.forget_brought();
                self.set_written(progress.written);
            }
            FrameKind::Command(service)
            | FrameKind::CommandToAll(service)
            | FrameKind::LongCommand(service) => {
                self.take_command(progress, *service);
            }
            FrameKind::Sdo(side, frame) => self.take_sdo(subject, progress, micros, *side, frame),
            FrameKind::Emergency(_, _)
            | FrameKind::OddEmergency(_)
            | FrameKind::Process(_, _)
            | FrameKind::Other => {
                self.take_frame(subject, rows, progress, micros, id, content);
            }
            FrameKind::Polled(_) | FrameKind::Guarding | FrameKind::Fault => {}
        }
    }

    /// Takes a frame of the recording with its stamp in microseconds, by what it is to the device, and
    /// after what the recording shows with it, which has then what is known of the entries that are
    /// held; `rows` are the data sheet's entries, in increasing key.
    #[tactic(auto, unfolding(crate::specs::Receptions::receptions_with, crate::specs::Receptions::with_receptions))]
    pub fn take(
        &mut self,
        subject: &Subject,
        rows: &[EntryRow<'_>],
        progress: &mut Progress,
        micros: u64,
        kind: &FrameKind,
        id: Identifier,
        content: &Content<'_>,
    )
        requires rows { AllPairs (λ e f. is_key_before e.key f.key ≡ true) rows.now }
        requires id { IsIdentifier id }
        ensures receptions { self.new ≡ receptions_with subject.now (map row_view rows.now)
            self.old progress.old micros kind.now id content.now }
        ensures progress { progress.new ≡ with_receptions subject.now progress.old self.new }
    {
        if holds_none(subject) {
            return;
        }
        if progress.is_begun() {
            *self = Receptions::none();
        }
        self.take_kind(subject, rows, progress, micros, kind, id, content);
        progress.written = self.writes.written;
    }
}
