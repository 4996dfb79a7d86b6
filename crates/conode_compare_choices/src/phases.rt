//! At which SYNC a TPDO of type 1 to 240 is sent first (CiA 301, 7.2.2.2 and 7.5.2.37).

ghost use Rattle.std.specs.Prelude.{◌≡◌, ◌<◌, true, false, map};
ghost use Rattle.std.specs.List.{AllPairs};
ghost use Rattle.co_sheet.specs.SheetViews.{row_view};
ghost use Rattle.co_value.specs.Keys.{is_key_before};
ghost use Rattle.conode_compare_choices.specs.Phases.{
  after_command,
  after_data,
  after_exchange,
  after_frame,
  after_kind,
  after_request,
  booted_phase,
  booted_phases,
  early,
  framed,
  has_presets,
  is_idle,
  is_open,
  left,
  no_phase,
  no_phases,
  phase_choice,
  phases_with,
  requested,
  seen,
  seen_in,
  start_key,
  started,
  synced,
};

use crate::choice::Choice;
use co_frame::{Frame, NmtService};
use co_profile::SYNC_START_VALUE;
use co_sheet::EntryRow;
use co_sheet_changes::row_at;
use co_value::Key;
use conode_compare_nmt::{NmtState, Subject};
use conode_compare_pdos::{Pdos, Tpdo, is_id, number_of};
use conode_compare_rules::{FrameKind, Progress};
use conode_compare_transfers::{Exchange, asks_to_write, is_timed, key_in};
use conode_explain_transfers::{Side, What};

/// Whether it is open at which SYNC a TPDO is sent first, and whether that frame is awaited.
#[derive(Clone, Copy)]
pub struct Phase {
    /// Whether no SYNC start value is in force.
    pub free: bool,
    /// Whether its first frame since the device entered operational is awaited.
    pub awaited: bool,
}

/// What a recording shows of the first four TPDOs since the device entered operational.
#[derive(Clone, Copy)]
pub struct Phases {
    /// Whether the device is known to be pre-operational or stopped.
    pub idle: bool,
    /// How many SYNCs came since it entered operational, up to 255.
    pub syncs: u8,
    /// By 1800h.
    pub first: Phase,
    /// By 1801h.
    pub second: Phase,
    /// By 1802h.
    pub third: Phase,
    /// By 1803h.
    pub fourth: Phase,
}

/// Whether after a boot-up entries have what the data sheet says, and no client of another SDO
/// channel may write them.
pub(crate) fn has_presets(subject: &Subject) -> bool
    ensures { result ≡ has_presets subject.now }
{
    let clients = subject.facts.clients;
    subject.facts.pdos.first.parameters.timer.is_some() && clients.highest < clients.lowest
}

/// Whether the state is pre-operational or stopped.
pub(crate) fn is_idle(state: NmtState) -> bool
    ensures { result ≡ is_idle state }
{
    matches!(state, NmtState::PreOperational | NmtState::Stopped)
}

fn start_key(number: u8) -> Key
    ensures { result ≡ start_key number }
{
    Key {
        index: 0x1800 + number as u16,
        sub: SYNC_START_VALUE,
    }
}

// whether after a boot-up no SYNC start value of a TPDO is in force
fn is_open(subject: &Subject, rows: &[EntryRow<'_>], number: u8) -> bool
    requires { AllPairs (λ e f. is_key_before e.key f.key ≡ true) rows.now }
    ensures { result ≡ is_open subject.now (map row_view rows.now) number }
{
    match row_at(rows, start_key(number)) {
        Some(row) => has_presets(subject) && number_of(subject.node, row.default) == Some(0),
        None => true,
    }
}

// the choice where a frame of a TPDO of this type comes after so many SYNCs
fn early(syncs: u8, number: u8, kind: u8) -> Option<Choice>
    requires { number < 4 }
    ensures { result ≡ early syncs number kind }
{
    if 0 < syncs && syncs < kind && kind <= 240 {
        Some(Choice::Phase(number + 1, syncs, kind))
    } else {
        None
    }
}

impl Phase {
    // Nothing is known.
    fn unknown() -> Phase
        ensures { result ≡ no_phase }
    {
        Phase {
            free: false,
            awaited: false,
        }
    }

    // The device booted up; `asked`: a client asked to write an entry right before.
    fn booted(subject: &Subject, asked: bool, rows: &[EntryRow<'_>], number: u8) -> Phase
        requires { AllPairs (λ e f. is_key_before e.key f.key ≡ true) rows.now }
        ensures { result ≡ booted_phase subject.now asked (map row_view rows.now) number }
    {
        Phase {
            free: !asked && is_open(subject, rows, number),
            awaited: false,
        }
    }

    // Its first frame is awaited.
    fn started(self) -> Phase
        ensures { result ≡ record self { awaited = self.free } }
    {
        Phase {
            free: self.free,
            awaited: self.free,
        }
    }

    // No frame of it is awaited.
    fn left(self) -> Phase
        ensures { result ≡ record self { awaited = false } }
    {
        Phase {
            free: self.free,
            awaited: false,
        }
    }

    // A frame with this identifier came, or a remote frame.
    fn after_frame(self, pdo: &Tpdo, id: u16) -> Phase
        ensures { result ≡ after_frame pdo.now id self }
    {
        if is_id(pdo.parameters.id, id) {
            self.left()
        } else {
            self
        }
    }

    // A download to this entry is requested.
    fn after_request(self, key: Key, number: u8) -> Phase
        ensures { result ≡ after_request key number self }
    {
        if !is_timed(key) {
            return Phase::unknown();
        }
        if key.index < 0x1800 || 0x1C00 <= key.index {
            return self;
        }
        Phase {
            free: self.free && key != start_key(number),
            awaited: false,
        }
    }

    // the choice where a frame with this identifier comes after so many SYNCs
    fn seen(self, syncs: u8, id: u16, number: u8, pdo: &Tpdo) -> Option<Choice>
        requires { number < 4 }
        ensures { result ≡ seen syncs id number pdo.now self }
    {
        if self.awaited && is_id(pdo.parameters.id, id) {
            match pdo.parameters.kind {
                Some(kind) => early(syncs, number, kind),
                None => None,
            }
        } else {
            None
        }
    }
}

impl Phases {
    /// Nothing is known.
    pub(crate) fn unknown() -> Phases
        ensures { result ≡ no_phases }
    {
        Phases {
            idle: false,
            syncs: 0,
            first: Phase::unknown(),
            second: Phase::unknown(),
            third: Phase::unknown(),
            fourth: Phase::unknown(),
        }
    }

    // The device booted up; `asked`: a client asked to write an entry right before.
    fn boot(&mut self, subject: &Subject, asked: bool, rows: &[EntryRow<'_>])
        requires { AllPairs (λ e f. is_key_before e.key f.key ≡ true) rows.now }
        ensures { self.new ≡ booted_phases subject.now asked (map row_view rows.now) self.old }
    {
        self.first = Phase::booted(subject, asked, rows, 0);
        self.second = Phase::booted(subject, asked, rows, 1);
        self.third = Phase::booted(subject, asked, rows, 2);
        self.fourth = Phase::booted(subject, asked, rows, 3);
    }

    // The first frames are awaited from now on.
    fn start(&mut self)
        ensures { self.new ≡ started self.old }
    {
        self.syncs = 0;
        self.first = self.first.started();
        self.second = self.second.started();
        self.third = self.third.started();
        self.fourth = self.fourth.started();
    }

    // No frame is awaited.
    fn leave(&mut self)
        ensures { self.new ≡ left self.old }
    {
        self.first = self.first.left();
        self.second = self.second.left();
        self.third = self.third.left();
        self.fourth = self.fourth.left();
    }

    // A frame with this identifier came, or a remote frame.
    fn take_frame(&mut self, pdos: &Pdos, id: u16)
        ensures { self.new ≡ framed pdos.now id self.old }
    {
        self.first = self.first.after_frame(&pdos.first, id);
        self.second = self.second.after_frame(&pdos.second, id);
        self.third = self.third.after_frame(&pdos.third, id);
        self.fourth = self.fourth.after_frame(&pdos.fourth, id);
    }

    // A download to this entry is requested.
    fn take_request(&mut self, key: Key)
        ensures { self.new ≡ requested key self.old }
    {
        self.first = self.first.after_request(key, 0);
        self.second = self.second.after_request(key, 1);
        self.third = self.third.after_request(key, 2);
        self.fourth = self.fourth.after_request(key, 3);
    }

    // A SYNC came.
    fn sync(&mut self)
        ensures { self.new ≡ synced self.old }
    {
        if self.syncs < 255 {
            self.syncs += 1;
        }
    }

    // A data frame came: a SYNC, or one that may be of a TPDO.
    fn take_data(&mut self, pdos: &Pdos, id: u16)
        ensures { self.new ≡ after_data pdos.now id self.old }
    {
        if is_id(pdos.sync, id) {
            self.sync();
        } else {
            self.take_frame(pdos, id);
        }
    }

    // A command came.
    fn take_command(&mut self, subject: &Subject, service: NmtService, state: NmtState)
        ensures { self.new ≡ after_command subject.now self.old service state }
    {
        if matches!(service, NmtService::Start)
            && self.idle
            && state.is_operational()
            && !subject.facts.starts_itself
        {
            self.start();
        }
    }

    // A client's frame of the SDO channel came.
    fn take_exchange(&mut self, frame: &Frame, exchange: &Option<Exchange>)
        ensures { self.new ≡ after_exchange frame.now exchange.now self.old }
    {
        if let Some(exchange) = exchange {
            match exchange.heard.what {
                What::Initiate if asks_to_write(frame) => self.take_request(key_in(frame)),
                _ => {}
            }
        }
    }

    // A frame came, by what it is to the device, and what the recording shows with it.
    fn take_kind(
        &mut self,
        subject: &Subject,
        rows: &[EntryRow<'_>],
        kind: &FrameKind,
        progress: &Progress,
    )
        requires { AllPairs (λ e f. is_key_before e.key f.key ≡ true) rows.now }
        ensures { self.new
            ≡ after_kind subject.now (map row_view rows.now) self.old kind.now progress.now }
    {
        match kind {
            FrameKind::Control(0) => self.boot(subject, progress.was_asked(subject), rows),
            FrameKind::Command(service) => self.take_command(subject, *service, progress.state()),
            FrameKind::CommandToAll(service) => {
                self.take_command(subject, *service, progress.state())
            }
            FrameKind::Process(id, _) => self.take_data(progress.pdos(), *id),
            FrameKind::Polled(id) => self.take_frame(progress.pdos(), *id),
            FrameKind::Sdo(Side::Client, frame) => self.take_exchange(frame, &progress.exchange),
            _ => {}
        }
    }

    /// Takes a frame, by what it is to the device, and what the recording shows with it; `rows` are
    /// the data sheet's entries, in increasing key.
    #[tactic(auto, unfolding(crate::specs::Phases::phases_with))]
    pub(crate) fn take(
        &mut self,
        subject: &Subject,
        rows: &[EntryRow<'_>],
        kind: &FrameKind,
        progress: &Progress,
    )
        requires { AllPairs (λ e f. is_key_before e.key f.key ≡ true) rows.now }
        ensures { self.new
            ≡ phases_with subject.now (map row_view rows.now) self.old kind.now progress.now }
    {
        self.take_kind(subject, rows, kind, progress);
        let state = progress.state();
        if !state.is_operational() {
            self.leave();
        }
        self.idle = is_idle(state);
    }

    // the choice where a frame with this identifier comes
    fn seen(&self, pdos: &Pdos, id: u16) -> Option<Choice>
        ensures { result ≡ seen_in self.now pdos.now id }
    {
        self.first
            .seen(self.syncs, id, 0, &pdos.first)
            .or(self.second.seen(self.syncs, id, 1, &pdos.second))
            .or(self.third.seen(self.syncs, id, 2, &pdos.third))
            .or(self.fourth.seen(self.syncs, id, 3, &pdos.fourth))
    }

    /// `choice-phase`, by what a frame is to the device, and what the recording shows with it.
    #[tactic(auto, unfolding(crate::specs::Phases::phase_choice))]
    pub(crate) fn choice(&self, kind: &FrameKind, progress: &Progress) -> Option<Choice>
        ensures { result ≡ phase_choice self.now kind.now progress.now }
    {
        match kind {
            FrameKind::Process(id, _) if progress.pdos().sync.is_some() => {
                self.seen(progress.pdos(), *id)
            }
            _ => None,
        }
    }
}
