//! RPDOs and SYNCs of another length, and the EMCY that our device sends for each (CiA 301, 7.2.7.1
//! and 7.2.2).

ghost use Rattle.std.specs.Prelude.{◌≡◌, true, map};
ghost use Rattle.std.specs.List.{AllPairs};
ghost use Rattle.co_sheet.specs.SheetViews.{row_view};
ghost use Rattle.co_value.specs.Keys.{is_key_before};
ghost use Rattle.conode_compare_choices.specs.LengthErrors.{
  after_control,
  after_data,
  after_exchange,
  after_kind,
  after_request,
  answers,
  awaited_after,
  awaited_still,
  awaited_with,
  booted_errors,
  choice_of,
  code_of,
  emergency_choice,
  error_choice,
  error_in,
  errors_with,
  is_missing,
  is_settled,
  is_taken,
  length_error,
  may_send,
  missing_choice,
  no_errors,
  rpdo_error,
  rpdo_id,
  rpdo_of,
  rpdos_error,
  sends_emergencies,
  stamp_of,
  sync_error,
  sync_length,
  unknown_rpdo,
  without_rpdos,
};

use crate::choice::Choice;
use crate::length_error::LengthError;
use crate::phases::has_presets;
use co_frame::Frame;
use co_profile::keys::SYNC_COUNTER_OVERFLOW;
use co_profile::{PDO_COB_ID, TRANSMISSION_TYPE};
use co_sheet::EntryRow;
use co_sheet_changes::row_at;
use co_value::Key;
use conode_compare_nmt::{Limits, NmtState, Subject};
use conode_compare_pdos::{identifier_of, is_id, length_of, number_of, preset_at};
use conode_compare_rules::{FrameKind, Progress};
use conode_compare_transfers::{Exchange, asks_to_write, is_past, is_timed, key_in};
use conode_explain_transfers::{Side, What};

/// An RPDO by the data sheet.
#[derive(Clone, Copy)]
pub struct Rpdo {
    /// Its identifier, where it exists, and our device takes its transmission type.
    pub id: Option<u16>,
    /// How many bytes it maps.
    pub length: Option<u8>,
}

/// A frame of another length whose EMCY is awaited.
#[derive(Clone, Copy)]
pub struct Awaited {
    /// What it was.
    pub error: LengthError,
    /// Its stamp, or that of a newer EMCY, after which the inhibit time counts.
    pub micros: u64,
}

/// Which lengths are right, as far as the data sheet and a recording show them, and the EMCY that
/// is awaited for another one.
#[derive(Clone, Copy)]
pub struct LengthErrors {
    /// How many bytes a SYNC has.
    pub sync: Option<u8>,
    /// The stamp of the boot-up, or of a newer command.
    pub settled: Option<u64>,
    /// By 1400h and 1600h.
    pub first: Rpdo,
    /// By 1401h and 1601h.
    pub second: Rpdo,
    /// By 1402h and 1602h.
    pub third: Rpdo,
    /// By 1403h and 1603h.
    pub fourth: Rpdo,
    /// The first frame of another length whose EMCY didn't come.
    pub awaited: Option<Awaited>,
}

// an EMCY of the protocol
const PROTOCOL_ERROR: u16 = 0x8200;

fn code_of(error: LengthError) -> u16
    ensures { result ≡ code_of error }
{
    match error {
        LengthError::ShortRpdo => 0x8210,
        LengthError::LongRpdo => 0x8220,
        LengthError::OddSync => 0x8240,
    }
}

// how many bytes a SYNC has, by 1019:00
fn sync_length(rows: &[EntryRow<'_>], node: u8) -> Option<u8>
    requires { AllPairs (λ e f. is_key_before e.key f.key ≡ true) rows.now }
    ensures { result ≡ sync_length (map row_view rows.now) node }
{
    match row_at(rows, SYNC_COUNTER_OVERFLOW) {
        Some(row) => match number_of(node, row.default) {
            Some(0) => Some(0),
            Some(_) => Some(1),
            None => None,
        },
        None => Some(0),
    }
}

// whether our device takes RPDOs of a transmission type
fn is_taken(kind: Option<u64>) -> bool
    ensures { result ≡ is_taken kind }
{
    match kind {
        Some(kind) => kind <= 240 || kind == 254 || kind == 255,
        None => false,
    }
}

// the identifier of an RPDO
fn rpdo_id(rows: &[EntryRow<'_>], node: u8, number: u8) -> Option<u16>
    requires { AllPairs (λ e f. is_key_before e.key f.key ≡ true) rows.now }
    ensures { result ≡ rpdo_id (map row_view rows.now) node number }
{
    let index = 0x1400 + number as u16;
    let kind = Key {
        index,
        sub: TRANSMISSION_TYPE,
    };
    if !is_taken(preset_at(rows, node, kind)) {
        return None;
    }
    let cob_id = Key {
        index,
        sub: PDO_COB_ID,
    };
    match preset_at(rows, node, cob_id) {
        Some(value) => identifier_of(value),
        None => None,
    }
}

fn length_error(length: u8, mapped: u8) -> Option<LengthError>
    ensures { result ≡ length_error length mapped }
{
    if length < mapped {
        Some(LengthError::ShortRpdo)
    } else if mapped < length {
        Some(LengthError::LongRpdo)
    } else {
        None
    }
}

fn sync_error(length: u8, right: u8) -> Option<LengthError>
    ensures { result ≡ sync_error length right }
{
    if length == right {
        None
    } else {
        Some(LengthError::OddSync)
    }
}

// whether an EMCY with a code stands for the awaited one
fn answers(code: u16, awaited: Awaited) -> bool
    ensures { result ≡ answers code awaited }
{
    code == code_of(awaited.error) || code == PROTOCOL_ERROR
}

// what is awaited after a frame
fn awaited_with(
    micros: u64,
    awaited: Option<Awaited>,
    error: Option<LengthError>,
) -> Option<Awaited>
    ensures { result ≡ awaited_with micros awaited error }
{
    match (awaited, error) {
        (Some(awaited), _) => Some(awaited),
        (None, Some(error)) => Some(Awaited { error, micros }),
        (None, None) => None,
    }
}

// what is awaited after an EMCY
fn awaited_after(code: u16, micros: u64, awaited: Option<Awaited>) -> Option<Awaited>
    ensures { result ≡ awaited_after code micros awaited }
{
    match awaited {
        Some(awaited) if !answers(code, awaited) => Some(Awaited {
            error: awaited.error,
            micros,
        }),
        _ => None,
    }
}

fn emergency_choice(code: u16, awaited: Option<Awaited>) -> Option<Choice>
    ensures { result ≡ emergency_choice code awaited }
{
    match awaited {
        Some(awaited) if code == PROTOCOL_ERROR => Some(Choice::OtherEmergency(awaited.error)),
        _ => None,
    }
}

// whether an EMCY didn't come in time
fn is_missing(limits: &Limits, inhibit: Option<u16>, micros: u64, awaited: Awaited) -> bool
    ensures { result ≡ is_missing limits.now inhibit micros awaited }
{
    match inhibit {
        Some(time) => {
            is_past(awaited.micros, limits.answer, micros)
                && is_past(awaited.micros, (time / 5) as u32, micros)
        }
        None => false,
    }
}

fn missing_choice(
    limits: &Limits,
    inhibit: Option<u16>,
    micros: u64,
    awaited: Option<Awaited>,
) -> Option<Choice>
    ensures { result ≡ missing_choice limits.now inhibit micros awaited }
{
    let Some(awaited) = awaited else {
        return None;
    };
    if is_missing(limits, inhibit, micros, awaited) {
        Some(Choice::NoEmergency(awaited.error, micros.saturating_sub(awaited.micros)))
    } else {
        None
    }
}

// what is awaited after a heartbeat
fn awaited_still(
    limits: &Limits,
    inhibit: Option<u16>,
    micros: u64,
    awaited: Option<Awaited>,
) -> Option<Awaited>
    ensures { result ≡ awaited_still limits.now inhibit micros awaited }
{
    let Some(awaited) = awaited else {
        return None;
    };
    if is_missing(limits, inhibit, micros, awaited) {
        None
    } else {
        Some(awaited)
    }
}

fn sends_emergencies(state: NmtState) -> bool
    ensures { result ≡ sends_emergencies state }
{
    matches!(state, NmtState::PreOperational | NmtState::Operational)
}

// whether the device sends EMCY, on its default identifier
fn may_send(progress: &Progress) -> bool
    ensures { result ≡ may_send progress.now }
{
    progress.entries().emergencies && sends_emergencies(progress.state())
}

// the stamp of the newest frame
fn stamp_of(progress: &Progress) -> u64
    ensures { result ≡ stamp_of progress.now }
{
    match progress.newest {
        Some(micros) => micros,
        None => 0,
    }
}

impl Rpdo {
    // Nothing is known of it.
    fn unknown() -> Rpdo
        ensures { result ≡ unknown_rpdo }
    {
        Rpdo {
            id: None,
            length: None,
        }
    }

    // What the data sheet has of it.
    fn of(rows: &[EntryRow<'_>], node: u8, number: u8) -> Rpdo
        requires { AllPairs (λ e f. is_key_before e.key f.key ≡ true) rows.now }
        ensures { result ≡ rpdo_of (map row_view rows.now) node number }
    {
        Rpdo {
            id: rpdo_id(rows, node, number),
            length: length_of(rows, node, 0x1600 + number as u16),
        }
    }

    // whether a frame with this identifier is one of it, of another length
    fn error(self, id: u16, length: u8) -> Option<LengthError>
        ensures { result ≡ rpdo_error id length self }
    {
        if is_id(self.id, id) {
            match self.length {
                Some(mapped) => length_error(length, mapped),
                None => None,
            }
        } else {
            None
        }
    }
}

impl LengthErrors {
    /// Nothing is known.
    pub(crate) fn unknown() -> LengthErrors
        ensures { result ≡ no_errors }
    {
        LengthErrors {
            sync: None,
            settled: None,
            first: Rpdo::unknown(),
            second: Rpdo::unknown(),
            third: Rpdo::unknown(),
            fourth: Rpdo::unknown(),
            awaited: None,
        }
    }

    // The device booted up; `asked`: a client asked to write an entry right before.
    #[tactic(auto, unfolding(crate::specs::LengthErrors::booted_errors))]
    fn booted(subject: &Subject, asked: bool, rows: &[EntryRow<'_>], micros: u64) -> LengthErrors
        requires { AllPairs (λ e f. is_key_before e.key f.key ≡ true) rows.now }
        ensures { result ≡ booted_errors subject.now asked (map row_view rows.now) micros }
    {
        if asked || !has_presets(subject) {
            return LengthErrors::unknown();
        }
        LengthErrors {
            sync: sync_length(rows, subject.node),
            settled: Some(micros),
            first: Rpdo::of(rows, subject.node, 0),
            second: Rpdo::of(rows, subject.node, 1),
            third: Rpdo::of(rows, subject.node, 2),
            fourth: Rpdo::of(rows, subject.node, 3),
            awaited: None,
        }
    }

    // Nothing is known of RPDOs any more.
    fn forget_rpdos(&mut self)
        ensures { self.new ≡ without_rpdos self.old }
    {
        self.first = Rpdo::unknown();
        self.second = Rpdo::unknown();
        self.third = Rpdo::unknown();
        self.fourth = Rpdo::unknown();
    }

    // A download to this entry is requested.
    fn take_request(&mut self, key: Key)
        ensures { self.new ≡ after_request key self.old }
    {
        if !is_timed(key) {
            *self = LengthErrors::unknown();
        } else if key == SYNC_COUNTER_OVERFLOW {
            self.sync = None;
        } else if 0x1400 <= key.index && key.index < 0x1800 {
            self.forget_rpdos();
        }
    }

    // whether a frame with this identifier is an RPDO of another length
    fn rpdos_error(&self, id: u16, length: u8) -> Option<LengthError>
        ensures { result ≡ rpdos_error self.now id length }
    {
        self.first
            .error(id, length)
            .or(self.second.error(id, length))
            .or(self.third.error(id, length))
            .or(self.fourth.error(id, length))
    }

    // whether a data frame is a SYNC or an RPDO of another length
    fn error_in(&self, progress: &Progress, id: u16, length: u8) -> Option<LengthError>
        ensures { result ≡ error_in self.now progress.now id length }
    {
        if is_id(progress.pdos().sync, id) {
            match self.sync {
                Some(right) => sync_error(length, right),
                None => None,
            }
        } else if progress.state().is_operational() {
            self.rpdos_error(id, length)
        } else {
            None
        }
    }

    // whether the tolerance is over since the boot-up and the newest command
    fn is_settled(&self, limits: &Limits, micros: u64) -> bool
        ensures { result ≡ is_settled limits.now self.now micros }
    {
        match self.settled {
            Some(settled) => is_past(settled, limits.tolerance, micros),
            None => false,
        }
    }

    // A data frame came.
    fn take_data(&mut self, limits: &Limits, progress: &Progress, id: u16, length: u8, micros: u64)
        ensures { self.new ≡ after_data limits.now progress.now id length micros self.old }
    {
        if self.is_settled(limits, micros) {
            let error = self.error_in(progress, id, length);
            self.awaited = awaited_with(micros, self.awaited, error);
        }
    }

    // A client's frame of the SDO channel came.
    fn take_exchange(&mut self, frame: &Frame, exchange: &Option<Exchange>)
        ensures { self.new ≡ after_exchange frame.now exchange.now self.old }
    {
        if let Some(exchange) = exchange {
            match exchange.heard.what {
                What::Initiate if asks_to_write(frame) => self.take_request(key_in(frame)),
                _ => {}
            }
        }
    }

    // A byte of error control came.
    fn take_control(
        &mut self,
        subject: &Subject,
        rows: &[EntryRow<'_>],
        byte: u8,
        micros: u64,
        progress: &Progress,
    )
        requires { AllPairs (λ e f. is_key_before e.key f.key ≡ true) rows.now }
        ensures { self.new
            ≡ after_control subject.now (map row_view rows.now) byte micros progress.now self.old }
    {
        if byte == 0 {
            *self = LengthErrors::booted(subject, progress.was_asked(subject), rows, micros);
        } else {
            let inhibit = progress.entries().inhibit;
            self.awaited = awaited_still(&subject.limits, inhibit, micros, self.awaited);
        }
    }

    // A frame came, by what it is to the device, and what the recording shows with it.
    fn take_kind(
        &mut self,
        subject: &Subject,
        rows: &[EntryRow<'_>],
        micros: u64,
        kind: &FrameKind,
        progress: &Progress,
    )
        requires { AllPairs (λ e f. is_key_before e.key f.key ≡ true) rows.now }
        ensures { self.new
            ≡ after_kind subject.now (map row_view rows.now) micros kind.now progress.now self.old }
    {
        match kind {
            FrameKind::Control(byte) => self.take_control(subject, rows, *byte, micros, progress),
            FrameKind::Command(_) => self.settled = Some(micros),
            FrameKind::CommandToAll(_) => self.settled = Some(micros),
            FrameKind::LongCommand(_) => self.settled = Some(micros),
            FrameKind::Process(id, length) => {
                self.take_data(&subject.limits, progress, *id, *length, micros)
            }
            FrameKind::Emergency(code, _) => {
                self.awaited = awaited_after(*code, micros, self.awaited)
            }
            FrameKind::Sdo(Side::Client, frame) => self.take_exchange(frame, &progress.exchange),
            _ => {}
        }
    }

    /// Takes a frame, by what it is to the device, and what the recording shows with it; `rows` are
    /// the data sheet's entries, in increasing key.
    #[tactic(auto, unfolding(crate::specs::LengthErrors::errors_with))]
    pub(crate) fn take(
        &mut self,
        subject: &Subject,
        rows: &[EntryRow<'_>],
        kind: &FrameKind,
        progress: &Progress,
    )
        requires { AllPairs (λ e f. is_key_before e.key f.key ≡ true) rows.now }
        ensures { self.new
            ≡ errors_with subject.now (map row_view rows.now) self.old kind.now progress.now }
    {
        self.take_kind(subject, rows, stamp_of(progress), kind, progress);
        if !may_send(progress) {
            self.awaited = None;
        }
    }

    // the choice of a frame at a stamp
    fn choice_of(
        &self,
        subject: &Subject,
        micros: u64,
        kind: &FrameKind,
        progress: &Progress,
    ) -> Option<Choice>
        ensures { result ≡ choice_of subject.now self.now micros kind.now progress.now }
    {
        match kind {
            FrameKind::Emergency(code, _) => emergency_choice(*code, self.awaited),
            FrameKind::Control(byte) if *byte != 0 => {
                let inhibit = progress.entries().inhibit;
                missing_choice(&subject.limits, inhibit, micros, self.awaited)
            }
            _ => None,
        }
    }

    /// `choice-emcy`, by what a frame is to the device, and what the recording shows with it.
    #[tactic(auto, unfolding(crate::specs::LengthErrors::error_choice))]
    pub(crate) fn choice(
        &self,
        subject: &Subject,
        kind: &FrameKind,
        progress: &Progress,
    ) -> Option<Choice>
        ensures { result ≡ error_choice subject.now self.now kind.now progress.now }
    {
        if may_send(progress) {
            self.choice_of(subject, stamp_of(progress), kind, progress)
        } else {
            None
        }
    }
}
