//! The newest error of a device's error history, and the last EMCY.

ghost use Rattle.std.specs.Prelude.{◌≡◌};
ghost use Rattle.conode_compare_notes.specs.Histories.{
  after_upload,
  changes_errors,
  error_warning,
  errors_asked,
  errors_ended,
  errors_heard,
  errors_with,
  is_later,
  is_newest_error,
  late_warning,
  nothing_signalled,
  shown_by,
  shows_error,
  signalled_by,
};

use crate::warning::Warning;
use co_frame::Frame;
use co_value::Key;
use conode_compare_nmt::{Entries, Limits};
use conode_compare_rules::{FrameKind, Progress};
use conode_compare_transfers::{Exchange, asks_to_write, is_past, is_timed, key_in};
use conode_compare_values::{is_done, shown_number};
use conode_explain_transfers::{Direction, Ended, Side, What};

/// An error code, and the stamp of the frame that has it.
#[derive(Clone, Copy)]
pub struct ErrorCode {
    /// The code.
    pub code: u16,
    /// The stamp.
    pub micros: u64,
}

/// The last error that was signalled, and what an upload of 1003:01 showed.
#[derive(Clone, Copy)]
pub struct Errors {
    /// That of the last EMCY, where none is known to have come after it.
    pub signalled: Option<ErrorCode>,
    /// Another one that an upload of 1003:01 showed since, and whose EMCY is awaited.
    pub shown: Option<ErrorCode>,
}

// whether an entry is the newest error, 1003:01
fn is_newest_error(key: Key) -> bool
    ensures { result ≡ is_newest_error key }
{
    key.index == 0x1003 && key.sub == 1
}

// whether a download to an entry may delete the history, or change how EMCY is sent
fn changes_errors(key: Key) -> bool
    ensures { result ≡ changes_errors key }
{
    (0x1003 <= key.index && key.index <= 0x1015) || !is_timed(key)
}

// whether an upload was requested later than an EMCY, and no EMCY waits for an inhibit time
fn is_later(limits: &Limits, entries: Entries, signalled: ErrorCode, ended: &Ended) -> bool
    ensures { result ≡ is_later limits.now entries signalled ended.now }
{
    let waits = match entries.inhibit {
        Some(inhibit) => inhibit != 0,
        None => true,
    };
    entries.emergencies && !waits && is_past(signalled.micros, limits.tolerance, ended.begun)
}

// the code that an upload of 1003:01 shows, if it is another one than that of the last EMCY
fn shown_by(
    limits: &Limits,
    entries: Entries,
    signalled: ErrorCode,
    ended: &Ended,
) -> Option<ErrorCode>
    ensures { result ≡ shown_by limits.now entries signalled ended.now }
{
    if !is_later(limits, entries, signalled, ended) {
        return None;
    }
    let Some(shown) = shown_number(4, ended.first.as_slice()) else {
        return None;
    };
    let code = (shown % 65536) as u16;
    if code == signalled.code {
        return None;
    }
    Some(ErrorCode {
        code,
        micros: ended.end,
    })
}

// whether an upload of 1003:01 is done, and no earlier request can be answered
fn shows_error(certain: bool, ended: &Ended) -> bool
    ensures { result ≡ shows_error certain ended.now }
{
    certain
        && is_done(ended)
        && matches!(ended.direction, Direction::Upload)
        && is_newest_error(ended.key)
}

impl Errors {
    /// Nothing is known.
    pub fn none() -> Errors
        ensures { result ≡ nothing_signalled }
    {
        Errors {
            signalled: None,
            shown: None,
        }
    }

    // An EMCY came; `known`: the frame is known to be one.
    fn signalled_by(known: bool, code: u16, newest: Option<u64>) -> Errors
        ensures { result ≡ signalled_by known code newest }
    {
        match newest {
            Some(micros) if known && 0x100 <= code => Errors {
                signalled: Some(ErrorCode { code, micros }),
                shown: None,
            },
            _ => Errors::none(),
        }
    }

    // after an upload of 1003:01
    fn after_upload(self, limits: &Limits, entries: Entries, ended: &Ended) -> Errors
        ensures { result ≡ after_upload limits.now entries self ended.now }
    {
        let shown = match self.signalled {
            Some(signalled) => shown_by(limits, entries, signalled, ended),
            None => None,
        };
        Errors {
            signalled: self.signalled,
            shown,
        }
    }

    fn after_end(
        self,
        limits: &Limits,
        entries: Entries,
        certain: bool,
        ended: &Option<Ended>,
    ) -> Errors
        ensures { result ≡ errors_ended limits.now entries self certain ended.now }
    {
        match ended {
            Some(ended) if shows_error(certain, ended) => self.after_upload(limits, entries, ended),
            _ => self,
        }
    }

    // after a frame of the SDO channel that may request to write
    fn after_request(self, side: Side, what: What, frame: &Frame) -> Errors
        ensures { result ≡ errors_asked side what frame.now self }
    {
        match (side, what) {
            (Side::Client, What::Initiate)
                if asks_to_write(frame) && changes_errors(key_in(frame)) => { Errors::none() }
            _ => self,
        }
    }

    fn after_exchange(
        self,
        limits: &Limits,
        entries: Entries,
        side: Side,
        frame: &Frame,
        exchange: &Option<Exchange>,
    ) -> Errors
        ensures { result ≡ errors_heard limits.now entries self side frame.now exchange.now }
    {
        match exchange {
            Some(exchange) => {
                let ended = &exchange.heard.ended;
                self.after_end(limits, entries, exchange.certain, ended)
                    .after_request(side, exchange.heard.what, frame)
            }
            None => self,
        }
    }

    // the warning of a heartbeat with a stamp
    fn late_warning(self, limits: &Limits, newest: Option<u64>) -> Option<Warning>
        ensures { result ≡ late_warning limits.now self.signalled self.shown newest }
    {
        match (self.signalled, self.shown, newest) {
            (Some(signalled), Some(shown), Some(micros))
                if is_past(shown.micros, limits.answer, micros) => {
                Some(Warning::OtherError(shown.code, signalled.code))
            }
            _ => None,
        }
    }

    /// The warning of a frame: an upload showed another error than that of the last EMCY, and a
    /// heartbeat comes later than an answer may take, before an EMCY.
    pub(crate) fn warning(
        self,
        limits: &Limits,
        kind: &FrameKind,
        newest: Option<u64>,
    ) -> Option<Warning>
        ensures { result ≡ error_warning limits.now self kind.now newest }
    {
        match kind {
            FrameKind::Control(_) => self.late_warning(limits, newest),
            _ => None,
        }
    }

    /// What is known after a frame, by what the recording shows with it.
    #[tactic(auto, unfolding(crate::specs::Histories::errors_with))]
    pub(crate) fn after(self, limits: &Limits, kind: &FrameKind, progress: &Progress) -> Errors
        ensures { result ≡ errors_with limits.now self kind.now progress.now }
    {
        match kind {
            FrameKind::Emergency(code, _) => {
                Errors::signalled_by(progress.entries().emergencies, *code, progress.newest)
            }
            FrameKind::Sdo(side, frame) => {
                let entries = progress.entries();
                self.after_exchange(limits, entries, *side, frame, &progress.exchange)
            }
            FrameKind::Control(byte) => {
                let warned = self.late_warning(limits, progress.newest).is_some();
                if *byte == 0 || *byte % 128 == 4 || warned {
                    Errors::none()
                } else {
                    self
                }
            }
            FrameKind::OddEmergency(_)
            | FrameKind::Command(_)
            | FrameKind::CommandToAll(_)
            | FrameKind::LongCommand(_) => Errors::none(),
            _ => self,
        }
    }
}
