//! Warnings: that a device restarted by itself, that it may have stored values, that a value
//! changed after it was written; and those of versions and codes.

ghost use Rattle.std.specs.Prelude.{◌≡◌, IfOk, OnOk, true, map};
ghost use Rattle.std.specs.List.{AllPairs};
ghost use Rattle.co_sheet.specs.SheetViews.{row_view};
ghost use Rattle.co_value.specs.Keys.{is_key_before};
ghost use Rattle.conode_compare_notes.specs.Warnings.{
  after_end,
  after_other,
  after_request,
  changed_warning,
  downloaded,
  end_warning,
  ended_warning,
  exchange_warning,
  exchanged,
  frame_warning,
  is_kept,
  is_plain,
  is_setting,
  is_stored,
  nothing_watched,
  other_warning,
  remark_warning,
  shown_warning,
  stepped_back,
  stored_content,
  stored_warning,
  upload_warning,
  warning_at,
  watched_at,
  watched_with,
  writes_of,
};

use crate::contents::{Content, content_warning, shown_content, written_content};
use crate::history::Errors;
use crate::versions::{code_warning, version_warning};
use crate::warning::Warning;
use crate::writes::Writes;
use co_frame::Frame;
use co_profile::{RESTORE_PARAMETERS, STORE_PARAMETERS};
use co_sheet::EntryRow;
use co_sheet_changes::row_at;
use co_value::Key;
use conode_compare_nmt::{Remark, Subject, is_reset};
use conode_compare_pdos::number_of;
use conode_compare_rules::{FrameKind, Progress};
use conode_compare_transfers::{Exchange, asks_to_write, is_timed, key_in};
use conode_compare_values::{is_done, is_read_only};
use conode_explain_transfers::{Direction, Ended, Side, What};
use std::alloc::{AllocError, Global};

/// What warnings rest on.
#[derive(Drop)]
pub struct Watched {
    /// Whether a value that the device may have stored is looked for: it booted up, and none was
    /// found since.
    pub fresh: bool,
    /// What clients asked to write since.
    pub writes: Writes,
    /// The last error that was signalled, and what 1003:01 showed since.
    pub errors: Errors,
}

// Whether the entries of an object are settings of the communication profile, which a client alone
// writes (CiA 301, 7.5).
fn is_setting(index: u16) -> bool
    ensures { result ≡ is_setting index }
{
    (0x1005 <= index
        && index <= 0x1019
        && !(index == STORE_PARAMETERS || index == RESTORE_PARAMETERS || index == 0x1013))
        || index == 0x1029
        || (0x1200 <= index && index < 0x1C00)
}

// Whether an entry can be written, and keeps its value as far as the data sheet shows.
fn is_kept(row: &EntryRow<'_>) -> bool
    ensures { result ≡ is_kept (row_view row.now) }
{
    !row.mappable
        && !is_read_only(row.access)
        && (is_setting(row.key.index) || 0x2000 <= row.key.index)
}

// an upload shows another content than a download wrote, of an entry that isn't held
fn changed_warning(
    subject: &Subject,
    key: Key,
    shown: Content,
    written: Option<Content>,
) -> Option<Warning>
    ensures { result ≡ changed_warning subject.now key shown written }
{
    if subject.held.entry(key).is_some() {
        return None;
    }
    match written {
        Some(written) => content_warning(key, shown, written),
        None => None,
    }
}

// another number than the data sheet's, of a setting
fn stored_warning(node: u8, row: &EntryRow<'_>, shown: u64) -> Option<Warning>
    ensures { result ≡ stored_warning node (row_view row.now) shown }
{
    if !is_setting(row.key.index) {
        return None;
    }
    match number_of(node, row.default) {
        Some(sheet) if shown != sheet => Some(Warning::Stored(row.key, shown, sheet)),
        _ => None,
    }
}

fn stored_content(node: u8, row: &EntryRow<'_>, shown: Content) -> Option<Warning>
    ensures { result ≡ stored_content node (row_view row.now) shown }
{
    match shown {
        Content::Number(shown) => stored_warning(node, row, shown),
        Content::Bytes(_, _) => None,
    }
}

// whether a transfer is done, and no earlier request can be answered
fn is_plain(certain: bool, ended: &Ended) -> bool
    ensures { result ≡ is_plain certain ended.now }
{
    certain && is_done(ended)
}

// what a download wrote, where that is known
fn downloaded(row: &EntryRow<'_>, certain: bool, ended: &Ended) -> Option<Content>
    ensures { result ≡ downloaded (row_view row.now) certain ended.now }
{
    if is_plain(certain, ended) {
        written_content(row, ended)
    } else {
        None
    }
}

// of a boot-up that is remarked
fn remark_warning(remark: Option<Remark>) -> Option<Warning>
    ensures { result ≡ remark_warning remark }
{
    match remark {
        Some(Remark::Restarted) => Some(Warning::Restarted),
        _ => None,
    }
}

// of a frame that isn't one of the SDO channel
fn other_warning(kind: &FrameKind, progress: &Progress) -> Option<Warning>
    ensures { result
        ≡ other_warning progress.now.entries.emergencies kind.now progress.now.remark }
{
    match kind {
        FrameKind::Emergency(code, register) => {
            code_warning(progress.entries().emergencies, *code, *register)
        }
        _ => remark_warning(progress.remark),
    }
}

/// Whether the stamp of a frame is before that of the last one.
pub fn stepped_back(last: Option<u64>, micros: Option<u64>) -> Option<Warning>
    ensures { result ≡ stepped_back last micros }
{
    match (last, micros) {
        (Some(last), Some(micros)) if micros < last => Some(Warning::SteppedBack(last - micros)),
        _ => None,
    }
}

fn is_stored(warning: Option<Warning>) -> bool
    ensures { result ≡ is_stored warning }
{
    matches!(warning, Some(Warning::Stored(_, _, _)))
}

impl Watched {
    /// Nothing is known.
    pub fn new(alloc: Global) -> Watched
        ensures { result ≡ nothing_watched }
    {
        Watched {
            fresh: false,
            writes: Writes::new(alloc),
            errors: Errors::none(),
        }
    }

    // Nothing is known any more.
    fn forget(&mut self)
        ensures { self.new ≡ nothing_watched }
    {
        self.fresh = false;
        self.writes.clear();
        self.errors = Errors::none();
    }

    // by what an upload shows of an entry
    fn shown_warning(
        &self,
        subject: &Subject,
        row: &EntryRow<'_>,
        shown: Content,
    ) -> Option<Warning>
        ensures { result ≡ shown_warning subject.now self.now (row_view row.now) shown }
    {
        if !is_kept(row) {
            return None;
        }
        match self.writes.content(row.key) {
            Some(written) => changed_warning(subject, row.key, shown, written),
            None if self.fresh => stored_content(subject.node, row, shown),
            None => None,
        }
    }

    // by an upload that is done
    fn upload_warning(
        &self,
        subject: &Subject,
        rows: &[EntryRow<'_>],
        ended: &Ended,
    ) -> Option<Warning>
        requires { AllPairs (λ e f. is_key_before e.key f.key ≡ true) rows.now }
        ensures { result ≡ upload_warning subject.now (map row_view rows.now) self.now ended.now }
    {
        let Some(row) = row_at(rows, ended.key) else {
            return None;
        };
        let Some(shown) = shown_content(row, ended) else {
            return None;
        };
        self.shown_warning(subject, row, shown)
    }

    // by the end of a transfer
    fn ended_warning(
        &self,
        subject: &Subject,
        rows: &[EntryRow<'_>],
        certain: bool,
        ended: &Ended,
    ) -> Option<Warning>
        requires { AllPairs (λ e f. is_key_before e.key f.key ≡ true) rows.now }
        ensures { result
            ≡ ended_warning subject.now (map row_view rows.now) self.now certain ended.now }
    {
        match ended.direction {
            Direction::Upload if is_plain(certain, ended) => {
                self.upload_warning(subject, rows, ended)
            }
            _ => None,
        }
    }

    // Notes the end of a transfer: what a download wrote is compared with the next upload.
    fn note_end(
        &mut self,
        rows: &[EntryRow<'_>],
        certain: bool,
        ended: &Ended,
    ) -> Result<(), AllocError>
        requires { AllPairs (λ e f. is_key_before e.key f.key ≡ true) rows.now }
        ensures { OnOk result (self.new ≡ record self.old {
          writes = writes_of
              (map row_view rows.now) self.old.writes certain ended.now.direction ended.now;
        }) }
    {
        match ended.direction {
            Direction::Download => match row_at(rows, ended.key) {
                Some(row) => self.writes.note(ended.key, downloaded(row, certain, ended)),
                None => Ok(()),
            },
            Direction::Upload => match self.writes.content(ended.key) {
                Some(Some(_)) if is_plain(certain, ended) => self.writes.note(ended.key, None),
                _ => Ok(()),
            },
        }
    }

    // A transfer ended.
    fn take_end(
        &mut self,
        subject: &Subject,
        rows: &[EntryRow<'_>],
        certain: bool,
        ended: &Ended,
    ) -> Result<Option<Warning>, AllocError>
        requires { AllPairs (λ e f. is_key_before e.key f.key ≡ true) rows.now }
        ensures warning { IfOk result (λ warning. warning
            ≡ end_warning subject.now (map row_view rows.now) self.old certain ended.now) }
        ensures next { OnOk result (self.new
            ≡ after_end subject.now (map row_view rows.now) self.old certain ended.now) }
    {
        let warning = self.ended_warning(subject, rows, certain, ended);
        attempt!(self.note_end(rows, certain, ended));
        self.fresh = self.fresh && !is_stored(warning);
        let modular = subject.facts.modular;
        Ok(warning.or(version_warning(subject.node, modular, rows, certain, ended)))
    }

    // A download is requested.
    fn take_request(&mut self, rows: &[EntryRow<'_>], key: Key) -> Result<(), AllocError>
        requires { AllPairs (λ e f. is_key_before e.key f.key ≡ true) rows.now }
        ensures { OnOk result
            (self.new ≡ after_request (map row_view rows.now) self.old key) }
    {
        if !is_timed(key) {
            self.forget();
            Ok(())
        } else if row_at(rows, key).is_some() {
            self.writes.note(key, None)
        } else {
            Ok(())
        }
    }

    // A frame of the SDO channel by an end.
    #[tactic(auto, unfolding(crate::specs::Warnings::exchanged))]
    fn take_exchange(
        &mut self,
        subject: &Subject,
        rows: &[EntryRow<'_>],
        side: Side,
        frame: &Frame,
        exchange: &Exchange,
    ) -> Result<Option<Warning>, AllocError>
        requires { AllPairs (λ e f. is_key_before e.key f.key ≡ true) rows.now }
        ensures warning { IfOk result (λ warning. warning
            ≡ exchange_warning subject.now (map row_view rows.now) self.old exchange.now) }
        ensures next { OnOk result (self.new ≡ exchanged
            subject.now (map row_view rows.now) self.old side frame.now exchange.now) }
    {
        let warning = match &exchange.heard.ended {
            Some(ended) => attempt!(self.take_end(subject, rows, exchange.certain, ended)),
            None => None,
        };
        match (side, exchange.heard.what) {
            (Side::Client, What::Initiate) if asks_to_write(frame) => {
                attempt!(self.take_request(rows, key_in(frame)));
            }
            _ => {}
        }
        Ok(warning)
    }

    // A frame that isn't one of the SDO channel.
    fn take_other(&mut self, subject: &Subject, kind: &FrameKind, progress: &Progress)
        ensures { self.new ≡ after_other subject.now self.old kind.now progress.now }
    {
        match kind {
            FrameKind::Control(0) => {
                self.forget();
                self.fresh = subject.facts.stores && !progress.was_asked(subject);
            }
            FrameKind::Command(service) if is_reset(*service) => self.forget(),
            FrameKind::CommandToAll(service) if is_reset(*service) => self.forget(),
            FrameKind::LongCommand(service) if is_reset(*service) => self.forget(),
            _ => {}
        }
    }

    // A frame, once what isn't known any more is forgotten.
    fn take_kind(
        &mut self,
        subject: &Subject,
        rows: &[EntryRow<'_>],
        kind: &FrameKind,
        progress: &Progress,
    ) -> Result<Option<Warning>, AllocError>
        requires { AllPairs (λ e f. is_key_before e.key f.key ≡ true) rows.now }
        ensures warning { IfOk result (λ warning. warning ≡ frame_warning
            subject.now (map row_view rows.now) self.old kind.now progress.now) }
        ensures next { OnOk result (self.new ≡ watched_at
            subject.now (map row_view rows.now) self.old kind.now progress.now) }
    {
        match (kind, &progress.exchange) {
            (FrameKind::Sdo(side, frame), Some(exchange)) => {
                self.take_exchange(subject, rows, *side, frame, exchange)
            }
            (FrameKind::Sdo(_, _), None) => Ok(None),
            _ => {
                self.take_other(subject, kind, progress);
                Ok(other_warning(kind, progress))
            }
        }
    }

    /// Takes a frame by what it is to the device, and what the recording shows with it. Returns
    /// what a user may want to know of the device; `rows` are the data sheet's entries, in
    /// increasing key. On an `Err` memory ran out.
    #[tactic(auto, unfolding(crate::specs::Warnings::watched_with, crate::specs::Warnings::warning_at))]
    pub fn take(
        &mut self,
        subject: &Subject,
        rows: &[EntryRow<'_>],
        kind: &FrameKind,
        progress: &Progress,
    ) -> Result<Option<Warning>, AllocError>
        requires { AllPairs (λ e f. is_key_before e.key f.key ≡ true) rows.now }
        ensures warning { IfOk result (λ warning. warning ≡ warning_at
            subject.now (map row_view rows.now) self.old kind.now progress.now) }
        ensures next { OnOk result (self.new ≡ watched_with
            subject.now (map row_view rows.now) self.old kind.now progress.now) }
    {
        if progress.is_begun() {
            self.forget();
        }
        let errors = self.errors;
        let noted = attempt!(self.take_kind(subject, rows, kind, progress));
        self.errors = errors.after(&subject.limits, kind, progress);
        Ok(noted.or(errors.warning(&subject.limits, kind, progress.newest)))
    }
}
