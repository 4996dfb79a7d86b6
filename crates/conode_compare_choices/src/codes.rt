//! Which abort code a device refuses a request with, where CiA 301 has several that fit
//! (7.2.4.3.17).

ghost use Rattle.std.specs.Prelude.{◌≡◌, true, map};
ghost use Rattle.std.specs.List.{AllPairs};
ghost use Rattle.co_sheet.specs.SheetViews.{row_view};
ghost use Rattle.co_value.specs.Keys.{is_key_before};
ghost use Rattle.conode_compare_choices.specs.RefusalCodes.{
  access_code,
  also_fits,
  asked_choice,
  code_choice,
  entry_choice,
  is_mapping_code,
  other_code,
  sheet_code,
  write_choice,
};

use crate::choice::Choice;
use crate::request::{Request, missing_code};
use co_frame::{AbortCode, Frame};
use co_sheet::EntryRow;
use co_sheet_changes::row_at;
use conode_compare_transfers::{Asked, key_in};
use conode_compare_values::{is_read_only, is_readable};
use conode_explain_transfers::{Direction, Ended};

/// An access to an object that isn't supported.
const UNSUPPORTED_ACCESS: u32 = 0x0601_0000;

/// A mapping isn't compatible with something in the device.
const INCOMPATIBLE: u32 = 0x0604_0047;

/// The length of a value doesn't match.
const OTHER_LENGTH: u32 = 0x0607_0010;

/// A value can't be stored because of local control.
const LOCAL_CONTROL: u32 = 0x0800_0021;

fn access_code(row: &EntryRow<'_>, direction: Direction) -> Option<u32>
    ensures { result ≡ access_code (row_view row.now) direction }
{
    match direction {
        Direction::Upload if !is_readable(row.access) => Some(AbortCode::WRITE_ONLY.0),
        Direction::Download if is_read_only(row.access) => Some(AbortCode::READ_ONLY.0),
        _ => None,
    }
}

// by the data sheet
#[tactic(auto, unfolding(crate::specs::RefusalCodes::sheet_code))]
fn sheet_code(rows: &[EntryRow<'_>], ended: &Ended) -> Option<u32>
    requires { AllPairs (λ e f. is_key_before e.key f.key ≡ true) rows.now }
    ensures { result ≡ sheet_code (map row_view rows.now) ended.now }
{
    match row_at(rows, ended.key) {
        Some(row) => access_code(row, ended.direction),
        None => Some(missing_code(rows, ended.key)),
    }
}

// the other code that fits
fn other_code(code: u32) -> u32
    ensures { result ≡ other_code code }
{
    if code == AbortCode::WRITE_ONLY.0 || code == AbortCode::READ_ONLY.0 {
        UNSUPPORTED_ACCESS
    } else if code == AbortCode::OBJECT_MISSING.0 {
        AbortCode::SUB_INDEX_MISSING.0
    } else {
        AbortCode::OBJECT_MISSING.0
    }
}

// by the entry: it isn't there, or hasn't this access
fn entry_choice(rows: &[EntryRow<'_>], ended: &Ended, came: u32) -> Option<Choice>
    requires { AllPairs (λ e f. is_key_before e.key f.key ≡ true) rows.now }
    ensures { result ≡ entry_choice (map row_view rows.now) ended.now came }
{
    let Some(fitting) = sheet_code(rows, ended) else {
        return None;
    };
    if came == other_code(fitting) {
        Some(Choice::Code(ended.key, came, fitting))
    } else {
        None
    }
}

// whether it says that an entry can't be mapped, that the mapping is too long, or that it doesn't
// go together with something in the device
fn is_mapping_code(came: u32) -> bool
    ensures { result ≡ is_mapping_code came }
{
    came == AbortCode::NOT_MAPPABLE.0
        || came == AbortCode::MAPPING_TOO_LONG.0
        || came == INCOMPATIBLE
}

// whether another code fits what a download is to write
fn also_fits(fitting: u32, came: u32) -> bool
    ensures { result ≡ also_fits fitting came }
{
    if fitting == AbortCode::TOO_LONG.0 || fitting == AbortCode::TOO_SHORT.0 {
        came == OTHER_LENGTH
    } else if fitting == AbortCode::ABOVE_HIGH_LIMIT.0 || fitting == AbortCode::BELOW_LOW_LIMIT.0 {
        came == AbortCode::INVALID_VALUE.0
    } else if fitting == AbortCode::NOT_STORABLE.0 {
        came == LOCAL_CONTROL || came == AbortCode::NOT_IN_THIS_STATE.0
    } else {
        came != fitting && is_mapping_code(came)
    }
}

// by what a download is to write to an entry
fn write_choice(
    rows: &[EntryRow<'_>],
    request: &Request,
    ended: &Ended,
    came: u32,
) -> Option<Choice>
    requires { AllPairs (λ e f. is_key_before e.key f.key ≡ true) rows.now }
    ensures { result ≡ write_choice (map row_view rows.now) request.now ended.now came }
{
    let Some(row) = row_at(rows, ended.key) else {
        return None;
    };
    if is_read_only(row.access) {
        return None;
    }
    let Some(fitting) = request.request_code(rows, row) else {
        return None;
    };
    if also_fits(fitting, came) {
        Some(Choice::Code(ended.key, came, fitting))
    } else {
        None
    }
}

// where the frame answers the request of a download
fn asked_choice(
    rows: &[EntryRow<'_>],
    request: &Request,
    asked: Option<Asked>,
    ended: &Ended,
    came: u32,
) -> Option<Choice>
    requires { AllPairs (λ e f. is_key_before e.key f.key ≡ true) rows.now }
    ensures { result ≡ asked_choice (map row_view rows.now) request.now asked ended.now came }
{
    match asked {
        Some(asked) if asked.writes => write_choice(rows, request, ended, came),
        _ => None,
    }
}

/// `choice-code`: a request is refused with another code that fits, by the end of its transfer, an
/// abort with this code. `request`: the newest one.
#[tactic(auto, unfolding(crate::specs::RefusalCodes::code_choice))]
pub(crate) fn code_choice(
    rows: &[EntryRow<'_>],
    request: &Request,
    asked: Option<Asked>,
    frame: &Frame,
    ended: &Ended,
    came: AbortCode,
) -> Option<Choice>
    requires { AllPairs (λ e f. is_key_before e.key f.key ≡ true) rows.now }
    ensures { result
        ≡ code_choice (map row_view rows.now) request.now asked frame.now ended.now came.0 }
{
    if key_in(frame) != ended.key {
        return None;
    }
    match entry_choice(rows, ended, came.0) {
        Some(choice) => Some(choice),
        None => asked_choice(rows, request, asked, ended, came.0),
    }
}
