//! Downloads that a device acknowledged and our own server would have refused.

ghost use Rattle.std.specs.Prelude.{◌≡◌, ◌++◌, OnOk, option_map, string_bytes};
ghost use Rattle.std.specs.Option.{option_copied};
ghost use Rattle.co_value.specs.Types.{width_of};
ghost use Rattle.co_sheet.specs.SheetViews.{row_view};
ghost use Rattle.co_sheet_changes.specs.Names.{are_for, names_view};
ghost use Rattle.conode_explain_forms.specs.Refusals.{
  entry_refusal,
  has_sheet,
  is_above,
  is_below,
  is_download,
  is_no_boolean,
  is_read_only,
  is_unwritable,
  limit_refusal,
  note_text,
  number_bytes,
  number_refusal,
  refusal_note,
  refusal_of,
  refusal_words,
  row_refusal,
  value_refusal,
};

use crate::fields::{first_bytes, is_boolean, is_done, is_expedited};
use co_profile::{Access, IndexRange};
use co_sheet::EntryRow;
use co_sheet_changes::Names;
use co_value::{DataType, from_bytes};
use conode_explain_transfers::{Direction, Ended};
use conode_text::{Value, push_filled};
use std::alloc::AllocError;

/// Why our own server would have refused a download, by the data sheet of the device.
#[derive(Clone, Copy)]
pub enum Refusal {
    /// The sheet doesn't have the entry.
    NotInSheet,
    /// Its access is `ro` or `const`, or it is a parameter of an SDO server.
    ReadOnly,
    /// There are more or fewer bytes than its type has.
    OtherLength,
    /// The number is above its HighLimit.
    AboveHighLimit,
    /// The number is below its LowLimit.
    BelowLowLimit,
    /// It is a BOOLEAN, and the number neither 0 nor 1.
    NotBoolean,
}

fn is_read_only(access: Access) -> bool
    ensures { result ≡ is_read_only access }
{
    matches!(access, Access::Ro | Access::Constant)
}

fn is_unwritable(row: &EntryRow<'_>) -> bool
    ensures { result ≡ is_unwritable (row_view row.now) }
{
    is_read_only(row.access) || IndexRange::SDO_SERVER.contains(row.key.index)
}

fn is_above(limit: Option<i128>, value: i128) -> bool
    ensures { result ≡ is_above limit value }
{
    match limit {
        Some(limit) => limit < value,
        None => false,
    }
}

fn is_below(limit: Option<i128>, value: i128) -> bool
    ensures { result ≡ is_below limit value }
{
    match limit {
        Some(limit) => value < limit,
        None => false,
    }
}

fn is_no_boolean(data_type: DataType, value: i128) -> bool
    ensures { result ≡ is_no_boolean data_type value }
{
    is_boolean(data_type) && 1 < value
}

fn limit_refusal(row: &EntryRow<'_>, value: i128) -> Option<Refusal>
    ensures { result ≡ limit_refusal (row_view row.now) value }
{
    if is_above(row.high, value) {
        Some(Refusal::AboveHighLimit)
    } else if is_below(row.low, value) {
        Some(Refusal::BelowLowLimit)
    } else if is_no_boolean(row.data_type, value) {
        Some(Refusal::NotBoolean)
    } else {
        None
    }
}

// of a number of a type with this width
fn number_refusal(row: &EntryRow<'_>, bytes: &[u8], width: usize) -> Option<Refusal>
    requires { width_of row.now.data_type ≡ Some width }
    ensures { result ≡ number_refusal (row_view row.now) bytes.now width }
{
    match from_bytes(row.data_type, bytes) {
        Ok(value) => limit_refusal(row, value),
        Err(_) => Some(Refusal::OtherLength),
    }
}

// the bytes that count, of a type with this width
fn number_bytes(ended: &Ended, width: usize) -> &[u8]
    ensures { result.now ≡ number_bytes ended.now width }
{
    let bytes = ended.first.as_slice();
    if is_expedited(ended.protocol) && ended.bytes == 4 {
        first_bytes(bytes, width)
    } else {
        bytes
    }
}

fn value_refusal(row: &EntryRow<'_>, ended: &Ended) -> Option<Refusal>
    ensures { result ≡ value_refusal (row_view row.now) ended.now }
{
    match row.data_type.width() {
        Some(width) => number_refusal(row, number_bytes(ended, width), width),
        None => None,
    }
}

fn row_refusal(row: &EntryRow<'_>, ended: &Ended) -> Option<Refusal>
    ensures { result ≡ row_refusal (row_view row.now) ended.now }
{
    if is_unwritable(row) {
        return Some(Refusal::ReadOnly);
    }
    value_refusal(row, ended)
}

// by the row of its entry
fn entry_refusal(row: Option<&EntryRow<'_>>, ended: &Ended) -> Option<Refusal>
    ensures { result
        ≡ entry_refusal (option_map row_view (option_copied row.entry)) ended.now }
{
    match row {
        Some(row) => row_refusal(row, ended),
        None => Some(Refusal::NotInSheet),
    }
}

fn is_download(direction: Direction) -> bool
    ensures { result ≡ is_download direction }
{
    matches!(direction, Direction::Download)
}

fn are_for(only: Option<u8>, node: u8) -> bool
    ensures { result ≡ are_for only node }
{
    match only {
        Some(one) => one == node,
        None => true,
    }
}

fn has_sheet(names: Names<'_, '_>, node: u8) -> bool
    ensures { result ≡ has_sheet (names_view names.entry) node }
{
    match names.sheet {
        Some(_) => are_for(names.only, node),
        None => false,
    }
}

#[tactic(auto, unfolding(crate::specs::Refusals::refusal_of))]
fn refusal_of(names: Names<'_, '_>, node: u8, ended: &Ended) -> Option<Refusal>
    ensures { result ≡ refusal_of (names_view names.entry) node ended.now }
{
    if is_done(ended.ending) && (is_download(ended.direction) && has_sheet(names, node)) {
        return entry_refusal(names.entry(node, ended.key), ended);
    }
    None
}

impl Refusal {
    /// What it is, in words.
    fn words(self) -> &'static str
        ensures { result.now ≡ refusal_words self }
    {
        match self {
            Refusal::NotInSheet => "not in the data sheet",
            Refusal::ReadOnly => "read only",
            Refusal::OtherLength => "other length than the type's",
            Refusal::AboveHighLimit => "above the high limit",
            Refusal::BelowLowLimit => "below the low limit",
            Refusal::NotBoolean => "a BOOLEAN is 0 or 1",
        }
    }
}

fn push_note(text: &mut String, words: &str) -> Result<(), AllocError>
    ensures { OnOk result (string_bytes text.new ≡ string_bytes text.old ++ note_text words.now) }
{
    push_filled(text, " (our rules refuse: %)", &[Value::Words(words)])
}

/// Appends a note to a node's download that is done and that our own server would have refused, as
/// ` (our rules refuse: read only)`. On an `Err` memory ran out, and a part of it may be there.
pub fn push_refusal(
    text: &mut String,
    names: Names<'_, '_>,
    node: u8,
    ended: &Ended,
) -> Result<(), AllocError>
    ensures { OnOk result (string_bytes text.new
        ≡ string_bytes text.old ++ refusal_note (names_view names.entry) node ended.now) }
{
    match refusal_of(names, node, ended) {
        Some(refusal) => push_note(text, refusal.words()),
        None => Ok(()),
    }
}
