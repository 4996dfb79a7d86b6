//! The end of a download, compared with the row of its entry in the data sheet: who may write it,
//! and its limits.

ghost use Rattle.std.specs.Prelude.{◌≡◌};
ghost use Rattle.co_sheet.specs.SheetViews.{row_view};
ghost use Rattle.conode_compare_values.specs.SheetValues.{
  beyond_mismatch,
  binds,
  download_mismatch,
  first_bytes,
  has_limits,
  is_above,
  is_below,
  is_closed,
  is_error_count,
  is_read_only,
  is_within,
  limit_mismatch,
  written_bytes,
  written_mismatch,
};

use crate::mismatch::Mismatch;
use crate::rooms::Rooms;
use crate::values::is_boolean;
use co_profile::{Access, ERROR_FIELD};
use co_sheet::EntryRow;
use co_value::{DataType, Key, from_bytes};
use conode_explain_transfers::{Ended, Protocol};

/// Whether an entry with this access is read only.
pub fn is_read_only(access: Access) -> bool
    ensures { result ≡ is_read_only access }
{
    matches!(access, Access::Ro | Access::Constant)
}

// whether limits can be meant: a sole one isn't below 0, and two leave a number
fn binds(low: Option<i128>, high: Option<i128>) -> bool
    ensures { result ≡ binds low high }
{
    match (low, high) {
        (Some(low), Some(high)) => low <= high,
        (Some(limit), None) | (None, Some(limit)) => 0 <= limit,
        (None, None) => false,
    }
}

/// Whether the limits of an entry are the data sheet's alone, and can be meant.
pub fn has_limits(row: &EntryRow<'_>) -> bool
    ensures { result ≡ has_limits (row_view row.now) }
{
    row.key.index >= 0x2000 && !is_boolean(row.data_type) && binds(row.low, row.high)
}

fn is_above(limit: Option<i128>, value: i128) -> bool
    ensures { result ≡ is_above limit value }
{
    match limit {
        Some(limit) => limit < value,
        None => false,
    }
}

fn is_below(limit: Option<i128>, value: i128) -> bool
    ensures { result ≡ is_below limit value }
{
    match limit {
        Some(limit) => value < limit,
        None => false,
    }
}

// the difference of a number that was downloaded
fn limit_mismatch(row: &EntryRow<'_>, value: i128) -> Option<Mismatch>
    ensures { result ≡ limit_mismatch (row_view row.now) value }
{
    if is_above(row.high, value) {
        Some(Mismatch::AboveLimit(row.key))
    } else if is_below(row.low, value) {
        Some(Mismatch::BelowLimit(row.key))
    } else {
        None
    }
}

/// The difference of bytes that were downloaded, where they are a number: beyond the limits.
pub fn beyond_mismatch(row: &EntryRow<'_>, bytes: &[u8]) -> Option<Mismatch>
    ensures { result ≡ beyond_mismatch (row_view row.now) bytes.now }
{
    if !has_limits(row) {
        return None;
    }
    match from_bytes(row.data_type, bytes) {
        Ok(value) => limit_mismatch(row, value),
        Err(_) => None,
    }
}

/// Whether bytes are a number that isn't beyond the limits of its entry, whether these can be meant
/// or not.
pub fn is_within(row: &EntryRow<'_>, bytes: &[u8]) -> bool
    ensures { result ≡ is_within (row_view row.now) bytes.now }
{
    match from_bytes(row.data_type, bytes) {
        Ok(value) => !is_above(row.high, value) && !is_below(row.low, value),
        Err(_) => false,
    }
}

// whether an entry is 1003:00, which a client writes 0 to, to empty the list of errors
fn is_error_count(key: Key) -> bool
    ensures { result ≡ is_error_count key }
{
    key.index == ERROR_FIELD && key.sub == 0
}

/// Whether the data sheet has an entry as read only, and CiA 301 doesn't let a client write it.
pub fn is_closed(row: &EntryRow<'_>) -> bool
    ensures { result ≡ is_closed (row_view row.now) }
{
    is_read_only(row.access) && !is_error_count(row.key)
}

// the difference of bytes that were downloaded
fn written_mismatch(row: &EntryRow<'_>, bytes: &[u8]) -> Option<Mismatch>
    ensures { result ≡ written_mismatch (row_view row.now) bytes.now }
{
    if is_closed(row) {
        Some(Mismatch::Written(row.key))
    } else {
        beyond_mismatch(row, bytes)
    }
}

// the bytes of a number, as many as its type has: there are four in one frame where their number
// isn't indicated
fn first_bytes(width: usize, bytes: &[u8]) -> &[u8]
    ensures { result.now ≡ first_bytes width bytes.now }
{
    if bytes.len() == 4 && width < 4 {
        &bytes[..width]
    } else {
        bytes
    }
}

// the bytes of a number that was written
fn written_bytes(data_type: DataType, protocol: Protocol, bytes: &[u8]) -> &[u8]
    ensures { result.now ≡ written_bytes data_type protocol bytes.now }
{
    match protocol {
        Protocol::Expedited => match data_type.width() {
            Some(width) => first_bytes(width, bytes),
            None => bytes,
        },
        _ => bytes,
    }
}

/// The difference of a download that is done.
pub(crate) fn download_mismatch(rooms: Rooms, row: &EntryRow<'_>, ended: &Ended) -> Option<Mismatch>
    ensures { result ≡ download_mismatch rooms (row_view row.now) ended.now }
{
    let bytes = written_bytes(row.data_type, ended.protocol, ended.first.as_slice());
    written_mismatch(row, bytes).or(rooms.mismatch(row, ended))
}
