//! Defaults that are sums with `$NODEID` (CiA 306).

ghost use Rattle.std.specs.Prelude.{◌≡◌, map};
ghost use Rattle.co_sheet.specs.Limits.{at_most};
ghost use Rattle.co_sheet.specs.SheetViews.{row_view};
ghost use Rattle.co_dict_build.specs.BuildFaults.{is_allowed, is_sum_outside, value_out_of_range};

use co_sheet::{EntryRow, Preset};
use co_value::Key;

// whether the first number is at most the second; true where either is absent
fn is_at_most(first: Option<i128>, second: Option<i128>) -> bool
    ensures { result ≡ at_most first second }
{
    match (first, second) {
        (Some(first), Some(second)) => first <= second,
        _ => true,
    }
}

// whether a number is one of the entry's type, and within its limits
fn is_allowed(row: &EntryRow<'_>, value: i128) -> bool
    ensures { result ≡ is_allowed (row_view row.now) value }
{
    is_at_most(row.data_type.least(), Some(value))
        && is_at_most(Some(value), row.data_type.greatest())
        && is_at_most(row.low, Some(value))
        && is_at_most(Some(value), row.high)
}

/// Whether the default of an entry is a sum with `$NODEID` that is outside its type or its limits
/// (CiA 306): `BuildFault::ValueRange`.
pub fn is_sum_outside(node_id: u8, row: &EntryRow<'_>) -> bool
    ensures { result ≡ is_sum_outside node_id (row_view row.now) (row_view row.now).default }
{
    match row.default {
        Preset::NodeId(number) => !is_allowed(row, i128::from(node_id) + i128::from(number)),
        _ => false,
    }
}

/// The smallest key of an entry whose default is a sum with `$NODEID` that is outside its type or
/// its limits.
pub(crate) fn value_out_of_range(node_id: u8, rows: &[EntryRow<'_>]) -> Option<Key>
    ensures { result ≡ value_out_of_range node_id (map row_view rows.now) }
{
    for row in rows {
        if is_sum_outside(node_id, row) {
            return Some(row.key);
        }
    }
    None
}
