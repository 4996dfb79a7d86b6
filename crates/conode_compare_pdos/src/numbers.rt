//! The numbers that a data sheet gives entries, and that a transfer shows.

ghost use Rattle.std.specs.Prelude.{◌≡◌, true, map};
ghost use Rattle.std.specs.List.{AllPairs};
ghost use Rattle.co_sheet.specs.SheetViews.{row_view};
ghost use Rattle.co_sheet.specs.Views.{default_view};
ghost use Rattle.co_value.specs.Keys.{is_key_before};
ghost use Rattle.conode_compare_pdos.specs.SheetNumbers.{
  first_word,
  number_of,
  preset_at,
  small,
  time_at,
  tiny,
};

use co_sheet::{EntryRow, Preset};
use co_sheet_changes::row_at;
use co_value::Key;

// one more than the greatest number of 32 bits
const BOUND: u64 = 0x1_0000_0000;

/// The number that a value is, for a node; none of more than 32 bits.
pub fn number_of(node: u8, default: Preset<'_>) -> Option<u64>
    ensures { result ≡ number_of node (default_view default.entry) }
{
    match default {
        Preset::Number(number) if 0 <= number && number < i128::from(BOUND) => Some(number as u64),
        Preset::NodeId(number) if number < BOUND => Some(number + node as u64),
        _ => None,
    }
}

/// The number, where it has 16 bits.
pub fn small(number: Option<u64>) -> Option<u16>
    ensures { result ≡ small number }
{
    match number {
        Some(number) if number < 0x1_0000 => Some(number as u16),
        _ => None,
    }
}

/// The number, where it has 8 bits.
pub(crate) fn tiny(number: Option<u64>) -> Option<u8>
    ensures { result ≡ tiny number }
{
    match number {
        Some(number) if number < 0x100 => Some(number as u8),
        _ => None,
    }
}

/// The number that an entry of a data sheet begins with, for a node; the entries are in increasing
/// key.
pub fn preset_at(rows: &[EntryRow<'_>], node: u8, key: Key) -> Option<u64>
    requires { AllPairs (λ e f. is_key_before e.key f.key ≡ true) rows.now }
    ensures { result ≡ preset_at (map row_view rows.now) node key }
{
    match row_at(rows, key) {
        Some(row) => number_of(node, row.default),
        None => None,
    }
}

/// A time that an entry begins with; 0 where there is no such entry.
pub(crate) fn time_at(rows: &[EntryRow<'_>], node: u8, key: Key) -> Option<u16>
    requires { AllPairs (λ e f. is_key_before e.key f.key ≡ true) rows.now }
    ensures { result ≡ time_at (map row_view rows.now) node key }
{
    match row_at(rows, key) {
        Some(row) => small(number_of(node, row.default)),
        None => Some(0),
    }
}

/// The number of 16 bits that two bytes are, or the first two of four.
pub fn first_word(bytes: &[u8]) -> Option<u16>
    ensures { result ≡ first_word bytes.now }
{
    match bytes {
        [low, high] | [low, high, _, _] => Some(*low as u16 + *high as u16 * 256),
        _ => None,
    }
}
