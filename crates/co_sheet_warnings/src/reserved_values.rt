//! Values that CiA 301 reserves.

ghost use Rattle.std.specs.Prelude.{◌≡◌, option_to_list};
ghost use Rattle.co_sheet_text.specs.Views.{section_view};
ghost use Rattle.co_sheet_warnings.specs.ReservedValues.{
  has_reserved,
  is_reserved,
  last_reserved,
  reserved_value,
};
ghost use Rattle.co_sheet_text_warnings.specs.Ranges.{is_within as is_number_within};

use crate::sub_indices::value_in;
use co_sheet_text::{SectionKind, TextSection};
use co_sheet_text_warnings::is_within;

// whether an entry has values that are reserved: 1019:00, and the transmission type of a PDO
fn has_reserved(kind: SectionKind) -> bool
    ensures { result ≡ has_reserved kind }
{
    match kind {
        SectionKind::Object(index) => index == 0x1019,
        SectionKind::SubIndex(key) => {
            key.sub == 2
                && (is_within(0x1400, 0x15FF, key.index) || is_within(0x1800, 0x19FF, key.index))
        }
        _ => false,
    }
}

// the last transmission type that is reserved: a TPDO may be sent on request
fn last_reserved(index: u16) -> u64
    ensures { result ≡ last_reserved index }
{
    if index < 0x1800 { 253 } else { 251 }
}

fn is_number_within(low: u64, high: u64, number: u64) -> bool
    ensures { result ≡ is_number_within low high number }
{
    low <= number && number <= high
}

// whether a number is reserved for an entry that has such numbers
fn is_reserved(kind: SectionKind, number: u64) -> bool
    ensures { result ≡ is_reserved kind number }
{
    match kind {
        SectionKind::Object(_) => number == 1 || is_number_within(241, 255, number),
        SectionKind::SubIndex(key) => is_number_within(241, last_reserved(key.index), number),
        _ => false,
    }
}

/// The line of a transmission type or of a synchronous counter overflow value that is reserved.
pub(crate) fn reserved_value(section: &TextSection) -> Option<usize>
    ensures { option_to_list result ≡ reserved_value (section_view section.now) }
{
    if !has_reserved(section.kind) {
        return None;
    }
    let Some(given) = value_in(section) else {
        return None;
    };
    match given.number() {
        Some(number) if is_reserved(section.kind, number) => Some(given.line),
        _ => None,
    }
}
