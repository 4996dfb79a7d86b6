//! Numbers with a leading zero (CiA 306, numerals).

ghost use Rattle.std.specs.Prelude.{◌≡◌, codes, decimal, false, option_map, IfOk};
ghost use Rattle.std.specs.Option.{option_map_or};
ghost use Rattle.std.specs.Result.{result_ok};
ghost use Rattle.co_sheet.specs.Limits.{is_node_id};
ghost use Rattle.co_sheet_text.specs.Numerals.{unsigned_number};
ghost use Rattle.co_sheet_changes.specs.Pieces.{mended_view};
ghost use Rattle.co_sheet_changes.specs.Views.{group_view};
ghost use Rattle.co_sheet_changes.specs.Zeros.{
  anew_text,
  digits_anew,
  number_anew,
  sum_anew,
  value_anew,
};
ghost use Rattle.co_sheet_changes.specs.ZeroNames.{
  has_numbers,
  is_number_code,
  is_number_name,
  is_number_of,
  is_number_type,
  zero_change,
};

use crate::change::{ChangeKind, Mended};
use crate::group::Group;
use crate::limits::{is_limit, is_preset};
use crate::pieces::{assigned, joined};
use crate::request::LeadingZeros;
use co_sheet::data_type_with;
use co_sheet_text::{
    NumeralFault, SectionKind, all_digits, number_in, same_name, trim, unsigned_number,
};
use co_text::{push_decimal, split_at_first};
use std::alloc::{AllocError, Global};

// the number that digits with a leading zero are in the base, if they are another number in octal
fn digits_anew(zeros: LeadingZeros, text: &[u8]) -> Option<u64>
    ensures { option_map decimal result ≡ digits_anew zeros text.now }
{
    match (unsigned_number(text), zeros) {
        (Err(NumeralFault::Ambiguous), LeadingZeros::Octal) => number_in(8, text),
        (Err(NumeralFault::Ambiguous), LeadingZeros::Decimal) => number_in(10, text),
        _ => None,
    }
}

/// What a value contains besides its number.
#[derive(Clone, Copy)]
pub(crate) enum Beside<'v> {
    Nothing,
    Minus,
    /// In a sum, what comes before `+`.
    Left(&'v [u8]),
    /// In a sum, what comes after `+`.
    Right(&'v [u8]),
}

/// A value without its leading zero.
#[derive(Clone, Copy)]
pub(crate) struct Anew<'v> {
    pub(crate) number: u64,
    pub(crate) beside: Beside<'v>,
}

fn number_anew(zeros: LeadingZeros, value: &[u8]) -> Option<Anew<'_>>
    ensures { option_map anew_text result ≡ number_anew zeros value.now }
{
    let (digits, beside) = match value {
        [b'-', digits @ ..] => (digits, Beside::Minus),
        _ => (value, Beside::Nothing),
    };
    match digits_anew(zeros, digits) {
        Some(number) => Some(Anew { number, beside }),
        None => None,
    }
}

fn is_node_id(part: &[u8]) -> bool
    ensures { result ≡ is_node_id part.now }
{
    same_name(part, b"$NODEID")
}

fn sum_anew<'v>(zeros: LeadingZeros, left: &'v [u8], right: &'v [u8]) -> Option<Anew<'v>>
    ensures { option_map anew_text result ≡ sum_anew zeros left.entry.now right.entry.now }
{
    let (digits, beside) = if is_node_id(left) {
        (right, Beside::Left(left))
    } else if is_node_id(right) {
        (left, Beside::Right(right))
    } else {
        return None;
    };
    match digits_anew(zeros, digits) {
        Some(number) => Some(Anew { number, beside }),
        None => None,
    }
}

// a value without its leading zero; `None` where it has none, or a digit that isn't one of the base
fn value_anew(zeros: LeadingZeros, value: &[u8]) -> Option<Anew<'_>>
    ensures { option_map anew_text result ≡ value_anew zeros value.now }
{
    match split_at_first(value, b'+') {
        Some((left, right)) => sum_anew(zeros, trim(left), trim(right)),
        None => number_anew(zeros, value),
    }
}

// a value without its leading zero as it is written
fn anew_text(alloc: Global, anew: Anew<'_>) -> Result<Vec<u8>, AllocError>
    ensures { IfOk result (λ made. made.items ≡ anew_text anew.entry) }
{
    let mut digits = String::new(alloc);
    attempt!(push_decimal(&mut digits, anew.number));
    let digits = digits.as_bytes();
    match anew.beside {
        Beside::Nothing => joined(alloc, b"", b"", digits),
        Beside::Minus => joined(alloc, b"", b"-", digits),
        Beside::Left(left) => joined(alloc, left, b"+", digits),
        Beside::Right(right) => joined(alloc, digits, b"+", right),
    }
}

fn is_number_name(name: &[u8]) -> bool
    ensures { result ≡ is_number_name name.now }
{
    (same_name(name, b"ObjectType") || same_name(name, b"DataType"))
        || (same_name(name, b"PDOMapping")
            || (same_name(name, b"SubNumber") || same_name(name, b"CompactSubObj")))
}

fn is_number_code(code: u64) -> bool
    ensures { result ≡ is_number_code code }
{
    match data_type_with(code) {
        Some(data_type) => data_type.width().is_some(),
        None => matches!(code, 0x0C | 0x0D),
    }
}

// whether a text is the code of such a type
fn is_number_text(text: &[u8]) -> bool
    ensures { result ≡ option_map_or is_number_code (result_ok (unsigned_number text.now)) false }
{
    match unsigned_number(text) {
        Ok(code) => is_number_code(code),
        Err(_) => false,
    }
}

fn is_number_type(alloc: Global, zeros: LeadingZeros, value: &[u8]) -> Result<bool, AllocError>
    ensures { IfOk result (λ is. is ≡ is_number_type zeros value.now) }
{
    match value_anew(zeros, value) {
        Some(anew) => {
            let text = attempt!(anew_text(alloc, anew));
            Ok(is_number_text(text.as_slice()))
        }
        None => Ok(is_number_text(value)),
    }
}

/// Whether the values of a section's entry are numbers.
pub(crate) fn has_numbers(
    alloc: Global,
    zeros: LeadingZeros,
    group: &Group,
) -> Result<bool, AllocError>
    ensures { IfOk result (λ has. has ≡ has_numbers zeros (group_view group.now)) }
{
    match group.value(b"DataType") {
        Some(value) => is_number_type(alloc, zeros, value),
        None => Ok(matches!(group.kind, SectionKind::SubIndex(key) if key.sub == 0)),
    }
}

// whether a name's value is a number in a section
fn is_number_of(kind: SectionKind, numbers: bool, name: &[u8]) -> bool
    ensures { result ≡ is_number_of kind numbers name.now }
{
    match kind {
        SectionKind::Object(_) | SectionKind::SubIndex(_) => {
            is_number_name(name) || numbers && (is_limit(name) || is_preset(name))
        }
        _ => kind.reads(name) || kind.is_list() && all_digits(name, 10),
    }
}

/// What a name and its value become in a section, where the value has a leading zero.
pub(crate) fn zero_change(
    alloc: Global,
    zeros: LeadingZeros,
    kind: SectionKind,
    numbers: bool,
    name: &[u8],
    value: &[u8],
) -> Result<Option<Mended>, AllocError>
    ensures { IfOk result (λ made.
        option_map mended_view made ≡ zero_change zeros kind numbers name.now value.now) }
{
    if !is_number_of(kind, numbers, name) {
        return Ok(None);
    }
    let Some(anew) = value_anew(zeros, value) else {
        return Ok(None);
    };
    let value = attempt!(anew_text(alloc, anew));
    let new = attempt!(assigned(alloc, name, value.as_slice()));
    let kind = ChangeKind::LeadingZero;
    Ok(Some(Mended { kind, new }))
}
