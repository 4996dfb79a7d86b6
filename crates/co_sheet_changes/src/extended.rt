//! Numbers of signed types with their sign extended to more bytes than the type has (CiA 306, object
//! description).

ghost use Rattle.std.specs.Prelude.{◌≡◌, ◌≤◌, IfOk, option_map};
ghost use Rattle.co_sheet_changes.specs.Extended.{
  has_extended_low,
  hexadecimal_in,
  is_extended,
  is_extended_by,
  is_extended_limit,
  is_extended_to,
  is_sign_extended,
  sign_extended,
};
ghost use Rattle.co_sheet_changes.specs.Views.{group_view};

use crate::digits::hexadecimal;
use crate::group::Group;
use crate::limits::{data_type_of, is_limit, is_low, power_of_two, signed_width};
use co_sheet_text::{Numeral, signed_numeral};
use co_value::DataType;
use std::alloc::{AllocError, Global};

// the number of hexadecimal digits after `0x`
fn hexadecimal_in(text: &[u8]) -> Option<u64>
    ensures { result ≡ hexadecimal_in text.now }
{
    match signed_numeral(text) {
        Ok(Numeral::Hexadecimal(number)) => Some(number),
        _ => None,
    }
}

// whether a number of this many bits is a negative one of a smaller width, in bytes, with its sign
// extended
fn is_extended_to(bits: usize, width: usize, number: u64) -> bool
    requires bits { bits ≤ 64 }
    requires some { 1 ≤ width }
    requires few { width ≤ 8 }
    ensures { result ≡ is_extended_to bits width number }
{
    let number = u128::from(number);
    let end = power_of_two(bits);
    8 * width < bits && end <= number + power_of_two(8 * width - 1) && number < end
}

fn is_sign_extended(width: usize, number: u64) -> bool
    requires some { 1 ≤ width }
    requires few { width ≤ 8 }
    ensures { result ≡ is_sign_extended width number }
{
    is_extended_to(16, width, number)
        || is_extended_to(32, width, number)
        || is_extended_to(64, width, number)
}

fn is_extended_by(width: usize, value: &[u8]) -> bool
    requires some { 1 ≤ width }
    requires few { width ≤ 8 }
    ensures { result ≡ is_extended_by width value.now }
{
    match hexadecimal_in(value) {
        Some(number) => is_sign_extended(width, number),
        None => false,
    }
}

// whether a value is a negative number of a type with its sign extended to 16, 32 or 64 bits
fn is_extended(data_type: DataType, value: &[u8]) -> bool
    ensures { result ≡ is_extended data_type value.now }
{
    match signed_width(data_type) {
        Some(width) => is_extended_by(width, value),
        None => false,
    }
}

/// A negative value whose sign is extended to 16, 32 or 64 bits, in the bytes of its type. `Err`:
/// out of memory.
pub fn sign_extended(
    alloc: Global,
    data_type: DataType,
    value: &[u8],
) -> Result<Option<Vec<u8>>, AllocError>
    ensures { IfOk result
        (λ made. option_map (λ v. v.items) made ≡ sign_extended data_type value.now) }
{
    let (Some(width), Some(number)) = (signed_width(data_type), hexadecimal_in(value)) else {
        return Ok(None);
    };
    if is_sign_extended(width, number) {
        Ok(Some(attempt!(hexadecimal(alloc, 2 * width as u8, number))))
    } else {
        Ok(None)
    }
}

/// Whether the LowLimit of a section is a negative number of its type with its sign extended.
pub fn has_extended_low(group: &Group) -> bool
    ensures { result ≡ has_extended_low (group_view group.now) }
{
    match (data_type_of(group), group.value(b"LowLimit")) {
        (Some(data_type), Some(value)) => is_extended(data_type, value),
        _ => false,
    }
}

/// Whether a limit is read as a negative number with its sign extended: LowLimit always, HighLimit
/// only beside such a LowLimit.
pub fn is_extended_limit(
    has_extended_low: bool,
    data_type: DataType,
    name: &[u8],
    value: &[u8],
) -> bool
    ensures { result ≡ is_extended_limit has_extended_low data_type name.now value.now }
{
    is_limit(name) && (is_low(name) || has_extended_low) && is_extended(data_type, value)
}
