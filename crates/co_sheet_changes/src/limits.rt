//! The type, the limits and the values of the entry that a section describes (CiA 306, object
//! description).

ghost use Rattle.std.specs.Prelude.{◌≡◌, ◌≤◌, ◌^◌};
ghost use Rattle.co_sheet_changes.specs.Limits.{
  data_type_of,
  has_from_zero,
  has_unsigned_limits,
  is_from_zero,
  is_limit,
  is_low,
  is_preset,
  is_whole_unsigned,
  is_zero,
  lacks_negative,
  signed_width,
  starts_at_zero,
};
ghost use Rattle.co_sheet_changes.specs.Views.{group_view};

use crate::group::Group;
use co_sheet::data_type_with;
use co_sheet_text::{same_name, signed_numeral, unsigned_number};
use co_value::DataType;

/// Whether a name is that of the lower limit.
pub(crate) fn is_low(name: &[u8]) -> bool
    ensures { result ≡ is_low name.now }
{
    same_name(name, b"LowLimit")
}

/// Whether a name is that of a limit.
pub fn is_limit(name: &[u8]) -> bool
    ensures { result ≡ is_limit name.now }
{
    is_low(name) || same_name(name, b"HighLimit")
}

/// Whether a name is that of a default, or of a value of a device configuration file.
pub fn is_preset(name: &[u8]) -> bool
    ensures { result ≡ is_preset name.now }
{
    same_name(name, b"DefaultValue") || same_name(name, b"ParameterValue")
}

/// The data type of the entry that a section describes, where it is supported.
pub fn data_type_of(group: &Group) -> Option<DataType>
    ensures { result ≡ data_type_of (group_view group.now) }
{
    match group.number(b"DataType") {
        Some(code) => data_type_with(code),
        None => None,
    }
}

/// 2 to the power of `bits`.
pub fn power_of_two(bits: usize) -> u128
    requires { bits ≤ 64 }
    ensures { result ≡ 2 ^ bits }
{
    1u128 << bits
}

/// The width in bytes of a signed type; `None` for every other type.
pub fn signed_width(data_type: DataType) -> Option<usize>
    ensures { result ≡ signed_width data_type }
{
    if data_type.is_signed() {
        data_type.width()
    } else {
        None
    }
}

/// Whether a value is the number 0.
pub(crate) fn is_zero(value: &[u8]) -> bool
    ensures { result ≡ is_zero value.now }
{
    matches!(unsigned_number(value).ok(), Some(0))
}

fn is_from_zero(data_type: DataType, value: &[u8]) -> bool
    ensures { result ≡ is_from_zero data_type value.now }
{
    match signed_numeral(value) {
        Ok(numeral) => numeral.value_at(data_type) >= 0,
        Err(_) => false,
    }
}

// whether a key of a section is a number of 0 or more at a type
fn has_from_zero(data_type: DataType, group: &Group, name: &[u8]) -> bool
    ensures { result ≡ has_from_zero data_type (group_view group.now) name.now }
{
    match group.value(name) {
        Some(value) => is_from_zero(data_type, value),
        None => false,
    }
}

// whether a HighLimit without a LowLimit isn't meant as -1
fn lacks_negative(data_type: DataType, group: &Group) -> bool
    ensures { result ≡ lacks_negative data_type (group_view group.now) }
{
    has_from_zero(data_type, group, b"HighLimit")
        || has_from_zero(data_type, group, b"DefaultValue")
        || has_from_zero(data_type, group, b"ParameterValue")
}

fn starts_at_zero(data_type: DataType, group: &Group) -> bool
    ensures { result ≡ starts_at_zero data_type (group_view group.now) }
{
    match group.value(b"LowLimit") {
        Some(value) => is_zero(value),
        None => lacks_negative(data_type, group),
    }
}

// whether two limits are those of the unsigned type of as many bytes as a signed one has
fn is_whole_unsigned(data_type: DataType, group: &Group) -> bool
    ensures { result ≡ is_whole_unsigned data_type (group_view group.now) }
{
    match (signed_width(data_type), group.number(b"HighLimit")) {
        (Some(width), Some(high)) => {
            u128::from(high) + 1 == power_of_two(8 * width) && starts_at_zero(data_type, group)
        }
        _ => false,
    }
}

/// Whether the limits of a signed number are those of the unsigned type of as many bytes: HighLimit
/// its greatest number, and LowLimit 0, or not there where no negative number is meant.
pub fn has_unsigned_limits(group: &Group) -> bool
    ensures { result ≡ has_unsigned_limits (group_view group.now) }
{
    match data_type_of(group) {
        Some(data_type) => is_whole_unsigned(data_type, group),
        None => false,
    }
}
