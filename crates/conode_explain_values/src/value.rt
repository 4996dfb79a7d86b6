//! The text of a value. Each function appends a text; on an `Err` memory ran out, and a part of it
//! may be there.

ghost use Rattle.std.specs.Prelude.{◌≡◌, ◌++◌, ◌≤◌, OnOk, true, false, length, string_bytes};
ghost use Rattle.std.specs.Option.{option_map_or};
ghost use Rattle.co_value.specs.Types.{width_of};
ghost use Rattle.conode_explain_values.specs.Reals.{format_of, real_text};
ghost use Rattle.conode_explain_values.specs.Types.{is_whole, type_bits};
ghost use Rattle.conode_explain_values.specs.Values.{
  bytes_text,
  count_text,
  HasBits,
  plain_text,
  real_or_raw,
  value_text,
  whole_text,
};

use crate::bytes::{push_raw, push_visible};
use crate::numbers::push_number;
use crate::real::Real;
use crate::reals::real_text;
use crate::times::{push_difference, push_moment};
use crate::unicode::push_unicode;
use crate::value_type::ValueType;
use co_value::{DataType, unsigned_of};
use conode_text::{Value, push_filled};
use std::alloc::AllocError;

/// The code of VISIBLE_STRING (CiA 301, 7.4.7.1).
const VISIBLE_STRING: u16 = 0x09;

fn push_bytes_of(text: &mut String, data_type: DataType, bytes: &[u8]) -> Result<(), AllocError>
    ensures { OnOk result
        (string_bytes text.new ≡ string_bytes text.old ++ bytes_text data_type bytes.now) }
{
    if data_type.code() == VISIBLE_STRING {
        push_visible(text, bytes)
    } else {
        push_raw(text, bytes)
    }
}

fn push_plain(text: &mut String, data_type: DataType, bytes: &[u8]) -> Result<(), AllocError>
    ensures { OnOk result
        (string_bytes text.new ≡ string_bytes text.old ++ plain_text data_type bytes.now) }
{
    match data_type.width() {
        Some(width) if bytes.len() == width => push_number(text, data_type, bytes),
        _ => push_bytes_of(text, data_type, bytes),
    }
}

// the text of a REAL, or raw bytes
fn push_real(text: &mut String, real: Real, bytes: &[u8]) -> Result<(), AllocError>
    requires { length bytes.now ≤ 8 }
    ensures { OnOk result (string_bytes text.new
        ≡ string_bytes text.old ++ real_or_raw (format_of real) bytes.now) }
{
    let alloc = *text.allocator();
    match real_text(alloc, real, unsigned_of(bytes))? {
        Some(digits) => text.push_str(digits.as_str()),
        None => push_raw(text, bytes),
    }
}

fn push_whole(
    text: &mut String,
    value_type: ValueType,
    bits: usize,
    bytes: &[u8],
) -> Result<(), AllocError>
    requires bits { HasBits bits bytes.now }
    requires whole { is_whole value_type bits ≡ true }
    ensures { OnOk result
        (string_bytes text.new ≡ string_bytes text.old ++ whole_text value_type bytes.now) }
{
    match value_type {
        ValueType::Plain(data_type) => push_plain(text, data_type, bytes),
        ValueType::Real32 => push_real(text, Real::Real32, bytes),
        ValueType::Real64 => push_real(text, Real::Real64, bytes),
        ValueType::UnicodeString => push_unicode(text, bytes),
        ValueType::TimeOfDay => push_moment(text, bytes),
        ValueType::TimeDifference => push_difference(text, bytes),
    }
}

#[tactic(auto, unfolding(conode_text::specs::Filled::filled))]
fn push_count(text: &mut String, size: Option<usize>, bits: usize) -> Result<(), AllocError>
    ensures { OnOk result
        (string_bytes text.new ≡ string_bytes text.old ++ count_text size bits) }
{
    let bits = Value::Number(bits as u64);
    match size {
        Some(all) => push_filled(text, " (% of % bits)", &[bits, Value::Number(all as u64)]),
        None => push_filled(text, " (% bits)", &[bits]),
    }
}

/// Appends the text of a value of a type: of so many bits, the lowest first, in as few bytes as
/// they need. A number is decimal, BOOLEAN `true` or `false`, a VISIBLE_STRING or a UNICODE_STRING
/// in quotes, a TIME_OF_DAY a date and a time; a REAL has the fewest digits that are found to be
/// read as its bits. Bits of another number than the type has are raw, as `E803 (16 of 32 bits)`.
/// On an `Err` memory ran out, and a part of the text may be there.
#[tactic(auto, unfolding(crate::specs::Values::value_text))]
pub fn push_value(
    text: &mut String,
    value_type: ValueType,
    bits: usize,
    bytes: &[u8],
) -> Result<(), AllocError>
    requires { HasBits bits bytes.now }
    ensures { OnOk result
        (string_bytes text.new ≡ string_bytes text.old ++ value_text value_type bits bytes.now) }
{
    if value_type.is_whole(bits) {
        return push_whole(text, value_type, bits, bytes);
    }
    attempt!(push_raw(text, bytes));
    push_count(text, value_type.bits(), bits)
}
