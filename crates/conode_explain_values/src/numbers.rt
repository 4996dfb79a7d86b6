//! The text of a number. Each function appends a text; on an `Err` memory ran out, and a part of it
//! may be there.

ghost use Rattle.std.specs.Prelude.{◌≡◌, ◌++◌, ◌≤◌, OnOk, length, string_bytes};
ghost use Rattle.conode_explain_values.specs.Numbers.{boolean_text, number_text, signed_text};

use crate::value_type::BOOLEAN;
use co_text::push_decimal;
use co_value::{DataType, unsigned_of};
use std::alloc::AllocError;

fn push_boolean(text: &mut String, number: u64) -> Result<(), AllocError>
    ensures { OnOk result
        (string_bytes text.new ≡ string_bytes text.old ++ boolean_text number) }
{
    match number {
        0 => text.push_str("false"),
        1 => text.push_str("true"),
        _ => push_decimal(text, number),
    }
}

fn push_signed(text: &mut String, bits: usize, number: u64) -> Result<(), AllocError>
    requires some { 1 ≤ bits }
    requires few { bits ≤ 64 }
    ensures { OnOk result
        (string_bytes text.new ≡ string_bytes text.old ++ signed_text bits number) }
{
    let half = 1u64 << (bits - 1);
    if number < half {
        return push_decimal(text, number);
    }
    attempt!(text.push_str("-"));
    push_decimal(
        text,
        (2 * half as u128).saturating_sub(number as u128) as u64,
    )
}

/// Appends a number of a numeric type.
#[tactic(auto, unfolding(crate::specs::Numbers::number_text))]
pub(crate) fn push_number(
    text: &mut String,
    data_type: DataType,
    bytes: &[u8],
) -> Result<(), AllocError>
    requires some { 1 ≤ length bytes.now }
    requires few { length bytes.now ≤ 8 }
    ensures { OnOk result
        (string_bytes text.new ≡ string_bytes text.old ++ number_text data_type bytes.now) }
{
    let number = unsigned_of(bytes);
    if data_type.code() == BOOLEAN {
        push_boolean(text, number)
    } else if data_type.is_signed() {
        push_signed(text, 8 * bytes.len(), number)
    } else {
        push_decimal(text, number)
    }
}
