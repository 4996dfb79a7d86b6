//! The text of a UNICODE_STRING. Each function appends a text; on an `Err` memory ran out, and a
//! part of it may be there.

ghost use Rattle.std.specs.Prelude.{◌≡◌, ◌++◌, ◌<◌, ◌≤◌, ◌&&◌, OnOk, IfOk, true, length, string_bytes};
ghost use Rattle.std.specs.Char.{InScalarRange};
ghost use Rattle.conode_explain_values.specs.Unicode.{
  characters_text,
  code_of_pair,
  is_escaped,
  is_first,
  is_second,
  is_within,
  left_over,
  pair_text,
  unicode_text,
  unit_of,
  unit_text,
};

use conode_text::{Value, is_unseen, push_code, push_filled};
use std::alloc::AllocError;

fn unit_of(low: u8, high: u8) -> u16
    ensures { result ≡ unit_of low high }
{
    low as u16 + 256 * high as u16
}

fn is_pair(first: u16, second: u16) -> bool
    ensures { result ≡ (is_first first && is_second second) }
{
    (0xD800 <= first && first < 0xDC00) && (0xDC00 <= second && second < 0xE000)
}

fn is_within(low: u16, high: u16, unit: u16) -> bool
    ensures { result ≡ is_within low high unit }
{
    low <= unit && unit <= high
}

fn is_escaped(unit: u16) -> bool
    ensures { result ≡ is_escaped unit }
{
    (unit < 0x20 || is_within(0x7F, 0xA0, unit))
        || ((unit == 0x22 || unit == 0x5C)
            || (is_unseen(unit as u32) || is_within(0xD800, 0xDFFF, unit)))
}

fn scalar(code: u32) -> char
    requires { InScalarRange code }
    ensures { result ≡ code }
{
    char::from_u32(code).unwrap()
}

#[tactic(auto, unfolding(crate::specs::Unicode::unit_text, conode_text::specs::Filled::filled))]
fn push_unit(text: &mut String, unit: u16) -> Result<(), AllocError>
    ensures { OnOk result (string_bytes text.new ≡ string_bytes text.old ++ unit_text unit) }
{
    if is_escaped(unit) {
        return push_filled(text, "\\u%", &[Value::Short(unit)]);
    }
    text.push(scalar(unit as u32))
}

fn code_of_pair(first: u16, second: u16) -> u32
    requires { (is_first first && is_second second) ≡ true }
    ensures { result ≡ code_of_pair first second }
{
    0x1_0000 + 0x400 * (first - 0xD800) as u32 + (second - 0xDC00) as u32
}

#[tactic(auto, unfolding(crate::specs::Unicode::pair_text))]
fn push_pair(text: &mut String, first: u16, second: u16) -> Result<(), AllocError>
    requires { (is_first first && is_second second) ≡ true }
    ensures { OnOk result
        (string_bytes text.new ≡ string_bytes text.old ++ pair_text first second) }
{
    let code = code_of_pair(first, second);
    if is_unseen(code) {
        return push_code(text, code);
    }
    text.push(scalar(code))
}

// appends the first character, and gives the bytes after it
#[tactic(auto, unfolding(crate::specs::Unicode::characters_text))]
fn push_character<'a>(text: &mut String, bytes: &'a [u8]) -> Result<&'a [u8], AllocError>
    requires { 2 ≤ length bytes.now }
    ensures shorter { IfOk result (λ rest. length rest.now < length bytes.now) }
    ensures text { IfOk result (λ rest. string_bytes text.new ++ characters_text rest.now
        ≡ string_bytes text.old ++ characters_text bytes.now) }
{
    let unit = unit_of(bytes[0], bytes[1]);
    let rest = &bytes[2..];
    if let [low, high, later @ ..] = rest {
        let next = unit_of(*low, *high);
        if is_pair(unit, next) {
            attempt!(push_pair(text, unit, next));
            return Ok(later);
        }
    }
    attempt!(push_unit(text, unit));
    Ok(rest)
}

#[tactic(auto, unfolding(crate::specs::Unicode::characters_text))]
fn push_characters(text: &mut String, bytes: &[u8]) -> Result<(), AllocError>
    ensures { OnOk result
        (string_bytes text.new ≡ string_bytes text.old ++ characters_text bytes.now) }
{
    let mut rest = bytes;
    while rest.len() >= 2 {
        rest = attempt_value!(push_character(text, rest));
    }
    Ok(())
}

#[tactic(auto, unfolding(conode_text::specs::Filled::filled))]
fn push_left_over(text: &mut String, bytes: &[u8]) -> Result<(), AllocError>
    ensures { OnOk result (string_bytes text.new ≡ string_bytes text.old ++ left_over bytes.now) }
{
    if bytes.len() % 2 == 0 {
        return Ok(());
    }
    push_filled(text, "\\x%", &[Value::Byte(bytes[bytes.len() - 1])])
}

/// Appends a UNICODE_STRING in double quotes, its control characters as `\u0007`, blanks and marks
/// that can't be seen, or that turn the text around, as `\u202E` and `\U000E0001`, and the last byte
/// of an odd number of them as `\x41`.
pub(crate) fn push_unicode(text: &mut String, bytes: &[u8]) -> Result<(), AllocError>
    ensures { OnOk result
        (string_bytes text.new ≡ string_bytes text.old ++ unicode_text bytes.now) }
{
    attempt!(text.push_str("\""));
    attempt!(push_characters(text, bytes));
    attempt!(push_left_over(text, bytes));
    text.push_str("\"")
}
