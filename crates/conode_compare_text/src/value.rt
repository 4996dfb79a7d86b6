//! Values in lines, and what is said with them.

ghost use Rattle.std.specs.Prelude.{◌≡◌, ◌++◌, OnOk, string_bytes};
ghost use Rattle.std.specs.Fmt.{signed_decimal};
ghost use Rattle.co_text.specs.Printed.{digits_text};
ghost use Rattle.conode_compare_text.specs.Values.{
  bytes_text,
  came_text,
  eight_digits,
  hexadecimal,
  high_digits,
  line_text,
  millis_text,
  printed,
  said_text,
  shown_value,
};

use crate::details::Came;
use co_text::{push_byte, push_decimal, push_digit, push_u16, push_u32};
use co_value::{Key, bytes_of_u32};
use conode_explain_values::{ValueType, push_value};
use conode_text::{HasText, push_filled};
use std::alloc::AllocError;

/// A value in a line. It has no lifetime parameter: of a value with one, the proof of the code writes
/// out the type at each step.
#[derive(Clone, Copy)]
pub(crate) enum Value {
    /// Words of the program, as they are.
    Words(&'static str),
    /// A number in decimal digits.
    Number(u64),
    /// The same, with its sign.
    Signed(i128),
    /// Microseconds, in ms with three digits after the point.
    Millis(u64),
    /// A number of bytes, as `2 bytes`.
    Bytes(u64),
    /// A number in two hexadecimal digits.
    Byte(u8),
    /// A number in four hexadecimal digits.
    Short(u16),
    /// A number in eight hexadecimal digits.
    Long(u32),
    /// A number in eight hexadecimal digits, or in sixteen, and `h`.
    Hexadecimal(u64),
    /// The key of an entry.
    Key(Key),
    /// A value of up to eight bytes of an entry with values of this type.
    Shown(ValueType, u64),
    /// An answer: its first byte, or how many bytes it has, where these aren't eight.
    Answer(Came),
}

#[tactic(auto, unfolding(co_text::specs::Printed::digits_text))]
fn push_three_digits(text: &mut String, number: u64) -> Result<(), AllocError>
    ensures { OnOk result
        (string_bytes text.new ≡ string_bytes text.old ++ digits_text 10 3 number) }
{
    attempt!(push_digit(text, (number / 10 / 10 % 10) as u8));
    attempt!(push_digit(text, (number / 10 % 10) as u8));
    push_digit(text, (number % 10) as u8)
}

// microseconds, in ms with three digits after the point
#[tactic(auto, unfolding(crate::specs::Values::millis_text))]
fn push_millis(text: &mut String, micros: u64) -> Result<(), AllocError>
    ensures { OnOk result (string_bytes text.new ≡ string_bytes text.old ++ millis_text micros) }
{
    attempt!(push_decimal(text, micros / 1000));
    attempt!(text.push('.'));
    attempt!(push_three_digits(text, micros % 1000));
    text.push_str(" ms")
}

// a number of bytes
#[tactic(auto, unfolding(crate::specs::Values::bytes_text))]
fn push_bytes(text: &mut String, number: u64) -> Result<(), AllocError>
    ensures { OnOk result (string_bytes text.new ≡ string_bytes text.old ++ bytes_text number) }
{
    attempt!(push_decimal(text, number));
    text.push_str(if number == 1 { " byte" } else { " bytes" })
}

// the low 32 bits of a number in eight hexadecimal digits
#[tactic(auto, unfolding(crate::specs::Values::eight_digits))]
fn push_eight_digits(text: &mut String, number: u64) -> Result<(), AllocError>
    ensures { OnOk result (string_bytes text.new ≡ string_bytes text.old ++ eight_digits number) }
{
    attempt!(push_u16(text, (number / 0x1_0000 % 0x1_0000) as u16));
    push_u16(text, (number % 0x1_0000) as u16)
}

// the digits of the bits above these, where one is set
fn push_high_digits(text: &mut String, number: u64) -> Result<(), AllocError>
    ensures { OnOk result (string_bytes text.new ≡ string_bytes text.old ++ high_digits number) }
{
    if number < 0x1_0000_0000 {
        Ok(())
    } else {
        push_eight_digits(text, number / 0x1_0000_0000)
    }
}

// a number in eight hexadecimal digits, or in sixteen
#[tactic(auto, unfolding(crate::specs::Values::hexadecimal))]
fn push_hexadecimal(text: &mut String, number: u64) -> Result<(), AllocError>
    ensures { OnOk result (string_bytes text.new ≡ string_bytes text.old ++ hexadecimal number) }
{
    attempt!(push_high_digits(text, number));
    attempt!(push_eight_digits(text, number));
    text.push('h')
}

// a value of up to eight bytes
#[tactic(auto, unfolding(crate::specs::Values::shown_value))]
fn push_shown(text: &mut String, value_type: ValueType, number: u64) -> Result<(), AllocError>
    ensures { OnOk result (string_bytes text.new
        ≡ string_bytes text.old ++ shown_value value_type number) }
{
    match value_type {
        ValueType::Real32 => {
            let bytes = bytes_of_u32((number % 0x1_0000_0000) as u32);
            push_value(text, value_type, 32, &bytes)
        }
        _ => push_hexadecimal(text, number),
    }
}

fn push_signed(text: &mut String, number: i128) -> Result<(), AllocError>
    ensures { OnOk result
        (string_bytes text.new ≡ string_bytes text.old ++ signed_decimal number) }
{
    write!(text, "{number}")
}

// an answer
#[tactic(auto, unfolding(crate::specs::Values::came_text))]
fn push_came(text: &mut String, came: Came) -> Result<(), AllocError>
    ensures { OnOk result (string_bytes text.new ≡ string_bytes text.old ++ came_text came) }
{
    if came.length == 8 {
        attempt!(push_byte(text, came.command));
        text.push('h')
    } else {
        attempt!(text.push_str("of "));
        push_bytes(text, came.length as u64)
    }
}

impl HasText for Value {
    ghost text_of = { printed };

    fn push(&self, text: &mut String) -> Result<(), AllocError> {
        match *self {
            Value::Words(words) => text.push_str(words),
            Value::Number(number) => push_decimal(text, number),
            Value::Signed(number) => push_signed(text, number),
            Value::Millis(micros) => push_millis(text, micros),
            Value::Bytes(number) => push_bytes(text, number),
            Value::Byte(byte) => push_byte(text, byte),
            Value::Short(number) => push_u16(text, number),
            Value::Long(number) => push_u32(text, number),
            Value::Hexadecimal(number) => push_hexadecimal(text, number),
            Value::Key(key) => text.push_str(key.text().as_str()),
            Value::Shown(value_type, number) => push_shown(text, value_type, number),
            Value::Answer(came) => push_came(text, came),
        }
    }
}

/// What is said in a line: words, with a value in each of their places.
#[derive(Clone, Copy)]
pub(crate) enum Said {
    /// Words as they are.
    Alone(&'static str),
    /// Words with one place.
    One(&'static str, Value),
    /// Words with two places.
    Two(&'static str, Value, Value),
    /// Words with three places.
    Three(&'static str, Value, Value, Value),
}

/// Appends what is said. On an `Err` memory ran out, and a part of it may be there.
pub(crate) fn push_said(text: &mut String, said: Said) -> Result<(), AllocError>
    ensures { OnOk result (string_bytes text.new ≡ string_bytes text.old ++ said_text said) }
{
    match said {
        Said::Alone(words) => text.push_str(words),
        Said::One(words, first) => push_filled(text, words, &[first]),
        Said::Two(words, first, second) => push_filled(text, words, &[first, second]),
        Said::Three(words, first, second, third) => {
            push_filled(text, words, &[first, second, third])
        }
    }
}

/// Sets a text to a line: the name of the recording, the number of its line, what is said, and a
/// line feed. On an `Err` memory ran out, and a part of it may be there.
#[tactic(auto, unfolding(crate::specs::Values::line_front))]
pub(crate) fn set_line(
    text: &mut String,
    recording: &str,
    line: u64,
    said: Said,
) -> Result<(), AllocError>
    ensures { OnOk result
        (string_bytes text.new ≡ line_text recording.now line (said_text said)) }
{
    text.clear();
    attempt!(text.push_str(recording));
    attempt!(push_filled(text, ":%: ", &[Value::Number(line)]));
    attempt!(push_said(text, said));
    text.push('\n')
}
