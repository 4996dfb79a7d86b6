//! Values in markup. Each function appends a text. `Err`: out of memory; a part of it may be there.

ghost use Rattle.std.specs.Prelude.{◌≡◌, ◌++◌, ℕ, List, OnOk, string_bytes};
ghost use Rattle.std.specs.Option.{option_copied, option_map};
ghost use Rattle.co_text.specs.Printed.{digits_text};
ghost use Rattle.conode_json.specs.Escapes.{escaped};
ghost use Rattle.conode_json.specs.Filled.{
  any_text,
  code_digits,
  code_text,
  seconds_text,
  value_text,
};

use crate::escape::push_escaped;
use co_text::{push_decimal, push_digit};
use co_value::Key;
use conode_text::{HasText, Value as Piece, push_filled};
use std::alloc::AllocError;

/// A value in markup.
#[derive(Clone, Copy)]
pub enum Value<'a> {
    /// Text from outside, escaped (`push_escaped`).
    Text(&'a [u8]),
    /// The same of a text in UTF-8.
    Name(&'a str),
    /// The same between these words; nothing if there is none.
    AnyText(&'a str, Option<&'a [u8]>, &'a str),
    /// Words of the program, as they are.
    Words(&'a str),
    /// The first of two words if a test holds, else the second.
    Either(bool, &'a str, &'a str),
    /// A number in decimal digits.
    Number(u64),
    /// How often something came, in decimal digits; these words for 0.
    Count(u64, &'a str),
    /// Microseconds, as seconds with six digits after the point: `12.345678`.
    Seconds(u64),
    /// The key of an entry, `1018:01`.
    Key(Key),
    /// The lowest 32 bits of a number in eight hexadecimal digits and `h`; these words for none.
    Code(Option<u64>, &'a str),
    /// The same between these words; nothing if there is none.
    AnyCode(&'a str, Option<u64>, &'a str),
}

// the last digits of a number, so many
#[tactic(auto, unfolding(co_text::specs::Printed::digits_text))]
fn push_last_digits(text: &mut String, count: u8, number: u64) -> Result<(), AllocError>
    ensures { OnOk result
        (string_bytes text.new ≡ string_bytes text.old ++ digits_text 10 count number) }
{
    if count == 0 {
        return Ok(());
    }
    push_last_digits(text, count - 1, number / 10)?;
    push_digit(text, (number % 10) as u8)
}

#[tactic(auto, unfolding(crate::specs::Filled::seconds_text, conode_text::specs::Filled::filled))]
fn push_seconds(text: &mut String, micros: u64) -> Result<(), AllocError>
    ensures { OnOk result (string_bytes text.new ≡ string_bytes text.old ++ seconds_text micros) }
{
    push_filled(text, "%.", &[Piece::Number(micros / 1_000_000)])?;
    push_last_digits(text, 6, micros % 1_000_000)
}

// text from outside between these words, if there is one
fn push_any(
    text: &mut String,
    before: &str,
    bytes: Option<&[u8]>,
    after: &str,
) -> Result<(), AllocError>
    ensures { OnOk result (string_bytes text.new ≡ string_bytes text.old
        ++ any_text before.now (option_map escaped (option_copied bytes.entry)) after.now) }
{
    let Some(bytes) = bytes else {
        return Ok(());
    };
    text.push_str(before)?;
    push_escaped(text, bytes)?;
    text.push_str(after)
}

#[tactic(auto, unfolding(crate::specs::Filled::code_digits, conode_text::specs::Filled::filled))]
fn push_code(text: &mut String, code: u64) -> Result<(), AllocError>
    ensures { OnOk result (string_bytes text.new ≡ string_bytes text.old ++ code_digits code) }
{
    push_filled(text, "%h", &[Piece::Long((code % 0x1_0000_0000) as u32)])
}

fn push_code_or(text: &mut String, code: Option<u64>, none: &str) -> Result<(), AllocError>
    ensures { OnOk result
        (string_bytes text.new ≡ string_bytes text.old ++ code_text code none.now) }
{
    match code {
        Some(code) => push_code(text, code),
        None => text.push_str(none),
    }
}

// a number between these words, if there is one
#[tactic(auto, unfolding(crate::specs::Filled::code_digits, conode_text::specs::Filled::filled))]
fn push_any_code<'t>(
    text: &mut String,
    before: &'t str,
    code: Option<u64>,
    after: &'t str,
) -> Result<(), AllocError>
    ensures { OnOk result (string_bytes text.new ≡ string_bytes text.old
        ++ any_text before.now (option_map code_digits code) after.now) }
{
    let Some(code) = code else {
        return Ok(());
    };
    push_filled(
        text,
        "%%h%",
        &[
            Piece::Words(before),
            Piece::Long((code % 0x1_0000_0000) as u32),
            Piece::Words(after),
        ],
    )
}

impl HasText for Value<'_> {
    ghost text_of = { value_text };

    fn push(&self, text: &mut String) -> Result<(), AllocError> {
        match *self {
            Value::Text(bytes) => push_escaped(text, bytes),
            Value::Name(name) => push_escaped(text, name.as_bytes()),
            Value::AnyText(before, bytes, after) => push_any(text, before, bytes, after),
            Value::Words(words)
            | Value::Either(true, words, _)
            | Value::Either(false, _, words)
            | Value::Count(0, words) => text.push_str(words),
            Value::Number(number) | Value::Count(number, _) => push_decimal(text, number),
            Value::Seconds(micros) => push_seconds(text, micros),
            Value::Key(key) => text.push_str(key.text().as_str()),
            Value::Code(code, none) => push_code_or(text, code, none),
            Value::AnyCode(before, code, after) => push_any_code(text, before, code, after),
        }
    }
}
