//! Values of the kinds that most texts have.

ghost use Rattle.std.specs.Prelude.{◌≡◌, ◌++◌, ℕ, List, OnOk, string_bytes};
ghost use Rattle.conode_text.specs.Values.{value_text};

use crate::filled::HasText;
use co_text::{push_byte, push_decimal, push_u16, push_u32};
use co_value::Key;
use std::alloc::AllocError;

/// A value in a text. A crate whose texts have other kinds too has an enum of its own.
#[derive(Clone, Copy)]
pub enum Value<'a> {
    /// Words of the program, as they are.
    Words(&'a str),
    /// A number in decimal digits.
    Number(u64),
    /// A number in two hexadecimal digits.
    Byte(u8),
    /// A number in four hexadecimal digits.
    Short(u16),
    /// A number in eight hexadecimal digits.
    Long(u32),
    /// The key of an entry, `1018:01`.
    Key(Key),
}

impl HasText for Value<'_> {
    ghost text_of = { value_text };

    fn push(&self, text: &mut String) -> Result<(), AllocError> {
        match *self {
            Value::Words(words) => text.push_str(words),
            Value::Number(number) => push_decimal(text, number),
            Value::Byte(byte) => push_byte(text, byte),
            Value::Short(number) => push_u16(text, number),
            Value::Long(number) => push_u32(text, number),
            Value::Key(key) => text.push_str(key.text().as_str()),
        }
    }
}
