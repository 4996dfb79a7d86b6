//! Numbers printed in digits.

ghost use Rattle.std.specs.Prelude.{◌≡◌, ◌<◌, [], ◌∷◌, ◌++◌, OnOk, string_bytes};
ghost use Rattle.std.specs.List.{flat_map};
ghost use Rattle.co_text.specs.Printed.{byte_text, digits_text, printed_digit};

use arrayvec::ArrayString;
use std::alloc::AllocError;

// a digit, from ten on a letter in upper case
fn digit_char(digit: u8) -> char
    requires { digit < 16 }
    ensures value { result ≡ printed_digit digit }
    ensures ascii { result < 128 }
{
    let code = if digit < 10 {
        b'0' + digit
    } else {
        b'A' - 10 + digit
    };
    code as char
}

/// A byte in two hexadecimal digits, letters in upper case.
#[tactic(auto, unfolding(crate::specs::Printed::digits_text))]
pub fn byte_digits(byte: u8) -> ArrayString<2>
    ensures { result.bytes ≡ digits_text 16 2 byte }
{
    let mut digits = ArrayString::new();
    digits.push(digit_char(byte / 16));
    digits.push(digit_char(byte % 16));
    digits
}

/// A number of two bytes in four hexadecimal digits, letters in upper case.
#[tactic(auto, unfolding(crate::specs::Printed::digits_text))]
pub fn word_digits(number: u16) -> ArrayString<4>
    ensures { result.bytes ≡ digits_text 16 4 number }
{
    let mut digits = ArrayString::new();
    digits.push_str(byte_digits((number / 256) as u8).as_str());
    digits.push_str(byte_digits((number % 256) as u8).as_str());
    digits
}

/// Appends a digit, from ten on a letter in upper case. `Err`: out of memory.
pub fn push_digit(text: &mut String, digit: u8) -> Result<(), AllocError>
    requires { digit < 16 }
    ensures { OnOk result
        (string_bytes text.new ≡ string_bytes text.old ++ printed_digit digit ∷ []) }
{
    text.push(digit_char(digit))
}

/// Appends a byte in two hexadecimal digits. `Err`: out of memory; the text may then have a part of
/// them.
#[tactic(auto, unfolding(crate::specs::Printed::digits_text))]
pub fn push_byte(text: &mut String, byte: u8) -> Result<(), AllocError>
    ensures { OnOk result (string_bytes text.new ≡ string_bytes text.old ++ digits_text 16 2 byte) }
{
    push_digit(text, byte / 16)?;
    push_digit(text, byte % 16)
}

/// Appends a number in four hexadecimal digits. `Err`: out of memory; the text may then have a part
/// of them.
#[tactic(auto, unfolding(crate::specs::Printed::digits_text))]
pub fn push_u16(text: &mut String, number: u16) -> Result<(), AllocError>
    ensures { OnOk result
        (string_bytes text.new ≡ string_bytes text.old ++ digits_text 16 4 number) }
{
    push_byte(text, (number / 256) as u8)?;
    push_byte(text, (number % 256) as u8)
}

/// Appends a number in eight hexadecimal digits. `Err`: out of memory; the text may then have a
/// part of them.
pub fn push_u32(text: &mut String, number: u32) -> Result<(), AllocError>
    ensures { OnOk result
        (string_bytes text.new ≡ string_bytes text.old ++ digits_text 16 8 number) }
{
    push_u16(text, (number / 65536) as u16)?;
    push_u16(text, (number % 65536) as u16)
}

/// Appends bytes, each in two hexadecimal digits. `Err`: out of memory; the text may then have a
/// part of them.
pub fn push_bytes(text: &mut String, bytes: &[u8]) -> Result<(), AllocError>
    ensures { OnOk result
        (string_bytes text.new ≡ string_bytes text.old ++ flat_map byte_text bytes.now) }
{
    for byte in bytes {
        push_byte(text, *byte)?;
    }
    Ok(())
}
