//! Decimal digits.

ghost use Rattle.std.specs.Prelude.{◌≡◌, ◌++◌, OnOk, string_bytes, decimal};
ghost use Rattle.co_text.specs.Texts.{is_digit, decimal_in};

use arrayvec::ArrayString;
use itoa::Buffer;
use std::alloc::AllocError;

/// Whether a byte is one of `0` to `9`.
pub fn is_digit(byte: u8) -> bool
    ensures { result ≡ is_digit byte }
{
    b'0' <= byte && byte <= b'9'
}

/// Parses decimal digits, leading zeros allowed, as a number from `least` to `most`; `None` for
/// every other word.
pub fn decimal_in(word: &[u8], least: u32, most: u32) -> Option<u32>
    ensures { result ≡ decimal_in least most word.now }
{
    let mut number: u64 = 0;
    for byte in word {
        if !is_digit(*byte) {
            return None;
        }
        number = 10 * number + u64::from(*byte - b'0');
        if number > u64::from(most) {
            return None;
        }
    }
    if word.is_empty() || number < u64::from(least) {
        return None;
    }
    Some(number as u32)
}

/// A number in decimal digits.
pub fn decimal_digits(number: u64) -> ArrayString<20>
    ensures { result.bytes ≡ decimal number }
{
    let mut buffer = Buffer::new();
    let mut digits = ArrayString::new();
    digits.push_str(buffer.format(number));
    digits
}

/// Appends a number in decimal digits. `Err`: out of memory.
pub fn push_decimal(text: &mut String, number: u64) -> Result<(), AllocError>
    ensures { OnOk result (string_bytes text.new ≡ string_bytes text.old ++ decimal number) }
{
    let mut buffer = Buffer::new();
    text.push_str(buffer.format(number))
}
