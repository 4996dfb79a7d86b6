//! The numbers in a data sheet.

ghost use Rattle.std.specs.Prelude.{◌≡◌, ◌^◌, ◌<◌, ◌≤◌, ◌*◌, Some, None, pos, if◌then◌else◌};
ghost use Rattle.std.specs.List.{list_all};
ghost use Rattle.std.specs.Char.{is_digit};
ghost use Rattle.co_sheet_text.specs.Names.{number_in};
ghost use Rattle.co_sheet_text.specs.Numerals.{
  is_number_in,
  decimal_number,
  hexadecimal_number,
  unsigned_numeral,
  signed_numeral,
  unsigned_number,
  hexadecimal_value,
  value_at,
};

use crate::text::same_name;
use co_value::DataType;

/// A number as it is written, of a magnitude below 2^64 (CiA 306, numerals).
#[derive(Clone, Copy)]
pub enum Numeral {
    /// Decimal digits, perhaps after `-`.
    Decimal(i128),
    /// Hexadecimal digits after `0x`.
    Hexadecimal(u64),
}

/// Why a text is no number.
#[derive(Clone, Copy)]
pub enum NumeralFault {
    /// It has another form, a sign where none is allowed, or a magnitude of 2^64 or more.
    Malformed,
    /// It begins with 0, and is another number when read as octal.
    Ambiguous,
}

// whether a byte is a digit of the base
pub(crate) fn is_digit(byte: u8, base: u32) -> bool
    requires low { 2 ≤ base }
    requires high { base ≤ 36 }
    ensures { result ≡ is_digit byte base }
{
    char::from(byte).is_digit(base)
}

/// Whether each byte is a digit of the base, 2 to 36. Letters are digits in either case.
pub fn all_digits(text: &[u8], base: u32) -> bool
    requires low { 2 ≤ base }
    requires high { base ≤ 36 }
    ensures { result ≡ list_all (λ c. is_digit c base) text.now }
{
    text.iter().all(|byte| is_digit(*byte, base))
}

/// Parses digits of the base, 2 to 36; `None` where the text is empty or has any other byte, and
/// where the number is 2^64 or more.
pub fn number_in(base: u32, text: &[u8]) -> Option<u64>
    requires low { 2 ≤ base }
    requires high { base ≤ 36 }
    ensures { result
        ≡ (if is_number_in base text.now then Some (number_in base text.now) else None) }
{
    if text.is_empty() {
        return None;
    }
    let mut number: u64 = 0;
    for byte in text {
        let digit = char::from(*byte).to_digit(base)?;
        number = number
            .checked_mul(u64::from(base))?
            .checked_add(u64::from(digit))?;
    }
    Some(number)
}

fn decimal_number(text: &[u8]) -> Result<u64, NumeralFault>
    ensures { result ≡ decimal_number text.now }
{
    match (number_in(10, text), text) {
        (None, _) => Err(NumeralFault::Malformed),
        (Some(number), [b'0', ..]) if number > 7 => Err(NumeralFault::Ambiguous),
        (Some(number), _) => Ok(number),
    }
}

fn hexadecimal_number(text: &[u8]) -> Result<u64, NumeralFault>
    ensures { result ≡ hexadecimal_number text.now }
{
    number_in(16, text).ok_or(NumeralFault::Malformed)
}

/// Reads a number that may not be negative: decimal, or hexadecimal after `0x` (CiA 306, numerals).
/// `Malformed` where it has another form or is 2^64 or more, `Ambiguous` where it may be octal.
fn unsigned_numeral(text: &[u8]) -> Result<Numeral, NumeralFault>
    ensures { result ≡ unsigned_numeral text.now }
{
    let (front, digits) = text.split_at(text.len().min(2));
    if same_name(front, b"0x") {
        Ok(Numeral::Hexadecimal(hexadecimal_number(digits)?))
    } else {
        Ok(Numeral::Decimal(i128::from(decimal_number(text)?)))
    }
}

/// Reads a number that may be negative: decimal, `-` and decimal, or hexadecimal after `0x`
/// (CiA 306, numerals). `Malformed` where it has another form or a magnitude of 2^64 or more,
/// `Ambiguous` where it may be octal.
pub fn signed_numeral(text: &[u8]) -> Result<Numeral, NumeralFault>
    ensures { result ≡ signed_numeral text.now }
{
    match text {
        [b'-', digits @ ..] => Ok(Numeral::Decimal(-i128::from(decimal_number(digits)?))),
        [] => Err(NumeralFault::Malformed),
        _ => unsigned_numeral(text),
    }
}

/// The value of a number that may not be negative: decimal, or hexadecimal after `0x` (CiA 306,
/// numerals). `Malformed` where it has another form or is 2^64 or more, `Ambiguous` where it may be
/// octal.
pub fn unsigned_number(text: &[u8]) -> Result<u64, NumeralFault>
    ensures { result ≡ unsigned_number text.now }
{
    let (prefix, digits) = text.split_at(text.len().min(2));
    if same_name(prefix, b"0x") {
        hexadecimal_number(digits)
    } else {
        decimal_number(text)
    }
}

impl Numeral {
    /// The value of the numeral at a data type: a hexadecimal one is in two's complement if the
    /// type is signed.
    pub fn value_at(self, data_type: DataType) -> i128
        ensures { result ≡ value_at data_type self }
    {
        match (self, data_type.width()) {
            (Numeral::Decimal(value), _) => value,
            (Numeral::Hexadecimal(number), Some(width)) if data_type.is_signed() => {
                hexadecimal_value(8 * width, number)
            }
            (Numeral::Hexadecimal(number), _) => i128::from(number),
        }
    }
}

// two's complement, of a number of this many bits
fn hexadecimal_value(bits: usize, number: u64) -> i128
    requires some { 1 ≤ bits }
    requires few { bits ≤ 64 }
    ensures { result ≡ hexadecimal_value bits number }
{
    let value = i128::from(number);
    let end = power_of_two(bits);
    if power_of_two(bits - 1) <= value && value < end {
        value - end
    } else {
        value
    }
}

fn power_of_two(bits: usize) -> i128
    requires { bits ≤ 64 }
    ensures { result ≡ pos (2 ^ bits) }
{
    (1u128 << bits) as i128
}
