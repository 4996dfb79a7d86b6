//! Data types that are left out, and the types of as many bytes that stand for them
//! (CiA 301, 7.4.7.1).

ghost use Rattle.std.specs.Prelude.{◌≡◌, is_some, nat_lt, IfOk, option_map};
ghost use Rattle.std.specs.List.{list_all};
ghost use Rattle.co_sheet_adapt.specs.LeftOut.{
  left_out_with,
  left_out_code,
  code_in_place,
  hexadecimal,
  is_inconvertible,
  is_real,
  number_text,
  real32_bits,
  real64_bits,
  utf16_text,
  value_in_place,
};

use co_sheet_changes::hexadecimal;
use co_sheet_text::unsigned_number;
use co_text::push_byte;
use std::alloc::{AllocError, Global};

/// A data type that is left out.
#[derive(Clone, Copy)]
pub enum LeftOut {
    Real32,
    UnicodeString,
    TimeOfDay,
    TimeDifference,
    Real64,
}

impl LeftOut {
    /// The type with this code.
    pub(crate) fn with(code: u64) -> Option<LeftOut>
        ensures { result ≡ left_out_with code }
    {
        match code {
            0x08 => Some(LeftOut::Real32),
            0x0B => Some(LeftOut::UnicodeString),
            0x0C => Some(LeftOut::TimeOfDay),
            0x0D => Some(LeftOut::TimeDifference),
            0x11 => Some(LeftOut::Real64),
            _ => None,
        }
    }

    #[tactic(auto, unfolding(co_text::specs::Printed::digits_text))]
    pub(crate) fn code(self) -> &'static [u8]
        ensures { result.now ≡ hexadecimal 4 (left_out_code self) }
    {
        match self {
            LeftOut::Real32 => b"0x0008",
            LeftOut::UnicodeString => b"0x000B",
            LeftOut::TimeOfDay => b"0x000C",
            LeftOut::TimeDifference => b"0x000D",
            LeftOut::Real64 => b"0x0011",
        }
    }

    /// The code of the type that stands for it: UNSIGNED32, OCTET_STRING, UNSIGNED48 or UNSIGNED64.
    #[tactic(auto, unfolding(co_text::specs::Printed::digits_text))]
    pub(crate) fn code_in_place(self) -> &'static [u8]
        ensures { result.now ≡ hexadecimal 4 (code_in_place self) }
    {
        match self {
            LeftOut::Real32 => b"0x0007",
            LeftOut::UnicodeString => b"0x000A",
            LeftOut::TimeOfDay | LeftOut::TimeDifference => b"0x0019",
            LeftOut::Real64 => b"0x001B",
        }
    }

    pub(crate) fn is_real(self) -> bool
        ensures { result ≡ is_real self }
    {
        matches!(self, LeftOut::Real32 | LeftOut::Real64)
    }

    /// Whether a value of the type can be written at the type that stands for it.
    pub(crate) fn converts(self, value: &[u8]) -> bool
        ensures { result ≡ is_some (value_in_place self value.now) }
    {
        match self {
            LeftOut::Real32 => real32_bits(value).is_some(),
            LeftOut::Real64 => real64_bits(value).is_some(),
            LeftOut::UnicodeString => is_ascii(value),
            LeftOut::TimeOfDay | LeftOut::TimeDifference => unsigned_number(value).is_ok(),
        }
    }

    /// A value of the type as it is written at the type that stands for it: bits of a REAL, bytes
    /// of a UNICODE_STRING in UTF-16, others as they are. `None` where there is no such form: for a
    /// text that is no number, or that isn't ASCII. `Err`: out of memory.
    pub(crate) fn value_in_place(
        self,
        alloc: Global,
        value: &[u8],
    ) -> Result<Option<Vec<u8>>, AllocError>
        ensures { IfOk result (λ made. option_map (λ v. v.items) made ≡ value_in_place self value.now) }
    {
        match self {
            LeftOut::Real32 => bits_text(alloc, 8, real32_bits(value)),
            LeftOut::Real64 => bits_text(alloc, 16, real64_bits(value)),
            LeftOut::UnicodeString => utf16(alloc, value),
            LeftOut::TimeOfDay | LeftOut::TimeDifference => number_text(alloc, value),
        }
    }
}

// the bits of the nearest REAL32
fn real32_bits(value: &[u8]) -> Option<u64>
    ensures { result ≡ real32_bits value.now }
{
    let number: f32 = fast_float::parse(value).ok()?;
    if number.is_finite() {
        Some(u64::from(number.to_bits()))
    } else {
        None
    }
}

// the bits of the nearest REAL64
fn real64_bits(value: &[u8]) -> Option<u64>
    ensures { result ≡ real64_bits value.now }
{
    let number: f64 = fast_float::parse(value).ok()?;
    if number.is_finite() {
        Some(number.to_bits())
    } else {
        None
    }
}

// bits in this many hexadecimal digits, if there are any
fn bits_text(alloc: Global, count: u8, bits: Option<u64>) -> Result<Option<Vec<u8>>, AllocError>
    ensures { IfOk result (λ made.
        option_map (λ v. v.items) made ≡ option_map (hexadecimal count) bits) }
{
    match bits {
        Some(bits) => Ok(Some(attempt!(hexadecimal(alloc, count, bits)))),
        None => Ok(None),
    }
}

fn number_text(alloc: Global, text: &[u8]) -> Result<Option<Vec<u8>>, AllocError>
    ensures { IfOk result (λ made. option_map (λ v. v.items) made ≡ number_text text.now) }
{
    if unsigned_number(text).is_err() {
        return Ok(None);
    }
    let mut made = Vec::new(alloc);
    attempt!(made.extend_from_slice(text));
    Ok(Some(made))
}

fn is_ascii(text: &[u8]) -> bool
    ensures { result ≡ list_all (λ byte. nat_lt byte 0x80) text.now }
{
    text.iter().all(|byte| *byte < 0x80)
}

// the bytes of a text in UTF-16, the low one first, in pairs of hexadecimal digits; of ASCII alone
fn utf16(alloc: Global, text: &[u8]) -> Result<Option<Vec<u8>>, AllocError>
    ensures { IfOk result (λ made. option_map (λ v. v.items) made ≡ utf16_text text.now) }
{
    if !is_ascii(text) {
        return Ok(None);
    }
    let mut made = String::new(alloc);
    for byte in text {
        attempt!(push_byte(&mut made, *byte));
        attempt!(push_byte(&mut made, 0));
    }
    Ok(Some(made.into_bytes()))
}

/// Whether a value keeps the data type of a code from being replaced: it can't be written at the type
/// that stands for it. No if none does.
pub fn is_inconvertible(code: u64, value: &[u8]) -> bool
    ensures { result ≡ is_inconvertible code value.now }
{
    match LeftOut::with(code) {
        Some(left_out) => !left_out.converts(value),
        None => false,
    }
}
