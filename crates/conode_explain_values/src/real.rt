//! The fields of a REAL32 and a REAL64 (CiA 301, 7.1.4.8; IEEE 754).

ghost use Rattle.std.specs.Prelude.{◌≡◌, ◌+◌, ◌*◌, ◌≤◌, ◌<◌, ◌^◌};
ghost use Rattle.std.specs.Float.Ieee.{binary32, binary64, hid, low, ones};
ghost use Rattle.conode_explain_values.specs.Reals.{
  exponent_of,
  format_of,
  fraction_of,
  is_negative,
  is_read_as,
  read_bits,
  scaled,
  significand_of,
};

use crate::scaled::Scaled;

/// A REAL32 or a REAL64.
#[derive(Clone, Copy)]
pub(crate) enum Real {
    Real32,
    Real64,
}

impl Real {
    pub(crate) fn is_negative(self, bits: u64) -> bool
        ensures { result ≡ is_negative (format_of self) bits }
    {
        match self {
            Real::Real32 => bits >= 0x8000_0000,
            Real::Real64 => bits >= 0x8000_0000_0000_0000,
        }
    }

    pub(crate) fn exponent(self, bits: u64) -> u16
        ensures exponent { result ≡ exponent_of (format_of self) bits }
        ensures few { result ≤ 2047 }
    {
        match self {
            Real::Real32 => (bits % 0x8000_0000 / 0x80_0000) as u16,
            Real::Real64 => (bits % 0x8000_0000_0000_0000 / 0x10_0000_0000_0000) as u16,
        }
    }

    pub(crate) fn fraction(self, bits: u64) -> u64
        ensures fraction { result ≡ fraction_of (format_of self) bits }
        ensures few { result < 2 ^ 52 }
    {
        match self {
            Real::Real32 => bits % 0x80_0000,
            Real::Real64 => bits % 0x10_0000_0000_0000,
        }
    }

    fn hidden_bit(self) -> u64
        ensures hidden { result ≡ hid (format_of self) }
        ensures few { result ≤ 2 ^ 52 }
    {
        match self {
            Real::Real32 => 0x80_0000,
            Real::Real64 => 0x10_0000_0000_0000,
        }
    }

    /// The exponent of what isn't finite.
    pub(crate) fn greatest_exponent(self) -> u16
        ensures { result ≡ ones (format_of self) }
    {
        match self {
            Real::Real32 => 255,
            Real::Real64 => 2047,
        }
    }

    fn lowest_bit(self) -> u16
        ensures lowest { result ≡ low (format_of self) + 1 }
        ensures few { result ≤ 1075 }
    {
        match self {
            Real::Real32 => 150,
            Real::Real64 => 1075,
        }
    }

    pub(crate) fn significand(self, bits: u64) -> u64
        ensures significand { result ≡ significand_of (format_of self) bits }
        ensures few { result < 2 ^ 53 }
    {
        let fraction = self.fraction(bits);
        if self.exponent(bits) == 0 {
            fraction
        } else {
            self.hidden_bit() + fraction
        }
    }

    /// The number without its sign.
    pub(crate) fn scaled(self, bits: u64) -> Scaled
        ensures scaled { result ≡ scaled (format_of self) bits }
        ensures tens { result.tens ≤ 3147 }
        ensures room { result.digits < 5 * 2 ^ 125 }
    {
        let up = self.exponent(bits).max(1);
        Scaled::power_of_two(self.significand(bits), up, self.lowest_bit())
    }

    /// Whether a text is read as these bits.
    pub(crate) fn is_read_as(self, bits: u64, text: &[u8]) -> bool
        ensures { result ≡ is_read_as (format_of self) bits text.now }
    {
        let number = match self {
            Real::Real32 => read_bits32(text),
            Real::Real64 => read_bits64(text),
        };
        match number {
            Some(number) => number == bits,
            None => false,
        }
    }
}

// the bits of the nearest REAL32
fn read_bits32(text: &[u8]) -> Option<u64>
    ensures { result ≡ read_bits binary32 text.now }
{
    let number: f32 = fast_float::parse(text).ok()?;
    if number.is_finite() {
        Some(u64::from(number.to_bits()))
    } else {
        None
    }
}

// the bits of the nearest REAL64
fn read_bits64(text: &[u8]) -> Option<u64>
    ensures { result ≡ read_bits binary64 text.now }
{
    let number: f64 = fast_float::parse(text).ok()?;
    if number.is_finite() {
        Some(number.to_bits())
    } else {
        None
    }
}
