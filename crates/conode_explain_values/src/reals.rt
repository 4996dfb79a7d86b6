//! The text of REAL32 and REAL64: few digits that are read as the same bits.

ghost use Rattle.std.specs.Prelude.{
  ◌≡◌,
  ◌==◌,
  ◌≤◌,
  ◌<◌,
  ◌*◌,
  ◌^◌,
  ◌++◌,
  ℕ,
  false,
  IfOk,
  IfSome,
  Some,
  option_map,
  string_bytes,
};
ghost use Rattle.std.specs.Float.Ieee.{Format, ones};
ghost use Rattle.conode_explain_values.specs.Reals.{
  exponent_of,
  format_of,
  read_bits,
  real_text,
  sign_text,
  significand_of,
  text_at,
  text_from,
  text_of_digits,
};

use crate::real::Real;
use crate::real_digits::{push_sign, rounded_text};
use crate::scaled::Scaled;
use std::alloc::{AllocError, Global};

/// A number with more digits isn't tried.
const MANY_DIGITS: u128 = 1_000_000_000_000_000_000;

// the text of a number, where it is read as these bits
fn text_of_digits(
    alloc: Global,
    real: Real,
    bits: u64,
    number: u128,
    tens: u16,
) -> Result<Option<String>, AllocError>
    requires { tens ≤ 4000 }
    ensures { IfOk result (λ made. option_map (λ t. string_bytes t) made
        ≡ text_of_digits (format_of real) bits number tens) }
{
    if number == 0 || number >= MANY_DIGITS {
        return Ok(None);
    }
    let text = attempt_value!(rounded_text(alloc, real.is_negative(bits), number as u64, tens));
    if real.is_read_as(bits, text.as_bytes()) {
        Ok(Some(text))
    } else {
        Ok(None)
    }
}

fn text_at(
    alloc: Global,
    real: Real,
    bits: u64,
    number: Scaled,
    places: u16,
) -> Result<Option<String>, AllocError>
    requires places { places ≤ 38 }
    requires tens { number.tens ≤ 3147 }
    requires room { number.digits < 5 * 2 ^ 125 }
    ensures { IfOk result (λ made. option_map (λ t. string_bytes t) made
        ≡ text_at (format_of real) bits number places) }
{
    text_of_digits(
        alloc,
        real,
        bits,
        number.rounded(places),
        number.tens + places,
    )
}

// the first text from so many places on down
#[tactic(auto, using(crate::proofs::RealLemmas::one_place), unfolding(crate::specs::Reals::text_from))]
fn text_from(
    alloc: Global,
    real: Real,
    bits: u64,
    number: Scaled,
    places: u16,
) -> Result<Option<String>, AllocError>
    requires places { places ≤ 39 }
    requires tens { number.tens ≤ 3147 }
    requires room { number.digits < 5 * 2 ^ 125 }
    ensures { IfOk result (λ made. option_map (λ t. string_bytes t) made
        ≡ text_from (format_of real) bits number places) }
{
    let mut left = places;
    while left > 0 {
        left -= 1;
        if let Some(text) = text_at(alloc, real, bits, number, left)? {
            return Ok(Some(text));
        }
    }
    Ok(None)
}

// a sign and a word
fn signed_word(alloc: Global, is_negative: bool, word: &str) -> Result<Option<String>, AllocError>
    ensures { IfOk result (λ made. option_map (λ t. string_bytes t) made
        ≡ Some (sign_text is_negative ++ word.now)) }
{
    let mut text = String::new(alloc);
    attempt!(push_sign(&mut text, is_negative));
    attempt!(text.push_str(word));
    Ok(Some(text))
}

/// The text of a REAL; `None` where no digits are found that are read as these bits.
pub(crate) fn real_text(alloc: Global, real: Real, bits: u64) -> Result<Option<String>, AllocError>
    ensures { IfOk result (λ made. option_map (λ t. string_bytes t) made
        ≡ real_text (format_of real) bits) }
{
    let is_negative = real.is_negative(bits);
    if real.exponent(bits) == real.greatest_exponent() {
        return if real.fraction(bits) == 0 {
            signed_word(alloc, is_negative, "inf")
        } else {
            signed_word(alloc, false, "NaN")
        };
    }
    if real.significand(bits) == 0 {
        return signed_word(alloc, is_negative, "0.0");
    }
    text_from(alloc, real, bits, real.scaled(bits), 39)
}

/// The digits of a number that is finite and not 0 are read as exactly its bits, by the reader that
/// `conode adapt` reads a default with. This is a law: a call of it changes nothing.
pub fn real_digits_are_read()
    ensures { (format : Format) → (bits : ℕ) → (exponent_of format bits == ones format) ≡ false →
        (significand_of format bits == 0) ≡ false →
        IfSome (real_text format bits) (λ text. read_bits format text ≡ Some bits) }
{}
