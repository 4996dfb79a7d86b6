//! The digits of a decimal number. Each function appends a text; on an `Err` memory ran out, and a
//! part of it may be there.

ghost use Rattle.std.specs.Prelude.{
  ◌≡◌,
  ◌++◌,
  ◌-◌,
  ◌*◌,
  ◌≤◌,
  ◌<◌,
  ◌^◌,
  OnOk,
  IfOk,
  true,
  codes,
  decimal,
  length,
  string_bytes,
};
ghost use Rattle.co_text.specs.Printed.{digits_text};
ghost use Rattle.conode_explain_values.specs.Reals.{
  digits_shown,
  exponent_text,
  fixed_text,
  is_fixed,
  is_short,
  later_digits,
  power_text,
  rounded_text,
  sign_text,
};

use crate::scaled::{ORIGIN, power_of_ten};
use co_text::{decimal_digits, push_decimal, push_digit};
use conode_text::{Value, push_filled};
use std::alloc::{AllocError, Global};

// appends the last digits of a number, as many as are asked for
#[tactic(auto, unfolding(co_text::specs::Printed::digits_text))]
fn push_last_digits(text: &mut String, count: u16, number: u64) -> Result<(), AllocError>
    ensures { OnOk result
        (string_bytes text.new ≡ string_bytes text.old ++ digits_text 10 count number) }
{
    if count == 0 {
        return Ok(());
    }
    attempt!(push_last_digits(text, count - 1, number / 10));
    push_digit(text, (number % 10) as u8)
}

#[tactic(auto, using(crate::proofs::Powers::small_power_fits))]
fn small_power(exponent: u16) -> u64
    requires { exponent ≤ 19 }
    ensures power { result ≡ 10 ^ exponent }
    ensures some { 1 ≤ result }
{
    power_of_ten(exponent) as u64
}

// a number with a point in front of its last digits
#[tactic(auto, unfolding(crate::specs::Reals::fixed_text))]
fn push_fixed(text: &mut String, number: u64, places: u16) -> Result<(), AllocError>
    requires { places ≤ 19 }
    ensures { OnOk result
        (string_bytes text.new ≡ string_bytes text.old ++ fixed_text number places) }
{
    let unit = small_power(places);
    attempt!(push_decimal(text, number / unit));
    if places == 0 {
        return Ok(());
    }
    attempt!(text.push_str("."));
    push_last_digits(text, places, number % unit)
}

#[tactic(auto, unfolding(conode_text::specs::Filled::filled))]
fn push_exponent(text: &mut String, tens: u16) -> Result<(), AllocError>
    ensures { OnOk result
        (string_bytes text.new ≡ string_bytes text.old ++ exponent_text tens) }
{
    if tens >= ORIGIN {
        return push_decimal(text, (tens - ORIGIN) as u64);
    }
    push_filled(text, "-%", &[Value::Number((ORIGIN - tens) as u64)])
}

fn later_digits(number: u64) -> u16
    ensures later { result ≡ later_digits number }
    ensures few { result ≤ 19 }
{
    decimal_digits(number).len().saturating_sub(1) as u16
}

fn push_power(text: &mut String, number: u64, tens: u16) -> Result<(), AllocError>
    requires { tens ≤ 4000 }
    ensures { OnOk result
        (string_bytes text.new ≡ string_bytes text.old ++ power_text number tens) }
{
    let later = later_digits(number);
    attempt!(push_fixed(text, number, later));
    attempt!(text.push_str("e"));
    push_exponent(text, tens + later)
}

fn is_fixed(number: u64, tens: u16) -> bool
    ensures { result ≡ is_fixed number tens }
{
    tens < ORIGIN
        && (ORIGIN - tens <= 18 && power_of_ten(ORIGIN - tens) <= 100_000 * number as u128)
}

fn is_short(number: u64, tens: u16) -> bool
    requires { number < 10 ^ 18 }
    ensures { result ≡ is_short number tens }
{
    tens >= ORIGIN
        && (tens - ORIGIN <= 16 && number as u128 * power_of_ten(tens - ORIGIN) < power_of_ten(16))
}

#[tactic(auto, unfolding(conode_text::specs::Filled::filled))]
fn push_short(text: &mut String, number: u64, tens: u16) -> Result<(), AllocError>
    requires number { number < 10 ^ 18 }
    requires short { is_short number tens ≡ true }
    ensures { OnOk result (string_bytes text.new ≡ string_bytes text.old
        ++ (decimal (number * 10 ^ (tens - 1100)) ++ codes ".0")) }
{
    let whole = number as u128 * power_of_ten(tens - ORIGIN);
    push_filled(text, "%.0", &[Value::Number(whole as u64)])
}

fn push_digits(text: &mut String, number: u64, tens: u16) -> Result<(), AllocError>
    requires number { number < 10 ^ 18 }
    requires tens { tens ≤ 4000 }
    ensures { OnOk result
        (string_bytes text.new ≡ string_bytes text.old ++ digits_shown number tens) }
{
    if is_fixed(number, tens) {
        push_fixed(text, number, ORIGIN - tens)
    } else if is_short(number, tens) {
        push_short(text, number, tens)
    } else {
        push_power(text, number, tens)
    }
}

/// Appends a minus, where the number is negative.
pub(crate) fn push_sign(text: &mut String, is_negative: bool) -> Result<(), AllocError>
    ensures { OnOk result
        (string_bytes text.new ≡ string_bytes text.old ++ sign_text is_negative) }
{
    if is_negative {
        text.push_str("-")
    } else {
        Ok(())
    }
}

fn push_rounded(
    text: &mut String,
    is_negative: bool,
    number: u64,
    tens: u16,
) -> Result<(), AllocError>
    requires number { number < 10 ^ 18 }
    requires tens { tens ≤ 4000 }
    ensures { OnOk result (string_bytes text.new
        ≡ string_bytes text.old ++ rounded_text is_negative number tens) }
{
    attempt!(push_sign(text, is_negative));
    push_digits(text, number, tens)
}

/// The text of `number` × 10 ^ (`tens` - 1100), with its sign.
pub(crate) fn rounded_text(
    alloc: Global,
    is_negative: bool,
    number: u64,
    tens: u16,
) -> Result<String, AllocError>
    requires number { number < 10 ^ 18 }
    requires tens { tens ≤ 4000 }
    ensures { IfOk result (λ made. string_bytes made ≡ rounded_text is_negative number tens) }
{
    let mut text = String::new(alloc);
    attempt!(push_rounded(&mut text, is_negative, number, tens));
    Ok(text)
}
