//! Numbers for people. Each function appends a text; on an `Err` memory ran out, and a part of it
//! may be there.

ghost use Rattle.std.specs.Prelude.{◌≡◌, ◌<◌, ◌++◌, OnOk, codes, string_bytes};
ghost use Rattle.co_text.specs.Printed.{printed_digit};
ghost use Rattle.conode_explain_entries.specs.Numbers.{
  grouped,
  is_time,
  known_seconds,
  millions,
  plural,
  seconds_text,
  thousands,
  three_digits,
};

use arrayvec::ArrayString;
use co_text::push_decimal;
use std::alloc::AllocError;

fn decimal_char(digit: u64) -> char
    requires { digit < 10 }
    ensures value { result ≡ printed_digit digit }
    ensures ascii { result < 128 }
{
    (b'0' + digit as u8) as char
}

#[tactic(auto, unfolding(co_text::specs::Printed::digits_text))]
fn three_digits(number: u64) -> ArrayString<3>
    ensures { result.bytes ≡ three_digits number }
{
    let mut digits = ArrayString::new();
    digits.push(decimal_char(number / 10 / 10 % 10));
    digits.push(decimal_char(number / 10 % 10));
    digits.push(decimal_char(number % 10));
    digits
}

// a comma and three digits
fn push_group(text: &mut String, number: u64) -> Result<(), AllocError>
    ensures { OnOk result
        (string_bytes text.new ≡ string_bytes text.old ++ codes "," ++ three_digits number) }
{
    attempt!(text.push_str(","));
    text.push_str(three_digits(number).as_str())
}

#[tactic(auto, unfolding(crate::specs::Numbers::millions))]
fn push_millions(text: &mut String, number: u64) -> Result<(), AllocError>
    ensures { OnOk result (string_bytes text.new ≡ string_bytes text.old ++ millions number) }
{
    if number < 1000 {
        return push_decimal(text, number);
    }
    attempt!(push_decimal(text, number / 1000));
    push_group(text, number % 1000)
}

#[tactic(auto, unfolding(crate::specs::Numbers::thousands))]
fn push_thousands(text: &mut String, number: u64) -> Result<(), AllocError>
    ensures { OnOk result (string_bytes text.new ≡ string_bytes text.old ++ thousands number) }
{
    if number < 1000 {
        return push_decimal(text, number);
    }
    attempt!(push_millions(text, number / 1000));
    push_group(text, number % 1000)
}

/// Appends a number with commas between its digits.
#[tactic(auto, unfolding(crate::specs::Numbers::grouped))]
pub(crate) fn push_grouped(text: &mut String, number: u64) -> Result<(), AllocError>
    ensures { OnOk result (string_bytes text.new ≡ string_bytes text.old ++ grouped number) }
{
    if number < 1000 {
        return push_decimal(text, number);
    }
    attempt!(push_thousands(text, number / 1000));
    push_group(text, number % 1000)
}

/// What comes after a thing of which there are so many.
pub(crate) fn plural(number: u64) -> &'static str
    ensures { result.now ≡ plural number }
{
    if number == 1 { "" } else { "s" }
}

// whether the time between two stamps is known
fn is_time(from: u64, to: u64) -> bool
    ensures { result ≡ is_time from to }
{
    !(to < from) && !(from == 0 && to == 0)
}

#[tactic(auto, unfolding(crate::specs::Numbers::known_seconds))]
fn push_known_seconds(text: &mut String, from: u64, to: u64) -> Result<(), AllocError>
    ensures { OnOk result
        (string_bytes text.new ≡ string_bytes text.old ++ known_seconds from to) }
{
    let millis = to.saturating_sub(from) / 1000;
    attempt!(push_decimal(text, millis / 1000));
    attempt!(text.push_str("."));
    attempt!(text.push_str(three_digits(millis % 1000).as_str()));
    text.push_str(" s")
}

/// Appends the time from one stamp to another in seconds, with three digits after the point; `? s`
/// where the other is earlier, and where both are 0, as in a recording without stamps.
pub(crate) fn push_seconds(text: &mut String, from: u64, to: u64) -> Result<(), AllocError>
    ensures { OnOk result (string_bytes text.new ≡ string_bytes text.old ++ seconds_text from to) }
{
    if is_time(from, to) {
        push_known_seconds(text, from, to)
    } else {
        text.push_str("? s")
    }
}
