//! The text of TIME_OF_DAY and TIME_DIFFERENCE. Each function appends a text; on an `Err` memory
//! ran out, and a part of it may be there.

ghost use Rattle.std.specs.Prelude.{◌≡◌, ◌++◌, ◌<◌, ◌^◌, OnOk, length, string_bytes};
ghost use Rattle.co_text.specs.Printed.{digits_text, printed_digit};
ghost use Rattle.conode_explain_values.specs.Times.{
  days_in,
  difference_text,
  is_past_day,
  moment_text,
  ms_in,
  ms_text,
  past_words,
};

use arrayvec::ArrayString;
use co_value::unsigned_of;
use conode_explain_text::{push_day, push_time_of_day};
use conode_text::{Value, push_filled};
use std::alloc::AllocError;

/// 1 January 1984, counted in days from 1 January 1970.
const FIRST_DAY: u64 = 5113;

fn ms_in(bytes: &[u8]) -> u64
    requires { length bytes.now ≡ 6 }
    ensures ms { result ≡ ms_in bytes.now }
    ensures few { result < 2 ^ 28 }
{
    unsigned_of(&bytes[..4]) % 0x1000_0000
}

fn days_in(bytes: &[u8]) -> u64
    requires { length bytes.now ≡ 6 }
    ensures days { result ≡ days_in bytes.now }
    ensures few { result < 65536 }
{
    unsigned_of(&bytes[4..])
}

fn decimal_char(digit: u16) -> char
    requires { digit < 10 }
    ensures value { result ≡ printed_digit digit }
    ensures ascii { result < 128 }
{
    (b'0' + digit as u8) as char
}

#[tactic(auto, unfolding(co_text::specs::Printed::digits_text))]
fn three_digits(number: u16) -> ArrayString<3>
    ensures { result.bytes ≡ digits_text 10 3 number }
{
    let mut digits = ArrayString::new();
    digits.push(decimal_char(number / 10 / 10 % 10));
    digits.push(decimal_char(number / 10 % 10));
    digits.push(decimal_char(number % 10));
    digits
}

#[tactic(auto, unfolding(crate::specs::Times::ms_text, conode_text::specs::Filled::filled))]
fn push_ms(text: &mut String, ms: u64) -> Result<(), AllocError>
    ensures { OnOk result (string_bytes text.new ≡ string_bytes text.old ++ ms_text ms) }
{
    attempt!(push_time_of_day(text, ms / 1000));
    let rest = three_digits((ms % 1000) as u16);
    push_filled(text, ".%", &[Value::Words(rest.as_str())])
}

// a day has 86,400,000 ms; 28 bits have more
fn is_past_day(bytes: &[u8]) -> bool
    requires { length bytes.now ≡ 6 }
    ensures { result ≡ is_past_day bytes.now }
{
    ms_in(bytes) > 86_399_999
}

fn past_words(bytes: &[u8]) -> &'static str
    requires { length bytes.now ≡ 6 }
    ensures { result.now ≡ past_words bytes.now }
{
    if is_past_day(bytes) {
        " (past the end of the day)"
    } else {
        ""
    }
}

/// Appends a TIME_OF_DAY as its date and time; and that it is past the end of the day, where it is.
#[tactic(auto, unfolding(crate::specs::Times::moment_text))]
pub(crate) fn push_moment(text: &mut String, bytes: &[u8]) -> Result<(), AllocError>
    requires { length bytes.now ≡ 6 }
    ensures { OnOk result
        (string_bytes text.new ≡ string_bytes text.old ++ moment_text bytes.now) }
{
    attempt!(push_day(text, days_in(bytes) + FIRST_DAY));
    attempt!(text.push_str(" "));
    attempt!(push_ms(text, ms_in(bytes)));
    text.push_str(past_words(bytes))
}

/// Appends a TIME_DIFFERENCE as its days and time.
#[tactic(auto, unfolding(crate::specs::Times::difference_text, conode_text::specs::Filled::filled))]
pub(crate) fn push_difference(text: &mut String, bytes: &[u8]) -> Result<(), AllocError>
    requires { length bytes.now ≡ 6 }
    ensures { OnOk result
        (string_bytes text.new ≡ string_bytes text.old ++ difference_text bytes.now) }
{
    attempt!(push_filled(text, "% d ", &[Value::Number(days_in(bytes))]));
    push_ms(text, ms_in(bytes))
}
