//! Stamps and times. Each function appends a text; on an `Err` memory ran out, and a part of it may
//! be there.

ghost use Rattle.std.specs.Prelude.{◌≡◌, [], ◌∷◌, ◌++◌, ◌<◌, ◌^◌, OnOk, codes, string_bytes, replicate};
ghost use Rattle.co_text.specs.Printed.{digits_text, printed_digit};
ghost use Rattle.conode_explain_text.specs.Dates.{date_of};
ghost use Rattle.conode_explain_text.specs.Stamps.{
  minus_text,
  padded,
  micros_text,
  time_text,
  difference_text,
  gap_text,
  lacks_gap,
  two_digits,
  date_text,
  time_of_day_text,
  moment_text,
  stamp_text,
};

use crate::dates::{Date, date_of};
use crate::pieces::{gap_piece, stamp_piece};
use crate::so_far::Times;
use arrayvec::ArrayString;
use conode_text::{Value, push_filled};
use itoa::Buffer;
use std::alloc::AllocError;

/// In which form stamps are written.
#[derive(Clone, Copy)]
pub enum StampForm {
    /// Since the first frame.
    Relative,
    /// As the recording has them.
    Absolute,
    /// Since the frame before.
    Delta,
    /// The date and the time of day in UTC, where stamps are counted from 1 January 1970.
    Date,
}

pub(crate) fn push_blanks(text: &mut String, count: usize) -> Result<(), AllocError>
    ensures { OnOk result (string_bytes text.new ≡ string_bytes text.old ++ replicate count 32) }
{
    for _blank in 0..count {
        attempt!(text.push(' '));
    }
    Ok(())
}

fn push_padded(text: &mut String, number: u64, width: usize) -> Result<(), AllocError>
    ensures { OnOk result (string_bytes text.new ≡ string_bytes text.old ++ padded width number) }
{
    let mut buffer = Buffer::new();
    let digits = buffer.format(number);
    attempt!(push_blanks(text, width.saturating_sub(digits.len())));
    text.push_str(digits)
}

fn decimal_char(digit: u32) -> char
    requires { digit < 10 }
    ensures value { result ≡ printed_digit digit }
    ensures ascii { result < 128 }
{
    (b'0' + digit as u8) as char
}

#[tactic(auto, unfolding(co_text::specs::Printed::digits_text))]
fn micros_digits(micros: u32) -> ArrayString<6>
    requires { micros < 10 ^ 6 }
    ensures { result.bytes ≡ micros_text micros }
{
    let mut digits = ArrayString::new();
    digits.push(decimal_char(micros / 10 / 10 / 10 / 10 / 10 % 10));
    digits.push(decimal_char(micros / 10 / 10 / 10 / 10 % 10));
    digits.push(decimal_char(micros / 10 / 10 / 10 % 10));
    digits.push(decimal_char(micros / 10 / 10 % 10));
    digits.push(decimal_char(micros / 10 % 10));
    digits.push(decimal_char(micros % 10));
    digits
}

/// Appends microseconds in six digits.
pub fn push_micros(text: &mut String, micros: u32) -> Result<(), AllocError>
    requires { micros < 10 ^ 6 }
    ensures { OnOk result
        (string_bytes text.new ≡ string_bytes text.old ++ micros_text micros) }
{
    text.push_str(micros_digits(micros).as_str())
}

// seconds, blanks before them up to this width, and six digits of microseconds
#[tactic(auto, unfolding(crate::specs::Stamps::time_text))]
fn push_time(text: &mut String, micros: u64, width: usize) -> Result<(), AllocError>
    ensures { OnOk result
        (string_bytes text.new ≡ string_bytes text.old ++ time_text width micros) }
{
    attempt!(push_padded(text, micros / 1_000_000, width));
    attempt!(text.push('.'));
    push_micros(text, (micros % 1_000_000) as u32)
}

// a sign and a time
fn push_signed(text: &mut String, sign: char, width: usize, micros: u64) -> Result<(), AllocError>
    requires { sign < 128 }
    ensures { OnOk result
        (string_bytes text.new ≡ string_bytes text.old ++ sign ∷ time_text width micros) }
{
    attempt!(text.push(sign));
    push_time(text, micros, width)
}

// a time with a hyphen right before the seconds
fn push_minus(text: &mut String, width: usize, micros: u64) -> Result<(), AllocError>
    ensures { OnOk result
        (string_bytes text.new ≡ string_bytes text.old ++ minus_text width micros) }
{
    let mut buffer = Buffer::new();
    let digits = buffer.format(micros / 1_000_000);
    attempt!(push_blanks(text, width.saturating_sub(digits.len())));
    attempt!(text.push('-'));
    push_time(text, micros, 0)
}

// the time from one stamp to another: a hyphen in it where the other is the earlier one, else this
// sign before it
#[tactic(auto, unfolding(crate::specs::Stamps::difference_text))]
fn push_difference(
    text: &mut String,
    plus: char,
    width: usize,
    from: u64,
    to: u64,
) -> Result<(), AllocError>
    requires { plus < 128 }
    ensures { OnOk result (string_bytes text.new
        ≡ string_bytes text.old ++ difference_text (plus ∷ []) width from to) }
{
    if from <= to {
        push_signed(text, plus, width, to - from)
    } else {
        push_minus(text, width, from - to)
    }
}

#[tactic(auto, unfolding(co_text::specs::Printed::digits_text))]
fn two_digits(number: u64) -> ArrayString<2>
    ensures { result.bytes ≡ two_digits number }
{
    let mut digits = ArrayString::new();
    digits.push(decimal_char((number / 10 % 10) as u32));
    digits.push(decimal_char((number % 10) as u32));
    digits
}

#[tactic(auto, unfolding(crate::specs::Stamps::date_text, conode_text::specs::Filled::filled))]
fn push_date(text: &mut String, date: Date) -> Result<(), AllocError>
    ensures { OnOk result (string_bytes text.new ≡ string_bytes text.old ++ date_text date) }
{
    let month = two_digits(date.month);
    let day = two_digits(date.day);
    push_filled(
        text,
        "%-%-%",
        &[
            Value::Number(date.year),
            Value::Words(month.as_str()),
            Value::Words(day.as_str()),
        ],
    )
}

/// Appends the date of a day that is counted from 1 January 1970, as `2015-07-10`.
pub fn push_day(text: &mut String, day: u64) -> Result<(), AllocError>
    requires { day < 2 ^ 50 }
    ensures { OnOk result
        (string_bytes text.new ≡ string_bytes text.old ++ date_text (date_of day)) }
{
    push_date(text, date_of(day))
}

/// Appends seconds as hours, minutes and seconds, as `06:17:32`.
#[tactic(auto, unfolding(crate::specs::Stamps::time_of_day_text, conode_text::specs::Filled::filled))]
pub fn push_time_of_day(text: &mut String, seconds: u64) -> Result<(), AllocError>
    ensures { OnOk result
        (string_bytes text.new ≡ string_bytes text.old ++ time_of_day_text seconds) }
{
    let hours = two_digits(seconds / 3600);
    let minutes = two_digits(seconds / 60 % 60);
    let seconds = two_digits(seconds % 60);
    push_filled(
        text,
        "%:%:%",
        &[
            Value::Words(hours.as_str()),
            Value::Words(minutes.as_str()),
            Value::Words(seconds.as_str()),
        ],
    )
}

/// Appends the date and the time of day of a stamp, in UTC, as `2015-07-10 06:17:32.249713`.
#[tactic(auto, unfolding(crate::specs::Stamps::moment_text, conode_text::specs::Filled::filled))]
pub fn push_moment(text: &mut String, micros: u64) -> Result<(), AllocError>
    ensures { OnOk result (string_bytes text.new ≡ string_bytes text.old ++ moment_text micros) }
{
    let seconds = micros / 1_000_000;
    attempt!(push_day(text, seconds / 86_400));
    attempt!(text.push(' '));
    attempt!(push_time_of_day(text, seconds % 86_400));
    let micros = micros_digits((micros % 1_000_000) as u32);
    push_filled(text, ".%", &[Value::Words(micros.as_str())])
}

/// Appends the stamp of a frame.
#[tactic(auto, unfolding(crate::specs::Stamps::stamp_text))]
pub(crate) fn push_stamp(text: &mut String, form: StampForm, times: Times) -> Result<(), AllocError>
    ensures { OnOk result (string_bytes text.new
        ≡ string_bytes text.old ++ stamp_text form times) }
{
    match form {
        StampForm::Relative => push_difference(text, ' ', 5, times.first, times.now),
        StampForm::Absolute => push_time(text, times.now, 10),
        StampForm::Delta => push_gap(text, times),
        StampForm::Date => push_moment(text, times.now),
    }
}

// whether the time since the frame before isn't known: a log without stamps has each frame at 0
fn lacks_gap(times: Times) -> bool
    ensures { result ≡ lacks_gap times }
{
    times.before == 0 && times.now == 0
}

/// Appends the time since the frame before, with its sign, or a hyphen where it isn't known; that of
/// the first frame is 0.
#[tactic(auto, unfolding(crate::specs::Stamps::gap_text))]
pub(crate) fn push_gap(text: &mut String, times: Times) -> Result<(), AllocError>
    ensures { OnOk result (string_bytes text.new ≡ string_bytes text.old ++ gap_text times) }
{
    if lacks_gap(times) {
        return text.push_str("        -");
    }
    push_difference(text, '+', 1, times.before, times.now)
}

/// Appends the stamp of a frame to a line; `text` is scratch space.
#[inline(always)]
#[tactic(auto, unfolding(crate::specs::Stamps::stamp_text, crate::specs::Stamps::difference_text))]
pub(crate) fn add_stamp(
    line: &mut Vec<u8>,
    text: &mut String,
    form: StampForm,
    times: Times,
) -> Result<(), AllocError>
    ensures { OnOk result (line.new.items ≡ line.old.items ++ stamp_text form times) }
{
    // those of most frames
    if let StampForm::Relative = form {
        if times.first <= times.now && times.now - times.first < 100_000_000_000 {
            let micros = times.now - times.first;
            return line.extend_from_slice(stamp_piece(micros).as_slice());
        }
    }
    text.clear();
    attempt!(push_stamp(text, form, times));
    line.extend_from_slice(text.as_bytes())
}

/// Appends two blanks and the time since the frame before to a line; `text` is scratch space.
#[tactic(auto, unfolding(crate::specs::Stamps::gap_text, crate::specs::Stamps::difference_text))]
pub(crate) fn add_gap(line: &mut Vec<u8>, text: &mut String, times: Times) -> Result<(), AllocError>
    ensures { OnOk result (line.new.items ≡ line.old.items ++ codes "  " ++ gap_text times) }
{
    // those of most frames
    if !lacks_gap(times) && times.before <= times.now && times.now - times.before < 10_000_000 {
        let micros = (times.now - times.before) as u32;
        return line.extend_from_slice(gap_piece(micros).as_slice());
    }
    text.clear();
    attempt!(text.push_str("  "));
    attempt!(push_gap(text, times));
    line.extend_from_slice(text.as_bytes())
}
