//! Numbers of a line: stamps, identifiers and bytes.

ghost use Rattle.std.specs.Prelude.{◌≡◌, ◌+◌, ◌*◌, ◌^◌, ◌<◌, ◌≤◌, length, IfSome, IsTrue};
ghost use Rattle.std.specs.List.{list_all};
ghost use Rattle.std.specs.Option.{option_map, option_copied};
ghost use Rattle.co_text.specs.Texts.{is_digit};
ghost use Rattle.conode_record.specs.Fields.{hex_number, stamp_at};
ghost use Rattle.conode_trace.specs.FrameLines.{number_at, past_byte};
ghost use Rattle.conode_record.specs.Numbers.{
  fraction_of,
  with_digit,
  with_three,
  millis_in,
  seconds_in,
  moved,
  day_of,
  is_date,
  date_at,
  is_time,
  time_at,
  moment_at,
  number_in,
  byte_of,
};

use co_text::{byte_in, decimal_in, hex_digit, is_digit};

/// The base of the numbers of a log.
#[derive(Clone, Copy)]
pub enum Base {
    /// Hexadecimal digits.
    Hexadecimal,
    /// Decimal digits.
    Decimal,
}

/// 10^12 seconds in microseconds: a line as `candump -L` writes it has at most twelve digits of
/// seconds.
const TOO_LATE: u64 = 1_000_000_000_000_000_000;

#[inline(always)]
fn past_byte(text: &[u8], wanted: u8) -> Option<&[u8]>
    ensures { option_copied result ≡ past_byte wanted text.now }
{
    match text {
        [byte, rest @ ..] if *byte == wanted => Some(rest),
        _ => None,
    }
}

#[inline(always)]
fn number_at(text: &[u8], least: usize, most: usize) -> Option<(u64, &[u8])>
    requires { most ≤ 12 }
    ensures exact { option_map (λ found. (found.0, found.1.now)) result
        ≡ number_at least most text.now }
    ensures small { IfSome result (λ found. found.0 < 10 ^ 12) }
{
    let mut number: u64 = 0;
    for (count, byte) in text.iter().enumerate() {
        if !is_digit(*byte) {
            return if count < least {
                None
            } else {
                Some((number, &text[count..]))
            };
        }
        if count == most {
            return None;
        }
        number = 10 * number + u64::from(*byte - b'0');
    }
    if text.len() < least {
        None
    } else {
        Some((number, &[]))
    }
}

fn are_digits(text: &[u8]) -> bool
    ensures { result ≡ list_all is_digit text.now }
{
    text.iter().all(|byte| is_digit(*byte))
}

// the digits after a point; no digits at the end of the text, and `None` if anything else follows
#[inline(always)]
fn fraction_of(text: &[u8]) -> Option<&[u8]>
    ensures exact { option_copied result ≡ fraction_of text.now }
    ensures digits { IfSome result (λ digits. IsTrue (list_all is_digit digits.now)) }
{
    match text {
        [] => Some(text),
        [b'.', digits @ ..] if are_digits(digits) => Some(digits),
        _ => None,
    }
}

// a number with one more digit
#[inline(always)]
fn with_digit(number: u64, digits: &[u8]) -> (u64, &[u8])
    requires small { number < 10 ^ 17 }
    requires digits { IsTrue (list_all is_digit digits.now) }
    ensures exact { (result.0, result.1.now) ≡ with_digit number digits.now }
    ensures small { result.0 < 10 * (number + 1) }
    ensures digits { IsTrue (list_all is_digit result.1.now) }
{
    match digits {
        [digit, rest @ ..] => (10 * number + u64::from(*digit - b'0'), rest),
        [] => (10 * number, digits),
    }
}

// a number with three more digits
#[tactic(auto, unfolding(crate::specs::Numbers::with_three))]
#[inline(always)]
fn with_three(number: u64, digits: &[u8]) -> (u64, &[u8])
    requires small { number < 10 ^ 15 }
    requires digits { IsTrue (list_all is_digit digits.now) }
    ensures exact { (result.0, result.1.now) ≡ with_three number digits.now }
    ensures small { result.0 < 1000 * (number + 1) }
    ensures digits { IsTrue (list_all is_digit result.1.now) }
{
    let (number, digits) = with_digit(number, digits);
    let (number, digits) = with_digit(number, digits);
    with_digit(number, digits)
}

/// Milliseconds, perhaps with a fraction, in microseconds; further digits are left out. `None` if
/// the word is no such number.
#[tactic(auto, unfolding(crate::specs::Numbers::millis_in))]
#[inline(always)]
pub fn millis_in(word: &[u8]) -> Option<u64>
    ensures { result ≡ millis_in word.now }
{
    let Some((whole, rest)) = number_at(word, 1, 12) else {
        return None;
    };
    let Some(fraction) = fraction_of(rest) else {
        return None;
    };
    Some(with_three(whole, fraction).0)
}

/// Seconds, perhaps with a fraction, in microseconds; further digits are left out. `None` if the
/// word is no such number.
#[tactic(auto, unfolding(crate::specs::Numbers::seconds_in))]
#[inline(always)]
pub fn seconds_in(word: &[u8]) -> Option<u64>
    ensures { result ≡ seconds_in word.now }
{
    let Some((whole, rest)) = number_at(word, 1, 12) else {
        return None;
    };
    let Some(fraction) = fraction_of(rest) else {
        return None;
    };
    let (thousandths, fraction) = with_three(whole, fraction);
    Some(with_three(thousandths, fraction).0)
}

/// The time of a stamp, in microseconds: it counts from the clock if it `sums`, else from 0. `None`
/// from 10^12 seconds on.
#[inline(always)]
pub fn moved(sums: bool, clock: u64, stamp: u64) -> Option<u64>
    ensures { result ≡ moved sums clock stamp }
{
    let now = if sums {
        let Some(sum) = clock.checked_add(stamp) else {
            return None;
        };
        sum
    } else {
        stamp
    };
    if now < TOO_LATE { Some(now) } else { None }
}

// the days from 1 January 1970 to a date
#[tactic(auto, unfolding(crate::specs::Numbers::day_of))]
fn day_of(year: u64, month: u64, day: u64) -> u64
    requires year { year < 10000 }
    requires first { 1970 ≤ year }
    requires month { month ≤ 12 }
    requires day { day ≤ 31 }
    ensures exact { result ≡ day_of year month day }
    ensures few { result < 4000000 }
{
    let (year, month) = if 2 < month {
        (year, month - 3)
    } else {
        (year - 1, month + 9)
    };
    let days = 365 * year + year / 4 + year / 400 + (153 * month + 2) / 5 + day;
    days.saturating_sub(year / 100 + 719_469)
}

fn is_date(year: u64, month: u64, day: u64) -> bool
    ensures { result ≡ is_date year month day }
{
    (1970..=9999).contains(&year) && (1..=12).contains(&month) && (1..=31).contains(&day)
}

// the days of a date, and what follows
#[tactic(auto, unfolding(crate::specs::Numbers::date_at))]
fn date_at(text: &[u8]) -> Option<(u64, &[u8])>
    ensures exact { option_map (λ found. (found.0, found.1.now)) result ≡ date_at text.now }
    ensures few { IfSome result (λ found. found.0 < 4000000) }
{
    let Some((year, text)) = number_at(text, 4, 4) else {
        return None;
    };
    let Some(text) = past_byte(text, b'-') else {
        return None;
    };
    let Some((month, text)) = number_at(text, 2, 2) else {
        return None;
    };
    let Some(text) = past_byte(text, b'-') else {
        return None;
    };
    let Some((day, text)) = number_at(text, 2, 2) else {
        return None;
    };
    if is_date(year, month, day) {
        Some((day_of(year, month, day), text))
    } else {
        None
    }
}

fn is_time(hour: u64, minute: u64, second: u64) -> bool
    ensures { result ≡ is_time hour minute second }
{
    hour <= 23 && minute <= 59 && second <= 60
}

// the seconds of a day, and what follows
#[tactic(auto, unfolding(crate::specs::Numbers::time_at))]
fn time_at(text: &[u8]) -> Option<(u64, &[u8])>
    ensures exact { option_map (λ found. (found.0, found.1.now)) result ≡ time_at text.now }
    ensures few { IfSome result (λ found. found.0 < 86500) }
{
    let Some((hour, text)) = number_at(text, 2, 2) else {
        return None;
    };
    let Some(text) = past_byte(text, b':') else {
        return None;
    };
    let Some((minute, text)) = number_at(text, 2, 2) else {
        return None;
    };
    let Some(text) = past_byte(text, b':') else {
        return None;
    };
    let Some((second, text)) = number_at(text, 2, 2) else {
        return None;
    };
    if is_time(hour, minute, second) {
        Some((3600 * hour + 60 * minute + second, text))
    } else {
        None
    }
}

/// A date and a time of day in parentheses, in microseconds since 1970, and what follows.
#[tactic(auto, unfolding(crate::specs::Numbers::moment_at))]
pub fn moment_at(text: &[u8]) -> Option<(u64, &[u8])>
    ensures { option_map (λ found. (found.0, found.1.now)) result ≡ moment_at text.now }
{
    let Some(text) = past_byte(text, b'(') else {
        return None;
    };
    let Some((days, text)) = date_at(text) else {
        return None;
    };
    let Some(text) = past_byte(text, b' ') else {
        return None;
    };
    let Some((seconds, text)) = time_at(text) else {
        return None;
    };
    let Some(text) = past_byte(text, b'.') else {
        return None;
    };
    let Some((micros, text)) = number_at(text, 6, 6) else {
        return None;
    };
    let Some(text) = past_byte(text, b')') else {
        return None;
    };
    Some((1_000_000 * (86_400 * days + seconds) + micros, text))
}

/// Seconds in parentheses, in microseconds, and what follows.
#[tactic(auto, unfolding(crate::specs::Fields::stamp_at))]
#[inline(always)]
pub fn stamp_at(text: &[u8]) -> Option<(u64, &[u8])>
    ensures { option_map (λ found. (found.0, found.1.now)) result ≡ stamp_at text.now }
{
    let Some(text) = past_byte(text, b'(') else {
        return None;
    };
    let Some((seconds, text)) = number_at(text, 1, 12) else {
        return None;
    };
    let Some(text) = past_byte(text, b'.') else {
        return None;
    };
    let Some((micros, text)) = number_at(text, 6, 6) else {
        return None;
    };
    let Some(text) = past_byte(text, b')') else {
        return None;
    };
    Some((1_000_000 * seconds + micros, text))
}

/// Hexadecimal digits as a number.
#[inline(always)]
pub fn hex_number(digits: &[u8]) -> Option<u32>
    requires { length digits.now ≤ 8 }
    ensures { result ≡ hex_number digits.now }
{
    let mut number: u64 = 0;
    for byte in digits {
        let Some(digit) = hex_digit(*byte) else {
            return None;
        };
        number = 16 * number + u64::from(digit);
    }
    Some(number as u32)
}

/// A number below 2^32 in this base: at most eight hexadecimal digits, or decimal ones.
pub fn number_in(base: Base, digits: &[u8]) -> Option<u32>
    ensures { result ≡ number_in base digits.now }
{
    match base {
        Base::Hexadecimal => {
            if 0 < digits.len() && digits.len() <= 8 {
                hex_number(digits)
            } else {
                None
            }
        }
        Base::Decimal => decimal_in(digits, 0, u32::MAX),
    }
}

/// A byte: two hexadecimal digits, or a decimal number.
#[inline(always)]
pub fn byte_of(base: Base, word: &[u8]) -> Option<u8>
    ensures { result ≡ byte_of base word.now }
{
    match base {
        Base::Hexadecimal => byte_in(word),
        Base::Decimal => match decimal_in(word, 0, 255) {
            Some(number) => Some(number as u8),
            None => None,
        },
    }
}
