//! The bit rate of a bus, from a word of the command line or a device configuration file.

ghost use Rattle.std.specs.Prelude.{◌≤◌, IfSome};

use co_sheet_text::{same_name, trim, unsigned_number};
use co_text::{decimal_in, split_at_first, split_line};

/// The greatest number that a word may have.
const GREATEST: u32 = 1_000_000;

// the number times its scale, if that is a bit rate from 1,000 to 1,000,000 bit/s
fn rate_in(digits: &[u8], scale: u32) -> Option<u32>
    ensures { IfSome result (λ rate. rate ≤ 1000000) }
{
    let Some(number) = decimal_in(digits, 1, GREATEST) else {
        return None;
    };
    let Some(rate) = number.checked_mul(scale) else {
        return None;
    };
    if 1000 <= rate && rate <= GREATEST {
        Some(rate)
    } else {
        None
    }
}

/// The bit rate of a word, in bit/s, from 1,000 to 1,000,000: `500k`, `1M` or `125000`.
pub(crate) fn rate_of(word: &str) -> Option<u32>
    ensures { IfSome result (λ rate. rate ≤ 1000000) }
{
    match word.as_bytes() {
        [digits @ .., b'k'] => rate_in(digits, 1000),
        [digits @ .., b'M'] => rate_in(digits, GREATEST),
        digits => rate_in(digits, 1),
    }
}

// the name of a section, if the line is one's
fn section_name(line: &[u8]) -> Option<&[u8]> {
    match line {
        [b'[', name @ .., b']'] => Some(trim(name)),
        _ => None,
    }
}

// whether it is DeviceComissioning (CiA 306, 4.5), which many spell with mm
fn is_commissioning(name: &[u8]) -> bool {
    same_name(name, b"DeviceComissioning") || same_name(name, b"DeviceCommissioning")
}

// the bit rate of a line, in bit/s; the line has it in kbit/s
fn bit_rate_at(line: &[u8]) -> Option<u32>
    ensures { IfSome result (λ rate. rate ≤ 1000000) }
{
    let Some((name, number)) = split_at_first(line, b'=') else {
        return None;
    };
    if !same_name(trim(name), b"Baudrate") {
        return None;
    }
    match unsigned_number(trim(number)) {
        Ok(number) if 1 <= number && number <= 1000 => Some(1000 * number as u32),
        _ => None,
    }
}

/// The bit rate of a device configuration file, in bit/s: Baudrate of DeviceComissioning, 1 to
/// 1,000 kbit/s, in decimal or hexadecimal digits as each number of a sheet.
pub(crate) fn bit_rate_in(text: &[u8]) -> Option<u32>
    ensures { IfSome result (λ rate. rate ≤ 1000000) }
{
    let mut rest = text;
    let mut is_within = false;
    let mut found = None;
    while let Some((line, more)) = split_line(rest) {
        let line = trim(line);
        if let Some(name) = section_name(line) {
            is_within = is_commissioning(name);
        } else if is_within && found.is_none() {
            found = bit_rate_at(line);
        }
        rest = more;
    }
    found
}
