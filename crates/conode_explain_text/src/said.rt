//! What a frame says, as it is shown.

ghost use Rattle.std.specs.Prelude.{◌≡◌, ◌++◌, ◌&&◌, ◌∷◌, IfOk, OnOk, codes, get_or, nat_le};
ghost use Rattle.std.specs.List.{list_all};
ghost use Rattle.co_text.specs.Printed.{byte_text, digits_text};
ghost use Rattle.conode_text.specs.Unseen.{code_text};
ghost use Rattle.conode_explain_text.specs.Said.{
  all_stay,
  code_of_four,
  code_of_three,
  code_of_two,
  first_shown,
  is_control,
  is_four,
  is_next,
  is_numbered,
  is_plain,
  is_three,
  is_two,
  is_within,
  numbered,
  passed_over,
  shown,
  shown_after,
  shown_byte,
  stays,
};

use co_text::{byte_digits, word_digits};
use conode_text::is_unseen;
use std::alloc::AllocError;

/// Of each byte whether it stays as it is, whatever follows: all but control characters, C2h, CDh,
/// D8h, E1h to E3h, and EFh to FFh. Words are short, and a look-up takes less of each byte than
/// comparisons.
static PLAIN: [bool; 256] = [
    false, false, false, false, false, false, false, false, false, false, false, false, false,
    false, false, false, false, false, false, false, false, false, false, false, false, false,
    false, false, false, false, false, false, true, true, true, true, true, true, true, true, true,
    true, true, true, true, true, true, true, true, true, true, true, true, true, true, true, true,
    true, true, true, true, true, true, true, true, true, true, true, true, true, true, true, true,
    true, true, true, true, true, true, true, true, true, true, true, true, true, true, true, true,
    true, true, true, true, true, true, true, true, true, true, true, true, true, true, true, true,
    true, true, true, true, true, true, true, true, true, true, true, true, true, true, true, true,
    true, true, true, true, true, true, false, true, true, true, true, true, true, true, true,
    true, true, true, true, true, true, true, true, true, true, true, true, true, true, true, true,
    true, true, true, true, true, true, true, true, true, true, true, true, true, true, true, true,
    true, true, true, true, true, true, true, true, true, true, true, true, true, true, true, true,
    true, true, true, true, true, true, true, true, true, true, false, true, true, true, true,
    true, true, true, true, true, true, false, true, true, true, true, true, true, true, true,
    true, true, false, true, true, true, true, true, true, true, true, false, false, false, true,
    true, true, true, true, true, true, true, true, true, true, false, false, false, false, false,
    false, false, false, false, false, false, false, false, false, false, false, false,
];

fn is_control(byte: u8) -> bool
    ensures { result ≡ is_control byte }
{
    byte < 0x20 || byte == 0x7F
}

fn is_within(low: u8, high: u8, byte: u8) -> bool
    ensures { result ≡ is_within low high byte }
{
    low <= byte && byte <= high
}

// a control character above U+007F, a no-break space, and what can't be seen or turns the text
// around
fn is_numbered(code: u32) -> bool
    ensures { result ≡ is_numbered code }
{
    (0x80 <= code && code <= 0xA0) || is_unseen(code)
}

fn code_of_two(first: u8, second: u8) -> u32
    ensures { result ≡ code_of_two first second }
{
    0x40 * (first % 0x20) as u32 + (second % 0x40) as u32
}

fn code_of_three(first: u8, second: u8, third: u8) -> u32
    ensures { result ≡ code_of_three first second third }
{
    0x1000 * (first % 0x10) as u32 + 0x40 * (second % 0x40) as u32 + (third % 0x40) as u32
}

fn code_of_four(first: u8, second: u8, third: u8, fourth: u8) -> u32
    ensures { result ≡ code_of_four first second third fourth }
{
    0x4_0000 * (first % 8) as u32
        + 0x1000 * (second % 0x40) as u32
        + 0x40 * (third % 0x40) as u32
        + (fourth % 0x40) as u32
}

fn is_next(byte: u8) -> bool
    ensures { result ≡ is_next byte }
{
    is_within(0x80, 0xBF, byte)
}

// as many bytes as such a character has are needed from a code on
fn is_from(least: u32, code: u32) -> bool
    ensures { result ≡ (nat_le least code && is_numbered code) }
{
    least <= code && is_numbered(code)
}

fn is_two(first: u8, second: u8) -> bool
    ensures { result ≡ is_two first second }
{
    is_within(0xC0, 0xDF, first) && is_next(second) && is_numbered(code_of_two(first, second))
}

fn is_three(first: u8, second: u8, third: u8) -> bool
    ensures { result ≡ is_three first second third }
{
    is_within(0xE0, 0xEF, first)
        && is_next(second)
        && is_next(third)
        && is_from(0x800, code_of_three(first, second, third))
}

fn is_four(first: u8, second: u8, third: u8, fourth: u8) -> bool
    ensures { result ≡ is_four first second third fourth }
{
    is_within(0xF0, 0xF7, first)
        && is_next(second)
        && is_next(third)
        && is_next(fourth)
        && is_from(0x1_0000, code_of_four(first, second, third, fourth))
}

#[inline(always)]
fn is_plain(byte: u8) -> bool
    ensures { result ≡ is_plain byte }
{
    PLAIN[byte as usize]
}

// each byte stays as it is
fn are_plain(said: &[u8]) -> bool
    ensures { result ≡ list_all is_plain said.now }
{
    // no early end, and no branch on a byte
    let mut are_plain = true;
    for byte in said {
        are_plain = are_plain & is_plain(*byte);
    }
    are_plain
}

// in eight digits
fn add_long(line: &mut Vec<u8>, code: u32) -> Result<(), AllocError>
    ensures { OnOk result
        (line.new.items ≡ line.old.items ++ codes "\\U" ++ digits_text 16 8 code) }
{
    attempt!(line.extend_from_slice(b"\\U"));
    let high = word_digits((code / 65536) as u16);
    attempt!(line.extend_from_slice(high.as_str().as_bytes()));
    let low = word_digits((code % 65536) as u16);
    line.extend_from_slice(low.as_str().as_bytes())
}

// a character by its number
#[tactic(auto, unfolding(conode_text::specs::Unseen::code_text))]
fn add_code(line: &mut Vec<u8>, code: u32) -> Result<(), AllocError>
    ensures { OnOk result (line.new.items ≡ line.old.items ++ code_text code) }
{
    if code < 0x100 {
        attempt!(line.extend_from_slice(b"\\x"));
        return line.extend_from_slice(byte_digits(code as u8).as_str().as_bytes());
    }
    if code < 0x1_0000 {
        attempt!(line.extend_from_slice(b"\\u"));
        return line.extend_from_slice(word_digits(code as u16).as_str().as_bytes());
    }
    add_long(line, code)
}

fn add_byte(line: &mut Vec<u8>, byte: u8) -> Result<(), AllocError>
    ensures { OnOk result (line.new.items ≡ line.old.items ++ shown_byte byte) }
{
    if !is_control(byte) {
        return line.extend_from_slice(&[byte]);
    }
    attempt!(line.extend_from_slice(b"\\x"));
    line.extend_from_slice(byte_digits(byte).as_str().as_bytes())
}

// 0 past the end
fn byte_at(bytes: &[u8], place: usize) -> u8
    ensures { result ≡ get_or bytes.now place 0 }
{
    bytes.get(place).copied().unwrap_or(0)
}

// the number of the character that begins with a byte, and how many bytes of it come after that
fn numbered(first: u8, rest: &[u8]) -> Option<(u32, usize)>
    ensures { result ≡ numbered first rest.now }
{
    let second = byte_at(rest, 0);
    let third = byte_at(rest, 1);
    let fourth = byte_at(rest, 2);
    if is_two(first, second) {
        Some((code_of_two(first, second), 1))
    } else if is_three(first, second, third) {
        Some((code_of_three(first, second, third), 2))
    } else if is_four(first, second, third, fourth) {
        Some((code_of_four(first, second, third, fourth), 3))
    } else {
        None
    }
}

// a byte stays as it is before the rest
#[tactic(auto, using(crate::proofs::SaidLemmas::plain_byte_stays))]
fn stays(byte: u8, rest: &[u8]) -> bool
    ensures { result ≡ stays byte rest.now }
{
    is_plain(byte) || (!is_control(byte) && numbered(byte, rest).is_none())
}

// each byte stays as it is, though some wouldn't before others
fn all_stay(said: &[u8]) -> bool
    ensures { result ≡ all_stay said.now }
{
    let mut rest = said;
    while let [byte, more @ ..] = rest {
        if !stays(*byte, more) {
            return false;
        }
        rest = more;
    }
    true
}

// appends what a byte gives, and says how many bytes are passed over after it
fn add_first(line: &mut Vec<u8>, byte: u8, rest: &[u8]) -> Result<usize, AllocError>
    ensures text { IfOk result (λ _. line.new.items
        ≡ line.old.items ++ first_shown byte (numbered byte rest.now)) }
    ensures skip { IfOk result (λ skip. skip ≡ passed_over (numbered byte rest.now)) }
{
    match numbered(byte, rest) {
        Some((code, skip)) => {
            attempt!(add_code(line, code));
            Ok(skip)
        }
        None => {
            attempt!(add_byte(line, byte));
            Ok(0)
        }
    }
}

// the same after so many that are passed over
#[tactic(auto, using(crate::proofs::SaidLemmas::next))]
fn add_next(line: &mut Vec<u8>, skip: usize, byte: u8, rest: &[u8]) -> Result<usize, AllocError>
    ensures { IfOk result (λ after. line.new.items ++ shown_after after rest.now
        ≡ line.old.items ++ shown_after skip (byte ∷ rest.now)) }
{
    if skip > 0 {
        return Ok(skip - 1);
    }
    let after = attempt!(add_first(line, byte, rest));
    Ok(after)
}

fn add_each(line: &mut Vec<u8>, said: &[u8]) -> Result<(), AllocError>
    ensures { OnOk result (line.new.items ≡ line.old.items ++ shown said.now) }
{
    let mut rest = said;
    let mut skip = 0;
    while let [byte, more @ ..] = rest {
        skip = attempt!(add_next(line, skip, *byte, more));
        rest = more;
    }
    Ok(())
}

/// Appends what a frame says, in UTF-8: control characters and no-break spaces as `\x1B`, `\x9B` and
/// `\xA0`, other blanks and marks that can't be seen, or that turn the text around, as `\u202E` and
/// `\U000E0001`. On an `Err` memory ran out, and a part of it may be there.
#[tactic(auto, using(crate::proofs::SaidLemmas::plain_stays, crate::proofs::SaidLemmas::all_shown))]
pub fn add_shown(line: &mut Vec<u8>, said: &[u8]) -> Result<(), AllocError>
    ensures { OnOk result (line.new.items ≡ line.old.items ++ shown said.now) }
{
    // most words have no such character, and are copied as they are
    if are_plain(said) || all_stay(said) {
        return line.extend_from_slice(said);
    }
    add_each(line, said)
}
