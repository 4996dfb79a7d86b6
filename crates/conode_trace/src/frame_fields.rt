//! The fields of a frame line, each read from the front of the text.

ghost use Rattle.std.specs.Prelude.{◌≡◌, ◌+◌, ◌*◌, ◌^◌, ◌<◌, ◌≤◌, length, slice_index, ◌==◌, Option, IfSome, IsTrue};
ghost use Rattle.std.specs.Option.{option_map, option_copied};
ghost use Rattle.std.specs.List.{prefix_len, list_all};
ghost use Rattle.co_text.specs.Texts.{is_blank, is_digit, is_hex_digit};
ghost use Rattle.conode_trace.specs.FrameLines.{
  past_byte,
  past_run,
  number_at,
  stamp_at,
  is_name_byte,
  three_digits,
  identifier_at,
  few_pairs_at,
  IsIdentifier,
  is_ending,
  is_mark,
  past_digit,
  body_in,
};

use co_text::{hex_digit, is_blank, is_digit, pair_at};
use co_value::PackedBytes;

/// The identifier of a frame line.
#[derive(Clone, Copy)]
pub(crate) enum Identifier {
    /// Three digits, at most 7FF.
    Base(u16),
    /// Eight digits.
    Extended,
}

/// What follows the number sign of a frame line.
#[derive(Drop)]
pub(crate) enum Body {
    /// The bytes of a data frame.
    Bytes(PackedBytes),
    /// A remote frame or a CAN FD frame, which is passed over.
    Other,
}

#[inline(always)]
fn past_byte(text: &[u8], wanted: u8) -> Option<&[u8]>
    ensures { option_copied result ≡ past_byte wanted text.now }
{
    match text {
        [byte, rest @ ..] if *byte == wanted => Some(rest),
        _ => None,
    }
}

#[inline(always)]
fn number_at(text: &[u8], least: usize, most: usize) -> Option<(u64, &[u8])>
    requires { most ≤ 12 }
    ensures exact { option_map (λ found. (found.0, found.1.now)) result
        ≡ number_at least most text.now }
    ensures small { IfSome result (λ found. found.0 < 10 ^ 12) }
{
    let mut number: u64 = 0;
    for (count, byte) in text.iter().enumerate() {
        if !is_digit(*byte) {
            return if count < least {
                None
            } else {
                Some((number, &text[count..]))
            };
        }
        if count == most {
            return None;
        }
        number = 10 * number + u64::from(*byte - b'0');
    }
    if text.len() < least {
        None
    } else {
        Some((number, &[]))
    }
}

/// The stamp in ms, and what follows.
#[tactic(auto, unfolding(crate::specs::FrameLines::stamp_at))]
#[inline(always)]
pub(crate) fn stamp_at(text: &[u8]) -> Option<(u64, &[u8])>
    ensures { option_map (λ found. (found.0, found.1.now)) result ≡ stamp_at text.now }
{
    let text = given!(past_byte(text, b'('));
    let (seconds, text) = given!(number_at(text, 1, 12));
    let text = given!(past_byte(text, b'.'));
    let (micros, text) = given!(number_at(text, 6, 6));
    let text = given!(past_byte(text, b')'));
    Some((1000 * seconds + micros / 1000, text))
}

// how many blanks are at the front
#[inline(always)]
fn blank_count(text: &[u8]) -> usize
    ensures count { result ≡ prefix_len is_blank text.now }
    ensures within { result ≤ length text.now }
{
    for (count, byte) in text.iter().enumerate() {
        if !is_blank(*byte) {
            return count;
        }
    }
    text.len()
}

// how many bytes that are no blanks are at the front
#[inline(always)]
fn name_len(text: &[u8]) -> usize
    ensures count { result ≡ prefix_len is_name_byte text.now }
    ensures within { result ≤ length text.now }
{
    for (count, byte) in text.iter().enumerate() {
        if is_blank(*byte) {
            return count;
        }
    }
    text.len()
}

#[inline(always)]
pub(crate) fn past_blanks(text: &[u8]) -> Option<&[u8]>
    ensures { option_copied result ≡ past_run is_blank 1 512 text.now }
{
    let count = blank_count(text);
    if count == 0 || count > 512 {
        return None;
    }
    Some(&text[count..])
}

#[inline(always)]
pub(crate) fn past_name(text: &[u8]) -> Option<&[u8]>
    ensures { option_copied result ≡ past_run is_name_byte 1 15 text.now }
{
    let len = name_len(text);
    if len == 0 || len > 15 {
        return None;
    }
    Some(&text[len..])
}

#[inline(always)]
fn three_digits(text: &[u8]) -> Option<u16>
    requires { 3 ≤ length text.now }
    ensures value { result ≡ three_digits text.now }
{
    let high = given!(hex_digit(text[0])) as u16;
    let middle = given!(hex_digit(text[1])) as u16;
    let low = given!(hex_digit(text[2])) as u16;
    Some(256 * high + 16 * middle + low)
}

// whether a number sign is at this place
#[inline(always)]
fn has_sign(text: &[u8], place: usize) -> bool
    ensures value { result ≡ (slice_index text.now place == 35) }
    ensures within { IsTrue result → place < length text.now }
{
    place < text.len() && text[place] == b'#'
}

fn are_hex_digits(text: &[u8]) -> bool
    ensures { result ≡ list_all is_hex_digit text.now }
{
    text.iter().all(|byte| hex_digit(*byte).is_some())
}

/// The identifier with its number sign, and what follows.
#[tactic(auto, unfolding(crate::specs::FrameLines::identifier_at))]
#[inline(always)]
pub(crate) fn identifier_at(text: &[u8]) -> Option<(Identifier, &[u8])>
    ensures exact { option_map (λ found. (found.0, found.1.now)) result ≡ identifier_at text.now }
    ensures small { IfSome result (λ found. IsIdentifier found.0) }
{
    if has_sign(text, 3) {
        let id = given!(three_digits(text));
        return if id <= 0x7FF {
            Some((Identifier::Base(id), &text[4..]))
        } else {
            None
        };
    }
    if has_sign(text, 8) && are_hex_digits(&text[..8]) {
        return Some((Identifier::Extended, &text[9..]));
    }
    None
}

fn are_blanks(text: &[u8]) -> bool
    ensures { result ≡ list_all is_blank text.now }
{
    text.iter().all(|byte| is_blank(*byte))
}

fn is_mark(byte: u8) -> bool
    ensures { result ≡ is_mark byte }
{
    byte == b'R' || byte == b'T'
}

#[inline(always)]
fn is_ending(text: &[u8]) -> bool
    ensures { result ≡ is_ending text.now }
{
    if text.is_empty() {
        return true;
    }
    let last = text.len() - 1;
    last > 0 && is_mark(text[last]) && are_blanks(&text[..last])
}

#[inline(always)]
fn past_digit(text: &[u8]) -> &[u8]
    ensures { result.now ≡ past_digit text.now }
{
    match text {
        [digit, rest @ ..] if is_digit(*digit) => rest,
        _ => text,
    }
}

#[inline(always)]
fn few_pairs_at(text: &[u8]) -> Option<(PackedBytes, &[u8])>
    ensures { option_map (λ found. (found.0, found.1.now)) result ≡ few_pairs_at text.now }
{
    let mut bytes = PackedBytes::new();
    let mut rest = text;
    while let Some((byte, after)) = pair_at(rest) {
        if bytes.len() == 8 {
            return None;
        }
        bytes.append(&[byte]);
        rest = after;
    }
    Some((bytes, rest))
}

/// What follows the number sign, up to the end of the line.
#[tactic(auto, unfolding(crate::specs::FrameLines::body_in))]
#[inline(always)]
pub(crate) fn body_in(text: &[u8]) -> Option<Body>
    ensures { result ≡ body_in text.now }
{
    match text {
        [b'#', ..] => Some(Body::Other),
        [b'R', rest @ ..] => is_ending(past_digit(rest)).then_some(Body::Other),
        _ => {
            let (bytes, rest) = given!(few_pairs_at(text));
            is_ending(rest).then_some(Body::Bytes(bytes))
        }
    }
}
