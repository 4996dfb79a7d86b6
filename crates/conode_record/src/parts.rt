//! Parts that several forms of log have.

ghost use Rattle.std.specs.Prelude.{◌≡◌, ◌<◌, ◌≤◌, length, IfSome};
ghost use Rattle.std.specs.Option.{option_map};
ghost use Rattle.conode_record.specs.Parts.{
  short_id,
  extended_id,
  byte_at,
  bytes_at,
  name_at,
  channel_at,
  direction_of,
  direction_at,
  count_at,
  fd_length,
  frame_of,
  error_frame,
};

use crate::frame::{LogBytes, LogContent, LogFrame, LogLine, Name, Place};
use crate::numbers::{Base, byte_of};
use crate::words::{is_word, word_at};
use crate::{Direction, Identifier};
use co_text::decimal_in;

/// An identifier of 11 bits; `None` if the number is above 7FF.
#[inline(always)]
pub fn short_id(number: u32) -> Option<Identifier>
    ensures { result ≡ short_id number }
{
    if number < 0x800 {
        Some(Identifier::Base(number as u16))
    } else {
        None
    }
}

/// An identifier of 29 bits; `None` if the number is above 1FFFFFFF.
#[inline(always)]
pub fn extended_id(number: u32) -> Option<Identifier>
    ensures { result ≡ extended_id number }
{
    if number < 0x2000_0000 {
        Some(Identifier::Extended(number))
    } else {
        None
    }
}

// the byte that the first word is, and what follows
#[tactic(auto, unfolding(crate::specs::Parts::byte_at))]
#[inline(always)]
fn byte_at(base: Base, text: &[u8]) -> Option<(u8, &[u8])>
    ensures { option_map (λ found. (found.0, found.1.now)) result ≡ byte_at base text.now }
{
    let Some((word, rest)) = word_at(text) else {
        return None;
    };
    let Some(byte) = byte_of(base, word) else {
        return None;
    };
    Some((byte, rest))
}

/// The next `count` words as bytes, and what follows; `None` if one of them isn't a byte.
pub fn bytes_at(base: Base, count: usize, text: &[u8]) -> Option<(LogBytes, &[u8])>
    requires { count ≤ 64 }
    ensures { option_map (λ found. (found.0, found.1.now)) result ≡ bytes_at base count text.now }
{
    let mut bytes = LogBytes::new();
    let mut rest = text;
    for at in 0..count {
        let Some((byte, after)) = byte_at(base, rest) else {
            return None;
        };
        bytes.append(byte);
        rest = after;
    }
    Some((bytes, rest))
}

/// The interface at the front: its name, and what follows.
#[tactic(auto, unfolding(crate::specs::Parts::name_at))]
#[inline(always)]
pub fn name_at(text: &[u8]) -> Option<(Name<'_>, &[u8])>
    ensures { option_map (λ found. (found.0, found.1.now)) result ≡ name_at text.now }
{
    let Some((name, rest)) = word_at(text) else {
        return None;
    };
    if name.len() <= 15 {
        Some((Name::new(name), rest))
    } else {
        None
    }
}

/// The channel at the front, 1 to 255, and what follows.
#[tactic(auto, unfolding(crate::specs::Parts::channel_at))]
pub fn channel_at(text: &[u8]) -> Option<(u8, &[u8])>
    ensures exact { option_map (λ found. (found.0, found.1.now)) result ≡ channel_at text.now }
    ensures least { IfSome result (λ found. 1 ≤ found.0) }
{
    let Some((word, rest)) = word_at(text) else {
        return None;
    };
    let Some(channel) = decimal_in(word, 1, 255) else {
        return None;
    };
    Some((channel as u8, rest))
}

/// The direction of the word: `Rx` or `Tx`.
pub fn direction_of(word: &[u8]) -> Option<Direction>
    ensures { result ≡ direction_of word.now }
{
    if is_word(word, b"Rx") {
        Some(Direction::Received)
    } else if is_word(word, b"Tx") {
        Some(Direction::Sent)
    } else {
        None
    }
}

/// The direction at the front, and what follows.
#[tactic(auto, unfolding(crate::specs::Parts::direction_at))]
pub fn direction_at(text: &[u8]) -> Option<(Direction, &[u8])>
    ensures { option_map (λ found. (found.0, found.1.now)) result ≡ direction_at text.now }
{
    let Some((word, rest)) = word_at(text) else {
        return None;
    };
    let Some(direction) = direction_of(word) else {
        return None;
    };
    Some((direction, rest))
}

/// A number from 0 to the most at the front, in decimal digits, and what follows.
#[tactic(auto, unfolding(crate::specs::Parts::count_at))]
pub fn count_at(most: u32, text: &[u8]) -> Option<(u32, &[u8])>
    ensures exact { option_map (λ found. (found.0, found.1.now)) result
        ≡ count_at most text.now }
    ensures few { IfSome result (λ found. found.0 ≤ most) }
{
    let Some((word, rest)) = word_at(text) else {
        return None;
    };
    let Some(count) = decimal_in(word, 0, most) else {
        return None;
    };
    Some((count, rest))
}

/// How many bytes a CAN FD frame has by its data length code.
pub fn fd_length(code: u32) -> usize
    requires { code ≤ 15 }
    ensures exact { result ≡ fd_length code }
    ensures few { result ≤ 64 }
{
    match code {
        0..=8 => code as usize,
        9..=12 => 12 + 4 * (code as usize - 9),
        13 => 32,
        14 => 48,
        _ => 64,
    }
}

/// The line of a frame.
pub fn frame_of(
    micros: u64,
    place: Place<'_>,
    id: Identifier,
    content: LogContent,
    direction: Option<Direction>,
) -> LogLine<'_>
    ensures { result ≡ frame_of micros place.entry id content direction }
{
    LogLine::Frame(LogFrame {
        micros,
        place,
        id,
        content,
        direction,
    })
}

/// An error frame without details in the log: a bus error (class 80h), and eight bytes of 0.
pub fn error_frame(micros: u64, place: Place<'_>) -> LogLine<'_>
    ensures { result ≡ error_frame micros place.entry }
{
    let content = LogContent::Data(LogBytes::of_error());
    frame_of(micros, place, Identifier::Error(0x80), content, None)
}
