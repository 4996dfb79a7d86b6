//! The interface and the identifier of a line, each read from the front of the text.

ghost use Rattle.std.specs.Prelude.{◌≡◌, ◌<◌, ◌≤◌, length, slice_index, ◌==◌, IfSome, IsTrue};
ghost use Rattle.std.specs.Option.{option_map, option_copied};
ghost use Rattle.std.specs.List.{prefix_len};
ghost use Rattle.co_text.specs.Texts.{is_blank};
ghost use Rattle.conode_trace.specs.FrameLines.{is_name_byte};
ghost use Rattle.conode_record.specs.Fields.{
  past_blanks,
  name_at,
  interface_at,
  eight_digits,
  identifier_at,
};

use crate::interface::Interface;
use crate::numbers::hex_number;
use co_text::is_blank;

/// The identifier of a frame.
#[derive(Clone, Copy)]
pub enum Identifier {
    /// One of 11 bits, in three digits.
    Base(u16),
    /// One of 29 bits, in eight digits.
    Extended(u32),
    /// An error frame, in eight digits with bit 29 set: the class of the error, in the other 29
    /// bits.
    Error(u32),
}

// how many blanks are at the front
#[inline(always)]
fn blank_count(text: &[u8]) -> usize
    ensures count { result ≡ prefix_len is_blank text.now }
    ensures within { result ≤ length text.now }
{
    for (count, byte) in text.iter().enumerate() {
        if !is_blank(*byte) {
            return count;
        }
    }
    text.len()
}

// how many bytes that are no blanks are at the front
#[inline(always)]
fn name_len(text: &[u8]) -> usize
    ensures count { result ≡ prefix_len is_name_byte text.now }
    ensures within { result ≤ length text.now }
{
    for (count, byte) in text.iter().enumerate() {
        if is_blank(*byte) {
            return count;
        }
    }
    text.len()
}

#[inline(always)]
fn past_blanks(text: &[u8]) -> Option<&[u8]>
    ensures { option_copied result ≡ past_blanks text.now }
{
    let count = blank_count(text);
    if count == 0 {
        return None;
    }
    Some(&text[count..])
}

// the name at the front, and what follows
#[inline(always)]
fn name_at(text: &[u8]) -> Option<(&[u8], &[u8])>
    ensures exact { option_map (λ found. (found.0.now, found.1.now)) result ≡ name_at text.now }
    ensures few { IfSome result (λ found. length found.0.now ≤ 15) }
{
    let len = name_len(text);
    if len == 0 || len > 15 {
        return None;
    }
    Some((&text[..len], &text[len..]))
}

/// The interface at the front, with the blanks before and after it, and what follows.
#[tactic(auto, unfolding(crate::specs::Fields::interface_at))]
#[inline(always)]
pub(crate) fn interface_at(text: &[u8]) -> Option<(Interface<'_>, &[u8])>
    ensures { option_map (λ found. (found.0, found.1.now)) result ≡ interface_at text.now }
{
    let Some(name) = past_blanks(text) else {
        return None;
    };
    let Some((name, blanks)) = name_at(name) else {
        return None;
    };
    let Some(rest) = past_blanks(blanks) else {
        return None;
    };
    Some((Interface::new(name), rest))
}

// whether a number sign is at this place
#[inline(always)]
fn has_sign(text: &[u8], place: usize) -> bool
    ensures value { result ≡ (slice_index text.now place == 35) }
    ensures within { IsTrue result → place < length text.now }
{
    place < text.len() && text[place] == b'#'
}

// an identifier of 29 bits, or with bit 29 set the class of an error frame
#[inline(always)]
fn eight_digits(number: u32) -> Option<Identifier>
    ensures { result ≡ eight_digits number }
{
    if number < 0x2000_0000 {
        Some(Identifier::Extended(number))
    } else if number < 0x4000_0000 {
        Some(Identifier::Error(number - 0x2000_0000))
    } else {
        None
    }
}

/// The identifier at the front with its number sign, and what follows.
#[tactic(auto, unfolding(crate::specs::Fields::identifier_at))]
#[inline(always)]
pub(crate) fn identifier_at(text: &[u8]) -> Option<(Identifier, &[u8])>
    ensures { option_map (λ found. (found.0, found.1.now)) result ≡ identifier_at text.now }
{
    if has_sign(text, 3) {
        let Some(id) = hex_number(&text[..3]) else {
            return None;
        };
        return if id <= 0x7FF {
            Some((Identifier::Base(id as u16), &text[4..]))
        } else {
            None
        };
    }
    if has_sign(text, 8) {
        let Some(number) = hex_number(&text[..8]) else {
            return None;
        };
        return match eight_digits(number) {
            Some(id) => Some((id, &text[9..])),
            None => None,
        };
    }
    None
}
