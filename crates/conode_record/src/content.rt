//! What follows the number sign of a frame line.

ghost use Rattle.std.specs.Prelude.{◌≡◌, ◌+◌, ◌≤◌, [], length, slice_index, ◌==◌, true, Some, IfSome};
ghost use Rattle.std.specs.Option.{option_map, option_copied};
ghost use Rattle.std.specs.List.{list_all};
ghost use Rattle.co_text.specs.Texts.{is_blank};
ghost use Rattle.co_text.specs.HexPairs.{pairs_at};
ghost use Rattle.conode_trace.specs.FrameLines.{is_mark};
ghost use Rattle.conode_record.specs.Contents.{
  direction_of,
  is_marked,
  ending_in,
  few_pairs,
  bytes_in,
  fd_in,
  length_at,
  remote_in,
  is_other,
  content_in,
};

use crate::bad_line::BadLine;
use arrayvec::ArrayVec;
use co_text::{hex_digit, is_blank, is_digit, pair_at};
use co_value::PackedBytes;
use std::marker::Model;

/// Whether a frame was received or sent, where the recording says so (`candump -x`).
#[derive(Clone, Copy)]
pub enum Direction {
    /// `R`
    Received,
    /// `T`
    Sent,
}

/// The data of a CAN FD frame: at most 64 bytes, in pairs of hexadecimal digits. The text is
/// borrowed, and the bytes are decoded when they are asked for. Contracts see the bytes.
#[derive(Drop)]
pub struct FdBytes<'a> {
    // the pairs, and what follows them
    text: &'a [u8],
}

impl<'a> Model for FdBytes<'a> {
    ghost use Rattle.std.specs.Prelude.{ℕ, List, length, ◌≤◌};
    ghost use Rattle.co_text.specs.HexPairs.{pairs_at};

    ghost Value = { List ℕ };

    ghost view = { λ fd. (pairs_at fd.text.now).0 };

    ghost invariant = { λ fd. length (pairs_at fd.text.now).0 ≤ 64 };
}

impl<'a> FdBytes<'a> {
    /// The bytes.
    pub fn bytes(&self) -> ArrayVec<u8, 64>
        ensures { result.items ≡ self.now }
    {
        let mut bytes = ArrayVec::new();
        let mut rest = self.text;
        while let Some((byte, after)) = pair_at(rest) {
            bytes.push(byte);
            rest = after;
        }
        bytes
    }
}

/// The content of a frame.
#[derive(Drop)]
pub enum Content<'a> {
    /// Data, at most 8 bytes.
    Data(PackedBytes),
    /// A remote frame: the length of the data that it asks for, at most 8.
    Remote(u8),
    /// A CAN FD frame: its flags (bit 0 bit rate switch, bit 1 error state indicator), and its
    /// data.
    Fd(u8, FdBytes<'a>),
}

#[inline(always)]
fn direction_of(mark: u8) -> Direction
    ensures { result ≡ direction_of mark }
{
    if mark == b'R' {
        Direction::Received
    } else {
        Direction::Sent
    }
}

fn are_blanks(text: &[u8]) -> bool
    ensures { result ≡ list_all is_blank text.now }
{
    text.iter().all(|byte| is_blank(*byte))
}

fn is_mark(byte: u8) -> bool
    ensures { result ≡ is_mark byte }
{
    byte == b'R' || byte == b'T'
}

fn is_marked(text: &[u8]) -> bool
    requires { 1 ≤ length text.now }
    ensures { result ≡ is_marked text.now }
{
    let last = text.len() - 1;
    last > 0 && is_mark(text[last]) && are_blanks(&text[..last])
}

// The direction in the rest of a line that doesn't end with its data. Apart from most lines, which
// do.
#[inline(never)]
fn marked_ending(text: &[u8]) -> Result<Option<Direction>, BadLine>
    requires { 1 ≤ length text.now }
    ensures { result ≡ ending_in text.now }
{
    if !is_blank(text[0]) {
        return Err(BadLine::Data);
    }
    if is_marked(text) {
        Ok(Some(direction_of(text[text.len() - 1])))
    } else {
        Err(BadLine::Ending)
    }
}

// the direction in the rest of a line, if there is one
#[inline(always)]
fn ending_in(text: &[u8]) -> Result<Option<Direction>, BadLine>
    ensures { result ≡ ending_in text.now }
{
    if text.is_empty() {
        return Ok(None);
    }
    marked_ending(text)
}

// The bytes of the pairs at the front, if they are at most 8, and what follows. Apart from eight
// bytes at the end, as most frames have.
#[inline(never)]
fn any_pairs_at(text: &[u8]) -> Option<(PackedBytes, &[u8])>
    ensures { option_map (λ found. (found.0, found.1.now)) result ≡ few_pairs 8 text.now }
{
    let mut bytes = PackedBytes::new();
    let mut rest = text;
    while let Some((byte, after)) = pair_at(rest) {
        if bytes.len() == 8 {
            return None;
        }
        bytes.append(&[byte]);
        rest = after;
    }
    Some((bytes, rest))
}

// The eight bytes that a text of sixteen digits spells; `None` for every other text. The number of
// turns is known where it is compiled, so that there is no loop.
#[inline(always)]
fn eight_in(text: &[u8]) -> Option<PackedBytes>
    ensures { IfSome result (λ bytes. Some (bytes, []) ≡ few_pairs 8 text.now) }
{
    if text.len() != 16 {
        return None;
    }
    let mut bytes = PackedBytes::new();
    let mut rest = text;
    for _pair in 0..8usize {
        let Some((byte, after)) = pair_at(rest) else {
            return None;
        };
        bytes.append(&[byte]);
        rest = after;
    }
    if rest.is_empty() { Some(bytes) } else { None }
}

// the bytes of the pairs at the front, if they are at most 8, and what follows
#[inline(always)]
fn few_pairs_at(text: &[u8]) -> Option<(PackedBytes, &[u8])>
    ensures { option_map (λ found. (found.0, found.1.now)) result ≡ few_pairs 8 text.now }
{
    match eight_in(text) {
        Some(bytes) => Some((bytes, &[])),
        None => any_pairs_at(text),
    }
}

// how many pairs are at the front, and what follows
fn pair_count(text: &[u8]) -> (usize, &[u8])
    ensures count { result.0 ≡ length (pairs_at text.now).0 }
    ensures rest { result.1.now ≡ (pairs_at text.now).1 }
{
    let mut count: usize = 0;
    let mut rest = text;
    while let Some((_, after)) = pair_at(rest) {
        count += 1;
        rest = after;
    }
    (count, rest)
}

// the bytes of the pairs at the front of a CAN FD frame's data, if they are at most 64, and what
// follows
fn fd_pairs_at(text: &[u8]) -> Option<(FdBytes<'_>, &[u8])>
    ensures { option_map (λ found. (found.0, found.1.now)) result ≡ few_pairs 64 text.now }
{
    let (count, rest) = pair_count(text);
    if count > 64 {
        return None;
    }
    Some((FdBytes { text }, rest))
}

/// The bytes of a data frame, and the direction, if there is one.
#[inline(always)]
pub(crate) fn data_in(text: &[u8]) -> Result<(PackedBytes, Option<Direction>), BadLine>
    ensures { result ≡ bytes_in 8 text.now }
{
    let Some((bytes, rest)) = few_pairs_at(text) else {
        return Err(BadLine::TooManyBytes);
    };
    match ending_in(rest) {
        Ok(direction) => Ok((bytes, direction)),
        Err(bad) => Err(bad),
    }
}

fn fd_in(text: &[u8]) -> Result<(Content<'_>, Option<Direction>), BadLine>
    ensures { result ≡ fd_in text.now }
{
    let [digit, text @ ..] = text else {
        return Err(BadLine::Flags);
    };
    let Some(flags) = hex_digit(*digit) else {
        return Err(BadLine::Flags);
    };
    let Some((bytes, rest)) = fd_pairs_at(text) else {
        return Err(BadLine::TooManyBytes);
    };
    match ending_in(rest) {
        Ok(direction) => Ok((Content::Fd(flags, bytes), direction)),
        Err(bad) => Err(bad),
    }
}

// the length of a remote frame, and what follows
fn length_at(text: &[u8]) -> Option<(u8, &[u8])>
    ensures { option_map (λ found. (found.0, found.1.now)) result ≡ length_at text.now }
{
    match text {
        [digit, rest @ ..] if is_digit(*digit) => {
            if *digit <= b'8' {
                Some((*digit - b'0', rest))
            } else {
                None
            }
        }
        _ => Some((0, text)),
    }
}

fn remote_in(text: &[u8]) -> Result<(Content<'_>, Option<Direction>), BadLine>
    ensures { result ≡ remote_in text.now }
{
    let Some((length, rest)) = length_at(text) else {
        return Err(BadLine::Length);
    };
    match ending_in(rest) {
        Ok(direction) => Ok((Content::Remote(length), direction)),
        Err(bad) => Err(bad),
    }
}

/// Whether a CAN FD frame or a remote frame follows the number sign; else data do.
#[inline(always)]
pub(crate) fn is_other(text: &[u8]) -> bool
    ensures { result ≡ is_other text.now }
{
    !text.is_empty() && (text[0] == b'#' || text[0] == b'R')
}

/// What follows the number sign where that isn't data, and the direction, if there is one. Apart
/// from data, which most frames have.
#[inline(never)]
#[tactic(auto, unfolding(crate::specs::Contents::content_in))]
pub(crate) fn other_in(text: &[u8]) -> Result<(Content<'_>, Option<Direction>), BadLine>
    requires { is_other text.now ≡ true }
    ensures { result ≡ content_in text.now }
{
    let [mark, rest @ ..] = text else {
        unreachable!()
    };
    if *mark == b'#' {
        fd_in(rest)
    } else {
        remote_in(rest)
    }
}
