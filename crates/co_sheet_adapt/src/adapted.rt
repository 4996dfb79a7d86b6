//! A text adapted, and read again.

ghost use Rattle.std.specs.Prelude.{◌≡◌, ◌++◌, ◌≤◌, ℕ, List, length, map, take, is_none, None, IfOk, OnOk};
ghost use Rattle.co_sheet_text.specs.Text.{lines_of};
ghost use Rattle.co_sheet.specs.Accepted.{first_fault, sections_in};
ghost use Rattle.co_sheet.specs.Commissioning.{node_id_in};
ghost use Rattle.co_sheet.specs.Content.{objects_of, rows_of};
ghost use Rattle.co_sheet_adapt.specs.Pieces.{all_pieces};
ghost use Rattle.co_sheet_adapt.specs.Adapted.{
  shown_byte,
  comment_end,
  comment_front,
  comment_line,
  ends_in_return,
  line_end,
  returns_first,
  pieces_in,
  adapted_text,
  commented,
  object_later,
  one_later,
  row_later,
};
ghost use Rattle.co_sheet_changes.specs.Pieces.{piece_view};

use crate::pieces::pieces_of;
use co_sheet::{FaultKind, GREATEST_SIZE, read};
use co_sheet_changes::{AdaptFault, Piece, lines_in, push_pieces};
use co_sheet_text::without_mark;
use co_text::split_at_first;
use std::alloc::{AllocError, Global};

/// A text adapted.
#[derive(Drop)]
pub struct Adapted<'a> {
    /// What is written: a comment, and the text as it is rewritten.
    pub text: Vec<u8>,
    /// The pieces after the comment, none where the text was accepted as it was.
    pub pieces: Vec<Piece<'a>>,
    /// Whether the text is accepted as it was, and so stays.
    pub stays: bool,
    /// Whether what is written is accepted.
    pub is_accepted: bool,
}

// whether a text is a data sheet, by reading it
fn is_accepted(alloc: Global, text: &[u8]) -> Result<bool, AllocError>
    ensures { IfOk result (λ is. is ≡ is_none (first_fault text.now)) }
{
    match read(alloc, text) {
        Ok(_) => Ok(true),
        Err(fault) if fault.kind == FaultKind::Memory => Err(AllocError),
        Err(_) => Ok(false),
    }
}

fn shown_byte(byte: u8) -> u8
    ensures { result ≡ shown_byte byte }
{
    if byte < 32 { b'?' } else { byte }
}

// the most bytes of a name in the comment
const LONGEST_NAME: usize = 256;

fn first_bytes(text: &[u8]) -> &[u8]
    ensures { result.now ≡ take 256 text.now }
{
    match text.split_at_checked(LONGEST_NAME) {
        Some((first, _)) => first,
        None => text,
    }
}

fn push_shown(text: &mut Vec<u8>, bytes: &[u8]) -> Result<(), AllocError>
    ensures { OnOk result (text.new.items ≡ text.old.items ++ map shown_byte bytes.now) }
{
    for byte in bytes {
        text.push(shown_byte(*byte))?;
    }
    Ok(())
}

#[tactic(auto, unfolding(crate::specs::Adapted::comment_front))]
fn comment_front() -> &'static [u8]
    ensures { result.now ≡ comment_front }
{
    b"; adapted by "
}

#[tactic(auto, unfolding(crate::specs::Adapted::comment_end))]
fn comment_end() -> &'static [u8]
    ensures { result.now ≡ comment_end }
{
    b": not for configuration tools"
}

fn ends_in_return(bytes: &[u8]) -> bool
    ensures { result ≡ ends_in_return bytes.now }
{
    match bytes.last() {
        Some(byte) => *byte == b'\r',
        None => false,
    }
}

// whether the first line ends with CR and LF
fn returns_first(text: &[u8]) -> bool
    ensures { result ≡ returns_first text.now }
{
    match split_at_first(text, b'\n') {
        Some((line, _)) => ends_in_return(line),
        None => false,
    }
}

fn line_end(returns: bool) -> &'static [u8]
    ensures { result.now ≡ line_end returns }
{
    if returns { b"\r\n" } else { b"\n" }
}

// appends the first line: who adapted what
fn push_comment(text: &mut Vec<u8>, by: &[u8], returns: bool) -> Result<(), AllocError>
    ensures { OnOk result (text.new.items ≡ text.old.items ++ comment_line returns by.now) }
{
    attempt!(text.extend_from_slice(comment_front()));
    attempt!(push_shown(text, first_bytes(by)));
    attempt!(text.extend_from_slice(comment_end()));
    text.extend_from_slice(line_end(returns))
}

// the pieces of a text that isn't accepted
fn rewritten<'a>(alloc: Global, text: &'a [u8]) -> Result<Vec<Piece<'a>>, AdaptFault>
    requires { length text.now ≤ 1048576 }
    ensures { IfOk result (λ pieces.
        map piece_view pieces.items ≡ all_pieces (lines_of text.entry.now)) }
{
    let lines = attempt_in_memory!(lines_in(alloc, text));
    pieces_of(alloc, lines.as_slice())
}

// appends the first line and a text: as it is if it is accepted, else in its pieces; returns these,
// and whether it stays
fn push_adapted<'a>(
    alloc: Global,
    made: &mut Vec<u8>,
    text: &'a [u8],
    by: &[u8],
) -> Result<(Vec<Piece<'a>>, bool), AdaptFault>
    requires { length text.now ≤ 1048576 }
    ensures pieces { IfOk result (λ body. map piece_view body.0.items ≡ pieces_in text.entry.now) }
    ensures stays { IfOk result (λ body. body.1 ≡ is_none (first_fault text.entry.now)) }
    ensures text { OnOk result
        (made.new.items ≡ made.old.items ++ adapted_text by.now text.entry.now) }
{
    if attempt_in_memory!(is_accepted(alloc, text)) {
        attempt_in_memory!(push_comment(made, by, returns_first(text)));
        attempt_in_memory!(made.extend_from_slice(without_mark(text)));
        return Ok((Vec::new(alloc), true));
    }
    let pieces = attempt!(rewritten(alloc, text));
    attempt_in_memory!(push_comment(made, by, false));
    attempt_in_memory!(push_pieces(made, pieces.as_slice()));
    Ok((pieces, false))
}

/// Rewrites a data sheet (CiA 306) to one that is accepted, as far as there are rules for it; `by`
/// says who adapts it and what it is made from. A text that is accepted stays as it is, after a
/// first line that says so and ends as the first line of the text does. Each line that is changed is a piece with its number and why; all
/// others stay. What is written is read again: if it isn't accepted, something remains that no rule
/// changes.
///
/// `TooLarge`: the text, or what is added to it, has more than 1,048,576 bytes. `Memory`: out of
/// memory.
pub fn adapt<'a>(alloc: Global, text: &'a [u8], by: &[u8]) -> Result<Adapted<'a>, AdaptFault>
    ensures pieces { IfOk result (λ made.
        map piece_view made.pieces.items ≡ pieces_in text.entry.now) }
    ensures text { IfOk result (λ made. made.text.items ≡ adapted_text by.now text.entry.now) }
    ensures stays { IfOk result (λ made. made.stays ≡ is_none (first_fault text.entry.now)) }
    ensures accepted { IfOk result (λ made. made.is_accepted ≡ is_none (first_fault made.text.items)) }
{
    if text.len() > GREATEST_SIZE {
        return Err(AdaptFault::TooLarge);
    }
    let mut made = Vec::new(alloc);
    let (pieces, stays) = attempt!(push_adapted(alloc, &mut made, text, by));
    let is_accepted = attempt_in_memory!(is_accepted(alloc, made.as_slice()));
    Ok(Adapted {
        text: made,
        pieces,
        stays,
        is_accepted,
    })
}

/// A text that is accepted stays as it is, after the first line that says who adapted it and but
/// for a byte order mark: it has the same sections with the same properties, the same objects and
/// the same entries with their values, each one line later, and the same node-ID. This is a law: a
/// call of it changes nothing.
pub fn accepted_text_stays()
    ensures text { (by text : List ℕ) → first_fault text ≡ None →
        adapted_text by text ≡ commented by text }
    ensures sections { (by text : List ℕ) → first_fault text ≡ None →
        sections_in (adapted_text by text) ≡ map one_later (sections_in text) }
    ensures objects { (by text : List ℕ) → first_fault text ≡ None →
        objects_of (adapted_text by text) ≡ map object_later (objects_of text) }
    ensures entries { (by text : List ℕ) → first_fault text ≡ None →
        rows_of (adapted_text by text) ≡ map row_later (rows_of text) }
    ensures node_id { (by text : List ℕ) → first_fault text ≡ None →
        node_id_in (sections_in (adapted_text by text)) ≡ node_id_in (sections_in text) }
{}
