//! The changes of a text, a line each. Each function appends to a text. `Err`: out of memory; a
//! part of it may be there.

ghost use Rattle.std.specs.Prelude.{◌≡◌, ◌++◌, ◌∷◌, [], map, OnOk, string_bytes};
ghost use Rattle.std.specs.List.{flat_map};
ghost use Rattle.co_sheet_changes.specs.Pieces.{change_view, piece_view};
ghost use Rattle.conode_adapt.specs.Listing.{
  shown_byte,
  shown,
  new_byte,
  front_of,
  new_text,
  added_text,
  is_sub_number,
  given_objects,
  objects_text,
  sections_text,
  sub_indices_text,
  subs_text,
  word_if,
  place_text,
  old_and_new,
  change_line,
  piece_line,
};

use co_sheet_changes::{Change, ChangeKind, Piece, change_name, push_number};
use co_sheet_text::{same_name, trim};
use co_text::split_at_first;
use conode_text::{Value, push_filled};
use std::alloc::{AllocError, Global};

fn shown_byte(byte: u8) -> u8
    ensures { result ≡ shown_byte byte }
{
    if byte < 32 || byte == 127 { b'?' } else { byte }
}

// bytes, with `?` for each control character
fn push_shown(text: &mut Vec<u8>, bytes: &[u8]) -> Result<(), AllocError>
    ensures { OnOk result (text.new.items ≡ text.old.items ++ shown bytes.now) }
{
    for byte in bytes {
        text.push(shown_byte(*byte))?;
    }
    Ok(())
}

// a byte of lines that are shown on one line: LF becomes a comma
fn push_new_byte(text: &mut Vec<u8>, byte: u8) -> Result<(), AllocError>
    ensures { OnOk result (text.new.items ≡ text.old.items ++ new_byte byte) }
{
    if byte == b'\n' {
        text.extend_from_slice(b", ")
    } else {
        text.push(shown_byte(byte))?;
        Ok(())
    }
}

// lines without the last LF
fn front_of(lines: &[u8]) -> &[u8]
    ensures { result.now ≡ front_of lines.now }
{
    match lines {
        [front @ .., b'\n'] => front,
        _ => lines,
    }
}

fn push_new_bytes(text: &mut Vec<u8>, bytes: &[u8]) -> Result<(), AllocError>
    ensures { OnOk result (text.new.items ≡ text.old.items ++ flat_map new_byte bytes.now) }
{
    for byte in bytes {
        attempt!(push_new_byte(text, *byte));
    }
    Ok(())
}

#[tactic(auto, unfolding(crate::specs::Listing::new_text))]
fn push_new(text: &mut Vec<u8>, lines: &[u8]) -> Result<(), AllocError>
    ensures { OnOk result (text.new.items ≡ text.old.items ++ new_text lines.now) }
{
    if lines.is_empty() {
        text.extend_from_slice(b"dropped")
    } else {
        push_new_bytes(text, front_of(lines))
    }
}

// the sections that an object in compact form is given
#[tactic(auto, unfolding(conode_text::specs::Filled::filled))]
fn push_sections(words: &mut String, index: u16, count: u8) -> Result<(), AllocError>
    ensures { OnOk result (string_bytes words.new ≡ string_bytes words.old
        ++ sections_text index count) }
{
    push_filled(
        words,
        ", [%sub0] and % more, unless they are there",
        &[Value::Short(index), Value::Number(count as u64)],
    )
}

fn word_if(is: bool, word: &str) -> &str
    ensures { result.now ≡ word_if is word.entry.now }
{
    if is { word } else { "" }
}

// the sub-indices from 3 on of a communication object
#[tactic(auto, unfolding(conode_text::specs::Filled::filled))]
fn push_subs(words: &mut String, subs: u64) -> Result<(), AllocError>
    ensures { OnOk result (string_bytes words.new ≡ string_bytes words.old ++ subs_text subs) }
{
    push_filled(
        words,
        "%%%%",
        &[
            Value::Words(word_if(subs / 4 % 2 == 1, " 3")),
            Value::Words(word_if(subs / 8 % 2 == 1, " 4")),
            Value::Words(word_if(subs / 16 % 2 == 1, " 5")),
            Value::Words(word_if(subs / 32 % 2 == 1, " 6")),
        ],
    )
}

// the objects that PDOs in compact form are given
#[tactic(auto, unfolding(crate::specs::Listing::invented, conode_text::specs::Filled::filled))]
fn push_given_objects(words: &mut String, count: u64, subs: u64) -> Result<(), AllocError>
    ensures { OnOk result
        (string_bytes words.new ≡ string_bytes words.old ++ given_objects count subs) }
{
    attempt!(push_filled(
        words,
        ", % objects, sub-indices 0 1 2",
        &[Value::Number(count)],
    ));
    attempt!(push_subs(words, subs));
    words.push_str("; invented: not valid, type 255, timers 0, mappings of 0 entries")
}

// the same, if there are any
fn push_objects(words: &mut String, count: u64, subs: u64) -> Result<(), AllocError>
    ensures { OnOk result
        (string_bytes words.new ≡ string_bytes words.old ++ objects_text count subs) }
{
    if count == 0 {
        words.push_str(", no object is missing")
    } else {
        push_given_objects(words, count, subs)
    }
}

// the sections or objects that a change adds, in words
#[tactic(auto, unfolding(crate::specs::Listing::sub_indices_text))]
fn push_words(words: &mut String, kind: ChangeKind) -> Result<(), AllocError>
    ensures { OnOk result
        (string_bytes words.new ≡ string_bytes words.old ++ sub_indices_text kind) }
{
    match kind {
        ChangeKind::CompactSubObj { index, count } => push_sections(words, index, count),
        ChangeKind::CompactPdo { count, subs } => push_objects(words, count, subs),
        _ => Ok(()),
    }
}

// the same
fn push_sub_indices(text: &mut Vec<u8>, alloc: Global, kind: ChangeKind) -> Result<(), AllocError>
    ensures { OnOk result (text.new.items ≡ text.old.items ++ sub_indices_text kind) }
{
    let mut words = String::new(alloc);
    attempt!(push_words(&mut words, kind));
    text.extend_from_slice(words.as_bytes())
}

// whether a line is a SubNumber
fn is_sub_number(old: &[u8]) -> bool
    ensures { result ≡ is_sub_number old.now }
{
    match split_at_first(old, b'=') {
        Some((name, _)) => same_name(trim(name), b"SubNumber"),
        None => false,
    }
}

// the sections or objects that a change adds, but at a SubNumber
fn push_added(alloc: Global, text: &mut Vec<u8>, change: &Change<'_>) -> Result<(), AllocError>
    ensures { OnOk result
        (text.new.items ≡ text.old.items ++ added_text (change_view change.now)) }
{
    if is_sub_number(change.old) {
        return Ok(());
    }
    push_sub_indices(text, alloc, change.kind)
}

// the place of a change
#[tactic(auto, unfolding(crate::specs::Listing::place_text))]
pub(crate) fn push_place(
    alloc: Global,
    text: &mut Vec<u8>,
    name: &[u8],
    line: usize,
) -> Result<(), AllocError>
    ensures { OnOk result (text.new.items ≡ text.old.items ++ place_text name.now line) }
{
    attempt!(push_shown(text, name));
    attempt!(text.extend_from_slice(b":"));
    attempt!(push_number(alloc, text, line as u64));
    text.extend_from_slice(b": ")
}

// the old text, and the new one
#[tactic(auto, unfolding(crate::specs::Listing::old_and_new))]
fn push_old_and_new(
    alloc: Global,
    text: &mut Vec<u8>,
    change: &Change<'_>,
) -> Result<(), AllocError>
    ensures { OnOk result
        (text.new.items ≡ text.old.items ++ old_and_new (change_view change.now)) }
{
    attempt!(push_shown(text, trim(change.old)));
    attempt!(text.extend_from_slice(b" -> "));
    attempt!(push_new(text, change.new.as_slice()));
    attempt!(push_added(alloc, text, change));
    text.extend_from_slice(b"\n")
}

// the line of a change: `NAME:LINE: what changed: old -> new`
#[tactic(auto, unfolding(crate::specs::Listing::change_line))]
fn push_change(
    alloc: Global,
    text: &mut Vec<u8>,
    name: &[u8],
    change: &Change<'_>,
) -> Result<(), AllocError>
    ensures { OnOk result
        (text.new.items ≡ text.old.items ++ change_line name.now (change_view change.now)) }
{
    attempt!(push_place(alloc, text, name, change.line));
    attempt!(text.extend_from_slice(change_name(change.kind).as_bytes()));
    attempt!(text.extend_from_slice(b": "));
    push_old_and_new(alloc, text, change)
}

// the line of a piece that is changed
fn push_piece(
    alloc: Global,
    text: &mut Vec<u8>,
    name: &[u8],
    piece: &Piece<'_>,
) -> Result<(), AllocError>
    ensures { OnOk result
        (text.new.items ≡ text.old.items ++ piece_line name.now (piece_view piece.now)) }
{
    match piece {
        Piece::Changed(change) => push_change(alloc, text, name, change),
        Piece::Kept(_) | Piece::Added { .. } => Ok(()),
    }
}

/// Appends a line for each change.
pub(crate) fn push_changes(
    alloc: Global,
    text: &mut Vec<u8>,
    name: &[u8],
    pieces: &[Piece<'_>],
) -> Result<(), AllocError>
    ensures { OnOk result (text.new.items
        ≡ text.old.items ++ flat_map (piece_line name.now) (map piece_view pieces.now)) }
{
    for piece in pieces {
        attempt!(push_piece(alloc, text, name, piece));
    }
    Ok(())
}
