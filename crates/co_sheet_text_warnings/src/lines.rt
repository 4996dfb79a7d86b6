//! The lines of a text.

ghost use Rattle.std.specs.Prelude.{◌≡◌, ◌++◌, true, false, length, map, option_to_list, IfOk, OnOk};
ghost use Rattle.std.specs.Str.{chars, is_utf8};
ghost use Rattle.co_sheet_text_warnings.specs.Lines.{
  character_count,
  first_beyond,
  first_other,
  first_unreadable,
  has_mark,
  has_other_byte,
  is_other_end,
  long_line,
  long_lines,
  mixed_line_ends,
  not_ascii,
  numbered,
  text_lines,
  utf8,
};
ghost use Rattle.co_sheet_text_warnings.specs.Places.{warnings_at};

use crate::places::add_one;
use crate::read_text::ReadText;
use crate::warning::{Warning, WarningKind};
use co_sheet_text::without_mark;
use co_text::split_line;
use std::alloc::{AllocError, Global};
use std::str;

/// The lines of a text, without their ends and without a byte order mark. `Err`: out of memory.
pub fn text_lines(alloc: Global, text: &[u8]) -> Result<Vec<&[u8]>, AllocError>
    ensures { IfOk result (λ found. map (λ line. line.now) found.items ≡ text_lines text.now) }
{
    let mut lines = Vec::new(alloc);
    let mut rest = without_mark(text);
    while let Some((line, after)) = split_line(rest) {
        attempt_in_memory!(lines.push(line));
        rest = after;
    }
    Ok(lines)
}

/// The most characters of a line that the standard allows, and the most bytes of one that is read.
const LONGEST: usize = 255;

const LONGEST_READ: usize = 512;

fn utf8_count(text: &str) -> usize
    ensures { result ≡ length (chars text.now) }
{
    text.chars().count()
}

// how many characters a line has, of UTF-8, or else of Windows-1252
fn character_count(line: &[u8]) -> usize
    ensures { result ≡ character_count line.now }
{
    match str::from_utf8(line) {
        Ok(text) => utf8_count(text),
        Err(_) => line.len(),
    }
}

// the number of a line of more than 255 characters, and at most 512 bytes: longer ones aren't read
fn long_line(number: usize, line: &[u8]) -> Option<usize>
    ensures { result ≡ long_line (record { number = number; bytes = line.now }) }
{
    if LONGEST < line.len() && line.len() <= LONGEST_READ && LONGEST < character_count(line) {
        Some(number)
    } else {
        None
    }
}

/// Adds warnings at the lines of more than 255 characters, and at most 512 bytes (CiA 306-1,
/// structure of an EDS). `Err`: out of memory.
pub fn add_long_lines(
    warnings: &mut Vec<Warning>,
    kind: WarningKind,
    lines: &[&[u8]],
) -> Result<(), AllocError>
    ensures { OnOk result (warnings.new.items ≡ warnings.old.items
        ++ warnings_at kind (long_lines (numbered 1 (map (λ line. line.now) lines.now)))) }
{
    let mut number = 1;
    for line in lines {
        attempt!(add_one(warnings, kind, long_line(number, line)));
        number += 1;
    }
    Ok(())
}

/// Whether a line has a byte above 7Fh.
pub fn has_other_byte(line: &[u8]) -> bool
    ensures { result ≡ has_other_byte line.now }
{
    let mut is_found = false;
    // without an early return many bytes are compared at once
    for byte in line {
        is_found = is_found | (0x7F < *byte);
    }
    is_found
}

/// The first line with a byte above 7Fh.
pub(crate) fn first_other(lines: &[&[u8]]) -> Option<usize>
    ensures { result ≡ first_other (numbered 1 (map (λ line. line.now) lines.now)) }
{
    let mut number = 1;
    for line in lines {
        if has_other_byte(line) {
            return Some(number);
        }
        number += 1;
    }
    None
}

fn is_utf8(text: &[u8]) -> bool
    ensures { result ≡ is_utf8 text.now }
{
    match str::from_utf8(text) {
        Ok(_) => true,
        Err(_) => false,
    }
}

// the first line that isn't UTF-8
fn first_unreadable(lines: &[&[u8]]) -> Option<usize>
    ensures { result ≡ first_unreadable (numbered 1 (map (λ line. line.now) lines.now)) }
{
    let mut number = 1;
    for line in lines {
        if !is_utf8(line) {
            return Some(number);
        }
        number += 1;
    }
    None
}

fn has_mark(text: &[u8]) -> bool
    ensures { result ≡ has_mark text.now }
{
    matches!(text, [0xEF, 0xBB, 0xBF, ..])
}

// the first line with a byte above 7Fh, which those of a byte order mark are too
fn first_beyond(text: &ReadText) -> Option<usize>
    ensures { result ≡ first_beyond text.now }
{
    if has_mark(text.bytes) {
        Some(1)
    } else {
        text.other
    }
}

/// Of a text with a byte above 7Fh: the first line with one, if all lines are UTF-8 and that is
/// asked for; or the first line that isn't UTF-8, if that is asked for.
pub(crate) fn other_bytes(text: &ReadText, in_utf8: bool) -> Option<usize>
    ensures utf8 { in_utf8 ≡ true → option_to_list result ≡ utf8 text.now }
    ensures other { in_utf8 ≡ false → option_to_list result ≡ not_ascii text.now }
{
    let Some(line) = first_beyond(text) else {
        return None;
    };
    match first_unreadable(text.lines) {
        Some(unreadable) if !in_utf8 => Some(unreadable),
        None if in_utf8 => Some(line),
        _ => None,
    }
}

// whether a line's end isn't that of line 1: with CR before LF, or without
fn is_other_end(first: Option<bool>, with_cr: bool) -> bool
    ensures { result ≡ is_other_end first with_cr }
{
    match first {
        None => false,
        Some(true) => !with_cr,
        Some(false) => with_cr,
    }
}

/// The first line whose end isn't that of line 1: CR and LF, or LF alone.
pub(crate) fn mixed_line_ends(text: &[u8]) -> Option<usize>
    ensures { option_to_list result ≡ mixed_line_ends text.now }
{
    let mut first = None;
    let mut line = 1;
    let mut after_cr = false;
    for byte in text {
        if *byte == b'\n' {
            if is_other_end(first, after_cr) {
                return Some(line);
            }
            first = first.or(Some(after_cr));
            line += 1;
            after_cr = false;
        } else {
            after_cr = *byte == b'\r';
        }
    }
    None
}
