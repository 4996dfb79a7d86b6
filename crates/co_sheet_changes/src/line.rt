//! The lines of a text.

ghost use Rattle.std.specs.Prelude.{◌≡◌, ◌≤◌, length, map, IfOk, option_map};
ghost use Rattle.std.specs.List.{before_first, list_all};
ghost use Rattle.std.specs.Option.{option_copied};
ghost use Rattle.co_sheet_text.specs.Text.{lines_of, trim};
ghost use Rattle.co_sheet_text.specs.Sections.{form_of, is_equals};
ghost use Rattle.co_sheet_changes.specs.Groups.{property_in, section_in, property_of, is_end_byte, is_end_mark};
ghost use Rattle.co_sheet_changes.specs.Views.{line_view, pair_view};

use co_sheet_text::{trim, without_mark};
use co_text::{split_at_first, split_line};
use std::alloc::{AllocError, Global};

/// A line of a text without its end, and its number, from 1.
#[derive(Clone, Copy)]
pub struct Line<'a> {
    pub number: usize,
    pub bytes: &'a [u8],
}

/// The lines of a text of at most 1,048,576 bytes. `Err`: out of memory.
pub fn lines_in(alloc: Global, text: &[u8]) -> Result<Vec<Line<'_>>, AllocError>
    requires { length text.now ≤ 1048576 }
    ensures { IfOk result (λ lines. map line_view lines.items ≡ lines_of text.now) }
{
    let mut lines = Vec::new(alloc);
    let mut rest = without_mark(text);
    let mut number = 1;
    while let Some((bytes, others)) = split_line(rest) {
        attempt_in_memory!(lines.push(Line { number, bytes }));
        rest = others;
        number += 1;
    }
    Ok(lines)
}

// cut at the first `=`, with a name before it and a value after it
fn property_of(text: &[u8]) -> Option<(&[u8], &[u8])>
    ensures { option_map pair_view result
        ≡ property_of text.now (trim (before_first is_equals text.now)) }
{
    let Some((name, value)) = split_at_first(text, b'=') else {
        return None;
    };
    let name = trim(name);
    let value = trim(value);
    if name.is_empty() || value.is_empty() {
        return None;
    }
    Some((name, value))
}

fn is_end_byte(byte: u8) -> bool
    ensures { result ≡ is_end_byte byte }
{
    byte == 0x1A || byte == 0
}

fn has_end_bytes(text: &[u8]) -> bool
    ensures { result ≡ list_all is_end_byte text.now }
{
    text.iter().all(|byte| is_end_byte(*byte))
}

impl<'a> Line<'a> {
    /// Whether the line is nothing but the mark by which DOS ends a file, 1Ah, or NUL bytes.
    pub fn is_end_mark(&self) -> bool
        ensures { result ≡ is_end_mark (line_view self.now) }
    {
        let text = trim(self.bytes);
        !text.is_empty() && has_end_bytes(text)
    }

    /// The name and the value that the line gives a section.
    pub fn property(&self) -> Option<(&'a [u8], &'a [u8])>
        ensures { option_map pair_view result ≡ property_in (line_view self.now) }
    {
        let text = trim(self.bytes);
        match text {
            [] | [b';' | b'[', ..] => None,
            _ => property_of(text),
        }
    }

    /// The name of the section that the line begins.
    pub fn section(&self) -> Option<&'a [u8]>
        ensures { option_copied result ≡ section_in (line_view self.now) }
    {
        match trim(self.bytes) {
            [b'[', rest @ ..] => match split_at_first(rest, b']') {
                Some((name, _)) => Some(trim(name)),
                None => None,
            },
            _ => None,
        }
    }
}
