//! A line, made of parts. Each function appends to a line. `Err`: out of memory; a part of it may
//! be there.

ghost use Rattle.std.specs.Prelude.{◌≡◌, ◌++◌, replicate, OnOk};
ghost use Rattle.std.specs.List.{flat_map};
ghost use Rattle.conode_show_text.specs.Layout.{
  begins_character,
  begun,
  cell_byte,
  columns,
  gap,
  is_markup,
  placed,
};

use crate::format::Format;
use std::alloc::AllocError;

fn begins_character(byte: u8) -> bool
    ensures { result ≡ begins_character byte }
{
    byte < 128 || 192 <= byte
}

/// How many columns a text has.
pub(crate) fn columns(text: &[u8]) -> usize
    ensures { result ≡ columns text.now }
{
    let mut count = 0;
    for byte in text {
        if begins_character(*byte) {
            count += 1;
        }
    }
    count
}

fn gap(column: usize, line: &[u8]) -> usize
    ensures { result ≡ gap column line.now }
{
    let at = columns(line);
    if at < column {
        column - at
    } else if line.is_empty() {
        0
    } else {
        1
    }
}

fn push_blanks(line: &mut Vec<u8>, count: usize) -> Result<(), AllocError>
    ensures { OnOk result (line.new.items ≡ line.old.items ++ replicate count 32) }
{
    for _blank in 0..count {
        attempt_in_memory!(line.push(b' '));
    }
    Ok(())
}

fn is_markup(byte: u8) -> bool
    ensures { result ≡ is_markup byte }
{
    matches!(
        byte,
        b'\\' | b'|' | b'<' | b'&' | b'*' | b'_' | b'`' | b'[' | b'$' | b'~'
    )
}

fn push_cell_byte(line: &mut Vec<u8>, byte: u8) -> Result<(), AllocError>
    ensures { OnOk result (line.new.items ≡ line.old.items ++ cell_byte byte) }
{
    if is_markup(byte) {
        attempt_in_memory!(line.push(b'\\'));
    }
    attempt_in_memory!(line.push(byte));
    Ok(())
}

/// Appends the text of a table's cell, or of a heading.
pub(crate) fn push_cell(line: &mut Vec<u8>, part: &[u8]) -> Result<(), AllocError>
    ensures { OnOk result (line.new.items ≡ line.old.items ++ flat_map cell_byte part.now) }
{
    for byte in part {
        attempt!(push_cell_byte(line, *byte));
    }
    Ok(())
}

/// Appends a part to a line: in its column, or in a row of a table.
#[tactic(auto, unfolding(crate::specs::Layout::placed))]
pub(crate) fn place(
    line: &mut Vec<u8>,
    format: Format,
    column: usize,
    part: &[u8],
) -> Result<(), AllocError>
    ensures { OnOk result (line.new.items ≡ placed format column line.old.items part.now) }
{
    match format {
        Format::Text if part.is_empty() => Ok(()),
        Format::Text => {
            let blanks = gap(column, line.as_slice());
            attempt!(push_blanks(line, blanks));
            line.extend_from_slice(part)
        }
        Format::Markdown => {
            attempt_in_memory!(line.push(b' '));
            attempt!(push_cell(line, part));
            line.extend_from_slice(b" |")
        }
    }
}

/// Empties a line, and begins it.
pub(crate) fn begin(line: &mut Vec<u8>, format: Format) -> Result<(), AllocError>
    ensures { OnOk result (line.new.items ≡ begun format) }
{
    line.clear();
    match format {
        Format::Text => Ok(()),
        Format::Markdown => line.extend_from_slice(b"|"),
    }
}
