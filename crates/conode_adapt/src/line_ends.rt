//! Changes that are part of no line: the byte order mark, CR before LF, and LF after the last line.

ghost use Rattle.std.specs.Prelude.{◌≡◌, ◌++◌, false, OnOk, IfOk};
ghost use Rattle.conode_adapt.specs.Listing.{
  ends_line,
  ends_text,
  last_line,
  last_text,
  mark_line,
  open_line,
  returns_from,
};
ghost use Rattle.co_sheet_changes.specs.Groups.{is_end_byte};

use crate::listing::push_place;
use co_sheet_changes::push_number;
use std::alloc::{AllocError, Global};

/// Appends the line about a byte order mark, if there is one.
#[tactic(auto, unfolding(crate::specs::Listing::mark_line))]
pub(crate) fn push_mark(
    alloc: Global,
    text: &mut Vec<u8>,
    name: &[u8],
    source: &[u8],
) -> Result<(), AllocError>
    ensures { OnOk result (text.new.items ≡ text.old.items ++ mark_line name.now source.now) }
{
    if !source.starts_with(b"\xEF\xBB\xBF") {
        return Ok(());
    }
    attempt!(push_place(alloc, text, name, 1));
    text.extend_from_slice(b"byte order mark: EF BB BF -> dropped\n")
}

// the numbers of the lines that end with CR and LF
fn returns_in(alloc: Global, source: &[u8]) -> Result<Vec<usize>, AllocError>
    ensures { IfOk result (λ lines. lines.items ≡ returns_from 1 false source.now) }
{
    let mut lines = Vec::new(alloc);
    let mut line = 1;
    let mut after_cr = false;
    for byte in source {
        if *byte == b'\n' {
            if after_cr {
                lines.push(line)?;
            }
            line += 1;
            after_cr = false;
        } else {
            after_cr = *byte == b'\r';
        }
    }
    Ok(lines)
}

#[tactic(auto, unfolding(crate::specs::Listing::ends_text))]
fn push_ends(
    alloc: Global,
    text: &mut Vec<u8>,
    name: &[u8],
    lines: &[usize],
) -> Result<(), AllocError>
    ensures { OnOk result (text.new.items ≡ text.old.items ++ ends_text name.now lines.now) }
{
    let [first, ..] = lines else {
        return Ok(());
    };
    attempt!(push_place(alloc, text, name, *first));
    attempt!(text.extend_from_slice(b"ends of lines, "));
    attempt!(push_number(alloc, text, lines.len() as u64));
    text.extend_from_slice(b" in all: CR LF -> LF\n")
}

/// Appends the line about CRs that are dropped before LF, if there are any and the text doesn't
/// stay.
pub(crate) fn push_line_ends(
    alloc: Global,
    text: &mut Vec<u8>,
    name: &[u8],
    source: &[u8],
    stays: bool,
) -> Result<(), AllocError>
    ensures { OnOk result
        (text.new.items ≡ text.old.items ++ ends_line stays name.now source.now) }
{
    if stays {
        return Ok(());
    }
    let lines = attempt!(returns_in(alloc, source));
    push_ends(alloc, text, name, lines.as_slice())
}

fn is_end_byte(byte: u8) -> bool
    ensures { result ≡ is_end_byte byte }
{
    byte == 0x1A || byte == 0
}

// the number of the last line, if it has no LF and isn't dropped as an end mark of DOS
fn open_line(source: &[u8]) -> Option<usize>
    ensures { result ≡ open_line 1 false source.now }
{
    let mut line = 1;
    let mut is_begun = false;
    for byte in source {
        if *byte == b'\n' {
            line += 1;
            is_begun = false;
        } else {
            is_begun = is_begun || !is_end_byte(*byte);
        }
    }
    if is_begun { Some(line) } else { None }
}

#[tactic(auto, unfolding(crate::specs::Listing::last_text))]
fn push_last(
    alloc: Global,
    text: &mut Vec<u8>,
    name: &[u8],
    line: Option<usize>,
) -> Result<(), AllocError>
    ensures { OnOk result (text.new.items ≡ text.old.items ++ last_text name.now line) }
{
    let Some(line) = line else {
        return Ok(());
    };
    attempt!(push_place(alloc, text, name, line));
    text.extend_from_slice(b"end of the last line: none -> LF\n")
}

/// Appends the line about an LF after the last line, if it has none, and neither it is dropped nor the
/// text stays.
pub(crate) fn push_last_line(
    alloc: Global,
    text: &mut Vec<u8>,
    name: &[u8],
    source: &[u8],
    stays: bool,
) -> Result<(), AllocError>
    ensures { OnOk result
        (text.new.items ≡ text.old.items ++ last_line stays name.now source.now) }
{
    if stays {
        return Ok(());
    }
    push_last(alloc, text, name, open_line(source))
}
