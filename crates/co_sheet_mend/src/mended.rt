//! A text without what is at fault in it.

ghost use Rattle.std.specs.Prelude.{◌≡◌, ◌≤◌, ◌++◌, None, false, length, map, IfOk, OnOk};
ghost use Rattle.co_sheet_changes.specs.Views.{line_view};
ghost use Rattle.co_sheet_mend.specs.Repairs.{
  begun_list,
  is_counted,
  mandatory_lines,
  mended_by,
  mended_lines,
};
ghost use Rattle.co_sheet_mend.specs.ReadableTexts.{mended, repair_in};

use crate::lines::{has_list, key_at, push_ended, push_line, push_listed, push_mandatory_sections};
use crate::repair::Repair;
use crate::repairs::Repairs;
use co_sheet_changes::{Line, lines_in};
use std::alloc::{AllocError, Global};

fn is_counted(repair: Option<Repair>) -> bool
    ensures { result ≡ is_counted repair }
{
    matches!(repair, Some(Repair::Counted))
}

// appends lines by their repairs
fn push_lines(
    alloc: Global,
    made: &mut Vec<u8>,
    repairs: &Repairs,
    lines: &[Line<'_>],
) -> Result<(), AllocError>
    ensures { OnOk result (made.new.items ≡ made.old.items
        ++ mended_lines (repair_in repairs.now) false None (map line_view lines.now)) }
{
    let mut rest = lines;
    let mut counted = false;
    let mut key = None;
    while let [line, more @ ..] = rest {
        if counted && line.section().is_none() {
            push_ended(made, b"")?;
        } else {
            let repair = repairs.at(line.number);
            key = key_at(key, line);
            push_line(alloc, made, repair, key, line, more)?;
            counted = is_counted(repair);
        }
        rest = more;
    }
    Ok(())
}

// appends lines, the list of the mandatory objects with all three, and a section of each
fn push_mandatory_lines(
    alloc: Global,
    made: &mut Vec<u8>,
    lines: &[Line<'_>],
) -> Result<(), AllocError>
    ensures { OnOk result (made.new.items
        ≡ made.old.items ++ mandatory_lines (map line_view lines.now)) }
{
    let mut rest = lines;
    while let [line, more @ ..] = rest {
        push_listed(alloc, made, line, more)?;
        rest = more;
    }
    push_mandatory_sections(made)
}

// appends a list of the mandatory objects, where the text has another list and not this one
fn push_begun_list(
    made: &mut Vec<u8>,
    repair: Option<Repair>,
    lines: &[Line<'_>],
) -> Result<(), AllocError>
    ensures { OnOk result (made.new.items
        ≡ made.old.items ++ begun_list repair (map line_view lines.now)) }
{
    if repair.is_some() && has_list(lines) {
        made.extend_from_slice(b"[MandatoryObjects]\nSupportedObjects=0\n")
    } else {
        Ok(())
    }
}

// appends lines by their repairs, that of the whole text first
fn push_by(
    alloc: Global,
    made: &mut Vec<u8>,
    repairs: &Repairs,
    lines: &[Line<'_>],
) -> Result<(), AllocError>
    ensures { OnOk result (made.new.items
        ≡ made.old.items ++ mended_by (repair_in repairs.now) (map line_view lines.now)) }
{
    let of_text = repairs.at(0);
    if is_counted(of_text) {
        return push_mandatory_lines(alloc, made, lines);
    }
    push_lines(alloc, made, repairs, lines)?;
    push_begun_list(made, of_text, lines)
}

fn push_mended(alloc: Global, made: &mut Vec<u8>, text: &[u8]) -> Result<(), AllocError>
    requires { length text.now ≤ 1048576 }
    ensures { OnOk result (made.new.items ≡ made.old.items ++ mended text.now) }
{
    let repairs = Repairs::in_text(alloc, text)?;
    let lines = lines_in(alloc, text)?;
    push_by(alloc, made, &repairs, lines.as_slice())
}

/// A text of at most 1,048,576 bytes without what is at fault in it. `Err`: out of memory.
pub(crate) fn mended(alloc: Global, text: &[u8]) -> Result<Vec<u8>, AllocError>
    requires { length text.now ≤ 1048576 }
    ensures { IfOk result (λ made. made.items ≡ mended text.now) }
{
    let mut made = Vec::new(alloc);
    push_mended(alloc, &mut made, text)?;
    Ok(made)
}
