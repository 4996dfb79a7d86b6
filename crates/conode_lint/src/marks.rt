//! Everything that is found in a text, in the order of its lines.

ghost use Rattle.std.specs.Prelude.{◌≡◌, ◌<◌, ◌≤◌, ◌++◌, [], ◌∷◌, length, map, IfOk, OnOk, IfSome};
ghost use Rattle.co_sheet_text.specs.LinesAtFault.{sections_read};
ghost use Rattle.co_sheet_text.specs.Text.{lines_of};
ghost use Rattle.co_sheet_text.specs.Views.{section_view};
ghost use Rattle.co_dict_build.specs.Capacities.{limits_view};
ghost use Rattle.co_sheet_text_warnings.specs.Lines.{text_lines};
ghost use Rattle.conode_lint_marks.specs.AtFault.{kinds_at_fault};
ghost use Rattle.conode_lint_marks.specs.Beside.{sheet_of};
ghost use Rattle.conode_lint_marks.specs.Doubts.{doubts_of};
ghost use Rattle.conode_lint.specs.Marks.{
  AddsWarnings,
  IsByLine,
  IsFaultList,
  IsFound,
  IsFoundIn,
  IsMarked,
  fault_mark,
  format_mark,
  format_of,
  node_for,
  sheet_marks,
  text_sections,
};

use crate::other_format::{format_line, found_format};
use co_dict_build::Limits;
use co_sheet::{GREATEST_SIZE, Sheet, SheetFault};
use co_sheet_faults::{all_faults, find_faults};
use co_sheet_text::TextSection;
use co_sheet_warnings::find_warnings;
use conode_lint_marks::{
    AtFault, Mark, OtherFormat, Subject, add_beside, add_build_marks, add_known_warnings,
    sections_at_fault,
};
use std::alloc::{AllocError, Global};

/// What is looked for in a text.
#[derive(Clone, Copy)]
pub struct Checks<'a> {
    /// The node-ID that a dictionary is built for; `None`: the sheet's own, if it has one.
    pub node: Option<u8>,
    /// The limits that a dictionary is built with.
    pub limits: Limits<'a>,
    /// Whether to include the quiet warnings.
    pub all: bool,
    /// The names of findings that are allowed.
    pub allowed: &'a [&'a str],
}

fn add_faults(marks: &mut Vec<Mark>, faults: &[SheetFault]) -> Result<(), AllocError>
    ensures { OnOk result (marks.new.items ≡ marks.old.items ++ map fault_mark faults.now) }
{
    for fault in faults {
        attempt_in_memory!(marks.push(Mark {
            line: fault.line,
            subject: Subject::Fault(fault.kind),
        }));
    }
    Ok(())
}

// all faults of a text; a sheet has none
fn faults_of(
    alloc: Global,
    text: &[u8],
    sheet: &Option<Sheet<'_>>,
) -> Result<Vec<SheetFault>, AllocError>
    requires { sheet.now ≡ sheet_of text.now }
    ensures { IfOk result (λ faults. IsFaultList text.now faults.items) }
{
    all_faults();
    match sheet {
        Some(_) => Ok(Vec::new(alloc)),
        None => find_faults(alloc, text),
    }
}

// the given node-ID, or else the sheet's own
fn node_for(node: Option<u8>, sheet: &Option<Sheet<'_>>) -> Option<u8>
    ensures { result ≡ node_for node sheet.now }
{
    match (node, sheet) {
        (Some(node_id), _) => Some(node_id),
        (None, Some(sheet)) => sheet.node_id(),
        (None, None) => None,
    }
}

// why no dictionary can be built of a sheet
fn add_built(
    alloc: Global,
    marks: &mut Vec<Mark>,
    sections: &[TextSection<'_, '_>],
    sheet: &Option<Sheet<'_>>,
    node: Option<u8>,
    limits: &Limits<'_>,
) -> Result<(), AllocError>
    ensures { OnOk result (marks.new.items ≡ marks.old.items
        ++ sheet_marks (limits_view limits.now) (map section_view sections.now) sheet.now node) }
{
    match (sheet, node) {
        (Some(sheet), Some(node_id)) => {
            add_build_marks(alloc, marks, sheet, sections, node_id, limits)
        }
        _ => Ok(()),
    }
}

// adds the warnings of a text with these lines, sections and faults
fn add_suspicious<'s, 'a>(
    alloc: Global,
    marks: &mut Vec<Mark>,
    text: &'a [u8],
    lines: &'s [&'a [u8]],
    sections: &'s [TextSection<'s, 'a>],
    faults: &[SheetFault],
    at_fault: &AtFault,
    checks: &Checks<'_>,
) -> Result<(), AllocError>
    requires size { length text.now ≤ 1048576 }
    requires lines { map (λ line. line.now) lines.now ≡ text_lines text.now }
    requires sections { map section_view sections.now ≡ sections_read (lines_of text.now) }
    requires kinds { at_fault.now.kinds.items
        ≡ kinds_at_fault faults.now (map section_view sections.now) }
    requires doubts { at_fault.now.doubts.items ≡ doubts_of
        (map (λ line. line.now) lines.now) faults.now (map section_view sections.now) }
    ensures { OnOk result
        (AddsWarnings text.now checks.now faults.now marks.old.items marks.new.items) }
{
    match find_warnings(alloc, text, lines, sections, checks.node, checks.all) {
        Ok(warnings) => {
            add_known_warnings(
                alloc,
                marks,
                sections,
                at_fault,
                faults,
                warnings.as_slice(),
            )
        }
        Err(fault) => Err(fault),
    }
}

// adds the marks of a text with these lines and sections to none: its faults, its build, also
// beside faults, and its warnings
fn add_marks<'s, 'a>(
    alloc: Global,
    marks: &mut Vec<Mark>,
    text: &'a [u8],
    lines: &'s [&'a [u8]],
    sections: &'s [TextSection<'s, 'a>],
    sheet: &Option<Sheet<'_>>,
    faults: &[SheetFault],
    checks: &Checks<'_>,
) -> Result<(), AllocError>
    requires none { marks.old.items ≡ [] }
    requires size { length text.now ≤ 1048576 }
    requires lines { map (λ line. line.now) lines.now ≡ text_lines text.now }
    requires sections { map section_view sections.now ≡ sections_read (lines_of text.now) }
    requires sheet { sheet.now ≡ sheet_of text.now }
    ensures { OnOk result (IsMarked text.now checks.now faults.now marks.new.items) }
{
    attempt!(add_faults(marks, faults));
    let node = node_for(checks.node, sheet);
    attempt!(add_built(alloc, marks, sections, sheet, node, &checks.limits));
    let at_fault = attempt!(sections_at_fault(alloc, lines, faults, sections));
    attempt!(add_beside(
        alloc,
        marks,
        text,
        sections,
        faults,
        &at_fault,
        checks.node,
        &checks.limits
    ));
    add_suspicious(
        alloc, marks, text, lines, sections, faults, &at_fault, checks,
    )
}

// adds the marks of a text that is too large to be read to none: only that fault
fn add_large(
    marks: &mut Vec<Mark>,
    text: &[u8],
    sheet: &Option<Sheet<'_>>,
    faults: &[SheetFault],
    checks: &Checks<'_>,
) -> Result<(), AllocError>
    requires none { marks.old.items ≡ [] }
    requires size { 1048576 < length text.now }
    requires sheet { sheet.now ≡ sheet_of text.now }
    requires small { IfSome sheet.now (λ _. length text.now ≤ 1048576) }
    ensures { OnOk result (IsMarked text.now checks.now faults.now marks.new.items) }
{
    add_faults(marks, faults)
}

/// Puts marks in the order of their lines; those of a line stay in their order. `Err`: out of
/// memory.
pub(crate) fn put_by_line(marks: &mut Vec<Mark>) -> Result<(), AllocError>
    ensures { OnOk result (IsByLine marks.old.items marks.new.items) }
{
    attempt!(marks.sort_by_key(|mark| mark.line));
    Ok(())
}

// the format of a text with faults, if it is another
fn format_of(lines: &[&[u8]], faults: &[SheetFault]) -> Option<OtherFormat>
    ensures { result ≡ format_of (map (λ line. line.now) lines.now) faults.now }
{
    if faults.is_empty() {
        None
    } else {
        found_format(lines)
    }
}

fn add_format(marks: &mut Vec<Mark>, lines: &[&[u8]], format: OtherFormat) -> Result<(), AllocError>
    ensures { OnOk result (marks.new.items
        ≡ marks.old.items ++ format_mark (map (λ line. line.now) lines.now) format ∷ []) }
{
    attempt_in_memory!(marks.push(Mark {
        line: format_line(format, lines),
        subject: Subject::Format(format),
    }));
    Ok(())
}

// adds what is found in a text with these lines and faults to none: only the format, if it is
// another one, else all
fn add_found<'s, 'a>(
    alloc: Global,
    marks: &mut Vec<Mark>,
    text: &'a [u8],
    lines: &'s [&'a [u8]],
    sections: &'s [TextSection<'s, 'a>],
    sheet: &Option<Sheet<'_>>,
    faults: &[SheetFault],
    checks: &Checks<'_>,
) -> Result<(), AllocError>
    requires none { marks.old.items ≡ [] }
    requires lines { map (λ line. line.now) lines.now ≡ text_lines text.now }
    requires sections { map section_view sections.now ≡ text_sections text.now }
    requires sheet { sheet.now ≡ sheet_of text.now }
    requires small { IfSome sheet.now (λ _. length text.now ≤ 1048576) }
    ensures { OnOk result (IsFoundIn text.now checks.now faults.now marks.new.items
        (format_of (text_lines text.now) faults.now)) }
{
    if let Some(format) = format_of(lines, faults) {
        return add_format(marks, lines, format);
    }
    if text.len() > GREATEST_SIZE {
        attempt!(add_large(marks, text, sheet, faults, checks));
        return put_by_line(marks);
    }
    attempt!(add_marks(alloc, marks, text, lines, sections, sheet, faults, checks));
    put_by_line(marks)
}

/// Adds everything that is found in a text with these lines and sections and this sheet, by line,
/// to no marks. For a text with faults that is of another format, only that is found. `Err`: out of
/// memory.
pub(crate) fn add_marks_of<'s, 'a>(
    alloc: Global,
    marks: &mut Vec<Mark>,
    text: &'a [u8],
    lines: &'s [&'a [u8]],
    sections: &'s [TextSection<'s, 'a>],
    sheet: &Option<Sheet<'_>>,
    checks: &Checks<'_>,
) -> Result<(), AllocError>
    requires none { marks.old.items ≡ [] }
    requires lines { map (λ line. line.now) lines.now ≡ text_lines text.now }
    requires sections { map section_view sections.now ≡ text_sections text.now }
    requires sheet { sheet.now ≡ sheet_of text.now }
    requires small { IfSome sheet.now (λ _. length text.now ≤ 1048576) }
    ensures { OnOk result (IsFound text.now checks.now marks.new.items) }
{
    match faults_of(alloc, text, sheet) {
        Ok(faults) => add_found(
            alloc,
            marks,
            text,
            lines,
            sections,
            sheet,
            faults.as_slice(),
            checks,
        ),
        Err(fault) => Err(fault),
    }
}
