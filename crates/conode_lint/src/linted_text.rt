//! Linting a text.

ghost use Rattle.std.specs.Prelude.{◌≡◌, ◌≤◌, [], length, map, IfOk, IfSome, OnOk};
ghost use Rattle.co_sheet_text.specs.LinesAtFault.{own_faults, sections_read};
ghost use Rattle.co_sheet_text.specs.SectionLaws.{IsParsed};
ghost use Rattle.co_sheet_text.specs.Text.{lines_of};
ghost use Rattle.co_sheet_text.specs.Views.{section_view};
ghost use Rattle.co_sheet_text_warnings.specs.Lines.{text_lines};
ghost use Rattle.conode_lint_marks.specs.Beside.{sheet_of};
ghost use Rattle.conode_lint.specs.Found.{finding_of, seen};
ghost use Rattle.conode_lint.specs.Linted.{IsLinted, IsMadeOf, left, most_severe};
ghost use Rattle.conode_lint.specs.Marks.{IsByLine, text_sections};

use crate::allowed::{add_kept, add_names};
use crate::marks::{Checks, add_marks_of};
use crate::printed::{MOST, add_printed, error_count};
use crate::sheet::sheet_with;
use crate::words::{about_of, fix_of, meaning_with, name_of, place_of, severity_of, subject_of};
use co_sheet::{GREATEST_SIZE, Sheet};
use co_sheet_text::{ParsedText, TextFault, TextSection, all_sections_in};
use co_sheet_text_warnings::text_lines;
use conode_lint_marks::{Mark, line_at};
use conode_lint_text::Finding;
use std::alloc::{AllocError, Global};

/// What is found in a text.
#[derive(Drop)]
pub struct Linted<'a> {
    /// At most 1,000, errors before warnings if there are more, in the order of the lines.
    pub findings: Vec<Finding<'a>>,
    /// The number of errors, with those that aren't among the findings.
    pub errors: usize,
    /// The number of warnings, likewise.
    pub warnings: usize,
    /// How many aren't among the findings.
    pub more: usize,
}

// the finding of a mark
#[tactic(auto, unfolding(crate::specs::Found::finding_of))]
fn finding_of<'a>(
    lines: &[&'a [u8]],
    sections: &[TextSection<'_, '_>],
    node: Option<u8>,
    mark: Mark,
) -> Finding<'a>
    ensures { seen result ≡ finding_of (map (λ line. line.now) lines.now)
        (map section_view sections.now) node mark }
{
    let text = line_at(lines, mark.line);
    Finding {
        line: mark.line,
        place: place_of(mark.subject),
        about: about_of(sections, mark, text),
        severity: severity_of(mark.subject),
        name: name_of(mark.subject),
        meaning: meaning_with(node, sections, text, mark),
        fix: fix_of(mark.subject),
        subject: subject_of(mark.subject),
        text,
    }
}

// adds the findings of marks to none
fn add_findings<'a>(
    findings: &mut Vec<Finding<'a>>,
    lines: &[&'a [u8]],
    sections: &[TextSection<'_, '_>],
    node: Option<u8>,
    marks: &[Mark],
) -> Result<(), AllocError>
    requires { findings.old.items ≡ [] }
    ensures { OnOk result (map seen findings.new.items ≡ map (finding_of
        (map (λ line. line.now) lines.now) (map section_view sections.now) node) marks.now) }
{
    for mark in marks {
        attempt_in_memory!(findings.push(finding_of(lines, sections, node, *mark)));
    }
    Ok(())
}

// adds the marks that neither the command line nor the sheet allows to none
#[tactic(auto, unfolding(crate::specs::Linted::left))]
fn add_left(
    alloc: Global,
    marks: &mut Vec<Mark>,
    lines: &[&[u8]],
    checks: &Checks<'_>,
    found: &[Mark],
) -> Result<(), AllocError>
    requires { marks.old.items ≡ [] }
    ensures { OnOk result
        (marks.new.items ≡ left (map (λ line. line.now) lines.now) checks.now found.now) }
{
    let mut in_sheet = Vec::new(alloc);
    match add_names(&mut in_sheet, lines) {
        Ok(()) => add_kept(marks, found, checks.allowed, in_sheet.as_slice()),
        Err(fault) => Err(fault),
    }
}

// the findings of these marks, none of which is allowed; those of `printed` are listed
fn made_with<'a>(
    alloc: Global,
    lines: &[&'a [u8]],
    sections: &[TextSection<'_, '_>],
    node: Option<u8>,
    marks: &[Mark],
    printed: &[Mark],
) -> Result<Linted<'a>, AllocError>
    requires { IsByLine (most_severe 1000 marks.now) printed.now }
    ensures { IfOk result (IsMadeOf (map (λ line. line.now) lines.now)
        (map section_view sections.now) node marks.now) }
{
    let errors = error_count(marks);
    let mut findings = Vec::new(alloc);
    match add_findings(&mut findings, lines, sections, node, printed) {
        Ok(()) => Ok(Linted {
            findings,
            errors,
            warnings: marks.len().saturating_sub(errors),
            more: marks.len().saturating_sub(MOST),
        }),
        Err(fault) => Err(fault),
    }
}

// the findings of these marks, none of which is allowed
fn made_of<'a>(
    alloc: Global,
    lines: &[&'a [u8]],
    sections: &[TextSection<'_, '_>],
    node: Option<u8>,
    marks: &[Mark],
) -> Result<Linted<'a>, AllocError>
    ensures { IfOk result (IsMadeOf (map (λ line. line.now) lines.now)
        (map section_view sections.now) node marks.now) }
{
    let mut printed = Vec::new(alloc);
    match add_printed(&mut printed, marks) {
        Ok(()) => made_with(alloc, lines, sections, node, marks, printed.as_slice()),
        Err(fault) => Err(fault),
    }
}

// the findings of what is found in these lines, but for what is allowed
fn linted_of<'a>(
    alloc: Global,
    lines: &[&'a [u8]],
    sections: &[TextSection<'_, '_>],
    checks: &Checks<'_>,
    found: &[Mark],
) -> Result<Linted<'a>, AllocError>
    ensures { IfOk result (IsMadeOf (map (λ line. line.now) lines.now)
        (map section_view sections.now) checks.now.node
        (left (map (λ line. line.now) lines.now) checks.now found.now)) }
{
    let mut marks = Vec::new(alloc);
    match add_left(alloc, &mut marks, lines, checks, found) {
        Ok(()) => made_of(alloc, lines, sections, checks.node, marks.as_slice()),
        Err(fault) => Err(fault),
    }
}

// what is found in a text with these lines and sections and this sheet
fn linted_in<'s, 'a>(
    alloc: Global,
    text: &'a [u8],
    lines: &'s [&'a [u8]],
    sections: &'s [TextSection<'s, 'a>],
    sheet: &Option<Sheet<'_>>,
    checks: &Checks<'_>,
) -> Result<Linted<'a>, AllocError>
    requires lines { map (λ line. line.now) lines.now ≡ text_lines text.now }
    requires sections { map section_view sections.now ≡ text_sections text.now }
    requires sheet { sheet.now ≡ sheet_of text.now }
    requires small { IfSome sheet.now (λ _. length text.now ≤ 1048576) }
    ensures { IfOk result (IsLinted text.now checks.now) }
{
    let mut found = Vec::new(alloc);
    match add_marks_of(alloc, &mut found, text, lines, sections, sheet, checks) {
        Ok(()) => linted_of(alloc, lines, sections, checks, found.as_slice()),
        Err(fault) => Err(fault),
    }
}

// what is found in a text with these lines and sections, of whose lines these are at fault
fn linted_sections<'s, 'a>(
    alloc: Global,
    text: &'a [u8],
    lines: &'s [&'a [u8]],
    sections: &'s [TextSection<'s, 'a>],
    at_fault: &[TextFault],
    checks: &Checks<'_>,
) -> Result<Linted<'a>, AllocError>
    requires size { length text.now ≤ 1048576 }
    requires lines { map (λ line. line.now) lines.now ≡ text_lines text.now }
    requires parsed { IsParsed (map section_view sections.now) }
    requires sections { map section_view sections.now ≡ sections_read (lines_of text.now) }
    requires at_fault { at_fault.now ≡ own_faults [] (lines_of text.now) }
    ensures { IfOk result (IsLinted text.now checks.now) }
{
    match sheet_with(alloc, text, sections, at_fault) {
        Ok(sheet) => linted_in(alloc, text, lines, sections, &sheet, checks),
        Err(fault) => Err(fault),
    }
}

// what is found in a text with these lines, parsed, of whose lines these are at fault
fn linted_parsed<'s, 'a>(
    alloc: Global,
    text: &'a [u8],
    lines: &'s [&'a [u8]],
    parsed: &'s ParsedText<'a>,
    at_fault: &[TextFault],
    checks: &Checks<'_>,
) -> Result<Linted<'a>, AllocError>
    requires size { length text.now ≤ 1048576 }
    requires lines { map (λ line. line.now) lines.now ≡ text_lines text.now }
    requires parsed { IsParsed parsed.now }
    requires sections { parsed.now ≡ sections_read (lines_of text.now) }
    requires at_fault { at_fault.now ≡ own_faults [] (lines_of text.now) }
    ensures { IfOk result (IsLinted text.now checks.now) }
{
    match parsed.sections(alloc) {
        Ok(sections) => {
            linted_sections(alloc, text, lines, sections.as_slice(), at_fault, checks)
        }
        Err(fault) => Err(fault),
    }
}

// what is found in a text with these lines; one that is too large has no sections
fn linted_lines<'a>(
    alloc: Global,
    text: &'a [u8],
    lines: &[&'a [u8]],
    checks: &Checks<'_>,
) -> Result<Linted<'a>, AllocError>
    requires { map (λ line. line.now) lines.now ≡ text_lines text.now }
    ensures { IfOk result (IsLinted text.now checks.now) }
{
    if text.len() > GREATEST_SIZE {
        return linted_in(alloc, text, lines, &[], &None, checks);
    }
    match all_sections_in(alloc, text) {
        Ok((parsed, at_fault)) => {
            linted_parsed(alloc, text, lines, &parsed, at_fault.as_slice(), checks)
        }
        Err(fault) => Err(fault),
    }
}

/// Everything that is found in a text: each fault of the sheet, else each reason why no dictionary
/// can be built, and what is suspicious; without what the command line or a comment allows. `Err`:
/// out of memory.
pub fn lint_text<'a>(
    alloc: Global,
    text: &'a [u8],
    checks: &Checks<'_>,
) -> Result<Linted<'a>, AllocError>
    ensures { IfOk result (IsLinted text.now checks.now) }
{
    match text_lines(alloc, text) {
        Ok(lines) => linted_lines(alloc, text, lines.as_slice(), checks),
        Err(fault) => Err(fault),
    }
}
