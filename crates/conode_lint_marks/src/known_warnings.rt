//! The warnings of a text that rest on nothing at fault.

ghost use Rattle.std.specs.Prelude.{◌≡◌, ◌++◌, map, IfOk, OnOk};
ghost use Rattle.std.specs.List.{list_any};
ghost use Rattle.co_sheet_text.specs.Views.{section_view};
ghost use Rattle.conode_lint_marks.specs.KnownWarnings.{
  bad_line,
  bad_lines,
  begins_at,
  begins_before,
  comes_before,
  faults_from,
  has_fault,
  has_number,
  is_at_fault_here,
  is_before_next,
  is_either_in_doubt,
  is_first,
  is_in_compact,
  is_one_of,
  is_second,
  is_sound,
  is_time_in_doubt,
  is_time_with,
  known_by,
  known_in,
  rests_on_fault,
  sections_from,
  sub_of,
  unknown_of,
  unless_at_fault,
  warning_mark,
};

use crate::at_fault::{AtFault, faults_before, is_complete};
use crate::build_lines::value_line;
use crate::compact::CompactForms;
use crate::concerns::{Concern, is_any};
use crate::mark::{Mark, Subject};
use co_dict_build::BuildFault;
use co_sheet::SheetFault;
use co_sheet_text::{SectionKind, TextSection};
use co_sheet_text_warnings::{Warning, WarningKind};
use co_sheet_warnings::compared;
use std::alloc::{AllocError, Global};

/// What may be wrong in a text, since sections are at fault.
#[derive(Clone, Copy)]
pub(crate) struct Unknown {
    /// Which sections there are.
    sections: bool,
    /// DeviceInfo, with CompactPDO.
    info: bool,
    /// What is listed.
    lists: bool,
}

#[tactic(auto, unfolding(crate::specs::KnownWarnings::unknown_of))]
fn unknown_of(sections: &[TextSection<'_, '_>], kinds: &[SectionKind]) -> Unknown
    ensures { result ≡ unknown_of (map section_view sections.now) kinds.now }
{
    Unknown {
        sections: is_any(Concern::SectionLine, kinds),
        info: is_any(Concern::CompactPdo, kinds),
        lists: !is_complete(sections, kinds),
    }
}

fn begins_before(sections: &[TextSection<'_, '_>], line: usize) -> bool
    ensures { result ≡ begins_before line (map section_view sections.now) }
{
    match sections {
        [first, ..] => first.line < line,
        [] => false,
    }
}

// the sections from the one on that a line is in
fn sections_from<'t, 's, 'a>(
    line: usize,
    sections: &'t [TextSection<'s, 'a>],
) -> &'t [TextSection<'s, 'a>]
    ensures { map section_view result.now ≡ sections_from line (map section_view sections.now) }
{
    let mut rest = sections;
    while let [_, more @ ..] = rest {
        if !begins_before(more, line) {
            return rest;
        }
        rest = more;
    }
    rest
}

// whether a line is in a section of an object in compact form, where these are the sections from it
// on
fn is_in_compact(forms: &CompactForms<'_, '_>, line: usize, here: &[TextSection<'_, '_>]) -> bool
    ensures { result ≡ is_in_compact forms.now line (map section_view here.now) }
{
    match here {
        [first, ..] => first.line < line && forms.has_section(first.kind),
        [] => false,
    }
}

// whether a section has the inhibit time at a line, and one of the three numbers of its TPDO may be
// wrong
fn is_time_with(doubts: &[SectionKind], line: usize, section: &TextSection<'_, '_>) -> bool
    ensures { result ≡ is_time_with doubts.now line (section_view section.now) section.now.kind }
{
    match section.kind {
        SectionKind::SubIndex(key) => {
            key.sub == 3
                && value_line(section) == line
                && is_any(Concern::SubsOf(key.index, 1, 3), doubts)
        }
        _ => false,
    }
}

fn is_time_in_doubt(sections: &[TextSection<'_, '_>], doubts: &[SectionKind], line: usize) -> bool
    ensures { result ≡ is_time_in_doubt (map section_view sections.now) doubts.now line }
{
    for section in sections {
        if is_time_with(doubts, line, section) {
            return true;
        }
    }
    false
}

fn sub_of(kind: SectionKind) -> u8
    ensures { result ≡ sub_of kind }
{
    match kind {
        SectionKind::SubIndex(key) => key.sub,
        _ => 0,
    }
}

// whether one of two sections with the same number is the first
fn comes_before(
    kind: WarningKind,
    first: &TextSection<'_, '_>,
    section: &TextSection<'_, '_>,
) -> bool
    ensures { result ≡ comes_before kind (section_view first.now) (section_view section.now) }
{
    match kind {
        WarningKind::HeartbeatTwice(_) => sub_of(first.kind) < sub_of(section.kind),
        _ => first.line < section.line,
    }
}

fn is_sound(doubts: &[SectionKind], section: &TextSection<'_, '_>) -> bool
    ensures { result ≡ is_sound doubts.now (section_view section.now) }
{
    !is_any(Concern::Same(section.kind), doubts)
}

fn has_number(kind: WarningKind, number: u64, section: &TextSection<'_, '_>) -> bool
    ensures { result ≡ has_number kind number (section_view section.now) }
{
    match compared(kind, section) {
        Some(other) => other.number == number,
        None => false,
    }
}

// whether a section has a value that isn't in doubt, with this number, before that of another
fn is_first(
    kind: WarningKind,
    doubts: &[SectionKind],
    section: &TextSection<'_, '_>,
    number: u64,
    first: &TextSection<'_, '_>,
) -> bool
    ensures { result ≡ is_first
        kind doubts.now (section_view section.now) number (section_view first.now) }
{
    comes_before(kind, first, section) && is_sound(doubts, first) && has_number(kind, number, first)
}

fn has_any_first(
    kind: WarningKind,
    doubts: &[SectionKind],
    sections: &[TextSection<'_, '_>],
    section: &TextSection<'_, '_>,
    number: u64,
) -> bool
    ensures { result ≡ list_any (is_first kind doubts.now (section_view section.now) number)
        (map section_view sections.now) }
{
    for first in sections {
        if is_first(kind, doubts, section, number, first) {
            return true;
        }
    }
    false
}

// whether a section has the value at a line, which isn't in doubt, and such a one is before it
fn is_second(
    kind: WarningKind,
    doubts: &[SectionKind],
    sections: &[TextSection<'_, '_>],
    line: usize,
    section: &TextSection<'_, '_>,
) -> bool
    ensures { result ≡ is_second
        kind doubts.now (map section_view sections.now) line (section_view section.now) }
{
    match compared(kind, section) {
        Some(own) => {
            own.line == line
                && is_sound(doubts, section)
                && has_any_first(kind, doubts, sections, section, own.number)
        }
        None => false,
    }
}

fn is_any_second(
    kind: WarningKind,
    doubts: &[SectionKind],
    sections: &[TextSection<'_, '_>],
    line: usize,
) -> bool
    ensures { result ≡ list_any (is_second kind doubts.now (map section_view sections.now) line)
        (map section_view sections.now) }
{
    for section in sections {
        if is_second(kind, doubts, sections, line, section) {
            return true;
        }
    }
    false
}

// whether one of the two values may be wrong that a warning at a line compares
fn is_either_in_doubt(
    kind: WarningKind,
    sections: &[TextSection<'_, '_>],
    doubts: &[SectionKind],
    line: usize,
) -> bool
    ensures { result ≡ is_either_in_doubt kind (map section_view sections.now) doubts.now line }
{
    match doubts {
        [] => false,
        [_, ..] => !is_any_second(kind, doubts, sections, line),
    }
}

fn begins_at(line: usize, faults: &[SheetFault]) -> bool
    ensures { result ≡ begins_at line faults.now }
{
    match faults {
        [first, ..] => first.line == line,
        [] => false,
    }
}

// whether a line comes before the section that begins next after another line
fn is_before_next(line: usize, here: &[TextSection<'_, '_>], number: usize) -> bool
    ensures { result ≡ is_before_next line (map section_view here.now) number }
{
    for section in here {
        if line < section.line {
            return number < section.line;
        }
    }
    true
}

// whether the section that begins at a line has a fault
fn has_fault(line: usize, here: &[TextSection<'_, '_>], faults: &[SheetFault]) -> bool
    ensures { result ≡ has_fault line (map section_view here.now) faults.now }
{
    match faults {
        [first, ..] => is_before_next(line, here, first.line),
        [] => false,
    }
}

// whether the section that a line is in is at fault, or its value may be wrong, where these are the
// sections from it on
fn is_at_fault_here(
    kinds: &[SectionKind],
    doubts: &[SectionKind],
    here: &[TextSection<'_, '_>],
) -> bool
    ensures { result ≡ is_at_fault_here kinds.now doubts.now (map section_view here.now) }
{
    match here {
        [first, ..] => {
            is_any(Concern::Same(first.kind), kinds) || is_any(Concern::Same(first.kind), doubts)
        }
        [] => false,
    }
}

fn is_one_of(lines: &[usize], line: usize) -> bool
    ensures { result ≡ is_one_of lines.now line }
{
    for own in lines {
        if *own == line {
            return true;
        }
    }
    false
}

// whether a warning rests on what isn't known, or on a value with one of these faults or with a bad
// COB-ID; `here` are the sections from that of the line on
fn rests_on_fault(
    unknown: Unknown,
    forms: &CompactForms<'_, '_>,
    kinds: &[SectionKind],
    doubts: &[SectionKind],
    bad: &[usize],
    here: &[TextSection<'_, '_>],
    faults: &[SheetFault],
    line: usize,
    kind: WarningKind,
) -> bool
    ensures { result ≡ rests_on_fault unknown forms.now kinds.now doubts.now bad.now
        (map section_view here.now) faults.now line kind }
{
    match kind {
        WarningKind::SubNumber => unknown.sections || is_in_compact(forms, line, here),
        WarningKind::SubIndex0 => {
            unknown.sections || begins_at(line, faults) || is_in_compact(forms, line, here)
        }
        WarningKind::VarSubIndices | WarningKind::MandatoryForm => {
            unknown.sections || has_fault(line, here, faults)
        }
        WarningKind::FileInfoKeys(_) => line == 0 && unknown.sections,
        WarningKind::DeviceInfoKeys(_) => {
            (line == 0 && unknown.sections) || is_any(Concern::CompactPdo, doubts)
        }
        WarningKind::PdoCount => unknown.sections || unknown.info,
        WarningKind::Unlisted | WarningKind::NoErrorControl => unknown.lists,
        WarningKind::SharedCobId(_) => {
            is_one_of(bad, line) || is_either_in_doubt(kind, forms.sections(), doubts, line)
        }
        WarningKind::HeartbeatTwice(_) => {
            is_either_in_doubt(kind, forms.sections(), doubts, line)
        }
        WarningKind::IdentityNumber(sub) => {
            is_any(Concern::SubsOf(0x1018, sub as u16, sub as u16), doubts)
        }
        WarningKind::InhibitTime => is_time_in_doubt(forms.sections(), doubts, line),
        WarningKind::FixedCobId => is_one_of(bad, line) || begins_at(line, faults),
        WarningKind::NodeIdPlace
        | WarningKind::NegativeLimit
        | WarningKind::ReservedValue
        | WarningKind::WrongAccess
        | WarningKind::WrongType
        | WarningKind::OwnHeartbeat => begins_at(line, faults),
        WarningKind::NodeIdSum => is_at_fault_here(kinds, doubts, here),
        _ => false,
    }
}

// the faults from a line on
fn faults_from(line: usize, faults: &[SheetFault]) -> &[SheetFault]
    ensures { result.now ≡ faults_from line faults.now }
{
    let (_, later) = faults.split_at(faults_before(faults, line));
    later
}

// adds the mark of a warning, unless it rests on what isn't known or on a value at fault
fn add_unless_at_fault(
    marks: &mut Vec<Mark>,
    unknown: Unknown,
    forms: &CompactForms<'_, '_>,
    kinds: &[SectionKind],
    doubts: &[SectionKind],
    bad: &[usize],
    here: &[TextSection<'_, '_>],
    faults: &[SheetFault],
    warning: &Warning,
) -> Result<(), AllocError>
    ensures { OnOk result (marks.new.items ≡ marks.old.items ++ map warning_mark (unless_at_fault
        unknown forms.now kinds.now doubts.now bad.now (map section_view here.now) faults.now
        warning.now)) }
{
    if !rests_on_fault(
        unknown,
        forms,
        kinds,
        doubts,
        bad,
        here,
        faults,
        warning.line,
        warning.kind,
    ) {
        attempt_in_memory!(marks.push(Mark {
            line: warning.line,
            subject: Subject::Warning(warning.kind),
        }));
    }
    Ok(())
}

fn add_known_in(
    marks: &mut Vec<Mark>,
    unknown: Unknown,
    forms: &CompactForms<'_, '_>,
    kinds: &[SectionKind],
    doubts: &[SectionKind],
    bad: &[usize],
    sections: &[TextSection<'_, '_>],
    faults: &[SheetFault],
    warnings: &[Warning],
) -> Result<(), AllocError>
    ensures { OnOk result (marks.new.items ≡ marks.old.items ++ map warning_mark
        (known_in unknown forms.now kinds.now doubts.now bad.now (map section_view sections.now)
        faults.now warnings.now)) }
{
    let mut rest = warnings;
    let mut here = sections;
    let mut left = faults;
    while let [warning, more @ ..] = rest {
        let own = sections_from(warning.line, here);
        let from = faults_from(warning.line, left);
        attempt!(add_unless_at_fault(
            marks, unknown, forms, kinds, doubts, bad, own, from, warning
        ));
        rest = more;
        here = own;
        left = from;
    }
    Ok(())
}

// adds the line of a bad COB-ID
fn add_if_bad(lines: &mut Vec<usize>, mark: &Mark) -> Result<(), AllocError>
    ensures { OnOk result
        (lines.new.items ≡ lines.old.items ++ bad_line mark.now.line mark.now.subject) }
{
    if let Subject::Build(BuildFault::BadCobId(_)) = mark.subject {
        attempt_in_memory!(lines.push(mark.line));
    }
    Ok(())
}

// the lines of bad COB-IDs among marks
fn bad_lines(alloc: Global, marks: &[Mark]) -> Result<Vec<usize>, AllocError>
    ensures { IfOk result (λ lines. lines.items ≡ bad_lines marks.now) }
{
    let mut lines = Vec::new(alloc);
    for mark in marks {
        attempt!(add_if_bad(&mut lines, mark));
    }
    Ok(lines)
}

/// Adds the marks of those of the warnings that rest on nothing at fault, in a text with these
/// sections and faults, by the sections at fault and the bad COB-IDs that are marked; all are in the
/// order of their lines. `Err`: out of memory.
pub fn add_known_warnings(
    alloc: Global,
    marks: &mut Vec<Mark>,
    sections: &[TextSection<'_, '_>],
    at_fault: &AtFault,
    faults: &[SheetFault],
    warnings: &[Warning],
) -> Result<(), AllocError>
    ensures { OnOk result (marks.new.items ≡ marks.old.items ++ map warning_mark (known_by
        (map section_view sections.now) at_fault.now.kinds.items at_fault.now.doubts.items
        (bad_lines marks.old.items) faults.now warnings.now)) }
{
    let unknown = unknown_of(sections, at_fault.kinds.as_slice());
    let bad = attempt!(bad_lines(alloc, marks.as_slice()));
    let forms = attempt!(CompactForms::new(alloc, sections));
    add_known_in(
        marks,
        unknown,
        &forms,
        at_fault.kinds.as_slice(),
        at_fault.doubts.as_slice(),
        bad.as_slice(),
        sections,
        faults,
        warnings,
    )
}
