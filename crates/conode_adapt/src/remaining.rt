//! What no rule mends: the faults of a text that was rewritten, at the lines that they come from.

use crate::origins::{at_source, has_values, lines_of};
use co_sheet_adapt::{Adapted, is_inconvertible};
use co_sheet_changes::{
    AdaptFault, ChangeKind, Group, Line, Piece, Request, groups_in, is_preset, on_request,
};
use co_sheet_faults::{FaultKind, SheetFault, find_faults, fix_of, meaning_of, subject_of};
use co_sheet_text::{SectionKind, number_in, same_name, trim};
use co_text::split_at_first;
use conode_json::characters_of;
use conode_lint_text::{
    About, Finding, Place, Severity, bad_line, bad_number, missing_section, push_finding, push_more,
};
use conode_text::{Value, push_filled};
use std::alloc::{AllocError, Global};

/// The most faults that are printed.
const MOST: usize = 1000;

/// The most bytes of a line that are printed.
const LONGEST: usize = 512;

// a line by its number, from 1, at most its first bytes
fn line_at<'a>(lines: &[Line<'a>], number: usize) -> &'a [u8] {
    let Some(place) = number.checked_sub(1) else {
        return &[];
    };
    let Some(line) = lines.get(place) else {
        return &[];
    };
    let (front, _) = line.bytes.split_at(line.bytes.len().min(LONGEST));
    front
}

// which part of its line a fault is about
fn place_of(kind: FaultKind) -> Place {
    match kind {
        FaultKind::BadNumber
        | FaultKind::AmbiguousNumber
        | FaultKind::MissingSection
        | FaultKind::ListedTwice
        | FaultKind::BadType
        | FaultKind::LeftOutType
        | FaultKind::BadAccess
        | FaultKind::BadLimits
        | FaultKind::BadDefault
        | FaultKind::CompactForm => Place::Value,
        _ => Place::Beginning,
    }
}

// what a fault is about, if its line doesn't show it: the section that is missing, or what a number or
// a line that can't be read is
fn about_of(fault: SheetFault, text: &[u8]) -> About {
    match fault.kind {
        FaultKind::MissingSection => missing_section(fault.line, text),
        FaultKind::BadNumber => bad_number(text),
        FaultKind::BadLine => bad_line(text),
        _ => About::Line,
    }
}

// how to fix it, without `conode adapt`, which has left it
fn fix_left(fault: &SheetFault) -> &'static str {
    match fault.kind {
        FaultKind::AmbiguousNumber => "write the number without the zero, or in hexadecimal",
        FaultKind::LeftOutType => {
            "take the object out of its list, or describe it by a supported type"
        }
        FaultKind::CompactForm => {
            "have the sheet's editor write each sub-index as a section of its own"
        }
        _ => fix_of(fault),
    }
}

fn finding_of<'a>(fault: SheetFault, text: &'a [u8]) -> Finding<'a> {
    Finding {
        line: fault.line,
        place: place_of(fault.kind),
        about: about_of(fault, text),
        severity: Severity::Error,
        name: fault.kind.name(),
        meaning: meaning_of(&fault),
        fix: fix_left(&fault),
        subject: subject_of(fault.kind),
        text,
    }
}

// the sign and the digits of a value with a leading zero, without `$NODEID` in a sum
fn digits_of(line: &[u8]) -> (&'static str, &[u8]) {
    let Some((_, value)) = split_at_first(line, b'=') else {
        return ("", &[]);
    };
    let part = match split_at_first(value, b'+') {
        Some((left, right)) if same_name(trim(left), b"$NODEID") => right,
        Some((left, _)) => left,
        None => value,
    };
    match trim(part) {
        [b'-', digits @ ..] => ("-", digits),
        digits => ("", digits),
    }
}

// appends the two numbers that a value with a leading zero may mean
fn push_both(report: &mut String, line: &[u8]) -> Result<(), AllocError> {
    let (sign, digits) = digits_of(line);
    if let (Some(octal), Some(decimal)) = (number_in(8, digits), number_in(10, digits)) {
        return push_filled(
            report,
            "  note: %% in octal, %% in decimal\n",
            &[
                Value::Words(sign),
                Value::Number(octal),
                Value::Words(sign),
                Value::Number(decimal),
            ],
        );
    }
    Ok(())
}

// the lines of the limits among pieces that are forced
fn limits_in(alloc: Global, pieces: &[Piece<'_>]) -> Result<Vec<usize>, AllocError> {
    let mut lines = Vec::new(alloc);
    for piece in pieces {
        if let Piece::Changed(change) = piece {
            if let ChangeKind::ForcedLimit = change.kind {
                lines.push(change.line)?;
            }
        }
    }
    Ok(lines)
}

// the lines of the limits that `--force` makes comments; none if the text is too large
fn forced_limits(alloc: Global, text: &[u8]) -> Result<Vec<usize>, AllocError> {
    match on_request(alloc, text, Some(Request::Force(&[]))) {
        Ok(forced) => limits_in(alloc, forced.pieces.as_slice()),
        Err(AdaptFault::Memory) => Err(AllocError),
        Err(AdaptFault::TooLarge) => Ok(Vec::new(alloc)),
    }
}

// the section that a line is in
fn group_around<'g, 's, 'a>(groups: &'g [Group<'s, 'a>], line: usize) -> Option<&'g Group<'s, 'a>> {
    let mut around = None;
    for group in groups {
        if group.head.number > line {
            return around;
        }
        around = Some(group);
    }
    around
}

// appends that a line's value keeps its type, of this code, from being replaced, if it does
fn push_inconvertible(
    report: &mut String,
    line: &Line<'_>,
    code: u64,
    is_value: bool,
) -> Result<(), AllocError> {
    match line.property() {
        Some((name, value)) if (is_value || is_preset(name)) && is_inconvertible(code, value) => {
            push_filled(
                report,
                "  note: the value in line % can't be converted\n",
                &[Value::Number(line.number as u64)],
            )
        }
        _ => Ok(()),
    }
}

// the code of the type of the object whose values a section has, as `[2300Value]`
fn type_of_values(groups: &[Group<'_, '_>], values: &Group<'_, '_>) -> Option<u64> {
    for group in groups {
        if let SectionKind::Object(index) = group.kind {
            if has_values(values, index) {
                return group.number(b"DataType");
            }
        }
    }
    None
}

// a file whose faults are reported: its name, its lines and sections, and the lines of the limits
// that `--force` makes comments
#[derive(Clone, Copy)]
struct Source<'s, 'g, 'a, 'l> {
    file: &'s [char],
    lines: &'s [Line<'a>],
    groups: &'s [Group<'g, 'a>],
    limits: &'l [usize],
}

impl Source<'_, '_, '_, '_> {
    // appends the values that keep the type in a line from being replaced
    fn push_reasons(&self, report: &mut String, line: usize) -> Result<(), AllocError> {
        let Some(group) = group_around(self.groups, line) else {
            return Ok(());
        };
        let Some(code) = group.number(b"DataType") else {
            return Ok(());
        };
        for line in group.body {
            attempt!(push_inconvertible(report, line, code, false));
        }
        Ok(())
    }

    // the same of a value of `[..Value]` in a line
    fn push_value_reason(&self, report: &mut String, number: usize) -> Result<(), AllocError> {
        let Some(group) = group_around(self.groups, number) else {
            return Ok(());
        };
        let Some(code) = type_of_values(self.groups, group) else {
            return Ok(());
        };
        for line in group.body {
            if line.number == number {
                return push_inconvertible(report, line, code, true);
            }
        }
        Ok(())
    }

    fn is_forced(&self, line: usize) -> bool {
        self.limits.iter().any(|limit| *limit == line)
    }

    // appends a fault
    fn push_fault(
        &self,
        alloc: Global,
        report: &mut String,
        fault: SheetFault,
    ) -> Result<(), AllocError> {
        let text = line_at(self.lines, fault.line);
        attempt!(push_finding(alloc, report, false, self.file, &finding_of(fault, text)));
        if fault.kind == FaultKind::AmbiguousNumber {
            return push_both(report, text);
        }
        if fault.kind == FaultKind::LeftOutType {
            return self.push_reasons(report, fault.line);
        }
        if fault.kind == FaultKind::BadNumber {
            attempt!(self.push_value_reason(report, fault.line));
        }
        if self.is_forced(fault.line) {
            return report.push_str("  note: --force makes this limit a comment\n");
        }
        Ok(())
    }

    // appends faults
    fn push_all(
        &self,
        alloc: Global,
        report: &mut String,
        faults: &[SheetFault],
    ) -> Result<(), AllocError> {
        let (first, more) = faults.split_at(faults.len().min(MOST));
        for fault in first {
            attempt!(self.push_fault(alloc, report, *fault));
        }
        if !more.is_empty() {
            return push_more(report, self.file, more.len());
        }
        Ok(())
    }
}

/// Appends faults of a file, at its lines, as `lint` prints them; `limits` are the lines of those
/// limits that `--force` makes comments. `Err`: out of memory.
pub(crate) fn push_faults(
    alloc: Global,
    report: &mut String,
    name: &str,
    source: &[u8],
    limits: &[usize],
    faults: &[SheetFault],
) -> Result<(), AllocError> {
    let file = attempt!(characters_of(alloc, name.as_bytes()));
    let lines = attempt!(lines_of(alloc, source));
    let groups = attempt!(groups_in(alloc, lines.as_slice()));
    let source = Source {
        file: file.as_slice(),
        lines: lines.as_slice(),
        groups: groups.as_slice(),
        limits,
    };
    source.push_all(alloc, report, faults)
}

/// The faults that remain of a source, as `lint` prints them; `asked` is what it is after the
/// changes on request, of which `adapted` was made. `Err`: out of memory.
pub(crate) fn remaining(
    alloc: Global,
    name: &str,
    source: &[u8],
    asked: &[u8],
    adapted: &Adapted<'_>,
) -> Result<String, AllocError> {
    let faults = attempt!(find_faults(alloc, adapted.text.as_slice()));
    let faults = attempt!(at_source(alloc, source, adapted, faults.as_slice()));
    let limits = attempt!(forced_limits(alloc, asked));
    let mut report = String::new(alloc);
    attempt!(push_faults(
        alloc,
        &mut report,
        name,
        source,
        limits.as_slice(),
        faults.as_slice(),
    ));
    Ok(report)
}
