//! The lines of a source that the faults of what became of it come from.

use co_sheet::GREATEST_SIZE;
use co_sheet_adapt::Adapted;
use co_sheet_changes::{Group, Line, Piece, groups_in, lines_in};
use co_sheet_faults::SheetFault;
use co_sheet_text::{SectionKind, number_in, same_name};
use std::alloc::{AllocError, Global};

// appends this number for each line of the text
fn push_lines(sources: &mut Vec<usize>, text: &[u8], number: usize) -> Result<(), AllocError> {
    for byte in text {
        if *byte == b'\n' {
            sources.push(number)?;
        }
    }
    Ok(())
}

// for each line of the rewritten text, the number of its source line; the first line is a comment
fn push_sources(sources: &mut Vec<usize>, pieces: &[Piece<'_>]) -> Result<(), AllocError> {
    sources.push(0)?;
    let mut number: usize = 0;
    for piece in pieces {
        match piece {
            Piece::Kept(_) => {
                number = number.saturating_add(1);
                sources.push(number)?;
            }
            Piece::Changed(change) => {
                number = number.saturating_add(1);
                attempt!(push_lines(sources, change.new.as_slice(), number));
            }
            Piece::Added { line, text } => {
                attempt!(push_lines(sources, text.as_slice(), *line));
            }
        }
    }
    Ok(())
}

/// The lines of a text; none if it is too large. `Err`: out of memory.
pub(crate) fn lines_of(alloc: Global, text: &[u8]) -> Result<Vec<Line<'_>>, AllocError> {
    if text.len() > GREATEST_SIZE {
        return Ok(Vec::new(alloc));
    }
    lines_in(alloc, text)
}

// the line of a section with a key
fn line_named(group: &Group<'_, '_>, name: &[u8]) -> Option<usize> {
    for line in group.body {
        match line.property() {
            Some((other, _)) if same_name(other, name) => return Some(line.number),
            _ => {}
        }
    }
    None
}

// the line of a section whose key is a sub-index, in decimal digits
fn line_of_sub(group: &Group<'_, '_>, sub: u8) -> Option<usize> {
    for line in group.body {
        match line.property() {
            Some((name, _)) if number_in(10, name) == Some(u64::from(sub)) => {
                return Some(line.number);
            }
            _ => {}
        }
    }
    None
}

// whether a section has the values of an object in compact form, as `[2300Value]`
pub(crate) fn has_values(group: &Group<'_, '_>, index: u16) -> bool {
    let (front, end) = group.name.split_at(group.name.len().saturating_sub(5));
    same_name(end, b"Value") && SectionKind::of_name(front) == SectionKind::Object(index)
}

// the line that gives a sub-index its value
fn value_line(groups: &[Group<'_, '_>], index: u16, sub: u8) -> Option<usize> {
    for group in groups {
        if has_values(group, index) {
            if let Some(line) = line_of_sub(group, sub) {
                return Some(line);
            }
        }
    }
    None
}

// the section that begins at a line
fn group_at<'g, 's, 'a>(groups: &'g [Group<'s, 'a>], line: usize) -> Option<&'g Group<'s, 'a>> {
    for group in groups {
        if group.head.number == line {
            return Some(group);
        }
    }
    None
}

// what the section is about that a line is in: the last one that begins before it
fn kind_around(groups: &[Group<'_, '_>], line: usize) -> SectionKind {
    let mut kind = SectionKind::PassedOver;
    for group in groups {
        if group.head.number > line {
            return kind;
        }
        kind = group.kind;
    }
    kind
}

// the key of a line
fn name_at<'a>(lines: &[Line<'a>], line: usize) -> Option<&'a [u8]> {
    let place = line.checked_sub(1)?;
    match lines.get(place)?.property() {
        Some((name, _)) => Some(name),
        None => None,
    }
}

// the lines and sections of what became of a source
#[derive(Clone, Copy)]
struct Made<'t, 's, 'a> {
    lines: &'t [Line<'a>],
    groups: &'t [Group<'s, 'a>],
}

// the sections of a source
#[derive(Clone, Copy)]
struct Source<'n, 't, 's, 'a> {
    // for each line of what became of it, the line of the source, or the section that it is added to
    lines: &'n [usize],
    groups: &'t [Group<'s, 'a>],
}

impl Source<'_, '_, '_, '_> {
    // the line that an added line was made of: of an object in compact form its value in `[..Value]`
    // or the key that each sub-index has
    fn copied_from(
        &self,
        made: &Made<'_, '_, '_>,
        object: &Group<'_, '_>,
        line: usize,
    ) -> Option<usize> {
        let name = name_at(made.lines, line)?;
        match kind_around(made.groups, line) {
            SectionKind::SubIndex(key) if same_name(name, b"ParameterValue") => {
                value_line(self.groups, key.index, key.sub)
            }
            _ => line_named(object, name),
        }
    }

    // the line of the source that a line comes from; 0 if it has none
    fn origin_of(&self, made: &Made<'_, '_, '_>, line: usize) -> usize {
        let source = match line.checked_sub(1) {
            Some(place) => self.lines.get(place).copied().unwrap_or(0),
            None => 0,
        };
        match group_at(self.groups, source) {
            Some(object) => self.copied_from(made, object, line).unwrap_or(source),
            None => source,
        }
    }

    // the faults at the lines of the source
    fn moved(
        &self,
        alloc: Global,
        made: &Made<'_, '_, '_>,
        faults: &[SheetFault],
    ) -> Result<Vec<SheetFault>, AllocError> {
        let mut moved = Vec::new(alloc);
        for fault in faults {
            moved.push(SheetFault {
                kind: fault.kind,
                line: self.origin_of(made, fault.line),
            })?;
        }
        attempt!(moved.sort_by_key(|fault| (fault.line, fault.kind.number())));
        Ok(moved)
    }
}

// the faults of what became of a source, at the lines of the source, by line
fn moved(
    alloc: Global,
    source: &[u8],
    made: &[u8],
    sources: &[usize],
    faults: &[SheetFault],
) -> Result<Vec<SheetFault>, AllocError> {
    let lines = attempt!(lines_of(alloc, source));
    let groups = attempt!(groups_in(alloc, lines.as_slice()));
    let made_lines = attempt!(lines_of(alloc, made));
    let made_groups = attempt!(groups_in(alloc, made_lines.as_slice()));
    let made = Made {
        lines: made_lines.as_slice(),
        groups: made_groups.as_slice(),
    };
    let source = Source {
        lines: sources,
        groups: groups.as_slice(),
    };
    source.moved(alloc, &made, faults)
}

// faults that are sorted, each of them once
fn each_once(alloc: Global, faults: &[SheetFault]) -> Result<Vec<SheetFault>, AllocError> {
    let mut once = Vec::new(alloc);
    let mut last = None;
    for fault in faults {
        if last != Some(*fault) {
            once.push(*fault)?;
        }
        last = Some(*fault);
    }
    Ok(once)
}

/// The faults of what became of a source, each at the line of the source that it comes from, by
/// line, none twice. `Err`: out of memory.
pub(crate) fn at_source(
    alloc: Global,
    source: &[u8],
    adapted: &Adapted<'_>,
    faults: &[SheetFault],
) -> Result<Vec<SheetFault>, AllocError> {
    let mut sources = Vec::new(alloc);
    attempt!(push_sources(&mut sources, adapted.pieces.as_slice()));
    let made = adapted.text.as_slice();
    let moved = attempt!(moved(alloc, source, made, sources.as_slice(), faults));
    each_once(alloc, moved.as_slice())
}
