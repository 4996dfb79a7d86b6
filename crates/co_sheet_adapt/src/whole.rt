//! A text with the sections that its compact forms give (CiA 306, compact storage).

ghost use Rattle.std.specs.Prelude.{◌≡◌, ◌++◌, ◌≤◌, length, map, option_map, IfOk, IfSome, OnOk};
ghost use Rattle.std.specs.List.{flat_map};
ghost use Rattle.co_sheet_text.specs.Text.{lines_of};
ghost use Rattle.co_sheet_changes.specs.Groups.{groups_of};
ghost use Rattle.co_sheet_changes.specs.Views.{group_view, line_view};
ghost use Rattle.co_sheet_adapt.specs.Expanded.{
  as_read,
  compact_of,
  compact_sections,
  expanded,
  given_by,
  if_fits,
  with_sections,
};
ghost use Rattle.co_sheet_adapt.specs.private.Named.{texts_at};
ghost use Rattle.co_sheet_adapt.specs.private.Pdos.{form_view};

use crate::compact::Compact;
use crate::facts::Facts;
use crate::pdo_sections::push_pdo_objects;
use crate::pieces::Tables;
use co_sheet::GREATEST_SIZE;
use co_sheet_changes::{Group, Line, groups_in, joined, lines_in};
use co_sheet_text::{SectionKind, trim};
use co_text::split_at_first;
use std::alloc::{AllocError, Global};

impl<'a> Tables<'a> {
    // appends the sections of an object in compact form
    fn push_compact<'s>(
        &self,
        alloc: Global,
        text: &mut Vec<u8>,
        facts: &Facts,
        group: &Group<'s, 'a>,
    ) -> Result<(), AllocError>
        ensures { OnOk result (text.new.items ≡ text.old.items ++ compact_of
            (texts_at self.now.own) (texts_at self.now.names) (texts_at self.now.values) facts.now (group_view group.now)) }
    {
        let (SectionKind::Object(index), Some(count)) = (group.kind, facts.compact) else {
            return Ok(());
        };
        let compact = Compact {
            own: &self.own,
            names: &self.names,
            values: &self.values,
            facts,
            group,
            index,
        };
        let sections = attempt!(compact.text(alloc, count));
        text.extend_from_slice(sections.as_slice())
    }

    // appends the sections that a section gives
    fn push_given<'s>(
        &self,
        alloc: Global,
        text: &mut Vec<u8>,
        group: &Group<'s, 'a>,
    ) -> Result<(), AllocError>
        ensures { OnOk result (text.new.items ≡ text.old.items ++ given_by
            (texts_at self.now.own) (texts_at self.now.names) (texts_at self.now.values)
            (option_map form_view self.now.pdos) (group_view group.now)) }
    {
        let facts = Facts::as_written(group);
        attempt!(self.push_compact(alloc, text, &facts, group));
        push_pdo_objects(alloc, text, self.pdos.as_ref(), group.kind)
    }

    // the sections that sections give, `None` if they are too large
    fn given<'s>(
        &self,
        alloc: Global,
        groups: &[Group<'s, 'a>],
    ) -> Result<Option<Vec<u8>>, AllocError>
        ensures { IfOk result (λ made. option_map (λ v. v.items) made ≡ if_fits (flat_map
            (given_by (texts_at self.now.own) (texts_at self.now.names) (texts_at self.now.values)
            (option_map form_view self.now.pdos)) (map group_view groups.now))) }
    {
        let mut text = Vec::new(alloc);
        for group in groups {
            attempt!(self.push_given(alloc, &mut text, group));
            if text.len() > GREATEST_SIZE {
                return Ok(None);
            }
        }
        Ok(Some(text))
    }
}

// the sections of the compact forms of sections
fn compact_sections(alloc: Global, groups: &[Group]) -> Result<Option<Vec<u8>>, AllocError>
    ensures { IfOk result (λ made. option_map (λ v. v.items) made
        ≡ if_fits (compact_sections (map group_view groups.now))) }
{
    let tables = attempt!(Tables::of(alloc, groups, &[]));
    tables.given(alloc, groups)
}

// sections at the end of a text
fn with_sections(alloc: Global, text: &[u8], sections: &[u8]) -> Result<Vec<u8>, AllocError>
    ensures { IfOk result (λ made. made.items ≡ with_sections text.now sections.now) }
{
    if sections.is_empty() {
        joined(alloc, text, b"", b"")
    } else {
        joined(alloc, text, b"\n", sections)
    }
}

// a text, if a data sheet may have as many bytes
fn if_fits(text: Vec<u8>) -> Option<Vec<u8>>
    ensures text { option_map (λ v. v.items) result ≡ if_fits text.items }
    ensures small { IfSome result (λ whole. length whole.items ≤ 1048576) }
{
    if text.len() > GREATEST_SIZE {
        None
    } else {
        Some(text)
    }
}

/// A line of more bytes isn't read.
const LONGEST: usize = 512;

// a line that is at fault by itself as a reader takes it: a section line without `]`, and one that
// is too long, begin a section that nothing reads
fn as_read<'a>(line: &Line<'a>) -> Line<'a>
    ensures { line_view result ≡ as_read (line_view line.now) }
{
    let is_long = LONGEST < line.bytes.len();
    let bytes: &[u8] = match trim(line.bytes) {
        [b'[', rest @ ..] if is_long || split_at_first(rest, b']').is_none() => b"[]",
        [b'[', ..] => line.bytes,
        _ if is_long => b"",
        _ => line.bytes,
    };
    Line {
        number: line.number,
        bytes,
    }
}

fn lines_as_read<'a>(alloc: Global, lines: &[Line<'a>]) -> Result<Vec<Line<'a>>, AllocError>
    ensures { IfOk result (λ made.
        map line_view made.items ≡ map as_read (map line_view lines.now)) }
{
    let mut made = Vec::new(alloc);
    for line in lines {
        made.push(as_read(line))?;
    }
    Ok(made)
}

// the sections of the compact forms of lines
fn sections_of(alloc: Global, lines: &[Line<'_>]) -> Result<Option<Vec<u8>>, AllocError>
    ensures { IfOk result (λ made. option_map (λ v. v.items) made
        ≡ if_fits (compact_sections (groups_of (map as_read (map line_view lines.now))))) }
{
    let read = attempt!(lines_as_read(alloc, lines));
    let groups = attempt!(groups_in(alloc, read.as_slice()));
    compact_sections(alloc, groups.as_slice())
}

// the sections of the compact forms of a text
fn sections_in(alloc: Global, text: &[u8]) -> Result<Option<Vec<u8>>, AllocError>
    requires { length text.now ≤ 1048576 }
    ensures { IfOk result (λ made. option_map (λ v. v.items) made
        ≡ if_fits (compact_sections (groups_of (map as_read (lines_of text.now))))) }
{
    let lines = attempt!(lines_in(alloc, text));
    sections_of(alloc, lines.as_slice())
}

/// A text with the sections that its compact forms give at its end (CiA 306, compact storage): those
/// of CompactSubObj and of CompactPDO, as `adapt` writes them, but each type and each value as the
/// sheet has it. A section that is there already comes first, and what follows a section line without
/// `]` counts for no form. `None`: they, or the text with them,
/// have more than 1,048,576 bytes. `Err`: out of memory.
#[tactic(auto, unfolding(crate::specs::Expanded::expanded))]
pub fn expanded(alloc: Global, text: &[u8]) -> Result<Option<Vec<u8>>, AllocError>
    requires { length text.now ≤ 1048576 }
    ensures text { IfOk result (λ made. option_map (λ v. v.items) made ≡ expanded text.now) }
    ensures small { IfOk result (λ made. IfSome made (λ whole. length whole.items ≤ 1048576)) }
{
    match attempt!(sections_in(alloc, text)) {
        Some(sections) => {
            let whole = attempt!(with_sections(alloc, text, sections.as_slice()));
            Ok(if_fits(whole))
        }
        None => Ok(None),
    }
}
