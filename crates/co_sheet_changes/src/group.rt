//! The lines of a section.

ghost use Rattle.std.specs.Prelude.{◌≡◌, ◌++◌, map, IfOk, OnOk};
ghost use Rattle.std.specs.Option.{option_copied};
ghost use Rattle.co_sheet_text.specs.Names.{kind_of};
ghost use Rattle.co_sheet_changes.specs.Groups.{before_sections, body_count, group_begun, groups_of, number_in_group, section_in, value_in, without_blanks};
ghost use Rattle.co_sheet_changes.specs.Views.{line_view, group_view};

use crate::line::Line;
use co_sheet_text::{SectionKind, same_name, unsigned_number};
use co_text::is_blank;
use std::alloc::{AllocError, Global};

/// A section: what its name says without blanks, its section line, and the lines up to the next
/// one.
#[derive(Clone, Copy)]
pub struct Group<'s, 'a> {
    pub kind: SectionKind,
    pub name: &'a [u8],
    pub head: Line<'a>,
    pub body: &'s [Line<'a>],
}

/// A text without its blanks. `Err`: out of memory.
pub fn without_blanks(alloc: Global, text: &[u8]) -> Result<Vec<u8>, AllocError>
    ensures { IfOk result (λ made. made.items ≡ without_blanks text.now) }
{
    text.iter()
        .copied()
        .filter(|byte| !is_blank(*byte))
        .collect(alloc)
}

fn kind_without_blanks(alloc: Global, name: &[u8]) -> Result<SectionKind, AllocError>
    ensures { IfOk result (λ kind. kind ≡ kind_of (without_blanks name.now)) }
{
    let name = attempt!(without_blanks(alloc, name));
    Ok(SectionKind::of_name(name.as_slice()))
}

// the number of lines before the next section line
fn body_count(lines: &[Line]) -> usize
    ensures count { result ≡ body_count (map line_view lines.now) }
{
    let mut count = 0;
    for line in lines {
        if line.section().is_some() {
            return count;
        }
        count += 1;
    }
    count
}

/// The lines before the first section.
pub fn before_sections<'s, 'a>(lines: &'s [Line<'a>]) -> &'s [Line<'a>]
    ensures { map line_view result.now ≡ before_sections (map line_view lines.entry.now) }
{
    let (before, _) = lines.split_at(body_count(lines).min(lines.len()));
    before
}

// adds the section that a line begins, if it begins one
fn push_begun<'s, 'a>(
    alloc: Global,
    groups: &mut Vec<Group<'s, 'a>>,
    head: &Line<'a>,
    lines: &'s [Line<'a>],
) -> Result<(), AllocError>
    ensures { OnOk result (map group_view groups.new.items ≡ map group_view groups.old.items
        ++ group_begun (section_in (line_view head.now)) (line_view head.now)
        (map line_view lines.entry.now)) }
{
    let Some(name) = head.section() else {
        return Ok(());
    };
    let kind = attempt!(kind_without_blanks(alloc, name));
    let group = Group {
        kind,
        name,
        head: *head,
        body: before_sections(lines),
    };
    attempt_in_memory!(groups.push(group));
    Ok(())
}

/// The sections of lines, in their order. `Err`: out of memory.
pub fn groups_in<'s, 'a>(
    alloc: Global,
    lines: &'s [Line<'a>],
) -> Result<Vec<Group<'s, 'a>>, AllocError>
    ensures { IfOk result (λ groups.
        map group_view groups.items ≡ groups_of (map line_view lines.entry.now)) }
{
    let mut groups = Vec::new(alloc);
    for (place, head) in lines.iter().enumerate() {
        let (_, others) = lines.split_at(place + 1);
        attempt!(push_begun(alloc, &mut groups, head, others));
    }
    Ok(groups)
}

impl<'a> Group<'_, 'a> {
    /// The value of the first property of this name, in any case of its letters.
    pub fn value(&self, name: &[u8]) -> Option<&'a [u8]>
        ensures { option_copied result ≡ value_in name.now (group_view self.now).body }
    {
        for line in self.body {
            if let Some((other, value)) = line.property() {
                if same_name(other, name) {
                    return Some(value);
                }
            }
        }
        None
    }

    /// The number at this name, where it is one.
    pub fn number(&self, name: &[u8]) -> Option<u64>
        ensures { result ≡ number_in_group name.now (group_view self.now) }
    {
        match self.value(name) {
            Some(value) => unsigned_number(value).ok(),
            None => None,
        }
    }
}
