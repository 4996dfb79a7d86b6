//! Which sections have a value that may be wrong: a line is at fault that may state it, or the section
//! comes twice.

ghost use Rattle.std.specs.Prelude.{◌≡◌, ◌++◌, map, option_map, option_to_list, OnOk};
ghost use Rattle.std.specs.List.{flat_map};
ghost use Rattle.co_sheet_text.specs.Sections.{form_of};
ghost use Rattle.co_sheet_text.specs.Text.{trim};
ghost use Rattle.co_sheet_text.specs.Views.{section_view};
ghost use Rattle.conode_lint_marks.specs.Doubts.{
  begun_name,
  has_parameter,
  is_in_doubt,
  is_value_key,
  kind_again,
  kind_begun,
  kinds_again,
  may_state,
  puts_in_doubt,
};

use crate::lines::whole_line;
use co_sheet::{FaultKind, SheetFault};
use co_sheet_text::{SectionKind, TextSection, same_name, trim};
use co_text::split_at_first;
use std::alloc::AllocError;

fn has_parameter(section: &TextSection<'_, '_>) -> bool
    ensures { result ≡ has_parameter (section_view section.now) }
{
    section.property(b"ParameterValue").is_some()
}

// the key of the value that an entry begins with, in a section that has a ParameterValue or not
fn is_value_key(has: bool, name: &[u8]) -> bool
    ensures { result ≡ is_value_key has name.now }
{
    same_name(name, b"ParameterValue") || (!has && same_name(name, b"DefaultValue"))
}

// whether a line may state that value, of a text without blanks at its ends
fn may_state(has: bool, text: &[u8]) -> bool
    ensures { result ≡ may_state has (form_of text.now) }
{
    if let [] | [b';' | b'[', ..] = text {
        return false;
    }
    let Some((name, _)) = split_at_first(text, b'=') else {
        return !has;
    };
    let name = trim(name);
    if name.is_empty() {
        return !has;
    }
    is_value_key(has, name)
}

// whether a fault is at a line past that of a section, which may state its value
fn puts_in_doubt(lines: &[&[u8]], section: &TextSection<'_, '_>, fault: &SheetFault) -> bool
    ensures { result ≡ puts_in_doubt
        (map (λ line. line.now) lines.now) (section_view section.now) fault.now }
{
    fault.line != section.line
        && may_state(has_parameter(section), trim(whole_line(lines, fault.line)))
}

/// Whether a section with these faults has a value that may be wrong.
pub(crate) fn is_in_doubt(
    lines: &[&[u8]],
    section: &TextSection<'_, '_>,
    faults: &[SheetFault],
) -> bool
    ensures { result ≡ is_in_doubt
        (map (λ line. line.now) lines.now) (section_view section.now) faults.now }
{
    for fault in faults {
        if puts_in_doubt(lines, section, fault) {
            return true;
        }
    }
    false
}

// the name of the section that a line begins, of a text without blanks at its ends
fn begun_name(text: &[u8]) -> Option<&[u8]>
    ensures { option_map (λ name. name.now) result ≡ begun_name (form_of text.now) }
{
    match text {
        [b'[', rest @ ..] => match split_at_first(rest, b']') {
            Some((name, _)) => Some(trim(name)),
            None => None,
        },
        _ => None,
    }
}

fn kind_begun(text: &[u8]) -> Option<SectionKind>
    ensures { result ≡ kind_begun (form_of text.now) }
{
    match begun_name(text) {
        Some(name) => Some(SectionKind::of_name(name)),
        None => None,
    }
}

fn kind_again(lines: &[&[u8]], fault: &SheetFault) -> Option<SectionKind>
    ensures { result ≡ kind_again (map (λ line. line.now) lines.now) fault.now }
{
    match fault.kind {
        FaultKind::DuplicateSection => kind_begun(trim(whole_line(lines, fault.line))),
        _ => None,
    }
}

// adds what is there
fn add_kind(kinds: &mut Vec<SectionKind>, kind: Option<SectionKind>) -> Result<(), AllocError>
    ensures { OnOk result (kinds.new.items ≡ kinds.old.items ++ option_to_list kind) }
{
    if let Some(kind) = kind {
        attempt_in_memory!(kinds.push(kind));
    }
    Ok(())
}

/// Adds what the sections are about that come a second time, by these faults.
pub(crate) fn add_kinds_again(
    kinds: &mut Vec<SectionKind>,
    lines: &[&[u8]],
    faults: &[SheetFault],
) -> Result<(), AllocError>
    ensures { OnOk result (kinds.new.items ≡ kinds.old.items
        ++ flat_map (kinds_again (map (λ line. line.now) lines.now)) faults.now) }
{
    for fault in faults {
        attempt!(add_kind(kinds, kind_again(lines, fault)));
    }
    Ok(())
}
