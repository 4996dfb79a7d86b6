//! The marks of the build faults that rest on nothing at fault, in a text with other faults too.

ghost use Rattle.std.specs.Prelude.{◌≡◌, ◌++◌, map, OnOk};
ghost use Rattle.std.specs.List.{flat_map};
ghost use Rattle.co_sheet.specs.SheetViews.{row_view};
ghost use Rattle.co_sheet_text.specs.Views.{section_view};
ghost use Rattle.co_dict_build.specs.Built.{plan_of};
ghost use Rattle.co_dict_build.specs.Capacities.{limits_view};
ghost use Rattle.conode_lint_marks.specs.KnownFaults.{
  known_mark,
  known_marks,
  known_with,
  known_word,
  line_of,
  line_of_entry,
  line_of_object,
};

use crate::build_lines::value_line;
use crate::known_faults::{is_fault_known, is_mapping_known, section_of};
use crate::mark::{Mark, Subject};
use co_dict_build::{BuildFault, Limits};
use co_dict_faults::{BuildFaults, MappingFault, find_build_faults};
use co_dict_list::ListStore;
use co_sheet::{EntryRow, Sheet, section_at};
use co_sheet_text::{SectionKind, TextSection};
use co_value::Key;
use std::alloc::{AllocError, Global};

// the line of an object's section; 0 if there is none
fn line_of_object(sections: &[TextSection<'_, '_>], index: u16) -> usize
    ensures { result ≡ line_of_object (map section_view sections.now) index }
{
    match section_at(sections, SectionKind::Object(index)) {
        Some(section) => section.line,
        None => 0,
    }
}

// the line of an entry's value; for a missing entry, that of its object's section
#[tactic(auto, unfolding(crate::specs::KnownFaults::line_of_entry))]
fn line_of_entry(sections: &[TextSection<'_, '_>], key: Key) -> usize
    ensures { result ≡ line_of_entry (map section_view sections.now) key }
{
    match section_of(sections, key) {
        Some(section) => value_line(section),
        None => line_of_object(sections, key.index),
    }
}

fn line_of(sections: &[TextSection<'_, '_>], fault: BuildFault) -> usize
    ensures { result ≡ line_of (map section_view sections.now) fault }
{
    match fault {
        BuildFault::ValueRange(key) | BuildFault::BadCobId(key) => line_of_entry(sections, key),
        BuildFault::PdoPair(index) => line_of_object(sections, index),
        BuildFault::BadMapping(_) | BuildFault::NodeId | BuildFault::TooMany | BuildFault::Memory =>
            0,
    }
}

// the mark of a build fault, if it rests on nothing at fault
fn add_known_fault(
    marks: &mut Vec<Mark>,
    sections: &[TextSection<'_, '_>],
    kinds: &[SectionKind],
    fault: BuildFault,
) -> Result<(), AllocError>
    ensures { OnOk result (marks.new.items
        ≡ marks.old.items ++ known_mark (map section_view sections.now) kinds.now fault) }
{
    if is_fault_known(sections, kinds, fault) {
        attempt_in_memory!(marks.push(Mark {
            line: line_of(sections, fault),
            subject: Subject::Build(fault),
        }));
    }
    Ok(())
}

fn add_known_faults(
    marks: &mut Vec<Mark>,
    sections: &[TextSection<'_, '_>],
    kinds: &[SectionKind],
    faults: &[BuildFault],
) -> Result<(), AllocError>
    ensures { OnOk result (marks.new.items ≡ marks.old.items
        ++ flat_map (known_mark (map section_view sections.now) kinds.now) faults.now) }
{
    for fault in faults {
        attempt!(add_known_fault(marks, sections, kinds, *fault));
    }
    Ok(())
}

// the mark of a mapping's word or count, if its reason rests on nothing at fault
fn add_known_word(
    marks: &mut Vec<Mark>,
    rows: &[EntryRow<'_>],
    sections: &[TextSection<'_, '_>],
    kinds: &[SectionKind],
    fault: &MappingFault,
) -> Result<(), AllocError>
    ensures { OnOk result (marks.new.items ≡ marks.old.items ++ known_word
        (map row_view rows.now) (map section_view sections.now) kinds.now fault.now) }
{
    if is_mapping_known(rows, sections, kinds, fault) {
        attempt_in_memory!(marks.push(Mark {
            line: line_of_entry(sections, fault.key),
            subject: Subject::Mapping(*fault),
        }));
    }
    Ok(())
}

fn add_known_words(
    marks: &mut Vec<Mark>,
    rows: &[EntryRow<'_>],
    sections: &[TextSection<'_, '_>],
    kinds: &[SectionKind],
    faults: &[MappingFault],
) -> Result<(), AllocError>
    ensures { OnOk result (marks.new.items ≡ marks.old.items ++ flat_map (known_word
        (map row_view rows.now) (map section_view sections.now) kinds.now) faults.now) }
{
    for fault in faults {
        attempt!(add_known_word(marks, rows, sections, kinds, fault));
    }
    Ok(())
}

// the marks of those of all faults that rest on nothing at fault
#[tactic(auto, unfolding(crate::specs::KnownFaults::known_with))]
fn add_known(
    marks: &mut Vec<Mark>,
    rows: &[EntryRow<'_>],
    sections: &[TextSection<'_, '_>],
    kinds: &[SectionKind],
    found: &BuildFaults,
) -> Result<(), AllocError>
    ensures { OnOk result (marks.new.items ≡ marks.old.items ++ known_with
        (map row_view rows.now) (map section_view sections.now) kinds.now
        found.now.faults.items found.now.mappings.items) }
{
    attempt!(add_known_faults(marks, sections, kinds, found.faults.as_slice()));
    add_known_words(marks, rows, sections, kinds, found.mappings.as_slice())
}

/// Adds the marks of the faults in building a dictionary, for a node-ID, from a sheet that was read
/// without what is at fault; those that rest on nothing at fault, by the sections of the text and
/// what those at fault are about. `Err`: out of memory.
pub(crate) fn add_known_marks(
    alloc: Global,
    marks: &mut Vec<Mark>,
    sheet: &Sheet<'_>,
    sections: &[TextSection<'_, '_>],
    kinds: &[SectionKind],
    node_id: u8,
    limits: &Limits<'_>,
) -> Result<(), AllocError>
    ensures { OnOk result (marks.new.items ≡ marks.old.items
        ++ known_marks (map section_view sections.now) kinds.now sheet.now
        (plan_of node_id (limits_view limits.now) sheet.now)) }
{
    match find_build_faults::<ListStore>(alloc, sheet, node_id, limits) {
        Ok(found) => add_known(marks, sheet.entries(), sections, kinds, &found),
        Err(fault) => Err(fault),
    }
}
