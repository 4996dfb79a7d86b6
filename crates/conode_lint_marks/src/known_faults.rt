//! Which build faults of a text that has other faults too rest on nothing at fault.

ghost use Rattle.std.specs.Prelude.{◌≡◌, map, is_some, option_map};
ghost use Rattle.std.specs.Option.{option_copied};
ghost use Rattle.co_sheet.specs.SheetViews.{row_view};
ghost use Rattle.co_sheet.specs.Views.{default_view};
ghost use Rattle.co_sheet_text.specs.Views.{section_view};
ghost use Rattle.conode_lint_marks.specs.KnownFaults.{
  is_any_word_unknown,
  is_cob_id_known,
  is_fault_known,
  is_known,
  is_known_at,
  is_mapping_known,
  is_object_known,
  is_pair_known,
  is_reason_known,
  is_sound,
  is_target_known,
  is_word_known,
  row_at,
  section_of,
  word_of,
  word_with,
};

use crate::at_fault::{has_section, is_complete};
use crate::concerns::{Concern, is_any};
use co_dict::MappingWord;
use co_dict_build::BuildFault;
use co_dict_faults::{MappingFault, MappingReason};
use co_sheet::{EntryRow, Preset, section_at};
use co_sheet_text::{SectionKind, TextSection};
use co_value::Key;

/// The section that describes an entry: its own, or at sub-index 0 that of its object.
pub(crate) fn section_of<'s, 'a>(
    sections: &'s [TextSection<'s, 'a>],
    key: Key,
) -> Option<&'s TextSection<'s, 'a>>
    ensures { option_map section_view (option_copied result)
        ≡ section_of (map section_view sections.now) key }
{
    if let Some(section) = section_at(sections, SectionKind::SubIndex(key)) {
        return Some(section);
    }
    if key.sub == 0 {
        section_at(sections, SectionKind::Object(key.index))
    } else {
        None
    }
}

fn row_at<'e, 'a>(rows: &'e [EntryRow<'a>], key: Key) -> Option<&'e EntryRow<'a>>
    ensures { option_map row_view (option_copied result) ≡ row_at (map row_view rows.now) key }
{
    for row in rows {
        if row.key == key {
            return Some(row);
        }
    }
    None
}

fn has_row(rows: &[EntryRow<'_>], key: Key) -> bool
    ensures { result ≡ is_some (row_at (map row_view rows.now) key) }
{
    match row_at(rows, key) {
        Some(_) => true,
        None => false,
    }
}

// whether a section describes an entry
fn is_described(sections: &[TextSection<'_, '_>], key: Key) -> bool
    ensures { result ≡ is_some (section_of (map section_view sections.now) key) }
{
    match section_of(sections, key) {
        Some(_) => true,
        None => false,
    }
}

fn is_sound(kinds: &[SectionKind], key: Key) -> bool
    ensures { result ≡ is_sound kinds.now key }
{
    !is_any(Concern::EntryOf(key), kinds)
}

// and whether the text describes it
fn is_known(sections: &[TextSection<'_, '_>], kinds: &[SectionKind], key: Key) -> bool
    ensures { result ≡ is_known (map section_view sections.now) kinds.now key }
{
    is_sound(kinds, key) && is_described(sections, key)
}

fn word_with(number: i128) -> Option<u32>
    ensures { result ≡ word_with number }
{
    if 0 <= number && number < 0x1_0000_0000 {
        Some(number as u32)
    } else {
        None
    }
}

fn word_of(default: Preset<'_>) -> Option<u32>
    ensures { result ≡ word_of (default_view default.entry) }
{
    match default {
        Preset::Number(number) => word_with(number),
        _ => None,
    }
}

// whether it is known what is at a key that a word maps
fn is_target_known(
    rows: &[EntryRow<'_>],
    sections: &[TextSection<'_, '_>],
    kinds: &[SectionKind],
    key: Key,
) -> bool
    ensures { result ≡ is_target_known
        (map row_view rows.now) (map section_view sections.now) kinds.now key }
{
    if !is_sound(kinds, key) {
        false
    } else if has_row(rows, key) {
        is_described(sections, key)
    } else {
        is_complete(sections, kinds)
    }
}

// whether the word of an entry is known, and what it maps
fn is_word_known(
    rows: &[EntryRow<'_>],
    sections: &[TextSection<'_, '_>],
    kinds: &[SectionKind],
    row: &EntryRow<'_>,
) -> bool
    ensures { result ≡ is_word_known
        (map row_view rows.now) (map section_view sections.now) kinds.now (row_view row.now) }
{
    match word_of(row.default) {
        Some(word) => is_target_known(rows, sections, kinds, MappingWord(word).key()),
        None => false,
    }
}

// the same of the word at a key; `absent` where the sheet has none
fn is_known_at(
    rows: &[EntryRow<'_>],
    sections: &[TextSection<'_, '_>],
    kinds: &[SectionKind],
    absent: bool,
    key: Key,
) -> bool
    ensures { result ≡ is_known_at
        (map row_view rows.now) (map section_view sections.now) kinds.now absent key }
{
    match row_at(rows, key) {
        Some(row) => is_word_known(rows, sections, kinds, row),
        None => absent,
    }
}

// whether a word of a mapping is there and isn't known
#[tactic(auto, unfolding(crate::specs::KnownFaults::is_any_word_unknown))]
fn is_any_word_unknown(
    rows: &[EntryRow<'_>],
    sections: &[TextSection<'_, '_>],
    kinds: &[SectionKind],
    index: u16,
) -> bool
    ensures { result ≡ is_any_word_unknown
        (map row_view rows.now) (map section_view sections.now) kinds.now index }
{
    for sub in 1..65u8 {
        if !is_known_at(rows, sections, kinds, true, Key { index, sub }) {
            return true;
        }
    }
    false
}

// whether nothing that a reason rests on is at fault, but for its mapping
fn is_reason_known(
    rows: &[EntryRow<'_>],
    sections: &[TextSection<'_, '_>],
    kinds: &[SectionKind],
    fault: &MappingFault,
) -> bool
    ensures { result ≡ is_reason_known (map row_view rows.now) (map section_view sections.now)
        kinds.now fault.now.key fault.now.reason }
{
    match fault.reason {
        MappingReason::Zero | MappingReason::Multiplexed => true,
        MappingReason::Missing | MappingReason::CountsMore => is_complete(sections, kinds),
        MappingReason::TooLong(_) => {
            !is_any_word_unknown(rows, sections, kinds, fault.key.index)
        }
        _ => is_known_at(rows, sections, kinds, false, fault.key),
    }
}

// whether the text describes an object, without a fault in it or in its sub-indices
fn is_object_known(sections: &[TextSection<'_, '_>], kinds: &[SectionKind], index: u16) -> bool
    ensures { result ≡ is_object_known (map section_view sections.now) kinds.now index }
{
    !is_any(Concern::ObjectOf(index), kinds) && has_section(sections, SectionKind::Object(index))
}

/// Whether why a word or a count of a mapping can't be used rests on nothing at fault.
pub(crate) fn is_mapping_known(
    rows: &[EntryRow<'_>],
    sections: &[TextSection<'_, '_>],
    kinds: &[SectionKind],
    fault: &MappingFault,
) -> bool
    ensures { result ≡ is_mapping_known
        (map row_view rows.now) (map section_view sections.now) kinds.now fault.now }
{
    is_object_known(sections, kinds, fault.key.index)
        && is_reason_known(rows, sections, kinds, fault)
}

fn is_cob_id_known(sections: &[TextSection<'_, '_>], kinds: &[SectionKind], key: Key) -> bool
    ensures { result ≡ is_cob_id_known (map section_view sections.now) kinds.now key }
{
    is_known(sections, kinds, key) && !is_any(Concern::Channel, kinds)
}

fn is_pair_known(sections: &[TextSection<'_, '_>], kinds: &[SectionKind], index: u16) -> bool
    ensures { result ≡ is_pair_known (map section_view sections.now) kinds.now index }
{
    is_complete(sections, kinds)
        && !is_any(Concern::PdoOf(index), kinds)
        && has_section(sections, SectionKind::Object(index))
}

/// Whether a build fault rests on nothing at fault; a mapping has its reasons in its place.
pub(crate) fn is_fault_known(
    sections: &[TextSection<'_, '_>],
    kinds: &[SectionKind],
    fault: BuildFault,
) -> bool
    ensures { result ≡ is_fault_known (map section_view sections.now) kinds.now fault }
{
    match fault {
        BuildFault::NodeId => true,
        BuildFault::ValueRange(key) => is_known(sections, kinds, key),
        BuildFault::BadCobId(key) => is_cob_id_known(sections, kinds, key),
        BuildFault::PdoPair(index) => is_pair_known(sections, kinds, index),
        BuildFault::BadMapping(_) | BuildFault::TooMany | BuildFault::Memory => false,
    }
}
