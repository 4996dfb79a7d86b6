//! What an object says of its sub-indices, against those that the text describes.

ghost use Rattle.std.specs.Prelude.{◌≡◌, [], ◌∷◌, map, option_map, option_to_list};
ghost use Rattle.co_sheet_text.specs.Views.{property_view, section_view};
ghost use Rattle.co_sheet.specs.Entries.{object_code};
ghost use Rattle.co_sheet.specs.ObjectLists.{is_one_of};
ghost use Rattle.co_sheet.specs.SectionViews.{entry_view};
ghost use Rattle.co_sheet_warnings.specs.Repeats.{value_in};
ghost use Rattle.co_sheet_warnings.specs.SubIndices.{
  highest_of,
  is_highest_by_rule,
  has_sub_1,
  has_unread,
  is_other_form,
  is_single,
  is_sub_1,
  mandatory_form,
  missing_name,
  stands_for_object,
  sub_index_0,
  sub_number,
  unlisted,
  var_sub_indices,
};
ghost use Rattle.co_sheet_text_warnings.specs.Ranges.{is_within};
ghost use Rattle.co_sheet_warnings.specs.private.Views.{is_constant_section};

use crate::accesses::is_constant_word;
use co_sheet::EntrySection;
use co_sheet_text::{Property, SectionKind, TextSection};
use co_sheet_text_warnings::{ReadText, is_within};

/// The line of an object's SubNumber that isn't the number of its sub-index sections.
pub(crate) fn sub_number(text: &ReadText, section: &TextSection) -> Option<usize>
    ensures { option_to_list result
        ≡ sub_number text.now.sections (section_view section.now) section.now.kind }
{
    match section.kind {
        SectionKind::Object(index) => {
            let Some(given) = section.property(b"SubNumber") else {
                return None;
            };
            if given.number() == Some(text.parts(index).len() as u64) {
                None
            } else {
                Some(given.line)
            }
        }
        _ => None,
    }
}

// whether an object is a VAR, which it is without an ObjectType, or a DOMAIN
fn is_single(section: &TextSection) -> bool
    ensures { result ≡ is_single (section_view section.now) }
{
    match section.property(b"ObjectType") {
        Some(given) => matches!(given.number(), Some(2 | 7)),
        None => true,
    }
}

// whether such an object has sub-index sections
fn has_unread(text: &ReadText, section: &TextSection, index: u16) -> bool
    ensures { result ≡ has_unread text.now.sections (section_view section.now) index }
{
    is_single(section) && 0 < text.parts(index).len()
}

/// The line of a VAR or a DOMAIN that has sub-index sections.
pub(crate) fn var_sub_indices(text: &ReadText, section: &TextSection) -> Option<usize>
    ensures { option_to_list result
        ≡ var_sub_indices text.now.sections (section_view section.now) section.now.kind }
{
    match section.kind {
        SectionKind::Object(index) if has_unread(text, section, index) => Some(section.line),
        _ => None,
    }
}

// whether an object has this ObjectType, which is 7 where there is none
fn has_type(code: u64, section: &TextSection) -> bool
    ensures { result ≡ is_one_of (code ∷ []) (object_code (section_view section.now)) }
{
    match section.property(b"ObjectType") {
        Some(given) => given.number() == Some(code),
        None => code == 7,
    }
}

fn is_sub_1(part: &EntrySection) -> bool
    ensures { result ≡ is_sub_1 (entry_view part.now) }
{
    part.key.sub == 1
}

fn has_sub_1(parts: &[EntrySection]) -> bool
    ensures { result ≡ has_sub_1 (map entry_view parts.now) }
{
    for part in parts {
        if is_sub_1(part) {
            return true;
        }
    }
    false
}

// whether an object is in another form than CiA 301 has it
fn is_other_form(text: &ReadText, section: &TextSection, index: u16) -> bool
    ensures { result ≡ is_other_form text.now.sections (section_view section.now) index }
{
    match index {
        0x1000 | 0x1001 => !has_type(7, section),
        0x1018 => !(has_type(9, section) && has_sub_1(text.parts(index))),
        _ => false,
    }
}

/// The line of a mandatory object in another form than CiA 301 has it (1000h and 1001h: VAR; 1018h:
/// RECORD with sub-index 1, the vendor-ID), unless its sub-index sections aren't read.
pub(crate) fn mandatory_form(text: &ReadText, section: &TextSection) -> Option<usize>
    ensures { option_to_list result
        ≡ mandatory_form text.now.sections (section_view section.now) section.now.kind }
{
    match section.kind {
        SectionKind::Object(index)
            if is_other_form(text, section, index) && !has_unread(text, section, index) => {
            Some(section.line)
        }
        _ => None,
    }
}

// whether a section is the first of the sub-indices of an object without a section
fn stands_for_object(text: &ReadText, index: u16, line: usize) -> bool
    ensures { result ≡ stands_for_object text.now.sections index line }
{
    if text.has_object(index) {
        return false;
    }
    match text.parts(index) {
        [first, ..] => first.section.line == line,
        _ => false,
    }
}

/// The line of an object section that no list names; of an object without one that of its first
/// sub-index section.
pub(crate) fn unlisted(text: &ReadText, section: &TextSection) -> Option<usize>
    ensures { option_to_list result
        ≡ unlisted text.now.sections (section_view section.now) section.now.kind }
{
    match section.kind {
        SectionKind::Object(index) if 0x1000 <= index && !text.is_listed(index) => {
            Some(section.line)
        }
        SectionKind::SubIndex(key)
            if stands_for_object(text, key.index, section.line)
                && 0x1000 <= key.index
                && !text.is_listed(key.index) => { Some(section.line) }
        _ => None,
    }
}

/// The line of an object or a sub-index without a name.
pub(crate) fn missing_name(section: &TextSection) -> Option<usize>
    ensures { option_to_list result ≡ missing_name (section_view section.now) }
{
    let is_entry = matches!(
        section.kind,
        SectionKind::Object(_) | SectionKind::SubIndex(_)
    );
    if is_entry && section.property(b"ParameterName").is_none() {
        Some(section.line)
    } else {
        None
    }
}

/// What an entry begins with, by its section: ParameterValue, or else DefaultValue.
pub fn value_in<'a>(section: &TextSection<'_, 'a>) -> Option<Property<'a>>
    ensures { option_map property_view result ≡ value_in (section_view section.now) }
{
    match section.property(b"ParameterValue") {
        Some(given) => Some(given),
        None => section.property(b"DefaultValue"),
    }
}

// an entry that nobody writes
fn is_constant(section: &TextSection) -> bool
    ensures { result ≡ is_constant_section (section_view section.now) }
{
    match section.property(b"AccessType") {
        Some(given) => is_constant_word(given.value),
        None => false,
    }
}

fn highest_of(parts: &[EntrySection]) -> u8
    ensures { result ≡ highest_of (map entry_view parts.now) }
{
    let mut highest = 0;
    for part in parts {
        if part.key.sub != 0xFF {
            highest = highest.max(part.key.sub);
        }
    }
    highest
}

fn is_highest_by_rule(index: u16) -> bool
    ensures { result ≡ is_highest_by_rule index }
{
    !(index == 0x1003
        || index == 0x1027
        || is_within(0x1600, 0x17FF, index)
        || is_within(0x1A00, 0x1BFF, index))
}

/// The line of a constant sub-index 0 that isn't the highest sub-index of its object.
pub(crate) fn sub_index_0(text: &ReadText, section: &TextSection) -> Option<usize>
    ensures { option_to_list result
        ≡ sub_index_0 text.now.sections (section_view section.now) section.now.kind }
{
    match section.kind {
        SectionKind::SubIndex(key) => {
            if key.sub != 0 || !is_highest_by_rule(key.index) || !is_constant(section) {
                return None;
            }
            let Some(given) = value_in(section) else {
                return None;
            };
            let Some(number) = given.number() else {
                return None;
            };
            if number > 0xFF || number == highest_of(text.parts(key.index)) as u64 {
                None
            } else {
                Some(given.line)
            }
        }
        _ => None,
    }
}
