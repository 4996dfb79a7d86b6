//! What a sheet has where a finding is: its sections as they are read.

ghost use Rattle.std.specs.Prelude.{◌≡◌, map, option_map};
ghost use Rattle.std.specs.Option.{option_copied};
ghost use Rattle.co_sheet_text.specs.Views.{section_view};
ghost use Rattle.conode_lint_text.specs.Facts.{
  access_fact,
  bad_type,
  beside,
  device_info,
  duplicate_key,
  duplicate_section,
  entry_fact,
  entry_key,
  entry_type_fact,
  file_info,
  first_at,
  first_key,
  first_section,
  fixed_code,
  has_compact_pdos,
  has_entries,
  is_compact,
  is_of_pdo,
  is_other_type,
  is_sub_index,
  key_fact,
  misspelt_key,
  missing_key,
  missing_section_in,
  object_type_fact,
  other_type,
  reserved_fact,
  reserved_value,
  section_before,
  section_on,
  standard_fact,
  type_fact,
  without_section,
  wrong_access,
  wrong_type,
};

use crate::fact::Fact;
use crate::finding::About;
use crate::line_facts::{key_name, key_number, missing_section, section_kind};
use co_profile::fixed_type;
use co_sheet::section_at;
use co_sheet_text::{SectionKind, TextSection, same_name};
use co_sheet_text_warnings::KnownKey;
use co_sheet_warnings::{fixed_access, standard_type};
use co_value::Key;

/// The section that begins at a line.
pub(crate) fn section_on<'s, 'a>(
    sections: &'s [TextSection<'s, 'a>],
    line: usize,
) -> Option<&'s TextSection<'s, 'a>>
    ensures { option_map section_view (option_copied result)
        ≡ section_on line (map section_view sections.now) }
{
    for section in sections {
        if section.line == line {
            return Some(section);
        }
    }
    None
}

/// The section that a line is in: the last that begins before it.
pub(crate) fn section_before<'s, 'a>(
    sections: &'s [TextSection<'s, 'a>],
    line: usize,
) -> Option<&'s TextSection<'s, 'a>>
    ensures { option_map section_view (option_copied result)
        ≡ section_before line (map section_view sections.now) }
{
    let mut found = None;
    for section in sections {
        if section.line < line {
            found = Some(section);
        }
    }
    found
}

fn key_fact(is_sub: bool, has_type: bool, has_access: bool) -> About
    ensures { result ≡ key_fact is_sub has_type has_access }
{
    match (has_type, has_access) {
        (false, false) => About::Fact(Fact::NoTypeOrAccess(is_sub)),
        (false, true) => About::Fact(Fact::NoType(is_sub)),
        (true, false) => About::Fact(Fact::NoAccess(is_sub)),
        (true, true) => About::Line,
    }
}

fn is_sub_index(kind: SectionKind) -> bool
    ensures { result ≡ is_sub_index kind }
{
    matches!(kind, SectionKind::SubIndex(_))
}

fn entry_fact(section: &TextSection<'_, '_>) -> About
    ensures { result ≡ entry_fact (section_view section.now) }
{
    let has_type = section.property(b"DataType").is_some();
    let has_access = section.property(b"AccessType").is_some();
    key_fact(is_sub_index(section.kind), has_type, has_access)
}

/// Of the MissingKey of the section at a line: which keys it lacks.
pub fn missing_key(sections: &[TextSection<'_, '_>], line: usize) -> About
    ensures { result ≡ missing_key line (map section_view sections.now) }
{
    match section_on(sections, line) {
        Some(section) => entry_fact(section),
        None => About::Line,
    }
}

fn first_key(name: &[u8], section: &TextSection<'_, '_>) -> About
    ensures { result ≡ first_key name.now (section_view section.now) }
{
    match section.property(name) {
        Some(property) => About::FirstAt(property.line),
        None => About::Line,
    }
}

/// Of the DuplicateKey of a line: the first one's line.
pub fn duplicate_key(sections: &[TextSection<'_, '_>], line: usize, text: &[u8]) -> About
    ensures { result ≡ duplicate_key line (map section_view sections.now) text.now }
{
    match section_before(sections, line) {
        Some(section) => first_key(key_name(text), section),
        None => About::Line,
    }
}

fn beside(section: &TextSection<'_, '_>, known: KnownKey) -> About
    ensures { result ≡ beside known (section_view section.now) }
{
    if section.property(known.name().as_bytes()).is_some() {
        return About::MisspeltBeside(known);
    }
    About::Misspelt(known)
}

/// Of the MisspeltKey of a line, by the key that is meant: whether it is there too.
pub fn misspelt_key(sections: &[TextSection<'_, '_>], line: usize, known: KnownKey) -> About
    ensures { result ≡ misspelt_key line (map section_view sections.now) known }
{
    match section_before(sections, line) {
        Some(section) => beside(section, known),
        None => About::Misspelt(known),
    }
}

fn entry_key(kind: SectionKind) -> Option<Key>
    ensures { result ≡ entry_key kind }
{
    match kind {
        SectionKind::Object(index) => Some(Key { index, sub: 0 }),
        SectionKind::SubIndex(key) => Some(key),
        _ => None,
    }
}

// the code of the type that CiA 301 has for an entry
fn fixed_code(kind: SectionKind) -> Option<u16>
    ensures { result ≡ fixed_code kind }
{
    let Some(key) = entry_key(kind) else {
        return None;
    };
    match fixed_type(key) {
        Some(data_type) => Some(data_type.code()),
        None => None,
    }
}

// whether CiA 301 has an object with sub-indices for a section, whose types are fixed
fn has_entries(kind: SectionKind) -> bool
    ensures { result ≡ has_entries kind }
{
    match kind {
        SectionKind::Object(index) => fixed_type(Key { index, sub: 1 }).is_some(),
        _ => false,
    }
}

fn entry_type_fact(kind: SectionKind, code: u16) -> About
    ensures { result ≡ entry_type_fact kind code }
{
    if has_entries(kind) {
        return About::Fact(Fact::ManyEntries);
    }
    About::Fact(Fact::FixedType(code))
}

// the type that CiA 301 has for an entry, if the line gives it another one
fn other_type(given: Option<u64>, kind: SectionKind, code: u16) -> About
    ensures { result ≡ other_type given kind code }
{
    match given {
        Some(number) if number == u64::from(code) => About::Line,
        _ => entry_type_fact(kind, code),
    }
}

// whether a code is that of a type of CiA 301 that isn't supported
fn is_other_type(code: u64) -> bool
    ensures { result ≡ is_other_type code }
{
    (0x20 <= code && code <= 0x25) || (0x40 <= code && code <= 0x25F)
}

fn type_fact(given: Option<u64>, section: &TextSection<'_, '_>) -> About
    ensures { result ≡ type_fact given (section_view section.now) }
{
    match (fixed_code(section.kind), given) {
        (Some(code), _) => other_type(given, section.kind, code),
        (None, Some(code)) if is_other_type(code) => About::Fact(Fact::Unsupported),
        (None, _) => About::Line,
    }
}

fn object_type_fact(given: Option<u64>, section: &TextSection<'_, '_>) -> About
    ensures { result ≡ object_type_fact given (section_view section.now) }
{
    match given {
        Some(5 | 6) if !is_sub_index(section.kind) => About::Fact(Fact::Unsupported),
        _ => About::Line,
    }
}

/// Of the BadType of a line: the type that CiA 301 has for the entry, if it has one, and another than
/// the line's. Where it is the line's, the object type is at fault. Of other entries, and of an
/// ObjectType, whether CiA 301 defines the code.
pub fn bad_type(sections: &[TextSection<'_, '_>], line: usize, text: &[u8]) -> About
    ensures { result ≡ bad_type line (map section_view sections.now) text.now }
{
    let Some(section) = section_before(sections, line) else {
        return About::Line;
    };
    if same_name(key_name(text), b"DataType") {
        return type_fact(key_number(text), section);
    }
    object_type_fact(key_number(text), section)
}

fn access_fact(section: &TextSection<'_, '_>) -> About
    ensures { result ≡ access_fact (section_view section.now) }
{
    match fixed_access(section.kind) {
        Some(access) => About::Access(access),
        None => About::Line,
    }
}

/// Of the WrongAccess of a line: the access that CiA 301 has for the entry.
pub fn wrong_access(sections: &[TextSection<'_, '_>], line: usize) -> About
    ensures { result ≡ wrong_access line (map section_view sections.now) }
{
    match section_before(sections, line) {
        Some(section) => access_fact(section),
        None => About::Line,
    }
}

fn standard_fact(section: &TextSection<'_, '_>) -> About
    ensures { result ≡ standard_fact (section_view section.now) }
{
    match standard_type(section.kind) {
        Some(data_type) => About::Fact(Fact::StandardType(data_type.code())),
        None => About::Line,
    }
}

/// Of the WrongType of a line: the type that CiA 301 has for the entry.
pub fn wrong_type(sections: &[TextSection<'_, '_>], line: usize) -> About
    ensures { result ≡ wrong_type line (map section_view sections.now) }
{
    match section_before(sections, line) {
        Some(section) => standard_fact(section),
        None => About::Line,
    }
}

// of which entry the value of a section is
fn reserved_fact(kind: SectionKind) -> About
    ensures { result ≡ reserved_fact kind }
{
    match kind {
        SectionKind::SubIndex(key) if key.index < 0x1800 => About::Fact(Fact::ReservedOfRpdo),
        SectionKind::SubIndex(_) => About::Fact(Fact::ReservedOfTpdo),
        _ => About::Fact(Fact::ReservedCounter),
    }
}

/// Of the ReservedValue of a line: whether it is a transmission type, and of which PDO, or the
/// synchronous counter overflow value.
pub fn reserved_value(sections: &[TextSection<'_, '_>], line: usize) -> About
    ensures { result ≡ reserved_value line (map section_view sections.now) }
{
    match section_before(sections, line) {
        Some(section) => reserved_fact(section.kind),
        None => About::Line,
    }
}

// CompactPDO isn't 0
fn is_compact(section: &TextSection<'_, '_>) -> bool
    ensures { result ≡ is_compact (section_view section.now) }
{
    match section.number_at(b"CompactPDO") {
        Some(number) => number != 0,
        None => false,
    }
}

fn has_compact_pdos(sections: &[TextSection<'_, '_>]) -> bool
    ensures { result ≡ has_compact_pdos (map section_view sections.now) }
{
    match section_at(sections, SectionKind::DeviceInfo) {
        Some(section) => is_compact(section),
        None => false,
    }
}

fn is_of_pdo(index: u16) -> bool
    ensures { result ≡ is_of_pdo index }
{
    0x1400 <= index && index < 0x1C00
}

fn without_section(sections: &[TextSection<'_, '_>], about: About) -> About
    ensures { result ≡ without_section (map section_view sections.now) about }
{
    match about {
        About::NoSection(index) => {
            if is_of_pdo(index) && has_compact_pdos(sections) {
                About::CompactPdo(index)
            } else {
                about
            }
        }
        _ => about,
    }
}

/// Of the MissingSection of a line: an object of a PDO, where CompactPDO describes PDOs, or else what
/// its line shows.
pub fn missing_section_in(sections: &[TextSection<'_, '_>], line: usize, text: &[u8]) -> About
    ensures { result ≡ missing_section_in (map section_view sections.now) line text.now }
{
    without_section(sections, missing_section(line, text))
}

fn first_section(section: &TextSection<'_, '_>) -> About
    ensures { result ≡ first_section (section_view section.now) }
{
    About::FirstAt(section.line)
}

/// Of the DuplicateSection of a line: the first one's line.
pub fn duplicate_section(sections: &[TextSection<'_, '_>], text: &[u8]) -> About
    ensures { result ≡ duplicate_section (map section_view sections.now) text.now }
{
    let kind = section_kind(text);
    match section_at(sections, kind) {
        Some(section) => first_section(section),
        None => About::Line,
    }
}

/// Of what comes twice: the line of the first, if it is known.
pub fn first_at(line: Option<usize>) -> About
    ensures { result ≡ first_at line }
{
    match line {
        Some(line) => About::FirstAt(line),
        None => About::Line,
    }
}

/// Of the FileInfoKeys of a line: whether there is the section, and which keys are missing.
pub fn file_info(line: usize, missing: [bool; 10]) -> About
    ensures { result ≡ file_info line missing }
{
    if line == 0 {
        return About::Fact(Fact::NoFileInfo(missing));
    }
    About::Fact(Fact::FileInfoLacks(missing))
}

/// Of the DeviceInfoKeys of a line: whether there is the section, and which keys are missing.
pub fn device_info(line: usize, missing: [bool; 22]) -> About
    ensures { result ≡ device_info line missing }
{
    if line == 0 {
        return About::Fact(Fact::NoDeviceInfo(missing));
    }
    About::Fact(Fact::DeviceInfoLacks(missing))
}
