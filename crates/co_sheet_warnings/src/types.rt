//! The data type that CiA 301 has for an entry.

ghost use Rattle.std.specs.Prelude.{◌≡◌, ◌&&◌, nat_le, find, option_map, option_to_list};
ghost use Rattle.co_sheet_text.specs.Views.{section_view};
ghost use Rattle.co_sheet_text_warnings.specs.Ranges.{is_within};
ghost use Rattle.co_sheet_warnings.specs.Types.{
  count_type,
  has_count,
  has_standard_type,
  is_compound,
  is_compound_at,
  standard_type,
  type_against,
  wrong_type,
};

use co_sheet_text::{SectionKind, TextSection};
use co_sheet_text_warnings::{ReadText, is_within};
use co_value::DataType::{self, Unsigned8, Unsigned16, Unsigned32, VisibleString};
use co_value::Key;

// a type, the first and the last index, and the first and the last sub-index of the entries that
// have it
#[derive(Clone, Copy)]
struct StandardType(DataType, u16, u16, u8, u8);

const STANDARD_TYPES: [StandardType; 17] = [
    StandardType(Unsigned32, 0x1002, 0x1002, 0, 0),
    StandardType(Unsigned32, 0x1006, 0x1007, 0, 0),
    StandardType(VisibleString, 0x1008, 0x100A, 0, 0),
    StandardType(Unsigned16, 0x100C, 0x100C, 0, 0),
    StandardType(Unsigned8, 0x100D, 0x100D, 0, 0),
    StandardType(Unsigned32, 0x1010, 0x1011, 0x01, 0x7F),
    StandardType(Unsigned32, 0x1012, 0x1013, 0, 0),
    StandardType(Unsigned32, 0x1018, 0x1018, 1, 4),
    StandardType(Unsigned32, 0x1020, 0x1020, 1, 2),
    StandardType(Unsigned16, 0x1027, 0x1027, 0x01, 0xFE),
    StandardType(Unsigned32, 0x1028, 0x1028, 0x01, 0x7F),
    StandardType(Unsigned8, 0x1029, 0x1029, 0x02, 0xFE),
    StandardType(Unsigned8, 0x1200, 0x12FF, 3, 3),
    StandardType(Unsigned32, 0x1280, 0x12FF, 1, 2),
    StandardType(Unsigned16, 0x1400, 0x15FF, 3, 3),
    StandardType(Unsigned16, 0x1400, 0x15FF, 5, 5),
    StandardType(Unsigned8, 0x1400, 0x15FF, 6, 6),
];

fn is_covered(row: &StandardType, key: Key) -> bool
    ensures { result ≡ (is_within row.now.1 row.now.2 key.index
        && nat_le row.now.3 key.sub && nat_le key.sub row.now.4) }
{
    let StandardType(_, low, high, first, last) = *row;
    is_within(low, high, key.index) && first <= key.sub && key.sub <= last
}

fn type_among(types: &[StandardType], key: Key) -> Option<DataType>
    ensures { result ≡ option_map (λ r. r.0) (find (λ r. is_within r.1 r.2 key.index
        && nat_le r.3 key.sub && nat_le key.sub r.4) types.now) }
{
    for row in types {
        if is_covered(row, key) {
            return Some(row.0);
        }
    }
    None
}

// not of VARs and DOMAINs of CiA 301, nor of 1004h and 100Fh, which had another number there
fn has_count(index: u16) -> bool
    ensures { result ≡ has_count index }
{
    !(is_within(0x1000, 0x1002, index)
        || is_within(0x1004, 0x100F, index)
        || is_within(0x1012, 0x1015, index)
        || index == 0x1017
        || index == 0x1019
        || is_within(0x1021, 0x1022, index)
        || index == 0x1024
        || index == 0x102A)
}

// of sub-index 0, the highest sub-index
fn count_type(index: u16) -> Option<DataType>
    ensures { result ≡ count_type index }
{
    if has_count(index) {
        Some(Unsigned8)
    } else {
        None
    }
}

/// The data type that CiA 301 has for the entry of a section, beyond those that a sheet has to have
/// (`fixed_type` of `co_profile`): that of objects of the communication profile, and of sub-index 0
/// of an ARRAY or a RECORD.
pub fn standard_type(kind: SectionKind) -> Option<DataType>
    ensures { result ≡ standard_type kind }
{
    match kind {
        SectionKind::Object(index) => type_among(&STANDARD_TYPES, Key { index, sub: 0 }),
        SectionKind::SubIndex(key) => {
            if key.sub == 0 {
                return count_type(key.index);
            }
            type_among(&STANDARD_TYPES, key)
        }
        _ => None,
    }
}

// whether an object is an ARRAY or a RECORD
fn is_compound(section: &TextSection) -> bool
    ensures { result ≡ is_compound (section_view section.now) }
{
    match section.property(b"ObjectType") {
        Some(given) => matches!(given.number(), Some(8 | 9)),
        None => false,
    }
}

// the same, by the object's own section
fn is_compound_at(text: &ReadText, index: u16) -> bool
    ensures { result ≡ is_compound_at text.now.sections index }
{
    match text.object(index) {
        Some(object) => is_compound(object.section),
        None => false,
    }
}

// whether a section's standard type applies to it: that of sub-index 0 to an ARRAY or a RECORD alone
fn has_standard_type(text: &ReadText, kind: SectionKind) -> bool
    ensures { result ≡ has_standard_type text.now.sections kind }
{
    match kind {
        SectionKind::SubIndex(key) => 0 < key.sub || is_compound_at(text, key.index),
        _ => true,
    }
}

// the line of a DataType with another code
fn type_against(section: &TextSection, data_type: DataType) -> Option<usize>
    ensures { option_to_list result ≡ type_against (section_view section.now) data_type }
{
    let Some(given) = section.property(b"DataType") else {
        return None;
    };
    match given.number() {
        Some(code) if code != data_type.code() as u64 => Some(given.line),
        _ => None,
    }
}

/// The line of a DataType other than CiA 301 has it for the entry.
pub(crate) fn wrong_type(text: &ReadText, section: &TextSection) -> Option<usize>
    ensures { option_to_list result ≡ wrong_type text.now.sections (section_view section.now) }
{
    if !has_standard_type(text, section.kind) {
        return None;
    }
    match standard_type(section.kind) {
        Some(data_type) => type_against(section, data_type),
        None => None,
    }
}
