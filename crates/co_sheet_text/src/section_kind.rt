//! The sections of a data sheet, and the properties that are read in them.

ghost use Rattle.std.specs.Prelude.{◌≡◌, ◌≤◌, ◌<◌, ◌^◌, Some, None, IfSome, take_while, drop, length, if◌then◌else◌};
ghost use Rattle.std.specs.List.{list_any, prefix_len};
ghost use Rattle.co_sheet_text.specs.Text.{same_name};
ghost use Rattle.co_sheet_text.specs.Names.{
  is_hexadecimal_digit,
  is_hexadecimal_up_to,
  number_in,
  sub_index_kind,
  is_commissioning,
  kind_of,
  is_read,
  is_list,
  is_position,
  object_names,
  is_read_name,
};

use crate::numeral::{all_digits, is_digit, number_in};
use crate::text::same_name;
use co_value::Key;

/// What a section is about, by its name.
#[derive(Clone, Copy, PartialEq, Eq, Hash)]
pub enum SectionKind {
    MandatoryObjects,
    OptionalObjects,
    ManufacturerObjects,
    DummyUsage,
    DeviceInfo,
    /// `DeviceComissioning`, as CiA 306 spells it, or `DeviceCommissioning`.
    DeviceCommissioning,
    /// The object with this index.
    Object(u16),
    /// The sub-index with this key.
    SubIndex(Key),
    /// Any other, which is passed over with its lines.
    PassedOver,
}

impl SectionKind {
    /// What a section of this name is about: a list, DummyUsage, DeviceInfo, device commissioning
    /// in either spelling, an object as `1018`, a sub-index as `1018sub1`, or nothing that is read
    /// (CiA 306, object lists, object description, device commissioning).
    pub fn of_name(name: &[u8]) -> SectionKind
        ensures { result ≡ kind_of name.now }
    {
        if same_name(name, b"MandatoryObjects") {
            SectionKind::MandatoryObjects
        } else if same_name(name, b"OptionalObjects") {
            SectionKind::OptionalObjects
        } else if same_name(name, b"ManufacturerObjects") {
            SectionKind::ManufacturerObjects
        } else if same_name(name, b"DummyUsage") {
            SectionKind::DummyUsage
        } else if same_name(name, b"DeviceInfo") {
            SectionKind::DeviceInfo
        } else if is_commissioning(name) {
            SectionKind::DeviceCommissioning
        } else if let Some(index) = hexadecimal_up_to(4, name) {
            SectionKind::Object(index)
        } else {
            sub_index_kind(name)
        }
    }

    /// Whether the section is read, and not passed over with its lines.
    pub fn is_read(self) -> bool
        ensures { result ≡ is_read self }
    {
        !matches!(self, SectionKind::PassedOver)
    }

    /// Whether the section is an object list.
    pub fn is_list(self) -> bool
        ensures { result ≡ is_list self }
    {
        matches!(
            self,
            SectionKind::MandatoryObjects
                | SectionKind::OptionalObjects
                | SectionKind::ManufacturerObjects
        )
    }

    /// Whether a property of this name is read in the section; the others are passed over.
    pub fn reads(self, name: &[u8]) -> bool
        ensures { result ≡ is_read_name self name.now }
    {
        match self {
            _ if self.is_list() => same_name(name, b"SupportedObjects") || is_position(name),
            SectionKind::DummyUsage => is_among(name, &DUMMY_NAMES),
            SectionKind::DeviceInfo => same_name(name, b"CompactPDO"),
            SectionKind::DeviceCommissioning => same_name(name, b"NodeID"),
            SectionKind::Object(_) | SectionKind::SubIndex(_) => is_object_name(name),
            _ => false,
        }
    }
}

const OBJECT_NAMES: [&[u8]; 11] = [
    b"ParameterName",
    b"ObjectType",
    b"DataType",
    b"AccessType",
    b"LowLimit",
    b"HighLimit",
    b"DefaultValue",
    b"ParameterValue",
    b"PDOMapping",
    b"SubNumber",
    b"CompactSubObj",
];

const DUMMY_NAMES: [&[u8]; 6] = [
    b"Dummy0002",
    b"Dummy0003",
    b"Dummy0004",
    b"Dummy0005",
    b"Dummy0006",
    b"Dummy0007",
];

// CiA 306 spells the section with one `m`, which many tools correct
fn is_commissioning(name: &[u8]) -> bool
    ensures { result ≡ is_commissioning name.now }
{
    same_name(name, b"DeviceComissioning") || same_name(name, b"DeviceCommissioning")
}

fn is_among(name: &[u8], names: &[&[u8]]) -> bool
    ensures { result ≡ list_any (λ other. same_name name.now other.now) names.now }
{
    names.iter().any(|other| same_name(name, other))
}

fn is_object_name(name: &[u8]) -> bool
    ensures { result ≡ list_any (same_name name.now) object_names }
{
    is_among(name, &OBJECT_NAMES)
}

// a place in an object list: a decimal number from 1, without leading zeros
fn is_position(name: &[u8]) -> bool
    ensures { result ≡ is_position name.now }
{
    match name {
        [] | [b'0', ..] => false,
        _ => all_digits(name, 10),
    }
}

// parses at most this many hexadecimal digits
fn hexadecimal_up_to(most: usize, text: &[u8]) -> Option<u16>
    requires { most ≤ 4 }
    ensures value { result ≡ (if is_hexadecimal_up_to most text.now
        then Some (number_in 16 text.now) else None) }
    ensures small { IfSome result (λ n. n < 16 ^ most) }
{
    if text.len() > most {
        return None;
    }
    let number = number_in(16, text)?;
    Some(number as u16)
}

// the number of hexadecimal digits at the front
fn hexadecimal_len(text: &[u8]) -> usize
    ensures len { result ≡ prefix_len is_hexadecimal_digit text.now }
    ensures bound { result ≤ length text.now }
{
    for (place, byte) in text.iter().enumerate() {
        if !is_digit(*byte, 16) {
            return place;
        }
    }
    text.len()
}

// `1018sub1`
fn sub_index_kind(name: &[u8]) -> SectionKind
    ensures { result ≡ sub_index_kind (take_while is_hexadecimal_digit name.now)
        (drop (prefix_len is_hexadecimal_digit name.now) name.now) }
{
    let (index, rest) = name.split_at(hexadecimal_len(name));
    let (word, sub) = rest.split_at(rest.len().min(3));
    match (hexadecimal_up_to(4, index), hexadecimal_up_to(2, sub)) {
        (Some(index), Some(sub)) if same_name(word, b"sub") => {
            SectionKind::SubIndex(Key {
                index,
                sub: sub as u8,
            })
        }
        _ => SectionKind::PassedOver,
    }
}
