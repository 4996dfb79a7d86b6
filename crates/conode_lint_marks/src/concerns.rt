//! What a section is about, as far as a finding rests on it.

ghost use Rattle.std.specs.Prelude.{◌≡◌};
ghost use Rattle.co_sheet_text_warnings.specs.Ranges.{is_within};
ghost use Rattle.conode_lint_marks.specs.Concerns.{
  concerns,
  hides,
  is_any,
  is_info,
  is_of_channel,
  is_of_entry,
  is_of_object,
  is_of_pdo,
  is_passed_over,
  is_same,
  is_same_pdo,
  is_sub_of,
};

use co_dict_build::is_channel_key;
use co_profile::IndexRange;
use co_sheet_text::SectionKind;
use co_value::Key;

/// What a finding rests on, of a section.
#[derive(Clone, Copy)]
pub(crate) enum Concern {
    /// It is that of an entry, or of its object.
    EntryOf(Key),
    /// It is that of an object, or of one of its sub-indices.
    ObjectOf(u16),
    /// It is that of an object of the same PDO, or of one of its sub-indices.
    PdoOf(u16),
    /// It is that of an SDO channel.
    Channel,
    /// Something that isn't found may be there, if it is at fault.
    Hiding,
    /// It may be any section, since its own line is at fault.
    SectionLine,
    /// It has CompactPDO.
    CompactPdo,
    /// It is that of the same object or sub-index.
    Same(SectionKind),
    /// It is that of a sub-index of an object, from one sub-index to another.
    SubsOf(u16, u16, u16),
}

// whether a section is that of an entry or of its object
fn is_of_entry(key: Key, kind: SectionKind) -> bool
    ensures { result ≡ is_of_entry key kind }
{
    match kind {
        SectionKind::Object(index) => index == key.index,
        SectionKind::SubIndex(sub) => sub == key,
        _ => false,
    }
}

// whether a section is that of an object or of one of its sub-indices
fn is_of_object(index: u16, kind: SectionKind) -> bool
    ensures { result ≡ is_of_object index kind }
{
    match kind {
        SectionKind::Object(other) => other == index,
        SectionKind::SubIndex(key) => key.index == index,
        _ => false,
    }
}

// whether two indices are those of one PDO (CiA 301, 7.5.2.35 to 7.5.2.38)
fn is_same_pdo(index: u16, other: u16) -> bool
    ensures { result ≡ is_same_pdo index other }
{
    index == other || index as u32 + 0x200 == other as u32 || other as u32 + 0x200 == index as u32
}

// whether a section is that of a PDO's object, or of one of its sub-indices
fn is_of_pdo(index: u16, kind: SectionKind) -> bool
    ensures { result ≡ is_of_pdo index kind }
{
    match kind {
        SectionKind::Object(other) => is_same_pdo(index, other),
        SectionKind::SubIndex(key) => is_same_pdo(index, key.index),
        _ => false,
    }
}

// whether a section is that of an SDO channel
fn is_of_channel(kind: SectionKind) -> bool
    ensures { result ≡ is_of_channel kind }
{
    match kind {
        SectionKind::Object(index) => IndexRange::SDO_SERVER.contains(index),
        SectionKind::SubIndex(key) => is_channel_key(key),
        _ => false,
    }
}

// whether something that isn't found may be there, if a section is at fault
fn hides(kind: SectionKind) -> bool
    ensures { result ≡ hides kind }
{
    match kind {
        SectionKind::Object(_) | SectionKind::SubIndex(_) | SectionKind::DeviceCommissioning =>
            false,
        _ => true,
    }
}

fn is_passed_over(kind: SectionKind) -> bool
    ensures { result ≡ is_passed_over kind }
{
    matches!(kind, SectionKind::PassedOver)
}

fn is_info(kind: SectionKind) -> bool
    ensures { result ≡ is_info kind }
{
    matches!(kind, SectionKind::DeviceInfo)
}

fn is_within(first: u16, last: u16, number: u16) -> bool
    ensures { result ≡ is_within first last number }
{
    first <= number && number <= last
}

// whether two sections are about the same object or sub-index
fn is_same(kind: SectionKind, other: SectionKind) -> bool
    ensures { result ≡ is_same kind other }
{
    match (kind, other) {
        (SectionKind::Object(index), SectionKind::Object(of)) => index == of,
        (SectionKind::SubIndex(key), SectionKind::SubIndex(of)) => key == of,
        _ => false,
    }
}

// whether an entry is a sub-index of an object, from one sub-index to another
fn is_sub_of(index: u16, first: u16, last: u16, kind: SectionKind) -> bool
    ensures { result ≡ is_sub_of index first last kind }
{
    match kind {
        SectionKind::SubIndex(key) => {
            key.index == index && is_within(first, last, key.sub as u16)
        }
        _ => false,
    }
}

fn concerns(concern: Concern, kind: SectionKind) -> bool
    ensures { result ≡ concerns concern kind }
{
    match concern {
        Concern::EntryOf(key) => is_of_entry(key, kind),
        Concern::ObjectOf(index) => is_of_object(index, kind),
        Concern::PdoOf(index) => is_of_pdo(index, kind),
        Concern::Channel => is_of_channel(kind),
        Concern::Hiding => hides(kind),
        Concern::SectionLine => is_passed_over(kind),
        Concern::CompactPdo => is_info(kind),
        Concern::Same(other) => is_same(other, kind),
        Concern::SubsOf(index, first, last) => is_sub_of(index, first, last, kind),
    }
}

/// Whether a finding rests on one of the sections that are about these.
pub(crate) fn is_any(concern: Concern, kinds: &[SectionKind]) -> bool
    ensures { result ≡ is_any concern kinds.now }
{
    for kind in kinds {
        if concerns(concern, *kind) {
            return true;
        }
    }
    false
}
