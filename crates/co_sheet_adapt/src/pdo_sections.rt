//! The sections that the objects of PDOs in compact form get, and their places in the list.

ghost use Rattle.std.specs.Prelude.{◌≡◌, ◌+◌, ◌++◌, map, option_map, OnOk};
ghost use Rattle.std.specs.List.{flat_map};
ghost use Rattle.co_sheet_changes.specs.Pieces.{piece_view};
ghost use Rattle.co_sheet_changes.specs.Views.{group_view};
ghost use Rattle.co_sheet_adapt.specs.Compact.{sub_head, sub_sections};
ghost use Rattle.co_sheet_adapt.specs.CompactPdo.{
  communication_text,
  highest_of,
  keys_of,
  object_head,
  object_text,
  pdo_added,
  pdo_text,
  place_line,
  places_from,
  sub_if,
  word_section,
};
ghost use Rattle.co_sheet_adapt.specs.Expanded.{pdo_objects};
ghost use Rattle.co_sheet_adapt.specs.private.Pdos.{form_view};

use crate::compact::{push_first_section, push_head};
use crate::compact_pdo::PdoForm;
use crate::pieces::push_piece;
use co_sheet_changes::{Group, Piece, assigned, push_number};
use co_sheet_text::SectionKind;
use co_text::word_digits;
use co_value::Key;
use std::alloc::{AllocError, Global};

// the section line of an object
#[tactic(auto, unfolding(crate::specs::CompactPdo::object_head))]
fn push_object_head(text: &mut Vec<u8>, index: u16) -> Result<(), AllocError>
    ensures { OnOk result (text.new.items ≡ text.old.items ++ object_head index) }
{
    attempt!(text.extend_from_slice(b"["));
    attempt!(text.extend_from_slice(word_digits(index).as_str().as_bytes()));
    text.extend_from_slice(b"]\n")
}

// a sub-index, where it is there
fn push_sub_if(
    alloc: Global,
    text: &mut Vec<u8>,
    is: bool,
    key: Key,
    part: Part,
) -> Result<(), AllocError>
    ensures { OnOk result (text.new.items ≡ text.old.items ++ sub_if is key (keys_of part)) }
{
    if is {
        push_part(alloc, text, key, part)
    } else {
        Ok(())
    }
}

// the highest sub-index of a communication object
fn highest_of(subs: u64) -> u8
    ensures { result ≡ highest_of subs }
{
    match subs {
        32.. => 6,
        16..=31 => 5,
        8..=15 => 4,
        4..=7 => 3,
        _ => 2,
    }
}

/// A communication or a mapping object, or one of their sub-indices.
#[derive(Clone, Copy)]
pub(crate) enum Part {
    Communication,
    Mapping,
    CobId,
    TransmissionType,
    InhibitTime,
    Reserved,
    EventTimer,
    SyncStart,
    MappingCount,
    MappingWord,
}

impl Part {
    #[tactic(auto, unfolding(crate::specs::CompactPdo::keys_of))]
    fn keys(self) -> &'static [u8]
        ensures { result.now ≡ keys_of self }
    {
        match self {
            Part::Communication => b"ParameterName=PDO communication parameter\nObjectType=0x9\n\n",
            Part::Mapping => b"ParameterName=PDO mapping parameter\nObjectType=0x9\n\n",
            Part::CobId => {
                b"ParameterName=COB-ID\nDataType=0x0007\nAccessType=rw\nDefaultValue=0x80000000\n\n"
            }
            Part::TransmissionType => {
                b"ParameterName=Transmission type\nDataType=0x0005\nAccessType=rw\nDefaultValue=255\n\n"
            }
            Part::InhibitTime => {
                b"ParameterName=Inhibit time\nDataType=0x0006\nAccessType=rw\nDefaultValue=0\n\n"
            }
            Part::Reserved => {
                b"ParameterName=Reserved\nDataType=0x0005\nAccessType=rw\nDefaultValue=0\n\n"
            }
            Part::EventTimer => {
                b"ParameterName=Event timer\nDataType=0x0006\nAccessType=rw\nDefaultValue=0\n\n"
            }
            Part::SyncStart => {
                b"ParameterName=SYNC start value\nDataType=0x0005\nAccessType=rw\nDefaultValue=0\n\n"
            }
            Part::MappingCount => {
                b"ParameterName=Number of mapped objects\nDataType=0x0005\nAccessType=rw\nDefaultValue=0\n\n"
            }
            Part::MappingWord => {
                b"ParameterName=Mapped object\nDataType=0x0007\nAccessType=rw\nDefaultValue=0\n\n"
            }
        }
    }
}

// the sections of a communication object
#[tactic(auto, unfolding(crate::specs::CompactPdo::communication_text))]
fn push_communication(
    alloc: Global,
    text: &mut Vec<u8>,
    subs: u64,
    index: u16,
) -> Result<(), AllocError>
    ensures { OnOk result (text.new.items ≡ text.old.items ++ communication_text subs index) }
{
    attempt!(push_object_head(text, index));
    attempt!(text.extend_from_slice(Part::Communication.keys()));
    attempt!(push_first_section(alloc, text, index, false, highest_of(subs)));
    attempt!(push_part(alloc, text, Key { index, sub: 1 }, Part::CobId));
    attempt!(push_part(alloc, text, Key { index, sub: 2 }, Part::TransmissionType));
    attempt!(push_sub_if(
        alloc,
        text,
        subs / 4 % 2 == 1,
        Key { index, sub: 3 },
        Part::InhibitTime,
    ));
    attempt!(push_sub_if(
        alloc,
        text,
        subs / 8 % 2 == 1,
        Key { index, sub: 4 },
        Part::Reserved,
    ));
    attempt!(push_sub_if(
        alloc,
        text,
        subs / 16 % 2 == 1,
        Key { index, sub: 5 },
        Part::EventTimer,
    ));
    push_sub_if(
        alloc,
        text,
        subs / 32 % 2 == 1,
        Key { index, sub: 6 },
        Part::SyncStart,
    )
}

// the section of a sub-index
fn push_part(alloc: Global, text: &mut Vec<u8>, key: Key, part: Part) -> Result<(), AllocError>
    ensures { OnOk result (text.new.items ≡ text.old.items ++ sub_head key ++ keys_of part) }
{
    attempt!(push_head(alloc, text, key));
    text.extend_from_slice(part.keys())
}

// the sections of a mapping's entries
fn push_words(alloc: Global, text: &mut Vec<u8>, index: u16) -> Result<(), AllocError>
    ensures { OnOk result
        (text.new.items ≡ text.old.items ++ sub_sections word_section index 8) }
{
    for before in 0..8u8 {
        let key = Key {
            index,
            sub: before + 1,
        };
        attempt!(push_part(alloc, text, key, Part::MappingWord));
    }
    Ok(())
}

// the sections of a communication or a mapping object
#[tactic(auto, unfolding(crate::specs::CompactPdo::mapping_text))]
fn push_object(alloc: Global, text: &mut Vec<u8>, subs: u64, index: u16) -> Result<(), AllocError>
    ensures { OnOk result (text.new.items ≡ text.old.items ++ object_text subs index) }
{
    if matches!(index, 0..=0x15FF | 0x1800..=0x19FF) {
        return push_communication(alloc, text, subs, index);
    }
    attempt!(push_object_head(text, index));
    attempt!(text.extend_from_slice(Part::Mapping.keys()));
    attempt!(push_part(alloc, text, Key { index, sub: 0 }, Part::MappingCount));
    push_words(alloc, text, index)
}

// a place in the list
#[tactic(auto, unfolding(co_sheet_changes::specs::Pieces::assigned))]
fn push_place(text: &mut Vec<u8>, alloc: Global, place: u64, index: u16) -> Result<(), AllocError>
    ensures { OnOk result (text.new.items ≡ text.old.items ++ place_line place index) }
{
    attempt!(push_number(alloc, text, place));
    attempt!(text.extend_from_slice(b"=0x"));
    attempt!(text.extend_from_slice(word_digits(index).as_str().as_bytes()));
    text.extend_from_slice(b"\n")
}

impl PdoForm {
    // the sections of all objects
    fn push_objects(&self, alloc: Global, text: &mut Vec<u8>) -> Result<(), AllocError>
        ensures { OnOk result (text.new.items ≡ text.old.items
            ++ flat_map (object_text (form_view self.now).subs) (form_view self.now).absent) }
    {
        for index in &self.absent {
            attempt!(push_object(alloc, text, self.subs, *index));
        }
        Ok(())
    }

    // their places in the list
    fn push_places(&self, alloc: Global, text: &mut Vec<u8>) -> Result<(), AllocError>
        ensures { OnOk result (text.new.items ≡ text.old.items
            ++ places_from ((form_view self.now).listed + 1) (form_view self.now).unlisted) }
    {
        let mut place = u64::from(self.listed) + 1;
        for index in &self.unlisted {
            attempt!(push_place(text, alloc, place, *index));
            place += 1;
        }
        Ok(())
    }
}

// appends what is added to a section
fn push_pdo_text(
    alloc: Global,
    text: &mut Vec<u8>,
    form: Option<&PdoForm>,
    kind: SectionKind,
) -> Result<(), AllocError>
    ensures { OnOk result (text.new.items
        ≡ text.old.items ++ pdo_text (option_map (λ f. form_view f.now) form.entry) kind) }
{
    match (form, kind) {
        (Some(form), SectionKind::DeviceInfo) => form.push_objects(alloc, text),
        (Some(form), SectionKind::OptionalObjects) => form.push_places(alloc, text),
        _ => Ok(()),
    }
}

/// Appends the sections of all objects, where a section gets them.
pub(crate) fn push_pdo_objects(
    alloc: Global,
    text: &mut Vec<u8>,
    form: Option<&PdoForm>,
    kind: SectionKind,
) -> Result<(), AllocError>
    ensures { OnOk result (text.new.items
        ≡ text.old.items ++ pdo_objects (option_map (λ f. form_view f.now) form.entry) kind) }
{
    match (form, kind) {
        (Some(form), SectionKind::DeviceInfo) => form.push_objects(alloc, text),
        _ => Ok(()),
    }
}

/// Adds what comes after the lines of a section.
pub(crate) fn push_pdos<'a>(
    alloc: Global,
    pieces: &mut Vec<Piece<'a>>,
    form: Option<&PdoForm>,
    group: &Group<'_, 'a>,
) -> Result<(), AllocError>
    ensures { OnOk result (map piece_view pieces.new.items ≡ map piece_view pieces.old.items
        ++ pdo_added (option_map (λ f. form_view f.now) form.entry) (group_view group.now)) }
{
    let mut text = Vec::new(alloc);
    attempt!(push_pdo_text(alloc, &mut text, form, group.kind));
    if text.is_empty() {
        return Ok(());
    }
    let line = group.head.number;
    push_piece(pieces, Piece::Added { line, text })
}
