//! What is changed by force only.

ghost use Rattle.std.specs.Prelude.{◌≡◌, ◌∷◌, codes, option_map, IfOk};
ghost use Rattle.co_sheet_changes.specs.Pieces.{mended, mended_view};
ghost use Rattle.co_sheet_changes.specs.Views.{group_view};
ghost use Rattle.co_sheet_changes.specs.Forced.{
  as_comment,
  forced_change,
  is_among,
  is_above_zero,
  is_count,
  is_forced_at,
  is_forced_limit,
  is_forced_of,
  is_mapping_of,
  is_sync,
  limited_type,
  mapping_change,
  sync_change,
  without_bit_30,
};

use crate::change::{ChangeKind, Mended};
use crate::digits::hexadecimal;
use crate::extended::is_extended_limit;
use crate::group::Group;
use crate::limits::{data_type_of, has_unsigned_limits, is_limit, is_low, is_preset, is_zero};
use crate::pieces::{assigned, joined, with_value};
use crate::requested::Facts;
use co_sheet::is_in_type;
use co_sheet_text::{NumeralFault, SectionKind, signed_numeral, unsigned_number};
use co_value::DataType;
use std::alloc::{AllocError, Global};

/// The data type to which the limits of a section must belong.
pub(crate) fn limited_type(group: &Group) -> Option<DataType>
    ensures { result ≡ limited_type (group_view group.now) }
{
    if has_unsigned_limits(group) {
        None
    } else {
        data_type_of(group)
    }
}

// whether a limit is no number of its type
fn is_forced_at(data_type: DataType, value: &[u8]) -> bool
    ensures { result ≡ is_forced_at data_type value.now }
{
    let is_against = match signed_numeral(value) {
        Ok(numeral) => !is_in_type(data_type, numeral.value_at(data_type)),
        Err(NumeralFault::Malformed) => true,
        Err(NumeralFault::Ambiguous) => false,
    };
    data_type.width().is_some() && is_against
}

// the same, but for one that is read as a negative number with its sign extended
fn is_forced_of(has_extended_low: bool, data_type: DataType, name: &[u8], value: &[u8]) -> bool
    ensures { result ≡ is_forced_of has_extended_low data_type name.now value.now }
{
    is_forced_at(data_type, value) && !is_extended_limit(has_extended_low, data_type, name, value)
}

fn is_forced_limit(facts: &Facts, name: &[u8], value: &[u8]) -> bool
    ensures { result ≡ is_forced_limit facts.now.has_extended_low facts.now.data_type name.now value.now }
{
    match facts.data_type {
        Some(data_type) => {
            is_limit(name) && is_forced_of(facts.has_extended_low, data_type, name, value)
        }
        None => false,
    }
}

// a line as a comment
fn as_comment(alloc: Global, name: &[u8], value: &[u8]) -> Result<Vec<u8>, AllocError>
    ensures { IfOk result (λ made. made.items ≡ as_comment name.now value.now) }
{
    let line = attempt!(assigned(alloc, name, value));
    joined(alloc, b";", line.as_slice(), b"")
}

// the COB-ID of the SYNC without bit 30
fn without_bit_30(alloc: Global, word: u64) -> Result<Option<Vec<u8>>, AllocError>
    ensures { IfOk result (λ made. option_map (λ v. v.items) made ≡ without_bit_30 word) }
{
    if word < 0x1_0000_0000 && word / 0x4000_0000 % 2 == 1 {
        Ok(Some(attempt!(hexadecimal(alloc, 8, word - 0x4000_0000))))
    } else {
        Ok(None)
    }
}

fn sync_change(alloc: Global, name: &[u8], value: &[u8]) -> Result<Option<Mended>, AllocError>
    ensures { IfOk result (λ made.
        option_map mended_view made ≡ sync_change name.now value.now) }
{
    let Ok(word) = unsigned_number(value) else {
        return Ok(None);
    };
    let anew = attempt!(without_bit_30(alloc, word));
    with_value(alloc, ChangeKind::ForcedSync, name, anew)
}

// whether a line says how many entries a mapping has, and not 0
fn is_count(name: &[u8], value: &[u8]) -> bool
    ensures { result ≡ is_count name.now value.now }
{
    is_preset(name) && !is_zero(value)
}

// whether a line is a LowLimit that doesn't permit 0 entries
fn is_above_zero(name: &[u8], value: &[u8]) -> bool
    ensures { result ≡ is_above_zero name.now value.now }
{
    is_low(name) && !is_zero(value)
}

fn mapping_change(
    alloc: Global,
    is_at_fault: bool,
    name: &[u8],
    value: &[u8],
) -> Result<Option<Mended>, AllocError>
    ensures { IfOk result (λ made.
        option_map mended_view made ≡ mapping_change is_at_fault name.now value.now) }
{
    let kind = ChangeKind::ForcedMapping;
    if is_at_fault && is_count(name, value) {
        let new = attempt!(assigned(alloc, name, b"0"));
        return Ok(Some(Mended { kind, new }));
    }
    if is_at_fault && is_above_zero(name, value) {
        let new = attempt!(as_comment(alloc, name, value));
        return Ok(Some(Mended { kind, new }));
    }
    Ok(None)
}

fn is_among(mappings: &[u16], index: u16) -> bool
    ensures { result ≡ is_among mappings.now index }
{
    for mapping in mappings {
        if *mapping == index {
            return true;
        }
    }
    false
}

fn is_mapping_of(mappings: &[u16], kind: SectionKind) -> bool
    ensures { result ≡ is_mapping_of mappings.now kind }
{
    match kind {
        SectionKind::SubIndex(key) => key.sub == 0 && is_among(mappings, key.index),
        _ => false,
    }
}

fn is_sync(kind: SectionKind) -> bool
    ensures { result ≡ is_sync kind }
{
    matches!(kind, SectionKind::Object(0x1005))
}

/// What a name and its value become in a section by force; `mappings` are the mapping objects at
/// fault.
pub(crate) fn forced_change(
    alloc: Global,
    mappings: &[u16],
    facts: &Facts,
    name: &[u8],
    value: &[u8],
) -> Result<Option<Mended>, AllocError>
    ensures { IfOk result (λ made. option_map mended_view made
        ≡ forced_change mappings.now facts.now.kind facts.now.has_extended_low facts.now.data_type
        name.now value.now) }
{
    if is_forced_limit(facts, name, value) {
        let new = attempt!(as_comment(alloc, name, value));
        let kind = ChangeKind::ForcedLimit;
        return Ok(Some(Mended { kind, new }));
    }
    if is_sync(facts.kind) && is_preset(name) {
        return sync_change(alloc, name, value);
    }
    let is_at_fault = is_mapping_of(mappings, facts.kind);
    mapping_change(alloc, is_at_fault, name, value)
}
