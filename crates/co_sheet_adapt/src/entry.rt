//! The lines of an entry, changed.

ghost use Rattle.std.specs.Prelude.{◌≡◌, ◌++◌, ◌∷◌, [], codes, option_map, IfOk, OnOk};
ghost use Rattle.co_sheet_adapt.specs.Entries.{
  type_lines,
  preset_kind,
  preset_in_place,
  in_place,
  preset_at_type,
  extended_change,
  number_at_type,
  entry_change,
};
ghost use Rattle.co_sheet_changes.specs.Pieces.{assigned, mended, mended_view};

use crate::facts::Facts;
use crate::left_out::LeftOut;
use crate::values::pairs_without_blanks;
use co_sheet_changes::{
    ChangeKind, Mended, assigned, is_extended_limit, is_limit, is_preset, sign_extended, with_value,
};
use co_sheet_text::same_name;
use co_value::DataType;
use std::alloc::{AllocError, Global};

/// Appends a line `NAME=VALUE`.
#[tactic(auto, unfolding(co_sheet_changes::specs::Pieces::assigned))]
pub(crate) fn push_assigned(text: &mut Vec<u8>, name: &[u8], value: &[u8]) -> Result<(), AllocError>
    ensures { OnOk result (text.new.items ≡ text.old.items ++ assigned name.now value.now) }
{
    attempt!(text.extend_from_slice(name));
    attempt!(text.extend_from_slice(b"="));
    attempt!(text.extend_from_slice(value));
    text.extend_from_slice(b"\n")
}

// the data type that stands for one that is left out, and in a key of our own the original
fn type_lines(alloc: Global, left_out: LeftOut, name: &[u8]) -> Result<Vec<u8>, AllocError>
    ensures { IfOk result (λ made. made.items ≡ type_lines left_out name.now) }
{
    let mut made = attempt!(assigned(alloc, name, left_out.code_in_place()));
    attempt!(push_assigned(&mut made, b"OriginalDataType", left_out.code()));
    Ok(made)
}

// why a value is changed for the type that stands for its own; that of a time isn't
fn preset_kind(left_out: LeftOut) -> Option<ChangeKind>
    ensures { result ≡ preset_kind left_out }
{
    match left_out {
        LeftOut::Real32 | LeftOut::Real64 => Some(ChangeKind::RealValue),
        LeftOut::UnicodeString => Some(ChangeKind::UnicodeValue),
        LeftOut::TimeOfDay | LeftOut::TimeDifference => None,
    }
}

fn preset_in_place(
    alloc: Global,
    left_out: LeftOut,
    name: &[u8],
    value: &[u8],
) -> Result<Option<Mended>, AllocError>
    ensures { IfOk result (λ made.
        option_map mended_view made ≡ preset_in_place left_out name.now value.now) }
{
    let Some(kind) = preset_kind(left_out) else {
        return Ok(None);
    };
    let value = attempt!(left_out.value_in_place(alloc, value));
    with_value(alloc, kind, name, value)
}

// a line of an entry whose type is left out
fn in_place(
    alloc: Global,
    left_out: LeftOut,
    name: &[u8],
    value: &[u8],
) -> Result<Option<Mended>, AllocError>
    ensures { IfOk result (λ made.
        option_map mended_view made ≡ in_place left_out name.now value.now) }
{
    if same_name(name, b"DataType") {
        let new = attempt!(type_lines(alloc, left_out, name));
        let kind = ChangeKind::DataType;
        Ok(Some(Mended { kind, new }))
    } else if is_limit(name) && left_out.is_real() {
        let new = Vec::new(alloc);
        let kind = ChangeKind::RealLimit;
        Ok(Some(Mended { kind, new }))
    } else if is_preset(name) {
        preset_in_place(alloc, left_out, name, value)
    } else {
        Ok(None)
    }
}

// a number with its sign extended, in the bytes of its type
fn extended_change(
    alloc: Global,
    data_type: DataType,
    name: &[u8],
    value: &[u8],
) -> Result<Option<Mended>, AllocError>
    ensures { IfOk result (λ made.
        option_map mended_view made ≡ extended_change data_type name.now value.now) }
{
    let value = attempt!(sign_extended(alloc, data_type, value));
    with_value(alloc, ChangeKind::SignExtended, name, value)
}

// a value of an entry of a supported type
fn preset_at_type(
    alloc: Global,
    data_type: DataType,
    name: &[u8],
    value: &[u8],
) -> Result<Option<Mended>, AllocError>
    ensures { IfOk result (λ made.
        option_map mended_view made ≡ preset_at_type data_type name.now value.now) }
{
    if data_type == DataType::OctetString {
        let value = attempt!(pairs_without_blanks(alloc, value));
        with_value(alloc, ChangeKind::OctetBlanks, name, value)
    } else {
        extended_change(alloc, data_type, name, value)
    }
}

// the same, or a limit with its sign extended
fn number_at_type(
    alloc: Global,
    has_extended_low: bool,
    data_type: DataType,
    name: &[u8],
    value: &[u8],
) -> Result<Option<Mended>, AllocError>
    ensures { IfOk result (λ made. option_map mended_view made
        ≡ number_at_type has_extended_low data_type name.now value.now) }
{
    if is_preset(name) {
        preset_at_type(alloc, data_type, name, value)
    } else if is_extended_limit(has_extended_low, data_type, name, value) {
        extended_change(alloc, data_type, name, value)
    } else {
        Ok(None)
    }
}

/// What a name and its value become in the section of an entry, where they don't stay as they are.
pub(crate) fn entry_change(
    alloc: Global,
    facts: &Facts,
    name: &[u8],
    value: &[u8],
) -> Result<Option<Mended>, AllocError>
    ensures { IfOk result (λ made.
        option_map mended_view made ≡ entry_change facts.now name.now value.now) }
{
    if let Some(left_out) = facts.left_out {
        return in_place(alloc, left_out, name, value);
    }
    if is_limit(name) && facts.has_unsigned_limits {
        let new = Vec::new(alloc);
        let kind = ChangeKind::UnsignedLimit;
        return Ok(Some(Mended { kind, new }));
    }
    match facts.data_type {
        Some(data_type) => number_at_type(alloc, facts.has_extended_low, data_type, name, value),
        None => Ok(None),
    }
}
