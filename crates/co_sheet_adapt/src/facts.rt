//! What a section says of its entry, as far as changes of its lines depend on it.

ghost use Rattle.std.specs.Prelude.{◌≡◌};
ghost use Rattle.std.specs.Option.{option_copied};
ghost use Rattle.co_sheet_adapt.specs.Facts.{
  object_code,
  compact_count,
  is_entry,
  converts,
  left_out_of,
  facts_of,
};
ghost use Rattle.co_sheet_adapt.specs.Expanded.{facts_as_written};
ghost use Rattle.co_sheet_changes.specs.Views.{group_view};

use crate::left_out::LeftOut;
use co_sheet_changes::{Group, data_type_of, has_extended_low, has_unsigned_limits};
use co_sheet_text::{SectionKind, unsigned_number};
use co_value::DataType;

/// What the changes of a section's lines depend on.
#[derive(Clone, Copy)]
pub(crate) struct Facts {
    /// Of an ARRAY or a RECORD in compact form, how many sub-indices it has after sub-index 0.
    pub(crate) compact: Option<u8>,
    /// Whether the section describes an entry, or all sub-indices of an object in compact form.
    pub(crate) is_entry: bool,
    /// Its data type, if that isn't supported and its values can be converted.
    pub(crate) left_out: Option<LeftOut>,
    /// Its data type, if that is supported.
    pub(crate) data_type: Option<DataType>,
    /// Whether the limits of a signed number are those of the unsigned type.
    pub(crate) has_unsigned_limits: bool,
    /// Whether its LowLimit is a negative number.
    pub(crate) has_extended_low: bool,
}

fn object_code(group: &Group) -> Option<u64>
    ensures { result ≡ object_code (group_view group.now) }
{
    match group.value(b"ObjectType") {
        Some(value) => unsigned_number(value).ok(),
        None => Some(7),
    }
}

// how many sub-indices a compact form has
fn compact_count(group: &Group) -> Option<u8>
    ensures { result ≡ compact_count (group_view group.now) }
{
    match (group.kind, object_code(group)) {
        (SectionKind::Object(_), Some(8 | 9)) => match group.number(b"CompactSubObj") {
            Some(number @ 1..=254) => Some(number as u8),
            _ => None,
        },
        _ => None,
    }
}

fn is_entry(group: &Group) -> bool
    ensures { result ≡ is_entry (group_view group.now) }
{
    match group.kind {
        SectionKind::SubIndex(_) => true,
        SectionKind::Object(_) => {
            matches!(object_code(group), Some(2 | 7)) || compact_count(group).is_some()
        }
        _ => false,
    }
}

fn converts(left_out: LeftOut, value: Option<&[u8]>) -> bool
    ensures { result ≡ converts left_out (option_copied value.entry) }
{
    match value {
        Some(value) => left_out.converts(value),
        None => true,
    }
}

fn left_out_of(group: &Group) -> Option<LeftOut>
    ensures { result ≡ left_out_of (group_view group.now) }
{
    let Some(code) = group.number(b"DataType") else {
        return None;
    };
    let Some(left_out) = LeftOut::with(code) else {
        return None;
    };
    if converts(left_out, group.value(b"DefaultValue"))
        && converts(left_out, group.value(b"ParameterValue"))
    {
        Some(left_out)
    } else {
        None
    }
}

impl Facts {
    /// What a section says.
    pub(crate) fn of(group: &Group) -> Facts
        ensures { result ≡ facts_of (group_view group.now) }
    {
        Facts {
            compact: compact_count(group),
            is_entry: is_entry(group),
            left_out: left_out_of(group),
            data_type: data_type_of(group),
            has_unsigned_limits: has_unsigned_limits(group),
            has_extended_low: has_extended_low(group),
        }
    }

    /// What it says, where no type and no value is changed.
    pub(crate) fn as_written(group: &Group) -> Facts
        ensures { result ≡ facts_as_written (group_view group.now) }
    {
        Facts {
            compact: compact_count(group),
            is_entry: is_entry(group),
            left_out: None,
            data_type: None,
            has_unsigned_limits: false,
            has_extended_low: false,
        }
    }
}
