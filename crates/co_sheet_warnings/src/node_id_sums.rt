//! Sums with `$NODEID` that are no value of their entry for any node-ID.

ghost use Rattle.std.specs.Prelude.{◌≡◌, option_to_list};
ghost use Rattle.co_sheet_text.specs.Views.{section_view};
ghost use Rattle.co_sheet_warnings.specs.NodeIdSums.{
  is_above,
  is_below,
  is_never_permitted,
  limit_in,
  node_id_sum,
  sum_in,
};

use crate::limits::type_at;
use crate::sub_indices::value_in;
use co_sheet::{Preset, at_most, numeric_default};
use co_sheet_text::{TextSection, signed_numeral};
use co_value::DataType;

// the limit that a section states at a key, as its type reads it
fn limit_in(section: &TextSection, name: &[u8], data_type: DataType) -> Option<i128>
    ensures { result ≡ limit_in name.now data_type (section_view section.now) }
{
    let Some(given) = section.property(name) else {
        return None;
    };
    match signed_numeral(given.value) {
        Ok(numeral) => Some(numeral.value_at(data_type)),
        Err(_) => None,
    }
}

// whether a number is above what the type and the limits permit
fn is_above(section: &TextSection, data_type: DataType, number: i128) -> bool
    ensures { result ≡ is_above data_type (section_view section.now) number }
{
    !(at_most(Some(number), data_type.greatest())
        && at_most(Some(number), limit_in(section, b"HighLimit", data_type)))
}

// whether it is below that
fn is_below(section: &TextSection, data_type: DataType, number: i128) -> bool
    ensures { result ≡ is_below data_type (section_view section.now) number }
{
    !(at_most(data_type.least(), Some(number))
        && at_most(limit_in(section, b"LowLimit", data_type), Some(number)))
}

// whether a sum is permitted for no node-ID from 1 to 127
fn is_never_permitted(section: &TextSection, data_type: DataType, addend: u64) -> bool
    ensures { result ≡ is_never_permitted data_type (section_view section.now) addend }
{
    is_above(section, data_type, addend as i128 + 1)
        || is_below(section, data_type, addend as i128 + 127)
}

// the line of such a sum in a section of this type
fn sum_in(section: &TextSection, data_type: DataType) -> Option<usize>
    ensures { option_to_list result ≡ sum_in (section_view section.now) data_type }
{
    if data_type.width().is_none() {
        return None;
    }
    let Some(given) = value_in(section) else {
        return None;
    };
    match numeric_default(data_type, given.value) {
        Ok(Preset::NodeId(addend)) if is_never_permitted(section, data_type, addend) => {
            Some(given.line)
        }
        _ => None,
    }
}

/// The line of a sum with `$NODEID` that is outside its type or its limits for every node-ID; none,
/// if the node-ID is known.
pub(crate) fn node_id_sum(node: Option<u8>, section: &TextSection) -> Option<usize>
    ensures { option_to_list result ≡ node_id_sum node (section_view section.now) }
{
    if node.is_some() {
        return None;
    }
    match type_at(section) {
        Some(data_type) => sum_in(section, data_type),
        None => None,
    }
}
