//! The node-IDs for which a sum with `$NODEID` is within its type and its limits.

ghost use Rattle.std.specs.Prelude.{◌≡◌, map, option_and_then};
ghost use Rattle.std.specs.Option.{option_map_or};
ghost use Rattle.std.specs.Result.{result_ok};
ghost use Rattle.co_sheet_text.specs.Views.{section_view};
ghost use Rattle.co_sheet.specs.Limits.{numeric_default};
ghost use Rattle.conode_lint_text.specs.Sums.{
  addend_of,
  first_from,
  first_node,
  last_node,
  last_to,
  nodes_of,
  sum_in,
  value_range,
};

use crate::bounds::{bound_at, numeric_type};
use crate::facts::section_before;
use crate::finding::About;
use crate::line_facts::key_value;
use co_sheet::{Preset, numeric_default};
use co_sheet_text::TextSection;
use co_value::{DataType, Key};

// the last node-ID with which a sum is at most a number, 0 if there is none
fn last_to(addend: u64, most: i128) -> u8
    ensures { result ≡ last_to addend most }
{
    if most < 0 {
        return 0;
    }
    (most as u128).saturating_sub(addend as u128).min(127) as u8
}

// the first with which it is at least a number, 128 if there is none
fn first_from(addend: u64, least: i128) -> u8
    ensures { result ≡ first_from addend least }
{
    if least < 0 {
        return 1;
    }
    (least as u128)
        .saturating_sub(addend as u128)
        .min(128)
        .max(1) as u8
}

// the last by the type and HighLimit
fn last_node(data_type: DataType, section: &TextSection<'_, '_>, addend: u64) -> u8
    ensures { result ≡ last_node data_type (section_view section.now) addend }
{
    let of_type = match data_type.greatest() {
        Some(greatest) => last_to(addend, greatest),
        None => 127,
    };
    match bound_at(data_type, b"HighLimit", section) {
        Some(high) => of_type.min(last_to(addend, high.number)),
        None => of_type.min(127),
    }
}

// the first by LowLimit
fn first_node(data_type: DataType, section: &TextSection<'_, '_>, addend: u64) -> u8
    ensures { result ≡ first_node data_type (section_view section.now) addend }
{
    match bound_at(data_type, b"LowLimit", section) {
        Some(low) => first_from(addend, low.number),
        None => 1,
    }
}

fn nodes_of(key: Key, first: u8, last: u8) -> About
    ensures { result ≡ nodes_of key first last }
{
    if first <= last {
        About::Sum(key.index, key.sub, first, last)
    } else {
        About::NoSum(key.index, key.sub)
    }
}

// the number in a sum
fn addend_of(data_type: DataType, value: &[u8]) -> Option<u64>
    ensures { result ≡ option_and_then addend_of (result_ok (numeric_default data_type value.now)) }
{
    match numeric_default(data_type, value) {
        Ok(Preset::NodeId(addend)) => Some(addend),
        _ => None,
    }
}

fn sum_in(key: Key, section: &TextSection<'_, '_>, text: &[u8]) -> About
    ensures { result ≡ sum_in key text.now (section_view section.now) }
{
    let Some(data_type) = numeric_type(section) else {
        return About::Entry(key.index, key.sub);
    };
    match addend_of(data_type, key_value(text)) {
        Some(addend) => nodes_of(
            key,
            first_node(data_type, section, addend),
            last_node(data_type, section, addend),
        ),
        None => About::Entry(key.index, key.sub),
    }
}

/// Of the ValueRange of an entry, at the line of its value: the node-IDs for which it is none.
pub fn value_range(key: Key, sections: &[TextSection<'_, '_>], line: usize, text: &[u8]) -> About
    ensures { result ≡ value_range key line (map section_view sections.now) text.now }
{
    match section_before(sections, line) {
        Some(section) => sum_in(key, section, text),
        None => About::Entry(key.index, key.sub),
    }
}
