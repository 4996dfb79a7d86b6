//! Values of the communication profile that don't work together.

ghost use Rattle.std.specs.Prelude.{◌≡◌, map, option_map, option_to_list};
ghost use Rattle.co_sheet.specs.SectionViews.{entry_view};
ghost use Rattle.co_sheet.specs.Views.{default_view};
ghost use Rattle.co_sheet_text.specs.Views.{property_view, section_view};
ghost use Rattle.co_sheet_warnings.specs.Communication.{
  consumes,
  consumes_before,
  heartbeat_twice,
  inhibit_time,
  is_consumed_twice,
  is_disabled,
  is_some_time,
  is_synchronous,
  is_used_word,
  node_of_word,
  number_at_sub,
  own_heartbeat,
  value_at_sub,
  word_of,
  word_of_default,
  word_with,
};

use crate::sub_indices::value_in;
use co_sheet::{EntrySection, Preset, numeric_default};
use co_sheet_text::{Property, SectionKind, TextSection};
use co_sheet_text_warnings::{ReadText, is_within};
use co_value::DataType;

// what the entry at a sub-index of an object begins with
fn value_at_sub<'a>(parts: &[EntrySection<'_, 'a>], sub: u8) -> Option<Property<'a>>
    ensures { option_map property_view result ≡ value_at_sub sub (map entry_view parts.now) }
{
    for part in parts {
        if part.key.sub == sub {
            return value_in(part.section);
        }
    }
    None
}

/// The number at a sub-index of an object.
pub(crate) fn number_at_sub(parts: &[EntrySection], sub: u8) -> Option<u64>
    ensures { result ≡ number_at_sub sub (map entry_view parts.now) }
{
    match value_at_sub(parts, sub) {
        Some(given) => given.number(),
        None => None,
    }
}

// whether the COB-ID of a PDO has bit 31, also one that is a sum with `$NODEID`
fn is_disabled(parts: &[EntrySection]) -> bool
    ensures { result ≡ is_disabled (map entry_view parts.now) }
{
    let Some(given) = value_at_sub(parts, 1) else {
        return false;
    };
    match word_of(Some(0), &given) {
        Some(word) => word >= 0x8000_0000,
        None => false,
    }
}

fn is_synchronous(transmission: u64) -> bool
    ensures { result ≡ is_synchronous transmission }
{
    transmission <= 240 || transmission == 252
}

fn is_some_time(time: u64) -> bool
    ensures { result ≡ is_some_time time }
{
    0 < time
}

/// The line of an inhibit time above 0 of a synchronous TPDO that is used.
pub(crate) fn inhibit_time(text: &ReadText, section: &TextSection) -> Option<usize>
    ensures { option_to_list result
        ≡ inhibit_time text.now.sections (section_view section.now) section.now.kind }
{
    match section.kind {
        SectionKind::SubIndex(key) => {
            if key.sub != 3 || !is_within(0x1800, 0x19FF, key.index) {
                return None;
            }
            let parts = text.parts(key.index);
            if is_disabled(parts) {
                return None;
            }
            let Some(transmission) = number_at_sub(parts, 2) else {
                return None;
            };
            let Some(given) = value_in(section) else {
                return None;
            };
            match given.number() {
                Some(time) if is_synchronous(transmission) && is_some_time(time) => {
                    Some(given.line)
                }
                _ => None,
            }
        }
        _ => None,
    }
}

/// Bits 23 to 16 of a word of 1016h
pub(crate) fn node_of_word(word: u64) -> u64
    ensures { result ≡ node_of_word word }
{
    word / 65536 % 256
}

/// Whether a word of 1016h is used: bits 15 to 0 have a time, and its node-ID is one
pub(crate) fn is_used_word(word: u64) -> bool
    ensures { result ≡ is_used_word word }
{
    word % 65536 != 0 && (1..=127).contains(&node_of_word(word))
}

fn consumes(node: u64, word: u64) -> bool
    ensures { result ≡ consumes node word }
{
    is_used_word(word) && node_of_word(word) == node
}

// a number of 32 bits
fn word_with(number: i128) -> Option<u64>
    ensures { result ≡ word_with number }
{
    if 0 <= number && number < 0x1_0000_0000 {
        Some(number as u64)
    } else {
        None
    }
}

fn word_of_default(node: Option<u8>, preset: Preset) -> Option<u64>
    ensures { result ≡ word_of_default node (default_view preset.entry) }
{
    match preset {
        Preset::Number(number) => word_with(number),
        Preset::NodeId(addend) => match node {
            Some(node_id) => word_with(addend as i128 + node_id as i128),
            None => None,
        },
        _ => None,
    }
}

/// The word of a value; a sum with `$NODEID` is one for a node-ID alone
pub(crate) fn word_of(node: Option<u8>, given: &Property) -> Option<u64>
    ensures { result ≡ word_of node (property_view given.now) }
{
    match numeric_default(DataType::Unsigned32, given.value) {
        Ok(preset) => word_of_default(node, preset),
        Err(_) => None,
    }
}

/// The line of a word of 1016h for the device's own node.
pub(crate) fn own_heartbeat(node: Option<u8>, section: &TextSection) -> Option<usize>
    ensures { option_to_list result
        ≡ own_heartbeat node (section_view section.now) section.now.kind }
{
    match (node, section.kind) {
        (Some(node), SectionKind::SubIndex(key)) => {
            if key.index != 0x1016 || key.sub == 0 {
                return None;
            }
            let Some(given) = value_in(section) else {
                return None;
            };
            match word_of(Some(node), &given) {
                Some(word) if consumes(node as u64, word) => Some(given.line),
                _ => None,
            }
        }
        _ => None,
    }
}

fn consumes_before(node: Option<u8>, entry: &EntrySection, sub: u8, word: u64) -> bool
    ensures { result ≡ consumes_before node sub word (entry_view entry.now) }
{
    if entry.key.sub == 0 || sub <= entry.key.sub {
        return false;
    }
    let Some(given) = value_in(entry.section) else {
        return false;
    };
    match word_of(node, &given) {
        Some(other) => consumes(node_of_word(word), other),
        None => false,
    }
}

fn is_consumed_twice(node: Option<u8>, parts: &[EntrySection], sub: u8, word: u64) -> bool
    ensures { result ≡ is_consumed_twice node (map entry_view parts.now) sub word }
{
    if !is_used_word(word) {
        return false;
    }
    for part in parts {
        if consumes_before(node, part, sub, word) {
            return true;
        }
    }
    false
}

/// The line of a word of 1016h for a node that a smaller sub-index has too.
pub(crate) fn heartbeat_twice(
    text: &ReadText,
    node: Option<u8>,
    section: &TextSection,
) -> Option<usize>
    ensures { option_to_list result
        ≡ heartbeat_twice node text.now.sections (section_view section.now) section.now.kind }
{
    match section.kind {
        SectionKind::SubIndex(key) => {
            if key.index != 0x1016 {
                return None;
            }
            let Some(given) = value_in(section) else {
                return None;
            };
            match word_of(node, &given) {
                Some(word) if is_consumed_twice(node, text.parts(key.index), key.sub, word) => {
                    Some(given.line)
                }
                _ => None,
            }
        }
        _ => None,
    }
}
