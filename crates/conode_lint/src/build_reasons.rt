//! Which of several a build fault is, by what the sheet has there.

ghost use Rattle.std.specs.Prelude.{◌≡◌, map};
ghost use Rattle.co_sheet_text.specs.Views.{section_view};
ghost use Rattle.co_sheet.specs.Limits.{numeric_default};
ghost use Rattle.conode_lint.specs.BuildReasons.{
  has_bit_30,
  is_communication,
  lacks_sub,
  meaning_in,
  pair_meaning,
  subs_meaning,
  sum_of,
  sum_with,
  word_meaning,
  word_of,
};
ghost use Rattle.conode_lint.specs.BuildWords.{is_sync};

use crate::build_words::build_meaning;
use co_dict::is_restricted;
use co_dict_build::BuildFault;
use co_profile::IndexRange;
use co_sheet::{Preset, numeric_default, section_at};
use co_sheet_text::{SectionKind, TextSection, unsigned_number};
use co_sheet_text_warnings::own_node;
use co_value::{DataType, Key};
use conode_lint_text::{is_listed_nowhere, key_value};

// a number of 32 bits, and a node-ID that is known, are a word
fn sum_with(node: Option<u8>, number: u64) -> Option<u64>
    ensures { result ≡ sum_with node number }
{
    match node {
        Some(node_id) if number <= 0xFFFF_FFFF => Some(node_id as u64 + number),
        _ => None,
    }
}

// the word of a sum with the node-ID
fn sum_of(node: Option<u8>, value: &[u8]) -> Option<u64>
    ensures { result ≡ sum_of node (numeric_default DataType.Unsigned32 value.now) }
{
    match numeric_default(DataType::Unsigned32, value) {
        Ok(Preset::NodeId(number)) => sum_with(node, number),
        _ => None,
    }
}

// the COB-ID word that a value states
fn word_of(node: Option<u8>, value: &[u8]) -> Option<u64>
    ensures { result ≡ word_of node value.now }
{
    match unsigned_number(value) {
        Ok(number) => Some(number),
        Err(_) => sum_of(node, value),
    }
}

fn has_bit_30(word: u64) -> bool
    ensures { result ≡ has_bit_30 word }
{
    word / 0x4000_0000 % 2 == 1
}

// what is wrong with a word that isn't allowed; of SYNC's bit 30 too
fn word_meaning(is_sync: bool, word: u64) -> &'static str
    ensures { result.now ≡ word_meaning is_sync word }
{
    if is_sync && has_bit_30(word) {
        "bit 30 of the COB-ID is set: the device sends SYNC"
    } else if word / 0x800 % 0x8_0000 != 0 {
        "the COB-ID has more than 11 bits"
    } else if is_restricted((word % 0x800) as u16) {
        "the COB-ID is reserved"
    } else {
        "the COB-ID belongs to an SDO channel"
    }
}

fn is_communication(index: u16) -> bool
    ensures { result ≡ is_communication index }
{
    IndexRange::RPDO_COMMUNICATION.contains(index) || IndexRange::TPDO_COMMUNICATION.contains(index)
}

fn lacks_sub(sections: &[TextSection<'_, '_>], index: u16, sub: u8) -> bool
    ensures { result ≡ lacks_sub (map section_view sections.now) index sub }
{
    match section_at(sections, SectionKind::SubIndex(Key { index, sub })) {
        Some(_) => false,
        None => true,
    }
}

// what a communication parameter lacks of sub-indices 1 and 2
fn subs_meaning(first: bool, second: bool, other: &'static str) -> &'static str
    ensures { result.now ≡ subs_meaning first second other.now }
{
    match (first, second) {
        (true, true) => "the PDO lacks sub-indices 1 and 2, its COB-ID and its transmission type",
        (true, false) => "the PDO lacks sub-index 1, its COB-ID",
        (false, true) => "the PDO lacks sub-index 2, its transmission type",
        (false, false) => other,
    }
}

// what a PDO lacks, by its object without its other one or an entry
fn pair_meaning(sections: &[TextSection<'_, '_>], index: u16, other: &'static str) -> &'static str
    ensures { result.now ≡ pair_meaning (map section_view sections.now) index other.now }
{
    if is_communication(index) {
        if is_listed_nowhere(sections, index as u64 + 0x200) {
            "no list names the mapping parameter of this PDO"
        } else {
            let first = lacks_sub(sections, index, 1);
            subs_meaning(first, lacks_sub(sections, index, 2), other)
        }
    } else if is_listed_nowhere(sections, index.saturating_sub(0x200) as u64) {
        "no list names the communication parameter of this PDO"
    } else {
        other
    }
}

fn is_sync(key: Key) -> bool
    ensures { result ≡ is_sync key }
{
    key.index == 0x1005
}

// what is wrong with the word of a line with this text
fn cob_id_meaning(
    node: Option<u8>,
    sections: &[TextSection<'_, '_>],
    text: &[u8],
    key: Key,
) -> &'static str
    ensures { result.now ≡ meaning_in node (map section_view sections.now) text.now
        (BuildFault.BadCobId key) }
{
    match word_of(own_node(node, sections), key_value(text)) {
        Some(word) => word_meaning(is_sync(key), word),
        None => build_meaning(BuildFault::BadCobId(key)),
    }
}

/// What is wrong, in one line, at a line with this text, by the given node-ID, or else the sheet's
/// own.
pub(crate) fn meaning_in(
    node: Option<u8>,
    sections: &[TextSection<'_, '_>],
    text: &[u8],
    fault: BuildFault,
) -> &'static str
    ensures { result.now ≡ meaning_in node (map section_view sections.now) text.now fault }
{
    match fault {
        BuildFault::BadCobId(key) => cob_id_meaning(node, sections, text, key),
        BuildFault::PdoPair(index) => pair_meaning(sections, index, build_meaning(fault)),
        _ => build_meaning(fault),
    }
}
