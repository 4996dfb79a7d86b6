//! The values that a sheet states (CiA 306, object description, device configuration file). Each
//! function with a text appends to it. `Err`: out of memory; a part of the text may be there.

ghost use Rattle.std.specs.Prelude.{
  ◌≡◌,
  ◌++◌,
  ◌≤◌,
  OnOk,
  option_map,
  string_bytes,
};
ghost use Rattle.co_sheet_text.specs.Views.{property_view, section_view};
ghost use Rattle.co_sheet.specs.Views.{default_view};
ghost use Rattle.conode_show_text.specs.Phrases.{phrase_text, piece_text};
ghost use Rattle.conode_show_text.specs.Values.{
  default_text,
  has_both,
  known_text,
  if_in_type,
  limit_in_type,
  limit_number,
  limit_text,
  limits_text,
  number_for,
  numeric_value,
  property_value,
  small_number,
  sum_for,
  sum_text,
  type_of,
  unnumbered_text,
  value_at,
  value_number,
  value_of,
  word_from,
  word_of,
};

use crate::numbers::{number_of, sum_of, words_if};
use crate::phrase::{Phrase, Piece, alone, push_phrase, with_one};
use co_sheet::{data_type_with, is_in_type, numeric_default};
use co_sheet_rows::Preset;
use co_sheet_text::{Property, TextSection, signed_numeral};
use co_value::DataType;
use std::alloc::AllocError;

/// A number of the communication profile, of at most 32 bits.
#[derive(Clone, Copy)]
pub struct Word {
    /// Whether the node-ID has to be added.
    pub relative: bool,
    /// The number; without the node-ID, if that has to be added.
    pub number: u64,
}

// a numeric text as a value, `Absent` if it isn't one
fn numeric_value(data_type: DataType, text: &[u8]) -> Preset<'static>
    ensures { default_view result ≡ numeric_value data_type text.now }
{
    match numeric_default(data_type, text) {
        Ok(value) => value,
        Err(_) => Preset::Absent,
    }
}

// the value of a sum for a node, if it is one of the type
fn sum_for(data_type: DataType, node: Option<u8>, addend: u64) -> Option<i128>
    ensures { result ≡ sum_for data_type node addend }
{
    let Some(node_id) = node else {
        return None;
    };
    let sum = addend as i128 + node_id as i128;
    if is_in_type(data_type, sum) {
        Some(sum)
    } else {
        None
    }
}

// a sum with the node-ID as it is written, and its value of so many bytes for a given node
#[tactic(auto, unfolding(crate::specs::Values::sum_text))]
fn sum(data_type: DataType, node: Option<u8>, width: usize, addend: u64) -> Phrase<'static>
    requires { width ≤ 8 }
    ensures { phrase_text result ≡ sum_text data_type node width addend }
{
    match sum_for(data_type, node, addend) {
        Some(sum) => sum_of(width, addend, sum),
        None => alone(Piece::Sum(addend)),
    }
}

// a numeric value of so many bytes
#[tactic(auto, unfolding(crate::specs::Values::known_text))]
fn known<'p>(
    data_type: DataType,
    node: Option<u8>,
    width: usize,
    value: &'p [u8],
    known: Preset<'static>,
) -> Phrase<'p>
    requires { width ≤ 8 }
    ensures { phrase_text result
        ≡ known_text data_type node width value.now (default_view known.entry) }
{
    match known {
        Preset::Number(number) => number_of(width, number),
        Preset::NodeId(addend) => sum(data_type, node, width, addend),
        Preset::Absent | Preset::Text(_) | Preset::Pairs(_) => alone(Piece::Plain(value)),
    }
}

// a value of a type that isn't numeric
#[tactic(auto, unfolding(crate::specs::Values::unnumbered_text, crate::specs::Values::quoted, conode_text::specs::Filled::filled))]
fn unnumbered<'p>(data_type: DataType, value: &'p [u8]) -> Phrase<'p>
    ensures { phrase_text result ≡ unnumbered_text data_type value.now }
{
    if data_type.code() == DataType::VisibleString.code() {
        with_one("\"%\"", Piece::Plain(value))
    } else {
        alone(Piece::Plain(value))
    }
}

// a number, if it is one of the type
fn if_in_type(data_type: DataType, number: i128) -> Option<i128>
    ensures { result ≡ if_in_type data_type number }
{
    if is_in_type(data_type, number) {
        Some(number)
    } else {
        None
    }
}

fn number_for(data_type: DataType, node: Option<u8>, value: Preset<'static>) -> Option<i128>
    ensures { result ≡ number_for data_type node (default_view value.entry) }
{
    match value {
        Preset::Number(number) => if_in_type(data_type, number),
        Preset::NodeId(addend) => sum_for(data_type, node, addend),
        Preset::Absent | Preset::Text(_) | Preset::Pairs(_) => None,
    }
}

/// The number of a text, if the type is numeric and it is one of the type; a sum with the node-ID
/// needs the given node, and has to be one of the type.
pub fn value_number(node: Option<u8>, data_type: Option<DataType>, value: &[u8]) -> Option<i128>
    ensures { result ≡ value_number node data_type value.now }
{
    match data_type {
        Some(data_type) if data_type.width().is_some() => {
            number_for(data_type, node, numeric_value(data_type, value))
        }
        _ => None,
    }
}

/// The data type of a section, if its code is a supported one.
pub fn type_of(section: &TextSection<'_, '_>) -> Option<DataType>
    ensures { result ≡ type_of (section_view section.now) }
{
    match section.number_at(b"DataType") {
        Some(code) => data_type_with(code),
        None => None,
    }
}

// the value of a property, nothing if there is none
#[tactic(auto, unfolding(crate::specs::Values::property_value, crate::specs::Values::value_text))]
fn value_in<'p>(
    node: Option<u8>,
    data_type: Option<DataType>,
    property: Option<Property<'p>>,
) -> Phrase<'p>
    ensures { phrase_text result
        ≡ property_value node data_type (option_map property_view property.entry) }
{
    let Some(property) = property else {
        return alone(Piece::Nothing);
    };
    let value = property.value;
    let Some(data_type) = data_type else {
        return alone(Piece::Plain(value));
    };
    match data_type.width() {
        Some(width) => known(
            data_type,
            node,
            width,
            value,
            numeric_value(data_type, value),
        ),
        None => unnumbered(data_type, value),
    }
}

/// Appends words, and the value at a name of a section, nothing after them if it has none.
pub(crate) fn push_value(
    text: &mut String,
    node: Option<u8>,
    before: &str,
    section: &TextSection<'_, '_>,
    name: &[u8],
) -> Result<(), AllocError>
    ensures { OnOk result (string_bytes text.new ≡ string_bytes text.old ++ before.now
        ++ value_at node name.now (section_view section.now)) }
{
    attempt!(text.push_str(before));
    push_phrase(
        text,
        &value_in(node, type_of(section), section.property(name)),
    )
}

/// Whether a section has the value of a device configuration file, and a default too.
pub(crate) fn has_both(section: &TextSection<'_, '_>) -> bool
    ensures { result ≡ has_both (section_view section.now) }
{
    section.property(b"ParameterValue").is_some() && section.property(b"DefaultValue").is_some()
}

/// Appends the value of a device configuration file and then the default, or the one of them that
/// is there.
#[tactic(auto, unfolding(crate::specs::Values::default_text))]
pub(crate) fn push_default(
    text: &mut String,
    node: Option<u8>,
    section: &TextSection<'_, '_>,
) -> Result<(), AllocError>
    ensures { OnOk result (string_bytes text.new
        ≡ string_bytes text.old ++ default_text node (section_view section.now)) }
{
    let between = words_if(has_both(section), ", default ");
    attempt!(push_value(text, node, "", section, b"ParameterValue"));
    push_value(text, node, between, section, b"DefaultValue")
}

// the number of a limit as this type reads it, if it is a number
fn limit_number(data_type: Option<DataType>, value: &[u8]) -> Option<i128>
    ensures { result ≡ limit_number data_type value.now }
{
    match (signed_numeral(value), data_type) {
        (Ok(numeral), Some(data_type)) => Some(numeral.value_at(data_type)),
        _ => None,
    }
}

/// The number of a limit, if it is one of this type.
pub fn limit_in_type(data_type: Option<DataType>, value: &[u8]) -> Option<i128>
    ensures { result ≡ limit_in_type data_type value.now }
{
    match (limit_number(data_type, value), data_type) {
        (Some(number), Some(data_type)) => if_in_type(data_type, number),
        _ => None,
    }
}

#[tactic(auto, unfolding(crate::specs::Values::limit_text))]
fn limit<'p>(data_type: Option<DataType>, limit: Option<Property<'p>>) -> Piece<'p>
    ensures { piece_text result ≡ limit_text data_type (option_map property_view limit.entry) }
{
    let Some(limit) = limit else {
        return Piece::Nothing;
    };
    match limit_number(data_type, limit.value) {
        Some(number) => Piece::Signed(number),
        None => Piece::Plain(limit.value),
    }
}

/// Both limits, as `0..100`, nothing if there is neither.
#[tactic(auto, unfolding(crate::specs::Values::limits_text, conode_text::specs::Filled::filled))]
pub(crate) fn limits<'a>(section: &TextSection<'_, 'a>) -> Phrase<'a>
    ensures { phrase_text result ≡ limits_text (section_view section.now) }
{
    let data_type = type_of(section);
    let low = section.property(b"LowLimit");
    let high = section.property(b"HighLimit");
    let between = words_if(low.is_some() | high.is_some(), "..");
    let first = limit(data_type, low);
    let second: Piece<'a> = Piece::Words(between);
    let third = limit(data_type, high);
    let fourth: Piece<'a> = Piece::Nothing;
    Phrase {
        words: "%%%",
        first,
        second,
        third,
        fourth,
    }
}

/// The greatest number of the communication profile, of 32 bits.
const GREATEST_WORD: i128 = 0xFFFF_FFFF;

// a number of at most 32 bits as a word
fn word_from(relative: bool, number: i128) -> Option<Word>
    ensures { result ≡ word_from relative (small_number number) }
{
    if number < 0 || GREATEST_WORD < number {
        return None;
    }
    Some(Word {
        relative,
        number: number as u64,
    })
}

/// A text as a number of the communication profile, of at most 32 bits; with a node-ID, a sum is
/// added up.
pub(crate) fn word_of(node: Option<u8>, value: &[u8]) -> Option<Word>
    ensures { result ≡ word_of node value.now }
{
    match (numeric_value(DataType::Unsigned32, value), node) {
        (Preset::Number(number), _) => word_from(false, number),
        (Preset::NodeId(addend), None) => word_from(true, addend as i128),
        (Preset::NodeId(addend), Some(node_id)) => {
            word_from(false, addend as i128 + node_id as i128)
        }
        (Preset::Absent | Preset::Text(_) | Preset::Pairs(_), _) => None,
    }
}

/// The property with the value that an entry begins with: ParameterValue, or else DefaultValue.
pub(crate) fn value_of<'a>(section: &TextSection<'_, 'a>) -> Option<Property<'a>>
    ensures { option_map property_view result ≡ value_of (section_view section.now) }
{
    match section.property(b"ParameterValue") {
        Some(property) => Some(property),
        None => section.property(b"DefaultValue"),
    }
}
