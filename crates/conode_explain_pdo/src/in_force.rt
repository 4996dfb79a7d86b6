//! The mapping of a PDO that is in force, and what its data say.

ghost use Rattle.std.specs.Prelude.{◌≡◌, ◌≤◌, ◌++◌, OnOk, length, option_map, string_bytes, take};
ghost use Rattle.std.specs.List.{list_all};
ghost use Rattle.std.specs.Option.{option_copied};
ghost use Rattle.conode_explain_cob_ids.specs.Buses.{bus_view};
ghost use Rattle.conode_explain_cob_ids.specs.Origins.{is_from};
ghost use Rattle.conode_explain_pdo.specs.InForce.{
  assumed_text,
  count_in_force,
  data_in_force,
  digits_of,
  is_count,
  known_text,
  mapping_in_force,
  mapping_with,
  origin_words,
  raw_text,
  shown_text,
  unknown_text,
  word_count,
  word_in_force,
  words_in_force,
};

use crate::mapping::{Mapping, push_data};
use arrayvec::ArrayVec;
use co_text::push_bytes;
use conode_explain_cob_ids::{
    Bus, Origin, SheetMapping, is_assumed, is_from, number_by, sheet_count, sheet_word, value_at,
};
use conode_explain_entries::{PdoState, Value};
use conode_text::{Value as Filling, push_filled};
use std::alloc::AllocError;

fn count_in_force(values: &[Value], sheet: Option<&SheetMapping>) -> Option<u8>
    ensures { result ≡ count_in_force values.now (option_copied sheet.entry) }
{
    match number_by(sheet_count(sheet), value_at(values, 0)) {
        Some(count) => Some((count % 256) as u8),
        None => None,
    }
}

fn word_in_force(values: &[Value], sheet: Option<&SheetMapping>, place: u8) -> Option<u32>
    ensures { result ≡ word_in_force values.now (option_copied sheet.entry) place }
{
    number_by(
        sheet_word(sheet, place),
        value_at(values, place as usize + 1),
    )
}

// the first words, if all of them are known
#[tactic(auto, unfolding(crate::specs::InForce::words_in_force), using(crate::proofs::Words::none_until))]
fn words_in_force(
    values: &[Value],
    sheet: Option<&SheetMapping>,
    count: u8,
) -> Option<ArrayVec<u32, 64>>
    requires { count ≤ 64 }
    ensures { option_map (λ words. words.items) result
        ≡ words_in_force values.now (option_copied sheet.entry) count }
{
    let mut words = ArrayVec::new();
    for place in 0..count {
        match word_in_force(values, sheet, place) {
            Some(word) => words.push(word),
            None => return None,
        }
    }
    Some(words)
}

pub(crate) fn word_count(count: u8) -> u8
    ensures words { result ≡ word_count count }
    ensures few { result ≤ 64 }
{
    if count <= 64 { count } else { 0 }
}

// whether a count means something
fn is_count(count: u8) -> bool
    ensures { result ≡ is_count count }
{
    count <= 64 || 0xFE <= count
}

fn mapping_with(values: &[Value], sheet: Option<&SheetMapping>, count: u8) -> Option<Mapping>
    ensures { result ≡ mapping_with values.now (option_copied sheet.entry) count }
{
    if !is_count(count) {
        return None;
    }
    match words_in_force(values, sheet, word_count(count)) {
        Some(words) => Some(Mapping { count, words }),
        None => None,
    }
}

#[tactic(auto, unfolding(crate::specs::InForce::mapping_in_force))]
pub(crate) fn mapping_in_force(values: &[Value], sheet: Option<&SheetMapping>) -> Option<Mapping>
    ensures { result ≡ mapping_in_force values.now (option_copied sheet.entry) }
{
    match count_in_force(values, sheet) {
        Some(count) => mapping_with(values, sheet, count),
        None => None,
    }
}

fn are_from(origin: Origin, values: &[Value]) -> bool
    ensures { result ≡ list_all (is_from origin) values.now }
{
    for value in values {
        if !is_from(origin, *value) {
            return false;
        }
    }
    true
}

fn origin_words(values: &[Value]) -> &'static str
    ensures { result.now ≡ origin_words values.now }
{
    if are_from(Origin::Sheet, values) {
        return "";
    }
    if are_from(Origin::Transfer, values) {
        return " (mapping seen)";
    }
    if are_from(Origin::Store, values) {
        return " (mapping saved)";
    }
    " (mapping partly seen)"
}

// the first values, all if there are fewer
fn first_values(values: &[Value], count: usize) -> &[Value]
    ensures { result.now ≡ take count values.now }
{
    if count < values.len() {
        &values[..count]
    } else {
        values
    }
}

fn push_digits(text: &mut String, bytes: &[u8]) -> Result<(), AllocError>
    ensures { OnOk result (string_bytes text.new ≡ string_bytes text.old ++ digits_of bytes.now) }
{
    match bytes {
        [] => Ok(()),
        _ => {
            attempt!(text.push_str(" "));
            push_bytes(text, bytes)
        }
    }
}

#[tactic(auto, unfolding(crate::specs::InForce::raw_text))]
fn push_raw(text: &mut String, bytes: &[u8], why: &str) -> Result<(), AllocError>
    ensures { OnOk result (string_bytes text.new ≡ string_bytes text.old ++ raw_text bytes.now why.now) }
{
    attempt!(text.push_str(":"));
    attempt!(push_digits(text, bytes));
    push_filled(text, " (%)", &[Filling::Words(why)])
}

// by a mapping that isn't known
fn push_unknown(text: &mut String, assumed: bool, bytes: &[u8]) -> Result<(), AllocError>
    ensures { OnOk result
        (string_bytes text.new ≡ string_bytes text.old ++ unknown_text assumed bytes.now) }
{
    if assumed {
        return Ok(());
    }
    push_raw(text, bytes, "mapping is unknown")
}

// by the sheet's mapping: the recording shows nothing of it
fn push_assumed(
    text: &mut String,
    bus: Bus<'_, '_, '_, '_, '_>,
    node: u8,
    sheet: Option<&SheetMapping>,
    bytes: &[u8],
) -> Result<(), AllocError>
    requires { length bytes.now ≤ 8 }
    ensures { OnOk result (string_bytes text.new ≡ string_bytes text.old
        ++ assumed_text (bus_view bus.entry) node bytes.now (option_copied sheet.entry)) }
{
    match mapping_in_force(&[], sheet) {
        Some(mapping) => push_data(text, bus, node, &mapping, bytes),
        None => push_unknown(text, is_assumed(sheet, Value::Assumed), bytes),
    }
}

fn push_known(
    text: &mut String,
    bus: Bus<'_, '_, '_, '_, '_>,
    node: u8,
    values: &[Value],
    mapping: &Mapping,
    bytes: &[u8],
) -> Result<(), AllocError>
    requires { length bytes.now ≤ 8 }
    ensures { OnOk result (string_bytes text.new ≡ string_bytes text.old
        ++ known_text (bus_view bus.entry) node bytes.now values.now mapping.now) }
{
    let count = word_count(mapping.count) as usize;
    attempt!(text.push_str(origin_words(first_values(values, count + 1))));
    push_data(text, bus, node, mapping, bytes)
}

// by the mapping of which the recording shows something
#[tactic(auto, unfolding(crate::specs::InForce::shown_text))]
fn push_shown(
    text: &mut String,
    bus: Bus<'_, '_, '_, '_, '_>,
    node: u8,
    sheet: Option<&SheetMapping>,
    state: &PdoState,
    bytes: &[u8],
) -> Result<(), AllocError>
    requires { length bytes.now ≤ 8 }
    ensures { OnOk result (string_bytes text.new ≡ string_bytes text.old
        ++ shown_text (bus_view bus.entry) node bytes.now (option_copied sheet.entry) state.entry.now) }
{
    if state.is_being_changed {
        return push_raw(text, bytes, "mapping is being changed");
    }
    let values = state.now.mapping.as_slice();
    match mapping_in_force(values, sheet) {
        Some(mapping) => push_known(text, bus, node, values, &mapping, bytes),
        None => push_unknown(text, is_assumed(sheet, state.now.cob_id), bytes),
    }
}

/// Appends what the data of a node's PDO say by its mapping in force: the one that the recording
/// shows, else that of the data sheet. While the mapping is being changed, the data are raw, as `:
/// E8031027 (mapping is being changed)`: after a count of 0 or a word was written, until a count is
/// acknowledged. On an `Err` memory ran out, and a part of it may be there.
#[tactic(auto, unfolding(crate::specs::InForce::data_in_force))]
pub(crate) fn push_data_in_force(
    text: &mut String,
    bus: Bus<'_, '_, '_, '_, '_>,
    node: u8,
    sheet: Option<&SheetMapping>,
    state: Option<&PdoState>,
    bytes: &[u8],
) -> Result<(), AllocError>
    requires { length bytes.now ≤ 8 }
    ensures { OnOk result (string_bytes text.new ≡ string_bytes text.old
        ++ data_in_force (bus_view bus.entry) node bytes.now
        (option_copied sheet.entry) (option_copied state.entry)) }
{
    match state {
        Some(state) => push_shown(text, bus, node, sheet, state, bytes),
        None => push_assumed(text, bus, node, sheet, bytes),
    }
}
