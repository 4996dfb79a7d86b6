//! What a mapping says of data. Each function appends a text; on an `Err` memory ran out, and a
//! part of it may be there.

ghost use Rattle.std.specs.Prelude.{
  ◌≡◌,
  ◌+◌,
  ◌*◌,
  ◌/◌,
  ◌%◌,
  ◌^◌,
  ◌++◌,
  ◌≤◌,
  [],
  OnOk,
  is_some,
  length,
  option_map,
  string_bytes,
  take,
};
ghost use Rattle.std.specs.Option.{option_copied};
ghost use Rattle.co_value.specs.Numbers.{low_bytes, unsigned_of};
ghost use Rattle.co_sheet.specs.SheetViews.{row_view};
ghost use Rattle.conode_explain_cob_ids.specs.Buses.{bus_view};
ghost use Rattle.conode_explain_cob_ids.specs.Devices.{device_view};
ghost use Rattle.conode_explain_values.specs.Values.{HasBits};
ghost use Rattle.conode_explain_pdo.specs.Mappings.{
  address_text,
  addressed_row,
  addressed_text,
  addressing_word,
  all_text,
  bits_text,
  data_text,
  is_gap,
  mapped_text,
  missing_text,
  more_parts,
  more_text,
  multiplexed_data,
  multiplexed_key,
  multiplexed_text,
  multiplexed_value,
  named_text,
  node_text,
  part_bytes,
  part_text,
  parts_text,
  short_text,
  total_bits,
  unit_of,
  unnamed_text,
  with_bits,
  word_bits,
  word_key,
};

use crate::known_entry::push_known;
use arrayvec::ArrayVec;
use co_sheet::EntryRow;
use co_text::push_bytes;
use co_value::{DataType, Key, read_u16, unsigned_of};
use conode_explain_cob_ids::{Bus, Device};
use conode_text::{Value, push_filled};
use std::alloc::AllocError;
use std::marker::Model;

/// A mapping parameter of a PDO (CiA 301, 7.5.2.36 and 7.5.2.38).
/// Contracts see its sub-index 0, and its sub-indices from 1 on.
#[derive(Drop)]
pub struct Mapping {
    // how many entries are mapped, 0 to 64; FEh or FFh for a multiplexed PDO
    pub(crate) count: u8,
    // index, sub-index and length in bits of each entry
    pub(crate) words: ArrayVec<u32, 64>,
}

impl Model for Mapping {
    ghost use Rattle.conode_explain_pdo.specs.Content.{Mapping as MappingContent};

    ghost Value = { MappingContent };

    ghost view = { λ mapping. record { count = mapping.count; words = mapping.words.items } };
}

pub(crate) fn word_key(word: u32) -> Key
    ensures { result ≡ word_key word }
{
    Key {
        index: (word / 65536) as u16,
        sub: (word / 256 % 256) as u8,
    }
}

pub(crate) fn word_bits(word: u32) -> usize
    ensures { result ≡ word_bits word }
{
    (word % 256) as usize
}

pub(crate) fn total_bits(words: &[u32]) -> usize
    requires { length words.now ≤ 64 }
    ensures bits { result ≡ total_bits words.now }
    ensures few { result ≤ 255 * length words.now }
{
    let mut total = 0;
    for word in words {
        total += word_bits(*word);
    }
    total
}

fn is_gap(key: Key) -> bool
    ensures { result ≡ is_gap key }
{
    (0 < key.index && key.index < 0x20) && key.sub == 0
}

// the bits from an offset on
fn bits_from(number: u64, offset: usize, bits: usize) -> u64
    requires { offset + bits ≤ 64 }
    ensures { result ≡ number / 2 ^ offset % 2 ^ bits }
{
    if bits == 0 {
        return 0;
    }
    let rest = number >> offset;
    if bits == 64 {
        return rest;
    }
    rest % (1u64 << bits)
}

// the first bytes of a number
fn low_bytes(number: u64, count: usize) -> ArrayVec<u8, 8>
    requires { count ≤ 8 }
    ensures { result.items ≡ low_bytes count number }
{
    let mut bytes = ArrayVec::from(number.to_le_bytes());
    bytes.truncate(count);
    bytes
}

// the bits of data from an offset on
#[tactic(auto, unfolding(crate::specs::Mappings::part_bytes))]
pub(crate) fn part_bytes(bytes: &[u8], offset: usize, bits: usize) -> ArrayVec<u8, 8>
    requires few { length bytes.now ≤ 8 }
    requires within { offset + bits ≤ 64 }
    ensures bits { result.items ≡ part_bytes bytes.now offset bits }
    ensures count { HasBits bits result.items }
{
    low_bytes(bits_from(unsigned_of(bytes), offset, bits), (bits + 7) / 8)
}

fn push_bits(text: &mut String, bytes: &[u8]) -> Result<(), AllocError>
    ensures { OnOk result (string_bytes text.new ≡ string_bytes text.old ++ bits_text bytes.now) }
{
    if bytes.is_empty() {
        return Ok(());
    }
    attempt!(text.push_str(" = "));
    push_bytes(text, bytes)
}

#[tactic(auto, unfolding(crate::specs::Mappings::with_bits))]
fn push_with_bits(text: &mut String, key: Key, bytes: &[u8]) -> Result<(), AllocError>
    ensures { OnOk result
        (string_bytes text.new ≡ string_bytes text.old ++ with_bits key bytes.now) }
{
    attempt!(text.push_str(key.text().as_str()));
    push_bits(text, bytes)
}

fn has_sheet(device: Device<'_, '_>) -> bool
    ensures { result ≡ is_some (device_view device.entry).names.sheet }
{
    match device.names.sheet {
        Some(_) => true,
        None => false,
    }
}

// an entry without a name, with its bits, and whether the node's sheet lacks it
#[tactic(auto, unfolding(crate::specs::Mappings::missing_text))]
fn push_missing(
    text: &mut String,
    has_sheet: bool,
    key: Key,
    bytes: &[u8],
) -> Result<(), AllocError>
    ensures { OnOk result (string_bytes text.new
        ≡ string_bytes text.old ++ missing_text has_sheet key bytes.now) }
{
    attempt!(push_with_bits(text, key, bytes));
    if has_sheet {
        return text.push_str(" (not in sheet)");
    }
    Ok(())
}

// what a word says of the data from an offset on
#[tactic(auto, unfolding(crate::specs::Mappings::part_text))]
fn push_part(
    text: &mut String,
    device: Device<'_, '_>,
    node: u8,
    bytes: &[u8],
    offset: usize,
    word: u32,
) -> Result<(), AllocError>
    requires few { length bytes.now ≤ 8 }
    requires within { offset + word_bits word ≤ 64 }
    ensures { OnOk result (string_bytes text.new ≡ string_bytes text.old
        ++ part_text (device_view device.entry) node bytes.now offset word) }
{
    let key = word_key(word);
    if is_gap(key) {
        return text.push_str("-");
    }
    let bits = word_bits(word);
    let part = part_bytes(bytes, offset, bits);
    match device.names.entry(node, key) {
        Some(row) => push_known(text, device, node, key, row, bits, part.as_slice()),
        None => push_missing(text, has_sheet(device), key, part.as_slice()),
    }
}

// the parts from an offset on, each after a semicolon
#[tactic(auto, unfolding(crate::specs::Mappings::more_parts))]
fn push_more_parts(
    text: &mut String,
    device: Device<'_, '_>,
    node: u8,
    bytes: &[u8],
    start: usize,
    words: &[u32],
) -> Result<(), AllocError>
    requires few { length bytes.now ≤ 8 }
    requires within { start + total_bits words.now ≤ 64 }
    ensures { OnOk result (string_bytes text.new ≡ string_bytes text.old
        ++ more_parts (device_view device.entry) node bytes.now start words.now) }
{
    let mut offset = start;
    for word in words {
        attempt!(text.push_str("; "));
        attempt!(push_part(text, device, node, bytes, offset, *word));
        offset += word_bits(*word);
    }
    Ok(())
}

// the parts one after another
#[tactic(auto, unfolding(crate::specs::Mappings::parts_text))]
fn push_parts(
    text: &mut String,
    device: Device<'_, '_>,
    node: u8,
    bytes: &[u8],
    words: &[u32],
) -> Result<(), AllocError>
    requires few { length bytes.now ≤ 8 }
    requires within { total_bits words.now ≤ 64 }
    ensures { OnOk result (string_bytes text.new ≡ string_bytes text.old
        ++ parts_text (device_view device.entry) node bytes.now words.now) }
{
    match words {
        [] => Ok(()),
        [word, more @ ..] => {
            attempt!(push_part(text, device, node, bytes, 0, *word));
            push_more_parts(text, device, node, bytes, word_bits(*word), more)
        }
    }
}

fn unit_of(count: usize) -> &'static str
    ensures { result.now ≡ unit_of count }
{
    if count == 1 { " byte" } else { " bytes" }
}

#[tactic(auto, unfolding(crate::specs::Mappings::short_text))]
fn push_short(text: &mut String, count: usize, mapped: usize) -> Result<(), AllocError>
    ensures { OnOk result
        (string_bytes text.new ≡ string_bytes text.old ++ short_text count mapped) }
{
    push_filled(
        text,
        "%%, mapping has %",
        &[
            Value::Number(count as u64),
            Value::Words(unit_of(count)),
            Value::Number(mapped as u64),
        ],
    )
}

#[tactic(auto, unfolding(crate::specs::Mappings::more_text))]
fn push_more(text: &mut String, count: usize, mapped: usize) -> Result<(), AllocError>
    ensures { OnOk result
        (string_bytes text.new ≡ string_bytes text.old ++ more_text count mapped) }
{
    if count <= mapped {
        return Ok(());
    }
    let more = count - mapped;
    push_filled(
        text,
        "; +%%",
        &[Value::Number(more as u64), Value::Words(unit_of(more))],
    )
}

#[tactic(auto, unfolding(crate::specs::Mappings::mapped_text))]
fn push_mapped(
    text: &mut String,
    device: Device<'_, '_>,
    node: u8,
    words: &[u32],
    bytes: &[u8],
) -> Result<(), AllocError>
    requires words { length words.now ≤ 64 }
    requires few { length bytes.now ≤ 8 }
    ensures { OnOk result (string_bytes text.new ≡ string_bytes text.old
        ++ mapped_text (device_view device.entry) node words.now bytes.now) }
{
    let mapped = (total_bits(words) + 7) / 8;
    if bytes.len() < mapped {
        return push_short(text, bytes.len(), mapped);
    }
    attempt!(push_parts(text, device, node, bytes, words));
    push_more(text, bytes.len(), mapped)
}

fn multiplexed_key(bytes: &[u8]) -> Key
    requires { length bytes.now ≡ 8 }
    ensures { result ≡ multiplexed_key bytes.now }
{
    Key {
        index: read_u16(&bytes[1..3]),
        sub: bytes[3],
    }
}

#[tactic(auto, unfolding(crate::specs::Mappings::addressing_word))]
fn addressing_word(byte: u8) -> &'static str
    ensures { result.now ≡ addressing_word byte }
{
    if byte < 128 { "source" } else { "destination" }
}

#[tactic(auto, unfolding(crate::specs::Mappings::addressed_text))]
fn push_addressed(text: &mut String, word: &str, node: u8, key: Key) -> Result<(), AllocError>
    ensures { OnOk result
        (string_bytes text.new ≡ string_bytes text.old ++ addressed_text word.now node key) }
{
    push_filled(
        text,
        "% node % % ",
        &[
            Value::Words(word),
            Value::Number(node as u64),
            Value::Key(key),
        ],
    )
}

#[tactic(auto, unfolding(crate::specs::Mappings::all_text))]
fn push_all(text: &mut String, key: Key) -> Result<(), AllocError>
    ensures { OnOk result (string_bytes text.new ≡ string_bytes text.old ++ all_text key) }
{
    push_filled(text, "destination all nodes % ", &[Value::Key(key)])
}

// the destination or the source, by the first byte, and the key
fn push_address(text: &mut String, byte: u8, key: Key) -> Result<(), AllocError>
    ensures { OnOk result
        (string_bytes text.new ≡ string_bytes text.old ++ address_text byte key) }
{
    if byte == 128 {
        return push_all(text, key);
    }
    push_addressed(text, addressing_word(byte), byte % 128, key)
}

// of the last four bytes as many as the type has
fn multiplexed_value(data_type: DataType, bytes: &[u8]) -> &[u8]
    requires { length bytes.now ≡ 8 }
    ensures bytes { result.now ≡ multiplexed_value data_type bytes.now }
    ensures few { length result.now ≤ 4 }
{
    let width = data_type.width().unwrap_or(4);
    let four = &bytes[4..];
    &four[..width.min(4)]
}

// the entry of the destination's or the source's sheet; all nodes have none in common
fn addressed_row<'s, 'a>(device: Device<'s, 'a>, node: u8, key: Key) -> Option<&'s EntryRow<'a>>
    ensures { option_map row_view (option_copied result)
        ≡ addressed_row (device_view device.entry) node key }
{
    if node == 0 {
        return None;
    }
    device.names.entry(node, key)
}

// the destination or the source
#[tactic(auto, unfolding(crate::specs::Mappings::node_text))]
fn push_node(text: &mut String, word: &str, node: u8) -> Result<(), AllocError>
    ensures { OnOk result
        (string_bytes text.new ≡ string_bytes text.old ++ node_text word.now node) }
{
    push_filled(
        text,
        "% node %: ",
        &[Value::Words(word), Value::Number(node as u64)],
    )
}

// the node, and its entry with the value
#[tactic(auto, unfolding(crate::specs::Mappings::named_text))]
fn push_named(
    text: &mut String,
    device: Device<'_, '_>,
    node: u8,
    bytes: &[u8],
    row: &EntryRow<'_>,
) -> Result<(), AllocError>
    requires { length bytes.now ≡ 8 }
    ensures { OnOk result (string_bytes text.new ≡ string_bytes text.old
        ++ named_text (device_view device.entry) node bytes.now (row_view row.now)) }
{
    attempt!(push_node(text, addressing_word(bytes[0]), node));
    let value = multiplexed_value(row.data_type, bytes);
    let key = multiplexed_key(bytes);
    push_known(text, device, node, key, row, 8 * value.len(), value)
}

#[tactic(auto, unfolding(crate::specs::Mappings::unnamed_text))]
fn push_unnamed(text: &mut String, bytes: &[u8]) -> Result<(), AllocError>
    requires { length bytes.now ≡ 8 }
    ensures { OnOk result
        (string_bytes text.new ≡ string_bytes text.old ++ unnamed_text bytes.now) }
{
    attempt!(push_address(text, bytes[0], multiplexed_key(bytes)));
    push_bytes(text, &bytes[4..])
}

#[tactic(auto, unfolding(crate::specs::Mappings::multiplexed_text))]
fn push_multiplexed(
    text: &mut String,
    bus: Bus<'_, '_, '_, '_, '_>,
    bytes: &[u8],
) -> Result<(), AllocError>
    requires { length bytes.now ≡ 8 }
    ensures { OnOk result (string_bytes text.new
        ≡ string_bytes text.old ++ multiplexed_text (bus_view bus.entry) bytes.now) }
{
    let node = bytes[0] % 128;
    let device = bus.device(node);
    match addressed_row(device, node, multiplexed_key(bytes)) {
        Some(row) => push_named(text, device, node, bytes, row),
        None => push_unnamed(text, bytes),
    }
}

#[tactic(auto, unfolding(crate::specs::Mappings::multiplexed_data))]
fn push_multiplexed_data(
    text: &mut String,
    bus: Bus<'_, '_, '_, '_, '_>,
    bytes: &[u8],
) -> Result<(), AllocError>
    ensures { OnOk result (string_bytes text.new
        ≡ string_bytes text.old ++ multiplexed_data (bus_view bus.entry) bytes.now) }
{
    if bytes.len() == 8 {
        push_multiplexed(text, bus, bytes)
    } else {
        push_short(text, bytes.len(), 8)
    }
}

/// Appends what the data of a PDO of a node say by a mapping: each mapped entry with its value, as
/// `: Temperature 2001:01 = 1000; Humidity 2001:02 = 10000`; `-` for a gap, `2345:01 (not in
/// sheet)` for an entry that the sheet lacks; `: 4 bytes, mapping has 6` where the data are
/// shorter; of a multiplexed PDO the destination or the source with its entry, by the sheet of that node, as
/// `: destination node 5: Temperature 2001:01 = 1000`, or the four bytes, as `: destination node 5 2001:01
/// E8030000`. Nothing where nothing is mapped. On an `Err` memory ran out, and a part of it may be there.
#[tactic(auto, unfolding(crate::specs::Mappings::data_text))]
pub fn push_data(
    text: &mut String,
    bus: Bus<'_, '_, '_, '_, '_>,
    node: u8,
    mapping: &Mapping,
    bytes: &[u8],
) -> Result<(), AllocError>
    requires { length bytes.now ≤ 8 }
    // Each entry is shown with the bits at its offset in this mapping.
    ensures { OnOk result (string_bytes text.new ≡ string_bytes text.old
        ++ data_text (bus_view bus.entry) node mapping.now bytes.now) }
{
    let count = mapping.count as usize;
    if count == 0 || (count > 64 && count < 0xFE) {
        return Ok(());
    }
    attempt!(text.push_str(": "));
    if count > 64 {
        return push_multiplexed_data(text, bus, bytes);
    }
    let words = mapping.words.as_slice();
    let mapped = &words[..count.min(words.len())];
    push_mapped(text, bus.device(node), node, mapped, bytes)
}
