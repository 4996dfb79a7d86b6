//! The value of a signal in a frame.

ghost use Rattle.std.specs.Prelude.{
  ◌≡◌,
  ◌++◌,
  ◌≤◌,
  [],
  OnOk,
  IfOk,
  IfSome,
  is_some,
  length,
  string_bytes,
  take,
  unwrap_or,
};
ghost use Rattle.std.specs.Option.{option_copied};
ghost use Rattle.co_sheet.specs.SheetViews.{row_view};
ghost use Rattle.co_value.specs.Types.{is_boolean};
ghost use Rattle.co_sheet_changes.specs.Names.{names_view};
ghost use Rattle.conode_explain_cob_ids.specs.Buses.{bus_view};
ghost use Rattle.conode_explain_values.specs.Types.{is_boolean_type};
ghost use Rattle.conode_explain_values.specs.Values.{HasBits};
ghost use Rattle.conode_explain_forms.specs.Fields.{
  bytes_of,
  claim_bits,
  entry_field,
  field_of,
  has_value,
  is_done,
  is_expedited,
  is_upload,
  is_zero_or_one,
  pdo_bits,
  sdo_value,
  shows_size,
  size_bit,
  value_field,
};

use crate::signal::Signal;
use co_sheet::EntryRow;
use co_sheet_changes::Names;
use co_text::push_decimal;
use co_value::{DataType, unsigned_of};
use conode_explain_cob_ids::{Bus, Claim};
use conode_explain_pdo::{EntryBits, type_in};
use conode_explain_transfers::{Direction, Ended, Ending, Protocol, Told};
use conode_explain_values::{ValueType, push_value};
use std::alloc::AllocError;

pub(crate) fn is_boolean(data_type: DataType) -> bool
    ensures { result ≡ is_boolean data_type }
{
    data_type.code() == DataType::Boolean.code()
}

fn is_boolean_type(value_type: ValueType) -> bool
    ensures { result ≡ is_boolean_type value_type }
{
    match value_type {
        ValueType::Plain(data_type) => is_boolean(data_type),
        _ => false,
    }
}

// whether a value is a BOOLEAN of one bit or of a byte that is false or true
fn is_zero_or_one(value_type: ValueType, bits: usize, bytes: &[u8]) -> bool
    requires { HasBits bits bytes.now }
    ensures { result ≡ is_zero_or_one value_type bits bytes.now }
{
    is_boolean_type(value_type) && (bits == 1 || bits == 8) && unsigned_of(bytes) < 2
}

fn push_value_field(
    text: &mut String,
    value_type: ValueType,
    bits: usize,
    bytes: &[u8],
) -> Result<(), AllocError>
    requires { HasBits bits bytes.now }
    ensures { OnOk result
        (string_bytes text.new ≡ string_bytes text.old ++ value_field value_type bits bytes.now) }
{
    if is_zero_or_one(value_type, bits, bytes) {
        return push_decimal(text, unsigned_of(bytes));
    }
    push_value(text, value_type, bits, bytes)
}

pub(crate) fn is_done(ending: Ending) -> bool
    ensures { result ≡ is_done ending }
{
    matches!(ending, Ending::Done { crc: _ })
}

pub(crate) fn is_expedited(protocol: Protocol) -> bool
    ensures { result ≡ is_expedited protocol }
{
    matches!(protocol, Protocol::Expedited)
}

// the first bytes, all if there are fewer
pub(crate) fn first_bytes(bytes: &[u8], count: usize) -> &[u8]
    ensures bytes { result.now ≡ take count bytes.now }
    ensures few { length result.now ≤ length bytes.now }
{
    if count < bytes.len() {
        &bytes[..count]
    } else {
        bytes
    }
}

fn is_upload(direction: Direction) -> bool
    ensures { result ≡ is_upload direction }
{
    matches!(direction, Direction::Upload)
}

fn size_bit(frame: &[u8]) -> bool
    ensures { result ≡ size_bit frame.now }
{
    !frame.is_empty() && frame[0] % 2 == 1
}

fn shows_size(frame: &[u8], ended: &Ended) -> bool
    ensures { result ≡ shows_size frame.now ended.now }
{
    is_upload(ended.direction) && size_bit(frame)
}

fn bytes_of<'t>(data_type: DataType, frame: &[u8], ended: &'t Ended) -> &'t [u8]
    ensures bytes { result.now ≡ bytes_of data_type frame.now ended.now }
    ensures few { length result.now ≤ 64 }
{
    let bytes = ended.first.as_slice();
    if is_expedited(ended.protocol) && !shows_size(frame, ended) {
        return first_bytes(bytes, data_type.width().unwrap_or(4).min(4));
    }
    bytes
}

fn has_value(signal: Signal, ended: &Ended) -> bool
    ensures { result ≡ has_value signal ended.now }
{
    is_done(ended.ending)
        && ended.key.comparisons(signal.key).0
        && ended.bytes == ended.first.len() as u64
}

// the value of an SDO transfer of the node that is done with the frame
fn sdo_value<'t>(
    signal: Signal,
    data_type: DataType,
    frame: &[u8],
    told: &'t Option<Told>,
) -> Option<&'t [u8]>
    ensures value { option_copied result ≡ sdo_value signal data_type frame.now told.now }
    ensures few { IfSome result (λ value. length value.now ≤ 64) }
{
    let Some(told) = told else {
        return None;
    };
    if told.node != signal.node {
        return None;
    }
    let Some(ended) = &told.ended else {
        return None;
    };
    if !has_value(signal, ended) {
        return None;
    }
    Some(bytes_of(data_type, frame, ended))
}

fn claim_bits<'b>(
    bus: Bus<'b, 'b, 'b, 'b, 'b>,
    signal: Signal,
    bytes: &[u8],
    claim: Claim,
) -> Option<EntryBits>
    requires { length bytes.now ≤ 8 }
    ensures bits { result ≡ claim_bits (bus_view bus.entry) signal bytes.now claim }
    ensures count { IfSome result (λ found. HasBits found.bits found.bytes.items) }
{
    if claim.node != signal.node {
        return None;
    }
    EntryBits::in_force(bus, claim, signal.key, bytes)
}

// the bits of a signal in data of PDOs
#[tactic(auto, unfolding(crate::specs::Fields::pdo_bits))]
fn pdo_bits<'b>(
    bus: Bus<'b, 'b, 'b, 'b, 'b>,
    signal: Signal,
    bytes: &[u8],
    claims: &[Claim],
) -> Option<EntryBits>
    requires { length bytes.now ≤ 8 }
    ensures bits { result ≡ pdo_bits (bus_view bus.entry) signal bytes.now claims.now }
    ensures count { IfSome result (λ found. HasBits found.bits found.bytes.items) }
{
    for claim in claims {
        if let Some(found) = claim_bits(bus, signal, bytes, *claim) {
            return Some(found);
        }
    }
    None
}

// Appends the value of an entry, if the frame has one, and returns whether it has.
#[tactic(auto, unfolding(crate::specs::Fields::entry_field))]
fn push_entry_field<'b>(
    text: &mut String,
    bus: Bus<'b, 'b, 'b, 'b, 'b>,
    claims: &[Claim],
    bytes: &[u8],
    told: &Option<Told>,
    signal: Signal,
    value_type: ValueType,
    data_type: DataType,
) -> Result<bool, AllocError>
    requires { length bytes.now ≤ 8 }
    ensures has { IfOk result (λ has. has ≡ is_some (entry_field (bus_view bus.entry)
        claims.now bytes.now told.now signal value_type data_type)) }
    ensures text { OnOk result (string_bytes text.new ≡ string_bytes text.old
        ++ unwrap_or (entry_field (bus_view bus.entry)
        claims.now bytes.now told.now signal value_type data_type) []) }
{
    if let Some(value) = sdo_value(signal, data_type, bytes, told) {
        attempt!(push_value_field(text, value_type, 8 * value.len(), value));
        return Ok(true);
    }
    let Some(part) = pdo_bits(bus, signal, bytes, claims) else {
        return Ok(false);
    };
    attempt!(push_value_field(text, value_type, part.bits, part.bytes.as_slice()));
    Ok(true)
}

/// Appends the text of a signal's value in a frame with these bytes that is these PDOs, and of
/// which its SDO channel says this. Returns whether it has one; else nothing is appended. On an
/// `Err` memory ran out, and a part of the text may be there.
#[tactic(auto, unfolding(crate::specs::Fields::field_of))]
pub(crate) fn push_field<'b>(
    text: &mut String,
    bus: Bus<'b, 'b, 'b, 'b, 'b>,
    claims: &[Claim],
    bytes: &[u8],
    told: &Option<Told>,
    signal: Signal,
) -> Result<bool, AllocError>
    requires { length bytes.now ≤ 8 }
    ensures has { IfOk result (λ has. has
        ≡ is_some (field_of (bus_view bus.entry) claims.now bytes.now told.now signal)) }
    ensures text { OnOk result (string_bytes text.new ≡ string_bytes text.old
        ++ unwrap_or (field_of (bus_view bus.entry) claims.now bytes.now told.now signal) []) }
{
    let names = bus.names(signal.node);
    let Some(row) = names.entry(signal.node, signal.key) else {
        return Ok(false);
    };
    let value_type = type_in(names, row);
    push_entry_field(
        text,
        bus,
        claims,
        bytes,
        told,
        signal,
        value_type,
        row.data_type,
    )
}
