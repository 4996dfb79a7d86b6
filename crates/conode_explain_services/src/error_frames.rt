//! Error frames: the fault that the controller of the recorder reports, as SocketCAN has it
//! (`linux/can/error.h`).

ghost use Rattle.std.specs.Prelude.{◌≡◌, ◌++◌, OnOk, length, map, string_bytes};
ghost use Rattle.conode_explain_services.specs.ErrorFrames.{
  canh_words,
  canl_words,
  class_text,
  classes_text,
  controller_words,
  counter_words,
  detail_words,
  either_in_brackets,
  error_words,
  flag_text,
  flags_in_brackets,
  flags_text,
  lost_words,
  place_words,
  reported_text,
  violation_words,
};
ghost use Rattle.conode_explain_services.specs.Parts.{row_of};
ghost use Rattle.std.specs.List.{flat_map};

use crate::texts::{Row, words_in};
use co_text::push_decimal;
use conode_text::{Value, push_filled};
use std::alloc::AllocError;

/// The classes of faults, bits of the identifier.
const CLASSES: [Row; 10] = [
    Row(0x001, "transmit timeout"),
    Row(0x002, "lost arbitration"),
    Row(0x004, "controller problem"),
    Row(0x008, "protocol violation"),
    Row(0x010, "transceiver problem"),
    Row(0x020, "no acknowledgement"),
    Row(0x040, "bus off"),
    Row(0x080, "bus error"),
    Row(0x100, "controller restarted"),
    Row(0x200, "error counters"),
];

/// The state of the controller, bits of byte 1.
const CONTROLLER: [Row; 7] = [
    Row(0x01, "receive buffer overflow"),
    Row(0x02, "transmit buffer overflow"),
    Row(0x04, "receive error warning"),
    Row(0x08, "transmit error warning"),
    Row(0x10, "receive error passive"),
    Row(0x20, "transmit error passive"),
    Row(0x40, "error active again"),
];

/// What was violated, bits of byte 2.
const VIOLATIONS: [Row; 8] = [
    Row(0x01, "single bit error"),
    Row(0x02, "form error"),
    Row(0x04, "stuff error"),
    Row(0x08, "dominant bit not sent"),
    Row(0x10, "recessive bit not sent"),
    Row(0x20, "overload"),
    Row(0x40, "active error flag"),
    Row(0x80, "on transmission"),
];

/// At which part of a frame, byte 3.
const PLACES: [Row; 19] = [
    Row(0x02, " at identifier bits 28 to 21"),
    Row(0x03, " at the start of frame"),
    Row(0x04, " at the SRR bit or RTR bit"),
    Row(0x05, " at the IDE bit"),
    Row(0x06, " at identifier bits 20 to 18"),
    Row(0x07, " at identifier bits 17 to 13"),
    Row(0x08, " at the CRC"),
    Row(0x09, " at reserved bit 0"),
    Row(0x0A, " at the data"),
    Row(0x0B, " at the length code"),
    Row(0x0C, " at the RTR bit"),
    Row(0x0D, " at reserved bit 1"),
    Row(0x0E, " at identifier bits 4 to 0"),
    Row(0x0F, " at identifier bits 12 to 5"),
    Row(0x12, " at the intermission"),
    Row(0x18, " at the CRC delimiter"),
    Row(0x19, " at the ACK slot"),
    Row(0x1A, " at the end of frame"),
    Row(0x1B, " at the ACK delimiter"),
];

/// The state of the transceiver's wires: CANH, bits 0 to 3 of byte 4.
const CANH: [Row; 4] = [
    Row(4, "CANH not connected"),
    Row(5, "CANH shorted to the battery"),
    Row(6, "CANH shorted to the supply"),
    Row(7, "CANH shorted to ground"),
];

/// CANL, bits 4 to 7.
const CANL: [Row; 5] = [
    Row(4, "CANL not connected"),
    Row(5, "CANL shorted to the battery"),
    Row(6, "CANL shorted to the supply"),
    Row(7, "CANL shorted to ground"),
    Row(8, "CANL shorted to CANH"),
];

#[tactic(auto, unfolding(crate::specs::ErrorFrames::flag_text))]
fn push_flag(text: &mut String, bits: u16, row: &Row) -> Result<(), AllocError>
    ensures { OnOk result
        (string_bytes text.new ≡ string_bytes text.old ++ flag_text bits (row_of row.now)) }
{
    if bits & row.0 == 0 {
        return Ok(());
    }
    if bits & row.0.saturating_sub(1) != 0 {
        attempt!(text.push_str(", "));
    }
    text.push_str(row.1)
}

fn push_flags(text: &mut String, bits: u16, rows: &[Row]) -> Result<(), AllocError>
    ensures { OnOk result (string_bytes text.new
        ≡ string_bytes text.old ++ flags_text (map row_of rows.now) bits) }
{
    for row in rows {
        attempt!(push_flag(text, bits, row));
    }
    Ok(())
}

fn push_in_brackets(text: &mut String, bits: u16, all: u16, rows: &[Row]) -> Result<(), AllocError>
    ensures { OnOk result (string_bytes text.new
        ≡ string_bytes text.old ++ flags_in_brackets all (map row_of rows.now) bits) }
{
    if bits & all == 0 {
        return Ok(());
    }
    attempt!(text.push_str(" ("));
    attempt!(push_flags(text, bits, rows));
    text.push_str(")")
}

fn push_lost(text: &mut String, bit: u8) -> Result<(), AllocError>
    ensures { OnOk result (string_bytes text.new ≡ string_bytes text.old ++ lost_words bit) }
{
    if bit == 0 {
        return Ok(());
    }
    attempt!(text.push_str(" at bit "));
    push_decimal(text, bit as u64)
}

#[tactic(auto, unfolding(crate::specs::ErrorFrames::controller_words))]
fn push_controller(text: &mut String, states: u8) -> Result<(), AllocError>
    ensures { OnOk result (string_bytes text.new ≡ string_bytes text.old ++ controller_words states) }
{
    push_in_brackets(text, states as u16, 0x7F, &CONTROLLER)
}

#[tactic(auto, unfolding(crate::specs::ErrorFrames::violation_words))]
fn push_violations(text: &mut String, kinds: u8) -> Result<(), AllocError>
    ensures { OnOk result (string_bytes text.new ≡ string_bytes text.old ++ violation_words kinds) }
{
    push_in_brackets(text, kinds as u16, 0xFF, &VIOLATIONS)
}

#[tactic(auto, unfolding(crate::specs::ErrorFrames::place_words))]
fn place_words(place: u8) -> &'static str
    ensures { result.now ≡ place_words place }
{
    words_in(&PLACES, place as u16)
}

#[tactic(auto, unfolding(crate::specs::ErrorFrames::canh_words))]
fn canh_words(state: u8) -> &'static str
    ensures { result.now ≡ canh_words state }
{
    words_in(&CANH, state as u16 % 16)
}

#[tactic(auto, unfolding(crate::specs::ErrorFrames::canl_words))]
fn canl_words(state: u8) -> &'static str
    ensures { result.now ≡ canl_words state }
{
    words_in(&CANL, state as u16 / 16)
}

// either in brackets, or both
#[tactic(auto, unfolding(conode_text::specs::Filled::filled))]
fn push_either(text: &mut String, first: &str, second: &str) -> Result<(), AllocError>
    ensures { OnOk result (string_bytes text.new
        ≡ string_bytes text.old ++ either_in_brackets first.now second.now) }
{
    match (first.is_empty(), second.is_empty()) {
        (true, true) => Ok(()),
        (false, true) => push_filled(text, " (%)", &[Value::Words(first)]),
        (true, false) => push_filled(text, " (%)", &[Value::Words(second)]),
        (false, false) => push_filled(
            text,
            " (%, %)",
            &[Value::Words(first), Value::Words(second)],
        ),
    }
}

#[tactic(auto, unfolding(crate::specs::ErrorFrames::counter_words))]
fn push_counters(text: &mut String, sent: u8, received: u8) -> Result<(), AllocError>
    ensures { OnOk result
        (string_bytes text.new ≡ string_bytes text.old ++ counter_words sent received) }
{
    push_filled(
        text,
        " (transmit %, receive %)",
        &[Value::Number(sent as u64), Value::Number(received as u64)],
    )
}

// what the bytes say of a class
#[tactic(auto, unfolding(crate::specs::ErrorFrames::detail_words))]
fn push_details(text: &mut String, class: u16, bytes: &[u8]) -> Result<(), AllocError>
    requires { length bytes.now ≡ 8 }
    ensures { OnOk result
        (string_bytes text.new ≡ string_bytes text.old ++ detail_words class bytes.now) }
{
    match class {
        0x002 => push_lost(text, bytes[0]),
        0x004 => push_controller(text, bytes[1]),
        0x008 => {
            attempt!(push_violations(text, bytes[2]));
            text.push_str(place_words(bytes[3]))
        }
        0x010 => push_either(text, canh_words(bytes[4]), canl_words(bytes[4])),
        0x200 => push_counters(text, bytes[6], bytes[7]),
        _ => Ok(()),
    }
}

#[tactic(auto, unfolding(crate::specs::ErrorFrames::class_text))]
fn push_class(text: &mut String, reported: u16, bytes: &[u8], row: &Row) -> Result<(), AllocError>
    ensures { OnOk result (string_bytes text.new
        ≡ string_bytes text.old ++ class_text reported bytes.now (row_of row.now)) }
{
    attempt!(push_flag(text, reported, row));
    if reported & row.0 == row.0 && bytes.len() == 8 {
        return push_details(text, row.0, bytes);
    }
    Ok(())
}

fn push_each(text: &mut String, reported: u16, bytes: &[u8], rows: &[Row]) -> Result<(), AllocError>
    ensures { OnOk result (string_bytes text.new ≡ string_bytes text.old
        ++ flat_map (class_text reported bytes.now) (map row_of rows.now)) }
{
    for row in rows {
        attempt!(push_class(text, reported, bytes, row));
    }
    Ok(())
}

#[tactic(auto, unfolding(crate::specs::ErrorFrames::classes_text))]
fn push_classes(text: &mut String, reported: u16, bytes: &[u8]) -> Result<(), AllocError>
    ensures { OnOk result
        (string_bytes text.new ≡ string_bytes text.old ++ classes_text reported bytes.now) }
{
    push_each(text, reported, bytes, &CLASSES)
}

fn push_reported(text: &mut String, reported: u16, bytes: &[u8]) -> Result<(), AllocError>
    ensures { OnOk result
        (string_bytes text.new ≡ string_bytes text.old ++ reported_text reported bytes.now) }
{
    if reported == 0 {
        return Ok(());
    }
    attempt!(text.push_str(": "));
    push_classes(text, reported, bytes)
}

/// Appends what an error frame of a class reports, with what its bytes say of it: `error frame:
/// controller problem (receive error passive), bus error`; bits 0 to 9 of the class have a meaning.
/// On an `Err` memory ran out, and a part of it may be there.
#[tactic(auto, unfolding(crate::specs::ErrorFrames::error_words))]
pub fn push_error(text: &mut String, class: u32, bytes: &[u8]) -> Result<(), AllocError>
    ensures { OnOk result
        (string_bytes text.new ≡ string_bytes text.old ++ error_words class bytes.now) }
{
    attempt!(text.push_str("error frame"));
    push_reported(text, (class % 0x400) as u16, bytes)
}
