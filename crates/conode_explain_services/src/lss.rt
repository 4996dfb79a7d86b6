//! What LSS commands say (CiA 305, 3.9). Each function appends a text; on an `Err` memory ran out,
//! and a part of it may be there.

ghost use Rattle.std.specs.Prelude.{◌≡◌, ◌++◌, OnOk, decimal, length, string_bytes};
ghost use Rattle.conode_explain_services.specs.Lss.{
  command_text,
  failure_text,
  failure_words,
  lss_answer_words,
  lss_request_words,
  lss_text,
  mode_text,
  mode_words,
  node_text,
  or_else,
  outcome_text,
  parameter_text,
  part_text,
  part_words,
  rate_in,
  rate_words,
  scan_text,
  scanned_text,
  timing_text,
};

use crate::lss_commands::{
    Parameter, answer_parameter, answer_words, request_parameter, request_words,
};
use crate::texts::{Row, words_in};
use co_text::{push_decimal, push_u32};
use co_value::{read_u16, read_u32};
use conode_text::{HasText, Value, push_filled};
use std::alloc::AllocError;

// ---- what comes after a specifier

/// The states that all slaves switch to.
const MODES: [Row; 2] = [Row(0, "waiting"), Row(1, "configuration")];

#[tactic(auto, unfolding(crate::specs::Lss::mode_words))]
fn mode_words(mode: u8) -> &'static str
    ensures { result.now ≡ mode_words mode }
{
    words_in(&MODES, mode as u16)
}

// Appends words, or where there are none a name and a number.
#[tactic(auto, unfolding(conode_text::specs::Filled::filled))]
fn push_or_number(text: &mut String, words: &str, name: &str, number: u8) -> Result<(), AllocError>
    ensures { OnOk result (string_bytes text.new
        ≡ string_bytes text.old ++ or_else words.now (name.now ++ decimal number)) }
{
    if words.is_empty() {
        let number = Value::Number(number as u64);
        return push_filled(text, "%%", &[Value::Words(name), number]);
    }
    text.push_str(words)
}

fn push_node(text: &mut String, node: u8) -> Result<(), AllocError>
    ensures { OnOk result (string_bytes text.new ≡ string_bytes text.old ++ node_text node) }
{
    if node == 255 {
        text.push_str("none")
    } else {
        push_decimal(text, node as u64)
    }
}

/// The bit rates of table 0, by index.
const RATES: [Row; 9] = [
    Row(0, "1000 kbit/s"),
    Row(1, "800 kbit/s"),
    Row(2, "500 kbit/s"),
    Row(3, "250 kbit/s"),
    Row(4, "125 kbit/s"),
    Row(6, "50 kbit/s"),
    Row(7, "20 kbit/s"),
    Row(8, "10 kbit/s"),
    Row(9, "automatic"),
];

#[tactic(auto, unfolding(crate::specs::Lss::rate_words))]
fn rate_words(index: u8) -> &'static str
    ensures { result.now ≡ rate_words index }
{
    words_in(&RATES, index as u16)
}

fn rate_in(table: u8, index: u8) -> &'static str
    ensures { result.now ≡ rate_in table index }
{
    if table == 0 { rate_words(index) } else { "" }
}

#[tactic(auto, unfolding(crate::specs::Lss::timing_text))]
fn push_timing(text: &mut String, table: u8, index: u8) -> Result<(), AllocError>
    ensures { OnOk result
        (string_bytes text.new ≡ string_bytes text.old ++ timing_text table index) }
{
    let rate = rate_in(table, index);
    if rate.is_empty() {
        let table = Value::Number(table as u64);
        let index = Value::Number(index as u64);
        return push_filled(text, "table % index %", &[table, index]);
    }
    text.push_str(rate)
}

/// The parts of an LSS address.
const PARTS: [Row; 4] = [
    Row(0, "vendor-ID"),
    Row(1, "product code"),
    Row(2, "revision number"),
    Row(3, "serial number"),
];

#[tactic(auto, unfolding(crate::specs::Lss::part_words))]
fn part_words(part: u8) -> &'static str
    ensures { result.now ≡ part_words part }
{
    words_in(&PARTS, part as u16)
}

#[tactic(auto, unfolding(crate::specs::Lss::part_text))]
fn push_part(text: &mut String, part: u8) -> Result<(), AllocError>
    ensures { OnOk result (string_bytes text.new ≡ string_bytes text.old ++ part_text part) }
{
    push_or_number(text, part_words(part), "part ", part)
}

/// What fastscan names.
#[derive(Clone, Copy)]
enum Scanned {
    /// A part of an LSS address.
    Part(u8),
    /// What it is compared with.
    Number(u32),
    /// The last bit that is compared.
    Bit(u8),
}

impl HasText for Scanned {
    ghost text_of = { scanned_text };

    fn push(&self, text: &mut String) -> Result<(), AllocError> {
        match *self {
            Scanned::Part(part) => push_part(text, part),
            Scanned::Number(number) => push_u32(text, number),
            Scanned::Bit(bit) => push_decimal(text, bit as u64),
        }
    }
}

#[tactic(auto, unfolding(crate::specs::Lss::scan_text))]
fn push_scan(text: &mut String, number: u32, bit: u8, part: u8, next: u8) -> Result<(), AllocError>
    ensures { OnOk result (string_bytes text.new
        ≡ string_bytes text.old ++ scan_text number bit part next) }
{
    if bit == 0x80 {
        return text.push_str("from the start");
    }
    push_filled(
        text,
        "% % bits 31-%, next %",
        &[
            Scanned::Part(part),
            Scanned::Number(number),
            Scanned::Bit(bit),
            Scanned::Part(next),
        ],
    )
}

const NODE_FAILURES: [Row; 1] = [Row(1, "node-ID out of range")];

const TIMING_FAILURES: [Row; 1] = [Row(1, "bit timing not supported")];

const STORE_FAILURES: [Row; 2] = [
    Row(1, "not supported"),
    Row(2, "storage media access error"),
];

// why a slave did not do what a command specifier asks
#[tactic(auto, unfolding(crate::specs::Lss::node_failure, crate::specs::Lss::timing_failure, crate::specs::Lss::store_failure))]
fn failure_words(specifier: u8, error: u8) -> &'static str
    ensures { result.now ≡ failure_words specifier error }
{
    match specifier {
        0x11 => words_in(&NODE_FAILURES, error as u16),
        0x13 => words_in(&TIMING_FAILURES, error as u16),
        0x17 => words_in(&STORE_FAILURES, error as u16),
        _ => "",
    }
}

#[tactic(auto, unfolding(crate::specs::Lss::failure_text))]
fn push_failure(text: &mut String, specifier: u8, error: u8, specific: u8) -> Result<(), AllocError>
    ensures { OnOk result (string_bytes text.new
        ≡ string_bytes text.old ++ failure_text specifier error specific) }
{
    if error == 255 {
        let specific = Value::Number(specific as u64);
        return push_filled(text, "error % of the manufacturer", &[specific]);
    }
    push_or_number(text, failure_words(specifier, error), "error ", error)
}

#[tactic(auto, unfolding(crate::specs::Lss::outcome_text))]
fn push_outcome(text: &mut String, specifier: u8, error: u8, specific: u8) -> Result<(), AllocError>
    ensures { OnOk result (string_bytes text.new
        ≡ string_bytes text.old ++ outcome_text specifier error specific) }
{
    if error == 0 {
        return text.push_str("done");
    }
    attempt!(text.push_str("failed: "));
    push_failure(text, specifier, error, specific)
}

#[tactic(auto, unfolding(crate::specs::Lss::parameter_text))]
fn push_parameter(text: &mut String, parameter: Parameter, bytes: &[u8]) -> Result<(), AllocError>
    requires { length bytes.now ≡ 8 }
    ensures { OnOk result
        (string_bytes text.new ≡ string_bytes text.old ++ parameter_text parameter bytes.now) }
{
    if let Parameter::Nothing = parameter {
        return Ok(());
    }
    attempt!(text.push_str(" "));
    match parameter {
        Parameter::Nothing => Ok(()),
        Parameter::Mode => push_or_number(text, mode_words(bytes[1]), "mode ", bytes[1]),
        Parameter::Node => push_node(text, bytes[1]),
        Parameter::Number => push_u32(text, read_u32(&bytes[1..5])),
        Parameter::Timing => push_timing(text, bytes[1], bytes[2]),
        Parameter::Delay => {
            let delay = Value::Number(read_u16(&bytes[1..3]) as u64);
            push_filled(text, "% ms", &[delay])
        }
        Parameter::Scan => { push_scan(text, read_u32(&bytes[1..5]), bytes[5], bytes[6], bytes[7]) }
        Parameter::Outcome => push_outcome(text, bytes[0], bytes[1], bytes[2]),
    }
}

// ---- eight bytes

fn push_command(
    text: &mut String,
    words: &str,
    parameter: Parameter,
    bytes: &[u8],
) -> Result<(), AllocError>
    requires { length bytes.now ≡ 8 }
    ensures { OnOk result (string_bytes text.new
        ≡ string_bytes text.old ++ command_text words.now parameter bytes.now) }
{
    if words.is_empty() {
        return text.push_str("unknown");
    }
    attempt!(text.push_str(words));
    push_parameter(text, parameter, bytes)
}

#[tactic(auto, unfolding(crate::specs::Lss::lss_text))]
fn push_lss(
    text: &mut String,
    front: &str,
    words: &str,
    parameter: Parameter,
    bytes: &[u8],
) -> Result<(), AllocError>
    requires { length bytes.now ≡ 8 }
    ensures { OnOk result (string_bytes text.new
        ≡ string_bytes text.old ++ lss_text front.now words.now parameter bytes.now) }
{
    attempt!(text.push_str(front));
    push_command(text, words, parameter, bytes)
}

/// Appends what an LSS master asks.
pub(crate) fn push_lss_request(text: &mut String, bytes: &[u8]) -> Result<(), AllocError>
    requires { length bytes.now ≡ 8 }
    ensures { OnOk result
        (string_bytes text.new ≡ string_bytes text.old ++ lss_request_words bytes.now) }
{
    let specifier = bytes[0];
    let words = request_words(specifier);
    push_lss(
        text,
        "LSS request ",
        words,
        request_parameter(specifier),
        bytes,
    )
}

/// Appends what an LSS slave answers.
pub(crate) fn push_lss_answer(text: &mut String, bytes: &[u8]) -> Result<(), AllocError>
    requires { length bytes.now ≡ 8 }
    ensures { OnOk result
        (string_bytes text.new ≡ string_bytes text.old ++ lss_answer_words bytes.now) }
{
    let specifier = bytes[0];
    let words = answer_words(specifier);
    push_lss(
        text,
        "LSS answer ",
        words,
        answer_parameter(specifier),
        bytes,
    )
}
