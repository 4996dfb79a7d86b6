//! What the values of a drive's entries mean (CiA 402).

ghost use Rattle.std.specs.Prelude.{◌≡◌, ◌++◌, OnOk, string_bytes};
ghost use Rattle.conode_explain_services.specs.Drives.{
  after_digits,
  also_reset,
  axis_index,
  bracketed,
  command_words,
  controlword_words,
  drive_words,
  first_words,
  has_meaning,
  is_drive,
  is_mode,
  known_or,
  meaning_at,
  meaning_of,
  meaning_text,
  mode_words,
  state_words,
  statusword_words,
  where_set,
  word_text,
};

use crate::codes::push_code_words;
use crate::texts::{Row, words_in};
use co_value::{Key, read_u16};
use conode_text::{Value, push_filled};
use std::alloc::AllocError;

/// What the value of an entry of a drive is.
#[derive(Clone, Copy)]
pub(crate) enum Meaning {
    /// 603Fh.
    ErrorCode,
    /// 6040h.
    Controlword,
    /// 6041h.
    Statusword,
    /// 6060h, and as it is displayed 6061h.
    Mode,
}

/// Whether a device is a drive, by its device type 1000:00: the device profile is 402.
pub fn is_drive(device_type: u32) -> bool
    ensures { result ≡ is_drive device_type }
{
    device_type % 65536 == 0x0192
}

// the index of the first axis for an index of one of the 8 axes, else 0
fn axis_index(index: u16) -> u16
    ensures { result ≡ axis_index index }
{
    if 0x5FFF < index && index < 0xA000 {
        0x6000 + index % 0x800
    } else {
        0
    }
}

fn where_set(word: u16, place: u16, text: &'static str) -> &'static str
    ensures { result.now ≡ where_set word place text.now }
{
    if word & place == place { text } else { "" }
}

#[tactic(auto, unfolding(crate::specs::Drives::command_words))]
fn command_words(word: u16) -> &'static str
    ensures { result.now ≡ command_words word }
{
    if word & 0x02 == 0 {
        "disable voltage"
    } else if word & 0x04 == 0 {
        "quick stop"
    } else if word & 0x01 == 0 {
        "shutdown"
    } else if word & 0x08 == 0 {
        "switch on or disable operation"
    } else {
        "enable operation"
    }
}

fn first_words(word: u16) -> &'static str
    ensures { result.now ≡ first_words word }
{
    if word & 0x8F == 0x80 {
        "fault reset"
    } else {
        command_words(word)
    }
}

fn also_reset(word: u16) -> &'static str
    ensures { result.now ≡ also_reset word }
{
    if word & 0x8F == 0x80 {
        ""
    } else {
        where_set(word, 0x80, ", fault reset")
    }
}

#[tactic(auto, unfolding(crate::specs::Drives::controlword_words, conode_text::specs::Filled::filled))]
fn push_controlword(text: &mut String, word: u16) -> Result<(), AllocError>
    ensures { OnOk result (string_bytes text.new
        ≡ string_bytes text.old ++ after_digits word (controlword_words word)) }
{
    let halt = where_set(word, 0x100, ", halt");
    push_filled(
        text,
        " (%, %%%)",
        &[
            Value::Short(word),
            Value::Words(first_words(word)),
            Value::Words(also_reset(word)),
            Value::Words(halt),
        ],
    )
}

/// The states of a statusword, by its bits.
const STATES: [Row; 12] = [
    Row(0x00, "not ready to switch on"),
    Row(0x20, "not ready to switch on"),
    Row(0x40, "switch on disabled"),
    Row(0x60, "switch on disabled"),
    Row(0x21, "ready to switch on"),
    Row(0x23, "switched on"),
    Row(0x27, "operation enabled"),
    Row(0x07, "quick stop active"),
    Row(0x0F, "fault reaction active"),
    Row(0x2F, "fault reaction active"),
    Row(0x08, "fault"),
    Row(0x28, "fault"),
];

#[tactic(auto, unfolding(crate::specs::Drives::state_words))]
fn state_words(bits: u16) -> &'static str
    ensures { result.now ≡ state_words bits }
{
    words_in(&STATES, bits)
}

fn known_or(words: &'static str) -> &'static str
    ensures { result.now ≡ known_or words.now }
{
    if words.is_empty() { "no state" } else { words }
}

#[tactic(auto, unfolding(crate::specs::Drives::statusword_words, conode_text::specs::Filled::filled))]
fn push_statusword(text: &mut String, word: u16) -> Result<(), AllocError>
    ensures { OnOk result (string_bytes text.new
        ≡ string_bytes text.old ++ after_digits word (statusword_words word)) }
{
    push_filled(
        text,
        " (%, %%%%)",
        &[
            Value::Short(word),
            Value::Words(known_or(state_words(word & 0x6F))),
            Value::Words(where_set(word, 0x080, ", warning")),
            Value::Words(where_set(word, 0x400, ", target reached")),
            Value::Words(where_set(word, 0x800, ", internal limit")),
        ],
    )
}

/// The modes of operation from 0 on.
const MODES: [Row; 11] = [
    Row(0, "no mode"),
    Row(1, "profile position"),
    Row(2, "velocity"),
    Row(3, "profile velocity"),
    Row(4, "profile torque"),
    Row(6, "homing"),
    Row(7, "interpolated position"),
    Row(8, "cyclic synchronous position"),
    Row(9, "cyclic synchronous velocity"),
    Row(10, "cyclic synchronous torque"),
    Row(11, "cyclic synchronous torque with commutation angle"),
];

// the words of a mode from 0 on
#[tactic(auto, unfolding(crate::specs::Drives::mode_words))]
fn mode_words(mode: u8) -> &'static str
    ensures { result.now ≡ mode_words mode }
{
    if mode > 127 {
        "mode of the manufacturer"
    } else {
        words_in(&MODES, mode as u16)
    }
}

#[tactic(auto, unfolding(conode_text::specs::Filled::filled))]
fn push_bracketed(text: &mut String, words: &str) -> Result<(), AllocError>
    ensures { OnOk result (string_bytes text.new ≡ string_bytes text.old ++ bracketed words.now) }
{
    if words.is_empty() {
        return Ok(());
    }
    push_filled(text, " (%)", &[Value::Words(words)])
}

#[tactic(auto, unfolding(crate::specs::Drives::meaning_at))]
fn meaning_at(index: u16) -> Option<Meaning>
    ensures { result ≡ meaning_at index }
{
    match index {
        0x603F => Some(Meaning::ErrorCode),
        0x6040 => Some(Meaning::Controlword),
        0x6041 => Some(Meaning::Statusword),
        0x6060 | 0x6061 => Some(Meaning::Mode),
        _ => None,
    }
}

fn is_mode(meaning: Meaning) -> bool
    ensures { result ≡ is_mode meaning }
{
    match meaning {
        Meaning::ErrorCode | Meaning::Controlword | Meaning::Statusword => false,
        Meaning::Mode => true,
    }
}

fn meaning_of(key: Key) -> Option<Meaning>
    ensures { result ≡ meaning_of key }
{
    if key.sub == 0 {
        meaning_at(axis_index(key.index))
    } else {
        None
    }
}

/// Whether the values of an entry of a drive have a meaning.
pub fn has_meaning(key: Key) -> bool
    ensures { result ≡ has_meaning key }
{
    meaning_of(key).is_some()
}

#[tactic(auto, unfolding(crate::specs::Drives::word_text))]
fn push_word(text: &mut String, meaning: Meaning, word: u16) -> Result<(), AllocError>
    ensures { OnOk result
        (string_bytes text.new ≡ string_bytes text.old ++ word_text meaning word) }
{
    match meaning {
        Meaning::ErrorCode => push_code_words(text, true, word),
        Meaning::Controlword => push_controlword(text, word),
        Meaning::Statusword => push_statusword(text, word),
        Meaning::Mode => Ok(()),
    }
}

fn push_meaning(text: &mut String, meaning: Meaning, bytes: &[u8]) -> Result<(), AllocError>
    ensures { OnOk result
        (string_bytes text.new ≡ string_bytes text.old ++ meaning_text meaning bytes.now) }
{
    if bytes.len() == 2 {
        return push_word(text, meaning, read_u16(bytes));
    }
    if is_mode(meaning) && bytes.len() == 1 {
        return push_bracketed(text, mode_words(bytes[0]));
    }
    Ok(())
}

/// Appends what the value of an entry of a drive means, in brackets after a blank: of the
/// controlword and the statusword, with their hexadecimal digits, the error code and the modes of
/// operation, of each of 8 axes; nothing for every other entry. The value is its bytes, the low one
/// first. On an `Err` memory ran out, and a part of it may be there.
#[tactic(auto, unfolding(crate::specs::Drives::drive_words))]
pub fn push_drive(text: &mut String, key: Key, bytes: &[u8]) -> Result<(), AllocError>
    ensures { OnOk result
        (string_bytes text.new ≡ string_bytes text.old ++ drive_words key bytes.now) }
{
    match meaning_of(key) {
        Some(meaning) => push_meaning(text, meaning, bytes),
        None => Ok(()),
    }
}
