//! Emergency error codes in words (CiA 301, 7.2.7.1, table 26; of drives also CiA 402).

ghost use Rattle.std.specs.Prelude.{◌≡◌, ◌++◌, ◌/◌, OnOk, string_bytes};
ghost use Rattle.conode_explain_services.specs.Codes.{
  class_for,
  class_words,
  code_words,
  drive_class_words,
  drive_code_words,
  drive_single,
  group_words,
  in_brackets,
  known_class,
  or_else,
  single_for,
  single_words,
};

use crate::texts::{Row, words_in};
use std::alloc::AllocError;

/// The classes of codes, which are their two upper digits.
const CLASSES: [Row; 25] = [
    Row(0x00, "error reset or no error"),
    Row(0x10, "generic error"),
    Row(0x20, "current"),
    Row(0x21, "current, input side"),
    Row(0x22, "current inside the device"),
    Row(0x23, "current, output side"),
    Row(0x30, "voltage"),
    Row(0x31, "mains voltage"),
    Row(0x32, "voltage inside the device"),
    Row(0x33, "output voltage"),
    Row(0x40, "temperature"),
    Row(0x41, "ambient temperature"),
    Row(0x42, "device temperature"),
    Row(0x50, "device hardware"),
    Row(0x60, "device software"),
    Row(0x61, "internal software"),
    Row(0x62, "user software"),
    Row(0x63, "data set"),
    Row(0x70, "additional modules"),
    Row(0x80, "monitoring"),
    Row(0x81, "communication"),
    Row(0x82, "protocol error"),
    Row(0x90, "external error"),
    Row(0xF0, "additional functions"),
    Row(0xFF, "device specific"),
];

// the words of a class, which is the two upper digits of a code; empty for one that the standard
// doesn't have
#[tactic(auto, unfolding(crate::specs::Codes::known_class))]
fn known_class(class: u8) -> &'static str
    ensures { result.now ≡ known_class class }
{
    words_in(&CLASSES, class as u16)
}

fn group_words(class: u8) -> &'static str
    ensures { result.now ≡ group_words class }
{
    if class < 16 {
        ""
    } else {
        known_class(class - class % 16)
    }
}

// words, or where there are none others
fn or_else(words: &'static str, others: &'static str) -> &'static str
    ensures { result.now ≡ or_else words.now others.now }
{
    if words.is_empty() { others } else { words }
}

fn class_words(class: u8) -> &'static str
    ensures { result.now ≡ class_words class }
{
    or_else(known_class(class), group_words(class))
}

/// The codes of their own.
const SINGLE_CODES: [Row; 10] = [
    Row(0x8110, "CAN overrun, objects lost"),
    Row(0x8120, "CAN in error passive mode"),
    Row(0x8130, "life guard error or heartbeat error"),
    Row(0x8140, "recovered from bus-off"),
    Row(0x8150, "CAN-ID collision"),
    Row(0x8210, "PDO not processed due to length error"),
    Row(0x8220, "PDO length exceeded"),
    Row(
        0x8230,
        "DAM MPDO not processed, destination object not available",
    ),
    Row(0x8240, "unexpected SYNC data length"),
    Row(0x8250, "RPDO timeout"),
];

// the words of a code of its own; empty for every other one
#[tactic(auto, unfolding(crate::specs::Codes::single_words))]
fn single_words(code: u16) -> &'static str
    ensures { result.now ≡ single_words code }
{
    words_in(&SINGLE_CODES, code)
}

/// The classes that CiA 402 has beside those of CiA 301.
const DRIVE_CLASSES: [Row; 21] = [
    Row(0x43, "drive temperature"),
    Row(0x44, "supply temperature"),
    Row(0x51, "supply"),
    Row(0x52, "control hardware"),
    Row(0x53, "operating unit"),
    Row(0x54, "power section"),
    Row(0x55, "data storage"),
    Row(0x71, "power"),
    Row(0x72, "measurement circuit"),
    Row(0x73, "sensor"),
    Row(0x74, "computation circuit"),
    Row(0x75, "communication module"),
    Row(0x76, "data storage module"),
    Row(0x83, "torque control"),
    Row(0x84, "velocity controller"),
    Row(0x85, "position controller"),
    Row(0x86, "positioning controller"),
    Row(0x87, "synchronisation controller"),
    Row(0x88, "winding controller"),
    Row(0x89, "process data monitoring"),
    Row(0x8A, "control"),
];

#[tactic(auto, unfolding(crate::specs::Codes::drive_class_words))]
fn drive_class_words(class: u8) -> &'static str
    ensures { result.now ≡ drive_class_words class }
{
    words_in(&DRIVE_CLASSES, class as u16)
}

/// The codes of CiA 402.
const DRIVE_CODES: [Row; 105] = [
    Row(0x2110, "short circuit or earth leakage"),
    Row(0x2120, "earth leakage"),
    Row(0x2130, "short circuit"),
    Row(0x2211, "number 1"),
    Row(0x2212, "number 2"),
    Row(0x2213, "overcurrent in the ramp function"),
    Row(0x2214, "overcurrent in the sequence"),
    Row(0x2220, "continuous overcurrent"),
    Row(0x2230, "short circuit or earth leakage"),
    Row(0x2240, "earth leakage"),
    Row(0x2250, "short circuit"),
    Row(0x2310, "continuous overcurrent"),
    Row(0x2320, "short circuit or earth leakage"),
    Row(0x2330, "earth leakage"),
    Row(0x2340, "short circuit"),
    Row(0x2350, "load level fault, by I2t or thermal state"),
    Row(0x2351, "load level warning, by I2t or thermal state"),
    Row(0x3110, "overvoltage"),
    Row(0x3120, "undervoltage"),
    Row(0x3130, "phase failure"),
    Row(0x3134, "phase sequence"),
    Row(0x3140, "frequency"),
    Row(0x3141, "frequency too great"),
    Row(0x3142, "frequency too small"),
    Row(0x3210, "DC link overvoltage"),
    Row(0x3220, "DC link undervoltage"),
    Row(0x3230, "load error"),
    Row(0x3310, "overvoltage"),
    Row(0x3320, "armature circuit"),
    Row(0x3321, "armature circuit interrupted"),
    Row(0x3330, "field circuit"),
    Row(0x3331, "field circuit interrupted"),
    Row(0x4110, "too high"),
    Row(0x4120, "too low"),
    Row(0x4130, "supply air"),
    Row(0x4140, "air outlet"),
    Row(0x4210, "too high"),
    Row(0x4220, "too low"),
    Row(0x4310, "too high"),
    Row(0x4320, "too low"),
    Row(0x4410, "too high"),
    Row(0x4420, "too low"),
    Row(0x5110, "low-voltage supply"),
    Row(0x5111, "+/-15 V supply"),
    Row(0x5112, "+24 V supply"),
    Row(0x5113, "+5 V supply"),
    Row(0x5120, "intermediate circuit"),
    Row(0x5210, "measurement circuit"),
    Row(0x5220, "computing circuit"),
    Row(0x5410, "output stages"),
    Row(0x5420, "chopper"),
    Row(0x5430, "input stages"),
    Row(0x5440, "contacts"),
    Row(0x5450, "fuses"),
    Row(0x5510, "working memory"),
    Row(0x5520, "program memory"),
    Row(0x5530, "non-volatile memory"),
    Row(0x6010, "software reset by the watchdog"),
    Row(0x6301, "number 1"),
    Row(0x6302, "number 2"),
    Row(0x6303, "number 3"),
    Row(0x6304, "number 4"),
    Row(0x6305, "number 5"),
    Row(0x6306, "number 6"),
    Row(0x6307, "number 7"),
    Row(0x6308, "number 8"),
    Row(0x6309, "number 9"),
    Row(0x630A, "number 10"),
    Row(0x630B, "number 11"),
    Row(0x630C, "number 12"),
    Row(0x630D, "number 13"),
    Row(0x630E, "number 14"),
    Row(0x630F, "number 15"),
    Row(0x6310, "loss of parameters"),
    Row(0x6320, "parameter error"),
    Row(0x7110, "brake chopper"),
    Row(0x7111, "brake chopper failed"),
    Row(0x7112, "brake chopper overcurrent"),
    Row(0x7113, "brake chopper protective circuit"),
    Row(0x7120, "motor"),
    Row(0x7121, "motor blocked"),
    Row(0x7122, "motor error or commutation malfunction"),
    Row(0x7123, "motor tilted"),
    Row(0x7301, "tacho fault"),
    Row(0x7302, "tacho with wrong polarity"),
    Row(0x7303, "resolver 1 fault"),
    Row(0x7304, "resolver 2 fault"),
    Row(0x7305, "incremental sensor 1 fault"),
    Row(0x7306, "incremental sensor 2 fault"),
    Row(0x7307, "incremental sensor 3 fault"),
    Row(0x7310, "speed"),
    Row(0x7320, "position"),
    Row(0x7510, "serial interface 1"),
    Row(0x7520, "serial interface 2"),
    Row(0x8311, "excess torque"),
    Row(0x8312, "difficult start-up"),
    Row(0x8313, "standstill torque"),
    Row(0x8321, "insufficient torque"),
    Row(0x8331, "torque fault"),
    Row(0x8611, "following error"),
    Row(0x8612, "reference limit"),
    Row(0xF001, "deceleration"),
    Row(0xF002, "sub-synchronous run"),
    Row(0xF003, "stroke operation"),
    Row(0xF004, "control"),
];

#[tactic(auto, unfolding(crate::specs::Codes::drive_code_words))]
fn drive_code_words(code: u16) -> &'static str
    ensures { result.now ≡ drive_code_words code }
{
    words_in(&DRIVE_CODES, code)
}

// of a code that the table lacks those of the one that ends with 0
fn drive_single(code: u16) -> &'static str
    ensures { result.now ≡ drive_single code }
{
    or_else(drive_code_words(code), drive_code_words(code - code % 16))
}

fn class_for(drive: bool, class: u8) -> &'static str
    ensures { result.now ≡ class_for drive class }
{
    let own = if drive { drive_class_words(class) } else { "" };
    or_else(own, class_words(class))
}

fn single_for(drive: bool, code: u16) -> &'static str
    ensures { result.now ≡ single_for drive code }
{
    let own = if drive { drive_single(code) } else { "" };
    or_else(single_words(code), own)
}

#[tactic(auto, unfolding(conode_text::specs::Filled::filled))]
fn push_in_brackets<'a>(
    text: &mut String,
    class: &'a str,
    single: &'a str,
) -> Result<(), AllocError>
    ensures { OnOk result
        (string_bytes text.new ≡ string_bytes text.old ++ in_brackets class.now single.now) }
{
    if class.is_empty() {
        return Ok(());
    }
    attempt!(text.push_str(" ("));
    attempt!(text.push_str(class));
    if !single.is_empty() {
        attempt!(text.push_str(": "));
        attempt!(text.push_str(single));
    }
    text.push_str(")")
}

/// Appends the words of a code in brackets, of a device that is a drive or isn't; nothing where the
/// standards don't have its group.
#[tactic(auto, unfolding(crate::specs::Codes::code_words))]
pub(crate) fn push_code_words(text: &mut String, drive: bool, code: u16) -> Result<(), AllocError>
    ensures { OnOk result
        (string_bytes text.new ≡ string_bytes text.old ++ code_words drive code) }
{
    push_in_brackets(
        text,
        class_for(drive, (code / 256) as u8),
        single_for(drive, code),
    )
}
