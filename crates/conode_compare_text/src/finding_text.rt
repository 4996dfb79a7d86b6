//! The line of a difference.

ghost use Rattle.std.specs.Prelude.{◌≡◌, ◌++◌, OnOk, string_bytes};
ghost use Rattle.conode_compare_text.specs.FindingTexts.{
  early_text,
  few_text,
  finding_line,
  finding_text,
  form_words,
  mismatch_text,
  pdo_text,
  state_name,
  transfer_text,
};
ghost use Rattle.conode_compare_text.specs.Values.{said_text};

use crate::details::Details;
use crate::value::{Said, Value, push_said, set_line};
use co_value::Key;
use conode_compare_nmt::{Finding, NmtState};
use conode_compare_pdos::Deviation;
use conode_compare_transfers::Breach;
use conode_compare_values::Mismatch;
use std::alloc::AllocError;

/// Their names, in the order of `NmtState`.
static STATES: [&str; 5] = [
    "unknown",
    "initialising",
    "pre-operational",
    "operational",
    "stopped",
];

fn state_name(state: NmtState) -> &'static str
    ensures { result.now ≡ state_name state }
{
    STATES[state as usize]
}

// of a TPDO, so many SYNCs after the last one
fn few_said(number: u8, syncs: u16, kind: u8) -> Said
    ensures { said_text result ≡ few_text number syncs kind }
{
    if syncs == 1 {
        return Said::Two(
            "pdo-sync: TPDO% 1 SYNC after the last one, its type is %",
            Value::Number(number as u64),
            Value::Number(kind as u64),
        );
    }
    Said::Three(
        "pdo-sync: TPDO% % SYNCs after the last one, its type is %",
        Value::Number(number as u64),
        Value::Number(syncs as u64),
        Value::Number(kind as u64),
    )
}

// what is different of a TPDO
#[tactic(auto, unfolding(crate::specs::FindingTexts::pdo_text))]
fn pdo_said(number: u8, deviation: Deviation) -> Said
    ensures { said_text result ≡ pdo_text number deviation }
{
    match deviation {
        Deviation::Length(length, mapped) => Said::Three(
            "pdo-length: TPDO% has %, its mapping %",
            Value::Number(number as u64),
            Value::Bytes(length as u64),
            Value::Number(mapped as u64),
        ),
        Deviation::NotOperational => Said::One(
            "pdo-state: TPDO% while the device isn't operational",
            Value::Number(number as u64),
        ),
        Deviation::WithoutSync => Said::One(
            "pdo-sync: TPDO% without a SYNC that it may answer",
            Value::Number(number as u64),
        ),
        Deviation::FewSyncs(syncs, kind) => few_said(number, syncs, kind),
        Deviation::Inhibit(passed, inhibit) => Said::Three(
            "pdo-inhibit: TPDO% % since the last one, its inhibit time is %",
            Value::Number(number as u64),
            Value::Millis(passed),
            Value::Millis(inhibit as u64 * 100),
        ),
        Deviation::Timer(passed, timer) => Said::Three(
            "pdo-late: TPDO% % since the last one, its event timer has % ms",
            Value::Number(number as u64),
            Value::Millis(passed),
            Value::Number(timer as u64),
        ),
    }
}

// of a transfer that was aborted so many microseconds after the client's last frame; `time`: the
// timeout in ms, 0 for none
fn early_said(key: Key, waited: u64, time: u16) -> Said
    ensures { said_text result ≡ early_text key waited time }
{
    if time == 0 {
        return Said::One(
            "abort-early: % was aborted as timed out, and the device has no timeout",
            Value::Key(key),
        );
    }
    Said::Three(
        "abort-early: % was aborted as timed out % after the client's last frame, the timeout is % ms",
        Value::Key(key),
        Value::Millis(waited),
        Value::Number(time as u64),
    )
}

// what is different in an open transfer
#[tactic(auto, unfolding(crate::specs::FindingTexts::transfer_text))]
fn transfer_said(details: Details, breach: Breach) -> Said
    ensures { said_text result ≡ transfer_text details breach }
{
    match breach {
        Breach::Toggle(key) => Said::One(
            "answer-toggle: % is transferred, a segment has the wrong toggle bit",
            Value::Key(key),
        ),
        Breach::Form(key) => Said::Two(
            "answer-form: % is transferred, which has no answer % here",
            Value::Key(key),
            Value::Answer(details.came),
        ),
        Breach::AbortKey(key) => Said::Two(
            "abort-key: % is transferred, the abort is of %",
            Value::Key(key),
            Value::Key(details.came.key),
        ),
        Breach::Size(key, indicated, bytes) => Said::Three(
            "answer-size: % has %, its response to initiate has %",
            Value::Key(key),
            Value::Bytes(bytes),
            Value::Number(indicated as u64),
        ),
        Breach::Crc(key, came, computed) => Said::Three(
            "answer-crc: % has the CRC %h, that of its bytes is %h",
            Value::Key(key),
            Value::Short(came),
            Value::Short(computed),
        ),
        Breach::Early(key, waited, time) => early_said(key, waited, time),
    }
}

// what is different at the end of a transfer
#[tactic(auto, unfolding(crate::specs::FindingTexts::mismatch_text))]
fn mismatch_said(details: Details, mismatch: Mismatch) -> Said
    ensures { said_text result ≡ mismatch_text details mismatch }
{
    match mismatch {
        Mismatch::ValueLength(key, length, width) => Said::Three(
            "value-length: % has %, its type %",
            Value::Key(key),
            Value::Bytes(length),
            Value::Number(width as u64),
        ),
        Mismatch::ValueConst(key, shown, held) => Said::Three(
            "value-const: % has %, the sheet %",
            Value::Key(key),
            Value::Shown(details.value_type, shown),
            Value::Shown(details.value_type, held),
        ),
        Mismatch::ConstText(key) => Said::One(
            "value-const: % has another text than the sheet",
            Value::Key(key),
        ),
        Mismatch::ReadRefused(key, code) => Said::Two(
            "access-read: % refused with %, the sheet has it as readable",
            Value::Key(key),
            Value::Long(code.0),
        ),
        Mismatch::ReadServed(key) => Said::One(
            "access-read: % was read, the sheet has it as write only",
            Value::Key(key),
        ),
        Mismatch::Written(key) => Said::One(
            "access-write: % was written, the sheet has it as read only",
            Value::Key(key),
        ),
        Mismatch::AboveLimit(key) => Said::Three(
            "access-limits: % was written, with %, its HighLimit is %",
            Value::Key(key),
            Value::Signed(details.passed.number),
            Value::Signed(details.passed.limit),
        ),
        Mismatch::BelowLimit(key) => Said::Three(
            "access-limits: % was written, with %, its LowLimit is %",
            Value::Key(key),
            Value::Signed(details.passed.number),
            Value::Signed(details.passed.limit),
        ),
        Mismatch::BeyondRoom(key, bytes, room) => Said::Three(
            "access-limits: % was written, with %, its room is %",
            Value::Key(key),
            Value::Bytes(bytes),
            Value::Number(room),
        ),
    }
}

// of an answer to an initiate request that has none of this form; `writes`: that asks to write
fn form_words(writes: bool) -> &'static str
    ensures { result.now ≡ form_words writes }
{
    if writes {
        "answer-form: a download to % was requested, which has no answer %"
    } else {
        "answer-form: an upload of % was requested, which has no answer %"
    }
}

// the name of the kind, and what is different
#[tactic(auto, unfolding(crate::specs::FindingTexts::finding_text))]
fn finding_said(details: Details, finding: Finding) -> Said
    ensures { said_text result ≡ finding_text details finding }
{
    match finding {
        Finding::BootMissing(passed) => Said::One(
            "boot-missing: no boot-up % after the reset command",
            Value::Millis(passed),
        ),
        Finding::SecondBootUp(passed) => Said::One(
            "second-sender: a boot-up % after the last one",
            Value::Millis(passed),
        ),
        Finding::HeartbeatLength(length) => Said::One(
            "heartbeat-length: % bytes, not 1",
            Value::Number(length as u64),
        ),
        Finding::NoState(byte) => Said::One(
            "heartbeat-state: %h is no NMT state",
            Value::Byte(byte),
        ),
        Finding::WrongState(shown, held) => Said::Two(
            "heartbeat-state: %, but by commands and heartbeats it is %",
            Value::Words(state_name(shown)),
            Value::Words(state_name(held)),
        ),
        Finding::TwoStates(shown, held) => Said::Two(
            "second-sender: %, again from % without a command",
            Value::Words(state_name(shown)),
            Value::Words(state_name(held)),
        ),
        Finding::HeartbeatLate(passed, period) => Said::Two(
            "heartbeat-late: % since the last one, 1017:00 has % ms",
            Value::Millis(passed),
            Value::Number(period as u64),
        ),
        Finding::LateAfterBootUp(passed, period) => Said::Two(
            "heartbeat-late: % since the boot-up, 1017:00 has % ms",
            Value::Millis(passed),
            Value::Number(period as u64),
        ),
        Finding::LateAfterTransfer(passed, period) => Said::Two(
            "heartbeat-late: % since a transfer of 1017:00, which has % ms",
            Value::Millis(passed),
            Value::Number(period as u64),
        ),
        Finding::HeartbeatOff => Said::Alone(
            "heartbeat-off: heartbeats go on, though 1017:00 has 0",
        ),
        Finding::EmergencyLength(length) => Said::One(
            "emcy-length: %, not 8",
            Value::Bytes(length as u64),
        ),
        Finding::EmergencyStopped => Said::Alone("emcy-state: an EMCY while stopped"),
        Finding::EmergencyRegister(code, register) => Said::Two(
            "emcy-register: code %h with error register %h, whose bit 0 isn't set",
            Value::Short(code),
            Value::Byte(register),
        ),
        Finding::EmergencyInhibit(passed, inhibit) => Said::Two(
            "emcy-inhibit: % since the last one, 1015:00 has %",
            Value::Millis(passed),
            Value::Millis(inhibit as u64 * 100),
        ),
        Finding::NoAnswer(key, passed) => Said::Two(
            "no-answer: % was requested % ago",
            Value::Key(key),
            Value::Millis(passed),
        ),
        Finding::Unasked => Said::Alone("second-sender: an answer without a request"),
        Finding::AnswerKey(key) => Said::Two(
            "answer-key: % was requested, % is answered",
            Value::Key(key),
            Value::Key(details.came.key),
        ),
        Finding::AnswerForm(key) => Said::Two(
            form_words(details.writes),
            Value::Key(key),
            Value::Answer(details.came),
        ),
        Finding::AnswerStopped(key) => Said::One(
            "answer-state: % is answered while stopped",
            Value::Key(key),
        ),
        Finding::Transfer(breach) => transfer_said(details, breach),
        Finding::Value(mismatch) => mismatch_said(details, mismatch),
        Finding::Held(mismatch) => Said::Three(
            "value-held: % has %, written was %",
            Value::Key(mismatch.key),
            Value::Shown(details.value_type, mismatch.shown),
            Value::Shown(details.value_type, mismatch.written),
        ),
        Finding::Pdo(number, deviation) => pdo_said(number, deviation),
    }
}

/// Appends the name of the kind, and what is different: `heartbeat-late: ..`. The values of an
/// entry are hexadecimal, and decimal beside a limit; a REAL32 is as `explain` shows it. On an `Err`
/// memory ran out, and a part of it may be there.
pub fn push_finding(text: &mut String, details: Details, finding: Finding) -> Result<(), AllocError>
    ensures { OnOk result (string_bytes text.new
        ≡ string_bytes text.old ++ finding_text details finding) }
{
    push_said(text, finding_said(details, finding))
}

/// Sets a text to the line of a difference, with its line feed, as `recording.log:123:
/// heartbeat-late: ..`: the name of the recording, and the number of its line. The values of an
/// entry are hexadecimal, and decimal beside a limit; those of the original type REAL32, which an
/// adapted sheet has in `OriginalDataType`, are as `explain` shows them. On an `Err` memory ran out,
/// and a part of it may be there.
#[tactic(auto, unfolding(crate::specs::FindingTexts::finding_line))]
pub fn set_finding_line(
    text: &mut String,
    recording: &str,
    line: u64,
    details: Details,
    finding: Finding,
) -> Result<(), AllocError>
    ensures { OnOk result
        (string_bytes text.new ≡ finding_line recording.now line details finding) }
{
    set_line(text, recording, line, finding_said(details, finding))
}
