//! The line of a choice, and the last line with their number.

ghost use Rattle.std.specs.Prelude.{◌≡◌, OnOk, string_bytes};
ghost use Rattle.conode_compare_text.specs.ChoiceTexts.{
  choice_line,
  choice_text,
  choices_summary,
  choices_words,
  missing_words,
  other_words,
};
ghost use Rattle.conode_compare_text.specs.Values.{said_text};

use crate::tally::{Tally, push_tally};
use crate::value::{Said, Value, set_line};
use conode_compare_choices::{Choice, LengthError};
use conode_text::push_filled;
use std::alloc::AllocError;

/// What came, and that its EMCY didn't, in the order of `LengthError`.
static MISSING: [&str; 3] = [
    "choice-emcy: an RPDO is too short, and EMCY 8210h didn't come for %",
    "choice-emcy: an RPDO is too long, and EMCY 8220h didn't come for %",
    "choice-emcy: a SYNC has another length, and EMCY 8240h didn't come for %",
];

/// What came, and that another EMCY did, in this order.
static OTHERS: [&str; 3] = [
    "choice-emcy: an RPDO is too short, and EMCY 8200h came, not 8210h",
    "choice-emcy: an RPDO is too long, and EMCY 8200h came, not 8220h",
    "choice-emcy: a SYNC has another length, and EMCY 8200h came, not 8240h",
];

fn missing_words(error: LengthError) -> &'static str
    ensures { result.now ≡ missing_words error }
{
    MISSING[error as usize]
}

fn other_words(error: LengthError) -> &'static str
    ensures { result.now ≡ other_words error }
{
    OTHERS[error as usize]
}

// the name of the kind, and what was chosen
#[tactic(auto, unfolding(crate::specs::ChoiceTexts::choice_text))]
fn choice_said(choice: Choice) -> Said
    ensures { said_text result ≡ choice_text choice }
{
    match choice {
        Choice::Segments(key, bytes) => Said::Two(
            "choice-segments: % has %, and is uploaded in segments",
            Value::Key(key),
            Value::Bytes(bytes),
        ),
        Choice::NoSize(key) => Said::One(
            "choice-size: % is uploaded without its size",
            Value::Key(key),
        ),
        Choice::ShortSegment(key, bytes) => Said::Two(
            "choice-short-segment: % is uploaded, a segment before the last has %",
            Value::Key(key),
            Value::Bytes(bytes as u64),
        ),
        Choice::NoCrc(key) => Said::One(
            "choice-crc: % is transferred in blocks without a CRC",
            Value::Key(key),
        ),
        Choice::BlockSize(key, segments) => Said::Two(
            "choice-block-size: % is downloaded, sub-blocks of % segments are asked for",
            Value::Key(key),
            Value::Number(segments as u64),
        ),
        Choice::Switched(key) => Said::One(
            "choice-switch: % is asked for in blocks, and uploaded by another protocol",
            Value::Key(key),
        ),
        Choice::Code(key, came, fitting) => Said::Three(
            "choice-code: % is refused with %, and not with %",
            Value::Key(key),
            Value::Hexadecimal(came as u64),
            Value::Hexadecimal(fitting as u64),
        ),
        Choice::Timeout(key) => Said::One(
            "choice-timeout: the transfer of % is aborted since it timed out",
            Value::Key(key),
        ),
        Choice::NoTimeout(key, waited, time) => Said::Three(
            "choice-timeout: the transfer of % goes on % after the client's frame before, the timeout is % ms",
            Value::Key(key),
            Value::Millis(waited),
            Value::Number(time as u64),
        ),
        Choice::Heartbeat(passed, period) => Said::Two(
            "choice-heartbeat: % since the last one, 1017:00 has % ms",
            Value::Millis(passed),
            Value::Number(period as u64),
        ),
        Choice::Phase(number, syncs, kind) => Said::Three(
            "choice-phase: TPDO % is sent at SYNC % since the start, its type is %",
            Value::Number(number as u64),
            Value::Number(syncs as u64),
            Value::Number(kind as u64),
        ),
        Choice::NoEmergency(error, passed) => Said::One(
            missing_words(error),
            Value::Millis(passed),
        ),
        Choice::OtherEmergency(error) => Said::Alone(other_words(error)),
    }
}

/// Sets a text to the line of a choice, with its line feed: the name of the recording, and the
/// number of its line. On an `Err` memory ran out, and a part of it may be there.
#[tactic(auto, unfolding(crate::specs::ChoiceTexts::choice_line))]
pub fn set_choice_line(
    text: &mut String,
    recording: &str,
    line: u64,
    choice: Choice,
) -> Result<(), AllocError>
    ensures { OnOk result (string_bytes text.new ≡ choice_line recording.now line choice) }
{
    set_line(text, recording, line, choice_said(choice))
}

// how many choices there are, in the last line
fn choices_words(choices: u64) -> &'static str
    ensures { result.now ≡ choices_words choices }
{
    if choices == 1 {
        ", % choice\n"
    } else {
        ", % choices\n"
    }
}

/// Sets a text to the line that ends a comparison with the number of choices, with its line feed.
/// On an `Err` memory ran out, and a part of it may be there.
#[tactic(auto, unfolding(crate::specs::ChoiceTexts::choices_summary))]
pub fn set_choices_summary(
    text: &mut String,
    node: u8,
    tally: Tally,
    choices: u64,
) -> Result<(), AllocError>
    ensures { OnOk result (string_bytes text.new ≡ choices_summary node tally choices) }
{
    text.clear();
    attempt!(push_tally(text, node, tally));
    push_filled(text, choices_words(choices), &[Value::Number(choices)])
}
