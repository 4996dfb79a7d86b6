//! The line of a frame, as `candump -L` writes it. Each function appends a text. `Err`: out of
//! memory; a part of the text may be there.

ghost use Rattle.std.specs.Prelude.{◌≡◌, ◌++◌, ◌∷◌, [], ◌<◌, ◌^◌, ◌%◌, OnOk, codes};
ghost use Rattle.std.specs.List.{flat_map};
ghost use Rattle.co_text.specs.Printed.{byte_text, digits_text, printed_digit};
ghost use Rattle.conode_trace.specs.Printed.{seconds_text};
ghost use Rattle.conode_convert.specs.Printed.{
  stamp_text,
  place_text,
  id_text,
  length_text,
  content_text,
  direction_text,
  frame_text,
  line_text,
};

use co_text::{byte_digits, decimal_digits, word_digits};
use conode_logs::{LogContent, LogFrame, Place};
use conode_record::{Direction, Identifier};
use std::alloc::AllocError;

/// From here on seconds have more than ten digits.
const MANY_SECONDS: u64 = 10_000_000_000;

// a digit in upper case
fn digit(number: u8) -> u8
    requires { number < 16 }
    ensures { result ≡ printed_digit number }
{
    if number < 10 {
        b'0' + number
    } else {
        b'A' + (number - 10)
    }
}

// the last decimal digit
#[inline(always)]
fn last_digit(number: u32) -> u8
    ensures { result ≡ printed_digit (number % 10) }
{
    b'0' + (number % 10) as u8
}

#[tactic(auto, unfolding(co_text::specs::Printed::digits_text))]
fn add_five(line: &mut Vec<u8>, number: u32) -> Result<(), AllocError>
    ensures { OnOk result (line.new.items ≡ line.old.items ++ digits_text 10 5 number) }
{
    let tens = number / 10;
    let hundreds = tens / 10;
    let thousands = hundreds / 10;
    let digits = [
        last_digit(thousands / 10),
        last_digit(thousands),
        last_digit(hundreds),
        last_digit(tens),
        last_digit(number),
    ];
    line.extend_from_slice(&digits)
}

// seconds in ten digits
#[tactic(auto, using(crate::proofs::Seconds::ten))]
fn add_ten(line: &mut Vec<u8>, seconds: u64) -> Result<(), AllocError>
    requires { seconds < 10 ^ 10 }
    ensures { OnOk result (line.new.items ≡ line.old.items ++ seconds_text seconds) }
{
    attempt!(add_five(line, (seconds / 100_000) as u32));
    add_five(line, (seconds % 100_000) as u32)
}

#[tactic(auto, unfolding(conode_trace::specs::Printed::seconds_text))]
fn add_seconds(line: &mut Vec<u8>, seconds: u64) -> Result<(), AllocError>
    ensures { OnOk result (line.new.items ≡ line.old.items ++ seconds_text seconds) }
{
    if seconds < MANY_SECONDS {
        add_ten(line, seconds)
    } else {
        line.extend_from_slice(decimal_digits(seconds).as_str().as_bytes())
    }
}

// the microseconds of a stamp, with what is around them
#[tactic(auto, unfolding(co_text::specs::Printed::digits_text))]
fn add_micros(line: &mut Vec<u8>, micros: u32) -> Result<(), AllocError>
    ensures { OnOk result (line.new.items
        ≡ line.old.items ++ codes "." ++ digits_text 10 6 micros ++ codes ") ") }
{
    let tens = micros / 10;
    let hundreds = tens / 10;
    let thousands = hundreds / 10;
    let last = thousands / 10;
    let digits = [
        b'.',
        last_digit(last / 10),
        last_digit(last),
        last_digit(thousands),
        last_digit(hundreds),
        last_digit(tens),
        last_digit(micros),
        b')',
        b' ',
    ];
    line.extend_from_slice(&digits)
}

// a stamp, and a blank
#[tactic(auto, unfolding(crate::specs::Printed::stamp_text))]
fn add_stamp(line: &mut Vec<u8>, micros: u64) -> Result<(), AllocError>
    ensures { OnOk result
        (line.new.items ≡ line.old.items ++ stamp_text micros ++ codes " ") }
{
    attempt!(line.extend_from_slice(b"("));
    attempt!(add_seconds(line, micros / 1_000_000));
    add_micros(line, (micros % 1_000_000) as u32)
}

fn add_place(line: &mut Vec<u8>, place: &Place<'_>) -> Result<(), AllocError>
    ensures { OnOk result (line.new.items ≡ line.old.items ++ place_text place.now) }
{
    match place {
        Place::Interface(name) => line.extend_from_slice(name.bytes()),
        Place::Channel(number) => {
            attempt!(line.extend_from_slice(b"can"));
            let number = u64::from(number.saturating_sub(1));
            line.extend_from_slice(decimal_digits(number).as_str().as_bytes())
        }
    }
}

fn add_byte(line: &mut Vec<u8>, byte: u8) -> Result<(), AllocError>
    ensures { OnOk result (line.new.items ≡ line.old.items ++ byte_text byte) }
{
    line.extend_from_slice(byte_digits(byte).as_str().as_bytes())
}

fn add_bytes(line: &mut Vec<u8>, bytes: &[u8]) -> Result<(), AllocError>
    ensures { OnOk result (line.new.items ≡ line.old.items ++ flat_map byte_text bytes.now) }
{
    for byte in bytes {
        attempt!(add_byte(line, *byte));
    }
    Ok(())
}

#[tactic(auto, unfolding(co_text::specs::Printed::digits_text))]
fn add_short(line: &mut Vec<u8>, id: u16) -> Result<(), AllocError>
    ensures { OnOk result (line.new.items ≡ line.old.items ++ digits_text 16 3 id) }
{
    let front = id / 16;
    let digits = [
        digit((front / 16 % 16) as u8),
        digit((front % 16) as u8),
        digit((id % 16) as u8),
    ];
    line.extend_from_slice(&digits)
}

fn add_four(line: &mut Vec<u8>, number: u16) -> Result<(), AllocError>
    ensures { OnOk result (line.new.items ≡ line.old.items ++ digits_text 16 4 number) }
{
    line.extend_from_slice(word_digits(number).as_str().as_bytes())
}

fn add_eight(line: &mut Vec<u8>, id: u32) -> Result<(), AllocError>
    ensures { OnOk result (line.new.items ≡ line.old.items ++ digits_text 16 8 id) }
{
    attempt!(add_four(line, (id / 65536) as u16));
    add_four(line, (id % 65536) as u16)
}

fn add_id(line: &mut Vec<u8>, id: Identifier) -> Result<(), AllocError>
    ensures { OnOk result (line.new.items ≡ line.old.items ++ id_text id) }
{
    match id {
        Identifier::Base(id) => add_short(line, id),
        Identifier::Extended(id) => add_eight(line, id),
        Identifier::Error(class) => add_eight(line, class % 0x2000_0000 + 0x2000_0000),
    }
}

fn add_length(line: &mut Vec<u8>, count: u8) -> Result<(), AllocError>
    ensures { OnOk result (line.new.items ≡ line.old.items ++ length_text count) }
{
    if count == 0 {
        return Ok(());
    }
    line.extend_from_slice(decimal_digits(u64::from(count)).as_str().as_bytes())
}

// data after their mark
fn add_data(line: &mut Vec<u8>, mark: &[u8], bytes: &[u8]) -> Result<(), AllocError>
    ensures { OnOk result
        (line.new.items ≡ line.old.items ++ mark.now ++ flat_map byte_text bytes.now) }
{
    attempt!(line.extend_from_slice(mark));
    add_bytes(line, bytes)
}

fn add_request(line: &mut Vec<u8>, count: u8) -> Result<(), AllocError>
    ensures { OnOk result
        (line.new.items ≡ line.old.items ++ codes "#R" ++ length_text count) }
{
    attempt!(line.extend_from_slice(b"#R"));
    add_length(line, count)
}

fn add_content(line: &mut Vec<u8>, content: &LogContent) -> Result<(), AllocError>
    ensures { OnOk result (line.new.items ≡ line.old.items ++ content_text content.now) }
{
    match content {
        LogContent::Data(bytes) => add_data(line, b"#", bytes.bytes()),
        LogContent::Remote(count) => add_request(line, *count),
        LogContent::Fd(flags, bytes) => {
            let mark = [b'#', b'#', digit(*flags % 16)];
            add_data(line, &mark, bytes.bytes())
        }
    }
}

fn direction_text(direction: Option<Direction>) -> &'static [u8]
    ensures { result.now ≡ direction_text direction }
{
    match direction {
        None => b"",
        Some(Direction::Received) => b" R",
        Some(Direction::Sent) => b" T",
    }
}

/// Appends the text of a frame, as `candump -L` writes it, without a line feed.
#[tactic(auto, unfolding(crate::specs::Printed::frame_text))]
pub fn add_frame(line: &mut Vec<u8>, frame: &LogFrame<'_>) -> Result<(), AllocError>
    ensures { OnOk result (line.new.items ≡ line.old.items ++ frame_text frame.now) }
{
    attempt!(add_stamp(line, frame.micros));
    attempt!(add_place(line, &frame.place));
    attempt!(line.extend_from_slice(b" "));
    attempt!(add_id(line, frame.id));
    attempt!(add_content(line, &frame.content));
    line.extend_from_slice(direction_text(frame.direction))
}

/// Appends the line of a frame, with its line feed.
#[tactic(auto, unfolding(crate::specs::Printed::line_text))]
pub(crate) fn add_line(line: &mut Vec<u8>, frame: &LogFrame<'_>) -> Result<(), AllocError>
    ensures { OnOk result (line.new.items ≡ line.old.items ++ line_text frame.now) }
{
    attempt!(add_frame(line, frame));
    line.extend_from_slice(b"\n")
}
