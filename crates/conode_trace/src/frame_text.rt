//! The text of a frame, and the line of a frame that is sent.

ghost use Rattle.std.specs.Prelude.{◌≡◌, ◌<◌, ◌≤◌, ◌+◌, ◌*◌, ◌/◌, ◌%◌, ◌^◌, ◌++◌, length, OnOk, string_bytes};
ghost use Rattle.std.specs.List.{flat_map};
ghost use Rattle.arrayvec.specs.ArrayVec.{array_vec_len};
ghost use Rattle.co_text.specs.Printed.{byte_text, digits_text, printed_digit};
ghost use Rattle.conode_trace.specs.Printed.{frame_text, seconds_text, stamp_text, frame_line};

use arrayvec::ArrayVec;
use co_frame::Frame;
use co_text::{push_byte, push_bytes, push_digit};
use itoa::Buffer;
use std::alloc::AllocError;

/// The line of a frame. It has a fixed size and asks for no memory.
pub type FrameLine = ArrayVec<u8, 80>;

/// The hexadecimal digits: a look-up needs no branch between digits and letters.
static DIGITS: [u8; 16] = *b"0123456789ABCDEF";

/// From this time on, in ms, the seconds have more than ten digits.
const LONG_TIME: u128 = 10_000_000_000_000;

/// Appends a frame, as `605#2B17`: its identifier in three hexadecimal digits, a number sign, and
/// two digits a byte. `Err`: out of memory; the text may then have a part of it.
#[tactic(auto, unfolding(crate::specs::Printed::frame_text, co_text::specs::Printed::digits_text))]
pub fn push_frame(text: &mut String, frame: &Frame) -> Result<(), AllocError>
    ensures { OnOk result (string_bytes text.new ≡ string_bytes text.old ++ frame_text frame.now) }
{
    let id = frame.id();
    push_digit(text, (id / 256) as u8)?;
    push_byte(text, (id % 256) as u8)?;
    text.push('#')?;
    push_bytes(text, frame.bytes())
}

// appends bytes for which there is room
#[inline(always)]
fn put(line: &mut FrameLine, bytes: &[u8])
    requires { array_vec_len line.old + length bytes.now ≤ 80 }
    ensures items { line.new.items ≡ line.old.items ++ bytes.now }
    ensures len { array_vec_len line.new ≡ array_vec_len line.old + length bytes.now }
{
    line.try_extend_from_slice(bytes).unwrap();
}

// the last decimal digit
#[inline(always)]
fn last_digit(number: u32) -> u8
    ensures { result ≡ printed_digit (number % 10) }
{
    b'0' + (number % 10) as u8
}

#[inline(always)]
#[tactic(auto, unfolding(co_text::specs::Printed::digits_text))]
fn put_three(line: &mut FrameLine, number: u32)
    requires { array_vec_len line.old + 3 ≤ 80 }
    ensures items { line.new.items ≡ line.old.items ++ digits_text 10 3 number }
    ensures len { array_vec_len line.new ≡ array_vec_len line.old + 3 }
{
    let tens = number / 10;
    let digits = [last_digit(tens / 10), last_digit(tens), last_digit(number)];
    put(line, &digits);
}

#[inline(always)]
#[tactic(auto, unfolding(co_text::specs::Printed::digits_text))]
fn put_five(line: &mut FrameLine, number: u32)
    requires { array_vec_len line.old + 5 ≤ 80 }
    ensures items { line.new.items ≡ line.old.items ++ digits_text 10 5 number }
    ensures len { array_vec_len line.new ≡ array_vec_len line.old + 5 }
{
    let tens = number / 10;
    let hundreds = tens / 10;
    let thousands = hundreds / 10;
    let digits = [
        last_digit(thousands / 10),
        last_digit(thousands),
        last_digit(hundreds),
        last_digit(tens),
        last_digit(number),
    ];
    put(line, &digits);
}

// seconds in ten digits
#[inline(always)]
fn put_seconds(line: &mut FrameLine, seconds: u64)
    requires room { array_vec_len line.old + 10 ≤ 80 }
    requires short { seconds < 10 ^ 10 }
    ensures items { line.new.items ≡ line.old.items ++ seconds_text seconds }
    ensures len { array_vec_len line.new ≡ array_vec_len line.old + 10 }
{
    put_five(line, (seconds / 100_000) as u32);
    put_five(line, (seconds % 100_000) as u32);
}

// seconds in more than ten digits
#[cold]
fn put_long_seconds(line: &mut FrameLine, seconds: u128)
    requires room { array_vec_len line.old + 40 ≤ 80 }
    requires long { 10 ^ 10 ≤ seconds }
    ensures items { line.new.items ≡ line.old.items ++ seconds_text seconds }
    ensures len { array_vec_len line.new ≤ array_vec_len line.old + 40 }
{
    let mut buffer = Buffer::new();
    put(line, buffer.format(seconds).as_bytes());
}

// A time of few digits needs no division of 128 bits, which takes longer than all else.
#[inline(always)]
fn put_time_seconds(line: &mut FrameLine, ms: u128)
    requires { array_vec_len line.old + 40 ≤ 80 }
    ensures items { line.new.items ≡ line.old.items ++ seconds_text (ms / 1000) }
    ensures len { array_vec_len line.new ≤ array_vec_len line.old + 40 }
{
    if ms < LONG_TIME {
        put_seconds(line, ms as u64 / 1000);
    } else {
        put_long_seconds(line, ms / 1000);
    }
}

// the ms of a time past its seconds
#[inline(always)]
fn past_seconds(ms: u128) -> u32
    ensures { result ≡ ms % 1000 }
{
    if ms < LONG_TIME {
        (ms as u64 % 1000) as u32
    } else {
        (ms % 1000) as u32
    }
}

#[inline(always)]
#[tactic(auto, unfolding(crate::specs::Printed::stamp_text))]
fn put_stamp(line: &mut FrameLine, ms: u128)
    requires { array_vec_len line.old + 49 ≤ 80 }
    ensures items { line.new.items ≡ line.old.items ++ stamp_text ms }
    ensures len { array_vec_len line.new ≤ array_vec_len line.old + 49 }
{
    line.push(b'(');
    put_time_seconds(line, ms);
    line.push(b'.');
    put_three(line, past_seconds(ms));
    put(line, b"000)");
}

// the last hexadecimal digit
#[inline(always)]
fn last_hex_digit(number: u16) -> u8
    ensures { result ≡ printed_digit (number % 16) }
{
    DIGITS[usize::from(number % 16)]
}

#[inline(always)]
#[tactic(auto, unfolding(co_text::specs::Printed::digits_text))]
fn put_id(line: &mut FrameLine, id: u16)
    requires { array_vec_len line.old + 3 ≤ 80 }
    ensures items { line.new.items ≡ line.old.items ++ digits_text 16 3 id }
    ensures len { array_vec_len line.new ≡ array_vec_len line.old + 3 }
{
    let front = id / 16;
    let digits = [
        last_hex_digit(front / 16),
        last_hex_digit(front),
        last_hex_digit(id),
    ];
    put(line, &digits);
}

#[inline(always)]
#[tactic(auto, unfolding(co_text::specs::Printed::digits_text))]
fn put_byte(line: &mut FrameLine, byte: u8)
    requires { array_vec_len line.old + 2 ≤ 80 }
    ensures items { line.new.items ≡ line.old.items ++ byte_text byte }
    ensures len { array_vec_len line.new ≡ array_vec_len line.old + 2 }
{
    let number = u16::from(byte);
    let digits = [last_hex_digit(number / 16), last_hex_digit(number)];
    put(line, &digits);
}

#[inline(always)]
fn put_bytes(line: &mut FrameLine, bytes: &[u8])
    requires { array_vec_len line.old + 2 * length bytes.now ≤ 80 }
    ensures items { line.new.items ≡ line.old.items ++ flat_map byte_text bytes.now }
    ensures len { array_vec_len line.new ≡ array_vec_len line.old + 2 * length bytes.now }
{
    for byte in bytes {
        put_byte(line, *byte);
    }
}

#[inline(always)]
#[tactic(auto, unfolding(crate::specs::Printed::frame_text))]
fn put_frame(line: &mut FrameLine, frame: &Frame)
    requires { array_vec_len line.old + 20 ≤ 80 }
    ensures items { line.new.items ≡ line.old.items ++ frame_text frame.now }
    ensures len { array_vec_len line.new ≤ array_vec_len line.old + 20 }
{
    put_id(line, frame.id());
    line.push(b'#');
    put_bytes(line, frame.bytes());
}

/// The line of a frame that is sent at a time in ms: the time as seconds and microseconds in
/// parentheses, `can0`, the frame, and a line feed.
#[tactic(auto, unfolding(crate::specs::Printed::frame_line))]
pub fn frame_line(ms: u128, frame: &Frame) -> FrameLine
    ensures { result.items ≡ frame_line ms frame.now }
{
    let mut line = FrameLine::new();
    put_stamp(&mut line, ms);
    put(&mut line, b" can0 ");
    put_frame(&mut line, frame);
    line.push(b'\n');
    line
}
