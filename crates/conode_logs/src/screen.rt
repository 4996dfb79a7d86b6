//! What candump shows on a screen.

ghost use Rattle.std.specs.Prelude.{◌≡◌, ◌+◌, ◌≤◌, length, IfSome};
ghost use Rattle.std.specs.Option.{option_map};
ghost use Rattle.conode_record.specs.Fields.{eight_digits};
ghost use Rattle.conode_logs.specs.Screen.{
  screen_stamp_at,
  flag_at,
  flags_at,
  mark_of,
  mark_at,
  marks_at,
  screen_id,
  screen_id_at,
  length_in,
  screen_ends,
  screen_bytes,
  screen_classic,
  screen_content,
  screen_frame,
  is_screen_note,
  screen_timed,
  screen_line,
};

use co_text::decimal_in;
use conode_record::{
    BadLogLine, Base, Direction, Identifier, LogBytes, LogContent, LogLine, Place, bytes_at,
    frame_of, hex_number, is_over, is_word, moment_at, moved, name_at, next_is, past_gap, short_id,
    stamp_at, word_at,
};

/// What `candump -x` shows between the interface and the identifier.
#[derive(Clone, Copy)]
pub(crate) struct Marks {
    pub(crate) direction: Option<Direction>,
    /// The flags of a CAN FD frame: bit 0 bit rate switch, bit 1 error state indicator.
    pub(crate) flags: u8,
}

// the stamp at the front, 0 where there is none, and what follows
#[tactic(auto, unfolding(crate::specs::Screen::screen_stamp_at))]
fn screen_stamp_at(line: &[u8]) -> Option<(u64, &[u8])>
    ensures { option_map (λ found. (found.0, found.1.now)) result ≡ screen_stamp_at line.now }
{
    let text = past_gap(line);
    if text.is_empty() || text[0] != b'(' {
        return Some((0, text));
    }
    match stamp_at(text) {
        Some(found) => Some(found),
        None => moment_at(text),
    }
}

// this letter for a flag that is set, a hyphen for one that isn't
#[tactic(auto, unfolding(crate::specs::Screen::flag_at))]
fn flag_at<'a>(letter: &[u8], value: u8, text: &'a [u8]) -> Option<(u8, &'a [u8])>
    ensures exact { option_map (λ found. (found.0, found.1.now)) result
        ≡ flag_at letter.now value text.now }
    ensures few { IfSome result (λ found. found.0 ≤ value) }
{
    let Some((word, rest)) = word_at(text) else {
        return None;
    };
    if is_word(word, letter) {
        Some((value, rest))
    } else if is_word(word, b"-") {
        Some((0, rest))
    } else {
        None
    }
}

#[tactic(auto, unfolding(crate::specs::Screen::flags_at))]
fn flags_at(text: &[u8]) -> Option<(u8, &[u8])>
    ensures { option_map (λ found. (found.0, found.1.now)) result ≡ flags_at text.now }
{
    let Some((switch, text)) = flag_at(b"B", 1, text) else {
        return None;
    };
    let Some((error, text)) = flag_at(b"E", 2, text) else {
        return None;
    };
    Some((switch + error, text))
}

fn mark_of(word: &[u8]) -> Option<Direction>
    ensures { result ≡ mark_of word.now }
{
    if is_word(word, b"TX") {
        Some(Direction::Sent)
    } else if is_word(word, b"RX") {
        Some(Direction::Received)
    } else {
        None
    }
}

// the direction at the front, and what follows
#[tactic(auto, unfolding(crate::specs::Screen::mark_at))]
fn mark_at(text: &[u8]) -> Option<(Direction, &[u8])>
    ensures { option_map (λ found. (found.0, found.1.now)) result ≡ mark_at text.now }
{
    let Some((word, rest)) = word_at(text) else {
        return None;
    };
    let Some(direction) = mark_of(word) else {
        return None;
    };
    Some((direction, rest))
}

// direction and flags, if there are any, and what follows
#[tactic(auto, unfolding(crate::specs::Screen::marks_at))]
fn marks_at(text: &[u8]) -> Option<(Marks, &[u8])>
    ensures { option_map (λ found. (found.0, found.1.now)) result ≡ marks_at text.now }
{
    let Some((mark, rest)) = mark_at(text) else {
        let none = Marks {
            direction: None,
            flags: 0,
        };
        return Some((none, text));
    };
    let Some((flags, rest)) = flags_at(rest) else {
        return None;
    };
    let marks = Marks {
        direction: Some(mark),
        flags,
    };
    Some((marks, rest))
}

// an identifier of 29 bits, or with bit 29 set the class of an error frame
fn eight_digits(number: u32) -> Option<Identifier>
    ensures { result ≡ eight_digits number }
{
    if number < 0x2000_0000 {
        Some(Identifier::Extended(number))
    } else if number < 0x4000_0000 {
        Some(Identifier::Error(number - 0x2000_0000))
    } else {
        None
    }
}

fn screen_id(word: &[u8]) -> Option<Identifier>
    ensures { result ≡ screen_id word.now }
{
    match word.len() {
        3 => match hex_number(word) {
            Some(number) => short_id(number),
            None => None,
        },
        8 => match hex_number(word) {
            Some(number) => eight_digits(number),
            None => None,
        },
        _ => None,
    }
}

// the identifier at the front, and what follows
#[tactic(auto, unfolding(crate::specs::Screen::screen_id_at))]
fn screen_id_at(text: &[u8]) -> Option<(Identifier, &[u8])>
    ensures { option_map (λ found. (found.0, found.1.now)) result ≡ screen_id_at text.now }
{
    let Some((word, rest)) = word_at(text) else {
        return None;
    };
    let Some(id) = screen_id(word) else {
        return None;
    };
    Some((id, rest))
}

// the number in brackets, and whether it is a CAN FD frame's
fn length_in(word: &[u8]) -> Option<(bool, u32)>
    ensures exact { result ≡ length_in word.now }
    ensures few { IfSome result (λ found. found.1 ≤ 64) }
{
    let len = word.len();
    if len < 3 || word[0] != b'[' || word[len - 1] != b']' {
        return None;
    }
    let number = &word[1..len - 1];
    match len {
        3 => match decimal_in(number, 0, 8) {
            Some(count) => Some((false, count)),
            None => None,
        },
        4 => match decimal_in(number, 0, 64) {
            Some(count) => Some((true, count)),
            None => None,
        },
        _ => None,
    }
}

// nothing, the characters of the bytes, or the word for an error frame
#[tactic(auto, unfolding(crate::specs::Screen::screen_ends))]
fn screen_ends(text: &[u8]) -> bool
    ensures { result ≡ screen_ends text.now }
{
    match word_at(text) {
        Some((word, _)) => {
            (!word.is_empty() && word[0] == b'\'') || is_word(word, b"ERRORFRAME")
        }
        None => true,
    }
}

// `count` bytes, and an ending
fn screen_bytes(count: u32, text: &[u8]) -> Result<LogBytes, BadLogLine>
    requires { count ≤ 64 }
    ensures { result ≡ screen_bytes count text.now }
{
    let Some((bytes, rest)) = bytes_at(Base::Hexadecimal, count as usize, text) else {
        return Err(BadLogLine::Data);
    };
    if screen_ends(rest) {
        Ok(bytes)
    } else {
        Err(BadLogLine::Ending)
    }
}

// `remote request`, or `count` bytes
fn screen_classic(count: u32, text: &[u8]) -> Result<LogContent, BadLogLine>
    requires { count ≤ 64 }
    ensures { result ≡ screen_classic count text.now }
{
    if next_is(b"remote", text) {
        return Ok(LogContent::Remote(count as u8));
    }
    match screen_bytes(count, text) {
        Ok(bytes) => Ok(LogContent::Data(bytes)),
        Err(bad) => Err(bad),
    }
}

// a length in brackets, and the data
#[tactic(auto, unfolding(crate::specs::Screen::screen_content))]
fn screen_content(flags: u8, text: &[u8]) -> Result<LogContent, BadLogLine>
    ensures { result ≡ screen_content flags text.now }
{
    let Some((word, rest)) = word_at(text) else {
        return Err(BadLogLine::Length);
    };
    let Some((fd, count)) = length_in(word) else {
        return Err(BadLogLine::Length);
    };
    if fd {
        match screen_bytes(count, rest) {
            Ok(bytes) => Ok(LogContent::Fd(flags, bytes)),
            Err(bad) => Err(bad),
        }
    } else {
        screen_classic(count, rest)
    }
}

// a frame from its interface on
#[tactic(auto, unfolding(crate::specs::Screen::screen_frame))]
fn screen_frame(micros: u64, text: &[u8]) -> Result<LogLine<'_>, BadLogLine>
    ensures { result ≡ screen_frame micros text.now }
{
    let Some((name, rest)) = name_at(text) else {
        return Err(BadLogLine::Interface);
    };
    let Some((marks, rest)) = marks_at(rest) else {
        return Err(BadLogLine::Flags);
    };
    let Some((id, rest)) = screen_id_at(rest) else {
        return Err(BadLogLine::Identifier);
    };
    let place = Place::Interface(name);
    match screen_content(marks.flags, rest) {
        Ok(content) => Ok(frame_of(micros, place, id, content, marks.direction)),
        Err(bad) => Err(bad),
    }
}

fn is_screen_note(line: &[u8]) -> bool
    ensures { result ≡ is_screen_note line.now }
{
    (!line.is_empty() && line[0] == b'\t') || is_over(line)
}

// what a line says that isn't a note, and the clock after it
#[tactic(auto, unfolding(crate::specs::Screen::screen_timed))]
fn screen_timed(sums: bool, clock: u64, line: &[u8]) -> (u64, Result<LogLine<'_>, BadLogLine>)
    ensures { result ≡ screen_timed sums clock line.now }
{
    let Some((stamp, rest)) = screen_stamp_at(line) else {
        return (clock, Err(BadLogLine::Stamp));
    };
    match moved(sums, clock, stamp) {
        Some(now) => (now, screen_frame(now, rest)),
        None => (clock, Err(BadLogLine::TooLate)),
    }
}

/// What a line says, and the clock after it, in microseconds. With `sums` a stamp is counted from
/// the line before.
#[tactic(auto, unfolding(crate::specs::Screen::screen_line))]
pub(crate) fn screen_line(
    sums: bool,
    clock: u64,
    line: &[u8],
) -> (u64, Result<LogLine<'_>, BadLogLine>)
    ensures { result ≡ screen_line sums clock line.now }
{
    if is_screen_note(line) {
        (clock, Ok(LogLine::Skipped))
    } else {
        screen_timed(sums, clock, line)
    }
}
