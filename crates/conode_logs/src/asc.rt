//! The `.asc` logs of CANalyzer and CANoe.

ghost use Rattle.std.specs.Prelude.{◌≡◌, ◌≤◌, length, slice_index, IfSome};
ghost use Rattle.std.specs.Option.{option_map};
ghost use Rattle.co_text.specs.Texts.{is_digit};
ghost use Rattle.conode_logs.specs.Asc.{
  is_header,
  base_at,
  relative_in,
  form_in,
  asc_id,
  asc_id_at,
  asc_data,
  remote_length,
  asc_content,
  is_request,
  asc_frame,
  is_note,
  asc_on,
  past_name,
  asc_flags_at,
  asc_length_at,
  flags_after,
  asc_kind,
  asc_fd_content,
  asc_fd_frame,
  asc_fd,
  asc_event,
  asc_timed,
  asc_line,
};

use co_text::is_digit;
use conode_record::{
    BadLogLine, Base, Direction, Identifier, LogBytes, LogContent, LogLine, Place, bytes_at,
    channel_at, count_at, direction_at, error_frame, extended_id, frame_of, is_over, is_word,
    moved, next_is, number_in, seconds_in, short_id, word_at,
};

/// How the numbers and the stamps of a `.asc` are written.
#[derive(Clone, Copy)]
pub struct AscForm {
    /// The base of identifiers and bytes.
    pub base: Base,
    /// Whether a stamp is counted from the event before it.
    pub relative: bool,
}

/// The flag of a CAN FD frame, assumed if nothing follows the data.
const FLEXIBLE: u32 = 0x1000;

#[tactic(auto, unfolding(crate::specs::Asc::is_header))]
fn is_header(word: &[u8]) -> bool
    ensures { result ≡ is_header word.now }
{
    is_word(word, b"date")
        || is_word(word, b"no")
        || is_word(word, b"internal")
        || is_word(word, b"Begin")
        || is_word(word, b"End")
        || is_word(word, b"previous")
        || word.starts_with(b"//")
}

// the base of numbers, and what follows
#[tactic(auto, unfolding(crate::specs::Asc::base_at))]
fn base_at(text: &[u8]) -> Option<(Base, &[u8])>
    ensures { option_map (λ found. (found.0, found.1.now)) result ≡ base_at text.now }
{
    let Some((word, rest)) = word_at(text) else {
        return None;
    };
    if is_word(word, b"hex") {
        Some((Base::Hexadecimal, rest))
    } else if is_word(word, b"dec") {
        Some((Base::Decimal, rest))
    } else {
        None
    }
}

// whether stamps are counted from the event before
#[tactic(auto, unfolding(crate::specs::Asc::relative_in))]
fn relative_in(text: &[u8]) -> Option<bool>
    ensures { result ≡ relative_in text.now }
{
    if is_over(text) {
        return Some(false);
    }
    let Some((name, rest)) = word_at(text) else {
        return None;
    };
    if !is_word(name, b"timestamps") {
        None
    } else if next_is(b"relative", rest) {
        Some(true)
    } else if next_is(b"absolute", rest) {
        Some(false)
    } else {
        None
    }
}

// what follows `base`
#[tactic(auto, unfolding(crate::specs::Asc::form_in))]
fn form_in(text: &[u8]) -> Option<AscForm>
    ensures { result ≡ form_in text.now }
{
    let Some((base, rest)) = base_at(text) else {
        return None;
    };
    let Some(relative) = relative_in(rest) else {
        return None;
    };
    Some(AscForm { base, relative })
}

fn asc_id(base: Base, word: &[u8]) -> Option<Identifier>
    requires { 1 ≤ length word.now }
    ensures { result ≡ asc_id base word.now }
{
    let last = word.len() - 1;
    if word[last] == b'x' {
        match number_in(base, &word[..last]) {
            Some(number) => extended_id(number),
            None => None,
        }
    } else {
        match number_in(base, word) {
            Some(number) => short_id(number),
            None => None,
        }
    }
}

// the identifier at the front, and what follows
#[tactic(auto, unfolding(crate::specs::Asc::asc_id_at))]
fn asc_id_at(base: Base, text: &[u8]) -> Option<(Identifier, &[u8])>
    ensures { option_map (λ found. (found.0, found.1.now)) result ≡ asc_id_at base text.now }
{
    let Some((word, rest)) = word_at(text) else {
        return None;
    };
    let Some(id) = asc_id(base, word) else {
        return None;
    };
    Some((id, rest))
}

// `count` bytes; what follows them is ignored
fn asc_data(base: Base, count: u32, text: &[u8]) -> Result<LogContent, BadLogLine>
    requires { count ≤ 8 }
    ensures { result ≡ asc_data base count text.now }
{
    match bytes_at(base, count as usize, text) {
        Some((bytes, _)) => Ok(LogContent::Data(bytes)),
        None => Err(BadLogLine::Data),
    }
}

// the length of a remote frame, else 0
#[tactic(auto, unfolding(crate::specs::Asc::remote_length))]
fn remote_length(text: &[u8]) -> u8
    ensures { result ≡ remote_length text.now }
{
    match count_at(8, text) {
        Some((count, _)) => count as u8,
        None => 0,
    }
}

// `d`, length and data, or `r`
#[tactic(auto, unfolding(crate::specs::Asc::asc_content))]
fn asc_content(base: Base, text: &[u8]) -> Result<LogContent, BadLogLine>
    ensures { result ≡ asc_content base text.now }
{
    let Some((word, rest)) = word_at(text) else {
        return Err(BadLogLine::Type);
    };
    if is_word(word, b"d") {
        let Some((count, rest)) = count_at(8, rest) else {
            return Err(BadLogLine::Length);
        };
        asc_data(base, count, rest)
    } else if is_word(word, b"r") {
        Ok(LogContent::Remote(remote_length(rest)))
    } else {
        Err(BadLogLine::Type)
    }
}

// the direction of a request to send, which is no frame yet
fn is_request(text: &[u8]) -> bool
    ensures { result ≡ is_request text.now }
{
    next_is(b"TxRq", text)
}

// a frame from its identifier on
#[tactic(auto, unfolding(crate::specs::Asc::asc_frame))]
fn asc_frame(base: Base, micros: u64, channel: u8, text: &[u8]) -> Result<LogLine<'_>, BadLogLine>
    ensures { result ≡ asc_frame base micros channel text.now }
{
    let Some((id, rest)) = asc_id_at(base, text) else {
        return Err(BadLogLine::Identifier);
    };
    if is_request(rest) {
        return Ok(LogLine::Skipped);
    }
    let Some((direction, rest)) = direction_at(rest) else {
        return Err(BadLogLine::Direction);
    };
    let place = Place::Channel(channel);
    match asc_content(base, rest) {
        Ok(content) => Ok(frame_of(micros, place, id, content, Some(direction))),
        Err(bad) => Err(bad),
    }
}

// whether an event of a channel is no frame
#[tactic(auto, unfolding(crate::specs::Asc::is_note))]
fn is_note(text: &[u8]) -> bool
    ensures { result ≡ is_note text.now }
{
    next_is(b"Statistic:", text) || next_is(b"OverloadFrame", text) || next_is(b"J1939TP", text)
}

// an event of a channel
#[tactic(auto, unfolding(crate::specs::Asc::asc_on))]
fn asc_on(base: Base, micros: u64, channel: u8, text: &[u8]) -> Result<LogLine<'_>, BadLogLine>
    ensures { result ≡ asc_on base micros channel text.now }
{
    if next_is(b"ErrorFrame", text) {
        Ok(error_frame(micros, Place::Channel(channel)))
    } else if is_note(text) {
        Ok(LogLine::Skipped)
    } else {
        asc_frame(base, micros, channel, text)
    }
}

// whether a word begins with a digit
fn is_numeric(word: &[u8]) -> bool
    ensures { result ≡ is_digit (slice_index word.now 0) }
{
    !word.is_empty() && is_digit(word[0])
}

// what follows a name, if there is one
#[tactic(auto, unfolding(crate::specs::Asc::past_name))]
fn past_name(text: &[u8]) -> &[u8]
    ensures { result.now ≡ past_name text.now }
{
    match word_at(text) {
        Some((word, rest)) => { if is_numeric(word) { text } else { rest } }
        None => text,
    }
}

// bit rate switch and error state indicator, and what follows
#[tactic(auto, unfolding(crate::specs::Asc::asc_flags_at))]
fn asc_flags_at(text: &[u8]) -> Option<(u8, &[u8])>
    ensures { option_map (λ found. (found.0, found.1.now)) result ≡ asc_flags_at text.now }
{
    let Some((switch, rest)) = count_at(1, text) else {
        return None;
    };
    let Some((error, rest)) = count_at(1, rest) else {
        return None;
    };
    Some(((switch + 2 * error) as u8, rest))
}

// data length code and number of bytes, and what follows
#[tactic(auto, unfolding(crate::specs::Asc::asc_length_at))]
fn asc_length_at(text: &[u8]) -> Option<((u32, u32), &[u8])>
    ensures exact { option_map (λ found. (found.0, found.1.now)) result ≡ asc_length_at text.now }
    ensures few { IfSome result (λ found. found.0.1 ≤ 64) }
{
    let Some((word, rest)) = word_at(text) else {
        return None;
    };
    let Some(code) = number_in(Base::Hexadecimal, word) else {
        return None;
    };
    let Some((count, rest)) = count_at(64, rest) else {
        return None;
    };
    Some(((code, count), rest))
}

// the third word as a number
#[tactic(auto, unfolding(crate::specs::Asc::flags_after))]
fn flags_after(text: &[u8]) -> Option<u32>
    ensures { result ≡ flags_after text.now }
{
    let Some((_, rest)) = word_at(text) else {
        return None;
    };
    let Some((_, rest)) = word_at(rest) else {
        return None;
    };
    let Some((flags, _)) = word_at(rest) else {
        return None;
    };
    number_in(Base::Hexadecimal, flags)
}

// the kind of a frame, by its last flags
#[tactic(auto, unfolding(crate::specs::Asc::asc_kind))]
fn asc_kind(last: u32, flags: u8, code: u32, bytes: LogBytes) -> Result<LogContent, BadLogLine>
    ensures { result ≡ asc_kind last flags code bytes }
{
    if last / 4096 % 2 == 1 {
        return Ok(LogContent::Fd(flags, bytes));
    }
    if bytes.bytes().len() > 8 {
        return Err(BadLogLine::Length);
    }
    if last / 16 % 2 != 1 {
        return Ok(LogContent::Data(bytes));
    }
    if code <= 8 {
        Ok(LogContent::Remote(code as u8))
    } else {
        Err(BadLogLine::Length)
    }
}

// flags, length and data
#[tactic(auto, unfolding(crate::specs::Asc::asc_fd_content))]
fn asc_fd_content(base: Base, text: &[u8]) -> Result<LogContent, BadLogLine>
    ensures { result ≡ asc_fd_content base text.now }
{
    let Some((flags, rest)) = asc_flags_at(past_name(text)) else {
        return Err(BadLogLine::Flags);
    };
    let Some(((code, count), rest)) = asc_length_at(rest) else {
        return Err(BadLogLine::Length);
    };
    let Some((bytes, rest)) = bytes_at(base, count as usize, rest) else {
        return Err(BadLogLine::Data);
    };
    asc_kind(flags_after(rest).unwrap_or(FLEXIBLE), flags, code, bytes)
}

// a frame of a CAN FD channel, from its identifier on
#[tactic(auto, unfolding(crate::specs::Asc::asc_fd_frame))]
fn asc_fd_frame(
    base: Base,
    micros: u64,
    channel: u8,
    direction: Direction,
    text: &[u8],
) -> Result<LogLine<'_>, BadLogLine>
    ensures { result ≡ asc_fd_frame base micros channel direction text.now }
{
    let Some((id, rest)) = asc_id_at(base, text) else {
        return Err(BadLogLine::Identifier);
    };
    let place = Place::Channel(channel);
    match asc_fd_content(base, rest) {
        Ok(content) => Ok(frame_of(micros, place, id, content, Some(direction))),
        Err(bad) => Err(bad),
    }
}

// channel, direction, and an error frame or a frame
#[tactic(auto, unfolding(crate::specs::Asc::asc_fd))]
fn asc_fd(base: Base, micros: u64, text: &[u8]) -> Result<LogLine<'_>, BadLogLine>
    ensures { result ≡ asc_fd base micros text.now }
{
    let Some((channel, rest)) = channel_at(text) else {
        return Err(BadLogLine::Interface);
    };
    if is_request(rest) {
        return Ok(LogLine::Skipped);
    }
    let Some((direction, rest)) = direction_at(rest) else {
        return Err(BadLogLine::Direction);
    };
    if next_is(b"ErrorFrame", rest) {
        return Ok(error_frame(micros, Place::Channel(channel)));
    }
    asc_fd_frame(base, micros, channel, direction, rest)
}

// what an event is
#[tactic(auto, unfolding(crate::specs::Asc::asc_event))]
fn asc_event(base: Base, micros: u64, text: &[u8]) -> Result<LogLine<'_>, BadLogLine>
    ensures { result ≡ asc_event base micros text.now }
{
    let Some((word, rest)) = word_at(text) else {
        return Err(BadLogLine::Interface);
    };
    if is_word(word, b"CANFD") {
        return asc_fd(base, micros, rest);
    }
    if !is_numeric(word) {
        return Ok(LogLine::Skipped);
    }
    let Some((channel, rest)) = channel_at(text) else {
        return Err(BadLogLine::Interface);
    };
    asc_on(base, micros, channel, rest)
}

// what an event says, and the clock after it
#[tactic(auto, unfolding(crate::specs::Asc::asc_timed))]
fn asc_timed<'a>(
    form: AscForm,
    clock: u64,
    stamp: &[u8],
    text: &'a [u8],
) -> (u64, Result<LogLine<'a>, BadLogLine>)
    ensures { result ≡ asc_timed form clock stamp.now text.now }
{
    let Some(micros) = seconds_in(stamp) else {
        return (clock, Err(BadLogLine::Stamp));
    };
    match moved(form.relative, clock, micros) {
        Some(now) => (now, asc_event(form.base, now, text)),
        None => (clock, Err(BadLogLine::TooLate)),
    }
}

/// What a line says, and the form and the clock after it.
#[tactic(auto, unfolding(crate::specs::Asc::asc_line))]
pub(crate) fn asc_line(
    form: AscForm,
    clock: u64,
    line: &[u8],
) -> (AscForm, (u64, Result<LogLine<'_>, BadLogLine>))
    ensures { result ≡ asc_line form clock line.now }
{
    let Some((word, rest)) = word_at(line) else {
        return (form, (clock, Ok(LogLine::Skipped)));
    };
    if is_word(word, b"base") {
        return match form_in(rest) {
            Some(found) => (found, (clock, Ok(LogLine::Skipped))),
            None => (form, (clock, Err(BadLogLine::Base))),
        };
    }
    if is_header(word) {
        return (form, (clock, Ok(LogLine::Skipped)));
    }
    (form, asc_timed(form, clock, word, rest))
}
