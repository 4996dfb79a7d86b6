//! The `.trc` logs of PCAN-View and PCAN-Explorer.

ghost use Rattle.std.specs.Prelude.{◌≡◌, ◌≤◌, ◌||◌, length, IfSome, codes, bytes_eq};
ghost use Rattle.std.specs.Option.{option_map, option_copied};
ghost use Rattle.conode_logs.specs.Trc.{
  version_1_1,
  version_1_3,
  is_version,
  version_of,
  is_columns,
  named,
  columns_of,
  old_message,
  new_message,
  message_at,
  trc_id,
  trc_id_at,
  past_reserved,
  trc_bytes,
  trc_classic,
  fd_length_at,
  trc_content,
  trc_direction_at,
  trc_frame,
  trc_on,
  bus_at,
  old_line,
  new_on,
  new_line,
  trc_message,
  trc_comment,
  trc_line,
};

use conode_record::{
    BadLogLine, Base, Direction, Identifier, LogBytes, LogContent, LogLine, Place, bytes_at,
    channel_at, count_at, direction_at, direction_of, error_frame, extended_id, fd_length,
    frame_of, hex_number, is_over, is_word, millis_in, next_is, short_id, word_at,
};

/// The columns of a `.trc`.
#[derive(Clone, Copy)]
pub struct Columns {
    /// Whether a column has the type of each message, and another one its direction: version 2.0
    /// and 2.1.
    pub typed: bool,
    /// Whether a column has the bus.
    pub bus: bool,
    /// Whether there is a reserved column.
    pub reserved: bool,
    /// Whether the length of a CAN FD frame is its number of bytes, in place of a code.
    pub counted: bool,
}

/// What a message of a `.trc` is.
#[derive(Clone, Copy)]
pub(crate) enum Message {
    /// A frame of version 1.1 or 1.3, which has no column for its direction.
    Old(Direction),
    /// A data frame.
    Classic,
    /// A remote frame.
    Request,
    /// A CAN FD frame with these flags: bit 0 bit rate switch, bit 1 error state indicator.
    Flexible(u8),
    /// An error frame.
    Error,
    /// No frame.
    Event,
}

impl Columns {
    /// The columns of version 1.1.
    pub(crate) fn version_1_1() -> Columns
        ensures { result ≡ version_1_1 }
    {
        Columns {
            typed: false,
            bus: false,
            reserved: false,
            counted: false,
        }
    }

    fn version_1_3() -> Columns
        ensures { result ≡ version_1_3 }
    {
        Columns {
            typed: false,
            bus: true,
            reserved: true,
            counted: false,
        }
    }

    // the columns that a file of version 2.0 or 2.1 names
    fn named(bus: bool, reserved: bool, counted: bool) -> Columns
        ensures { result ≡ named bus reserved counted }
    {
        Columns {
            typed: true,
            bus,
            reserved,
            counted,
        }
    }

    /// The columns of the version in this line; `None` if it is another version.
    #[tactic(auto, unfolding(crate::specs::Trc::version_of))]
    pub(crate) fn of_version(line: &[u8]) -> Option<Columns>
        ensures { result ≡ version_of line.now }
    {
        if is_word(line, b";$FILEVERSION=1.1") {
            Some(Columns::version_1_1())
        } else if is_word(line, b";$FILEVERSION=1.3") {
            Some(Columns::version_1_3())
        } else if is_word(line, b";$FILEVERSION=2.0") {
            Some(Columns::named(false, false, true))
        } else if is_word(line, b";$FILEVERSION=2.1") {
            Some(Columns::named(true, true, false))
        } else {
            None
        }
    }

    // the columns that this line names; `None` if they are others
    #[tactic(auto, unfolding(crate::specs::Trc::columns_of))]
    fn of_names(line: &[u8]) -> Option<Columns>
        ensures { result ≡ columns_of line.now }
    {
        if is_word(line, b";$COLUMNS=N,O,T,B,I,d,R,L,D") {
            Some(Columns::named(true, true, false))
        } else if is_word(line, b";$COLUMNS=N,O,T,B,I,d,R,l,D") {
            Some(Columns::named(true, true, true))
        } else if is_word(line, b";$COLUMNS=N,O,T,B,I,d,L,D") {
            Some(Columns::named(true, false, false))
        } else if is_word(line, b";$COLUMNS=N,O,T,B,I,d,l,D") {
            Some(Columns::named(true, false, true))
        } else if is_word(line, b";$COLUMNS=N,O,T,I,d,R,L,D") {
            Some(Columns::named(false, true, false))
        } else if is_word(line, b";$COLUMNS=N,O,T,I,d,R,l,D") {
            Some(Columns::named(false, true, true))
        } else if is_word(line, b";$COLUMNS=N,O,T,I,d,L,D") {
            Some(Columns::named(false, false, false))
        } else if is_word(line, b";$COLUMNS=N,O,T,I,d,l,D") {
            Some(Columns::named(false, false, true))
        } else {
            None
        }
    }
}

/// Whether a line says which version a file has.
pub(crate) fn is_version(line: &[u8]) -> bool
    ensures { result ≡ is_version line.now }
{
    line.starts_with(b";$FILEVERSION=")
}

fn is_columns(line: &[u8]) -> bool
    ensures { result ≡ is_columns line.now }
{
    line.starts_with(b";$COLUMNS=")
}

// the type of a message in version 1.1 and 1.3
#[tactic(auto, unfolding(crate::specs::Trc::old_message))]
fn old_message(word: &[u8]) -> Option<Message>
    ensures { result ≡ old_message word.now }
{
    if is_word(word, b"Error") {
        Some(Message::Error)
    } else if is_word(word, b"Warng") {
        Some(Message::Event)
    } else {
        match direction_of(word) {
            Some(direction) => Some(Message::Old(direction)),
            None => None,
        }
    }
}

fn is_event(word: &[u8]) -> bool
    ensures { result ≡ (bytes_eq word.now (codes "ST")
        || (bytes_eq word.now (codes "EC") || bytes_eq word.now (codes "EV"))) }
{
    is_word(word, b"ST") || is_word(word, b"EC") || is_word(word, b"EV")
}

// the type of a message in version 2.0 and 2.1
#[tactic(auto, unfolding(crate::specs::Trc::new_message))]
fn new_message(word: &[u8]) -> Option<Message>
    ensures { result ≡ new_message word.now }
{
    if is_word(word, b"DT") {
        Some(Message::Classic)
    } else if is_word(word, b"RR") {
        Some(Message::Request)
    } else if is_word(word, b"FD") {
        Some(Message::Flexible(0))
    } else if is_word(word, b"FB") {
        Some(Message::Flexible(1))
    } else if is_word(word, b"FE") {
        Some(Message::Flexible(2))
    } else if is_word(word, b"BI") {
        Some(Message::Flexible(3))
    } else if is_word(word, b"ER") {
        Some(Message::Error)
    } else if is_event(word) {
        Some(Message::Event)
    } else {
        None
    }
}

// the type at the front, and what follows
#[tactic(auto, unfolding(crate::specs::Trc::message_at))]
fn message_at(typed: bool, text: &[u8]) -> Option<(Message, &[u8])>
    ensures { option_map (λ found. (found.0, found.1.now)) result ≡ message_at typed text.now }
{
    let Some((word, rest)) = word_at(text) else {
        return None;
    };
    let message = if typed {
        new_message(word)
    } else {
        old_message(word)
    };
    match message {
        Some(message) => Some((message, rest)),
        None => None,
    }
}

fn trc_id(word: &[u8]) -> Option<Identifier>
    ensures { result ≡ trc_id word.now }
{
    match word.len() {
        4 => match hex_number(word) {
            Some(number) => short_id(number),
            None => None,
        },
        5..=8 => match hex_number(word) {
            Some(number) => extended_id(number),
            None => None,
        },
        _ => None,
    }
}

// the identifier at the front, and what follows
#[tactic(auto, unfolding(crate::specs::Trc::trc_id_at))]
fn trc_id_at(text: &[u8]) -> Option<(Identifier, &[u8])>
    ensures { option_map (λ found. (found.0, found.1.now)) result ≡ trc_id_at text.now }
{
    let Some((word, rest)) = word_at(text) else {
        return None;
    };
    let Some(id) = trc_id(word) else {
        return None;
    };
    Some((id, rest))
}

// what follows the reserved column, if there is one
#[tactic(auto, unfolding(crate::specs::Trc::past_reserved))]
fn past_reserved(reserved: bool, text: &[u8]) -> Option<&[u8]>
    ensures { option_copied result ≡ past_reserved reserved text.now }
{
    if !reserved {
        return Some(text);
    }
    let Some((_, rest)) = word_at(text) else {
        return None;
    };
    Some(rest)
}

// `count` bytes, and nothing after them
#[tactic(auto, unfolding(crate::specs::Trc::trc_bytes))]
fn trc_bytes(count: usize, text: &[u8]) -> Result<LogBytes, BadLogLine>
    requires { count ≤ 64 }
    ensures { result ≡ trc_bytes count text.now }
{
    let Some((bytes, rest)) = bytes_at(Base::Hexadecimal, count, text) else {
        return Err(BadLogLine::Data);
    };
    if is_over(rest) {
        Ok(bytes)
    } else {
        Err(BadLogLine::Ending)
    }
}

// a data frame's bytes, or `RTR` for a remote frame
#[tactic(auto, unfolding(crate::specs::Trc::trc_classic))]
fn trc_classic(count: u32, text: &[u8]) -> Result<LogContent, BadLogLine>
    requires { count ≤ 8 }
    ensures { result ≡ trc_classic count text.now }
{
    if next_is(b"RTR", text) {
        return Ok(LogContent::Remote(count as u8));
    }
    match trc_bytes(count as usize, text) {
        Ok(bytes) => Ok(LogContent::Data(bytes)),
        Err(bad) => Err(bad),
    }
}

// the number of a CAN FD frame's bytes, and what follows its length
#[tactic(auto, unfolding(crate::specs::Trc::fd_length_at))]
fn fd_length_at(counted: bool, text: &[u8]) -> Option<(usize, &[u8])>
    ensures exact { option_map (λ found. (found.0, found.1.now)) result
        ≡ fd_length_at counted text.now }
    ensures few { IfSome result (λ found. found.0 ≤ 64) }
{
    if counted {
        let Some((count, rest)) = count_at(64, text) else {
            return None;
        };
        Some((count as usize, rest))
    } else {
        let Some((code, rest)) = count_at(15, text) else {
            return None;
        };
        Some((fd_length(code), rest))
    }
}

// length and data
#[tactic(auto, unfolding(crate::specs::Trc::trc_content))]
fn trc_content(message: Message, counted: bool, text: &[u8]) -> Result<LogContent, BadLogLine>
    ensures { result ≡ trc_content message counted text.now }
{
    match message {
        Message::Flexible(flags) => {
            let Some((count, rest)) = fd_length_at(counted, text) else {
                return Err(BadLogLine::Length);
            };
            match trc_bytes(count, rest) {
                Ok(bytes) => Ok(LogContent::Fd(flags, bytes)),
                Err(bad) => Err(bad),
            }
        }
        Message::Request => {
            let Some((count, rest)) = count_at(8, text) else {
                return Err(BadLogLine::Length);
            };
            if is_over(rest) {
                Ok(LogContent::Remote(count as u8))
            } else {
                Err(BadLogLine::Ending)
            }
        }
        _ => match count_at(8, text) {
            Some((count, rest)) => trc_classic(count, rest),
            None => Err(BadLogLine::Length),
        },
    }
}

// the direction, by the type in version 1.1 and 1.3, else from its column
#[tactic(auto, unfolding(crate::specs::Trc::trc_direction_at))]
fn trc_direction_at(message: Message, text: &[u8]) -> Option<(Direction, &[u8])>
    ensures { option_map (λ found. (found.0, found.1.now)) result
        ≡ trc_direction_at message text.now }
{
    match message {
        Message::Old(direction) => Some((direction, text)),
        _ => direction_at(text),
    }
}

// a frame from its identifier on
#[tactic(auto, unfolding(crate::specs::Trc::trc_frame))]
fn trc_frame(
    columns: Columns,
    message: Message,
    micros: u64,
    channel: u8,
    text: &[u8],
) -> Result<LogLine<'_>, BadLogLine>
    ensures { result ≡ trc_frame columns message micros channel text.now }
{
    let Some((id, rest)) = trc_id_at(text) else {
        return Err(BadLogLine::Identifier);
    };
    let Some((direction, rest)) = trc_direction_at(message, rest) else {
        return Err(BadLogLine::Direction);
    };
    let Some(rest) = past_reserved(columns.reserved, rest) else {
        return Err(BadLogLine::Length);
    };
    let place = Place::Channel(channel);
    match trc_content(message, columns.counted, rest) {
        Ok(content) => Ok(frame_of(micros, place, id, content, Some(direction))),
        Err(bad) => Err(bad),
    }
}

// a message of this type on a channel
#[tactic(auto, unfolding(crate::specs::Trc::trc_on))]
fn trc_on(
    columns: Columns,
    message: Message,
    micros: u64,
    channel: u8,
    text: &[u8],
) -> Result<LogLine<'_>, BadLogLine>
    ensures { result ≡ trc_on columns message micros channel text.now }
{
    match message {
        Message::Event => Ok(LogLine::Skipped),
        Message::Error => Ok(error_frame(micros, Place::Channel(channel))),
        _ => trc_frame(columns, message, micros, channel, text),
    }
}

// the channel, if there is a column for it, else 1; and what follows
#[tactic(auto, unfolding(crate::specs::Trc::bus_at))]
fn bus_at(bus: bool, text: &[u8]) -> Option<(u8, &[u8])>
    ensures { option_map (λ found. (found.0, found.1.now)) result ≡ bus_at bus text.now }
{
    if bus {
        channel_at(text)
    } else {
        Some((1, text))
    }
}

// type and bus of version 1.1 and 1.3, and what follows them
#[tactic(auto, unfolding(crate::specs::Trc::old_line))]
fn old_line(columns: Columns, micros: u64, text: &[u8]) -> Result<LogLine<'_>, BadLogLine>
    ensures { result ≡ old_line columns micros text.now }
{
    let Some((channel, rest)) = bus_at(columns.bus, text) else {
        return Err(BadLogLine::Interface);
    };
    let Some((message, rest)) = message_at(false, rest) else {
        return Err(BadLogLine::Type);
    };
    trc_on(columns, message, micros, channel, rest)
}

// a message of this type in version 2.0 and 2.1: its bus, if it is a frame, and what follows
#[tactic(auto, unfolding(crate::specs::Trc::new_on))]
fn new_on(
    columns: Columns,
    message: Message,
    micros: u64,
    text: &[u8],
) -> Result<LogLine<'_>, BadLogLine>
    ensures { result ≡ new_on columns message micros text.now }
{
    match message {
        Message::Event => Ok(LogLine::Skipped),
        _ => match bus_at(columns.bus, text) {
            Some((channel, rest)) => trc_on(columns, message, micros, channel, rest),
            None => Err(BadLogLine::Interface),
        },
    }
}

// type and bus of version 2.0 and 2.1
#[tactic(auto, unfolding(crate::specs::Trc::new_line))]
fn new_line(columns: Columns, micros: u64, text: &[u8]) -> Result<LogLine<'_>, BadLogLine>
    ensures { result ≡ new_line columns micros text.now }
{
    match message_at(true, text) {
        Some((message, rest)) => new_on(columns, message, micros, rest),
        None => Err(BadLogLine::Type),
    }
}

// what a line says that isn't a comment
#[tactic(auto, unfolding(crate::specs::Trc::trc_message))]
fn trc_message(columns: Columns, line: &[u8]) -> Result<LogLine<'_>, BadLogLine>
    ensures { result ≡ trc_message columns line.now }
{
    let Some((_, rest)) = word_at(line) else {
        return Err(BadLogLine::Stamp);
    };
    let Some((offset, rest)) = word_at(rest) else {
        return Err(BadLogLine::Stamp);
    };
    let Some(micros) = millis_in(offset) else {
        return Err(BadLogLine::Stamp);
    };
    if columns.typed {
        new_line(columns, micros, rest)
    } else {
        old_line(columns, micros, rest)
    }
}

// a comment names the version, or the columns, or nothing
#[tactic(auto, unfolding(crate::specs::Trc::trc_comment))]
fn trc_comment(columns: Columns, line: &[u8]) -> (Columns, Result<LogLine<'_>, BadLogLine>)
    ensures { result ≡ trc_comment columns line.now }
{
    if is_version(line) {
        match Columns::of_version(line) {
            Some(found) => (found, Ok(LogLine::Skipped)),
            None => (columns, Err(BadLogLine::Version)),
        }
    } else if is_columns(line) {
        match Columns::of_names(line) {
            Some(found) => (found, Ok(LogLine::Skipped)),
            None => (columns, Err(BadLogLine::Columns)),
        }
    } else {
        (columns, Ok(LogLine::Skipped))
    }
}

/// What a line says, and the columns after it.
#[tactic(auto, unfolding(crate::specs::Trc::trc_line))]
pub(crate) fn trc_line(columns: Columns, line: &[u8]) -> (Columns, Result<LogLine<'_>, BadLogLine>)
    ensures { result ≡ trc_line columns line.now }
{
    if !line.is_empty() && line[0] == b';' {
        trc_comment(columns, line)
    } else if is_over(line) {
        (columns, Ok(LogLine::Skipped))
    } else {
        (columns, trc_message(columns, line))
    }
}
