//! What is wrong with a line of a log.

ghost use Rattle.std.specs.Prelude.{◌≡◌};
ghost use Rattle.conode_record.specs.BadWords.{bad_words, of_record};

use crate::BadLine;

/// What is wrong with a line of a log: its first wrong part.
#[derive(Clone, Copy)]
pub enum BadLogLine {
    /// Neither this line nor one before it shows which recorder wrote the log.
    Unknown,
    /// A `.trc` of another version than 1.1, 1.3, 2.0 and 2.1.
    Version,
    /// A `.trc` with other columns, or in another order.
    Columns,
    /// In a `.asc`, `base` isn't followed by `hex` or `dec`, and `timestamps absolute` or
    /// `relative`.
    Base,
    /// There is no stamp, or none of this form.
    Stamp,
    /// The stamps, each counted from the one before, add up to 10^12 seconds or more.
    TooLate,
    /// There is no interface of 1 to 15 bytes, or no channel from 1 to 255.
    Interface,
    /// This form of log has no such type of message.
    Type,
    /// There is no direction.
    Direction,
    /// The identifier is no number, or above 7FF or 1FFFFFFF.
    Identifier,
    /// A CAN FD frame has no flags, or none that can be read.
    Flags,
    /// The length is no number, or greater than such a frame may have.
    Length,
    /// The data aren't as many bytes as the length says.
    Data,
    /// There are more than 8 data bytes, or in a CAN FD frame more than 64.
    TooManyBytes,
    /// The frame is followed by something else.
    Ending,
    /// A line of `candump -L` doesn't begin with a stamp.
    RecordStamp,
    /// There is no interface after its stamp.
    RecordInterface,
    /// There is no identifier after its interface.
    RecordIdentifier,
    /// There are no flags of a CAN FD frame after its second number sign.
    RecordFlags,
    /// The length of its remote frame is no digit up to 8.
    RecordLength,
    /// Its data are no pairs of hexadecimal digits.
    RecordData,
    /// Its data are followed by something other than a direction.
    RecordEnding,
}

/// What is wrong, in the order of `BadLogLine`.
static WORDS: [&str; 22] = [
    "no recorder is known that writes such a line; --log FORM names one",
    "the version of the .trc isn't 1.1, 1.3, 2.0 or 2.1",
    "the columns aren't N,O,T,B,I,d,R,L,D, where B and R may be left out, and l may be there for L",
    "after base there is no hex or dec, or after that no timestamps absolute or relative",
    "there is no stamp as this form of log has it",
    "the stamps up to here add up to more than 999999999999 seconds",
    "there is no interface of at most 15 bytes, or no channel from 1 to 255",
    "the message is of no type that this form of log has",
    "there is no direction, Rx or Tx",
    "there is no identifier up to 7FF (11 bits) or 1FFFFFFF (29 bits) as this form of log has it",
    "there are no flags of a CAN FD frame",
    "there is no length up to 8, or of a CAN FD frame up to 64, as this form of log has it",
    "the data aren't as many bytes as the length says",
    "there are more than 8 data bytes, or in a CAN FD frame more than 64",
    "after the frame comes something else",
    "it doesn't begin with a stamp, as (1700000000.250000): seconds, and microseconds in six digits",
    "after the stamp there is no interface between blanks, as can0, of at most 15 bytes",
    "after the interface there is no identifier, as 185#: three digits up to 7FF, or eight up to 3FFFFFFF",
    "after ## there is no hexadecimal digit of a CAN FD frame's flags",
    "the length of a remote frame is no digit up to 8",
    "the data are no pairs of hexadecimal digits",
    "after the data comes something else than R (received) or T (sent)",
];

impl BadLogLine {
    /// What is wrong with a line of a recording as `candump -L` writes it.
    pub fn of_record(bad: BadLine) -> BadLogLine
        ensures { result ≡ of_record bad }
    {
        match bad {
            BadLine::Stamp => BadLogLine::RecordStamp,
            BadLine::Interface => BadLogLine::RecordInterface,
            BadLine::Identifier => BadLogLine::RecordIdentifier,
            BadLine::Flags => BadLogLine::RecordFlags,
            BadLine::Length => BadLogLine::RecordLength,
            BadLine::Data => BadLogLine::RecordData,
            BadLine::TooManyBytes => BadLogLine::TooManyBytes,
            BadLine::Ending => BadLogLine::RecordEnding,
        }
    }

    /// What is wrong, in words, without a stop at the end.
    pub fn words(self) -> &'static str
        ensures { result.now ≡ bad_words self }
    {
        WORDS[self as usize]
    }
}
