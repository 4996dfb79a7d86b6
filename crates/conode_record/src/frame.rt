//! A frame of a log.

ghost use Rattle.std.specs.Prelude.{◌≡◌, ◌+◌, ◌<◌, ◌≤◌, ◌++◌, ◌∷◌, [], length};

use crate::{Direction, Identifier};
use arrayvec::ArrayVec;
use std::marker::Model;

/// The data of a frame: at most 64 bytes. Contracts see the bytes.
#[derive(Drop)]
pub struct LogBytes {
    bytes: ArrayVec<u8, 64>,
}

impl Model for LogBytes {
    ghost use Rattle.std.specs.Prelude.{ℕ, List, length, ◌≤◌};

    ghost Value = { List ℕ };

    ghost view = { λ log. log.bytes.items };

    ghost invariant = { λ log. length log.bytes.items ≤ 64 };
}

impl LogBytes {
    /// No bytes.
    pub fn new() -> LogBytes
        ensures { result ≡ [] }
    {
        LogBytes {
            bytes: ArrayVec::new(),
        }
    }

    /// Appends a byte.
    #[inline(always)]
    pub fn append(&mut self, byte: u8)
        requires { length self.old < 64 }
        ensures { self.new ≡ self.old ++ byte ∷ [] }
    {
        self.bytes.push(byte);
    }

    /// The data of an error frame without details in the log: eight bytes, each 0.
    pub fn of_error() -> LogBytes
        ensures { result ≡ 0 ∷ 0 ∷ 0 ∷ 0 ∷ 0 ∷ 0 ∷ 0 ∷ 0 ∷ [] }
    {
        let mut bytes = LogBytes::new();
        bytes.bytes.try_extend_from_slice(&[0; 8]).unwrap();
        bytes
    }

    /// The bytes.
    pub fn bytes(&self) -> &[u8]
        ensures bytes { result.now ≡ self.now }
        ensures few { length result.now ≤ 64 }
    {
        self.bytes.as_slice()
    }
}

/// The name of an interface. Contracts see its bytes, 15 at most.
#[derive(Drop)]
pub struct Name<'a> {
    name: &'a [u8],
}

impl<'a> Model for Name<'a> {
    ghost use Rattle.std.specs.Prelude.{ℕ, List, length, ◌≤◌};

    ghost Value = { List ℕ };

    ghost view = { λ name. name.name.now };

    ghost invariant = { λ name. length name.name.now ≤ 15 };
}

impl<'a> Name<'a> {
    /// The name with these bytes, 15 at most.
    pub fn new(name: &'a [u8]) -> Name<'a>
        requires { length name.now ≤ 15 }
        ensures { result ≡ name.now }
    {
        Name { name }
    }

    /// Its bytes.
    pub fn bytes(&self) -> &'a [u8]
        ensures { result.now ≡ self.now }
    {
        self.name
    }
}

/// Where a frame was seen.
#[derive(Drop)]
pub enum Place<'a> {
    /// On the interface of this name.
    Interface(Name<'a>),
    /// On the channel of this number, 1 to 255; channel 1 is written as `can0`.
    Channel(u8),
}

/// The content of a frame.
#[derive(Drop)]
pub enum LogContent {
    /// Data, at most 8 bytes.
    Data(LogBytes),
    /// A remote frame: the length of the data that it asks for, at most 8.
    Remote(u8),
    /// A CAN FD frame: its flags (bit 0 bit rate switch, bit 1 error state indicator), and its
    /// data.
    Fd(u8, LogBytes),
}

/// A frame of a log.
#[derive(Drop)]
pub struct LogFrame<'a> {
    /// When it was seen, in microseconds; below 10^18.
    pub micros: u64,
    /// Where it was seen.
    pub place: Place<'a>,
    /// Its identifier.
    pub id: Identifier,
    /// Its data, or the length of a remote frame.
    pub content: LogContent,
    /// Whether it was received or sent, where the log says so.
    pub direction: Option<Direction>,
}

/// What a line of a log says.
#[derive(Drop)]
pub enum LogLine<'a> {
    /// Nothing: it is a header, a comment, or an event that is no frame.
    Skipped,
    /// It is a line as `candump -L` writes it already.
    AsItIs,
    /// A frame.
    Frame(LogFrame<'a>),
}
