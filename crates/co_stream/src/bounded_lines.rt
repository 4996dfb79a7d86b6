//! Lines one at a time, whatever their length.

ghost use Rattle.std.specs.Prelude.{◌≡◌, ◌+◌, ◌<◌, ◌≤◌, IfOk, Err, length, true, false};
ghost use Rattle.co_stream.specs.Lines.{has_line_feed};
ghost use Rattle.co_stream.specs.Readings.{Gave, LosesPartOfLine};
ghost use Rattle.co_stream.specs.Held.{nothing_held, to_come};
ghost use Rattle.co_stream.specs.Founds.{Finds};

use crate::read_fault::ReadFault;
use crate::window::Window;
use std::io::Read;
use std::marker::Model;

/// The greatest number of bytes of a line, its end not counted.
const LONGEST: usize = 512;

/// What the next line is.
#[derive(Clone, Copy, Debug, PartialEq, Eq)]
pub enum Found {
    /// A line that a line feed ends, of at most 512 bytes.
    Line,
    /// The reader's last bytes, at most 512, which no line feed ends.
    Last,
    /// A line of more than 512 bytes, which was passed over to its end.
    TooLong,
    /// There is none: the reader has come to its end.
    End,
}

/// Reads a text line by line in constant memory, whatever the length of its lines: it holds at most
/// 8,192 bytes. There is no bound on how many lines come. Contracts see the line that was found
/// last, what the reader gave after it, and whether the reader has come to its end.
#[derive(Drop)]
pub struct BoundedLines {
    window: Window,
    ended: bool,
}

impl Model for BoundedLines {
    ghost use Rattle.co_stream.specs.Held.{Held};

    ghost Value = { Held };

    ghost view = { λ r. record { line = r.window.line; rest = r.window.rest; ended = r.ended } };
}

impl BoundedLines {
    /// A reader of lines that has asked no reader yet.
    pub fn new() -> Self
        ensures { result ≡ nothing_held }
    {
        BoundedLines {
            window: Window::new(),
            ended: false,
        }
    }

    /// Whether the next line is held whole, so that `advance` finds it without asking the reader.
    pub fn has_line(&self) -> bool
        ensures { result ≡ has_line_feed self.now.rest }
    {
        self.window.has_line_feed()
    }

    /// The line that `advance` found, without its end.
    pub fn line(&self) -> &[u8]
        ensures { result.now ≡ self.now.line }
    {
        self.window.line()
    }

    /// Finds the next line of what the reader gives. A line feed ends a line, with one carriage
    /// return before it; the last line may lack its line feed, and then keeps a carriage return.
    /// Pass the same reader to all calls.
    ///
    /// The reader is asked only while no whole line is held, and not again once it has come to its
    /// end. A read that a signal interrupted is tried again.
    ///
    /// * `Read`: the reader failed.
    /// * `NeverEnds`: it was asked at least 2^64 - 1 times for this line.
    ///
    /// After a fault the part of the line that was read may be lost.
    pub fn advance<R: Read>(&mut self, reader: &mut R) -> Result<Found, ReadFault>
        ensures found { IfOk result (λ found. Gave self.old.ended self.new.ended
            (R.remaining reader.old) (R.remaining reader.new)
            (λ had has. Finds (to_come self.old had) (to_come self.new has) self.new.line found)) }
        ensures within { result ≡ Err ReadFault.Read → Gave self.old.ended self.new.ended
            (R.remaining reader.old) (R.remaining reader.new)
            (λ had has. LosesPartOfLine (to_come self.old had) has) }
        ensures held { has_line_feed self.old.rest ≡ true → reader.new ≡ reader.old }
        ensures ended { self.old.ended ≡ true →
            (reader.new ≡ reader.old) × (self.new.ended ≡ true) }
    {
        let mut passing = false;
        let mut asks = u64::MAX;
        while asks > 0 {
            asks -= 1;
            if self.window.take_line() {
                return Ok(self.line_found(passing));
            }
            passing = self.window.pass_over(passing);
            if self.ended {
                return Ok(self.last_found(passing));
            }
            self.ended = !self.window.refill(reader)?;
        }
        Err(ReadFault::NeverEnds)
    }

    // how to report a line that a line feed ended
    fn line_found(&self, passing: bool) -> Found
        ensures long { passing ≡ true → result ≡ Found.TooLong }
        ensures short { passing ≡ false → length self.now.line ≤ 512 → result ≡ Found.Line }
        ensures longer { passing ≡ false → 512 < length self.now.line → result ≡ Found.TooLong }
    {
        if passing || self.line().len() > LONGEST {
            Found::TooLong
        } else {
            Found::Line
        }
    }

    // how to report the bytes left at the reader's end
    fn last_found(&mut self, passing: bool) -> Found
        ensures long { passing ≡ true → result ≡ Found.TooLong }
        ensures none { passing ≡ false → length self.old.rest ≡ 0 → result ≡ Found.End }
        ensures short { passing ≡ false → 0 < length self.old.rest → length self.old.rest ≤ 512
            → result ≡ Found.Last }
        ensures longer { passing ≡ false → 512 < length self.old.rest → result ≡ Found.TooLong }
        ensures line { self.new.line ≡ self.old.rest }
        ensures rest { length self.new.rest ≡ 0 }
        ensures ended { self.new.ended ≡ self.old.ended }
    {
        self.window.take_rest();
        let length = self.line().len();
        if passing || length > LONGEST {
            Found::TooLong
        } else if length > 0 {
            Found::Last
        } else {
            Found::End
        }
    }
}
