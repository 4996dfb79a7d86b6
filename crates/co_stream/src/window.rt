//! What a reader gave and is not taken yet, and the last line that was taken.

ghost use Rattle.std.specs.Prelude.{◌≡◌, ℕ, ◌+◌, ◌<◌, ◌≤◌, List, [], ◌∷◌, ◌++◌, length, take, drop, OnErr, IfOk, Ok, true, false};
ghost use Rattle.std.specs.Io.KnownBytes.{Consumes, Keeps, IsAtEnd};
ghost use Rattle.std.specs.Str.Lines.{strip_carriage_return};
ghost use Rattle.co_stream.specs.Lines.{has_line_feed, EndsAt};

use crate::asking::ask;
use crate::read_fault::ReadFault;
use co_text::split_at_first;
use memchr::memrchr;
use std::io::Read;
use std::marker::Model;

const LINE_FEED: u8 = b'\n';

/// The most bytes without a line feed that may still become a line of 512 bytes: 512, and a
/// carriage return.
const MOST: usize = 513;

/// At most 8,192 bytes of a reader. Contracts see the last line taken from them, and the rest.
#[derive(Drop)]
pub(crate) struct Window {
    bytes: [u8; 8192],
    line_start: usize,
    line_end: usize,
    start: usize,
    end: usize,
    // end of the last whole line among the bytes; found once per read call
    lines_end: usize,
}

impl Model for Window {
    ghost use Rattle.std.specs.Prelude.{ℕ, ◌≤◌, List, take, drop};
    ghost use Rattle.co_stream.specs.Lines.{EndsAt};
    ghost use Rattle.co_stream.specs.Held.{Taken};

    ghost Value = { Taken };

    ghost view = { λ w. record {
      line = drop w.line_start (take w.line_end w.bytes);
      rest = drop w.start (take w.end w.bytes);
    } };

    ghost invariant = { λ w. (w.start ≤ w.end) × (w.end ≤ 8192) × (w.line_start ≤ w.line_end)
        × (w.line_end ≤ 8192) × EndsAt w.lines_end (take w.end w.bytes) };
}

// past the last line feed of bytes; 0 where they have none
fn past_last_feed(bytes: &[u8]) -> usize
    ensures { EndsAt result bytes.now }
{
    match memrchr(LINE_FEED, bytes) {
        Some(place) => place + 1,
        None => 0,
    }
}

// how many bytes there are without one carriage return at their end
fn length_without_return(bytes: &[u8]) -> usize
    ensures length { result ≡ length (strip_carriage_return bytes.now) }
    ensures front { strip_carriage_return bytes.now ≡ take result bytes.now }
    ensures within { result ≤ length bytes.now }
{
    match bytes {
        [front @ .., b'\r'] => front.len(),
        _ => bytes.len(),
    }
}

impl Window {
    /// Nothing was given.
    pub(crate) fn new() -> Self
        ensures { result ≡ record { line = []; rest = [] } }
    {
        Window {
            bytes: [0; 8192],
            line_start: 0,
            line_end: 0,
            start: 0,
            end: 0,
            lines_end: 0,
        }
    }

    /// The last line that was taken.
    pub(crate) fn line(&self) -> &[u8]
        ensures { result.now ≡ self.now.line }
    {
        let read = &self.bytes[..self.line_end];
        &read[self.line_start..]
    }

    // the bytes that are not taken yet
    fn rest(&self) -> &[u8]
        ensures { result.now ≡ self.now.rest }
    {
        let read = &self.bytes[..self.end];
        &read[self.start..]
    }

    /// Whether a line feed is left.
    pub(crate) fn has_line_feed(&self) -> bool
        ensures { result ≡ has_line_feed self.now.rest }
    {
        self.start < self.lines_end
    }

    /// Takes the line that the first line feed ends, without its end. `false` where no line feed is
    /// left.
    pub(crate) fn take_line(&mut self) -> bool
        ensures line { result ≡ true → (front : List ℕ) × (self.old.rest ≡ front ++ 10 ∷ self.new.rest)
            × (has_line_feed front ≡ false) × (self.new.line ≡ strip_carriage_return front) }
        ensures none { result ≡ false → (has_line_feed self.old.rest ≡ false)
            × (self.new.rest ≡ self.old.rest) }
    {
        let Some((front, after)) = split_at_first(self.rest(), LINE_FEED) else {
            return false;
        };
        let length = length_without_return(front);
        let left = after.len();
        self.line_start = self.start;
        self.line_end = self.start + length;
        self.start = self.end - left;
        true
    }

    /// Takes all bytes that are left as a line.
    pub(crate) fn take_rest(&mut self)
        ensures line { self.new.line ≡ self.old.rest }
        ensures rest { self.new.rest ≡ [] }
    {
        self.line_start = self.start;
        self.line_end = self.end;
        self.start = self.end;
    }

    /// Drops the bytes that are left if their line is already being passed over (`passing`), or is
    /// too long however it ends: `true`. Else keeps them: `false`.
    pub(crate) fn pass_over(&mut self, passing: bool) -> bool
        ensures over { result ≡ true → (length self.new.rest ≡ 0)
            × (passing ≡ false → 513 < length self.old.rest) }
        ensures kept { result ≡ false → (passing ≡ false) × (self.new.rest ≡ self.old.rest) }
        ensures room { length self.new.rest ≤ 513 }
    {
        if passing || self.end - self.start > MOST {
            self.start = self.end;
            return true;
        }
        false
    }

    /// Reads more bytes, which come after those that are left. `false` at the reader's end.
    pub(crate) fn refill<R: Read>(&mut self, reader: &mut R) -> Result<bool, ReadFault>
        requires { length self.old.rest < 8192 }
        ensures more { IfOk result (λ _. (came : List ℕ) × (self.new.rest ≡ self.old.rest ++ came)
            × Consumes (R.remaining reader.old) (R.remaining reader.new) came) }
        ensures end { result ≡ Ok false → (self.new.rest ≡ self.old.rest)
            × IsAtEnd (R.remaining reader.new) }
        ensures err { OnErr result (Keeps (R.remaining reader.old) (R.remaining reader.new)) }
        ensures rest { OnErr result (self.new.rest ≡ self.old.rest) }
    {
        let held = self.end - self.start;
        self.bytes.copy_within(self.start..self.end, 0);
        self.lines_end = past_last_feed(&self.bytes[..held]);
        self.start = 0;
        self.end = held;
        let count = ask(reader, &mut self.bytes[held..])?;
        self.end = held + count;
        self.lines_end = past_last_feed(&self.bytes[..held + count]);
        Ok(count > 0)
    }
}
