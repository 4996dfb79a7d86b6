//! What a reader gives at once.

ghost use Rattle.std.specs.Prelude.{◌≡◌, ℕ, ◌<◌, ◌≤◌, List, [], ◌∷◌, ◌++◌, IfErr, OnOk, OnErr, Ok, true, false};
ghost use Rattle.std.specs.Io.KnownBytes.{Consumes, Keeps, IsAtEnd};
ghost use Rattle.co_stream.specs.Lines.{has_line_feed, BeginsTooLong, EndsAt};
ghost use Rattle.co_stream.specs.Readings.{most_bytes};

use crate::ask::ask;
use crate::asks::Asks;
use crate::fault::{AskFault, LineFault};
use crate::line_buffer::LineBuffer;
use co_text::split_at_first;
use memchr::memrchr;
use std::io::Read;
use std::marker::Model;

const LINE_FEED: u8 = b'\n';

/// The bytes of one read call, at most 512, without those already taken. Contracts see the bytes
/// that are left.
#[derive(Drop)]
pub(crate) struct Piece {
    bytes: [u8; 512],
    start: usize,
    end: usize,
    // end of the last whole line among the bytes; found once per read call
    lines_end: usize,
}

impl Model for Piece {
    ghost use Rattle.std.specs.Prelude.{ℕ, ◌≤◌, List, take, drop};
    ghost use Rattle.co_stream.specs.Lines.{EndsAt};

    ghost Value = { List ℕ };

    ghost view = { λ piece. drop piece.start (take piece.end piece.bytes) };

    ghost invariant = { λ piece. (piece.start ≤ piece.end) × (piece.end ≤ 512)
        × EndsAt piece.lines_end (take piece.end piece.bytes) };
}

// past the last line feed of bytes; 0 where they have none
fn past_last_feed(bytes: &[u8]) -> usize
    ensures { EndsAt result bytes.now }
{
    match memrchr(LINE_FEED, bytes) {
        Some(place) => place + 1,
        None => 0,
    }
}

impl Piece {
    /// Nothing is left.
    pub(crate) fn new() -> Self
        ensures { result ≡ [] }
    {
        Piece {
            bytes: [0; 512],
            start: 0,
            end: 0,
            lines_end: 0,
        }
    }

    // the bytes that are left
    fn rest(&self) -> &[u8]
        ensures { result.now ≡ self.now }
    {
        let read = &self.bytes[..self.end];
        &read[self.start..]
    }

    /// Whether a line feed is left.
    pub(crate) fn has_line_feed(&self) -> bool
        ensures { result ≡ has_line_feed self.now }
    {
        self.start < self.lines_end
    }

    /// Reads the next piece in place of this one. `false` at the reader's end.
    pub(crate) fn refill<R: Read>(
        &mut self,
        reader: &mut R,
        asks: &mut Asks,
    ) -> Result<bool, AskFault>
        ensures bytes { OnOk result
            (Consumes (R.remaining reader.old) (R.remaining reader.new) self.new) }
        ensures end { result ≡ Ok false → (self.new ≡ []) × IsAtEnd (R.remaining reader.new) }
        ensures err { OnErr result (Keeps (R.remaining reader.old) (R.remaining reader.new)) }
        ensures asked { asks.new.left ≤ asks.old.left }
        ensures counted { OnOk result (asks.new.left < asks.old.left) }
        ensures few { OnOk result
            (most_bytes asks.new.left self.new ≤ most_bytes asks.old.left []) }
        ensures failed { IfErr result (λ fault. fault ≡ AskFault.Read → asks.new.failed ≡ true) }
        ensures never_ends { IfErr result (λ fault. fault ≡ AskFault.NeverEnds →
            asks.new.left ≡ 0) }
    {
        self.start = 0;
        self.end = 0;
        self.lines_end = 0;
        let count = ask(reader, &mut self.bytes, asks)?;
        self.end = count;
        self.lines_end = past_last_feed(&self.bytes[..count]);
        Ok(count > 0)
    }

    /// Moves the bytes before the first line feed to the line, and drops the line feed: `true`.
    /// Without a line feed moves all bytes: `false`. `TooLong`: the line gets longer than
    /// 512 bytes.
    pub(crate) fn move_line(&mut self, line: &mut LineBuffer) -> Result<bool, LineFault>
        ensures whole { result ≡ Ok true → (front : List ℕ) × (self.old ≡ front ++ 10 ∷ self.new)
            × (has_line_feed front ≡ false) × (line.new ≡ line.old ++ front) }
        ensures part { result ≡ Ok false → (self.new ≡ []) × (has_line_feed self.old ≡ false)
            × (line.new ≡ line.old ++ self.old) }
        ensures too_long { OnErr result (BeginsTooLong line.old self.old) }
        ensures fault { IfErr result (λ fault. fault ≡ LineFault.TooLong) }
    {
        match split_at_first(self.rest(), LINE_FEED) {
            Some((front, after)) => {
                line.add(front)?;
                self.start = self.end - after.len();
                Ok(true)
            }
            None => {
                line.add(self.rest())?;
                self.start = self.end;
                Ok(false)
            }
        }
    }
}
