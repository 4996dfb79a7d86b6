//! Lines cut out of pieces.

ghost use Rattle.std.specs.Prelude.{◌≡◌, ◌≢◌, ◌<◌, ◌≤◌, [], IfErr, IfSome, OnOk, Ok, true, false, length};
ghost use Rattle.std.specs.Io.KnownBytes.{Keeps, IsAtEnd};
ghost use Rattle.std.specs.Str.Lines.{strip_carriage_return};
ghost use Rattle.co_stream.specs.declared.fault.AskFault.TheVariants as ask;
ghost use Rattle.co_stream.specs.Lines.{has_line_feed, IsTooLong, GivesLine};
ghost use Rattle.co_stream.specs.Readings.{known_bytes, most_bytes, Gave, LosesPartOfLine};

use crate::asks::Asks;
use crate::fault::{AskFault, LineFault};
use crate::line_buffer::LineBuffer;
use crate::piece::Piece;
use std::io::Read;

/// A line, the piece in which it ends, and whether the reader has come to its end.
#[derive(Drop)]
pub(crate) struct LineCutter {
    line: LineBuffer,
    piece: Piece,
    ended: bool,
    asks: Asks,
}

impl LineCutter {
    pub(crate) fn new() -> Self
        ensures piece { result.piece ≡ [] }
        ensures ended { result.ended ≡ false }
        ensures asks { result.asks ≡ record { left = 16777216; failed = false } }
    {
        LineCutter {
            line: LineBuffer::new(),
            piece: Piece::new(),
            ended: false,
            asks: Asks::new(),
        }
    }

    /// The line that `advance` found.
    pub(crate) fn line(&self) -> &[u8]
        ensures line { result.now ≡ strip_carriage_return self.now.line }
        ensures length { length result.now ≤ 512 }
    {
        self.line.text()
    }

    /// Whether the next line is held whole.
    pub(crate) fn has_line(&self) -> bool
        ensures { result ≡ has_line_feed self.now.piece }
    {
        self.piece.has_line_feed()
    }

    // reads the next piece; `false` at the reader's end
    fn refill<R: Read>(&mut self, reader: &mut R) -> Result<bool, AskFault>
        requires { self.old.piece ≡ [] }
        ensures line { self.new.line ≡ self.old.line }
        ensures bytes { OnOk result (Gave self.old.ended self.new.ended
            (R.remaining reader.old) (R.remaining reader.new)
            (λ had has. Keeps (known_bytes self.old.ended self.old.piece had)
            (known_bytes self.new.ended self.new.piece has))) }
        ensures end { result ≡ Ok false → (self.new.piece ≡ []) × (self.new.ended ≡ true) }
        ensures err { IfErr result (λ _. Keeps (R.remaining reader.old) (R.remaining reader.new)
            × (self.old.ended ≡ false) × (self.new.ended ≡ false)) }
        ensures ended { self.old.ended ≡ true →
            (reader.new ≡ reader.old) × (self.new.ended ≡ true) }
        ensures asked { self.new.asks.left ≤ self.old.asks.left }
        ensures counted { result ≡ Ok true → self.new.asks.left < self.old.asks.left }
        ensures few { OnOk result (most_bytes self.new.asks.left self.new.piece
            ≤ most_bytes self.old.asks.left self.old.piece) }
        ensures failed { IfErr result (λ fault. fault ≡ ask.Read → self.new.asks.failed ≡ true) }
        ensures never_ends { IfErr result (λ fault. fault ≡ ask.NeverEnds →
            self.new.asks.left ≡ 0) }
    {
        if self.ended {
            return Ok(false);
        }
        let more = self.piece.refill(reader, &mut self.asks)?;
        self.ended = !more;
        Ok(more)
    }

    /// Finds the next line. `false` where there is none.
    pub(crate) fn advance<R: Read>(&mut self, reader: &mut R) -> Result<bool, LineFault>
        ensures line { result ≡ Ok true → Gave self.old.ended self.new.ended
            (R.remaining reader.old) (R.remaining reader.new)
            (λ had has. GivesLine (known_bytes self.old.ended self.old.piece had)
            (known_bytes self.new.ended self.new.piece has)
            (strip_carriage_return self.new.line)) }
        ensures end { result ≡ Ok false → Gave self.old.ended self.new.ended
            (R.remaining reader.old) (R.remaining reader.new)
            (λ had has. IsAtEnd (known_bytes self.old.ended self.old.piece had)
            × IsAtEnd (known_bytes self.new.ended self.new.piece has))
            × (self.new.piece ≡ []) × (self.new.ended ≡ true) }
        ensures too_long { IfErr result (λ fault. fault ≡ LineFault.TooLong →
            Gave self.old.ended self.new.ended (R.remaining reader.old) (R.remaining reader.new)
            (λ had has.
            IfSome (known_bytes self.old.ended self.old.piece had) IsTooLong)) }
        ensures within { IfErr result (λ fault. fault ≢ LineFault.TooLong →
            Gave self.old.ended self.new.ended (R.remaining reader.old) (R.remaining reader.new)
            (λ had has.
            LosesPartOfLine (known_bytes self.old.ended self.old.piece had) has)) }
        ensures held { has_line_feed self.old.piece ≡ true → reader.new ≡ reader.old }
        ensures ended { self.old.ended ≡ true →
            (reader.new ≡ reader.old) × (self.new.ended ≡ true) }
        ensures asked { self.new.asks.left ≤ self.old.asks.left }
        ensures fewer { result ≡ Ok true → most_bytes self.new.asks.left self.new.piece
            < most_bytes self.old.asks.left self.old.piece }
        ensures failed { IfErr result (λ fault. fault ≡ LineFault.Read →
            self.new.asks.failed ≡ true) }
        ensures never_ends { IfErr result (λ fault. fault ≡ LineFault.NeverEnds →
            self.new.asks.left ≡ 0) }
    {
        self.line.clear();
        while !self.piece.move_line(&mut self.line)? {
            if !self.refill(reader)? {
                return self.last_line();
            }
        }
        Ok(true)
    }

    // The bytes before the reader's end are the last line, if there are any. A carriage return at
    // their end belongs to it: one more is added, since the line is read without its last one.
    fn last_line(&mut self) -> Result<bool, LineFault>
        ensures line { result ≡ Ok true → (strip_carriage_return self.new.line ≡ self.old.line)
            × (0 < length self.old.line) }
        ensures none { result ≡ Ok false → self.old.line ≡ [] }
        ensures too_long { IfErr result (λ fault. (fault ≡ LineFault.TooLong)
            × (512 < length self.old.line)) }
        ensures piece { self.new.piece ≡ self.old.piece }
        ensures ended { self.new.ended ≡ self.old.ended }
        ensures asks { self.new.asks ≡ self.old.asks }
    {
        if self.line.is_empty() {
            return Ok(false);
        }
        self.line.add(b"\r")?;
        Ok(true)
    }
}
