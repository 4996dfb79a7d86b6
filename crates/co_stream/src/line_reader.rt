//! Lines one at a time.

ghost use Rattle.std.specs.Prelude.{
  ◌≡◌,
  ◌≢◌,
  ℕ,
  ◌≤◌,
  List,
  Option,
  IfOk,
  IfErr,
  IfSome,
  IsNone,
  None,
  Err,
  length,
  true,
  false,
};
ghost use Rattle.std.specs.Borrow.{sem};
ghost use Rattle.std.specs.Io.BufRead.{Rests};
ghost use Rattle.co_stream.specs.Lines.{has_line_feed, IsTooLong};
ghost use Rattle.co_stream.specs.Readings.{Reading, to_come, LosesPartOfLine};
ghost use Rattle.co_stream.specs.Nexts.{IsNext, new_reader};
ghost use Rattle.co_stream.specs.contracts.line_reader.LineReader.{the_row};

use crate::fault::LineFault;
use crate::line_cutter::LineCutter;
use std::io::Read;
use std::marker::Model;

/// Reads a text line by line, in constant memory: it holds a line of at most 512 bytes, and a piece
/// of at most 512. It makes at most 16,777,216 read calls in all, each for at most 512 bytes.
#[derive(Drop)]
pub struct LineReader {
    cutter: LineCutter,
    fault: Option<LineFault>,
}

impl Model for LineReader {
    ghost use Rattle.co_stream.specs.Readings.{Reading};

    ghost Value = { Reading };

    ghost view = { λ r. record {
      rest = r.cutter.piece;
      ended = r.cutter.ended;
      fault = r.fault;
      asks = r.cutter.asks.left;
      failed = r.cutter.asks.failed;
    } };
}

impl LineReader {
    /// A reader of lines that has asked no reader yet.
    pub fn new() -> Self
        ensures new { result ≡ new_reader }
        ensures bytes { (known : Option (List ℕ)) → to_come result known ≡ known }
    {
        LineReader {
            cutter: LineCutter::new(),
            fault: None,
        }
    }

    /// Whether the next line is held whole, so that `next` gives it without asking the reader.
    pub fn has_line(&self) -> bool
        ensures { result ≡ has_line_feed self.now.rest }
    {
        self.cutter.has_line()
    }

    /// The next line of what the reader gives, without its end; `None` at the reader's end. A line
    /// feed ends a line, with one carriage return before it; the last line may lack its line feed,
    /// and then keeps a carriage return. Pass the same reader to all calls.
    ///
    /// The reader is asked only while no whole line is held, and not again once it has come to its
    /// end. A read that a signal interrupted is tried again. Each line before a fault is returned
    /// first:
    ///
    /// * `Read`: the reader failed.
    /// * `TooLong`: the next line has more than 512 bytes, its end not counted.
    /// * `NeverEnds`: 16,777,216 read calls were made, those that were interrupted counted.
    ///
    /// After a fault each further call returns it again, and asks no more.
    pub fn next<R: Read>(&mut self, reader: &mut R) -> Result<Option<&[u8]>, LineFault>
        ensures* after_borrow { sem 𝓛 (Rests the_row self.entry (λ new. IsNext self.old new
            (R.remaining reader.old) (R.remaining reader.new) result)) }
        ensures length { IfOk result (λ next. IfSome next (λ line. length line.now ≤ 512)) }
        ensures too_long { IfErr result (λ fault. fault ≡ LineFault.TooLong →
            IsNone self.old.fault → IfSome (to_come self.old (R.remaining reader.old)) IsTooLong) }
        ensures within { IfErr result (λ fault. fault ≢ LineFault.TooLong → IsNone self.old.fault →
            LosesPartOfLine (to_come self.old (R.remaining reader.old)) (R.remaining reader.new)) }
        ensures again { IfSome self.old.fault (λ fault.
            (result ≡ Err fault) × (reader.new ≡ reader.old)) }
        ensures held { has_line_feed self.old.rest ≡ true → reader.new ≡ reader.old }
        ensures ended { self.old.ended ≡ true → reader.new ≡ reader.old }
    {
        if let Some(fault) = self.fault {
            return Err(fault);
        }
        match self.cutter.advance(reader) {
            Ok(true) => Ok(Some(self.cutter.line())),
            Ok(false) => Ok(None),
            Err(fault) => {
                self.fault = Some(fault);
                Err(fault)
            }
        }
    }
}
