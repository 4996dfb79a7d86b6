//! One line of a log after another.

ghost use Rattle.std.specs.Prelude.{◌≡◌, ◌⊎◌, ◌≤◌, ◌++◌, [], ◌∷◌, OnOk, IfOk, IfErr, IfSome, IfNone};
ghost use Rattle.std.specs.Io.KnownBytes.{Keeps, IsAtEnd};
ghost use Rattle.co_stream.specs.Held.{nothing_held, to_come};
ghost use Rattle.co_stream.specs.Readings.{Gave};
ghost use Rattle.conode_io.specs.Written.{WritesLines};
ghost use Rattle.conode_logs.specs.Logs.{says};
ghost use Rattle.conode_convert.specs.Converted.{at_start, faults_in, written_of};
ghost use Rattle.conode_convert.specs.Printed.{line_text};
ghost use Rattle.conode_convert.specs.Taking.{Takes};

use crate::bad_lines::{
    NOT_TEXT, TOO_LONG, is_not_text, name_bad_line, name_step_back, read_fault,
};
use crate::cut_off::name_cut;
use crate::text::add_line;
use co_stream::{BoundedLines, Found};
use conode_io::{CmdFault, flush, hand_over};
use conode_logs::{BadLogLine, Form, Log, LogFrame, LogLine};
use std::alloc::Global;
use std::io::{Read, Write};

/// Progress through a log.
#[derive(Drop)]
pub(crate) struct Converting {
    lines: BoundedLines,
    log: Log,
    room: Vec<u8>,
    // whether a stamp that steps back was named
    is_step_said: bool,
}

// Writes the line of a frame. `room` is scratch space.
#[tactic(auto, using(conode_io::proofs::WriteLemmas::line_alone))]
fn write_frame<W: Write>(
    room: &mut Vec<u8>,
    frame: &LogFrame<'_>,
    out: &mut W,
) -> Result<(), CmdFault>
    ensures lines { OnOk result
        (WritesLines (W.contents out.old) (W.contents out.new) (line_text frame.now ∷ [])) }
    ensures err { IfErr result (λ fault. (fault ≡ CmdFault.Write) ⊎ (fault ≡ CmdFault.Memory)) }
{
    room.clear();
    match add_line(room, frame) {
        Ok(()) => hand_over(room.as_slice(), out),
        Err(_) => Err(CmdFault::Memory),
    }
}

// Writes a line as it is.
#[tactic(auto, using(conode_io::proofs::WriteLemmas::line_alone))]
fn write_as_it_is<W: Write>(room: &mut Vec<u8>, line: &[u8], out: &mut W) -> Result<(), CmdFault>
    ensures lines { OnOk result
        (WritesLines (W.contents out.old) (W.contents out.new) ((line.now ++ 10 ∷ []) ∷ [])) }
    ensures err { IfErr result (λ fault. (fault ≡ CmdFault.Write) ⊎ (fault ≡ CmdFault.Memory)) }
{
    room.clear();
    room.extend_from_slice(line)?;
    room.extend_from_slice(b"\n")?;
    hand_over(room.as_slice(), out)
}

// Names a line that this log's reader doesn't know, and returns 1. One that shows that the log isn't
// text ends it.
fn name_unknown<E: Write>(
    form: Form,
    number: u64,
    line: &[u8],
    bad: BadLogLine,
    err: &mut E,
) -> Result<u64, CmdFault>
    ensures { IfOk result (λ bad. bad ≡ 1) }
{
    if is_not_text(form, line) {
        return Err(NOT_TEXT);
    }
    name_bad_line(number, bad.words(), err);
    Ok(1)
}

// Converts a line. Returns 1 and names the line if it is bad, else 0.
fn convert_line<W: Write, E: Write>(
    room: &mut Vec<u8>,
    log: &mut Log,
    number: u64,
    line: &[u8],
    out: &mut W,
    err: &mut E,
) -> Result<u64, CmdFault>
    ensures lines { OnOk result (WritesLines (W.contents out.old) (W.contents out.new)
        (written_of line.now (says log.old line.now).1)) }
    ensures log { OnOk result (log.new ≡ (says log.old line.now).0) }
    ensures bad { IfOk result (λ bad. bad ≡ faults_in (says log.old line.now).1) }
{
    match log.read(line) {
        Ok(LogLine::Skipped) => Ok(0),
        Ok(LogLine::AsItIs) => {
            match write_as_it_is(room, line, out) {
                Ok(()) => Ok(0),
                Err(fault) => Err(fault),
            }
        }
        Ok(LogLine::Frame(frame)) => {
            match write_frame(room, &frame, out) {
                Ok(()) => Ok(0),
                Err(fault) => Err(fault),
            }
        }
        Err(bad) => name_unknown(log.form, number, line, bad, err),
    }
}

impl Converting {
    /// Before the first line.
    pub(crate) fn new(alloc: Global, form: Form) -> Converting
        ensures lines { result.lines ≡ nothing_held }
        ensures log { result.log ≡ at_start form }
    {
        Converting {
            lines: BoundedLines::new(),
            log: Log { form, clock: 0 },
            room: Vec::new(alloc),
            is_step_said: false,
        }
    }

    /// Flushes the writer, unless the whole next line is held.
    pub(crate) fn let_out<W: Write>(&self, out: &mut W) -> Result<(), CmdFault>
        ensures text { Keeps (W.contents out.old) (W.contents out.new) }
    {
        if !self.lines.has_line() {
            flush(out)?;
        }
        Ok(())
    }

    /// Takes the next line: converts it, or names it if it is bad. Returns 1 if it is bad and
    /// counts, else 0; `None` if no line is left.
    pub(crate) fn take_line<R: Read, W: Write, E: Write>(
        &mut self,
        reader: &mut R,
        number: u64,
        out: &mut W,
        err: &mut E,
    ) -> Result<Option<u64>, CmdFault>
        ensures line { IfOk result (λ next. IfSome next (λ bad.
            Takes self.old.lines self.new.lines (R.remaining reader.old) (R.remaining reader.new)
            self.old.log self.new.log (W.contents out.old) (W.contents out.new) bad)) }
        ensures few { IfOk result (λ next. IfSome next (λ bad. bad ≤ 1)) }
        ensures end { IfOk result (λ next. IfNone next ((out.new ≡ out.old)
            × Gave self.old.lines.ended self.new.lines.ended
            (R.remaining reader.old) (R.remaining reader.new)
            (λ had has. IsAtEnd (to_come self.old.lines had)))) }
    {
        match self.lines.advance(reader) {
            Ok(Found::End) => Ok(None),
            Ok(Found::TooLong) => {
                name_bad_line(number, TOO_LONG, err);
                Ok(Some(1))
            }
            Ok(Found::Line) => {
                let line = self.lines.line();
                let clock = self.log.clock;
                let bad = convert_line(&mut self.room, &mut self.log, number, line, out, err)?;
                name_step_back(&mut self.is_step_said, clock, self.log, number, err);
                Ok(Some(bad))
            }
            Ok(Found::Last) => {
                let line = self.lines.line();
                convert_line(&mut self.room, &mut self.log, number, line, out, err)?;
                name_cut(self.log.form, number, line, err);
                Ok(Some(0))
            }
            Err(fault) => Err(read_fault(fault)),
        }
    }
}
