//! One line of a recording after another.

ghost use Rattle.std.specs.Prelude.{◌≡◌, ◌≤◌, List, [], OnOk, IfOk, IfSome, IfNone};
ghost use Rattle.std.specs.Io.KnownBytes.{IsAtEnd};
ghost use Rattle.co_stream.specs.Held.{nothing_held, to_come};
ghost use Rattle.co_stream.specs.Readings.{Gave};
ghost use Rattle.conode_convert.specs.Converted.{at_start};
ghost use Rattle.conode_logs.specs.Logs.{says};
ghost use Rattle.conode_record.specs.declared.line.Record.{Record};
ghost use Rattle.conode_record.specs.Lines.{line_in};
ghost use Rattle.conode_stats_counts.specs.Buses.{counts_of};
ghost use Rattle.conode_stats.specs.Frames.{counts_after, faults_in, good, line_at};
ghost use Rattle.conode_stats.specs.Taking.{Takes};

use co_stream::{BoundedLines, Found};
use conode_convert::{
    NOT_TEXT, TOO_LONG, add_frame, is_not_text, name_bad_line, name_cut, name_step_back, read_fault,
};
use conode_io::CmdFault;
use conode_logs::{Form, Log};
use conode_record::{BadLogLine, LogLine, RecordLine};
use conode_sheets::{IS_SHEET, is_section_line};
use conode_stats_counts::Counts;
use std::alloc::Global;
use std::io::{Read, Write};

/// Progress through a recording.
#[derive(Drop)]
pub(crate) struct Counting {
    lines: BoundedLines,
    log: Log,
    counts: Counts,
    text: Vec<u8>,
    // whether a stamp that steps back was named
    is_step_said: bool,
}

// Counts the frame of a line as `candump -L` writes it, if it has one. Returns 1 and names the line
// if it is bad, else 0.
fn count_record<E: Write>(
    alloc: Global,
    counts: &mut Counts,
    number: u64,
    line: &[u8],
    err: &mut E,
) -> Result<u64, CmdFault>
    ensures counts { OnOk result
        (counts.new ≡ counts_after counts.old (good (line_in line.now))) }
    ensures bad { IfOk result (λ bad. bad ≡ faults_in (good (line_in line.now))) }
{
    match RecordLine::read(line) {
        Ok(RecordLine::Skipped) => Ok(0),
        Ok(RecordLine::Frame(frame)) => {
            match counts.take(alloc, &frame) {
                Ok(()) => Ok(0),
                Err(_) => Err(CmdFault::Memory),
            }
        }
        Err(bad) => {
            name_bad_line(number, BadLogLine::of_record(bad).words(), err);
            Ok(1)
        }
    }
}

// Names a line that this log's reader doesn't know, and returns 1. Before the first line that shows
// the form of a log a section line of a data sheet ends it, and so does a line that isn't text.
fn name_unknown<E: Write>(
    form: Form,
    number: u64,
    line: &[u8],
    bad: BadLogLine,
    err: &mut E,
) -> Result<u64, CmdFault>
    ensures { IfOk result (λ bad. bad ≡ 1) }
{
    if let Form::Unknown = form {
        if is_section_line(line) {
            return Err(IS_SHEET);
        }
        if is_not_text(form, line) {
            return Err(NOT_TEXT);
        }
    }
    name_bad_line(number, bad.words(), err);
    Ok(1)
}

// Counts a line's frame, if it has one. Returns 1 and names the line if it is bad, else 0.
#[tactic(auto, unfolding(crate::specs::Frames::line_at), using(crate::proofs::LogLemmas::candump_line, crate::proofs::LogLemmas::candump_log))]
fn count_line<E: Write>(
    alloc: Global,
    text: &mut Vec<u8>,
    log: &mut Log,
    counts: &mut Counts,
    number: u64,
    line: &[u8],
    err: &mut E,
) -> Result<u64, CmdFault>
    ensures counts { OnOk result
        (counts.new ≡ counts_after counts.old (line_at log.old line.now)) }
    ensures log { OnOk result (log.new ≡ (says log.old line.now).0) }
    ensures bad { IfOk result (λ bad. bad ≡ faults_in (line_at log.old line.now)) }
{
    if let Form::Candump = log.form {
        return count_record(alloc, counts, number, line, err);
    }
    match log.read(line) {
        Ok(LogLine::Skipped) => Ok(0),
        Ok(LogLine::AsItIs) => count_record(alloc, counts, number, line, err),
        Ok(LogLine::Frame(frame)) => {
            text.clear();
            match add_frame(text, &frame) {
                Ok(()) => count_record(alloc, counts, number, text.as_slice(), err),
                Err(_) => Err(CmdFault::Memory),
            }
        }
        Err(bad) => name_unknown(log.form, number, line, bad, err),
    }
}

impl Counting {
    /// Before the first line.
    pub(crate) fn new(alloc: Global, form: Form) -> Counting
        ensures lines { result.lines ≡ nothing_held }
        ensures log { result.log ≡ at_start form }
        ensures counts { result.counts ≡ counts_of [] }
    {
        Counting {
            lines: BoundedLines::new(),
            log: Log { form, clock: 0 },
            counts: Counts::new(alloc),
            text: Vec::new(alloc),
            is_step_said: false,
        }
    }

    /// The counts so far.
    pub(crate) fn into_counts(self) -> Counts
        ensures { result ≡ self.counts }
    {
        let Counting {
            lines: _lines,
            log: _log,
            counts,
            text: _text,
            is_step_said: _said,
        } = self;
        counts
    }

    /// Takes the next line: counts its frame, if it has one, or names it if it is bad. Returns 1 if
    /// it is bad and counts, else 0; `None` if no line is left.
    pub(crate) fn take_line<R: Read, E: Write>(
        &mut self,
        alloc: Global,
        reader: &mut R,
        number: u64,
        err: &mut E,
    ) -> Result<Option<u64>, CmdFault>
        ensures line { IfOk result (λ next. IfSome next (λ bad. (frames : List Record)
            → self.old.counts ≡ counts_of frames
            → Takes self.old.lines self.new.lines (R.remaining reader.old) (R.remaining reader.new)
            self.old.log self.new.log frames self.new.counts bad)) }
        ensures few { IfOk result (λ next. IfSome next (λ bad. bad ≤ 1)) }
        ensures end { IfOk result (λ next. IfNone next
            (Gave self.old.lines.ended self.new.lines.ended
            (R.remaining reader.old) (R.remaining reader.new)
            (λ had has. IsAtEnd (to_come self.old.lines had)))) }
        ensures kept { IfOk result (λ next. IfNone next (self.new.counts ≡ self.old.counts)) }
    {
        match self.lines.advance(reader) {
            Ok(Found::End) => Ok(None),
            Ok(Found::TooLong) => {
                name_bad_line(number, TOO_LONG, err);
                Ok(Some(1))
            }
            Ok(Found::Line) => {
                let line = self.lines.line();
                let clock = self.log.clock;
                let bad = count_line(
                    alloc,
                    &mut self.text,
                    &mut self.log,
                    &mut self.counts,
                    number,
                    line,
                    err,
                )?;
                name_step_back(&mut self.is_step_said, clock, self.log, number, err);
                Ok(Some(bad))
            }
            Ok(Found::Last) => {
                let line = self.lines.line();
                count_line(
                    alloc,
                    &mut self.text,
                    &mut self.log,
                    &mut self.counts,
                    number,
                    line,
                    err,
                )?;
                name_cut(self.log.form, number, line, err);
                Ok(Some(0))
            }
            Err(fault) => Err(read_fault(fault)),
        }
    }
}
