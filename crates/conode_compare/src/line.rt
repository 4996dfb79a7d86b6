//! One line of a log after another.

ghost use Rattle.std.specs.Prelude.{◌≡◌, ◌+◌, OnOk, IfOk, IfSome, IfNone, true};
ghost use Rattle.std.specs.List.{AllPairs};
ghost use Rattle.std.specs.Io.KnownBytes.{Keeps, IsAtEnd};
ghost use Rattle.co_stream.specs.Held.{nothing_held, to_come};
ghost use Rattle.co_stream.specs.Readings.{Gave};
ghost use Rattle.co_value.specs.Keys.{is_key_before};
ghost use Rattle.conode_convert.specs.Converted.{at_start};
ghost use Rattle.conode_explain.specs.LogLines.{good, line_at};
ghost use Rattle.conode_io.specs.Written.{WritesLines};
ghost use Rattle.conode_logs.specs.Logs.{says};
ghost use Rattle.conode_record.specs.Lines.{line_in};
ghost use Rattle.conode_compare.specs.Compared.{nothing_compared, said_lines, said_with};
ghost use Rattle.conode_compare.specs.Taking.{Takes, record_set};
ghost use Rattle.conode_compare.specs.Views.{comparison_view};

use crate::comparing::{Comparing, may_have_frame};
use crate::writes::Settings;
use co_stream::{BoundedLines, Found};
use conode_compare_report::Report;
use conode_convert::{NOT_TEXT, add_frame, is_not_text, name_bad_line, read_fault};
use conode_io::{CmdFault, flush};
use conode_logs::{Form, Log};
use conode_record::{BadLogLine, LogLine, RecordLine};
use conode_sheets::{IS_SHEET, is_section_line};
use std::alloc::{AllocError, Global};
use std::io::{Read, Write};

/// How far a log is compared.
#[derive(Drop)]
pub(crate) struct Lines {
    pub(crate) lines: BoundedLines,
    pub(crate) log: Log,
    pub(crate) comparing: Comparing,
    text: String,
    frame: Vec<u8>,
}

/// The words for a line of more than 512 bytes.
const TOO_LONG: &str = "longer than 512 bytes";

// names a line with which this is wrong
fn name_wrong<E: Write>(number: u64, wrong: Option<BadLogLine>, err: &mut E) {
    if let Some(bad) = wrong {
        name_bad_line(number, bad.words(), err);
    }
}

// Takes a line as `candump -L` writes it, of this line of a log. Returns what is wrong with it, if it
// is bad.
#[inline(always)]
fn take_record<W: Write>(
    comparing: &mut Comparing,
    text: &mut String,
    settings: &Settings<'_, '_>,
    number: u64,
    record: &[u8],
    line: &[u8],
    out: &mut W,
) -> Result<Option<BadLogLine>, CmdFault>
    requires { AllPairs (λ e f. is_key_before e.key f.key ≡ true) settings.now.rows.now }
    ensures lines { OnOk result (WritesLines (W.contents out.old) (W.contents out.new)
        (said_lines (comparison_view settings.now) number comparing.old
        (good (line_in record.now)))) }
    ensures next { OnOk result (comparing.new
        ≡ said_with (comparison_view settings.now) comparing.old line.now
        (good (line_in record.now))) }
{
    match RecordLine::read(record) {
        Ok(RecordLine::Skipped) => Ok(None),
        Ok(RecordLine::Frame(frame)) => {
            attempt!(comparing.take_frame(text, settings, number, &frame, out));
            Ok(None)
        }
        Err(bad) => {
            let has_frame = may_have_frame(settings.interface, comparing.first.as_slice(), line);
            comparing.note_bad_line(has_frame);
            Ok(Some(BadLogLine::of_record(bad)))
        }
    }
}

// Sets `text` to the line in the form of `candump -L` that a line of a log of any form is: an empty
// one, where that says nothing. Returns what is wrong with it, if it is bad. Apart from
// `take_log_line`, since a line of other forms is large.
#[inline(never)]
#[tactic(auto, unfolding(conode_explain::specs::LogLines::line_at), using(crate::proofs::RecordLines::empty_line))]
fn set_record_line(
    text: &mut Vec<u8>,
    log: &mut Log,
    line: &[u8],
) -> Result<Option<BadLogLine>, AllocError>
    ensures log { OnOk result (log.new ≡ (says log.old line.now).0) }
    ensures line { IfOk result
        (λ wrong. line_at log.old line.now ≡ record_set text.new.items wrong) }
{
    text.clear();
    match log.read(line) {
        Ok(LogLine::Skipped) => Ok(None),
        Ok(LogLine::AsItIs) => {
            attempt!(text.extend_from_slice(line));
            Ok(None)
        }
        Ok(LogLine::Frame(frame)) => {
            attempt!(add_frame(text, &frame));
            Ok(None)
        }
        Err(bad) => Ok(Some(bad)),
    }
}

// A bad line before the first line that shows the form of a log ends it where it is a section line of
// a data sheet, or isn't text.
fn unless_sheet(form: Form, line: &[u8]) -> Result<(), CmdFault> {
    if let Form::Unknown = form {
        if is_section_line(line) {
            return Err(IS_SHEET);
        }
        if is_not_text(form, line) {
            return Err(NOT_TEXT);
        }
    }
    Ok(())
}

/// Flushes the writer, unless the next line is held whole.
pub(crate) fn let_out<W: Write>(lines: &BoundedLines, out: &mut W) -> Result<(), CmdFault>
    ensures text { Keeps (W.contents out.old) (W.contents out.new) }
{
    if !lines.has_line() {
        attempt!(flush(out));
    }
    Ok(())
}

impl Lines {
    /// No line was taken; `report`: what is kept for a document, if one is wanted.
    pub(crate) fn new(
        alloc: Global,
        settings: &Settings<'_, '_>,
        form: Form,
        report: Option<Report>,
    ) -> Lines
        ensures lines { result.lines ≡ nothing_held }
        ensures log { result.log ≡ at_start form }
        ensures comparing { result.comparing ≡ nothing_compared settings.now.subject report }
    {
        Lines {
            lines: BoundedLines::new(),
            log: Log { form, clock: 0 },
            comparing: Comparing::new(alloc, &settings.subject, report),
            text: String::new(alloc),
            frame: Vec::new(alloc),
        }
    }

    // Takes the line that was found, and writes the lines of its differences. Returns what is wrong
    // with it, if it is bad. A line of a log that is known to be of the form of `candump -L` is read
    // once.
    #[tactic(auto, using(conode_explain::proofs::LogLemmas::candump_line, conode_explain::proofs::LogLemmas::candump_log))]
    fn take_log_line<W: Write>(
        &mut self,
        settings: &Settings<'_, '_>,
        number: u64,
        out: &mut W,
    ) -> Result<Option<BadLogLine>, CmdFault>
        requires { AllPairs (λ e f. is_key_before e.key f.key ≡ true) settings.now.rows.now }
        ensures lines { OnOk result (WritesLines (W.contents out.old) (W.contents out.new)
            (said_lines (comparison_view settings.now) number self.old.comparing
            (line_at self.old.log self.old.lines.line))) }
        ensures next { OnOk result (self.new.comparing
            ≡ said_with (comparison_view settings.now) self.old.comparing self.old.lines.line
            (line_at self.old.log self.old.lines.line)) }
        ensures log { OnOk result (self.new.log ≡ (says self.old.log self.old.lines.line).0) }
        ensures held { self.new.lines ≡ self.old.lines }
    {
        let comparing = &mut self.comparing;
        let text = &mut self.text;
        let line = self.lines.line();
        if let Form::Candump = self.log.form {
            return take_record(comparing, text, settings, number, line, line, out);
        }
        match set_record_line(&mut self.frame, &mut self.log, line) {
            Ok(None) => {
                let record = self.frame.as_slice();
                take_record(comparing, text, settings, number, record, line, out)
            }
            Ok(Some(bad)) => {
                attempt!(unless_sheet(self.log.form, line));
                let has_frame = may_have_frame(
                    settings.interface,
                    comparing.first.as_slice(),
                    line,
                );
                comparing.note_bad_line(has_frame);
                Ok(Some(bad))
            }
            Err(_) => Err(CmdFault::Memory),
        }
    }

    /// Takes the next line: writes the lines of its differences, or names it where it is bad.
    /// `None` where no line is left.
    pub(crate) fn take_line<R: Read, W: Write, E: Write>(
        &mut self,
        reader: &mut R,
        settings: &Settings<'_, '_>,
        number: u64,
        out: &mut W,
        err: &mut E,
    ) -> Result<Option<()>, CmdFault>
        requires { AllPairs (λ e f. is_key_before e.key f.key ≡ true) settings.now.rows.now }
        ensures line { IfOk result (λ next. IfSome next (λ _.
            Takes (comparison_view settings.now) self.old.lines self.new.lines
            (R.remaining reader.old) (R.remaining reader.new) number (number + 1)
            (record { log = self.old.log; comparing = self.old.comparing })
            (record { log = self.new.log; comparing = self.new.comparing })
            (W.contents out.old) (W.contents out.new))) }
        ensures end { IfOk result (λ next. IfNone next ((out.new ≡ out.old)
            × Gave self.old.lines.ended self.new.lines.ended
            (R.remaining reader.old) (R.remaining reader.new)
            (λ had has. IsAtEnd (to_come self.old.lines had)))) }
        ensures kept { IfOk result (λ next. IfNone next
            ((self.new.log ≡ self.old.log) × (self.new.comparing ≡ self.old.comparing))) }
    {
        match self.lines.advance(reader) {
            Ok(Found::End) => Ok(None),
            Ok(Found::TooLong) => {
                name_bad_line(number, TOO_LONG, err);
                attempt_in_memory!(self.comparing.note_line(&[]));
                self.comparing.note_bad_line(true);
                Ok(Some(()))
            }
            Ok(Found::Line) => {
                attempt_in_memory!(self.comparing.note_line(self.lines.line()));
                let wrong = attempt!(self.take_log_line(settings, number, out));
                name_wrong(number, wrong, err);
                Ok(Some(()))
            }
            // whoever stops a recording cuts its last line off
            Ok(Found::Last) => Ok(Some(())),
            Err(fault) => Err(read_fault(fault)),
        }
    }

    /// What is known at the end.
    pub(crate) fn into_comparing(self) -> Comparing
        ensures { result ≡ self.comparing }
    {
        self.comparing
    }
}
