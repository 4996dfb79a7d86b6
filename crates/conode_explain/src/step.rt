//! One line of a log after another.

ghost use Rattle.std.specs.Prelude.{
  ◌≡◌,
  ◌≤◌,
  ◌==◌,
  ◌&&◌,
  OnOk,
  IfOk,
  IfSome,
  IfNone,
  is_some,
};
ghost use Rattle.std.specs.Io.KnownBytes.{Keeps, IsAtEnd};
ghost use Rattle.co_stream.specs.Held.{nothing_held, to_come};
ghost use Rattle.co_stream.specs.Readings.{Gave};
ghost use Rattle.conode_io.specs.Written.{WritesLines};
ghost use Rattle.conode_convert.specs.Converted.{at_start};
ghost use Rattle.conode_logs.specs.Logs.{says};
ghost use Rattle.conode_record.specs.Lines.{line_in};
ghost use Rattle.conode_explain.specs.Explained.{
  count_if,
  faults_in,
  nothing_known,
  progress_after,
  said_lines,
  unfinished_lines,
};
ghost use Rattle.conode_explain.specs.LogLines.{good, line_at, said_in};
ghost use Rattle.conode_explain.specs.Taking.{Takes};
ghost use Rattle.conode_explain.specs.Sheets.{sheets_of};

use crate::ends::{write_unfinished_default, write_unfinished_further};
use crate::no_channel::NoChannel;
use crate::progress::Progress;
use crate::settings::Settings;
use crate::writes::{Room, write_frame};
use co_stream::{BoundedLines, Found};
use conode_convert::{
    NOT_TEXT, TOO_LONG, add_frame, is_not_text, name_bad_line, name_cut, name_step_back, read_fault,
};
use conode_explain_cob_ids::Claim;
use conode_io::{CmdFault, flush};
use conode_logs::{Form, Log};
use conode_record::{BadLogLine, LogLine, RecordLine};
use conode_sheets::{IS_SHEET, is_section_line};
use std::alloc::{AllocError, Global};
use std::io::{Read, Write};

/// How far a recording is explained.
#[derive(Drop)]
pub(crate) struct Explaining {
    lines: BoundedLines,
    log: Log,
    progress: Progress,
    room: Room,
    frame: Vec<u8>,
    claims: Vec<Claim>,
    no_channel: NoChannel,
    // whether a stamp that steps back was named
    is_step_said: bool,
}

// Takes a line in the form of `candump -L`, and writes the line of its frame, if it has one. Returns
// what is wrong with it, if it is bad.
#[inline(always)]
fn explain_record<W: Write>(
    room: &mut Room,
    claims: &mut Vec<Claim>,
    progress: &mut Progress,
    settings: &Settings<'_, '_, '_, '_>,
    no_channel: &NoChannel,
    line: &[u8],
    out: &mut W,
) -> Result<Option<&'static str>, CmdFault>
    ensures lines { OnOk result (WritesLines (W.contents out.old) (W.contents out.new)
        (said_lines settings.now.form (sheets_of settings.now) progress.old
        (good (line_in line.now)))) }
    ensures progress { OnOk result
        (progress.new ≡ progress_after settings.now.form (sheets_of settings.now)
        progress.old (good (line_in line.now))) }
    ensures wrong { IfOk result
        (λ wrong. count_if (is_some wrong) ≡ faults_in (good (line_in line.now))) }
{
    match RecordLine::read(line) {
        Ok(RecordLine::Skipped) => Ok(None),
        Ok(RecordLine::Frame(frame)) => {
            attempt!(write_frame(room, claims, progress, settings, no_channel, &frame, out));
            Ok(None)
        }
        Err(bad) => Ok(Some(BadLogLine::of_record(bad).words())),
    }
}

/// What a line of a log of any form says.
#[derive(Clone, Copy)]
pub(crate) enum Said {
    /// Nothing.
    Nothing,
    /// What the line in the form of `candump -L` says that was written of it.
    Line,
    /// It is bad: what is wrong with it.
    Bad(&'static str),
}

// Takes a line of a log of any form. Where it has a frame, sets `text` to its line in the form of
// `candump -L`. Apart from `explain_line`, since a line of other forms is large.
#[inline(never)]
#[tactic(auto, unfolding(crate::specs::LogLines::line_at))]
fn take_any(text: &mut Vec<u8>, log: &mut Log, line: &[u8]) -> Result<Said, AllocError>
    ensures log { OnOk result (log.new ≡ (says log.old line.now).0) }
    ensures line { IfOk result (λ said. line_at log.old line.now ≡ said_in text.new.items said) }
{
    text.clear();
    match log.read(line) {
        Ok(LogLine::Skipped) => Ok(Said::Nothing),
        Ok(LogLine::AsItIs) => {
            attempt!(text.extend_from_slice(line));
            Ok(Said::Line)
        }
        Ok(LogLine::Frame(frame)) => {
            attempt!(add_frame(text, &frame));
            Ok(Said::Line)
        }
        Err(bad) => Ok(Said::Bad(bad.words())),
    }
}

// What is wrong with a line that this log's reader doesn't know. Before the first line that shows the
// form of a log a section line of a data sheet ends it, and so does a line that isn't text.
#[inline(never)]
fn unless_sheet(
    form: Form,
    line: &[u8],
    words: &'static str,
) -> Result<Option<&'static str>, CmdFault>
    ensures { IfOk result (λ wrong. count_if (is_some wrong) ≡ 1) }
{
    if let Form::Unknown = form {
        if is_section_line(line) {
            return Err(IS_SHEET);
        }
        if is_not_text(form, line) {
            return Err(NOT_TEXT);
        }
    }
    Ok(Some(words))
}

// names a line with which this is wrong; 1 for one
fn name_wrong<E: Write>(number: u64, wrong: Option<&'static str>, err: &mut E) -> u64
    ensures count { result ≡ count_if (is_some wrong.entry) }
    ensures few { result ≤ 1 }
{
    match wrong {
        Some(words) => {
            name_bad_line(number, words, err);
            1
        }
        None => 0,
    }
}

impl Explaining {
    /// No line was taken.
    pub(crate) fn new(alloc: Global, form: Form) -> Explaining
        ensures lines { result.lines ≡ nothing_held }
        ensures log { result.log ≡ at_start form }
        ensures progress { result.progress ≡ nothing_known }
    {
        Explaining {
            lines: BoundedLines::new(),
            log: Log { form, clock: 0 },
            progress: Progress::new(alloc),
            room: Room {
                alloc,
                said: String::new(alloc),
                text: String::new(alloc),
                line: Vec::new(alloc),
            },
            frame: Vec::new(alloc),
            claims: Vec::new(alloc),
            no_channel: NoChannel::new(),
            is_step_said: false,
        }
    }

    /// Flushes the writer, unless the next line is held whole.
    pub(crate) fn let_out<W: Write>(&self, out: &mut W) -> Result<(), CmdFault>
        ensures text { Keeps (W.contents out.old) (W.contents out.new) }
    {
        if self.lines.has_line() {
            return Ok(());
        }
        match flush(out) {
            Ok(_) => Ok(()),
            Err(fault) => Err(fault),
        }
    }

    // Takes the line that was found, and writes the line of its frame, if it has one. Returns what
    // is wrong with it, if it is bad.
    #[tactic(auto, using(crate::proofs::LogLemmas::candump_line, crate::proofs::LogLemmas::candump_log))]
    fn explain_line<W: Write>(
        &mut self,
        settings: &Settings<'_, '_, '_, '_>,
        out: &mut W,
    ) -> Result<Option<&'static str>, CmdFault>
        ensures lines { OnOk result (WritesLines (W.contents out.old) (W.contents out.new)
            (said_lines settings.now.form (sheets_of settings.now) self.old.progress
            (line_at self.old.log self.old.lines.line))) }
        ensures log { OnOk result (self.new.log ≡ (says self.old.log self.old.lines.line).0) }
        ensures progress { OnOk result (self.new.progress
            ≡ progress_after settings.now.form (sheets_of settings.now)
            self.old.progress (line_at self.old.log self.old.lines.line)) }
        ensures wrong { IfOk result (λ wrong. count_if (is_some wrong)
            ≡ faults_in (line_at self.old.log self.old.lines.line)) }
        ensures held { self.new.lines ≡ self.old.lines }
    {
        if let Form::Candump = self.log.form {
            return explain_record(
                &mut self.room,
                &mut self.claims,
                &mut self.progress,
                settings,
                &self.no_channel,
                self.lines.line(),
                out,
            );
        }
        match take_any(&mut self.frame, &mut self.log, self.lines.line()) {
            Ok(Said::Nothing) => Ok(None),
            Ok(Said::Line) => explain_record(
                &mut self.room,
                &mut self.claims,
                &mut self.progress,
                settings,
                &self.no_channel,
                self.frame.as_slice(),
                out,
            ),
            Ok(Said::Bad(words)) => unless_sheet(self.log.form, self.lines.line(), words),
            Err(_) => Err(CmdFault::Memory),
        }
    }

    /// Takes the next line: writes the line of its frame, if it has one, or names a bad line.
    /// Returns 1 for a bad line that counts, and that ends it where that is asked for, else 0;
    /// `None` if no line is left.
    pub(crate) fn take_line<R: Read, W: Write, E: Write>(
        &mut self,
        reader: &mut R,
        settings: &Settings<'_, '_, '_, '_>,
        number: u64,
        out: &mut W,
        err: &mut E,
    ) -> Result<Option<u64>, CmdFault>
        ensures line { IfOk result (λ next. IfSome next (λ bad.
            Takes settings.now.form (sheets_of settings.now)
            self.old.lines self.new.lines (R.remaining reader.old) (R.remaining reader.new)
            self.old.log self.new.log self.old.progress self.new.progress
            (W.contents out.old) (W.contents out.new) bad
            (settings.now.form.stop && (bad == 1)))) }
        ensures few { IfOk result (λ next. IfSome next (λ bad. bad ≤ 1)) }
        ensures end { IfOk result (λ next. IfNone next ((out.new ≡ out.old)
            × Gave self.old.lines.ended self.new.lines.ended
            (R.remaining reader.old) (R.remaining reader.new)
            (λ had has. IsAtEnd (to_come self.old.lines had)))) }
        ensures progress_kept { IfOk result
            (λ next. IfNone next (self.new.progress ≡ self.old.progress)) }
    {
        let clock = self.log.clock;
        match self.lines.advance(reader) {
            Ok(Found::End) => Ok(None),
            Ok(Found::TooLong) => {
                name_bad_line(number, TOO_LONG, err);
                Ok(Some(1))
            }
            Ok(Found::Line) => match self.explain_line(settings, out) {
                Ok(wrong) => {
                    name_step_back(&mut self.is_step_said, clock, self.log, number, err);
                    Ok(Some(name_wrong(number, wrong, err)))
                }
                Err(fault) => Err(fault),
            },
            Ok(Found::Last) => match self.explain_line(settings, out) {
                Ok(wrong) => {
                    name_wrong(number, wrong, err);
                    name_cut(self.log.form, number, self.lines.line(), err);
                    Ok(Some(0))
                }
                Err(fault) => Err(fault),
            },
            Err(fault) => Err(read_fault(fault)),
        }
    }

    /// Writes the lines of the transfers that are open where the recording ends.
    #[tactic(auto, unfolding(crate::specs::Explained::unfinished_lines), using(conode_io::proofs::WriteLemmas::lines_after))]
    pub(crate) fn finish<W: Write>(
        &mut self,
        settings: &Settings<'_, '_, '_, '_>,
        out: &mut W,
    ) -> Result<(), CmdFault>
        ensures lines { OnOk result (WritesLines (W.contents out.old) (W.contents out.new)
            (unfinished_lines settings.now.form (sheets_of settings.now)
            self.old.progress)) }
    {
        let room = &mut self.room;
        attempt!(write_unfinished_default(room, &self.progress, settings, out));
        write_unfinished_further(room, &self.progress, settings, out)
    }
}
