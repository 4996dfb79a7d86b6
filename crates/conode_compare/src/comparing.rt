//! Frames of a recording, compared one after another.

ghost use Rattle.std.specs.Prelude.{◌≡◌, ◌≤◌, if◌then◌else◌, length, IfOk, OnOk, true};
ghost use Rattle.std.specs.List.{AllPairs};
ghost use Rattle.std.specs.Option.{option_copied};
ghost use Rattle.co_value.specs.Keys.{is_key_before};
ghost use Rattle.conode_io.specs.Written.{WritesLines};
ghost use Rattle.conode_record.specs.Grammar.{IsIdentifier};
ghost use Rattle.conode_compare_rules.specs.Progresses.{findings_at, progress_with};
ghost use Rattle.conode_compare.specs.Compared.{
  bad_counted,
  bad_noted,
  first_with,
  frame_lines,
  frame_noted_by,
  frame_with,
  is_compared,
  kind_noted,
  line_noted,
  may_have_frame,
  nothing_compared,
  other_seen,
};
ghost use Rattle.conode_compare.specs.Noted.{noted_at};
ghost use Rattle.conode_compare.specs.Views.{comparison_view};

use crate::bad_lines::{has_no_frame, interface_in};
use crate::details::details_of;
use crate::interfaces_seen::InterfacesSeen;
use crate::kept::note_findings;
use crate::nodes_seen::NodesSeen;
use crate::notes::{Noted, Notes};
use crate::writes::{Settings, write_shown};
use arrayvec::ArrayVec;
use conode_compare_nmt::Subject;
use conode_compare_receptions::Receptions;
use conode_compare_report::{Kind, Report};
use conode_compare_rules::{FrameKind, Progress, Verdict, kind_of};
use conode_compare_text::Tally;
use conode_io::CmdFault;
use conode_record::Record;
use std::alloc::{AllocError, Global};
use std::io::Write;

/// How far a recording is compared.
pub struct Comparing {
    /// What is known of the device.
    pub progress: Progress,
    /// What RPDOs write to the entries that are held.
    pub receptions: Receptions,
    /// How many of its frames have which verdict.
    pub tally: Tally,
    /// The name of the first interface; empty before the first frame.
    pub first: ArrayVec<u8, 15>,
    /// Whether frames came on another one, where none is named.
    pub several: bool,
    /// The interfaces of frames that aren't compared.
    pub others: InterfacesSeen,
    /// After how many of the frames bad lines may have had one, up to 2^64 - 1.
    pub breaks: u64,
    /// The nodes that were seen.
    pub nodes: NodesSeen,
    /// What is noted beside differences.
    pub notes: Notes,
    /// What is kept for a document, if one is wanted.
    pub report: Option<Report>,
}

// One call wherever it is dropped, in place of a drop of each of its parts.
impl Drop for Comparing {
    fn drop(self) {
        let Comparing {
            progress: _,
            receptions: _,
            tally: _,
            first: _,
            several: _,
            others: _,
            breaks: _,
            nodes: _,
            notes,
            report,
        } = self;
        drop(notes);
        drop(report);
    }
}

// whether a frame is of the interface that is compared: the one that is named, else that of the
// first frame
fn is_compared(interface: Option<&[u8]>, first: &[u8], name: &[u8]) -> bool
    ensures { result ≡ is_compared (option_copied interface.entry) first.now name.now }
{
    match interface {
        Some(wanted) => wanted == name,
        None => first.is_empty() || first == name,
    }
}

/// Whether a bad line of at most 512 bytes may have had a frame that is compared: unless it is a
/// comment or of blanks, or names another interface.
pub(crate) fn may_have_frame(interface: Option<&[u8]>, first: &[u8], line: &[u8]) -> bool
    ensures { result ≡ may_have_frame (option_copied interface.entry) first.now line.now }
{
    if has_no_frame(line) {
        return false;
    }
    match interface_in(line) {
        Some(name) => is_compared(interface, first, name),
        None => true,
    }
}

// Takes a frame of this kind, and keeps what is found at it for a document. Returns its verdict.
// Apart from `take_frame`, which has no document in most runs.
#[inline(never)]
fn document_kind(
    progress: &mut Progress,
    report: &mut Report,
    settings: &Settings<'_, '_>,
    micros: u64,
    kind: &FrameKind,
) -> Result<Option<Verdict>, AllocError>
    requires { AllPairs (λ e f. is_key_before e.key f.key ≡ true) settings.now.rows.now }
    ensures verdict { IfOk result (λ verdict. verdict ≡ (findings_at settings.now.subject
        (comparison_view settings.now).rows progress.old micros kind.now).verdict) }
    ensures progress { progress.new
        ≡ progress_with settings.now.subject progress.old micros kind.now }
    ensures report { OnOk result (report.new
        ≡ kind_noted (comparison_view settings.now) progress.old micros kind.now report.old) }
{
    let before = report.before(settings.subject.facts.modular, progress, kind);
    let found = progress.take(&settings.subject, settings.rows, micros, kind);
    let state = progress.state();
    let free = progress.free;
    let judged = progress.is_end_judged();
    attempt!(report.take_frame(
        settings.rows,
        micros,
        kind,
        &before,
        state,
        free,
        judged,
        &found
    ));
    if progress.is_number_kept(&settings.subject) {
        report.pass(Kind::ValueHeld);
    }
    let details = details_of(settings, kind, &progress.exchange, found.frame);
    attempt!(note_findings(report, micros, &details, &found));
    Ok(found.verdict)
}

// notes the interface of the first frame
fn note_first(first: &mut ArrayVec<u8, 15>, name: &[u8])
    requires { length name.now ≤ 15 }
    ensures { first.new ≡ first_with first.old name.now }
{
    if first.is_empty() {
        first.clear();
        first.try_extend_from_slice(name).unwrap();
    }
}

impl Comparing {
    /// No frame came; `report`: what is kept for a document, if one is wanted.
    pub(crate) fn new(alloc: Global, subject: &Subject, report: Option<Report>) -> Comparing
        ensures { result ≡ nothing_compared subject.now report }
    {
        Comparing {
            progress: Progress::new(subject),
            receptions: Receptions::none(),
            tally: Tally::new(),
            first: ArrayVec::new(),
            several: false,
            others: InterfacesSeen::new(),
            breaks: 0,
            nodes: NodesSeen::new(),
            notes: Notes::new(alloc),
            report,
        }
    }

    /// A line comes, without its line feed.
    pub(crate) fn note_line(&mut self, line: &[u8]) -> Result<(), AllocError>
        ensures { OnOk result (self.new ≡ line_noted self.old line.now) }
    {
        match &mut self.report {
            Some(report) => report.take_line(line),
            None => Ok(()),
        }
    }

    /// The newest line is bad. Where it may have had a frame that is compared, what it had is unknown,
    /// so with the next frame the recording begins anew.
    pub(crate) fn note_bad_line(&mut self, has_frame: bool)
        ensures { self.new ≡ if has_frame then bad_noted self.old else bad_counted self.old }
    {
        if has_frame {
            if self.progress.newest.is_some() {
                self.breaks = self.breaks.saturating_add(1);
            }
            self.progress.note_bad_line();
        }
        if let Some(report) = &mut self.report {
            report.note_bad_line();
        }
    }

    // notes a frame of another interface: where none is named, there are several
    fn note_other(&mut self, interface: Option<&[u8]>, name: &[u8])
        requires { length name.now ≤ 15 }
        ensures { self.new ≡ other_seen (option_copied interface.entry) name.now self.old }
    {
        self.others.note(name);
        if interface.is_none() {
            self.several = true;
        }
    }

    // Counts a frame of the interface with its verdict, and takes what else it shows than the
    // progress that it is part of already. Returns what is noted at it. On an `Err` memory ran out.
    fn note_frame(
        &mut self,
        settings: &Settings<'_, '_>,
        frame: &Record<'_>,
        kind: &FrameKind,
        verdict: Option<Verdict>,
    ) -> Result<Noted, AllocError>
        requires rows { AllPairs (λ e f. is_key_before e.key f.key ≡ true) settings.now.rows.now }
        requires id { IsIdentifier frame.now.id }
        ensures noted { IfOk result (λ noted. noted ≡ noted_at
            (comparison_view settings.now).choices (comparison_view settings.now).subject
            (comparison_view settings.now).rows self.old.notes kind.now self.old.progress) }
        ensures next { OnOk result (self.new ≡ frame_noted_by
            (comparison_view settings.now) self.old frame.now kind.now verdict) }
    {
        self.tally.count(kind, verdict);
        note_first(&mut self.first, frame.interface.bytes());
        self.nodes.note(frame);
        let noted = attempt!(self.notes.take(settings, kind, &self.progress));
        self.receptions.take(
            &settings.subject,
            settings.rows,
            &mut self.progress,
            frame.micros,
            kind,
            frame.id,
            &frame.content,
        );
        Ok(noted)
    }

    /// Takes a frame, and writes the lines of what is found at it, unless a document is wanted.
    pub(crate) fn take_frame<W: Write>(
        &mut self,
        text: &mut String,
        settings: &Settings<'_, '_>,
        number: u64,
        frame: &Record<'_>,
        out: &mut W,
    ) -> Result<(), CmdFault>
        requires rows { AllPairs (λ e f. is_key_before e.key f.key ≡ true) settings.now.rows.now }
        requires id { IsIdentifier frame.now.id }
        ensures lines { OnOk result (WritesLines (W.contents out.old) (W.contents out.new)
            (frame_lines (comparison_view settings.now) number self.old frame.now)) }
        ensures next { OnOk result
            (self.new ≡ frame_with (comparison_view settings.now) self.old frame.now) }
    {
        let name = frame.interface.bytes();
        if !is_compared(settings.interface, self.first.as_slice(), name) {
            self.note_other(settings.interface, name);
            return Ok(());
        }
        let kind = kind_of(settings.subject.node, frame.id, &frame.content);
        match &mut self.report {
            Some(report) => {
                let verdict = attempt_in_memory!(document_kind(
                    &mut self.progress,
                    report,
                    settings,
                    frame.micros,
                    &kind
                ));
                attempt_in_memory!(self.note_frame(settings, frame, &kind, verdict));
                Ok(())
            }
            None => {
                let found = self
                    .progress
                    .take(&settings.subject, settings.rows, frame.micros, &kind);
                let details = details_of(settings, &kind, &self.progress.exchange, found.frame);
                let noted = attempt_in_memory!(self.note_frame(
                    settings,
                    frame,
                    &kind,
                    found.verdict
                ));
                write_shown(text, settings, number, &details, &found, &noted, out)
            }
        }
    }
}
