//! What is kept of a comparison.

ghost use Rattle.std.specs.Prelude.{
  ◌≡◌,
  ℕ,
  [],
  ◌∷◌,
  ◌++◌,
  ◌-◌,
  ◌^◌,
  ◌<◌,
  true,
  map,
  length,
  List,
  OnOk,
  IfOk,
};
ghost use Rattle.std.specs.List.{AllPairs, Contains};
ghost use Rattle.co_sheet.specs.Content.{Row};
ghost use Rattle.co_sheet.specs.SheetViews.{row_view};
ghost use Rattle.co_value.specs.Keys.{is_key_before};
ghost use Rattle.conode_compare_report.specs.Befores.{before_at};
ghost use Rattle.conode_compare_report.specs.Contexts.{around};
ghost use Rattle.conode_compare_report.specs.Histories.{Happening, kept_of, lines_of, near};
ghost use Rattle.conode_compare_report.specs.Widths.{StampsFit, seen_of, spans_of};
ghost use Rattle.conode_compare_report.specs.Reports.{
  begin_with,
  channel_after,
  control_with,
  heard_of,
  if_listed,
  listed_in,
  newest_with,
  nothing_kept,
  number_found,
  one_of,
  with_bad_line,
  with_finding,
  with_frame,
  with_line,
  with_passed,
};

use crate::before::{Before, Rpdos};
use crate::coverage::{Coverage, ended_in};
use crate::kind::{Counted, Kind};
use crate::lanes::Lanes;
use crate::noted::{ContextLine, Noted, around};
use crate::occasions::{find, is_free_since, no_counts, pass, pass_frame};
use crate::service::lane_of;
use co_sheet::EntryRow;
use conode_compare_nmt::{Finding, NmtState};
use conode_compare_rules::{Findings, FrameKind, Progress};
use conode_compare_text::Details;
use conode_explain_transfers::{Channel, Heard};
use std::alloc::{AllocError, Global};
use std::marker::Model;

/// What is kept of a comparison for a document at its end, in bounded memory.
#[derive(Drop)]
pub struct Report {
    /// Each kind of difference, in the order of `Kind`.
    pub kinds: Vec<Counted>,
    /// The first 10,000 differences, in the order in which they came.
    pub noted: Vec<Noted>,
    /// How many differences came after these.
    pub unlisted: u64,
    /// The lines around the differences that are listed, in increasing number.
    pub context: Vec<ContextLine>,
    /// What the recording covers.
    pub coverage: Coverage,
    /// The bus over time.
    pub lanes: Lanes,
    /// How many lines the recording has.
    pub lines: u64,
    /// How many of these are bad.
    pub bad_lines: u64,
    /// The stamp of the first frame that is compared, in microseconds.
    pub begin: Option<u64>,
    /// The stamp of the newest one.
    pub end: u64,
    // the newest four lines that aren't kept so far
    recent: Vec<ContextLine>,
    // lines up to this number are kept at once
    wanted: u64,
    channel: Channel,
    // the stamp of the newest frame of error control
    control: Option<u64>,
    rpdos: Rpdos,
    alloc: Global,
}

impl Model for Report {
    ghost use Rattle.conode_compare_report.specs.Views.{Kept};

    ghost Value = { Kept };

    ghost view = { λ report. record {
      kinds = report.kinds.items;
      noted = report.noted.items;
      unlisted = report.unlisted;
      context = report.context.items;
      coverage = report.coverage;
      lanes = report.lanes;
      lines = report.lines;
      bad_lines = report.bad_lines;
      begin = report.begin;
      end = report.end;
      recent = report.recent.items;
      wanted = report.wanted;
      channel = report.channel;
      control = report.control;
      rpdos = report.rpdos;
    } };
}

/// How many differences are listed.
const MOST_LISTED: usize = 10_000;

/// How many lines before a difference are kept, with its own.
const MOST_RECENT: usize = 4;

// adds a line to others
fn add_line(
    alloc: Global,
    lines: &mut Vec<ContextLine>,
    number: u64,
    bytes: &[u8],
) -> Result<(), AllocError>
    ensures { OnOk result (lines.new.items
        ≡ lines.old.items ++ (record { number = number; bytes = bytes.now }) ∷ []) }
{
    let bytes = attempt!(Vec::from_slice(alloc, bytes));
    lines.push(ContextLine { number, bytes })?;
    Ok(())
}

// adds a line after the newest ones, of which four are kept
fn add_recent(
    alloc: Global,
    recent: &mut Vec<ContextLine>,
    number: u64,
    bytes: &[u8],
) -> Result<(), AllocError>
    ensures { OnOk result (recent.new.items
        ≡ newest_with recent.old.items (record { number = number; bytes = bytes.now })) }
{
    if recent.len() < MOST_RECENT {
        return add_line(alloc, recent, number, bytes);
    }
    recent.remove(0);
    add_line(alloc, recent, number, bytes)
}

// a frame on the device's SDO channel; a boot-up ends what is open
fn hear(channel: &mut Channel, micros: u64, kind: &FrameKind) -> Option<Heard>
    ensures says { result ≡ heard_of channel.old micros kind.now }
    ensures next { channel.new ≡ channel_after channel.old micros kind.now }
{
    match kind {
        FrameKind::Sdo(side, frame) => Some(channel.take(micros, *side, frame)),
        FrameKind::Control(0) => {
            let _ = channel.boot_up(micros);
            None
        }
        _ => None,
    }
}

// notes the stamp of a frame of error control
fn note_control(control: &mut Option<u64>, micros: u64, kind: &FrameKind)
    ensures { control.new ≡ control_with control.old micros kind.now }
{
    if let FrameKind::Control(_) | FrameKind::OddControl(_) = kind {
        *control = Some(micros);
    }
}

fn one_of(finding: Option<Finding>) -> u32
    ensures { result ≡ one_of finding }
{
    match finding {
        Some(_) => 1,
        None => 0,
    }
}

// how many differences are found at a frame
fn number_found(found: &Findings) -> u32
    ensures { result ≡ number_found found.now }
{
    one_of(found.boot) + one_of(found.heartbeat) + one_of(found.answer) + one_of(found.frame)
}

impl Report {
    /// Of nothing so far: a comparison with the data sheet whose entries these are, in increasing
    /// key, of a device with this node-ID. `Err`: out of memory.
    #[tactic(auto, unfolding(crate::specs::Reports::nothing_kept), using(crate::proofs::Places::rows_counted))]
    pub fn new(alloc: Global, rows: &[EntryRow<'_>], node: u8) -> Result<Report, AllocError>
        requires { AllPairs (λ e f. is_key_before e.key f.key ≡ true) rows.now }
        ensures { IfOk result (λ report. report ≡ nothing_kept (map row_view rows.now) node) }
    {
        let kinds = attempt!(no_counts(alloc));
        let coverage = attempt!(Coverage::new(alloc, rows.len()));
        Ok(Report {
            kinds,
            noted: Vec::new(alloc),
            unlisted: 0,
            context: Vec::new(alloc),
            coverage,
            lanes: Lanes::new(alloc),
            lines: 0,
            bad_lines: 0,
            begin: None,
            end: 0,
            recent: Vec::new(alloc),
            wanted: 0,
            channel: Channel::new(),
            control: None,
            rpdos: Rpdos::of(rows, node),
            alloc,
        })
    }

    /// The next line of the recording, without its line feed. `Err`: out of memory.
    #[tactic(auto, unfolding(crate::specs::Reports::with_line))]
    pub fn take_line(&mut self, bytes: &[u8]) -> Result<(), AllocError>
        ensures { OnOk result (self.new ≡ with_line self.old bytes.now) }
    {
        self.lines = self.lines.saturating_add(1);
        let number = self.lines;
        if self.wanted < number {
            return add_recent(self.alloc, &mut self.recent, number, bytes);
        }
        add_line(self.alloc, &mut self.context, number, bytes)
    }

    /// The newest line is bad.
    pub fn note_bad_line(&mut self)
        ensures { self.new ≡ with_bad_line self.old }
    {
        self.bad_lines = self.bad_lines.saturating_add(1);
    }

    /// What is known of the device before a frame of this kind; `modular`: modules decide which
    /// entries it has.
    pub fn before(&self, modular: bool, progress: &Progress, kind: &FrameKind) -> Before
        ensures { result ≡ before_at self.now.rpdos modular progress.now kind.now }
    {
        Before::at(&self.rpdos, modular, progress, kind)
    }

    /// A frame of the newest line: its stamp in microseconds, its kind, what was known before it,
    /// the state that is known after it, when the bus was free last, whether the end of a transfer is
    /// judged at it, and what is found. `Err`: out of memory.
    #[tactic(auto, unfolding(crate::specs::Reports::with_frame))]
    pub fn take_frame(
        &mut self,
        rows: &[EntryRow<'_>],
        micros: u64,
        kind: &FrameKind,
        before: &Before,
        state: NmtState,
        free: u64,
        judged: bool,
        found: &Findings,
    ) -> Result<(), AllocError>
        requires { AllPairs (λ e f. is_key_before e.key f.key ≡ true) rows.now }
        ensures { OnOk result (self.new ≡ with_frame
            (map row_view rows.now) self.old micros kind.now before.now state free judged found.now) }
    {
        let heard = hear(&mut self.channel, micros, kind);
        let is_free = is_free_since(self.control, free);
        pass_frame(
            &mut self.kinds,
            rows,
            kind,
            before,
            is_free,
            &heard,
            judged,
            found.verdict,
        );
        attempt!(
            self.coverage
                .add(rows, kind, before.role, state, ended_in(&heard))
        );
        let lane = lane_of(kind, before.role);
        attempt!(self.lanes.add(micros, state, lane, number_found(found)));
        self.begin = self.begin.or(Some(micros));
        self.end = micros;
        note_control(&mut self.control, micros, kind);
        Ok(())
    }

    /// The newest frame could have shown a difference of this kind, and shows none.
    pub fn pass(&mut self, kind: Kind)
        ensures { self.new ≡ with_passed self.old kind }
    {
        pass(&mut self.kinds, true, kind);
    }

    // lists a difference
    fn list(&mut self, micros: u64, details: Details, finding: Finding) -> Result<(), AllocError>
        ensures { OnOk result (self.new ≡ listed_in
            (self.old.context ++ self.old.recent) self.old micros details finding) }
    {
        attempt!(self.context.append(&mut self.recent));
        let own = self.lines.min(4) as usize;
        let first = self.context.len().saturating_sub(own);
        let noted = Noted {
            line: self.lines,
            micros,
            finding,
            details,
            first,
        };
        let Ok(()) = self.noted.push(noted) else {
            return Err(AllocError);
        };
        self.wanted = self.lines.saturating_add(3);
        Ok(())
    }

    /// A difference that is found at the frame of the newest line, with the frame's stamp in
    /// microseconds, and what its text has beside the difference. `Err`: out of memory.
    #[tactic(auto, unfolding(crate::specs::Reports::with_finding))]
    pub fn take_finding(
        &mut self,
        micros: u64,
        details: Details,
        finding: Finding,
    ) -> Result<(), AllocError>
        ensures { OnOk result (self.new ≡ with_finding self.old micros details finding) }
    {
        find(&mut self.kinds, Kind::of(finding));
        if self.noted.len() < MOST_LISTED {
            return self.list(micros, details, finding);
        }
        self.unlisted = self.unlisted.saturating_add(1);
        Ok(())
    }

    fn kept_lanes(&self) -> &Lanes
        ensures { result.now ≡ self.now.lanes }
    {
        &self.lanes
    }

    /// The bus over time.
    pub fn lanes(&self) -> &Lanes
        ensures kept { result.now ≡ self.now.lanes }
        // Holds after all that happened: the spans are those of all frames at the last width, so
        // nothing is lost where spans were joined.
        ensures spans { (rows : List Row) → (node : ℕ) → (happenings : List Happening)
            → self.now ≡ kept_of rows node happenings → StampsFit (seen_of happenings)
            → result.now.bins ≡ spans_of result.now.begin result.now.width (seen_of happenings) }
    {
        self.kept_lanes()
    }

    fn kept_around(&self, noted: &Noted) -> &[ContextLine]
        ensures { result.now ≡ around self.now.context noted.now }
    {
        around(self.context.as_slice(), noted)
    }

    /// The lines around a difference that is listed: up to three before it, its own, and up to
    /// three after it.
    pub fn around(&self, noted: &Noted) -> &[ContextLine]
        ensures kept { result.now ≡ around self.now.context noted.now }
        // Holds after all that happened, of each difference that is listed: of all lines that came
        // these are those from the third before it to the third after it.
        ensures lines { (rows : List Row) → (node : ℕ) → (happenings : List Happening)
            → self.now ≡ kept_of rows node happenings
            → length (lines_of happenings) < 2 ^ 64 - 4 → Contains self.now.noted noted.now
            → result.now ≡ near noted.now.line (lines_of happenings) }
    {
        self.kept_around(noted)
    }
}
