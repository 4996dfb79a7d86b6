//! The file of a recording, compared with the data sheet of a device.

ghost use Rattle.std.specs.Prelude.{
  ℕ,
  ◌≡◌,
  ◌⊎◌,
  ◌≤◌,
  List,
  length,
  map,
  true,
  Option,
  Some,
  is_some,
  IfOk,
  OnOk,
};
ghost use Rattle.std.specs.List.{AllPairs};
ghost use Rattle.std.specs.Option.{option_copied, option_or};
ghost use Rattle.std.specs.Process.{exit_status};
ghost use Rattle.co_sheet.specs.Content.{IsSheet};
ghost use Rattle.co_sheet.specs.SheetViews.{row_view};
ghost use Rattle.co_sheet_changes.specs.Views.{text_at};
ghost use Rattle.co_value.specs.Keys.{is_key_before};
ghost use Rattle.conode_io.specs.TraceTexts.{GaveText};
ghost use Rattle.conode_io.specs.Written.{WritesLines};
ghost use Rattle.conode_compare.specs.Compared.{Comparison, begun_anew};
ghost use Rattle.conode_compare.specs.Documents.{end_lines};
ghost use Rattle.conode_compare.specs.Judged.{
  AreHeld,
  IsAsked,
  IsAskedOf,
  IsJudged,
  Judged,
  status_after,
};
ghost use Rattle.conode_compare.specs.Views.{comparison_view};
ghost use Rattle.conode_compare.specs.Verdicts.{no_frame, verdict_status};

use crate::compared::compare;
use crate::comparing::Comparing;
use crate::document::{Format, Wanted, about_of, new_report, write_document};
use crate::last_lines::write_last_lines;
use crate::writes::Settings;
use co_sheet::{EntryRow, FaultKind, Sheet, SheetFault, read};
use co_sheet_changes::Originals;
use conode_compare_nmt::{Limits, Subject, facts_of};
use conode_compare_report::{SheetNames, is_boot_up_master};
use conode_compare_text::Tally;
use conode_compare_values::{HeldEntries, HeldFault, Rooms};
use conode_convert::SAYS_NOT_TEXT;
use conode_io::{
    CmdFault, bad_word, cannot_read, faulty_sheet, file_text, flushed, no_node_id, no_text,
    out_of_memory, stopped,
};
use conode_logs::Form;
use conode_sheets::{has_section, no_sheet};
use std::alloc::Global;
use std::fs;
use std::io::{Input, Read, Write};
use std::process::ExitCode;
use std::rt::Files;

/// The path that stands for standard input.
const STANDARD_INPUT: &str = "-";

/// The status of a comparison that can't be made.
const NOT_COMPARED: u8 = 2;

/// What may help where a data sheet has a fault.
const HELP: &str = "; see conode lint, or conode adapt for a vendor's sheet";

/// What is said of a recording that is a data sheet.
const SHEET_AS_TRACE: &str = "TRACE is a data sheet: SHEET comes first, then a recording as TRACE";

/// What is asked for.
#[derive(Clone, Copy)]
pub struct Asked<'s> {
    /// The node-ID; `None`: that of the data sheet.
    pub node: Option<u8>,
    /// How exactly the device is judged.
    pub limits: Limits,
    /// The room of its strings and DOMAINs, as far as it is known.
    pub rooms: Rooms,
    /// The interface whose frames are compared; `None`: the only one that there is.
    pub interface: Option<&'s str>,
    /// The keys of the entries that are held to what was written, with a comma between two; `None`:
    /// none.
    pub held: Option<&'s str>,
    /// In which form the log is.
    pub form: Form,
    /// Whether choices have lines, and are counted in the last line.
    pub choices: bool,
    /// Whether the values of entries have lines after that.
    pub learned: bool,
    /// How the comparison is written.
    pub format: Format,
    /// The version of the program, for a document.
    pub version: &'s str,
}

// the files that are compared
#[derive(Clone, Copy)]
struct Paths<'s> {
    sheet: &'s str,
    recording: &'s str,
}

// whether no frame of the device came
fn no_frame(tally: Tally) -> bool
    ensures { result ≡ no_frame tally }
{
    tally.prescribed == 0 && tally.different == 0 && tally.unjudged == 0
}

// The status of a comparison: 2 if no frame of the device came, or frames of several interfaces and
// none is named; 1 if there is a difference; else 0.
fn verdict_status(tally: Tally, several: bool) -> u8
    ensures { result ≡ verdict_status tally several }
{
    if several || no_frame(tally) {
        2
    } else if tally.different > 0 {
        1
    } else {
        0
    }
}

// how often the recording began anew after bad lines: not after the last ones, where no frame came
// since
fn begun_anew(newest: Option<u64>, breaks: u64) -> u64
    ensures { result ≡ begun_anew newest breaks }
{
    match newest {
        Some(_) => breaks,
        None => breaks.saturating_sub(1),
    }
}

// says on `err` words and a number
fn say_number<E: Write>(words: &str, number: u64, err: &mut E) {
    let _ = writeln!(err, "{words} {number}");
}

// says on `err` how often the recording began anew after bad lines; and why the status is 2, if it
// is, with what can be named in its place
fn say_ends<E: Write>(node: u8, comparing: &Comparing, err: &mut E) {
    let anew = begun_anew(comparing.progress.newest, comparing.breaks);
    if anew > 0 {
        say_number("begun anew after bad lines:", anew, err);
    }
    if comparing.several {
        let _ = bad_word("several interfaces: name one with --interface", err);
    } else if no_frame(comparing.tally) {
        say_number("no frame of node", node as u64, err);
        comparing.nodes.name(err);
    } else {
        return;
    }
    comparing.others.name(comparing.first.as_slice(), err);
}

// writes the last lines, or the document
#[tactic(auto, using(conode_io::proofs::WriteLemmas::line_alone))]
fn write_end<O: Write>(
    alloc: Global,
    settings: &Settings<'_, '_>,
    wanted: &Wanted<'_>,
    comparing: &Comparing,
    out: &mut O,
) -> Result<(), CmdFault>
    requires { AllPairs (λ e f. is_key_before e.key f.key ≡ true) settings.now.rows.now }
    ensures { OnOk result (WritesLines (O.contents out.old) (O.contents out.new)
        (end_lines wanted.now.format (comparison_view settings.now) wanted.now.version.now
        wanted.now.sheet.now comparing.now comparing.now.report)) }
{
    match &comparing.report {
        Some(report) => {
            let about = about_of(settings, wanted, comparing);
            write_document(alloc, wanted.format, &about, report, out)
        }
        None => write_last_lines(alloc, settings, comparing, out),
    }
}

// compares an input, and writes all of it; what is known at the end
fn compare_and_write<R: Read, O: Write, E: Write>(
    alloc: Global,
    input: &mut R,
    settings: &Settings<'_, '_>,
    wanted: &Wanted<'_>,
    form: Form,
    out: &mut O,
    err: &mut E,
) -> Result<Comparing, CmdFault>
    requires { AllPairs (λ e f. is_key_before e.key f.key ≡ true) settings.now.rows.now }
    ensures judged { IfOk result (λ comparing.
        GaveText (R.remaining input.old) (R.remaining input.new)
        (Judged wanted.now.format (comparison_view settings.now)
        wanted.now.version.now wanted.now.sheet.now form
        (O.contents out.old) (O.contents out.new) (status_after comparing))) }
{
    let report = attempt_in_memory!(new_report(alloc, settings, wanted.format));
    let comparing = attempt!(compare(alloc, input, settings, form, report, out, err));
    attempt!(write_end(alloc, settings, wanted, &comparing, out));
    Ok(comparing)
}

// what is said of a file that is no recording: a data sheet, whose line is 0, or no text
fn no_recording(number: usize) -> &'static str {
    if number == 0 {
        SHEET_AS_TRACE
    } else {
        SAYS_NOT_TEXT
    }
}

// compares an input
fn compare_input<R: Read, O: Write, E: Write>(
    alloc: Global,
    input: &mut R,
    settings: &Settings<'_, '_>,
    wanted: &Wanted<'_>,
    form: Form,
    out: &mut O,
    err: &mut E,
) -> ExitCode
    requires { AllPairs (λ e f. is_key_before e.key f.key ≡ true) settings.now.rows.now }
    ensures status { exit_status result ≤ 2 }
    // A text that the reader gave is compared, all is written, and the status is that of this text.
    ensures judged { exit_status result ≤ 1 →
        GaveText (R.remaining input.old) (R.remaining input.new)
        (Judged wanted.now.format (comparison_view settings.now)
        wanted.now.version.now wanted.now.sheet.now form
        (O.contents out.old) (O.contents out.new) (exit_status result)) }
{
    let outcome = compare_and_write(alloc, input, settings, wanted, form, out, err);
    match flushed(out, outcome) {
        Ok(comparing) => {
            say_ends(settings.subject.node, &comparing, err);
            ExitCode::from(verdict_status(comparing.tally, comparing.several))
        }
        Err(CmdFault::BadLine(number)) => bad_word(no_recording(number), err),
        Err(fault) => {
            let _ = stopped(fault, out, err);
            ExitCode::from(NOT_COMPARED)
        }
    }
}

// compares the recording of a path, or where that is `-` standard input
fn compare_path<R: Files + AllocGlobal + Input, O: Write, E: Write>(
    rt: &R,
    settings: &Settings<'_, '_>,
    wanted: &Wanted<'_>,
    form: Form,
    out: &mut O,
    err: &mut E,
) -> ExitCode
    requires { AllPairs (λ e f. is_key_before e.key f.key ≡ true) settings.now.rows.now }
    ensures status { exit_status result ≤ 2 }
    ensures judged { exit_status result ≤ 1 → (text : List ℕ) ×
        Judged wanted.now.format (comparison_view settings.now)
        wanted.now.version.now wanted.now.sheet.now form
        (O.contents out.old) (O.contents out.new) (exit_status result) text }
{
    let path = settings.recording;
    if path == STANDARD_INPUT {
        return compare_input(
            rt.alloc(),
            &mut rt.reader(),
            settings,
            wanted,
            form,
            out,
            err,
        );
    }
    match fs::open(rt, path) {
        Ok(mut file) => compare_input(rt.alloc(), &mut file, settings, wanted, form, out, err),
        Err(_) => {
            let _ = cannot_read(path, err);
            ExitCode::from(NOT_COMPARED)
        }
    }
}

// the entries that are held to what was written
fn held_entries(rows: &[EntryRow<'_>], keys: Option<&str>) -> Result<HeldEntries, HeldFault>
    requires { AllPairs (λ e f. is_key_before e.key f.key ≡ true) rows.now }
    ensures { IfOk result (λ held.
        AreHeld (map row_view rows.now) (option_copied keys.entry) held.entries.items) }
{
    match keys {
        Some(keys) => HeldEntries::read(rows, keys.as_bytes()),
        None => Ok(HeldEntries::none()),
    }
}

// the bytes of a name
fn bytes_of(name: Option<&str>) -> Option<&[u8]>
    ensures { option_copied result ≡ option_copied name.entry }
{
    match name {
        Some(name) => Some(name.as_bytes()),
        None => None,
    }
}

// says on `err` what is wrong with the word that names them
fn bad_keys<E: Write>(fault: HeldFault, err: &mut E) -> ExitCode
    ensures { exit_status result ≡ 2 }
{
    match fault {
        HeldFault::Word => bad_word("--held: keys are wanted, as 2001:00,2010:00", err),
        HeldFault::Entry(key) => {
            let _ = writeln!(err, "--held: the data sheet has no integer at {key}");
            ExitCode::from(NOT_COMPARED)
        }
        HeldFault::TooMany => bad_word("--held: more than 64 keys", err),
    }
}

// compares the recording of a path with a data sheet, whose entries have these original data types,
// and which has these names; `master`: it says that the device may be the boot-up master
fn compare_sheet<R: Files + AllocGlobal + Input, O: Write, E: Write>(
    rt: &R,
    sheet: &Sheet<'_>,
    originals: &Originals,
    names: &SheetNames<'_>,
    master: bool,
    paths: &Paths<'_>,
    asked: &Asked<'_>,
    out: &mut O,
    err: &mut E,
) -> ExitCode
    ensures status { exit_status result ≤ 2 }
    ensures judged { exit_status result ≤ 1 → IsJudged
        (IsAskedOf sheet.now (text_at originals.now) (option_copied names.now.vendor)
        (option_copied names.now.product) master asked.now paths.now.recording.now)
        asked.now paths.now.sheet.now (O.contents out.old) (O.contents out.new)
        (exit_status result) }
{
    let own = sheet.node_id();
    let Some(node) = asked.node.or(own) else {
        return no_node_id(err);
    };
    let rows = sheet.entries();
    let held = match held_entries(rows, asked.held) {
        Ok(held) => held,
        Err(fault) => return bad_keys(fault, err),
    };
    let subject = Subject {
        node,
        limits: asked.limits,
        facts: facts_of(rows, node, own.is_some()).with_master(master),
        held,
        rooms: asked.rooms,
    };
    let interface = bytes_of(asked.interface);
    let settings = Settings {
        subject,
        rows,
        originals,
        names: *names,
        recording: paths.recording,
        interface,
        choices: asked.choices,
        learned: asked.learned,
    };
    let wanted = Wanted {
        format: asked.format,
        version: asked.version,
        sheet: paths.sheet,
    };
    compare_path(rt, &settings, &wanted, asked.form, out, err)
}

// compares the recording of a path with the data sheet of a text
fn compare_text<R: Files + AllocGlobal + Input, O: Write, E: Write>(
    rt: &R,
    text: &[u8],
    sheet: &Sheet<'_>,
    paths: &Paths<'_>,
    asked: &Asked<'_>,
    out: &mut O,
    err: &mut E,
) -> ExitCode
    requires { length text.now ≤ 1048576 }
    ensures status { exit_status result ≤ 2 }
    ensures judged { IsSheet text.now sheet.now → exit_status result ≤ 1 → IsJudged
        (IsAsked text.now asked.now paths.now.recording.now)
        asked.now paths.now.sheet.now (O.contents out.old) (O.contents out.new)
        (exit_status result) }
{
    match Originals::in_text(rt.alloc(), text) {
        Ok(originals) => {
            let names = SheetNames::in_text(text);
            let master = is_boot_up_master(text);
            compare_sheet(
                rt, sheet, &originals, &names, master, paths, asked, out, err,
            )
        }
        Err(_) => {
            let _ = out_of_memory(out);
            ExitCode::from(NOT_COMPARED)
        }
    }
}

// names the fault of a data sheet, and what may help
fn name_fault<E: Write>(path: &str, fault: SheetFault, err: &mut E) {
    let text = fault.text();
    let text = text.as_str();
    let help = match fault.kind {
        FaultKind::TooLarge => "",
        _ => HELP,
    };
    let _ = writeln!(err, "{path}: {text}{help}");
}

// says why the text of a path is no data sheet that is compared
fn refuse<O: Write, E: Write>(
    path: &str,
    text: &[u8],
    fault: SheetFault,
    out: &mut O,
    err: &mut E,
) -> ExitCode
    ensures { exit_status result ≡ 2 }
{
    if fault.kind == FaultKind::Memory {
        let _ = faulty_sheet(fault, out);
    } else if has_section(text) {
        name_fault(path, fault, err);
    } else {
        let _ = no_sheet(path, err);
    }
    ExitCode::from(NOT_COMPARED)
}

/// Compares the recording of a path, or of standard input where that is `-`, with the data sheet of
/// a path: each difference has a line on `out`, and the last line counts the device's frames by
/// verdict; or there is one document, by the format that is asked for. The status is 0 where there
/// is no difference, 1 where there is one, and 2 where nothing can be compared: a file that can't
/// be read, a sheet with a fault, a text without a section as the sheet, a sheet as the recording,
/// no node-ID, no frame of the node, frames of several interfaces and none of them named.
pub fn compare_files<R: Files + AllocGlobal + Input, O: Write, E: Write>(
    rt: &R,
    sheet: &str,
    recording: &str,
    asked: Asked<'_>,
    out: &mut O,
    err: &mut E,
) -> ExitCode
    ensures status { exit_status result ≤ 2 }
    // Some recording was compared with the device of some text that is a data sheet, as it is asked
    // for: all of its lines, or the document, are written, and the status is 1 exactly where there
    // is a difference.
    ensures judged { exit_status result ≤ 1 → (text : List ℕ) ×
        IsJudged (IsAsked text asked.entry recording.now) asked.entry sheet.now
        (O.contents out.old) (O.contents out.new) (exit_status result) }
{
    let text = match file_text(rt, sheet) {
        Ok(text) => text,
        Err(fault) => {
            let _ = no_text(fault, sheet, out, err);
            return ExitCode::from(NOT_COMPARED);
        }
    };
    let paths = Paths { sheet, recording };
    match read(rt.alloc(), text.as_slice()) {
        Ok(sheet) => compare_text(rt, text.as_slice(), &sheet, &paths, &asked, out, err),
        Err(fault) => refuse(paths.sheet, text.as_slice(), fault, out, err),
    }
}
