//! The file of a recording, explained.

ghost use Rattle.std.specs.Prelude.{◌≡◌, ◌⊎◌, IfErr, IfOk, IfSome, Ok, OnOk, map};
ghost use Rattle.std.specs.Option.{option_copied};
ghost use Rattle.std.specs.Process.{exit_status};
ghost use Rattle.conode_explain_cob_ids.specs.Known.{known_view};
ghost use Rattle.conode_explain_filter.specs.Filters.{IsFilter};
ghost use Rattle.conode_io.specs.TraceTexts.{GaveText};
ghost use Rattle.conode_explain.specs.ExitStatus.{
  Ends,
  EndsBy,
  EndsBySome,
  ExplainsAll,
  ExplainsAsked,
  WritesAll,
  WritesFile,
  signals_asked,
};
ghost use Rattle.conode_explain.specs.Sheets.{in_order, read_view, sheets_of};

use crate::explained::explain;
use crate::progress::{Layout, LineFormat};
use crate::settings::Settings;
use crate::sheets::{ReadSheet, add_in_order};
use crate::writes::write_header;
use co_sheet::{FaultKind, SheetFault, read};
use co_sheet_changes::Originals;
use conode_convert::say_not_text;
use conode_explain_cob_ids::KnownSheet;
use conode_explain_filter::{Filter, FilterFault, FilterWords};
use conode_explain_forms::{Signal, SignalFault, channels_of, first_missing};
use conode_explain_text::StampForm;
use conode_io::{CmdFault, bad_word, cannot_read, flushed, stopped};
use conode_logs::Form;
use conode_sheets::{SheetText, bad_sheet, readable_texts, sheet_as_recording};
use std::alloc::Global;
use std::fs;
use std::io::{Input, Read, Write};
use std::process::ExitCode;
use std::rt::Files;

/// The path that stands for standard input.
const STANDARD_INPUT: &str = "-";

// says that memory ran out
fn no_memory<O: Write, E: Write>(out: &mut O, err: &mut E) -> ExitCode
    ensures { exit_status result ≡ 1 }
{
    stopped(CmdFault::Memory, out, err).status()
}

// Explains an input; the first line of a table of signals comes first. Returns the number of bad
// lines.
fn explain_whole<R: Read, O: Write, E: Write>(
    alloc: Global,
    input: &mut R,
    settings: &Settings<'_, '_, '_, '_>,
    out: &mut O,
    err: &mut E,
) -> Result<u64, CmdFault>
    ensures known { IfOk result (λ bad. IfSome (R.remaining input.old)
        (WritesAll settings.now.form (sheets_of settings.now)
        (O.contents out.old) (O.contents out.new) bad)) }
    ensures any_reader { IfOk result (λ bad.
        GaveText (R.remaining input.old) (R.remaining input.new)
        (WritesAll settings.now.form (sheets_of settings.now)
        (O.contents out.old) (O.contents out.new) bad)) }
{
    match write_header(alloc, settings, out) {
        Ok(()) => explain(alloc, input, settings, out, err),
        Err(fault) => Err(fault),
    }
}

// says that a file is no recording: a data sheet, whose line is 0, or no text
fn no_recording<E: Write>(number: usize, err: &mut E) -> ExitCode
    ensures { exit_status result ≡ 1 }
{
    if number == 0 {
        sheet_as_recording(err)
    } else {
        say_not_text(err)
    }
}

// The same, with the status. Says on `err` how many lines are bad, or that it is no recording, or
// why it stopped.
fn explain_input<R: Read, O: Write, E: Write>(
    alloc: Global,
    input: &mut R,
    settings: &Settings<'_, '_, '_, '_>,
    out: &mut O,
    err: &mut E,
) -> ExitCode
    // Of the bytes: with 0 all is written and no line is bad; with 1 one is, or it stopped early.
    ensures known { Ends (λ bad. IfSome (R.remaining input.old)
        (WritesAll settings.now.form (sheets_of settings.now)
        (O.contents out.old) (O.contents out.new) bad)) (exit_status result) }
    // For every reader: it gave some text, and this holds for that text.
    ensures any_reader { Ends (λ bad. GaveText (R.remaining input.old) (R.remaining input.new)
        (WritesAll settings.now.form (sheets_of settings.now)
        (O.contents out.old) (O.contents out.new) bad)) (exit_status result) }
{
    let outcome = explain_whole(alloc, input, settings, out, err);
    match flushed(out, outcome) {
        Ok(0) => ExitCode::SUCCESS,
        Ok(bad) => {
            let _ = writeln!(err, "bad lines: {bad}");
            ExitCode::FAILURE
        }
        Err(CmdFault::BadLine(number)) => no_recording(number, err),
        Err(fault) => stopped(fault, out, err).status(),
    }
}

// explains the recording of a path, or where that is `-` standard input
fn explain_path<R: Files + AllocGlobal + Input, O: Write, E: Write>(
    rt: &R,
    path: &str,
    settings: &Settings<'_, '_, '_, '_>,
    out: &mut O,
    err: &mut E,
) -> ExitCode
    ensures { Ends (WritesFile settings.now.form (sheets_of settings.now)
        (O.contents out.old) (O.contents out.new)) (exit_status result) }
{
    if path == STANDARD_INPUT {
        return explain_input(rt.alloc(), &mut rt.reader(), settings, out, err);
    }
    match fs::open(rt, path) {
        Ok(mut file) => explain_input(rt.alloc(), &mut file, settings, out, err),
        Err(_) => cannot_read(path, err),
    }
}

// says which signal no data sheet has
fn missing_signal<E: Write>(signal: Signal, err: &mut E) -> ExitCode
    ensures { exit_status result ≡ 2 }
{
    let node = signal.node;
    let key = signal.key;
    let _ = writeln!(err, "--signal: no data sheet has {key} of node {node}");
    ExitCode::from(2)
}

// explains the recording of a path by data sheets with their PDOs, if they have all signals
fn explain_with<R: Files + AllocGlobal + Input, O: Write, E: Write>(
    rt: &R,
    path: &str,
    sheets: &[KnownSheet<'_, '_>],
    form: Layout<'_>,
    out: &mut O,
    err: &mut E,
) -> ExitCode
    ensures { EndsBy form.entry (map known_view sheets.now)
        (O.contents out.old) (O.contents out.new) (exit_status result) }
{
    if let Some(signal) = first_missing(sheets, form.signals) {
        return missing_signal(signal, err);
    }
    let Ok(channels) = channels_of(rt.alloc(), sheets) else {
        return no_memory(out, err);
    };
    let settings = Settings {
        form,
        sheets,
        channels: channels.as_slice(),
    };
    explain_path(rt, path, &settings, out, err)
}

// explains the recording of a path by data sheets, in the order in which they count
fn explain_by<'s, 't, R: Files + AllocGlobal + Input, O: Write, E: Write>(
    rt: &R,
    path: &str,
    sheets: &'s [ReadSheet<'t>],
    form: Layout<'_>,
    out: &mut O,
    err: &mut E,
) -> ExitCode
    ensures { EndsBy form.entry (in_order (map read_view sheets.now))
        (O.contents out.old) (O.contents out.new) (exit_status result) }
{
    let mut known: Vec<KnownSheet<'s, 't>> = Vec::new(rt.alloc());
    match add_in_order(rt.alloc(), &mut known, sheets) {
        Ok(()) => explain_with(rt, path, known.as_slice(), form, out, err),
        Err(_) => no_memory(out, err),
    }
}

// Adds the data sheet of a text, with its original data types, where there is memory for one more.
// On an `Err` it is at fault, or memory ran out.
fn add_sheet<'t>(
    alloc: Global,
    sheets: &mut Vec<ReadSheet<'t>>,
    of: &'t SheetText<'_>,
) -> Result<bool, SheetFault> {
    let text = of.text.as_slice();
    let sheet = attempt_value!(read(alloc, text));
    match Originals::in_text(alloc, text) {
        Ok(originals) => {
            let made = ReadSheet {
                word: of.word,
                sheet,
                originals,
            };
            match sheets.push(made) {
                Ok(()) => Ok(true),
                Err(left) => {
                    // (a call, in place of the code of each of its parts)
                    drop(left);
                    Ok(false)
                }
            }
        }
        Err(_) => Err(SheetFault {
            kind: FaultKind::Memory,
            line: 0,
        }),
    }
}

// Adds the data sheets of these texts, and writes nothing. On an `Err` one is at fault, or memory
// ran out, and it is said.
fn add_sheets<'t, O: Write, E: Write>(
    alloc: Global,
    sheets: &mut Vec<ReadSheet<'t>>,
    texts: &'t [SheetText<'_>],
    out: &mut O,
    err: &mut E,
) -> Result<(), ExitCode>
    ensures kept { OnOk result (O.contents out.new ≡ O.contents out.old) }
    ensures err { IfErr result (λ status. exit_status status ≡ 1) }
{
    for text in texts {
        match add_sheet(alloc, sheets, text) {
            Ok(true) => {}
            Ok(false) => return Err(no_memory(out, err)),
            Err(fault) => {
                return Err(bad_sheet(fault, text.word.path, texts.len() > 1, out, err));
            }
        }
    }
    Ok(())
}

// explains the recording of a path by the data sheets of these texts
fn explain_texts<R: Files + AllocGlobal + Input, O: Write, E: Write>(
    rt: &R,
    path: &str,
    texts: &[SheetText<'_>],
    form: Layout<'_>,
    out: &mut O,
    err: &mut E,
) -> ExitCode
    ensures { EndsBySome form.entry
        (O.contents out.old) (O.contents out.new) (exit_status result) }
{
    let mut sheets = Vec::new(rt.alloc());
    match add_sheets(rt.alloc(), &mut sheets, texts, out, err) {
        Ok(()) => explain_by(rt, path, sheets.as_slice(), form, out, err),
        Err(status) => status,
    }
}

// explains the recording of a path by the data sheets that the words of the command line name
#[tactic(auto, using(crate::proofs::WriteLemmas::one_or_two))]
fn explain_named<R: Files + AllocGlobal + Input, O: Write, E: Write>(
    rt: &R,
    path: &str,
    words: &[&str],
    form: Layout<'_>,
    out: &mut O,
    err: &mut E,
) -> ExitCode
    ensures status { (exit_status result ≡ 0) ⊎ ((exit_status result ≡ 1) ⊎ (exit_status result ≡ 2)) }
    ensures whole { exit_status result ≡ 0 →
        ExplainsAll form.entry (O.contents out.old) (O.contents out.new) }
{
    match readable_texts(rt, words, out, err) {
        Ok(texts) => explain_texts(rt, path, texts.as_slice(), form, out, err),
        Err(status) => status,
    }
}

/// What is asked for of a recording.
#[derive(Clone, Copy)]
pub struct ExplainOptions<'a> {
    /// In which form stamps are written.
    pub stamps: StampForm,
    /// Whether only the SDO transfers that ended have lines.
    pub transfers: bool,
    /// Whether a PDO, a heartbeat and a SYNC have lines only where what they say changes.
    pub changes: bool,
    /// Whether the first bad line ends it.
    pub stop: bool,
    /// How lines are written.
    pub format: LineFormat,
    /// Whether the lines of text are in colours.
    pub colours: bool,
    /// In which form the log is.
    pub log: Form,
    /// Which lines are printed.
    pub filter: FilterWords<'a>,
    /// The signals whose values are written as a table, as `5:2001:01,5:2001:02`; `None`: the lines
    /// are those of frames and transfers.
    pub signals: Option<&'a str>,
}

impl ExplainOptions<'_> {
    // that an option asks for other lines than those of the table of signals that is asked for
    fn other_lines(&self) -> Option<&'static str> {
        if self.signals.is_none() {
            return None;
        }
        if self.transfers {
            return Some("--signal: it can't be used with --transfers");
        }
        if self.changes {
            return Some("--signal: it can't be used with --changes");
        }
        match self.format {
            LineFormat::Text => None,
            LineFormat::Json => Some("--signal: it can't be used with --format json"),
        }
    }
}

// says which word of a filter is wrong
fn bad_filter<O: Write, E: Write>(fault: FilterFault<'_>, out: &mut O, err: &mut E) -> ExitCode
    ensures { (exit_status result ≡ 1) ⊎ (exit_status result ≡ 2) }
{
    match fault {
        FilterFault::Word(option, word) => {
            let _ = writeln!(err, "{}: {word} is not {}", option.name(), option.wanted());
            ExitCode::from(2)
        }
        FilterFault::Memory => no_memory(out, err),
    }
}

// says which word names no signal
fn bad_signal<O: Write, E: Write>(fault: SignalFault<'_>, out: &mut O, err: &mut E) -> ExitCode
    ensures { (exit_status result ≡ 1) ⊎ (exit_status result ≡ 2) }
{
    match fault {
        SignalFault::Word(word) => {
            let _ = writeln!(
                err,
                "--signal: {word} is not a node-ID, an index and a sub-index, as 5:2001:01"
            );
            ExitCode::from(2)
        }
        SignalFault::Memory => no_memory(out, err),
    }
}

// the signals that are asked for; none without the option
fn signals_in<'a>(alloc: Global, text: Option<&'a str>) -> Result<Vec<Signal>, SignalFault<'a>>
    ensures { IfOk result (λ found. signals_asked (option_copied text.entry) ≡ Ok found.items) }
{
    match text {
        Some(text) => Signal::read_all(alloc, text),
        None => Ok(Vec::new(alloc)),
    }
}

// explains the recording of a path with this filter
#[tactic(auto, using(crate::proofs::WriteLemmas::one_or_two))]
fn explain_filtered<R: Files + AllocGlobal + Input, O: Write, E: Write>(
    rt: &R,
    recording: &str,
    sheets: &[&str],
    options: &ExplainOptions<'_>,
    filter: &Filter,
    out: &mut O,
    err: &mut E,
) -> ExitCode
    requires { IsFilter options.now.filter filter.now }
    ensures status { (exit_status result ≡ 0) ⊎ ((exit_status result ≡ 1) ⊎ (exit_status result ≡ 2)) }
    ensures whole { exit_status result ≡ 0 →
        ExplainsAsked options.now (O.contents out.old) (O.contents out.new) }
{
    match signals_in(rt.alloc(), options.signals) {
        Ok(signals) => {
            let form = Layout {
                stamps: options.stamps,
                transfers: options.transfers,
                changes: options.changes,
                stop: options.stop,
                format: options.format,
                colours: options.colours,
                log: options.log,
                filter,
                signals: signals.as_slice(),
            };
            explain_named(rt, recording, sheets, form, out, err)
        }
        Err(fault) => bad_signal(fault, out, err),
    }
}

/// Explains the recording of a path, or of standard input where that is `-`, by the data sheets
/// that words name, each `[INTERFACE:][NODE=]FILE`. The words of the filter are read first, then
/// those of signals, and then those of the sheets: the first that its option doesn't have is named
/// on `err`, and the status is 2; so it is with an option that asks for other lines than a table of
/// signals. Then the sheets are read: a fault of one goes to `out`, and where there are several,
/// its path to `err`. A signal that no sheet has is named on `err`, and the status is 2. Bad lines,
/// a file that can't be read, and a recording that is a data sheet, are named on `err`. The status
/// is 0 where all lines are good, else 1.
#[tactic(auto, using(crate::proofs::WriteLemmas::one_or_two))]
pub fn explain_files<R: Files + AllocGlobal + Input, O: Write, E: Write>(
    rt: &R,
    recording: &str,
    sheets: &[&str],
    options: &ExplainOptions<'_>,
    out: &mut O,
    err: &mut E,
) -> ExitCode
    ensures status { (exit_status result ≡ 0) ⊎ ((exit_status result ≡ 1) ⊎ (exit_status result ≡ 2)) }
    // With 0 a recording is explained as the options ask for it: all is written, and no line is bad.
    ensures whole { exit_status result ≡ 0 →
        ExplainsAsked options.now (O.contents out.old) (O.contents out.new) }
{
    if let Some(what) = options.other_lines() {
        return bad_word(what, err);
    }
    let filter = match Filter::read(rt.alloc(), &options.filter) {
        Ok(filter) => filter,
        Err(fault) => return bad_filter(fault, out, err),
    };
    explain_filtered(rt, recording, sheets, options, &filter, out, err)
}
