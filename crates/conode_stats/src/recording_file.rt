//! The file of a recording, and the page of its statistics.

ghost use Rattle.std.specs.Prelude.{◌≡◌, ◌⊎◌, ◌≤◌, IfErr, IfOk, IfSome, IsOkAnd, OnOk};
ghost use Rattle.std.specs.Process.{exit_status};
ghost use Rattle.std.specs.Io.KnownBytes.{Appends};
ghost use Rattle.conode_io.specs.TraceTexts.{GaveText};
ghost use Rattle.conode_stats.specs.ExitStatus.{CountsAll, CountsAsked, Ends, IsMade, WritesPage};

use crate::bit_rate::rate_of;
use crate::recording::{Recording, count};
use crate::sheet_facts::facts_of;
use crate::tokens::page_json;
use co_sheet::{FaultKind, SheetFault, read};
use conode_convert::say_not_text;
use conode_io::{CmdFault, cannot_read, flushed, hand_over, stopped};
use conode_logs::Form;
use conode_sheets::{SheetText, bad_sheet, readable_texts, sheet_as_recording};
use conode_stats_text::{Page, SheetFacts, page_text};
use std::alloc::{AllocError, Global};
use std::fs;
use std::io::{Input, Read, Write};
use std::process::ExitCode;
use std::rt::Files;

/// The path that stands for standard input.
const STANDARD_INPUT: &str = "-";

/// What the command line asks for.
#[derive(Clone, Copy)]
pub struct StatsWords<'a> {
    /// The words that name data sheets, each `[INTERFACE:][NODE=]FILE`. Their producer heartbeat
    /// times count, and their bit rates if none is given.
    pub sheets: &'a [&'a str],
    /// The bit rate, 1,000 to 1,000,000 bit/s, if one is given: `500k`, `1M`, `125000`.
    pub bit_rate: Option<&'a str>,
    /// Whether to write JSON in place of the page.
    pub json: bool,
    /// The form of the log.
    pub log: Form,
}

// how a recording is counted
#[derive(Clone, Copy)]
struct Settings<'a> {
    bit_rate: Option<u32>,
    sheets: &'a [SheetFacts<'a>],
    json: bool,
    log: Form,
}

// the page, as a text or as JSON
fn page_of(
    alloc: Global,
    recording: &Recording,
    settings: &Settings<'_>,
) -> Result<Vec<u8>, AllocError>
    requires { IfSome settings.now.bit_rate (λ rate. rate ≤ 1000000) }
    ensures { IfOk result (λ made.
        IsMade settings.now recording.now.counts recording.now.bad made.items) }
{
    let page = Page {
        counts: &recording.counts,
        sheets: settings.sheets,
        bad: recording.bad,
        bit_rate: settings.bit_rate,
    };
    if settings.json {
        return page_json(alloc, &page);
    }
    match page_text(alloc, &page) {
        Ok(text) => Ok(text.into_bytes()),
        Err(fault) => Err(fault),
    }
}

// writes the page
fn write_page<O: Write>(page: Result<Vec<u8>, AllocError>, out: &mut O) -> Result<(), CmdFault>
    ensures { OnOk result (IsOkAnd page (λ made.
        Appends (O.contents out.old) (O.contents out.new) made.items)) }
{
    match page {
        Ok(page) => hand_over(page.as_slice(), out),
        Err(_) => Err(CmdFault::Memory),
    }
}

// counts an input, writes its page, and returns the number of bad lines
fn stats<R: Read, O: Write, E: Write>(
    alloc: Global,
    input: &mut R,
    settings: &Settings<'_>,
    out: &mut O,
    err: &mut E,
) -> Result<u64, CmdFault>
    requires { IfSome settings.now.bit_rate (λ rate. rate ≤ 1000000) }
    ensures known { IfOk result (λ bad. IfSome (R.remaining input.old)
        (WritesPage settings.now (O.contents out.old) (O.contents out.new) bad)) }
    ensures any_reader { IfOk result (λ bad.
        GaveText (R.remaining input.old) (R.remaining input.new)
        (WritesPage settings.now (O.contents out.old) (O.contents out.new) bad)) }
{
    let recording = attempt!(count(alloc, input, settings.log, err));
    match write_page(page_of(alloc, &recording, settings), out) {
        Ok(()) => Ok(recording.bad),
        Err(fault) => Err(fault),
    }
}

// says that a file is no recording: a data sheet, whose line is 0, or no text
fn no_recording<E: Write>(number: usize, err: &mut E) -> ExitCode
    ensures { exit_status result ≡ 1 }
{
    if number == 0 {
        sheet_as_recording(err)
    } else {
        say_not_text(err)
    }
}

// the same, with the status
fn stats_input<R: Read, O: Write, E: Write>(
    alloc: Global,
    input: &mut R,
    settings: &Settings<'_>,
    out: &mut O,
    err: &mut E,
) -> ExitCode
    requires { IfSome settings.now.bit_rate (λ rate. rate ≤ 1000000) }
    ensures status { (exit_status result ≡ 0) ⊎ (exit_status result ≡ 1) }
    // Of the bytes: with 0 no line is bad, with 1 a line is, or it stopped early.
    ensures known { Ends (λ bad. IfSome (R.remaining input.old)
        (WritesPage settings.now (O.contents out.old) (O.contents out.new) bad))
        (exit_status result) }
    // For any reader: it gave a text, and this holds of that text.
    ensures any_reader { Ends (λ bad. GaveText (R.remaining input.old) (R.remaining input.new)
        (WritesPage settings.now (O.contents out.old) (O.contents out.new) bad))
        (exit_status result) }
{
    let outcome = stats(alloc, input, settings, out, err);
    match flushed(out, outcome) {
        Ok(0) => ExitCode::SUCCESS,
        Ok(_) => ExitCode::FAILURE,
        Err(CmdFault::BadLine(number)) => no_recording(number, err),
        Err(fault) => stopped(fault, out, err).status(),
    }
}

// the page of a path, or of standard input for `-`
fn stats_path<R: Files + AllocGlobal + Input, O: Write, E: Write>(
    rt: &R,
    path: &str,
    settings: &Settings<'_>,
    out: &mut O,
    err: &mut E,
) -> ExitCode
    requires { IfSome settings.now.bit_rate (λ rate. rate ≤ 1000000) }
    ensures status { (exit_status result ≡ 0) ⊎ (exit_status result ≡ 1) }
    ensures whole { exit_status result ≡ 0 →
        CountsAll settings.now.bit_rate settings.now.json settings.now.log
        (O.contents out.old) (O.contents out.new) }
{
    if path == STANDARD_INPUT {
        return stats_input(rt.alloc(), &mut rt.reader(), settings, out, err);
    }
    match fs::open(rt, path) {
        Ok(mut file) => stats_input(rt.alloc(), &mut file, settings, out, err),
        Err(_) => cannot_read(path, err),
    }
}

// adds what a sheet has
fn add_facts<'a>(
    alloc: Global,
    facts: &mut Vec<SheetFacts<'a>>,
    of: &SheetText<'a>,
) -> Result<(), SheetFault> {
    let sheet = attempt!(read(alloc, of.text.as_slice()));
    let own = facts_of(&sheet, of.text.as_slice(), &of.word);
    if facts.push(own).is_err() {
        return Err(SheetFault {
            kind: FaultKind::Memory,
            line: 0,
        });
    }
    Ok(())
}

// Adds what the texts of sheets have, and writes nothing. On an `Err` one is at fault, or memory
// ran out, and it is said.
fn take_all<'a, O: Write, E: Write>(
    alloc: Global,
    facts: &mut Vec<SheetFacts<'a>>,
    texts: &[SheetText<'a>],
    out: &mut O,
    err: &mut E,
) -> Result<(), ExitCode>
    ensures kept { OnOk result (O.contents out.new ≡ O.contents out.old) }
    ensures err { IfErr result (λ status. exit_status status ≡ 1) }
{
    for text in texts {
        if let Err(fault) = add_facts(alloc, facts, text) {
            return Err(bad_sheet(fault, text.word.path, texts.len() > 1, out, err));
        }
    }
    Ok(())
}

// the page with the sheets that the words of the command line name
fn stats_in<R: Files + AllocGlobal + Input, O: Write, E: Write>(
    rt: &R,
    path: &str,
    words: &[&str],
    settings: Settings<'_>,
    out: &mut O,
    err: &mut E,
) -> ExitCode
    requires { IfSome settings.bit_rate (λ rate. rate ≤ 1000000) }
    ensures status { (exit_status result ≡ 0) ⊎ ((exit_status result ≡ 1) ⊎ (exit_status result ≡ 2)) }
    ensures whole { exit_status result ≡ 0 →
        CountsAll settings.entry.bit_rate settings.entry.json settings.entry.log
        (O.contents out.old) (O.contents out.new) }
{
    let texts = match readable_texts(rt, words, out, err) {
        Ok(texts) => texts,
        Err(status) => return status,
    };
    let mut facts = Vec::new(rt.alloc());
    if let Err(status) = take_all(rt.alloc(), &mut facts, texts.as_slice(), out, err) {
        return status;
    }
    let settings = Settings {
        bit_rate: settings.bit_rate,
        sheets: facts.as_slice(),
        json: settings.json,
        log: settings.log,
    };
    stats_path(rt, path, &settings, out, err)
}

// says that a word is no bit rate
fn bad_rate<E: Write>(word: &str, err: &mut E) -> ExitCode
    ensures { exit_status result ≡ 2 }
{
    let _ = writeln!(
        err,
        "--bitrate: {word} is not a bit rate from 1000 to 1000000, as 500k, 1M or 125000"
    );
    ExitCode::from(2)
}

/// Writes the statistics of a recording on one page: of the file at the path, or of standard input
/// for `-`. A word that is no bit rate, or names no sheet, is named on `err`, and the status is 2.
/// Then the sheets are read, one with faults without what is at fault, of which `err` names the file;
/// one that can't be read so has its fault on `out`, and where there are several, its path on `err`.
/// Bad lines, a file that can't be read, and a recording that is a data sheet, are named on `err`.
/// The status is 0 if all lines are good, else 1.
pub fn stats_file<R: Files + AllocGlobal + Input, O: Write, E: Write>(
    rt: &R,
    path: &str,
    words: &StatsWords<'_>,
    out: &mut O,
    err: &mut E,
) -> ExitCode
    ensures status { (exit_status result ≡ 0) ⊎ ((exit_status result ≡ 1) ⊎ (exit_status result ≡ 2)) }
    // With 0 a recording is counted as the words ask for it: its page is written, no line is bad.
    ensures whole { exit_status result ≡ 0 →
        CountsAsked words.now (O.contents out.old) (O.contents out.new) }
{
    let bit_rate = match words.bit_rate {
        Some(word) => match rate_of(word) {
            Some(rate) => Some(rate),
            None => return bad_rate(word, err),
        },
        None => None,
    };
    let settings = Settings {
        bit_rate,
        sheets: &[],
        json: words.json,
        log: words.log,
    };
    stats_in(rt, path, words.sheets, settings, out, err)
}
