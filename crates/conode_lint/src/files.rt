//! Linting files, folders and standard input.

ghost use Rattle.std.specs.Prelude.{◌≡◌, nat_lt, IfOk, OnOk, string_bytes};
ghost use Rattle.std.specs.Process.{exit_status};
ghost use Rattle.conode_json.specs.Characters.{characters_of};
ghost use Rattle.conode_lint_text.specs.Characters.{shown_all};
ghost use Rattle.conode_lint.specs.Sessions.{
  AddsText,
  Finishes,
  HandsOver,
  LintEnds,
  Lints,
  NamesUnknown,
  TakesAll,
  TakesOne,
  TakesSome,
  TakesText,
  TakesUnread,
};
ghost use Rattle.conode_lint.specs.Statuses.{lint_status};

use crate::folder::{Sheets, is_folder, sheets_in};
use crate::linted_text::lint_text;
use crate::marks::Checks;
use crate::report::{Counts, Form, Report};
use crate::rules::unknown_name;
use co_sheet::{StreamFault, read_text};
use conode_io::{CmdFault, cannot_read, file_text, flushed, hand_over, stopped};
use conode_json::characters_of;
use conode_lint_text::push_all_shown;
use std::alloc::{AllocError, Global};
use std::io::{Input, Write};
use std::process::ExitCode;
use std::rt::Files;

/// The options of `lint`.
#[derive(Clone, Copy)]
pub struct LintOptions<'a> {
    /// What is looked for in each text.
    pub checks: Checks<'a>,
    /// In which form findings are written.
    pub form: Form,
    /// Whether a warning counts as an error.
    pub strict: bool,
    /// The program's version, for the log of SARIF.
    pub version: &'a str,
}

// a name of the command line or of a folder, as findings have it
fn shown_name(alloc: Global, name: &str) -> Result<String, AllocError>
    ensures { IfOk result (λ shown. string_bytes shown ≡ shown_all (characters_of name.now)) }
{
    let characters = attempt!(characters_of(alloc, name.as_bytes()));
    let mut shown = String::new(alloc);
    attempt!(push_all_shown(&mut shown, characters.as_slice()));
    Ok(shown)
}

// names a folder without data sheets
fn no_sheets<E: Write>(alloc: Global, folder: &str, err: &mut E) -> Result<(), CmdFault> {
    match shown_name(alloc, folder) {
        Ok(shown) => {
            let _ = writeln!(err, "no data sheets in {shown}");
            Ok(())
        }
        Err(_) => Err(CmdFault::Memory),
    }
}

/// The report and the counts so far.
#[derive(Drop)]
struct Session {
    report: Report,
    counts: Counts,
}

impl Session {
    // lints a text, and adds what is found in it to the report
    fn add_text(
        &mut self,
        alloc: Global,
        name: &str,
        text: &[u8],
        options: &LintOptions<'_>,
    ) -> Result<(), AllocError>
        ensures { OnOk result
            (AddsText options.now.checks name.now text.now self.old self.new) }
    {
        match lint_text(alloc, text, &options.checks) {
            Ok(linted) => {
                self.counts.add(&linted);
                self.report.add(alloc, name, &linted)
            }
            Err(fault) => Err(fault),
        }
    }

    // lints a text, and writes what is found in it
    fn take_text<O: Write>(
        &mut self,
        alloc: Global,
        name: &str,
        text: &[u8],
        options: &LintOptions<'_>,
        out: &mut O,
    ) -> Result<(), CmdFault>
        ensures { OnOk result (TakesText options.now.checks name.now text.now
            self.old (O.contents out.old) self.new (O.contents out.new)) }
    {
        match self.add_text(alloc, name, text, options) {
            Ok(()) => self.hand_over_lines(out),
            Err(_) => Err(CmdFault::Memory),
        }
    }

    // hands over the lines that weren't yet
    fn hand_over_lines<O: Write>(&mut self, out: &mut O) -> Result<(), CmdFault>
        ensures { OnOk result
            (HandsOver self.old (O.contents out.old) self.new (O.contents out.new)) }
    {
        let handed = hand_over(self.report.lines().as_bytes(), out);
        self.report.drop_lines();
        handed
    }

    // names a file or a folder that can't be read; ends if memory ran out
    fn take_fault<E: Write>(
        &mut self,
        alloc: Global,
        name: &str,
        fault: CmdFault,
        err: &mut E,
    ) -> Result<(), CmdFault>
        ensures { OnOk result (TakesUnread name.now self.old self.new) }
    {
        if fault == CmdFault::Memory {
            return Err(fault);
        }
        match shown_name(alloc, name) {
            Ok(shown) => {
                let _ = cannot_read(shown.as_str(), err);
            }
            Err(_) => return Err(CmdFault::Memory),
        }
        self.add_unread(name);
        Ok(())
    }

    // counts what can't be read, and adds it to the report
    fn add_unread(&mut self, name: &str)
        ensures { TakesUnread name.now self.old self.new }
    {
        self.counts.unread = self.counts.unread.saturating_add(1);
        self.report.add_unread(name);
    }

    // lints a file, or standard input for `-`, or names what can't be read
    fn take_file<R: Files + AllocGlobal + Input, O: Write, E: Write>(
        &mut self,
        rt: &R,
        path: &str,
        options: &LintOptions<'_>,
        out: &mut O,
        err: &mut E,
    ) -> Result<(), CmdFault>
        ensures { OnOk result (TakesOne options.now.checks path.now
            self.old (O.contents out.old) self.new (O.contents out.new)) }
    {
        match text_of(rt, path) {
            Ok(text) => self.take_text(rt.alloc(), path, text.as_slice(), options, out),
            Err(fault) => self.take_fault(rt.alloc(), path, fault, err),
        }
    }

    // lints the sheets of a folder; one without any is named
    fn take_sheets<R: Files + AllocGlobal + Input, O: Write, E: Write>(
        &mut self,
        rt: &R,
        folder: &str,
        sheets: &Sheets,
        options: &LintOptions<'_>,
        out: &mut O,
        err: &mut E,
    ) -> Result<(), CmdFault>
        ensures { OnOk result (TakesSome options.now.checks
            self.old (O.contents out.old) self.new (O.contents out.new)) }
    {
        for path in &sheets.paths {
            attempt!(self.take_file(rt, path.as_str(), options, out, err));
        }
        if !sheets.are_all {
            return self.take_fault(rt.alloc(), folder, CmdFault::Read, err);
        }
        if sheets.paths.is_empty() {
            return no_sheets(rt.alloc(), folder, err);
        }
        Ok(())
    }

    // a path's file, the sheets of its folder, or `-` for standard input
    fn take_path<R: Files + AllocGlobal + Input + Clone + Drop, O: Write, E: Write>(
        &mut self,
        rt: &R,
        path: &str,
        options: &LintOptions<'_>,
        out: &mut O,
        err: &mut E,
    ) -> Result<(), CmdFault>
        ensures { OnOk result (TakesSome options.now.checks
            self.old (O.contents out.old) self.new (O.contents out.new)) }
    {
        if path == "-" || !is_folder(rt, path) {
            return self.take_file(rt, path, options, out, err);
        }
        match sheets_in(rt, path) {
            Ok(sheets) => self.take_sheets(rt, path, &sheets, options, out, err),
            Err(fault) => self.take_fault(rt.alloc(), path, fault, err),
        }
    }

    // the whole report but for what is still to be handed over
    fn take_paths<R: Files + AllocGlobal + Input + Clone + Drop, O: Write, E: Write>(
        &mut self,
        rt: &R,
        paths: &[&str],
        options: &LintOptions<'_>,
        out: &mut O,
        err: &mut E,
    ) -> Result<(), CmdFault>
        ensures { OnOk result (TakesAll options.now
            self.old (O.contents out.old) self.new (O.contents out.new)) }
    {
        self.report.begin(rt.alloc(), options.version);
        for path in paths {
            attempt!(self.take_path(rt, path, options, out, err));
        }
        Ok(())
    }

    // hands the last bytes over, and returns how much was found
    fn finish<O: Write>(self, out: &mut O) -> Result<Counts, CmdFault>
        ensures { IfOk result (λ counts.
            Finishes self counts (O.contents out.old) (O.contents out.new)) }
    {
        let Session { report, counts } = self;
        match report.into_bytes(&counts) {
            Ok(last) => match hand_over(last.as_slice(), out) {
                Ok(()) => Ok(counts),
                Err(fault) => Err(fault),
            },
            Err(_) => Err(CmdFault::Memory),
        }
    }
}

/// The text of a path's file, or of standard input for `-`. `Memory` if memory ran out, `Read` if
/// it can't be read.
pub fn text_of<R: Files + AllocGlobal + Input>(rt: &R, path: &str) -> Result<Vec<u8>, CmdFault> {
    if path != "-" {
        return file_text(rt, path);
    }
    let mut text = Vec::new(rt.alloc());
    match read_text(&mut rt.reader(), &mut text) {
        Ok(()) => Ok(text),
        Err(StreamFault::Memory) => Err(CmdFault::Memory),
        Err(_) => Err(CmdFault::Read),
    }
}

// lints all paths, and returns how much was found
fn lint_paths<R: Files + AllocGlobal + Input + Clone + Drop, O: Write, E: Write>(
    rt: &R,
    paths: &[&str],
    options: &LintOptions<'_>,
    out: &mut O,
    err: &mut E,
) -> Result<Counts, CmdFault>
    ensures { IfOk result (λ counts.
        Lints options.now counts (O.contents out.old) (O.contents out.new)) }
{
    let mut session = Session {
        report: Report::new(rt.alloc(), options.form),
        counts: Counts::NONE,
    };
    match session.take_paths(rt, paths, options, out, err) {
        Ok(()) => session.finish(out),
        Err(fault) => Err(fault),
    }
}

fn is_any(count: usize) -> bool
    ensures { result ≡ nat_lt 0 count }
{
    count > 0
}

/// 2 if a file couldn't be read; else 1 with an error, or if `strict` with a warning; else 0.
fn status_of(counts: &Counts, strict: bool) -> u8
    ensures { result ≡ lint_status counts.now strict }
{
    if is_any(counts.unread) {
        2
    } else if is_any(counts.errors) || (strict && is_any(counts.warnings)) {
        1
    } else {
        0
    }
}

// a name to be allowed is that of no finding
fn no_such_name<O: Write, E: Write>(alloc: Global, name: &str, out: &mut O, err: &mut E) -> ExitCode
    ensures { NamesUnknown (exit_status result) }
{
    match shown_name(alloc, name) {
        Ok(shown) => {
            let _ = writeln!(err, "no finding has the name {shown}");
            ExitCode::from(2)
        }
        Err(_) => stopped(CmdFault::Memory, out, err).status(),
    }
}

/// Lints files, the `*.eds` and `*.dcf` of folders, and standard input for `-`, and writes what is
/// found to `out`. A file or a folder that can't be read is named on `err`, and the others are
/// linted all the same. A folder without data sheets is named there too, and is no error. The status
/// is 2 if one couldn't be read, or if a name to be allowed is that of no finding. Else it is 1 with
/// an error, if `strict` also with a warning, and if the command stopped early. Else it is 0.
pub fn lint_files<R: Files + AllocGlobal + Input + Clone + Drop, O: Write, E: Write>(
    rt: &R,
    paths: &[&str],
    options: &LintOptions<'_>,
    out: &mut O,
    err: &mut E,
) -> ExitCode
    ensures { LintEnds options.now (exit_status result)
        (O.contents out.old) (O.contents out.new) }
{
    if let Some(name) = unknown_name(options.checks.allowed) {
        return no_such_name(rt.alloc(), name, out, err);
    }
    let outcome = lint_paths(rt, paths, options, out, err);
    match flushed(out, outcome) {
        Ok(counts) => ExitCode::from(status_of(&counts, options.strict)),
        Err(fault) => stopped(fault, out, err).status(),
    }
}
