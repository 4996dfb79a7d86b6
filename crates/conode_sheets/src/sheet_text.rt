//! The texts of data sheets that words name.

ghost use Rattle.std.specs.Prelude.{◌≡◌, ◌++◌, ◌⊎◌, IfErr, OnOk};
ghost use Rattle.std.specs.Process.{exit_status};
ghost use Rattle.std.specs.Str.{is_utf8};
ghost use Rattle.conode_sheets.specs.SheetTexts.{line_in_utf8};
ghost use Rattle.conode_json.specs.Characters.{utf8_of};

use crate::section_line::has_section;
use crate::sheet_word::{SheetWord, SheetWordFault};
use co_sheet::{FaultKind, SheetFault};
use conode_io::{CmdFault, faulty_sheet, file_text, no_text, stopped};
use conode_json::utf8_of;
use std::alloc::{AllocError, Global};
use std::io::Write;
use std::process::ExitCode;
use std::rt::Files;
use std::str;

/// The text of a data sheet, and what its word names.
#[derive(Drop)]
pub struct SheetText<'a> {
    /// What its word names.
    pub word: SheetWord<'a>,
    /// Its bytes, in UTF-8.
    pub text: Vec<u8>,
}

/// Says why a text is no data sheet, and of which file, where there are several. The status is 1.
pub fn bad_sheet<O: Write, E: Write>(
    fault: SheetFault,
    path: &str,
    several: bool,
    out: &mut O,
    err: &mut E,
) -> ExitCode
    ensures { exit_status result ≡ 1 }
{
    if several && fault.kind != FaultKind::Memory {
        let _ = writeln!(err, "{path} has a fault");
    }
    faulty_sheet(fault, out)
}

fn is_utf8(line: &[u8]) -> bool
    ensures { result ≡ is_utf8 line.now }
{
    match str::from_utf8(line) {
        Ok(_) => true,
        Err(_) => false,
    }
}

// appends what a line has as Windows-1252 (or UTF-8, if it is that); `Err`: out of memory
fn push_utf8_of(alloc: Global, made: &mut Vec<u8>, line: &[u8]) -> Result<(), AllocError>
    ensures { OnOk result (made.new.items ≡ made.old.items ++ utf8_of line.now) }
{
    match utf8_of(alloc, line) {
        Ok(text) => made.extend_from_slice(text.as_bytes()),
        Err(fault) => Err(fault),
    }
}

// appends a line: as it is if it is in UTF-8, else read as Windows-1252; `Err`: out of memory
#[tactic(auto, unfolding(crate::specs::SheetTexts::line_in_utf8))]
fn push_in_utf8(alloc: Global, made: &mut Vec<u8>, line: &[u8]) -> Result<(), AllocError>
    ensures { OnOk result (made.new.items ≡ made.old.items ++ line_in_utf8 line.now) }
{
    if is_utf8(line) {
        made.extend_from_slice(line)
    } else {
        push_utf8_of(alloc, made, line)
    }
}

// a text in UTF-8, line by line; `Err`: out of memory
fn in_utf8(alloc: Global, text: Vec<u8>) -> Result<Vec<u8>, AllocError> {
    if is_utf8(text.as_slice()) {
        return Ok(text);
    }
    let mut made = Vec::new(alloc);
    for line in text.split_inclusive(|byte| *byte == b'\n') {
        push_in_utf8(alloc, &mut made, line)?;
    }
    Ok(made)
}

/// Says that a file is no data sheet, since its text has no section. The status is 1.
pub fn no_sheet<E: Write>(path: &str, err: &mut E) -> ExitCode
    ensures { exit_status result ≡ 1 }
{
    let _ = writeln!(
        err,
        "{path} is no data sheet: it has no section, as [DeviceInfo]"
    );
    ExitCode::FAILURE
}

// says so where a word's interface looks like the node-ID that an equals sign would end
fn name_interface<E: Write>(word: &SheetWord<'_>, err: &mut E) {
    if let Some(node) = word.node_like() {
        let path = word.path;
        let _ = writeln!(
            err,
            "--sheet: {node}:{path} is for the interface {node}; {node}={path} is for node-ID {node}"
        );
    }
}

/// The texts of the data sheets that words name, in UTF-8: a line that isn't is read as
/// Windows-1252. On an `Err` a file can't be read, or has no section, or memory ran out, and it is
/// said; else nothing is written to `out`.
pub(crate) fn texts_of<'a, R: Files + AllocGlobal, O: Write, E: Write>(
    rt: &R,
    words: &[SheetWord<'a>],
    out: &mut O,
    err: &mut E,
) -> Result<Vec<SheetText<'a>>, ExitCode>
    ensures kept { OnOk result (O.contents out.new ≡ O.contents out.old) }
    ensures err { IfErr result (λ status. exit_status status ≡ 1) }
{
    let mut texts = Vec::new(rt.alloc());
    for word in words {
        name_interface(word, err);
        let text = match file_text(rt, word.path) {
            Ok(text) => text,
            Err(fault) => return Err(no_text(fault, word.path, out, err)),
        };
        if !has_section(text.as_slice()) {
            return Err(no_sheet(word.path, err));
        }
        let added = match in_utf8(rt.alloc(), text) {
            Ok(text) => texts.push(SheetText { word: *word, text }).is_ok(),
            Err(_) => false,
        };
        if !added {
            return Err(stopped(CmdFault::Memory, out, err).status());
        }
    }
    Ok(texts)
}

/// Says which word names no data sheet, and what it lacks. The status is 2, or 1 if memory ran out.
pub(crate) fn bad_sheet_word<O: Write, E: Write>(
    fault: SheetWordFault<'_>,
    out: &mut O,
    err: &mut E,
) -> ExitCode
    ensures { (exit_status result ≡ 1) ⊎ (exit_status result ≡ 2) }
{
    match fault {
        SheetWordFault::Word(part, word) => {
            let _ = writeln!(err, "--sheet: {word} has no {}", part.wanted());
            ExitCode::from(2)
        }
        SheetWordFault::Memory => stopped(CmdFault::Memory, out, err).status(),
    }
}
