//! The section lines of a data sheet, which no recording has.

ghost use Rattle.std.specs.Prelude.{◌≡◌};
ghost use Rattle.std.specs.Process.{exit_status};
ghost use Rattle.conode_sheets.specs.SectionLines.{
  begins_section,
  closes_section,
  is_of_sheet,
  is_section_line,
  names_section,
};

use co_sheet_text::{SectionKind, same_name, trim, without_mark};
use co_text::split_at_first;
use conode_io::CmdFault;
use std::io::Write;
use std::process::ExitCode;

/// Why a recording isn't read: it is a data sheet. No other reader of recordings gives a `BadLine`.
pub const IS_SHEET: CmdFault = CmdFault::BadLine(0);

fn is_of_sheet(name: &[u8]) -> bool
    ensures { result ≡ is_of_sheet name.now }
{
    same_name(name, b"FileInfo") || SectionKind::of_name(name).is_read()
}

// whether what follows `[` is the name of a section, and `]`
fn names_section(text: &[u8]) -> bool
    ensures { result ≡ names_section text.now }
{
    match split_at_first(text, b']') {
        Some((name, _)) => is_of_sheet(trim(name)),
        None => false,
    }
}

// and nothing after it
fn closes_section(text: &[u8]) -> bool
    ensures { result ≡ closes_section text.now }
{
    match split_at_first(text, b']') {
        Some((name, rest)) => is_of_sheet(trim(name)) && rest.is_empty(),
        None => false,
    }
}

/// Whether a line is a section line of a data sheet (CiA 306, structure of an EDS), as `[FileInfo]`
/// or `[1018sub1]`: no line of a recording is.
#[tactic(auto, unfolding(crate::specs::SectionLines::is_section_line))]
pub fn is_section_line(line: &[u8]) -> bool
    ensures { result ≡ is_section_line line.now }
{
    match trim(without_mark(line)) {
        [b'[', rest @ ..] => closes_section(rest),
        _ => false,
    }
}

// whether a line begins a section of a data sheet, whose reader passes over what follows `]`
#[tactic(auto, unfolding(crate::specs::SectionLines::begins_section))]
fn begins_section(line: &[u8]) -> bool
    ensures { result ≡ begins_section line.now }
{
    match trim(without_mark(line)) {
        [b'[', rest @ ..] => names_section(rest),
        _ => false,
    }
}

/// Whether a text has a line that begins a section of a data sheet (CiA 306, structure of an EDS):
/// one of another kind, as a recording, has none.
pub fn has_section(text: &[u8]) -> bool {
    for line in text.split(|byte| *byte == b'\n') {
        if begins_section(line) {
            return true;
        }
    }
    false
}

/// Says that the recording is a data sheet, and how one is named. The status is 1.
pub fn sheet_as_recording<E: Write>(err: &mut E) -> ExitCode
    ensures { exit_status result ≡ 1 }
{
    let _ = writeln!(
        err,
        "TRACE is a data sheet: name it by --sheet, and a recording in its place"
    );
    ExitCode::FAILURE
}
