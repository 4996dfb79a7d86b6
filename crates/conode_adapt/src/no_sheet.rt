//! Texts that are no data sheets.

ghost use Rattle.std.specs.Prelude.{◌≡◌, ◌≤◌, length, map, IfOk, string_bytes, option_map};
ghost use Rattle.std.specs.Option.{option_copied};
ghost use Rattle.co_sheet_text.specs.LinesAtFault.{sections_read};
ghost use Rattle.co_sheet_text.specs.Text.{lines_of};
ghost use Rattle.co_sheet_text.specs.Views.{section_view};
ghost use Rattle.conode_lint.specs.FormatWords.{format_meaning};
ghost use Rattle.conode_adapt.specs.NoSheet.{
  has_section,
  is_of_sheet,
  no_sheet,
  reason_line,
  reason_of,
};

use co_sheet::GREATEST_SIZE;
use co_sheet_faults::read_sections;
use co_sheet_text::{ParsedText, SectionKind, TextSection};
use conode_lint::{OtherFormat, format_meaning, text_format};
use std::alloc::{AllocError, Global};

fn is_of_sheet(kind: SectionKind) -> bool
    ensures { result ≡ is_of_sheet kind }
{
    !matches!(kind, SectionKind::PassedOver)
}

fn has_section(sections: &[TextSection]) -> bool
    ensures { result ≡ has_section (map section_view sections.now) }
{
    for section in sections {
        if is_of_sheet(section.kind) {
            return true;
        }
    }
    false
}

// why a text that is too large is no data sheet, if it is none
fn large_reason(format: Option<OtherFormat>) -> Option<&'static str>
    ensures { option_copied result ≡ option_map format_meaning format }
{
    match format {
        Some(format) => Some(format_meaning(format)),
        None => None,
    }
}

// why a text with these sections is no data sheet, if it is none
fn reason_of(format: Option<OtherFormat>, sections: &[TextSection]) -> Option<&'static str>
    ensures { option_copied result ≡ reason_of format (map section_view sections.now) }
{
    if let Some(format) = format {
        return Some(format_meaning(format));
    }
    if has_section(sections) {
        return None;
    }
    Some("this is no EDS: it has no section of an object, as [1000]")
}

fn reason_parsed(
    alloc: Global,
    format: Option<OtherFormat>,
    parsed: &ParsedText,
) -> Result<Option<&'static str>, AllocError>
    ensures { IfOk result (λ why. option_copied why ≡ reason_of format parsed.now) }
{
    match parsed.sections(alloc) {
        Ok(sections) => Ok(reason_of(format, sections.as_slice())),
        Err(fault) => Err(fault),
    }
}

fn reason_read(
    alloc: Global,
    format: Option<OtherFormat>,
    text: &[u8],
) -> Result<Option<&'static str>, AllocError>
    requires { length text.now ≤ 1048576 }
    ensures { IfOk result
        (λ why. option_copied why ≡ reason_of format (sections_read (lines_of text.now))) }
{
    match read_sections(alloc, text) {
        Ok(parsed) => reason_parsed(alloc, format, &parsed),
        Err(fault) => Err(fault),
    }
}

/// Why a text that can't be adapted is no data sheet (CiA 306, structure of an EDS): it is of
/// another format, or has no section of one. `None` if it is a data sheet, or if it is too large to
/// be read and of no other format. `Err`: out of memory.
#[tactic(auto, unfolding(crate::specs::NoSheet::no_sheet))]
pub(crate) fn no_sheet(alloc: Global, text: &[u8]) -> Result<Option<&'static str>, AllocError>
    ensures { IfOk result (λ why. option_copied why ≡ no_sheet text.now) }
{
    let format = attempt!(text_format(alloc, text));
    if text.len() > GREATEST_SIZE {
        return Ok(large_reason(format));
    }
    reason_read(alloc, format, text)
}

/// A reason as it is written: a line. `Err`: out of memory.
pub(crate) fn reason_line(alloc: Global, why: &str) -> Result<String, AllocError>
    ensures { IfOk result (λ line. string_bytes line ≡ reason_line why.now) }
{
    let mut line = String::new(alloc);
    attempt!(line.push_str(why));
    attempt!(line.push('\n'));
    Ok(line)
}
