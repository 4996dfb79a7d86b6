//! Texts of another format.

ghost use Rattle.std.specs.Prelude.{◌≡◌, map, IfOk};
ghost use Rattle.conode_lint.specs.Formats.{
  begins_in_utf16,
  begins_with,
  format_line,
  found_format,
  has_doubled_returns,
  has_line,
  has_other_end,
  has_returns,
  has_text,
  is_ethernet_ip,
  is_text,
  is_utf16,
  is_without_section,
  lacks_return,
  other_format,
  shows,
  text_format,
};

use co_sheet_text::{same_name, trim};
use co_sheet_text_warnings::text_lines;
use co_text::split_at_first;
use conode_lint_marks::OtherFormat;
use std::alloc::{AllocError, Global};

// whether a line begins with a word, in any case of letters
fn begins_with(word: &[u8], line: &[u8]) -> bool
    ensures { result ≡ begins_with word.now line.now }
{
    word.len() <= line.len() && same_name(&line[..word.len()], word)
}

#[tactic(auto, unfolding(crate::specs::Formats::has_line))]
fn has_line(lines: &[&[u8]], word: &[u8]) -> bool
    ensures { result ≡ has_line (map (λ line. line.now) lines.now) word.now }
{
    for line in lines {
        if begins_with(word, trim(line)) {
            return true;
        }
    }
    false
}

// whether a line begins with a byte order mark of UTF-16
fn is_utf16(line: &[u8]) -> bool
    ensures { result ≡ is_utf16 line.now }
{
    matches!(line, [0xFF, 0xFE, ..] | [0xFE, 0xFF, ..])
}

fn begins_in_utf16(lines: &[&[u8]]) -> bool
    ensures { result ≡ begins_in_utf16 (map (λ line. line.now) lines.now) }
{
    match lines {
        [first, ..] => is_utf16(first),
        _ => false,
    }
}

// an EDS of EtherNet/IP; a maker's own section of a sheet of CANopen may be named [Device]
fn is_ethernet_ip(lines: &[&[u8]]) -> bool
    ensures { result ≡ is_ethernet_ip (map (λ line. line.now) lines.now) }
{
    has_line(lines, b"[Device]")
        && has_line(lines, b"VendCode")
        && !(has_line(lines, b"[DeviceInfo]") || has_line(lines, b"[MandatoryObjects]"))
}

// one line with CR in it, as those of a text that end with CR alone
fn has_returns(lines: &[&[u8]]) -> bool
    ensures { result ≡ has_returns (map (λ line. line.now) lines.now) }
{
    match lines {
        [line] => split_at_first(line, b'\r').is_some(),
        _ => false,
    }
}

// whether a line has a text that is no comment
fn is_text(line: &[u8]) -> bool
    ensures { result ≡ is_text line.now }
{
    match line {
        [first, ..] => 32 < *first && *first != b';',
        _ => false,
    }
}

#[tactic(auto, unfolding(crate::specs::Formats::has_text))]
fn has_text(lines: &[&[u8]]) -> bool
    ensures { result ≡ has_text (map (λ line. line.now) lines.now) }
{
    for line in lines {
        if is_text(trim(line)) {
            return true;
        }
    }
    false
}

// lines of which none begins a section, as in a recording
fn is_without_section(lines: &[&[u8]]) -> bool
    ensures { result ≡ is_without_section (map (λ line. line.now) lines.now) }
{
    !has_line(lines, b"[") && has_text(lines)
}

/// The format of a text with faults, if it is no data sheet of CANopen.
#[tactic(auto, unfolding(crate::specs::Formats::other_format))]
pub(crate) fn other_format(lines: &[&[u8]]) -> Option<OtherFormat>
    ensures { result ≡ other_format (map (λ line. line.now) lines.now) }
{
    if begins_in_utf16(lines) {
        Some(OtherFormat::Utf16)
    } else if has_line(lines, b"<?xml") || has_line(lines, b"<ISO15745") {
        Some(OtherFormat::Xml)
    } else if is_ethernet_ip(lines) {
        Some(OtherFormat::EtherNetIp)
    } else if has_returns(lines) {
        Some(OtherFormat::CarriageReturns)
    } else if is_without_section(lines) {
        Some(OtherFormat::NoSection)
    } else {
        None
    }
}

// whether the last byte of a line isn't CR
fn lacks_return(line: &[u8]) -> bool
    ensures { result ≡ lacks_return line.now }
{
    match line.last() {
        Some(byte) => *byte != b'\r',
        None => true,
    }
}

#[tactic(auto, unfolding(crate::specs::Formats::has_other_end))]
fn has_other_end(lines: &[&[u8]]) -> bool
    ensures { result ≡ has_other_end (map (λ line. line.now) lines.now) }
{
    for line in lines {
        if lacks_return(line) {
            return true;
        }
    }
    false
}

// whether each line but the last still ends with CR, as in a text whose line ends were converted twice
fn has_doubled_returns(lines: &[&[u8]]) -> bool
    ensures { result ≡ has_doubled_returns (map (λ line. line.now) lines.now) }
{
    1 < lines.len() && !has_other_end(&lines[..lines.len() - 1])
}

/// The format that lint finds in a text with faults: another one, or that of a data sheet whose lines
/// end with CR, CR and LF.
pub(crate) fn found_format(lines: &[&[u8]]) -> Option<OtherFormat>
    ensures { result ≡ found_format (map (λ line. line.now) lines.now) }
{
    match other_format(lines) {
        Some(format) => Some(format),
        None if has_doubled_returns(lines) => Some(OtherFormat::DoubledReturns),
        None => None,
    }
}

// whether a line shows the format of its text; in UTF-16, with CR alone and with CR, CR and LF the first
// one does, without a section one with a text
fn shows(format: OtherFormat, line: &[u8]) -> bool
    ensures { result ≡ shows format line.now }
{
    let text = trim(line);
    match format {
        OtherFormat::Xml => begins_with(b"<?xml", text) || begins_with(b"<ISO15745", text),
        OtherFormat::EtherNetIp => begins_with(b"[Device]", text),
        OtherFormat::Utf16 | OtherFormat::CarriageReturns | OtherFormat::DoubledReturns => true,
        OtherFormat::NoSection => is_text(text),
    }
}

/// The first line that shows the format of its text, from 1.
pub(crate) fn format_line(format: OtherFormat, lines: &[&[u8]]) -> usize
    ensures { result ≡ format_line format (map (λ line. line.now) lines.now) }
{
    let mut number = 1;
    for line in lines {
        if shows(format, line) {
            return number;
        }
        number += 1;
    }
    number
}

/// The format of a text, if it is another than that of data sheets (CiA 306). `Err`: out of memory.
pub fn text_format(alloc: Global, text: &[u8]) -> Result<Option<OtherFormat>, AllocError>
    ensures { IfOk result (λ format. format ≡ text_format text.now) }
{
    let lines = attempt!(text_lines(alloc, text));
    Ok(other_format(lines.as_slice()))
}
