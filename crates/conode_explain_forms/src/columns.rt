//! The first line: the names of the columns.

ghost use Rattle.std.specs.Prelude.{◌≡◌, ◌++◌, IfOk, OnOk, codes, map, option_map, string_bytes};
ghost use Rattle.std.specs.List.{flat_map};
ghost use Rattle.std.specs.Option.{option_copied};
ghost use Rattle.co_sheet.specs.SheetViews.{row_view};
ghost use Rattle.conode_explain_cob_ids.specs.Known.{known_view};
ghost use Rattle.conode_explain_text.specs.Said.{is_control};
ghost use Rattle.conode_explain_forms.specs.Lines.{
  column,
  column_name,
  csv_field,
  first_missing,
  first_row,
  header,
  interface_of,
  is_missing,
  name_of,
  needs_quotes,
  quoted_byte,
  row_of,
  row_on,
};

use crate::signal::Signal;
use co_sheet::EntryRow;
use co_sheet_changes::shown_name;
use conode_explain_cob_ids::{KnownSheet, names_for};
use conode_explain_text::add_shown;
use conode_text::{Value, push_filled};
use std::alloc::{AllocError, Global};

fn is_control(byte: u8) -> bool
    ensures { result ≡ is_control byte }
{
    byte < 0x20 || byte == 0x7F
}

fn needs_quotes(field: &[u8]) -> bool
    ensures { result ≡ needs_quotes field.now }
{
    for byte in field {
        if (*byte == b'"' || *byte == b',') || is_control(*byte) {
            return true;
        }
    }
    false
}

#[tactic(auto, unfolding(crate::specs::Lines::quoted_byte))]
fn add_quoted(line: &mut Vec<u8>, byte: u8) -> Result<(), AllocError>
    ensures { OnOk result (line.new.items ≡ line.old.items ++ quoted_byte byte) }
{
    if byte == b'"' {
        return line.extend_from_slice(b"\"\"");
    }
    line.extend_from_slice(&[byte])
}

fn add_all_quoted(line: &mut Vec<u8>, field: &[u8]) -> Result<(), AllocError>
    ensures { OnOk result (line.new.items ≡ line.old.items ++ flat_map quoted_byte field.now) }
{
    for byte in field {
        attempt!(add_quoted(line, *byte));
    }
    Ok(())
}

// a field in quotes, after a comma
fn add_in_quotes(line: &mut Vec<u8>, field: &[u8]) -> Result<(), AllocError>
    ensures { OnOk result (line.new.items
        ≡ line.old.items ++ codes ",\"" ++ flat_map quoted_byte field.now ++ codes "\"") }
{
    attempt!(line.extend_from_slice(b",\""));
    attempt!(add_all_quoted(line, field));
    line.extend_from_slice(b"\"")
}

// a field after a comma; `escaped` is scratch space
fn add_csv_field(line: &mut Vec<u8>, escaped: &mut Vec<u8>, field: &[u8]) -> Result<(), AllocError>
    ensures { OnOk result (line.new.items ≡ line.old.items ++ codes "," ++ csv_field field.now) }
{
    escaped.clear();
    attempt!(add_shown(escaped, field));
    if needs_quotes(field) {
        return add_in_quotes(line, escaped.as_slice());
    }
    attempt!(line.extend_from_slice(b","));
    line.extend_from_slice(escaped.as_slice())
}

// the entry of a signal in the sheet that counts for its node on an interface
fn row_on<'s, 'a>(
    sheets: &[KnownSheet<'s, 'a>],
    signal: Signal,
    interface: &[u8],
) -> Option<&'s EntryRow<'a>>
    ensures { option_map row_view (option_copied result)
        ≡ row_on (map known_view sheets.now) signal interface.now }
{
    names_for(sheets, interface, signal.node).entry(signal.node, signal.key)
}

fn interface_of<'s>(sheet: &KnownSheet<'s, '_>) -> &'s [u8]
    ensures { result.now ≡ interface_of (known_view sheet.now) }
{
    match sheet.interface {
        Some(name) => name,
        None => b"",
    }
}

// on the first of their interfaces on which it has one
#[tactic(auto, unfolding(crate::specs::Lines::first_row))]
fn first_row<'s, 'a>(sheets: &[KnownSheet<'s, 'a>], signal: Signal) -> Option<&'s EntryRow<'a>>
    ensures { option_map row_view (option_copied result)
        ≡ first_row (map known_view sheets.now) signal (map known_view sheets.now) }
{
    for sheet in sheets {
        if let Some(row) = row_on(sheets, signal, interface_of(sheet)) {
            return Some(row);
        }
    }
    None
}

// on an interface that no sheet names, else on the first of the others
fn row_of<'s, 'a>(sheets: &[KnownSheet<'s, 'a>], signal: Signal) -> Option<&'s EntryRow<'a>>
    ensures { option_map row_view (option_copied result)
        ≡ row_of (map known_view sheets.now) signal }
{
    if let Some(row) = row_on(sheets, signal, b"") {
        return Some(row);
    }
    first_row(sheets, signal)
}

fn is_missing(sheets: &[KnownSheet<'_, '_>], signal: Signal) -> bool
    ensures { result ≡ is_missing (map known_view sheets.now) signal }
{
    row_of(sheets, signal).is_none()
}

/// The first of these signals whose entry none of these sheets has that counts for its node on an
/// interface: it has no value in a recording.
pub fn first_missing(sheets: &[KnownSheet<'_, '_>], signals: &[Signal]) -> Option<Signal>
    ensures { result ≡ first_missing (map known_view sheets.now) signals.now }
{
    for signal in signals {
        if is_missing(sheets, *signal) {
            return Some(*signal);
        }
    }
    None
}

fn push_name(text: &mut String, row: Option<&EntryRow<'_>>) -> Result<(), AllocError>
    ensures { OnOk result (string_bytes text.new ≡ string_bytes text.old
        ++ name_of (option_map row_view (option_copied row.entry))) }
{
    let Some(row) = row else {
        return Ok(());
    };
    let Some(name) = shown_name(row) else {
        return Ok(());
    };
    attempt!(text.push_str(" "));
    text.push_str(name)
}

#[tactic(auto, unfolding(crate::specs::Lines::column_name, conode_text::specs::Filled::filled))]
fn set_column_name(
    text: &mut String,
    row: Option<&EntryRow<'_>>,
    signal: Signal,
) -> Result<(), AllocError>
    ensures { OnOk result (string_bytes text.new
        ≡ column_name (option_map row_view (option_copied row.entry)) signal) }
{
    text.clear();
    attempt!(push_filled(
        text,
        "node % %",
        &[Value::Number(signal.node as u64), Value::Key(signal.key),],
    ));
    push_name(text, row)
}

#[tactic(auto, unfolding(crate::specs::Lines::column))]
fn add_column(
    line: &mut Vec<u8>,
    escaped: &mut Vec<u8>,
    text: &mut String,
    sheets: &[KnownSheet<'_, '_>],
    signal: Signal,
) -> Result<(), AllocError>
    ensures { OnOk result
        (line.new.items ≡ line.old.items ++ column (map known_view sheets.now) signal) }
{
    attempt!(set_column_name(text, row_of(sheets, signal), signal));
    add_csv_field(line, escaped, text.as_bytes())
}

fn add_columns(
    line: &mut Vec<u8>,
    escaped: &mut Vec<u8>,
    text: &mut String,
    sheets: &[KnownSheet<'_, '_>],
    signals: &[Signal],
) -> Result<(), AllocError>
    ensures { OnOk result (line.new.items ≡ line.old.items
        ++ flat_map (column (map known_view sheets.now)) signals.now) }
{
    for signal in signals {
        attempt!(add_column(line, escaped, text, sheets, *signal));
    }
    Ok(())
}

// `escaped` and `text` are scratch space
#[tactic(auto, unfolding(crate::specs::Lines::header))]
fn add_header(
    line: &mut Vec<u8>,
    escaped: &mut Vec<u8>,
    text: &mut String,
    sheets: &[KnownSheet<'_, '_>],
    signals: &[Signal],
) -> Result<(), AllocError>
    ensures { OnOk result
        (line.new.items ≡ line.old.items ++ header (map known_view sheets.now) signals.now) }
{
    attempt!(line.extend_from_slice(b"time"));
    attempt!(add_columns(line, escaped, text, sheets, signals));
    line.extend_from_slice(b"\n")
}

/// The first line of a table of the values of signals: `time`, and for each the node, the entry and
/// its name, as `time,node 5 2001:01 Temperature`. The name is that of the sheet that counts on an
/// interface that no sheet names, else that of the first interface on which the node has the entry.
/// A name with a comma, a quote or a control character is quoted as RFC 4180 has it; control
/// characters and the like are shown as in the other lines, as `\x07`. On an `Err` memory ran out.
pub fn header(
    alloc: Global,
    sheets: &[KnownSheet<'_, '_>],
    signals: &[Signal],
) -> Result<Vec<u8>, AllocError>
    ensures { IfOk result (λ line.
        line.items ≡ header (map known_view sheets.now) signals.now) }
{
    let mut text = String::new(alloc);
    let mut escaped = Vec::new(alloc);
    let mut line = Vec::new(alloc);
    attempt!(add_header(&mut line, &mut escaped, &mut text, sheets, signals));
    Ok(line)
}
