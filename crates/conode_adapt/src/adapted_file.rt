//! Adapting the file of a data sheet.

ghost use Rattle.std.specs.Prelude.{
  ◌≡◌,
  ◌⊎◌,
  true,
  false,
  Ok,
  None,
  IfOk,
  IfErr,
  IfSome,
  OnOk,
  string_bytes,
};
ghost use Rattle.std.specs.Io.KnownBytes.{Appends, Keeps};
ghost use Rattle.std.specs.Process.{exit_status};
ghost use Rattle.co_sheet.specs.Accepted.{first_fault};
ghost use Rattle.conode_adapt.specs.NoSheet.{IsReason, no_sheet, reason_line};
ghost use Rattle.conode_adapt.specs.Written.{changes_of, orders_view, sheet_of};

use crate::large_forms::said_of_forms;
use crate::mappings::mappings_at_fault;
use crate::no_sheet::{no_sheet, reason_line};
use crate::orders::Orders;
use crate::outcome::{Outcome, outcome_of};
use crate::remaining::push_faults;
use co_sheet::GREATEST_SIZE;
use co_sheet_changes::{AdaptFault, LeadingZeros};
use co_sheet_faults::{FaultKind, SheetFault};
use conode_io::{CmdFault, Message, flushed, hand_over, say};
use conode_lint::text_of;
use std::alloc::{AllocError, Global};
use std::io::{Input, Write};
use std::process::ExitCode;
use std::rt::Files;

// what is said of a text that is too large: why it is no data sheet, or else that, as `lint` prints
// it
fn said_of_large(alloc: Global, text: &[u8], name: &str) -> Result<String, AllocError>
    ensures { IfOk result (λ said. IsReason (no_sheet text.now) (string_bytes said)) }
{
    if let Some(why) = attempt!(no_sheet(alloc, text)) {
        return reason_line(alloc, why);
    }
    if text.len() <= GREATEST_SIZE {
        let said = attempt!(said_of_forms(alloc, text, name));
        return Ok(said);
    }
    let mut said = String::new(alloc);
    let faults = [SheetFault {
        kind: FaultKind::TooLarge,
        line: 0,
    }];
    attempt!(push_faults(alloc, &mut said, name, b"", &[], &faults));
    Ok(said)
}

// says why a text that is too large isn't adapted; `Memory` if memory ran out
fn write_refused<E: Write>(
    alloc: Global,
    text: &[u8],
    name: &str,
    refusal: AdaptFault,
    err: &mut E,
) -> Result<(), CmdFault>
    ensures reason { OnOk result (IfSome (no_sheet text.now) (λ why.
        Appends (E.contents err.old) (E.contents err.new) (reason_line why))) }
    ensures fault { IfErr result (λ fault. (fault ≡ CmdFault.Write) ⊎ (fault ≡ CmdFault.Memory)) }
{
    if let AdaptFault::Memory = refusal {
        return Err(CmdFault::Memory);
    }
    match said_of_large(alloc, text, name) {
        Ok(said) => hand_over(said.as_bytes(), err),
        Err(_) => Err(CmdFault::Memory),
    }
}

// writes the changes and the sheet if it is accepted, else the faults that remain; returns whether
// it is accepted
fn write_outcome<O: Write, E: Write>(
    outcome: &Outcome,
    out: &mut O,
    err: &mut E,
) -> Result<bool, CmdFault>
    ensures accepted { IfOk result (λ is. is ≡ outcome.now.is_accepted) }
    ensures sheet { result ≡ Ok true →
        Appends (O.contents out.old) (O.contents out.new) outcome.now.sheet.items }
    ensures changes { result ≡ Ok true →
        Appends (E.contents err.old) (E.contents err.new) outcome.now.changes.items }
    ensures none { result ≡ Ok false → Keeps (O.contents out.old) (O.contents out.new) }
    ensures remaining { result ≡ Ok false → Appends (E.contents err.old) (E.contents err.new)
        (string_bytes outcome.now.remaining) }
    ensures fault { IfErr result (λ fault. (fault ≡ CmdFault.Write) ⊎ (fault ≡ CmdFault.Memory)) }
{
    if !outcome.is_accepted {
        hand_over(outcome.remaining.as_bytes(), err)?;
        return Ok(false);
    }
    hand_over(outcome.changes.as_slice(), err)?;
    hand_over(outcome.sheet.as_slice(), out)?;
    Ok(true)
}

/// Adapts a text. If the adapted sheet is accepted, writes it to `out` and a line for each change
/// to `err`. Else writes to `err` why the text is no data sheet, in a line, or if it is one the
/// faults that remain, as `lint` prints them, and nothing to `out`. Returns whether a sheet is
/// written. `Write` if a writer failed, `Memory` if memory ran out.
pub fn write_adapted<O: Write, E: Write>(
    alloc: Global,
    text: &[u8],
    name: &str,
    version: &str,
    orders: Orders<'_>,
    out: &mut O,
    err: &mut E,
) -> Result<bool, CmdFault>
    // a sheet that is written is accepted, and is what the rules make of the text
    ensures accepted { result ≡ Ok true →
        first_fault (sheet_of version.now name.now (orders_view orders.entry) text.now) ≡ None }
    ensures sheet { result ≡ Ok true → Appends (O.contents out.old) (O.contents out.new)
        (sheet_of version.now name.now (orders_view orders.entry) text.now) }
    ensures changes { result ≡ Ok true → Appends (E.contents err.old) (E.contents err.new)
        (changes_of name.now (orders_view orders.entry) text.now) }
    ensures reason { result ≡ Ok false → IfSome (no_sheet text.now) (λ why.
        Appends (E.contents err.old) (E.contents err.new) (reason_line why)) }
    ensures none { result ≡ Ok false → Keeps (O.contents out.old) (O.contents out.new) }
    ensures err { IfErr result (λ fault. (fault ≡ CmdFault.Write) ⊎ (fault ≡ CmdFault.Memory)) }
{
    match outcome_of(alloc, text, name, version, orders) {
        Ok(outcome) => write_outcome(&outcome, out, err),
        Err(refusal) => {
            attempt!(write_refused(alloc, text, name, refusal, err));
            Ok(false)
        }
    }
}

// adapts a text; with `force` it first looks for the faulty mappings
fn write_asked<O: Write, E: Write>(
    alloc: Global,
    text: &[u8],
    name: &str,
    version: &str,
    words: AdaptWords,
    out: &mut O,
    err: &mut E,
) -> Result<bool, CmdFault> {
    let leading_zeros = words.leading_zeros;
    if !words.force {
        let orders = Orders {
            leading_zeros,
            force: None,
        };
        return write_adapted(alloc, text, name, version, orders, out, err);
    }
    match mappings_at_fault(alloc, text, leading_zeros) {
        Ok(mappings) => {
            let orders = Orders {
                leading_zeros,
                force: Some(mappings.as_slice()),
            };
            write_adapted(alloc, text, name, version, orders, out, err)
        }
        Err(refusal) => {
            attempt!(write_refused(alloc, text, name, refusal, err));
            Ok(false)
        }
    }
}

// says why a command stopped; the output is a sheet, so it is said on `err`
fn stopped_by<E: Write>(fault: CmdFault, err: &mut E) -> ExitCode
    ensures { exit_status result ≡ 1 }
{
    let _ = say(Message::Stopped(fault), err);
    ExitCode::FAILURE
}

/// What the command line of `adapt` asks for beyond the rules.
#[derive(Clone, Copy)]
pub struct AdaptWords {
    /// How a number with a leading zero is read; `None`: it stays as it is.
    pub leading_zeros: Option<LeadingZeros>,
    /// Whether to force what the rules leave at fault.
    pub force: bool,
}

/// Adapts the data sheet of a path, or of standard input for `-`, as `write_adapted` does. With
/// `force`, the mappings that are still at fault for the sheet's node-ID, or for 1, are forced too.
/// The status is 0 if a sheet is written; 1 if the text is no data sheet, or if something remains
/// that no rule mends; 1 also if memory ran out or `out` can't be written, which `err` says; 2 if
/// the file can't be read.
pub fn adapt_file<R: Files + AllocGlobal + Input, O: Write, E: Write>(
    rt: &R,
    path: &str,
    version: &str,
    words: AdaptWords,
    out: &mut O,
    err: &mut E,
) -> ExitCode {
    let text = match text_of(rt, path) {
        Ok(text) => text,
        Err(CmdFault::Memory) => return stopped_by(CmdFault::Memory, err),
        Err(_) => {
            let _ = say(Message::CannotRead(path), err);
            return ExitCode::from(2);
        }
    };
    let outcome = write_asked(rt.alloc(), text.as_slice(), path, version, words, out, err);
    match flushed(out, outcome) {
        Ok(true) => ExitCode::SUCCESS,
        Ok(false) => ExitCode::FAILURE,
        Err(fault) => stopped_by(fault, err),
    }
}
