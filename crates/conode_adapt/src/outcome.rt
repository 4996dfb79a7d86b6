//! The outcome of adapting a text, before it is written.

ghost use Rattle.std.specs.Prelude.{
  ◌≡◌,
  ◌++◌,
  ◌&&◌,
  not,
  true,
  false,
  None,
  is_none,
  map,
  IfOk,
  string_bytes,
};
ghost use Rattle.co_sheet.specs.Accepted.{first_fault};
ghost use Rattle.co_sheet_adapt.specs.Adapted.{adapted_text, pieces_in};
ghost use Rattle.co_sheet_changes.specs.Pieces.{piece_view};
ghost use Rattle.conode_adapt.specs.NoSheet.{IsReason, no_sheet};
ghost use Rattle.conode_adapt.specs.Written.{
  by_line,
  changes_in,
  changes_of,
  orders_view,
  sheet_of,
};

use crate::line_ends::{push_last_line, push_line_ends, push_mark};
use crate::listing::push_changes;
use crate::no_sheet::{no_sheet, reason_line};
use crate::orders::Orders;
use crate::remaining::remaining;
use co_sheet_adapt::{Adapted, adapt};
use co_sheet_changes::{AdaptFault, Piece, Requested, joined, on_request};
use std::alloc::{AllocError, Global};

/// The outcome of adapting a text.
#[derive(Drop)]
pub(crate) struct Outcome {
    /// The sheet.
    pub(crate) sheet: Vec<u8>,
    /// A line for each change.
    pub(crate) changes: Vec<u8>,
    /// Whether the sheet is accepted.
    pub(crate) is_accepted: bool,
    /// Why the text is no data sheet, or else what no rule mends, as `lint` prints it; empty if the
    /// sheet is accepted.
    pub(crate) remaining: String,
}

// the program that adapts it, and the name of its source
fn by_line(alloc: Global, version: &str, name: &str) -> Result<Vec<u8>, AllocError>
    ensures { IfOk result (λ made. made.items ≡ by_line version.now name.now) }
{
    let mut made = attempt!(joined(alloc, b"conode ", version.as_bytes(), b" from "));
    attempt!(made.extend_from_slice(name.as_bytes()));
    Ok(made)
}

// the pieces of a text in their order: those with leading zeros, those that are forced, and those
// of the rules
#[derive(Clone, Copy)]
struct Steps<'p, 'a, 'b, 'c> {
    read: &'p [Piece<'a>],
    forced: &'p [Piece<'b>],
    adapted: &'p [Piece<'c>],
    stays: bool,
}

// a line for each change of a text
#[tactic(auto, unfolding(crate::specs::Written::changes_in))]
fn listed(
    alloc: Global,
    text: &[u8],
    name: &str,
    steps: &Steps<'_, '_, '_, '_>,
) -> Result<Vec<u8>, AllocError>
    ensures { IfOk result (λ made. made.items ≡ changes_in name.now text.now steps.now.stays
        (map piece_view steps.now.read.now) (map piece_view steps.now.forced.now)
        (map piece_view steps.now.adapted.now)) }
{
    let name = name.as_bytes();
    let mut changes = Vec::new(alloc);
    attempt!(push_mark(alloc, &mut changes, name, text));
    attempt!(push_line_ends(alloc, &mut changes, name, text, steps.stays));
    attempt!(push_last_line(alloc, &mut changes, name, text, steps.stays));
    attempt!(push_changes(alloc, &mut changes, name, steps.read));
    attempt!(push_changes(alloc, &mut changes, name, steps.forced));
    attempt!(push_changes(alloc, &mut changes, name, steps.adapted));
    Ok(changes)
}

// what is said of a text that isn't accepted: why it is no data sheet, or else what remains, as
// `lint` prints it; `asked` is what it is after the changes on request
fn remaining_of(
    alloc: Global,
    text: &[u8],
    name: &str,
    asked: &[u8],
    adapted: &Adapted<'_>,
) -> Result<String, AllocError>
    ensures { adapted.now.is_accepted ≡ false →
        IfOk result (λ said. IsReason (no_sheet text.now) (string_bytes said)) }
{
    if adapted.is_accepted {
        return Ok(String::new(alloc));
    }
    if let Some(why) = attempt!(no_sheet(alloc, text)) {
        return reason_line(alloc, why);
    }
    remaining(alloc, name, text, asked, adapted)
}

// whether a text stays as it is: it is accepted, and nothing was changed on request
fn stays_with(is_accepted: bool, is_read_anew: bool, is_forced: bool) -> bool
    ensures { result ≡ (is_accepted && not is_read_anew && not is_forced) }
{
    is_accepted && !is_read_anew && !is_forced
}

// the outcome of a text that was adapted in these steps
fn outcome_with(
    alloc: Global,
    text: &[u8],
    name: &str,
    read: &Requested<'_>,
    forced: &Requested<'_>,
    adapted: Adapted<'_>,
) -> Result<Outcome, AllocError>
    ensures sheet { IfOk result (λ made. made.sheet.items ≡ adapted.entry.text.items) }
    ensures changes { IfOk result (λ made. made.changes.items ≡ changes_in name.now text.now
        (adapted.entry.stays && not read.now.has_changes && not forced.now.has_changes)
        (map piece_view read.now.pieces.items) (map piece_view forced.now.pieces.items)
        (map piece_view adapted.entry.pieces.items)) }
    ensures accepted { IfOk result (λ made. made.is_accepted ≡ adapted.entry.is_accepted) }
    ensures reason { IfOk result (λ made. made.is_accepted ≡ false →
        IsReason (no_sheet text.now) (string_bytes made.remaining)) }
{
    let steps = Steps {
        read: read.pieces.as_slice(),
        forced: forced.pieces.as_slice(),
        adapted: adapted.pieces.as_slice(),
        stays: stays_with(adapted.stays, read.has_changes, forced.has_changes),
    };
    let changes = attempt!(listed(alloc, text, name, &steps));
    let asked = forced.text.as_slice();
    let remaining = attempt!(remaining_of(alloc, text, name, asked, &adapted));
    Ok(Outcome {
        sheet: adapted.text,
        changes,
        is_accepted: adapted.is_accepted,
        remaining,
    })
}

// a text adapted; its first line says by whom, and from what
fn adapted_by<'a>(
    alloc: Global,
    version: &str,
    name: &str,
    text: &'a [u8],
) -> Result<Adapted<'a>, AdaptFault>
    ensures pieces { IfOk result (λ made.
        map piece_view made.pieces.items ≡ pieces_in text.entry.now) }
    ensures text { IfOk result (λ made.
        made.text.items ≡ adapted_text (by_line version.now name.now) text.entry.now) }
    ensures stays { IfOk result (λ made. made.stays ≡ is_none (first_fault text.entry.now)) }
    ensures accepted { IfOk result (λ made. made.is_accepted ≡ is_none
        (first_fault made.text.items)) }
{
    match by_line(alloc, version, name) {
        Ok(by) => adapt(alloc, text, by.as_slice()),
        Err(_) => Err(AdaptFault::Memory),
    }
}

/// Adapts a text. `TooLarge` if it, or what is added to it, has more than 1,048,576 bytes; `Memory`
/// if memory ran out.
pub(crate) fn outcome_of(
    alloc: Global,
    text: &[u8],
    name: &str,
    version: &str,
    orders: Orders<'_>,
) -> Result<Outcome, AdaptFault>
    ensures sheet { IfOk result (λ made.
        made.sheet.items ≡ sheet_of version.now name.now (orders_view orders.entry) text.now) }
    ensures changes { IfOk result (λ made.
        made.changes.items ≡ changes_of name.now (orders_view orders.entry) text.now) }
    ensures accepted { IfOk result (λ made. made.is_accepted ≡ true →
        first_fault (sheet_of version.now name.now (orders_view orders.entry) text.now) ≡ None) }
    ensures reason { IfOk result (λ made. made.is_accepted ≡ false →
        IsReason (no_sheet text.now) (string_bytes made.remaining)) }
{
    let read = on_request(alloc, text, orders.zeros_request())?;
    let forced = on_request(alloc, read.text.as_slice(), orders.force_request())?;
    let adapted = adapted_by(alloc, version, name, forced.text.as_slice())?;
    let outcome = outcome_with(alloc, text, name, &read, &forced, adapted)?;
    Ok(outcome)
}
