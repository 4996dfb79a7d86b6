//! Checking a data sheet.

ghost use Rattle.std.specs.Prelude.{◌≡◌, ◌⊎◌, ◌++◌, OnOk, IfOk, IfErr, Err, is_none, string_bytes};
ghost use Rattle.co_dict_build.specs.Capacities.{limits_view};
ghost use Rattle.conode_check.specs.SheetTexts.{
  checked_fault,
  checked_lines,
  is_good,
  joined,
  own_node,
  sheet_build_fault,
  sheet_lines,
};
ghost use Rattle.conode_io.specs.Written.{WritesFront, WritesLines, WritesSome};

use crate::sheet_text::{push_fault, push_sheet};
use co_dict_list::{BuildFault, Limits, ListStore};
use co_sheet::{FaultKind, Sheet, read};
use conode_io::{CmdFault, hand_over};
use std::alloc::{AllocError, Global};
use std::io::Write;

// why a sheet makes no dictionary for a node-ID; without a node-ID none is made
fn sheet_build_fault(
    alloc: Global,
    sheet: &Sheet<'_>,
    node: Option<u8>,
    limits: &Limits<'_>,
) -> Result<Option<BuildFault>, AllocError>
    ensures { IfOk result (λ fault.
        fault ≡ sheet_build_fault node (limits_view limits.now) sheet.now) }
{
    let Some(node_id) = node else {
        return Ok(None);
    };
    match ListStore::build(alloc, sheet, node_id, limits) {
        Ok(_) => Ok(None),
        Err(BuildFault::Memory) => Err(AllocError),
        Err(fault) => Ok(Some(fault)),
    }
}

// the node-ID of a sheet itself, if none is given
fn own_node(sheet: &Sheet<'_>, node: Option<u8>) -> Option<u8>
    ensures { result ≡ own_node node sheet.now }
{
    match node {
        Some(_) => None,
        None => sheet.node_id(),
    }
}

// appends what an accepted sheet has, and its build fault; returns whether it has none
fn push_accepted(
    alloc: Global,
    lines: &mut String,
    sheet: &Sheet<'_>,
    node: Option<u8>,
    limits: &Limits<'_>,
) -> Result<bool, AllocError>
    ensures accepted { IfOk result (λ accepted.
        accepted ≡ is_none (checked_fault node (limits_view limits.now) sheet.now)) }
    ensures text { OnOk result (string_bytes lines.new ≡ string_bytes lines.old
        ++ joined (sheet_lines sheet.now (own_node node sheet.now)
        (checked_fault node (limits_view limits.now) sheet.now))) }
{
    let own = own_node(sheet, node);
    let fault = sheet_build_fault(alloc, sheet, node.or(own), limits)?;
    push_sheet(lines, sheet, own, fault)?;
    Ok(fault.is_none())
}

// appends the lines of a text; returns whether there is neither a fault nor a build fault
#[tactic(auto, using(crate::proofs::CheckLemmas::accepted_text, crate::proofs::CheckLemmas::accepted_good))]
fn push_checked(
    alloc: Global,
    lines: &mut String,
    text: &[u8],
    node: Option<u8>,
    limits: &Limits<'_>,
) -> Result<bool, AllocError>
    ensures accepted { IfOk result (λ accepted.
        accepted ≡ is_good text.now node (limits_view limits.now)) }
    ensures text { OnOk result (string_bytes lines.new ≡ string_bytes lines.old
        ++ joined (checked_lines text.now node (limits_view limits.now))) }
{
    match read(alloc, text) {
        Ok(sheet) => push_accepted(alloc, lines, &sheet, node, limits),
        Err(fault) if fault.kind == FaultKind::Memory => Err(AllocError),
        Err(fault) => {
            push_fault(lines, fault)?;
            Ok(false)
        }
    }
}

/// Checks a data sheet (CiA 306), and with a node-ID whether a dictionary can be built from it.
/// Writes what the sheet has: `ok: 3 objects, 4 entries, 0 notes`, a line for each note, as
/// `note 12 SubNumber`, and its build fault, as `build fault 3 BadCobId 1800:01`. For a text that
/// is no sheet it writes the fault, as `fault 9 BadList line 1`. Returns whether there is neither a
/// fault nor a build fault. If no node-ID is given, the sheet's own counts (device commissioning),
/// and is written after the notes, as `node 5`.
///
/// All lines are made before the first is written, and the dictionary isn't kept. `Write` if the
/// writer failed: some of the lines have been written, and perhaps a part of the next one. `Memory`
/// if memory ran out: some of the lines have been written, never all.
#[tactic(auto, using(crate::proofs::CheckLemmas::none_written))]
pub fn check<W: Write>(
    alloc: Global,
    text: &[u8],
    node: Option<u8>,
    limits: &Limits<'_>,
    writer: &mut W,
) -> Result<bool, CmdFault>
    ensures accepted { IfOk result (λ accepted.
        accepted ≡ is_good text.now node (limits_view limits.now)) }
    ensures text { OnOk result (WritesLines (W.contents writer.old) (W.contents writer.new)
        (checked_lines text.now node (limits_view limits.now))) }
    ensures write { result ≡ Err CmdFault.Write →
        WritesFront (W.contents writer.old) (W.contents writer.new)
        (checked_lines text.now node (limits_view limits.now)) }
    ensures memory { result ≡ Err CmdFault.Memory →
        WritesSome (W.contents writer.old) (W.contents writer.new)
        (checked_lines text.now node (limits_view limits.now)) }
    ensures err { IfErr result (λ fault. (fault ≡ CmdFault.Write) ⊎ (fault ≡ CmdFault.Memory)) }
{
    let mut lines = String::new(alloc);
    let accepted = push_checked(alloc, &mut lines, text, node, limits)?;
    hand_over(lines.as_bytes(), writer)?;
    Ok(accepted)
}
