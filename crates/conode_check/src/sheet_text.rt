//! The lines that are written about a data sheet. Each function appends a text. `Err`: out of
//! memory; a part of it may be there.

ghost use Rattle.std.specs.Prelude.{◌≡◌, ◌++◌, OnOk, string_bytes};
ghost use Rattle.std.specs.List.{flat_map};
ghost use Rattle.conode_check.specs.SheetTexts.{
  build_fault_line,
  build_lines,
  fault_line,
  joined,
  node_line,
  node_lines,
  note_line,
  sheet_lines,
  summary_line,
};

use co_dict_build::BuildFault;
use co_sheet::{Note, Sheet, SheetFault};
use conode_text::{Value, push_filled};
use std::alloc::AllocError;

/// Appends the line of a fault: its number, its name and its line.
#[tactic(auto, unfolding(crate::specs::SheetTexts::fault_line, conode_text::specs::Filled::filled))]
pub(crate) fn push_fault(text: &mut String, fault: SheetFault) -> Result<(), AllocError>
    ensures { OnOk result (string_bytes text.new ≡ string_bytes text.old ++ fault_line fault) }
{
    let said = fault.text();
    push_filled(text, "%\n", &[Value::Words(said.as_str())])
}

// the line of a note: its line and its name
#[tactic(auto, unfolding(crate::specs::SheetTexts::note_line, conode_text::specs::Filled::filled))]
fn push_note(text: &mut String, note: Note) -> Result<(), AllocError>
    ensures { OnOk result (string_bytes text.new ≡ string_bytes text.old ++ note_line note) }
{
    let said = note.text();
    push_filled(text, "%\n", &[Value::Words(said.as_str())])
}

fn push_notes(text: &mut String, notes: &[Note]) -> Result<(), AllocError>
    ensures { OnOk result
        (string_bytes text.new ≡ string_bytes text.old ++ flat_map note_line notes.now) }
{
    for note in notes {
        push_note(text, *note)?;
    }
    Ok(())
}

// the line of a build fault, as `build fault 3 BadCobId 1800:01`
#[tactic(auto, unfolding(crate::specs::SheetTexts::build_fault_line, conode_text::specs::Filled::filled))]
fn push_build_fault(text: &mut String, fault: BuildFault) -> Result<(), AllocError>
    ensures { OnOk result
        (string_bytes text.new ≡ string_bytes text.old ++ build_fault_line fault) }
{
    let said = fault.text();
    push_filled(text, "%\n", &[Value::Words(said.as_str())])
}

fn push_any_build_fault(text: &mut String, fault: Option<BuildFault>) -> Result<(), AllocError>
    ensures { OnOk result
        (string_bytes text.new ≡ string_bytes text.old ++ joined (build_lines fault)) }
{
    match fault {
        Some(fault) => push_build_fault(text, fault),
        None => Ok(()),
    }
}

// the line of the sheet's own node-ID, as `node 5`
#[tactic(auto, unfolding(crate::specs::SheetTexts::node_line))]
fn push_node(text: &mut String, node: Option<u8>) -> Result<(), AllocError>
    ensures { OnOk result
        (string_bytes text.new ≡ string_bytes text.old ++ joined (node_lines node)) }
{
    match node {
        Some(id) => push_filled(text, "node %\n", &[Value::Number(id as u64)]),
        None => Ok(()),
    }
}

// the first line of an accepted sheet: how many objects, entries and notes it has
#[tactic(auto, unfolding(crate::specs::SheetTexts::summary_line))]
fn push_summary(text: &mut String, sheet: &Sheet<'_>) -> Result<(), AllocError>
    ensures { OnOk result
        (string_bytes text.new ≡ string_bytes text.old ++ summary_line sheet.now) }
{
    push_filled(
        text,
        "ok: % objects, % entries, % notes\n",
        &[
            Value::Number(sheet.objects().len() as u64),
            Value::Number(sheet.entries().len() as u64),
            Value::Number(sheet.notes().len() as u64),
        ],
    )
}

/// Appends the lines of an accepted sheet: what it has, its notes, its own node-ID if that is to be
/// written, and its build fault.
pub(crate) fn push_sheet(
    text: &mut String,
    sheet: &Sheet<'_>,
    own: Option<u8>,
    fault: Option<BuildFault>,
) -> Result<(), AllocError>
    ensures { OnOk result (string_bytes text.new
        ≡ string_bytes text.old ++ joined (sheet_lines sheet.now own fault)) }
{
    push_summary(text, sheet)?;
    push_notes(text, sheet.notes())?;
    push_node(text, own)?;
    push_any_build_fault(text, fault)
}
