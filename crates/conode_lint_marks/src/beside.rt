//! The build faults of a text that has other faults too.

ghost use Rattle.std.specs.Prelude.{◌≡◌, ◌≤◌, ◌++◌, length, map, IfOk, IfSome, OnOk};
ghost use Rattle.co_sheet_text.specs.Views.{section_view};
ghost use Rattle.co_dict_build.specs.Capacities.{limits_view};
ghost use Rattle.co_sheet_mend.specs.ReadableTexts.{mended_in};
ghost use Rattle.conode_lint_marks.specs.Beside.{beside_for, beside_in, beside_with, marks_of_mended, sheet_of};

use crate::at_fault::AtFault;
use crate::known_marks::add_known_marks;
use crate::mark::Mark;
use co_dict_build::Limits;
use co_sheet::{FaultKind, Sheet, SheetFault, read};
use co_sheet_mend::mended_text;
use co_sheet_text::{SectionKind, TextSection};
use co_sheet_text_warnings::own_node;
use std::alloc::{AllocError, Global};

/// The sheet of a text, if it is one. `Err`: out of memory.
#[tactic(auto, unfolding(crate::specs::Beside::sheet_of))]
pub fn sheet_of(alloc: Global, text: &[u8]) -> Result<Option<Sheet<'_>>, AllocError>
    ensures sheet { IfOk result (λ sheet. sheet ≡ sheet_of text.now) }
    ensures small { IfOk result (λ sheet. IfSome sheet (λ _. length text.now ≤ 1048576)) }
{
    match read(alloc, text) {
        Ok(sheet) => Ok(Some(sheet)),
        Err(fault) if fault.kind == FaultKind::Memory => Err(AllocError),
        Err(_) => Ok(None),
    }
}

// adds the marks of the sheet that a text without what is at fault is
fn add_of_mended(
    alloc: Global,
    marks: &mut Vec<Mark>,
    mended: &[u8],
    sections: &[TextSection<'_, '_>],
    kinds: &[SectionKind],
    node_id: u8,
    limits: &Limits<'_>,
) -> Result<(), AllocError>
    ensures { OnOk result (marks.new.items ≡ marks.old.items ++ marks_of_mended
        (limits_view limits.now) (map section_view sections.now) kinds.now node_id
        (sheet_of mended.now)) }
{
    match sheet_of(alloc, mended) {
        Ok(Some(sheet)) => {
            add_known_marks(alloc, marks, &sheet, sections, kinds, node_id, limits)
        }
        Ok(None) => Ok(()),
        Err(fault) => Err(fault),
    }
}

// adds the marks of a text with faults, for a node-ID
fn add_for_node(
    alloc: Global,
    marks: &mut Vec<Mark>,
    text: &[u8],
    sections: &[TextSection<'_, '_>],
    kinds: &[SectionKind],
    node_id: u8,
    limits: &Limits<'_>,
) -> Result<(), AllocError>
    ensures { OnOk result (marks.new.items ≡ marks.old.items ++ beside_in
        (limits_view limits.now) kinds.now (map section_view sections.now) node_id
        (mended_in 8 text.now)) }
{
    let Some(mended) = attempt!(mended_text(alloc, text)) else {
        return Ok(());
    };
    add_of_mended(
        alloc,
        marks,
        mended.as_slice(),
        sections,
        kinds,
        node_id,
        limits,
    )
}

// the same for the given node-ID or else the text's own, if it has one
fn add_for(
    alloc: Global,
    marks: &mut Vec<Mark>,
    text: &[u8],
    sections: &[TextSection<'_, '_>],
    kinds: &[SectionKind],
    node: Option<u8>,
    limits: &Limits<'_>,
) -> Result<(), AllocError>
    ensures { OnOk result (marks.new.items ≡ marks.old.items ++ beside_for
        (limits_view limits.now) kinds.now text.now (map section_view sections.now) node) }
{
    match node {
        Some(node_id) => add_for_node(alloc, marks, text, sections, kinds, node_id, limits),
        None => Ok(()),
    }
}

/// Adds the marks of the build faults of a text with these sections and faults, by the sections at
/// fault, for the given node-ID or else its own: none if there is no fault. `Err`: out of memory.
pub fn add_beside(
    alloc: Global,
    marks: &mut Vec<Mark>,
    text: &[u8],
    sections: &[TextSection<'_, '_>],
    faults: &[SheetFault],
    at_fault: &AtFault,
    node: Option<u8>,
    limits: &Limits<'_>,
) -> Result<(), AllocError>
    ensures { OnOk result (marks.new.items ≡ marks.old.items ++ beside_with
        (limits_view limits.now) faults.now at_fault.now.kinds.items text.now
        (map section_view sections.now) node) }
{
    match faults {
        [] => Ok(()),
        [_, ..] => {
            let own = own_node(node, sections);
            add_for(
                alloc,
                marks,
                text,
                sections,
                at_fault.kinds.as_slice(),
                own,
                limits,
            )
        }
    }
}
