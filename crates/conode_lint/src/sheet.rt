//! The sheet of a text whose sections are read.

ghost use Rattle.std.specs.Prelude.{◌≡◌, ◌≤◌, [], length, map, IfOk};
ghost use Rattle.co_sheet_text.specs.LinesAtFault.{own_faults, sections_read};
ghost use Rattle.co_sheet_text.specs.SectionLaws.{IsParsed};
ghost use Rattle.co_sheet_text.specs.Text.{lines_of};
ghost use Rattle.co_sheet_text.specs.Views.{section_view};
ghost use Rattle.conode_lint_marks.specs.Beside.{sheet_of};
ghost use Rattle.conode_lint.specs.Marks.{sheet_in};

use co_sheet::{FaultKind, Sheet};
use co_sheet_text::{TextFault, TextSection};
use std::alloc::{AllocError, Global};

// the sheet of sections, if they have one
#[tactic(auto, unfolding(crate::specs::Marks::sheet_in))]
fn sheet_in<'a>(
    alloc: Global,
    sections: &[TextSection<'_, 'a>],
) -> Result<Option<Sheet<'a>>, AllocError>
    requires { IsParsed (map section_view sections.now) }
    ensures { IfOk result (λ sheet. sheet ≡ sheet_in (map section_view sections.now)) }
{
    match Sheet::of_sections(alloc, sections) {
        Ok(sheet) => Ok(Some(sheet)),
        Err(fault) if fault.kind == FaultKind::Memory => Err(AllocError),
        Err(_) => Ok(None),
    }
}

/// The sheet of a text with these sections, of whose lines these are at fault, if it is one. So the
/// text isn't read again. `Err`: out of memory.
pub(crate) fn sheet_with<'a>(
    alloc: Global,
    text: &[u8],
    sections: &[TextSection<'_, 'a>],
    at_fault: &[TextFault],
) -> Result<Option<Sheet<'a>>, AllocError>
    requires size { length text.now ≤ 1048576 }
    requires parsed { IsParsed (map section_view sections.now) }
    requires sections { map section_view sections.now ≡ sections_read (lines_of text.now) }
    requires at_fault { at_fault.now ≡ own_faults [] (lines_of text.now) }
    ensures { IfOk result (λ sheet. sheet ≡ sheet_of text.now) }
{
    if at_fault.is_empty() {
        return sheet_in(alloc, sections);
    }
    Ok(None)
}
