//! A data sheet, read from its text.

ghost use Rattle.std.specs.Prelude.{◌≡◌, ◌<◌, ◌≤◌, ◌⊎◌, ℕ, List, length, Err, Some, None, IfOk, IfErr};
ghost use Rattle.co_sheet_text.specs.SectionLaws.{IsParsed};
ghost use Rattle.co_sheet_rows.specs.declared.fault.FaultKind.TheVariants.{TooLarge};
ghost use Rattle.co_sheet.specs.Accepted.{IsAccepted, first_fault, first_bad_line, sections_in, IsAnswered};
ghost use Rattle.co_sheet.specs.AcceptedTexts.{IsFaultless};
ghost use Rattle.co_sheet.specs.Content.{IsSheet, IsWhole};
ghost use Rattle.co_sheet.specs.Faults.{fault_at};
ghost use Rattle.co_sheet_rows.specs.OutOfMemory.{out_of_memory};
ghost use Rattle.co_sheet.specs.PlaceLaws.{AllCountPlaces};

use crate::sheet::Sheet;
use crate::text_fault::sheet_fault;
use co_sheet_rows::{FaultKind, SheetFault};
use co_sheet_text::ParsedText;
use std::alloc::Global;

/// The greatest number of bytes of a data sheet.
pub const GREATEST_SIZE: usize = 1_048_576;

/// Reads a data sheet (CiA 306). Its names and strings are borrowed from the text. The fault is the
/// first one, by the lines and then by the checks in their order; or `Memory` with line 0: out of
/// memory. A text of more than 1,048,576 bytes is `TooLarge` with line 0, and needs no memory for
/// that.
pub fn read(alloc: Global, text: &[u8]) -> Result<Sheet<'_>, SheetFault>
    ensures sheet { IfOk result (IsSheet text.now) }
    ensures whole { IfOk result (IsWhole text.now) }
    ensures too_large { 1048576 < length text.now → result ≡ Err (fault_at 0 TooLarge) }
    // So where the text is accepted nothing but lack of memory keeps it from being read.
    ensures err { IfErr result (λ fault. IsAnswered (first_fault text.now) fault) }
{
    if text.len() > GREATEST_SIZE {
        return Err(SheetFault {
            kind: FaultKind::TooLarge,
            line: 0,
        });
    }
    let parsed = sections_in(alloc, text)?;
    let sections = parsed.sections(alloc)?;
    Sheet::of_sections(alloc, sections.as_slice())
}

/// A text is accepted exactly where it is not too large, no line has a fault, and no check finds
/// anything. This is a law: a call of it changes nothing.
pub fn accepted_texts()
    ensures faultless { (text : List ℕ) → IsAccepted text → IsFaultless text }
    ensures accepted { (text : List ℕ) → IsFaultless text → IsAccepted text }
{}

// the sections of a text whose lines have no fault
fn sections_in(alloc: Global, text: &[u8]) -> Result<ParsedText<'_>, SheetFault>
    requires { length text.now ≤ 1048576 }
    ensures ok { IfOk result (λ sections. (first_bad_line text.now ≡ None)
        × (sections ≡ sections_in text.now)) }
    ensures parsed { IfOk result IsParsed }
    ensures counted { IfOk result AllCountPlaces }
    ensures err { IfErr result (λ fault. (fault ≡ out_of_memory)
        ⊎ (first_bad_line text.now ≡ Some fault)) }
{
    match co_sheet_text::sections_in(alloc, text) {
        Ok(sections) => Ok(sections),
        Err(fault) => Err(sheet_fault(fault)),
    }
}
