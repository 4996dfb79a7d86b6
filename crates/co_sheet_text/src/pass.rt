//! One pass over the lines of a data sheet's text: to the first line at fault, or in spite of all
//! of them.

ghost use Rattle.std.specs.Prelude.{◌≡◌, ◌≤◌, ◌⊎◌, ◌++◌, [], length, Some, None, OnOk, IfOk, IfErr};
ghost use Rattle.std.specs.List.{cons_option};
ghost use Rattle.co_sheet_text.specs.Text.{lines_of};
ghost use Rattle.co_sheet_text.specs.Sections.{sections_of, first_line_fault, HaveNoFault, IsFirstAtFault};
ghost use Rattle.co_sheet_text.specs.LinesAtFault.{sections_read, own_faults};
ghost use Rattle.co_sheet_text.specs.OutOfMemory.{out_of_memory};
ghost use Rattle.co_sheet_text.specs.SectionLaws.{IsParsed};
ghost use Rattle.co_sheet_text.specs.SectionsSoFar.{sections_so_far};

use crate::fault::TextFault;
use crate::parsed_text::ParsedText;
use crate::sections_read::SectionsRead;
use crate::text::without_mark;
use co_text::split_line;
use std::alloc::{AllocError, Global};

// takes the lines of a text, up to the first that has a fault
fn take_lines<'a>(
    sections: &mut SectionsRead<'a>,
    alloc: Global,
    text: &'a [u8],
) -> Result<(), TextFault>
    requires new { sections_so_far sections.old ≡ [] }
    requires size { length text.now ≤ 1048576 }
    ensures none { OnOk result (first_line_fault [] (lines_of text.now) ≡ None) }
    ensures all { OnOk result (sections_so_far sections.new ≡ sections_of (lines_of text.now)) }
    ensures err { IfErr result (λ fault. (fault ≡ out_of_memory)
        ⊎ (first_line_fault [] (lines_of text.now) ≡ Some fault)) }
{
    let mut rest = without_mark(text);
    let mut number = 1;
    while let Some((line, others)) = split_line(rest) {
        sections.take_line(alloc, line, number)?;
        rest = others;
        number += 1;
    }
    Ok(())
}

/// The sections of a text, in their order, each with its properties, or the fault of the first line
/// that has one (CiA 306, structure of an EDS).
///
/// A line's fault is `TooLarge`, `BadLine`, `KeyOutsideSection`, `DuplicateSection` or
/// `DuplicateKey`, with the line's number from 1. Out of memory is `Memory`, line 0.
pub fn sections_in(alloc: Global, text: &[u8]) -> Result<ParsedText<'_>, TextFault>
    requires { length text.now ≤ 1048576 }
    ensures ok { IfOk result (λ sections. (first_line_fault [] (lines_of text.now) ≡ None)
        × (sections ≡ sections_of (lines_of text.now))) }
    ensures parsed { IfOk result IsParsed }
    ensures err { IfErr result (λ fault. (fault ≡ out_of_memory)
        ⊎ (first_line_fault [] (lines_of text.now) ≡ Some fault)) }
    // the same in words: no line has a fault, or the line has it and no earlier line has one
    ensures good { OnOk result (HaveNoFault (lines_of text.now)) }
    ensures first { IfErr result (λ fault. (fault ≡ out_of_memory)
        ⊎ IsFirstAtFault (lines_of text.now) fault) }
{
    let mut sections = SectionsRead::new(alloc);
    take_lines(&mut sections, alloc, text)?;
    Ok(sections.into_text(alloc)?)
}

// adds the fault of a line, if it has one
fn add_fault(faults: &mut Vec<TextFault>, fault: Option<TextFault>) -> Result<(), AllocError>
    ensures { OnOk result (faults.new.items ≡ faults.old.items ++ cons_option fault []) }
{
    if let Some(fault) = fault {
        faults.push(fault)?;
    }
    Ok(())
}

// takes the lines of a text in spite of their faults, and adds these
fn take_lines_in_spite<'a>(
    sections: &mut SectionsRead<'a>,
    faults: &mut Vec<TextFault>,
    alloc: Global,
    text: &'a [u8],
) -> Result<(), AllocError>
    requires new { sections_so_far sections.old ≡ [] }
    requires none { faults.old.items ≡ [] }
    requires size { length text.now ≤ 1048576 }
    ensures sections { OnOk result
        (sections_so_far sections.new ≡ sections_read (lines_of text.now)) }
    ensures faults { OnOk result (faults.new.items ≡ own_faults [] (lines_of text.now)) }
{
    let mut rest = without_mark(text);
    let mut number = 1;
    while let Some((line, others)) = split_line(rest) {
        let fault = sections.take_in_spite(alloc, line, number)?;
        add_fault(faults, fault)?;
        rest = others;
        number += 1;
    }
    Ok(())
}

/// The sections of a text in spite of its lines at fault, and the faults of these lines (CiA 306,
/// structure of an EDS).
///
/// A section line at fault begins a section that nothing reads, and any other line at fault is
/// passed over. Each line at fault has one fault, as in `sections_in`, judged after the lines
/// before it as they are read; the faults are in the order of the lines. `Err`: out of memory.
pub fn all_sections_in(
    alloc: Global,
    text: &[u8],
) -> Result<(ParsedText<'_>, Vec<TextFault>), AllocError>
    requires { length text.now ≤ 1048576 }
    ensures sections { IfOk result (λ read. read.0 ≡ sections_read (lines_of text.now)) }
    ensures parsed { IfOk result (λ read. IsParsed read.0) }
    ensures faults { IfOk result (λ read. read.1.items ≡ own_faults [] (lines_of text.now)) }
{
    let mut sections = SectionsRead::new(alloc);
    let mut faults = Vec::new(alloc);
    take_lines_in_spite(&mut sections, &mut faults, alloc, text)?;
    Ok((sections.into_text(alloc)?, faults))
}
