//! All faults of a text, in order.

ghost use Rattle.std.specs.Prelude.{◌≡◌, ◌++◌, ◌≤◌, [], length, map, Contains, OnOk, IfOk};
ghost use Rattle.std.specs.List.Sorted.{IsStrictlySortedBy};
ghost use Rattle.co_sheet_rows.specs.declared.fault.SheetFault.{SheetFault as Fault};
ghost use Rattle.co_sheet_text.specs.Text.{lines_of};
ghost use Rattle.co_sheet_text.specs.LinesAtFault.{sections_read};
ghost use Rattle.co_sheet.specs.Faults.{sheet_fault};
ghost use Rattle.co_sheet_faults.specs.AllFaults.{faults_of};
ghost use Rattle.co_sheet_faults.specs.FaultOrder.{fault_cmp};
ghost use Rattle.co_sheet_text.specs.SectionLaws.{IsParsed};
ghost use Rattle.co_sheet_faults.specs.private.Collected.{collected, text_collected};

use crate::collect::collect;
use crate::faults::add_if;
use co_sheet::{FaultKind, GREATEST_SIZE, SheetFault, sheet_fault};
use co_sheet_text::{ParsedText, TextFault, all_sections_in};
use std::alloc::{AllocError, Global};

/// The sections of a text in spite of its lines at fault (CiA 306, structure of an EDS): a section
/// line at fault begins a section that nothing reads, and any other line at fault is passed over.
/// `Err`: out of memory.
pub fn read_sections(alloc: Global, text: &[u8]) -> Result<ParsedText<'_>, AllocError>
    requires { length text.now ≤ 1048576 }
    ensures { IfOk result (λ sections. sections ≡ sections_read (lines_of text.now)) }
{
    let (sections, _) = attempt!(all_sections_in(alloc, text));
    Ok(sections)
}

fn add_lines(faults: &mut Vec<SheetFault>, lines: &[TextFault]) -> Result<(), AllocError>
    ensures { OnOk result
        (faults.new.items ≡ faults.old.items ++ map sheet_fault lines.now) }
{
    for fault in lines {
        attempt_in_memory!(faults.push(sheet_fault(*fault)));
    }
    Ok(())
}

// adds the faults of lines, and what the checks find in the sections
fn add_found(
    alloc: Global,
    faults: &mut Vec<SheetFault>,
    parsed: &ParsedText<'_>,
    lines: &[TextFault],
) -> Result<(), AllocError>
    requires { IsParsed parsed.now }
    ensures { OnOk result (faults.new.items
        ≡ faults.old.items ++ map sheet_fault lines.now ++ collected parsed.now) }
{
    attempt!(add_lines(faults, lines));
    let sections = attempt!(parsed.sections(alloc));
    collect(alloc, faults, sections.as_slice())
}

// adds the faults of a text in the order in which one pass finds them
fn add_collected(alloc: Global, faults: &mut Vec<SheetFault>, text: &[u8]) -> Result<(), AllocError>
    requires { length text.now ≤ 1048576 }
    ensures { OnOk result
        (faults.new.items ≡ faults.old.items ++ text_collected (lines_of text.now)) }
{
    let (parsed, lines) = attempt!(all_sections_in(alloc, text));
    add_found(alloc, faults, &parsed, lines.as_slice())
}

// sorts faults, and leaves each of them once
fn put_in_order(faults: &mut Vec<SheetFault>) -> Result<(), AllocError>
    ensures all { OnOk result ((fault : Fault) → Contains faults.old.items fault
        → Contains faults.new.items fault) }
    ensures only { OnOk result ((fault : Fault) → Contains faults.new.items fault
        → Contains faults.old.items fault) }
    ensures increase { OnOk result (IsStrictlySortedBy fault_cmp faults.new.items) }
{
    attempt!(faults.sort_by_key(|fault| (fault.line, fault.kind.number())));
    faults.dedup_by_key(|fault| (fault.line, fault.kind.number()));
    Ok(())
}

// adds all faults of a text, in order, to none
fn add_all(alloc: Global, faults: &mut Vec<SheetFault>, text: &[u8]) -> Result<(), AllocError>
    requires { faults.old.items ≡ [] }
    ensures all { OnOk result ((fault : Fault) → Contains (faults_of text.now) fault
        → Contains faults.new.items fault) }
    ensures only { OnOk result ((fault : Fault) → Contains faults.new.items fault
        → Contains (faults_of text.now) fault) }
    ensures increase { OnOk result (IsStrictlySortedBy fault_cmp faults.new.items) }
{
    if text.len() > GREATEST_SIZE {
        return add_if(faults, true, FaultKind::TooLarge, 0);
    }
    attempt!(add_collected(alloc, faults, text));
    put_in_order(faults)
}

/// All faults of a text (CiA 306), where `co_sheet::read` returns the first only: those of its
/// lines, and what each check finds in what can be read.
///
/// They are sorted by line, then by the number of their kind, and none is there twice. A fault
/// without a line has line 0: the text is more than 1,048,576 bytes (`TooLarge`, which then is
/// alone), MandatoryObjects is missing (`MissingSection`), or 1000h, 1001h or 1018h is in no list
/// (`MissingMandatory`). The text is a data sheet exactly where there is no fault. No fault is
/// reported that depends on a value at fault. `Err`: out of memory; no fault in the list is
/// `Memory`.
pub fn find_faults(alloc: Global, text: &[u8]) -> Result<Vec<SheetFault>, AllocError>
    ensures all { IfOk result (λ found. (fault : Fault) → Contains (faults_of text.now) fault
        → Contains found.items fault) }
    ensures only { IfOk result (λ found. (fault : Fault) → Contains found.items fault
        → Contains (faults_of text.now) fault) }
    ensures increase { IfOk result (λ found. IsStrictlySortedBy fault_cmp found.items) }
{
    let mut faults = Vec::new(alloc);
    attempt!(add_all(alloc, &mut faults, text));
    Ok(faults)
}
