//! Adding faults to those that are found.

ghost use Rattle.std.specs.Prelude.{◌≡◌, ◌++◌, ◌∷◌, [], OnOk};
ghost use Rattle.co_sheet_text.specs.Views.{property_view, section_view};
ghost use Rattle.co_sheet.specs.Faults.{fault_at};
ghost use Rattle.co_sheet.specs.Checks.{
  fault_if,
  at_key,
  numeral_fault,
  unread_number,
  compact_form,
};

use co_sheet::{FaultKind, SheetFault};
use co_sheet_text::{NumeralFault, Property, TextSection, unsigned_number};
use std::alloc::AllocError;

/// Adds a fault at a line, if a test holds.
pub(crate) fn add_if(
    faults: &mut Vec<SheetFault>,
    test: bool,
    kind: FaultKind,
    line: usize,
) -> Result<(), AllocError>
    ensures { OnOk result (faults.new.items ≡ faults.old.items ++ fault_if test kind line) }
{
    if !test {
        return Ok(());
    }
    attempt_in_memory!(faults.push(SheetFault { kind, line }));
    Ok(())
}

// the fault of a text that is no number
fn unread_kind(fault: NumeralFault) -> FaultKind
    ensures { result ≡ numeral_fault fault }
{
    match fault {
        NumeralFault::Malformed => FaultKind::BadNumber,
        NumeralFault::Ambiguous => FaultKind::AmbiguousNumber,
    }
}

/// Adds a number that can't be read.
pub(crate) fn add_unread(
    faults: &mut Vec<SheetFault>,
    fault: NumeralFault,
    line: usize,
) -> Result<(), AllocError>
    ensures { OnOk result
        (faults.new.items ≡ faults.old.items ++ fault_at line (numeral_fault fault) ∷ []) }
{
    attempt_in_memory!(faults.push(SheetFault {
        kind: unread_kind(fault),
        line,
    }));
    Ok(())
}

/// Adds a property that is no number.
pub(crate) fn add_unread_number(
    faults: &mut Vec<SheetFault>,
    given: &Property,
) -> Result<(), AllocError>
    ensures { OnOk result
        (faults.new.items ≡ faults.old.items ++ unread_number (property_view given.now)) }
{
    match unsigned_number(given.value) {
        Ok(_) => Ok(()),
        Err(fault) => add_unread(faults, fault, given.line),
    }
}

/// Adds the property of this name, where it is no number.
pub(crate) fn add_unread_at(
    faults: &mut Vec<SheetFault>,
    section: &TextSection,
    name: &[u8],
) -> Result<(), AllocError>
    ensures { OnOk result (faults.new.items
        ≡ faults.old.items ++ at_key unread_number name.now (section_view section.now)) }
{
    match section.property(name) {
        Some(given) => add_unread_number(faults, &given),
        None => Ok(()),
    }
}

/// Adds the property of this name, where it states a compact form.
pub(crate) fn add_compact_form(
    faults: &mut Vec<SheetFault>,
    section: &TextSection,
    name: &[u8],
) -> Result<(), AllocError>
    ensures { OnOk result (faults.new.items
        ≡ faults.old.items ++ at_key compact_form name.now (section_view section.now)) }
{
    let Some(given) = section.property(name) else {
        return Ok(());
    };
    let is_compact = given.number().is_some_and(|number| number != 0);
    add_if(faults, is_compact, FaultKind::CompactForm, given.line)
}
