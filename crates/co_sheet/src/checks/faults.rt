//! The fault that a check finds: of several, the one with the smallest line.

ghost use Rattle.std.specs.Prelude.{◌≡◌, IfOk};
ghost use Rattle.std.specs.Result.{result_ok, result_err};
ghost use Rattle.co_sheet_text.specs.Properties.{property_number};
ghost use Rattle.co_sheet_text.specs.Views.{property_view};
ghost use Rattle.co_sheet.specs.Faults.{fault_at};
ghost use Rattle.co_sheet.specs.Checks.{fault_if, numeral_fault, unread_number};
ghost use Rattle.co_sheet.specs.Accepted.{least_fault};
ghost use Rattle.co_sheet.specs.private.LeastFaults.{earlier};

use co_sheet_rows::{FaultKind, SheetFault};
use co_sheet_text::{NumeralFault, Property, unsigned_number};

// a fault at a line, if a test holds
pub(crate) fn fault_if(test: bool, kind: FaultKind, line: usize) -> Option<SheetFault>
    ensures { result ≡ least_fault (fault_if test kind line) }
{
    if test {
        Some(SheetFault { kind, line })
    } else {
        None
    }
}

// a number that can't be read
pub(crate) fn unread(fault: NumeralFault, line: usize) -> SheetFault
    ensures { result ≡ fault_at line (numeral_fault fault) }
{
    let kind = match fault {
        NumeralFault::Malformed => FaultKind::BadNumber,
        NumeralFault::Ambiguous => FaultKind::AmbiguousNumber,
    };
    SheetFault { kind, line }
}

// the number that a property has
pub(crate) fn number_of(given: &Property) -> Result<u64, SheetFault>
    ensures fault { result_err result ≡ least_fault (unread_number (property_view given.now)) }
    ensures number { result_ok result ≡ property_number (property_view given.now) }
{
    match unsigned_number(given.value) {
        Ok(number) => Ok(number),
        Err(fault) => Err(unread(fault, given.line)),
    }
}

// of two faults that with the smaller line
pub(crate) fn earlier(fault: Option<SheetFault>, other: Option<SheetFault>) -> Option<SheetFault>
    ensures { result ≡ earlier fault other }
{
    match (fault, other) {
        (Some(f), Some(g)) if f.line <= g.line => Some(f),
        (Some(_), Some(g)) => Some(g),
        (None, other) => other,
        (fault, None) => fault,
    }
}

// both values, or the fault with the smaller line
pub(crate) fn both<T: Drop, U: Drop>(
    read: Result<T, SheetFault>,
    other: Result<U, SheetFault>,
) -> Result<(T, U), SheetFault>
    ensures fault { result_err result ≡ earlier (result_err read) (result_err other) }
    ensures values { IfOk result (λ v. (read ≡ Ok v.0) × (other ≡ Ok v.1)) }
{
    match (read, other) {
        (Ok(value), Ok(more)) => Ok((value, more)),
        (Ok(_), Err(fault)) => Err(fault),
        (Err(fault), Ok(_)) => Err(fault),
        (Err(f), Err(g)) => Err(if f.line <= g.line { f } else { g }),
    }
}
