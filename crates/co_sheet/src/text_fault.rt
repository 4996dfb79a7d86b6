//! The faults of lines, among those of a data sheet.

ghost use Rattle.std.specs.Prelude.{◌≡◌};
ghost use Rattle.co_sheet.specs.Faults.{line_fault_kind, sheet_fault};

use co_sheet_rows::{FaultKind, SheetFault};
use co_sheet_text::{TextFault, TextFaultKind};

/// A fault of a line as one of the sheet.
pub fn sheet_fault(fault: TextFault) -> SheetFault
    ensures { result ≡ sheet_fault fault }
{
    SheetFault {
        kind: line_fault_kind(fault.kind),
        line: fault.line,
    }
}

fn line_fault_kind(kind: TextFaultKind) -> FaultKind
    ensures { result ≡ line_fault_kind kind }
{
    match kind {
        TextFaultKind::TooLarge => FaultKind::TooLarge,
        TextFaultKind::BadLine => FaultKind::BadLine,
        TextFaultKind::KeyOutsideSection => FaultKind::KeyOutsideSection,
        TextFaultKind::DuplicateSection => FaultKind::DuplicateSection,
        TextFaultKind::DuplicateKey => FaultKind::DuplicateKey,
        TextFaultKind::Memory => FaultKind::Memory,
    }
}
