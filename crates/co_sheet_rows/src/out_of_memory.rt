//! Out of memory while a data sheet is read.

ghost use Rattle.std.specs.Prelude.{◌≡◌};
ghost use Rattle.co_sheet_rows.specs.OutOfMemory.{out_of_memory};

use crate::fault::{FaultKind, SheetFault};
use std::alloc::{AllocError, AllocFailed};

impl From<AllocError> for SheetFault {
    ghost from_gives = { λ _ e. e ≡ out_of_memory };

    fn from(_error: AllocError) -> SheetFault {
        SheetFault {
            kind: FaultKind::Memory,
            line: 0,
        }
    }
}

impl<T: Drop> From<AllocFailed<T>> for SheetFault {
    ghost from_gives = { λ _ e. e ≡ out_of_memory };

    fn from(error: AllocFailed<T>) -> SheetFault {
        SheetFault::from(AllocError::from(error))
    }
}
