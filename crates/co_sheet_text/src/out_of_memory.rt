//! Out of memory while a text is read.

ghost use Rattle.std.specs.Prelude.{◌≡◌};
ghost use Rattle.co_sheet_text.specs.OutOfMemory.{out_of_memory};

use crate::fault::{TextFault, TextFaultKind};
use std::alloc::{AllocError, AllocFailed};

impl From<AllocError> for TextFault {
    ghost from_gives = { λ _ e. e ≡ out_of_memory };

    fn from(_error: AllocError) -> TextFault {
        TextFault {
            kind: TextFaultKind::Memory,
            line: 0,
        }
    }
}

impl<T: Drop> From<AllocFailed<T>> for TextFault {
    ghost from_gives = { λ _ e. e ≡ out_of_memory };

    fn from(error: AllocFailed<T>) -> TextFault {
        TextFault::from(AllocError::from(error))
    }
}
