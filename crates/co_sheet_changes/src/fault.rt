//! Why a text isn't rewritten.

use std::alloc::AllocError;

/// Why a text isn't rewritten.
#[derive(Clone, Copy)]
pub enum AdaptFault {
    /// It has more bytes than a data sheet may have, or would have.
    TooLarge,
    /// Memory ran out.
    Memory,
}

impl From<AllocError> for AdaptFault {
    fn from(_: AllocError) -> AdaptFault {
        AdaptFault::Memory
    }
}
