//! The outcome of a call.

#[derive(Clone, Copy, PartialEq, Eq)]
pub(crate) enum Outcome {
    /// Right, as with enough memory.
    Right,
    /// Out of memory, and everything is as it has to be after that.
    Refused,
    Wrong,
}

pub(crate) fn right_if(is_right: bool) -> Outcome {
    if is_right {
        Outcome::Right
    } else {
        Outcome::Wrong
    }
}

pub(crate) fn refused_if(is_memory: bool) -> Outcome {
    if is_memory {
        Outcome::Refused
    } else {
        Outcome::Wrong
    }
}
