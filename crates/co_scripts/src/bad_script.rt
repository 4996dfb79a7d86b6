//! The error of a text that can't be used.

/// A text isn't part of a script, or its device can't be built.
#[derive(Clone, Copy, Debug, PartialEq, Eq)]
pub struct BadScript;
