//! The section lines of a data sheet.

/// A section line of a data sheet.
#[derive(Clone, Copy, PartialEq, Eq)]
pub struct Section<'a> {
    /// What is between `[` and the first `]`, without blanks at its ends.
    pub name: &'a [u8],
    /// From 1.
    pub line: usize,
}
