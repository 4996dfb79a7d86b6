//! The section lines of a text.

use crate::section_kind::SectionKind;

/// A section line, and the number of properties of its section. In the text's one list of
/// properties they come after those of the sections before it.
#[derive(Clone, Copy)]
pub(crate) struct Header<'a> {
    pub(crate) kind: SectionKind,
    pub(crate) name: &'a [u8],
    /// From 1.
    pub(crate) line: usize,
    pub(crate) count: usize,
}
