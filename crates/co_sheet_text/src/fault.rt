//! Why the sections of a text can't be read.

/// What is wrong with a line (CiA 306, structure of an EDS).
#[derive(Clone, Copy)]
pub enum TextFaultKind {
    /// More than 512 bytes in a line.
    TooLarge,
    /// A section line without `]`, or in a section that is read a line without `=` or without a
    /// name before it.
    BadLine,
    /// A line before the first section.
    KeyOutsideSection,
    /// A section that is read and occurs twice.
    DuplicateSection,
    /// A property that is read and occurs twice in its section.
    DuplicateKey,
    /// Out of memory.
    Memory,
}

impl TextFaultKind {
    ghost use Rattle.std.specs.Prelude.{◌≡◌};
    ghost use Rattle.co_sheet_text.specs.OutOfMemory.{is_memory};

    /// Whether memory ran out, which is no line's fault.
    pub(crate) fn is_memory(self) -> bool
        ensures { result ≡ is_memory self }
    {
        matches!(self, TextFaultKind::Memory)
    }
}

/// The first fault of a text's lines, and its line.
#[derive(Clone, Copy)]
pub struct TextFault {
    pub kind: TextFaultKind,
    /// From 1, or 0 where memory ran out.
    pub line: usize,
}
