//! What is odd in a data sheet, but accepted.

use arrayvec::ArrayString;
use co_text::decimal_digits;
use std::fmt;

/// What is odd.
#[derive(Clone, Copy)]
pub enum NoteKind {
    /// SubNumber isn't the number of the object's sub-index sections.
    SubNumber,
    /// An object section that no object list names.
    Unlisted,
    /// NodeID of the device commissioning is a number, but no node-ID from 1 to 127.
    NodeId,
}

impl NoteKind {
    ghost use Rattle.std.specs.Prelude.{◌≡◌, ◌≤◌, length};
    ghost use Rattle.co_sheet_rows.specs.FaultTexts.{note_name};

    /// The name of the kind, as `SubNumber`.
    pub fn name(self) -> &'static str
        ensures name { result.now ≡ note_name self }
        ensures short { length result.now ≤ 9 }
    {
        match self {
            NoteKind::SubNumber => "SubNumber",
            NoteKind::Unlisted => "Unlisted",
            NoteKind::NodeId => "NodeId",
        }
    }
}

/// Prints the name, as `SubNumber`.
impl fmt::Display for NoteKind {
    ghost use Rattle.std.specs.Prelude.{Some};
    ghost use Rattle.co_sheet_rows.specs.FaultTexts.{note_name};

    ghost output = { λ kind. Some (note_name kind) };

    fn fmt<W: fmt::Write>(&self, f: &mut fmt::Formatter<W>) -> fmt::Result {
        f.write_str(self.name())
    }
}

/// What is odd, and where.
#[derive(Clone, Copy)]
pub struct Note {
    pub kind: NoteKind,
    /// From 1.
    pub line: usize,
}

impl Note {
    ghost use Rattle.std.specs.Prelude.{◌≡◌};
    ghost use Rattle.co_sheet_rows.specs.FaultTexts.{note_text};

    /// Line and name, as `note 12 SubNumber`.
    pub fn text(&self) -> ArrayString<40>
        ensures { result.bytes ≡ note_text self.now }
    {
        let mut text = ArrayString::new();
        text.push_str("note ");
        text.push_str(decimal_digits(self.line as u64).as_str());
        text.push(' ');
        text.push_str(self.kind.name());
        text
    }
}

/// Prints the note as `text` has it.
impl fmt::Display for Note {
    ghost use Rattle.std.specs.Prelude.{Some};
    ghost use Rattle.co_sheet_rows.specs.FaultTexts.{note_text};

    ghost output = { λ note. Some (note_text note) };

    fn fmt<W: fmt::Write>(&self, f: &mut fmt::Formatter<W>) -> fmt::Result {
        f.write_str(self.text().as_str())
    }
}
