//! The text of a dictionary, line by line.

ghost use Rattle.std.specs.Prelude.{◌≡◌, ◌++◌, [], IfOk, None, OnOk, Some, codes, map};
ghost use Rattle.co_sheet_text.specs.Views.{section_view};
ghost use Rattle.conode_text.specs.Appended.{Appended};
ghost use Rattle.conode_show_text.specs.Cells.{cell_part, cell_text};
ghost use Rattle.conode_show_text.specs.Document.{with_head};
ghost use Rattle.conode_show_text.specs.Entries.{entries_head, entry_line, heading_with};
ghost use Rattle.conode_show_text.specs.declared.format.Format.TheVariants.{Markdown};
ghost use Rattle.conode_show_text.specs.Layout.{line_of};

use crate::cells::{Cell, Content, push_line};
use crate::entries::{push_entry_line, push_heading};
use crate::format::Format;
use co_sheet_text::TextSection;
use co_value::Key;
use std::alloc::{AllocError, Global};
use std::marker::Model;

fn push_bytes(text: &mut Vec<u8>, bytes: &[u8]) -> Result<(), AllocError>
    ensures { OnOk result (text.new.items ≡ text.old.items ++ bytes.now) }
{
    text.extend_from_slice(bytes)
}

// lines after their head, nothing if there is none
fn push_body(text: &mut Vec<u8>, head: &str, body: &[u8]) -> Result<(), AllocError>
    ensures { OnOk result (text.new.items ≡ text.old.items ++ with_head head.now body.now) }
{
    if body.is_empty() {
        return Ok(());
    }
    attempt!(text.extend_from_slice(head.as_bytes()));
    text.extend_from_slice(body)
}

/// A text that is being written line by line. Contracts see it as its bytes, and as `None` once
/// memory ran out. This is remembered until `into_text`, so what appends to it returns nothing.
#[derive(Drop)]
pub(crate) struct Page {
    text: Vec<u8>,
    /// Where a line is made.
    line: Vec<u8>,
    /// Where the text of a cell is made.
    part: String,
    is_whole: bool,
}

impl Model for Page {
    ghost use Rattle.std.specs.Prelude.{ℕ, if◌then◌else◌, List, Option, None, Some};

    ghost Value = { Option (List ℕ) };

    ghost view = { λ p. if p.is_whole then Some p.text.items else None };
}

impl Page {
    /// Nothing is written.
    pub(crate) fn new(alloc: Global) -> Self
        ensures { result ≡ Some [] }
    {
        Page {
            text: Vec::new(alloc),
            line: Vec::new(alloc),
            part: String::new(alloc),
            is_whole: true,
        }
    }

    /// Appends words as they are.
    #[tactic(auto, using(conode_text::proofs::Appending::kept, conode_text::proofs::Appending::never_whole))]
    pub(crate) fn put(&mut self, words: &[u8])
        ensures { Appended self.old words.now self.new }
    {
        if !self.is_whole {
            return;
        }
        self.is_whole = push_bytes(&mut self.text, words).is_ok();
    }

    /// Appends a line.
    #[tactic(auto, using(conode_text::proofs::Appending::kept, conode_text::proofs::Appending::never_whole))]
    pub(crate) fn put_line(&mut self, format: Format, node: Option<u8>, cells: &[Cell<'_>])
        ensures { Appended self.old (line_of format (map (cell_part node) cells.now)) self.new }
    {
        if !self.is_whole {
            return;
        }
        self.is_whole = push_line(
            &mut self.text,
            &mut self.line,
            &mut self.part,
            format,
            node,
            cells,
        )
        .is_ok();
    }

    /// Appends the lines of an entry.
    #[tactic(auto, using(conode_text::proofs::Appending::kept, conode_text::proofs::Appending::never_whole))]
    pub(crate) fn put_entry<'p>(
        &mut self,
        format: Format,
        node: Option<u8>,
        key: Key,
        section: &'p TextSection<'p, 'p>,
    )
        ensures { Appended self.old (entry_line format node key (section_view section.entry.now))
            self.new }
    {
        if !self.is_whole {
            return;
        }
        self.is_whole = push_entry_line(
            &mut self.text,
            &mut self.line,
            &mut self.part,
            format,
            node,
            key,
            section,
        )
        .is_ok();
    }

    /// Appends the heading of an object in Markdown, with this name, and the head of its table.
    #[tactic(auto, using(conode_text::proofs::Appending::kept, conode_text::proofs::Appending::never_whole))]
    pub(crate) fn put_heading(&mut self, index: u16, name: &Content<'_>)
        ensures { Appended self.old (heading_with index (cell_text None name.now)
            ++ codes "\n\n" ++ entries_head Markdown) self.new }
    {
        if !self.is_whole {
            return;
        }
        self.is_whole = push_heading(&mut self.text, &mut self.part, index, name).is_ok();
    }

    /// Appends lines after their head, nothing if there is none.
    #[tactic(auto, using(conode_text::proofs::Appending::kept, conode_text::proofs::Appending::never_whole))]
    pub(crate) fn put_body(&mut self, head: &str, body: &[u8])
        ensures { Appended self.old (with_head head.now body.now) self.new }
    {
        if !self.is_whole {
            return;
        }
        self.is_whole = push_body(&mut self.text, head, body).is_ok();
    }

    /// Memory ran out for what is to be appended.
    pub(crate) fn fail(&mut self)
        ensures { self.new ≡ None }
    {
        self.is_whole = false;
    }

    /// The text. `Err`: memory ran out.
    pub(crate) fn into_text(self) -> Result<Vec<u8>, AllocError>
        ensures { IfOk result (λ text. self ≡ Some text.items) }
    {
        let Page { text, is_whole, .. } = self;
        if is_whole { Ok(text) } else { Err(AllocError) }
    }
}
