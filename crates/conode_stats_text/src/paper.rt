//! A text that is being written.

ghost use Rattle.std.specs.Prelude.{◌≡◌, [], Some, None, IfOk, string_bytes};
ghost use Rattle.std.specs.List.{flat_map};
ghost use Rattle.conode_stats_text.specs.Papers.{IsAppended};
ghost use Rattle.conode_stats_text.specs.Pieces.{cell_text, piece_text};

use crate::cells::{Cell, push_cells};
use crate::pieces::{Piece, push_pieces};
use std::alloc::{AllocError, Global};
use std::marker::Model;

/// A text that is being written. It remembers that memory ran out, and takes nothing more then; so
/// no line of the page has to say it. Contracts see the text, `None` once memory ran out.
#[derive(Drop)]
pub(crate) struct Paper {
    text: String,
    // what a cell shows; scratch space
    cell: String,
    // why nothing more is taken, if memory ran out
    fault: Option<AllocError>,
}

impl Model for Paper {
    ghost use Rattle.std.specs.Prelude.{ℕ, List, Option, Some, None, string_bytes};
    ghost use Rattle.conode_stats_text.specs.Papers.{written_if};

    ghost Value = { Option (List ℕ) };

    ghost view = { λ paper. written_if paper.fault (string_bytes paper.text) };
}

impl Paper {
    /// Nothing is written.
    pub(crate) fn new(alloc: Global) -> Paper
        ensures { result ≡ Some [] }
    {
        Paper {
            text: String::new(alloc),
            cell: String::new(alloc),
            fault: None,
        }
    }

    /// Appends pieces.
    pub(crate) fn put(&mut self, pieces: &[Piece<'_>])
        ensures { IsAppended self.old (flat_map piece_text pieces.now) self.new }
    {
        if self.fault.is_none() {
            if let Err(fault) = push_pieces(&mut self.text, pieces) {
                self.fault = Some(fault);
            }
        }
    }

    /// Appends the cells of a line.
    pub(crate) fn put_cells(&mut self, cells: &[Cell<'_>])
        ensures { IsAppended self.old (flat_map cell_text cells.now) self.new }
    {
        if self.fault.is_none() {
            if let Err(fault) = push_cells(&mut self.text, &mut self.cell, cells) {
                self.fault = Some(fault);
            }
        }
    }

    /// Notes that memory ran out.
    pub(crate) fn end(&mut self, fault: AllocError)
        ensures { self.new ≡ None }
    {
        self.fault = Some(fault);
    }

    /// The text. `Err`: memory ran out.
    pub(crate) fn into_text(self) -> Result<String, AllocError>
        ensures { IfOk result (λ text. self ≡ Some (string_bytes text)) }
    {
        let Paper {
            text,
            cell: _cell,
            fault,
        } = self;
        match fault {
            None => Ok(text),
            Some(fault) => Err(fault),
        }
    }
}
