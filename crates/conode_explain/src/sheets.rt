//! The data sheets by which a recording is explained.

ghost use Rattle.std.specs.Prelude.{◌≡◌, ◌++◌, IfOk, OnOk, map};
ghost use Rattle.co_sheet_changes.specs.Names.{names_view};
ghost use Rattle.conode_explain_cob_ids.specs.Known.{known_view};
ghost use Rattle.conode_explain.specs.Sheets.{in_order, is_kind, of_kind, read_view};

use co_sheet::Sheet;
use co_sheet_changes::{Names, Originals};
use conode_explain_cob_ids::KnownSheet;
use conode_sheets::SheetWord;
use std::alloc::{AllocError, Global};

/// A data sheet that was read.
#[derive(Drop)]
pub(crate) struct ReadSheet<'t> {
    /// What its word names.
    pub(crate) word: SheetWord<'t>,
    pub(crate) sheet: Sheet<'t>,
    /// The original data types of its entries, where it was adapted.
    pub(crate) originals: Originals,
}

impl<'t> ReadSheet<'t> {
    fn names(&self) -> Names<'_, 't>
        ensures { names_view result ≡ (read_view self.now).names }
    {
        Names {
            sheet: Some(&self.sheet),
            only: self.word.node.or(self.sheet.node_id()),
            originals: Some(&self.originals),
        }
    }

    // whether it is for one node, or for all; and for one interface, or for each
    fn is_kind(&self, node: bool, interface: bool) -> bool
        ensures { result ≡ is_kind node interface (read_view self.now) }
    {
        self.names().only.is_some() == node && self.word.interface.is_some() == interface
    }

    // the sheet with its PDOs
    fn known(&self, alloc: Global) -> Result<KnownSheet<'_, 't>, AllocError>
        ensures { IfOk result (λ known. known_view known ≡ read_view self.now) }
    {
        KnownSheet::new(alloc, self.word.interface, self.names())
    }
}

// adds those that are for one node, or for all, and for one interface, or for each
fn add_kind<'s, 't>(
    alloc: Global,
    known: &mut Vec<KnownSheet<'s, 't>>,
    sheets: &'s [ReadSheet<'t>],
    node: bool,
    interface: bool,
) -> Result<(), AllocError>
    ensures { OnOk result (map known_view known.new.items
        ≡ map known_view known.old.items ++ of_kind node interface (map read_view sheets.now)) }
{
    for sheet in sheets {
        if sheet.is_kind(node, interface) {
            let Ok(made) = sheet.known(alloc) else {
                return Err(AllocError);
            };
            known.push(made)?;
        }
    }
    Ok(())
}

/// Adds these data sheets with their PDOs, in the order in which they count: a node's own before
/// one for all nodes, and of those the one for an interface. On an `Err` memory ran out.
#[tactic(auto, unfolding(crate::specs::Sheets::in_order))]
pub(crate) fn add_in_order<'s, 't>(
    alloc: Global,
    known: &mut Vec<KnownSheet<'s, 't>>,
    sheets: &'s [ReadSheet<'t>],
) -> Result<(), AllocError>
    ensures { OnOk result (map known_view known.new.items
        ≡ map known_view known.old.items ++ in_order (map read_view sheets.now)) }
{
    attempt!(add_kind(alloc, known, sheets, true, true));
    attempt!(add_kind(alloc, known, sheets, true, false));
    attempt!(add_kind(alloc, known, sheets, false, true));
    add_kind(alloc, known, sheets, false, false)
}
