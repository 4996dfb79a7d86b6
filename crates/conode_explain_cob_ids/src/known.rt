//! The data sheets that are known of nodes.

ghost use Rattle.std.specs.Prelude.{◌≡◌, IfOk, is_none, map, option_map};
ghost use Rattle.std.specs.Option.{option_copied};
ghost use Rattle.co_sheet_changes.specs.Names.{are_for, names_view};
ghost use Rattle.conode_explain_cob_ids.specs.Known.{fits, is_on, known_sheet, known_view, names_for, sheet_for};

use crate::known_sheet::KnownSheet;
use crate::named::named_below;
use crate::sheet::sheet_pdos;
use crate::sheet_services::sheet_services;
use co_sheet_changes::Names;
use std::alloc::{AllocError, Global};

/// One more than the greatest identifier of 11 bits.
const IDENTIFIERS: u16 = 2048;

fn are_for(only: Option<u8>, node: u8) -> bool
    ensures { result ≡ are_for only node }
{
    match only {
        Some(one) => one == node,
        None => true,
    }
}

impl<'s, 'a> KnownSheet<'s, 'a> {
    /// A data sheet for an interface, or for each. On an `Err` memory ran out.
    pub fn new(
        alloc: Global,
        interface: Option<&'s [u8]>,
        names: Names<'s, 'a>,
    ) -> Result<KnownSheet<'s, 'a>, AllocError>
        ensures { IfOk result
            (λ sheet. known_view sheet
            ≡ known_sheet (option_copied interface.entry) (names_view names.entry)) }
    {
        let pdos = attempt_value!(sheet_pdos(alloc, names));
        let services = attempt_value!(sheet_services(alloc, names));
        let named = attempt_value!(named_below(
            alloc,
            names.only,
            pdos.as_slice(),
            services.as_slice(),
            IDENTIFIERS,
        ));
        let had = attempt_value!(named_below(
            alloc,
            names.only,
            pdos.as_slice(),
            &[],
            IDENTIFIERS,
        ));
        Ok(KnownSheet {
            interface,
            names,
            pdos,
            services,
            named,
            had,
        })
    }

    /// Whether it is for an interface.
    pub(crate) fn is_on(&self, interface: &[u8]) -> bool
        ensures { result ≡ is_on interface.now (known_view self.now) }
    {
        match self.interface {
            Some(name) => name == interface,
            None => true,
        }
    }

    /// Whether it is for a node on an interface.
    pub(crate) fn fits(&self, interface: &[u8], node: u8) -> bool
        ensures { result ≡ fits interface.now node (known_view self.now) }
    {
        self.is_on(interface) && are_for(self.names.only, node)
    }
}

/// The first of these data sheets that is for a node on an interface.
pub(crate) fn sheet_for<'b, 's, 'a>(
    sheets: &'b [KnownSheet<'s, 'a>],
    interface: &[u8],
    node: u8,
) -> Option<&'b KnownSheet<'s, 'a>>
    ensures { option_map known_view (option_copied result)
        ≡ sheet_for (map known_view sheets.now) interface.now node }
{
    for sheet in sheets {
        if sheet.fits(interface, node) {
            return Some(sheet);
        }
    }
    None
}

/// Whether none of these data sheets is for a node on an interface.
pub(crate) fn is_none_for(sheets: &[KnownSheet<'_, '_>], interface: &[u8], node: u8) -> bool
    ensures { result ≡ is_none (sheet_for (map known_view sheets.now) interface.now node) }
{
    match sheet_for(sheets, interface, node) {
        Some(_) => false,
        None => true,
    }
}

/// Where the names of a node's entries come from: the first of these data sheets that is for the
/// node on an interface.
#[tactic(auto, unfolding(crate::specs::Known::names_for))]
pub fn names_for<'s, 'a>(sheets: &[KnownSheet<'s, 'a>], interface: &[u8], node: u8) -> Names<'s, 'a>
    ensures { names_view result ≡ names_for (map known_view sheets.now) interface.now node }
{
    match sheet_for(sheets, interface, node) {
        Some(sheet) => sheet.names,
        None => Names {
            sheet: None,
            only: None,
            originals: None,
        },
    }
}
