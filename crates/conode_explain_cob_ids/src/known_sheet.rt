//! A data sheet that is known.

ghost use Rattle.std.specs.Prelude.{◌≡◌, []};
ghost use Rattle.co_sheet_changes.specs.Names.{names_view};
ghost use Rattle.conode_explain_cob_ids.specs.Named.{named_below};
ghost use Rattle.conode_explain_cob_ids.specs.Sheets.{sheet_pdos};
ghost use Rattle.conode_explain_cob_ids.specs.SheetServices.{sheet_services};

use crate::sheet::SheetPdo;
use crate::sheet_services::SheetService;
use co_sheet_changes::Names;

/// A data sheet with its PDOs and COB-IDs, and the nodes and the interface that it is for.
#[derive(Drop)]
pub struct KnownSheet<'s, 'a> {
    /// The name of the interface; `None`: each.
    pub interface: Option<&'s [u8]>,
    /// The data sheet, and the node that it is for.
    pub names: Names<'s, 'a>,
    /// Its PDOs.
    pub pdos: Vec<SheetPdo>,
    /// Its COB-IDs of SYNC, TIME and emergencies.
    pub services: Vec<SheetService>,
    // of each identifier of 11 bits whether one of these may name it
    pub(crate) named: Vec<bool>,
    // and whether one of its PDOs may: of most recordings SYNC and emergencies are named too
    pub(crate) had: Vec<bool>,
    // its PDOs are those of the data sheet
    ghost its_pdos: { pdos.items ≡ sheet_pdos (names_view names) },
    // and so are these COB-IDs
    ghost its_services: { services.items ≡ sheet_services (names_view names) },
    // and whether they may name an identifier
    ghost its_named: { named.items ≡ named_below (names_view names).only pdos.items services.items 2048 },
    // or may have it
    ghost its_had: { had.items ≡ named_below (names_view names).only pdos.items [] 2048 },
}
