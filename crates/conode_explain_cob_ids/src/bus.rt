//! What is known of the PDOs of a bus.

ghost use Rattle.std.specs.Prelude.{◌≡◌};
ghost use Rattle.std.specs.Option.{option_copied};
ghost use Rattle.co_sheet_changes.specs.Names.{names_view};
ghost use Rattle.conode_explain_cob_ids.specs.Buses.{bus_view, names_at, state_at};

use crate::known::names_for;
use crate::known_sheet::KnownSheet;
use co_sheet_changes::Names;
use conode_explain_entries::{Entries, PdoState};

/// What is known of the PDOs of a bus.
#[derive(Clone, Copy)]
pub struct Bus<'k, 'e, 'i, 's, 'a> {
    /// The data sheets.
    pub sheets: &'k [KnownSheet<'s, 'a>],
    /// What the recording shows of entries.
    pub entries: &'e Entries,
    /// The name of the bus's interface.
    pub interface: &'i [u8],
}

impl<'s, 'a> Bus<'_, '_, '_, 's, 'a> {
    /// Where the names of a node's entries come from.
    pub fn names(self, node: u8) -> Names<'s, 'a>
        ensures { names_view result ≡ names_at (bus_view self.entry) node }
    {
        names_for(self.sheets, self.interface, node)
    }
}

impl<'e> Bus<'_, 'e, '_, '_, '_> {
    /// What the recording shows of the entries of a node's PDO, by the index of its communication
    /// parameter (1400h to 15FFh, 1800h to 19FFh; CiA 301, 7.5.2.35 to 7.5.2.38); of an SDO channel
    /// by that of its parameter; of the device type and of the COB-IDs of SYNC, TIME and emergencies
    /// by that of the entry. `None` where it shows none.
    pub fn state(self, node: u8, index: u16) -> Option<&'e PdoState>
        ensures { option_copied result ≡ state_at (bus_view self.entry) node index }
    {
        self.entries.state(self.interface, node, index)
    }
}
