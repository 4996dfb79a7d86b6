//! The node-ID of a sheet's sections, and the object type of one.

ghost use Rattle.std.specs.Prelude.{◌≡◌, map};
ghost use Rattle.co_sheet_text.specs.Views.{section_view};
ghost use Rattle.co_sheet.specs.Commissioning.{node_id_in};
ghost use Rattle.co_sheet.specs.Entries.{object_code};
ghost use Rattle.conode_show_text.specs.Document.{node_for};

use co_sheet::section_at;
use co_sheet_text::{SectionKind, TextSection};

// the number of NodeID, where that is 1 to 127 (CiA 306, device commissioning)
fn own_node(sections: &[TextSection]) -> Option<u8>
    ensures { result ≡ node_id_in (map section_view sections.now) }
{
    let Some(section) = section_at(sections, SectionKind::DeviceCommissioning) else {
        return None;
    };
    let Some(given) = section.property(b"NodeID") else {
        return None;
    };
    match given.number() {
        Some(number @ 1..=127) => Some(number as u8),
        _ => None,
    }
}

/// The given node-ID, or else that of a device configuration file.
pub fn node_for(node: Option<u8>, sections: &[TextSection]) -> Option<u8>
    ensures { result ≡ node_for node (map section_view sections.now) }
{
    node.or(own_node(sections))
}

/// The code of a section's object type; 7 if it has none.
pub(crate) fn object_code(section: &TextSection<'_, '_>) -> Option<u64>
    ensures { result ≡ object_code (section_view section.now) }
{
    match section.property(b"ObjectType") {
        Some(property) => property.number(),
        None => Some(7),
    }
}
