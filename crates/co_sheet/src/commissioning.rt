//! The device commissioning: the node-ID that a device configuration file has for its node.

ghost use Rattle.std.specs.Prelude.{◌≡◌, map};
ghost use Rattle.co_sheet_text.specs.Views.{property_view, section_view};
ghost use Rattle.co_sheet.specs.Commissioning.{node_id_of, node_id_in};

use crate::sections::section_at;
use co_sheet_text::{Property, SectionKind, TextSection};

/// The node-ID that a property NodeID states: its number, where that is 1 to 127 (CiA 306, device
/// commissioning).
pub(crate) fn node_id_of(given: &Property) -> Option<u8>
    ensures { result ≡ node_id_of (property_view given.now) }
{
    match given.number()? {
        number @ 1..=127 => Some(number as u8),
        _ => None,
    }
}

/// The node-ID of a text, by NodeID of its device commissioning.
pub(crate) fn node_id(sections: &[TextSection]) -> Option<u8>
    ensures { result ≡ node_id_in (map section_view sections.now) }
{
    let section = section_at(sections, SectionKind::DeviceCommissioning)?;
    node_id_of(&section.property(b"NodeID")?)
}
