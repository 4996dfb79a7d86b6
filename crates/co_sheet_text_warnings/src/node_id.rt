//! The node-ID that a device configuration file has for its node.

ghost use Rattle.std.specs.Prelude.{◌≡◌, map, option_to_list};
ghost use Rattle.co_sheet_text.specs.Views.{section_view};
ghost use Rattle.co_sheet_text_warnings.specs.NodeIds.{no_node_id};
ghost use Rattle.co_sheet_text_warnings.specs.ReadTexts.{own_node};

use co_sheet::section_at;
use co_sheet_text::{SectionKind, TextSection};

/// The node-ID that is given, or else the sections' own: the number of NodeID, where that is 1 to 127
/// (CiA 306, device commissioning).
pub fn own_node(node: Option<u8>, sections: &[TextSection]) -> Option<u8>
    ensures { result ≡ own_node node (map section_view sections.now) }
{
    if let Some(node_id) = node {
        return Some(node_id);
    }
    let Some(section) = section_at(sections, SectionKind::DeviceCommissioning) else {
        return None;
    };
    let Some(given) = section.property(b"NodeID") else {
        return None;
    };
    match given.number() {
        Some(number @ 1..=127) => Some(number as u8),
        _ => None,
    }
}

/// The line of a NodeID that is a number, but not 1 to 127 (CiA 306, device commissioning).
pub fn no_node_id(section: &TextSection) -> Option<usize>
    ensures { option_to_list result ≡ no_node_id (section_view section.now) section.now.kind }
{
    match section.kind {
        SectionKind::DeviceCommissioning => {
            let Some(given) = section.property(b"NodeID") else {
                return None;
            };
            match given.number() {
                Some(1..=127) | None => None,
                Some(_) => Some(given.line),
            }
        }
        _ => None,
    }
}
