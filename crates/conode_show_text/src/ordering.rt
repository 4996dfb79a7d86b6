//! The sections of a sheet in the order of the object dictionary.

ghost use Rattle.std.specs.Prelude.{◌≡◌, map, OnOk};
ghost use Rattle.co_sheet_text.specs.Views.{section_view};
ghost use Rattle.conode_show_text.specs.Document.{ordered, rank};

use co_sheet_text::{SectionKind, TextSection};
use std::alloc::{AllocError, Global};

// the place of a section among others: by index, an object before its sub-indices
fn rank(kind: SectionKind) -> u32
    ensures { result ≡ rank kind }
{
    match kind {
        SectionKind::Object(index) => 257 * index as u32,
        SectionKind::SubIndex(key) => 257 * key.index as u32 + key.sub as u32 + 1,
        _ => 0,
    }
}

/// Orders sections: by index, an object before its sub-indices. `Err`: out of memory.
pub fn order(alloc: Global, sections: &mut [TextSection]) -> Result<(), AllocError>
    ensures { OnOk result
        (map section_view sections.new ≡ ordered (map section_view sections.old)) }
{
    attempt!(sections.sort_by_key(alloc, |section| rank(section.kind)));
    Ok(())
}
