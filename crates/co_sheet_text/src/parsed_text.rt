//! The sections of a text, with one list of their properties.

ghost use Rattle.std.specs.Prelude.{◌≡◌, length, map, IfOk};
ghost use Rattle.co_sheet_text.specs.Cuts.{cut, property_count};
ghost use Rattle.co_sheet_text.specs.Views.{section_view};

use crate::header::Header;
use crate::text_section::{Property, TextSection};
use std::alloc::{AllocError, Global};
use std::marker::Model;

/// The sections of a text. The properties of all of them are in one list, so that no section has
/// memory of its own. Contracts see the sections.
#[derive(Drop)]
pub struct ParsedText<'a> {
    pub(crate) headers: Vec<Header<'a>>,
    pub(crate) properties: Vec<Property<'a>>,
}

impl<'a> Model for ParsedText<'a> {
    ghost use Rattle.std.specs.Prelude.{◌≡◌, List, length};
    ghost use Rattle.co_sheet_text.specs.Sections.{TextSection};
    ghost use Rattle.co_sheet_text.specs.Cuts.{cut, property_count};

    ghost Value = { List TextSection };

    ghost view = { λ t. cut t.headers.items t.properties.items };

    ghost invariant = { λ t. property_count t.headers.items ≡ length t.properties.items };
}

impl<'a> ParsedText<'a> {
    /// The sections in their order, each with its part of the list. It allocates once; `Err`: out
    /// of memory.
    pub fn sections(&self, alloc: Global) -> Result<Vec<TextSection<'_, 'a>>, AllocError>
        ensures { IfOk result (λ sections. map section_view sections.items ≡ self.now) }
    {
        cut(alloc, self.headers.as_slice(), self.properties.as_slice())
    }
}

// each section with its part of the properties
fn cut<'s, 'a>(
    alloc: Global,
    headers: &[Header<'a>],
    properties: &'s [Property<'a>],
) -> Result<Vec<TextSection<'s, 'a>>, AllocError>
    requires { property_count headers.now ≡ length properties.now }
    ensures { IfOk result (λ sections.
        map section_view sections.items ≡ cut headers.now properties.now) }
{
    let mut sections = Vec::with_capacity(alloc, headers.len())?;
    let mut first = 0;
    for header in headers {
        let end = first + header.count;
        sections.push_reserved(TextSection {
            kind: header.kind,
            name: header.name,
            line: header.line,
            properties: &properties[first..end],
        });
        first = end;
    }
    Ok(sections)
}
