//! The sections of a sheet, with their original types if the sheet was adapted.

ghost use Rattle.std.specs.Prelude.{◌≡◌, [], ◌∷◌, ◌++◌, map, IfOk, OnOk};
ghost use Rattle.std.specs.Option.{option_copied};
ghost use Rattle.co_sheet_changes.specs.Originals.{original_at};
ghost use Rattle.co_sheet_changes.specs.Views.{text_at};
ghost use Rattle.co_sheet_text.specs.Views.{property_view, section_view};
ghost use Rattle.conode_show.specs.Shown.{properties_with, retyped, retyped_property};
ghost use Rattle.conode_show.specs.Retyped.{retyped_view};

use co_sheet_changes::Originals;
use co_sheet_text::{Property, SectionKind, TextSection, same_name};
use std::alloc::{AllocError, Global};

fn retyped_property<'a>(code: &'static [u8], property: &Property<'a>) -> Property<'a>
    ensures { property_view result ≡ retyped_property code.now (property_view property.now) }
{
    if same_name(property.name, b"DataType") {
        Property {
            name: property.name,
            value: code,
            line: property.line,
        }
    } else {
        *property
    }
}

// the properties of a section, with the code of its original type, if it has one
fn properties_with<'a>(
    alloc: Global,
    code: Option<&'static [u8]>,
    properties: &[Property<'a>],
) -> Result<Vec<Property<'a>>, AllocError>
    ensures { IfOk result (λ made. map property_view made.items
        ≡ properties_with (option_copied code.entry) (map property_view properties.now)) }
{
    let mut made = Vec::new(alloc);
    for property in properties {
        attempt_in_memory!(made.push(match code {
            Some(code) => retyped_property(code, property),
            None => *property,
        }));
    }
    Ok(made)
}

/// A section with properties of its own.
pub(crate) struct Retyped<'a> {
    pub(crate) kind: SectionKind,
    pub(crate) name: &'a [u8],
    pub(crate) line: usize,
    pub(crate) properties: Vec<Property<'a>>,
}

// One call wherever it is dropped, in place of a drop of its list.
impl Drop for Retyped<'_> {
    fn drop(self) {
        let Retyped {
            kind: _,
            name: _,
            line: _,
            properties,
        } = self;
        drop(properties);
    }
}

impl<'a> Retyped<'a> {
    fn section(&self) -> TextSection<'_, 'a>
        ensures { section_view result ≡ retyped_view self.now }
    {
        TextSection {
            kind: self.kind,
            name: self.name,
            line: self.line,
            properties: self.properties.as_slice(),
        }
    }
}

// appends a section with its original type
fn push_retyped<'a>(
    made: &mut Vec<Retyped<'a>>,
    alloc: Global,
    originals: &Originals,
    section: &TextSection<'_, 'a>,
) -> Result<(), AllocError>
    ensures { OnOk result (map retyped_view made.new.items ≡ map retyped_view made.old.items
        ++ retyped (text_at originals.now) (section_view section.now) ∷ []) }
{
    match properties_with(alloc, originals.at(section.line), section.properties) {
        Ok(properties) => {
            made.push(Retyped {
                kind: section.kind,
                name: section.name,
                line: section.line,
                properties,
            })?;
            Ok(())
        }
        Err(fault) => Err(fault),
    }
}

/// Sections with their original types. `Err`: out of memory.
pub(crate) fn all_retyped<'a>(
    alloc: Global,
    originals: &Originals,
    sections: &[TextSection<'_, 'a>],
) -> Result<Vec<Retyped<'a>>, AllocError>
    ensures { IfOk result (λ made. map retyped_view made.items
        ≡ map (retyped (text_at originals.now)) (map section_view sections.now)) }
{
    let mut made = Vec::new(alloc);
    for section in sections {
        attempt!(push_retyped(&mut made, alloc, originals, section));
    }
    Ok(made)
}

/// These as sections. `Err`: out of memory.
pub(crate) fn sections_in<'r, 'a>(
    alloc: Global,
    retyped: &'r [Retyped<'a>],
) -> Result<Vec<TextSection<'r, 'a>>, AllocError>
    ensures { IfOk result (λ made.
        map section_view made.items ≡ map retyped_view retyped.entry.now) }
{
    let mut made = Vec::new(alloc);
    for one in retyped {
        attempt_in_memory!(made.push(one.section()));
    }
    Ok(made)
}
