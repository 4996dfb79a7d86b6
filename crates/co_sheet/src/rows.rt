//! The rows of a text: its objects, its entries, its sections, its dummies.

ghost use Rattle.std.specs.Prelude.{◌≡◌, ◌∷◌, ◌++◌, [], map, OnOk};
ghost use Rattle.std.specs.Option.{option_copied};
ghost use Rattle.co_sheet_text.specs.Properties.{number_at};
ghost use Rattle.co_sheet.specs.ObjectLists.{is_one_of};
ghost use Rattle.co_sheet.specs.Entries.{name_of};
ghost use Rattle.co_sheet.specs.Content.{section_names_in, rows_in_order, objects_in_order, dummies_in};
ghost use Rattle.co_sheet_text.specs.Views.{section_view};
ghost use Rattle.co_sheet.specs.SheetViews.{row_view, object_row_view, section_name_view};

use crate::sections::section_at;
use co_sheet_rows::{EntryRow, Object, Section};
use co_sheet_text::{SectionKind, TextSection};
use std::alloc::AllocError;

// ParameterName
pub(crate) fn name_of<'a>(section: &TextSection<'_, 'a>) -> Option<&'a [u8]>
    ensures { option_copied result ≡ name_of (section_view section.now) }
{
    let given = section.property(b"ParameterName")?;
    Some(given.value)
}

// puts rows in increasing key
pub(crate) fn sort_rows(rows: &mut Vec<EntryRow>) -> Result<(), AllocError>
    ensures { OnOk result
        (map row_view rows.new.items ≡ rows_in_order (map row_view rows.old.items)) }
{
    rows.sort_by_key(|row| (row.key.index, row.key.sub))?;
    Ok(())
}

// puts objects in increasing index
pub(crate) fn sort_objects(objects: &mut Vec<Object>) -> Result<(), AllocError>
    ensures { OnOk result (map object_row_view objects.new.items
        ≡ objects_in_order (map object_row_view objects.old.items)) }
{
    objects.sort_by_key(|object| object.index)?;
    Ok(())
}

// adds the section lines
pub(crate) fn add_section_names<'a>(
    names: &mut Vec<Section<'a>>,
    sections: &[TextSection<'_, 'a>],
) -> Result<(), AllocError>
    ensures { OnOk result (map section_name_view names.new.items
        ≡ map section_name_view names.old.items
        ++ section_names_in (map section_view sections.now)) }
{
    for section in sections {
        names.push(Section {
            name: section.name,
            line: section.line,
        })?;
    }
    Ok(())
}

// whether a section has 1 at a key
fn is_one_at(section: &TextSection, name: &[u8]) -> bool
    ensures { result ≡ is_one_of (1 ∷ []) (number_at name.now (section_view section.now)) }
{
    matches!(section.number_at(name), Some(1))
}

// which of the dummy entries 0002h to 0007h may be mapped
pub(crate) fn dummies(sections: &[TextSection]) -> [bool; 6]
    ensures { result ≡ dummies_in (map section_view sections.now) }
{
    let Some(usage) = section_at(sections, SectionKind::DummyUsage) else {
        return [false, false, false, false, false, false];
    };
    [
        is_one_at(usage, b"Dummy0002"),
        is_one_at(usage, b"Dummy0003"),
        is_one_at(usage, b"Dummy0004"),
        is_one_at(usage, b"Dummy0005"),
        is_one_at(usage, b"Dummy0006"),
        is_one_at(usage, b"Dummy0007"),
    ]
}
