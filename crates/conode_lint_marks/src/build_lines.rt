//! The lines of a sheet's text that build faults are about.

ghost use Rattle.std.specs.Prelude.{◌≡◌, map};
ghost use Rattle.co_sheet.specs.SheetViews.{object_row_view, row_view};
ghost use Rattle.co_sheet_text.specs.Views.{section_view};
ghost use Rattle.conode_lint_marks.specs.BuildLines.{
  build_line,
  entry_line,
  object_line,
  row_line,
  value_line,
  value_line_in,
};

use co_dict_build::BuildFault;
use co_sheet::{EntryRow, Object, Sheet};
use co_sheet_text::TextSection;
use co_sheet_warnings::value_in;
use co_value::Key;

// the line of an object's section; 0 if there is none
fn object_line(objects: &[Object<'_>], index: u16) -> usize
    ensures { result ≡ object_line (map object_row_view objects.now) index }
{
    for object in objects {
        if object.index == index {
            return object.line;
        }
    }
    0
}

// the line of an entry's section
fn row_line(entries: &[EntryRow<'_>], key: Key) -> Option<usize>
    ensures { result ≡ row_line (map row_view entries.now) key }
{
    for entry in entries {
        if entry.key == key {
            return Some(entry.line);
        }
    }
    None
}

/// The line of a section's value, or the section's own.
#[tactic(auto, unfolding(crate::specs::BuildLines::value_line))]
pub(crate) fn value_line(section: &TextSection<'_, '_>) -> usize
    ensures { result ≡ value_line (section_view section.now) }
{
    match value_in(section) {
        Some(property) => property.line,
        None => section.line,
    }
}

fn value_line_in(sections: &[TextSection<'_, '_>], line: usize) -> usize
    ensures { result ≡ value_line_in (map section_view sections.now) line }
{
    for section in sections {
        if section.line == line {
            return value_line(section);
        }
    }
    line
}

/// The line of an entry's value; for a missing entry, that of its object's section.
#[tactic(auto, unfolding(crate::specs::BuildLines::entry_line))]
pub(crate) fn entry_line(sheet: &Sheet<'_>, sections: &[TextSection<'_, '_>], key: Key) -> usize
    ensures { result ≡ entry_line sheet.now (map section_view sections.now) key }
{
    match row_line(sheet.entries(), key) {
        Some(line) => value_line_in(sections, line),
        None => object_line(sheet.objects(), key.index),
    }
}

/// The line that a build fault is about; 0 if no line is to blame.
pub(crate) fn build_line(
    sheet: &Sheet<'_>,
    sections: &[TextSection<'_, '_>],
    fault: BuildFault,
) -> usize
    ensures { result ≡ build_line sheet.now (map section_view sections.now) fault }
{
    match fault {
        BuildFault::ValueRange(key) | BuildFault::BadCobId(key) | BuildFault::BadMapping(key) => {
            entry_line(sheet, sections, key)
        }
        BuildFault::PdoPair(index) => object_line(sheet.objects(), index),
        BuildFault::NodeId | BuildFault::TooMany | BuildFault::Memory => 0,
    }
}
