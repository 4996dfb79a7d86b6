//! A line by its cells. Each function appends to a text. `Err`: out of memory; a part may be there.

ghost use Rattle.std.specs.Prelude.{◌≡◌, ◌++◌, map, OnOk, string_bytes};
ghost use Rattle.conode_show_text.specs.Cells.{cell_part, cell_text};
ghost use Rattle.conode_show_text.specs.Layout.{line_of};

use crate::entries::type_text;
use crate::format::Format;
use crate::layout::{begin, place};
use crate::meaning::{Meaning, push_said};
use crate::pdos::pdo_name;
use crate::phrase::{Piece, push_phrase};
use crate::service::{Service, service_name};
use crate::texts::property_text;
use crate::values::{limits, push_default, push_value};
use co_sheet_text::TextSection;
use co_text::push_u16;
use co_value::Key;
use conode_text::HasText;
use std::alloc::AllocError;

/// What a cell has.
#[derive(Clone, Copy)]
pub enum Content<'p> {
    Nothing,
    Words(&'static str),
    Key(Key),
    Index(u16),
    /// A text of the sheet, nothing if the section has none.
    Property(&'static [u8], &'p TextSection<'p, 'p>),
    /// The type of an entry.
    TypeOf(&'p TextSection<'p, 'p>),
    /// Words, and the value at a name of a section, nothing after them if it has none.
    Value(&'static str, &'static [u8], &'p TextSection<'p, 'p>),
    /// The value of a device configuration file, and the default.
    Default(&'p TextSection<'p, 'p>),
    Limits(&'p TextSection<'p, 'p>),
    /// The name of a PDO, by the index of its communication parameter.
    Pdo(u16),
    Service(Service),
    /// The value of an entry in words.
    Said(Meaning, &'p TextSection<'p, 'p>),
}

/// A cell of a line: the column where it begins, and what it has.
#[derive(Clone, Copy)]
pub(crate) struct Cell<'p>(pub(crate) usize, pub(crate) Content<'p>);

/// Appends what a cell has.
pub fn push_content(
    text: &mut String,
    node: Option<u8>,
    content: &Content<'_>,
) -> Result<(), AllocError>
    ensures { OnOk result
        (string_bytes text.new ≡ string_bytes text.old ++ cell_text node content.now) }
{
    match *content {
        Content::Nothing => Ok(()),
        Content::Words(words) => text.push_str(words),
        Content::Key(key) => Piece::Key(key).push(text),
        Content::Index(index) => push_u16(text, index),
        Content::Property(name, section) => property_text(section, name).push(text),
        Content::TypeOf(section) => type_text(section).push(text),
        Content::Value(before, name, section) => push_value(text, node, before, section, name),
        Content::Default(section) => push_default(text, node, section),
        Content::Limits(section) => push_phrase(text, &limits(section)),
        Content::Pdo(index) => push_phrase(text, &pdo_name(index)),
        Content::Service(service) => push_phrase(text, &service_name(service)),
        Content::Said(meaning, section) => push_said(text, meaning, node, section),
    }
}

/// Makes a line; `part` is for each of its cells in turn.
pub(crate) fn fill_line(
    line: &mut Vec<u8>,
    part: &mut String,
    format: Format,
    node: Option<u8>,
    cells: &[Cell<'_>],
) -> Result<(), AllocError>
    ensures { OnOk result (line.new.items ≡ line_of format (map (cell_part node) cells.now)) }
{
    attempt!(begin(line, format));
    for cell in cells {
        part.clear();
        attempt!(push_content(part, node, &cell.1));
        attempt!(place(line, format, cell.0, part.as_bytes()));
    }
    attempt_in_memory!(line.push(b'\n'));
    Ok(())
}

/// Appends a line, which it makes in `line`.
pub(crate) fn push_line(
    text: &mut Vec<u8>,
    line: &mut Vec<u8>,
    part: &mut String,
    format: Format,
    node: Option<u8>,
    cells: &[Cell<'_>],
) -> Result<(), AllocError>
    ensures { OnOk result (text.new.items
        ≡ text.old.items ++ line_of format (map (cell_part node) cells.now)) }
{
    attempt!(fill_line(line, part, format, node, cells));
    text.extend_from_slice(line.as_slice())
}
