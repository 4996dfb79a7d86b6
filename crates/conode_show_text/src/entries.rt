//! The lines of entries and objects (CiA 306, object description).

ghost use Rattle.std.specs.Prelude.{◌≡◌, ◌++◌, ℕ, None, Option, OnOk, codes, flat_map, map};
ghost use Rattle.co_sheet_text.specs.Views.{section_view};
ghost use Rattle.conode_show_text.specs.Entries.{
  begins_object,
  compound_type,
  entries_head,
  entry_line,
  entry_parts,
  entry_type,
  has_sub_index,
  has_sub_indices,
  heading_with,
  index_end,
  is_mappable,
  is_of_key,
  is_of_object,
  is_split,
  is_sub_index,
  lines_of,
  object_heading,
  object_line,
  section_text,
  sub_heading,
  two_lines,
  type_text,
};
ghost use Rattle.conode_text.specs.Appended.{Appended};
ghost use Rattle.conode_show_text.specs.declared.format.Format.TheVariants.{Markdown};
ghost use Rattle.conode_show_text.specs.Cells.{cell_text};
ghost use Rattle.conode_show_text.specs.Layout.{line_of};
ghost use Rattle.conode_show_text.specs.Phrases.{piece_text};

use crate::cells::{Cell, Content, fill_line, push_content, push_line};
use crate::format::Format;
use crate::layout::{columns, push_cell};
use crate::numbers::words_if;
use crate::page::Page;
use crate::phrase::Piece;
use crate::sections::object_code;
use crate::texts::property_text;
use crate::type_names::type_name;
use crate::values::has_both;
use co_sheet_text::{SectionKind, TextSection};
use co_text::word_digits;
use co_value::Key;
use std::alloc::AllocError;

fn is_sub_index(index: u16, kind: SectionKind) -> bool
    ensures { result ≡ is_sub_index index kind }
{
    match kind {
        SectionKind::SubIndex(key) => key.index == index,
        _ => false,
    }
}

// whether one of the sections is that of a sub-index of an object
fn has_sub_index(index: u16, sections: &[TextSection]) -> bool
    ensures { result ≡ has_sub_index index (map section_view sections.now) }
{
    for section in sections {
        if is_sub_index(index, section.kind) {
            return true;
        }
    }
    false
}

/// Whether an object's entries have sections of their own: it is an ARRAY or a RECORD. If ObjectType
/// is there and is no number, the sections say so; without it the object is a VAR (CiA 306).
pub fn has_sub_indices(sections: &[TextSection], index: u16, section: &TextSection<'_, '_>) -> bool
    ensures { result
        ≡ has_sub_indices (map section_view sections.now) index (section_view section.now) }
{
    match object_code(section) {
        Some(code) => code == 8 || code == 9,
        // each section is looked at: only for a sheet's faults
        None => has_sub_index(index, sections),
    }
}

// the type of an entry
#[tactic(auto, unfolding(crate::specs::Entries::entry_type))]
fn entry_type<'a>(section: &TextSection<'_, 'a>) -> Piece<'a>
    ensures { piece_text result ≡ entry_type (section_view section.now) }
{
    let Some(property) = section.property(b"DataType") else {
        return match object_code(section) {
            Some(2) => Piece::Words("DOMAIN"),
            Some(_) => Piece::Nothing,
            None => property_text(section, b"ObjectType"),
        };
    };
    match property.number() {
        Some(code) => type_name(code),
        None => Piece::Plain(property.value),
    }
}

/// The type of an entry, also of one whose object code is that of an ARRAY or a RECORD.
#[tactic(auto, unfolding(crate::specs::Entries::type_text))]
pub(crate) fn type_text<'a>(section: &TextSection<'_, 'a>) -> Piece<'a>
    ensures { piece_text result ≡ type_text (section_view section.now) }
{
    match object_code(section) {
        Some(8) => Piece::Words("ARRAY"),
        Some(9) => Piece::Words("RECORD"),
        _ => entry_type(section),
    }
}

/// The type of an object with sub-indices: an ObjectType that is no number, as `RECORD`, as it is.
pub fn compound_type<'p>(section: &'p TextSection<'p, 'p>) -> Content<'p>
    ensures { (node : Option ℕ) → cell_text node result
        ≡ compound_type (section_view section.entry.now) }
{
    match object_code(section) {
        Some(8) => Content::Words("ARRAY"),
        Some(9) => Content::Words("RECORD"),
        _ => Content::Property(b"ObjectType", section),
    }
}

/// Whether the entry may be mapped into a PDO.
pub fn is_mappable(section: &TextSection<'_, '_>) -> bool
    ensures { result ≡ is_mappable (section_view section.now) }
{
    !matches!(section.number_at(b"PDOMapping"), None | Some(0))
}

#[tactic(auto, unfolding(crate::specs::Entries::mappable_text))]
fn fill_entry<'p>(
    line: &mut Vec<u8>,
    part: &mut String,
    format: Format,
    node: Option<u8>,
    value: Content<'p>,
    key: Key,
    section: &'p TextSection<'p, 'p>,
) -> Result<(), AllocError>
    ensures { OnOk result (line.new.items ≡ line_of format
        (entry_parts (cell_text node value.entry) key (section_view section.entry.now))) }
{
    fill_line(
        line,
        part,
        format,
        node,
        &[
            Cell(0, Content::Key(key)),
            Cell(8, Content::Property(b"ParameterName", section)),
            Cell(38, Content::TypeOf(section)),
            Cell(53, Content::Property(b"AccessType", section)),
            Cell(60, Content::Words(words_if(is_mappable(section), "PDO"))),
            Cell(64, value),
            Cell(87, Content::Limits(section)),
        ],
    )
}

// whether the value and the default of an entry are on two lines
fn is_split(format: Format, section: &TextSection<'_, '_>, line: &[u8]) -> bool
    ensures { result ≡ is_split format (section_view section.now) line.now }
{
    match format {
        Format::Text => has_both(section) && 101 < columns(line),
        Format::Markdown => false,
    }
}

// an entry whose default is below its value
#[tactic(auto, unfolding(crate::specs::Entries::two_lines))]
fn push_two_lines<'p>(
    text: &mut Vec<u8>,
    line: &mut Vec<u8>,
    part: &mut String,
    node: Option<u8>,
    key: Key,
    section: &'p TextSection<'p, 'p>,
) -> Result<(), AllocError>
    ensures { OnOk result (text.new.items
        ≡ text.old.items ++ two_lines node key (section_view section.entry.now)) }
{
    let value = Content::Value("", b"ParameterValue", section);
    let default = Content::Value("default ", b"DefaultValue", section);
    attempt!(fill_entry(line, part, Format::Text, node, value, key, section));
    attempt!(text.extend_from_slice(line.as_slice()));
    push_line(text, line, part, Format::Text, node, &[Cell(64, default)])
}

/// Appends the lines of an entry. `Err`: out of memory; a part of them may be there.
#[tactic(auto, unfolding(crate::specs::Entries::entry_line, crate::specs::Entries::one_line))]
pub(crate) fn push_entry_line<'p>(
    text: &mut Vec<u8>,
    line: &mut Vec<u8>,
    part: &mut String,
    format: Format,
    node: Option<u8>,
    key: Key,
    section: &'p TextSection<'p, 'p>,
) -> Result<(), AllocError>
    ensures { OnOk result (text.new.items
        ≡ text.old.items ++ entry_line format node key (section_view section.entry.now)) }
{
    attempt!(fill_entry(
        line,
        part,
        format,
        node,
        Content::Default(section),
        key,
        section
    ));
    if is_split(format, section, line.as_slice()) {
        push_two_lines(text, line, part, node, key, section)
    } else {
        text.extend_from_slice(line.as_slice())
    }
}

/// The head of an object's table in Markdown, after its heading.
const TABLE_HEAD: &[u8] =
    b"\n\n| Entry | Name | Type | Access | PDO | Default | Limits |\n| --- | --- | --- | --- | --- | --- | --- |\n";

fn push_all(text: &mut Vec<u8>, parts: &[&str]) -> Result<(), AllocError>
    ensures { OnOk result
        (text.new.items ≡ text.old.items ++ flat_map (λ part. part.now) parts.now) }
{
    for part in parts {
        attempt!(text.extend_from_slice(part.as_bytes()));
    }
    Ok(())
}

fn index_end(name: &str) -> &'static str
    ensures { result.now ≡ index_end name.now }
{
    if name.is_empty() { "h" } else { "h " }
}

/// Appends the heading of an object in Markdown, with this name, and the head of its table. `Err`:
/// out of memory; a part of it may be there.
pub(crate) fn push_heading(
    text: &mut Vec<u8>,
    part: &mut String,
    index: u16,
    name: &Content<'_>,
) -> Result<(), AllocError>
    ensures { OnOk result (text.new.items ≡ text.old.items
        ++ heading_with index (cell_text None name.now) ++ codes "\n\n" ++ entries_head Markdown) }
{
    part.clear();
    attempt!(push_content(part, None, name));
    let end = index_end(part.as_str());
    attempt!(push_all(text, &["\n### ", word_digits(index).as_str(), end]));
    attempt!(push_cell(text, part.as_bytes()));
    text.extend_from_slice(TABLE_HEAD)
}

// in Markdown the heading of an object
#[tactic(auto, using(conode_text::proofs::Appending::nothing), unfolding(crate::specs::Entries::object_heading))]
fn put_heading<'p>(page: &mut Page, format: Format, index: u16, section: &'p TextSection<'p, 'p>)
    ensures { Appended page.old (object_heading format index (section_view section.entry.now))
        page.new }
{
    let Format::Markdown = format else {
        return;
    };
    page.put_heading(index, &Content::Property(b"ParameterName", section));
}

fn is_of_object(index: u16, kind: SectionKind) -> bool
    ensures { result ≡ is_of_object index kind }
{
    match kind {
        SectionKind::Object(other) => other == index,
        _ => is_sub_index(index, kind),
    }
}

fn is_of_key(key: Key, kind: SectionKind) -> bool
    ensures { result ≡ is_of_key key kind }
{
    match kind {
        SectionKind::SubIndex(other) => other.index == key.index && other.sub == key.sub,
        _ => false,
    }
}

// whether a sub-index comes first of its object, which then has no section
fn begins_object(key: Key, sections: &[TextSection]) -> bool
    ensures { result ≡ begins_object key (map section_view sections.now) }
{
    for section in sections {
        if is_of_object(key.index, section.kind) {
            return is_of_key(key, section.kind);
        }
    }
    false
}

// in Markdown the heading of an object without a section, before its first sub-index
#[tactic(auto, using(conode_text::proofs::Appending::nothing))]
fn put_sub_heading(page: &mut Page, format: Format, key: Key, sections: &[TextSection])
    ensures { Appended page.old (sub_heading format key (map section_view sections.now)) page.new }
{
    let Format::Markdown = format else {
        return;
    };
    if !begins_object(key, sections) {
        return;
    }
    page.put_heading(key.index, &Content::Nothing);
}

// an object with sub-indices
#[tactic(auto, unfolding(crate::specs::Entries::object_line))]
fn put_object_line<'p>(
    page: &mut Page,
    format: Format,
    index: u16,
    section: &'p TextSection<'p, 'p>,
)
    ensures { Appended page.old (object_line format index (section_view section.entry.now))
        page.new }
{
    page.put_line(
        format,
        None,
        &[
            Cell(0, Content::Index(index)),
            Cell(8, Content::Property(b"ParameterName", section)),
            Cell(38, compound_type(section)),
            Cell(53, Content::Nothing),
            Cell(60, Content::Nothing),
            Cell(64, Content::Nothing),
            Cell(87, Content::Nothing),
        ],
    );
}

// an object with sub-indices, or else its entry
fn put_lines<'p>(
    page: &mut Page,
    format: Format,
    node: Option<u8>,
    sections: &'p [TextSection<'p, 'p>],
    index: u16,
    section: &'p TextSection<'p, 'p>,
)
    ensures { Appended page.old (lines_of format node (map section_view sections.entry.now) index
        (section_view section.entry.now)) page.new }
{
    if has_sub_indices(sections, index, section) {
        put_object_line(page, format, index, section);
    } else {
        page.put_entry(format, node, Key { index, sub: 0 }, section);
    }
}

/// Appends the lines of a section: an object with sub-indices, or else its entry; or the entry of a
/// sub-index.
#[tactic(auto, using(conode_text::proofs::Appending::nothing))]
pub(crate) fn put_section<'p>(
    page: &mut Page,
    format: Format,
    node: Option<u8>,
    sections: &'p [TextSection<'p, 'p>],
    section: &'p TextSection<'p, 'p>,
)
    ensures { Appended page.old (section_text format node
        (map section_view sections.entry.now) (section_view section.entry.now)) page.new }
{
    match section.kind {
        SectionKind::Object(index) => {
            put_heading(page, format, index, section);
            put_lines(page, format, node, sections, index, section);
        }
        SectionKind::SubIndex(key) => {
            put_sub_heading(page, format, key, sections);
            page.put_entry(format, node, key, section);
        }
        _ => {}
    }
}
