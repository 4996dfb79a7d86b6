//! Parts of a document of JSON. Each function with a writer appends tokens. `Err`: out of memory;
//! some tokens may be there.

ghost use Rattle.std.specs.Prelude.{◌≡◌, ◌++◌, List, map, None, OnOk};
ghost use Rattle.co_sheet_text.specs.Views.{section_view};
ghost use Rattle.json.specs.Token.{Token};
ghost use Rattle.conode_json.specs.Members.{text_member};
ghost use Rattle.conode_show.specs.JsonForm.{
  limit_member,
  name_at,
  property_member,
  quantity_member,
  said_at_member,
  said_member,
  text_if,
  value_member,
  word_number,
};
ghost use Rattle.conode_show.specs.Members.{member_name};
ghost use Rattle.conode_show.specs.Parts.{part_tokens};
ghost use Rattle.conode_show_text.specs.Cells.{cell_text};
ghost use Rattle.conode_show_text.specs.Values.{type_of};
ghost use Rattle.co_sheet_text.specs.Sections.{property_at};

use crate::member::Member;
use co_sheet::section_at;
use co_sheet_text::{SectionKind, TextSection};
use co_value::Key;
use conode_json::{HasTokens, JsonWriter};
use conode_show_text::{
    Content, Meaning, entry_section, limit_in_type, push_content, section_word, type_of,
    value_number,
};
use std::alloc::{AllocError, Global};

/// A part of a document.
#[derive(Clone, Copy)]
pub(crate) enum Part<'p> {
    BeginObject,
    EndObject,
    EndArray,
    /// The beginning of a member that is an array.
    Array(Member),
    Flag(Member, bool),
    /// Words of the program.
    Text(Member, &'p str),
    /// A number, nothing for `None`.
    Number(Member, Option<i128>),
    /// The text of a property of this name, nothing if the section has none.
    Property(Member, &'static [u8], &'p TextSection<'p, 'p>),
    /// A property that is a value for this node-ID, nothing if there is none.
    Value(Member, &'static [u8], Option<u8>, &'p TextSection<'p, 'p>),
    /// A property that is a limit, nothing if there is none.
    Limit(Member, &'static [u8], &'p TextSection<'p, 'p>),
    /// What a cell of the lines has.
    Shown(Member, Option<u8>, Content<'p>),
    /// The same without a node-ID, nothing if the cell is empty.
    ShownIf(Member, Content<'p>),
    /// The value of an entry of the communication profile: its number, and its words.
    Said(Member, Meaning, Option<u8>, &'p TextSection<'p, 'p>),
    /// The value of a sub-index in the same way, nothing if it isn't there.
    SaidAt(Member, Meaning, Option<u8>, &'p [TextSection<'p, 'p>], Key),
    /// The name of an entry, nothing if it isn't there.
    NameAt(&'p [TextSection<'p, 'p>], Key),
}

/// The number of an entry's word, if it is known without `$NODEID`.
pub(crate) fn word_number(node: Option<u8>, section: &TextSection<'_, '_>) -> Option<i128>
    ensures { result ≡ word_number node (section_view section.now) }
{
    match section_word(node, section) {
        Some(word) if !word.relative => Some(word.number as i128),
        _ => None,
    }
}

#[tactic(auto, unfolding(crate::specs::JsonForm::property_member))]
fn put_property(
    alloc: Global,
    writer: &mut JsonWriter,
    member: Member,
    property: &[u8],
    section: &TextSection<'_, '_>,
) -> Result<(), AllocError>
    ensures { OnOk result (writer.new ≡ writer.old
        ++ property_member (member_name member) property.now (section_view section.now)) }
{
    match section.property(property) {
        Some(property) => writer.put_bytes(alloc, member.name(), property.value),
        None => Ok(()),
    }
}

// a value as the sheet has it, and its number, if it is one
#[tactic(auto, unfolding(crate::specs::JsonForm::quantity_member))]
fn put_quantity(
    alloc: Global,
    writer: &mut JsonWriter,
    member: Member,
    number: Option<i128>,
    value: &[u8],
) -> Result<(), AllocError>
    ensures { OnOk result
        (writer.new ≡ writer.old ++ quantity_member (member_name member) number value.now) }
{
    attempt!(writer.begin_object_of(member.name()));
    attempt!(writer.put_number_if(alloc, "number", number));
    attempt!(writer.put_bytes(alloc, "text", value));
    writer.end_object()
}

#[tactic(auto, unfolding(crate::specs::JsonForm::value_member))]
fn put_value(
    alloc: Global,
    writer: &mut JsonWriter,
    member: Member,
    node: Option<u8>,
    property: &[u8],
    section: &TextSection<'_, '_>,
) -> Result<(), AllocError>
    ensures { OnOk result (writer.new ≡ writer.old ++ value_member (member_name member) node
        (type_of (section_view section.now))
        (property_at property.now (section_view section.now))) }
{
    match section.property(property) {
        Some(property) => {
            let number = value_number(node, type_of(section), property.value);
            put_quantity(alloc, writer, member, number, property.value)
        }
        None => Ok(()),
    }
}

#[tactic(auto, unfolding(crate::specs::JsonForm::limit_member))]
fn put_limit(
    alloc: Global,
    writer: &mut JsonWriter,
    member: Member,
    property: &[u8],
    section: &TextSection<'_, '_>,
) -> Result<(), AllocError>
    ensures { OnOk result (writer.new ≡ writer.old ++ limit_member (member_name member)
        (type_of (section_view section.now))
        (property_at property.now (section_view section.now))) }
{
    match section.property(property) {
        Some(property) => {
            let number = limit_in_type(type_of(section), property.value);
            put_quantity(alloc, writer, member, number, property.value)
        }
        None => Ok(()),
    }
}

fn put_shown(
    alloc: Global,
    writer: &mut JsonWriter,
    member: Member,
    node: Option<u8>,
    content: &Content<'_>,
) -> Result<(), AllocError>
    ensures { OnOk result
        (writer.new ≡ writer.old
        ++ text_member (member_name member) (cell_text node content.now)) }
{
    let mut text = String::new(alloc);
    match push_content(&mut text, node, content) {
        Ok(()) => writer.put_text(member.name(), text.as_str()),
        Err(fault) => Err(fault),
    }
}

fn put_shown_if(
    alloc: Global,
    writer: &mut JsonWriter,
    member: Member,
    content: &Content<'_>,
) -> Result<(), AllocError>
    ensures { OnOk result
        (writer.new ≡ writer.old ++ text_if (member_name member) (cell_text None content.now)) }
{
    let mut text = String::new(alloc);
    attempt!(push_content(&mut text, None, content));
    if text.as_bytes().is_empty() {
        return Ok(());
    }
    writer.put_text(member.name(), text.as_str())
}

#[tactic(auto, unfolding(crate::specs::JsonForm::said_member))]
fn put_said<'p>(
    alloc: Global,
    writer: &mut JsonWriter,
    member: Member,
    meaning: Meaning,
    node: Option<u8>,
    section: &'p TextSection<'p, 'p>,
) -> Result<(), AllocError>
    ensures { OnOk result (writer.new ≡ writer.old
        ++ said_member (member_name member) meaning node (section_view section.entry.now)) }
{
    attempt!(writer.begin_object_of(member.name()));
    attempt!(writer.put_number_if(alloc, "number", word_number(node, section)));
    let words = Content::Said(meaning, section);
    attempt!(put_shown(alloc, writer, Member::Words, node, &words));
    writer.end_object()
}

#[tactic(auto, unfolding(crate::specs::JsonForm::said_at_member))]
fn put_said_at<'p>(
    alloc: Global,
    writer: &mut JsonWriter,
    member: Member,
    meaning: Meaning,
    node: Option<u8>,
    sections: &'p [TextSection<'p, 'p>],
    key: Key,
) -> Result<(), AllocError>
    ensures { OnOk result (writer.new ≡ writer.old
        ++ said_at_member (member_name member) meaning node
        (map section_view sections.entry.now) key) }
{
    match section_at(sections, SectionKind::SubIndex(key)) {
        Some(section) => put_said(alloc, writer, member, meaning, node, section),
        None => Ok(()),
    }
}

fn put_name_at(
    alloc: Global,
    writer: &mut JsonWriter,
    sections: &[TextSection],
    key: Key,
) -> Result<(), AllocError>
    ensures { OnOk result
        (writer.new ≡ writer.old ++ name_at (map section_view sections.now) key) }
{
    match entry_section(sections, key) {
        Some(section) => put_property(alloc, writer, Member::Name, b"ParameterName", section),
        None => Ok(()),
    }
}

impl HasTokens for Part<'_> {
    ghost tokens_of = { part_tokens };

    fn put(&self, alloc: Global, writer: &mut JsonWriter) -> Result<(), AllocError> {
        match *self {
            Part::BeginObject => writer.begin_object(),
            Part::EndObject => writer.end_object(),
            Part::EndArray => writer.end_array(),
            Part::Array(member) => writer.begin_array_of(member.name()),
            Part::Flag(member, is) => writer.put_flag(member.name(), is),
            Part::Text(member, words) => writer.put_text(member.name(), words),
            Part::Number(member, number) => writer.put_number_if(alloc, member.name(), number),
            Part::Property(member, name, section) => {
                put_property(alloc, writer, member, name, section)
            }
            Part::Value(member, name, node, section) => {
                put_value(alloc, writer, member, node, name, section)
            }
            Part::Limit(member, name, section) => put_limit(alloc, writer, member, name, section),
            Part::Shown(member, node, content) => put_shown(alloc, writer, member, node, &content),
            Part::ShownIf(member, content) => put_shown_if(alloc, writer, member, &content),
            Part::Said(member, meaning, node, section) => {
                put_said(alloc, writer, member, meaning, node, section)
            }
            Part::SaidAt(member, meaning, node, sections, key) => {
                put_said_at(alloc, writer, member, meaning, node, sections, key)
            }
            Part::NameAt(sections, key) => put_name_at(alloc, writer, sections, key),
        }
    }
}
