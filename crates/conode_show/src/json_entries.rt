//! Entries and objects as objects of JSON.

ghost use Rattle.std.specs.Prelude.{map};
ghost use Rattle.co_sheet_text.specs.Views.{section_view};
ghost use Rattle.conode_show.specs.JsonForm.{
  entry_begin,
  entry_tokens,
  object_tokens,
  section_tokens,
};
ghost use Rattle.conode_text.specs.Appended.{Appended};

use crate::member::Member;
use crate::parts::Part;
use co_sheet_text::{SectionKind, TextSection};
use co_value::Key;
use conode_json::Document;
use conode_show_text::{Content, compound_type, has_sub_indices, is_mappable};

// an entry before its values: its key, name, type and access
#[tactic(auto, unfolding(crate::specs::JsonForm::entry_begin))]
fn begin_entry<'p>(document: &mut Document, key: Key, section: &'p TextSection<'p, 'p>)
    ensures { Appended document.old (entry_begin key (section_view section.entry.now))
        document.new }
{
    document.put(&[
        Part::BeginObject,
        Part::Number(Member::Index, Some(key.index as i128)),
        Part::Number(Member::SubIndex, Some(key.sub as i128)),
        Part::Property(Member::Name, b"ParameterName", section),
        Part::ShownIf(Member::Type, Content::TypeOf(section)),
        Part::Property(Member::Access, b"AccessType", section),
    ]);
}

fn put_entry<'p>(
    document: &mut Document,
    node: Option<u8>,
    key: Key,
    section: &'p TextSection<'p, 'p>,
)
    ensures { Appended document.old (entry_tokens node key (section_view section.entry.now))
        document.new }
{
    begin_entry(document, key, section);
    document.put(&[
        Part::Value(Member::Default, b"DefaultValue", node, section),
        Part::Value(Member::Value, b"ParameterValue", node, section),
        Part::Limit(Member::Low, b"LowLimit", section),
        Part::Limit(Member::High, b"HighLimit", section),
        Part::Flag(Member::Mappable, is_mappable(section)),
        Part::EndObject,
    ]);
}

// an object with sub-indices
#[tactic(auto, unfolding(crate::specs::JsonForm::object_tokens))]
fn put_object<'p>(document: &mut Document, index: u16, section: &'p TextSection<'p, 'p>)
    ensures { Appended document.old (object_tokens index (section_view section.entry.now))
        document.new }
{
    document.put(&[
        Part::BeginObject,
        Part::Number(Member::Index, Some(index as i128)),
        Part::Property(Member::Name, b"ParameterName", section),
        Part::ShownIf(Member::Type, compound_type(section)),
        Part::EndObject,
    ]);
}

/// Appends an entry or an object; nothing for any other section.
#[tactic(auto, using(conode_text::proofs::Appending::nothing))]
pub(crate) fn put_section<'p>(
    document: &mut Document,
    node: Option<u8>,
    sections: &'p [TextSection<'p, 'p>],
    section: &'p TextSection<'p, 'p>,
)
    ensures { Appended document.old (section_tokens node (map section_view sections.entry.now)
        (section_view section.entry.now)) document.new }
{
    match section.kind {
        SectionKind::Object(index) if has_sub_indices(sections, index, section) => {
            put_object(document, index, section);
        }
        SectionKind::Object(index) => put_entry(document, node, Key { index, sub: 0 }, section),
        SectionKind::SubIndex(key) => put_entry(document, node, key, section),
        _ => {}
    }
}
