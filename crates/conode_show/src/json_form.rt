//! The object dictionary of a sheet as one document of JSON (RFC 8259).

ghost use Rattle.std.specs.Prelude.{◌≡◌, map, option_map, pos, IfOk};
ghost use Rattle.co_sheet_text.specs.Views.{section_view};
ghost use Rattle.conode_show.specs.JsonForm.{
  chapter_member,
  chapter_name,
  chapter_tokens,
  document_tokens,
  json_document,
  json_reason,
};
ghost use Rattle.conode_show.specs.Members.{member_name};
ghost use Rattle.conode_text.specs.Appended.{Appended};

use crate::json_entries::put_section;
use crate::json_pdos::put_pdo;
use crate::json_services::put_service;
use crate::member::Member;
use crate::parts::Part;
use co_sheet_text::TextSection;
use conode_json::Document;
use conode_show_text::Chapter;
use std::alloc::{AllocError, Global};

// the member that a chapter is
fn chapter_of(chapter: Chapter) -> Member
    ensures { member_name result ≡ chapter_name chapter }
{
    match chapter {
        Chapter::Entries => Member::Entries,
        Chapter::Pdos => Member::Pdos,
        Chapter::Services => Member::Services,
    }
}

// what a chapter has for a section
fn put_tokens<'p>(
    document: &mut Document,
    chapter: Chapter,
    node: Option<u8>,
    sections: &'p [TextSection<'p, 'p>],
    section: &'p TextSection<'p, 'p>,
)
    ensures { Appended document.old
        (chapter_tokens chapter node (map section_view sections.entry.now)
        (section_view section.entry.now)) document.new }
{
    match chapter {
        Chapter::Entries => put_section(document, node, sections, section),
        Chapter::Pdos => put_pdo(document, node, sections, section),
        Chapter::Services => put_service(document, node, section),
    }
}

fn put_chapter<'p>(
    document: &mut Document,
    chapter: Chapter,
    node: Option<u8>,
    sections: &'p [TextSection<'p, 'p>],
)
    ensures { Appended document.old
        (chapter_member chapter node (map section_view sections.entry.now)) document.new }
{
    document.put(&[Part::Array(chapter_of(chapter))]);
    for section in sections {
        put_tokens(document, chapter, node, sections, section);
    }
    document.put(&[Part::EndArray]);
}

fn node_number(node: Option<u8>) -> Option<i128>
    ensures { result ≡ option_map pos node }
{
    match node {
        Some(node_id) => Some(node_id as i128),
        None => None,
    }
}

fn put_document<'p>(document: &mut Document, node: Option<u8>, sections: &'p [TextSection<'p, 'p>])
    ensures { Appended document.old (document_tokens node (map section_view sections.entry.now))
        document.new }
{
    document.put(&[
        Part::BeginObject,
        Part::Number(Member::Version, Some(1)),
        Part::Number(Member::Node, node_number(node)),
    ]);
    put_chapter(document, Chapter::Entries, node, sections);
    put_chapter(document, Chapter::Pdos, node, sections);
    put_chapter(document, Chapter::Services, node, sections);
    document.put(&[Part::EndObject]);
}

/// The object dictionary of sections in order, as a JSON document. `Err`: out of memory.
pub(crate) fn json_document(
    alloc: Global,
    node: Option<u8>,
    sections: &[TextSection],
) -> Result<Vec<u8>, AllocError>
    ensures { IfOk result
        (λ text. text.items ≡ json_document node (map section_view sections.now)) }
{
    let mut document = Document::new(alloc);
    put_document(&mut document, node, sections);
    document.into_text()
}

/// Why a text isn't shown, as a JSON document. `Err`: out of memory.
pub(crate) fn json_reason(alloc: Global, words: &str) -> Result<Vec<u8>, AllocError>
    ensures { IfOk result (λ text. text.items ≡ json_reason words.now) }
{
    let mut document = Document::new(alloc);
    document.put(&[
        Part::BeginObject,
        Part::Number(Member::Version, Some(1)),
        Part::Text(Member::Fault, words),
        Part::EndObject,
    ]);
    document.into_text()
}
