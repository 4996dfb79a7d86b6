//! The object dictionary of a sheet, as it is shown: its entries, its PDOs and its services.

ghost use Rattle.std.specs.Prelude.{◌≡◌, map, IfOk};
ghost use Rattle.co_sheet_text.specs.Views.{section_view};
ghost use Rattle.conode_text.specs.Appended.{Appended};
ghost use Rattle.conode_show_text.specs.Document.{
  chapter_lines,
  chapter_of,
  chapter_text,
  document,
  head_of,
};

use crate::entries::put_section;
use crate::format::Format;
use crate::page::Page;
use crate::pdos::put_pdo;
use crate::service::put_service;
use co_sheet_text::TextSection;
use std::alloc::{AllocError, Global};

/// A chapter of the shown dictionary.
#[derive(Clone, Copy)]
pub enum Chapter {
    /// Entries and objects.
    Entries,
    Pdos,
    /// SYNC, TIME, EMCY, heartbeats and SDO channels.
    Services,
}

fn head_of(chapter: Chapter, format: Format) -> &'static str
    ensures { result.now ≡ head_of chapter format }
{
    match (chapter, format) {
        (Chapter::Entries, Format::Text) =>
            "Entry   Name                          Type           Access PDO Default                Limits\n",
        (Chapter::Entries, Format::Markdown) => "## Objects\n",
        (Chapter::Pdos, Format::Text) =>
            "\nPDO     COB-ID, mapped                Transmission type, name           Inhibit    Event timer\n",
        (Chapter::Pdos, Format::Markdown) =>
            "\n## PDOs\n\n| PDO | COB-ID, mapped | Transmission type, name | Inhibit time | Event timer |\n| --- | --- | --- | --- | --- |\n",
        (Chapter::Services, Format::Text) => "\nEntry   Service                       Says\n",
        (Chapter::Services, Format::Markdown) =>
            "\n## Services\n\n| Entry | Service | Says |\n| --- | --- | --- |\n",
    }
}

// what a chapter has for a section
fn put_text<'p>(
    page: &mut Page,
    chapter: Chapter,
    format: Format,
    node: Option<u8>,
    sections: &'p [TextSection<'p, 'p>],
    section: &'p TextSection<'p, 'p>,
)
    ensures { Appended page.old
        (chapter_text chapter format node (map section_view sections.entry.now)
        (section_view section.entry.now)) page.new }
{
    match chapter {
        Chapter::Entries => put_section(page, format, node, sections, section),
        Chapter::Pdos => put_pdo(page, format, node, sections, section),
        Chapter::Services => put_service(page, format, node, section),
    }
}

fn put_lines<'p>(
    page: &mut Page,
    chapter: Chapter,
    format: Format,
    node: Option<u8>,
    sections: &'p [TextSection<'p, 'p>],
)
    ensures { Appended page.old
        (chapter_lines chapter format node (map section_view sections.entry.now)) page.new }
{
    for section in sections {
        put_text(page, chapter, format, node, sections, section);
    }
}

// a chapter with its head, nothing if it has no line
fn put_chapter<'p>(
    alloc: Global,
    page: &mut Page,
    chapter: Chapter,
    format: Format,
    node: Option<u8>,
    sections: &'p [TextSection<'p, 'p>],
)
    ensures { Appended page.old
        (chapter_of chapter format node (map section_view sections.entry.now)) page.new }
{
    let mut body = Page::new(alloc);
    put_lines(&mut body, chapter, format, node, sections);
    match body.into_text() {
        Ok(lines) => page.put_body(head_of(chapter, format), lines.as_slice()),
        Err(_) => page.fail(),
    }
}

// all chapters
fn put_chapters<'p>(
    alloc: Global,
    page: &mut Page,
    format: Format,
    node: Option<u8>,
    sections: &'p [TextSection<'p, 'p>],
)
    ensures { Appended page.old (document format node (map section_view sections.entry.now))
        page.new }
{
    page.put(head_of(Chapter::Entries, format).as_bytes());
    put_lines(page, Chapter::Entries, format, node, sections);
    put_chapter(alloc, page, Chapter::Pdos, format, node, sections);
    put_chapter(alloc, page, Chapter::Services, format, node, sections);
}

/// The object dictionary of sections in order: its entries, its PDOs, and its services. `Err`: out
/// of memory.
pub fn document(
    alloc: Global,
    format: Format,
    node: Option<u8>,
    sections: &[TextSection],
) -> Result<Vec<u8>, AllocError>
    ensures { IfOk result
        (λ text. text.items ≡ document format node (map section_view sections.now)) }
{
    let mut page = Page::new(alloc);
    put_chapters(alloc, &mut page, format, node, sections);
    page.into_text()
}
