//! A text as it is read, with what is looked up in it.

ghost use Rattle.std.specs.Prelude.{◌≡◌, is_some, map, option_map, IfOk};
ghost use Rattle.co_sheet.specs.Entries.{sub_indices};
ghost use Rattle.co_sheet.specs.ObjectLists.{is_listed};
ghost use Rattle.co_sheet.specs.SectionViews.{entry_view, object_at, object_view};
ghost use Rattle.co_sheet_text.specs.Views.{section_view};
ghost use Rattle.co_sheet_text_warnings.specs.Views.{text_view};

use crate::keys::WrittenKey;
use crate::lines::first_other;
use crate::lists::listed_indices;
use co_sheet::{EntrySection, ListedSection, Tables};
use co_sheet_text::TextSection;
use indexmap::IndexSet;
use std::alloc::{AllocError, Global};
use std::marker::Model;

/// The lines and sections of a text, and the node-ID that is given for the device. Contracts see
/// these; beside them are the indices that the lists name, and the first line with a byte above
/// 7Fh.
#[derive(Drop)]
pub struct ReadText<'s, 'a> {
    pub bytes: &'a [u8],
    /// Without their ends and without a byte order mark.
    pub lines: &'s [&'a [u8]],
    tables: Tables<'s, 'a>,
    /// The keys as they are written.
    pub keys: &'s [WrittenKey<'a>],
    /// The node-ID of the device, if it is known.
    pub node: Option<u8>,
    indices: IndexSet<u64>,
    /// The first line with a byte above 7Fh.
    pub(crate) other: Option<usize>,
}

impl<'s, 'a> Model for ReadText<'s, 'a> {
    ghost use Rattle.std.specs.Prelude.{map};
    ghost use Rattle.co_sheet_text_warnings.specs.ReadTexts.{ReadText};
    ghost use Rattle.co_sheet_text_warnings.specs.Views.{text_view};
    ghost use Rattle.co_sheet_text_warnings.specs.private.Views.{IsLookedUp};

    ghost Value = { ReadText };

    ghost view = { λ t. text_view t.bytes.now (map (λ line. line.now) t.lines.now)
        t.tables t.keys.now t.node };

    ghost invariant = { λ t. IsLookedUp t.tables (map (λ line. line.now) t.lines.now) t.indices t.other };
}

impl<'s, 'a> ReadText<'s, 'a> {
    /// The text with these lines, sections, written keys and node-ID, and what is looked up in them
    /// (CiA 306-1, structure of an EDS). `Err`: out of memory.
    pub fn new(
        alloc: Global,
        bytes: &'a [u8],
        lines: &'s [&'a [u8]],
        sections: &'s [TextSection<'s, 'a>],
        keys: &'s [WrittenKey<'a>],
        node: Option<u8>,
    ) -> Result<ReadText<'s, 'a>, AllocError>
        ensures { IfOk result (λ text. text ≡ text_view bytes.now
            (map (λ line. line.now) lines.now) (map section_view sections.now) keys.now node) }
    {
        let tables = attempt!(Tables::new(alloc, sections));
        let indices = attempt!(listed_indices(alloc, sections));
        Ok(ReadText {
            bytes,
            lines,
            tables,
            keys,
            node,
            indices,
            other: first_other(lines),
        })
    }

    /// All sections, in the order of the text.
    pub fn sections(&self) -> &'s [TextSection<'s, 'a>]
        ensures { map section_view result.now ≡ self.now.sections }
    {
        self.tables.sections()
    }

    /// The sub-index sections of an object, in the order of the text.
    pub fn parts(&self, index: u16) -> &[EntrySection<'s, 'a>]
        ensures { map entry_view result.now ≡ sub_indices self.now.sections index }
    {
        self.tables.parts(index)
    }

    /// The section of an object, the first if there are several; `None` where there is none.
    pub fn object(&self, index: u16) -> Option<ListedSection<'s, 'a>>
        ensures { option_map object_view result ≡ object_at index self.now.sections }
    {
        self.tables.object(u64::from(index))
    }

    /// Whether an object has a section of its own.
    pub fn has_object(&self, index: u16) -> bool
        ensures { result ≡ is_some (object_at index self.now.sections) }
    {
        self.tables.object(u64::from(index)).is_some()
    }

    /// Whether a list names an index (CiA 306-1, object lists).
    pub fn is_listed(&self, index: u16) -> bool
        ensures { result ≡ is_listed self.now.sections index }
    {
        self.indices.contains(&(index as u64))
    }
}
