//! Where a text has the sections of an object.

ghost use Rattle.std.specs.Prelude.{◌≡◌, ◌++◌, ℕ, [], map, option_map, None, IfOk, OnOk};
ghost use Rattle.std.specs.Ordering.{nat_cmp};
ghost use Rattle.std.specs.BTreeMap.{get};
ghost use Rattle.std.specs.Option.{option_or};
ghost use Rattle.co_sheet.specs.Entries.{sub_indices};
ghost use Rattle.co_sheet_text.specs.Views.{section_view};
ghost use Rattle.co_sheet.specs.SectionViews.{
  object_view,
  entry_view,
  object_at,
  parts_at,
  AreByIndex,
  IsIndexed,
};

use co_sheet_text::{SectionKind, TextSection};
use co_value::Key;
use std::alloc::{AllocError, Global};
use std::collections::BTreeMap;
use std::marker::Model;

/// An object, and its section.
#[derive(Clone, Copy)]
pub struct ListedSection<'s, 'a> {
    pub index: u16,
    pub section: &'s TextSection<'s, 'a>,
}

/// An entry, and the section that describes it.
#[derive(Clone, Copy)]
pub struct EntrySection<'s, 'a> {
    pub key: Key,
    pub section: &'s TextSection<'s, 'a>,
}

// adds the first section of each object
fn index_objects<'s, 'a>(
    objects: &mut BTreeMap<u64, ListedSection<'s, 'a>>,
    sections: &'s [TextSection<'s, 'a>],
) -> Result<(), AllocError>
    ensures { OnOk result ((i : ℕ) → option_map object_view (get nat_cmp objects.new i)
        ≡ option_or (option_map object_view (get nat_cmp objects.old i))
        (object_at i (map section_view sections.now))) }
{
    for section in sections {
        if let SectionKind::Object(index) = section.kind {
            if !objects.contains_key(&u64::from(index)) {
                objects.insert(u64::from(index), ListedSection { index, section })?;
            }
        }
    }
    Ok(())
}

// adds the sub-index sections, in the order of the text
fn add_sub_index_sections<'s, 'a>(
    parts: &mut Vec<EntrySection<'s, 'a>>,
    sections: &'s [TextSection<'s, 'a>],
) -> Result<(), AllocError>
    ensures { OnOk result ((i : ℕ) → parts_at parts.new.items i
        ≡ parts_at parts.old.items i ++ sub_indices (map section_view sections.now) i) }
{
    for section in sections {
        if let SectionKind::SubIndex(key) = section.kind {
            parts.push(EntrySection { key, section })?;
        }
    }
    Ok(())
}

// those of an index stay in the order of the text
fn sort_by_index(parts: &mut Vec<EntrySection>) -> Result<(), AllocError>
    ensures sorted { OnOk result (AreByIndex parts.new.items) }
    ensures same { OnOk result ((i : ℕ) → parts_at parts.new.items i ≡ parts_at parts.old.items i) }
{
    parts.sort_by_key(|part| part.key.index)?;
    Ok(())
}

// indexes the sections of objects and of sub-indices
fn index_sections<'s, 'a>(
    objects: &mut BTreeMap<u64, ListedSection<'s, 'a>>,
    parts: &mut Vec<EntrySection<'s, 'a>>,
    sections: &'s [TextSection<'s, 'a>],
) -> Result<(), AllocError>
    requires objects { (i : ℕ) → get nat_cmp objects.old i ≡ None }
    requires parts { parts.old.items ≡ [] }
    ensures { OnOk result (IsIndexed (map section_view sections.now) objects.new parts.new.items) }
{
    index_objects(objects, sections)?;
    add_sub_index_sections(parts, sections)?;
    sort_by_index(parts)
}

fn parts_with_index<'t, 's, 'a>(
    parts: &'t [EntrySection<'s, 'a>],
    index: u16,
) -> &'t [EntrySection<'s, 'a>]
    requires { AreByIndex parts.now }
    ensures { map entry_view result.now ≡ parts_at parts.now index }
{
    let (_, rest) = parts.split_at(parts.partition_point(|part| part.key.index < index));
    let (own, _) = rest.split_at(rest.partition_point(|part| part.key.index <= index));
    own
}

/// The sections of a text, and where those of an object are among them.
#[derive(Drop)]
pub struct Tables<'s, 'a> {
    sections: &'s [TextSection<'s, 'a>],
    objects: BTreeMap<u64, ListedSection<'s, 'a>>,
    parts: Vec<EntrySection<'s, 'a>>,
}

// the sections
impl<'s, 'a> Model for Tables<'s, 'a> {
    ghost use Rattle.std.specs.Prelude.{List, map};
    ghost use Rattle.co_sheet_text.specs.Sections.{TextSection};
    ghost use Rattle.co_sheet_text.specs.Views.{section_view};
    ghost use Rattle.co_sheet.specs.SectionViews.{IsIndexed};

    ghost Value = { List TextSection };

    ghost view = { λ t. map section_view t.sections.now };

    ghost invariant = { λ t. IsIndexed (map section_view t.sections.now) t.objects
        t.parts.items };
}

impl<'s, 'a> Tables<'s, 'a> {
    /// Indexes the sections in one pass. `Err`: out of memory.
    pub fn new(
        alloc: Global,
        sections: &'s [TextSection<'s, 'a>],
    ) -> Result<Tables<'s, 'a>, AllocError>
        ensures { IfOk result (λ tables. tables ≡ map section_view sections.now) }
    {
        let mut objects = BTreeMap::new(alloc);
        let mut parts = Vec::new(alloc);
        index_sections(&mut objects, &mut parts, sections)?;
        Ok(Tables {
            sections,
            objects,
            parts,
        })
    }

    /// All sections, in the order of the text.
    pub fn sections(&self) -> &'s [TextSection<'s, 'a>]
        ensures { map section_view result.now ≡ self.now }
    {
        self.sections
    }

    /// The section of the object with this index, the first if there are several; `None` where
    /// there is none.
    pub fn object(&self, index: u64) -> Option<ListedSection<'s, 'a>>
        ensures { option_map object_view result ≡ object_at index self.now }
    {
        self.objects.get(&index).copied()
    }

    /// The sub-index sections of an object, in the order of the text.
    pub fn parts(&self, index: u16) -> &[EntrySection<'s, 'a>]
        ensures { map entry_view result.now ≡ sub_indices self.now index }
    {
        parts_with_index(self.parts.as_slice(), index)
    }
}
