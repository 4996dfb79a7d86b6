//! Which objects of a text are in compact form.

ghost use Rattle.std.specs.Prelude.{◌≡◌, ◌||◌, ℕ, map, nat_eq, IfOk, OnOk};
ghost use Rattle.indexmap.specs.IndexSet.{contains};
ghost use Rattle.co_sheet_text.specs.Views.{section_view};
ghost use Rattle.conode_lint_marks.specs.KnownWarnings.{
  compact_index,
  is_compact,
  is_compact_object,
  is_object_compact,
  is_of_compact,
};

use co_sheet_text::{SectionKind, TextSection};
use indexmap::IndexSet;
use std::alloc::{AllocError, Global};
use std::marker::Model;

// whether CompactSubObj isn't 0, so that sub-indices have no sections
fn is_compact(section: &TextSection<'_, '_>) -> bool
    ensures { result ≡ is_compact (section_view section.now) }
{
    match section.property(b"CompactSubObj") {
        Some(property) => !matches!(property.number(), Some(0)),
        None => false,
    }
}

// the index of an object in compact form
fn compact_index(section: &TextSection<'_, '_>) -> Option<u16>
    ensures { result ≡ compact_index (section_view section.now) section.now.kind }
{
    match section.kind {
        SectionKind::Object(index) => {
            if is_compact(section) {
                Some(index)
            } else {
                None
            }
        }
        _ => None,
    }
}

// adds the index of an object in compact form
fn add_if_compact(
    indices: &mut IndexSet<u64>,
    section: &TextSection<'_, '_>,
) -> Result<(), AllocError>
    ensures { OnOk result ((i : ℕ) → contains nat_eq indices.new i ≡ (contains nat_eq indices.old i
        || is_compact_object i (section_view section.now))) }
{
    let Some(index) = compact_index(section) else {
        return Ok(());
    };
    attempt_in_memory!(indices.insert(index as u64));
    Ok(())
}

fn compact_indices(
    alloc: Global,
    sections: &[TextSection<'_, '_>],
) -> Result<IndexSet<u64>, AllocError>
    ensures { IfOk result (λ indices. (i : ℕ) →
        contains nat_eq indices i ≡ is_object_compact (map section_view sections.now) i) }
{
    let mut indices = IndexSet::new(alloc);
    for section in sections {
        attempt!(add_if_compact(&mut indices, section));
    }
    Ok(indices)
}

/// The sections of a text. Contracts see these; beside them are the objects in compact form.
#[derive(Drop)]
pub(crate) struct CompactForms<'s, 'a> {
    sections: &'s [TextSection<'s, 'a>],
    indices: IndexSet<u64>,
}

impl<'s, 'a> Model for CompactForms<'s, 'a> {
    ghost use Rattle.std.specs.Prelude.{◌≡◌, ℕ, List, map, nat_eq};
    ghost use Rattle.indexmap.specs.IndexSet.{contains};
    ghost use Rattle.co_sheet_text.specs.Sections.{TextSection};
    ghost use Rattle.co_sheet_text.specs.Views.{section_view};
    ghost use Rattle.conode_lint_marks.specs.KnownWarnings.{is_object_compact};

    ghost Value = { List TextSection };

    ghost view = { λ t. map section_view t.sections.now };

    ghost invariant = { λ t. (i : ℕ) →
        contains nat_eq t.indices i ≡ is_object_compact (map section_view t.sections.now) i };
}

impl<'s, 'a> CompactForms<'s, 'a> {
    pub(crate) fn new(
        alloc: Global,
        sections: &'s [TextSection<'s, 'a>],
    ) -> Result<CompactForms<'s, 'a>, AllocError>
        ensures { IfOk result (λ forms. forms ≡ map section_view sections.now) }
    {
        let indices = attempt!(compact_indices(alloc, sections));
        Ok(CompactForms { sections, indices })
    }

    pub(crate) fn sections(&self) -> &'s [TextSection<'s, 'a>]
        ensures { map section_view result.now ≡ self.now }
    {
        self.sections
    }

    // whether an object is in compact form
    fn has(&self, index: u16) -> bool
        ensures { result ≡ is_object_compact self.now index }
    {
        self.indices.contains(&(index as u64))
    }

    /// Whether a section is that of an object in compact form, or of a sub-index of one.
    pub(crate) fn has_section(&self, kind: SectionKind) -> bool
        ensures { result ≡ is_of_compact self.now kind }
    {
        match kind {
            SectionKind::Object(index) => self.has(index),
            SectionKind::SubIndex(key) => self.has(key.index),
            _ => false,
        }
    }
}
