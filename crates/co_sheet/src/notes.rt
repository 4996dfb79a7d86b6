//! What is odd in a text.

ghost use Rattle.std.specs.Prelude.{◌≡◌, ◌++◌, ℕ, nat_eq, length, OnOk};
ghost use Rattle.indexmap.specs.IndexSet.{contains};
ghost use Rattle.co_sheet.specs.ObjectLists.{is_listed};
ghost use Rattle.co_sheet.specs.Entries.{sub_indices};
ghost use Rattle.co_sheet.specs.Notes.{note_unlisted, sub_number_note, node_id_note, notes_at, notes_of};
ghost use Rattle.co_sheet_text.specs.Views.{section_view};

use crate::commissioning::node_id_of;
use crate::tables::Tables;
use co_sheet_rows::{Note, NoteKind};
use co_sheet_text::{SectionKind, TextSection};
use indexmap::IndexSet;
use std::alloc::AllocError;

// an object section from 1000h on that no list names
fn add_unlisted(
    notes: &mut Vec<Note>,
    section: &TextSection,
    index: u16,
    is_listed: bool,
) -> Result<(), AllocError>
    ensures { OnOk result
        (notes.new.items ≡ notes.old.items ++ note_unlisted is_listed section.now.line index) }
{
    if 0x1000 <= index && !is_listed {
        notes.push(Note {
            kind: NoteKind::Unlisted,
            line: section.line,
        })?;
    }
    Ok(())
}

// a SubNumber that isn't the number of the object's sub-index sections
fn add_sub_number(
    notes: &mut Vec<Note>,
    section: &TextSection,
    count: usize,
) -> Result<(), AllocError>
    ensures { OnOk result (notes.new.items
        ≡ notes.old.items ++ sub_number_note (section_view section.now) count) }
{
    if let Some(given) = section.property(b"SubNumber") {
        let is_count = given.number().is_some_and(|number| number == count as u64);
        if !is_count {
            notes.push(Note {
                kind: NoteKind::SubNumber,
                line: given.line,
            })?;
        }
    }
    Ok(())
}

// a NodeID that is no node-ID
fn add_node_id(notes: &mut Vec<Note>, section: &TextSection) -> Result<(), AllocError>
    ensures { OnOk result (notes.new.items
        ≡ notes.old.items ++ node_id_note (section_view section.now)) }
{
    if let Some(given) = section.property(b"NodeID") {
        if node_id_of(&given).is_none() {
            notes.push(Note {
                kind: NoteKind::NodeId,
                line: given.line,
            })?;
        }
    }
    Ok(())
}

// the number of an object's sub-index sections
fn parts_len(tables: &Tables, index: u16) -> usize
    ensures { result ≡ length (sub_indices tables.now index) }
{
    tables.parts(index).len()
}

fn add_notes_at(
    notes: &mut Vec<Note>,
    tables: &Tables,
    indices: &IndexSet<u64>,
    section: &TextSection,
) -> Result<(), AllocError>
    requires { (i : ℕ) → contains nat_eq indices.now i ≡ is_listed tables.now i }
    ensures { OnOk result (notes.new.items
        ≡ notes.old.items ++ notes_at tables.now (section_view section.now) section.now.kind) }
{
    match section.kind {
        SectionKind::Object(index) => {
            let is_listed = indices.contains(&u64::from(index));
            add_unlisted(notes, section, index, is_listed)?;
            add_sub_number(notes, section, parts_len(tables, index))
        }
        SectionKind::DeviceCommissioning => add_node_id(notes, section),
        _ => Ok(()),
    }
}

/// Adds what is odd in a text, in the order of its sections.
pub(crate) fn add_notes(
    notes: &mut Vec<Note>,
    tables: &Tables,
    indices: &IndexSet<u64>,
) -> Result<(), AllocError>
    requires { (i : ℕ) → contains nat_eq indices.now i ≡ is_listed tables.now i }
    ensures { OnOk result (notes.new.items ≡ notes.old.items ++ notes_of tables.now) }
{
    for section in tables.sections() {
        add_notes_at(notes, tables, indices, section)?;
    }
    Ok(())
}
