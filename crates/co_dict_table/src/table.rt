//! What a data sheet says of the entries of a device.

ghost use Rattle.std.specs.Prelude.{
  ◌≡◌,
  ◌≤◌,
  ◌+◌,
  ◌++◌,
  ◌∷◌,
  [],
  map,
  take,
  drop,
  length,
  position,
  All,
  IfOk,
  option_map,
  unwrap_or,
};
ghost use Rattle.co_value.specs.Keys.{same_key};
ghost use Rattle.co_sheet.specs.SheetViews.{row_view};
ghost use Rattle.co_sheet_changes.specs.Originals.{original_at};
ghost use Rattle.co_sheet_changes.specs.Views.{text_at};
ghost use Rattle.co_dict_build.specs.Capacities.{limits_view};
ghost use Rattle.co_dict_build.specs.SheetRows.{IsReady};
ghost use Rattle.co_dict_table.specs.Entries.{content_of_row, contents_of_rows, entry_at, facts_of_row, number_of};
ghost use Rattle.co_dict_table.specs.Tables.{AreWithin, described_view, in_table};

use crate::original::code_or;
use co_dict_build::{Limits, entry_of_row};
use co_profile::Access;
use co_sheet::EntryRow;
use co_sheet_changes::Originals;
use co_value::{DataType, Key};
use std::alloc::{AllocError, Global};
use std::boxed::BoxedSlice;
use std::marker::Model;

/// What is said of an entry, apart from its name.
#[derive(Clone, Copy)]
pub struct EntryFacts {
    pub key: Key,
    pub data_type: DataType,
    pub access: Access,
    /// The code of its original data type (CiA 301, 7.4.7.1), where the sheet was adapted and says
    /// so; else that of its data type.
    pub original: u16,
    /// How many bytes it has room for.
    pub capacity: u16,
}

/// An entry of a table, and where its name is among the names.
#[derive(Clone, Copy)]
pub(crate) struct Line {
    pub(crate) facts: EntryFacts,
    size: u16,
    start: u32,
}

/// An entry of a table with its name, which is empty where it has none.
#[derive(Clone, Copy)]
pub struct DescribedEntry<'a> {
    pub facts: EntryFacts,
    pub name: &'a [u8],
}

/// What a data sheet says of all entries, in increasing key, with their names one after another in
/// one piece of memory. Contracts see it as the list of the entries.
#[derive(Drop)]
pub struct EntryTable {
    lines: BoxedSlice<Line>,
    names: BoxedSlice<u8>,
}

impl Model for EntryTable {
    ghost use Rattle.std.specs.Prelude.{List, length};
    ghost use Rattle.std.specs.Box.{boxed_slice_items};
    ghost use Rattle.co_dict_table.specs.Entries.{EntryContent};
    ghost use Rattle.co_dict_table.specs.Tables.{AreWithin, in_table};

    ghost Value = { List EntryContent };

    ghost view = { λ t. in_table (boxed_slice_items t.names) (boxed_slice_items t.lines) };

    ghost invariant = { λ t.
        AreWithin (length (boxed_slice_items t.names)) (boxed_slice_items t.lines) };
}

impl EntryTable {
    /// The entries of the rows of a text, in their order; each row must be ready to become an
    /// entry. `AllocError`: out of memory.
    #[tactic(auto, using(crate::proofs::Appended::same_originals))]
    pub fn of(
        alloc: Global,
        node_id: u8,
        limits: &Limits<'_>,
        text: &[u8],
        rows: &[EntryRow<'_>],
    ) -> Result<EntryTable, AllocError>
        requires ready { All (λ row. IsReady node_id (row_view row)) rows.now }
        requires size { length text.now ≤ 1048576 }
        ensures { IfOk result (λ table. table
            ≡ contents_of_rows (original_at text.now) (limits_view limits.now)
            (map row_view rows.now)) }
    {
        let originals = Originals::in_text(alloc, text)?;
        EntryTable::of_rows(alloc, node_id, limits, &originals, rows)
    }

    // The entries of rows with these original types.
    fn of_rows(
        alloc: Global,
        node_id: u8,
        limits: &Limits<'_>,
        originals: &Originals,
        rows: &[EntryRow<'_>],
    ) -> Result<EntryTable, AllocError>
        requires { All (λ row. IsReady node_id (row_view row)) rows.now }
        ensures { IfOk result (λ table. table ≡
            contents_of_rows (text_at originals.now) (limits_view limits.now)
            (map row_view rows.now)) }
    {
        let mut lines = Vec::with_capacity(alloc, rows.len())?;
        let mut names = Vec::new(alloc);
        for row in rows {
            let facts = facts_of(alloc, node_id, limits, originals, row)?;
            append(facts, name_in(row), &mut lines, &mut names)?;
        }
        Ok(EntryTable {
            lines: lines.into_boxed_slice(),
            // copied, since the list that grew has room to spare
            names: BoxedSlice::from_slice(alloc, &names)?,
        })
    }

    /// How many entries there are.
    pub fn len(&self) -> usize
        ensures { result ≡ length self.now }
    {
        self.lines.len()
    }

    /// The entry with a number, from 0 on; `None` where there is no such entry.
    pub fn get(&self, number: usize) -> Option<DescribedEntry<'_>>
        ensures { option_map described_view result ≡ entry_at self.now number }
    {
        entry_of_line(&self.lines, &self.names, number)
    }

    /// The number of the entry with a key; `None` where there is none.
    #[tactic(auto, using(crate::proofs::Appended::number_in_table))]
    pub fn number(&self, key: Key) -> Option<usize>
        ensures { result ≡ number_of self.now key }
    {
        number_among(&self.lines, key)
    }
}

// The name of a line.
fn name_of<'a>(line: &Line, names: &'a [u8]) -> &'a [u8]
    requires { line.now.start + line.now.size ≤ length names.now }
    ensures { result.now ≡ take line.now.size (drop line.now.start names.now) }
{
    let start = line.start as usize;
    let end = start + line.size as usize;
    &names[start..end]
}

// The entry of the line with a number, if there is such a line.
fn entry_of_line<'a>(lines: &[Line], names: &'a [u8], number: usize) -> Option<DescribedEntry<'a>>
    requires { AreWithin (length names.now) lines.now }
    ensures { option_map described_view result ≡ entry_at (in_table names.now lines.now) number }
{
    if number >= lines.len() {
        return None;
    }
    let line = lines[number];
    Some(DescribedEntry {
        facts: line.facts,
        name: name_of(&line, names),
    })
}

// The number of the first line with a key.
fn number_among(lines: &[Line], key: Key) -> Option<usize>
    ensures { result ≡ position (λ line. same_key key line.facts.key) lines.now }
{
    lines.iter().position(|line| key == line.facts.key)
}

// The name of a row; empty where it has none.
fn name_in<'a>(row: &EntryRow<'a>) -> &'a [u8]
    ensures { result.now ≡ unwrap_or (row_view row.now).name [] }
{
    match row.name {
        Some(name) => name,
        None => &[],
    }
}

// What a row says, apart from its name.
fn facts_of(
    alloc: Global,
    node_id: u8,
    limits: &Limits<'_>,
    originals: &Originals,
    row: &EntryRow<'_>,
) -> Result<EntryFacts, AllocError>
    requires { IsReady node_id (row_view row.now) }
    ensures { IfOk result (λ facts. facts
        ≡ facts_of_row (text_at originals.now) (limits_view limits.now) (row_view row.now)) }
{
    let stored = entry_of_row(alloc, node_id, limits, row)?;
    Ok(EntryFacts {
        key: row.key,
        data_type: row.data_type,
        access: row.access,
        original: code_or(originals.at(row.line), row.data_type),
        capacity: stored.row().capacity,
    })
}

// Appends a line, and its name. `AllocError`: out of memory. A name whose start has more than
// 32 bits, or its size more than 16, is refused too; no text of a sheet is so large.
fn append(
    facts: EntryFacts,
    name: &[u8],
    lines: &mut Vec<Line>,
    names: &mut Vec<u8>,
) -> Result<(), AllocError>
    requires { AreWithin (length names.old.items) lines.old.items }
    ensures entries { IfOk result (λ _. in_table names.new.items lines.new.items
        ≡ in_table names.old.items lines.old.items
        ++ (record { facts = facts; name = name.now }) ∷ []) }
    ensures within { IfOk result (λ _. AreWithin (length names.new.items) lines.new.items) }
{
    let start = names.len();
    let size = name.len();
    if start > u32::MAX as usize || size > u16::MAX as usize {
        return Err(AllocError);
    }
    lines.push(Line {
        facts,
        size: size as u16,
        start: start as u32,
    })?;
    names.extend_from_slice(name)?;
    Ok(())
}
