//! The entries of a dictionary, made from the rows of a data sheet.

ghost use Rattle.std.specs.Prelude.{◌≡◌, map, All, IfOk};
ghost use Rattle.co_sheet.specs.SheetViews.{row_view};
ghost use Rattle.co_dict_build.specs.Capacities.{limits_view};
ghost use Rattle.co_dict_build.specs.StoredEntries.{entry_view, entry_views};
ghost use Rattle.co_dict_build.specs.Built.{entry_of};
ghost use Rattle.co_dict_build.specs.SheetRows.{IsReady};

use crate::initial_bytes::initial_bytes;
use crate::limits::Limits;
use crate::stored_entry::StoredEntry;
use co_sheet::EntryRow;
use std::alloc::{AllocError, Global};

/// The entry of a row that is ready, with its initial bytes. `AllocError`: out of memory.
pub fn entry_of_row(
    alloc: Global,
    node_id: u8,
    limits: &Limits<'_>,
    row: &EntryRow<'_>,
) -> Result<StoredEntry, AllocError>
    requires { IsReady node_id (row_view row.now) }
    ensures { IfOk result (λ entry. entry_view entry
        ≡ entry_of node_id (limits_view limits.now) (row_view row.now)) }
{
    let initial = initial_bytes(alloc, node_id, row)?;
    StoredEntry::new(alloc, row.key, limits.row(row), &initial)
}

/// The entries of rows that are ready, in their order. `AllocError`: out of memory.
pub fn entries_of_rows(
    alloc: Global,
    node_id: u8,
    limits: &Limits<'_>,
    rows: &[EntryRow<'_>],
) -> Result<Vec<StoredEntry>, AllocError>
    requires { All (λ row. IsReady node_id (row_view row)) rows.now }
    ensures { IfOk result (λ entries. entry_views entries.items
        ≡ map (entry_of node_id (limits_view limits.now)) (map row_view rows.now)) }
{
    let mut entries = Vec::with_capacity(alloc, rows.len())?;
    for row in rows {
        entries.push(entry_of_row(alloc, node_id, limits, row)?)?;
    }
    Ok(entries)
}
