//! The image that rows of a data sheet make.

ghost use Rattle.std.specs.Prelude.{◌≡◌, ◌++◌, ◌∷◌, [], map, All, true, length, IfOk};
ghost use Rattle.co_value.specs.Numbers.{AreBytes};
ghost use Rattle.co_sheet.specs.SheetViews.{row_view};
ghost use Rattle.co_dict_build.specs.Capacities.{limits_view};
ghost use Rattle.co_dict_build.specs.SheetRows.{IsReady};
ghost use Rattle.co_dict_build.specs.Built.{entry_of};
ghost use Rattle.co_dict_image.specs.Slots.{entries_in, are_lined};

use crate::slot::Slot;
use co_dict_build::{Limits, entry_of_row};
use co_sheet::EntryRow;
use std::alloc::{AllocError, Global};

/// The slots of all rows, in their order, and the initial bytes.
#[derive(Drop)]
pub(crate) struct Image {
    pub(crate) slots: Vec<Slot>,
    pub(crate) initial: Vec<u8>,
}

// Appends the slot of a row, and its room with its initial bytes.
fn append_row(
    alloc: Global,
    node_id: u8,
    limits: &Limits<'_>,
    row: &EntryRow<'_>,
    slots: &mut Vec<Slot>,
    bytes: &mut Vec<u8>,
) -> Result<(), AllocError>
    requires ready { IsReady node_id (row_view row.now) }
    requires lined { are_lined 0 slots.old.items (length bytes.old.items) ≡ true }
    requires bytes { AreBytes bytes.old.items }
    ensures entries { IfOk result (λ _. entries_in bytes.new.items bytes.new.items slots.new.items
        ≡ entries_in bytes.old.items bytes.old.items slots.old.items
        ++ entry_of node_id (limits_view limits.now) (row_view row.now) ∷ []) }
    ensures lined { IfOk result (λ _. are_lined 0 slots.new.items (length bytes.new.items) ≡ true) }
    ensures bytes { IfOk result (λ _. AreBytes bytes.new.items) }
{
    let entry = entry_of_row(alloc, node_id, limits, row)?;
    slots.push(Slot::new(&entry, bytes.len()))?;
    bytes.extend_from_slice(entry.room())?;
    Ok(())
}

/// The slots of all rows, in their order, with their initial bytes in one piece of memory.
pub(crate) fn image_of_rows(
    alloc: Global,
    node_id: u8,
    limits: &Limits<'_>,
    rows: &[EntryRow<'_>],
) -> Result<Image, AllocError>
    requires { All (λ row. IsReady node_id (row_view row)) rows.now }
    ensures entries { IfOk result (λ image.
        entries_in image.initial.items image.initial.items image.slots.items
        ≡ map (entry_of node_id (limits_view limits.now)) (map row_view rows.now)) }
    ensures lined { IfOk result (λ image.
        are_lined 0 image.slots.items (length image.initial.items) ≡ true) }
    ensures bytes { IfOk result (λ image. AreBytes image.initial.items) }
{
    let mut slots = Vec::with_capacity(alloc, rows.len())?;
    let mut bytes = Vec::new(alloc);
    for row in rows {
        append_row(alloc, node_id, limits, row, &mut slots, &mut bytes)?;
    }
    Ok(Image {
        slots,
        initial: bytes,
    })
}
