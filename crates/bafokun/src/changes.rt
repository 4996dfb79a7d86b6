//! Entries that were set since the application asked.

ghost use Rattle.std.specs.Prelude.{◌≡◌};
ghost use Rattle.co_dict_table.specs.Entries.{entry_at};
ghost use Rattle.std.specs.Option.{option_map_or};
ghost use Rattle.bafokun.specs.Changes.{IsNext, with_area, with_entry, with_reset};

use co_dict::Area;
use co_dict_placed::{is_changed, note_change};
use co_dict_table::EntryTable;
use co_node::Seen;

/// The first of `count` entries that changed, from a number on.
pub(crate) fn next_changed(changes: &[u8], from: usize, count: usize) -> Option<usize>
    ensures { IsNext count changes.now from result }
{
    for number in from..count {
        if is_changed(changes, number) {
            return Some(number);
        }
    }
    None
}

// Notes the entry with a number, if there is one and a reset of this area restores it.
fn note_in(area: Area, entries: &EntryTable, number: usize, changes: &mut [u8])
    ensures { changes.new ≡ option_map_or (λ e. with_entry area e number changes.old)
        (entry_at entries.now number) changes.old }
{
    if let Some(described) = entries.get(number) {
        if area.contains(described.facts.key) {
            note_change(changes, number);
        }
    }
}

// Notes all entries that a reset of this area restores.
#[cold]
#[inline(never)]
fn note_area(area: Area, entries: &EntryTable, changes: &mut [u8])
    ensures { changes.new ≡ with_area area entries.now 0 changes.old }
{
    for number in 0..entries.len() {
        note_in(area, entries, number, changes);
    }
}

/// Notes the entries that a reset restores, if one was seen of an input.
#[inline(always)]
pub(crate) fn note_reset(seen: Seen, entries: &EntryTable, changes: &mut [u8])
    ensures { changes.new ≡ with_reset seen entries.now changes.old }
{
    match seen {
        Seen::ResetNode => note_area(Area::All, entries, changes),
        Seen::ResetCommunication => note_area(Area::Communication, entries, changes),
        Seen::Nothing | Seen::Sync | Seen::Rpdo | Seen::Heartbeat(_) => {}
    }
}
