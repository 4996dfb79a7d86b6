//! A store that keeps its entries in a list.

ghost use Rattle.std.specs.Prelude.{◌≡◌, ◌≤◌, true, length, position, fold, max, IfOk, IfErr, None};
ghost use Rattle.co_value.specs.Keys.{same_key};
ghost use Rattle.co_value.specs.declared.key.Key.{Key};
ghost use Rattle.co_dict_build.specs.ListedEntries.{keys_in, are_increasing};
ghost use Rattle.co_dict_build.specs.StoredEntries.{entry_views};
ghost use Rattle.co_dict_build.specs.Capacities.{limits_view};
ghost use Rattle.co_dict_build.specs.Built.{plan_of, built_description, built_contents};
ghost use Rattle.co_dict_build.specs.BuildFaults.{build_fault, IsBuildFault};

use co_dict::{Area, ObjectStore, Row};
use co_dict_build::{BuildFault, FromRows, Limits, StoredEntry, build_store, entries_of_rows};
use co_sheet::{EntryRow, Sheet};
use co_value::Key;
use std::alloc::{AllocError, Global};

/// An object dictionary as a list of its entries in increasing key. An entry is found by binary
/// search.
#[derive(Drop)]
pub struct ListStore {
    node_id: u8,
    // whether the dummy entries 0002h to 0007h may be mapped
    dummies: [bool; 6],
    entries: Vec<StoredEntry>,
    ghost first_node: { 1 ≤ node_id },
    ghost last_node: { node_id ≤ 127 },
    ghost six: { length dummies ≡ 6 },
    ghost increasing: { are_increasing (keys_in (entry_views entries.items)) ≡ true },
}

// The greatest capacity of these entries; 0 where there is none.
fn greatest_capacity(entries: &[StoredEntry]) -> u16
    ensures { result ≡ fold (λ most entry. max most entry.row.capacity) 0 entries.now }
{
    entries
        .iter()
        .fold(0, |most, entry| most.max(entry.row.capacity))
}

impl ListStore {
    // Where the entry of a key is in the list.
    fn position(&self, key: Key) -> Option<usize>
        ensures { result
            ≡ position (λ entry. same_key key entry.key) (entry_views self.now.entries.items) }
    {
        self.entries
            .binary_search_by_key(&key, |entry| entry.key)
            .ok()
    }
}

impl ObjectStore for ListStore {
    ghost use Rattle.co_dict_build.specs.ListedEntries.{description_in, contents_in};

    ghost description = { λ store.
        description_in store.node_id store.dummies (entry_views store.entries.items) };

    ghost contents = { λ store. contents_in (entry_views store.entries.items) };

    fn node_id(&self) -> u8 {
        self.node_id
    }

    fn row(&self, key: Key) -> Option<Row> {
        let at = self.position(key)?;
        Some(self.entries[at].row)
    }

    fn bytes(&self, key: Key) -> Option<&[u8]> {
        let at = self.position(key)?;
        Some(self.entries[at].bytes())
    }

    fn dummy(&self, index: u16) -> bool {
        index >= 2
            && self
                .dummies
                .get(usize::from(index) - 2)
                .copied()
                .unwrap_or(false)
    }

    fn set(&mut self, key: Key, bytes: &[u8]) {
        let Some(at) = self.position(key) else {
            unreachable!();
        };
        self.entries[at].fill(bytes);
    }

    // the place is the position in the list
    fn place(&self, key: Key) -> Option<u32> {
        let at = self.position(key)?;
        Some(at as u32)
    }

    fn row_at(&self, place: u32) -> Option<Row> {
        let entry = self.entries.get(place as usize)?;
        Some(entry.row)
    }

    fn bytes_at(&self, place: u32) -> Option<&[u8]> {
        let entry = self.entries.get(place as usize)?;
        Some(entry.bytes())
    }

    fn set_at(&mut self, place: u32, bytes: &[u8]) {
        self.entries[place as usize].fill(bytes);
    }

    fn reset(&mut self, area: Area) {
        for entry in self.entries.iter_mut() {
            entry.reset(area);
        }
    }

    fn greatest_capacity(&self) -> u16 {
        greatest_capacity(&self.entries)
    }

    ghost use Rattle.co_dict_build.specs.LawfulLists.{lawful_list};
    ghost use Rattle.co_dict_build.specs.StoredEntries.{are_entries};

    ghost lawful = { λ store. lawful_list store.node_id store.dummies
        (entry_views store.entries.items) (are_entries store.entries.items)
        store.first_node store.last_node store.six };
}

impl FromRows for ListStore {
    fn from_rows(
        alloc: Global,
        node_id: u8,
        limits: &Limits<'_>,
        rows: &[EntryRow<'_>],
        dummies: [bool; 6],
    ) -> Result<ListStore, AllocError> {
        let entries = entries_of_rows(alloc, node_id, limits, rows)?;
        Ok(ListStore {
            node_id,
            dummies,
            entries,
        })
    }
}

impl ListStore {
    /// The dictionary that a data sheet makes for a node-ID and limits, with its initial bytes
    /// (CiA 301, 7.4; CiA 306): each row of the sheet becomes an entry, `$NODEID` the node-ID.
    ///
    /// If several faults apply, the one with the smallest number is returned, and of several with
    /// that number the one with the smallest key. `Memory` may come in place of any fault but
    /// `NodeId` and `ValueRange`: these are found before anything is allocated.
    pub fn build(
        alloc: Global,
        sheet: &Sheet<'_>,
        node_id: u8,
        limits: &Limits<'_>,
    ) -> Result<ListStore, BuildFault>
        ensures ok { IfOk result (λ _.
            build_fault (plan_of node_id (limits_view limits.now) sheet.now) ≡ None) }
        ensures description { IfOk result (λ store. ⟦<ListStore as ObjectStore>⟧.description store
            ≡ built_description (plan_of node_id (limits_view limits.now) sheet.now)) }
        ensures contents { IfOk result (λ store. ⟦<ListStore as ObjectStore>⟧.contents store
            ≡ built_contents (plan_of node_id (limits_view limits.now) sheet.now)) }
        ensures initial { IfOk result (λ store. (key : Key) →
            ⟦<ListStore as ObjectStore>⟧.contents store key
            ≡ (⟦<ListStore as ObjectStore>⟧.description store).initial key) }
        ensures err { IfErr result
            (IsBuildFault (plan_of node_id (limits_view limits.now) sheet.now)) }
    {
        build_store(alloc, sheet, node_id, limits)
    }
}
