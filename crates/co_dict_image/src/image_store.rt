//! A store that keeps all values in one piece of memory.

ghost use Rattle.std.specs.Prelude.{◌≡◌, ◌≤◌, ◌<◌, true, length, position, fold, max, IfOk, IfErr, None};
ghost use Rattle.std.specs.Box.{boxed_slice_items};
ghost use Rattle.std.proofs.Props.{props};
ghost use Rattle.co_value.specs.Keys.{same_key};
ghost use Rattle.co_value.specs.Numbers.{AreBytes};
ghost use Rattle.co_value.specs.declared.key.Key.{Key};
ghost use Rattle.co_dict_build.specs.ListedEntries.{are_increasing};
ghost use Rattle.co_dict_build.specs.Capacities.{limits_view};
ghost use Rattle.co_dict_build.specs.Built.{plan_of, built_description, built_contents};
ghost use Rattle.co_dict_build.specs.BuildFaults.{build_fault, IsBuildFault};
ghost use Rattle.co_dict_image.specs.Slots.{are_lined, keys_of};

use crate::image::image_of_rows;
use crate::key_numbers::KeyNumbers;
use crate::slot::Slot;
use co_dict::{Area, ObjectStore, Row};
use co_dict_build::{BuildFault, FromRows, Limits, build_store};
use co_sheet::{EntryRow, Sheet};
use co_value::Key;
use std::alloc::{AllocError, Global};
use std::boxed::BoxedSlice;

/// An object dictionary as an image: the values of all entries in one piece of memory, each with
/// room for its capacity, and the initial ones in a second, at the same places. An entry is found
/// by a table of hashed keys, or by its place without a search. All memory is allocated by the
/// build: a boxed slice never grows.
#[derive(Drop)]
pub struct ImageStore {
    node_id: u8,
    // whether the dummy entries 0002h to 0007h may be mapped
    dummies: [bool; 6],
    // the keys in the order of the slots, which is increasing
    numbers: KeyNumbers,
    slots: BoxedSlice<Slot>,
    values: BoxedSlice<u8>,
    initial: BoxedSlice<u8>,
    ghost first_node: { 1 ≤ node_id },
    ghost last_node: { node_id ≤ 127 },
    ghost six: { length dummies ≡ 6 },
    ghost numbered: { numbers ≡ keys_of (boxed_slice_items slots) } by { Prim.hlevel props },
    ghost increasing: { are_increasing (keys_of (boxed_slice_items slots)) ≡ true },
    ghost lined: { are_lined 0 (boxed_slice_items slots) (length (boxed_slice_items values)) ≡ true },
    ghost same: { length (boxed_slice_items initial) ≡ length (boxed_slice_items values) },
    ghost bytes: { AreBytes (boxed_slice_items values) } by { Prim.hlevel props },
    ghost initial_bytes: { AreBytes (boxed_slice_items initial) } by { Prim.hlevel props },
}

// The greatest capacity of these slots; 0 where there is none.
fn greatest_capacity(slots: &[Slot]) -> u16
    ensures { result ≡ fold (λ most slot. max most slot.row.capacity) 0 slots.now }
{
    slots
        .iter()
        .fold(0, |most, slot| most.max(slot.row.capacity))
}

impl ImageStore {
    ghost use Rattle.co_dict.specs.Places.{key_at};

    /// The key of the entry at a place; `None` where there is no entry.
    #[inline(always)]
    pub fn key_at(&self, place: u32) -> Option<Key>
        ensures { result ≡ key_at (⟦<ImageStore as ObjectStore>⟧.description self.now) place }
    {
        let slot = self.slots.get(place as usize)?;
        Some(slot.key)
    }
}

impl ImageStore {
    ghost use Rattle.std.specs.List.{slice_index_or};
    ghost use Rattle.co_dict.specs.Rows.{fits};
    ghost use Rattle.co_dict_build.specs.ListedEntries.{ListedEntry};
    ghost use Rattle.co_dict_image.specs.Images.{entries_of, filled_at};

    // Where the slot of a key is.
    fn position(&self, key: Key) -> Option<usize>
        ensures { result ≡ position (same_key key) (keys_of (boxed_slice_items self.now.slots)) }
    {
        self.numbers.get(key)
    }

    // Sets the bytes of the entry of a slot: one copy, into memory that it has.
    #[inline(always)]
    fn put(&mut self, at: usize, bytes: &[u8])
        requires within { at < length (boxed_slice_items self.old.slots) }
        requires fitting { (d : ListedEntry) →
            fits (slice_index_or (entries_of self.old) at d).row (length bytes.now) ≡ true }
        ensures entries { (d : ListedEntry) →
            entries_of self.new ≡ filled_at (entries_of self.old) at d bytes.now }
        ensures node { self.new.node_id ≡ self.old.node_id }
        ensures dummies { self.new.dummies ≡ self.old.dummies }
        ensures keys { keys_of (boxed_slice_items self.new.slots)
            ≡ keys_of (boxed_slice_items self.old.slots) }
    {
        self.slots[at].fill(&mut self.values, bytes);
    }

    // Restores the initial bytes of the entry of a slot: one copy, into memory that it has.
    fn restore(&mut self, at: usize)
        requires within { at < length (boxed_slice_items self.old.slots) }
        ensures entries { (d : ListedEntry) → entries_of self.new
            ≡ filled_at (entries_of self.old) at d
            (slice_index_or (entries_of self.old) at d).initial }
        ensures node { self.new.node_id ≡ self.old.node_id }
        ensures dummies { self.new.dummies ≡ self.old.dummies }
        ensures keys { keys_of (boxed_slice_items self.new.slots)
            ≡ keys_of (boxed_slice_items self.old.slots) }
    {
        self.slots[at].restore(&mut self.values, &self.initial);
    }
}

impl ObjectStore for ImageStore {
    ghost use Rattle.co_dict_build.specs.ListedEntries.{description_in, contents_in};
    ghost use Rattle.co_dict_image.specs.Slots.{entries_in};

    ghost description = { λ store. description_in store.node_id store.dummies
        (entries_in (boxed_slice_items store.values) (boxed_slice_items store.initial)
        (boxed_slice_items store.slots)) };

    ghost contents = { λ store. contents_in (entries_in (boxed_slice_items store.values)
        (boxed_slice_items store.initial) (boxed_slice_items store.slots)) };

    fn node_id(&self) -> u8 {
        self.node_id
    }

    fn row(&self, key: Key) -> Option<Row> {
        let at = self.position(key)?;
        Some(self.slots[at].row)
    }

    fn bytes(&self, key: Key) -> Option<&[u8]> {
        let at = self.position(key)?;
        Some(self.slots[at].bytes(&self.values))
    }

    fn dummy(&self, index: u16) -> bool {
        index >= 2
            && self
                .dummies
                .get(usize::from(index) - 2)
                .copied()
                .unwrap_or(false)
    }

    fn set(&mut self, key: Key, bytes: &[u8]) {
        let Some(at) = self.position(key) else {
            unreachable!();
        };
        self.put(at, bytes);
    }

    fn place(&self, key: Key) -> Option<u32> {
        let at = self.position(key)?;
        Some(at as u32)
    }

    fn row_at(&self, place: u32) -> Option<Row> {
        let slot = self.slots.get(place as usize)?;
        Some(slot.row)
    }

    #[inline(always)]
    fn bytes_at(&self, place: u32) -> Option<&[u8]> {
        let slot = self.slots.get(place as usize)?;
        Some(slot.bytes(&self.values))
    }

    #[inline(always)]
    fn set_at(&mut self, place: u32, bytes: &[u8]) {
        self.put(place as usize, bytes);
    }

    fn reset(&mut self, area: Area) {
        for at in 0..self.slots.len() {
            if area.contains(self.slots[at].key) {
                self.restore(at);
            }
        }
    }

    fn greatest_capacity(&self) -> u16 {
        greatest_capacity(&self.slots)
    }

    ghost use Rattle.co_dict_build.specs.LawfulLists.{lawful_list};
    ghost use Rattle.co_dict_image.specs.LawfulImages.{are_entries};

    ghost lawful = { λ store. lawful_list store.node_id store.dummies
        (entries_in (boxed_slice_items store.values) (boxed_slice_items store.initial)
        (boxed_slice_items store.slots))
        (are_entries (boxed_slice_items store.values) (boxed_slice_items store.initial)
        (boxed_slice_items store.slots)
        store.lined store.same store.bytes store.initial_bytes)
        store.first_node store.last_node store.six };
}

impl FromRows for ImageStore {
    fn from_rows(
        alloc: Global,
        node_id: u8,
        limits: &Limits<'_>,
        rows: &[EntryRow<'_>],
        dummies: [bool; 6],
    ) -> Result<ImageStore, AllocError> {
        let image = image_of_rows(alloc, node_id, limits, rows)?;
        let numbers = KeyNumbers::of(alloc, &image.slots)?;
        let values = BoxedSlice::from_slice(alloc, &image.initial)?;
        Ok(ImageStore {
            node_id,
            dummies,
            numbers,
            slots: image.slots.into_boxed_slice(),
            values,
            initial: image.initial.into_boxed_slice(),
        })
    }
}

impl ImageStore {
    /// The dictionary that a data sheet makes for a node-ID and limits, with its initial bytes
    /// (CiA 301, 7.4; CiA 306): each row of the sheet becomes an entry, `$NODEID` the node-ID.
    ///
    /// If several faults apply, the one with the smallest number is returned, and of several with
    /// that number the one with the smallest key. `Memory` may come in place of any fault but
    /// `NodeId` and `ValueRange`: these are found before anything is allocated.
    pub fn build(
        alloc: Global,
        sheet: &Sheet<'_>,
        node_id: u8,
        limits: &Limits<'_>,
    ) -> Result<ImageStore, BuildFault>
        ensures ok { IfOk result (λ _.
            build_fault (plan_of node_id (limits_view limits.now) sheet.now) ≡ None) }
        ensures description { IfOk result (λ store. ⟦<ImageStore as ObjectStore>⟧.description store
            ≡ built_description (plan_of node_id (limits_view limits.now) sheet.now)) }
        ensures contents { IfOk result (λ store. ⟦<ImageStore as ObjectStore>⟧.contents store
            ≡ built_contents (plan_of node_id (limits_view limits.now) sheet.now)) }
        ensures initial { IfOk result (λ store. (key : Key) →
            ⟦<ImageStore as ObjectStore>⟧.contents store key
            ≡ (⟦<ImageStore as ObjectStore>⟧.description store).initial key) }
        ensures err { IfErr result
            (IsBuildFault (plan_of node_id (limits_view limits.now) sheet.now)) }
    {
        build_store(alloc, sheet, node_id, limits)
    }
}
