//! One entry in memory, with room for all that fits it.

ghost use Rattle.std.specs.Prelude.{◌≡◌, ◌≤◌, true, length, take, IfOk};
ghost use Rattle.std.specs.Box.{boxed_slice_items, boxed_slice_len};
ghost use Rattle.std.proofs.Props.{props};
ghost use Rattle.co_value.specs.Numbers.{AreBytes};
ghost use Rattle.co_dict.specs.Rows.{fits};
ghost use Rattle.co_dict.specs.Stores.{IsKey, HasLimits};
ghost use Rattle.co_dict_build.specs.ListedEntries.{HasWidth, HasFixedType, initial_entry, reset_entry};

use co_dict::{Area, Row};
use co_value::Key;
use std::alloc::{AllocError, Global};
use std::boxed::BoxedSlice;

/// An entry with its bytes and its initial bytes. Each has memory of its own, allocated once:
/// neither grows.
#[derive(Drop)]
pub struct StoredEntry {
    pub key: Key,
    pub row: Row,
    /// As many bytes as the entry has room for; the first `size` are its bytes.
    buffer: BoxedSlice<u8>,
    size: u16,
    initial: BoxedSlice<u8>,
    ghost is_key: { IsKey key },
    ghost from_1000: { 0x1000 ≤ key.index },
    ghost capacity: { row.capacity ≤ 65535 },
    ghost width: { HasWidth row },
    ghost fixed: { HasFixedType key row } by { Prim.hlevel props },
    ghost limits: { HasLimits row } by { Prim.hlevel props },
    ghost reserved: { boxed_slice_len buffer ≡ row.capacity },
    ghost within: { size ≤ row.capacity },
    ghost fitting: { fits row size ≡ true },
    ghost initially: { fits row (boxed_slice_len initial) ≡ true },
    ghost bytes: { AreBytes (take size (boxed_slice_items buffer)) } by { Prim.hlevel props },
    ghost initial_bytes: { AreBytes (boxed_slice_items initial) } by { Prim.hlevel props },
}

// Copies bytes to the front of a buffer that has room for them.
fn copy_to_front(buffer: &mut [u8], bytes: &[u8])
    requires { length bytes.now ≤ length buffer.old }
    ensures { take (length bytes.now) buffer.new ≡ bytes.now }
{
    buffer[..bytes.len()].copy_from_slice(bytes);
}

impl StoredEntry {
    ghost use Rattle.co_dict_build.specs.StoredEntries.{entry_view};

    /// An entry that has its initial bytes, with room for `row.capacity` bytes. `Err`: out of
    /// memory.
    pub(crate) fn new(alloc: Global, key: Key, row: Row, initial: &[u8]) -> Result<Self, AllocError>
        requires from_1000 { 0x1000 ≤ key.index }
        requires width { HasWidth row }
        requires fixed { HasFixedType key row }
        requires limits { HasLimits row }
        requires fitting { fits row (length initial.now) ≡ true }
        ensures { IfOk result (λ entry. entry_view entry ≡ initial_entry key row initial.now) }
    {
        let mut buffer = vec![in alloc; 0; usize::from(row.capacity)]?;
        copy_to_front(&mut buffer, initial);
        Ok(StoredEntry {
            key,
            row,
            buffer: buffer.into_boxed_slice(),
            size: initial.len() as u16,
            initial: BoxedSlice::from_slice(alloc, initial)?,
        })
    }

    /// Its key, which is that of an entry.
    pub fn key(&self) -> Key
        ensures key { result ≡ (entry_view self.now).key }
        ensures from_1000 { 0x1000 ≤ result.index }
    {
        self.key
    }

    /// Its row. The capacity of a number is its width, an entry whose type is fixed has that type,
    /// and the limits are in order.
    pub fn row(&self) -> Row
        ensures row { result ≡ (entry_view self.now).row }
        ensures width { HasWidth result }
        ensures fixed { HasFixedType self.now.key result }
        ensures limits { HasLimits result }
        ensures fitting { fits result (length (entry_view self.now).bytes) ≡ true }
    {
        self.row
    }

    /// All its room, as many bytes as its capacity, of which the first are its bytes.
    pub fn room(&self) -> &[u8]
        ensures len { length result.now ≡ (entry_view self.now).row.capacity }
        ensures front { take (length (entry_view self.now).bytes) result.now
            ≡ (entry_view self.now).bytes }
    {
        &self.buffer
    }

    /// The bytes.
    pub fn bytes(&self) -> &[u8]
        ensures { result.now ≡ (entry_view self.now).bytes }
    {
        &self.buffer[..usize::from(self.size)]
    }

    /// Replaces its bytes: one copy, into memory that it has.
    pub fn fill(&mut self, bytes: &[u8])
        requires { fits self.old.row (length bytes.now) ≡ true }
        ensures { entry_view self.new ≡ record (entry_view self.old) { bytes = bytes.now } }
    {
        copy_to_front(&mut self.buffer, bytes);
        self.size = bytes.len() as u16;
    }

    /// Restores its initial bytes, if a reset of the area restores the entry: one copy, into memory
    /// that it has.
    pub fn reset(&mut self, area: Area)
        ensures { entry_view self.new ≡ reset_entry area (entry_view self.old) }
    {
        if area.contains(self.key) {
            copy_to_front(&mut self.buffer, &self.initial);
            self.size = self.initial.len() as u16;
        }
    }
}
