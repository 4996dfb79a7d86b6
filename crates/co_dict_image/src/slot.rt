//! Where an entry is in an image.

ghost use Rattle.std.specs.Prelude.{◌≡◌, ◌≤◌, ◌+◌, true, length, take, drop};
ghost use Rattle.std.proofs.Props.{props};
ghost use Rattle.co_dict.specs.Rows.{fits};
ghost use Rattle.co_dict.specs.Stores.{IsKey, HasLimits};
ghost use Rattle.co_dict_build.specs.ListedEntries.{HasWidth, HasFixedType};
ghost use Rattle.co_dict_build.specs.StoredEntries.{entry_view};

use co_dict::Row;
use co_dict_build::StoredEntry;
use co_value::Key;

/// An entry without its bytes: where its room is in the image, and how many of the bytes there are
/// its own.
#[derive(Drop)]
pub(crate) struct Slot {
    /// Where its room begins: as many bytes as its capacity, in the values as in the initial bytes.
    pub(crate) start: usize,
    pub(crate) size: u16,
    pub(crate) initial_size: u16,
    pub(crate) key: Key,
    pub(crate) row: Row,
    ghost is_key: { IsKey key },
    ghost from_1000: { 0x1000 ≤ key.index },
    ghost capacity: { row.capacity ≤ 65535 },
    ghost width: { HasWidth row },
    ghost fixed: { HasFixedType key row } by { Prim.hlevel props },
    ghost limits: { HasLimits row } by { Prim.hlevel props },
    ghost within: { size ≤ row.capacity },
    ghost initially_within: { initial_size ≤ row.capacity },
    ghost fitting: { fits row size ≡ true },
    ghost initially: { fits row initial_size ≡ true },
}

/// Copies bytes to as many others. A single byte, as most entries that are mapped into PDOs have,
/// is copied without a call.
#[inline(always)]
fn copy(to: &mut [u8], from: &[u8])
    requires { length to.old ≡ length from.now }
    ensures { to.new ≡ from.now }
{
    if from.len() == 1 {
        to[0] = from[0];
    } else {
        copy_more(to, from);
    }
}

/// Copies bytes to as many others. The widths of most numbers, 2, 4 and 8 bytes, are moved at once.
#[inline(never)]
fn copy_more(to: &mut [u8], from: &[u8])
    requires { length to.old ≡ length from.now }
    ensures { to.new ≡ from.now }
{
    match from.len() {
        2 => to[..2].copy_from_slice(&from[..2]),
        4 => to[..4].copy_from_slice(&from[..4]),
        8 => to[..8].copy_from_slice(&from[..8]),
        _ => to.copy_from_slice(from),
    }
}

impl Slot {
    ghost use Rattle.co_dict_image.specs.Slots.{IsFilled};

    /// The slot of an entry, of which its bytes are the initial ones, with its room from `start`
    /// on.
    pub(crate) fn new(entry: &StoredEntry, start: usize) -> Slot
        ensures key { result.key ≡ (entry_view entry.now).key }
        ensures row { result.row ≡ (entry_view entry.now).row }
        ensures start { result.start ≡ start }
        ensures size { result.size ≡ length (entry_view entry.now).bytes }
        ensures initial_size { result.initial_size ≡ length (entry_view entry.now).bytes }
    {
        let size = entry.bytes().len() as u16;
        Slot {
            key: entry.key(),
            row: entry.row(),
            start,
            size,
            initial_size: size,
        }
    }

    /// The bytes of its entry.
    #[inline(always)]
    pub(crate) fn bytes<'a>(&self, values: &'a [u8]) -> &'a [u8]
        requires { self.now.start + self.now.row.capacity ≤ length values.now }
        ensures { result.now ≡ take self.now.size (drop self.now.start values.now) }
    {
        let end = self.start + usize::from(self.size);
        &values[self.start..end]
    }

    /// Puts bytes into the room of the slot: nothing outside it changes.
    #[inline(always)]
    pub(crate) fn fill(&mut self, values: &mut [u8], bytes: &[u8])
        requires fitting { fits self.old.row (length bytes.now) ≡ true }
        requires room { self.old.start + self.old.row.capacity ≤ length values.old }
        ensures { IsFilled self.old values.old bytes.now self.new values.new }
    {
        let end = self.start + bytes.len();
        copy(&mut values[self.start..end], bytes);
        self.size = bytes.len() as u16;
    }

    /// Puts its initial bytes into the room of the slot: nothing outside it changes.
    pub(crate) fn restore(&mut self, values: &mut [u8], initial: &[u8])
        requires room { self.old.start + self.old.row.capacity ≤ length values.old }
        requires same { length initial.now ≡ length values.old }
        ensures { IsFilled self.old values.old
            (take self.old.initial_size (drop self.old.start initial.now)) self.new values.new }
    {
        let end = self.start + usize::from(self.initial_size);
        self.fill(values, &initial[self.start..end]);
    }
}
