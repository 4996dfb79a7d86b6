//! What RPDOs write to the entries that are held (CiA 301, 7.2.2.2 and 7.5.2.36).

ghost use Rattle.std.specs.Prelude.{◌≡◌, None, slice_index_or, true, map};
ghost use Rattle.std.specs.List.{AllPairs};
ghost use Rattle.co_sheet.specs.SheetViews.{row_view};
ghost use Rattle.co_value.specs.Keys.{is_key_before};
ghost use Rattle.conode_compare_values.specs.declared.rpdo_writes.Brought.TheVariants.{Nothing};
ghost use Rattle.conode_compare_values.specs.RpdoWrites.{
  all_fit,
  alone,
  brought_by,
  brought_from,
  brought_to,
  count_of,
  first_bytes,
  fits,
  fits_at,
  fits_from,
  forgotten,
  forgotten_at,
  is_bit,
  is_received,
  is_same,
  is_shown,
  is_value,
  later_bytes,
  no_writes,
  numbered_at,
  object_bytes,
  received,
  settled,
  settled_at,
  taken_at,
  takes,
  twice,
  value_after,
  with_brought,
  with_value,
  without_number,
  without_values,
};

use crate::downloads::is_within;
use crate::entries::{HeldEntries, HeldEntry};
use crate::written::Written;
use co_profile::Access;
use co_sheet::EntryRow;
use co_sheet_changes::row_at;
use co_value::{DataType, Key, unsigned_of};
use conode_compare_pdos::{Rpdo, Rpdos, is_object_of, object_key};
use conode_compare_transfers::is_past;

/// What a frame of an RPDO brings an entry.
#[derive(Clone, Copy)]
pub enum Brought {
    /// Nothing: the entry isn't mapped.
    Nothing,
    /// The entry is mapped, and what it has then isn't known.
    Unclear,
    /// A number.
    Number(u64),
}

/// A number that a frame of an RPDO brought.
#[derive(Clone, Copy)]
pub struct RpdoValue {
    /// The number.
    pub number: u64,
    /// The stamp of the first frame that brought it.
    pub since: u64,
}

/// How many entries are held at most.
const MOST_HELD: usize = 64;

/// What was written to the entries that are held, and what RPDOs brought.
#[derive(Clone, Copy)]
pub struct RpdoWrites {
    /// The numbers that are known.
    pub written: Written,
    /// The number that an RPDO brought each, by its place among them, which isn't known yet.
    pub values: [Option<RpdoValue>; 64],
}

// how many bytes an object of a mapping has
fn object_bytes(word: Option<u64>) -> usize
    ensures { result ≡ object_bytes word }
{
    match word {
        Some(word) => (word % 0x100 / 8) as usize,
        None => 0,
    }
}

// the first bytes
fn first_bytes(bytes: &[u8], count: usize) -> &[u8]
    ensures { result.now ≡ first_bytes count bytes.now }
{
    if count <= bytes.len() {
        &bytes[..count]
    } else {
        bytes
    }
}

// the bytes after them
fn later_bytes(bytes: &[u8], count: usize) -> &[u8]
    ensures { result.now ≡ later_bytes count bytes.now }
{
    if count <= bytes.len() {
        &bytes[count..]
    } else {
        &[]
    }
}

// whether who may write an entry may do so by an RPDO
fn is_received(access: Access) -> bool
    ensures { result ≡ is_received access }
{
    matches!(access, Access::Rw | Access::Rww | Access::Wo)
}

// whether a byte is 0 or 1
fn is_bit(bytes: &[u8]) -> bool
    ensures { result ≡ is_bit bytes.now }
{
    match bytes {
        [byte] => *byte <= 1,
        _ => false,
    }
}

// whether bytes are a number of a type, as far as that isn't any of its length
fn is_value(row: &EntryRow<'_>, bytes: &[u8]) -> bool
    ensures { result ≡ is_value (row_view row.now) bytes.now }
{
    !matches!(row.data_type, DataType::Boolean) || is_bit(bytes)
}

// whether an RPDO may have an entry, and a number is one of its type and within its limits
fn takes(row: &EntryRow<'_>, bytes: &[u8]) -> bool
    ensures { result ≡ takes (row_view row.now) bytes.now }
{
    row.mappable
        && is_received(row.access)
        && row.key.index >= 0x2000
        && is_value(row, bytes)
        && is_within(row, bytes)
}

// whether the sheet has the entry of an object with these bytes
fn fits(rows: &[EntryRow<'_>], word: u64, bytes: &[u8]) -> bool
    requires { AllPairs (λ e f. is_key_before e.key f.key ≡ true) rows.now }
    ensures { result ≡ fits (map row_view rows.now) word bytes.now }
{
    match row_at(rows, object_key(word)) {
        Some(row) => takes(row, bytes),
        None => false,
    }
}

// whether an object that is mapped, if it is one, fits; it has the first bytes
fn fits_at(rows: &[EntryRow<'_>], is_mapped: bool, word: Option<u64>, bytes: &[u8]) -> bool
    requires { AllPairs (λ e f. is_key_before e.key f.key ≡ true) rows.now }
    ensures { result ≡ fits_at (map row_view rows.now) is_mapped word bytes.now }
{
    if !is_mapped {
        return true;
    }
    match word {
        Some(number) => fits(rows, number, first_bytes(bytes, object_bytes(word))),
        None => false,
    }
}

// whether all objects of a mapping of so many fit with the bytes of a frame
fn objects_fit(rows: &[EntryRow<'_>], count: usize, objects: &[Option<u64>], bytes: &[u8]) -> bool
    requires { AllPairs (λ e f. is_key_before e.key f.key ≡ true) rows.now }
    ensures { result ≡ fits_from (map row_view rows.now) count 0 objects.now bytes.now }
{
    let mut rest = bytes;
    for (place, word) in objects.iter().enumerate() {
        if !fits_at(rows, place < count, *word, rest) {
            return false;
        }
        rest = later_bytes(rest, object_bytes(*word));
    }
    true
}

/// Whether all objects of a mapping fit the data sheet, whose entries are in increasing key, with
/// the bytes of a frame.
pub fn all_fit(rows: &[EntryRow<'_>], rpdo: &Rpdo, bytes: &[u8]) -> bool
    requires { AllPairs (λ e f. is_key_before e.key f.key ≡ true) rows.now }
    ensures { result ≡ all_fit (map row_view rows.now) rpdo.now bytes.now }
{
    objects_fit(rows, count_of(rpdo), &rpdo.objects, bytes)
}

// what the bytes of its object bring an entry
fn brought_by(entry: &HeldEntry, bytes: &[u8]) -> Brought
    ensures { result ≡ brought_by entry.now bytes.now }
{
    if bytes.len() == entry.width && entry.width <= 8 {
        Brought::Number(unsigned_of(bytes))
    } else {
        Brought::Unclear
    }
}

// where an entry is mapped twice, it is unclear which object is its last
fn twice(before: Brought, brought: Brought) -> Brought
    ensures { result ≡ twice before brought }
{
    match before {
        Brought::Nothing => brought,
        _ => Brought::Unclear,
    }
}

// what is brought with the object at a place of a mapping of so many, which has the first bytes
fn with_brought(
    entry: &HeldEntry,
    is_mapped: bool,
    word: Option<u64>,
    bytes: &[u8],
    brought: Brought,
) -> Brought
    ensures { result ≡ with_brought entry.now is_mapped word bytes.now brought }
{
    if is_mapped && is_object_of(entry.key, word) {
        let own = first_bytes(bytes, object_bytes(word));
        twice(brought, brought_by(entry, own))
    } else {
        brought
    }
}

// how many objects are mapped
fn count_of(rpdo: &Rpdo) -> usize
    ensures { result ≡ count_of rpdo.now }
{
    match rpdo.count {
        Some(count) => count as usize,
        None => 0,
    }
}

// what the objects of a mapping of so many bring an entry with the bytes of a frame
fn objects_bring(entry: &HeldEntry, count: usize, objects: &[Option<u64>], bytes: &[u8]) -> Brought
    ensures { result ≡ brought_from entry.now count 0 objects.now bytes.now Nothing }
{
    let mut brought = Brought::Nothing;
    let mut rest = bytes;
    for (place, word) in objects.iter().enumerate() {
        brought = with_brought(entry, place < count, *word, rest, brought);
        rest = later_bytes(rest, object_bytes(*word));
    }
    brought
}

// where another RPDO may map the entry too, a device may take their frames in another order
fn alone(shared: bool, brought: Brought) -> Brought
    ensures { result ≡ alone shared brought }
{
    match brought {
        Brought::Number(_) if shared => Brought::Unclear,
        _ => brought,
    }
}

// what a frame of the RPDO with an identifier brings an entry
fn brought_to(entry: &HeldEntry, rpdos: &Rpdos, id: u16, rpdo: &Rpdo, bytes: &[u8]) -> Brought
    ensures { result ≡ brought_to entry.now rpdos.now id rpdo.now bytes.now }
{
    let brought = objects_bring(entry, count_of(rpdo), &rpdo.objects, bytes);
    alone(rpdos.another_maps(id, entry.key), brought)
}

fn is_same(known: Option<u64>, number: u64) -> bool
    ensures { result ≡ is_same known number }
{
    match known {
        Some(known) => known == number,
        None => false,
    }
}

// the value of an entry, with a frame that brings it a number
fn value_after(value: Option<RpdoValue>, number: u64, micros: u64) -> RpdoValue
    ensures { result ≡ value_after value number micros }
{
    match value {
        Some(value) if value.number == number => value,
        _ => RpdoValue {
            number,
            since: micros,
        },
    }
}

// whether a heartbeat showed the device operational, later than the tolerance after the frame
fn is_shown(tolerance: u32, operational: Option<u64>, value: RpdoValue) -> bool
    ensures { result ≡ is_shown tolerance operational value }
{
    match operational {
        Some(beat) => is_past(value.since, tolerance, beat),
        None => false,
    }
}

impl RpdoWrites {
    /// Nothing is known.
    #[tactic(auto, unfolding(crate::specs::RpdoWrites::no_writes))]
    pub fn none() -> RpdoWrites
        ensures { result ≡ no_writes }
    {
        RpdoWrites {
            written: Written::nothing(),
            values: [None; MOST_HELD],
        }
    }

    /// What RPDOs brought isn't known.
    pub fn forget_values(&mut self)
        ensures { self.new ≡ without_values self.old }
    {
        self.values = [None; MOST_HELD];
    }

    fn value_at(&self, place: usize) -> Option<RpdoValue>
        ensures { result ≡ slice_index_or self.now.values place None }
    {
        if place < MOST_HELD {
            self.values[place]
        } else {
            None
        }
    }

    fn set_value(&mut self, place: usize, value: Option<RpdoValue>)
        ensures { self.new ≡ with_value self.old place value }
    {
        if place < MOST_HELD {
            self.values[place] = value;
        }
    }

    fn forget_number(&mut self, place: usize)
        ensures { self.new ≡ without_number self.old place }
    {
        self.written.set(Some(place), None);
    }

    /// What RPDOs brought an entry isn't known.
    pub fn forget(&mut self, held: &HeldEntries, key: Key)
        ensures { self.new ≡ forgotten held.now.entries.items self.old key }
    {
        if let Some(place) = held.place(key) {
            self.set_value(place, None);
        }
    }

    // A frame brings the entry at a place a number.
    fn number(&mut self, place: usize, number: u64, micros: u64)
        ensures { self.new ≡ numbered_at self.old place number micros }
    {
        if is_same(self.written.number_at(Some(place)), number) {
            return;
        }
        let value = value_after(self.value_at(place), number, micros);
        self.forget_number(place);
        self.set_value(place, Some(value));
    }

    fn take_at(&mut self, place: usize, brought: Brought, micros: u64)
        ensures { self.new ≡ taken_at self.old place brought micros }
    {
        match brought {
            Brought::Nothing => {}
            Brought::Unclear => {
                self.forget_number(place);
                self.set_value(place, None);
            }
            Brought::Number(number) => self.number(place, number, micros),
        }
    }

    /// A frame of the RPDO with an identifier comes, with as many bytes as it maps.
    #[tactic(auto, unfolding(crate::specs::RpdoWrites::taken_from))]
    pub fn receive(
        &mut self,
        held: &HeldEntries,
        rpdos: &Rpdos,
        id: u16,
        rpdo: &Rpdo,
        bytes: &[u8],
        micros: u64,
    )
        ensures { self.new ≡ received
            held.now.entries.items self.old rpdos.now id rpdo.now bytes.now micros }
    {
        for (place, entry) in held.entries.as_slice().iter().enumerate() {
            let brought = brought_to(entry, rpdos, id, rpdo, bytes);
            self.take_at(place, brought, micros);
        }
    }

    // What an RPDO brought the entry at a place is known, where the device was operational.
    fn settle_at(&mut self, place: usize, tolerance: u32, operational: Option<u64>)
        ensures { self.new ≡ settled_at tolerance operational self.old place
            (slice_index_or self.old.values place None) }
    {
        match self.value_at(place) {
            Some(value) if is_shown(tolerance, operational, value) => {
                self.written.set(Some(place), Some(value.number));
                self.set_value(place, None);
            }
            _ => {}
        }
    }

    /// A transfer is requested: what RPDOs brought before is known, where a heartbeat showed the
    /// device operational later than the tolerance after that. `operational`: when the bus was free
    /// before the newest one.
    #[tactic(auto, unfolding(crate::specs::RpdoWrites::settled_from))]
    pub fn settle(&mut self, held: &HeldEntries, tolerance: u32, operational: Option<u64>)
        ensures { self.new ≡ settled held.now.entries.items self.old tolerance operational }
    {
        for (place, _) in held.entries.as_slice().iter().enumerate() {
            self.settle_at(place, tolerance, operational);
        }
    }
}
