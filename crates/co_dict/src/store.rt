//! The trait of stores.

ghost use Rattle.std.specs.Prelude.{◌≡◌, ◌≤◌, ℕ, true, length, List, Some, is_some};
ghost use Rattle.std.specs.Option.{option_map};
ghost use Rattle.co_dict.specs.Rows.{Contents, takes, capacity_at, written, restored};
ghost use Rattle.co_dict.specs.Stores.{
  Description,
  IsDictionary,
  IsGreatestCapacity,
  greatest_capacity,
};
ghost use Rattle.co_dict.specs.Places.{place_of, key_at, row_at, bytes_at, takes_at, written_at};
ghost use Rattle.co_value.specs.declared.key.Key.{Key};

use crate::area::Area;
use crate::row::Row;
use co_value::Key;

/// The entries of an object dictionary with their bytes: a finite map, in which a call changes the
/// bytes of the entries that it names and nothing else (CiA 301, 7.4).
pub trait ObjectStore {
    /// The node-ID, the rows, the initial bytes, the dummy entries that may be mapped, the keys: no
    /// call changes them.
    ghost description: { Self → Description };

    /// The bytes of each entry.
    ghost contents: { Self → Contents };

    /// The node-ID that the dictionary was built for, 1 to 127.
    fn node_id(&self) -> u8
        ensures node { result ≡ (description self.now).node }
        ensures first { 1 ≤ result }
        ensures last { result ≤ 127 };

    /// The row of an entry; `None` where there is no entry.
    fn row(&self, key: Key) -> Option<Row>
        ensures { result ≡ (description self.now).rows key };

    /// The bytes of an entry; `None` where there is no entry.
    fn bytes(&self, key: Key) -> Option<&[u8]>
        ensures { option_map (λ bytes. bytes.now) result ≡ contents self.now key };

    /// Whether the dummy entry of an index, 0002h to 0007h, may be mapped into an RPDO (CiA 306,
    /// dummy usage).
    fn dummy(&self, index: u16) -> bool
        ensures { result ≡ (description self.now).dummies index };

    /// Sets the bytes of one entry; they must fit it.
    fn set(&mut self, key: Key, bytes: &[u8])
        requires { takes (description self.old).rows key (length bytes.now) ≡ true }
        ensures contents { contents self.new ≡ written (contents self.old) key bytes.now }
        ensures description { description self.new ≡ description self.old };

    /// The place of an entry, its number in the list of the keys; `None` where there is no entry.
    /// No call changes a place, so it needs to be looked up only once.
    fn place(&self, key: Key) -> Option<u32>
        ensures { result ≡ place_of (description self.now) key };

    /// The row of the entry at a place; `None` where there is no entry.
    fn row_at(&self, place: u32) -> Option<Row>
        ensures { result ≡ row_at (description self.now) place };

    /// The bytes of the entry at a place; `None` where there is no entry.
    fn bytes_at(&self, place: u32) -> Option<&[u8]>
        ensures { option_map (λ bytes. bytes.now) result
            ≡ bytes_at (description self.now) (contents self.now) place };

    /// Sets the bytes of the entry at a place; they must fit it.
    fn set_at(&mut self, place: u32, bytes: &[u8])
        requires { takes_at (description self.old) place (length bytes.now) ≡ true }
        ensures contents { contents self.new
            ≡ written_at (description self.old) (contents self.old) place bytes.now }
        ensures description { description self.new ≡ description self.old };

    /// Restores the entries of an area to their initial bytes.
    fn reset(&mut self, area: Area)
        ensures contents { contents self.new
            ≡ restored area (description self.old).initial (contents self.old) }
        ensures description { description self.new ≡ description self.old };

    /// The greatest capacity of all entries, in bytes; 0 where there is no entry.
    fn greatest_capacity(&self) -> u16
        ensures { result ≡ greatest_capacity (description self.now) };

    /// Each store is a dictionary.
    ghost lawful: { (store : Self) → IsDictionary (description store) (contents store) };
}

/// What holds of each store: its keys are finitely many, none has an index below 1000h, each entry
/// has bytes that fit it, the capacity of a number is its width, and an entry whose type is fixed
/// has that type. A law: a call of it changes nothing.
pub fn store_laws<S: ObjectStore>(store: &S)
    ensures { IsDictionary (S.description store.now) (S.contents store.now) }
{}

/// No entry of a store has room for more than 65,535 bytes. This is a law: a call of it changes
/// nothing.
#[tactic(auto, using(crate::proofs::StoreLemmas::room_at))]
pub fn capacity_law<S: ObjectStore>(store: &S)
    ensures { (key : Key) → capacity_at (S.description store.now).rows key ≤ 65535 }
{
    store_laws(store);
}

/// The greatest capacity of a store is the largest of all its entries: none has more, one has as
/// much, if there is any, and no other number is so. A law: a call of it changes nothing.
pub fn greatest_capacity_law<S: ObjectStore>(store: &S)
    ensures greatest { IsGreatestCapacity (S.description store.now).rows
        (greatest_capacity (S.description store.now)) }
    ensures enough { (key : Key) → capacity_at (S.description store.now).rows key
        ≤ greatest_capacity (S.description store.now) }
    ensures only { (size : ℕ) → IsGreatestCapacity (S.description store.now).rows size
        → size ≡ greatest_capacity (S.description store.now) }
{
    store_laws(store);
}

/// What holds of the places of each store: exactly the entries have places, no two of them the same
/// one; and `row`, `bytes` and `set` do the same by place as by key. A law: a call of it changes
/// nothing.
pub fn place_laws<S: ObjectStore>(store: &S)
    ensures present { (key : Key) → is_some (place_of (S.description store.now) key)
        ≡ is_some ((S.description store.now).rows key) }
    ensures different { (a b : Key) (place : ℕ) → place_of (S.description store.now) a ≡ Some place
        → place_of (S.description store.now) b ≡ Some place → a ≡ b }
    ensures key { (key : Key) (place : ℕ) → place_of (S.description store.now) key ≡ Some place
        → key_at (S.description store.now) place ≡ Some key }
    ensures row { (key : Key) (place : ℕ) → place_of (S.description store.now) key ≡ Some place
        → row_at (S.description store.now) place ≡ (S.description store.now).rows key }
    ensures bytes { (key : Key) (place : ℕ) → place_of (S.description store.now) key ≡ Some place
        → bytes_at (S.description store.now) (S.contents store.now) place
        ≡ S.contents store.now key }
    ensures takes { (key : Key) (place size : ℕ)
        → place_of (S.description store.now) key ≡ Some place
        → takes_at (S.description store.now) place size
        ≡ takes (S.description store.now).rows key size }
    ensures written { (key : Key) (place : ℕ) (bytes : List ℕ)
        → place_of (S.description store.now) key ≡ Some place
        → written_at (S.description store.now) (S.contents store.now) place bytes
        ≡ written (S.contents store.now) key bytes }
{
    store_laws(store);
}
