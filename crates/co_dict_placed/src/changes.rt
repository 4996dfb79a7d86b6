//! Which entries changed, a bit each, by their places.

ghost use Rattle.std.specs.Prelude.{◌≡◌, ◌<◌, ◌/◌, ◌==◌, ◌||◌, ◌&&◌, ℕ, List, length, not, replicate, false};
ghost use Rattle.std.specs.List.{list_any};
ghost use Rattle.co_value.specs.declared.key.Key.{Key};
ghost use Rattle.co_dict.specs.Stores.{Description};
ghost use Rattle.co_dict_placed.specs.Changes.{is_at, is_changed, with_change, with_key, with_keys, without_change};

use co_dict::ObjectStore;
use co_value::Key;

/// Notes that the entry at a place changed. Changes have a bit for each entry: bit p % 8 of byte
/// p / 8 is that of the entry at place p. Past the last byte nothing is noted, so of a caller that
/// asks for none an empty slice is enough.
#[inline(always)]
pub fn note_change(changes: &mut [u8], place: usize)
    ensures { changes.new ≡ with_change changes.old place }
{
    let at = place / 8;
    if at < changes.len() {
        changes[at] |= 1 << (place % 8);
    }
}

/// Notes that the entry with a key changed, if there is one.
pub fn note_key<S: ObjectStore>(store: &S, key: Key, changes: &mut [u8])
    ensures { changes.new ≡ with_key (S.description store.now) key changes.old }
{
    if let Some(place) = store.place(key) {
        note_change(changes, place as usize);
    }
}

/// Forgets that the entry at a place changed.
pub fn forget_change(changes: &mut [u8], place: usize)
    ensures { changes.new ≡ without_change changes.old place }
{
    let at = place / 8;
    if at < changes.len() {
        changes[at] &= !(1 << (place % 8));
    }
}

/// Whether the entry at a place changed.
#[inline(always)]
pub fn is_changed(changes: &[u8], place: usize) -> bool
    ensures { result ≡ is_changed changes.now place }
{
    let at = place / 8;
    at < changes.len() && (changes[at] >> (place % 8)) & 1 == 1
}

/// What changes are: after `note_change` the entry at this place changed, and each other one only
/// if it had before; after several keys the entries with these keys, and those that had before;
/// after `forget_change` all that had before but this one; by bytes of 0 none. A law: a call of it
/// changes nothing.
pub fn change_laws()
    ensures noted { (changes : List ℕ) (place n : ℕ) → place / 8 < length changes →
        is_changed (with_change changes place) n ≡ (n == place || is_changed changes n) }
    ensures by_keys { (d : Description) (keys : List Key) (changes : List ℕ) (n : ℕ) →
        n / 8 < length changes → is_changed (with_keys d keys changes) n
        ≡ (list_any (is_at d n) keys || is_changed changes n) }
    ensures forgotten { (changes : List ℕ) (place n : ℕ) →
        is_changed (without_change changes place) n ≡ (not (n == place) && is_changed changes n) }
    ensures none { (count n : ℕ) → is_changed (replicate count 0) n ≡ false }
{}
