//! Each entry is set to its greatest bytes: no other one changes, in both stores.

ghost use Rattle.std.specs.Prelude.{◌≡◌, ◌≤◌, length};

use co_dict::{Area, ObjectStore, store_laws};
use co_dict_image::ImageStore;
use co_dict_list::{Limits, ListStore};
use co_scripts::{MANUFACTURER, PDOS, PROFILE, sheet_of};
use co_sheet::{EntryRow, read};
use co_value::Key;
use std::test::Fail;

/// Strings of three bytes and domains of seven, so that no entry has room for more than eight.
const LIMITS: Limits<'static> = Limits {
    strings: 3,
    domains: 7,
    own: &[],
};

const GREATEST: [u8; 8] = [0xFF; 8];

/// `size` bytes of FFh, at most eight.
fn greatest(size: usize) -> &'static [u8]
    requires { size ≤ 8 }
    ensures { length result.now ≡ size }
{
    &GREATEST[..size]
}

/// Sets an entry to bytes of FFh, as many as it has room for; false if there is no such entry, or
/// it has too much room.
fn set_greatest<S: ObjectStore>(store: &mut S, key: Key) -> bool {
    store_laws(store);
    let Some(row) = store.row(key) else {
        return false;
    };
    let size = usize::from(row.capacity);
    if size > 8 {
        return false;
    }
    store.set(key, greatest(size));
    store.bytes(key) == Some(greatest(size))
}

/// Whether all entries but one are the same in two stores.
fn are_same_but<S: ObjectStore>(store: &S, other: &S, entries: &[EntryRow<'_>], key: Key) -> bool {
    for entry in entries {
        if entry.key != key && store.bytes(entry.key) != other.bytes(entry.key) {
            return false;
        }
    }
    true
}

/// The first entry whose greatest bytes change another one.
fn first_to_change<S: ObjectStore>(
    store: &mut S,
    untouched: &S,
    entries: &[EntryRow<'_>],
) -> Option<Key> {
    for entry in entries {
        let key = entry.key;
        if !set_greatest(store, key) || !are_same_but(store, untouched, entries, key) {
            return Some(key);
        }
        store.reset(Area::All);
    }
    None
}

#[test]
fn neighbours(rt: HostRuntime) -> Result<(), Fail> {
    let alloc = rt.alloc();
    let text = sheet_of(alloc, &[PROFILE, PDOS], &[MANUFACTURER], "")?;
    let sheet = read(alloc, text.as_bytes())?;
    assert_eq!(rt; sheet.entries().len(), 46);
    let mut list = ListStore::build(alloc, &sheet, 5, &LIMITS)?;
    let untouched = ListStore::build(alloc, &sheet, 5, &LIMITS)?;
    assert!(rt; first_to_change(&mut list, &untouched, sheet.entries()).is_none());
    let mut image = ImageStore::build(alloc, &sheet, 5, &LIMITS)?;
    let untouched = ImageStore::build(alloc, &sheet, 5, &LIMITS)?;
    assert!(rt; first_to_change(&mut image, &untouched, sheet.entries()).is_none());
    Ok(())
}
