//! Which objects and sub-indices are there.

ghost use Rattle.std.specs.Prelude.{◌≡◌, ◌≤◌, Some, None, IfOk};
ghost use Rattle.co_dict.specs.Refusals.{refusal_in};
ghost use Rattle.co_dict.specs.Objects.{has_object, has_sub, missing_entry, subs_present};
ghost use Rattle.co_dict.specs.Places.{place_of};

use crate::row::Row;
use crate::store::{ObjectStore, place_laws};
use co_frame_aborts::AbortCode;
use co_value::Key;

/// Whether an object has an entry of a sub-index (CiA 301, 7.4.1).
pub fn has_sub<S: ObjectStore>(store: &S, index: u16, sub: u8) -> bool
    ensures { result ≡ has_sub (S.description store.now).rows index sub }
{
    store.row(Key { index, sub }).is_some()
}

/// Whether there is an entry of the index, at any sub-index (CiA 301, 7.4.1).
#[tactic(auto, unfolding(crate::specs::Objects::has_object))]
pub fn has_object<S: ObjectStore>(store: &S, index: u16) -> bool
    ensures { result ≡ has_object (S.description store.now).rows index }
{
    (0..256u16).any(|sub| has_sub(store, index, sub as u8))
}

/// The row of an entry. `Err`: there is no object at the index (06020000h), or no such sub-index
/// (06090011h; CiA 301, 7.2.4.3.17).
pub fn entry_row<S: ObjectStore>(store: &S, key: Key) -> Result<Row, AbortCode>
    ensures refusal { refusal_in result ≡ missing_entry (S.description store.now).rows key }
    ensures row { IfOk result (λ row. (S.description store.now).rows key ≡ Some row) }
{
    row_in(store, key.index, key.sub)
}

fn row_in<S: ObjectStore>(store: &S, index: u16, sub: u8) -> Result<Row, AbortCode>
    ensures refusal { refusal_in result
        ≡ missing_entry (S.description store.now).rows (record { index = index; sub = sub }) }
    ensures row { IfOk result (λ row.
        (S.description store.now).rows (record { index = index; sub = sub })
        ≡ Some row) }
{
    match store.row(Key { index, sub }) {
        Some(row) => Ok(row),
        None => Err(missing(store, index, sub)),
    }
}

/// The place of an entry with its row, from one search. `Err` as for `entry_row`.
pub(crate) fn placed_row<S: ObjectStore>(store: &S, key: Key) -> Result<(u32, Row), AbortCode>
    ensures refusal { refusal_in result ≡ missing_entry (S.description store.now).rows key }
    ensures place { IfOk result (λ found. place_of (S.description store.now) key ≡ Some found.0) }
    ensures row { IfOk result (λ found. (S.description store.now).rows key ≡ Some found.1) }
{
    placed_row_in(store, key.index, key.sub)
}

fn placed_row_in<S: ObjectStore>(store: &S, index: u16, sub: u8) -> Result<(u32, Row), AbortCode>
    ensures refusal { refusal_in result
        ≡ missing_entry (S.description store.now).rows (record { index = index; sub = sub }) }
    ensures place { IfOk result (λ found.
        place_of (S.description store.now) (record { index = index; sub = sub }) ≡ Some found.0) }
    ensures row { IfOk result (λ found.
        (S.description store.now).rows (record { index = index; sub = sub })
        ≡ Some found.1) }
{
    place_laws(store);
    let Some(place) = store.place(Key { index, sub }) else {
        return Err(missing(store, index, sub));
    };
    let Some(row) = store.row_at(place) else {
        unreachable!();
    };
    Ok((place, row))
}

// why there is no entry: there is no object, or no such sub-index
#[cold]
#[inline(never)]
fn missing<S: ObjectStore>(store: &S, index: u16, sub: u8) -> AbortCode
    requires { (S.description store.now).rows (record { index = index; sub = sub }) ≡ None }
    ensures { Some result.0
        ≡ missing_entry (S.description store.now).rows (record { index = index; sub = sub }) }
{
    let _ = sub;
    if has_object(store, index) {
        AbortCode::SUB_INDEX_MISSING
    } else {
        AbortCode::OBJECT_MISSING
    }
}

// the greatest number up to `most` such that sub-indices 1 to it are there
#[tactic(auto, unfolding(crate::specs::Objects::subs_present))]
pub(crate) fn subs_present<S: ObjectStore>(store: &S, index: u16, most: u8) -> u8
    requires { most ≤ 254 }
    ensures value { result ≡ subs_present (S.description store.now).rows index most }
    ensures most { result ≤ most }
{
    (1..most + 1)
        .take_while(|sub| has_sub(store, index, *sub))
        .count() as u8
}
