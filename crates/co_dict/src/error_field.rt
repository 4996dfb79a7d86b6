//! 1003h, the pre-defined error field.

ghost use Rattle.std.specs.Prelude.{◌≡◌, ◌≤◌, ◌<◌, Some, true};
ghost use Rattle.co_value.specs.Numbers.{low_bytes};
ghost use Rattle.co_profile.specs.Indices.{error_field};
ghost use Rattle.co_dict.specs.Rows.{written};
ghost use Rattle.co_dict.specs.Objects.{has_sub, subs_present};
ghost use Rattle.co_dict.specs.ErrorField.{error_key, error_count, error_room, moved_down, pushed};

use crate::numbers::{number_u8, word_bytes};
use crate::objects::{has_sub, subs_present};
use crate::store::{ObjectStore, store_laws};
use co_profile::ERROR_FIELD;
use co_value::{Key, bytes_of_u32};

// the key of an error, or for 0 that of the number of errors
fn error_key(sub: u8) -> Key
    ensures { result ≡ error_key sub }
{
    Key {
        index: ERROR_FIELD,
        sub,
    }
}

// the number of errors
pub(crate) fn error_count<S: ObjectStore>(store: &S) -> u8
    ensures { result ≡ error_count (S.contents store.now) }
{
    number_u8(store, error_key(0))
}

// how many errors the field has room for
fn error_room<S: ObjectStore>(store: &S) -> u8
    ensures value { result ≡ error_room (S.description store.now).rows }
    ensures most { result ≤ 254 }
    ensures there { 0 < result → has_sub (S.description store.now).rows error_field 0 ≡ true }
{
    if has_sub(store, ERROR_FIELD, 0) {
        subs_present(store, ERROR_FIELD, 254)
    } else {
        0
    }
}

// the bytes of an error
fn error_bytes<S: ObjectStore>(store: &S, sub: u8) -> [u8; 4]
    requires first { 1 ≤ sub }
    requires last { sub ≤ 254 }
    requires there { has_sub (S.description store.now).rows error_field sub ≡ true }
    ensures { S.contents store.now (error_key sub) ≡ Some result }
{
    store_laws(store);
    word_bytes(store, error_key(sub)).unwrap_or([0; 4])
}

// replaces an error, and returns the old one
fn replace_error<S: ObjectStore>(store: &mut S, sub: u8, error: [u8; 4]) -> [u8; 4]
    requires first { 1 ≤ sub }
    requires last { sub ≤ 254 }
    requires there { has_sub (S.description store.old).rows error_field sub ≡ true }
    ensures before { S.contents store.old (error_key sub) ≡ Some result }
    ensures contents { S.contents store.new ≡ written (S.contents store.old) (error_key sub) error }
    ensures description { S.description store.new ≡ S.description store.old }
{
    let before = error_bytes(store, sub);
    store_laws(store);
    store.set(error_key(sub), &error);
    before
}

// moves 1003:01 to a last sub-index down by one, with a new first error
fn move_down<S: ObjectStore>(store: &mut S, first: [u8; 4], last: u8)
    requires few { last ≤ 254 }
    requires there { last ≤ subs_present (S.description store.old).rows error_field 254 }
    ensures contents { S.contents store.new ≡ moved_down (S.contents store.old) first last }
    ensures description { S.description store.new ≡ S.description store.old }
{
    let mut error = first;
    for earlier in 0..last {
        let next = replace_error(store, earlier + 1, error);
        error = next;
    }
}

fn set_count<S: ObjectStore>(store: &mut S, count: u8)
    requires { has_sub (S.description store.old).rows error_field 0 ≡ true }
    ensures contents { S.contents store.new
        ≡ written (S.contents store.old) (error_key 0) (low_bytes 1 count) }
    ensures description { S.description store.new ≡ S.description store.old }
{
    store_laws(store);
    store.set(error_key(0), &[count]);
}

/// Adds an error to the pre-defined error field (CiA 301, 7.5.2.4): the errors in 1003:01 to h move
/// down by one sub-index, and that of h is dropped; h, at most 254, is the greatest number such
/// that 1003:01 to h are there. 1003:01 gets the code, with 0 in the upper 16 bits, and the number
/// of errors in 1003:00 increases by one, up to h. Without 1003:00 or 1003:01 nothing changes.
/// Limits and access rights aren't checked.
pub fn push_error<S: ObjectStore>(store: &mut S, code: u16)
    ensures contents { S.contents store.new
        ≡ pushed (S.description store.old).rows code (S.contents store.old) }
    ensures description { S.description store.new ≡ S.description store.old }
{
    let room = error_room(store);
    if room == 0 {
        return;
    }
    let count = error_count(store);
    move_down(store, bytes_of_u32(u32::from(code)), room);
    set_count(store, if count < room { count + 1 } else { room });
}
