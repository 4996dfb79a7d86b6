//! The numbers that entries hold.

ghost use Rattle.std.specs.Prelude.{◌≡◌, Some, true, length};
ghost use Rattle.co_value.specs.Numbers.{unsigned_of};
ghost use Rattle.co_value.specs.declared.data_type.DataType.TheVariants.{Unsigned8, Unsigned16, Unsigned32};
ghost use Rattle.co_profile.specs.FixedTypes.{fixed_type_of};
ghost use Rattle.co_dict.specs.Rows.{number_at, takes, with_number};

use crate::store::{ObjectStore, store_laws};
use co_value::{Key, read_u8, read_u16, read_u32};

/// The number of an entry whose type is fixed as UNSIGNED8; 0 where there is no such entry
/// (CiA 301, 7.5.2).
pub fn number_u8<S: ObjectStore>(store: &S, key: Key) -> u8
    requires { fixed_type_of key ≡ Some Unsigned8 }
    ensures { result ≡ number_at (S.contents store.now) key }
{
    store_laws(store);
    match store.bytes(key) {
        Some(bytes) => read_u8(bytes),
        None => 0,
    }
}

/// Sets the number of an entry whose type is fixed as UNSIGNED8; where there is no such entry
/// nothing changes. Limits and access rights aren't checked (CiA 301, 7.5.2).
pub fn set_u8<S: ObjectStore>(store: &mut S, key: Key, number: u8)
    requires { fixed_type_of key ≡ Some Unsigned8 }
    ensures contents { S.contents store.new
        ≡ with_number (S.description store.old).rows key number (S.contents store.old) }
    ensures description { S.description store.new ≡ S.description store.old }
{
    store_laws(store);
    if store.row(key).is_some() {
        store.set(key, &[number]);
    }
}

/// The number of an entry whose type is fixed as UNSIGNED16; 0 where there is no such entry
/// (CiA 301, 7.5.2).
pub fn number_u16<S: ObjectStore>(store: &S, key: Key) -> u16
    requires { fixed_type_of key ≡ Some Unsigned16 }
    ensures { result ≡ number_at (S.contents store.now) key }
{
    store_laws(store);
    match store.bytes(key) {
        Some(bytes) => read_u16(bytes),
        None => 0,
    }
}

/// The number of an entry whose type is fixed as UNSIGNED32; 0 where there is no such entry
/// (CiA 301, 7.5.2).
pub fn number_u32<S: ObjectStore>(store: &S, key: Key) -> u32
    requires { fixed_type_of key ≡ Some Unsigned32 }
    ensures { result ≡ number_at (S.contents store.now) key }
{
    store_laws(store);
    match store.bytes(key) {
        Some(bytes) => read_u32(bytes),
        None => 0,
    }
}

// the number of the byte that an entry of UNSIGNED8 is to take
pub(crate) fn byte_for<S: ObjectStore>(store: &S, key: Key, bytes: &[u8]) -> u8
    requires fixed { fixed_type_of key ≡ Some Unsigned8 }
    requires takes { takes (S.description store.now).rows key (length bytes.now) ≡ true }
    ensures { result ≡ unsigned_of bytes.now }
{
    store_laws(store);
    read_u8(bytes)
}

// the number of the four bytes that an entry of UNSIGNED32 is to take
pub(crate) fn word_for<S: ObjectStore>(store: &S, key: Key, bytes: &[u8]) -> u32
    requires fixed { fixed_type_of key ≡ Some Unsigned32 }
    requires takes { takes (S.description store.now).rows key (length bytes.now) ≡ true }
    ensures { result ≡ unsigned_of bytes.now }
{
    store_laws(store);
    read_u32(bytes)
}

fn four_bytes(bytes: &[u8]) -> [u8; 4]
    requires { length bytes.now ≡ 4 }
    ensures { result ≡ bytes.now }
{
    let mut copy = [0; 4];
    copy.copy_from_slice(bytes);
    copy
}

// the bytes of an entry of UNSIGNED32
pub(crate) fn word_bytes<S: ObjectStore>(store: &S, key: Key) -> Option<[u8; 4]>
    requires { fixed_type_of key ≡ Some Unsigned32 }
    ensures { result ≡ S.contents store.now key }
{
    store_laws(store);
    let bytes = store.bytes(key)?;
    Some(four_bytes(bytes))
}
