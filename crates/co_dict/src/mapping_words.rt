//! Mapping words of PDOs, and what may be mapped.

ghost use Rattle.std.specs.Prelude.{◌≡◌, ◌≤◌, IfSome};
ghost use Rattle.co_dict.specs.Refusals.{refusal_in};
ghost use Rattle.co_dict.specs.MappingWords.{
  mapped_key,
  mapped_bits,
  dummy_width,
  usable_dummy,
  is_mapped_access,
  is_mapped_index,
  may_be_mapped,
  entry_width,
  mapping_width,
  word_width,
  missing_mapped,
  word_refusal,
};

use crate::objects::entry_row;
use crate::row::Row;
use crate::side::Side;
use crate::store::ObjectStore;
use co_frame_aborts::AbortCode;
use co_profile::Access;
use co_value::Key;

/// A mapping word of a PDO: the index in bits 31 to 16, the sub-index in bits 15 to 8, the length
/// in bits in bits 7 to 0 (CiA 301, 7.5.2.36, 7.5.2.38).
#[derive(Clone, Copy)]
pub struct MappingWord(pub u32);

impl MappingWord {
    /// What is mapped.
    pub fn key(self) -> Key
        ensures { result ≡ mapped_key self.0 }
    {
        Key {
            index: (self.0 / 0x1_0000) as u16,
            sub: (self.0 / 0x100 % 0x100) as u8,
        }
    }

    /// The length in bits.
    pub fn bits(self) -> u8
        ensures { result ≡ mapped_bits self.0 }
    {
        (self.0 % 0x100) as u8
    }
}

// the width in bytes of a dummy entry
fn dummy_width(index: u16) -> Option<u8>
    ensures value { result ≡ dummy_width index }
    ensures small { IfSome result (λ width. width ≤ 8) }
{
    match index {
        0x0002 | 0x0005 => Some(1),
        0x0003 | 0x0006 => Some(2),
        0x0004 | 0x0007 => Some(4),
        _ => None,
    }
}

/// The width in bytes of a dummy entry, 0002h to 0007h at sub-index 0, that a PDO of this side may
/// map: an RPDO those that the data sheet allows, a TPDO none (CiA 306, dummy usage).
pub fn usable_dummy<S: ObjectStore>(store: &S, side: Side, index: u16) -> Option<u8>
    ensures value { result ≡ usable_dummy side (S.description store.now).dummies index }
    ensures small { IfSome result (λ width. width ≤ 8) }
{
    match side {
        Side::Rpdo if store.dummy(index) => dummy_width(index),
        Side::Rpdo | Side::Tpdo => None,
    }
}

impl Side {
    fn maps_access(self, access: Access) -> bool
        ensures { result ≡ is_mapped_access self access }
    {
        match self {
            Side::Rpdo => matches!(access, Access::Rw | Access::Rww | Access::Wo),
            Side::Tpdo => matches!(
                access,
                Access::Ro | Access::Rw | Access::Rwr | Access::Constant
            ),
        }
    }

    fn maps_index(self, index: u16) -> bool
        ensures { result ≡ is_mapped_index self index }
    {
        self == Side::Tpdo || index >= 0x2000
    }

    fn maps(self, index: u16, row: &Row) -> bool
        ensures { result ≡ may_be_mapped self index row.now }
    {
        row.mappable && self.maps_access(row.access) && self.maps_index(index)
    }
}

/// The width in bytes of an entry that a PDO of this side may map: PDOMapping is set, the type is
/// numeric, and the access is ro, rw, rwr or const for a TPDO, rw, rww or wo and an index from
/// 2000h on for an RPDO (CiA 306, object description). `None` for every other key.
pub fn entry_width<S: ObjectStore>(store: &S, side: Side, key: Key) -> Option<u8>
    ensures value { result ≡ entry_width side (S.description store.now).rows key }
    ensures small { IfSome result (λ width. width ≤ 8) }
{
    let row = store.row(key)?;
    if !side.maps(key.index, &row) {
        return None;
    }
    let width = row.data_type.width()?;
    Some(width as u8)
}

/// The width in bytes of what a PDO of this side may map at a key: a usable dummy at sub-index 0,
/// or an entry.
pub fn mapping_width<S: ObjectStore>(store: &S, side: Side, key: Key) -> Option<u8>
    ensures value { result ≡ mapping_width side (S.description store.now) key }
    ensures small { IfSome result (λ width. width ≤ 8) }
{
    match usable_dummy(store, side, key.index) {
        Some(width) if key.sub == 0 => Some(width),
        Some(_) => None,
        None => entry_width(store, side, key),
    }
}

/// The width in bytes that a mapping word maps on a side; `None` where its key may not be mapped
/// there, or its length is not 8 times the width.
pub fn word_width<S: ObjectStore>(store: &S, side: Side, word: MappingWord) -> Option<u8>
    ensures value { result ≡ word_width side (S.description store.now) word.0 }
    ensures small { IfSome result (λ width. width ≤ 8) }
{
    let width = mapping_width(store, side, word.key())?;
    if word.bits() == 8 * width {
        Some(width)
    } else {
        None
    }
}

// what a word maps is there
fn check_mapped<S: ObjectStore>(store: &S, side: Side, key: Key) -> Result<(), AbortCode>
    ensures { refusal_in result ≡ missing_mapped side (S.description store.now) key }
{
    match usable_dummy(store, side, key.index) {
        Some(_) if key.sub == 0 => Ok(()),
        Some(_) => Err(AbortCode::SUB_INDEX_MISSING),
        None => {
            entry_row(store, key)?;
            Ok(())
        }
    }
}

// a word may be mapped on a side: what it maps is there, may be mapped, and has this length
pub(crate) fn check_word<S: ObjectStore>(
    store: &S,
    side: Side,
    word: MappingWord,
) -> Result<(), AbortCode>
    ensures { refusal_in result ≡ word_refusal side (S.description store.now) word.0 }
{
    check_mapped(store, side, word.key())?;
    match word_width(store, side, word) {
        Some(_) => Ok(()),
        None => Err(AbortCode::NOT_MAPPABLE),
    }
}
