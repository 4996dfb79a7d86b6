//! What may be written into the parameters of PDOs besides their COB-ID.

ghost use Rattle.std.specs.Prelude.{◌≡◌, ◌≤◌, Some, true};
ghost use Rattle.co_value.specs.declared.data_type.DataType.TheVariants.{Unsigned32};
ghost use Rattle.co_profile.specs.FixedTypes.{fixed_type_of};
ghost use Rattle.co_dict.specs.Rows.{number_at};
ghost use Rattle.co_dict.specs.Refusals.{refusal_in};
ghost use Rattle.co_dict.specs.MappingCounts.{is_mapping_index, count_refusal};
ghost use Rattle.co_dict.specs.PdoRules.{
  is_pdo_valid,
  transmission_type_refusal,
  inhibit_time_refusal,
  sync_start_refusal,
  mapping_entry_refusal,
  mapping_count_refusal,
};

use crate::cob_id::CobId;
use crate::mapping_words::{MappingWord, check_word, word_width};
use crate::numbers::{number_u8, number_u32};
use crate::objects::subs_present;
use crate::side::Side;
use crate::store::ObjectStore;
use co_frame_aborts::AbortCode;
use co_profile::TransmissionType;
use co_value::Key;

/// Whether the PDO with this communication parameter, 1400h to 15FFh or 1800h to 19FFh, is valid
/// (CiA 301, 7.5.2.35, 7.5.2.37).
pub fn is_pdo_valid<S: ObjectStore>(store: &S, index: u16) -> bool
    requires { fixed_type_of (record { index = index; sub = 1 }) ≡ Some Unsigned32 }
    ensures { result ≡ is_pdo_valid (S.contents store.now) index }
{
    CobId(number_u32(store, Key { index, sub: 1 })).is_valid()
}

// sub-index 2: a transmission type that is supported
pub(crate) fn check_transmission_type(kind: TransmissionType) -> Result<(), AbortCode>
    ensures { refusal_in result ≡ transmission_type_refusal kind.0 }
{
    if kind.is_supported() {
        Ok(())
    } else {
        Err(AbortCode::INVALID_VALUE)
    }
}

// sub-index 3 of a TPDO, the inhibit time, doesn't change while the TPDO is valid
pub(crate) fn check_inhibit_time<S: ObjectStore>(store: &S, index: u16) -> Result<(), AbortCode>
    requires { fixed_type_of (record { index = index; sub = 1 }) ≡ Some Unsigned32 }
    ensures { refusal_in result ≡ inhibit_time_refusal (S.contents store.now) index }
{
    if is_pdo_valid(store, index) {
        Err(AbortCode::NOT_IN_THIS_STATE)
    } else {
        Ok(())
    }
}

// sub-index 6 of a TPDO, the SYNC start value, doesn't change while the TPDO is valid, and is at
// most 240
pub(crate) fn check_sync_start<S: ObjectStore>(
    store: &S,
    index: u16,
    value: u8,
) -> Result<(), AbortCode>
    requires { fixed_type_of (record { index = index; sub = 1 }) ≡ Some Unsigned32 }
    ensures { refusal_in result ≡ sync_start_refusal (S.contents store.now) index value }
{
    if is_pdo_valid(store, index) {
        return Err(AbortCode::NOT_IN_THIS_STATE);
    }
    if value > 240 {
        Err(AbortCode::INVALID_VALUE)
    } else {
        Ok(())
    }
}

/// The mapping word of a mapping parameter, 1600h to 17FFh on the side RPDO and 1A00h to 1BFFh on
/// the side TPDO, at a sub-index, 1 to 64; 0 where there is none (CiA 301, 7.5.2.36, 7.5.2.38).
pub fn mapping_word<S: ObjectStore>(store: &S, side: Side, index: u16, sub: u8) -> MappingWord
    requires index { is_mapping_index side index ≡ true }
    requires first { 1 ≤ sub }
    requires last { sub ≤ 64 }
    ensures { result.0 ≡ number_at (S.contents store.now) (record { index = index; sub = sub }) }
{
    MappingWord(number_u32(store, Key { index, sub }))
}

/// Whether a mapping parameter of a side may count this many of its words while the PDO is not
/// valid (CiA 301, 7.5.2.36, 7.5.2.38). The first of these refuses it: more words than are there,
/// up to 64 (06090030h), a counted word that can't be mapped (06040041h), more than 8 bytes in all
/// (06040042h).
pub fn check_count<S: ObjectStore>(
    store: &S,
    side: Side,
    index: u16,
    count: u8,
) -> Result<(), AbortCode>
    requires { is_mapping_index side index ≡ true }
    ensures { refusal_in result
        ≡ count_refusal side (S.description store.now) (S.contents store.now) index count }
{
    if count > subs_present(store, index, 64) {
        return Err(AbortCode::INVALID_VALUE);
    }
    let mut total = 0u16;
    for earlier in 0..count {
        match word_width(store, side, mapping_word(store, side, index, earlier + 1)) {
            Some(width) => total += u16::from(width),
            None => return Err(AbortCode::NOT_MAPPABLE),
        }
    }
    if total > 8 {
        return Err(AbortCode::MAPPING_TOO_LONG);
    }
    Ok(())
}

// sub-indices 1 to 64 of a mapping parameter: they don't change while the PDO is valid or any of
// them counts, and a word other than 0 has to be one that the side may map
pub(crate) fn check_mapping_entry<S: ObjectStore>(
    store: &S,
    side: Side,
    index: u16,
    word: MappingWord,
) -> Result<(), AbortCode>
    requires { is_mapping_index side index ≡ true }
    ensures { refusal_in result
        ≡ mapping_entry_refusal side (S.description store.now) (S.contents store.now) index word.0 }
{
    if is_pdo_valid(store, index - 0x200) || number_u8(store, Key { index, sub: 0 }) != 0 {
        return Err(AbortCode::NOT_IN_THIS_STATE);
    }
    if word.0 == 0 {
        Ok(())
    } else {
        check_word(store, side, word)
    }
}

// sub-index 0 of a mapping parameter: it doesn't change while the PDO is valid
pub(crate) fn check_mapping_count<S: ObjectStore>(
    store: &S,
    side: Side,
    index: u16,
    count: u8,
) -> Result<(), AbortCode>
    requires { is_mapping_index side index ≡ true }
    ensures { refusal_in result
        ≡ mapping_count_refusal side (S.description store.now) (S.contents store.now) index count }
{
    if is_pdo_valid(store, index - 0x200) {
        return Err(AbortCode::NOT_IN_THIS_STATE);
    }
    check_count(store, side, index, count)
}
