//! The communication and the mapping parameter of a PDO.

ghost use Rattle.std.specs.Prelude.{◌≡◌, Some, true};
ghost use Rattle.co_value.specs.declared.data_type.DataType.TheVariants.{Unsigned8, Unsigned32};
ghost use Rattle.co_profile.specs.FixedTypes.{fixed_type_of};
ghost use Rattle.co_dict.specs.MappingCounts.{is_mapping_index};
ghost use Rattle.co_pdo.specs.Mappings.{communication_of, mapping_index, has_pdo};
ghost use Rattle.co_pdo.specs.Pdos.{cob_id_of, is_pdo_active};

use co_dict::{CobId, ObjectStore, Side, number_u8, number_u32};
use co_profile::{IndexRange, PdoNumber, TransmissionType};
use co_value::Key;

/// The index of the communication parameter of PDO k.
fn communication_index(side: Side, k: PdoNumber) -> u16
    ensures value { result ≡ communication_of side k }
    ensures word { fixed_type_of (record { index = result; sub = 1 }) ≡ Some Unsigned32 }
    ensures kind { fixed_type_of (record { index = result; sub = 2 }) ≡ Some Unsigned8 }
{
    match side {
        Side::Rpdo => IndexRange::RPDO_COMMUNICATION.nth(k.get()),
        Side::Tpdo => IndexRange::TPDO_COMMUNICATION.nth(k.get()),
    }
}

/// The index of the mapping parameter of PDO k.
pub(crate) fn mapping_index(side: Side, k: PdoNumber) -> u16
    ensures value { result ≡ mapping_index side k }
    ensures side { is_mapping_index side result ≡ true }
{
    match side {
        Side::Rpdo => IndexRange::RPDO_MAPPING.nth(k.get()),
        Side::Tpdo => IndexRange::TPDO_MAPPING.nth(k.get()),
    }
}

/// Whether the dictionary has PDO k of a side: its COB-ID word is there.
pub fn has_pdo<S: ObjectStore>(store: &S, side: Side, k: PdoNumber) -> bool
    ensures { result ≡ has_pdo side (S.description store.now).rows k }
{
    let index = communication_index(side, k);
    store.row(Key { index, sub: 1 }).is_some()
}

/// The COB-ID word of PDO k of a side; 0 if there is no such PDO (CiA 301, 7.5.2.35 and 7.5.2.37).
pub fn cob_id<S: ObjectStore>(store: &S, side: Side, k: PdoNumber) -> CobId
    ensures { result.0 ≡ cob_id_of side (S.contents store.now) k }
{
    let index = communication_index(side, k);
    CobId(number_u32(store, Key { index, sub: 1 }))
}

/// Whether PDO k of a side is active: its COB-ID word is valid, something is mapped, and its
/// transmission type is 0 to 240, 254 or 255 (CiA 301, 7.5.2.35 to 7.5.2.38).
pub fn is_active<S: ObjectStore>(store: &S, side: Side, k: PdoNumber) -> bool
    ensures { result ≡ is_pdo_active side (S.contents store.now) k }
{
    let index = communication_index(side, k);
    let mapping = mapping_index(side, k);
    let count = number_u8(
        store,
        Key {
            index: mapping,
            sub: 0,
        },
    );
    let kind = TransmissionType(number_u8(store, Key { index, sub: 2 }));
    cob_id(store, side, k).is_valid() && count != 0 && kind.is_supported()
}
