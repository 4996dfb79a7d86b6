//! The entries whose data type is fixed in every dictionary.

ghost use Rattle.std.specs.Prelude.{◌≡◌, ◌&&◌, nat_le, find, option_map};
ghost use Rattle.co_profile.specs.Indices.{is_within};
ghost use Rattle.co_profile.specs.FixedTypes.{fixed_type_of};

use crate::indices::{
    CONSUMER_HEARTBEAT, DEVICE_TYPE, EMERGENCY_COB_ID, EMERGENCY_INHIBIT_TIME, ERROR_BEHAVIOUR,
    ERROR_FIELD, ERROR_REGISTER, EVENT_TIMER, INHIBIT_TIME, IndexRange, PDO_COB_ID,
    PRODUCER_HEARTBEAT, SYNC_COB_ID, SYNC_COUNTER_OVERFLOW, SYNC_START_VALUE, TRANSMISSION_TYPE,
};
use co_value::DataType::{self, Unsigned8, Unsigned16, Unsigned32};
use co_value::Key;

// a type, the indices, and the first and the last sub-index of the entries that have it
#[derive(Clone, Copy)]
struct FixedType(DataType, IndexRange, u8, u8);

const FIXED_TYPES: [FixedType; 23] = [
    FixedType(Unsigned32, IndexRange(DEVICE_TYPE, DEVICE_TYPE), 0, 0),
    FixedType(Unsigned8, IndexRange(ERROR_REGISTER, ERROR_REGISTER), 0, 0),
    FixedType(Unsigned8, IndexRange(ERROR_FIELD, ERROR_FIELD), 0, 0),
    FixedType(Unsigned32, IndexRange(ERROR_FIELD, ERROR_FIELD), 0x01, 0xFE),
    FixedType(Unsigned32, IndexRange(SYNC_COB_ID, SYNC_COB_ID), 0, 0),
    FixedType(
        Unsigned32,
        IndexRange(EMERGENCY_COB_ID, EMERGENCY_COB_ID),
        0,
        0,
    ),
    FixedType(
        Unsigned16,
        IndexRange(EMERGENCY_INHIBIT_TIME, EMERGENCY_INHIBIT_TIME),
        0,
        0,
    ),
    FixedType(
        Unsigned32,
        IndexRange(CONSUMER_HEARTBEAT, CONSUMER_HEARTBEAT),
        0x01,
        0x7F,
    ),
    FixedType(
        Unsigned16,
        IndexRange(PRODUCER_HEARTBEAT, PRODUCER_HEARTBEAT),
        0,
        0,
    ),
    FixedType(
        Unsigned8,
        IndexRange(SYNC_COUNTER_OVERFLOW, SYNC_COUNTER_OVERFLOW),
        0,
        0,
    ),
    FixedType(
        Unsigned8,
        IndexRange(ERROR_BEHAVIOUR, ERROR_BEHAVIOUR),
        1,
        1,
    ),
    FixedType(Unsigned32, IndexRange::SDO_SERVER, 1, 2),
    FixedType(
        Unsigned32,
        IndexRange::RPDO_COMMUNICATION,
        PDO_COB_ID,
        PDO_COB_ID,
    ),
    FixedType(
        Unsigned8,
        IndexRange::RPDO_COMMUNICATION,
        TRANSMISSION_TYPE,
        TRANSMISSION_TYPE,
    ),
    FixedType(Unsigned8, IndexRange::RPDO_MAPPING, 0, 0),
    FixedType(Unsigned32, IndexRange::RPDO_MAPPING, 1, 64),
    FixedType(
        Unsigned32,
        IndexRange::TPDO_COMMUNICATION,
        PDO_COB_ID,
        PDO_COB_ID,
    ),
    FixedType(
        Unsigned8,
        IndexRange::TPDO_COMMUNICATION,
        TRANSMISSION_TYPE,
        TRANSMISSION_TYPE,
    ),
    FixedType(
        Unsigned16,
        IndexRange::TPDO_COMMUNICATION,
        INHIBIT_TIME,
        INHIBIT_TIME,
    ),
    FixedType(
        Unsigned16,
        IndexRange::TPDO_COMMUNICATION,
        EVENT_TIMER,
        EVENT_TIMER,
    ),
    FixedType(
        Unsigned8,
        IndexRange::TPDO_COMMUNICATION,
        SYNC_START_VALUE,
        SYNC_START_VALUE,
    ),
    FixedType(Unsigned8, IndexRange::TPDO_MAPPING, 0, 0),
    FixedType(Unsigned32, IndexRange::TPDO_MAPPING, 1, 64),
];

// most entries of a large data sheet are past this index, and need no search
const LAST_FIXED_INDEX: u16 = IndexRange::TPDO_MAPPING.1;

/// The data type that CiA 301 fixes for the entry of this key, if it fixes one (object dictionary).
pub fn fixed_type(key: Key) -> Option<DataType>
    ensures { result ≡ fixed_type_of key }
{
    if key.index > LAST_FIXED_INDEX {
        return None;
    }
    type_among(&FIXED_TYPES, key)
}

fn type_among(types: &[FixedType], key: Key) -> Option<DataType>
    ensures { result ≡ option_map (λ f. f.0) (find (λ f. is_within f.1 key.index
        && nat_le f.2 key.sub && nat_le key.sub f.3) types.now) }
{
    for fixed in types {
        if is_covered(fixed, key) {
            return Some(fixed.0);
        }
    }
    None
}

fn is_covered(fixed: &FixedType, key: Key) -> bool
    ensures { result ≡ (is_within fixed.now.1 key.index
        && nat_le fixed.now.2 key.sub && nat_le key.sub fixed.now.3) }
{
    let FixedType(_, indices, first, last) = *fixed;
    indices.contains(key.index) && first <= key.sub && key.sub <= last
}
