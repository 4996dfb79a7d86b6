//! Which entries have a rule of their own.

ghost use Rattle.std.specs.Prelude.{◌≡◌, ◌||◌, true, IfSome};
ghost use Rattle.co_profile.specs.Indices.{is_within, rpdo_communication, tpdo_communication};
ghost use Rattle.co_profile.specs.FixedTypes.{fixed_type_of};
ghost use Rattle.co_dict.specs.OwnRules.{own_rule_of, rule_type, is_rule_index};

use crate::side::Side;
use co_profile::{
    CONSUMER_HEARTBEAT, EMERGENCY_COB_ID, ERROR_BEHAVIOUR, ERROR_FIELD, INHIBIT_TIME, IndexRange,
    PDO_COB_ID, RESTORE_PARAMETERS, STORE_PARAMETERS, SYNC_COB_ID, SYNC_COUNTER_OVERFLOW,
    SYNC_START_VALUE, TRANSMISSION_TYPE,
};
use co_value::Key;

// whether an index is that of a PDO communication parameter
fn is_communication(index: u16) -> bool
    ensures { result ≡ (is_within rpdo_communication index || is_within tpdo_communication index) }
{
    IndexRange::RPDO_COMMUNICATION.contains(index) || IndexRange::TPDO_COMMUNICATION.contains(index)
}

/// What a write of an entry has to keep besides its rights, length and limits.
#[derive(Clone, Copy)]
pub(crate) enum OwnRule {
    /// 1003:00, the number of errors.
    ErrorCount,
    /// 1005:00, the COB-ID of SYNC.
    SyncCobId,
    /// 1010h and 1011h: store and restore parameters.
    StoredParameters,
    /// 1014:00 and sub-index 1 of a PDO's communication parameter: the COB-ID of EMCY and of a PDO.
    CobId,
    /// 1016:01 to 7F, the consumer heartbeat time.
    ConsumerHeartbeat,
    /// 1019:00, the synchronous counter overflow value.
    SyncCounterOverflow,
    /// 1029:01, the error behaviour at a communication error.
    ErrorBehaviour,
    /// Sub-index 2 of a PDO's communication parameter, the transmission type.
    TransmissionType,
    /// Sub-index 3 of a TPDO's communication parameter, the inhibit time.
    InhibitTime,
    /// Sub-index 6 of a TPDO's communication parameter, the SYNC start value.
    SyncStartValue,
    /// Sub-index 0 of a PDO's mapping parameter, the number of mapped objects.
    MappingCount(Side),
    /// Sub-indices 1 to 64 of a PDO's mapping parameter, the mapping words.
    MappingEntry(Side),
}

impl OwnRule {
    /// The rule of a key, if it has one.
    pub(crate) fn of(key: Key) -> Option<OwnRule>
        ensures value { result ≡ own_rule_of key }
        ensures index { IfSome result (λ rule. is_rule_index rule key.index ≡ true) }
        ensures fixed { IfSome result (λ rule. fixed_type_of key ≡ rule_type rule) }
    {
        let rule = match (key.index, key.sub) {
            (ERROR_FIELD, 0) => OwnRule::ErrorCount,
            (SYNC_COB_ID, 0) => OwnRule::SyncCobId,
            (STORE_PARAMETERS | RESTORE_PARAMETERS, _) => OwnRule::StoredParameters,
            (EMERGENCY_COB_ID, 0) => OwnRule::CobId,
            (CONSUMER_HEARTBEAT, 0x01..=0x7F) => OwnRule::ConsumerHeartbeat,
            (SYNC_COUNTER_OVERFLOW, 0) => OwnRule::SyncCounterOverflow,
            (ERROR_BEHAVIOUR, 1) => OwnRule::ErrorBehaviour,
            (index, PDO_COB_ID) if is_communication(index) => OwnRule::CobId,
            (index, TRANSMISSION_TYPE) if is_communication(index) => OwnRule::TransmissionType,
            (index, INHIBIT_TIME) if IndexRange::TPDO_COMMUNICATION.contains(index) => {
                OwnRule::InhibitTime
            }
            (index, SYNC_START_VALUE) if IndexRange::TPDO_COMMUNICATION.contains(index) => {
                OwnRule::SyncStartValue
            }
            (index, 0) if IndexRange::RPDO_MAPPING.contains(index) => {
                OwnRule::MappingCount(Side::Rpdo)
            }
            (index, 1..=64) if IndexRange::RPDO_MAPPING.contains(index) => {
                OwnRule::MappingEntry(Side::Rpdo)
            }
            (index, 0) if IndexRange::TPDO_MAPPING.contains(index) => {
                OwnRule::MappingCount(Side::Tpdo)
            }
            (index, 1..=64) if IndexRange::TPDO_MAPPING.contains(index) => {
                OwnRule::MappingEntry(Side::Tpdo)
            }
            _ => return None,
        };
        Some(rule)
    }
}
