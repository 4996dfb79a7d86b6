//! The objects of the communication profile by their indices, and the sub-indices of PDO
//! communication parameters.

ghost use Rattle.std.specs.Prelude.{◌≡◌, ◌≤◌, ◌+◌, true};
ghost use Rattle.co_profile.specs.Indices as indices;
ghost use Rattle.co_profile.specs.Indices.{is_within, nth};

/// The device type (CiA 301, 7.5.2.1).
pub const DEVICE_TYPE: u16 = 0x1000;
/// The error register (CiA 301, 7.5.2.2).
pub const ERROR_REGISTER: u16 = 0x1001;
/// The pre-defined error field (CiA 301, 7.5.2.4).
pub const ERROR_FIELD: u16 = 0x1003;
/// The COB-ID of SYNC (CiA 301, 7.5.2.5).
pub const SYNC_COB_ID: u16 = 0x1005;
/// Store parameters (CiA 301, 7.5.2.13).
pub const STORE_PARAMETERS: u16 = 0x1010;
/// Restore default parameters (CiA 301, 7.5.2.14).
pub const RESTORE_PARAMETERS: u16 = 0x1011;
/// The COB-ID of EMCY (CiA 301, 7.5.2.17).
pub const EMERGENCY_COB_ID: u16 = 0x1014;
/// The inhibit time of EMCY, in 100 µs (CiA 301, 7.5.2.18).
pub const EMERGENCY_INHIBIT_TIME: u16 = 0x1015;
/// The consumer heartbeat time (CiA 301, 7.5.2.19).
pub const CONSUMER_HEARTBEAT: u16 = 0x1016;
/// The producer heartbeat time, in ms (CiA 301, 7.5.2.20).
pub const PRODUCER_HEARTBEAT: u16 = 0x1017;
/// The identity object (CiA 301, 7.5.2.21).
pub const IDENTITY: u16 = 0x1018;
/// The synchronous counter overflow value (CiA 301, 7.5.2.22).
pub const SYNC_COUNTER_OVERFLOW: u16 = 0x1019;
/// The module list (CiA 301, 7.5.2.30).
pub const MODULE_LIST: u16 = 0x1027;
/// The error behaviour (CiA 301, 7.5.2.32).
pub const ERROR_BEHAVIOUR: u16 = 0x1029;
/// NMT startup (CiA 302-2).
pub const NMT_STARTUP: u16 = 0x1F80;

/// The sub-index of the COB-ID in a PDO communication parameter (CiA 301, 7.5.2.35, 7.5.2.37).
pub const PDO_COB_ID: u8 = 1;
/// The sub-index of the transmission type in a PDO communication parameter (CiA 301, 7.5.2.35,
/// 7.5.2.37).
pub const TRANSMISSION_TYPE: u8 = 2;
/// The sub-index of the inhibit time, in 100 µs, in a TPDO communication parameter
/// (CiA 301, 7.5.2.37).
pub const INHIBIT_TIME: u8 = 3;
/// The sub-index of the event timer, in ms, in a TPDO communication parameter (CiA 301, 7.5.2.37).
pub const EVENT_TIMER: u8 = 5;
/// The sub-index of the SYNC start value in a TPDO communication parameter (CiA 301, 7.5.2.37).
pub const SYNC_START_VALUE: u8 = 6;

/// The indices of objects of one kind: the first and the last, both included.
#[derive(Clone, Copy, Debug, PartialEq, Eq)]
pub struct IndexRange(pub u16, pub u16);

impl IndexRange {
    /// The communication profile (CiA 301, 7.4.1).
    pub const COMMUNICATION_PROFILE: IndexRange = IndexRange(0x1000, 0x1FFF);
    /// The SDO server parameters (CiA 301, 7.5.2.33).
    pub const SDO_SERVER: IndexRange = IndexRange(0x1200, 0x127F);
    /// The RPDO communication parameters (CiA 301, 7.5.2.35).
    pub const RPDO_COMMUNICATION: IndexRange = IndexRange(0x1400, 0x15FF);
    /// The RPDO mapping parameters (CiA 301, 7.5.2.36).
    pub const RPDO_MAPPING: IndexRange = IndexRange(0x1600, 0x17FF);
    /// The TPDO communication parameters (CiA 301, 7.5.2.37).
    pub const TPDO_COMMUNICATION: IndexRange = IndexRange(0x1800, 0x19FF);
    /// The TPDO mapping parameters (CiA 301, 7.5.2.38).
    pub const TPDO_MAPPING: IndexRange = IndexRange(0x1A00, 0x1BFF);

    /// Whether the index is one of the range.
    pub fn contains(self, index: u16) -> bool
        ensures { result ≡ is_within self index }
    {
        self.0 <= index && index <= self.1
    }

    /// The index of an object of the range by its number, counted from 0.
    pub fn nth(self, number: u16) -> u16
        requires { self.0 + number ≤ self.1 }
        ensures value { result ≡ nth self number }
        ensures within { is_within self result ≡ true }
    {
        self.0 + number
    }

    /// Each range is the one that the standard gives its objects. This is a law: a call of it
    /// changes nothing.
    pub fn ranges()
        ensures communication_profile { IndexRange.COMMUNICATION_PROFILE
            ≡ indices.communication_profile }
        ensures sdo_server { IndexRange.SDO_SERVER ≡ indices.sdo_server }
        ensures rpdo_communication { IndexRange.RPDO_COMMUNICATION ≡ indices.rpdo_communication }
        ensures rpdo_mapping { IndexRange.RPDO_MAPPING ≡ indices.rpdo_mapping }
        ensures tpdo_communication { IndexRange.TPDO_COMMUNICATION ≡ indices.tpdo_communication }
        ensures tpdo_mapping { IndexRange.TPDO_MAPPING ≡ indices.tpdo_mapping }
    {}
}

/// Each index and sub-index is the one that the standard gives its object. This is a law: a call of
/// it changes nothing.
pub fn index_numbers()
    ensures device_type { DEVICE_TYPE ≡ indices.device_type }
    ensures error_register { ERROR_REGISTER ≡ indices.error_register }
    ensures error_field { ERROR_FIELD ≡ indices.error_field }
    ensures sync_cob_id { SYNC_COB_ID ≡ indices.sync_cob_id }
    ensures store_parameters { STORE_PARAMETERS ≡ indices.store_parameters }
    ensures restore_parameters { RESTORE_PARAMETERS ≡ indices.restore_parameters }
    ensures emergency_cob_id { EMERGENCY_COB_ID ≡ indices.emergency_cob_id }
    ensures emergency_inhibit_time { EMERGENCY_INHIBIT_TIME ≡ indices.emergency_inhibit_time }
    ensures consumer_heartbeat { CONSUMER_HEARTBEAT ≡ indices.consumer_heartbeat }
    ensures producer_heartbeat { PRODUCER_HEARTBEAT ≡ indices.producer_heartbeat }
    ensures identity { IDENTITY ≡ indices.identity }
    ensures sync_counter_overflow { SYNC_COUNTER_OVERFLOW ≡ indices.sync_counter_overflow }
    ensures module_list { MODULE_LIST ≡ indices.module_list }
    ensures error_behaviour { ERROR_BEHAVIOUR ≡ indices.error_behaviour }
    ensures nmt_startup { NMT_STARTUP ≡ indices.nmt_startup }
    ensures pdo_cob_id { PDO_COB_ID ≡ indices.pdo_cob_id }
    ensures transmission_type { TRANSMISSION_TYPE ≡ indices.transmission_type }
    ensures inhibit_time { INHIBIT_TIME ≡ indices.inhibit_time }
    ensures event_timer { EVENT_TIMER ≡ indices.event_timer }
    ensures sync_start_value { SYNC_START_VALUE ≡ indices.sync_start_value }
{}
