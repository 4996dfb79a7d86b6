//! The communication profile of CANopen: access of entries, the objects from 1000h to 1FFFh, the
//! numbers of PDOs, and transmission types.
#![tactic(auto)]

mod access;
mod fixed_types;
mod indices;
pub mod keys;
mod pdo_number;
mod transmission_type;

pub use access::Access;
pub use fixed_types::fixed_type;
pub use indices::{
    CONSUMER_HEARTBEAT, DEVICE_TYPE, EMERGENCY_COB_ID, EMERGENCY_INHIBIT_TIME, ERROR_BEHAVIOUR,
    ERROR_FIELD, ERROR_REGISTER, EVENT_TIMER, IDENTITY, INHIBIT_TIME, IndexRange, MODULE_LIST,
    NMT_STARTUP, PDO_COB_ID, PRODUCER_HEARTBEAT, RESTORE_PARAMETERS, STORE_PARAMETERS, SYNC_COB_ID,
    SYNC_COUNTER_OVERFLOW, SYNC_START_VALUE, TRANSMISSION_TYPE, index_numbers,
};
pub use pdo_number::PdoNumber;
pub use transmission_type::TransmissionType;
