//! The entries of the communication profile that have a meaning of their own, by their keys: a device
//! itself reads or writes them, or a recording is read by them.

ghost use Rattle.std.specs.Prelude.{◌≡◌};
ghost use Rattle.co_profile.specs.Keys as keys;

use crate::indices;
use co_value::Key;

/// The device type (CiA 301, 7.5.2.1).
pub const DEVICE_TYPE: Key = Key {
    index: indices::DEVICE_TYPE,
    sub: 0,
};
/// The error register (CiA 301, 7.5.2.2).
pub const ERROR_REGISTER: Key = Key {
    index: indices::ERROR_REGISTER,
    sub: 0,
};
/// The COB-ID of SYNC (CiA 301, 7.5.2.5).
pub const SYNC_COB_ID: Key = Key {
    index: indices::SYNC_COB_ID,
    sub: 0,
};
/// The COB-ID of EMCY (CiA 301, 7.5.2.17).
pub const EMERGENCY_COB_ID: Key = Key {
    index: indices::EMERGENCY_COB_ID,
    sub: 0,
};
/// The inhibit time of EMCY in 100 µs (CiA 301, 7.5.2.18).
pub const EMERGENCY_INHIBIT_TIME: Key = Key {
    index: indices::EMERGENCY_INHIBIT_TIME,
    sub: 0,
};
/// The producer heartbeat time in ms (CiA 301, 7.5.2.20).
pub const PRODUCER_HEARTBEAT: Key = Key {
    index: indices::PRODUCER_HEARTBEAT,
    sub: 0,
};
/// The synchronous counter overflow value (CiA 301, 7.5.2.22).
pub const SYNC_COUNTER_OVERFLOW: Key = Key {
    index: indices::SYNC_COUNTER_OVERFLOW,
    sub: 0,
};
/// The error behaviour at a communication error (CiA 301, 7.5.2.32).
pub const COMMUNICATION_ERROR: Key = Key {
    index: indices::ERROR_BEHAVIOUR,
    sub: 1,
};

/// Each key is the one that the standard gives its entry. This is a law: a call of it changes
/// nothing.
pub fn key_numbers()
    ensures device_type { DEVICE_TYPE ≡ keys.device_type_key }
    ensures error_register { ERROR_REGISTER ≡ keys.error_register_key }
    ensures sync { SYNC_COB_ID ≡ keys.sync_key }
    ensures emergency { EMERGENCY_COB_ID ≡ keys.emergency_key }
    ensures emergency_inhibit { EMERGENCY_INHIBIT_TIME ≡ keys.emergency_inhibit_key }
    ensures producer { PRODUCER_HEARTBEAT ≡ keys.producer_key }
    ensures counter_overflow { SYNC_COUNTER_OVERFLOW ≡ keys.counter_overflow_key }
    ensures error_behaviour { COMMUNICATION_ERROR ≡ keys.error_behaviour_key }
{}
