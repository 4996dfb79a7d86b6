//! The settings of one TPDO in the dictionary.

ghost use Rattle.std.specs.Prelude.{◌≡◌};
ghost use Rattle.co_pdo.specs.Due.{waits_for_none, begins_count};

use co_profile::TransmissionType;

/// The settings of one TPDO in the dictionary (CiA 301, 7.5.2.37).
#[derive(Clone, Copy)]
pub struct Settings {
    /// Its COB-ID word is valid, something is mapped, and its transmission type is supported.
    pub is_active: bool,
    /// The transmission type.
    pub transmission_type: TransmissionType,
    /// In 100 µs.
    pub inhibit_time: u16,
    /// In ms; 0 is none.
    pub event_timer: u16,
    /// The SYNC start value: the counter of the SYNC at which its count begins; 0 is none.
    pub start_value: u8,
}

/// Whether a TPDO with this SYNC start value begins its count without waiting for a counter.
fn waits_for_none(start_value: u8) -> bool
    ensures { result ≡ waits_for_none start_value }
{
    start_value == 0 || start_value > 240
}

/// Whether a SYNC with this counter, if any, begins a count that has not begun, by the SYNC start
/// value and the synchronous counter overflow value.
pub(crate) fn begins_count(start_value: u8, overflow: u8, counter: Option<u8>) -> bool
    ensures { result ≡ begins_count start_value overflow counter }
{
    let is_first = match counter {
        Some(n) => n == start_value,
        None => false,
    };
    waits_for_none(start_value) || overflow == 0 || is_first
}
