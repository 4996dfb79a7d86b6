//! How exactly a device is judged, and the device itself.

ghost use Rattle.std.specs.Prelude.{◌≡◌};
ghost use Rattle.conode_compare_nmt.specs.Times.{drift_of, most_passed};

use crate::entries::Facts;
use conode_compare_values::{HeldEntries, Rooms};

/// How exactly a device is judged.
#[derive(Clone, Copy)]
pub struct Limits {
    /// How much later than prescribed a frame may be in the recording, in ms.
    pub tolerance: u32,
    /// How much the device's clock may differ from that of the recorder, in percent.
    pub drift: u8,
    /// How long the answer to a request may take, in ms.
    pub answer: u32,
    /// How long the device may take from a reset command to its boot-up, in ms.
    pub boot: u32,
    /// For how long its SDO server awaits a client's next frame, in ms, where that is known; 0: it
    /// never times out.
    pub time: Option<u16>,
}

/// The device that is compared.
#[derive(Drop)]
pub struct Subject {
    /// Its node-ID, 1 to 127.
    pub node: u8,
    /// How exactly it is judged.
    pub limits: Limits,
    /// What its data sheet says of what it sends by itself.
    pub facts: Facts,
    /// Which entries are held to what was written.
    pub held: HeldEntries,
    /// The room of its strings and DOMAINs, as far as it is known.
    pub rooms: Rooms,
}

/// By how many microseconds the clocks of the device and the recorder may differ after so many ms.
pub fn drift_of(limits: &Limits, millis: u16) -> u64
    ensures { result ≡ drift_of limits.now millis }
{
    (millis as u32 * limits.drift as u32) as u64 * 10
}

/// How many microseconds have passed at most between two frames with these stamps: between two of one
/// stamp no more than since the last other one, `earlier`; without that it isn't known. A recorder that
/// stamps a batch at its begin, or reads its queue in parts, is an exception.
pub(crate) fn most_passed(earlier: Option<u64>, from: u64, micros: u64) -> Option<u64>
    ensures { result ≡ most_passed earlier from micros }
{
    if from < micros {
        return Some(micros.saturating_sub(from));
    }
    match earlier {
        Some(stamp) => Some(micros.saturating_sub(stamp)),
        None => None,
    }
}
