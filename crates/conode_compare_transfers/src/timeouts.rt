//! When the SDO server of a device times out, where that is known (CiA 301, 7.2.4.3.17: 05040000h).

ghost use Rattle.std.specs.Prelude.{◌≡◌};
ghost use Rattle.conode_compare_transfers.specs.Timeouts.{
  drift_of,
  early_abort,
  goes_on_with,
  is_early,
  is_late,
  resumed_after,
  served_key,
  times_out,
};

use crate::breach::Breach;
use crate::dialogue::Exchange;
use crate::times::micros_of;
use co_frame::AbortCode;
use co_value::Key;
use conode_explain_transfers::{Ending, Heard, Side, What};

// so many percent of so many ms, in microseconds
fn drift_of(drift: u8, millis: u16) -> u64
    ensures { result ≡ drift_of drift millis }
{
    (millis as u32 * drift as u32) as u64 * 10
}

// whether the server, which times out after so many ms, or with 0 never, awaited the client for less
fn is_early(tolerance: u32, drift: u8, time: u16, waited: u64) -> bool
    ensures { result ≡ is_early tolerance drift time waited }
{
    let least = micros_of(time as u32)
        .saturating_sub(micros_of(tolerance))
        .saturating_sub(drift_of(drift, time));
    time == 0 || waited < least
}

/// Whether the device gives up a transfer, since it timed out.
pub(crate) fn times_out(ending: Ending) -> bool
    ensures { result ≡ times_out ending }
{
    match ending {
        Ending::Aborted {
            by: Side::Server,
            code,
        } => code == AbortCode::TIMED_OUT,
        _ => false,
    }
}

/// `abort-early`: the difference of a transfer that the device aborts as timed out, though it awaited
/// the client's next frame for less than its time in ms, where that is known; with 0 it never times
/// out. The tolerance is in ms, the drift of its clock in percent.
pub fn early_abort(
    tolerance: u32,
    drift: u8,
    time: Option<u16>,
    exchange: &Exchange,
) -> Option<Breach>
    ensures { result ≡ early_abort tolerance drift time exchange.now }
{
    match (&exchange.heard.ended, exchange.awaited, time) {
        (Some(ended), Some(waited), Some(time))
            if times_out(ended.ending) && is_early(tolerance, drift, time, waited) => {
            Some(Breach::Early(ended.key, waited, time))
        }
        _ => None,
    }
}

/// Whether the server, which times out after so many ms, or with 0 never, awaited the client for
/// longer: by more than the tolerance in ms, and the drift of its clock in percent.
pub fn is_late(tolerance: u32, drift: u8, time: u16, waited: u64) -> bool
    ensures { result ≡ is_late tolerance drift time waited }
{
    let most = micros_of(time as u32) + micros_of(tolerance) + drift_of(drift, time);
    time > 0 && waited > most
}

// whether a frame goes on with the open transfer
fn goes_on_with(what: What) -> bool
    ensures { result ≡ goes_on_with what }
{
    match what {
        What::Part
        | What::Segment { number: _ }
        | What::OutOfSequence {
            number: _,
            awaited: _,
        } => true,
        _ => false,
    }
}

/// For how many microseconds the device had awaited the client's newest frame in the open transfer,
/// until it answers that: of a sub-block the first segment. `awaited`: how long before this frame,
/// which is by `side`; `resumed`: what was known before it.
#[tactic(auto, unfolding(crate::specs::Timeouts::resumed_after))]
pub fn resumed_after(
    side: Side,
    what: What,
    awaited: Option<u64>,
    resumed: Option<u64>,
) -> Option<u64>
    ensures { result ≡ resumed_after side what awaited resumed }
{
    match side {
        Side::Client if goes_on_with(what) => awaited.or(resumed),
        _ => None,
    }
}

/// The entry of the transfer that a frame of the device goes on with, or ends otherwise than by an
/// abort.
#[tactic(auto, unfolding(crate::specs::Timeouts::served_key))]
pub fn served_key(heard: &Heard) -> Option<Key>
    ensures { result ≡ served_key heard.now }
{
    if !goes_on_with(heard.what) {
        return None;
    }
    match &heard.ended {
        Some(ended) => match ended.ending {
            Ending::Aborted { by: _, code: _ } => None,
            _ => Some(ended.key),
        },
        None => heard.of,
    }
}
