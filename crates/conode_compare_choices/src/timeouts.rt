//! Transfers that a device goes on with, though its SDO server times out before.

ghost use Rattle.std.specs.Prelude.{◌≡◌};
ghost use Rattle.conode_compare_choices.specs.Timeouts.{late_by, resumed_with, timeout_choice};

use crate::choice::Choice;
use conode_compare_nmt::Limits;
use conode_compare_rules::FrameKind;
use conode_compare_transfers::{Exchange, is_late, resumed_after, served_key};
use conode_explain_transfers::Side;

/// For how many microseconds the device had awaited the client's newest frame in the open transfer,
/// after a frame: until it answers that.
pub(crate) fn resumed_with(
    resumed: Option<u64>,
    kind: &FrameKind,
    exchange: &Option<Exchange>,
) -> Option<u64>
    ensures { result ≡ resumed_with resumed kind.now exchange.now }
{
    match (kind, exchange) {
        (FrameKind::Sdo(side, _), Some(exchange)) => {
            resumed_after(*side, exchange.heard.what, exchange.awaited, resumed)
        }
        _ => resumed,
    }
}

/// The device goes on with a transfer, though it had awaited the client's newest frame for longer than
/// its time, where this is known.
#[tactic(auto, unfolding(crate::specs::Timeouts::timeout_choice))]
pub(crate) fn timeout_choice(
    limits: &Limits,
    resumed: Option<u64>,
    kind: &FrameKind,
    exchange: &Option<Exchange>,
) -> Option<Choice>
    ensures { result ≡ timeout_choice limits.now resumed kind.now exchange.now }
{
    let (Some(waited), FrameKind::Sdo(Side::Server, _), Some(exchange)) = (resumed, kind, exchange)
    else {
        return None;
    };
    if !exchange.certain {
        return None;
    }
    let Some(time) = limits.time else {
        return None;
    };
    if !is_late(limits.tolerance, limits.drift, time, waited) {
        return None;
    }
    match served_key(&exchange.heard) {
        Some(key) => Some(Choice::NoTimeout(key, waited, time)),
        None => None,
    }
}
