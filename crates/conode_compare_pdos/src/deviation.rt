//! Where a TPDO differs from CiA 301 (7.2.2, 7.3.2.2 and 7.5.2.37).

ghost use Rattle.std.specs.Prelude.{◌≡◌, ◌<◌, ◌^◌};
ghost use Rattle.conode_compare_pdos.specs.Deviations.{
  cycle_deviation,
  deviation_at,
  drift_of,
  few_syncs_of,
  greatest_gap,
  inhibit_deviation,
  inhibit_since,
  is_apart,
  is_certain,
  is_counted,
  is_event_driven,
  is_judged,
  is_number,
  is_settled,
  is_synchronous,
  least_gap,
  length_deviation,
  micros_of,
  shows_length,
  state_deviation,
  sync_deviation,
  time_deviation,
  timed,
  timer_deviation,
  timer_since,
  was_settled,
};

use crate::cycle::{Cycle, is_cyclic, is_early};
use crate::tpdo::{Sent, Tpdo};

/// A difference of a TPDO.
#[derive(Clone, Copy)]
pub enum Deviation {
    /// `pdo-length`: it has so many bytes, and so many are mapped.
    Length(u8, u8),
    /// `pdo-state`: the device isn't operational.
    NotOperational,
    /// `pdo-sync`: it is synchronous, and since its last one no SYNC came.
    WithoutSync,
    /// `pdo-sync`: so many SYNCs since the last one, fewer than its type, which is from 2 to 240.
    FewSyncs(u16, u8),
    /// `pdo-inhibit`: so many microseconds since the last one, and the inhibit time has so many 100
    /// µs.
    Inhibit(u64, u16),
    /// `pdo-late`: so many microseconds since the last one, and the event timer has so many ms.
    Timer(u64, u16),
}

/// When a frame comes, how exactly it is judged, and what is known of the device's state then.
#[derive(Clone, Copy)]
pub struct Moment {
    /// The stamp, in microseconds.
    pub micros: u64,
    /// When the bus was free last, before the frame.
    pub free: u64,
    /// How much later than prescribed a frame may be in the recording, in ms.
    pub tolerance: u32,
    /// How much the device's clock may differ from that of the recorder, in percent.
    pub drift: u8,
    /// Whether the device is known not to be operational.
    pub idle: bool,
    /// Whether its state is known.
    pub known: bool,
    /// Since when the times of TPDOs count: the newest command; where none came, the begin of the
    /// recording, or the device's first frame since.
    pub commanded: Option<u64>,
}

// milliseconds in microseconds
fn micros_of(millis: u32) -> u64
    ensures value { result ≡ micros_of millis }
    ensures small { result < 2 ^ 42 }
{
    millis as u64 * 1000
}

// by how many microseconds the clocks may differ after so many ms
fn drift_of(moment: &Moment, millis: u16) -> u64
    ensures value { result ≡ drift_of moment.now millis }
    ensures small { result < 2 ^ 32 }
{
    (millis as u32 * moment.drift as u32) as u64 * 10
}

// whether the tolerance is over since a parameter was written or read
fn is_settled(moment: &Moment, changed: Option<u64>) -> bool
    ensures { result ≡ is_settled moment.now changed }
{
    match changed {
        Some(changed) => moment.free.saturating_sub(changed) > micros_of(moment.tolerance),
        None => true,
    }
}

// whether the tolerance was over at an earlier time, since something happened
fn was_settled(moment: &Moment, happened: Option<u64>, at: u64) -> bool
    ensures { result ≡ was_settled moment.now happened at }
{
    match happened {
        Some(happened) => at.saturating_sub(happened) > micros_of(moment.tolerance),
        None => true,
    }
}

// whether the device is known to be operational, and the parameters are settled
pub(crate) fn is_certain(moment: &Moment, changed: Option<u64>) -> bool
    ensures { result ≡ is_certain moment.now changed }
{
    moment.known && !moment.idle && is_settled(moment, changed)
}

fn is_synchronous(kind: Option<u8>) -> bool
    ensures { result ≡ is_synchronous kind }
{
    match kind {
        Some(kind) => kind <= 240,
        None => false,
    }
}

pub(crate) fn is_event_driven(kind: Option<u8>) -> bool
    ensures { result ≡ is_event_driven kind }
{
    match kind {
        Some(kind) => kind >= 254,
        None => false,
    }
}

fn is_number(known: Option<u8>, other: u8) -> bool
    ensures { result ≡ is_number known other }
{
    match known {
        Some(number) => number == other,
        None => false,
    }
}

fn length_deviation(mapped: Option<u8>, odd: Option<u8>, length: u8) -> Option<Deviation>
    ensures { result ≡ length_deviation mapped odd length }
{
    let mapped = mapped?;
    if length == mapped || is_number(odd, length) {
        None
    } else {
        Some(Deviation::Length(length, mapped))
    }
}

fn sync_deviation(has_sync: bool, pdo: &Tpdo) -> Option<Deviation>
    ensures { result ≡ sync_deviation has_sync pdo.now }
{
    if has_sync && is_synchronous(pdo.parameters.kind) && pdo.syncs == 0 {
        Some(Deviation::WithoutSync)
    } else {
        None
    }
}

fn few_syncs_of(kind: Option<u8>, cycle: Option<Cycle>) -> Option<Deviation>
    ensures { result ≡ few_syncs_of kind cycle }
{
    match (kind, cycle) {
        (Some(kind), Some(cycle)) if is_cyclic(kind) && is_early(kind, cycle) => Some(
            Deviation::FewSyncs(cycle.syncs, kind),
        ),
        _ => None,
    }
}

// whether the tolerance is over since its frame before
fn is_apart(moment: &Moment, sent: Option<Sent>) -> bool
    ensures { result ≡ is_apart moment.now sent }
{
    match sent {
        Some(sent) => moment.free.saturating_sub(sent.micros) > micros_of(moment.tolerance),
        None => true,
    }
}

// of a TPDO of type 2 to 240
fn cycle_deviation(moment: &Moment, has_sync: bool, pdo: &Tpdo) -> Option<Deviation>
    ensures { result ≡ cycle_deviation moment.now has_sync pdo.now }
{
    if has_sync && is_certain(moment, pdo.changed) && is_apart(moment, pdo.sent) {
        few_syncs_of(pdo.parameters.kind, pdo.cycle)
    } else {
        None
    }
}

fn state_deviation(moment: &Moment) -> Option<Deviation>
    ensures { result ≡ state_deviation moment.now }
{
    if moment.idle {
        Some(Deviation::NotOperational)
    } else {
        None
    }
}

// how many microseconds two frames are apart at least, with an inhibit time in 100 µs
fn least_gap(moment: &Moment, inhibit: u16) -> u64
    ensures { result ≡ least_gap moment.now inhibit }
{
    (inhibit as u64 * 100)
        .saturating_sub(micros_of(moment.tolerance))
        .saturating_sub(drift_of(moment, inhibit / 10))
}

// how many microseconds two frames are apart at most
fn greatest_gap(moment: &Moment, inhibit: u16, timer: u16) -> u64
    ensures { result ≡ greatest_gap moment.now inhibit timer }
{
    micros_of(timer as u32)
        + inhibit as u64 * 100
        + micros_of(moment.tolerance)
        + drift_of(moment, timer)
        + drift_of(moment, inhibit / 10)
}

fn inhibit_deviation(moment: &Moment, inhibit: u16, sent: Sent) -> Option<Deviation>
    ensures { result ≡ inhibit_deviation moment.now inhibit sent }
{
    if moment.micros.saturating_sub(sent.free) < least_gap(moment, inhibit) {
        Some(Deviation::Inhibit(moment.micros.saturating_sub(sent.micros), inhibit))
    } else {
        None
    }
}

// whether the frame before came later than the tolerance after the newest command, and after a
// parameter was written or read: else it may have been sent before that
fn is_counted(moment: &Moment, changed: Option<u64>, sent: Sent) -> bool
    ensures { result ≡ is_counted moment.now changed sent }
{
    was_settled(moment, moment.commanded, sent.free) && was_settled(moment, changed, sent.free)
}

fn inhibit_since(
    moment: &Moment,
    changed: Option<u64>,
    inhibit: u16,
    sent: Sent,
) -> Option<Deviation>
    ensures { result ≡ inhibit_since moment.now changed inhibit sent }
{
    if is_counted(moment, changed, sent) {
        inhibit_deviation(moment, inhibit, sent)
    } else {
        None
    }
}

fn timer_deviation(moment: &Moment, inhibit: u16, timer: u16, sent: Sent) -> Option<Deviation>
    ensures { result ≡ timer_deviation moment.now inhibit timer sent }
{
    let waited = moment.free.saturating_sub(sent.micros);
    if timer == 0 || waited <= greatest_gap(moment, inhibit, timer) {
        None
    } else {
        Some(Deviation::Timer(moment.micros.saturating_sub(sent.micros), timer))
    }
}

// not where the frame before came within the tolerance after the newest command: it may have been on
// its way, and the device may have left operational since, and followed a Start late
fn timer_since(moment: &Moment, inhibit: u16, timer: u16, sent: Sent) -> Option<Deviation>
    ensures { result ≡ timer_since moment.now inhibit timer sent }
{
    if was_settled(moment, moment.commanded, sent.free) {
        timer_deviation(moment, inhibit, timer, sent)
    } else {
        None
    }
}

fn timed(
    moment: &Moment,
    changed: Option<u64>,
    timer: Option<u16>,
    inhibit: u16,
    sent: Sent,
) -> Option<Deviation>
    ensures { result ≡ timed moment.now changed timer inhibit sent }
{
    match inhibit_since(moment, changed, inhibit, sent) {
        Some(deviation) => Some(deviation),
        None => timer_since(moment, inhibit, timer?, sent),
    }
}

// of an event-driven TPDO
#[tactic(auto, unfolding(crate::specs::Deviations::time_deviation))]
fn time_deviation(moment: &Moment, pdo: &Tpdo) -> Option<Deviation>
    ensures { result ≡ time_deviation moment.now pdo.now }
{
    if !is_event_driven(pdo.parameters.kind) {
        return None;
    }
    let inhibit = pdo.parameters.inhibit?;
    let sent = pdo.sent?;
    timed(moment, pdo.changed, pdo.parameters.timer, inhibit, sent)
}

/// The difference of a frame of a TPDO with so many bytes, where its parameters are settled;
/// `has_sync`: the COB-ID of SYNC is known.
#[tactic(auto, unfolding(crate::specs::Deviations::deviation_at))]
pub(crate) fn deviation_at(
    moment: &Moment,
    has_sync: bool,
    pdo: &Tpdo,
    length: u8,
) -> Option<Deviation>
    ensures { result ≡ deviation_at moment.now has_sync pdo.now length }
{
    if !is_settled(moment, pdo.changed) {
        return None;
    }
    state_deviation(moment)
        .or(length_deviation(pdo.parameters.length, pdo.odd, length))
        .or(sync_deviation(has_sync, pdo))
        .or(cycle_deviation(moment, has_sync, pdo))
        .or(time_deviation(moment, pdo))
}

/// Whether a frame of it is `pdo-length`: that isn't said again of frames with so many bytes.
pub(crate) fn shows_length(moment: &Moment, pdo: &Tpdo, length: u8) -> bool
    ensures { result ≡ shows_length moment.now pdo.now length }
{
    is_settled(moment, pdo.changed)
        && !moment.idle
        && length_deviation(pdo.parameters.length, pdo.odd, length).is_some()
}

/// Whether a frame of it is judged: it has as many bytes as are mapped, and the state of the device
/// is known.
pub(crate) fn is_judged(moment: &Moment, pdo: &Tpdo, length: u8) -> bool
    ensures { result ≡ is_judged moment.now pdo.now length }
{
    moment.known && is_settled(moment, pdo.changed) && is_number(pdo.parameters.length, length)
}
