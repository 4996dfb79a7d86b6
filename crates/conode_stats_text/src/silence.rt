//! Nodes that are silent at the end.

ghost use Rattle.std.specs.Prelude.{◌≡◌};
ghost use Rattle.conode_stats_text.specs.Silences.{
  are_missed,
  awaited_since,
  beat_silence,
  is_from,
  is_guarded,
  is_steady,
  is_tpdo,
  is_without_beats,
  last_of,
  later,
  pdo_silence,
  silence_of,
  steady_gap,
};

use crate::pace::Pace;
use conode_stats_counts::{Bus, ErrorControl, NmtState, Node, Row, Shown, Tally};

/// How a node is silent at the end of its bus.
#[derive(Clone, Copy)]
pub struct Silence {
    /// The stamp since which it is, in microseconds.
    pub since: u64,
    /// How often it should send a frame.
    pub pace: Pace,
}

/// Where frames come from, by the pre-defined connection set (CiA 301, 7.3.3).
#[derive(Clone, Copy)]
pub(crate) enum Source {
    /// NMT commands.
    Commands,
    /// SYNC.
    Syncs,
    /// All that a node sends: EMCY, TPDOs, SDO responses and error control.
    Sender(u8),
}

/// TPDOs with fewer gaps aren't known to be cyclic.
const FEWEST_GAPS: u64 = 20;

// whether a node is guarded, by its newest frame of error control
fn is_guarded(sheet: Option<u16>, control: ErrorControl) -> bool
    ensures { result ≡ is_guarded sheet control }
{
    match control {
        ErrorControl::Answer(_) => true,
        ErrorControl::Requested => sheet.is_none(),
        _ => false,
    }
}

// since when a frame of error control is awaited
fn awaited_since(sheet: Option<u16>, node: &Node) -> Option<u64>
    ensures { result ≡ awaited_since sheet node.now }
{
    if is_guarded(sheet, node.guarding.control) {
        node.guarding.asked
    } else {
        node.heartbeats.since
    }
}

// by its heartbeats, or its guarding answers
fn beat_silence(all: &Tally, sheet: Option<u16>, node: &Node) -> Option<Silence>
    ensures { result ≡ beat_silence all.now sheet node.now }
{
    match (
        Pace::of(sheet, &node.heartbeats),
        awaited_since(sheet, node),
    ) {
        (Some(pace), Some(since)) if pace.is_long(all.elapsed(since)) => {
            Some(Silence { since, pace })
        }
        _ => None,
    }
}

// whether an identifier is that of one of a node's four TPDOs
fn is_tpdo(node: u8, id: u32) -> bool
    ensures { result ≡ is_tpdo node id }
{
    let node = node as u32;
    id == 0x180 + node || id == 0x280 + node || id == 0x380 + node || id == 0x480 + node
}

impl Source {
    // whether a frame with this identifier comes from there
    fn sends(self, id: u32) -> bool
        ensures { result ≡ is_from self id }
    {
        match self {
            Source::Commands => id == 0,
            Source::Syncs => id == 0x80,
            Source::Sender(node) => {
                let service = node as u32;
                is_tpdo(node, id)
                    || id == 0x80 + service
                    || id == 0x580 + service
                    || id == 0x700 + service
            }
        }
    }
}

// the stamp after which less time passed
fn later(all: &Tally, last: Option<u64>, stamp: u64) -> Option<u64>
    ensures { result ≡ later all.now last stamp }
{
    match last {
        Some(last) if all.elapsed(last) <= all.elapsed(stamp) => Some(last),
        _ => Some(stamp),
    }
}

// the stamp of the last frame from there, if there is any
fn last_of(all: &Tally, source: Source, rows: &[Row]) -> Option<u64>
    ensures { result ≡ last_of all.now source rows.now }
{
    let mut last = None;
    for row in rows {
        if source.sends(row.can_id) {
            last = later(all, last, row.tally.last);
        }
    }
    last
}

// whether a row is of a node's TPDO that came at a steady pace up to a stamp
fn is_steady(all: &Tally, node: u8, stamp: u64, row: &Row) -> bool
    ensures { result ≡ is_steady all.now node stamp row.now }
{
    is_tpdo(node, row.can_id)
        && FEWEST_GAPS <= row.tally.gaps
        && row.tally.greatest / 2 <= row.tally.total / row.tally.gaps
        && all
            .elapsed(row.tally.last)
            .saturating_sub(all.elapsed(stamp))
            <= row.tally.greatest
}

// the greatest gap of such a TPDO, of several the smallest one; 2^64 - 1 without any
fn steady_gap(all: &Tally, node: u8, stamp: u64, rows: &[Row]) -> u64
    ensures { result ≡ steady_gap all.now node stamp rows.now }
{
    let mut gap = u64::MAX;
    for row in rows {
        if is_steady(all, node, stamp, row) {
            gap = gap.min(row.tally.greatest);
        }
    }
    gap
}

// whether PDOs with this gap are missed after a stamp
fn are_missed(all: &Tally, rows: &[Row], gap: u64, stamp: u64) -> bool
    ensures { result ≡ are_missed all.now rows.now gap stamp }
{
    let passed = all.elapsed(stamp);
    match last_of(all, Source::Commands, rows) {
        Some(command) if all.elapsed(command).saturating_sub(passed) <= gap => false,
        _ => match last_of(all, Source::Syncs, rows) {
            Some(sync) => { Pace::Pdos(gap).is_long(passed.saturating_sub(all.elapsed(sync))) }
            None => Pace::Pdos(gap).is_long(passed),
        },
    }
}

// by its PDOs
#[tactic(auto, unfolding(crate::specs::Silences::pdo_silence))]
fn pdo_silence(all: &Tally, rows: &[Row], node: u8) -> Option<Silence>
    ensures { result ≡ pdo_silence all.now rows.now node }
{
    let Some(since) = last_of(all, Source::Sender(node), rows) else {
        return None;
    };
    let gap = steady_gap(all, node, since, rows);
    if are_missed(all, rows, gap, since) {
        Some(Silence {
            since,
            pace: Pace::Pdos(gap),
        })
    } else {
        None
    }
}

// whether a node sent no heartbeat
fn is_without_beats(last: Option<Shown>) -> bool
    ensures { result ≡ is_without_beats last }
{
    match last {
        Some(last) => matches!(last.state, NmtState::BootUp),
        None => true,
    }
}

/// Since when a node is silent at the end of its bus, if it is: by its heartbeats or guarding
/// answers, and one that sent none by its PDOs. `sheet` is its producer heartbeat time in ms, if a
/// sheet has one.
#[tactic(auto, unfolding(crate::specs::Silences::silence_of))]
pub fn silence_of(bus: &Bus, sheet: Option<u16>, number: u8, node: &Node) -> Option<Silence>
    ensures { result ≡ silence_of bus.now sheet number node.now }
{
    let all = bus.all();
    match beat_silence(&all, sheet, node) {
        Some(silence) => Some(silence),
        None => {
            if is_without_beats(node.last) {
                pdo_silence(&all, bus.rows(), number)
            } else {
                None
            }
        }
    }
}
