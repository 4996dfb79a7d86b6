//! How often a node should send a heartbeat.

ghost use Rattle.std.specs.Prelude.{◌≡◌, ◌/◌, ◌+◌};
ghost use Rattle.conode_stats_text.specs.Paces.{
  is_half,
  is_long,
  lost_gap,
  median,
  median_pace,
  pace_figure,
  pace_front,
  pace_of,
  usual_pace,
};
ghost use Rattle.conode_stats_text.specs.Pieces.{piece_text};

use crate::pieces::Piece;
use conode_stats_counts::{Heartbeats, is_late};

/// How often a node should send a heartbeat, or its PDOs.
#[derive(Clone, Copy)]
pub enum Pace {
    /// The producer heartbeat time in ms, 1017:00, that a transfer in the recording shows.
    Written(u16),
    /// The same in ms, by a data sheet.
    Sheet(u16),
    /// The median of the node's first gaps, in microseconds.
    Median(u64),
    /// The greatest gap of its cyclic TPDO, in microseconds, of a node without heartbeats.
    Pdos(u64),
}

/// PDOs are missed after a second, or more.
const SECOND: u64 = 1_000_000;

// whether half of the gaps, or more, are no longer than this one
fn is_half(gaps: &[u64], gap: u64) -> bool
    ensures { result ≡ is_half gaps.now gap }
{
    let mut shorter: usize = 0;
    for other in gaps {
        if *other <= gap {
            shorter += 1;
        }
    }
    gaps.len() <= 2 * shorter
}

/// The median: the shortest gap such that half of the gaps, or more, are no longer; `None` if there
/// are fewer than two.
#[tactic(auto, unfolding(crate::specs::Paces::median))]
pub fn median(gaps: &[u64]) -> Option<u64>
    ensures { result ≡ median gaps.now }
{
    if gaps.len() < 2 {
        return None;
    }
    let mut shortest = u64::MAX;
    for gap in gaps {
        if is_half(gaps, *gap) {
            shortest = shortest.min(*gap);
        }
    }
    Some(shortest)
}

fn median_pace(median: Option<u64>) -> Option<Pace>
    ensures { result ≡ median_pace median }
{
    match median {
        Some(gap) => Some(Pace::Median(gap)),
        None => None,
    }
}

impl Pace {
    /// How often a node should send a heartbeat while no transfer shows it; by a sheet's time, if
    /// there is one.
    pub fn usual(sheet: Option<u16>, heartbeats: &Heartbeats) -> Option<Pace>
        ensures { result ≡ usual_pace sheet heartbeats.now }
    {
        match sheet {
            Some(time) => Some(Pace::Sheet(time)),
            None => median_pace(median(heartbeats.first.as_slice())),
        }
    }

    /// How often a node should send a heartbeat at the end.
    pub fn of(sheet: Option<u16>, heartbeats: &Heartbeats) -> Option<Pace>
        ensures { result ≡ pace_of sheet heartbeats.now }
    {
        match heartbeats.written {
            Some(time) => Some(Pace::Written(time)),
            None => Pace::usual(sheet, heartbeats),
        }
    }

    /// Whether a wait, in microseconds, is more than 1.5 times as long; for PDOs more than three times
    /// their greatest gap, and more than a second.
    pub(crate) fn is_long(self, gap: u64) -> bool
        ensures { result ≡ is_long self gap }
    {
        match self {
            Pace::Written(time) | Pace::Sheet(time) => is_late(time, gap),
            Pace::Median(median) => match median.checked_add(median / 2) {
                Some(most) => most < gap,
                None => false,
            },
            Pace::Pdos(greatest) => SECOND < gap && greatest < gap / 3,
        }
    }

    /// What is before its figure, at the end of a line.
    pub(crate) fn front(self) -> &'static str
        ensures { result.now ≡ pace_front self }
    {
        match self {
            Pace::Written(_) => ", 1017h as recorded ",
            Pace::Sheet(_) => ", 1017h of the sheet ",
            Pace::Median(_) => ", median ",
            Pace::Pdos(_) => ", greatest gap of its PDOs ",
        }
    }

    /// Its figure, in milliseconds.
    pub(crate) fn figure(self) -> Piece<'static>
        ensures { piece_text result ≡ pace_figure self }
    {
        match self {
            Pace::Written(time) | Pace::Sheet(time) => Piece::Number(time as u64),
            Pace::Median(gap) | Pace::Pdos(gap) => Piece::Millis(gap),
        }
    }
}

/// The longest wait for a heartbeat, if it is too long.
pub fn lost_gap(pace: Option<Pace>, gap: u64) -> Option<u64>
    ensures { result ≡ lost_gap pace gap }
{
    match pace {
        Some(pace) if pace.is_long(gap) => Some(gap),
        _ => None,
    }
}
