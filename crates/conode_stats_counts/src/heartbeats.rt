//! The heartbeats of a node, counted.

ghost use Rattle.std.specs.Prelude.{◌≡◌, [], ◌+◌, ◌-◌, ◌*◌, ◌<◌, ◌≤◌};
ghost use Rattle.conode_stats_counts.specs.Heartbeats.{
  beat_with,
  gap_with,
  heartbeats_of,
  is_late,
  timed_with,
  wait,
  wait_with,
};

use crate::first_gaps::FirstGaps;
use crate::tally::counted;
use conode_explain_transfers::Direction;

/// The heartbeats of a node (CiA 301, 7.2.8.3.2.2): how long each was awaited, in microseconds,
/// since the frame of error control before it, or a download of the producer heartbeat time that
/// came between them. No boot-up message is awaited. Counts saturate at 2^64 - 1.
#[derive(Drop)]
pub struct Heartbeats {
    /// The producer heartbeat time, 1017:00, in ms, if an SDO transfer wrote or read it since the
    /// last boot-up.
    pub written: Option<u16>,
    /// The stamp since which a heartbeat is awaited, in microseconds.
    pub since: Option<u64>,
    /// How many of them were awaited for more than 1.5 times the time that a transfer showed.
    pub late: u64,
    /// The longest wait for one of these; 0 if there is none.
    pub longest_late: u64,
    /// The longest wait while no transfer showed the time; 0 if there is none.
    pub longest: u64,
    /// The first of these waits.
    pub first: FirstGaps,
}

// how long a heartbeat with this stamp was awaited
fn wait(since: Option<u64>, micros: u64) -> Option<u64>
    ensures { result ≡ wait since micros }
{
    match since {
        Some(since) if since <= micros => Some(micros - since),
        _ => None,
    }
}

/// Whether a wait in microseconds is more than 1.5 times a producer heartbeat time in ms; 0 is for
/// no heartbeats.
pub fn is_late(time: u16, gap: u64) -> bool
    ensures { result ≡ is_late time gap }
{
    0 < time && 1500 * (time as u64) < gap
}

impl Heartbeats {
    /// Of no frame.
    #[tactic(auto, using(crate::proofs::Beaten::none))]
    pub(crate) fn new() -> Heartbeats
        ensures { result ≡ heartbeats_of [] }
    {
        Heartbeats {
            written: None,
            since: None,
            late: 0,
            longest_late: 0,
            longest: 0,
            first: FirstGaps::new(),
        }
    }

    // counts a wait for a heartbeat
    fn count(&mut self, gap: u64)
        ensures { self.new ≡ gap_with self.old.written gap self.old }
    {
        match self.written {
            Some(time) => {
                if is_late(time, gap) {
                    self.late = counted(self.late, 1);
                    self.longest_late = self.longest_late.max(gap);
                }
            }
            None => {
                self.longest = self.longest.max(gap);
                self.first.add(gap);
            }
        }
    }

    // counts the wait for a heartbeat, if it is known
    fn count_wait(&mut self, gap: Option<u64>)
        ensures { self.new ≡ wait_with gap self.old }
    {
        if let Some(gap) = gap {
            self.count(gap);
        }
    }

    /// Counts a frame of error control, which may be a boot-up message.
    pub(crate) fn beat(&mut self, boots: bool, micros: u64)
        ensures { self.new ≡ beat_with boots micros self.old }
    {
        if boots {
            self.written = None;
        } else {
            self.count_wait(wait(self.since, micros));
        }
        self.since = Some(micros);
    }

    /// Notes the producer heartbeat time that a transfer shows. From a download on a heartbeat is
    /// awaited anew.
    pub(crate) fn show(&mut self, direction: Direction, time: u16, micros: u64)
        ensures { self.new ≡ timed_with direction time micros self.old }
    {
        self.written = Some(time);
        self.since = match (direction, self.since) {
            (Direction::Upload, Some(since)) => Some(since),
            _ => Some(micros),
        };
    }
}
