//! What looks wrong with a node, or a bus.

ghost use Rattle.std.specs.Prelude.{◌≡◌, ◌<◌};
ghost use Rattle.conode_stats_text.specs.FailureLines.{is_waiting};
ghost use Rattle.conode_stats_text.specs.Findings.{
  bus_finding,
  counted_in,
  counted_words,
  error_frames,
  error_frames_of,
  further_words,
  is_of_errors,
  late_in,
  long_pause,
  lost_in,
  node_finding,
  open_finding,
  restarted_in,
  row_finding,
};

use crate::pace::{Pace, lost_gap};
use crate::silence::{Silence, silence_of};
use co_value::Key;
use conode_explain_transfers::Ended;
use conode_stats_counts::{Bus, FailureRow, Heartbeats, Node, Row, Tally};

/// A transfer that is open at the end is named if it had no frame for so long, in microseconds.
const ANSWER_TIME: u64 = 1_000_000;

/// A time without a frame is named if it is longer, in seconds.
const LONG_PAUSE: u64 = 3600;

/// Bits 29 and 31 of the number of an identifier: an error frame, and one of 29 bits.
const ERROR_FRAME: u32 = 0x2000_0000;

const EXTENDED: u32 = 0x8000_0000;

/// A kind of what looks wrong.
#[derive(Clone, Copy)]
pub enum Kind {
    /// Nodes that are silent at the end.
    Silence,
    /// Heartbeats later than the recording has it.
    Lateness,
    /// Other heartbeats that came too late.
    Loss,
    /// Restarts without a command.
    Restarts,
    /// SDO transfers that failed.
    Failures,
    /// SDO transfers that are open at the end.
    Waits,
    /// EMCY messages.
    Emergencies,
    /// More than an hour without a frame.
    Pause,
    /// Stamps that step back.
    StepsBack,
    /// Error frames.
    ErrorFrames,
    /// SDO transfers that failed, of further nodes and codes.
    MoreFailures,
    /// EMCY messages of further nodes and codes.
    MoreEmergencies,
    /// Frames of further identifiers.
    MoreIdentifiers,
}

/// What looks wrong with a node, or a bus. Stamps and times are in microseconds.
#[derive(Clone, Copy)]
pub(crate) enum Finding {
    /// It is silent at the end.
    Silent(Silence),
    /// So many heartbeats came later than the recording has it, one after the longest wait.
    Late(u64, u64),
    /// The longest wait for a heartbeat, at this pace.
    Lost(u64, Pace),
    /// So many restarts without a command, and the stamp of the last.
    Restarted(u64, u64),
    /// SDO transfers with it failed.
    Failed(FailureRow),
    /// A transfer of an entry had no frame since this stamp.
    Open(Key, u64),
    /// It sent EMCY messages.
    Emergency(FailureRow),
    /// There are so many of a kind on the bus; of a pause so many seconds.
    Counted(Kind, u64),
}

fn late_in(heartbeats: &Heartbeats) -> Option<Finding>
    ensures { result ≡ late_in heartbeats.now }
{
    if 0 < heartbeats.late {
        Some(Finding::Late(heartbeats.late, heartbeats.longest_late))
    } else {
        None
    }
}

fn lost_in(sheet: Option<u16>, heartbeats: &Heartbeats) -> Option<Finding>
    ensures { result ≡ lost_in sheet heartbeats.now }
{
    let pace = Pace::usual(sheet, heartbeats);
    match (pace, lost_gap(pace, heartbeats.longest)) {
        (Some(pace), Some(gap)) => Some(Finding::Lost(gap, pace)),
        _ => None,
    }
}

fn restarted_in(node: &Node) -> Option<Finding>
    ensures { result ≡ restarted_in node.now }
{
    if node.restarts == 0 {
        None
    } else {
        Some(Finding::Restarted(node.restarts, node.last_restart))
    }
}

// so many of these, if there are any
fn counted_in(kind: Kind, count: u64) -> Option<Finding>
    ensures { result ≡ counted_in kind count }
{
    if count == 0 {
        None
    } else {
        Some(Finding::Counted(kind, count))
    }
}

// the longest time between two frames, in whole seconds, if it is more than an hour
fn long_pause(all: &Tally) -> u64
    ensures { result ≡ long_pause all.now }
{
    let seconds = all.greatest / 1_000_000;
    if all.greatest > LONG_PAUSE * 1_000_000 {
        seconds
    } else {
        0
    }
}

// whether a row is of error frames
fn is_of_errors(row: &Row) -> bool
    ensures { result ≡ is_of_errors row.now }
{
    row.can_id >= ERROR_FRAME && row.can_id < EXTENDED
}

// how many frames of a row are error frames
fn error_frames_of(row: &Row) -> u64
    ensures { result ≡ error_frames_of row.now }
{
    if is_of_errors(row) {
        row.tally.frames
    } else {
        0
    }
}

// how many error frames there are
#[tactic(auto, unfolding(crate::specs::Findings::error_frames))]
fn error_frames(rows: &[Row]) -> u64
    ensures { result ≡ error_frames rows.now }
{
    let mut count: u64 = 0;
    for row in rows {
        count = count.saturating_add(error_frames_of(row));
    }
    count
}

impl Kind {
    /// What a node of a bus shows of this kind; `sheet` is its producer heartbeat time in ms, if a
    /// sheet has one.
    pub(crate) fn of_node(
        self,
        bus: &Bus,
        sheet: Option<u16>,
        number: u8,
        node: &Node,
    ) -> Option<Finding>
        ensures { result ≡ node_finding self bus.now sheet number node.now }
    {
        match self {
            Kind::Silence => match silence_of(bus, sheet, number, node) {
                Some(silence) => Some(Finding::Silent(silence)),
                None => None,
            },
            Kind::Lateness => late_in(&node.heartbeats),
            Kind::Loss => lost_in(sheet, &node.heartbeats),
            Kind::Restarts => restarted_in(node),
            _ => None,
        }
    }

    /// What a row is of this kind.
    pub(crate) fn of_row(self, row: &FailureRow) -> Option<Finding>
        ensures { result ≡ row_finding self row.now }
    {
        match self {
            Kind::Failures => Some(Finding::Failed(*row)),
            Kind::Emergencies => Some(Finding::Emergency(*row)),
            _ => None,
        }
    }

    /// What a bus shows of this kind.
    pub(crate) fn of_bus(self, bus: &Bus) -> Option<Finding>
        ensures { result ≡ bus_finding self bus.now }
    {
        let count = match self {
            Kind::Pause => long_pause(&bus.all()),
            Kind::StepsBack => bus.all().steps_back,
            Kind::ErrorFrames => error_frames(bus.rows()),
            Kind::MoreFailures => bus.transfers().left_out(),
            Kind::MoreEmergencies => bus.emergencies().left_out(),
            Kind::MoreIdentifiers => bus.left_out(),
            _ => 0,
        };
        counted_in(self, count)
    }

    /// The words of how many there are on a bus.
    pub(crate) fn counted(self) -> &'static str
        ensures { result.now ≡ counted_words self }
    {
        match self {
            Kind::Pause => "longest time without a frame, in seconds",
            Kind::StepsBack => "stamps that step back",
            Kind::ErrorFrames => "error frames",
            Kind::MoreFailures => "SDO transfers that failed with further nodes and codes",
            Kind::MoreEmergencies => "EMCY messages of further nodes and codes",
            Kind::MoreIdentifiers => "frames of more than 4,096 identifiers, not in the table",
            _ => "",
        }
    }

    /// The words about findings of this kind that aren't among the first.
    pub(crate) fn further(self) -> &'static str
        ensures { result.now ≡ further_words self }
    {
        match self {
            Kind::Silence => "further silent nodes, at the end of the page",
            Kind::Lateness | Kind::Loss =>
                "further nodes with late heartbeats, at the end of the page",
            Kind::Restarts => "further nodes that restarted, at the end of the page",
            Kind::Failures => "further nodes and abort codes, at the end of the page",
            Kind::Waits => "further open SDO transfers, at the end of the page",
            Kind::Emergencies => "further nodes and EMCY codes, at the end of the page",
            _ => "further interfaces with this, at the end of the page",
        }
    }
}

/// Whether a transfer that is open at the end is named, by the tally of its bus.
pub fn is_waiting(all: &Tally, transfer: &Ended) -> bool
    ensures { result ≡ is_waiting all.now transfer.now }
{
    ANSWER_TIME < all.elapsed(transfer.newest)
}

/// A transfer that is open at the end, if it had no frame for more than a second, by the tally of its
/// bus.
pub(crate) fn open_finding(all: &Tally, transfer: &Option<Ended>) -> Option<Finding>
    ensures { result ≡ open_finding all.now transfer.now }
{
    match transfer {
        Some(transfer) if is_waiting(all, transfer) => {
            Some(Finding::Open(transfer.key, transfer.newest))
        }
        _ => None,
    }
}
