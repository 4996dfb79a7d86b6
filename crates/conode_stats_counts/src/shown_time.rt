//! The producer heartbeat time of a node, as SDO transfers show it.

ghost use Rattle.std.specs.Prelude.{◌≡◌};
ghost use Rattle.conode_stats_counts.specs.ShownTimes.{first_word, time_by, time_of};

use co_profile::PRODUCER_HEARTBEAT;
use conode_explain_transfers::{Direction, Ended, Ending, Told};

/// The producer heartbeat time, 1017:00, of a node, by an SDO transfer that is done.
#[derive(Clone, Copy)]
pub(crate) struct ShownTime {
    /// The node-ID of the server.
    pub(crate) node: u8,
    /// Whether the time was written or read.
    pub(crate) direction: Direction,
    /// The time in ms; 0 is for no heartbeats.
    pub(crate) time: u16,
}

/// The number that the first two bytes are, the low one first.
pub(crate) fn first_word(bytes: &[u8]) -> Option<u16>
    ensures { result ≡ first_word bytes.now }
{
    match bytes {
        [low, high, ..] => Some(*low as u16 + *high as u16 * 256),
        _ => None,
    }
}

impl ShownTime {
    // by a transfer with a node
    fn by(node: u8, ended: &Ended) -> Option<ShownTime>
        ensures { result ≡ time_by node ended.now }
    {
        let is_wanted = ended.key.index == PRODUCER_HEARTBEAT && ended.key.sub == 0;
        if !is_wanted || !matches!(ended.ending, Ending::Done { crc: _ }) {
            return None;
        }
        match first_word(ended.first.as_slice()) {
            Some(time) => Some(ShownTime {
                node,
                direction: ended.direction,
                time,
            }),
            None => None,
        }
    }

    /// The time that channels tell of, if they do.
    pub(crate) fn of(told: &Option<Told>) -> Option<ShownTime>
        ensures { result ≡ time_of told.now }
    {
        let Some(told) = told else {
            return None;
        };
        match &told.ended {
            Some(ended) => ShownTime::by(told.node, ended),
            None => None,
        }
    }
}
