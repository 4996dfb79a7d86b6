//! What SDO transfers of a recording show: the COB-IDs and mappings of the PDOs of nodes, and the SDO
//! channels other than the default ones; and what is said of transfers, for people: of each frame,
//! and the line of one that ended.
#![tactic(auto)]

// As `?` of a result without a value, and without a conversion of the error: a `match` is one step
// of a proof where `?` is three.
macro_rules! attempt {
    ($result:expr) => {
        match $result {
            Ok(()) => {}
            Err(fault) => return Err(fault),
        }
    };
}

// The same of a result with a value.
macro_rules! attempt_value {
    ($result:expr) => {
        match $result {
            Ok(value) => value,
            Err(fault) => return Err(fault),
        }
    };
}

mod ends;
mod entries;
mod event;
mod frames;
mod further;
mod laws;
mod moved;
mod numbers;
mod part;
mod state;

pub use ends::{push_end, push_transfer};
pub use entries::{Entries, ShownPdo};
pub use event::{Event, PdoEntry, PdoPart, event_in};
pub use frames::{push_after, push_segment, segment_number};
pub use further::{ChannelIds, FurtherChannel, FurtherChannels, Place};
pub use laws::what_is_shown;
pub use moved::{MovedId, push_moved};
pub use state::{PdoState, PdoValues, Value};
