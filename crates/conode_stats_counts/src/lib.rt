//! Statistics of buses: the frames of a recording, counted by interface and identifier, with the
//! gaps between their stamps and the bits that they take on the bus; and what each node shows of
//! its state, its EMCY messages, and its SDO transfers that failed.
#![tactic(auto)]

// As `?`, without a conversion of the error: a `match` is one step of a proof where `?` is three.
macro_rules! attempt {
    ($result:expr) => {
        match $result {
            Ok(value) => value,
            Err(fault) => return Err(fault),
        }
    };
}

mod bus;
mod counts;
mod emergencies;
mod failure;
mod first_gaps;
mod guarding;
mod heartbeats;
mod load;
mod node;
mod nodes;
mod row;
mod rows;
mod sdo_frame;
mod shown_time;
mod sign;
mod size;
mod state;
mod steps;
mod tally;
mod transfers;
mod wire;

pub use bus::Bus;
pub use counts::Counts;
pub use emergencies::Emergencies;
pub use failure::{Cause, FailureRow, Reason};
pub use first_gaps::FirstGaps;
pub use guarding::{ErrorControl, Guarding};
pub use heartbeats::{Heartbeats, is_late};
pub use load::{Load, Second};
pub use node::{Node, Shown};
pub use row::Row;
pub use size::Size;
pub use state::{NmtState, StateTimes};
pub use tally::Tally;
pub use transfers::Transfers;
