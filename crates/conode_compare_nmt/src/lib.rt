//! What the data sheet says that a device sends by itself (CiA 301, 7.5.2), and what NMT commands,
//! boot-ups and heartbeats of a recording show of its NMT state (7.2.8).
#![tactic(auto)]

mod changed_period;
mod clients;
mod entries;
mod finding;
mod followed;
mod heartbeats;
mod leaving;
mod limits;
mod nmt;
mod repeated;
mod states;
mod turns;

pub use changed_period::{former_asked, newest_asked, period_asked_by};
pub use clients::{OtherClients, is_channel};
pub use entries::{Entries, Facts, facts_of, shares_id};
pub use finding::{Finding, NmtState, Remark};
pub use followed::is_idle;
pub use heartbeats::{Heartbeats, LONGEST_PERIOD, Since, follows_closely, is_gap};
pub use leaving::Leaving;
pub use limits::{Limits, Subject, drift_of};
pub use nmt::{Commanded, Nmt};
pub use repeated::Odd;
pub use states::is_reset;
