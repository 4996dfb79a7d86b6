//! The SDO transfers of one channel in a recording, between any two ends: what each frame is, and
//! how each transfer ended (CiA 301, 7.2.4.3).
#![tactic(auto)]

mod block;
mod channel;
mod channels;
mod crc;
mod digest;
mod doubtful;
mod ended;
mod hearing;
mod initiate;
mod kinds;
mod late;
mod laws;
mod reading;
mod requests;
mod responses;
mod revealed;
mod segments;
mod stage;
mod told;
mod track;
mod transfer;
mod unanswered;

pub use channel::{Channel, Heard};
pub use channels::Channels;
pub use ended::{Ended, Ending, Fault};
pub use kinds::{Direction, Protocol, Side, What};
pub use laws::{done_in_recordings, done_is_confirmed, kept_data, kept_in_recordings};
pub use revealed::Revealed;
pub use told::{Part, Told};
pub use track::Track;
