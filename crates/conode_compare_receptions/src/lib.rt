//! What RPDOs write to the entries that are held to what was written, frame by frame of a recording
//! (CiA 301, 7.2.2 and 7.3.2.2.3).
#![tactic(auto)]

mod other_ids;
mod process_data;
mod receptions;
mod transfers;

pub use other_ids::OtherIds;
pub use receptions::Receptions;
