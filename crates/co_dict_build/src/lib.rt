//! What both stores of an object dictionary are made from: the entries that a data sheet makes for
//! a node-ID and limits, with their rows, room and initial bytes, or the first fault.
#![tactic(auto)]

mod build;
mod build_fault;
mod capacity;
mod initial_bytes;
mod limits;
mod stored_entry;

pub use build::{
    FromRows, build_store, communication_law, entries_of_rows, entry_of_row, is_bad_cob_id,
    is_bad_mapping, is_channel_key, is_sum_outside, is_too_many, is_unpaired, usable_dummies,
};
pub use build_fault::BuildFault;
pub use limits::Limits;
pub use stored_entry::StoredEntry;
