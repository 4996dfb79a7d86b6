//! The statistics of the buses in a recording of any recorder, on one page.
#![tactic(auto)]

// As `?`, without a conversion of the error: a `match` is one step of a proof where `?` is three.
macro_rules! attempt {
    ($result:expr) => {
        match $result {
            Ok(value) => value,
            Err(fault) => return Err(fault),
        }
    };
}

mod bit_rate;
mod document;
mod failure_tokens;
mod node_tokens;
mod parts;
mod recording;
mod recording_file;
mod sheet_facts;
mod step;
mod tokens;

pub use recording::{Recording, count};
pub use recording_file::{StatsWords, stats_file};
