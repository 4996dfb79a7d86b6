//! All faults of the dictionary that a data sheet makes for a node-ID and limits, where
//! `co_dict_build` returns the first only.
#![tactic(auto)]

// As `?`, without a conversion of the error: a `match` is one step of a proof where `?` is three.
macro_rules! attempt {
    ($result:expr) => {
        match $result {
            Ok(value) => value,
            Err(fault) => return Err(fault),
        }
    };
}

// The same of what couldn't be put into a list: memory ran out.
macro_rules! attempt_in_memory {
    ($result:expr) => {
        match $result {
            Ok(value) => value,
            Err(_) => return Err(AllocError),
        }
    };
}

mod find;
mod laws;
mod mapping_fault;
mod mappings;
mod parameters;
mod sound_rows;
mod words;

pub use find::{BuildFaults, find_build_faults};
pub use laws::{all_build_faults, mapping_reasons};
pub use mapping_fault::{MappingFault, MappingReason};
pub use mappings::mapping_faults;
