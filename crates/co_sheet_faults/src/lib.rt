//! All faults of an electronic data sheet (CiA 306): each line at fault, and what each check finds
//! in what can be read.
#![tactic(auto)]

// As `?`, without a conversion of the error: a `match` is one step of a proof where `?` is three.
macro_rules! attempt {
    ($result:expr) => {
        match $result {
            Ok(value) => value,
            Err(fault) => return Err(fault),
        }
    };
}

// The same of what couldn't be put into a list: memory ran out.
macro_rules! attempt_in_memory {
    ($result:expr) => {
        match $result {
            Ok(value) => value,
            Err(_) => return Err(AllocError),
        }
    };
}

mod collect;
mod entries;
mod faults;
mod find;
mod laws;
mod lists;
mod objects;
mod words;

pub use co_sheet::{FaultKind, SheetFault};
pub use find::{find_faults, read_sections};
pub use laws::{all_faults, emptied_lines, emptied_values};
pub use words::{fix_of, meaning_of, subject_of};
