//! What is found at the lines of a data sheet, as marks: why no dictionary can be built of it, and
//! what beside its faults rests on nothing at fault.
#![tactic(auto)]

// As `?`, without a conversion of the error: a `match` is one step of a proof where `?` is three.
macro_rules! attempt {
    ($result:expr) => {
        match $result {
            Ok(value) => value,
            Err(fault) => return Err(fault),
        }
    };
}

// The same of what couldn't be put into a list: memory ran out.
macro_rules! attempt_in_memory {
    ($result:expr) => {
        match $result {
            Ok(value) => value,
            Err(_) => return Err(AllocError),
        }
    };
}

mod at_fault;
mod beside;
mod build_lines;
mod build_marks;
mod compact;
mod concerns;
mod doubts;
mod known_faults;
mod known_marks;
mod known_warnings;
mod lines;
mod mark;

pub use at_fault::{AtFault, sections_at_fault};
pub use beside::{add_beside, sheet_of};
pub use build_marks::add_build_marks;
pub use known_warnings::add_known_warnings;
pub use lines::line_at;
pub use mark::{Mark, OtherFormat, Subject};
