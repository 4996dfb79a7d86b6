//! A recording of a device compared with its data sheet.
#![tactic(auto)]

// As `?`, without a conversion of the error: a `match` is one step of a proof where `?` is three.
macro_rules! attempt {
    ($result:expr) => {
        match $result {
            Ok(value) => value,
            Err(fault) => return Err(fault),
        }
    };
}

// The same of a result whose `Err` says that memory ran out, in a function that gives a `CmdFault`.
macro_rules! attempt_in_memory {
    ($result:expr) => {
        match $result {
            Ok(value) => value,
            Err(_) => return Err(CmdFault::Memory),
        }
    };
}

mod bad_lines;
mod compare_file;
mod compared;
mod comparing;
mod details;
mod document;
mod frames;
mod interfaces_seen;
mod kept;
mod last_lines;
mod line;
mod nodes_seen;
mod notes;
mod writes;

pub use compare_file::{Asked, compare_files};
pub use compared::compare;
pub use comparing::Comparing;
pub use document::Format;
pub use frames::compares_frames;
pub use interfaces_seen::InterfacesSeen;
pub use nodes_seen::NodesSeen;
pub use notes::Notes;
pub use writes::Settings;
