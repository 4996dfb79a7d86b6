//! What a user may want to know of a recorded device beside differences, and the values of its
//! entries.
#![tactic(auto)]

// As `?`, without a conversion of the error: a `match` is one step of a proof where `?` is three.
macro_rules! attempt {
    ($result:expr) => {
        match $result {
            Ok(value) => value,
            Err(fault) => return Err(fault),
        }
    };
}

mod contents;
mod history;
mod learned;
mod versions;
mod warning;
mod watched;
mod writes;

pub use contents::Content;
pub use history::{ErrorCode, Errors};
pub use learned::{Learned, Shown};
pub use warning::Warning;
pub use watched::{Watched, stepped_back};
pub use writes::{Writes, Wrote};
