//! A vendor's data sheet (CiA 306) rewritten to one that is accepted: each change with its line,
//! and what no rule changes.
#![tactic(auto)]

// As `?`, without a conversion of the error: a `match` is one step of a proof where `?` is three.
macro_rules! attempt {
    ($result:expr) => {
        match $result {
            Ok(value) => value,
            Err(fault) => return Err(fault),
        }
    };
}

// The same of a result whose `Err` says that memory ran out, in a function that gives an
// `AdaptFault`.
macro_rules! attempt_in_memory {
    ($result:expr) => {
        match $result {
            Ok(value) => value,
            Err(_) => return Err(AdaptFault::Memory),
        }
    };
}

mod adapted;
mod compact;
mod compact_pdo;
mod entry;
mod facts;
mod left_out;
mod meant;
mod named;
mod pdo_sections;
mod pieces;
mod values;
mod whole;

pub use adapted::{Adapted, accepted_text_stays, adapt};
pub use left_out::is_inconvertible;
pub use whole::expanded;
