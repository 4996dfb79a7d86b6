//! Adapting a vendor's data sheet: the sheet goes to standard output, its changes to standard
//! error.
#![tactic(auto)]

// As `?`, without a conversion of the error: a `match` is one step of a proof where `?` is three.
macro_rules! attempt {
    ($result:expr) => {
        match $result {
            Ok(value) => value,
            Err(fault) => return Err(fault),
        }
    };
}

mod adapted_file;
mod large_forms;
mod line_ends;
mod listing;
mod mappings;
mod no_sheet;
mod orders;
mod origins;
mod outcome;
mod remaining;

pub use adapted_file::{AdaptWords, adapt_file, write_adapted};
pub use co_sheet_changes::LeadingZeros;
pub use orders::Orders;
