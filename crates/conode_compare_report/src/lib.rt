//! What is kept of a comparison for a document at its end: the differences with the lines around
//! them, how often each kind was found and could have been, what the recording covers, and the bus
//! over time.
#![tactic(auto)]

// As `?`, without a conversion of the error: a `match` is one step of a proof where `?` is three.
macro_rules! attempt {
    ($result:expr) => {
        match $result {
            Ok(value) => value,
            Err(fault) => return Err(fault),
        }
    };
}

mod about;
mod before;
mod counts;
mod coverage;
mod identity;
mod kind;
mod lanes;
mod names;
mod noted;
mod occasions;
mod outcome;
mod report;
mod service;

pub use about::About;
pub use before::{Before, Role, Rpdos};
pub use coverage::{Coverage, Covered, Numbered};
pub use identity::Identity;
pub use kind::{Counted, Kind};
pub use lanes::{Bin, Lane, Lanes, States};
pub use names::{SheetNames, is_boot_up_master};
pub use noted::{ContextLine, Noted};
pub use outcome::Outcome;
pub use report::Report;
pub use service::{Served, Service};
