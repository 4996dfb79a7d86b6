//! Which lines of an explained recording are printed: by node, identifier, kind and time; and
//! whether a line says something new.
#![tactic(auto)]

// As `?`, without a conversion of the error: a `match` is one step of a proof where `?` is three.
macro_rules! attempt {
    ($result:expr) => {
        match $result {
            Ok(value) => value,
            Err(fault) => return Err(fault),
        }
    };
}

mod condition;
mod filter;
mod kind;
mod last;
mod lasts;
mod moment;
mod option;
mod reading;
mod subject;

pub use condition::{Condition, Written};
pub use filter::Filter;
pub use kind::Kind;
pub use lasts::Lasts;
pub use moment::Moment;
pub use option::FilterOption;
pub use reading::{FilterFault, FilterWords};
pub use subject::Subject;
