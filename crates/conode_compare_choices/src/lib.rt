//! What a recorded device chose where CiA 301 leaves a choice.
#![tactic(auto)]

mod choice;
mod choices;
mod choosing;
mod codes;
mod length_error;
mod length_errors;
mod phases;
mod request;
mod timeouts;

pub use choice::Choice;
pub use choosing::Choosing;
pub use length_error::LengthError;
pub use length_errors::{Awaited, LengthErrors, Rpdo};
pub use phases::{Phase, Phases};
pub use request::Request;
