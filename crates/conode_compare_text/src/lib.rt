//! The differences of a device, its choices, and the values that it showed, in words.
#![tactic(auto)]

// As `?`, without a conversion of the error: a `match` is one step of a proof where `?` is three.
macro_rules! attempt {
    ($result:expr) => {
        match $result {
            Ok(value) => value,
            Err(fault) => return Err(fault),
        }
    };
}

mod choice_text;
mod details;
mod finding_text;
mod learned_text;
mod tally;
mod value;
mod warning_text;

pub use choice_text::{set_choice_line, set_choices_summary};
pub use details::{Came, Details, Passed};
pub use finding_text::{push_finding, set_finding_line};
pub use learned_text::set_learned_line;
pub use tally::{Tally, Unjudged, set_summary, set_unjudged_line};
pub use warning_text::set_warning_line;
