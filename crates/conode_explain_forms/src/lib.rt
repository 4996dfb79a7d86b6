//! Other forms of an explained recording than text: the line of a frame as an object of JSON, and
//! the values of entries as a table of comma-separated values.
#![tactic(auto)]

// As `?` of a result without a value, and without a conversion of the error: a `match` is one step
// of a proof where `?` is three.
macro_rules! attempt {
    ($result:expr) => {
        match $result {
            Ok(()) => {}
            Err(fault) => return Err(fault),
        }
    };
}

// The same of a result with a value.
macro_rules! attempt_value {
    ($result:expr) => {
        match $result {
            Ok(value) => value,
            Err(fault) => return Err(fault),
        }
    };
}

mod columns;
mod end_lines;
mod ended_value;
mod fields;
mod json_content;
mod json_lines;
mod kind_name;
mod lines;
mod places;
mod refusal;
mod signal;
mod stamps;
mod tones;

pub use columns::{first_missing, header};
pub use end_lines::end_json_line;
pub use ended_value::push_end_value;
pub use json_lines::json_line;
pub use lines::set_signal_line;
pub use places::{SheetChannel, channels_of, place_of, read_as};
pub use refusal::{Refusal, push_refusal};
pub use signal::{Signal, SignalFault};
pub use tones::{Tone, data_of, ending_tone, frame_tone, put_tone};
