//! A recording of a CAN bus explained: each frame on a line with its times and what it says; a bad
//! line is named, and the rest goes on.
#![tactic(auto)]

// As `?` of a result without a value, and without a conversion of the error: a `match` is one step
// of a proof where `?` is three.
macro_rules! attempt {
    ($result:expr) => {
        match $result {
            Ok(()) => {}
            Err(fault) => return Err(fault),
        }
    };
}

// The same of a result with a value.
macro_rules! attempt_value {
    ($result:expr) => {
        match $result {
            Ok(value) => value,
            Err(fault) => return Err(fault),
        }
    };
}

// The same of results whose `Err` says that memory ran out, in a function that gives a `CmdFault`.
macro_rules! attempt_in_memory {
    ($result:expr) => {
        match $result {
            Ok(()) => {}
            Err(_) => return Err(CmdFault::Memory),
        }
    };
}

mod abort_words;
mod ends;
mod explain_file;
mod explained;
mod filtered;
mod frame_words;
mod no_channel;
mod node_digits;
mod own_words;
mod progress;
mod settings;
mod sheets;
mod step;
mod told_words;
mod transfer;
mod whose;
mod writes;

pub use conode_explain_text::StampForm;
pub use conode_logs::Form;
pub use explain_file::{ExplainOptions, explain_files};
pub use explained::explain;
pub use progress::{Layout, LineFormat};
pub use settings::Settings;
