//! CAN traces as `candump -L` writes them, with event lines of this project's own: what each line
//! says, the clock that they set, the inputs that they give, and the line of a frame that is sent.
#![tactic(auto)]

// As `?` of an `Option`: a `match` is one step of a proof where `?` is three.
macro_rules! given {
    ($option:expr) => {
        match $option {
            Some(value) => value,
            None => return None,
        }
    };
}

mod clock;
mod event_line;
mod frame_fields;
mod frame_text;
mod timed_line;
mod trace_line;
mod trace_progress;

pub use event_line::{EventLine, written_bytes};
pub use frame_text::{FrameLine, frame_line, push_frame};
pub use timed_line::TimedLine;
pub use trace_line::TraceLine;
pub use trace_progress::{BadLine, TraceProgress};
