//! The lines of a recording of a CAN bus, as `candump -L` writes them: every kind of frame, stamps
//! in microseconds, and what is wrong with a bad line.
#![tactic(auto)]

mod bad_line;
mod bad_log_line;
mod content;
mod fields;
mod frame;
mod interface;
mod line;
mod numbers;
mod parts;
mod words;

pub use bad_line::BadLine;
pub use bad_log_line::BadLogLine;
pub use content::{Content, Direction, FdBytes};
pub use fields::Identifier;
pub use frame::{LogBytes, LogContent, LogFrame, LogLine, Name, Place};
pub use interface::Interface;
pub use line::{Record, RecordLine};
pub use numbers::{Base, hex_number, millis_in, moment_at, moved, number_in, seconds_in, stamp_at};
pub use parts::{
    bytes_at, channel_at, count_at, direction_at, direction_of, error_frame, extended_id,
    fd_length, frame_of, name_at, short_id,
};
pub use words::{is_over, is_word, next_is, past_gap, word_at};
