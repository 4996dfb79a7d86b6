//! What a command of the program writes, and how it ends: lines handed to a writer, and the line
//! that says why a command stopped early.
#![tactic(auto)]

mod ending;
mod fault;
mod flushing;
mod message;
mod output;
mod read_waits;
mod refusal;
mod sheet_file;
mod trace_lines;

pub use ending::Ending;
pub use fault::CmdFault;
pub use flushing::{Flushed, flush};
pub use message::Message;
pub use output::{flushed, hand_over, say, stopped};
pub use read_waits::{AnyRead, BufferedRead, Waits};
pub use refusal::{
    bad_word, cannot_read, faulty_build, faulty_sheet, no_node_id, no_text, out_of_memory,
};
pub use sheet_file::file_text;
pub use trace_lines::{LetOut, let_out, line_fault};
