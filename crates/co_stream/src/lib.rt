//! Texts that come in pieces: lines one at a time in constant memory, and a whole text in memory.
#![tactic(auto)]

mod ask;
mod asking;
mod asks;
mod bounded_lines;
mod fault;
mod line_buffer;
mod line_cutter;
mod line_reader;
mod piece;
mod read_fault;
mod text;
mod window;

pub use bounded_lines::{BoundedLines, Found};
pub use fault::{LineFault, StreamFault};
pub use line_reader::LineReader;
pub use read_fault::ReadFault;
pub use text::read_text;
