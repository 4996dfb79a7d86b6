//! The device of a data sheet, running. A CAN trace is replayed against it: what it receives, line
//! by line, and what it then sends. Or an SDO client's download is looped against it, over the
//! default SDO channel (CiA 301, 7.2.4.3), and each frame is printed as the line of a trace.
#![tactic(auto)]

mod frames;
mod input;
mod lines;
mod loop_file;
mod looped;
mod replay_file;
mod replayed_line;
mod replayed_trace;
mod rounds;
mod totals;

pub use loop_file::loop_files;
pub use looped::loop_back;
pub use replay_file::{replay_files, replay_stored};
pub use replayed_trace::replay;
pub use totals::Totals;
