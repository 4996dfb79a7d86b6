//! The logs of other recorders: `candump -L` and what candump shows on a screen, `.trc` of
//! PCAN-View, `.asc` of CANalyzer. Each is read line by line.
#![tactic(auto)]

mod asc;
mod log;
mod screen;
mod trc;

pub use asc::AscForm;
pub use conode_record::{BadLogLine, Base, LogBytes, LogContent, LogFrame, LogLine, Name, Place};
pub use log::{Form, Log};
pub use trc::Columns;
