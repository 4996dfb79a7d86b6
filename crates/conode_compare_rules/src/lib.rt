//! Where a device differs from what CiA 301 prescribes for its data sheet, frame by frame of a
//! recording: each kind of difference by a rule of its own, and what isn't judged.
#![tactic(auto)]

mod answers;
mod channel;
mod emergencies;
mod error_control;
mod followed;
mod gaps;
mod kind;
mod known;
mod process;
mod progress;
mod verdict;
mod waits;

pub use kind::{FrameKind, kind_of};
pub use progress::Progress;
pub use verdict::{Findings, Verdict};
