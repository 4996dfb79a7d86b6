//! Texts for users: what an SDO abort code means, and what a build fault means and how it is fixed.
#![tactic(auto)]

mod abort_reason;
mod build_faults;

pub use abort_reason::{AbortReason, abort_text};
pub use build_faults::{build_fix_of, build_meaning_of};
