//! A data sheet's text (CiA 306) as far as it can be read: by the rules of `co_sheet_adapt`, and
//! without what is at fault.
#![tactic(auto)]

mod laws;
mod lines;
mod mended;
mod repair;
mod repairs;
mod rewriting;

pub use laws::{names_stay, rounds_keep_names};
pub use repair::Repair;
pub use rewriting::{Rewritten, mended_text, readable};
