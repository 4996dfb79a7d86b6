//! Entries of an object dictionary by their places: what the application may set, and which entries
//! changed.
#![tactic(auto)]

mod changes;
mod placed;
mod writing;

pub use changes::{change_laws, forget_change, is_changed, note_change, note_key};
pub use writing::app_store_at;
