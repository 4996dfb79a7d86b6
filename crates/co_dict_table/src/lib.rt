//! What a data sheet says of the entries of a device, in a table that outlives the sheet's text.
#![tactic(auto)]

mod original;
mod table;

pub use table::{DescribedEntry, EntryFacts, EntryTable};
