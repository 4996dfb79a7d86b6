//! Compiled PDO mappings: the places and limits of the mapped entries are looked up once, so that a
//! frame costs no search by key.
#![tactic(auto)]

mod compiled;
mod data;
mod laws;
mod part;

pub use compiled::Compiled;
pub use data::{apply_at, image_at};
pub use laws::{compiled_stays, mapping_by_words};
