//! What the data of PDOs say, by their mappings in force.
#![tactic(auto)]

// As `?` of a result without a value, and without a conversion of the error: a `match` is one step
// of a proof where `?` is three.
macro_rules! attempt {
    ($result:expr) => {
        match $result {
            Ok(()) => {}
            Err(fault) => return Err(fault),
        }
    };
}

mod cob_id_words;
mod entry_bits;
mod entry_words;
mod in_force;
mod known_entry;
mod mapping;
mod pdo;
mod value_type;

pub use entry_bits::EntryBits;
pub use known_entry::push_known;
pub use mapping::{Mapping, push_data};
pub use pdo::push_pdos;
pub use value_type::type_in;
