//! What is legal in an electronic data sheet (CiA 306) and suspicious: each warning with its line,
//! and its words.
#![tactic(auto)]

// As `?`, without a conversion of the error: a `match` is one step of a proof where `?` is three.
macro_rules! attempt {
    ($result:expr) => {
        match $result {
            Ok(value) => value,
            Err(fault) => return Err(fault),
        }
    };
}

// The same of what couldn't be put into a list: memory ran out.
macro_rules! attempt_in_memory {
    ($result:expr) => {
        match $result {
            Ok(value) => value,
            Err(_) => return Err(AllocError),
        }
    };
}

mod accesses;
mod cob_ids;
mod communication;
mod find;
mod identity;
mod in_sections;
mod limits;
mod node_id_sums;
mod repeats;
mod reserved_values;
mod sub_indices;
mod types;
mod whole;
mod words;

pub use accesses::{FixedAccess, fixed_access};
pub use find::find_warnings;
pub use repeats::{ComparedNumber, compared, first_equal};
pub use sub_indices::value_in;
pub use types::standard_type;
pub use words::{fix_of, meaning_of, name_of, subject_of};
