//! What is legal and suspicious in the form of an electronic data sheet (CiA 306): its lines, keys,
//! names of sections, FileInfo, DeviceInfo and object lists. Also what a warning is.
#![tactic(auto)]

// As `?`, without a conversion of the error: a `match` is one step of a proof where `?` is three.
macro_rules! attempt {
    ($result:expr) => {
        match $result {
            Ok(value) => value,
            Err(fault) => return Err(fault),
        }
    };
}

// The same of what couldn't be put into a list: memory ran out.
macro_rules! attempt_in_memory {
    ($result:expr) => {
        match $result {
            Ok(value) => value,
            Err(_) => return Err(AllocError),
        }
    };
}

mod in_text;
mod infos;
mod keys;
mod known_key;
mod lines;
mod lists;
mod misspelt_keys;
mod node_id;
mod places;
mod ranges;
mod read_text;
mod section_names;
mod warning;

pub use in_text::{kind_in, pdo_counts, place_in_text};
pub use infos::{date_formats, device_keys, file_keys, object_count, other_number_at};
pub use keys::{Topic, WrittenKey, keys_in};
pub use known_key::{KnownKey, is_near};
pub use lines::{add_long_lines, has_other_byte, text_lines};
pub use lists::{ListCheck, add_places_of_lists};
pub use misspelt_keys::add_misspelt;
pub use node_id::{no_node_id, own_node};
pub use places::{add_each, add_one};
pub use ranges::is_within;
pub use read_text::ReadText;
pub use section_names::misspelt_section;
pub use warning::{Warning, WarningKind};
