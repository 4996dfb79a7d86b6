//! The object dictionary of a data sheet in words (CiA 306, CiA 301), in columns or as tables of
//! Markdown.
#![tactic(auto)]

// As `?`, without a conversion of the error: a `match` is one step of a proof where `?` is three.
macro_rules! attempt {
    ($result:expr) => {
        match $result {
            Ok(value) => value,
            Err(fault) => return Err(fault),
        }
    };
}

// The same of what couldn't be put into a list: memory ran out.
macro_rules! attempt_in_memory {
    ($result:expr) => {
        match $result {
            Ok(value) => value,
            Err(_) => return Err(AllocError),
        }
    };
}

mod cells;
mod chapters;
mod cob_ids;
mod entries;
mod format;
mod layout;
mod meaning;
mod names;
mod numbers;
mod ordering;
mod page;
mod pdos;
mod phrase;
mod sections;
mod service;
mod texts;
mod type_names;
mod values;

pub use cells::{Content, push_content};
pub use chapters::{Chapter, document};
pub use entries::{compound_type, has_sub_indices, is_mappable};
pub use format::Format;
pub use meaning::{Meaning, mapped_key};
pub use ordering::order;
pub use pdos::{
    entry_section, has_inhibit_time, is_counted, is_pdo_cob_id, known_word, mapping_count,
    multiplexed_words, section_word, type_meaning,
};
pub use sections::node_for;
pub use service::{Service, key_of};
pub use values::{Word, limit_in_type, type_of, value_number};
