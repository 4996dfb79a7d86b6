//! The object dictionary of a data sheet (CiA 306, CiA 301), shown as text or as one JSON document.
#![tactic(auto)]

// As `?`, without a conversion of the error: a `match` is one step of a proof where `?` is three.
macro_rules! attempt {
    ($result:expr) => {
        match $result {
            Ok(value) => value,
            Err(fault) => return Err(fault),
        }
    };
}

// The same of what couldn't be put into a list: memory ran out.
macro_rules! attempt_in_memory {
    ($result:expr) => {
        match $result {
            Ok(value) => value,
            Err(_) => return Err(AllocError),
        }
    };
}

mod form;
mod json_entries;
mod json_form;
mod json_pdos;
mod json_services;
mod member;
mod parts;
mod retyped;
mod shown_file;

pub use conode_show_text::Format;
pub use form::Form;
pub use shown_file::{show, show_file};
