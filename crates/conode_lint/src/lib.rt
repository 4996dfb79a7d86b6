//! Linting data sheets: every fault of a sheet and what is suspicious in it, as findings, for files
//! and folders.
#![tactic(auto)]

// As `?`, without a conversion of the error: a `match` is one step of a proof where `?` is three.
macro_rules! attempt {
    ($result:expr) => {
        match $result {
            Ok(value) => value,
            Err(fault) => return Err(fault),
        }
    };
}

// The same of what couldn't be put into a list: memory ran out.
macro_rules! attempt_in_memory {
    ($result:expr) => {
        match $result {
            Ok(value) => value,
            Err(_) => return Err(AllocError),
        }
    };
}

mod allowed;
mod build_reasons;
mod build_words;
mod files;
mod folder;
mod format_words;
mod laws;
mod linted_text;
mod mapping_words;
mod marks;
mod other_format;
mod printed;
mod report;
mod rules;
mod sheet;
mod words;

pub use conode_lint_marks::OtherFormat;
pub use files::{LintOptions, lint_files, text_of};
pub use format_words::format_meaning;
pub use laws::linted_texts;
pub use linted_text::{Linted, lint_text};
pub use marks::Checks;
pub use other_format::text_format;
pub use report::{Counts, Form};
