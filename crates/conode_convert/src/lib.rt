//! What the commands over recordings share: a log of another recorder converted to lines as
//! `candump -L` writes them, where a bad line is named, and the next line is read.
#![tactic(auto)]

// As `?`, without a conversion of the error: a `match` is one step of a proof where `?` is three.
macro_rules! attempt {
    ($result:expr) => {
        match $result {
            Ok(value) => value,
            Err(fault) => return Err(fault),
        }
    };
}

mod bad_lines;
mod converted;
mod cut_off;
mod log_file;
mod step;
mod text;

pub use bad_lines::{
    NOT_TEXT, SAYS_NOT_TEXT, TOO_LONG, is_not_text, name_bad_line, name_step_back, read_fault,
    say_not_text,
};
pub use conode_logs::Form;
pub use converted::convert;
pub use cut_off::name_cut;
pub use log_file::convert_file;
pub use text::add_frame;
