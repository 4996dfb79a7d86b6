//! Checking a data sheet (CiA 306), and what is written about it.
#![tactic(auto)]

mod checked_file;
mod sheet_check;
mod sheet_text;

pub use checked_file::{check_file, check_text};
pub use sheet_check::check;
