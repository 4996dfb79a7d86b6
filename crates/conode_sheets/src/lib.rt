//! The data sheets that the words of a command line name, `[INTERFACE:][NODE=]FILE`, for the commands
//! over recordings: which interface and node each is for, and its text, of a sheet with faults
//! without what is at fault; and whether a line is one of a data sheet.
#![tactic(auto)]

mod readable;
mod section_line;
mod sheet_text;
mod sheet_word;

pub use readable::readable_texts;
pub use section_line::{IS_SHEET, has_section, is_section_line, sheet_as_recording};
pub use sheet_text::{SheetText, bad_sheet, no_sheet};
pub use sheet_word::{SheetPart, SheetWord, SheetWordFault, sheet_words};
