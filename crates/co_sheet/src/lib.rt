//! The electronic data sheet of a CANopen device (CiA 306): its objects and entries, its faults.
#![tactic(auto)]

mod checks;
mod commissioning;
mod data_type;
mod entry;
mod notes;
mod object_type;
mod reader;
mod rows;
mod sections;
mod sheet;
mod tables;
mod text_fault;

pub use checks::entries::{at_most, is_in_type};
pub use checks::lists::{Listing, has_numbers, read_list};
pub use co_profile::Access;
pub use co_sheet_rows::{
    EntryRow, FaultKind, Note, NoteKind, Object, ObjectType, Preset, Section, SheetFault,
};
pub use co_stream::{LineFault, LineReader, StreamFault, read_text};
pub use data_type::{data_type_with, is_left_out};
pub use entry::{access_with, is_pairs, numeric_default};
pub use reader::{GREATEST_SIZE, accepted_texts, read};
pub use sections::section_at;
pub use sheet::Sheet;
pub use tables::{EntrySection, ListedSection, Tables};
pub use text_fault::sheet_fault;
