//! What the electronic data sheet of a CANopen device says (CiA 306): rows for its entries, objects
//! and sections, notes, and its faults.
#![tactic(auto)]

mod entry;
mod fault;
mod note;
mod object;
mod out_of_memory;
mod section;

pub use entry::{EntryRow, Preset};
pub use fault::{FaultKind, SheetFault};
pub use note::{Note, NoteKind};
pub use object::{Object, ObjectType};
pub use section::Section;
