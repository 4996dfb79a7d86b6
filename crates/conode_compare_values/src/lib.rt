//! Where the end of an SDO transfer differs from what the data sheet has of its entry: the length
//! and the value of a number, who may read and write it, its limits,
//! the room of a string or a DOMAIN; and where an upload differs from what was written to an entry
//! that is held to that.
#![tactic(auto)]

mod downloads;
mod entries;
mod mismatch;
mod rooms;
mod rpdo_writes;
mod values;
mod written;

pub use downloads::{beyond_mismatch, has_limits, is_closed, is_read_only, is_within};
pub use entries::{HeldEntries, HeldEntry, HeldFault, held_width};
pub use mismatch::Mismatch;
pub use rooms::Rooms;
pub use rpdo_writes::{Brought, RpdoValue, RpdoWrites, all_fit};
pub use values::{
    is_comparable, is_held, is_other_text, is_readable, is_stored, mismatch_at, profile_in,
    shown_number,
};
pub use written::{HeldMismatch, Written, differs, is_done, is_restricted, number_written};
