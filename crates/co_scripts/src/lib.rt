//! Material for tests: data sheets made from tables; readers that return few bytes at a time, fail,
//! or never end; worked dialogues of an SDO client and a server's channel, and worked sequences of
//! a whole device, as texts, with the code that runs them; and a table of the answers of a channel
//! in each of its states. The program whose allocations a test refuses runs them too.
#![tactic(auto)]

mod bad_script;
mod client;
mod device;
mod dialogue;
mod frames;
mod input_lines;
mod pdo;
mod questions;
mod reply_table;
mod script;
mod sdo;
mod served;
mod server;
mod sheet;
mod state;
mod states;
mod streams;
mod transfers;

pub use bad_script::BadScript;
pub use client::{answered, begun, client_follows};
pub use device::{node_of, sheet_by, write};
pub use frames::{are_frames, frame_of};
pub use pdo::{RPDOS, TPDOS};
pub use reply_table::{DEFAULTS, Outcome};
pub use script::{devices_of, first_wrong};
pub use sdo::{BLOCKS, SEGMENTED};
pub use served::Served;
pub use server::server_follows;
pub use sheet::{COUNTER, MANUFACTURER, PDOS, PROFILE, sheet_of};
pub use state::{STATES, State};
pub use states::{APPLICATION, EMERGENCIES};
pub use streams::{Endless, Pieces};
pub use transfers::{BLOCK_UPLOAD, TIMED_OUT, UPLOAD, UPLOAD_TOO_LONG};
