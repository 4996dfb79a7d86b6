//! Where the SDO transfers of a device differ from CiA 301 (7.2.4.3): toggle bits, indicated sizes,
//! the multiplexer of an abort, the form of an answer, the numbers of block segments, the CRC of a
//! block upload, and when a server gives up a transfer.
#![tactic(auto)]

mod breach;
mod dialogue;
mod doubts;
mod left;
mod newest;
mod timeouts;
mod times;

pub use breach::{Breach, breach_at, byte_at, key_in};
pub use dialogue::{
    Asked, Dialogue, Exchange, asks_to_write, comes_in_turn, is_timed, word_written,
};
pub use left::Left;
pub use newest::{Newest, newest_with};
pub use timeouts::{early_abort, is_late, resumed_after, served_key};
pub use times::{is_past, micros_of};
