//! A CANopen device for programs in C: the library of `include/bafokun.h`.
#![tactic(auto)]

mod build;
mod bus;
mod changes;
mod dictionary;
mod ending;
mod entries;
mod frames;
mod handle;
mod happened;
mod held;
mod inputs;
mod parts;
mod questions;
mod seal;
mod texts;
mod version;

pub use build::{Fault, Settings, bafokun_build};
pub use bus::bus_off_as_lost_heartbeat;
pub use dictionary::{bafokun_entry, bafokun_entry_name, bafokun_find, bafokun_next_changed};
pub use entries::Entry;
pub use frames::CanFrame;
pub use handle::Handle;
pub use happened::Events;
pub use inputs::{
    bafokun_boot, bafokun_bus, bafokun_changed, bafokun_clear, bafokun_event, bafokun_raise,
    bafokun_take, bafokun_tick, bafokun_ticks, bafokun_write, bafokun_write_at,
};
pub use questions::{
    bafokun_answer, bafokun_free, bafokun_happened, bafokun_held, bafokun_idle, bafokun_node_id,
    bafokun_sent, bafokun_state, bafokun_value, bafokun_value_at, idle_ticks_elapse,
};
pub use texts::{bafokun_abort_text, bafokun_fault_fix, bafokun_fault_text};
pub use version::bafokun_version;
