//! The TPDOs of a device in a recording, and where they differ from what CiA 301 prescribes for its
//! data sheet: the number of their bytes, the state of the device, SYNC, the inhibit time and the
//! event timer. And what is known of its RPDOs.
#![tactic(auto)]

mod cycle;
mod deviation;
mod identifiers;
mod numbers;
mod parameters;
mod pdos;
mod rpdo;
mod rpdos;
mod tpdo;

pub use cycle::Cycle;
pub use deviation::{Deviation, Moment};
pub use identifiers::{may_change, may_get, may_have};
pub use numbers::{first_word, number_of, preset_at, small};
pub use parameters::{Parameters, identifier_of, length_of};
pub use pdos::{Pdos, Sighting, pdos_of};
pub use rpdo::{Rpdo, is_object_of, object_key};
pub use rpdos::{Rpdos, has_few_rpdos};
pub use tpdo::{Sent, Tpdo, is_id};
