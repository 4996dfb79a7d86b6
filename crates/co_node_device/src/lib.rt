//! A CANopen device over a dictionary, one input after another. The code of each service is in a
//! file of its own.
#![tactic(auto)]

mod addresses;
mod app_events;
mod build;
mod device;
mod emergencies;
mod given;
mod heartbeats;
mod idle;
mod mapping_table;
mod mappings;
mod maybe_rpdo;
mod nmt;
mod parts;
mod receiving;
mod rpdos;
mod sdo;
mod seen;
mod sync;
mod tpdos;

pub use device::Device;
pub use parts::Parts;
pub use seen::Seen;
