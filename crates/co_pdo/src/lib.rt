//! PDOs of a CANopen device: when its TPDOs are due, and the bytes of the mapped entries (CiA 301,
//! 7.2.2).
#![tactic(auto)]

mod data;
mod laws;
mod mapping;
mod pdos;
mod places;
mod schedule;
mod settings;
mod tpdo;
mod tpdos;

pub use co_dict::{CobId, Side};
pub use co_profile::PdoNumber;
pub use data::{PdoFault, apply, image, parts_joined};
pub use laws::{active_is_there, settings_by_numbers, written_from_2000};
pub use mapping::{Mapped, Mapping};
pub use pdos::{cob_id, has_pdo, is_active};
pub use schedule::Schedule;
pub use tpdo::Part;
pub use tpdos::Due;
