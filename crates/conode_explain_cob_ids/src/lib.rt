//! Whose an identifier is, by data sheets and by what a recording shows of COB-IDs: PDOs, SYNC,
//! TIME and emergencies; and what is known of a bus and its devices.
#![tactic(auto)]

// As `?` of a result without a value, and without a conversion of the error: a `match` is one step
// of a proof where `?` is three.
macro_rules! attempt {
    ($result:expr) => {
        match $result {
            Ok(()) => {}
            Err(fault) => return Err(fault),
        }
    };
}

// The same of a result with a value.
macro_rules! attempt_value {
    ($result:expr) => {
        match $result {
            Ok(value) => value,
            Err(fault) => return Err(fault),
        }
    };
}

mod bus;
mod channel_words;
mod claim;
mod cob_id;
mod device;
mod known;
mod known_sheet;
mod named;
mod origin;
mod service_ids;
mod sheet;
mod sheet_mappings;
mod sheet_services;
mod unnamed;

pub use bus::Bus;
pub use channel_words::channel_word;
pub use claim::{Claim, add_claims};
pub use cob_id::{SheetCobId, cob_id_of, has_identifier, may_be_pdo};
pub use device::{Device, is_node_drive};
pub use known::names_for;
pub use known_sheet::KnownSheet;
pub use origin::{Origin, is_from, number_by, value_at};
pub use service_ids::{NamedService, service_with};
pub use sheet::{SheetPdo, sheet_pdos};
pub use sheet_mappings::{SheetMapping, is_assumed, sheet_count, sheet_mapping, sheet_word};
pub use sheet_services::{SheetService, is_service_index};
pub use unnamed::{is_unnamed, shows_more};
