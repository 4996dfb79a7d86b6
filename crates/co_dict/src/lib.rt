//! The object dictionary of a CANopen device: its entries, their rights and limits, and why a write
//! is refused.
#![tactic(auto)]

mod area;
mod cob_id;
mod cob_id_rules;
mod consumer_heartbeats;
mod error_field;
mod fitting;
mod free_ids;
mod mapping_words;
mod numbers;
mod objects;
mod own_rule;
mod own_rules;
mod pdo_rules;
mod reading;
mod row;
mod sdo_channels;
mod side;
mod store;
mod write_laws;
mod writing;

pub use area::Area;
pub use cob_id::{CobId, is_restricted};
pub use consumer_heartbeats::{HeartbeatConsumer, heartbeat_consumer};
pub use error_field::push_error;
pub use free_ids::{is_free, is_good_sync_word, is_good_word};
pub use mapping_words::{MappingWord, entry_width, mapping_width, usable_dummy, word_width};
pub use numbers::{number_u8, number_u16, number_u32, set_u8};
pub use objects::{entry_row, has_object, has_sub};
pub use pdo_rules::{check_count, is_pdo_valid, mapping_word};
pub use reading::{may_read, readable};
pub use row::Row;
pub use sdo_channels::{SdoChannel, is_sdo_id, sdo_channel};
pub use side::Side;
pub use store::{ObjectStore, capacity_law, greatest_capacity_law, place_laws, store_laws};
pub use write_laws::{invalid_pdo_law, own_rule_law};
pub use writing::{app_store, may_begin, may_complete, may_store};
