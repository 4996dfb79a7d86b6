//! The object dictionary as a list of its entries.
#![tactic(auto)]

mod list_store;

pub use co_dict_build::{BuildFault, Limits};
pub use list_store::ListStore;
