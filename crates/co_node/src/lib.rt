//! A CANopen device made from a data sheet: it takes inputs, and sends the frames that the
//! definitions prescribe.
#![tactic(auto)]

mod built_laws;
mod config;
mod node;
mod record;
mod set_laws;

pub use built_laws::{
    begins_apart, built_download_ends, permitted_download_completes, stands_on_dictionary,
};
pub use co_frame::AppEvent;
pub use co_node_device::Seen;
pub use co_node_laws::{device_by_kind, state_by_kind};
pub use co_node_model::{AppAnswer, Input, most_rounds};
pub use co_node_parts::{LossReaction, NodeState};
pub use config::Config;
pub use node::Node;
pub use record::Record;
pub use set_laws::set_by_kind;
