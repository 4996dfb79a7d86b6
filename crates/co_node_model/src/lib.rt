//! What a CANopen device does, independent of how it is computed: definitions, one file per
//! service, the types that they cite, and what each part of a device reads of an input.
#![tactic(auto)]

mod address;
mod app_answer;
mod device_error;
mod events;
mod input;
mod limit;
mod mark;
mod received;
mod turn;

pub use address::Address;
pub use app_answer::AppAnswer;
pub use device_error::DeviceError;
pub use events::{
    emergency_event, emptied_by, is_set, life_of, may_change_addresses, may_change_mappings,
    state_event,
};
pub use input::Input;
pub use limit::most_rounds;
pub use mark::{Asked, Mark};
pub use received::{counter_in, error_control_mark, rpdo_mark, sync_mark};
pub use turn::Turn;
