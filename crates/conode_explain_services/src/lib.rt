//! What frames say by their service: emergencies, LSS, node guarding, TIME, identifiers that the
//! standard reserves, and error frames.
#![tactic(auto)]

// As `?` of a result without a value, and without a conversion of the error: a `match` is one step
// of a proof where `?` is three.
macro_rules! attempt {
    ($result:expr) => {
        match $result {
            Ok(()) => {}
            Err(fault) => return Err(fault),
        }
    };
}

mod codes;
mod drives;
mod emergencies;
mod error_frames;
mod guarding;
mod guardings;
mod last;
mod lengths;
mod lss;
mod lss_commands;
mod nmt_state;
mod nmt_states;
mod node;
mod nodes;
mod registers;
mod reserved;
mod services;
mod texts;
mod times;

pub use drives::{has_meaning, is_drive, push_drive};
pub use error_frames::push_error;
pub use guarding::Guarding;
pub use last::Last;
pub use nmt_state::{KnownState, NmtState};
pub use node::Node;
pub use nodes::{Nodes, is_emergency};
pub use services::{push_remote, push_service, push_state};
