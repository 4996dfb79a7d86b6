//! The abort codes of the SDO protocol.
#![tactic(auto)]

mod abort_code;

pub use abort_code::AbortCode;
