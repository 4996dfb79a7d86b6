//! A worked device, from the text of its data sheet on. Its frames are computed from the
//! definitions: the contracts of `read`, `Node::build`, `step` and `run`, applied one after
//! another, leave no premise open.
#![tactic(auto)]

mod chain;

pub use chain::{Sent, worked};
