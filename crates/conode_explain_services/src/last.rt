//! What the last frames of a node had, and what was commanded.

use crate::guarding::Guarding;
use crate::nmt_state::KnownState;

/// What the last frames of a node had.
#[derive(Clone, Copy)]
pub struct Last {
    /// The error register of its last emergency.
    pub register: Option<u8>,
    /// How it is guarded.
    pub guarding: Guarding,
    /// What is known of its NMT state.
    pub state: KnownState,
}

/// What a frame shows of its node.
#[derive(Clone, Copy)]
pub(crate) enum Shown {
    /// The error register, in an emergency.
    Register(u8),
    /// The byte of a frame of error control.
    State(u8),
    /// That a master asked, by a remote frame.
    Request,
    /// An NMT command for the node.
    Command(u8),
}
