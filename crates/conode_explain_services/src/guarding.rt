//! How a node is guarded.

/// What is known of the guarding of a node (CiA 301, 7.2.8.3.2.1).
#[derive(Clone, Copy)]
pub enum Guarding {
    /// No guarding was seen, or the node's last frame of error control was a heartbeat.
    NotSeen,
    /// The node booted up.
    BootedUp,
    /// A master asked; the answer has this toggle bit, where that is known.
    Requested(Option<bool>),
    /// The node answered; its next answer has this toggle bit.
    Answered(bool),
}
