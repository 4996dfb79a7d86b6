//! The NMT state of a node (CiA 301, 7.3.2.2).

/// An NMT state that heartbeats and commands name.
#[derive(Clone, Copy)]
pub enum NmtState {
    Stopped,
    Operational,
    PreOperational,
}

/// What is known of the NMT state of a node.
#[derive(Clone, Copy)]
pub enum KnownState {
    /// Nothing, or a reset was commanded.
    Unknown,
    /// Its last frame of error control shows it, and no command came since.
    Seen(NmtState),
    /// It was commanded, and no frame of error control came since.
    Commanded(NmtState),
    /// It was commanded of all nodes, and before that nothing came that counts: no error control or
    /// emergency of this node, no command or guarding request for it.
    CommandedOfAll(NmtState),
}
