//! The state of a client's transfer.

use co_frame::AbortCode;

/// The state of a client's transfer.
#[derive(Clone, Copy, PartialEq, Eq)]
pub enum ClientState {
    /// Not begun, or waiting for an answer.
    Waiting,
    /// The transfer is complete.
    Done,
    /// The transfer failed, with the code of the abort that was received or sent.
    Failed(AbortCode),
}
