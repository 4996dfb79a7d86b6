//! The answer to an application event.

use co_frame::AbortCode;

/// The answer to an application event.
#[derive(Clone, Copy, PartialEq, Eq)]
pub enum AppAnswer {
    /// The last input was no application event.
    None,
    /// The event was done.
    Done,
    /// The event was refused with this abort code, and changed nothing.
    Refused(AbortCode),
}
