//! Which way the bytes go.

/// Which way the bytes go.
#[derive(Clone, Copy)]
pub(crate) enum Direction {
    /// To the server; their number is indicated at initiate if `tell_size`.
    Download { tell_size: bool },
    /// From the server: at most `cap` bytes.
    Upload { cap: u16 },
}
