//! Why no more can be read.

/// Why a line can't be read.
#[derive(Clone, Copy, Debug, PartialEq, Eq)]
pub enum ReadFault {
    /// The reader failed.
    Read,
    /// The reader was asked at least 2^64 - 1 times for one line.
    NeverEnds,
}
