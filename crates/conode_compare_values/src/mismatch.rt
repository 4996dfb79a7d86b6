//! The kinds of differences.

use co_frame::AbortCode;
use co_value::Key;

/// A difference between the end of a transfer and the data sheet.
#[derive(Clone, Copy)]
pub enum Mismatch {
    /// `value-length`: an upload of this entry has so many bytes, and its type has so many.
    ValueLength(Key, u64, u8),
    /// `value-const`: an upload of this entry gives the first number, and the data sheet has the
    /// second.
    ValueConst(Key, u64, u64),
    /// `value-const`: an upload of this entry gives another text than the data sheet has.
    ConstText(Key),
    /// `access-read`: an upload of this entry, which the data sheet has as readable, is refused
    /// with this code.
    ReadRefused(Key, AbortCode),
    /// `access-read`: an upload of this entry, which the data sheet has as write only, gives data.
    ReadServed(Key),
    /// `access-write`: a download to this entry, which the data sheet has as read only, is
    /// acknowledged.
    Written(Key),
    /// `access-limits`: a download to this entry above its HighLimit is acknowledged.
    AboveLimit(Key),
    /// `access-limits`: one below its LowLimit is.
    BelowLimit(Key),
    /// `access-limits`: a download of the first number of bytes to this entry is acknowledged, and it
    /// has room for the second.
    BeyondRoom(Key, u64, u64),
}
