//! The addressee of a frame.

use co_pdo::PdoNumber;

/// The addressee of a received frame: the first whose identifier the frame has, in this order
/// (CiA 301, 7.3.5).
#[derive(Clone, Copy)]
pub enum Address {
    /// NMT, identifier 0.
    Nmt,
    /// SYNC: the identifier in 1005h.
    Sync,
    /// The SDO channel with this number, 0 to 127.
    Channel(u8),
    /// The active RPDO with this number.
    Rpdo(PdoNumber),
    /// The error control of the node with this node-ID, 1 to 127: identifier 700h + node-ID.
    ErrorControl(u8),
    /// Nobody: the frame is ignored.
    Nobody,
}
