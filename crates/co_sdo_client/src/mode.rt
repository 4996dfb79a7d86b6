//! The mode of a client.

/// By which of the SDO protocols a client transfers (CiA 301, 7.2.4.2).
#[derive(Clone, Copy)]
pub enum Mode {
    /// A download of 1 to 4 bytes is expedited; else as `Segmented`.
    Plain,
    /// In segments: SDO download and SDO upload. An upload takes an expedited answer too.
    Segmented,
    /// In blocks: SDO block download and SDO block upload.
    Block,
}
