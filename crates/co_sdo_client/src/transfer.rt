//! The protocols of a transfer.

/// The protocol that carries the bytes.
#[derive(Clone, Copy)]
pub(crate) enum Transfer {
    /// Initiate SDO download with e = 1 (CiA 301, 7.2.4.3.3).
    ExpeditedDownload,
    /// SDO download (CiA 301, 7.2.4.3.3 and 7.2.4.3.4).
    SegmentedDownload,
    /// SDO block download (CiA 301, 7.2.4.3.9 to 7.2.4.3.11).
    BlockDownload,
    /// SDO upload (CiA 301, 7.2.4.3.6 and 7.2.4.3.7).
    SegmentedUpload,
    /// SDO block upload (CiA 301, 7.2.4.3.13 to 7.2.4.3.15).
    BlockUpload,
}
