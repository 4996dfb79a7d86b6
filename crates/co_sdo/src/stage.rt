//! Progress of an open transfer.

use co_value::Key;

/// Progress of an open transfer (CiA 301, 7.2.4.3). A size is the one indicated at initiate, if
/// any.
#[derive(Clone, Copy)]
pub(crate) enum Stage {
    /// A segmented download, with the toggle of the next segment.
    Download {
        indicated: Option<u32>,
        toggle: bool,
    },
    /// A segmented upload, with the number of segments sent.
    Upload {
        sent: u32,
    },
    /// Inside a sub-block of a block download, with the number of its segments taken so far.
    SubBlock {
        indicated: Option<u32>,
        taken: u8,
    },
    /// After the last segment of a block download: its end is awaited.
    LastTaken {
        indicated: Option<u32>,
    },
    /// A block upload before its start, with the most segments that its first sub-block may have.
    BlockUploadInitiated {
        block_size: u8,
    },
    /// A sub-block of a block upload was sent, with the number of segments acknowledged before it,
    /// and of its own.
    BlockUpload {
        acknowledged: u32,
        sent: u8,
    },
    /// The end of a block upload was sent: the client's end is awaited.
    BlockUploadEnded,
}

/// An open transfer without its bytes.
#[derive(Clone, Copy)]
pub(crate) struct Ongoing {
    pub(crate) key: Key,
    pub(crate) stage: Stage,
}
