//! Progress of a transfer at its client.

/// Progress of a transfer at its client, while it waits (CiA 301, 7.2.4.3).
#[derive(Clone, Copy)]
pub(crate) enum Stage {
    /// Initiate was sent: its confirmation is awaited.
    Begun,
    /// A segmented download: `confirmed` segments were confirmed, and the next was sent.
    Download {
        confirmed: u16,
    },
    /// A segmented upload, with the size if one was indicated, and the toggle of the segment that
    /// was requested.
    Upload {
        indicated: Option<u32>,
        toggle: bool,
    },
    /// A block download: `acknowledged` segments were acknowledged, and a sub-block of `sent` more
    /// was sent.
    BlockDownload {
        acknowledged: u16,
        sent: u8,
    },
    /// The end of a block download was sent: its confirmation is awaited.
    BlockDownloadEnded,
    /// Inside a sub-block of a block upload, with the number of its segments taken so far.
    SubBlock {
        indicated: Option<u32>,
        taken: u8,
    },
    /// After the last segment of a block upload: its end is awaited.
    LastTaken {
        indicated: Option<u32>,
    },
}
