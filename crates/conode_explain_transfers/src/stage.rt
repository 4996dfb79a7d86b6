//! How far a transfer is.

/// How far a transfer is (CiA 301, 7.2.4.3).
#[derive(Clone, Copy)]
pub(crate) enum Stage {
    /// Initiate was requested: its response is awaited.
    Initiated,
    /// Segmented download: all segments so far are confirmed. The next one has this toggle.
    DownloadConfirmed { toggle: bool },
    /// Segmented download: a segment was sent, which is the last where c = 1. Its confirmation is
    /// awaited.
    DownloadSent { toggle: bool, last: bool },
    /// Segmented upload: the client has all segments so far. The next request has this toggle.
    UploadTaken { toggle: bool },
    /// Segmented upload: a segment was requested.
    UploadAsked { toggle: bool },
    /// Block upload: initiate was answered. Its start is awaited.
    BlockInitiated,
    /// Inside a sub-block. `last`: the newest segment that came in sequence has c = 1.
    SubBlock { last: bool },
    /// The segment with c = 1 is acknowledged: the end of the block transfer is awaited.
    AllAcknowledged,
    /// The end of the block transfer was requested, with this CRC. Its confirmation is awaited.
    BlockEnded { crc: u16 },
    /// The last confirmation came, in a block transfer with the CRC to compare.
    Confirmed { crc: Option<u16> },
}

impl Stage {
    ghost use Rattle.std.specs.Prelude.{◌≡◌};
    ghost use Rattle.conode_explain_transfers.specs.Stages.{is_initiated, confirmed_with};
    ghost use Rattle.conode_explain_transfers.specs.Unanswered.{awaits_start};

    /// Whether the response to initiate is awaited.
    pub(crate) fn is_initiated(self) -> bool
        ensures { result ≡ is_initiated self }
    {
        match self {
            Stage::Initiated => true,
            _ => false,
        }
    }

    /// Whether the response to initiate or the start of a block upload is awaited.
    pub(crate) fn awaits_start(self) -> bool
        ensures { result ≡ awaits_start self }
    {
        match self {
            Stage::Initiated | Stage::BlockInitiated => true,
            _ => false,
        }
    }

    /// Once the last confirmation came, the CRC to compare, if there is one; else `None`.
    pub(crate) fn confirmed(self) -> Option<Option<u16>>
        ensures { result ≡ confirmed_with self }
    {
        match self {
            Stage::Confirmed { crc } => Some(crc),
            _ => None,
        }
    }
}
