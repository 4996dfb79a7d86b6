//! The ends and ways of a transfer, and what a frame is in it.

/// An end of a channel.
#[derive(Clone, Copy)]
pub enum Side {
    /// The client, which sends requests.
    Client,
    /// The server, which sends responses: the device whose entries are read and written.
    Server,
}

/// Which way the data goes.
#[derive(Clone, Copy)]
pub enum Direction {
    /// To the server: an entry is written.
    Download,
    /// To the client: an entry is read.
    Upload,
}

/// By which protocol the data goes (CiA 301, 7.2.4.2).
#[derive(Clone, Copy)]
pub enum Protocol {
    /// An upload whose answer decides: expedited or segmented.
    Undecided,
    /// Up to four bytes in the initiate request or its response.
    Expedited,
    /// In segments, each confirmed.
    Segmented,
    /// In sub-blocks of up to 127 segments, each sub-block acknowledged.
    Block,
}

/// What a frame is.
#[derive(Clone, Copy)]
pub enum What {
    /// An initiate request: a transfer begins.
    Initiate,
    /// The next frame of the open transfer.
    Part,
    /// The next segment of a sub-block, by its number.
    Segment { number: u8 },
    /// A segment of a sub-block that isn't the next: its number, and the one after the newest
    /// segment's.
    OutOfSequence { number: u8, awaited: u8 },
    /// The last segment of a transfer, by its number, where it came before.
    LastAgain { number: u8 },
    /// By its toggle bit it came before.
    Repeated,
    /// A response that the open transfer's request doesn't ask for, or of another entry: it answers
    /// an earlier request.
    Overtaken,
    /// The open transfer's protocol has no such frame here.
    Unexpected,
    /// No transfer is open.
    Stray,
    /// No initiate request came before it: it is of a transfer that began before the recording.
    BegunBefore,
}
