//! How transfers end.

ghost use Rattle.std.specs.Prelude.{◌≡◌, take};
ghost use Rattle.conode_explain_transfers.specs.Endings.{
  bytes_come,
  ended,
  excess,
  fault_of,
  fault_with,
  is_followed,
  size_fault,
  upload_fault,
  verdict,
};
ghost use Rattle.conode_explain_transfers.specs.Tracks.{shown_end};

use crate::kinds::{Direction, Protocol, Side};
use crate::stage::Stage;
use crate::transfer::Transfer;
use arrayvec::ArrayVec;
use co_frame::{AbortCode, BYTES_PER_SEGMENT};
use co_value::Key;

/// How a transfer ended.
#[derive(Clone, Copy)]
pub enum Ending {
    /// It was confirmed. No frame is missing, and the number of bytes is the indicated one, if
    /// there is one; `crc`: both ends support the CRC, and it is right.
    Done { crc: bool },
    /// An end aborted it.
    Aborted { by: Side, code: AbortCode },
    /// The client began another transfer while it awaited an answer.
    Unanswered,
    /// The client sent the same initiate request again while it awaited the response.
    Repeated,
    /// The client began another transfer, though it was its turn in this one; or the server booted
    /// up.
    Interrupted,
    /// The recording ended.
    Unfinished,
    /// It was confirmed, but frames are missing in the recording, or are in it twice.
    Irregular,
    /// It was confirmed, but the number of bytes isn't the indicated one.
    SizeDiffers { indicated: u32 },
    /// It was confirmed, but the CRC that came isn't that of the bytes.
    CrcDiffers { came: u16, computed: u16 },
    /// It can't be followed: the client went on before the response to initiate. That isn't in the
    /// recording; or what looked like the request was a segment of a sub-block whose begin isn't.
    /// `next`: the frame that ended it looks like another request, and is the next segment, with this
    /// number; or it looks like an abort, and is the last segment of a sub-block.
    NotFollowed { next: Option<u8> },
}

/// What was wrong with the data of an upload that the client aborted.
#[derive(Clone, Copy)]
pub enum Fault {
    /// Another number of bytes than was indicated: the server ended the block upload with so many;
    /// or before its end so many have come, which are more.
    Size { indicated: u32, bytes: u64 },
    /// Both ends support the CRC, and that with which the server ended the block upload isn't that
    /// of the bytes.
    Crc { came: u16, computed: u16 },
}

/// A transfer that ended.
#[derive(Drop)]
pub struct Ended {
    /// The multiplexor: index and sub-index of the entry.
    pub key: Key,
    /// Which way the data went.
    pub direction: Direction,
    /// By which protocol it went.
    pub protocol: Protocol,
    /// How many bytes of data the receiver has.
    pub bytes: u64,
    /// The first 64 of them; of an expedited transfer without a size all four.
    pub first: ArrayVec<u8, 64>,
    /// Its number of frames, with the one that ended it if that is one of them.
    pub frames: u64,
    /// The stamp of its initiate request, in microseconds.
    pub begun: u64,
    /// The stamp of its newest frame before the end.
    pub newest: u64,
    /// The stamp of the end.
    pub end: u64,
    /// How it ended.
    pub ending: Ending,
    /// Of an upload that the client aborted, what was wrong with its data, unless a frame came out
    /// of sequence.
    pub fault: Option<Fault>,
}

impl Ending {
    /// Whether the transfer can be followed.
    fn is_followed(self) -> bool
        ensures { result ≡ is_followed self }
    {
        match self {
            Ending::NotFollowed { next: _ } => false,
            _ => true,
        }
    }
}

/// The transfer that ended; nothing is said of one that can't be followed.
pub(crate) fn shown_end(ended: Option<Ended>) -> Option<Ended>
    ensures { result ≡ shown_end ended }
{
    let Some(ended) = ended else {
        return None;
    };
    if ended.ending.is_followed() {
        Some(ended)
    } else {
        None
    }
}

// the indicated size, if the number of bytes isn't that
fn size_fault(size: Option<u32>, count: u64) -> Option<u32>
    ensures { result ≡ size_fault size count }
{
    match size {
        Some(size) if u64::from(size) != count => Some(size),
        _ => None,
    }
}

// what is wrong with the data of so many bytes, if the transfer were to end so
fn fault_of(ending: Ending, bytes: u64) -> Option<Fault>
    ensures { result ≡ fault_of ending bytes }
{
    match ending {
        Ending::SizeDiffers { indicated } => Some(Fault::Size { indicated, bytes }),
        Ending::CrcDiffers { came, computed } => Some(Fault::Crc { came, computed }),
        _ => None,
    }
}

// more bytes have come than were indicated
fn excess(size: Option<u32>, bytes: u64) -> Option<Fault>
    ensures { result ≡ excess size bytes }
{
    match size {
        Some(indicated) if u64::from(indicated) < bytes => Some(Fault::Size { indicated, bytes }),
        _ => None,
    }
}

impl Transfer {
    /// How a confirmed transfer ends; `crc` is the one to compare, if there is one.
    pub(crate) fn verdict(&self, crc: Option<u16>) -> Ending
        ensures { result ≡ verdict self.now crc }
    {
        if self.irregular {
            return Ending::Irregular;
        }
        if let Some(indicated) = size_fault(self.size, self.taken.count) {
            return Ending::SizeDiffers { indicated };
        }
        match crc {
            Some(came) if came != self.taken.crc => Ending::CrcDiffers {
                came,
                computed: self.taken.crc,
            },
            Some(_) => Ending::Done { crc: true },
            None => Ending::Done { crc: false },
        }
    }

    /// The transfer, ended at a stamp.
    pub(crate) fn ended(&self, end: u64, ending: Ending) -> Ended
        ensures { result ≡ ended self.now end ending }
    {
        let mut first = ArrayVec::new();
        first
            .try_extend_from_slice(self.taken.first.as_slice())
            .unwrap();
        Ended {
            key: self.key,
            direction: self.direction,
            protocol: self.protocol,
            bytes: self.taken.count,
            first,
            frames: self.frames,
            begun: self.begun,
            newest: self.newest,
            end,
            ending,
            fault: None,
        }
    }

    // How many bytes of data have come, at least: of the last segment of a block upload maybe none,
    // as only the end says how many it has.
    fn bytes_come(&self) -> u64
        ensures { result ≡ bytes_come self.now }
    {
        let pending = self.pending.len();
        let data = match self.stage {
            Stage::SubBlock { last: true } | Stage::AllAcknowledged => {
                pending.saturating_sub(BYTES_PER_SEGMENT)
            }
            _ => pending,
        };
        self.taken.count.saturating_add(data as u64)
    }

    // What is wrong with the data of an upload that the client aborts: of one that the server ended
    // what the client would confirm; before that too many bytes.
    fn upload_fault(&self) -> Option<Fault>
        ensures { result ≡ upload_fault self.now }
    {
        if self.is_download() {
            return None;
        }
        match self.stage {
            Stage::Initiated => None,
            Stage::BlockEnded { crc } => {
                let compared = if self.crc { Some(crc) } else { None };
                fault_of(self.verdict(compared), self.taken.count)
            }
            _ if self.irregular => None,
            _ => excess(self.size, self.bytes_come()),
        }
    }

    /// What was wrong with the data of a transfer that ends so.
    pub(crate) fn fault_with(&self, ending: Ending) -> Option<Fault>
        ensures { result ≡ fault_with ending self.now }
    {
        match ending {
            Ending::Aborted {
                by: Side::Client,
                code: _,
            } => self.upload_fault(),
            _ => None,
        }
    }
}
