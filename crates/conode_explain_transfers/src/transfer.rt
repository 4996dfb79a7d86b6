//! An open transfer.

ghost use Rattle.std.specs.Prelude.{◌≡◌, ◌+◌, ◌/◌, ◌≤◌, ◌++◌, length, take, Some};
ghost use Rattle.std.specs.Str.{bytes_eq};
ghost use Rattle.co_value.specs.Keys.{same_key};
ghost use Rattle.conode_explain_transfers.specs.Transfers.{
  begun,
  irregular,
  taken_from,
  is_download,
  is_same_request,
  awaited_number,
};
ghost use Rattle.conode_explain_transfers.specs.declared.kinds.What.TheVariants.{Unexpected, Repeated};

use crate::digest::Digest;
use crate::initiate::Initiate;
use crate::kinds::{Direction, Protocol, Side, What};
use crate::stage::Stage;
use arrayvec::ArrayVec;
use co_frame::{BYTES_PER_SEGMENT, Frame};
use co_value::Key;

/// A transfer that has begun.
#[derive(Drop)]
pub(crate) struct Transfer {
    pub(crate) key: Key,
    pub(crate) direction: Direction,
    pub(crate) protocol: Protocol,
    /// How many bytes were indicated.
    pub(crate) size: Option<u32>,
    /// Whether both ends support the CRC; before the response, whether the client does.
    pub(crate) crc: bool,
    /// How many segments a sub-block may have.
    pub(crate) block_size: u8,
    /// The number after that of the sub-block's newest segment, also where segments before it are
    /// missing; at first 1.
    pub(crate) next_number: u8,
    pub(crate) stage: Stage,
    /// Whether a frame came out of sequence: frames are missing in the recording, or are in it
    /// twice.
    pub(crate) irregular: bool,
    /// The data that was sent and that its receiver hasn't confirmed.
    pub(crate) pending: ArrayVec<u8, 896>,
    /// The data that its receiver has.
    pub(crate) taken: Digest,
    /// The initiate request.
    pub(crate) request: ArrayVec<u8, 8>,
    /// Its number of frames, up to 2^64 - 1.
    pub(crate) frames: u64,
    /// The stamps of its first and its newest frame, in microseconds, and who sent the newest.
    pub(crate) begun: u64,
    pub(crate) newest: u64,
    pub(crate) by: Side,
    /// Whether the client went on before the response to initiate, with a frame that begins nothing;
    /// or the request may be a segment of a sub-block.
    pub(crate) went_on: bool,
    /// Whether the server sent something since the request that is of another transfer, and was put
    /// aside.
    pub(crate) put_aside: bool,
    /// The client's newest frame, if it is a segment that isn't the next one, or comes after the
    /// last: it may be an initiate request. Else one without bytes.
    pub(crate) doubtful: Frame,
    /// The stamp of the client's newest frame, once one came after the request.
    pub(crate) doubtful_at: u64,
}

impl Transfer {
    /// The transfer that a request begins.
    pub(crate) fn begin(initiate: &Initiate, micros: u64, frame: &Frame) -> Transfer
        ensures { result ≡ begun initiate.now micros frame.now.bytes }
    {
        let mut request = ArrayVec::new();
        request.try_extend_from_slice(frame.bytes()).unwrap();
        let mut pending = ArrayVec::new();
        pending
            .try_extend_from_slice(initiate.bytes.as_slice())
            .unwrap();
        Transfer {
            key: initiate.key,
            direction: initiate.direction,
            protocol: initiate.protocol,
            size: initiate.size,
            crc: initiate.crc,
            block_size: initiate.block_size,
            next_number: 1,
            stage: Stage::Initiated,
            irregular: false,
            pending,
            taken: Digest::new(),
            request,
            frames: 1,
            begun: micros,
            newest: micros,
            by: Side::Client,
            went_on: false,
            put_aside: false,
            doubtful: Frame::default(),
            doubtful_at: 0,
        }
    }

    /// Whether its entry is this one.
    pub(crate) fn has_key(&self, key: Key) -> bool
        ensures { result ≡ same_key key self.now.key }
    {
        key.comparisons(self.key).0
    }

    /// Whether it is a download.
    pub(crate) fn is_download(&self) -> bool
        ensures { result ≡ is_download self.now.direction }
    {
        match self.direction {
            Direction::Download => true,
            Direction::Upload => false,
        }
    }

    /// Whether the frame is its initiate request again, before any response.
    pub(crate) fn is_same_request(&self, frame: &Frame) -> bool
        ensures { result ≡ is_same_request self.now frame.now.bytes }
    {
        self.stage.is_initiated() && self.request.as_slice() == frame.bytes()
    }

    /// The number of the sub-block's next segment, if none is missing.
    pub(crate) fn awaited_number(&self) -> u8
        ensures number { result ≡ awaited_number self.now }
        ensures few { result ≤ 129 }
    {
        (self.pending.len() / BYTES_PER_SEGMENT + 1) as u8
    }

    /// A frame that the protocol doesn't have here.
    pub(crate) fn unexpected(&mut self) -> What
        ensures transfer { self.new ≡ irregular self.old }
        ensures what { result ≡ Unexpected }
    {
        self.irregular = true;
        What::Unexpected
    }

    /// A frame that came before.
    pub(crate) fn repeated(&mut self) -> What
        ensures transfer { self.new ≡ irregular self.old }
        ensures what { result ≡ Repeated }
    {
        self.irregular = true;
        What::Repeated
    }

    /// The receiver has the first of the bytes that were sent; the others are sent again.
    pub(crate) fn take_pending(&mut self, count: usize)
        ensures { self.new ≡ taken_from self.old count }
    {
        let bytes = self.pending.as_slice();
        if count < bytes.len() {
            self.taken.add(&bytes[..count]);
        } else {
            self.taken.add(bytes);
        }
        self.pending.clear();
    }
}
