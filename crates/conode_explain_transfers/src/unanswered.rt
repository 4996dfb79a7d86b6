//! A client that goes on before an answer.

ghost use Rattle.std.specs.Prelude.{◌≡◌, slice_index};
ghost use Rattle.conode_explain_transfers.specs.Unanswered.{
  is_client,
  is_lost,
  is_unanswered,
  may_be_of_other,
  may_be_segment,
  may_send_segment,
  multiplexer_of,
  not_followed_by,
  number_of,
  refuses_with,
  segment_follows,
  went_on_with,
};

use crate::kinds::Side;
use crate::stage::Stage;
use crate::transfer::Transfer;
use co_frame::Frame;
use co_value::Key;

/// The first byte of an abort (CiA 301, 7.2.4.3.17).
pub(crate) const ABORT: u8 = 0x80;

/// A byte of a frame; 0 where it has none there.
pub(crate) fn byte_at(bytes: &[u8], place: usize) -> u8
    ensures { result ≡ slice_index bytes.now place }
{
    match bytes.get(place) {
        Some(byte) => *byte,
        None => 0,
    }
}

/// Whether it is the client.
pub(crate) fn is_client(side: Side) -> bool
    ensures { result ≡ is_client side }
{
    match side {
        Side::Client => true,
        Side::Server => false,
    }
}

/// The number of a segment.
pub(crate) fn number_of(frame: &Frame) -> u8
    ensures { result ≡ number_of frame.now.bytes }
{
    byte_at(frame.bytes(), 0) % 128
}

/// The multiplexer of an abort.
pub(crate) fn multiplexer_of(bytes: &[u8]) -> Key
    ensures { result ≡ multiplexer_of bytes.now }
{
    Key {
        index: byte_at(bytes, 1) as u16 + byte_at(bytes, 2) as u16 * 256,
        sub: byte_at(bytes, 3),
    }
}

/// Whether the client went on, after a frame of an end that begins nothing and that isn't the
/// response to initiate; `before`: whether it had.
pub(crate) fn went_on_with(side: Side, stage: Stage, before: bool) -> bool
    ensures { result ≡ went_on_with side stage before }
{
    match side {
        Side::Client => before || stage.is_initiated(),
        Side::Server => before,
    }
}

impl Transfer {
    // Whether the response to initiate is awaited, the newest frame is the client's, and none of the
    // server was put aside.
    fn is_unanswered(&self) -> bool
        ensures { result ≡ is_unanswered self.now }
    {
        self.stage.is_initiated() && (is_client(self.by) && !self.put_aside)
    }

    /// Whether it can't be followed: the client went on before the response to initiate, and that
    /// didn't come since.
    pub(crate) fn is_lost(&self) -> bool
        ensures { result ≡ is_lost self.now }
    {
        self.stage.is_initiated() && self.went_on
    }

    /// Whether the client goes on with the segment after what looked like its initiate request:
    /// `frame` looks like another one.
    pub(crate) fn segment_follows(&self, frame: &Frame) -> bool
        ensures { result ≡ segment_follows self.now frame.now.bytes }
    {
        let number = byte_at(self.request.as_slice(), 0) as u16;
        self.is_unanswered() && number + 1 == number_of(frame) as u16
    }

    // Whether a segment of a sub-block may come of this end, whose begin, response or start isn't in the
    // recording.
    fn may_send_segment(&self, side: Side) -> bool
        ensures { result ≡ may_send_segment side self.now }
    {
        match side {
            Side::Client => self.stage.is_initiated(),
            Side::Server => (self.is_block() && !self.is_download()) && self.stage.awaits_start(),
        }
    }

    /// Whether a server refuses the upload: it names the entry.
    pub(crate) fn refuses_with(&self, side: Side, frame: &Frame) -> bool
        ensures { result ≡ refuses_with side self.now frame.now.bytes }
    {
        match side {
            Side::Client => false,
            Side::Server => !self.irregular && self.has_key(multiplexer_of(frame.bytes())),
        }
    }

    /// Whether a frame that is read as an abort may be the last segment of a sub-block: the response
    /// to initiate or the start of a block upload is awaited, and it has 81h to 9Fh (an abort has 80h,
    /// CiA 301, 7.2.4.3.17); but for that of a server which names the entry, and so refuses the upload.
    pub(crate) fn may_be_segment(&self, side: Side, frame: &Frame) -> bool
        ensures { result ≡ may_be_segment side self.now frame.now.bytes }
    {
        byte_at(frame.bytes(), 0) != ABORT
            && (self.may_send_segment(side) && !self.refuses_with(side, frame))
    }

    // Whether an abort may be of another transfer: once the client went on, the begin of that may not be
    // in the recording.
    fn may_be_of_other(&self, side: Side, frame: &Frame) -> bool
        ensures { result ≡ may_be_of_other side self.now frame.now.bytes }
    {
        match side {
            Side::Client => self.is_lost() && !self.has_key(multiplexer_of(frame.bytes())),
            Side::Server => false,
        }
    }

    /// Whether a frame that is read as an abort ends the transfer as one that can't be followed: with
    /// the number of the segment that the frame may be. `None`: it is the abort of this transfer.
    pub(crate) fn not_followed_by(&self, side: Side, frame: &Frame) -> Option<Option<u8>>
        ensures { result ≡ not_followed_by side self.now frame.now.bytes }
    {
        if self.may_be_segment(side, frame) {
            return Some(Some(number_of(frame)));
        }
        if self.may_be_of_other(side, frame) {
            Some(None)
        } else {
            None
        }
    }
}
