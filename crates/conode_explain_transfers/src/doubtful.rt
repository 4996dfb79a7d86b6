//! Initiate requests that were taken for segments of a sub-block.

ghost use Rattle.std.specs.Prelude.{◌≡◌, ◌-◌, ℕ, List, false, None, Some};
ghost use Rattle.co_frame.specs.SdoResponses.{response_in};
ghost use Rattle.conode_explain_transfers.specs.Doubtful.{
  answers,
  asks_for,
  begun_by,
  freed,
  if_answered,
  is_answer,
  is_odd,
  left_behind,
  left_for,
  names_other,
  odd_bytes,
  shown_by,
  with_newest,
};
ghost use Rattle.conode_explain_transfers.specs.Readings.{plain_reading};

use crate::channel::Channel;
use crate::ended::{Ended, Ending};
use crate::kinds::{Side, What};
use crate::reading::{Reading, plain_reading};
use crate::transfer::Transfer;
use crate::unanswered::multiplexer_of;
use co_frame::{Frame, SdoResponse};
use co_value::Key;

// Whether a frame of the client is a segment that isn't the next one, or comes after the last.
fn is_odd(what: What) -> bool
    ensures { result ≡ is_odd what }
{
    match what {
        What::OutOfSequence {
            number: _,
            awaited: _,
        }
        | What::Unexpected => true,
        _ => false,
    }
}

// A frame of the client, if it is such a one; else one without bytes.
fn odd_frame(what: What, frame: &Frame) -> Frame
    ensures { result ≡ record { id = 0; bytes = odd_bytes what frame.now.bytes } }
{
    if is_odd(what) {
        Frame::new(0, frame.bytes()).unwrap()
    } else {
        Frame::default()
    }
}

/// Whether an abort names another entry; 0000:00 is none.
pub(crate) fn names_other(named: Key, key: Key) -> bool
    ensures { result ≡ names_other named key }
{
    let none = Key { index: 0, sub: 0 };
    !named.comparisons(key).0 && !named.comparisons(none).0
}

impl Transfer {
    /// Keeps the client's newest frame, if it may be a request.
    pub(crate) fn note_newest(&mut self, side: Side, what: What, micros: u64, frame: &Frame)
        ensures { self.new ≡ with_newest side what micros frame.now.bytes self.old }
    {
        match side {
            Side::Client => {
                self.doubtful = odd_frame(what, frame);
                self.doubtful_at = micros;
            }
            Side::Server => {}
        }
    }

    // The transfer that this frame begins, read as an initiate request.
    fn begun_by(&self) -> Option<Transfer>
        ensures { result
            ≡ begun_by (plain_reading Side.Client self.now.doubtful.bytes) self.now }
    {
        match plain_reading(Side::Client, &self.doubtful) {
            Reading::Begin(initiate) => {
                Some(Transfer::begin(&initiate, self.doubtful_at, &self.doubtful))
            }
            _ => None,
        }
    }

    /// Whether its request asks for a response to initiate.
    pub(crate) fn asks_for(&self, response: &SdoResponse) -> bool
        ensures { result ≡ asks_for self.now response.now }
    {
        match response {
            SdoResponse::DownloadDone { key: _ } => self.is_download() && !self.is_block(),
            SdoResponse::BlockDownloadInitiated {
                key: _,
                block_size: _,
            } => self.is_download() && self.is_block(),
            SdoResponse::UploadExpedited { key: _, data: _ }
            | SdoResponse::UploadInitiated { key: _, size: _ } => !self.is_download(),
            SdoResponse::BlockUploadInitiated { key: _, size: _ } => {
                !self.is_download() && self.is_block()
            }
            _ => false,
        }
    }

    // Whether its request has this answer, while a transfer of an entry is open.
    fn has_answer(&self, entry: Key, response: &SdoResponse) -> bool
        ensures { result ≡ answers entry self.now response.now }
    {
        match response {
            SdoResponse::Abort { key: _, code: _ } => names_other(self.key, entry),
            response => self.asks_for(response),
        }
    }

    // Whether a frame of the server is this answer, and names its entry.
    fn is_answered(&self, entry: Key, frame: &Frame) -> bool
        ensures { result ≡ is_answer entry self.now (response_in frame.now.bytes) frame.now.bytes }
    {
        match SdoResponse::read(frame) {
            Some(response) => {
                self.has_key(multiplexer_of(frame.bytes())) && self.has_answer(entry, &response)
            }
            None => false,
        }
    }

    // The transfer of the request that a frame of the server answers.
    fn answered(&self, frame: &Frame) -> Option<Transfer>
        ensures { result ≡ shown_by (Some self.now) Side.Server frame.now.bytes }
    {
        let request = self.begun_by()?;
        if request.is_answered(self.key, frame) {
            Some(request)
        } else {
            None
        }
    }

    // It is left; the request is none of its frames.
    fn left_behind(&self, micros: u64) -> Ended
        ensures { result ≡ left_behind self.now micros }
    {
        let mut ended = self.ended(micros, Ending::Interrupted);
        ended.frames = self.frames.saturating_sub(1);
        ended
    }
}

impl Channel {
    /// Whether a frame of an end may answer a request that was taken for a segment: the newest
    /// frame of the client may be one. `false` for nearly all, and nothing else is asked of those.
    #[tactic(auto, using(crate::proofs::DoubtfulLemmas::shown_none))]
    pub(crate) fn may_show(&self, side: Side) -> bool
        ensures { result ≡ false →
            (bytes : List ℕ) → shown_by self.now.transfer side bytes ≡ None }
    {
        match (&self.transfer, side) {
            (Some(transfer), Side::Server) => !transfer.doubtful.bytes().is_empty(),
            _ => false,
        }
    }

    /// The transfer of a request that was taken for a segment, and that a frame answers.
    pub(crate) fn shown_by(&self, side: Side, frame: &Frame) -> Option<Transfer>
        ensures { result ≡ shown_by self.now.transfer side frame.now.bytes }
    {
        match (&self.transfer, side) {
            (Some(transfer), Side::Server) => transfer.answered(frame),
            _ => None,
        }
    }

    /// The transfer that is left for such a request.
    pub(crate) fn left_for(&self, micros: u64, request: &Option<Transfer>) -> Option<Ended>
        ensures { result ≡ left_for request.now self.now.transfer micros }
    {
        match (request, &self.transfer) {
            (Some(_), Some(transfer)) => Some(transfer.left_behind(micros)),
            _ => None,
        }
    }

    // Goes on with the transfer of such a request, if a frame answers one. Apart from most frames,
    // since a transfer is large.
    #[inline(never)]
    fn free_shown(&mut self, side: Side, frame: &Frame)
        ensures { self.new
            ≡ record self.old { transfer = freed self.old.transfer side frame.now.bytes } }
    {
        if let Some(request) = self.shown_by(side, frame) {
            self.transfer = Some(request);
        }
    }

    /// Goes on with the transfer of such a request.
    pub(crate) fn free(&mut self, side: Side, frame: &Frame)
        ensures { self.new
            ≡ record self.old { transfer = freed self.old.transfer side frame.now.bytes } }
    {
        if self.may_show(side) {
            self.free_shown(side, frame);
        }
    }
}
