//! What a frame reveals of those before it.

ghost use Rattle.std.specs.Prelude.{◌≡◌, None};
ghost use Rattle.conode_explain_transfers.specs.Reveals.{
  accepted,
  is_expected,
  is_expected_by,
  revealed,
  unclear_by,
  unexpected,
};
ghost use Rattle.co_frame.specs.SdoResponses.{response_in};

use crate::channel::Channel;
use crate::ended::Ended;
use crate::kinds::Side;
use crate::transfer::Transfer;
use co_frame::{Frame, SdoResponse};
use co_value::Key;

/// What a frame of a channel reveals of those before it.
#[derive(Drop)]
pub struct Revealed {
    /// The block download that the client has left: the frame answers a request that was taken for
    /// one of its segments. The transfer of that is heard from here on.
    pub left: Option<Ended>,
    /// The entry of a download that the server has accepted, where the request isn't known, as
    /// within a sub-block of another one: nothing is known of the entry's value.
    pub unclear: Option<Key>,
}

// The entry of a download that a frame of the server accepts.
fn accepted(frame: &Frame) -> Option<Key>
    ensures { result ≡ accepted (response_in frame.now.bytes) }
{
    match SdoResponse::read(frame) {
        Some(SdoResponse::DownloadDone { key }) => Some(key),
        Some(SdoResponse::BlockDownloadInitiated { key, block_size: _ }) => Some(key),
        _ => None,
    }
}

impl Transfer {
    // Whether it is a download of this entry, or may have a segment that looks like an acceptance.
    fn is_expected(&self, key: Key) -> bool
        ensures { result ≡ is_expected_by key self.now }
    {
        self.is_block_upload() || (self.is_download() && self.has_key(key))
    }
}

impl Channel {
    // Whether the server may accept a download of this entry here.
    fn is_expected(&self, key: Key) -> bool
        ensures { result ≡ is_expected self.now key }
    {
        match &self.transfer {
            Some(transfer) => transfer.is_expected(key),
            None => self.heard,
        }
    }

    // The entry of a download that is accepted, if that isn't expected.
    fn unexpected(&self, accepted: Option<Key>) -> Option<Key>
        ensures { result ≡ unexpected self.now accepted }
    {
        match accepted {
            Some(key) if !self.is_expected(key) => Some(key),
            _ => None,
        }
    }

    // Where no request is shown.
    fn unclear(&self, side: Side, frame: &Frame) -> Option<Key>
        ensures { result ≡ unclear_by None self.now side frame.now.bytes }
    {
        match side {
            Side::Client => None,
            Side::Server => {
                let accepted = accepted(frame);
                if self.is_over(side, frame) {
                    accepted
                } else {
                    self.unexpected(accepted)
                }
            }
        }
    }

    fn unclear_by(&self, request: &Option<Transfer>, side: Side, frame: &Frame) -> Option<Key>
        ensures { result ≡ unclear_by request.now self.now side frame.now.bytes }
    {
        match request {
            None => self.unclear(side, frame),
            Some(_) => None,
        }
    }

    // Apart from most frames, since a transfer is large.
    #[inline(never)]
    fn reveals_shown(&self, micros: u64, side: Side, frame: &Frame) -> Revealed
        ensures { result ≡ revealed self.now micros side frame.now.bytes }
    {
        let request = self.shown_by(side, frame);
        Revealed {
            left: self.left_for(micros, &request),
            unclear: self.unclear_by(&request, side, frame),
        }
    }

    /// What a frame reveals before the channel hears it, with its stamp in microseconds and the end
    /// that sent it.
    pub fn reveals(&self, micros: u64, side: Side, frame: &Frame) -> Revealed
        ensures { result ≡ revealed self.now micros side frame.now.bytes }
    {
        if self.may_show(side) {
            return self.reveals_shown(micros, side, frame);
        }
        Revealed {
            left: None,
            unclear: self.unclear(side, frame),
        }
    }
}
