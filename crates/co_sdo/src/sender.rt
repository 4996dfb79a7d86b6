//! How a channel sends its answers.

ghost use Rattle.std.specs.Prelude.{◌≡◌, ◌+◌, ◌^◌, ◌≤◌, ◌<◌, ◌++◌, [], ◌∷◌, length};
ghost use Rattle.arrayvec.specs.ArrayVec.{array_vec_len};
ghost use Rattle.co_frame.specs.SegmentSizes.{segments_per_sub_block};
ghost use Rattle.co_frame.specs.Outboxes.{HasRoomFor};
ghost use Rattle.co_frame.specs.SdoResponses.{IsSdoResponse};
ghost use Rattle.co_sdo.specs.Log.{Response, frames_on};
ghost use Rattle.co_sdo.specs.Replies.{aborted};
ghost use Rattle.co_sdo.specs.Uploads.{segment_count, sub_block_length, sub_block_sent};

use co_frame::{AbortCode, Outbox, SdoResponse};
use co_sdo_segments::send_sub_block;
use co_value::Key;

/// Sends the answers of a channel.
#[derive(Clone, Copy)]
pub(crate) struct Sender {
    /// The identifier of the answers.
    pub(crate) answer: u16,
}

impl Sender {
    // Sends a response.
    #[inline(always)]
    pub(crate) fn send(self, response: SdoResponse, outbox: &mut Outbox)
        requires id { self.answer < 2048 }
        requires room { HasRoomFor 1 outbox.old }
        requires spellable { IsSdoResponse response }
        ensures few { array_vec_len outbox.new ≤ array_vec_len outbox.old + segments_per_sub_block }
        ensures one { array_vec_len outbox.new ≡ array_vec_len outbox.old + 1 }
        ensures answers { outbox.new.items ≡ outbox.old.items ++ frames_on self.answer (Response
            response ∷ []) }
    {
        outbox.push(response.write(self.answer));
    }

    // Refuses a request with an abort of this key.
    #[cold]
    #[inline(never)]
    pub(crate) fn refuse(self, key: Key, code: AbortCode, outbox: &mut Outbox)
        requires id { self.answer < 2048 }
        requires room { HasRoomFor 1 outbox.old }
        ensures few { array_vec_len outbox.new ≤ array_vec_len outbox.old + segments_per_sub_block }
        ensures one { array_vec_len outbox.new ≡ array_vec_len outbox.old + 1 }
        ensures answers { outbox.new.items ≡ outbox.old.items ++ frames_on self.answer (aborted
            key code.0) }
    {
        self.send(SdoResponse::Abort { key, code }, outbox);
    }

    // Sends the sub-block of a value that begins after the first `position` segments, and returns
    // the number of its segments.
    pub(crate) fn send_sub_block(
        self,
        value: &[u8],
        position: usize,
        block_size: u8,
        outbox: &mut Outbox,
    ) -> u8
        requires id { self.answer < 2048 }
        requires room { HasRoomFor segments_per_sub_block outbox.old }
        requires len { length value.now < 2 ^ 40 }
        requires few { block_size ≤ segments_per_sub_block }
        requires position { position ≤ segment_count value.now }
        ensures few { array_vec_len outbox.new ≤ array_vec_len outbox.old + segments_per_sub_block }
        ensures answers { outbox.new.items ≡ outbox.old.items ++ frames_on self.answer
            (sub_block_sent value.now position block_size) }
        ensures count { result ≡ sub_block_length value.now position block_size }
        ensures most { result ≤ segments_per_sub_block }
        ensures within { position + result ≤ segment_count value.now }
    {
        send_sub_block(self.answer, value, position, block_size, outbox)
    }
}
