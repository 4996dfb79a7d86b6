//! SDO block download (CiA 301, 7.2.4.3.9 to 7.2.4.3.11).

ghost use Rattle.std.specs.Prelude.{◌≡◌, ◌+◌, ◌*◌, ◌<◌, ◌≤◌, ◌++◌, [], Some, length};
ghost use Rattle.arrayvec.specs.ArrayVec.{array_vec_len};
ghost use Rattle.co_frame.specs.SegmentSizes.{segments_per_sub_block, bytes_per_segment};
ghost use Rattle.co_frame.specs.Outboxes.{HasRoomFor};
ghost use Rattle.co_frame.specs.declared.sdo_response.SdoResponse.TheVariants.{
  BlockDownloadInitiated,
  BlockDownloadDone,
  BlockDownloadAcknowledge,
};
ghost use Rattle.co_sdo_client.specs.declared.stage.Stage.TheVariants.{BlockDownload};
ghost use Rattle.co_sdo_client.specs.Calls.{frames_on};
ghost use Rattle.co_sdo_client.specs.Segments.{
  bytes_of,
  segment_count,
  block_segment,
  sub_block_length,
  sub_block_sent,
};
ghost use Rattle.co_sdo_client.specs.Steps.{messages_to, after_response, after_sub_block};

use crate::client::Client;
use crate::stage::Stage;
use crate::state::ClientState;
use crate::transfer::Transfer;
use co_frame::{AbortCode, Outbox, SEGMENTS_PER_SUB_BLOCK, SdoRequest};
use co_sdo_segments::{segment_count, send_sub_block, unused_after};
use co_value::Key;

// Sends the sub-block that begins after the first `position` segments, and returns the number of
// its segments.
fn send_segments(id: u16, bytes: &[u8], position: usize, block_size: u8, outbox: &mut Outbox) -> u8
    requires id { id < 2048 }
    requires room { HasRoomFor segments_per_sub_block outbox.old }
    requires len { length bytes.now ≤ 65535 }
    requires few { block_size ≤ segments_per_sub_block }
    requires position { position ≤ segment_count bytes.now }
    ensures few { array_vec_len outbox.new ≤ array_vec_len outbox.old + segments_per_sub_block }
    ensures messages { outbox.new.items ≡ outbox.old.items ++ frames_on id (sub_block_sent
        bytes.now position block_size) }
    ensures count { result ≡ sub_block_length bytes.now position block_size }
    ensures frames { length (sub_block_sent bytes.now position block_size) ≡ result }
    ensures most { result ≤ segments_per_sub_block }
    ensures within { position + result ≤ segment_count bytes.now }
{
    send_sub_block(id, bytes, position, block_size, outbox)
}

impl<'a> Client<'a> {
    // Sends the sub-block that begins after the first `position` segments.
    fn send_sub_block(&mut self, position: usize, block_size: u8, outbox: &mut Outbox)
        requires room { HasRoomFor segments_per_sub_block outbox.old }
        requires size { block_size ≤ segments_per_sub_block }
        requires position { position ≤ segment_count (bytes_of self.old.call.job) }
        requires held { self.old.held ≡ [] }
        ensures few { array_vec_len outbox.new ≤ array_vec_len outbox.old + segments_per_sub_block }
        ensures messages { outbox.new.items ≡ outbox.old.items ++ frames_on self.old.request
            (sub_block_sent (bytes_of self.old.call.job) position block_size) }
        ensures client { self.new ≡ after_sub_block self.old position block_size }
    {
        let sent = send_segments(self.ids.request, self.bytes, position, block_size, outbox);
        self.sent = self.sent.saturating_add(u64::from(sent));
        self.stage = Stage::BlockDownload {
            acknowledged: position as u16,
            sent,
        };
    }

    // The confirmation of initiate SDO block download, scs = 5, ss = 0.
    pub(crate) fn confirm_block_download(&mut self, key: Key, block_size: u8, outbox: &mut Outbox)
        requires room { HasRoomFor segments_per_sub_block outbox.old }
        ensures few { array_vec_len outbox.new ≤ array_vec_len outbox.old + segments_per_sub_block }
        ensures messages { outbox.new.items ≡ outbox.old.items ++ frames_on self.old.request
            (messages_to self.old (Some (BlockDownloadInitiated key block_size))) }
        ensures client { self.new ≡ after_response self.old (Some (BlockDownloadInitiated key
            block_size)) }
    {
        let Stage::Begun = self.stage else {
            self.give_up(AbortCode::UNKNOWN_COMMAND, outbox);
            return;
        };
        let Transfer::BlockDownload = self.transfer() else {
            self.give_up(AbortCode::UNKNOWN_COMMAND, outbox);
            return;
        };
        if !self.has_key(key) {
            self.give_up(AbortCode::UNKNOWN_COMMAND, outbox);
            return;
        }
        if block_size < 1 || SEGMENTS_PER_SUB_BLOCK < block_size {
            self.give_up(AbortCode::INVALID_BLOCK_SIZE, outbox);
            return;
        }
        self.send_sub_block(0, block_size, outbox);
    }

    // An acknowledgement of a sub-block: SDO block download, scs = 5, ss = 2.
    pub(crate) fn take_acknowledge(&mut self, sequence: u8, block_size: u8, outbox: &mut Outbox)
        requires room { HasRoomFor segments_per_sub_block outbox.old }
        ensures few { array_vec_len outbox.new ≤ array_vec_len outbox.old + segments_per_sub_block }
        ensures messages { outbox.new.items ≡ outbox.old.items ++ frames_on self.old.request
            (messages_to self.old (Some (BlockDownloadAcknowledge sequence block_size))) }
        ensures client { self.new ≡ after_response self.old (Some (BlockDownloadAcknowledge
            sequence block_size)) }
    {
        let Stage::BlockDownload { acknowledged, sent } = self.stage else {
            self.give_up(AbortCode::UNKNOWN_COMMAND, outbox);
            return;
        };
        if sent < sequence {
            self.give_up(AbortCode::INVALID_SEQUENCE_NUMBER, outbox);
            return;
        }
        let position = usize::from(acknowledged) + usize::from(sequence);
        if position == segment_count(self.bytes) {
            let unused = unused_after(self.bytes);
            self.stage = Stage::BlockDownloadEnded;
            self.send(SdoRequest::BlockDownloadEnd { unused }, outbox);
            return;
        }
        if block_size < 1 || SEGMENTS_PER_SUB_BLOCK < block_size {
            self.give_up(AbortCode::INVALID_BLOCK_SIZE, outbox);
            return;
        }
        self.send_sub_block(position, block_size, outbox);
    }

    // The confirmation of a block download's end: end SDO block download, scs = 5, ss = 1.
    pub(crate) fn finish_block_download(&mut self, outbox: &mut Outbox)
        requires room { HasRoomFor segments_per_sub_block outbox.old }
        ensures few { array_vec_len outbox.new ≤ array_vec_len outbox.old + segments_per_sub_block }
        ensures messages { outbox.new.items ≡ outbox.old.items ++ frames_on self.old.request
            (messages_to self.old (Some BlockDownloadDone)) }
        ensures client { self.new ≡ after_response self.old (Some BlockDownloadDone) }
    {
        let Stage::BlockDownloadEnded = self.stage else {
            self.give_up(AbortCode::UNKNOWN_COMMAND, outbox);
            return;
        };
        self.state = ClientState::Done;
    }
}
