//! How a client handles an answer.

ghost use Rattle.std.specs.Prelude.{◌≡◌, ◌+◌, ◌-◌, ◌<◌, ◌≤◌, ◌++◌, None, Some, length};
ghost use Rattle.arrayvec.specs.ArrayVec.{array_vec_len};
ghost use Rattle.co_frame.specs.SegmentSizes.{segments_per_sub_block};
ghost use Rattle.co_frame.specs.Outboxes.{HasRoomFor};
ghost use Rattle.co_sdo_client.specs.Calls.{frames_on};
ghost use Rattle.co_sdo_client.specs.Steps.{messages_to, after_response, messages_to_frame, after_frame};

use crate::client::Client;
use crate::stage::Stage;
use crate::state::ClientState;
use co_frame::{AbortCode, Frame, Outbox, SdoResponse};

impl<'a> Client<'a> {
    // Takes an answer outside a sub-block.
    fn take_response(&mut self, response: &SdoResponse, outbox: &mut Outbox)
        requires room { HasRoomFor segments_per_sub_block outbox.old }
        ensures few { array_vec_len outbox.new ≤ array_vec_len outbox.old + segments_per_sub_block }
        ensures messages { outbox.new.items ≡ outbox.old.items ++ frames_on self.old.request
            (messages_to self.old (Some response.now)) }
        ensures client { self.new ≡ after_response self.old (Some response.now) }
    {
        match response {
            SdoResponse::DownloadDone { key } => self.confirm_download(*key, outbox),
            SdoResponse::DownloadSegmentDone { toggle } => self.confirm_segment(*toggle, outbox),
            SdoResponse::UploadExpedited { key, data } => self.take_expedited(*key, data, outbox),
            SdoResponse::UploadInitiated { key, size } => self.confirm_upload(*key, *size, outbox),
            SdoResponse::UploadSegment { toggle, data, last } => {
                self.take_segment(*toggle, data, *last, outbox);
            }
            SdoResponse::Abort { key: _, code } => self.state = ClientState::Failed(*code),
            SdoResponse::BlockDownloadInitiated { key, block_size } => {
                self.confirm_block_download(*key, *block_size, outbox);
            }
            SdoResponse::BlockDownloadDone => self.finish_block_download(outbox),
            SdoResponse::BlockDownloadAcknowledge {
                sequence,
                block_size,
            } => self.take_acknowledge(*sequence, *block_size, outbox),
            SdoResponse::BlockUploadInitiated { key, size } => {
                self.confirm_block_upload(*key, *size, outbox);
            }
            SdoResponse::BlockUploadEnd { unused } => self.end_block_upload(*unused, outbox),
        }
    }

    // A frame of eight bytes on the answer identifier, while the client waits.
    pub(crate) fn take_answer(&mut self, frame: &Frame, outbox: &mut Outbox)
        requires room { HasRoomFor segments_per_sub_block outbox.old }
        requires eight { length frame.now.bytes ≡ 8 }
        ensures few { array_vec_len outbox.new ≤ array_vec_len outbox.old + segments_per_sub_block }
        ensures messages { outbox.new.items ≡ outbox.old.items ++ frames_on self.old.request
            (messages_to_frame self.old frame.now.bytes) }
        ensures client { self.new ≡ after_frame (record self.old { left = self.old.call.time })
            frame.now.bytes }
    {
        self.left = self.time;
        if let Stage::SubBlock { indicated, taken } = self.stage {
            self.take_block_segment(indicated, taken, frame, outbox);
            return;
        }
        match SdoResponse::read(frame) {
            Some(response) => self.take_response(&response, outbox),
            None => self.give_up(AbortCode::UNKNOWN_COMMAND, outbox),
        }
    }
}
