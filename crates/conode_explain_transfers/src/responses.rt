//! What a server's response makes of the open transfer.

ghost use Rattle.std.specs.Prelude.{◌≡◌};
ghost use Rattle.conode_explain_transfers.specs.Transfers.{after};
ghost use Rattle.conode_explain_transfers.specs.Turns.{response_turn};

use crate::block::crc_in;
use crate::initiate::has_crc;
use crate::kinds::What;
use crate::transfer::Transfer;
use co_frame::{Frame, SdoResponse};

impl Transfer {
    /// A response that isn't an abort; `frame` has its bytes.
    pub(crate) fn take_response(&mut self, response: &SdoResponse, frame: &Frame) -> What
        ensures transfer { self.new ≡ after self.old (response_turn self.old response.now frame.now.bytes) }
        ensures what { result ≡ (response_turn self.old response.now frame.now.bytes).what }
    {
        match response {
            SdoResponse::DownloadDone { key } => self.confirm_download(*key),
            SdoResponse::DownloadSegmentDone { toggle } => self.confirm_segment(*toggle),
            SdoResponse::UploadExpedited { key, data } => self.answer_expedited(*key, data),
            SdoResponse::UploadInitiated { key, size } => self.answer_segmented(*key, *size),
            SdoResponse::UploadSegment { toggle, data, last } => {
                self.answer_segment(*toggle, data, *last)
            }
            SdoResponse::Abort { key: _, code: _ } => self.unexpected(),
            SdoResponse::BlockDownloadInitiated { key, block_size } => {
                self.answer_block_download(*key, *block_size, has_crc(frame))
            }
            SdoResponse::BlockDownloadDone => self.confirm_end(self.is_download()),
            SdoResponse::BlockDownloadAcknowledge {
                sequence,
                block_size,
            } => self.acknowledge(self.is_download(), *sequence, *block_size),
            SdoResponse::BlockUploadInitiated { key, size } => {
                self.answer_block_upload(*key, *size, has_crc(frame))
            }
            SdoResponse::BlockUploadEnd { unused } => {
                self.end_block(!self.is_download(), *unused, crc_in(frame))
            }
        }
    }
}
