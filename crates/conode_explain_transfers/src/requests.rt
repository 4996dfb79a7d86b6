//! What a client's request makes of the open transfer.

ghost use Rattle.std.specs.Prelude.{◌≡◌};
ghost use Rattle.conode_explain_transfers.specs.Transfers.{after};
ghost use Rattle.conode_explain_transfers.specs.Turns.{request_turn};

use crate::block::crc_in;
use crate::kinds::What;
use crate::transfer::Transfer;
use co_frame::{Frame, SdoRequest};

impl Transfer {
    /// A request that isn't an initiate request; `frame` has its bytes.
    pub(crate) fn take_request(&mut self, request: &SdoRequest, frame: &Frame) -> What
        ensures transfer { self.new ≡ after self.old (request_turn self.old request.now frame.now.bytes) }
        ensures what { result ≡ (request_turn self.old request.now frame.now.bytes).what }
    {
        match request {
            SdoRequest::DownloadSegment { toggle, data, last } => {
                self.send_segment(*toggle, data, *last)
            }
            SdoRequest::UploadSegment { toggle } => self.ask_segment(*toggle),
            SdoRequest::BlockUploadStart => self.start_upload(),
            SdoRequest::BlockUploadAcknowledge {
                sequence,
                block_size,
            } => self.acknowledge(!self.is_download(), *sequence, *block_size),
            SdoRequest::BlockUploadEnd => self.confirm_end(!self.is_download()),
            SdoRequest::BlockDownloadEnd { unused } => {
                self.end_block(self.is_download(), *unused, crc_in(frame))
            }
            _ => self.unexpected(),
        }
    }
}
