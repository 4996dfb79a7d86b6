//! SDO download, expedited and segmented (CiA 301, 7.2.4.3.3 and 7.2.4.3.4).

ghost use Rattle.std.specs.Prelude.{◌≡◌, ◌+◌, ◌*◌, ◌<◌, ◌≤◌, ◌++◌, [], ◌∷◌, Some, length};
ghost use Rattle.arrayvec.specs.ArrayVec.{array_vec_len};
ghost use Rattle.co_frame.specs.SegmentSizes.{segments_per_sub_block, bytes_per_segment};
ghost use Rattle.co_frame.specs.Outboxes.{HasRoomFor};
ghost use Rattle.co_frame.specs.declared.sdo_response.SdoResponse.TheVariants.{DownloadDone, DownloadSegmentDone};
ghost use Rattle.co_sdo_client.specs.Calls.{frames_on};
ghost use Rattle.co_sdo_client.specs.Segments.{bytes_of, segment_after};
ghost use Rattle.co_sdo_client.specs.Standing.{counted};
ghost use Rattle.co_sdo_client.specs.Steps.{messages_to, after_response};

use crate::client::Client;
use crate::stage::Stage;
use crate::state::ClientState;
use crate::transfer::Transfer;
use co_frame::{AbortCode, Outbox, SdoRequest};
use co_sdo_segments::{is_last_after, part_after, segment_data};
use co_value::Key;

impl<'a> Client<'a> {
    // Sends the segment after the first `count`: download SDO segment, ccs = 0.
    fn send_segment(&mut self, count: u16, outbox: &mut Outbox)
        requires room { HasRoomFor 1 outbox.old }
        requires within { bytes_per_segment * count ≤ length (bytes_of self.old.call.job) }
        ensures few { array_vec_len outbox.new ≤ array_vec_len outbox.old + segments_per_sub_block }
        ensures messages { outbox.new.items ≡ outbox.old.items ++ frames_on self.old.request
            (segment_after count (bytes_of self.old.call.job) ∷ []) }
        ensures client { self.new ≡ record self.old { sent = counted (self.old.sent + 1) } }
    {
        let position = usize::from(count);
        let segment = SdoRequest::DownloadSegment {
            toggle: count % 2 == 1,
            data: segment_data(part_after(self.bytes, position)),
            last: is_last_after(self.bytes, position),
        };
        self.send(segment, outbox);
    }

    // The confirmation of initiate SDO download, scs = 3.
    pub(crate) fn confirm_download(&mut self, key: Key, outbox: &mut Outbox)
        requires room { HasRoomFor 1 outbox.old }
        ensures few { array_vec_len outbox.new ≤ array_vec_len outbox.old + segments_per_sub_block }
        ensures messages { outbox.new.items ≡ outbox.old.items ++ frames_on self.old.request
            (messages_to self.old (Some (DownloadDone key))) }
        ensures client { self.new ≡ after_response self.old (Some (DownloadDone key)) }
    {
        let Stage::Begun = self.stage else {
            self.give_up(AbortCode::UNKNOWN_COMMAND, outbox);
            return;
        };
        let transfer = self.transfer();
        if !self.has_key(key) {
            self.give_up(AbortCode::UNKNOWN_COMMAND, outbox);
            return;
        }
        match transfer {
            Transfer::ExpeditedDownload => self.state = ClientState::Done,
            Transfer::SegmentedDownload => {
                self.stage = Stage::Download { confirmed: 0 };
                self.send_segment(0, outbox);
            }
            _ => self.give_up(AbortCode::UNKNOWN_COMMAND, outbox),
        }
    }

    // The confirmation of a segment: download SDO segment, scs = 1.
    pub(crate) fn confirm_segment(&mut self, toggle: bool, outbox: &mut Outbox)
        requires room { HasRoomFor 1 outbox.old }
        ensures few { array_vec_len outbox.new ≤ array_vec_len outbox.old + segments_per_sub_block }
        ensures messages { outbox.new.items ≡ outbox.old.items ++ frames_on self.old.request
            (messages_to self.old (Some (DownloadSegmentDone toggle))) }
        ensures client { self.new ≡ after_response self.old (Some (DownloadSegmentDone toggle)) }
    {
        let Stage::Download { confirmed } = self.stage else {
            self.give_up(AbortCode::UNKNOWN_COMMAND, outbox);
            return;
        };
        if toggle != (confirmed % 2 == 1) {
            self.give_up(AbortCode::TOGGLE_NOT_ALTERNATED, outbox);
            return;
        }
        if is_last_after(self.bytes, usize::from(confirmed)) {
            self.state = ClientState::Done;
            return;
        }
        self.stage = Stage::Download {
            confirmed: confirmed + 1,
        };
        self.send_segment(confirmed + 1, outbox);
    }
}
