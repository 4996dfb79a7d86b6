//! The calls of a client: begin, take and tick.

ghost use Rattle.std.specs.Prelude.{◌≡◌, ◌+◌, ◌-◌, ◌<◌, ◌≤◌, ◌++◌, [], ◌∷◌, true, false, length, List};
ghost use Rattle.arrayvec.specs.ArrayVec.{array_vec_len};
ghost use Rattle.co_frame.specs.SegmentSizes.{segments_per_sub_block};
ghost use Rattle.co_frame.specs.Outboxes.{HasRoomFor};
ghost use Rattle.co_frame.specs.SdoRequests.{IsSdoRequest};
ghost use Rattle.co_sdo_client.specs.Calls.{Call, Event, Ticked, Request, frames_on};
ghost use Rattle.co_sdo_client.specs.Segments.{initiate_messages, size_sent};
ghost use Rattle.co_sdo_client.specs.Outcomes.{asked_by};
ghost use Rattle.co_sdo_client.specs.Standing.{ClientStands, IsReady, waits, events_with, asked_with};
ghost use Rattle.co_sdo_client.specs.Steps.{messages_to_tick, after_tick};

use crate::client::Client;
use crate::direction::Direction;
use crate::state::ClientState;
use crate::transfer::Transfer;
use co_frame::{AbortCode, ExpeditedData, Frame, Outbox, SEGMENTS_PER_SUB_BLOCK, SdoRequest};
use co_sdo_segments::expedited_data;

impl<'a> Client<'a> {
    // The size that initiate indicates.
    fn size_sent(&self) -> Option<u32>
        ensures { result ≡ size_sent self.now.call.job }
    {
        match self.direction {
            Direction::Download { tell_size: true } => Some(self.bytes.len() as u32),
            _ => None,
        }
    }

    // The initiate request.
    fn initiate_request(&self) -> SdoRequest
        ensures request { Request result ∷ [] ≡ initiate_messages self.now.call }
        ensures spellable { IsSdoRequest result }
    {
        let key = self.key;
        match self.transfer() {
            Transfer::ExpeditedDownload => SdoRequest::DownloadExpedited {
                key,
                data: ExpeditedData::Indicated(expedited_data(self.bytes)),
            },
            Transfer::SegmentedDownload => SdoRequest::DownloadInitiate {
                key,
                size: self.size_sent(),
            },
            Transfer::BlockDownload => SdoRequest::BlockDownloadInitiate {
                key,
                size: self.size_sent(),
            },
            Transfer::SegmentedUpload => SdoRequest::Upload { key },
            Transfer::BlockUpload => SdoRequest::BlockUploadInitiate {
                key,
                block_size: SEGMENTS_PER_SUB_BLOCK,
                threshold: 0,
            },
        }
    }

    // Whether the transfer goes on.
    fn waits(&self) -> bool
        ensures { result ≡ waits self.now.state }
    {
        match self.state {
            ClientState::Waiting => true,
            _ => false,
        }
    }

    // A tick while the client waits.
    fn count_tick(&mut self, outbox: &mut Outbox)
        requires room { HasRoomFor 1 outbox.old }
        ensures few { array_vec_len outbox.new ≤ array_vec_len outbox.old + segments_per_sub_block }
        ensures messages { outbox.new.items ≡ outbox.old.items ++ frames_on self.old.request
            (messages_to_tick self.old) }
        ensures client { self.new ≡ after_tick self.old }
    {
        self.left = self.left.saturating_sub(1);
        if self.time > 0 && self.left == 0 {
            self.give_up(AbortCode::TIMED_OUT, outbox);
        }
    }

    /// Begins the transfer: the initiate request is put into the outbox, one frame. A second call
    /// does nothing.
    pub fn begin(&mut self, outbox: &mut Outbox)
        requires room { HasRoomFor 1 outbox.old }
        ensures few { array_vec_len outbox.new ≤ array_vec_len outbox.old + segments_per_sub_block }
        ensures messages { (call : Call) → IsReady call self.old → outbox.new.items ≡
            outbox.old.items ++ frames_on self.old.request (initiate_messages call) }
        ensures begun { (call : Call) → IsReady call self.old → ClientStands call [] self.new }
        ensures silent { self.old.begun ≡ true → outbox.new.items ≡ outbox.old.items }
        ensures idle { self.old.begun ≡ true → self.new ≡ self.old }
        ensures ids { (self.new.request ≡ self.old.request) × (self.new.answer ≡ self.old.answer) }
    {
        if self.begun {
            return;
        }
        self.begun = true;
        self.left = self.time;
        let request = self.initiate_request();
        self.send(request, outbox);
    }

    /// Takes a frame (CiA 301, 7.2.4.3). A frame that hasn't eight bytes, or has another identifier
    /// than the client's answers, is ignored; so is every frame before `begin` and after the
    /// transfer is done or has failed. Else the next requests are put into the outbox, at most 127
    /// frames; an unexpected answer is answered by an abort.
    pub fn take(&mut self, frame: &Frame, outbox: &mut Outbox)
        requires room { HasRoomFor segments_per_sub_block outbox.old }
        ensures few { array_vec_len outbox.new ≤ array_vec_len outbox.old + segments_per_sub_block }
        ensures messages { (call : Call) (events : List Event) → ClientStands call events self.old
            → outbox.new.items ≡ outbox.old.items ++ frames_on self.old.request (asked_with
            self.old.answer call events frame.now) }
        ensures stands { (call : Call) (events : List Event) → ClientStands call events self.old →
            ClientStands call (events_with self.old.answer events frame.now) self.new }
        ensures silent { self.old.begun ≡ false → outbox.new.items ≡ outbox.old.items }
        ensures idle { self.old.begun ≡ false → self.new ≡ self.old }
        ensures ids { (self.new.request ≡ self.old.request) × (self.new.answer ≡ self.old.answer) }
    {
        if frame.id() != self.ids.answer || frame.bytes().len() != 8 {
            return;
        }
        if !self.begun || !self.waits() {
            return;
        }
        self.take_answer(frame, outbox);
    }

    /// 1 ms elapsed. If the SDO timeout has passed without an answer, the transfer is aborted
    /// (05040000h, SDO protocol timed out). Nothing happens before `begin`, and after the transfer
    /// is done or has failed.
    pub fn tick(&mut self, outbox: &mut Outbox)
        requires room { HasRoomFor segments_per_sub_block outbox.old }
        ensures few { array_vec_len outbox.new ≤ array_vec_len outbox.old + segments_per_sub_block }
        ensures messages { (call : Call) (events : List Event) → ClientStands call events self.old
            → outbox.new.items ≡ outbox.old.items ++ frames_on self.old.request (asked_by call
            events Ticked) }
        ensures stands { (call : Call) (events : List Event) → ClientStands call events self.old →
            ClientStands call (Ticked ∷ events) self.new }
        ensures silent { self.old.begun ≡ false → outbox.new.items ≡ outbox.old.items }
        ensures idle { self.old.begun ≡ false → self.new ≡ self.old }
        ensures ids { (self.new.request ≡ self.old.request) × (self.new.answer ≡ self.old.answer) }
    {
        if !self.begun || !self.waits() {
            return;
        }
        self.count_tick(outbox);
    }
}
