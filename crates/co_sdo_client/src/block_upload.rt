//! SDO block upload (CiA 301, 7.2.4.3.13 to 7.2.4.3.15).

ghost use Rattle.std.specs.Prelude.{◌≡◌, ◌+◌, ◌*◌, ◌<◌, ◌≤◌, ◌++◌, Some, length};
ghost use Rattle.arrayvec.specs.ArrayVec.{array_vec_len};
ghost use Rattle.co_frame.specs.SegmentSizes.{segments_per_sub_block};
ghost use Rattle.co_frame.specs.Outboxes.{HasRoomFor};
ghost use Rattle.co_frame.specs.declared.sdo_response.SdoResponse.TheVariants.{BlockUploadInitiated, BlockUploadEnd};
ghost use Rattle.co_sdo_client.specs.declared.stage.Stage.TheVariants.{SubBlock};
ghost use Rattle.co_sdo_client.specs.Calls.{frames_on};
ghost use Rattle.co_sdo_client.specs.Verdicts.{sub_block_verdict, held_with};
ghost use Rattle.co_sdo_client.specs.Outcomes.{messages_by};
ghost use Rattle.co_sdo_client.specs.Steps.{messages_to, after_response, after, sub_block_stage};

use crate::client::Client;
use crate::stage::Stage;
use crate::state::ClientState;
use crate::transfer::Transfer;
use crate::upload::{is_above_size, is_below_size};
use co_frame::{
    AbortCode, BYTES_PER_SEGMENT, BlockSegment, Frame, Outbox, SEGMENTS_PER_SUB_BLOCK, SdoRequest,
    SdoResponse, abort_byte,
};
use co_value::Key;

impl<'a> Client<'a> {
    // The confirmation of initiate SDO block upload, scs = 6, ss = 0.
    pub(crate) fn confirm_block_upload(&mut self, key: Key, size: Option<u32>, outbox: &mut Outbox)
        requires room { HasRoomFor 1 outbox.old }
        ensures few { array_vec_len outbox.new ≤ array_vec_len outbox.old + segments_per_sub_block }
        ensures messages { outbox.new.items ≡ outbox.old.items ++ frames_on self.old.request
            (messages_to self.old (Some (BlockUploadInitiated key size))) }
        ensures client { self.new ≡ after_response self.old (Some (BlockUploadInitiated key size)) }
    {
        let Stage::Begun = self.stage else {
            self.give_up(AbortCode::UNKNOWN_COMMAND, outbox);
            return;
        };
        let Transfer::BlockUpload = self.transfer() else {
            self.give_up(AbortCode::UNKNOWN_COMMAND, outbox);
            return;
        };
        if let Some(fault) = self.upload_fault(key, size.unwrap_or(0) as usize) {
            self.give_up(fault, outbox);
            return;
        }
        self.stage = Stage::SubBlock {
            indicated: size,
            taken: 0,
        };
        self.send(SdoRequest::BlockUploadStart, outbox);
    }

    // A frame inside a sub-block: upload SDO block segment.
    pub(crate) fn take_block_segment(
        &mut self,
        indicated: Option<u32>,
        taken: u8,
        frame: &Frame,
        outbox: &mut Outbox,
    )
        requires room { HasRoomFor 1 outbox.old }
        requires eight { length frame.now.bytes ≡ 8 }
        requires stage { self.old.stage ≡ SubBlock indicated taken }
        ensures few { array_vec_len outbox.new ≤ array_vec_len outbox.old + segments_per_sub_block }
        ensures messages { outbox.new.items ≡ outbox.old.items ++ frames_on self.old.request
            (messages_by self.old.call (sub_block_verdict self.old.call taken self.old.held
            frame.now.bytes)) }
        ensures client { self.new ≡ after self.old (sub_block_verdict self.old.call taken
            self.old.held frame.now.bytes) (sub_block_stage indicated taken frame.now.bytes)
            (held_with self.old.held taken frame.now.bytes) }
    {
        if frame.is_abort_in_sub_block() {
            abort_byte();
            if let Some(SdoResponse::Abort { key: _, code }) = SdoResponse::read(frame) {
                self.state = ClientState::Failed(code);
            }
            return;
        }
        let Some(segment) = BlockSegment::read(frame) else {
            return;
        };
        let is_next = segment.sequence == taken + 1;
        let is_last = segment.last && is_next;
        let ends = segment.last || segment.sequence == SEGMENTS_PER_SUB_BLOCK;
        let total = if is_next {
            self.buffer.len() + BYTES_PER_SEGMENT
        } else {
            self.buffer.len()
        };
        if ends && !is_last && self.cap() < total {
            self.give_up(AbortCode::OUT_OF_MEMORY, outbox);
            return;
        }
        let count = self.buffer.append_next(taken, &segment, &segment.bytes);
        if !ends {
            self.stage = Stage::SubBlock {
                indicated,
                taken: count,
            };
            return;
        }
        self.stage = if is_last {
            Stage::LastTaken { indicated }
        } else {
            Stage::SubBlock {
                indicated,
                taken: 0,
            }
        };
        let acknowledge = SdoRequest::BlockUploadAcknowledge {
            sequence: count,
            block_size: SEGMENTS_PER_SUB_BLOCK,
        };
        self.send(acknowledge, outbox);
    }

    // The end of a block upload: end SDO block upload, scs = 6, ss = 1.
    pub(crate) fn end_block_upload(&mut self, unused: u8, outbox: &mut Outbox)
        requires room { HasRoomFor 1 outbox.old }
        ensures few { array_vec_len outbox.new ≤ array_vec_len outbox.old + segments_per_sub_block }
        ensures messages { outbox.new.items ≡ outbox.old.items ++ frames_on self.old.request
            (messages_to self.old (Some (BlockUploadEnd unused))) }
        ensures client { self.new ≡ after_response self.old (Some (BlockUploadEnd unused)) }
    {
        let Stage::LastTaken { indicated } = self.stage else {
            self.give_up(AbortCode::UNKNOWN_COMMAND, outbox);
            return;
        };
        let total = self.buffer.len().saturating_sub(usize::from(unused));
        if is_above_size(indicated, total) {
            self.give_up(AbortCode::TOO_LONG, outbox);
            return;
        }
        if is_below_size(indicated, total) {
            self.give_up(AbortCode::TOO_SHORT, outbox);
            return;
        }
        if self.cap() < total {
            self.give_up(AbortCode::OUT_OF_MEMORY, outbox);
            return;
        }
        self.buffer.truncate(total);
        self.state = ClientState::Done;
        self.send(SdoRequest::BlockUploadEnd, outbox);
    }
}
