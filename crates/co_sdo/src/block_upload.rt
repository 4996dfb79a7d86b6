//! SDO block upload (CiA 301, 7.2.4.3.13 to 7.2.4.3.15).

ghost use Rattle.std.specs.Prelude.{◌≡◌, ◌+◌, ◌-◌, ◌*◌, ◌^◌, ◌<◌, ◌≤◌, ◌++◌, Some, None, length};
ghost use Rattle.arrayvec.specs.ArrayVec.{array_vec_len};
ghost use Rattle.co_value.specs.declared.key.Key.{Key};
ghost use Rattle.co_frame.specs.SegmentSizes.{segments_per_sub_block, bytes_per_segment};
ghost use Rattle.co_frame.specs.Outboxes.{HasRoomFor};
ghost use Rattle.co_frame.specs.declared.sdo_request.SdoRequest.TheVariants.{BlockUploadInitiate};
ghost use Rattle.co_sdo.specs.Log.{frames_on};
ghost use Rattle.co_sdo.specs.Refused.{capacity_at};
ghost use Rattle.co_sdo.specs.Uploads.{segment_count, block_segment, sub_block_length, sub_block_sent};
ghost use Rattle.co_sdo.specs.Replies.{
  on_open,
  start_answers,
  acknowledge_answers,
  upload_end_answers,
  initiate_answers,
};
ghost use Rattle.co_sdo.specs.Steps.{next_on, after_start, after_acknowledge, after_initiate};

use crate::channel::Channel;
use crate::refusals::readable_value;
use crate::stage::{Ongoing, Stage};
use co_dict::ObjectStore;
use co_frame::{AbortCode, Outbox, SEGMENTS_PER_SUB_BLOCK, SdoResponse};
use co_sdo_segments::{segment_count, unused_after};
use co_value::Key;

impl Channel {
    // Initiate SDO block upload, ccs = 5, cs = 0.
    #[inline(never)]
    pub(crate) fn initiate_block_upload<S: ObjectStore>(
        &mut self,
        store: &S,
        key: Key,
        block_size: u8,
        threshold: u8,
        outbox: &mut Outbox,
    )
        requires room { HasRoomFor 1 outbox.old }
        requires greatest { (key : Key) → capacity_at (S.description store.now).rows key ≤
            self.old.greatest }
        ensures few { array_vec_len outbox.new ≤ array_vec_len outbox.old + segments_per_sub_block }
        ensures answers { outbox.new.items ≡ outbox.old.items ++ frames_on self.old.answer
            (initiate_answers (S.description store.now) (S.contents store.now) (BlockUploadInitiate key
            block_size threshold)) }
        ensures channel { self.new ≡ record self.old {
          current = after_initiate (S.description
              store.now) (S.contents store.now) (BlockUploadInitiate key block_size threshold);
        } }
    {
        // the protocol switch threshold is ignored: a block upload stays one
        let _ = threshold;
        self.current = None;
        let value = match readable_value(store, key) {
            Ok(value) => value,
            Err(code) => {
                self.sender.refuse(key, code, outbox);
                return;
            }
        };
        if block_size == 0 || SEGMENTS_PER_SUB_BLOCK < block_size {
            self.sender
                .refuse(key, AbortCode::INVALID_BLOCK_SIZE, outbox);
            return;
        }
        self.buffer.fill(value);
        self.current = Some(Ongoing {
            key,
            stage: Stage::BlockUploadInitiated { block_size },
        });
        let size = Some(value.len() as u32);
        self.sender
            .send(SdoResponse::BlockUploadInitiated { key, size }, outbox);
    }

    // The start of a block upload, ccs = 5, cs = 3.
    #[inline(never)]
    pub(crate) fn start_block_upload(&mut self, outbox: &mut Outbox)
        requires room { HasRoomFor segments_per_sub_block outbox.old }
        ensures few { array_vec_len outbox.new ≤ array_vec_len outbox.old + segments_per_sub_block }
        ensures answers { outbox.new.items ≡ outbox.old.items ++ frames_on self.old.answer
            (on_open self.old.current start_answers) }
        ensures channel { self.new ≡ record self.old {
          current = next_on self.old.current
              after_start;
        } }
    {
        let Some(
            Ongoing {
                key,
                stage: Stage::BlockUploadInitiated { block_size },
            },
        ) = self.current
        else {
            self.give_up(AbortCode::UNKNOWN_COMMAND, outbox);
            return;
        };
        let sent = self
            .sender
            .send_sub_block(self.buffer.as_slice(), 0, block_size, outbox);
        self.current = Some(Ongoing {
            key,
            stage: Stage::BlockUpload {
                acknowledged: 0,
                sent,
            },
        });
    }

    // The acknowledgement of a sub-block, ccs = 5, cs = 2.
    #[inline(never)]
    pub(crate) fn acknowledge_block_upload(
        &mut self,
        sequence: u8,
        block_size: u8,
        outbox: &mut Outbox,
    )
        requires room { HasRoomFor segments_per_sub_block outbox.old }
        ensures few { array_vec_len outbox.new ≤ array_vec_len outbox.old + segments_per_sub_block }
        ensures answers { outbox.new.items ≡ outbox.old.items ++ frames_on self.old.answer
            (on_open self.old.current (λ o stage. acknowledge_answers o stage sequence
            block_size)) }
        ensures channel { self.new ≡ record self.old {
          current = next_on self.old.current (λ o
              stage. after_acknowledge o stage sequence block_size);
        } }
    {
        let Some(
            Ongoing {
                key,
                stage: Stage::BlockUpload { acknowledged, sent },
            },
        ) = self.current
        else {
            self.give_up(AbortCode::UNKNOWN_COMMAND, outbox);
            return;
        };
        if sent < sequence {
            self.give_up(AbortCode::INVALID_SEQUENCE_NUMBER, outbox);
            return;
        }
        let position = acknowledged as usize + sequence as usize;
        if position == segment_count(self.buffer.as_slice()) {
            let unused = unused_after(self.buffer.as_slice());
            self.current = Some(Ongoing {
                key,
                stage: Stage::BlockUploadEnded,
            });
            self.sender
                .send(SdoResponse::BlockUploadEnd { unused }, outbox);
            return;
        }
        if block_size < 1 || SEGMENTS_PER_SUB_BLOCK < block_size {
            self.give_up(AbortCode::INVALID_BLOCK_SIZE, outbox);
            return;
        }
        let sent = self
            .sender
            .send_sub_block(self.buffer.as_slice(), position, block_size, outbox);
        let acknowledged = position as u32;
        self.current = Some(Ongoing {
            key,
            stage: Stage::BlockUpload { acknowledged, sent },
        });
    }

    // The client's end of a block upload: end SDO block upload, ccs = 5, cs = 1.
    #[inline(never)]
    pub(crate) fn end_block_upload(&mut self, outbox: &mut Outbox)
        requires room { HasRoomFor 1 outbox.old }
        ensures few { array_vec_len outbox.new ≤ array_vec_len outbox.old + segments_per_sub_block }
        ensures answers { outbox.new.items ≡ outbox.old.items ++ frames_on self.old.answer
            (on_open self.old.current upload_end_answers) }
        ensures channel { self.new ≡ record self.old { current = None } }
    {
        match self.current {
            Some(
                Ongoing {
                    key: _,
                    stage: Stage::BlockUploadEnded,
                },
            ) => self.current = None,
            _ => self.give_up(AbortCode::UNKNOWN_COMMAND, outbox),
        }
    }
}
