//! SDO block download (CiA 301, 7.2.4.3.9 to 7.2.4.3.11).

ghost use Rattle.std.specs.Prelude.{◌≡◌, ◌+◌, ◌*◌, ◌<◌, ◌≤◌, ◌++◌, Some, None, length};
ghost use Rattle.arrayvec.specs.ArrayVec.{array_vec_len};
ghost use Rattle.co_value.specs.declared.key.Key.{Key};
ghost use Rattle.co_frame.specs.SegmentSizes.{segments_per_sub_block, bytes_per_segment};
ghost use Rattle.co_frame.specs.Outboxes.{HasRoomFor};
ghost use Rattle.co_frame.specs.declared.sdo_request.SdoRequest.TheVariants.{BlockDownloadInitiate};
ghost use Rattle.co_sdo.specs.Log.{frames_on};
ghost use Rattle.co_sdo.specs.Refused.{capacity_at};
ghost use Rattle.co_sdo.specs.Replies.{on_open, frame_answers, block_end_answers, initiate_answers};
ghost use Rattle.co_sdo.specs.Completed.{contents_with, key_set};
ghost use Rattle.co_sdo.specs.Steps.{next_on, after_frame_at, after_initiate, set_on_open, set_by_end};

use crate::channel::Channel;
use crate::download::capacity;
use crate::refusals::initiate_refusal;
use crate::request::segment_data;
use crate::stage::{Ongoing, Stage};
use co_dict::ObjectStore;
use co_frame::{AbortCode, BlockSegment, Frame, Outbox, SEGMENTS_PER_SUB_BLOCK, SdoResponse};
use co_value::Key;

impl Channel {
    // Initiate SDO block download, ccs = 6, cs = 0.
    #[inline(never)]
    pub(crate) fn initiate_block_download<S: ObjectStore>(
        &mut self,
        store: &S,
        key: Key,
        size: Option<u32>,
        outbox: &mut Outbox,
    )
        requires room { HasRoomFor 1 outbox.old }
        ensures few { array_vec_len outbox.new ≤ array_vec_len outbox.old + segments_per_sub_block }
        ensures answers { outbox.new.items ≡ outbox.old.items ++ frames_on self.old.answer
            (initiate_answers (S.description store.now) (S.contents store.now) (BlockDownloadInitiate
            key size)) }
        ensures channel { self.new ≡ record self.old {
          current = after_initiate (S.description
              store.now) (S.contents store.now) (BlockDownloadInitiate key size);
        } }
    {
        self.buffer.clear();
        self.current = None;
        match initiate_refusal(store, key, size) {
            Some(code) => self.sender.refuse(key, code, outbox),
            None => {
                self.current = Some(Ongoing {
                    key,
                    stage: Stage::SubBlock {
                        indicated: size,
                        taken: 0,
                    },
                });
                let block_size = SEGMENTS_PER_SUB_BLOCK;
                self.sender.send(
                    SdoResponse::BlockDownloadInitiated { key, block_size },
                    outbox,
                );
            }
        }
    }

    // A frame inside a sub-block: download SDO block segment.
    pub(crate) fn take_block_segment<S: ObjectStore>(
        &mut self,
        store: &S,
        frame: &Frame,
        outbox: &mut Outbox,
    )
        requires room { HasRoomFor 1 outbox.old }
        requires eight { length frame.now.bytes ≡ 8 }
        requires greatest { (key : Key) → capacity_at (S.description store.now).rows key ≤
            self.old.greatest }
        ensures few { array_vec_len outbox.new ≤ array_vec_len outbox.old + segments_per_sub_block }
        ensures answers { outbox.new.items ≡ outbox.old.items ++ frames_on self.old.answer
            (on_open self.old.current (λ o stage. frame_answers (S.description store.now).rows o
            stage frame.now.bytes)) }
        ensures channel { self.new ≡ record self.old {
          current = next_on self.old.current (λ o
              stage. after_frame_at (S.description store.now).rows o stage frame.now.bytes);
        } }
    {
        let Some(
            Ongoing {
                key,
                stage: Stage::SubBlock { indicated, taken },
            },
        ) = self.current
        else {
            self.give_up(AbortCode::UNKNOWN_COMMAND, outbox);
            return;
        };
        if frame.bytes()[0] == 0x80 {
            self.current = None;
            return;
        }
        let Some(segment) = BlockSegment::read(frame) else {
            return;
        };
        let bytes = segment_data(frame);
        let count = self.buffer.append_next(taken, &segment, bytes);
        if !segment.last && segment.sequence != SEGMENTS_PER_SUB_BLOCK {
            // the rest of the open transfer stays, without a copy
            if let Some(ongoing) = &mut self.current {
                if let Stage::SubBlock {
                    indicated: _,
                    taken,
                } = &mut ongoing.stage
                {
                    *taken = count;
                }
            }
            return;
        }
        self.current = None;
        let is_last = segment.last && segment.sequence == taken + 1;
        if !is_last && capacity(store, key) < self.buffer.len() {
            self.sender.refuse(key, AbortCode::TOO_LONG, outbox);
            return;
        }
        let stage = if is_last {
            Stage::LastTaken { indicated }
        } else {
            Stage::SubBlock {
                indicated,
                taken: 0,
            }
        };
        self.current = Some(Ongoing { key, stage });
        let acknowledge = SdoResponse::BlockDownloadAcknowledge {
            sequence: count,
            block_size: SEGMENTS_PER_SUB_BLOCK,
        };
        self.sender.send(acknowledge, outbox);
    }

    // The end of a block download: end SDO block download, ccs = 6, cs = 1.
    #[inline(never)]
    pub(crate) fn end_block_download<S: ObjectStore>(
        &mut self,
        store: &mut S,
        unused: u8,
        outbox: &mut Outbox,
    ) -> Option<Key>
        requires room { HasRoomFor 1 outbox.old }
        ensures few { array_vec_len outbox.new ≤ array_vec_len outbox.old + segments_per_sub_block }
        ensures answers { outbox.new.items ≡ outbox.old.items ++ frames_on self.old.answer
            (on_open self.old.current (λ o stage. block_end_answers (S.description store.old)
            (S.contents store.old) o stage unused)) }
        ensures channel { self.new ≡ record self.old { current = None } }
        ensures key { result ≡ key_set (set_on_open self.old.current (λ o stage. set_by_end
            (S.description store.old) (S.contents store.old) o stage unused)) }
        ensures contents { S.contents store.new ≡ contents_with (S.contents store.old)
            (set_on_open self.old.current (λ o stage. set_by_end (S.description store.old)
            (S.contents store.old) o stage unused)) }
        ensures description { S.description store.new ≡ S.description store.old }
    {
        let Some(
            Ongoing {
                key,
                stage: Stage::LastTaken { indicated },
            },
        ) = self.current
        else {
            self.give_up(AbortCode::UNKNOWN_COMMAND, outbox);
            return None;
        };
        self.current = None;
        let len = self.buffer.len().saturating_sub(unused as usize);
        let bytes = &self.buffer.as_slice()[..len];
        let done = SdoResponse::BlockDownloadDone;
        self.sender
            .complete(store, key, indicated, bytes, done, outbox)
    }
}
