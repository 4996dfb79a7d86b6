//! What a request, or a frame inside a sub-block, does to the open transfer. Code that runs once
//! per transfer is not inlined, to keep the path of a segment small.

ghost use Rattle.std.specs.Prelude.{◌≡◌, ◌+◌, ◌<◌, ◌≤◌, ◌++◌, Some, None, true, false, length, drop};
ghost use Rattle.arrayvec.specs.ArrayVec.{array_vec_len};
ghost use Rattle.co_value.specs.declared.key.Key.{Key};
ghost use Rattle.co_frame.specs.SegmentSizes.{segments_per_sub_block, bytes_per_segment};
ghost use Rattle.co_frame.specs.Outboxes.{HasRoomFor};
ghost use Rattle.co_frame.specs.SdoRequests.{SpellsSdoRequest};
ghost use Rattle.co_sdo.specs.Log.{frames_on};
ghost use Rattle.co_sdo.specs.Refused.{capacity_at};
ghost use Rattle.co_sdo.specs.Replies.{answers_to, request_answers, is_in_sub_block};
ghost use Rattle.co_sdo.specs.Completed.{contents_with, key_set};
ghost use Rattle.co_sdo.specs.Standing.{is_room_for};
ghost use Rattle.co_sdo.specs.Steps.{opened_next, after_request, room_after, room_next, set_next, set_by_request};

use crate::channel::Channel;
use crate::stage::{Ongoing, Stage};
use co_dict::ObjectStore;
use co_frame::{AbortCode, Frame, Outbox, SdoRequest};
use co_value::Key;

// The data of a block segment, borrowed from its frame.
pub(crate) fn segment_data(frame: &Frame) -> &[u8]
    requires { length frame.now.bytes ≡ 8 }
    ensures data { result.now ≡ drop 1 frame.now.bytes }
    ensures seven { length result.now ≡ bytes_per_segment }
{
    &frame.bytes()[1..8]
}

impl Channel {
    // Takes a request outside a sub-block; `frame` is the frame it was read from.
    fn take_request<S: ObjectStore>(
        &mut self,
        store: &mut S,
        request: &SdoRequest,
        frame: &Frame,
        outbox: &mut Outbox,
    ) -> Option<Key>
        requires room { HasRoomFor segments_per_sub_block outbox.old }
        requires greatest { (key : Key) → capacity_at (S.description store.old).rows key ≤
            self.old.greatest }
        requires eight { length frame.now.bytes ≡ 8 }
        requires spelled { SpellsSdoRequest request.now frame.now.bytes }
        ensures few { array_vec_len outbox.new ≤ array_vec_len outbox.old + segments_per_sub_block }
        ensures answers { is_room_for (S.description store.old).rows self.old.room
            self.old.current → outbox.new.items ≡ outbox.old.items ++ frames_on self.old.answer
            (request_answers (S.description store.old) (S.contents store.old) self.old.current
            (Some request.now)) }
        ensures channel { is_room_for (S.description store.old).rows self.old.room
            self.old.current → self.new ≡ record self.old {
              room = room_after (S.description store.old).rows self.old.room (Some request.now);
              current = after_request (S.description
                  store.old) (S.contents store.old) self.old.current (Some request.now);
            } }
        ensures key { is_room_for (S.description store.old).rows self.old.room self.old.current →
            result ≡ key_set (set_by_request (S.description store.old) (S.contents
            store.old) self.old.current (Some request.now)) }
        ensures contents { is_room_for (S.description store.old).rows self.old.room
            self.old.current → S.contents store.new ≡ contents_with (S.contents store.old)
            (set_by_request (S.description store.old) (S.contents store.old) self.old.current
            (Some request.now)) }
        ensures description { S.description store.new ≡ S.description store.old }
        ensures same { self.new ≡ record self.old {
          room = self.new.room;
          current = self.new.current;
        } }
    {
        match request {
            SdoRequest::DownloadExpedited { key, data } => {
                return self.take_expedited(store, *key, data, outbox);
            }
            SdoRequest::DownloadInitiate { key, size } => {
                self.initiate_download(store, *key, *size, outbox);
            }
            SdoRequest::DownloadSegment { toggle, data, last } => {
                let part = &segment_data(frame)[..data.len()];
                return self.take_segment(store, *toggle, part, *last, outbox);
            }
            SdoRequest::Upload { key } => self.initiate_upload(store, *key, outbox),
            SdoRequest::UploadSegment { toggle } => self.take_upload_segment(*toggle, outbox),
            SdoRequest::Abort { key: _, code: _ } => self.current = None,
            SdoRequest::BlockUploadInitiate {
                key,
                block_size,
                threshold,
            } => self.initiate_block_upload(store, *key, *block_size, *threshold, outbox),
            SdoRequest::BlockUploadEnd => self.end_block_upload(outbox),
            SdoRequest::BlockUploadAcknowledge {
                sequence,
                block_size,
            } => self.acknowledge_block_upload(*sequence, *block_size, outbox),
            SdoRequest::BlockUploadStart => self.start_block_upload(outbox),
            SdoRequest::BlockDownloadInitiate { key, size } => {
                self.initiate_block_download(store, *key, *size, outbox);
            }
            SdoRequest::BlockDownloadEnd { unused } => {
                return self.end_block_download(store, *unused, outbox);
            }
        }
        None
    }

    // Whether the next frame falls inside a sub-block of a block download.
    fn is_in_sub_block(&self) -> bool
        ensures { result ≡ is_in_sub_block self.now.current }
    {
        match self.current {
            Some(
                Ongoing {
                    key: _,
                    stage: Stage::SubBlock {
                        indicated: _,
                        taken: _,
                    },
                },
            ) => true,
            _ => false,
        }
    }

    // A frame of eight bytes on the request identifier.
    pub(crate) fn step<S: ObjectStore>(
        &mut self,
        store: &mut S,
        frame: &Frame,
        outbox: &mut Outbox,
    ) -> Option<Key>
        requires room { HasRoomFor segments_per_sub_block outbox.old }
        requires eight { length frame.now.bytes ≡ 8 }
        requires greatest { (key : Key) → capacity_at (S.description store.old).rows key ≤
            self.old.greatest }
        ensures few { array_vec_len outbox.new ≤ array_vec_len outbox.old + segments_per_sub_block }
        ensures answers { is_room_for (S.description store.old).rows self.old.room
            self.old.current → outbox.new.items ≡ outbox.old.items ++ frames_on self.old.answer
            (answers_to (S.description store.old) (S.contents store.old) self.old.current
            frame.now.bytes) }
        ensures channel { is_room_for (S.description store.old).rows self.old.room
            self.old.current → self.new ≡ record self.old {
              left = self.old.time;
              room = room_next (S.description store.old).rows self.old.room self.old.current
                  frame.now.bytes;
              current = opened_next
                  (S.description store.old) (S.contents store.old) self.old.current frame.now.bytes;
            } }
        ensures key { is_room_for (S.description store.old).rows self.old.room self.old.current →
            result ≡ key_set (set_next (S.description store.old) (S.contents store.old)
            self.old.current frame.now.bytes) }
        ensures contents { is_room_for (S.description store.old).rows self.old.room
            self.old.current → S.contents store.new ≡ contents_with (S.contents store.old) (set_next
            (S.description store.old) (S.contents store.old) self.old.current frame.now.bytes) }
        ensures description { S.description store.new ≡ S.description store.old }
        ensures same { self.new ≡ record self.old {
          left = self.new.left;
          room = self.new.room;
          current = self.new.current;
        } }
    {
        self.left = self.time;
        if self.is_in_sub_block() {
            self.take_block_segment(store, frame, outbox);
            return None;
        }
        match SdoRequest::read(frame) {
            None => {
                self.give_up(AbortCode::UNKNOWN_COMMAND, outbox);
                None
            }
            Some(request) => self.take_request(store, &request, frame, outbox),
        }
    }
}
