//! SDO download, expedited and segmented (CiA 301, 7.2.4.3.3 and 7.2.4.3.4).

ghost use Rattle.std.specs.Prelude.{◌≡◌, ◌+◌, ◌<◌, ◌≤◌, ◌++◌, [], ◌∷◌, Some, None, false, length};
ghost use Rattle.arrayvec.specs.ArrayVec.{array_vec_len};
ghost use Rattle.co_value.specs.declared.key.Key.{Key};
ghost use Rattle.co_frame.specs.SegmentSizes.{segments_per_sub_block, bytes_per_segment};
ghost use Rattle.co_frame.specs.Outboxes.{HasRoomFor};
ghost use Rattle.co_frame.specs.SdoResponses.{IsSdoResponse};
ghost use Rattle.co_frame.specs.declared.sdo_request.SdoRequest.TheVariants.{DownloadExpedited, DownloadInitiate};
ghost use Rattle.co_sdo.specs.Log.{Response, frames_on};
ghost use Rattle.co_sdo.specs.Refused.{capacity_at, completion_refusal};
ghost use Rattle.co_sdo.specs.Downloads.{expedited_part, expedited_within};
ghost use Rattle.co_sdo.specs.Replies.{on_open, segment_answers, initiate_answers, unless_refused};
ghost use Rattle.co_sdo.specs.Completed.{unless, contents_with, key_set};
ghost use Rattle.co_sdo.specs.Standing.{is_room_for};
ghost use Rattle.co_sdo.specs.Steps.{
  next_on,
  after_segment,
  after_initiate,
  whole,
  set_expedited,
  set_on_open,
  set_by_segment,
};

use crate::channel::Channel;
use crate::refusals::{completion_refusal, initiate_refusal};
use crate::sender::Sender;
use crate::stage::{Ongoing, Stage};
use co_dict::ObjectStore;
use co_frame::{AbortCode, ExpeditedData, Outbox, SdoResponse};
use co_value::Key;

// The capacity of an entry, in bytes.
pub(crate) fn capacity<S: ObjectStore>(store: &S, key: Key) -> usize
    ensures { result ≡ capacity_at (S.description store.now).rows key }
{
    match store.row(key) {
        Some(row) => row.capacity as usize,
        None => 0,
    }
}

// The data of an expedited download into an entry of this capacity.
fn expedited_bytes(data: &ExpeditedData, capacity: usize) -> &[u8]
    ensures { result.now ≡ expedited_within capacity data.now }
{
    match data {
        ExpeditedData::Indicated(counted) => counted.as_slice(),
        ExpeditedData::NotIndicated(four) => {
            if capacity < 4 {
                &four[..capacity]
            } else {
                four
            }
        }
    }
}

impl Sender {
    // Sets an entry, sends this response and returns the key; or sends an abort.
    #[inline(never)]
    pub(crate) fn complete<S: ObjectStore>(
        self,
        store: &mut S,
        key: Key,
        indicated: Option<u32>,
        bytes: &[u8],
        response: SdoResponse,
        outbox: &mut Outbox,
    ) -> Option<Key>
        requires id { self.answer < 2048 }
        requires room { HasRoomFor 1 outbox.old }
        requires spellable { IsSdoResponse response }
        ensures few { array_vec_len outbox.new ≤ array_vec_len outbox.old + segments_per_sub_block }
        ensures answers { outbox.new.items ≡ outbox.old.items ++ frames_on self.answer
            (unless_refused (completion_refusal (S.description store.old) (S.contents store.old)
            key indicated bytes.now) key (Response response ∷ [])) }
        ensures key { result ≡ key_set (unless (completion_refusal (S.description store.old)
            (S.contents store.old) key indicated bytes.now) (whole key indicated bytes.now)) }
        ensures contents { S.contents store.new ≡ contents_with (S.contents store.old) (unless
            (completion_refusal (S.description store.old) (S.contents store.old) key indicated
            bytes.now) (whole key indicated bytes.now)) }
        ensures description { S.description store.new ≡ S.description store.old }
    {
        match completion_refusal(store, key, indicated, bytes) {
            Some(code) => {
                self.refuse(key, code, outbox);
                None
            }
            None => {
                store.set(key, bytes);
                self.send(response, outbox);
                Some(key)
            }
        }
    }
}

impl Channel {
    // An expedited download: initiate SDO download, ccs = 1, e = 1.
    #[inline(never)]
    pub(crate) fn take_expedited<S: ObjectStore>(
        &mut self,
        store: &mut S,
        key: Key,
        data: &ExpeditedData,
        outbox: &mut Outbox,
    ) -> Option<Key>
        requires room { HasRoomFor 1 outbox.old }
        ensures few { array_vec_len outbox.new ≤ array_vec_len outbox.old + segments_per_sub_block }
        ensures answers { outbox.new.items ≡ outbox.old.items ++ frames_on self.old.answer
            (initiate_answers (S.description store.old) (S.contents store.old) (DownloadExpedited key
            data.now)) }
        ensures channel { self.new ≡ record self.old { current = None } }
        ensures key { result ≡ key_set (set_expedited (S.description store.old) (S.contents
            store.old) key (expedited_part (S.description store.old).rows key data.now)) }
        ensures contents { S.contents store.new ≡ contents_with (S.contents store.old)
            (set_expedited (S.description store.old) (S.contents store.old) key (expedited_part
            (S.description store.old).rows key data.now)) }
        ensures description { S.description store.new ≡ S.description store.old }
    {
        self.current = None;
        let bytes = expedited_bytes(data, capacity(store, key));
        let done = SdoResponse::DownloadDone { key };
        self.sender.complete(store, key, None, bytes, done, outbox)
    }

    // A segmented download: initiate SDO download, ccs = 1, e = 0.
    #[inline(never)]
    pub(crate) fn initiate_download<S: ObjectStore>(
        &mut self,
        store: &S,
        key: Key,
        size: Option<u32>,
        outbox: &mut Outbox,
    )
        requires room { HasRoomFor 1 outbox.old }
        requires greatest { (key : Key) → capacity_at (S.description store.now).rows key ≤
            self.old.greatest }
        ensures few { array_vec_len outbox.new ≤ array_vec_len outbox.old + segments_per_sub_block }
        ensures answers { outbox.new.items ≡ outbox.old.items ++ frames_on self.old.answer
            (initiate_answers (S.description store.now) (S.contents store.now) (DownloadInitiate key
            size)) }
        ensures channel { self.new ≡ record self.old {
          room = capacity_at (S.description store.now).rows key;
          current = after_initiate (S.description
              store.now) (S.contents store.now) (DownloadInitiate key size);
        } }
    {
        self.buffer.clear();
        self.current = None;
        self.room = capacity(store, key);
        match initiate_refusal(store, key, size) {
            Some(code) => self.sender.refuse(key, code, outbox),
            None => {
                self.current = Some(Ongoing {
                    key,
                    stage: Stage::Download {
                        indicated: size,
                        toggle: false,
                    },
                });
                self.sender.send(SdoResponse::DownloadDone { key }, outbox);
            }
        }
    }

    // A segment of a download: download SDO segment, ccs = 0. Its contract needs `room` to be the
    // capacity of the entry, as it is after initiate.
    pub(crate) fn take_segment<S: ObjectStore>(
        &mut self,
        store: &mut S,
        toggle: bool,
        part: &[u8],
        last: bool,
        outbox: &mut Outbox,
    ) -> Option<Key>
        requires room { HasRoomFor 1 outbox.old }
        requires few { length part.now ≤ bytes_per_segment }
        ensures few { array_vec_len outbox.new ≤ array_vec_len outbox.old + segments_per_sub_block }
        ensures answers { is_room_for (S.description store.old).rows self.old.room
            self.old.current → outbox.new.items ≡ outbox.old.items ++ frames_on self.old.answer
            (on_open self.old.current (λ o stage. segment_answers (S.description store.old)
            (S.contents store.old) o stage toggle part.now last)) }
        ensures channel { is_room_for (S.description store.old).rows self.old.room
            self.old.current → self.new ≡ record self.old {
              current = next_on self.old.current (λ o
                  stage. after_segment (S.description store.old) (S.contents store.old) o stage toggle
                  part.now last);
            } }
        ensures key { is_room_for (S.description store.old).rows self.old.room self.old.current →
            result ≡ key_set (set_on_open self.old.current (λ o stage. set_by_segment
            (S.description store.old) (S.contents store.old) o stage toggle part.now last)) }
        ensures contents { is_room_for (S.description store.old).rows self.old.room
            self.old.current → S.contents store.new ≡ contents_with (S.contents store.old)
            (set_on_open self.old.current (λ o stage. set_by_segment (S.description store.old)
            (S.contents store.old) o stage toggle part.now last)) }
        ensures description { S.description store.new ≡ S.description store.old }
        ensures same { self.new ≡ record self.old { current = self.new.current } }
    {
        let Some(ongoing) = &mut self.current else {
            self.give_up(AbortCode::UNKNOWN_COMMAND, outbox);
            return None;
        };
        let Stage::Download {
            indicated,
            toggle: expected,
        } = &mut ongoing.stage
        else {
            self.give_up(AbortCode::UNKNOWN_COMMAND, outbox);
            return None;
        };
        if toggle != *expected {
            self.give_up(AbortCode::TOGGLE_NOT_ALTERNATED, outbox);
            return None;
        }
        if self.room < self.buffer.len() + part.len() {
            self.give_up(AbortCode::TOO_LONG, outbox);
            return None;
        }
        *expected = !toggle;
        self.buffer.append(part);
        if last {
            let key = ongoing.key;
            let indicated = *indicated;
            self.current = None;
            let bytes = self.buffer.as_slice();
            let done = SdoResponse::DownloadSegmentDone { toggle };
            return self
                .sender
                .complete(store, key, indicated, bytes, done, outbox);
        }
        let done = SdoResponse::DownloadSegmentDone { toggle };
        self.sender.send(done, outbox);
        None
    }
}
