//! A channel of an SDO server.

ghost use Rattle.std.specs.Prelude.{◌≡◌, ℕ, ◌+◌, ◌<◌, ◌≤◌, ◌++◌, [], Some, None, length, IfOk};
ghost use Rattle.arrayvec.specs.ArrayVec.{array_vec_len};
ghost use Rattle.co_sdo.specs.Log.{frames_on};
ghost use Rattle.co_dict.specs.Stores.{Description};
ghost use Rattle.co_value.specs.declared.key.Key.{Key};
ghost use Rattle.co_frame.specs.SegmentSizes.{segments_per_sub_block};
ghost use Rattle.co_frame.specs.Outboxes.{HasRoomFor};
ghost use Rattle.co_sdo.specs.Log.{Log};
ghost use Rattle.co_frame.specs.FrameContent.{FrameContent};
ghost use Rattle.co_dict.specs.Rows.{Contents};
ghost use Rattle.co_sdo.specs.Downloads.{Download};
ghost use Rattle.co_sdo.specs.Refused.{capacity_at, completion_refusal};
ghost use Rattle.co_sdo.specs.Replies.{aborted, open_key};
ghost use Rattle.co_sdo.specs.Completed.{contents_with, key_set};
ghost use Rattle.co_sdo.specs.Standing.{Stands, reply_on, set_on, log_on};

use crate::sender::Sender;
use crate::stage::Ongoing;
use co_dict::{ObjectStore, store_laws};
use co_frame::{AbortCode, BYTES_PER_SUB_BLOCK, Frame, Ids, Outbox};
use co_sdo_segments::Buffer;
use co_value::Key;
use std::alloc::{AllocError, Global};
use std::marker::Model;

/// An SDO server's channel, which serves one client (CiA 301, 7.2.4.3).
#[derive(Drop)]
pub struct Channel {
    pub(crate) request: u16,
    pub(crate) sender: Sender,
    pub(crate) greatest: u32,
    pub(crate) time: u16,
    pub(crate) left: u16,
    // capacity of the entry being downloaded in segments; looked up once, at initiate
    pub(crate) room: usize,
    pub(crate) current: Option<Ongoing>,
    pub(crate) buffer: Buffer,
}

impl Model for Channel {
    ghost use Rattle.std.specs.Prelude.{◌≡◌, ◌+◌, ◌<◌, ◌≤◌, length};
    ghost use Rattle.co_frame.specs.SegmentSizes.{bytes_per_sub_block};
    ghost use Rattle.co_sdo.specs.Standing.{Standing};
    ghost use Rattle.co_sdo.specs.Fields.{opened_in, has_room};

    ghost Value = { Standing };

    ghost view = { λ c. record {
      request = c.request;
      answer = c.sender.answer;
      greatest = c.greatest;
      time = c.time;
      left = c.left;
      room = c.room;
      current = opened_in c.current c.buffer.bytes;
    } };

    ghost invariant = { λ c. (c.sender.answer < 2048) ×
        (c.greatest + bytes_per_sub_block ≡ c.buffer.room) × (c.room ≤ c.greatest) ×
        has_room c.current (length c.buffer.bytes) c.greatest };
}

impl Channel {
    /// A channel that has received nothing. It allocates a buffer of `greatest` + 889 bytes:
    /// `greatest` is the greatest capacity of an entry, and 889 a sub-block of 127 segments of 7
    /// bytes. `time` is the SDO timeout between two requests, in ms; 0 disables it. `AllocError` if
    /// the buffer can't be allocated.
    pub fn new(alloc: Global, ids: Ids, greatest: u32, time: u16) -> Result<Channel, AllocError>
        requires request { ids.request < 2048 }
        requires answer { ids.answer < 2048 }
        ensures stands { IfOk result (λ channel. (d : Description) → Stands d channel []) }
        ensures given { IfOk result (λ channel. channel ≡ record {
          request = ids.request;
          answer = ids.answer;
          greatest = greatest;
          time = time;
          left = time;
          room = 0;
          current = None;
        }) }
    {
        let buffer = Buffer::with_room(alloc, greatest as usize + BYTES_PER_SUB_BLOCK)?;
        Ok(Channel {
            request: ids.request,
            sender: Sender { answer: ids.answer },
            greatest,
            time,
            left: time,
            room: 0,
            current: None,
            buffer,
        })
    }

    /// The identifiers of its requests and its answers.
    pub fn ids(&self) -> Ids
        ensures request { result.request ≡ self.now.request }
        ensures answer { result.answer ≡ self.now.answer }
    {
        Ids {
            request: self.request,
            answer: self.sender.answer,
        }
    }

    /// An entry is set only by a download that the dictionary permits. This is a law: a call of it
    /// changes nothing.
    pub fn set_is_permitted()
        ensures permitted { (id : ℕ) (d : Description) (contents : Contents) (log : Log)
            (frame : FrameContent) (download : Download) →
            set_on id d contents log frame ≡ Some download →
            completion_refusal d contents download.key download.indicated download.bytes ≡ None }
    {}

    /// Takes a frame (CiA 301, 7.2.4.3). A frame that hasn't eight bytes, or has another identifier
    /// than the channel's requests, is ignored. Else the answers are put into the outbox, at most
    /// 127 frames. If the frame completes a download that the dictionary permits, this sets its
    /// entry and returns its key; nothing else in the store changes.
    pub fn take<S: ObjectStore>(
        &mut self,
        store: &mut S,
        frame: &Frame,
        outbox: &mut Outbox,
    ) -> Option<Key>
        requires room { HasRoomFor segments_per_sub_block outbox.old }
        requires greatest { (key : Key) → capacity_at (S.description store.old).rows key ≤
            self.old.greatest }
        ensures few { array_vec_len outbox.new ≤ array_vec_len outbox.old + segments_per_sub_block }
        ensures answers { (log : Log) → Stands (S.description store.old) self.old log →
            outbox.new.items ≡ outbox.old.items ++ frames_on self.old.answer (reply_on
            self.old.request (S.description store.old) (S.contents store.old) log frame.now) }
        ensures stands { (log : Log) → Stands (S.description store.old) self.old log →
            Stands (S.description store.old) self.new (log_on self.old.request
            (S.description store.old) (S.contents store.old) log frame.now) }
        ensures key { (log : Log) → Stands (S.description store.old) self.old log →
            result ≡ key_set (set_on self.old.request (S.description store.old) (S.contents
            store.old) log frame.now) }
        ensures contents { (log : Log) → Stands (S.description store.old) self.old log →
            S.contents store.new ≡ contents_with (S.contents store.old) (set_on self.old.request
            (S.description store.old) (S.contents store.old) log frame.now) }
        ensures description { S.description store.new ≡ S.description store.old }
        ensures same { self.new ≡ record self.old {
          left = self.new.left;
          room = self.new.room;
          current = self.new.current;
        } }
    {
        if frame.id() != self.request || frame.bytes().len() != 8 {
            return None;
        }
        store_laws(store);
        self.step(store, frame, outbox)
    }

    // Aborts the open transfer. Without one the abort has index 0 and sub-index 0.
    #[cold]
    #[inline(never)]
    pub(crate) fn give_up(&mut self, code: AbortCode, outbox: &mut Outbox)
        requires room { HasRoomFor 1 outbox.old }
        ensures few { array_vec_len outbox.new ≤ array_vec_len outbox.old + segments_per_sub_block }
        ensures one { array_vec_len outbox.new ≡ array_vec_len outbox.old + 1 }
        ensures answers { outbox.new.items ≡ outbox.old.items ++ frames_on self.old.answer
            (aborted (open_key self.old.current) code.0) }
        ensures channel { self.new ≡ record self.old { current = None } }
    {
        let key = match self.current {
            Some(ongoing) => ongoing.key,
            None => Key { index: 0, sub: 0 },
        };
        self.current = None;
        self.sender.refuse(key, code, outbox);
    }
}
