//! SDO upload, expedited and segmented (CiA 301, 7.2.4.3.6 and 7.2.4.3.7).

ghost use Rattle.std.specs.Prelude.{◌≡◌, ◌+◌, ◌*◌, ◌<◌, ◌≤◌, ◌++◌, Some, None, length};
ghost use Rattle.arrayvec.specs.ArrayVec.{array_vec_len};
ghost use Rattle.co_value.specs.declared.key.Key.{Key};
ghost use Rattle.co_frame.specs.SegmentSizes.{segments_per_sub_block, bytes_per_segment};
ghost use Rattle.co_frame.specs.Outboxes.{HasRoomFor};
ghost use Rattle.co_frame.specs.declared.sdo_request.SdoRequest.TheVariants.{Upload};
ghost use Rattle.co_sdo.specs.Log.{frames_on};
ghost use Rattle.co_sdo.specs.Refused.{capacity_at};
ghost use Rattle.co_sdo.specs.Uploads.{part_after};
ghost use Rattle.co_sdo.specs.Replies.{on_open, upload_answers, initiate_answers};
ghost use Rattle.co_sdo.specs.Steps.{next_on, after_upload_segment, after_initiate};

use crate::channel::Channel;
use crate::refusals::readable_value;
use crate::stage::{Ongoing, Stage};
use co_dict::ObjectStore;
use co_frame::{AbortCode, ExpeditedData, Outbox, SdoResponse};
use co_sdo_segments::{expedited_data, is_last_after, part_after, segment_data};
use co_value::Key;

impl Channel {
    // Initiate SDO upload, ccs = 2.
    #[inline(never)]
    pub(crate) fn initiate_upload<S: ObjectStore>(
        &mut self,
        store: &S,
        key: Key,
        outbox: &mut Outbox,
    )
        requires room { HasRoomFor 1 outbox.old }
        requires greatest { (key : Key) → capacity_at (S.description store.now).rows key ≤
            self.old.greatest }
        ensures few { array_vec_len outbox.new ≤ array_vec_len outbox.old + segments_per_sub_block }
        ensures answers { outbox.new.items ≡ outbox.old.items ++ frames_on self.old.answer
            (initiate_answers (S.description store.now) (S.contents store.now) (Upload key)) }
        ensures channel { self.new ≡ record self.old {
          current = after_initiate (S.description
              store.now) (S.contents store.now) (Upload key);
        } }
    {
        self.current = None;
        let value = match readable_value(store, key) {
            Ok(value) => value,
            Err(code) => {
                self.sender.refuse(key, code, outbox);
                return;
            }
        };
        if 1 <= value.len() && value.len() <= 4 {
            let data = ExpeditedData::Indicated(expedited_data(value));
            self.sender
                .send(SdoResponse::UploadExpedited { key, data }, outbox);
            return;
        }
        self.buffer.fill(value);
        self.current = Some(Ongoing {
            key,
            stage: Stage::Upload { sent: 0 },
        });
        let size = Some(value.len() as u32);
        self.sender
            .send(SdoResponse::UploadInitiated { key, size }, outbox);
    }

    // The request of a segment: upload SDO segment, ccs = 3.
    pub(crate) fn take_upload_segment(&mut self, toggle: bool, outbox: &mut Outbox)
        requires room { HasRoomFor 1 outbox.old }
        ensures few { array_vec_len outbox.new ≤ array_vec_len outbox.old + segments_per_sub_block }
        ensures answers { outbox.new.items ≡ outbox.old.items ++ frames_on self.old.answer
            (on_open self.old.current (λ o stage. upload_answers o stage toggle)) }
        ensures channel { self.new ≡ record self.old {
          current = next_on self.old.current (λ o
              stage. after_upload_segment o stage toggle);
        } }
    {
        let Some(
            Ongoing {
                key,
                stage: Stage::Upload { sent },
            },
        ) = self.current
        else {
            self.give_up(AbortCode::UNKNOWN_COMMAND, outbox);
            return;
        };
        if toggle != (sent % 2 == 1) {
            self.give_up(AbortCode::TOGGLE_NOT_ALTERNATED, outbox);
            return;
        }
        let value = self.buffer.as_slice();
        let data = segment_data(part_after(value, sent as usize));
        let last = is_last_after(value, sent as usize);
        if last {
            self.current = None;
        } else {
            self.current = Some(Ongoing {
                key,
                stage: Stage::Upload { sent: sent + 1 },
            });
        }
        self.sender
            .send(SdoResponse::UploadSegment { toggle, data, last }, outbox);
    }
}
