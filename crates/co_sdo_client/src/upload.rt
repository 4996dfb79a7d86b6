//! SDO upload, expedited and segmented (CiA 301, 7.2.4.3.6 and 7.2.4.3.7).

ghost use Rattle.std.specs.Prelude.{◌≡◌, ◌+◌, ◌<◌, ◌≤◌, ◌++◌, [], None, Some, if◌then◌else◌, nat_lt, not};
ghost use Rattle.co_value.specs.Keys.{same_key};
ghost use Rattle.co_frame_aborts.specs.AbortCodes.{out_of_memory, unknown_command};
ghost use Rattle.arrayvec.specs.ArrayVec.{array_vec_len};
ghost use Rattle.co_frame.specs.SegmentSizes.{segments_per_sub_block};
ghost use Rattle.co_frame.specs.Outboxes.{HasRoomFor};
ghost use Rattle.co_frame.specs.declared.sdo_response.SdoResponse.TheVariants.{
  UploadExpedited,
  UploadInitiated,
  UploadSegment,
};
ghost use Rattle.co_sdo_client.specs.Calls.{frames_on};
ghost use Rattle.co_sdo_client.specs.Segments.{cap_of};
ghost use Rattle.co_sdo_client.specs.Verdicts.{expedited_value, is_above_size, is_below_size};
ghost use Rattle.co_sdo_client.specs.Steps.{messages_to, after_response};

use crate::client::Client;
use crate::direction::Direction;
use crate::stage::Stage;
use crate::state::ClientState;
use crate::transfer::Transfer;
use arrayvec::ArrayVec;
use co_frame::{AbortCode, ExpeditedData, Outbox, SdoRequest};
use co_value::Key;

// The data of an expedited upload.
fn expedited_value(value: &ExpeditedData) -> &[u8]
    ensures value { result.now ≡ expedited_value value.now }
{
    match value {
        ExpeditedData::Indicated(counted) => counted.as_slice(),
        ExpeditedData::NotIndicated(four) => four,
    }
}

// Whether there are more bytes than were indicated.
pub(crate) fn is_above_size(indicated: Option<u32>, total: usize) -> bool
    ensures { result ≡ is_above_size indicated total }
{
    match indicated {
        Some(size) => (size as usize) < total,
        None => false,
    }
}

// Whether there are fewer bytes than were indicated.
pub(crate) fn is_below_size(indicated: Option<u32>, total: usize) -> bool
    ensures { result ≡ is_below_size indicated total }
{
    match indicated {
        Some(size) => total < size as usize,
        None => false,
    }
}

impl<'a> Client<'a> {
    // The most bytes that an upload may have.
    pub(crate) fn cap(&self) -> usize
        ensures { result ≡ cap_of self.now.call.job }
    {
        match self.direction {
            Direction::Download { tell_size: _ } => 0,
            Direction::Upload { cap } => usize::from(cap),
        }
    }

    // Why the client aborts an upload of this key and size: another key than its own (command
    // specifier not valid), or more than `cap` bytes (out of memory).
    pub(crate) fn upload_fault(&self, key: Key, size: usize) -> Option<AbortCode>
        ensures { result ≡ if not (same_key key self.now.call.key) then Some (record { 0 = unknown_command })
            else if nat_lt (cap_of self.now.call.job) size then Some (record { 0 = out_of_memory }) else None }
    {
        if !self.has_key(key) {
            return Some(AbortCode::UNKNOWN_COMMAND);
        }
        if self.cap() < size {
            return Some(AbortCode::OUT_OF_MEMORY);
        }
        None
    }

    // An expedited upload: initiate SDO upload, scs = 2, e = 1.
    pub(crate) fn take_expedited(&mut self, key: Key, value: &ExpeditedData, outbox: &mut Outbox)
        requires room { HasRoomFor 1 outbox.old }
        ensures few { array_vec_len outbox.new ≤ array_vec_len outbox.old + segments_per_sub_block }
        ensures messages { outbox.new.items ≡ outbox.old.items ++ frames_on self.old.request
            (messages_to self.old (Some (UploadExpedited key value.now))) }
        ensures client { self.new ≡ after_response self.old (Some (UploadExpedited key value.now)) }
    {
        let Stage::Begun = self.stage else {
            self.give_up(AbortCode::UNKNOWN_COMMAND, outbox);
            return;
        };
        let Transfer::SegmentedUpload = self.transfer() else {
            self.give_up(AbortCode::UNKNOWN_COMMAND, outbox);
            return;
        };
        let bytes = expedited_value(value);
        if let Some(fault) = self.upload_fault(key, bytes.len()) {
            self.give_up(fault, outbox);
            return;
        }
        self.buffer.fill(bytes);
        self.state = ClientState::Done;
    }

    // The confirmation of initiate SDO upload, scs = 2, e = 0.
    pub(crate) fn confirm_upload(&mut self, key: Key, size: Option<u32>, outbox: &mut Outbox)
        requires room { HasRoomFor 1 outbox.old }
        ensures few { array_vec_len outbox.new ≤ array_vec_len outbox.old + segments_per_sub_block }
        ensures messages { outbox.new.items ≡ outbox.old.items ++ frames_on self.old.request
            (messages_to self.old (Some (UploadInitiated key size))) }
        ensures client { self.new ≡ after_response self.old (Some (UploadInitiated key size)) }
    {
        let Stage::Begun = self.stage else {
            self.give_up(AbortCode::UNKNOWN_COMMAND, outbox);
            return;
        };
        let Transfer::SegmentedUpload = self.transfer() else {
            self.give_up(AbortCode::UNKNOWN_COMMAND, outbox);
            return;
        };
        if let Some(fault) = self.upload_fault(key, size.unwrap_or(0) as usize) {
            self.give_up(fault, outbox);
            return;
        }
        self.buffer.fill(&[]);
        self.stage = Stage::Upload {
            indicated: size,
            toggle: false,
        };
        self.send(SdoRequest::UploadSegment { toggle: false }, outbox);
    }

    // A segment: upload SDO segment, scs = 0.
    pub(crate) fn take_segment(
        &mut self,
        toggle: bool,
        segment: &ArrayVec<u8, 7>,
        last: bool,
        outbox: &mut Outbox,
    )
        requires room { HasRoomFor 1 outbox.old }
        ensures few { array_vec_len outbox.new ≤ array_vec_len outbox.old + segments_per_sub_block }
        ensures messages { outbox.new.items ≡ outbox.old.items ++ frames_on self.old.request
            (messages_to self.old (Some (UploadSegment toggle segment.now last))) }
        ensures client { self.new ≡ after_response self.old (Some (UploadSegment toggle segment.now
            last)) }
    {
        let Stage::Upload {
            indicated,
            toggle: expected,
        } = self.stage
        else {
            self.give_up(AbortCode::UNKNOWN_COMMAND, outbox);
            return;
        };
        if toggle != expected {
            self.give_up(AbortCode::TOGGLE_NOT_ALTERNATED, outbox);
            return;
        }
        let total = self.buffer.len() + segment.len();
        if self.cap() < total {
            self.give_up(AbortCode::OUT_OF_MEMORY, outbox);
            return;
        }
        if last {
            if is_above_size(indicated, total) {
                self.give_up(AbortCode::TOO_LONG, outbox);
                return;
            }
            if is_below_size(indicated, total) {
                self.give_up(AbortCode::TOO_SHORT, outbox);
                return;
            }
            self.buffer.append(segment.as_slice());
            self.state = ClientState::Done;
            return;
        }
        self.buffer.append(segment.as_slice());
        self.stage = Stage::Upload {
            indicated,
            toggle: !expected,
        };
        let toggle = !expected;
        self.send(SdoRequest::UploadSegment { toggle }, outbox);
    }
}
