//! Expedited and segmented transfers.

ghost use Rattle.std.specs.Prelude.{◌≡◌, length};
ghost use Rattle.conode_explain_transfers.specs.Transfers.{after, taken_from, takes_data};
ghost use Rattle.conode_explain_transfers.specs.Initiates.{data_of};
ghost use Rattle.conode_explain_transfers.specs.SegmentedTurns.{
  download_done,
  download_segment,
  segment_done,
  upload_expedited,
  upload_initiated,
  upload_request,
  upload_segment,
  download_stage,
  upload_stage,
};

use crate::initiate::data_of;
use crate::kinds::{Protocol, What};
use crate::stage::Stage;
use crate::transfer::Transfer;
use arrayvec::ArrayVec;
use co_frame::ExpeditedData;
use co_value::Key;

// how far a download is once a segment is confirmed
fn download_stage(toggle: bool, last: bool) -> Stage
    ensures { result ≡ download_stage toggle last }
{
    if last {
        Stage::Confirmed { crc: None }
    } else {
        Stage::DownloadConfirmed { toggle: !toggle }
    }
}

// how far an upload is once a segment came
fn upload_stage(toggle: bool, last: bool) -> Stage
    ensures { result ≡ upload_stage toggle last }
{
    if last {
        Stage::Confirmed { crc: None }
    } else {
        Stage::UploadTaken { toggle: !toggle }
    }
}

impl Transfer {
    // All bytes that were sent are taken.
    fn take_all(&mut self)
        ensures { self.new ≡ taken_from self.old (length self.old.pending.items) }
    {
        let count = self.pending.len();
        self.take_pending(count);
    }

    // A segment is sent: it isn't confirmed yet.
    fn set_pending(&mut self, segment: &ArrayVec<u8, 7>)
        ensures { self.new ≡ record self.old { pending = record { items = segment.now.items } } }
    {
        self.pending.clear();
        self.pending
            .try_extend_from_slice(segment.as_slice())
            .unwrap();
    }

    /// The response to initiate SDO download, scs = 3.
    pub(crate) fn confirm_download(&mut self, key: Key) -> What
        ensures transfer { self.new ≡ after self.old (download_done self.old key) }
        ensures what { result ≡ (download_done self.old key).what }
    {
        if !self.stage.is_initiated() {
            return self.unexpected();
        }
        if !self.has_key(key) {
            return What::Overtaken;
        }
        if !self.is_download() {
            return self.unexpected();
        }
        match self.protocol {
            Protocol::Expedited => {
                self.take_all();
                self.stage = Stage::Confirmed { crc: None };
                What::Part
            }
            Protocol::Segmented => {
                self.stage = Stage::DownloadConfirmed { toggle: false };
                What::Part
            }
            _ => self.unexpected(),
        }
    }

    /// Download SDO segment, ccs = 0.
    pub(crate) fn send_segment(
        &mut self,
        toggle: bool,
        segment: &ArrayVec<u8, 7>,
        last: bool,
    ) -> What
        ensures transfer { self.new ≡ after self.old (download_segment self.old toggle segment.now last) }
        ensures what { result ≡ (download_segment self.old toggle segment.now last).what }
    {
        match self.stage {
            Stage::DownloadConfirmed { toggle: awaited } => {
                if toggle != awaited {
                    return self.repeated();
                }
            }
            Stage::DownloadSent {
                toggle: sent,
                last: _,
            } => {
                if toggle == sent {
                    return self.repeated();
                }
                self.irregular = true;
                self.take_all();
            }
            _ => return self.unexpected(),
        }
        self.set_pending(segment);
        self.stage = Stage::DownloadSent { toggle, last };
        What::Part
    }

    /// The response to download SDO segment, scs = 1.
    pub(crate) fn confirm_segment(&mut self, toggle: bool) -> What
        ensures transfer { self.new ≡ after self.old (segment_done self.old toggle) }
        ensures what { result ≡ (segment_done self.old toggle).what }
    {
        match self.stage {
            Stage::DownloadSent { toggle: sent, last } => {
                if toggle != sent {
                    return self.repeated();
                }
                self.take_all();
                self.stage = download_stage(sent, last);
                What::Part
            }
            Stage::DownloadConfirmed { toggle: awaited } => {
                if toggle != awaited {
                    return self.repeated();
                }
                self.irregular = true;
                self.stage = Stage::DownloadConfirmed { toggle: !awaited };
                What::Part
            }
            _ => self.unexpected(),
        }
    }

    /// The response to initiate SDO upload, scs = 2, e = 1.
    pub(crate) fn answer_expedited(&mut self, key: Key, value: &ExpeditedData) -> What
        ensures transfer { self.new ≡ after self.old (upload_expedited self.old key (data_of value.now)) }
        ensures what { result ≡ (upload_expedited self.old key (data_of value.now)).what }
    {
        if !self.stage.is_initiated() {
            return self.unexpected();
        }
        if !self.has_key(key) {
            return What::Overtaken;
        }
        if self.is_download() {
            return self.unexpected();
        }
        self.protocol = Protocol::Expedited;
        self.crc = false;
        self.take_bytes(data_of(value));
        self.stage = Stage::Confirmed { crc: None };
        What::Part
    }

    // The client has these bytes.
    fn take_bytes(&mut self, bytes: &[u8])
        ensures { self.new ≡ after self.old (takes_data self.old bytes.now) }
    {
        self.taken.add(bytes);
        self.pending.clear();
    }

    /// The response to initiate SDO upload, scs = 2, e = 0.
    pub(crate) fn answer_segmented(&mut self, key: Key, size: Option<u32>) -> What
        ensures transfer { self.new ≡ after self.old (upload_initiated self.old key size) }
        ensures what { result ≡ (upload_initiated self.old key size).what }
    {
        if !self.stage.is_initiated() {
            return self.unexpected();
        }
        if !self.has_key(key) {
            return What::Overtaken;
        }
        if self.is_download() {
            return self.unexpected();
        }
        self.protocol = Protocol::Segmented;
        self.crc = false;
        self.size = size;
        self.stage = Stage::UploadTaken { toggle: false };
        What::Part
    }

    /// Upload SDO segment, ccs = 3.
    pub(crate) fn ask_segment(&mut self, toggle: bool) -> What
        ensures transfer { self.new ≡ after self.old (upload_request self.old toggle) }
        ensures what { result ≡ (upload_request self.old toggle).what }
    {
        match self.stage {
            Stage::UploadTaken { toggle: awaited } => {
                if toggle != awaited {
                    return self.repeated();
                }
            }
            Stage::UploadAsked { toggle: asked } => {
                if toggle == asked {
                    return self.repeated();
                }
                self.irregular = true;
            }
            _ => return self.unexpected(),
        }
        self.stage = Stage::UploadAsked { toggle };
        What::Part
    }

    /// The response to upload SDO segment, scs = 0.
    pub(crate) fn answer_segment(
        &mut self,
        toggle: bool,
        segment: &ArrayVec<u8, 7>,
        last: bool,
    ) -> What
        ensures transfer { self.new ≡ after self.old (upload_segment self.old toggle segment.now last) }
        ensures what { result ≡ (upload_segment self.old toggle segment.now last).what }
    {
        match self.stage {
            Stage::UploadAsked { toggle: asked } => {
                if toggle != asked {
                    return self.repeated();
                }
            }
            Stage::UploadTaken { toggle: awaited } => {
                if toggle != awaited {
                    return self.repeated();
                }
                self.irregular = true;
            }
            _ => return self.unexpected(),
        }
        self.take_bytes(segment.as_slice());
        self.stage = upload_stage(toggle, last);
        What::Part
    }
}
