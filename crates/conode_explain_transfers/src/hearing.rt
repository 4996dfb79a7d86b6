//! What is heard on a channel of a recording.

ghost use Rattle.std.specs.Prelude.{◌≡◌, ◌∷◌, ◌&&◌, List, Some};
ghost use Rattle.co_frame.specs.SdoResponses.{response_in};
ghost use Rattle.conode_explain_transfers.specs.Doubtful.{noted};
ghost use Rattle.conode_explain_transfers.specs.Followed.{Event, Framed};
ghost use Rattle.conode_explain_transfers.specs.HeardData.{heard_after, heard_of};
ghost use Rattle.conode_explain_transfers.specs.Hearings.{
  answers_another,
  answers_this,
  aside,
  awaits_answer,
  awaits_first,
  awaits_last_acknowledge,
  begins_as_end,
  begins_any,
  begins_as_last,
  cut,
  earlier,
  earlier_abort,
  has_last,
  has_segments_left,
  heard_next,
  hearing,
  hearing_in,
  is_after_last,
  is_block_initiated,
  is_block_upload,
  is_last_again,
  is_low_last,
  is_low_segment,
  is_over,
  is_silent,
  is_within_sub_block,
  lacks_acknowledge,
  lacks_start,
  last_again,
  leaves_after_last,
  left_awaiting,
  made_up,
  may_have_request,
  may_mean_this,
  named,
  overtaken_if,
  passed,
  sure_end,
  sure_ending,
  with_aside,
  with_missing,
};
ghost use Rattle.conode_explain_transfers.specs.Readings.{is_in_sub_block, plain_reading};
ghost use Rattle.conode_explain_transfers.specs.Transfers.{is_download};

use crate::block::MOST_SEGMENTS;
use crate::channel::{Channel, Heard};
use crate::doubtful::names_other;
use crate::ended::{Ended, Ending};
use crate::kinds::{Side, What};
use crate::reading::{Reading, answers_key, plain_reading};
use crate::stage::Stage;
use crate::transfer::Transfer;
use crate::unanswered::{ABORT, byte_at, is_client, multiplexer_of, number_of};
use co_frame::{Frame, SdoResponse};
use co_value::Key;

/// For how long the next segment of an upload is due after the newest frame, in microseconds.
const SEGMENT_TIME: u64 = 50_000;

/// No segment with a number below it begins as an initiate request does, or as a response to one.
const FIRST_SERVICE: u8 = 32;

// Whether it begins as a segment of a sub-block with a number of 1 to 31 does.
fn is_low_segment(frame: &Frame) -> bool
    ensures { result ≡ is_low_segment frame.now.bytes }
{
    let number = number_of(frame);
    frame.bytes().len() == 8 && (0 < number && number < FIRST_SERVICE)
}

// Whether the last segment, the one before this number, begins as a request for a block transfer does.
fn begins_as_last(next: u8) -> bool
    ensures { result ≡ begins_as_last next }
{
    let is_upload = 32 < next && next < 64 && next % 4 == 1;
    let is_download = 64 < next && next <= 96 && next % 2 == 1;
    is_upload || is_download
}

/// Whether it begins as the last one of its transfer does.
pub(crate) fn is_low_last(frame: &Frame) -> bool
    ensures { result ≡ is_low_last frame.now.bytes }
{
    is_low_segment(frame) && ABORT < byte_at(frame.bytes(), 0)
}

fn overtaken_if(earlier: bool) -> Option<What>
    ensures { result ≡ overtaken_if earlier }
{
    if earlier { Some(What::Overtaken) } else { None }
}

// Whether a frame is an initiate request, where it isn't a segment.
fn begins_any(side: Side, frame: &Frame) -> bool
    ensures { result ≡ begins_any (plain_reading side frame.now.bytes) }
{
    match plain_reading(side, frame) {
        Reading::Begin(_) => true,
        _ => false,
    }
}

// Whether a frame may be the end of a block transfer, by its first byte.
fn begins_as_end(byte: u8) -> bool
    ensures { result ≡ begins_as_end byte }
{
    byte / 32 == 6 && byte % 4 == 1
}

// What a frame is named that isn't expected, if it is the last segment again.
fn named(again: Option<What>, what: What) -> What
    ensures { result ≡ named again what }
{
    match (again, what) {
        (Some(again), What::Unexpected) => again,
        _ => what,
    }
}

// How a transfer ends that is left.
fn left_awaiting(awaits: bool) -> Ending
    ensures { result ≡ left_awaiting awaits }
{
    if awaits {
        Ending::Unanswered
    } else {
        Ending::Interrupted
    }
}

fn sure_ending(awaits: Option<bool>, ending: Ending) -> Ending
    ensures { result ≡ sure_ending awaits ending }
{
    match (awaits, ending) {
        (Some(awaits), Ending::Unanswered | Ending::Repeated | Ending::Interrupted) => {
            left_awaiting(awaits)
        }
        _ => ending,
    }
}

fn sure_end(awaits: Option<bool>, ended: Option<Ended>) -> Option<Ended>
    ensures { result ≡ sure_end awaits ended }
{
    match ended {
        Some(ended) => {
            let ending = sure_ending(awaits, ended.ending);
            Some(Ended { ending, ..ended })
        }
        None => None,
    }
}

impl Stage {
    // Whether the start of a block upload is awaited.
    fn is_block_initiated(self) -> bool
        ensures { result ≡ is_block_initiated self }
    {
        match self {
            Stage::BlockInitiated => true,
            _ => false,
        }
    }

    // Whether the last segment came, and its acknowledge is awaited.
    fn is_after_last(self) -> bool
        ensures { result ≡ is_after_last self }
    {
        match self {
            Stage::SubBlock { last } => last,
            _ => false,
        }
    }

    // Whether the last segment came, and the end didn't.
    fn has_last(self) -> bool
        ensures { result ≡ has_last self }
    {
        match self {
            Stage::SubBlock { last } => last,
            Stage::AllAcknowledged => true,
            _ => false,
        }
    }

    // Whether segments of a sub-block are awaited.
    fn is_within_sub_block(self) -> bool
        ensures { result ≡ is_within_sub_block self }
    {
        match self {
            Stage::SubBlock { last } => !last,
            _ => false,
        }
    }
}

impl Transfer {
    // Whether the response to initiate is awaited, and nothing came since the request.
    fn awaits_first(&self) -> bool
        ensures { result ≡ awaits_first self.now }
    {
        self.stage.is_initiated() && !(self.irregular || self.went_on)
    }

    /// Whether it is an upload in blocks.
    pub(crate) fn is_block_upload(&self) -> bool
        ensures { result ≡ is_block_upload self.now }
    {
        self.is_block() && !self.is_download()
    }

    // What a frame is that reads as an abort of another entry.
    fn earlier_abort(&self, frame: &Frame) -> Option<What>
        ensures { result ≡ earlier_abort self.now frame.now.bytes }
    {
        if byte_at(frame.bytes(), 0) == ABORT {
            return Some(What::Overtaken);
        }
        if self.is_block_upload() {
            None
        } else {
            Some(What::Segment {
                number: number_of(frame),
            })
        }
    }

    // Whether a response that a frame has answers its initiate request.
    fn answers_this(&self, response: &SdoResponse, frame: &Frame) -> bool
        ensures { result ≡ answers_this self.now response.now frame.now.bytes }
    {
        self.asks_for(response) && self.has_key(multiplexer_of(frame.bytes()))
    }

    // What a response is that can't answer its initiate request, and so answers an earlier one.
    fn earlier(&self, response: &Option<SdoResponse>, frame: &Frame) -> Option<What>
        ensures { result ≡ earlier self.now response.now frame.now.bytes }
    {
        match response {
            None => None,
            Some(SdoResponse::Abort { key: _, code: _ }) => {
                if names_other(multiplexer_of(frame.bytes()), self.key) {
                    self.earlier_abort(frame)
                } else {
                    None
                }
            }
            Some(
                SdoResponse::UploadSegment {
                    toggle: _,
                    data: _,
                    last: _,
                },
            ) => overtaken_if(!self.is_block_upload()),
            Some(response) => overtaken_if(!self.answers_this(response, frame)),
        }
    }

    // Whether it is in a sub-block of a download.
    fn is_within_download(&self) -> bool
        ensures { result ≡ (is_in_sub_block self.now.stage && is_download self.now.direction) }
    {
        match self.stage {
            Stage::SubBlock { last: _ } => self.is_download(),
            _ => false,
        }
    }

    // Whether a segment of its sub-block may be an initiate request.
    fn may_have_request(&self) -> bool
        ensures { result ≡ may_have_request self.now }
    {
        FIRST_SERVICE < self.next_number
            && (!self.awaits_last_acknowledge() || begins_as_last(self.next_number))
    }

    // Whether a frame of the server answers another initiate request than that of this block
    // download.
    fn answers_another(&self, frame: &Frame) -> bool
        ensures { result ≡ answers_another self.now.key (response_in frame.now.bytes) }
    {
        match SdoResponse::read(frame) {
            None => false,
            Some(SdoResponse::BlockDownloadInitiated { key, block_size: _ }) => !self.has_key(key),
            Some(response) => answers_key(&response),
        }
    }

    // Whether the client's start of a block upload is missing in the recording.
    fn lacks_start(&self, side: Side, frame: &Frame) -> bool
        ensures { result ≡ lacks_start self.now side frame.now.bytes }
    {
        (self.stage.is_block_initiated() && self.is_sender(side))
            && (is_low_segment(frame) && !self.refuses_with(side, frame))
    }

    // Whether the acknowledge of a sub-block is, with a larger size for the next one.
    fn lacks_acknowledge(&self, side: Side, frame: &Frame) -> bool
        ensures { result ≡ lacks_acknowledge self.now side frame.now.bytes }
    {
        let number = number_of(frame);
        (self.irregular && (self.stage.is_within_sub_block() && self.is_sender(side)))
            && (is_low_segment(frame) && (self.block_size < number && number == self.next_number))
    }

    // Whether none of its segments is missing, and the last one came.
    fn awaits_last_acknowledge(&self) -> bool
        ensures { result ≡ awaits_last_acknowledge self.now }
    {
        !self.irregular && self.stage.is_after_last()
    }

    // Whether the client begins another transfer after the last segment.
    fn leaves_after_last(&self, side: Side, frame: &Frame) -> bool
        ensures { result ≡ leaves_after_last self.now side frame.now.bytes }
    {
        (self.awaits_last_acknowledge() && self.is_sender(side)) && begins_any(side, frame)
    }

    // Whether the end that sends the data has segments of the sub-block left to send, as far as none
    // is missing.
    fn has_segments_left(&self) -> bool
        ensures { result ≡ has_segments_left self.now }
    {
        self.stage.is_within_sub_block()
            && (self.next_number <= self.block_size && self.awaited_number() == self.next_number)
    }

    // Whether it is an upload, and no frame came for so long that a segment isn't just due.
    fn is_silent(&self, micros: u64) -> bool
        ensures { result ≡ is_silent micros self.now }
    {
        !self.is_download() && micros.saturating_sub(self.newest) >= SEGMENT_TIME
    }

    // Whether a client that leaves it awaited an answer, where the end that sent the newest frame
    // doesn't show it: frames of it are missing, segments are left to send, or the server sent an
    // abort of another entry.
    fn awaits_answer(&self, micros: u64) -> Option<bool>
        ensures { result ≡ awaits_answer micros (Some self.now) }
    {
        if self.irregular {
            return Some(false);
        }
        if self.has_segments_left() {
            return Some(self.is_silent(micros));
        }
        if is_client(self.by) {
            None
        } else {
            Some(false)
        }
    }

    // Whether its last segment comes again.
    fn is_last_again(&self, side: Side, frame: &Frame) -> bool
        ensures { result ≡ is_last_again self.now side frame.now.bytes }
    {
        let bytes = frame.bytes();
        (self.stage.has_last() && self.is_sender(side))
            && ((bytes.len() == 8 && !begins_as_end(byte_at(bytes, 0)))
                && (ABORT < byte_at(bytes, 0)
                    && number_of(frame) as u16 + 1 == self.next_number as u16))
    }

    // Whether a frame of the server that is put aside may be meant for its request.
    fn may_mean_this(&self, frame: &Frame) -> bool
        ensures { result ≡ may_mean_this frame.now.bytes self.now }
    {
        byte_at(frame.bytes(), 0) == ABORT || self.has_key(multiplexer_of(frame.bytes()))
    }

    // Notes that the server sent a frame which isn't of this transfer.
    fn note_aside(&mut self, frame: &Frame)
        ensures { self.new ≡ with_aside frame.now.bytes self.old }
    {
        self.put_aside = true;
        if self.may_mean_this(frame) {
            self.by = Side::Server;
        }
    }

    // Goes on where a frame before this one is missing in the recording, or none more is a segment.
    fn make_up(&mut self, side: Side, frame: &Frame)
        ensures { self.new ≡ with_missing side frame.now.bytes self.old }
    {
        if self.lacks_start(side, frame) {
            self.irregular = true;
            self.stage = Stage::SubBlock { last: false };
        } else if self.lacks_acknowledge(side, frame) {
            self.block_size = MOST_SEGMENTS;
        } else if self.leaves_after_last(side, frame) {
            self.stage = Stage::AllAcknowledged;
        }
    }
}

impl Channel {
    // What a frame is that is of no transfer which is followed.
    fn aside(&self, side: Side, frame: &Frame) -> Option<What>
        ensures { result ≡ aside self.now.transfer side frame.now.bytes }
    {
        match (&self.transfer, side) {
            (None, _) => {
                if is_low_last(frame) {
                    Some(What::Segment {
                        number: number_of(frame),
                    })
                } else {
                    None
                }
            }
            (Some(_), Side::Client) => None,
            (Some(transfer), Side::Server) => {
                if transfer.awaits_first() {
                    transfer.earlier(&SdoResponse::read(frame), frame)
                } else {
                    None
                }
            }
        }
    }

    // Goes on where a frame before this one is missing in the recording.
    fn make_up(&mut self, side: Side, frame: &Frame)
        ensures { self.new ≡ record self.old { transfer = made_up self.old.transfer side frame.now.bytes } }
    {
        if let Some(transfer) = &mut self.transfer {
            transfer.make_up(side, frame);
        }
    }

    // Whether a client that leaves the open transfer awaited an answer, where the end that sent the
    // newest frame doesn't show it.
    fn awaits_answer(&self, micros: u64) -> Option<bool>
        ensures { result ≡ awaits_answer micros self.now.transfer }
    {
        match &self.transfer {
            Some(transfer) => transfer.awaits_answer(micros),
            None => None,
        }
    }

    // What the last segment of a transfer is, where it comes again.
    fn last_again(&self, side: Side, frame: &Frame) -> Option<What>
        ensures { result ≡ last_again self.now.transfer side frame.now.bytes }
    {
        match &self.transfer {
            Some(transfer) if transfer.is_last_again(side, frame) => Some(What::LastAgain {
                number: number_of(frame),
            }),
            _ => None,
        }
    }

    /// Whether the server answers another request within a sub-block of a download, which may be
    /// one of its segments: the client has left that.
    pub(crate) fn is_over(&self, side: Side, frame: &Frame) -> bool
        ensures { result ≡ is_over self.now.transfer side frame.now.bytes }
    {
        match (&self.transfer, side) {
            (Some(transfer), Side::Server) => {
                (transfer.is_within_download() && transfer.may_have_request())
                    && transfer.answers_another(frame)
            }
            _ => false,
        }
    }

    // The transfer is left; of the one that is answered the request isn't known.
    fn cut(&mut self, micros: u64) -> Heard
        ensures says { result ≡ (cut self.old micros).says }
        ensures next { self.new ≡ (cut self.old micros).next }
    {
        let ended = self.close(micros, Ending::Interrupted);
        Heard {
            what: What::Unexpected,
            of: None,
            ended,
        }
    }

    // A frame that isn't of the open transfer.
    fn pass(&mut self, what: What, frame: &Frame) -> Heard
        ensures says { result ≡ (passed self.old what frame.now.bytes).says }
        ensures next { self.new ≡ (passed self.old what frame.now.bytes).next }
    {
        if let Some(transfer) = &mut self.transfer {
            transfer.note_aside(frame);
        }
        Heard {
            what,
            of: None,
            ended: None,
        }
    }

    // Keeps the client's newest frame, where it may be a request.
    fn note(&mut self, side: Side, what: What, micros: u64, frame: &Frame)
        ensures { self.new ≡ record self.old
            { transfer = noted side what micros frame.now.bytes self.old.transfer } }
    {
        if let Some(transfer) = &mut self.transfer {
            transfer.note_newest(side, what, micros, frame);
        }
    }

    // A frame that the channel takes.
    fn hear_next(&mut self, micros: u64, side: Side, frame: &Frame) -> Heard
        ensures says { result ≡ (heard_next self.old micros side frame.now.bytes).says }
        ensures next { self.new ≡ (heard_next self.old micros side frame.now.bytes).next }
    {
        let awaits = self.awaits_answer(micros);
        let again = self.last_again(side, frame);
        self.make_up(side, frame);
        let heard = self.take(micros, side, frame);
        self.note(side, heard.what, micros, frame);
        Heard {
            what: named(again, heard.what),
            of: heard.of,
            ended: sure_end(awaits, heard.ended),
        }
    }

    // A frame of the open transfer, or of another one.
    fn hear_in(&mut self, micros: u64, side: Side, frame: &Frame) -> Heard
        ensures heard { result ≡ (hearing_in self.old micros side frame.now.bytes).says }
        ensures next { self.new ≡ (hearing_in self.old micros side frame.now.bytes).next }
    {
        if self.is_over(side, frame) {
            return self.cut(micros);
        }
        if let Some(what) = self.late_segment(side, frame) {
            return self.hear_late(what, micros, side, frame);
        }
        if let Some(what) = self.aside(side, frame) {
            return self.pass(what, frame);
        }
        self.hear_next(micros, side, frame)
    }

    /// Hears a frame of a recording as `take` does, but for this: an answer to an earlier request
    /// is `Overtaken`, and after one no request is a segment; one to a request that was taken for a
    /// segment of a block download is of the transfer that this request begins, or ends the
    /// download where the request isn't known; where no transfer is open, 81h to 9Fh is a segment;
    /// of a transfer that lacks the start of a block upload, or an acknowledge with a larger block
    /// size, the segments are followed; none of which frames are missing, or an abort was put
    /// aside, is `Unanswered` or `Repeated`; where segments of a sub-block are left, a download
    /// that the client leaves is `Interrupted`, and an upload `Unanswered` only where no frame came
    /// for 50 ms; and the last segment of a sub-block that comes again is `LastAgain`, also after
    /// its acknowledge. What the frame reveals of a transfer that was left has to be asked for
    /// before (`reveals`).
    pub fn hear(&mut self, micros: u64, side: Side, frame: &Frame) -> Heard
        ensures heard { result ≡ (hearing self.old micros side frame.now.bytes).says }
        ensures next { self.new ≡ (hearing self.old micros side frame.now.bytes).next }
        // Holds after every log of the recording.
        ensures said { (log : List Event) → self.old ≡ heard_after log →
            result ≡ heard_of log micros side frame.now.bytes }
        ensures stands { (log : List Event) → self.old ≡ heard_after log →
            self.new ≡ heard_after (Framed micros side frame.now.bytes ∷ log) }
    {
        self.free(side, frame);
        self.hear_in(micros, side, frame)
    }
}
