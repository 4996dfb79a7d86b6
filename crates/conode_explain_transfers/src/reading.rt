//! What a frame is read as, by what came before it.

ghost use Rattle.std.specs.Prelude.{◌≡◌, length};
ghost use Rattle.co_frame.specs.SdoParts.{code_in};
ghost use Rattle.conode_explain_transfers.specs.Readings.{
  plain_reading,
  sub_block_reading,
  is_sender,
  may_have_segment,
  awaits_segment,
  reading_of,
  answers_key,
  has_key,
  IsReading,
};

use crate::initiate::Initiate;
use crate::kinds::{Direction, Side};
use crate::stage::Stage;
use crate::transfer::Transfer;
use co_frame::{AbortCode, BlockSegment, Frame, SdoRequest, SdoResponse};
use co_value::read_u32;

/// What a frame is read as.
#[derive(Drop)]
pub(crate) enum Reading {
    /// A segment of a sub-block.
    Segment(BlockSegment),
    /// An initiate request.
    Begin(Initiate),
    /// An abort.
    Abort(AbortCode),
    /// Another request.
    Request(SdoRequest),
    /// A response.
    Response(SdoResponse),
    /// None of these.
    Nothing,
}

fn request_reading(frame: &Frame) -> Reading
    ensures reading { result ≡ plain_reading Side.Client frame.now.bytes }
    ensures spellable { IsReading result }
{
    match SdoRequest::read(frame) {
        None => Reading::Nothing,
        Some(SdoRequest::Abort { key: _, code }) => Reading::Abort(code),
        Some(request) => match Initiate::by(&request, frame) {
            Some(initiate) => Reading::Begin(initiate),
            None => Reading::Request(request),
        },
    }
}

fn response_reading(frame: &Frame) -> Reading
    ensures reading { result ≡ plain_reading Side.Server frame.now.bytes }
    ensures spellable { IsReading result }
{
    match SdoResponse::read(frame) {
        None => Reading::Nothing,
        Some(SdoResponse::Abort { key: _, code }) => Reading::Abort(code),
        Some(response) => Reading::Response(response),
    }
}

/// What an end's frame is read as outside a sub-block.
pub(crate) fn plain_reading(side: Side, frame: &Frame) -> Reading
    ensures reading { result ≡ plain_reading side frame.now.bytes }
    ensures spellable { IsReading result }
{
    match side {
        Side::Client => request_reading(frame),
        Side::Server => response_reading(frame),
    }
}

// the code of an abort
fn abort_code(frame: &Frame) -> AbortCode
    requires { length frame.now.bytes ≡ 8 }
    ensures { result ≡ code_in frame.now.bytes }
{
    AbortCode(read_u32(&frame.bytes()[4..]))
}

fn sub_block_reading(block_size: u8, side: Side, frame: &Frame) -> Reading
    ensures reading { result ≡ sub_block_reading block_size side frame.now.bytes }
    ensures spellable { IsReading result }
{
    if frame.is_abort_in_sub_block() {
        return Reading::Abort(abort_code(frame));
    }
    match BlockSegment::read(frame) {
        Some(segment) if segment.sequence <= block_size => Reading::Segment(segment),
        _ => match plain_reading(side, frame) {
            Reading::Begin(initiate) => Reading::Begin(initiate),
            _ => Reading::Nothing,
        },
    }
}

impl Reading {
    /// Whether the frame has a key of its own: an initiate request or its response, or an abort.
    pub(crate) fn has_key(&self) -> bool
        ensures { result ≡ has_key self.now }
    {
        match self {
            Reading::Begin(_) | Reading::Abort(_) => true,
            Reading::Response(response) => answers_key(response),
            _ => false,
        }
    }
}

/// Whether a response is one to initiate, which has a key.
pub(crate) fn answers_key(response: &SdoResponse) -> bool
    ensures { result ≡ answers_key response.now }
{
    match response {
        SdoResponse::DownloadDone { key: _ }
        | SdoResponse::UploadExpedited { key: _, data: _ }
        | SdoResponse::UploadInitiated { key: _, size: _ }
        | SdoResponse::BlockDownloadInitiated {
            key: _,
            block_size: _,
        }
        | SdoResponse::BlockUploadInitiated { key: _, size: _ } => true,
        _ => false,
    }
}

impl Transfer {
    /// Whether this end sends the data.
    pub(crate) fn is_sender(&self, side: Side) -> bool
        ensures { result ≡ is_sender self.now.direction side }
    {
        match (self.direction, side) {
            (Direction::Download, Side::Client) | (Direction::Upload, Side::Server) => true,
            (Direction::Download, Side::Server) | (Direction::Upload, Side::Client) => false,
        }
    }

    // Whether a segment of a sub-block may come: inside a sub-block, and after the initiate request
    // of a block download, of which the answer is missing in the recording.
    fn may_have_segment(&self) -> bool
        ensures { result ≡ may_have_segment self.now.stage self.now.direction self.now.protocol }
    {
        match self.stage {
            Stage::SubBlock { last: _ } => true,
            Stage::Initiated => self.is_download() && self.is_block(),
            _ => false,
        }
    }

    fn awaits_segment(&self, side: Side) -> bool
        ensures { result ≡ awaits_segment self.now side }
    {
        self.may_have_segment() && self.is_sender(side)
    }
}

/// What an end's frame is read as, by the open transfer.
pub(crate) fn reading_of(current: &Option<Transfer>, side: Side, frame: &Frame) -> Reading
    ensures reading { result ≡ reading_of current.now side frame.now.bytes }
    ensures spellable { IsReading result }
{
    match current {
        Some(transfer) if transfer.awaits_segment(side) => sub_block_reading(
            transfer.block_size,
            side,
            frame,
        ),
        _ => plain_reading(side, frame),
    }
}
