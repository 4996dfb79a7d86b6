//! What `explain` says in words of its own, where `decode` says it otherwise: SDO frames with a
//! size, and NMT commands to all nodes.

ghost use Rattle.std.specs.Prelude.{◌≡◌, [], ◌++◌, is_some, unwrap_or, IfOk, OnOk, string_bytes};
ghost use Rattle.co_sheet_changes.specs.Names.{names_view};
ghost use Rattle.conode_decode.specs.Names.{name_text};
ghost use Rattle.conode_explain.specs.OwnWords.{
  bytes_words,
  counted_text,
  in_blocks,
  own_words,
  service_to_all,
  size_text,
  sized_answer,
  sized_front,
  sized_in,
  sized_request,
  sized_text,
  sized_words,
  subject_key,
  subject_text,
  to_all_words,
  with_bytes,
};

use crate::transfer::{is_answer, is_request, push_service};
use co_frame::{Frame, NmtCommand, NmtService, SdoRequest, SdoResponse};
use co_sheet_changes::Names;
use co_text::push_decimal;
use co_value::Key;
use std::alloc::AllocError;

/// The service of an SDO frame with a size.
#[derive(Clone, Copy)]
pub(crate) enum SizedService {
    /// A download in segments begins.
    Download,
    /// An upload in segments begins.
    Upload,
    /// A block download begins.
    BlockDownload,
    /// A block upload begins.
    BlockUpload,
    /// A sub-block is acknowledged.
    Acknowledge,
}

/// What such a frame names.
#[derive(Clone, Copy)]
pub(crate) enum Subject {
    /// The entry.
    Entry(Key),
    /// The last segment that was taken.
    Segment(u8),
}

/// The size of an SDO frame.
#[derive(Clone, Copy)]
pub(crate) enum FrameSize {
    /// The number of bytes of the transfer.
    Bytes(u32),
    /// The number of segments in the next sub-block (blksize).
    Segments(u8),
}

/// An SDO frame with a size (CiA 301, 7.2.4.3).
#[derive(Clone, Copy)]
pub(crate) struct SizedFrame {
    /// Whether it is a request; else it is an answer.
    pub(crate) asked: bool,
    /// The node-ID of the server.
    pub(crate) node: u8,
    pub(crate) service: SizedService,
    pub(crate) subject: Subject,
    pub(crate) size: FrameSize,
}

// a transfer begins, with its number of bytes where that is indicated
fn with_bytes(
    asked: bool,
    node: u8,
    service: SizedService,
    key: Key,
    size: Option<u32>,
) -> Option<SizedFrame>
    ensures { result ≡ with_bytes asked node service key size }
{
    match size {
        Some(count) => Some(SizedFrame {
            asked,
            node,
            service,
            subject: Subject::Entry(key),
            size: FrameSize::Bytes(count),
        }),
        None => None,
    }
}

// one in blocks, with the number of the segments in its next sub-block
fn in_blocks(
    asked: bool,
    node: u8,
    service: SizedService,
    subject: Subject,
    count: u8,
) -> SizedFrame
    ensures { result ≡ in_blocks asked node service subject count }
{
    SizedFrame {
        asked,
        node,
        service,
        subject,
        size: FrameSize::Segments(count),
    }
}

fn sized_request(node: u8, request: SdoRequest) -> Option<SizedFrame>
    ensures { result ≡ sized_request node request }
{
    match request {
        SdoRequest::DownloadInitiate { key, size } => {
            with_bytes(true, node, SizedService::Download, key, size)
        }
        SdoRequest::BlockDownloadInitiate { key, size } => {
            with_bytes(true, node, SizedService::BlockDownload, key, size)
        }
        SdoRequest::BlockUploadInitiate {
            key,
            block_size,
            threshold: _,
        } => Some(in_blocks(
            true,
            node,
            SizedService::BlockUpload,
            Subject::Entry(key),
            block_size,
        )),
        SdoRequest::BlockUploadAcknowledge {
            sequence,
            block_size,
        } => Some(in_blocks(
            true,
            node,
            SizedService::Acknowledge,
            Subject::Segment(sequence),
            block_size,
        )),
        _ => None,
    }
}

fn sized_answer(node: u8, answer: SdoResponse) -> Option<SizedFrame>
    ensures { result ≡ sized_answer node answer }
{
    match answer {
        SdoResponse::UploadInitiated { key, size } => {
            with_bytes(false, node, SizedService::Upload, key, size)
        }
        SdoResponse::BlockUploadInitiated { key, size } => {
            with_bytes(false, node, SizedService::BlockUpload, key, size)
        }
        SdoResponse::BlockDownloadInitiated { key, block_size } => Some(in_blocks(
            false,
            node,
            SizedService::BlockDownload,
            Subject::Entry(key),
            block_size,
        )),
        SdoResponse::BlockDownloadAcknowledge {
            sequence,
            block_size,
        } => Some(in_blocks(
            false,
            node,
            SizedService::Acknowledge,
            Subject::Segment(sequence),
            block_size,
        )),
        _ => None,
    }
}

#[tactic(auto, unfolding(crate::specs::OwnWords::sized_in))]
fn sized_in(frame: &Frame) -> Option<SizedFrame>
    ensures { result ≡ sized_in frame.now }
{
    if is_request(frame) {
        return match SdoRequest::read(frame) {
            Some(request) => sized_request((frame.id() - 0x600) as u8, request),
            None => None,
        };
    }
    if is_answer(frame) {
        return match SdoResponse::read(frame) {
            Some(answer) => sized_answer((frame.id() - 0x580) as u8, answer),
            None => None,
        };
    }
    None
}

fn sized_front(asked: bool) -> &'static str
    ensures { result.now ≡ sized_front asked }
{
    if asked {
        "SDO request node "
    } else {
        "SDO answer node "
    }
}

fn sized_words(service: SizedService) -> &'static str
    ensures { result.now ≡ sized_words service }
{
    match service {
        SizedService::Download => " download ",
        SizedService::Upload => " upload ",
        SizedService::BlockDownload => " block download ",
        SizedService::BlockUpload => " block upload ",
        SizedService::Acknowledge => " block ack ",
    }
}

fn push_subject(said: &mut String, subject: Subject) -> Result<(), AllocError>
    ensures { OnOk result
        (string_bytes said.new ≡ string_bytes said.old ++ subject_text subject) }
{
    match subject {
        Subject::Entry(key) => said.push_str(key.text().as_str()),
        Subject::Segment(number) => push_decimal(said, number as u64),
    }
}

fn subject_key(subject: Subject) -> Option<Key>
    ensures { result ≡ subject_key subject }
{
    match subject {
        Subject::Entry(key) => Some(key),
        Subject::Segment(_) => None,
    }
}

// a number between words
#[tactic(auto, unfolding(crate::specs::OwnWords::counted_text))]
fn push_counted(said: &mut String, front: &str, count: u32, end: &str) -> Result<(), AllocError>
    ensures { OnOk result (string_bytes said.new
        ≡ string_bytes said.old ++ counted_text front.now count end.now) }
{
    attempt!(said.push_str(front));
    attempt!(push_decimal(said, count as u64));
    said.push_str(end)
}

fn bytes_words(count: u32) -> &'static str
    ensures { result.now ≡ bytes_words count }
{
    if count == 1 { " byte" } else { " bytes" }
}

fn push_size(said: &mut String, size: FrameSize) -> Result<(), AllocError>
    ensures { OnOk result (string_bytes said.new ≡ string_bytes said.old ++ size_text size) }
{
    match size {
        FrameSize::Bytes(count) => push_counted(said, " ", count, bytes_words(count)),
        FrameSize::Segments(count) => push_counted(said, " block size ", count as u32, ""),
    }
}

// a space and the name of the entry in double quotes, if there is one
#[tactic(auto, unfolding(conode_decode::specs::Names::name_text))]
fn push_name(
    said: &mut String,
    names: Names<'_, '_>,
    node: u8,
    key: Option<Key>,
) -> Result<(), AllocError>
    ensures { OnOk result (string_bytes said.new
        ≡ string_bytes said.old ++ name_text (names_view names.entry) node key) }
{
    let Some(key) = key else {
        return Ok(());
    };
    let Some(name) = names.name(node, key) else {
        return Ok(());
    };
    attempt!(said.push_str(" \""));
    attempt!(said.push_str(name));
    said.push_str("\"")
}

#[tactic(auto, unfolding(crate::specs::OwnWords::sized_text))]
fn push_sized(said: &mut String, names: Names<'_, '_>, frame: SizedFrame) -> Result<(), AllocError>
    ensures { OnOk result (string_bytes said.new
        ≡ string_bytes said.old ++ sized_text (names_view names.entry) frame) }
{
    let front = sized_front(frame.asked);
    attempt!(push_service(said, front, frame.node, sized_words(frame.service)));
    attempt!(push_subject(said, frame.subject));
    attempt!(push_size(said, frame.size));
    push_name(said, names, frame.node, subject_key(frame.subject))
}

#[tactic(auto, unfolding(crate::specs::OwnWords::service_to_all))]
fn service_to_all(frame: &Frame) -> Option<NmtService>
    ensures { result ≡ service_to_all frame.now }
{
    match NmtCommand::read(frame) {
        Some(command) if command.node == 0 => Some(command.service),
        _ => None,
    }
}

fn to_all_words(service: NmtService) -> &'static str
    ensures { result.now ≡ to_all_words service }
{
    match service {
        NmtService::Start => "NMT start all nodes",
        NmtService::Stop => "NMT stop all nodes",
        NmtService::EnterPreOperational => "NMT pre-operational all nodes",
        NmtService::ResetNode => "NMT reset-node all nodes",
        NmtService::ResetCommunication => "NMT reset-communication all nodes",
    }
}

/// Appends what a data frame says in words of its own: an SDO frame with a size, with the name of
/// its entry, as `SDO request node 5 block upload 2100:00 block size 127`, and an NMT command to all
/// nodes. Returns whether it appended anything: if not, the text of `conode decode` stands. On an
/// `Err` memory ran out, and a part of it may be there.
#[tactic(auto, unfolding(crate::specs::OwnWords::own_words))]
pub(crate) fn push_own_words(
    said: &mut String,
    names: Names<'_, '_>,
    frame: &Frame,
) -> Result<bool, AllocError>
    ensures said { IfOk result
        (λ said. said ≡ is_some (own_words (names_view names.entry) frame.now)) }
    ensures words { OnOk result (string_bytes said.new
        ≡ string_bytes said.old ++ unwrap_or (own_words (names_view names.entry) frame.now) []) }
{
    if let Some(sized) = sized_in(frame) {
        attempt!(push_sized(said, names, sized));
        return Ok(true);
    }
    match service_to_all(frame) {
        Some(service) => {
            attempt!(said.push_str(to_all_words(service)));
            Ok(true)
        }
        None => Ok(false),
    }
}
