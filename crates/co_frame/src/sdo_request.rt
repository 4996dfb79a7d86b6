//! What an SDO client asks of a server.

ghost use Rattle.std.specs.Prelude.{◌≡◌, ◌↔◌, ◌<◌, length, Some, None, IfSome, IsTrue};
ghost use Rattle.co_frame.specs.declared.sdo_request.SdoRequest.{SdoRequest};
ghost use Rattle.co_frame.specs.SdoRequests.{
  request_in,
  request_row_in,
  download_in,
  block_upload_in,
  block_download_in,
  SpellsRequestRow,
  SpellsSdoRequest,
  IsSdoRequest,
  request_bytes,
};
ghost use Rattle.co_frame.specs.SdoParts.{IsExpeditedData};

use crate::frame::Frame;
use crate::sdo_bytes::{
    abort, acknowledge, bare, block_end, block_initiate, command, expedited, initiate, keyed,
    segment, weight,
};
use crate::sdo_fields::{
    code_in, expedited_in, has_bit, key_in, segment_in, size_in, specifier, subcommand,
    unused_of_end,
};
use crate::{ccs, subcommands};
use arrayvec::ArrayVec;
use co_frame_aborts::AbortCode;
use co_value::Key;

/// The data of an expedited transfer (CiA 301, 7.2.4.3.3 and 7.2.4.3.6).
#[derive(Drop)]
pub enum ExpeditedData {
    /// The number of bytes is indicated (s = 1): 1 to 4 bytes.
    Indicated(ArrayVec<u8, 4>),
    /// It isn't (s = 0): of the four bytes as many count as the entry has.
    NotIndicated([u8; 4]),
}

impl ExpeditedData {
    /// Whether the data can be spelled: where the size is indicated, 1 to 4 bytes.
    pub fn is_spellable(&self) -> bool
        ensures { IsTrue result ↔ IsExpeditedData self.now }
    {
        match self {
            ExpeditedData::Indicated(counted) => !counted.is_empty(),
            ExpeditedData::NotIndicated(_) => true,
        }
    }
}

/// A request of an SDO client (CiA 301, 7.2.4.3).
#[derive(Drop)]
pub enum SdoRequest {
    /// Initiate SDO download, ccs = 1, e = 1: a whole download of 1 to 4 bytes
    /// (CiA 301, 7.2.4.3.3).
    DownloadExpedited {
        /// The multiplexor: index and sub-index of the entry.
        key: Key,
        data: ExpeditedData,
    },
    /// Initiate SDO download, ccs = 1, e = 0: a segmented download, with its size in bytes where
    /// s = 1 (CiA 301, 7.2.4.3.3).
    DownloadInitiate {
        /// The multiplexor: index and sub-index of the entry.
        key: Key,
        size: Option<u32>,
    },
    /// Download SDO segment, ccs = 0: 0 to 7 bytes, the last ones where c = 1 (CiA 301, 7.2.4.3.4).
    DownloadSegment {
        toggle: bool,
        data: ArrayVec<u8, 7>,
        last: bool,
    },
    /// Initiate SDO upload, ccs = 2 (CiA 301, 7.2.4.3.6).
    Upload {
        /// The multiplexor: index and sub-index of the entry.
        key: Key,
    },
    /// Upload SDO segment, ccs = 3: requests the next segment (CiA 301, 7.2.4.3.7).
    UploadSegment {
        toggle: bool,
    },
    /// Abort SDO transfer, cs = 4 (CiA 301, 7.2.4.3.17).
    Abort {
        /// The multiplexor: index and sub-index of the entry.
        key: Key,
        code: AbortCode,
    },
    /// Initiate SDO block upload, ccs = 5, cs = 0: with the number of segments in a sub-block
    /// (blksize), and the number of bytes up to which the server may switch to another protocol
    /// (pst) (CiA 301, 7.2.4.3.13).
    BlockUploadInitiate {
        /// The multiplexor: index and sub-index of the entry.
        key: Key,
        block_size: u8,
        threshold: u8,
    },
    /// End SDO block upload, ccs = 5, cs = 1 (CiA 301, 7.2.4.3.15).
    BlockUploadEnd,
    /// SDO block upload, ccs = 5, cs = 2: the last segment taken in sequence (ackseq), and the
    /// number of segments in the next sub-block (blksize) (CiA 301, 7.2.4.3.14).
    BlockUploadAcknowledge {
        sequence: u8,
        block_size: u8,
    },
    /// Start SDO block upload, ccs = 5, cs = 3: the segments may be sent (CiA 301, 7.2.4.3.13).
    BlockUploadStart,
    /// Initiate SDO block download, ccs = 6, cs = 0: with its size in bytes where s = 1
    /// (CiA 301, 7.2.4.3.9).
    BlockDownloadInitiate {
        /// The multiplexor: index and sub-index of the entry.
        key: Key,
        size: Option<u32>,
    },
    /// End SDO block download, ccs = 6, cs = 1: the last segment leaves n bytes unused, 0 to 7
    /// (CiA 301, 7.2.4.3.11).
    BlockDownloadEnd {
        unused: u8,
    },
}

impl SdoRequest {
    /// The request that a frame's data spells, whatever its identifier (CiA 301, 7.2.4.3). `None`
    /// for a frame without eight bytes, and for a command specifier that no request has.
    pub fn read(frame: &Frame) -> Option<SdoRequest>
        ensures exact { result ≡ request_in frame.now.bytes }
        // What is read is spelled by the frame, and what the frame spells is read: one request at
        // most.
        ensures found { IfSome result (λ request. SpellsSdoRequest request frame.now.bytes) }
        ensures only { (request : SdoRequest)
            → SpellsSdoRequest request frame.now.bytes → result ≡ Some request }
        ensures spellable { IfSome result IsSdoRequest }
    {
        request_of(frame.bytes())
    }

    /// Whether the request can be spelled: expedited data whose size is indicated has 1 to 4 bytes,
    /// and an end of a block download leaves at most 7 bytes unused.
    pub fn is_spellable(&self) -> bool
        ensures { IsTrue result ↔ IsSdoRequest self.now }
    {
        match self {
            SdoRequest::DownloadExpedited { key: _, data } => data.is_spellable(),
            SdoRequest::BlockDownloadEnd { unused } => *unused <= 7,
            _ => true,
        }
    }

    /// The frame of the request on an identifier, 0 to 7FFh; reserved bits and bytes are 0
    /// (CiA 301, 7.2.4.3).
    pub fn write(&self, id: u16) -> Frame
        requires id { id < 2048 }
        requires spellable { IsSdoRequest self.now }
        ensures frame { result ≡ record { id = id; bytes = request_bytes self.now } }
        ensures spelled { SpellsSdoRequest self.now result.bytes }
    {
        Frame::of_eight(id, self.spelling())
    }

    /// Writing and then reading gives the same request. This is a law: a call of it changes
    /// nothing.
    pub fn round_trip(&self)
        requires spellable { IsSdoRequest self.now }
        ensures { request_in (request_bytes self.now) ≡ Some self.now }
    {
        let _ = SdoRequest::read(&self.write(0));
    }

    fn spelling(&self) -> [u8; 8]
        requires { IsSdoRequest self.now }
        ensures bytes { result ≡ request_bytes self.now }
        ensures row { SpellsRequestRow self.now result }
    {
        match self {
            SdoRequest::DownloadExpedited { key, data } => expedited(
                ccs::INITIATE_DOWNLOAD,
                *key,
                data,
            ),
            SdoRequest::DownloadInitiate { key, size } => initiate(
                ccs::INITIATE_DOWNLOAD,
                *key,
                *size,
            ),
            SdoRequest::DownloadSegment { toggle, data, last } => segment(*toggle, data, *last),
            SdoRequest::Upload { key } => keyed(command(ccs::INITIATE_UPLOAD, 0), *key, [0; 4]),
            SdoRequest::UploadSegment { toggle } => bare(command(
                ccs::UPLOAD_SEGMENT,
                weight(4, *toggle),
            )),
            SdoRequest::Abort { key, code } => abort(*key, *code),
            SdoRequest::BlockUploadInitiate {
                key,
                block_size,
                threshold,
            } => keyed(
                command(ccs::BLOCK_UPLOAD, subcommands::INITIATE),
                *key,
                [*block_size, *threshold, 0, 0],
            ),
            SdoRequest::BlockUploadEnd => bare(command(ccs::BLOCK_UPLOAD, subcommands::END)),
            SdoRequest::BlockUploadAcknowledge {
                sequence,
                block_size,
            } => acknowledge(ccs::BLOCK_UPLOAD, *sequence, *block_size),
            SdoRequest::BlockUploadStart => bare(command(ccs::BLOCK_UPLOAD, subcommands::START)),
            SdoRequest::BlockDownloadInitiate { key, size } => block_initiate(
                ccs::BLOCK_DOWNLOAD,
                *key,
                *size,
            ),
            SdoRequest::BlockDownloadEnd { unused } => block_end(ccs::BLOCK_DOWNLOAD, *unused),
        }
    }
}

fn request_of(bytes: &[u8]) -> Option<SdoRequest>
    ensures { result ≡ request_in bytes.now }
{
    if bytes.len() != 8 {
        return None;
    }
    request_row(bytes)
}

#[tactic(auto, unfolding(crate::specs::SdoRequests::request_row_in))]
fn request_row(bytes: &[u8]) -> Option<SdoRequest>
    requires { length bytes.now ≡ 8 }
    ensures { result ≡ request_row_in bytes.now }
{
    match specifier(bytes) {
        ccs::DOWNLOAD_SEGMENT => Some(SdoRequest::DownloadSegment {
            toggle: has_bit(bytes, 4),
            data: segment_in(bytes),
            last: has_bit(bytes, 0),
        }),
        ccs::INITIATE_DOWNLOAD => Some(download(bytes)),
        ccs::INITIATE_UPLOAD => Some(SdoRequest::Upload { key: key_in(bytes) }),
        ccs::UPLOAD_SEGMENT => Some(SdoRequest::UploadSegment {
            toggle: has_bit(bytes, 4),
        }),
        ccs::ABORT => Some(SdoRequest::Abort {
            key: key_in(bytes),
            code: code_in(bytes),
        }),
        ccs::BLOCK_UPLOAD => Some(block_upload(bytes)),
        ccs::BLOCK_DOWNLOAD => Some(block_download(bytes)),
        _ => None,
    }
}

fn download(bytes: &[u8]) -> SdoRequest
    requires { length bytes.now ≡ 8 }
    ensures { result ≡ download_in bytes.now }
{
    let key = key_in(bytes);
    if has_bit(bytes, 1) {
        SdoRequest::DownloadExpedited {
            key,
            data: expedited_in(bytes),
        }
    } else {
        SdoRequest::DownloadInitiate {
            key,
            size: size_in(bytes, has_bit(bytes, 0)),
        }
    }
}

fn block_upload(bytes: &[u8]) -> SdoRequest
    requires { length bytes.now ≡ 8 }
    ensures { result ≡ block_upload_in bytes.now }
{
    match subcommand(bytes) {
        subcommands::INITIATE => SdoRequest::BlockUploadInitiate {
            key: key_in(bytes),
            block_size: bytes[4],
            threshold: bytes[5],
        },
        subcommands::END => SdoRequest::BlockUploadEnd,
        subcommands::ACKNOWLEDGE => SdoRequest::BlockUploadAcknowledge {
            sequence: bytes[1],
            block_size: bytes[2],
        },
        _ => SdoRequest::BlockUploadStart,
    }
}

fn block_download(bytes: &[u8]) -> SdoRequest
    requires { length bytes.now ≡ 8 }
    ensures { result ≡ block_download_in bytes.now }
{
    if has_bit(bytes, 0) {
        SdoRequest::BlockDownloadEnd {
            unused: unused_of_end(bytes),
        }
    } else {
        SdoRequest::BlockDownloadInitiate {
            key: key_in(bytes),
            size: size_in(bytes, has_bit(bytes, 1)),
        }
    }
}
