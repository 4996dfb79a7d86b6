//! The responses of an SDO server.

ghost use Rattle.std.specs.Prelude.{◌≡◌, ◌↔◌, ◌<◌, length, Some, None, IfSome, IsTrue};
ghost use Rattle.co_frame.specs.declared.sdo_response.SdoResponse.{SdoResponse};
ghost use Rattle.co_frame.specs.SdoResponses.{
  response_in,
  response_row_in,
  upload_in,
  block_upload_in,
  block_download_in,
  SpellsResponseRow,
  SpellsSdoResponse,
  IsSdoResponse,
  response_bytes,
};

use crate::frame::Frame;
use crate::sdo_bytes::{
    abort, acknowledge, bare, block_end, block_initiate, command, expedited, initiate, keyed,
    segment, weight,
};
use crate::sdo_fields::{
    code_in, expedited_in, has_bit, key_in, segment_in, size_in, specifier, subcommand,
    unused_of_end,
};
use crate::sdo_request::ExpeditedData;
use crate::{scs, subcommands};
use arrayvec::ArrayVec;
use co_frame_aborts::AbortCode;
use co_value::Key;

/// A response of an SDO server (CiA 301, 7.2.4.3).
#[derive(Drop)]
pub enum SdoResponse {
    /// Initiate SDO download, scs = 3: a segmented download may go on, or an expedited one is done
    /// (CiA 301, 7.2.4.3.3).
    DownloadDone {
        /// The multiplexor: index and sub-index of the entry.
        key: Key,
    },
    /// Download SDO segment, scs = 1: the segment was taken (CiA 301, 7.2.4.3.4).
    DownloadSegmentDone {
        toggle: bool,
    },
    /// Initiate SDO upload, scs = 2, e = 1: a whole upload of 1 to 4 bytes (CiA 301, 7.2.4.3.6).
    UploadExpedited {
        /// The multiplexor: index and sub-index of the entry.
        key: Key,
        data: ExpeditedData,
    },
    /// Initiate SDO upload, scs = 2, e = 0: a segmented upload, with its size in bytes where s = 1
    /// (CiA 301, 7.2.4.3.6).
    UploadInitiated {
        /// The multiplexor: index and sub-index of the entry.
        key: Key,
        size: Option<u32>,
    },
    /// Upload SDO segment, scs = 0: 0 to 7 bytes, the last ones where c = 1 (CiA 301, 7.2.4.3.7).
    UploadSegment {
        toggle: bool,
        data: ArrayVec<u8, 7>,
        last: bool,
    },
    /// Abort SDO transfer, cs = 4 (CiA 301, 7.2.4.3.17).
    Abort {
        /// The multiplexor: index and sub-index of the entry.
        key: Key,
        code: AbortCode,
    },
    /// Initiate SDO block download, scs = 5, ss = 0: with the number of segments in a sub-block
    /// (blksize) (CiA 301, 7.2.4.3.9).
    BlockDownloadInitiated {
        /// The multiplexor: index and sub-index of the entry.
        key: Key,
        block_size: u8,
    },
    /// End SDO block download, scs = 5, ss = 1 (CiA 301, 7.2.4.3.11).
    BlockDownloadDone,
    /// SDO block download, scs = 5, ss = 2: the last segment taken in sequence (ackseq), and the
    /// number of segments in the next sub-block (blksize) (CiA 301, 7.2.4.3.10).
    BlockDownloadAcknowledge {
        sequence: u8,
        block_size: u8,
    },
    /// Initiate SDO block upload, scs = 6, ss = 0: with its size in bytes where s = 1
    /// (CiA 301, 7.2.4.3.13).
    BlockUploadInitiated {
        /// The multiplexor: index and sub-index of the entry.
        key: Key,
        size: Option<u32>,
    },
    /// End SDO block upload, scs = 6, ss = 1: the last segment leaves n bytes unused, 0 to 7
    /// (CiA 301, 7.2.4.3.15).
    BlockUploadEnd {
        unused: u8,
    },
}

impl SdoResponse {
    /// The response that a frame's data spells, whatever its identifier (CiA 301, 7.2.4.3). `None`
    /// for a frame without eight bytes, and for a command specifier or subcommand that no response
    /// has.
    pub fn read(frame: &Frame) -> Option<SdoResponse>
        ensures exact { result ≡ response_in frame.now.bytes }
        // What is read is spelled by the frame, and what the frame spells is read: one response at
        // most.
        ensures found { IfSome result (λ response. SpellsSdoResponse response frame.now.bytes) }
        ensures only { (response : SdoResponse)
            → SpellsSdoResponse response frame.now.bytes → result ≡ Some response }
        ensures spellable { IfSome result IsSdoResponse }
    {
        response_of(frame.bytes())
    }

    /// Whether the response can be spelled: expedited data whose size is indicated has 1 to
    /// 4 bytes, and an end of a block upload leaves at most 7 bytes unused.
    pub fn is_spellable(&self) -> bool
        ensures { IsTrue result ↔ IsSdoResponse self.now }
    {
        match self {
            SdoResponse::UploadExpedited { key: _, data } => data.is_spellable(),
            SdoResponse::BlockUploadEnd { unused } => *unused <= 7,
            _ => true,
        }
    }

    /// The frame of the response on an identifier, 0 to 7FFh; reserved bits and bytes are 0
    /// (CiA 301, 7.2.4.3).
    #[inline(always)]
    pub fn write(&self, id: u16) -> Frame
        requires id { id < 2048 }
        requires spellable { IsSdoResponse self.now }
        ensures frame { result ≡ record { id = id; bytes = response_bytes self.now } }
        ensures spelled { SpellsSdoResponse self.now result.bytes }
    {
        Frame::of_eight(id, self.spelling())
    }

    /// Writing and then reading gives the same response. This is a law: a call of it changes
    /// nothing.
    pub fn round_trip(&self)
        requires spellable { IsSdoResponse self.now }
        ensures { response_in (response_bytes self.now) ≡ Some self.now }
    {
        let _ = SdoResponse::read(&self.write(0));
    }

    // inlined, as `write` is: most callers know the variant, so that one arm remains
    #[inline(always)]
    fn spelling(&self) -> [u8; 8]
        requires { IsSdoResponse self.now }
        ensures bytes { result ≡ response_bytes self.now }
        ensures row { SpellsResponseRow self.now result }
    {
        match self {
            SdoResponse::DownloadDone { key } => keyed(
                command(scs::INITIATE_DOWNLOAD, 0),
                *key,
                [0; 4],
            ),
            SdoResponse::DownloadSegmentDone { toggle } => bare(command(
                scs::DOWNLOAD_SEGMENT,
                weight(4, *toggle),
            )),
            SdoResponse::UploadExpedited { key, data } => expedited(
                scs::INITIATE_UPLOAD,
                *key,
                data,
            ),
            SdoResponse::UploadInitiated { key, size } => initiate(
                scs::INITIATE_UPLOAD,
                *key,
                *size,
            ),
            SdoResponse::UploadSegment { toggle, data, last } => segment(*toggle, data, *last),
            SdoResponse::Abort { key, code } => abort(*key, *code),
            SdoResponse::BlockDownloadInitiated { key, block_size } => {
                keyed(
                    command(scs::BLOCK_DOWNLOAD, subcommands::INITIATE),
                    *key,
                    [*block_size, 0, 0, 0],
                )
            }
            SdoResponse::BlockDownloadDone => bare(command(scs::BLOCK_DOWNLOAD, subcommands::END)),
            SdoResponse::BlockDownloadAcknowledge {
                sequence,
                block_size,
            } => acknowledge(scs::BLOCK_DOWNLOAD, *sequence, *block_size),
            SdoResponse::BlockUploadInitiated { key, size } => block_initiate(
                scs::BLOCK_UPLOAD,
                *key,
                *size,
            ),
            SdoResponse::BlockUploadEnd { unused } => block_end(scs::BLOCK_UPLOAD, *unused),
        }
    }
}

fn response_of(bytes: &[u8]) -> Option<SdoResponse>
    ensures { result ≡ response_in bytes.now }
{
    if bytes.len() != 8 {
        return None;
    }
    response_row(bytes)
}

#[tactic(auto, unfolding(crate::specs::SdoResponses::response_row_in))]
fn response_row(bytes: &[u8]) -> Option<SdoResponse>
    requires { length bytes.now ≡ 8 }
    ensures { result ≡ response_row_in bytes.now }
{
    match specifier(bytes) {
        scs::UPLOAD_SEGMENT => Some(SdoResponse::UploadSegment {
            toggle: has_bit(bytes, 4),
            data: segment_in(bytes),
            last: has_bit(bytes, 0),
        }),
        scs::DOWNLOAD_SEGMENT => Some(SdoResponse::DownloadSegmentDone {
            toggle: has_bit(bytes, 4),
        }),
        scs::INITIATE_UPLOAD => Some(upload(bytes)),
        scs::INITIATE_DOWNLOAD => Some(SdoResponse::DownloadDone { key: key_in(bytes) }),
        scs::ABORT => Some(SdoResponse::Abort {
            key: key_in(bytes),
            code: code_in(bytes),
        }),
        scs::BLOCK_DOWNLOAD => block_download(bytes),
        scs::BLOCK_UPLOAD => Some(block_upload(bytes)),
        _ => None,
    }
}

fn upload(bytes: &[u8]) -> SdoResponse
    requires { length bytes.now ≡ 8 }
    ensures { result ≡ upload_in bytes.now }
{
    let key = key_in(bytes);
    if has_bit(bytes, 1) {
        SdoResponse::UploadExpedited {
            key,
            data: expedited_in(bytes),
        }
    } else {
        SdoResponse::UploadInitiated {
            key,
            size: size_in(bytes, has_bit(bytes, 0)),
        }
    }
}

fn block_download(bytes: &[u8]) -> Option<SdoResponse>
    requires { length bytes.now ≡ 8 }
    ensures { result ≡ block_download_in bytes.now }
{
    match subcommand(bytes) {
        subcommands::INITIATE => Some(SdoResponse::BlockDownloadInitiated {
            key: key_in(bytes),
            block_size: bytes[4],
        }),
        subcommands::END => Some(SdoResponse::BlockDownloadDone),
        subcommands::ACKNOWLEDGE => Some(SdoResponse::BlockDownloadAcknowledge {
            sequence: bytes[1],
            block_size: bytes[2],
        }),
        _ => None,
    }
}

fn block_upload(bytes: &[u8]) -> SdoResponse
    requires { length bytes.now ≡ 8 }
    ensures { result ≡ block_upload_in bytes.now }
{
    if has_bit(bytes, 0) {
        SdoResponse::BlockUploadEnd {
            unused: unused_of_end(bytes),
        }
    } else {
        SdoResponse::BlockUploadInitiated {
            key: key_in(bytes),
            size: size_in(bytes, has_bit(bytes, 1)),
        }
    }
}
