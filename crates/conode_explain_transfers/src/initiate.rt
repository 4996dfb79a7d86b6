//! Initiate requests.

ghost use Rattle.std.specs.Prelude.{◌≡◌};
ghost use Rattle.conode_explain_transfers.specs.Initiates.{has_crc, data_of, initiate_of, initiate_by};

use crate::kinds::{Direction, Protocol};
use arrayvec::ArrayVec;
use co_frame::{ExpeditedData, Frame, SdoRequest};
use co_value::Key;

/// Before the answer to initiate of a block download only its first segment can come, where this
/// answer is missing in the recording.
const FIRST_SEGMENT: u8 = 1;

/// What an initiate request asks for (CiA 301, 7.2.4.3.3, 7.2.4.3.6, 7.2.4.3.9 and 7.2.4.3.13).
#[derive(Drop)]
pub(crate) struct Initiate {
    pub(crate) key: Key,
    pub(crate) direction: Direction,
    pub(crate) protocol: Protocol,
    /// How many bytes it indicates.
    pub(crate) size: Option<u32>,
    /// Whether the client supports the CRC of a block transfer.
    pub(crate) crc: bool,
    /// Of a block upload, how many segments a sub-block may have; of a block download 1, until the
    /// answer has this number.
    pub(crate) block_size: u8,
    /// Of an expedited download, its bytes; all four where their number isn't indicated.
    pub(crate) bytes: ArrayVec<u8, 4>,
}

/// Whether initiate of a block transfer, or its response, says that the end supports the CRC: bit 2
/// of byte 0.
pub(crate) fn has_crc(frame: &Frame) -> bool
    ensures { result ≡ has_crc frame.now.bytes }
{
    let bytes = frame.bytes();
    bytes.len() == 8 && bytes[0] / 4 % 2 == 1
}

/// The data of an expedited transfer; all four bytes where their number isn't indicated.
pub(crate) fn data_of(value: &ExpeditedData) -> &[u8]
    ensures { result.now ≡ data_of value.now }
{
    match value {
        ExpeditedData::Indicated(counted) => counted.as_slice(),
        ExpeditedData::NotIndicated(four) => four,
    }
}

// the data of an expedited download, as it is kept
fn kept(value: &ExpeditedData) -> ArrayVec<u8, 4>
    ensures { result.items ≡ data_of value.now }
{
    let mut kept = ArrayVec::new();
    match value {
        ExpeditedData::Indicated(counted) => {
            kept.try_extend_from_slice(counted.as_slice()).unwrap();
        }
        ExpeditedData::NotIndicated(four) => kept.try_extend_from_slice(four).unwrap(),
    }
    kept
}

impl Initiate {
    // of an entry, without what only some requests have
    fn of(key: Key, direction: Direction, protocol: Protocol) -> Initiate
        ensures { result ≡ initiate_of key direction protocol }
    {
        Initiate {
            key,
            direction,
            protocol,
            size: None,
            crc: false,
            block_size: 0,
            bytes: ArrayVec::new(),
        }
    }

    /// What a request initiates; `frame` has its bytes. `None` if it isn't an initiate request.
    pub(crate) fn by(request: &SdoRequest, frame: &Frame) -> Option<Initiate>
        ensures { result ≡ initiate_by request.now frame.now.bytes }
    {
        match request {
            SdoRequest::DownloadExpedited { key, data } => Some(Initiate {
                bytes: kept(data),
                ..Initiate::of(*key, Direction::Download, Protocol::Expedited)
            }),
            SdoRequest::DownloadInitiate { key, size } => Some(Initiate {
                size: *size,
                ..Initiate::of(*key, Direction::Download, Protocol::Segmented)
            }),
            SdoRequest::Upload { key } => Some(Initiate::of(
                *key,
                Direction::Upload,
                Protocol::Undecided,
            )),
            SdoRequest::BlockUploadInitiate {
                key,
                block_size,
                threshold: _,
            } => Some(Initiate {
                crc: has_crc(frame),
                block_size: *block_size,
                ..Initiate::of(*key, Direction::Upload, Protocol::Block)
            }),
            SdoRequest::BlockDownloadInitiate { key, size } => Some(Initiate {
                size: *size,
                crc: has_crc(frame),
                block_size: FIRST_SEGMENT,
                ..Initiate::of(*key, Direction::Download, Protocol::Block)
            }),
            _ => None,
        }
    }
}
