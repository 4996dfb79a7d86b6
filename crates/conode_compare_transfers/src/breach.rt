//! What a device does otherwise in an open transfer (CiA 301, 7.2.4.3).

ghost use Rattle.std.specs.Prelude.{◌≡◌};
ghost use Rattle.conode_compare_transfers.specs.Breaches.{
  abort_breach,
  answers_without_key,
  breach_at,
  byte_at,
  ended_breach,
  fault_breach,
  is_padded,
  key_in,
  may_refuse_next,
  names_none,
  server_breach,
  size_breach,
};

use crate::newest::Newest;
use crate::timeouts::times_out;
use co_frame::{AbortCode, Frame};
use co_value::Key;
use conode_explain_transfers::{Direction, Ended, Ending, Fault, Heard, Protocol, Side, What};

/// A difference in the transfer of an entry.
#[derive(Clone, Copy)]
pub enum Breach {
    /// `answer-toggle`: a segment, or its confirmation, hasn't the toggle bit of its request.
    Toggle(Key),
    /// `answer-form`: the protocol has no such answer there, or no segment of a block with this
    /// number.
    Form(Key),
    /// `abort-key`: an abort has another multiplexer.
    AbortKey(Key),
    /// `answer-size`: an upload indicates so many bytes, and has so many; or so many have come as
    /// the client aborts it.
    Size(Key, u32, u64),
    /// `answer-crc`: a block upload has this CRC, and its bytes have that one.
    Crc(Key, u16, u16),
    /// `abort-early`: a transfer is aborted as timed out, so many microseconds after the client's last
    /// frame, and the server times out after so many ms; with 0 never.
    Early(Key, u64, u16),
}

/// A byte of a frame, 0 where it has none there.
pub fn byte_at(frame: &Frame, place: usize) -> u8
    ensures { result ≡ byte_at frame.now place }
{
    match frame.bytes().get(place) {
        Some(byte) => *byte,
        None => 0,
    }
}

/// The multiplexer of an initiate request, of its response, and of an abort.
pub fn key_in(frame: &Frame) -> Key
    ensures { result ≡ key_in frame.now }
{
    Key {
        index: byte_at(frame, 1) as u16 + byte_at(frame, 2) as u16 * 256,
        sub: byte_at(frame, 3),
    }
}

// Whether a frame of the device, the last of so many, may answer one of the client that has no
// multiplexer. The first frame, the initiate request, has one; a segment after an acknowledge may have
// been on its way before that.
fn answers_without_key(newest: Newest, frames: u64) -> bool
    ensures { result ≡ answers_without_key newest frames }
{
    match newest {
        Newest::Request => frames > 2,
        Newest::Acknowledge
        | Newest::LaterData
        | Newest::LaterAcknowledge
        | Newest::AllAcknowledged => true,
        Newest::Answer | Newest::Data | Newest::LastData(_) => false,
    }
}

// Whether an abort names 0000:00, and may answer a frame without a multiplexer: a server may have
// given the transfer up after its timeout without an abort.
fn names_none(newest: Newest, named: Key, frames: u64) -> bool
    ensures { result ≡ names_none newest named frames }
{
    named == Key { index: 0, sub: 0 } && answers_without_key(newest, frames)
}

// Whether an abort may be of another entry than the open transfer's. A server that has given up a
// block download without an abort takes the client's newest frame for a request, also where it looks
// like the next segment. After the initiate request an abort of what timed out may be of an earlier
// transfer: the two crossed.
fn may_refuse_next(newest: Newest, ended: &Ended) -> bool
    ensures { result ≡ may_refuse_next newest ended.now }
{
    if !matches!(newest, Newest::Request) {
        return false;
    }
    if ended.frames > 2 {
        matches!(
            (ended.protocol, ended.direction),
            (Protocol::Block, Direction::Download)
        )
    } else {
        times_out(ended.ending)
    }
}

// An abort of another entry; a server that doesn't know a command may not know where its
// multiplexer is.
fn abort_breach(newest: Newest, named: Key, ended: &Ended, code: AbortCode) -> Option<Breach>
    ensures { result ≡ abort_breach newest named ended.now code }
{
    if named == ended.key
        || code == AbortCode::UNKNOWN_COMMAND
        || names_none(newest, named, ended.frames)
        || may_refuse_next(newest, ended)
    {
        None
    } else {
        Some(Breach::AbortKey(ended.key))
    }
}

// whether an upload ends with a segment that has n = 0, and in which the data may end where the
// device indicated it
fn is_padded(frame: &Frame, ended: &Ended, indicated: u32) -> bool
    ensures { result ≡ is_padded frame.now ended.now indicated }
{
    let indicated = indicated as u64;
    matches!(ended.protocol, Protocol::Segmented)
        && (byte_at(frame, 0) / 2 % 8 == 0
            && (indicated <= ended.bytes && ended.bytes <= indicated + 6))
}

fn size_breach(frame: &Frame, ended: &Ended, indicated: u32) -> Option<Breach>
    ensures { result ≡ size_breach frame.now ended.now indicated }
{
    if is_padded(frame, ended, indicated) {
        None
    } else {
        Some(Breach::Size(ended.key, indicated, ended.bytes))
    }
}

// the difference of an upload that the client refuses
fn fault_breach(key: Key, fault: Option<Fault>) -> Option<Breach>
    ensures { result ≡ fault_breach key fault }
{
    match fault {
        Some(Fault::Size { indicated, bytes }) => Some(Breach::Size(key, indicated, bytes)),
        Some(Fault::Crc { came, computed }) => Some(Breach::Crc(key, came, computed)),
        None => None,
    }
}

// the difference of the end of a transfer, after its newest frame
fn ended_breach(newest: Newest, frame: &Frame, ended: &Ended) -> Option<Breach>
    ensures { result ≡ ended_breach newest frame.now ended.now }
{
    match (ended.direction, ended.ending) {
        (
            _,
            Ending::Aborted {
                by: Side::Server,
                code,
            },
        ) => abort_breach(newest, key_in(frame), ended, code),
        (
            _,
            Ending::Aborted {
                by: Side::Client,
                code: _,
            },
        ) => fault_breach(ended.key, ended.fault),
        (Direction::Upload, Ending::SizeDiffers { indicated }) => {
            size_breach(frame, ended, indicated)
        }
        (Direction::Upload, Ending::CrcDiffers { came, computed }) => {
            Some(Breach::Crc(ended.key, came, computed))
        }
        _ => None,
    }
}

// The difference of a frame of the device with this first byte that doesn't end the transfer. Where
// segments of a block upload may be missing in the recording, its end comes before its turn. After
// an acknowledge a segment may be of the sub-block before, whose block size may have been greater;
// not after that of the last segment.
fn server_breach(newest: Newest, key: Key, what: What, first: u8) -> Option<Breach>
    ensures { result ≡ server_breach newest key what first }
{
    match (newest, what) {
        (Newest::Request, What::Repeated) => Some(Breach::Toggle(key)),
        (
            Newest::Request | Newest::Data | Newest::LastData(_) | Newest::AllAcknowledged,
            What::Unexpected,
        ) if first / 32 != 6 => Some(Breach::Form(key)),
        (Newest::Acknowledge | Newest::LaterData | Newest::LaterAcknowledge, What::Unexpected)
            if first % 128 == 0 => Some(Breach::Form(key)),
        _ => None,
    }
}

/// The difference of a frame by an end, after the newest one of the open transfer.
#[tactic(auto, unfolding(crate::specs::Breaches::breach_at))]
pub fn breach_at(newest: Option<Newest>, side: Side, heard: &Heard, frame: &Frame) -> Option<Breach>
    ensures { result ≡ breach_at newest side heard.now frame.now }
{
    let newest = newest?;
    if let Some(ended) = &heard.ended {
        return ended_breach(newest, frame, ended);
    }
    match (side, heard.of) {
        (Side::Server, Some(key)) => server_breach(newest, key, heard.what, byte_at(frame, 0)),
        _ => None,
    }
}
