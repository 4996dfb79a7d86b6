//! The kinds of choices.

use crate::length_error::LengthError;
use co_value::Key;

/// What a device chose where CiA 301 leaves a choice (7.2.2, 7.2.4.3, 7.2.7.1, 7.2.8.3.2).
#[derive(Clone, Copy)]
pub enum Choice {
    /// `choice-segments`: an upload of so many bytes, one to four, goes in segments.
    Segments(Key, u64),
    /// `choice-size`: an upload has no size.
    NoSize(Key),
    /// `choice-short-segment`: a segment of an upload before the last has so many bytes, not seven.
    ShortSegment(Key, u8),
    /// `choice-crc`: the device doesn't support the CRC of a block transfer.
    NoCrc(Key),
    /// `choice-block-size`: of a block download sub-blocks of so many segments are asked for, not
    /// of 127.
    BlockSize(Key, u8),
    /// `choice-switch`: a block upload is answered by another protocol.
    Switched(Key),
    /// `choice-code`: a request is refused with the first code, and by the data sheet the second
    /// fits too.
    Code(Key, u32, u32),
    /// `choice-timeout`: the device aborts a transfer since it timed out.
    Timeout(Key),
    /// `choice-timeout`: the device goes on with a transfer so many microseconds after the client's
    /// frame before, though it times out after so many ms.
    NoTimeout(Key, u64, u16),
    /// `choice-heartbeat`: a heartbeat comes so many microseconds after the last one, and 1017:00
    /// has so many ms.
    Heartbeat(u64, u16),
    /// `choice-phase`: the TPDO with this number, from 1 on, is sent first at this SYNC since the
    /// device entered operational, and has this type.
    Phase(u8, u8, u8),
    /// `choice-emcy`: no EMCY came for a frame of another length, for so many microseconds.
    NoEmergency(LengthError, u64),
    /// `choice-emcy`: EMCY 8200h came for one.
    OtherEmergency(LengthError),
}
