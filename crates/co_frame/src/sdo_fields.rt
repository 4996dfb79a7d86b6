//! The fields of an SDO frame's eight bytes.

ghost use Rattle.std.specs.Prelude.{◌≡◌, ◌<◌, length};
ghost use Rattle.co_frame.specs.SdoFields.{specifier, subcommand, has_bit, unused_of_end, key_in, number_in};
ghost use Rattle.co_frame.specs.SdoParts.{expedited_in, segment_in, size_in, code_in};

use crate::sdo_request::ExpeditedData;
use arrayvec::ArrayVec;
use byteorder::{ByteOrder, LittleEndian};
use co_frame_aborts::AbortCode;
use co_value::Key;

// bits 7 to 5 of the command byte
pub(crate) fn specifier(bytes: &[u8]) -> u8
    requires { 0 < length bytes.now }
    ensures { result ≡ specifier bytes.now }
{
    bytes[0] / 32
}

// bits 1 to 0 of the command byte
pub(crate) fn subcommand(bytes: &[u8]) -> u8
    requires { 0 < length bytes.now }
    ensures { result ≡ subcommand bytes.now }
{
    bytes[0] % 4
}

// one bit of the command byte
pub(crate) fn has_bit(bytes: &[u8], bit: u8) -> bool
    requires some { 0 < length bytes.now }
    requires low { bit < 8 }
    ensures { result ≡ has_bit bit bytes.now }
{
    (bytes[0] >> bit) % 2 == 1
}

// bits 4 to 2 of the command byte
pub(crate) fn unused_of_end(bytes: &[u8]) -> u8
    requires { 0 < length bytes.now }
    ensures { result ≡ unused_of_end bytes.now }
{
    bytes[0] / 4 % 8
}

// bytes 1 to 3
pub(crate) fn key_in(bytes: &[u8]) -> Key
    requires { length bytes.now ≡ 8 }
    ensures { result ≡ key_in bytes.now }
{
    Key {
        index: LittleEndian::read_u16(&bytes[1..]),
        sub: bytes[3],
    }
}

// bytes 4 to 7 as one number
pub(crate) fn number_in(bytes: &[u8]) -> u32
    requires { length bytes.now ≡ 8 }
    ensures { result ≡ number_in bytes.now }
{
    LittleEndian::read_u32(&bytes[4..])
}

// the number in bytes 4 to 7, where it is indicated
pub(crate) fn size_in(bytes: &[u8], indicated: bool) -> Option<u32>
    requires { length bytes.now ≡ 8 }
    ensures { result ≡ size_in indicated bytes.now }
{
    if indicated {
        Some(number_in(bytes))
    } else {
        None
    }
}

// the code of an abort
pub(crate) fn code_in(bytes: &[u8]) -> AbortCode
    requires { length bytes.now ≡ 8 }
    ensures { result ≡ code_in bytes.now }
{
    AbortCode(number_in(bytes))
}

// the data of a segment
pub(crate) fn segment_in(bytes: &[u8]) -> ArrayVec<u8, 7>
    requires { length bytes.now ≡ 8 }
    ensures { result ≡ segment_in bytes.now }
{
    let unused = (bytes[0] / 2 % 8) as usize;
    let mut part = ArrayVec::from([
        bytes[1], bytes[2], bytes[3], bytes[4], bytes[5], bytes[6], bytes[7],
    ]);
    part.truncate(7 - unused);
    part
}

// the data of an expedited transfer
pub(crate) fn expedited_in(bytes: &[u8]) -> ExpeditedData
    requires { length bytes.now ≡ 8 }
    ensures { result ≡ expedited_in bytes.now }
{
    let four = [bytes[4], bytes[5], bytes[6], bytes[7]];
    if has_bit(bytes, 0) {
        let unused = (bytes[0] / 4 % 4) as usize;
        let mut counted = ArrayVec::from(four);
        counted.truncate(4 - unused);
        ExpeditedData::Indicated(counted)
    } else {
        ExpeditedData::NotIndicated(four)
    }
}
