//! Unsigned numbers of a fixed width as bytes, the lowest byte first.

ghost use Rattle.std.specs.Prelude.{◌≡◌, length};
ghost use Rattle.co_value.specs.Numbers.{unsigned_of, low_bytes};

use byteorder::{ByteOrder, LittleEndian};

/// The UNSIGNED8 of one byte (CiA 301, 7.1.4).
#[inline(always)]
pub fn read_u8(bytes: &[u8]) -> u8
    requires { length bytes.now ≡ 1 }
    ensures { result ≡ unsigned_of bytes.now }
{
    bytes[0]
}

/// The UNSIGNED16 of two bytes (CiA 301, 7.1.4).
#[inline(always)]
pub fn read_u16(bytes: &[u8]) -> u16
    requires { length bytes.now ≡ 2 }
    ensures { result ≡ unsigned_of bytes.now }
{
    LittleEndian::read_u16(bytes)
}

/// The UNSIGNED32 of four bytes (CiA 301, 7.1.4).
#[inline(always)]
pub fn read_u32(bytes: &[u8]) -> u32
    requires { length bytes.now ≡ 4 }
    ensures { result ≡ unsigned_of bytes.now }
{
    LittleEndian::read_u32(bytes)
}

/// The four bytes of an UNSIGNED32 (CiA 301, 7.1.4).
pub fn bytes_of_u32(number: u32) -> [u8; 4]
    ensures { result ≡ low_bytes 4 number }
{
    let mut bytes = [0; 4];
    LittleEndian::write_u32(&mut bytes, number);
    bytes
}
