//! Up to eight bytes in one number.

ghost use Rattle.std.specs.Prelude.{◌≡◌, ◌+◌, ◌-◌, ◌<◌, ◌≤◌, ◌^◌, ◌++◌, [], length, replicate};
ghost use Rattle.co_value.specs.Numbers.{unsigned_of};

use arrayvec::ArrayVec;
use byteorder::{ByteOrder, LittleEndian};
use std::marker::Model;

/// The number that up to eight bytes stand for: unsigned, little-endian (CiA 301, 7.1.4); 0 where
/// there is none.
#[inline(always)]
pub fn unsigned_of(bytes: &[u8]) -> u64
    requires { length bytes.now ≤ 8 }
    ensures number { result ≡ unsigned_of bytes.now }
    ensures fits { result < 256 ^ length bytes.now }
{
    // most entries have one, two or four bytes, and most mappings few: these are read without a
    // call
    match bytes {
        [] => 0,
        [a] => u64::from(*a),
        [a, b] => u64::from(*a) + 0x100 * u64::from(*b),
        [a, b, c] => u64::from(*a) + 0x100 * u64::from(*b) + 0x1_0000 * u64::from(*c),
        [a, b, c, d] => {
            u64::from(*a)
                + 0x100 * u64::from(*b)
                + 0x1_0000 * u64::from(*c)
                + 0x100_0000 * u64::from(*d)
        }
        _ => LittleEndian::read_uint(bytes, bytes.len()),
    }
}

/// Up to eight bytes packed in one number, the first byte lowest: appending to them and passing
/// them on stays in registers. Contracts see the bytes.
#[derive(Drop)]
pub struct PackedBytes {
    number: u64,
    length: usize,
}

impl Model for PackedBytes {
    ghost use Rattle.std.specs.Prelude.{◌≤◌, ◌<◌, ◌^◌, ℕ, List};
    ghost use Rattle.co_value.specs.Numbers.{low_bytes};

    ghost Value = { List ℕ };

    ghost view = { λ packed. low_bytes packed.length packed.number };

    ghost invariant = { λ packed. (packed.length ≤ 8) × (packed.number < 256 ^ packed.length) };
}

impl PackedBytes {
    /// No bytes.
    #[inline(always)]
    pub fn new() -> PackedBytes
        ensures { result ≡ [] }
    {
        PackedBytes {
            number: 0,
            length: 0,
        }
    }

    /// Appends bytes; there must be at most 8 in all.
    #[inline(always)]
    pub fn append(&mut self, bytes: &[u8])
        requires { length self.old + length bytes.now ≤ 8 }
        ensures { self.new ≡ self.old ++ bytes.now }
    {
        if !bytes.is_empty() {
            self.number += unsigned_of(bytes) << (8 * self.length);
            self.length += bytes.len();
        }
    }

    /// How many bytes there are, 0 to 8.
    #[inline(always)]
    pub fn len(&self) -> usize
        ensures count { result ≡ length self.now }
        ensures few { result ≤ 8 }
    {
        self.length
    }

    /// The bytes, with zeros after them.
    #[inline(always)]
    pub fn padded(&self) -> [u8; 8]
        ensures { result ≡ self.now ++ replicate (8 - length self.now) 0 }
    {
        self.number.to_le_bytes()
    }

    /// The bytes as a list.
    #[inline(always)]
    pub fn to_list(&self) -> ArrayVec<u8, 8>
        ensures { result.items ≡ self.now }
    {
        let mut list = ArrayVec::from(self.padded());
        list.truncate(self.length);
        list
    }
}
