//! Numbers as the bytes of an entry.

ghost use Rattle.std.specs.Prelude.{◌≡◌, ◌↔◌, ◌-◌, ◌^◌, ◌<◌, ◌≤◌, ◌≤ℤ◌, pos, neg_ℤ, Some, length, IsOk, IfOk, IfErr};
ghost use Rattle.co_value.specs.declared.data_type.DataType.{DataType};
ghost use Rattle.co_value.specs.Types.{width_of, FitsWidth, InRange};
ghost use Rattle.co_value.specs.Numbers.{
  number_of,
  signed_of,
  bits_of,
  bytes_of,
  HasOneSpelling,
  HasWayBack,
  HasBytes,
  IsNumber,
};

use crate::data_type::{DataType, power_of_two};
use crate::packed_bytes::unsigned_of;
use arrayvec::ArrayVec;
use byteorder::{ByteOrder, LittleEndian};
use std::error::Error;
use std::fmt;

/// Why a number has no bytes, or bytes no number.
#[derive(Clone, Copy, Debug, PartialEq, Eq)]
pub enum ValueFault {
    /// The number is outside the type's range, or the type has no width.
    OutOfRange,
    /// The length isn't the type's width, or the type has none.
    WrongLength,
}

impl fmt::Display for ValueFault {
    ghost use Rattle.std.specs.Prelude.{Some};
    ghost use Rattle.co_value.specs.ValueFaults.{fault_name};

    ghost output = { λ fault. Some (fault_name fault) };

    fn fmt<W: fmt::Write>(&self, f: &mut fmt::Formatter<W>) -> fmt::Result {
        match self {
            ValueFault::OutOfRange => write!(f, "OutOfRange"),
            ValueFault::WrongLength => write!(f, "WrongLength"),
        }
    }
}

impl Error for ValueFault {}

/// The bytes of a number: little-endian, two's complement at a signed type (CiA 301, 7.1.4).
/// `OutOfRange` outside the type's range, and at a string or a domain.
pub fn to_bytes(data_type: DataType, value: i128) -> Result<ArrayVec<u8, 8>, ValueFault>
    ensures ok { IsOk result ↔ InRange data_type value }
    ensures number { IfOk result (λ bytes. IsNumber data_type bytes.items value) }
    ensures bytes { IfOk result (λ bytes. bytes.items ≡ bytes_of data_type value) }
    ensures err { IfErr result (λ fault. fault ≡ ValueFault.OutOfRange) }
{
    match data_type.width() {
        Some(width) if data_type.contains(value) => Ok(number_bytes(data_type, value, width)),
        _ => Err(ValueFault::OutOfRange),
    }
}

fn number_bytes(data_type: DataType, value: i128, width: usize) -> ArrayVec<u8, 8>
    requires width { width_of data_type ≡ Some width }
    requires range { InRange data_type value }
    ensures { result.items ≡ bytes_of data_type value }
{
    let mut bytes = [0; 8];
    LittleEndian::write_uint128(&mut bytes, unsigned_bits(8 * width, value), width);
    let mut short = ArrayVec::from(bytes);
    short.truncate(width);
    short
}

// a negative number plus 2 ^ bits
fn unsigned_bits(bits: usize, value: i128) -> u128
    requires some { 1 ≤ bits }
    requires few { bits ≤ 64 }
    requires low { neg_ℤ (pos (2 ^ (bits - 1))) ≤ℤ value }
    requires high { value ≤ℤ pos (2 ^ bits - 1) }
    ensures value { result ≡ bits_of bits value }
    ensures fits { result < 2 ^ bits }
{
    if value < 0 {
        (value + power_of_two(bits)) as u128
    } else {
        value as u128
    }
}

/// The number that the bytes stand for: little-endian, two's complement at a signed type
/// (CiA 301, 7.1.4). `WrongLength` where the number of bytes isn't the type's width, and at a
/// string or a domain.
pub fn from_bytes(data_type: DataType, bytes: &[u8]) -> Result<i128, ValueFault>
    ensures ok { IsOk result ↔ (width_of data_type ≡ Some (length bytes.now)) }
    ensures number { IfOk result (λ value. value ≡ number_of data_type bytes.now) }
    ensures range { IfOk result (λ value. FitsWidth data_type value) }
    ensures err { IfErr result (λ fault. fault ≡ ValueFault.WrongLength) }
{
    if data_type.width() != Some(bytes.len()) {
        return Err(ValueFault::WrongLength);
    }
    Ok(number_in(data_type, bytes))
}

fn number_in(data_type: DataType, bytes: &[u8]) -> i128
    requires some { 1 ≤ length bytes.now }
    requires few { length bytes.now ≤ 8 }
    ensures { result ≡ number_of data_type bytes.now }
{
    let number = unsigned_of(bytes);
    if data_type.is_signed() {
        signed_of(8 * bytes.len(), number)
    } else {
        i128::from(number)
    }
}

// in two's complement, an unsigned number whose top bit is set stands for itself less 2 ^ bits
fn signed_of(bits: usize, number: u64) -> i128
    requires some { 1 ≤ bits }
    requires few { bits ≤ 64 }
    ensures { result ≡ signed_of bits number }
{
    let half = 1u64 << (bits - 1);
    if number < half {
        i128::from(number)
    } else {
        i128::from(number) - 2 * i128::from(half)
    }
}

/// A number has one spelling: bytes of the same length and with the same number are the same bytes.
/// This is a law: a call of it changes nothing.
pub fn one_spelling()
    ensures { (t : DataType) → HasOneSpelling t }
{}

/// Bytes and numbers convert back and forth: bytes of the type's width are the bytes of their
/// number, and a number that fits the width has that many bytes. This is a law: a call of it
/// changes nothing.
pub fn way_back()
    ensures back { (t : DataType) → HasWayBack t }
    ensures bytes { (t : DataType) → HasBytes t }
{}
