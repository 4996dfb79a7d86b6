//! The data types of entries.

ghost use Rattle.std.specs.Prelude.{◌≡◌, ◌↔◌, ◌≤◌, pos, ◌^◌, ◌*◌, ◌-◌, IsTrue, IfSome};
ghost use Rattle.co_value.specs.declared.data_type.DataType.{DataType};
ghost use Rattle.co_value.specs.Types.{
  code_of,
  width_of,
  is_signed,
  least_of,
  greatest_of,
  least_at,
  greatest_at,
  InRange,
};

/// A data type that an entry of the object dictionary may have (CiA 301, 7.4.7.1).
#[derive(Clone, Copy, Debug, PartialEq, Eq)]
pub enum DataType {
    Boolean,
    Integer8,
    Integer16,
    Integer24,
    Integer32,
    Integer40,
    Integer48,
    Integer56,
    Integer64,
    Unsigned8,
    Unsigned16,
    Unsigned24,
    Unsigned32,
    Unsigned40,
    Unsigned48,
    Unsigned56,
    Unsigned64,
    VisibleString,
    OctetString,
    Domain,
}

impl DataType {
    /// The type with this code, which is the index of its definition entry (CiA 301, 7.4.7.1).
    /// `None` for REAL32, REAL64, UNICODE_STRING, TIME_OF_DAY, TIME_DIFFERENCE and every other
    /// code.
    pub fn from_code(code: u16) -> Option<DataType>
        ensures found { IfSome result (λ t. code_of t ≡ code) }
        ensures only { (t : DataType) → code_of t ≡ code → result ≡ Some t }
    {
        match code {
            0x01 => Some(DataType::Boolean),
            0x02 => Some(DataType::Integer8),
            0x03 => Some(DataType::Integer16),
            0x04 => Some(DataType::Integer32),
            0x05 => Some(DataType::Unsigned8),
            0x06 => Some(DataType::Unsigned16),
            0x07 => Some(DataType::Unsigned32),
            0x09 => Some(DataType::VisibleString),
            0x0A => Some(DataType::OctetString),
            0x0F => Some(DataType::Domain),
            0x10 => Some(DataType::Integer24),
            0x12 => Some(DataType::Integer40),
            0x13 => Some(DataType::Integer48),
            0x14 => Some(DataType::Integer56),
            0x15 => Some(DataType::Integer64),
            0x16 => Some(DataType::Unsigned24),
            0x18 => Some(DataType::Unsigned40),
            0x19 => Some(DataType::Unsigned48),
            0x1A => Some(DataType::Unsigned56),
            0x1B => Some(DataType::Unsigned64),
            _ => None,
        }
    }

    /// The code by which a data sheet names the type (CiA 301, 7.4.7.1).
    pub fn code(self) -> u16
        ensures { result ≡ code_of self }
    {
        match self {
            DataType::Boolean => 0x01,
            DataType::Integer8 => 0x02,
            DataType::Integer16 => 0x03,
            DataType::Integer24 => 0x10,
            DataType::Integer32 => 0x04,
            DataType::Integer40 => 0x12,
            DataType::Integer48 => 0x13,
            DataType::Integer56 => 0x14,
            DataType::Integer64 => 0x15,
            DataType::Unsigned8 => 0x05,
            DataType::Unsigned16 => 0x06,
            DataType::Unsigned24 => 0x16,
            DataType::Unsigned32 => 0x07,
            DataType::Unsigned40 => 0x18,
            DataType::Unsigned48 => 0x19,
            DataType::Unsigned56 => 0x1A,
            DataType::Unsigned64 => 0x1B,
            DataType::VisibleString => 0x09,
            DataType::OctetString => 0x0A,
            DataType::Domain => 0x0F,
        }
    }

    /// The width of a numeric type in bytes, 1 to 8; `None` for strings and domains.
    pub fn width(self) -> Option<usize>
        ensures value { result ≡ width_of self }
        ensures some { IfSome result (λ width. 1 ≤ width) }
        ensures small { IfSome result (λ width. width ≤ 8) }
    {
        match self {
            DataType::Boolean | DataType::Integer8 | DataType::Unsigned8 => Some(1),
            DataType::Integer16 | DataType::Unsigned16 => Some(2),
            DataType::Integer24 | DataType::Unsigned24 => Some(3),
            DataType::Integer32 | DataType::Unsigned32 => Some(4),
            DataType::Integer40 | DataType::Unsigned40 => Some(5),
            DataType::Integer48 | DataType::Unsigned48 => Some(6),
            DataType::Integer56 | DataType::Unsigned56 => Some(7),
            DataType::Integer64 | DataType::Unsigned64 => Some(8),
            DataType::VisibleString | DataType::OctetString | DataType::Domain => None,
        }
    }

    /// Whether the type's numbers are in two's complement (CiA 301, 7.1.4.6).
    pub fn is_signed(self) -> bool
        ensures { result ≡ is_signed self }
    {
        match self {
            DataType::Integer8
            | DataType::Integer16
            | DataType::Integer24
            | DataType::Integer32
            | DataType::Integer40
            | DataType::Integer48
            | DataType::Integer56
            | DataType::Integer64 => true,
            DataType::Boolean
            | DataType::Unsigned8
            | DataType::Unsigned16
            | DataType::Unsigned24
            | DataType::Unsigned32
            | DataType::Unsigned40
            | DataType::Unsigned48
            | DataType::Unsigned56
            | DataType::Unsigned64
            | DataType::VisibleString
            | DataType::OctetString
            | DataType::Domain => false,
        }
    }

    /// The smallest number of a numeric type; `None` for strings and domains.
    pub fn least(self) -> Option<i128>
        ensures { result ≡ least_of self }
    {
        let width = self.width()?;
        Some(least_number(self.is_signed(), width))
    }

    /// The greatest number of a numeric type, 1 for BOOLEAN; `None` for strings and domains.
    pub fn greatest(self) -> Option<i128>
        ensures { result ≡ greatest_of self }
    {
        if self == DataType::Boolean {
            return Some(1);
        }
        let width = self.width()?;
        Some(greatest_number(self.is_signed(), width))
    }

    /// Whether the number is one of the type; no number is one of a string or a domain.
    pub fn contains(self, value: i128) -> bool
        ensures { IsTrue result ↔ InRange self value }
    {
        match (self.least(), self.greatest()) {
            (Some(least), Some(greatest)) => least <= value && value <= greatest,
            _ => false,
        }
    }
}

// 2 ^ bits
pub(crate) fn power_of_two(bits: usize) -> i128
    requires { bits ≤ 64 }
    ensures { result ≡ pos (2 ^ bits) }
{
    (1u128 << bits) as i128
}

fn least_number(signed: bool, width: usize) -> i128
    requires some { 1 ≤ width }
    requires small { width ≤ 8 }
    ensures { result ≡ least_at signed width }
{
    if signed {
        -power_of_two(8 * width - 1)
    } else {
        0
    }
}

fn greatest_number(signed: bool, width: usize) -> i128
    requires some { 1 ≤ width }
    requires small { width ≤ 8 }
    ensures { result ≡ greatest_at signed width }
{
    if signed {
        power_of_two(8 * width - 1) - 1
    } else {
        power_of_two(8 * width) - 1
    }
}
