//! The data types of values.

ghost use Rattle.std.specs.Prelude.{◌≡◌, bytes_eq};
ghost use Rattle.std.specs.Option.{option_copied};
ghost use Rattle.conode_explain_values.specs.Types.{is_boolean_type, original_type, type_bits, type_of, is_whole};

use co_value::DataType;

/// The code of BOOLEAN (CiA 301, 7.4.7.1).
pub(crate) const BOOLEAN: u16 = 0x01;

/// The data type of a value (CiA 301, 7.4.7.1).
#[derive(Clone, Copy)]
pub enum ValueType {
    /// A type that an entry of our dictionaries may have: BOOLEAN, integers, VISIBLE_STRING,
    /// OCTET_STRING, DOMAIN.
    Plain(DataType),
    /// REAL32, as IEEE 754 has it.
    Real32,
    /// REAL64.
    Real64,
    /// UNICODE_STRING: UTF-16, the low byte of each unit first.
    UnicodeString,
    /// TIME_OF_DAY: ms after midnight, and days since 1 January 1984.
    TimeOfDay,
    /// TIME_DIFFERENCE: ms and days.
    TimeDifference,
}

// (a call where a comparison of slices is four times the code)
fn is_code(code: &[u8], of: &[u8]) -> bool
    ensures { result ≡ bytes_eq code.now of.now }
{
    code == of
}

// the type that the code of an original type says
fn original_type(code: &[u8]) -> Option<ValueType>
    ensures { result ≡ original_type code.now }
{
    if is_code(code, b"0x0008") {
        Some(ValueType::Real32)
    } else if is_code(code, b"0x000B") {
        Some(ValueType::UnicodeString)
    } else if is_code(code, b"0x000C") {
        Some(ValueType::TimeOfDay)
    } else if is_code(code, b"0x000D") {
        Some(ValueType::TimeDifference)
    } else if is_code(code, b"0x0011") {
        Some(ValueType::Real64)
    } else {
        None
    }
}

impl ValueType {
    /// The type of an entry's values: the one that an adapted sheet has in `OriginalDataType`, as
    /// `0x000C`, if it is one of these; else `data_type`.
    pub fn of(original: Option<&[u8]>, data_type: DataType) -> ValueType
        ensures value_type { result ≡ type_of (option_copied original.entry) data_type }
    {
        let Some(code) = original else {
            return ValueType::Plain(data_type);
        };
        original_type(code).unwrap_or(ValueType::Plain(data_type))
    }

    /// How many bits a value of the type has; `None` where it may have any number of bytes.
    pub(crate) fn bits(self) -> Option<usize>
        ensures { result ≡ type_bits self }
    {
        match self {
            ValueType::Plain(data_type) => match data_type.width() {
                Some(width) => Some(8 * width),
                None => None,
            },
            ValueType::Real32 => Some(32),
            ValueType::Real64 => Some(64),
            ValueType::UnicodeString => None,
            ValueType::TimeOfDay | ValueType::TimeDifference => Some(48),
        }
    }

    fn is_boolean(self) -> bool
        ensures { result ≡ is_boolean_type self }
    {
        match self {
            ValueType::Plain(data_type) => data_type.code() == BOOLEAN,
            ValueType::Real32
            | ValueType::Real64
            | ValueType::UnicodeString
            | ValueType::TimeOfDay
            | ValueType::TimeDifference => false,
        }
    }

    /// Whether so many bits are a whole value: as many as the type has, or one of BOOLEAN, or whole
    /// bytes of a string or a domain.
    pub(crate) fn is_whole(self, bits: usize) -> bool
        ensures { result ≡ is_whole self bits }
    {
        match self.bits() {
            Some(size) => bits == size || (bits == 1 && self.is_boolean()),
            None => bits % 8 == 0,
        }
    }
}
