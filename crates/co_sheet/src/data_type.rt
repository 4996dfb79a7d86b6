//! The data types that a data sheet states.

ghost use Rattle.std.specs.Prelude.{◌≡◌, Some};
ghost use Rattle.co_sheet.specs.Entries.{data_type_with};
ghost use Rattle.co_sheet.specs.ObjectLists.{is_one_of};
ghost use Rattle.co_sheet.specs.Checks.{left_out_codes};

use co_value::DataType;

/// The data type with this code; `None` for those that are left out, and for every other code
/// (CiA 301, 7.4.7.1).
pub fn data_type_with(code: u64) -> Option<DataType>
    ensures { result ≡ data_type_with code }
{
    if code > 0xFFFF {
        return None;
    }
    DataType::from_code(code as u16)
}

/// Whether the code is REAL32's, UNICODE_STRING's, TIME_OF_DAY's, TIME_DIFFERENCE's or REAL64's,
/// which are left out (CiA 301, 7.4.7.1).
pub fn is_left_out(code: u64) -> bool
    ensures { result ≡ is_one_of left_out_codes (Some code) }
{
    matches!(code, 0x08 | 0x0B | 0x0C | 0x0D | 0x11)
}
