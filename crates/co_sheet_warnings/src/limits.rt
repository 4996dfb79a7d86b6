//! A limit that is another number than it looks.

ghost use Rattle.std.specs.Prelude.{◌≡◌, option_to_list};
ghost use Rattle.co_sheet_text.specs.Numerals.{signed_numeral};
ghost use Rattle.co_sheet_text.specs.Views.{section_view};
ghost use Rattle.co_sheet_warnings.specs.Limits.{is_all_ones, negative_limit, type_at};

use co_sheet::data_type_with;
use co_sheet_text::{Numeral, TextSection, signed_numeral};
use co_value::DataType;

// whether a text is hexadecimal digits that mean -1 at a type
fn is_all_ones(data_type: DataType, text: &[u8]) -> bool
    ensures { result ≡ is_all_ones data_type (signed_numeral text.now) }
{
    match signed_numeral(text) {
        Ok(Numeral::Hexadecimal(number)) => {
            Numeral::Hexadecimal(number).value_at(data_type) == -1
        }
        _ => false,
    }
}

/// The type of an entry, by the code of its DataType.
pub(crate) fn type_at(section: &TextSection) -> Option<DataType>
    ensures { result ≡ type_at (section_view section.now) }
{
    match section.number_at(b"DataType") {
        Some(code) => data_type_with(code),
        None => None,
    }
}

/// The line of a HighLimit without a LowLimit whose hexadecimal digits mean -1 at the entry's type.
pub(crate) fn negative_limit(section: &TextSection) -> Option<usize>
    ensures { option_to_list result ≡ negative_limit (section_view section.now) }
{
    let Some(high) = section.property(b"HighLimit") else {
        return None;
    };
    if section.property(b"LowLimit").is_some() {
        return None;
    }
    match type_at(section) {
        Some(data_type) if is_all_ones(data_type, high.value) => Some(high.line),
        _ => None,
    }
}
