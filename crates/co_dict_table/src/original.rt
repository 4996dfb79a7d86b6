//! The original data type of an entry of a sheet that was adapted.

ghost use Rattle.std.specs.Prelude.{◌≡◌, bytes_eq};
ghost use Rattle.std.specs.Option.{option_copied};
ghost use Rattle.co_dict_table.specs.Entries.{code_or, code_written};

use co_value::DataType;

fn is(text: &[u8], code: &[u8]) -> bool
    ensures { result ≡ bytes_eq text.now code.now }
{
    text == code
}

// The number of an original type's code.
fn code_written(text: &[u8]) -> u16
    ensures { result ≡ code_written text.now }
{
    if is(text, b"0x0008") {
        0x08
    } else if is(text, b"0x000B") {
        0x0B
    } else if is(text, b"0x000C") {
        0x0C
    } else if is(text, b"0x000D") {
        0x0D
    } else {
        0x11
    }
}

/// The code of an entry's original type, where it has one, else of its data type.
pub(crate) fn code_or(original: Option<&'static [u8]>, data_type: DataType) -> u16
    ensures { result ≡ code_or (option_copied original.entry) data_type }
{
    match original {
        Some(text) => code_written(text),
        None => data_type.code(),
    }
}
