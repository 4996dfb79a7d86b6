//! The line of a value that a recording showed.

ghost use Rattle.std.specs.Prelude.{◌≡◌, ◌++◌, ◌≤◌, OnOk, string_bytes};
ghost use Rattle.std.specs.Option.{option_copied};
ghost use Rattle.conode_compare_text.specs.LearnedTexts.{
  learned_line,
  other_text,
  sheet_text,
  typed_text,
};

use co_value::{Key, bytes_of_u32};
use conode_explain_values::{ValueType, push_named_key, push_value};
use std::alloc::AllocError;

// a number of up to four bytes, of this type
#[tactic(auto, unfolding(crate::specs::LearnedTexts::typed_text))]
fn push_number(
    text: &mut String,
    value_type: ValueType,
    width: usize,
    number: u64,
) -> Result<(), AllocError>
    requires { width ≤ 4 }
    ensures { OnOk result (string_bytes text.new
        ≡ string_bytes text.old ++ typed_text value_type width number) }
{
    let bytes = bytes_of_u32((number % 0x1_0000_0000) as u32);
    push_value(text, value_type, 8 * width, &bytes[..width])
}

// the number of the data sheet
#[tactic(auto, unfolding(crate::specs::LearnedTexts::other_text))]
fn push_other(
    text: &mut String,
    value_type: ValueType,
    width: usize,
    sheet: u64,
) -> Result<(), AllocError>
    requires { width ≤ 4 }
    ensures { OnOk result (string_bytes text.new
        ≡ string_bytes text.old ++ other_text value_type width sheet) }
{
    attempt!(text.push_str(", the sheet has "));
    push_number(text, value_type, width, sheet)
}

// the number of the data sheet, where it is another one
fn push_sheet(
    text: &mut String,
    value_type: ValueType,
    width: usize,
    number: u64,
    sheet: Option<u64>,
) -> Result<(), AllocError>
    requires { width ≤ 4 }
    ensures { OnOk result (string_bytes text.new
        ≡ string_bytes text.old ++ sheet_text value_type width number sheet) }
{
    match sheet {
        Some(sheet) if sheet != number => push_other(text, value_type, width, sheet),
        _ => Ok(()),
    }
}

/// Sets a text to the line of the number that a recording showed last of an entry, with its line
/// feed: its name and key, the number as `explain` shows it, by its type and so many bytes, up to
/// four; and the number of the data sheet, where that is another one. On an `Err` memory ran out,
/// and a part of it may be there.
#[tactic(auto, unfolding(crate::specs::LearnedTexts::learned_line))]
pub fn set_learned_line(
    text: &mut String,
    name: Option<&str>,
    key: Key,
    value_type: ValueType,
    width: usize,
    number: u64,
    sheet: Option<u64>,
) -> Result<(), AllocError>
    requires { width ≤ 4 }
    ensures { OnOk result (string_bytes text.new
        ≡ learned_line (option_copied name.entry) key value_type width number sheet) }
{
    text.clear();
    attempt!(text.push_str("learned: "));
    attempt!(push_named_key(text, name, key));
    attempt!(text.push_str(" = "));
    attempt!(push_number(text, value_type, width, number));
    attempt!(push_sheet(text, value_type, width, number, sheet));
    text.push('\n')
}
