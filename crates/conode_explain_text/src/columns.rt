//! Interface, identifier, length and data of a frame. Each function appends a text; on an `Err`
//! memory ran out, and a part of it may be there.

ghost use Rattle.std.specs.Prelude.{◌≡◌, ◌≤◌, ◌<◌, ◌++◌, OnOk, string_bytes, length};
ghost use Rattle.std.specs.List.{flat_map};
ghost use Rattle.co_text.specs.Printed.{digits_text};
ghost use Rattle.conode_record.specs.Grammar.{IsIdentifier};
ghost use Rattle.conode_explain_text.specs.Columns.{
  escaped,
  escaped_name,
  id_text,
  blank_byte,
  bytes_text,
  content_text,
  length_text,
};

use crate::stamps::push_blanks;
use arrayvec::ArrayString;
use co_text::{byte_digits, push_u32};
use conode_record::{Content, Identifier};
use conode_text::{Value, push_filled};
use std::alloc::AllocError;

#[tactic(auto, unfolding(conode_text::specs::Filled::filled))]
fn push_escaped(text: &mut String, byte: u8) -> Result<(), AllocError>
    ensures { OnOk result (string_bytes text.new ≡ string_bytes text.old ++ escaped byte) }
{
    if (0x21..=0x7E).contains(&byte) {
        return text.push(byte as char);
    }
    push_filled(text, "\\x%", &[Value::Byte(byte)])
}

/// Appends a name; bytes that can't be printed are written as `\x07`. On an `Err` memory ran out, and a
/// part of it may be there.
pub fn push_name(text: &mut String, name: &[u8]) -> Result<(), AllocError>
    ensures { OnOk result (string_bytes text.new ≡ string_bytes text.old ++ escaped_name name.now) }
{
    for byte in name {
        attempt!(push_escaped(text, *byte));
    }
    Ok(())
}

// an identifier of 11 bits
#[tactic(auto, unfolding(co_text::specs::Printed::digits_text))]
fn base_digits(id: u16) -> ArrayString<3>
    requires { id < 2048 }
    ensures { result.bytes ≡ digits_text 16 3 id }
{
    let mut digits = ArrayString::new();
    digits.push((b'0' + (id / 256) as u8) as char);
    digits.push_str(byte_digits((id % 256) as u8).as_str());
    digits
}

/// Appends an identifier in hexadecimal digits: three for one of 11 bits, eight for one of 29 bits and
/// for an error frame.
pub fn push_id(text: &mut String, id: Identifier) -> Result<(), AllocError>
    requires { IsIdentifier id }
    ensures { OnOk result (string_bytes text.new ≡ string_bytes text.old ++ id_text id) }
{
    match id {
        Identifier::Base(id) => text.push_str(base_digits(id).as_str()),
        Identifier::Extended(id) => push_u32(text, id),
        Identifier::Error(class) => push_u32(text, class + 0x2000_0000),
    }
}

// a blank and a byte
fn blank_byte(byte: u8) -> ArrayString<3>
    ensures { result.bytes ≡ blank_byte byte }
{
    let mut text = ArrayString::new();
    text.push(' ');
    text.push_str(byte_digits(byte).as_str());
    text
}

fn push_each(text: &mut String, bytes: &[u8]) -> Result<(), AllocError>
    ensures { OnOk result
        (string_bytes text.new ≡ string_bytes text.old ++ flat_map blank_byte bytes.now) }
{
    for byte in bytes {
        attempt!(text.push_str(blank_byte(*byte).as_str()));
    }
    Ok(())
}

#[tactic(auto, unfolding(conode_text::specs::Filled::filled))]
fn push_length(text: &mut String, count: usize) -> Result<(), AllocError>
    ensures { OnOk result
        (string_bytes text.new ≡ string_bytes text.old ++ length_text count) }
{
    push_filled(text, "[%]", &[Value::Number(count as u64)])
}

#[tactic(auto, unfolding(crate::specs::Columns::bytes_text))]
fn push_counted(text: &mut String, count: usize, bytes: &[u8]) -> Result<(), AllocError>
    requires { length bytes.now ≤ 64 }
    ensures { OnOk result
        (string_bytes text.new ≡ string_bytes text.old ++ bytes_text count bytes.now) }
{
    attempt!(push_length(text, count));
    attempt!(push_each(text, bytes));
    push_blanks(text, 24usize.saturating_sub(3 * bytes.len()))
}

/// Appends the length and the data of a frame.
pub(crate) fn push_content(text: &mut String, content: &Content<'_>) -> Result<(), AllocError>
    ensures { OnOk result
        (string_bytes text.new ≡ string_bytes text.old ++ content_text content.now) }
{
    match content {
        Content::Data(bytes) => {
            let bytes = bytes.to_list();
            push_counted(text, bytes.len(), bytes.as_slice())
        }
        Content::Remote(count) => push_counted(text, *count as usize, &[]),
        Content::Fd(_, data) => {
            let bytes = data.bytes();
            push_counted(text, bytes.len(), bytes.as_slice())
        }
    }
}
