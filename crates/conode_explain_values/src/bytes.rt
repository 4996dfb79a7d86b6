//! The text of bytes. Each function appends a text; on an `Err` memory ran out, and a part of it
//! may be there.

ghost use Rattle.std.specs.Prelude.{◌≡◌, ◌++◌, OnOk, string_bytes};
ghost use Rattle.conode_explain_values.specs.Bytes.{raw_text, is_itself, visible_byte, visible_text};

use co_text::push_bytes;
use conode_text::{Value, push_filled};
use std::alloc::AllocError;

/// Appends bytes, two hexadecimal digits each; a hyphen for none.
pub(crate) fn push_raw(text: &mut String, bytes: &[u8]) -> Result<(), AllocError>
    ensures { OnOk result
        (string_bytes text.new ≡ string_bytes text.old ++ raw_text bytes.now) }
{
    if bytes.is_empty() {
        return text.push_str("-");
    }
    push_bytes(text, bytes)
}

fn is_itself(byte: u8) -> bool
    ensures { result ≡ is_itself byte }
{
    (0x20 <= byte && byte <= 0x7E) && !(byte == b'"' || byte == b'\\')
}

#[tactic(auto, unfolding(conode_text::specs::Filled::filled))]
fn push_visible_byte(text: &mut String, byte: u8) -> Result<(), AllocError>
    ensures { OnOk result
        (string_bytes text.new ≡ string_bytes text.old ++ visible_byte byte) }
{
    if is_itself(byte) {
        return text.push(byte as char);
    }
    push_filled(text, "\\x%", &[Value::Byte(byte)])
}

/// Appends a VISIBLE_STRING in double quotes.
pub(crate) fn push_visible(text: &mut String, bytes: &[u8]) -> Result<(), AllocError>
    ensures { OnOk result
        (string_bytes text.new ≡ string_bytes text.old ++ visible_text bytes.now) }
{
    attempt!(text.push_str("\""));
    for byte in bytes {
        attempt!(push_visible_byte(text, *byte));
    }
    text.push_str("\"")
}
