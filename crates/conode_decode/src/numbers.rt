//! The fields of a frame. Each function appends a text. `Err`: out of memory; a part of the text
//! may be there.

ghost use Rattle.std.specs.Prelude.{◌≡◌, ◌++◌, OnOk, string_bytes};
ghost use Rattle.co_value.specs.KeyTexts.{key_text};
ghost use Rattle.conode_decode.specs.Numbers.{hex_text, toggle_text, size_text};

use co_text::{push_bytes, push_decimal};
use co_value::Key;
use std::alloc::AllocError;

pub(crate) fn push_words(text: &mut String, words: &str) -> Result<(), AllocError>
    ensures { OnOk result (string_bytes text.new ≡ string_bytes text.old ++ words.now) }
{
    text.push_str(words)
}

pub(crate) fn push_key(text: &mut String, key: Key) -> Result<(), AllocError>
    ensures { OnOk result (string_bytes text.new ≡ string_bytes text.old ++ key_text key) }
{
    text.push_str(key.text().as_str())
}

pub(crate) fn push_hex(text: &mut String, bytes: &[u8]) -> Result<(), AllocError>
    ensures { OnOk result (string_bytes text.new ≡ string_bytes text.old ++ hex_text bytes.now) }
{
    if bytes.is_empty() {
        return text.push('-');
    }
    push_bytes(text, bytes)
}

pub(crate) fn push_toggle(text: &mut String, toggle: bool) -> Result<(), AllocError>
    ensures { OnOk result (string_bytes text.new ≡ string_bytes text.old ++ toggle_text toggle) }
{
    text.push(if toggle { '1' } else { '0' })
}

pub(crate) fn push_size(text: &mut String, size: Option<u32>) -> Result<(), AllocError>
    ensures { OnOk result (string_bytes text.new ≡ string_bytes text.old ++ size_text size) }
{
    let Some(size) = size else {
        return Ok(());
    };
    attempt!(push_words(text, " size "));
    push_decimal(text, size as u64)
}
