//! Text from outside in markup. Each function appends a text. `Err`: out of memory; a part of it
//! may be there.

ghost use Rattle.std.specs.Prelude.{◌≡◌, ◌++◌, true, IfOk, OnOk, option_map, string_bytes};
ghost use Rattle.std.specs.List.{flat_map};
ghost use Rattle.conode_json.specs.Escapes.{
  escaped,
  escaped_character,
  is_character_data,
  replacement,
};

use crate::characters::characters_of;
use co_text::push_byte;
use std::alloc::AllocError;

// what stands for a character that has a meaning of its own in markup, or may not be in it
fn replacement(character: char) -> Option<&'static str>
    ensures { option_map (λ text. text.now) result ≡ replacement character }
{
    match character {
        '&' => Some("&amp;"),
        '<' => Some("&lt;"),
        '>' => Some("&gt;"),
        '"' => Some("&quot;"),
        '\'' => Some("&#39;"),
        '\t' => Some("\\t"),
        '\u{FFFE}' | '\u{FFFF}' => Some("\u{FFFD}"),
        _ => None,
    }
}

#[tactic(auto, unfolding(crate::specs::Escapes::escaped_character))]
fn push_character(text: &mut String, character: char) -> Result<(), AllocError>
    ensures { OnOk result
        (string_bytes text.new ≡ string_bytes text.old ++ escaped_character character) }
{
    if let Some(instead) = replacement(character) {
        return text.push_str(instead);
    }
    if character == '\n' || !character.is_control() {
        return text.push(character);
    }
    text.push_str("\\x")?;
    push_byte(text, character as u8)
}

fn push_characters(text: &mut String, characters: &[char]) -> Result<(), AllocError>
    ensures { OnOk result (string_bytes text.new
        ≡ string_bytes text.old ++ flat_map escaped_character characters.now) }
{
    for character in characters {
        push_character(text, *character)?;
    }
    Ok(())
}

/// Appends bytes from outside as text between tags, or in a quoted value: read as UTF-8 if they are
/// valid, else as Windows-1252. The characters `&`, `<`, `>`, `"` and `'` become references;
/// control characters but the line feed are shown, as `\t` and `\x1B`.
#[tactic(auto, using(crate::proofs::EscapeLaws::escaped_plain))]
pub(crate) fn push_escaped(text: &mut String, bytes: &[u8]) -> Result<(), AllocError>
    ensures text { OnOk result
        (string_bytes text.new ≡ string_bytes text.old ++ escaped bytes.now) }
    // It ends no element and no value, and begins none.
    ensures plain { is_character_data (escaped bytes.now) ≡ true }
{
    let characters = characters_of(*text.allocator(), bytes)?;
    push_characters(text, characters.as_slice())
}
