//! The characters of a text from outside.

ghost use Rattle.std.specs.Prelude.{◌≡◌, ◌++◌, OnOk, IfOk, map, string_bytes};
ghost use Rattle.std.specs.Str.{chars};
ghost use Rattle.conode_json.specs.Characters.{characters_of, in_utf8, utf8_of, windows_1252};

use std::alloc::{AllocError, Global};
use std::str;

/// The characters of the bytes 80h to 9Fh in Windows-1252. The five that it leaves open are control
/// characters.
static MARKS: [char; 32] = [
    '\u{20AC}', '\u{81}', '\u{201A}', '\u{192}', '\u{201E}', '\u{2026}', '\u{2020}', '\u{2021}',
    '\u{2C6}', '\u{2030}', '\u{160}', '\u{2039}', '\u{152}', '\u{8D}', '\u{17D}', '\u{8F}',
    '\u{90}', '\u{2018}', '\u{2019}', '\u{201C}', '\u{201D}', '\u{2022}', '\u{2013}', '\u{2014}',
    '\u{2DC}', '\u{2122}', '\u{161}', '\u{203A}', '\u{153}', '\u{9D}', '\u{17E}', '\u{178}',
];

// the character of a byte in Windows-1252
#[tactic(auto, unfolding(crate::specs::Characters::windows_1252))]
fn windows_1252(byte: u8) -> char
    ensures { result ≡ windows_1252 byte }
{
    if byte < 128 {
        byte as char
    } else if byte < 160 {
        MARKS[(byte - 128) as usize]
    } else {
        byte as char
    }
}

fn in_utf8(alloc: Global, text: &str) -> Result<Vec<char>, AllocError>
    ensures { IfOk result (λ made. made.items ≡ chars text.now) }
{
    text.chars().collect(alloc)
}

fn in_windows_1252(alloc: Global, line: &[u8]) -> Result<Vec<char>, AllocError>
    ensures { IfOk result (λ made. made.items ≡ map windows_1252 line.now) }
{
    let mut characters = Vec::new(alloc);
    for byte in line {
        characters.push(windows_1252(*byte))?;
    }
    Ok(characters)
}

/// The characters of a text, read as UTF-8 if it is valid, else as Windows-1252. `Err`: out of
/// memory.
pub fn characters_of(alloc: Global, line: &[u8]) -> Result<Vec<char>, AllocError>
    ensures { IfOk result (λ made. made.items ≡ characters_of line.now) }
{
    match str::from_utf8(line) {
        Ok(text) => in_utf8(alloc, text),
        Err(_) => in_windows_1252(alloc, line),
    }
}

fn push_utf8(text: &mut String, characters: &[char]) -> Result<(), AllocError>
    ensures { OnOk result
        (string_bytes text.new ≡ string_bytes text.old ++ in_utf8 characters.now) }
{
    for character in characters {
        text.push(*character)?;
    }
    Ok(())
}

/// A text in UTF-8: as it is if valid, else converted from Windows-1252. `Err`: out of memory.
pub fn utf8_of(alloc: Global, line: &[u8]) -> Result<String, AllocError>
    ensures { IfOk result (λ text. string_bytes text ≡ utf8_of line.now) }
{
    let characters = characters_of(alloc, line)?;
    let mut text = String::new(alloc);
    push_utf8(&mut text, characters.as_slice())?;
    Ok(text)
}
