//! JSON in parts: brackets, and members of objects. Each function writes tokens. `Err`: out of
//! memory; some tokens may be there.

ghost use Rattle.std.specs.Prelude.{◌≡◌, ◌++◌, OnOk, string_bytes};
ghost use Rattle.std.specs.List.{flat_map};
ghost use Rattle.conode_json.specs.Members.{text_member};
ghost use Rattle.conode_stats.specs.StatsTokens.{number_in};
ghost use Rattle.conode_stats.specs.Parts.{part_tokens, word_text};

use co_text::{push_u16, push_u32};
use conode_explain_text::push_name;
use conode_json::JsonWriter;
use conode_stats_text::push_id;
use std::alloc::{AllocError, Global};

/// A text that is made of a value.
#[derive(Clone, Copy)]
pub(crate) enum Word<'a> {
    /// An identifier.
    Id(u32),
    /// The name of an interface.
    Name(&'a [u8]),
    /// A number in eight hexadecimal digits.
    Long(u32),
    /// A number in four hexadecimal digits.
    Short(u16),
}

/// A part of a document.
#[derive(Clone, Copy)]
pub(crate) enum Part<'a> {
    Nothing,
    BeginObject,
    EndObject,
    EndArray,
    /// The beginning of a member that is an object.
    Object(&'a str),
    /// The beginning of a member that is an array.
    Array(&'a str),
    Text(&'a str, &'a str),
    Number(&'a str, u64),
    /// A number, if there is one.
    NumberIf(&'a str, Option<u64>),
    /// A text that is made of a value.
    Word(&'a str, Word<'a>),
}

fn put_number_in(
    alloc: Global,
    writer: &mut JsonWriter,
    name: &str,
    number: Option<u64>,
) -> Result<(), AllocError>
    ensures { OnOk result (writer.new ≡ writer.old ++ number_in name.now number) }
{
    match number {
        Some(number) => writer.put_number(alloc, name, i128::from(number)),
        None => Ok(()),
    }
}

fn push_word(text: &mut String, word: Word<'_>) -> Result<(), AllocError>
    ensures { OnOk result
        (string_bytes text.new ≡ string_bytes text.old ++ word_text word.entry) }
{
    match word {
        Word::Id(id) => push_id(text, id),
        Word::Name(name) => push_name(text, name),
        Word::Long(number) => push_u32(text, number),
        Word::Short(number) => push_u16(text, number),
    }
}

fn put_word(
    alloc: Global,
    writer: &mut JsonWriter,
    name: &str,
    word: Word<'_>,
) -> Result<(), AllocError>
    ensures { OnOk result
        (writer.new ≡ writer.old ++ text_member name.now (word_text word.entry)) }
{
    let mut text = String::new(alloc);
    match push_word(&mut text, word) {
        Ok(()) => writer.put_text(name, text.as_str()),
        Err(fault) => Err(fault),
    }
}

fn put_part(alloc: Global, writer: &mut JsonWriter, part: &Part<'_>) -> Result<(), AllocError>
    ensures { OnOk result (writer.new ≡ writer.old ++ part_tokens part.now) }
{
    match *part {
        Part::Nothing => Ok(()),
        Part::BeginObject => writer.begin_object(),
        Part::EndObject => writer.end_object(),
        Part::EndArray => writer.end_array(),
        Part::Object(name) => writer.begin_object_of(name),
        Part::Array(name) => writer.begin_array_of(name),
        Part::Text(name, text) => writer.put_text(name, text),
        Part::Number(name, number) => writer.put_number(alloc, name, i128::from(number)),
        Part::NumberIf(name, number) => put_number_in(alloc, writer, name, number),
        Part::Word(name, word) => put_word(alloc, writer, name, word),
    }
}

/// Writes parts.
pub(crate) fn put_parts(
    alloc: Global,
    writer: &mut JsonWriter,
    parts: &[Part<'_>],
) -> Result<(), AllocError>
    ensures { OnOk result (writer.new ≡ writer.old ++ flat_map part_tokens parts.now) }
{
    for part in parts {
        attempt!(put_part(alloc, writer, part));
    }
    Ok(())
}
