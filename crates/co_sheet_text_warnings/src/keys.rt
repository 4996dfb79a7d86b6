//! The keys of a text as they are written, those too that are passed over where a text is read.

ghost use Rattle.std.specs.Prelude.{◌≡◌, ◌++◌, filter, map, option_map, option_to_list, IfOk, OnOk};
ghost use Rattle.co_sheet_text.specs.Text.{trim};
ghost use Rattle.co_sheet_text.specs.Sections.{form_of};
ghost use Rattle.co_sheet_text_warnings.specs.Keys.{
  begun_name,
  form_of_bytes,
  key_on,
  topic_after,
  topic_of,
};
ghost use Rattle.co_sheet_text_warnings.specs.KnownKeys.{is_telling, telling_keys};
ghost use Rattle.co_sheet_text_warnings.specs.Lines.{numbered};
ghost use Rattle.co_sheet_text_warnings.specs.Views.{key_view};

use crate::known_key::is_known;
use co_sheet_text::{SectionKind, same_name, trim};
use co_text::split_at_first;
use std::alloc::{AllocError, Global};

/// What the keys of a section are about (CiA 306-1, structure of an EDS).
#[derive(Clone, Copy)]
pub enum Topic {
    FileInfo,
    DeviceInfo,
    DeviceCommissioning,
    ObjectLists,
    Dummies,
    /// Objects and sub-indices.
    Objects,
    /// What only the manufacturer knows.
    Other,
}

/// A key with its value, as it is written.
#[derive(Clone, Copy)]
pub struct WrittenKey<'a> {
    pub topic: Topic,
    pub name: &'a [u8],
    pub value: &'a [u8],
    /// From 1.
    pub line: usize,
}

/// What the keys of a section of this name are about.
pub(crate) fn topic_of(name: &[u8]) -> Topic
    ensures { result ≡ topic_of name.now }
{
    if same_name(name, b"FileInfo") {
        return Topic::FileInfo;
    }
    match SectionKind::of_name(name) {
        SectionKind::MandatoryObjects
        | SectionKind::OptionalObjects
        | SectionKind::ManufacturerObjects => Topic::ObjectLists,
        SectionKind::DeviceInfo => Topic::DeviceInfo,
        SectionKind::DeviceCommissioning => Topic::DeviceCommissioning,
        SectionKind::Object(_) | SectionKind::SubIndex(_) => Topic::Objects,
        SectionKind::DummyUsage => Topic::Dummies,
        SectionKind::PassedOver => Topic::Other,
    }
}

// the name of the section that a line begins, of a text without blanks at its ends; without `]` it
// has none
fn begun_name(text: &[u8]) -> Option<&[u8]>
    ensures { option_map (λ name. name.now) result ≡ begun_name (form_of text.now) }
{
    match text {
        [b'[', rest @ ..] => match split_at_first(rest, b']') {
            Some((name, _)) => Some(trim(name)),
            None => Some(b""),
        },
        _ => None,
    }
}

// what the keys are about after a line
fn topic_after(topic: Topic, text: &[u8]) -> Topic
    ensures { result ≡ topic_after topic (form_of text.now) }
{
    match begun_name(text) {
        Some(name) => topic_of(name),
        None => topic,
    }
}

// the key that a line gives, of a text without blanks at its ends
fn key_on<'a>(topic: Topic, line: usize, text: &'a [u8]) -> Option<WrittenKey<'a>>
    ensures { option_to_list (option_map key_view result) ≡ key_on topic line (form_of text.now) }
{
    if let [b';' | b'[', ..] = text {
        return None;
    }
    let Some((name, value)) = split_at_first(text, b'=') else {
        return None;
    };
    let name = trim(name);
    let value = trim(value);
    if name.is_empty() || value.is_empty() {
        return None;
    }
    Some(WrittenKey {
        topic,
        name,
        value,
        line,
    })
}

/// A line of more bytes isn't read.
const LONGEST: usize = 512;

// a line without blanks at its ends; nothing of one that isn't read
fn text_read(line: &[u8]) -> &[u8]
    ensures { form_of result.now ≡ form_of_bytes line.now }
{
    if LONGEST < line.len() {
        return b"";
    }
    trim(line)
}

// adds the key that a line gives, where a warning can be about it
fn add_telling<'a>(
    keys: &mut Vec<WrittenKey<'a>>,
    topic: Topic,
    line: usize,
    text: &'a [u8],
) -> Result<(), AllocError>
    ensures { OnOk result (map key_view keys.new.items
        ≡ map key_view keys.old.items ++ filter is_telling (key_on topic line (form_of text.now))) }
{
    match key_on(topic, line, text) {
        Some(key) if matches!(key.topic, Topic::FileInfo | Topic::DeviceInfo) || !is_known(&key) =>
            {
                attempt_in_memory!(keys.push(key));
                Ok(())
            }
        _ => Ok(()),
    }
}

/// The keys of lines that a warning can be about (CiA 306-1, structure of an EDS): those of
/// FileInfo and DeviceInfo, and those that the standard doesn't know. Of a large sheet they are
/// few. `Err`: out of memory.
pub fn keys_in<'a>(alloc: Global, lines: &[&'a [u8]]) -> Result<Vec<WrittenKey<'a>>, AllocError>
    ensures { IfOk result
        (λ keys. map key_view keys.items ≡ telling_keys (numbered 1 (map (λ line. line.now) lines.now))) }
{
    let mut keys = Vec::new(alloc);
    let mut topic = Topic::Other;
    let mut number = 1;
    for line in lines {
        let text = text_read(line);
        attempt!(add_telling(&mut keys, topic, number, text));
        topic = topic_after(topic, text);
        number += 1;
    }
    Ok(keys)
}
