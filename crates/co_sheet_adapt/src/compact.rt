//! The sub-indices of an object in compact form, each with a section of its own (CiA 306, compact
//! storage).

ghost use Rattle.std.specs.Prelude.{◌≡◌, ◌++◌, ◌∷◌, [], codes, map, IfOk, OnOk, decimal, string_bytes};
ghost use Rattle.std.specs.List.{flat_map};
ghost use Rattle.std.specs.Option.{option_copied};
ghost use Rattle.co_text.specs.Printed.{digits_text};
ghost use Rattle.co_sheet_adapt.specs.Compact.{
  sub_digits,
  sub_head,
  is_copied,
  copied_line,
  copied_lines,
  default_name,
  kept_value,
  name_line,
  value_line,
  compact_first,
  first_unless_own,
  count_at,
  first_keys,
  first_section,
  is_changed,
  is_changed_word,
  is_count_written,
  is_mapping,
  last_keys,
  own_name,
  type_line,
  sub_section,
  sub_sections,
  compact_text,
  unless_own,
  written_as,
};
ghost use Rattle.co_sheet_changes.specs.Pieces.{assigned};
ghost use Rattle.co_sheet_changes.specs.Views.{line_view, group_view};
ghost use Rattle.co_sheet_adapt.specs.private.Named.{texts_at};

use crate::entry::{entry_change, push_assigned};
use crate::facts::Facts;
use crate::named::Texts;
use co_sheet_changes::{Group, Line, joined, push_number};
use co_sheet_text::same_name;
use co_text::{push_byte, push_digit, push_u16};
use co_value::Key;
use std::alloc::{AllocError, Global};

fn push_sub(text: &mut String, sub: u8) -> Result<(), AllocError>
    ensures { OnOk result (string_bytes text.new ≡ string_bytes text.old ++ sub_digits sub) }
{
    if sub < 16 {
        push_digit(text, sub)
    } else {
        push_byte(text, sub)
    }
}

// the same line in a text of its own
#[tactic(auto, unfolding(crate::specs::Compact::sub_head))]
fn push_head_words(head: &mut String, key: Key) -> Result<(), AllocError>
    ensures { OnOk result (string_bytes head.new ≡ string_bytes head.old ++ sub_head key) }
{
    attempt!(head.push_str("["));
    attempt!(push_u16(head, key.index));
    attempt!(head.push_str("sub"));
    attempt!(push_sub(head, key.sub));
    head.push_str("]\n")
}

// the section line of a sub-index
pub(crate) fn push_head(alloc: Global, text: &mut Vec<u8>, key: Key) -> Result<(), AllocError>
    ensures { OnOk result (text.new.items ≡ text.old.items ++ sub_head key) }
{
    let mut head = String::new(alloc);
    attempt!(push_head_words(&mut head, key));
    text.extend_from_slice(head.as_bytes())
}

// whether a key of the object's section is copied to each sub-index
fn is_copied(name: &[u8]) -> bool
    ensures { result ≡ is_copied name.now }
{
    same_name(name, b"DataType")
        || same_name(name, b"AccessType")
        || same_name(name, b"LowLimit")
        || same_name(name, b"HighLimit")
        || same_name(name, b"DefaultValue")
        || same_name(name, b"PDOMapping")
}

// appends what a name and its value are in a section of an entry
#[tactic(auto, unfolding(crate::specs::Compact::written_as))]
fn push_written(
    alloc: Global,
    text: &mut Vec<u8>,
    facts: &Facts,
    name: &[u8],
    value: &[u8],
    kept: &[u8],
) -> Result<(), AllocError>
    ensures { OnOk result (text.new.items
        ≡ text.old.items ++ written_as facts.now name.now value.now kept.now) }
{
    match attempt!(entry_change(alloc, facts, name, value)) {
        Some(mended) => text.extend_from_slice(mended.new.as_slice()),
        None => push_assigned(text, name, kept),
    }
}

fn push_copied(
    alloc: Global,
    text: &mut Vec<u8>,
    facts: &Facts,
    line: &Line,
) -> Result<(), AllocError>
    ensures { OnOk result
        (text.new.items ≡ text.old.items ++ copied_line facts.now (line_view line.now)) }
{
    match line.property() {
        Some((name, value)) if is_copied(name) => {
            push_written(alloc, text, facts, name, value, value)
        }
        _ => Ok(()),
    }
}

// the lines of the object's section that are copied to each of its sub-indices
fn copied_lines(alloc: Global, facts: &Facts, group: &Group) -> Result<Vec<u8>, AllocError>
    ensures { IfOk result (λ made.
        made.items ≡ copied_lines facts.now (group_view group.now)) }
{
    let mut text = Vec::new(alloc);
    for line in group.body {
        attempt!(push_copied(alloc, &mut text, facts, line));
    }
    Ok(text)
}

// the name of a sub-index that no name is given for
fn default_name(alloc: Global, name: &[u8], sub: u8) -> Result<Vec<u8>, AllocError>
    ensures { IfOk result (λ made. made.items ≡ default_name name.now sub) }
{
    let mut made = attempt!(joined(alloc, name, b" ", b""));
    attempt!(push_number(alloc, &mut made, u64::from(sub)));
    Ok(made)
}

#[tactic(auto, unfolding(crate::specs::Compact::type_line))]
fn type_line() -> &'static [u8]
    ensures { result.now ≡ type_line }
{
    b"ObjectType=0x7\n"
}

// the keys of sub-index 0 up to its number
#[tactic(auto, unfolding(crate::specs::Compact::first_keys))]
fn first_keys(is_written: bool) -> &'static [u8]
    ensures { result.now ≡ first_keys is_written }
{
    if is_written {
        b"ParameterName=Number of entries\nObjectType=0x7\nDataType=0x0005\nAccessType=rw\nDefaultValue="
    } else {
        b"ParameterName=Number of entries\nObjectType=0x7\nDataType=0x0005\nAccessType=ro\nDefaultValue="
    }
}

#[tactic(auto, unfolding(crate::specs::Compact::last_keys))]
fn last_keys() -> &'static [u8]
    ensures { result.now ≡ last_keys }
{
    b"\nPDOMapping=0\n\n"
}

/// Appends the section of sub-index 0, which is written or read-only.
#[tactic(auto, unfolding(crate::specs::Compact::first_section))]
pub(crate) fn push_first_section(
    alloc: Global,
    text: &mut Vec<u8>,
    index: u16,
    is_written: bool,
    number: u8,
) -> Result<(), AllocError>
    ensures { OnOk result
        (text.new.items ≡ text.old.items ++ first_section index is_written number) }
{
    attempt!(push_head(alloc, text, Key { index, sub: 0 }));
    attempt!(text.extend_from_slice(first_keys(is_written)));
    attempt!(push_number(alloc, text, u64::from(number)));
    text.extend_from_slice(last_keys())
}

/// Whether an object is the mapping of a PDO.
pub(crate) fn is_mapping(index: u16) -> bool
    ensures { result ≡ is_mapping index }
{
    matches!(index, 0x1600..=0x17FF | 0x1A00..=0x1BFF)
}

// whether a client writes the sub-indices of an object with this AccessType
fn is_changed(access: Option<&[u8]>) -> bool
    ensures { result ≡ is_changed (option_copied access.entry) }
{
    match access {
        Some(word) => {
            same_name(word, b"rw") || same_name(word, b"rwr") || same_name(word, b"rww")
        }
        None => false,
    }
}

// whether a client writes sub-index 0: of 1003h, to delete the errors, and of a mapping that may be
// changed
fn is_count_written(index: u16, access: Option<&[u8]>) -> bool
    ensures { result ≡ is_count_written index (option_copied access.entry) }
{
    index == 0x1003 || (is_mapping(index) && is_changed(access))
}

// the number in sub-index 0: 1003:00 counts errors, of which there are none at first
fn count_at(index: u16, count: u8) -> u8
    ensures { result ≡ count_at index count }
{
    if index == 0x1003 { 0 } else { count }
}

/// What an object in compact form says of its sub-indices.
#[derive(Clone, Copy)]
pub(crate) struct Compact<'r, 's, 'a> {
    pub(crate) own: &'r Texts<'a>,
    pub(crate) names: &'r Texts<'a>,
    pub(crate) values: &'r Texts<'a>,
    pub(crate) facts: &'r Facts,
    pub(crate) group: &'r Group<'s, 'a>,
    pub(crate) index: u16,
}

impl Compact<'_, '_, '_> {
    // appends the section of sub-index 0, unless it has one
    #[tactic(auto, unfolding(crate::specs::Compact::compact_first))]
    fn push_first(&self, alloc: Global, text: &mut Vec<u8>, count: u8) -> Result<(), AllocError>
        ensures { OnOk result (text.new.items ≡ text.old.items
            ++ first_unless_own (texts_at self.now.own.now) (group_view self.now.group.now)
            self.now.index count) }
    {
        if self.own.has(Key {
            index: self.index,
            sub: 0,
        }) {
            return Ok(());
        }
        let is_written = is_count_written(self.index, self.group.value(b"AccessType"));
        push_first_section(
            alloc,
            text,
            self.index,
            is_written,
            count_at(self.index, count),
        )
    }

    // appends the name of a sub-index that no section gives one
    fn push_default_name(
        &self,
        alloc: Global,
        text: &mut Vec<u8>,
        sub: u8,
    ) -> Result<(), AllocError>
        ensures { OnOk result (text.new.items ≡ text.old.items ++ assigned
            (codes "ParameterName") (default_name (own_name (group_view self.now.group.now)) sub)) }
    {
        let name = self.group.value(b"ParameterName").unwrap_or(b"");
        let name = attempt!(default_name(alloc, name, sub));
        push_assigned(text, b"ParameterName", name.as_slice())
    }

    // appends the name of a sub-index
    #[tactic(auto, unfolding(crate::specs::Compact::name_line))]
    fn push_name(&self, alloc: Global, text: &mut Vec<u8>, key: Key) -> Result<(), AllocError>
        ensures { OnOk result (text.new.items ≡ text.old.items
            ++ name_line (texts_at self.now.names.now) (group_view self.now.group.now) key) }
    {
        match self.names.at(key) {
            Some(name) => push_assigned(text, b"ParameterName", name),
            None => self.push_default_name(alloc, text, key.sub),
        }
    }

    // a value that can't be written at the type that stands for its own gets a `?` in front, so
    // that it isn't accepted
    fn kept_value(&self, alloc: Global, value: &[u8]) -> Result<Vec<u8>, AllocError>
        ensures { IfOk result (λ made. made.items ≡ kept_value self.now.facts.now value.now) }
    {
        match self.facts.left_out {
            Some(left_out) if !left_out.converts(value) => joined(alloc, b"?", value, b""),
            _ => joined(alloc, value, b"", b""),
        }
    }

    // appends the value of a sub-index, if one is given
    #[tactic(auto, unfolding(crate::specs::Compact::value_line))]
    fn push_value(&self, alloc: Global, text: &mut Vec<u8>, key: Key) -> Result<(), AllocError>
        ensures { OnOk result (text.new.items ≡ text.old.items
            ++ value_line (texts_at self.now.values.now) self.now.facts.now key) }
    {
        let Some(value) = self.values.at(key) else {
            return Ok(());
        };
        let kept = attempt!(self.kept_value(alloc, value));
        let kept = kept.as_slice();
        push_written(alloc, text, self.facts, b"ParameterValue", value, kept)
    }

    // appends the section of a sub-index from 1 on
    #[tactic(auto, unfolding(crate::specs::Compact::sub_section))]
    fn push_sub_section(
        &self,
        alloc: Global,
        text: &mut Vec<u8>,
        copied: &[u8],
        sub: u8,
    ) -> Result<(), AllocError>
        ensures { OnOk result (text.new.items ≡ text.old.items
            ++ sub_section (texts_at self.now.names.now) (texts_at self.now.values.now)
            self.now.facts.now (group_view self.now.group.now) copied.now
            (record { index = self.now.index; sub = sub })) }
    {
        let key = Key {
            index: self.index,
            sub,
        };
        attempt!(push_head(alloc, text, key));
        attempt!(self.push_name(alloc, text, key));
        attempt!(text.extend_from_slice(type_line()));
        attempt!(text.extend_from_slice(copied));
        attempt!(self.push_value(alloc, text, key));
        text.extend_from_slice(b"\n")
    }

    // appends the section of a sub-index from 1 on, unless it has one
    fn push_unless_own(
        &self,
        alloc: Global,
        text: &mut Vec<u8>,
        copied: &[u8],
        sub: u8,
    ) -> Result<(), AllocError>
        ensures { OnOk result (text.new.items ≡ text.old.items
            ++ unless_own (texts_at self.now.own.now) (sub_section (texts_at self.now.names.now)
            (texts_at self.now.values.now) self.now.facts.now (group_view self.now.group.now)
            copied.now) (record { index = self.now.index; sub = sub })) }
    {
        if self.own.has(Key {
            index: self.index,
            sub,
        }) {
            return Ok(());
        }
        self.push_sub_section(alloc, text, copied, sub)
    }

    /// The sections of sub-index 0 to this number, but for those that the sheet has.
    pub(crate) fn text(&self, alloc: Global, count: u8) -> Result<Vec<u8>, AllocError>
        ensures { IfOk result (λ made. made.items
            ≡ compact_text (texts_at self.now.own.now) (texts_at self.now.names.now) (texts_at self.now.values.now)
            self.now.facts.now (group_view self.now.group.now) self.now.index count) }
    {
        let copied = copied_lines(alloc, self.facts, self.group)?;
        let mut text = Vec::new(alloc);
        self.push_first(alloc, &mut text, count)?;
        for before in 0..count {
            self.push_unless_own(alloc, &mut text, copied.as_slice(), before + 1)?;
        }
        Ok(text)
    }
}
