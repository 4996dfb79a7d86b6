//! What the text of a finding's line shows: its key and value, or the name of the section that it
//! begins.

ghost use Rattle.std.specs.Prelude.{◌≡◌, ◌-◌, ◌==◌, length, slice_index};
ghost use Rattle.std.specs.List.{list_all};
ghost use Rattle.conode_lint_text.specs.Facts.{
  ambiguous_number,
  bad_access,
  bad_line,
  bad_number,
  is_decimal_index,
  is_end_byte,
  is_end_mark,
  is_number_row,
  is_open,
  is_quoted,
  is_truth,
  is_unopened,
  is_value_key,
  key_name,
  key_number,
  key_value,
  listed_fact,
  low_fact,
  misspelt_section,
  missing_section,
  number_fact,
  odd_value,
  section_fact,
  section_kind,
  section_name,
  too_large,
  type_number,
  utf8,
  value_fact,
  wrong_list,
};

use crate::fact::Fact;
use crate::finding::About;
use crate::meant_section::meant_section;
use crate::type_names::named_code;
use co_sheet_text::{SectionKind, number_in, same_name, trim, unsigned_number};
use co_sheet_text_warnings::has_other_byte;
use co_text::split_at_first;

/// The name of the key on a line.
pub(crate) fn key_name(text: &[u8]) -> &[u8]
    ensures { result.now ≡ key_name text.now }
{
    match split_at_first(text, b'=') {
        Some((name, _)) => trim(name),
        None => &[],
    }
}

/// The number of the key on a line, if it has one.
pub(crate) fn key_number(text: &[u8]) -> Option<u64>
    ensures { result ≡ key_number text.now }
{
    match split_at_first(text, b'=') {
        Some((_, value)) => unsigned_number(trim(value)).ok(),
        None => None,
    }
}

/// The value of the key on a line.
pub fn key_value(text: &[u8]) -> &[u8]
    ensures { result.now ≡ key_value text.now }
{
    match split_at_first(text, b'=') {
        Some((_, value)) => trim(value),
        None => &[],
    }
}

/// Of the TooLarge of a line, 0 where the text has too many bytes.
pub fn too_large(line: usize) -> About
    ensures { result ≡ too_large line }
{
    if line == 0 {
        return About::Fact(Fact::LargeText);
    }
    About::Line
}

// at most four decimal digits, which were meant in hexadecimal
fn is_decimal_index(value: &[u8], index: u64) -> bool
    ensures { result ≡ is_decimal_index value.now index }
{
    number_in(10, value).is_some() && index <= 9999
}

// the section of an index
fn section_fact(index: u64) -> About
    ensures { result ≡ section_fact index }
{
    if index < 0x1_0000 {
        return About::NoSection(index as u16);
    }
    About::Line
}

fn listed_fact(value: &[u8], index: u64) -> About
    ensures { result ≡ listed_fact value.now index }
{
    if is_decimal_index(value, index) {
        return About::Fact(Fact::DecimalIndex(index));
    }
    section_fact(index)
}

/// Of the MissingSection of a line, 0 where there is no list of the mandatory objects: an index in
/// decimal digits, or else the name of the section.
pub fn missing_section(line: usize, text: &[u8]) -> About
    ensures { result ≡ missing_section line text.now }
{
    if line == 0 {
        return About::Fact(Fact::NoMandatoryList);
    }
    match key_number(text) {
        Some(index) => listed_fact(key_value(text), index),
        None => About::Line,
    }
}

fn low_fact(value: &[u8], index: u64) -> About
    ensures { result ≡ low_fact value.now index }
{
    if 0x1000 <= index {
        return About::Line;
    }
    if is_decimal_index(value, index) && 1000 <= index {
        return About::Fact(Fact::LowDecimal(index));
    }
    About::Fact(Fact::LowIndex(index))
}

/// Of the WrongList of a line: an index below 1000h.
pub fn wrong_list(text: &[u8]) -> About
    ensures { result ≡ wrong_list text.now }
{
    match key_number(text) {
        Some(index) => low_fact(key_value(text), index),
        None => About::Line,
    }
}

fn is_quoted(value: &[u8]) -> bool
    ensures { result ≡ is_quoted value.now }
{
    matches!(value, [b'"' | b'\'', ..])
}

// of a value that begins with a quote or has `;` in it; of others this
fn odd_value(value: &[u8], other: About) -> About
    ensures { result ≡ odd_value value.now other }
{
    if is_quoted(value) {
        return About::Fact(Fact::QuotedValue);
    }
    if split_at_first(value, b';').is_some() {
        return About::Fact(Fact::CommentInValue);
    }
    other
}

fn is_value_key(name: &[u8]) -> bool
    ensures { result ≡ is_value_key name.now }
{
    same_name(name, b"DefaultValue") || same_name(name, b"ParameterValue")
}

// what is said of a DataType that is no number, and perhaps the name of the type with this code
fn type_number(code: Option<u16>) -> About
    ensures { result ≡ type_number code }
{
    match code {
        Some(code) => About::Fact(Fact::TypeName(code)),
        None => About::Fact(Fact::NoDataType),
    }
}

fn is_truth(value: &[u8]) -> bool
    ensures { result ≡ is_truth value.now }
{
    same_name(value, b"TRUE") || same_name(value, b"FALSE")
}

// whether a row of `[..Value]` has a number
fn is_number_row(name: &[u8], value: &[u8]) -> bool
    ensures { result ≡ is_number_row name.now value.now }
{
    number_in(10, name).is_some() && unsigned_number(value).is_ok()
}

// what is said of a value of any other key
fn value_fact(name: &[u8], value: &[u8]) -> About
    ensures { result ≡ value_fact name.now value.now }
{
    if is_truth(value) {
        return About::Fact(Fact::Truth);
    }
    if is_value_key(name) {
        return About::Fact(Fact::NoValue);
    }
    if is_number_row(name, value) {
        return About::Fact(Fact::OtherNumber);
    }
    About::Line
}

// what is said of a key whose value is no number
fn number_fact(name: &[u8], value: &[u8]) -> About
    ensures { result ≡ number_fact name.now value.now }
{
    if same_name(name, b"ObjectType") {
        return About::Fact(Fact::NoObjectType);
    }
    if same_name(name, b"DataType") {
        return type_number(named_code(value));
    }
    if same_name(name, b"PDOMapping") {
        return About::Fact(Fact::NoMapping);
    }
    value_fact(name, value)
}

/// Of the BadNumber of a line: quotes or a comment in its value, which may be a sum with `$NODEID`;
/// or the name of an object type or of a data type.
pub fn bad_number(text: &[u8]) -> About
    ensures { result ≡ bad_number text.now }
{
    let value = key_value(text);
    odd_value(value, number_fact(key_name(text), value))
}

/// Of the AmbiguousNumber of a line: one with a digit 8 or 9 is no octal number.
pub fn ambiguous_number(text: &[u8]) -> About
    ensures { result ≡ ambiguous_number text.now }
{
    let value = key_value(text);
    if split_at_first(value, b'8').is_some() || split_at_first(value, b'9').is_some() {
        return About::Fact(Fact::NotOctal);
    }
    About::Line
}

fn is_open(text: &[u8]) -> bool
    ensures { result ≡ is_open text.now }
{
    matches!(text, [b'[', ..])
}

fn is_end_mark(text: &[u8]) -> bool
    ensures { result ≡ is_end_mark text.now }
{
    !text.is_empty() && has_end_bytes(text)
}

fn has_end_bytes(text: &[u8]) -> bool
    ensures { result ≡ list_all is_end_byte text.now }
{
    text.iter().all(|byte| is_end_byte(*byte))
}

fn is_end_byte(byte: u8) -> bool
    ensures { result ≡ is_end_byte byte }
{
    byte == 0x1A || byte == 0
}

fn ends_in_bracket(text: &[u8]) -> bool
    ensures { result ≡ (slice_index text.now (length text.now - 1) == 93) }
{
    match text.last() {
        Some(byte) => *byte == b']',
        None => false,
    }
}

// whether a line is a section line but for its `[`
fn is_unopened(text: &[u8]) -> bool
    ensures { result ≡ is_unopened text.now }
{
    ends_in_bracket(text)
        && !(split_at_first(text, b'[').is_some() || split_at_first(text, b'=').is_some())
}

/// Of the BadLine of a line: one that begins with `[` has no `]`, one that ends with `]` has no `[`,
/// or it has a mark of an end alone.
pub fn bad_line(text: &[u8]) -> About
    ensures { result ≡ bad_line text.now }
{
    if is_open(trim(text)) {
        return About::Fact(Fact::OpenSection);
    }
    if is_unopened(trim(text)) {
        return About::Fact(Fact::UnopenedSection);
    }
    if is_end_mark(trim(text)) {
        return About::Fact(Fact::EndMark);
    }
    About::Line
}

/// Of the BadAccess of a line: quotes or a comment in its value.
pub fn bad_access(text: &[u8]) -> About
    ensures { result ≡ bad_access text.now }
{
    odd_value(key_value(text), About::Line)
}

/// Of the Utf8 of a line: without a byte above 7Fh it has a byte order mark in front.
pub fn utf8(text: &[u8]) -> About
    ensures { result ≡ utf8 text.now }
{
    if has_other_byte(text) {
        return About::Line;
    }
    About::Fact(Fact::ByteOrderMark)
}

// the name of the section that a line begins
fn section_name(text: &[u8]) -> &[u8]
    ensures { result.now ≡ section_name text.now }
{
    let Some((_, rest)) = trim(text).split_first() else {
        return &[];
    };
    match split_at_first(rest, b']') {
        Some((name, _)) => trim(name),
        None => &[],
    }
}

/// What the section that a line begins is about.
pub(crate) fn section_kind(text: &[u8]) -> SectionKind
    ensures { result ≡ section_kind text.now }
{
    SectionKind::of_name(section_name(text))
}

/// Of the MisspeltSection of a line: the section that is meant, where it is no object's.
pub fn misspelt_section(text: &[u8]) -> About
    ensures { result ≡ misspelt_section text.now }
{
    match meant_section(section_name(text)) {
        Some(section) => About::Fact(Fact::MeantSection(section)),
        None => About::Line,
    }
}
