//! Lines and what becomes of them.

ghost use Rattle.std.specs.Prelude.{◌≡◌, ◌++◌, codes, decimal, map, take, IfOk, OnOk};
ghost use Rattle.std.specs.List.{list_any};
ghost use Rattle.std.specs.Option.{option_copied};
ghost use Rattle.co_sheet_changes.specs.Pieces.{assigned};
ghost use Rattle.co_sheet_changes.specs.Views.{line_view};
ghost use Rattle.co_sheet_mend.specs.Repairs.{
  begins_list,
  begins_mandatory,
  code_given,
  code_named,
  completed,
  counted_text,
  dropped,
  ended,
  ends_in_return,
  gives,
  gives_any,
  is_sub_of,
  key_at,
  key_in,
  lacking,
  lacking_type,
  line_as,
  list_text,
  listed,
  mandatory_sections,
  most_looked_at,
  names_object,
  next_section,
  numbered,
  numbered_from,
  objects_named,
  place_value,
  retyped,
  states,
  sub0_text,
  type_code,
  typed,
  with_mandatory,
};
ghost use Rattle.co_sheet_text.specs.LinesAtFault.{emptied};

use crate::repair::Repair;
use co_profile::fixed_type;
use co_sheet_changes::{Line, before_sections, push_number};
use co_sheet_text::{SectionKind, all_digits, same_name, trim, unsigned_number};
use co_value::{DataType, Key};
use std::alloc::{AllocError, Global};

const DATA_TYPE: &[u8] = b"DataType";

const ACCESS_TYPE: &[u8] = b"AccessType";

const OBJECT_TYPE: &[u8] = b"ObjectType";

/// The object type of a VAR (CiA 306).
const VAR: &[u8] = b"7";

/// Those of objects with sub-indices.
const ARRAY: &[u8] = b"8";

const RECORD: &[u8] = b"9";

const READ_WRITE: &[u8] = b"rw";

/// How many lines are looked at for the next section, so that the time stays in proportion to the
/// text.
const MOST_LOOKED_AT: usize = 32;

/// The sections of the device type and of the error register.
const VALUES: &[u8] = b"[1000]\nDataType=7\nAccessType=ro\n[1001]\nDataType=5\nAccessType=ro\n";

/// The section of the identity object.
const IDENTITY: &[u8] = b"[1018]\nObjectType=9\n[1018sub0]\nDataType=5\nAccessType=ro\n";

fn gives(line: &Line<'_>, name: &[u8]) -> bool
    ensures { result ≡ gives name.now (line_view line.now) }
{
    match line.property() {
        Some((given, _)) => same_name(given, name),
        None => false,
    }
}

// whether one of the lines up to the next section line gives a property of this name
fn gives_any(lines: &[Line<'_>], name: &[u8]) -> bool
    ensures { result ≡ gives_any name.now (map line_view lines.now) }
{
    for line in before_sections(lines) {
        if gives(line, name) {
            return true;
        }
    }
    false
}

#[tactic(auto, unfolding(co_sheet_changes::specs::Pieces::assigned))]
fn push_assigned(made: &mut Vec<u8>, name: &[u8], value: &[u8]) -> Result<(), AllocError>
    ensures { OnOk result (made.new.items ≡ made.old.items ++ assigned name.now value.now) }
{
    made.extend_from_slice(name)?;
    made.extend_from_slice(b"=")?;
    made.extend_from_slice(value)?;
    made.extend_from_slice(b"\n")
}

// whether a carriage return is the last byte of a line
fn ends_in_return(bytes: &[u8]) -> bool
    ensures { result ≡ ends_in_return bytes.now }
{
    match bytes.last() {
        Some(byte) => *byte == b'\r',
        None => false,
    }
}

/// Appends a line. `Err`: out of memory.
pub(crate) fn push_ended(made: &mut Vec<u8>, bytes: &[u8]) -> Result<(), AllocError>
    ensures { OnOk result (made.new.items ≡ made.old.items ++ ended bytes.now) }
{
    made.extend_from_slice(bytes)?;
    if ends_in_return(bytes) {
        return made.extend_from_slice(b"\r\n");
    }
    made.extend_from_slice(b"\n")
}

fn push_lacking(
    made: &mut Vec<u8>,
    name: &[u8],
    value: &[u8],
    lines: &[Line<'_>],
) -> Result<(), AllocError>
    ensures { OnOk result (made.new.items
        ≡ made.old.items ++ lacking name.now value.now (map line_view lines.now)) }
{
    if gives_any(lines, name) {
        return Ok(());
    }
    push_assigned(made, name, value)
}

// whether a value of a list isn't an index of more than 16 bits
fn names_object(value: &[u8]) -> bool
    ensures { result ≡ names_object value.now }
{
    !matches!(unsigned_number(value), Ok(index) if index > 0xFFFF)
}

// the object at a place of a list
fn place_value<'a>(line: &Line<'a>) -> Option<&'a [u8]>
    ensures { option_copied result ≡ place_value (line_view line.now) }
{
    let (name, value) = line.property()?;
    if all_digits(name, 10) && names_object(value) {
        Some(value)
    } else {
        None
    }
}

// the objects that lines name
fn objects_named<'a>(alloc: Global, lines: &[Line<'a>]) -> Result<Vec<&'a [u8]>, AllocError>
    ensures { IfOk result (λ values.
        map (λ value. value.now) values.items ≡ objects_named (map line_view lines.now)) }
{
    let mut values = Vec::new(alloc);
    for line in before_sections(lines) {
        if let Some(value) = place_value(line) {
            values.push(value)?;
        }
    }
    Ok(values)
}

// the object at a place of a list
#[tactic(auto, unfolding(co_sheet_changes::specs::Pieces::assigned))]
fn push_place(
    alloc: Global,
    made: &mut Vec<u8>,
    number: u64,
    value: &[u8],
) -> Result<(), AllocError>
    ensures { OnOk result (made.new.items
        ≡ made.old.items ++ assigned (decimal number) value.now) }
{
    push_number(alloc, made, number)?;
    made.extend_from_slice(b"=")?;
    made.extend_from_slice(value)?;
    made.extend_from_slice(b"\n")
}

fn push_numbered(alloc: Global, made: &mut Vec<u8>, values: &[&[u8]]) -> Result<(), AllocError>
    ensures { OnOk result (made.new.items
        ≡ made.old.items ++ numbered_from 1 (map (λ value. value.now) values.now)) }
{
    let mut number: u64 = 1;
    for value in values {
        push_place(alloc, made, number, value)?;
        number += 1;
    }
    Ok(())
}

#[tactic(auto, unfolding(co_sheet_changes::specs::Pieces::assigned))]
fn push_count(alloc: Global, made: &mut Vec<u8>, name: &[u8], count: u64) -> Result<(), AllocError>
    ensures { OnOk result (made.new.items
        ≡ made.old.items ++ assigned name.now (decimal count)) }
{
    made.extend_from_slice(name)?;
    made.extend_from_slice(b"=")?;
    push_number(alloc, made, count)?;
    made.extend_from_slice(b"\n")
}

// objects, counted and numbered from 1
#[tactic(auto, unfolding(crate::specs::Repairs::counted_text))]
fn push_values(alloc: Global, made: &mut Vec<u8>, values: &[&[u8]]) -> Result<(), AllocError>
    ensures { OnOk result (made.new.items
        ≡ made.old.items ++ counted_text (map (λ value. value.now) values.now)) }
{
    push_count(alloc, made, b"SupportedObjects", values.len() as u64)?;
    push_numbered(alloc, made, values)
}

// the objects that lines name
fn push_list(alloc: Global, made: &mut Vec<u8>, lines: &[Line<'_>]) -> Result<(), AllocError>
    ensures { OnOk result (made.new.items ≡ made.old.items ++ list_text (map line_view lines.now)) }
{
    let values = objects_named(alloc, lines)?;
    push_values(alloc, made, values.as_slice())
}

// what a line at fault is read as
fn emptied(line: &Line<'_>) -> &'static [u8]
    ensures { result.now ≡ (emptied (line_view line.now)).bytes }
{
    match trim(line.bytes) {
        [b'[', ..] => b"[]",
        _ => b"",
    }
}

// the lines that are looked at for the next section
fn near<'l, 'a>(lines: &'l [Line<'a>]) -> &'l [Line<'a>]
    ensures { map line_view result.now ≡ take most_looked_at (map line_view lines.entry.now) }
{
    let (near, _) = lines.split_at(MOST_LOOKED_AT.min(lines.len()));
    near
}

// the section that the first section line of lines begins
fn next_section(lines: &[Line<'_>]) -> Option<SectionKind>
    ensures { result ≡ next_section (map line_view lines.now) }
{
    for line in lines {
        if let Some(name) = line.section() {
            return Some(SectionKind::of_name(name));
        }
    }
    None
}

// whether a section is of a sub-index of the object that this entry is of
fn is_sub_of(key: Option<Key>, kind: Option<SectionKind>) -> bool
    ensures { result ≡ is_sub_of key kind }
{
    match (key, kind) {
        (Some(key), Some(SectionKind::SubIndex(sub))) => sub.index == key.index,
        _ => false,
    }
}

// the object code that a word names, in digits
fn code_named(word: &[u8]) -> Option<&'static [u8]>
    ensures { option_copied result ≡ code_named word.now }
{
    if same_name(word, b"ARRAY") {
        Some(ARRAY)
    } else if same_name(word, b"RECORD") {
        Some(RECORD)
    } else {
        None
    }
}

// the object code that a line gives in a word, where the next section is of a sub-index
fn code_given(has_sub: bool, line: &Line<'_>) -> Option<&'static [u8]>
    ensures { option_copied result ≡ code_given has_sub (line_view line.now) }
{
    let (name, value) = line.property()?;
    if has_sub && same_name(name, OBJECT_TYPE) {
        code_named(value)
    } else {
        None
    }
}

fn push_dropped(
    made: &mut Vec<u8>,
    key: Option<Key>,
    line: &Line<'_>,
    more: &[Line<'_>],
) -> Result<(), AllocError>
    ensures { OnOk result (made.new.items
        ≡ made.old.items ++ dropped key (line_view line.now) (map line_view more.now)) }
{
    match code_given(is_sub_of(key, next_section(near(more))), line) {
        Some(code) => push_assigned(made, OBJECT_TYPE, code),
        None => push_ended(made, emptied(line)),
    }
}

// the entry that a section is about
fn key_in(kind: SectionKind) -> Option<Key>
    ensures { result ≡ key_in kind }
{
    match kind {
        SectionKind::Object(index) => Some(Key { index, sub: 0 }),
        SectionKind::SubIndex(key) => Some(key),
        _ => None,
    }
}

/// The entry that a line is about, where the line before it is about this one.
pub(crate) fn key_at(before: Option<Key>, line: &Line<'_>) -> Option<Key>
    ensures { result ≡ key_at before (line_view line.now) }
{
    match line.section() {
        Some(name) => key_in(SectionKind::of_name(name)),
        None => before,
    }
}

// the code of the type that an entry at fault gets
#[tactic(auto, unfolding(crate::specs::Repairs::type_code))]
fn type_code(key: Option<Key>) -> u16
    ensures { result ≡ type_code key }
{
    let fixed = match key {
        Some(key) => fixed_type(key),
        None => None,
    };
    fixed.unwrap_or(DataType::Domain).code()
}

fn push_type(alloc: Global, made: &mut Vec<u8>, key: Option<Key>) -> Result<(), AllocError>
    ensures { OnOk result (made.new.items ≡ made.old.items ++ typed key) }
{
    push_count(alloc, made, DATA_TYPE, u64::from(type_code(key)))
}

// whether a line gives this number
fn states(line: &Line<'_>, number: u16) -> bool
    ensures { result ≡ states number (line_view line.now) }
{
    match line.property() {
        Some((_, value)) => matches!(unsigned_number(value), Ok(read) if read == u64::from(number)),
        None => false,
    }
}

fn push_retyped(
    alloc: Global,
    made: &mut Vec<u8>,
    key: Option<Key>,
    line: &Line<'_>,
) -> Result<(), AllocError>
    ensures { OnOk result (made.new.items
        ≡ made.old.items ++ retyped key (line_view line.now)) }
{
    if gives(line, DATA_TYPE) {
        if states(line, type_code(key)) {
            return push_ended(made, b"");
        }
        return push_type(alloc, made, key);
    }
    if line.section().is_some() {
        push_ended(made, line.bytes)?;
        return push_assigned(made, OBJECT_TYPE, VAR);
    }
    push_ended(made, emptied(line))
}

fn push_lacking_type(
    alloc: Global,
    made: &mut Vec<u8>,
    key: Option<Key>,
    lines: &[Line<'_>],
) -> Result<(), AllocError>
    ensures { OnOk result (made.new.items
        ≡ made.old.items ++ lacking_type key (map line_view lines.now)) }
{
    if gives_any(lines, DATA_TYPE) {
        return Ok(());
    }
    push_type(alloc, made, key)
}

fn push_completed(
    alloc: Global,
    made: &mut Vec<u8>,
    key: Option<Key>,
    line: &Line<'_>,
    more: &[Line<'_>],
) -> Result<(), AllocError>
    ensures { OnOk result (made.new.items
        ≡ made.old.items ++ completed key (line_view line.now) (map line_view more.now)) }
{
    push_ended(made, line.bytes)?;
    push_lacking_type(alloc, made, key, more)?;
    push_lacking(made, ACCESS_TYPE, READ_WRITE, more)
}

#[tactic(auto, unfolding(crate::specs::Repairs::sub0_text))]
fn push_sub0(made: &mut Vec<u8>, name: &[u8]) -> Result<(), AllocError>
    ensures { OnOk result (made.new.items ≡ made.old.items ++ sub0_text name.now) }
{
    made.extend_from_slice(b"[")?;
    made.extend_from_slice(name)?;
    made.extend_from_slice(b"sub0]\nDataType=5\nAccessType=ro\n")
}

// a section line after a section of its sub-index 0
fn push_numbered_line(made: &mut Vec<u8>, line: &Line<'_>) -> Result<(), AllocError>
    ensures { OnOk result (made.new.items ≡ made.old.items ++ numbered (line_view line.now)) }
{
    if let Some(name) = line.section() {
        push_sub0(made, name)?;
    }
    push_ended(made, line.bytes)
}

fn push_counted(
    alloc: Global,
    made: &mut Vec<u8>,
    line: &Line<'_>,
    more: &[Line<'_>],
) -> Result<(), AllocError>
    ensures { OnOk result (made.new.items
        ≡ made.old.items ++ ended line.now.bytes.now ++ list_text (map line_view more.now)) }
{
    push_ended(made, line.bytes)?;
    push_list(alloc, made, more)
}

/// Appends what a line becomes that is about this entry, and which these lines follow. `Err`: out
/// of memory.
#[tactic(auto, unfolding(crate::specs::Repairs::line_as))]
pub(crate) fn push_line(
    alloc: Global,
    made: &mut Vec<u8>,
    repair: Option<Repair>,
    key: Option<Key>,
    line: &Line<'_>,
    more: &[Line<'_>],
) -> Result<(), AllocError>
    ensures { OnOk result (made.new.items
        ≡ made.old.items ++ line_as repair key (line_view line.now) (map line_view more.now)) }
{
    match repair {
        None => push_ended(made, line.bytes),
        Some(Repair::Emptied) => push_dropped(made, key, line, more),
        Some(Repair::Typed) => push_retyped(alloc, made, key, line),
        Some(Repair::ReadWrite) => push_assigned(made, ACCESS_TYPE, READ_WRITE),
        Some(Repair::Completed) => push_completed(alloc, made, key, line, more),
        Some(Repair::Counted) => push_counted(alloc, made, line, more),
        Some(Repair::Numbered) => push_numbered_line(made, line),
    }
}

// the objects that lines name, and after them the mandatory ones
fn with_mandatory<'a>(alloc: Global, lines: &[Line<'a>]) -> Result<Vec<&'a [u8]>, AllocError>
    ensures { IfOk result (λ values.
        map (λ value. value.now) values.items ≡ with_mandatory (map line_view lines.now)) }
{
    let mut values = objects_named(alloc, lines)?;
    values.push(b"0x1000")?;
    values.push(b"0x1001")?;
    values.push(b"0x1018")?;
    Ok(values)
}

fn begins_mandatory(line: &Line<'_>) -> bool
    ensures { result ≡ begins_mandatory (line_view line.now) }
{
    match line.section() {
        Some(name) => matches!(SectionKind::of_name(name), SectionKind::MandatoryObjects),
        None => false,
    }
}

/// Appends a line, and where it begins the list of the mandatory objects, which these lines follow,
/// the count and the numbers of that list with 1000h, 1001h and 1018h. `Err`: out of memory.
pub(crate) fn push_listed(
    alloc: Global,
    made: &mut Vec<u8>,
    line: &Line<'_>,
    more: &[Line<'_>],
) -> Result<(), AllocError>
    ensures { OnOk result (made.new.items
        ≡ made.old.items ++ listed (line_view line.now) (map line_view more.now)) }
{
    push_ended(made, line.bytes)?;
    if !begins_mandatory(line) {
        return Ok(());
    }
    let values = with_mandatory(alloc, more)?;
    push_values(alloc, made, values.as_slice())
}

/// Appends a section of each mandatory object (CiA 301, 7.5.1). `Err`: out of memory.
#[tactic(auto, unfolding(crate::specs::Repairs::mandatory_sections))]
pub(crate) fn push_mandatory_sections(made: &mut Vec<u8>) -> Result<(), AllocError>
    ensures { OnOk result (made.new.items ≡ made.old.items ++ mandatory_sections) }
{
    made.extend_from_slice(VALUES)?;
    made.extend_from_slice(IDENTITY)
}

fn begins_list(line: &Line<'_>) -> bool
    ensures { result ≡ begins_list (line_view line.now) }
{
    match line.section() {
        Some(name) => SectionKind::of_name(name).is_list(),
        None => false,
    }
}

/// Whether one of these lines begins an object list.
pub(crate) fn has_list(lines: &[Line<'_>]) -> bool
    ensures { result ≡ list_any begins_list (map line_view lines.now) }
{
    for line in lines {
        if begins_list(line) {
            return true;
        }
    }
    false
}
