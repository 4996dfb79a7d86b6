//! What FileInfo and DeviceInfo say.

ghost use Rattle.std.specs.Prelude.{◌≡◌, ◌≤◌, length, map, flat_map, option_map, option_to_list};
ghost use Rattle.std.specs.Option.{option_copied};
ghost use Rattle.co_sheet_text.specs.Numerals.{unsigned_number};
ghost use Rattle.co_sheet_text.specs.Views.{section_view};
ghost use Rattle.co_sheet_text_warnings.specs.Infos.{
  date_formats,
  device_keys,
  file_keys,
  counts_between,
  has_compact_pdos,
  is_day_and_year,
  is_from_to,
  is_info,
  is_listed_within,
  is_missing,
  is_number_of,
  is_object_within,
  is_read_as,
  is_time,
  key_at,
  lacks_any,
  listed_count,
  missing_each,
  missing_keys,
  object_count,
  other_counts,
  other_format,
  other_number_at,
  other_than,
  writes,
};
ghost use Rattle.co_sheet_text_warnings.specs.private.Views.{is_written};
ghost use Rattle.co_sheet_text_warnings.specs.Views.{key_view};

use crate::keys::{Topic, WrittenKey, topic_of};
use crate::known_key::KnownKey;
use crate::ranges::is_within;
use crate::read_text::ReadText;
use co_sheet_text::{
    NumeralFault, SectionKind, TextSection, number_in, same_name, unsigned_number,
};
use co_text::{decimal_in, split_at_first};

fn is_info(info: Topic, topic: Topic) -> bool
    ensures { result ≡ is_info info topic }
{
    matches!(
        (info, topic),
        (Topic::FileInfo, Topic::FileInfo) | (Topic::DeviceInfo, Topic::DeviceInfo)
    )
}

// the first key of this name in a section of FileInfo, or of DeviceInfo
fn key_at<'k, 'a>(
    info: Topic,
    keys: &'k [WrittenKey<'a>],
    known: KnownKey,
) -> Option<&'k WrittenKey<'a>>
    ensures { option_map key_view (option_copied result)
        ≡ key_at info (map key_view keys.now) known }
{
    for key in keys {
        if is_info(info, key.topic) && same_name(key.name, known.text()) {
            return Some(key);
        }
    }
    None
}

/// The keys that FileInfo must have.
const FILE_KEYS: [KnownKey; 10] = [
    KnownKey::FileName,
    KnownKey::FileVersion,
    KnownKey::FileRevision,
    KnownKey::Description,
    KnownKey::CreationTime,
    KnownKey::CreationDate,
    KnownKey::CreatedBy,
    KnownKey::ModificationTime,
    KnownKey::ModificationDate,
    KnownKey::ModifiedBy,
];

/// The keys that DeviceInfo must have.
const DEVICE_KEYS: [KnownKey; 22] = [
    KnownKey::VendorName,
    KnownKey::VendorNumber,
    KnownKey::ProductName,
    KnownKey::ProductNumber,
    KnownKey::RevisionNumber,
    KnownKey::OrderCode,
    KnownKey::BaudRate10,
    KnownKey::BaudRate20,
    KnownKey::BaudRate50,
    KnownKey::BaudRate125,
    KnownKey::BaudRate250,
    KnownKey::BaudRate500,
    KnownKey::BaudRate800,
    KnownKey::BaudRate1000,
    KnownKey::SimpleBootUpMaster,
    KnownKey::SimpleBootUpSlave,
    KnownKey::Granularity,
    KnownKey::DynamicChannelsSupported,
    KnownKey::GroupMessaging,
    KnownKey::NrOfRxPdo,
    KnownKey::NrOfTxPdo,
    KnownKey::LssSupported,
];

/// The keys that FileInfo must have (CiA 306-1, file information).
pub fn file_keys() -> &'static [KnownKey]
    ensures { result.now ≡ file_keys }
{
    &FILE_KEYS
}

/// The keys that DeviceInfo must have (CiA 306-1, device information).
pub fn device_keys() -> &'static [KnownKey]
    ensures { result.now ≡ device_keys }
{
    &DEVICE_KEYS
}

fn is_missing(info: Topic, keys: &[WrittenKey], known: KnownKey) -> bool
    ensures { result ≡ is_missing info (map key_view keys.now) known }
{
    key_at(info, keys, known).is_none()
}

fn lacks_any(info: Topic, keys: &[WrittenKey], required: &[KnownKey]) -> bool
    ensures { result ≡ lacks_any info (map key_view keys.now) required.now }
{
    for known in required {
        if is_missing(info, keys, *known) {
            return true;
        }
    }
    false
}

/// Notes of each required key of FileInfo or of DeviceInfo whether it is missing.
pub(crate) fn note_missing(
    missing: &mut [bool],
    info: Topic,
    keys: &[WrittenKey],
    required: &[KnownKey],
)
    requires { length missing.old ≡ length required.now }
    ensures { missing.new ≡ missing_each info (map key_view keys.now) required.now }
{
    for place in 0..required.len() {
        missing[place] = is_missing(info, keys, required[place]);
    }
}

/// The line of FileInfo or of DeviceInfo, if it lacks a required key; 0 if there is no such
/// section.
pub(crate) fn missing_keys(
    info: Topic,
    keys: &[WrittenKey],
    sections: &[TextSection],
    required: &[KnownKey],
) -> Option<usize>
    ensures { option_to_list result
        ≡ missing_keys info (map key_view keys.now) (map section_view sections.now) required.now }
{
    if !lacks_any(info, keys, required) {
        return None;
    }
    for section in sections {
        if is_info(info, topic_of(section.name)) {
            return Some(section.line);
        }
    }
    Some(0)
}

// whether a number is one from a least to a most, both included
fn is_from_to(range: (u64, u64), number: u64) -> bool
    ensures { result ≡ is_from_to range number }
{
    range.0 <= number && number <= range.1
}

// whether digits of a base write such a number
fn writes(base: u32, range: (u64, u64), text: &[u8]) -> bool
    requires low { 2 ≤ base }
    requires high { base ≤ 36 }
    ensures { result ≡ writes base range text.now }
{
    match number_in(base, text) {
        Some(given) => is_from_to(range, given),
        None => false,
    }
}

// Whether a text is such a number. With a leading zero either reading may be it, as octal and as
// decimal.
fn is_read_as(range: (u64, u64), text: &[u8]) -> bool
    ensures { result ≡ is_read_as range text.now (unsigned_number text.now) }
{
    match unsigned_number(text) {
        Ok(given) => is_from_to(range, given),
        Err(NumeralFault::Ambiguous) => writes(10, range, text) || writes(8, range, text),
        Err(NumeralFault::Malformed) => false,
    }
}

// the line of a key that isn't such a number
fn other_than(key: &WrittenKey, range: (u64, u64)) -> Option<usize>
    ensures { option_to_list result ≡ other_than range (key_view key.now) }
{
    if is_read_as(range, key.value) {
        None
    } else {
        Some(key.line)
    }
}

/// The line of a key of DeviceInfo that isn't a number from a least to a most, both included (CiA
/// 306-1, device information). With a leading zero either reading may be it, as octal and as
/// decimal.
pub fn other_number_at(keys: &[WrittenKey], known: KnownKey, range: (u64, u64)) -> Option<usize>
    ensures { option_to_list result ≡ other_number_at (map key_view keys.now) known range }
{
    match key_at(Topic::DeviceInfo, keys, known) {
        Some(key) => other_than(key, range),
        None => None,
    }
}

fn is_object_within(low: u16, high: u16, kind: SectionKind) -> bool
    ensures { result ≡ is_object_within low high kind }
{
    match kind {
        SectionKind::Object(index) => is_within(low, high, index),
        _ => false,
    }
}

/// The number of objects in a range of indices with both its ends.
pub fn object_count(low: u16, high: u16, sections: &[TextSection]) -> usize
    ensures { result ≡ object_count low high (map section_view sections.now) }
{
    let mut count = 0;
    for section in sections {
        if is_object_within(low, high, section.kind) {
            count += 1;
        }
    }
    count
}

fn is_listed_within(text: &ReadText, low: u16, high: u16, kind: SectionKind) -> bool
    ensures { result ≡ is_listed_within text.now.sections low high kind }
{
    match kind {
        SectionKind::Object(index) => is_within(low, high, index) && text.is_listed(index),
        _ => false,
    }
}

// the number of objects among these sections, in a range of indices, that the lists of a text name
fn listed_count(text: &ReadText, low: u16, high: u16, sections: &[TextSection]) -> usize
    ensures { result
        ≡ listed_count text.now.sections low high (map section_view sections.now) }
{
    let mut count = 0;
    for section in sections {
        if is_listed_within(text, low, high, section.kind) {
            count += 1;
        }
    }
    count
}

/// How many objects in a range of indices the lists name, and how many sections of objects there
/// are.
pub(crate) fn counts_between(text: &ReadText, low: u16, high: u16) -> (u64, u64)
    ensures { result ≡ counts_between low high text.now.sections }
{
    let sections = text.sections();
    let listed = listed_count(text, low, high, sections);
    (listed as u64, object_count(low, high, sections) as u64)
}

// PDOs in compact form have no sections
fn has_compact_pdos(keys: &[WrittenKey]) -> bool
    ensures { result ≡ has_compact_pdos (map key_view keys.now) }
{
    match key_at(Topic::DeviceInfo, keys, KnownKey::CompactPdo) {
        Some(key) => !matches!(unsigned_number(key.value), Err(_) | Ok(0)),
        None => false,
    }
}

/// The lines of NrOfRXPDO and NrOfTXPDO, where they aren't numbers of PDOs from a least to a most.
pub(crate) fn other_counts(
    keys: &[WrittenKey],
    receive: (u64, u64),
    transmit: (u64, u64),
) -> [Option<usize>; 2]
    ensures { flat_map option_to_list result
        ≡ other_counts (map key_view keys.now) receive transmit }
{
    if has_compact_pdos(keys) {
        return [None, None];
    }
    [
        other_number_at(keys, KnownKey::NrOfRxPdo, receive),
        other_number_at(keys, KnownKey::NrOfTxPdo, transmit),
    ]
}

// this many decimal digits, of a number in a range
fn is_number_of(digits: usize, least: u32, most: u32, text: &[u8]) -> bool
    ensures { result ≡ is_number_of digits least most text.now }
{
    text.len() == digits && decimal_in(text, least, most).is_some()
}

// `dd-yyyy`
fn is_day_and_year(text: &[u8]) -> bool
    ensures { result ≡ is_day_and_year text.now }
{
    match split_at_first(text, b'-') {
        Some((day, year)) => is_number_of(2, 1, 31, day) && is_number_of(4, 0, 9999, year),
        None => false,
    }
}

// `hh:mmAM` or `hh:mmPM`
fn is_time(text: &[u8]) -> bool
    ensures { result ≡ is_time text.now }
{
    let Some((hour, rest)) = split_at_first(text, b':') else {
        return false;
    };
    let (minute, half) = rest.split_at(rest.len().min(2));
    is_number_of(2, 1, 12, hour)
        && is_number_of(2, 0, 59, minute)
        && (same_name(half, b"AM") || same_name(half, b"PM"))
}

/// How a value of FileInfo is written.
#[derive(Clone, Copy)]
enum Format {
    Date,
    Time,
}

// whether a text is a date, or a time
fn is_written(format: Format, text: &[u8]) -> bool
    ensures { result ≡ is_written format text.now }
{
    match format {
        // `mm-dd-yyyy`
        Format::Date => match split_at_first(text, b'-') {
            Some((month, rest)) => is_number_of(2, 1, 12, month) && is_day_and_year(rest),
            None => false,
        },
        Format::Time => is_time(text),
    }
}

// the line of a key of FileInfo in another format
fn other_format(keys: &[WrittenKey], format: Format, known: KnownKey) -> Option<usize>
    ensures { option_to_list result
        ≡ other_format (is_written format) (map key_view keys.now) known }
{
    match key_at(Topic::FileInfo, keys, known) {
        Some(key) if !is_written(format, key.value) => Some(key.line),
        _ => None,
    }
}

/// The lines of dates and times of FileInfo in another format than mm-dd-yyyy and hh:mmAM (CiA
/// 306-1, file information).
pub fn date_formats(keys: &[WrittenKey]) -> [Option<usize>; 4]
    ensures { flat_map option_to_list result ≡ date_formats (map key_view keys.now) }
{
    [
        other_format(keys, Format::Time, KnownKey::CreationTime),
        other_format(keys, Format::Date, KnownKey::CreationDate),
        other_format(keys, Format::Time, KnownKey::ModificationTime),
        other_format(keys, Format::Date, KnownKey::ModificationDate),
    ]
}
