//! What a sheet has at a finding, as numbers, and its sentence.

ghost use Rattle.std.specs.Prelude.{◌≡◌, ◌++◌, map, OnOk, string_bytes};
ghost use Rattle.std.specs.Fmt.{signed_decimal};
ghost use Rattle.conode_lint_text.specs.FactTexts.{
  bound_texts,
  fact_text,
  hexadecimal,
  missing_text,
  not_listed,
  numbers,
  part_text,
  range_texts,
  texts_of,
  words_of,
};

use crate::meant_section::{MeantSection, meant_text};
use co_sheet_text_warnings::{KnownKey, device_keys, file_keys};
use co_text::{push_decimal, push_u16};
use co_value::DataType;
use conode_text::{HasText, push_filled};
use std::alloc::AllocError;

/// What a sheet has where a finding is: what its line alone doesn't show.
#[derive(Clone, Copy)]
pub enum Fact {
    /// An object list without SupportedObjects.
    NoCount,
    /// An object list that counts so many objects, and so many keys of them that it has.
    ListCount(u64, usize),
    /// The same, and the first key that is missing.
    ListGap(u64, usize, usize),
    /// An object list that names an index above 0xFFFF, by the line of that key.
    HighIndex(usize),
    /// A sheet without the list of the mandatory objects.
    NoMandatoryList,
    /// Whether no object list names 1000h, 1001h and 1018h.
    NotListed(bool, bool, bool),
    /// A text that is too large.
    LargeText,
    /// A value that is no number.
    NoValue,
    /// A PDOMapping that is no number.
    NoMapping,
    /// A number with a leading zero and a digit 8 or 9.
    NotOctal,
    /// A section line without `]`.
    OpenSection,
    /// A section line without `[`.
    UnopenedSection,
    /// A code of a type or of an object that CiA 301 defines, and that isn't supported.
    Unsupported,
    /// An entry where CiA 301 has an object with sub-indices.
    ManyEntries,
    /// An ObjectType that is no number, as a name.
    NoObjectType,
    /// A DataType that is no number.
    NoDataType,
    /// The same, where it is the name of the type with this code.
    TypeName(u16),
    /// A transmission type of a TPDO that CiA 301 reserves.
    ReservedOfTpdo,
    /// The same of an RPDO.
    ReservedOfRpdo,
    /// A synchronous counter overflow value that CiA 301 reserves.
    ReservedCounter,
    /// A byte order mark of UTF-8.
    ByteOrderMark,
    /// The section that a misspelt name means.
    MeantSection(MeantSection),
    /// A value with `;` in it.
    CommentInValue,
    /// A value that begins with a quote.
    QuotedValue,
    /// A line of a DOS end-of-file mark or NUL bytes alone.
    EndMark,
    /// TRUE or FALSE where a number has to be.
    Truth,
    /// A number in a row of `[..Value]` that is none of its type.
    OtherNumber,
    /// The value of an OCTET_STRING that is no pairs of digits.
    NoPairs,
    /// A listed index of an object without a section, in decimal digits.
    DecimalIndex(u64),
    /// A listed index below 1000h, in as many decimal digits as an index has in hexadecimal.
    LowDecimal(u64),
    /// Another listed index below 1000h.
    LowIndex(u64),
    /// A type that isn't the one of CiA 301 for this entry, by its code.
    FixedType(u16),
    /// The same, where a sheet may have another type.
    StandardType(u16),
    /// An entry without DataType, and whether it is a sub-index.
    NoType(bool),
    /// The same without AccessType.
    NoAccess(bool),
    /// The same without both.
    NoTypeOrAccess(bool),
    /// A sheet without the section FileInfo: of the keys that it must have, whether they are
    /// missing.
    NoFileInfo([bool; 10]),
    /// A FileInfo without keys that it must have: of each whether it is missing.
    FileInfoLacks([bool; 10]),
    /// A sheet without the section DeviceInfo: the same.
    NoDeviceInfo([bool; 22]),
    /// A DeviceInfo without keys that it must have: of each whether it is missing.
    DeviceInfoLacks([bool; 22]),
    /// A SubNumber that is no number, and the number of the object's sub-index sections.
    NoSubNumber(usize),
    /// A SubNumber, and the number of the object's sub-index sections.
    SubNumber(u64, usize),
    /// A sub-index 0, and the highest sub-index of its object.
    SubIndex0(u64, u8),
    /// The same, where the hexadecimal digits of the highest one are the number in decimal.
    DecimalName(u64, u8),
    /// NrOfRXPDO, and the number of RPDOs.
    RpdoCount(u64, usize),
    /// NrOfTXPDO, and the number of TPDOs.
    TpdoCount(u64, usize),
    /// NrOfRXPDO that is no number, and the number of RPDOs.
    NoRpdoCount(usize),
    /// NrOfTXPDO that is no number, and the number of TPDOs.
    NoTpdoCount(usize),
    /// A number of DeviceInfo, and that of the identity object.
    Identity(u64, u64),
    /// The number of the identity object, where that of DeviceInfo can't be read.
    NoIdentity(u64),
    /// A value below its LowLimit, by the line of the limit and its number.
    BelowLow(usize, i128),
    /// A value above its HighLimit, by the line of the limit and its number.
    AboveHigh(usize, i128),
    /// The same, where that limit is below 0.
    AboveNegative(usize, i128),
    /// A value outside the range of its type.
    ValueOutside(DataType),
    /// A limit outside the range of its type.
    LimitOutside(DataType),
    /// A HighLimit below its LowLimit, by the line of LowLimit.
    LimitsCrossed(usize),
    /// The same, where HighLimit is below 0.
    NegativeHigh(usize),
}

/// A value in the sentence of a fact.
#[derive(Clone, Copy)]
pub(crate) enum Part {
    /// A number in decimal digits.
    Number(u64),
    /// The code of a type, in four hexadecimal digits.
    Code(u16),
    /// A number as sheets have it, in hexadecimal digits after `0x`.
    Hexadecimal(u64),
    /// A number with its sign, in decimal digits.
    Signed(i128),
}

#[tactic(auto, unfolding(crate::specs::FactTexts::hexadecimal))]
fn push_hexadecimal(text: &mut String, number: u64) -> Result<(), AllocError>
    ensures { OnOk result (string_bytes text.new ≡ string_bytes text.old ++ hexadecimal number) }
{
    write!(text, "0x{number:X}")
}

fn push_signed(text: &mut String, number: i128) -> Result<(), AllocError>
    ensures { OnOk result
        (string_bytes text.new ≡ string_bytes text.old ++ signed_decimal number) }
{
    write!(text, "{number}")
}

impl HasText for Part {
    ghost text_of = { part_text };

    fn push(&self, text: &mut String) -> Result<(), AllocError> {
        match *self {
            Part::Number(number) => push_decimal(text, number),
            Part::Code(code) => push_u16(text, code),
            Part::Hexadecimal(number) => push_hexadecimal(text, number),
            Part::Signed(number) => push_signed(text, number),
        }
    }
}

// which of 1000h, 1001h and 1018h no object list names
fn not_listed(device: bool, error: bool, identity: bool) -> &'static str
    ensures { result.now ≡ not_listed device error identity }
{
    match (device, error, identity) {
        (true, true, true) => "no object list names 1000h, 1001h and 1018h",
        (true, true, false) => "no object list names 1000h and 1001h",
        (true, false, true) => "no object list names 1000h and 1018h",
        (false, true, true) => "no object list names 1001h and 1018h",
        (true, false, false) => "no object list names 1000h",
        (false, true, false) => "no object list names 1001h",
        (false, false, _) => "no object list names 1018h",
    }
}

// the words of a fact, with places for its values; those before the keys that are missing
#[tactic(auto, unfolding(crate::specs::FactTexts::words_of))]
fn words_of(fact: Fact) -> &'static str
    ensures { result.now ≡ words_of fact }
{
    match fact {
        Fact::NoCount => "the list has no SupportedObjects",
        Fact::ListCount(_, _) => "the list counts % objects and has % of the keys 1 to %",
        Fact::ListGap(_, _, _) => {
            "the list has % of the keys 1 to % that it counts: key % is missing"
        }
        Fact::HighIndex(_) => "the index of line % is above 0xFFFF",
        Fact::NoMandatoryList => "there is no section [MandatoryObjects]",
        Fact::NotListed(device, error, identity) => not_listed(device, error, identity),
        Fact::LargeText => "the text has more than 1,048,576 bytes",
        Fact::NoValue => "the value is no whole number of at most 64 bits",
        Fact::NoMapping => "PDOMapping is a number, and this is none",
        Fact::NotOctal => "a leading zero means octal, which has no digits 8 and 9",
        Fact::OpenSection => "the section line has no `]`",
        Fact::UnopenedSection => "the section line has no `[`",
        Fact::Unsupported => "CiA 301 defines this code, but it isn't supported",
        Fact::ManyEntries => "CiA 301 has an object with sub-indices here",
        Fact::NoObjectType => "ObjectType is a number, and this is none",
        Fact::NoDataType => "DataType is a number, and this is none",
        Fact::TypeName(_) => "DataType is a number: this name's is 0x%",
        Fact::ReservedOfTpdo => "CiA 301 reserves this transmission type of a TPDO",
        Fact::ReservedOfRpdo => "CiA 301 reserves this transmission type of an RPDO",
        Fact::ReservedCounter => "CiA 301 reserves this synchronous counter overflow value",
        Fact::MeantSection(section) => meant_text(section),
        Fact::ByteOrderMark => {
            "the text begins with a byte order mark of UTF-8, which older tools read as characters"
        }
        Fact::CommentInValue => {
            "`;` begins a comment only at the beginning of a line, so it belongs to the value"
        }
        Fact::QuotedValue => "the value is in quotes, which belong to it",
        Fact::EndMark => "the line is a DOS end-of-file mark (1Ah) or NUL bytes",
        Fact::Truth => "TRUE and FALSE are no numbers",
        Fact::OtherNumber => "this is no number of its type",
        Fact::NoPairs => "an OCTET_STRING is pairs of hexadecimal digits",
        Fact::DecimalIndex(_) => {
            "the listed object % has no section: % is decimal, 0x% is hexadecimal"
        }
        Fact::LowDecimal(_) => {
            "% is below 0x1000, so it isn't read: % is decimal, 0x% is hexadecimal"
        }
        Fact::LowIndex(_) => "% is below 0x1000, so it isn't read",
        Fact::FixedType(_) | Fact::StandardType(_) => "CiA 301 has DataType=0x% here",
        Fact::NoType(_) => "the entry has no DataType",
        Fact::NoAccess(_) => "the entry has no AccessType",
        Fact::NoTypeOrAccess(_) => "the entry has neither DataType nor AccessType",
        Fact::NoFileInfo(_) => "there is no section [FileInfo]; it has to have ",
        Fact::FileInfoLacks(_) => "FileInfo lacks ",
        Fact::NoDeviceInfo(_) => "there is no section [DeviceInfo]; it has to have ",
        Fact::DeviceInfoLacks(_) => "DeviceInfo lacks ",
        Fact::NoSubNumber(_) => {
            "SubNumber is no number, and the number of the object's sub-index sections is %"
        }
        Fact::SubNumber(_, _) => {
            "SubNumber is %, and the number of the object's sub-index sections is %"
        }
        Fact::SubIndex0(_, _) => "sub-index 0 is %, and the highest sub-index of the object is %",
        Fact::DecimalName(_, _) => {
            "sub-index 0 is %, and the highest sub-index of the object is %: the name sub% is \
            hexadecimal"
        }
        Fact::RpdoCount(_, _) => "NrOfRXPDO is %, and the number of the sheet's RPDOs is %",
        Fact::TpdoCount(_, _) => "NrOfTXPDO is %, and the number of the sheet's TPDOs is %",
        Fact::NoRpdoCount(_) => "NrOfRXPDO is no number, and the number of the sheet's RPDOs is %",
        Fact::NoTpdoCount(_) => "NrOfTXPDO is no number, and the number of the sheet's TPDOs is %",
        Fact::Identity(_, _) => "the number is %, and that of the identity object is %",
        Fact::NoIdentity(_) => "the number can't be read, and that of the identity object is %",
        Fact::BelowLow(_, _) => "the value is below the LowLimit of line %, which is %",
        Fact::AboveHigh(_, _) => "the value is above the HighLimit of line %, which is %",
        Fact::AboveNegative(_, _) => {
            "the value is above the HighLimit of line %, which is a negative number, %"
        }
        Fact::ValueOutside(_) => "the value is outside the type's range, % to %",
        Fact::LimitOutside(_) => "the limit is outside the type's range, % to %",
        Fact::LimitsCrossed(_) => "HighLimit is below the LowLimit of line %",
        Fact::NegativeHigh(_) => "HighLimit is a negative number, below the LowLimit of line %",
    }
}

// words with numbers have these in their places
fn numbers(first: u64, second: u64, third: u64) -> [Part; 3]
    ensures { map part_text result ≡ numbers first second third }
{
    [
        Part::Number(first),
        Part::Number(second),
        Part::Number(third),
    ]
}

// the line and the number of a limit
fn bound(line: usize, number: i128) -> [Part; 3]
    ensures { map part_text result ≡ bound_texts line number }
{
    [
        Part::Number(line as u64),
        Part::Signed(number),
        Part::Number(0),
    ]
}

// the range of a numeric type
fn range(data_type: DataType) -> [Part; 3]
    ensures { map part_text result ≡ range_texts data_type }
{
    [
        Part::Signed(data_type.least().unwrap_or(0)),
        Part::Signed(data_type.greatest().unwrap_or(0)),
        Part::Number(0),
    ]
}

// the values of a fact; those past the last place aren't written
#[tactic(auto, unfolding(crate::specs::FactTexts::texts_of))]
fn values_of(fact: Fact) -> [Part; 3]
    ensures { map part_text result ≡ texts_of fact }
{
    match fact {
        Fact::ListCount(counted, has) => numbers(counted, has as u64, counted),
        Fact::ListGap(counted, has, missing) => numbers(has as u64, counted, missing as u64),
        Fact::SubNumber(number, has)
        | Fact::RpdoCount(number, has)
        | Fact::TpdoCount(number, has) => numbers(number, has as u64, 0),
        Fact::SubIndex0(number, highest) => numbers(number, highest as u64, 0),
        Fact::DecimalName(number, highest) => numbers(number, highest as u64, number),
        Fact::NoSubNumber(number)
        | Fact::NoRpdoCount(number)
        | Fact::NoTpdoCount(number)
        | Fact::HighIndex(number)
        | Fact::LimitsCrossed(number)
        | Fact::NegativeHigh(number) => numbers(number as u64, 0, 0),
        Fact::BelowLow(line, number) => bound(line, number),
        Fact::AboveHigh(line, number) => bound(line, number),
        Fact::AboveNegative(line, number) => bound(line, number),
        Fact::ValueOutside(data_type) | Fact::LimitOutside(data_type) => range(data_type),
        Fact::Identity(number, other) => [
            Part::Hexadecimal(number),
            Part::Hexadecimal(other),
            Part::Number(0),
        ],
        Fact::NoIdentity(other) | Fact::LowIndex(other) => {
            [Part::Hexadecimal(other), Part::Number(0), Part::Number(0)]
        }
        Fact::DecimalIndex(index) | Fact::LowDecimal(index) => [
            Part::Hexadecimal(index),
            Part::Number(index),
            Part::Number(index),
        ],
        Fact::FixedType(code) | Fact::StandardType(code) | Fact::TypeName(code) => {
            [Part::Code(code), Part::Number(0), Part::Number(0)]
        }
        _ => numbers(0, 0, 0),
    }
}

fn push_key(text: &mut String, words: &str, key: &str) -> Result<(), AllocError>
    ensures { OnOk result
        (string_bytes text.new ≡ string_bytes text.old ++ words.now ++ key.now) }
{
    attempt!(text.push_str(words));
    text.push_str(key)
}

// the keys that are missing, after these words, with commas between them
#[tactic(auto, unfolding(crate::specs::FactTexts::missing_text))]
fn push_missing(
    text: &mut String,
    words: &'static str,
    keys: &[KnownKey],
    missing: &[bool],
) -> Result<(), AllocError>
    ensures { OnOk result (string_bytes text.new
        ≡ string_bytes text.old ++ missing_text words.now keys.now missing.now) }
{
    let [key, keys @ ..] = keys else {
        return Ok(());
    };
    let [is_missing, missing @ ..] = missing else {
        return Ok(());
    };
    if !*is_missing {
        return push_missing(text, words, keys, missing);
    }
    attempt!(push_key(text, words, key.name()));
    push_missing(text, ", ", keys, missing)
}

/// Appends the sentence of a fact. `Err`: out of memory; a part of the text may be there.
#[tactic(auto, unfolding(crate::specs::FactTexts::fact_text))]
pub(crate) fn push_fact(text: &mut String, fact: Fact) -> Result<(), AllocError>
    ensures { OnOk result (string_bytes text.new ≡ string_bytes text.old ++ fact_text fact) }
{
    let words = words_of(fact);
    match fact {
        Fact::NoFileInfo(missing) | Fact::FileInfoLacks(missing) => {
            push_missing(text, words, file_keys(), &missing)
        }
        Fact::NoDeviceInfo(missing) | Fact::DeviceInfoLacks(missing) => {
            push_missing(text, words, device_keys(), &missing)
        }
        _ => push_filled(text, words, &values_of(fact)),
    }
}
