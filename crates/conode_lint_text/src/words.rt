//! The words of a finding.

ghost use Rattle.std.specs.Prelude.{◌≡◌, ◌++◌, OnOk, string_bytes};
ghost use Rattle.conode_lint_text.specs.Findings.{
  about_message,
  access_text,
  fact_fix,
  fix_of,
  help_of,
  message_of,
  severity_name,
};

use crate::fact::{Fact, push_fact};
use crate::finding::{About, Finding, Severity};
use co_sheet_warnings::FixedAccess;
use conode_text::{Value, push_filled};
use std::alloc::AllocError;

/// The severity, in a word.
pub(crate) fn severity_name(severity: Severity) -> &'static str
    ensures { result.now ≡ severity_name severity }
{
    match severity {
        Severity::Error => "error",
        Severity::Warning => "warning",
    }
}

// the access that CiA 301 has for an entry
fn access_text(access: FixedAccess) -> &'static str
    ensures { result.now ≡ access_text access }
{
    match access {
        FixedAccess::ReadOnly => "CiA 301 has AccessType=ro or const here",
        FixedAccess::Readable | FixedAccess::ReadWrite => "CiA 301 has AccessType=rw here",
    }
}

#[tactic(auto, unfolding(crate::specs::Findings::about_message))]
fn push_about(text: &mut String, about: About, meaning: &str) -> Result<(), AllocError>
    ensures { OnOk result (string_bytes text.new
        ≡ string_bytes text.old ++ about_message about meaning.now) }
{
    match about {
        About::Line => text.push_str(meaning),
        About::Object(index) => push_filled(
            text,
            "%: %",
            &[Value::Short(index), Value::Words(meaning)],
        ),
        About::Entry(index, sub_index) => push_filled(
            text,
            "%:%: %",
            &[
                Value::Short(index),
                Value::Byte(sub_index),
                Value::Words(meaning),
            ],
        ),
        About::Sum(index, sub_index, first, last) => push_filled(
            text,
            "%:%: %; it is right for % to %",
            &[
                Value::Short(index),
                Value::Byte(sub_index),
                Value::Words(meaning),
                Value::Number(first as u64),
                Value::Number(last as u64),
            ],
        ),
        About::NoSum(index, sub_index) => push_filled(
            text,
            "%:%: %; it is right for none",
            &[
                Value::Short(index),
                Value::Byte(sub_index),
                Value::Words(meaning),
            ],
        ),
        About::Bits(index, bits) => push_filled(
            text,
            "%:00: % bits in all: %",
            &[
                Value::Short(index),
                Value::Number(bits as u64),
                Value::Words(meaning),
            ],
        ),
        About::FirstAt(line) => push_filled(
            text,
            "%, first at line %",
            &[Value::Words(meaning), Value::Number(line as u64)],
        ),
        About::Misspelt(known) => push_filled(
            text,
            "the standard has no such key: did you mean %",
            &[Value::Words(known.name())],
        ),
        About::MisspeltBeside(known) => push_filled(
            text,
            "the standard has no such key: did you mean %, which is there too",
            &[Value::Words(known.name())],
        ),
        About::NoSection(index) | About::CompactPdo(index) => push_filled(
            text,
            "the listed object has no section [%]",
            &[Value::Short(index)],
        ),
        About::Access(access) => text.push_str(access_text(access)),
        About::Fact(fact) => push_fact(text, fact),
    }
}

/// Appends what is wrong. `Err`: out of memory; a part of the text may be there.
#[tactic(auto, unfolding(crate::specs::Findings::message_of))]
pub(crate) fn push_message(text: &mut String, finding: &Finding<'_>) -> Result<(), AllocError>
    ensures { OnOk result
        (string_bytes text.new ≡ string_bytes text.old ++ message_of finding.now) }
{
    push_about(text, finding.about, finding.meaning)
}

// how to fix it, where this fact says more than the kind. Without its type an ARRAY or a RECORD is taken
// for an entry
#[tactic(auto, unfolding(crate::specs::Findings::fix_with))]
fn fact_fix(fact: Fact, fix: &str) -> &str
    ensures { result.now ≡ fact_fix fact fix.now }
{
    match fact {
        Fact::HighIndex(_) => "give an index of at most four hexadecimal digits",
        Fact::NoMandatoryList => "add it, with 1000h, 1001h and 1018h",
        Fact::NotListed(_, _, _) => "list what is missing, with its section",
        Fact::LargeText => "take out comments and sections that are passed over",
        Fact::NoValue => {
            "write decimal digits, 0x and hexadecimal digits, or a sum as $NODEID+0x180"
        }
        Fact::NoMapping => "write 1 if the entry may be mapped into a PDO, or else 0",
        Fact::NotOctal => {
            "write the number without the zero, or try conode adapt --leading-zeros decimal"
        }
        Fact::OpenSection => {
            "put `]` after the name, or take the section out where the sheet has it already; until then \
            its lines aren't read, so a listed object may lack them"
        }
        Fact::UnopenedSection => {
            "put `[` before the name; until then the section before has its lines, so their keys may come \
            twice there, and a listed object may have no section"
        }
        Fact::Unsupported => "take the object out of its list",
        Fact::ManyEntries => {
            "describe its sub-indices, with ObjectType=8 of 1003h or ObjectType=9 of a mapping; or \
            take the object out of its list"
        }
        Fact::DecimalName(_, _) => {
            "write the sub-index in hexadecimal in each section's name, as subA for 10; or give the \
            highest sub-index"
        }
        Fact::NoObjectType => {
            "write 0x7 for a VAR, 0x8 for an ARRAY, 0x9 for a RECORD, 0x2 for a DOMAIN"
        }
        Fact::TypeName(_) => "write that number",
        Fact::ReservedOfTpdo => "give 0 to 240, or from 252 on",
        Fact::ReservedOfRpdo => "give 0 to 240, 254 or 255",
        Fact::ReservedCounter => "give 0, or 2 to 240",
        Fact::FileInfoLacks(_) | Fact::DeviceInfoLacks(_) => {
            "add the missing keys, each with a value: one without it counts as missing"
        }
        Fact::ByteOrderMark => "save it without the mark",
        Fact::CommentInValue => "put the comment on a line of its own",
        Fact::QuotedValue => "take the quotes out",
        Fact::EndMark => "take these bytes out",
        Fact::Truth => "write 1 for TRUE, 0 for FALSE",
        Fact::OtherNumber => {
            "write a REAL as 1.5, not as its bits; of another type give a number within its range"
        }
        Fact::NoPairs => "write pairs of hexadecimal digits without blanks, as 00A1FF",
        Fact::DecimalIndex(_) => { "write the index in hexadecimal, after 0x; or add the section" }
        Fact::LowDecimal(_) => "write the index in hexadecimal, after 0x",
        Fact::LowIndex(_) => "take it out of the list",
        Fact::FixedType(_) => {
            "give that type, or take the object out of its list, unless it is mandatory"
        }
        Fact::NoType(true) => "add DataType",
        Fact::NoAccess(true) => "add AccessType",
        Fact::NoTypeOrAccess(true) => "add DataType and AccessType",
        Fact::NoType(false) => {
            "add DataType; to an ARRAY or a RECORD add ObjectType=8 or ObjectType=9"
        }
        Fact::NoAccess(false) => {
            "add AccessType; to an ARRAY or a RECORD add ObjectType=8 or ObjectType=9"
        }
        Fact::NoTypeOrAccess(false) => {
            "add DataType and AccessType; to an ARRAY or a RECORD add ObjectType=8 or ObjectType=9"
        }
        Fact::NoCount
        | Fact::ListCount(_, _)
        | Fact::ListGap(_, _, _)
        | Fact::NoDataType
        | Fact::StandardType(_)
        | Fact::MeantSection(_)
        | Fact::NoFileInfo(_)
        | Fact::NoDeviceInfo(_)
        | Fact::NoSubNumber(_)
        | Fact::SubNumber(_, _)
        | Fact::SubIndex0(_, _)
        | Fact::RpdoCount(_, _)
        | Fact::TpdoCount(_, _)
        | Fact::NoRpdoCount(_)
        | Fact::NoTpdoCount(_)
        | Fact::Identity(_, _)
        | Fact::NoIdentity(_)
        | Fact::BelowLow(_, _)
        | Fact::AboveHigh(_, _)
        | Fact::AboveNegative(_, _)
        | Fact::ValueOutside(_)
        | Fact::LimitOutside(_)
        | Fact::LimitsCrossed(_)
        | Fact::NegativeHigh(_) => fix,
    }
}

/// How to fix it, where what the sheet has there says more than the kind.
#[tactic(auto, unfolding(crate::specs::Findings::fix_with))]
pub(crate) fn fix_of<'a>(finding: &Finding<'a>) -> &'a str
    ensures { result.now ≡ fix_of finding.now }
{
    match finding.about {
        About::Fact(fact) => fact_fix(fact, finding.fix),
        About::NoSection(_) => "add it; or take the object out of its list, unless it is mandatory",
        About::CompactPdo(_) => {
            "try conode adapt, which writes out the PDOs that CompactPDO describes; or add it"
        }
        About::MisspeltBeside(_) => "take it out",
        _ => finding.fix,
    }
}

/// Appends how to fix it, and the subject of the standard. `Err`: out of memory; a part of the text
/// may be there.
#[tactic(auto, unfolding(crate::specs::Findings::help_of))]
pub(crate) fn push_help<'p>(
    text: &mut String,
    fix: &'p str,
    subject: &'p str,
) -> Result<(), AllocError>
    ensures { OnOk result
        (string_bytes text.new ≡ string_bytes text.old ++ help_of fix.now subject.now) }
{
    if subject.is_empty() {
        return text.push_str(fix);
    }
    push_filled(text, "% (%)", &[Value::Words(fix), Value::Words(subject)])
}
