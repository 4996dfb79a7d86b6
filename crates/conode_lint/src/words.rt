//! The words about what is found.

ghost use Rattle.std.specs.Prelude.{◌≡◌, map};
ghost use Rattle.co_sheet_text.specs.Views.{section_view};
ghost use Rattle.conode_lint.specs.Words.{
  about_of,
  fault_about,
  fault_fix,
  fault_place,
  fix_of,
  meaning_of,
  meaning_with,
  name_of,
  place_of,
  severity_of,
  subject_of,
  warning_about,
};

use crate::build_reasons::meaning_in;
use crate::build_words::{build_about, build_fix, build_meaning, build_place, build_subject};
use crate::format_words::{format_fix, format_meaning};
use crate::mapping_words::{mapping_about, mapping_fix, mapping_meaning};
use co_sheet_faults::{FaultKind, SheetFault};
use co_sheet_text::TextSection;
use co_sheet_text_warnings::WarningKind;
use co_sheet_warnings::first_equal;
use conode_lint_marks::{Mark, Subject};
use conode_lint_text::{
    About, Place, Severity, ambiguous_number, bad_access, bad_default, bad_limits, bad_line,
    bad_list, bad_number, bad_type, device_info, duplicate_key, duplicate_section, file_info,
    first_at, identity_number, listed_twice, missing_key, missing_mandatory, missing_section_in,
    misspelt_key, misspelt_section, pdo_count, reserved_value, sub_index_0, sub_number, too_large,
    utf8, wrong_access, wrong_list, wrong_type,
};

/// Its name, as `BadList`.
pub(crate) fn name_of(subject: Subject) -> &'static str
    ensures { result.now ≡ name_of subject }
{
    match subject {
        Subject::Format(_) => "OtherFormat",
        Subject::Fault(kind) => kind.name(),
        Subject::Build(fault) => fault.name(),
        Subject::Mapping(_) => "BadMapping",
        Subject::Warning(kind) => co_sheet_warnings::name_of(kind),
    }
}

/// Its severity: only a warning is no error.
pub(crate) fn severity_of(subject: Subject) -> Severity
    ensures { result ≡ severity_of subject }
{
    match subject {
        Subject::Warning(_) => Severity::Warning,
        Subject::Format(_) | Subject::Fault(_) | Subject::Build(_) | Subject::Mapping(_) => {
            Severity::Error
        }
    }
}

fn fault_place(kind: FaultKind) -> Place
    ensures { result ≡ fault_place kind }
{
    match kind {
        FaultKind::BadNumber
        | FaultKind::AmbiguousNumber
        | FaultKind::MissingSection
        | FaultKind::ListedTwice
        | FaultKind::BadType
        | FaultKind::LeftOutType
        | FaultKind::BadAccess
        | FaultKind::BadLimits
        | FaultKind::BadDefault
        | FaultKind::CompactForm => Place::Value,
        _ => Place::Beginning,
    }
}

/// Which part of its line it is about.
pub(crate) fn place_of(subject: Subject) -> Place
    ensures { result ≡ place_of subject }
{
    match subject {
        Subject::Fault(kind) => fault_place(kind),
        Subject::Build(fault) => build_place(fault),
        Subject::Mapping(_) => Place::Value,
        Subject::Format(_) | Subject::Warning(_) => Place::Beginning,
    }
}

fn fault_about(sections: &[TextSection<'_, '_>], line: usize, text: &[u8], kind: FaultKind) -> About
    ensures { result ≡ fault_about (map section_view sections.now) line text.now kind }
{
    match kind {
        FaultKind::TooLarge => too_large(line),
        FaultKind::MissingSection => missing_section_in(sections, line, text),
        FaultKind::MissingMandatory => missing_mandatory(sections),
        FaultKind::BadLine => bad_line(text),
        FaultKind::BadNumber => bad_number(text),
        FaultKind::AmbiguousNumber => ambiguous_number(text),
        FaultKind::BadAccess => bad_access(text),
        FaultKind::BadType => bad_type(sections, line, text),
        FaultKind::BadList => bad_list(sections, line),
        FaultKind::ListedTwice => listed_twice(sections, text),
        FaultKind::MissingKey => missing_key(sections, line),
        FaultKind::DuplicateKey => duplicate_key(sections, line, text),
        FaultKind::DuplicateSection => duplicate_section(sections, text),
        FaultKind::BadLimits => bad_limits(sections, line, text),
        FaultKind::BadDefault => bad_default(sections, line, text),
        _ => About::Line,
    }
}

fn warning_about(
    sections: &[TextSection<'_, '_>],
    line: usize,
    text: &[u8],
    kind: WarningKind,
) -> About
    ensures { result ≡ warning_about (map section_view sections.now) line text.now kind }
{
    match kind {
        WarningKind::SubNumber => sub_number(sections, line, text),
        WarningKind::SubIndex0 => sub_index_0(sections, line, text),
        WarningKind::FileInfoKeys(missing) => file_info(line, missing),
        WarningKind::DeviceInfoKeys(missing) => device_info(line, missing),
        WarningKind::PdoCount => pdo_count(sections, text),
        WarningKind::IdentityNumber(sub) => identity_number(sections, sub, text),
        WarningKind::SharedCobId(_) | WarningKind::HeartbeatTwice(_) | WarningKind::EqualNames => {
            first_at(first_equal(kind, sections, line))
        }
        WarningKind::MisspeltKey(known) => misspelt_key(sections, line, known),
        WarningKind::MisspeltSection => misspelt_section(text),
        WarningKind::WrongList => wrong_list(text),
        WarningKind::WrongAccess => wrong_access(sections, line),
        WarningKind::WrongType => wrong_type(sections, line),
        WarningKind::ReservedValue => reserved_value(sections, line),
        WarningKind::Utf8 => utf8(text),
        _ => About::Line,
    }
}

/// What it is about, if its line alone, which has this text, doesn't show it.
pub(crate) fn about_of(sections: &[TextSection<'_, '_>], mark: Mark, text: &[u8]) -> About
    ensures { result ≡ about_of (map section_view sections.now) mark.line text.now mark.subject }
{
    match mark.subject {
        Subject::Fault(kind) => fault_about(sections, mark.line, text, kind),
        Subject::Build(fault) => build_about(sections, mark.line, text, fault),
        Subject::Mapping(fault) => mapping_about(fault),
        Subject::Warning(kind) => warning_about(sections, mark.line, text, kind),
        Subject::Format(_) => About::Line,
    }
}

/// What is wrong, in one line.
pub(crate) fn meaning_of(mark: Mark) -> &'static str
    ensures { result.now ≡ meaning_of mark }
{
    match mark.subject {
        Subject::Format(format) => format_meaning(format),
        Subject::Fault(kind) => {
            let fault = SheetFault {
                kind,
                line: mark.line,
            };
            co_sheet_faults::meaning_of(&fault)
        }
        Subject::Build(fault) => build_meaning(fault),
        Subject::Mapping(fault) => mapping_meaning(fault.reason),
        Subject::Warning(kind) => co_sheet_warnings::meaning_of(kind),
    }
}

/// The same, of a build fault which of several it is, at a line with this text, by the given
/// node-ID, or else the sheet's own.
pub(crate) fn meaning_with(
    node: Option<u8>,
    sections: &[TextSection<'_, '_>],
    text: &[u8],
    mark: Mark,
) -> &'static str
    ensures { result.now ≡ meaning_with node (map section_view sections.now) text.now
        mark.line mark.subject }
{
    match mark.subject {
        Subject::Build(fault) => meaning_in(node, sections, text, fault),
        _ => meaning_of(mark),
    }
}

// as at a line: a text without one has a fact, which says more
fn fault_fix(kind: FaultKind) -> &'static str
    ensures { result.now ≡ fault_fix kind }
{
    match kind {
        FaultKind::AmbiguousNumber => {
            "CiA 306 reads a leading 0 as octal: write the number in decimal without it or in \
            hexadecimal, or try conode adapt --leading-zeros"
        }
        FaultKind::BadList => {
            "number the keys 1, 2, 3 without a gap, and count them; a key with a leading zero, as \
            01, isn't read: write 1, or try conode adapt"
        }
        _ => co_sheet_faults::fix_of(&SheetFault { kind, line: 1 }),
    }
}

/// How to fix it, in one line.
pub(crate) fn fix_of(subject: Subject) -> &'static str
    ensures { result.now ≡ fix_of subject }
{
    match subject {
        Subject::Format(format) => format_fix(format),
        Subject::Fault(kind) => fault_fix(kind),
        Subject::Build(fault) => build_fix(fault),
        Subject::Mapping(fault) => mapping_fix(fault.reason),
        Subject::Warning(kind) => co_sheet_warnings::fix_of(kind),
    }
}

/// The subject of the standard that has the rule; empty if none has.
pub(crate) fn subject_of(subject: Subject) -> &'static str
    ensures { result.now ≡ subject_of subject }
{
    match subject {
        Subject::Format(_) => "CiA 306-1, structure of an EDS",
        Subject::Fault(kind) => co_sheet_faults::subject_of(kind),
        Subject::Build(fault) => build_subject(fault),
        Subject::Mapping(_) => "CiA 301, PDO mapping parameter",
        Subject::Warning(kind) => co_sheet_warnings::subject_of(kind),
    }
}
