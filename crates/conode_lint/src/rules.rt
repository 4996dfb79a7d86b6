//! All kinds of findings, for a log of SARIF and for the names that may be allowed.

ghost use Rattle.std.specs.Prelude.{
  ◌≡◌,
  [],
  Contains,
  false,
  IfSome,
  OnOk,
  map,
};
ghost use Rattle.conode_lint.specs.Rules.{
  is_known,
  is_name_of,
  rule_fix,
  rule_meaning,
  rule_of,
  seen_rule,
};

use crate::words::{fix_of, meaning_of, name_of, severity_of, subject_of};
use co_dict_build::BuildFault;
use co_sheet_faults::FaultKind;
use co_sheet_text_warnings::{KnownKey, WarningKind};
use co_value::Key;
use conode_lint_marks::{Mark, OtherFormat, Subject};
use conode_lint_text::Rule;
use std::alloc::AllocError;

const KEY: Key = Key { index: 0, sub: 0 };

/// All kinds: another format, the faults of a text, those of a build, and the warnings.
static SUBJECTS: [Subject; 60] = [
    Subject::Format(OtherFormat::Xml),
    Subject::Fault(FaultKind::TooLarge),
    Subject::Fault(FaultKind::BadLine),
    Subject::Fault(FaultKind::KeyOutsideSection),
    Subject::Fault(FaultKind::DuplicateSection),
    Subject::Fault(FaultKind::DuplicateKey),
    Subject::Fault(FaultKind::MissingSection),
    Subject::Fault(FaultKind::BadNumber),
    Subject::Fault(FaultKind::AmbiguousNumber),
    Subject::Fault(FaultKind::BadList),
    Subject::Fault(FaultKind::ListedTwice),
    Subject::Fault(FaultKind::MissingKey),
    Subject::Fault(FaultKind::BadType),
    Subject::Fault(FaultKind::LeftOutType),
    Subject::Fault(FaultKind::BadAccess),
    Subject::Fault(FaultKind::BadLimits),
    Subject::Fault(FaultKind::BadDefault),
    Subject::Fault(FaultKind::MissingSub0),
    Subject::Fault(FaultKind::CompactForm),
    Subject::Fault(FaultKind::MissingMandatory),
    Subject::Build(BuildFault::ValueRange(KEY)),
    Subject::Build(BuildFault::BadCobId(KEY)),
    Subject::Build(BuildFault::PdoPair(0)),
    Subject::Build(BuildFault::BadMapping(KEY)),
    Subject::Build(BuildFault::TooMany),
    Subject::Warning(WarningKind::SubNumber),
    Subject::Warning(WarningKind::SubIndex0),
    Subject::Warning(WarningKind::VarSubIndices),
    Subject::Warning(WarningKind::MandatoryForm),
    Subject::Warning(WarningKind::FileInfoKeys([false; 10])),
    Subject::Warning(WarningKind::DeviceInfoKeys([false; 22])),
    Subject::Warning(WarningKind::PdoCount),
    Subject::Warning(WarningKind::WrongList),
    Subject::Warning(WarningKind::UncountedKey),
    Subject::Warning(WarningKind::Unlisted),
    Subject::Warning(WarningKind::IdentityNumber(1)),
    Subject::Warning(WarningKind::FixedCobId),
    Subject::Warning(WarningKind::NodeIdPlace),
    Subject::Warning(WarningKind::NodeIdSum),
    Subject::Warning(WarningKind::NegativeLimit),
    Subject::Warning(WarningKind::ReservedValue),
    Subject::Warning(WarningKind::WrongAccess),
    Subject::Warning(WarningKind::WrongType),
    Subject::Warning(WarningKind::MisspeltSection),
    Subject::Warning(WarningKind::MisspeltKey(KnownKey::AccessType)),
    Subject::Warning(WarningKind::SharedCobId(0)),
    Subject::Warning(WarningKind::InhibitTime),
    Subject::Warning(WarningKind::OwnHeartbeat),
    Subject::Warning(WarningKind::HeartbeatTwice(None)),
    Subject::Warning(WarningKind::NoErrorControl),
    Subject::Warning(WarningKind::LongLine),
    Subject::Warning(WarningKind::Utf8),
    Subject::Warning(WarningKind::NotAscii),
    Subject::Warning(WarningKind::NodeId),
    Subject::Warning(WarningKind::ListOrder),
    Subject::Warning(WarningKind::EqualNames),
    Subject::Warning(WarningKind::MissingName),
    Subject::Warning(WarningKind::UnknownKey),
    Subject::Warning(WarningKind::DateFormat),
    Subject::Warning(WarningKind::LineEnds),
];

// the table as a slice: each function that names an array of this length repeats it
fn subjects() -> &'static [Subject]
    ensures { result.now ≡ SUBJECTS }
{
    &SUBJECTS
}

// what is wrong and how to fix it, of a kind; of a text of another format without saying which
fn words_of(subject: Subject) -> (&'static str, &'static str)
    ensures meaning { result.0.now ≡ rule_meaning subject }
    ensures fix { result.1.now ≡ rule_fix subject }
{
    match subject {
        Subject::Format(_) => (
            "this is no EDS of CANopen: it is XML, an EDS of EtherNet/IP or DeviceNet, in UTF-16, with \
            CR alone at line ends, or without a section; or its lines end with CR, CR and LF",
            "export or ask for an EDS of CANopen, in ASCII",
        ),
        _ => (meaning_of(Mark { line: 1, subject }), fix_of(subject)),
    }
}

// the rule of a kind
#[tactic(auto, unfolding(crate::specs::Rules::rule_of))]
fn rule_of(subject: Subject) -> Rule<'static>
    ensures { seen_rule result ≡ rule_of subject }
{
    let (meaning, fix) = words_of(subject);
    Rule {
        name: name_of(subject),
        severity: severity_of(subject),
        meaning,
        fix,
        subject: subject_of(subject),
    }
}

// adds the rules of these kinds to none
fn add_rules_of(rules: &mut Vec<Rule<'static>>, subjects: &[Subject]) -> Result<(), AllocError>
    requires { rules.old.items ≡ [] }
    ensures { OnOk result (map seen_rule rules.new.items ≡ map rule_of subjects.now) }
{
    for subject in subjects {
        attempt_in_memory!(rules.push(rule_of(*subject)));
    }
    Ok(())
}

/// Adds all kinds of findings to none. `Err`: out of memory.
pub(crate) fn add_rules(rules: &mut Vec<Rule<'static>>) -> Result<(), AllocError>
    requires { rules.old.items ≡ [] }
    ensures { OnOk result (map seen_rule rules.new.items ≡ map rule_of SUBJECTS) }
{
    add_rules_of(rules, subjects())
}

/// The first of these names that no kind of finding has.
pub(crate) fn unknown_name<'a>(names: &[&'a str]) -> Option<&'a str>
    ensures among { IfSome result (λ name. Contains (map (λ one. one.now) names.now) name.now) }
    ensures unknown { IfSome result (λ name. is_known name.now ≡ false) }
{
    for name in names {
        if !is_known(*name) {
            return Some(*name);
        }
    }
    None
}

fn is_known(name: &str) -> bool
    ensures { result ≡ is_known name.now }
{
    is_name_of(subjects(), name)
}

// findings of one of these kinds have this name
fn is_name_of(subjects: &[Subject], name: &str) -> bool
    ensures { result ≡ is_name_of subjects.now name.now }
{
    for subject in subjects {
        if name_of(*subject) == name {
            return true;
        }
    }
    false
}
