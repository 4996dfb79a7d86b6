//! Texts for users.

ghost use Rattle.std.specs.Prelude.{◌≡◌, [], Some};
ghost use Rattle.co_dict_build.specs.declared.build_fault.BuildFault.{BuildFault};
ghost use Rattle.co_dict_build.specs.BuildFaultTexts.{fault_number};
ghost use Rattle.co_sheet_rows.specs.declared.fault.FaultKind.{FaultKind};
ghost use Rattle.co_sheet_rows.specs.declared.fault.SheetFault.{SheetFault};
ghost use Rattle.co_sheet_rows.specs.FaultTexts.{fault_number as sheet_number};
ghost use Rattle.co_sheet_faults.specs.FaultWords.{fix_of, meaning_of};
ghost use Rattle.co_words.specs.declared.abort_reason.AbortReason.{AbortReason};
ghost use Rattle.co_words.specs.AbortReasons.{code_of, text_of};
ghost use Rattle.co_words.specs.BuildFaultWords.{build_fix_of, build_meaning_of};
ghost use Rattle.bafokun.specs.Faults.{device_fault, no_fault, sheet_fault};
ghost use Rattle.bafokun.specs.Texts.{HasWordsOf, IsText};

use crate::build::Fault;
use crate::questions::copy;
use co_dict_build::BuildFault;
use co_sheet::{FaultKind, SheetFault};
use co_sheet_faults::{fix_of, meaning_of};
use co_value::Key;
use co_words::{abort_text, build_fix_of, build_meaning_of};

/// The meaning of an SDO abort code (CiA 301, 7.2.4.3.17), as text with a 0 after it, truncated if
/// the array has less room. Returns the length of the whole text without the 0; 0 for a code that
/// the standard doesn't have. C must pass an array of as many bytes as it states.
#[unsafe(no_mangle)]
pub extern "C" fn bafokun_abort_text(code: u32, text: &mut [u8]) -> usize
    ensures known { (reason : AbortReason) → code_of reason ≡ code →
        IsText (text_of reason) text.old text.new result }
    ensures unknown { ((reason : AbortReason) → code_of reason ≡ code → ⊥) →
        IsText [] text.old text.new result }
{
    put_text(abort_text(code).as_bytes(), text)
}

/// The meaning of a fault of `bafokun_build`, as text by the rules of `bafokun_abort_text`; empty
/// for no fault. C must pass what that call requires, and a fault that `bafokun_build` has written,
/// outside the array.
#[unsafe(no_mangle)]
pub extern "C" fn bafokun_fault_text(fault: &Fault, text: &mut [u8]) -> usize
    ensures sheet { (f : SheetFault) → fault.now ≡ sheet_fault f →
        IsText (meaning_of f) text.old text.new result }
    ensures device { (f : BuildFault) → fault.now ≡ device_fault f →
        IsText (build_meaning_of f) text.old text.new result }
    ensures none { fault.now ≡ no_fault → IsText [] text.old text.new result }
{
    put_text(meaning(fault).as_bytes(), text)
}

/// How to fix a fault of `bafokun_build`, as text by the rules of `bafokun_abort_text`; empty for
/// no fault. C must pass what `bafokun_fault_text` requires.
#[unsafe(no_mangle)]
pub extern "C" fn bafokun_fault_fix(fault: &Fault, text: &mut [u8]) -> usize
    ensures sheet { (f : SheetFault) → fault.now ≡ sheet_fault f →
        IsText (fix_of f) text.old text.new result }
    ensures device { (f : BuildFault) → fault.now ≡ device_fault f →
        IsText (build_fix_of f) text.old text.new result }
    ensures none { fault.now ≡ no_fault → IsText [] text.old text.new result }
{
    put_text(fix(fault).as_bytes(), text)
}

fn meaning(fault: &Fault) -> &'static str
    ensures sheet { (f : SheetFault) → fault.now ≡ sheet_fault f → result.now ≡ meaning_of f }
    ensures device { (f : BuildFault) → fault.now ≡ device_fault f → result.now
        ≡ build_meaning_of f }
    ensures none { fault.now ≡ no_fault → result.now ≡ [] }
{
    match fault.stage {
        1 => match sheet_kind(fault.number) {
            // the text differs only if no line is at fault
            Some(kind) => meaning_of(&SheetFault {
                kind,
                line: if fault.line == 0 { 0 } else { 1 },
            }),
            None => "",
        },
        2 => match build_fault(fault.number) {
            Some(fault) => build_meaning_of(&fault),
            None => "",
        },
        _ => "",
    }
}

fn fix(fault: &Fault) -> &'static str
    ensures sheet { (f : SheetFault) → fault.now ≡ sheet_fault f → result.now ≡ fix_of f }
    ensures device { (f : BuildFault) → fault.now ≡ device_fault f → result.now ≡ build_fix_of f }
    ensures none { fault.now ≡ no_fault → result.now ≡ [] }
{
    match fault.stage {
        1 => match sheet_kind(fault.number) {
            Some(kind) => fix_of(&SheetFault {
                kind,
                line: if fault.line == 0 { 0 } else { 1 },
            }),
            None => "",
        },
        2 => match build_fault(fault.number) {
            Some(fault) => build_fix_of(&fault),
            None => "",
        },
        _ => "",
    }
}

// The kind of a fault of a data sheet, by its number.
fn sheet_kind(number: u16) -> Option<FaultKind>
    ensures { (kind : FaultKind) → sheet_number kind ≡ number → result ≡ Some kind }
{
    match number {
        1 => Some(FaultKind::TooLarge),
        2 => Some(FaultKind::BadLine),
        3 => Some(FaultKind::KeyOutsideSection),
        4 => Some(FaultKind::DuplicateSection),
        5 => Some(FaultKind::DuplicateKey),
        6 => Some(FaultKind::MissingSection),
        7 => Some(FaultKind::BadNumber),
        8 => Some(FaultKind::AmbiguousNumber),
        9 => Some(FaultKind::BadList),
        10 => Some(FaultKind::ListedTwice),
        11 => Some(FaultKind::MissingKey),
        12 => Some(FaultKind::BadType),
        13 => Some(FaultKind::LeftOutType),
        14 => Some(FaultKind::BadAccess),
        15 => Some(FaultKind::BadLimits),
        16 => Some(FaultKind::BadDefault),
        17 => Some(FaultKind::MissingSub0),
        18 => Some(FaultKind::CompactForm),
        19 => Some(FaultKind::MissingMandatory),
        20 => Some(FaultKind::Memory),
        _ => None,
    }
}

// A build fault with this number; its texts don't name an entry.
fn build_fault(number: u16) -> Option<BuildFault>
    ensures { (fault : BuildFault) → fault_number fault ≡ number → HasWordsOf fault result }
{
    let key = Key { index: 0, sub: 0 };
    match number {
        1 => Some(BuildFault::NodeId),
        2 => Some(BuildFault::ValueRange(key)),
        3 => Some(BuildFault::BadCobId(key)),
        4 => Some(BuildFault::PdoPair(0)),
        5 => Some(BuildFault::BadMapping(key)),
        6 => Some(BuildFault::TooMany),
        7 => Some(BuildFault::Memory),
        _ => None,
    }
}

// Puts a text with a 0 after it into an array, truncated to its room. Returns the length of the
// whole text.
#[tactic(auto, using(crate::proofs::Terminated::is_text))]
pub(crate) fn put_text(words: &[u8], text: &mut [u8]) -> usize
    ensures { IsText words.now text.old text.new result }
{
    if text.is_empty() {
        return words.len();
    }
    let count = words.len().min(text.len() - 1);
    copy(&words[..count], text);
    text[count] = 0;
    words.len()
}
