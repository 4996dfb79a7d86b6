//! Which sections of a text are at fault.

ghost use Rattle.std.specs.Prelude.{◌≡◌, ◌≤◌, ◌++◌, length, map, nat_lt, is_some, IfOk, OnOk};
ghost use Rattle.std.specs.List.{prefix_len};
ghost use Rattle.co_sheet_text.specs.Sections.{section_at};
ghost use Rattle.co_sheet_text.specs.Views.{section_view};
ghost use Rattle.conode_lint_marks.specs.Doubts.{doubts_at, doubts_of};
ghost use Rattle.conode_lint_marks.specs.AtFault.{
  count_before,
  is_at_fault,
  is_complete,
  is_fault_of,
  kind_if,
  kinds_at,
  kinds_at_fault,
};

use crate::concerns::{Concern, is_any};
use crate::doubts::{add_kinds_again, is_in_doubt};
use co_sheet::{FaultKind, SheetFault, section_at};
use co_sheet_text::{SectionKind, TextSection};
use std::alloc::{AllocError, Global};

// how many of the faults come before these sections; all, if there are none
fn count_before(sections: &[TextSection<'_, '_>], faults: &[SheetFault]) -> usize
    ensures count { result ≡ count_before (map section_view sections.now) faults.now }
    ensures within { result ≤ length faults.now }
{
    let Some(next) = sections.first() else {
        return faults.len();
    };
    faults_before(faults, next.line)
}

/// How many faults at the front are before a line.
pub(crate) fn faults_before(faults: &[SheetFault], line: usize) -> usize
    ensures count { result ≡ prefix_len (λ f. nat_lt f.line line) faults.now }
    ensures within { result ≤ length faults.now }
{
    for (count, fault) in faults.iter().enumerate() {
        if line <= fault.line {
            return count;
        }
    }
    faults.len()
}

// whether a fault among its lines puts a section at fault
fn is_fault_of(kind: SectionKind, line: usize, fault: &SheetFault) -> bool
    ensures { result ≡ is_fault_of kind line fault.now }
{
    match kind {
        SectionKind::PassedOver => fault.line == line,
        _ => !(kind.is_list() && matches!(fault.kind, FaultKind::MissingSection)),
    }
}

// whether a section with these faults is at fault
fn is_at_fault(kind: SectionKind, line: usize, faults: &[SheetFault]) -> bool
    ensures { result ≡ is_at_fault kind line faults.now }
{
    for fault in faults {
        if is_fault_of(kind, line, fault) {
            return true;
        }
    }
    false
}

fn add_if(
    kinds: &mut Vec<SectionKind>,
    condition: bool,
    kind: SectionKind,
) -> Result<(), AllocError>
    ensures { OnOk result (kinds.new.items ≡ kinds.old.items ++ kind_if condition kind) }
{
    if condition {
        attempt_in_memory!(kinds.push(kind));
    }
    Ok(())
}

/// What the sections of a text are about that have a fault at one of their lines, and what those
/// whose value may be wrong.
#[derive(Drop)]
pub struct AtFault {
    /// Of all sections at fault.
    pub kinds: Vec<SectionKind>,
    /// Of those whose value may be wrong.
    pub doubts: Vec<SectionKind>,
}

// adds what the sections at fault are about, where all faults are at these sections
fn add_kinds(
    found: &mut AtFault,
    lines: &[&[u8]],
    faults: &[SheetFault],
    sections: &[TextSection<'_, '_>],
) -> Result<(), AllocError>
    ensures kinds { OnOk result (found.new.kinds.items
        ≡ found.old.kinds.items ++ kinds_at faults.now (map section_view sections.now)) }
    ensures doubts { OnOk result (found.new.doubts.items ≡ found.old.doubts.items ++ doubts_at
        (map (λ line. line.now) lines.now) faults.now (map section_view sections.now)) }
{
    let mut rest = sections;
    let mut left = faults;
    while let [section, more @ ..] = rest {
        let (own, later) = left.split_at(count_before(more, left));
        let is_one = is_at_fault(section.kind, section.line, own);
        attempt!(add_if(&mut found.kinds, is_one, section.kind));
        let is_in_doubt = is_in_doubt(lines, section, own);
        attempt!(add_if(&mut found.doubts, is_in_doubt, section.kind));
        rest = more;
        left = later;
    }
    Ok(())
}

/// The sections at fault of a text with these lines; faults and sections are in the order of their
/// lines. `Err`: out of memory.
#[tactic(auto, unfolding(crate::specs::AtFault::kinds_at_fault, crate::specs::Doubts::doubts_of))]
pub fn sections_at_fault(
    alloc: Global,
    lines: &[&[u8]],
    faults: &[SheetFault],
    sections: &[TextSection<'_, '_>],
) -> Result<AtFault, AllocError>
    ensures kinds { IfOk result (λ found. found.kinds.items
        ≡ kinds_at_fault faults.now (map section_view sections.now)) }
    ensures doubts { IfOk result (λ found. found.doubts.items ≡ doubts_of
        (map (λ line. line.now) lines.now) faults.now (map section_view sections.now)) }
{
    let mut found = AtFault {
        kinds: Vec::new(alloc),
        doubts: Vec::new(alloc),
    };
    let (_, later) = faults.split_at(count_before(sections, faults));
    attempt!(add_kinds(&mut found, lines, later, sections));
    attempt!(add_kinds_again(&mut found.doubts, lines, faults));
    Ok(found)
}

/// Whether there is a section of a kind.
pub(crate) fn has_section(sections: &[TextSection<'_, '_>], kind: SectionKind) -> bool
    ensures { result ≡ is_some (section_at kind (map section_view sections.now)) }
{
    match section_at(sections, kind) {
        Some(_) => true,
        None => false,
    }
}

/// Whether what isn't found isn't there, by what the sections at fault are about.
#[tactic(auto, unfolding(crate::specs::AtFault::is_complete))]
pub(crate) fn is_complete(sections: &[TextSection<'_, '_>], kinds: &[SectionKind]) -> bool
    ensures { result ≡ is_complete (map section_view sections.now) kinds.now }
{
    has_section(sections, SectionKind::MandatoryObjects) && !is_any(Concern::Hiding, kinds)
}
