//! What the checks find, in one pass.

ghost use Rattle.std.specs.Prelude.{◌≡◌, ◌++◌, ◌&&◌, not, is_none, map, OnOk};
ghost use Rattle.co_sheet_text.specs.declared.section_kind.SectionKind.TheVariants.{
  MandatoryObjects,
};
ghost use Rattle.co_sheet_text.specs.Sections.{section_at};
ghost use Rattle.co_sheet_text.specs.Views.{section_view};
ghost use Rattle.co_sheet_text.specs.SectionLaws.{IsParsed};
ghost use Rattle.co_sheet.specs.ObjectLists.{listings};
ghost use Rattle.co_sheet.specs.Listings.{listing_view};
ghost use Rattle.co_sheet_faults.specs.private.Collected.{compact_pdo, collected, collected_after};
ghost use Rattle.co_sheet_faults.specs.private.ListParts.{is_named, lacks_mandatory};

use crate::faults::{add_compact_form, add_if};
use crate::lists::{add_listings, add_sections};
use co_sheet::{FaultKind, Listing, SheetFault, section_at};
use co_sheet_text::{SectionKind, TextSection};
use std::alloc::{AllocError, Global};

// a compact form of PDOs
fn add_compact_pdo(faults: &mut Vec<SheetFault>, sections: &[TextSection]) -> Result<(), AllocError>
    ensures { OnOk result (faults.new.items
        ≡ faults.old.items ++ compact_pdo (map section_view sections.now)) }
{
    match section_at(sections, SectionKind::DeviceInfo) {
        Some(info) => add_compact_form(faults, info, b"CompactPDO"),
        None => Ok(()),
    }
}

// whether the lists name an index
fn is_named(named: &[Listing], index: u64) -> bool
    ensures { result ≡ is_named named.now index }
{
    named.iter().any(|listing| listing.index == index)
}

// whether the lists lack 1000h, 1001h or 1018h
fn lacks_mandatory(named: &[Listing]) -> bool
    ensures { result ≡ lacks_mandatory named.now }
{
    !(is_named(named, 0x1000) && is_named(named, 0x1001) && is_named(named, 0x1018))
}

fn has_mandatory_list(sections: &[TextSection]) -> bool
    ensures { result
        ≡ not (is_none (section_at MandatoryObjects (map section_view sections.now))) }
{
    section_at(sections, SectionKind::MandatoryObjects).is_some()
}

// whether neither the object lists nor what they name is at fault, and 1000h, 1001h or 1018h is
// missing
fn is_mandatory_missing(
    has_lists: bool,
    are_lists_bad: bool,
    is_listing_bad: bool,
    named: &[Listing],
) -> bool
    ensures { result ≡ (has_lists && not are_lists_bad && not is_listing_bad
        && lacks_mandatory named.now) }
{
    has_lists && !are_lists_bad && !is_listing_bad && lacks_mandatory(named)
}

// adds what the checks find after the lists on their own: a compact form of PDOs, what is at fault
// in what the lists name, and what they lack
fn add_after_lists(
    alloc: Global,
    faults: &mut Vec<SheetFault>,
    sections: &[TextSection],
    named: &[Listing],
    has_lists: bool,
    are_lists_bad: bool,
) -> Result<(), AllocError>
    requires named { map listing_view named.now ≡ listings (map section_view sections.now) }
    requires parsed { IsParsed (map section_view sections.now) }
    ensures { OnOk result (faults.new.items ≡ faults.old.items
        ++ collected_after has_lists are_lists_bad named.now (map section_view sections.now)) }
{
    attempt!(add_compact_pdo(faults, sections));
    let is_listing_bad = attempt!(add_listings(alloc, faults, sections, named));
    let is_missing = is_mandatory_missing(has_lists, are_lists_bad, is_listing_bad, named);
    add_if(faults, is_missing, FaultKind::MissingMandatory, 0)
}

/// Adds what the checks find, section by section and listing by listing (CiA 306, object lists,
/// object description).
pub(crate) fn collect(
    alloc: Global,
    faults: &mut Vec<SheetFault>,
    sections: &[TextSection],
) -> Result<(), AllocError>
    requires { IsParsed (map section_view sections.now) }
    ensures { OnOk result (faults.new.items
        ≡ faults.old.items ++ collected (map section_view sections.now)) }
{
    let has_lists = has_mandatory_list(sections);
    attempt!(add_if(faults, !has_lists, FaultKind::MissingSection, 0));
    let mut named = Vec::new(alloc);
    let are_lists_bad = attempt!(add_sections(faults, &mut named, sections));
    let named = named.as_slice();
    add_after_lists(alloc, faults, sections, named, has_lists, are_lists_bad)
}
