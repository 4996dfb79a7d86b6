//! The object lists: what they name, and what is checked of them.

ghost use Rattle.std.specs.Prelude.{
  ◌≡◌,
  ◌++◌,
  ℕ,
  nat_eq,
  map,
  flat_map,
  filter_map,
  option_and_then,
  IfOk,
  IfErr,
  OnOk,
  None,
  [],
};
ghost use Rattle.indexmap.specs.IndexSet.{contains};
ghost use Rattle.co_sheet_text.specs.Views.{property_view, section_view};
ghost use Rattle.co_sheet.specs.ObjectLists.{listings};
ghost use Rattle.co_sheet.specs.Checks.{unread_number, has_numbers, is_bad_list};
ghost use Rattle.co_sheet.specs.Accepted.{least_fault, first_found, IsAnswered};
ghost use Rattle.co_sheet.specs.Listings.{listing_view, is_bad_section, named_in, named_by};
ghost use Rattle.co_sheet.specs.private.ListReadings.{
  listed,
  listing_at,
  listing_with,
  is_key_to,
  is_large,
  list_finding,
  own_checks,
  is_listed_at,
  twice_in,
  LinesRise,
  unlisted_mandatory,
};

use crate::checks::faults::{earlier, fault_if, number_of};
use crate::checks::findings::{Finding, sooner};
use crate::sections::section_at;
use co_sheet_rows::{FaultKind, SheetFault};
use co_sheet_text::{Property, SectionKind, TextSection, number_in};
use indexmap::IndexSet;
use std::alloc::AllocError;

/// An index that an object list names, and the line where it does.
#[derive(Clone, Copy)]
pub struct Listing {
    pub index: u64,
    /// From 1.
    pub line: usize,
}

// whether a key is one of the places up to this: a number from 1, without leading zeros
fn is_key_to(given: &Property, count: u64) -> bool
    ensures { result ≡ is_key_to count (property_view given.now) }
{
    match given.name {
        [b'0', ..] => false,
        name => number_in(10, name).is_some_and(|number| number <= count),
    }
}

// whether an index is above FFFFh
fn is_large(index: Option<u64>) -> bool
    ensures { result ≡ is_large index }
{
    index.is_some_and(|index| index > 0xFFFF)
}

// what a key of a list names, from 1000h on
fn add_listing(
    listings: &mut Vec<Listing>,
    index: Option<u64>,
    line: usize,
) -> Result<(), AllocError>
    ensures { OnOk result (map listing_view listings.new.items ≡ map listing_view listings.old.items
        ++ listed (option_and_then (listing_with line) index)) }
{
    if let Some(index) = index {
        if index >= 0x1000 {
            listings.push(Listing { index, line })?;
        }
    }
    Ok(())
}

// adds what the places of a list up to its count name; returns whether one is missing, or names an
// index above FFFFh
fn add_listings(
    listings: &mut Vec<Listing>,
    section: &TextSection,
    count: u64,
) -> Result<bool, AllocError>
    ensures bad { IfOk result (λ bad. bad ≡ is_bad_list (section_view section.now) count) }
    ensures named { OnOk result (map listing_view listings.new.items
        ≡ map listing_view listings.old.items
        ++ filter_map (listing_at count) (section_view section.now).properties) }
{
    let mut places: u64 = 0;
    let mut has_large = false;
    for given in section.properties {
        if is_key_to(given, count) {
            places += 1;
            let index = given.number();
            has_large |= is_large(index);
            add_listing(listings, index, given.line)?;
        }
    }
    if count > 0xFFFF || places < count {
        return Ok(true);
    }
    Ok(has_large)
}

/// Adds the indices from 1000h on that a list names, at its places 1 to SupportedObjects (CiA 306,
/// object lists). Returns whether the list is bad: its count is missing or above FFFFh, a place up
/// to it is missing, or an index is above FFFFh. `Err`: out of memory.
pub fn read_list(listings: &mut Vec<Listing>, section: &TextSection) -> Result<bool, AllocError>
    ensures bad { IfOk result (λ bad. bad ≡ is_bad_section (section_view section.now)) }
    ensures named { OnOk result (map listing_view listings.new.items
        ≡ map listing_view listings.old.items ++ named_in (section_view section.now)) }
{
    match section.number_at(b"SupportedObjects") {
        Some(count) => add_listings(listings, section, count),
        None => Ok(true),
    }
}

/// Whether all values that are read in a section must be numbers: an object list, DummyUsage,
/// DeviceInfo, the device commissioning.
pub fn has_numbers(kind: SectionKind) -> bool
    ensures { result ≡ has_numbers kind }
{
    kind.is_list()
        || matches!(
            kind,
            SectionKind::DummyUsage | SectionKind::DeviceInfo | SectionKind::DeviceCommissioning
        )
}

fn unread_numbers(section: &TextSection) -> Option<SheetFault>
    ensures { result ≡ least_fault (flat_map unread_number (section_view section.now).properties) }
{
    let mut least = None;
    for given in section.properties {
        least = earlier(least, number_of(given).err());
    }
    least
}

// what is found first in a section on its own; adds what the section names
fn read_section(
    listings: &mut Vec<Listing>,
    section: &TextSection,
) -> Result<Option<Finding>, AllocError>
    ensures finding { IfOk result (λ found. found ≡ list_finding (section_view section.now)) }
    ensures named { IfOk result (λ found. found ≡ None → map listing_view listings.new.items
        ≡ map listing_view listings.old.items ++ named_by (section_view section.now)) }
{
    if !has_numbers(section.kind) {
        return Ok(None);
    }
    if let Some(fault) = unread_numbers(section) {
        return Ok(Some(Finding { check: 2, fault }));
    }
    if !section.kind.is_list() {
        return Ok(None);
    }
    let is_bad = read_list(listings, section)?;
    if !is_bad {
        return Ok(None);
    }
    Ok(Some(Finding {
        check: 3,
        fault: SheetFault {
            kind: FaultKind::BadList,
            line: section.line,
        },
    }))
}

/// Adds what the object lists name from 1000h on, in the order of the text (CiA 306, object lists).
/// `Err`: the first fault of the lists, DummyUsage, DeviceInfo and the device commissioning on
/// their own.
pub(crate) fn read_lists(
    named: &mut Vec<Listing>,
    sections: &[TextSection],
) -> Result<(), SheetFault>
    ensures listings { OnOk result (map listing_view named.new.items
        ≡ map listing_view named.old.items ++ listings (map section_view sections.now)) }
    ensures none { OnOk result (first_found own_checks (map section_view sections.now) ≡ None) }
    ensures err { IfErr result
        (IsAnswered (first_found own_checks (map section_view sections.now))) }
{
    if section_at(sections, SectionKind::MandatoryObjects).is_none() {
        return Err(SheetFault {
            kind: FaultKind::MissingSection,
            line: 0,
        });
    }
    let mut first = None;
    for section in sections {
        first = sooner(first, read_section(named, section)?);
    }
    match first {
        Some(found) => Err(found.fault),
        None => Ok(()),
    }
}

/// Collects the indices that the lists name. `Err`: the fault of the first line that names one
/// again.
pub(crate) fn collect_indices(
    indices: &mut IndexSet<u64>,
    listings: &[Listing],
) -> Result<(), SheetFault>
    requires empty { indices.old.keys ≡ [] }
    requires rise { LinesRise (map listing_view listings.now) }
    ensures listed { OnOk result ((i : ℕ) → contains nat_eq indices.new i
        ≡ is_listed_at i (map listing_view listings.now)) }
    ensures none { OnOk result (least_fault (twice_in (map listing_view listings.now)) ≡ None) }
    ensures err { IfErr result
        (IsAnswered (least_fault (twice_in (map listing_view listings.now)))) }
{
    for listing in listings {
        let is_new = indices.insert(listing.index)?;
        if !is_new {
            return Err(SheetFault {
                kind: FaultKind::ListedTwice,
                line: listing.line,
            });
        }
    }
    Ok(())
}

/// The fault if 1000h, 1001h or 1018h is in no list.
pub(crate) fn missing_mandatory(indices: &IndexSet<u64>) -> Option<SheetFault>
    ensures { result ≡ least_fault (unlisted_mandatory (contains nat_eq indices.now)) }
{
    let are_listed = indices.contains(&0x1000)
        && indices.contains(&0x1001)
        && indices.contains(&0x1018);
    fault_if(!are_listed, FaultKind::MissingMandatory, 0)
}
