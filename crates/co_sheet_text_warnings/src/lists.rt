//! The object lists.

ghost use Rattle.std.specs.Prelude.{
  ◌≡◌,
  ◌++◌,
  ◌||◌,
  ◌&&◌,
  ℕ,
  nat_eq,
  map,
  flat_map,
  option_to_list,
  filter_map,
  IfOk,
  OnOk,
};
ghost use Rattle.indexmap.specs.IndexSet.{contains};
ghost use Rattle.co_sheet_text.specs.Views.{property_view, section_view};
ghost use Rattle.co_sheet.specs.ObjectLists.{is_listed};
ghost use Rattle.co_sheet.specs.Listings.{listing_view, named_by};
ghost use Rattle.co_sheet_text_warnings.specs.Lists.{
  first_fall,
  first_past,
  is_good_list,
  is_low,
  is_past,
  is_place_to,
  is_right_list,
  low_listing,
  low_listings,
  uncounted_key,
  wrong_listing,
};
ghost use Rattle.co_sheet_text_warnings.specs.Places.{warnings_at};
ghost use Rattle.co_sheet_text_warnings.specs.Views.{list_places};
ghost use Rattle.co_sheet_text_warnings.specs.private.Views.{names};

use crate::places::add_one;
use crate::warning::{Warning, WarningKind};
use co_sheet::{Listing, read_list};
use co_sheet_text::{Property, SectionKind, TextSection, number_in};
use indexmap::IndexSet;
use std::alloc::{AllocError, Global};

// adds what a section names, if it is a list; returns whether it is one that isn't bad
fn add_named(listings: &mut Vec<Listing>, section: &TextSection) -> Result<bool, AllocError>
    ensures good { IfOk result (λ good. good ≡ is_good_list (section_view section.now)) }
    ensures named { OnOk result (map listing_view listings.new.items
        ≡ map listing_view listings.old.items ++ named_by (section_view section.now)) }
{
    if !section.kind.is_list() {
        return Ok(false);
    }
    let is_bad = attempt!(read_list(listings, section));
    Ok(!is_bad)
}

// 1000h, 1001h and 1018h are mandatory, 2000h to 5FFFh the manufacturer's, and all others optional
fn is_right_list(list: SectionKind, index: u64) -> bool
    ensures { result ≡ is_right_list list index }
{
    let is_mandatory = index == 0x1000 || index == 0x1001 || index == 0x1018;
    let is_of_manufacturer = 0x2000 <= index && index <= 0x5FFF;
    match list {
        SectionKind::MandatoryObjects => is_mandatory,
        SectionKind::ManufacturerObjects => is_of_manufacturer,
        _ => !is_mandatory && !is_of_manufacturer,
    }
}

// the line that names an object that belongs in another list
fn wrong_listing(list: SectionKind, listing: &Listing) -> Option<usize>
    ensures { result ≡ wrong_listing list (listing_view listing.now) }
{
    if listing.index <= 0xFFFF && !is_right_list(list, listing.index) {
        Some(listing.line)
    } else {
        None
    }
}

fn add_wrong_listings(
    warnings: &mut Vec<Warning>,
    kind: WarningKind,
    list: SectionKind,
    listings: &[Listing],
) -> Result<(), AllocError>
    ensures { OnOk result (warnings.new.items ≡ warnings.old.items
        ++ warnings_at kind (filter_map (wrong_listing list) (map listing_view listings.now))) }
{
    for listing in listings {
        attempt!(add_one(warnings, kind, wrong_listing(list, listing)));
    }
    Ok(())
}

fn is_place_to(count: u64, name: &[u8]) -> bool
    ensures { result ≡ is_place_to count name.now }
{
    if let [b'0', ..] = name {
        return false;
    }
    match number_in(10, name) {
        Some(place) => place <= count,
        None => false,
    }
}

fn is_low(given: &Property) -> bool
    ensures { result ≡ is_low (property_view given.now) }
{
    match given.number() {
        Some(index) => index < 0x1000,
        None => false,
    }
}

// the line of a key up to the count of its list that names an index below 1000h
fn low_listing(count: u64, given: &Property) -> Option<usize>
    ensures { result ≡ low_listing count (property_view given.now) }
{
    if is_place_to(count, given.name) && is_low(given) {
        Some(given.line)
    } else {
        None
    }
}

fn add_low_keys(
    warnings: &mut Vec<Warning>,
    kind: WarningKind,
    count: u64,
    properties: &[Property],
) -> Result<(), AllocError>
    ensures { OnOk result (warnings.new.items ≡ warnings.old.items
        ++ warnings_at kind (filter_map (low_listing count) (map property_view properties.now))) }
{
    for given in properties {
        attempt!(add_one(warnings, kind, low_listing(count, given)));
    }
    Ok(())
}

fn add_low_listings(
    warnings: &mut Vec<Warning>,
    kind: WarningKind,
    section: &TextSection,
) -> Result<(), AllocError>
    ensures { OnOk result (warnings.new.items
        ≡ warnings.old.items ++ warnings_at kind (low_listings (section_view section.now))) }
{
    if !section.kind.is_list() {
        return Ok(());
    }
    match section.number_at(b"SupportedObjects") {
        Some(count) => add_low_keys(warnings, kind, count, section.properties),
        None => Ok(()),
    }
}

// the line of the first that names a smaller index than the one before it
fn first_fall(listings: &[Listing]) -> Option<usize>
    ensures { option_to_list result ≡ first_fall 0 (map listing_view listings.now) }
{
    let mut last = 0;
    for listing in listings {
        if listing.index < last {
            return Some(listing.line);
        }
        last = listing.index;
    }
    None
}

// whether a key is a place past the count of its list
fn is_past(given: &Property, count: u64) -> bool
    ensures { result ≡ is_past count (property_view given.now) }
{
    match given.name {
        [b'0', ..] => false,
        name => match number_in(10, name) {
            Some(place) => count < place,
            None => false,
        },
    }
}

fn first_past(properties: &[Property], count: u64) -> Option<usize>
    ensures { option_to_list result ≡ first_past (map property_view properties.now) count }
{
    for given in properties {
        if is_past(given, count) {
            return Some(given.line);
        }
    }
    None
}

// the line of the first key past the count of a list, which is good or not
fn uncounted_key(section: &TextSection, is_good: bool) -> Option<usize>
    requires { is_good ≡ is_good_list (section_view section.now) }
    ensures { option_to_list result ≡ uncounted_key (section_view section.now) }
{
    if !is_good {
        return None;
    }
    match section.number_at(b"SupportedObjects") {
        Some(count) => first_past(section.properties, count),
        None => None,
    }
}

/// A check of each object list (CiA 306-1, object lists).
#[derive(Clone, Copy)]
pub enum ListCheck {
    /// The lines that name objects that belong in another list.
    Objects,
    /// The first line that names a smaller index than the one before it.
    Order,
    /// The first key past the count.
    Count,
}

// adds warnings at the lines of a section that fail a check
fn add_places_of_list(
    alloc: Global,
    warnings: &mut Vec<Warning>,
    kind: WarningKind,
    check: ListCheck,
    section: &TextSection,
) -> Result<(), AllocError>
    ensures { OnOk result (warnings.new.items
        ≡ warnings.old.items ++ warnings_at kind (list_places check (section_view section.now))) }
{
    let mut listings = Vec::new(alloc);
    let is_good = attempt!(add_named(&mut listings, section));
    match check {
        ListCheck::Objects => {
            attempt!(add_wrong_listings(warnings, kind, section.kind, listings.as_slice()));
            add_low_listings(warnings, kind, section)
        }
        ListCheck::Order => add_one(warnings, kind, first_fall(listings.as_slice())),
        ListCheck::Count => add_one(warnings, kind, uncounted_key(section, is_good)),
    }
}

/// Adds warnings at the lines of all lists that fail a check (CiA 306-1, object lists). `Err`: out
/// of memory.
pub fn add_places_of_lists(
    alloc: Global,
    warnings: &mut Vec<Warning>,
    kind: WarningKind,
    check: ListCheck,
    sections: &[TextSection],
) -> Result<(), AllocError>
    ensures { OnOk result (warnings.new.items ≡ warnings.old.items
        ++ warnings_at kind (flat_map (list_places check) (map section_view sections.now))) }
{
    for section in sections {
        attempt!(add_places_of_list(alloc, warnings, kind, check, section));
    }
    Ok(())
}

// the indices that listings name
fn indices_of(alloc: Global, listings: &[Listing]) -> Result<IndexSet<u64>, AllocError>
    ensures { IfOk result (λ indices. (i : ℕ) →
        contains nat_eq indices i ≡ names i (map listing_view listings.now)) }
{
    let mut indices = IndexSet::new(alloc);
    for listing in listings {
        attempt_in_memory!(indices.insert(listing.index));
    }
    Ok(indices)
}

/// The indices that the lists name.
pub(crate) fn listed_indices(
    alloc: Global,
    sections: &[TextSection],
) -> Result<IndexSet<u64>, AllocError>
    ensures { IfOk result (λ indices. (i : ℕ) →
        contains nat_eq indices i ≡ is_listed (map section_view sections.now) i) }
{
    let mut all = Vec::new(alloc);
    for section in sections {
        let _is_good = attempt!(add_named(&mut all, section));
    }
    indices_of(alloc, all.as_slice())
}
