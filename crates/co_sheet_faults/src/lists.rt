//! What is at fault in the object lists and in what they name.

ghost use Rattle.std.specs.Prelude.{◌≡◌, ◌++◌, [], codes, map, flat_map, not, is_none, OnOk, IfOk};
ghost use Rattle.std.specs.List.{list_any};
ghost use Rattle.co_sheet_text.specs.Views.{property_view, section_view};
ghost use Rattle.co_sheet_text.specs.Properties.{property_number};
ghost use Rattle.co_sheet_text.specs.SectionLaws.{IsParsed};
ghost use Rattle.co_sheet.specs.ObjectLists.{listings};
ghost use Rattle.co_sheet.specs.Listings.{listing_view, is_bad_section, named_by};
ghost use Rattle.co_sheet.specs.Checks.{unread_number, is_listed_before};
ghost use Rattle.co_sheet_faults.specs.Soundness.{unless, is_found, is_unread_at};
ghost use Rattle.co_sheet_faults.specs.AllChecks.{bad_list};
ghost use Rattle.co_sheet_faults.specs.private.Collected.{
  numbers_collected,
  section_collected,
  listing_collected,
};
ghost use Rattle.co_sheet_faults.specs.private.ListParts.{
  is_list_at_fault,
  is_listing_at_fault,
};

use crate::faults::{add_if, add_unread_number};
use crate::objects::add_object;
use co_sheet::{FaultKind, Listing, SheetFault, Tables, has_numbers, read_list};
use co_sheet_text::{Property, TextSection};
use indexmap::IndexSet;
use std::alloc::{AllocError, Global};

// adds the properties that are no numbers
fn add_unread_numbers(
    faults: &mut Vec<SheetFault>,
    properties: &[Property],
) -> Result<(), AllocError>
    ensures { OnOk result (faults.new.items ≡ faults.old.items
        ++ flat_map unread_number (map property_view properties.now)) }
{
    for given in properties {
        attempt!(add_unread_number(faults, given));
    }
    Ok(())
}

// whether one of the properties is no number
fn are_unread(properties: &[Property]) -> bool
    ensures { result ≡ list_any (λ k. is_none (property_number (property_view k))) properties.now }
{
    properties.iter().any(|given| given.number().is_none())
}

// whether one of the properties of a section is no number
fn has_unread(section: &TextSection) -> bool
    ensures { result ≡ is_found (flat_map unread_number (section_view section.now).properties) }
{
    are_unread(section.properties)
}

// whether a section has a SupportedObjects that is no number
fn is_count_unread(section: &TextSection) -> bool
    ensures { result ≡ is_unread_at (codes "SupportedObjects") (section_view section.now) }
{
    match section.property(b"SupportedObjects") {
        Some(given) => given.number().is_none(),
        None => false,
    }
}

// adds the values of a section that must be numbers and are none
fn add_numbers(faults: &mut Vec<SheetFault>, section: &TextSection) -> Result<(), AllocError>
    ensures { OnOk result (faults.new.items
        ≡ faults.old.items ++ numbers_collected (section_view section.now)) }
{
    if has_numbers(section.kind) {
        add_unread_numbers(faults, section.properties)
    } else {
        Ok(())
    }
}

// adds a list that is bad, where its SupportedObjects is a number or absent
fn add_bad_list(
    faults: &mut Vec<SheetFault>,
    section: &TextSection,
    is_bad: bool,
) -> Result<(), AllocError>
    requires { is_bad ≡ is_bad_section (section_view section.now) }
    ensures { OnOk result (faults.new.items ≡ faults.old.items
        ++ unless (is_unread_at (codes "SupportedObjects") (section_view section.now))
        (bad_list (section_view section.now))) }
{
    if is_count_unread(section) {
        return Ok(());
    }
    add_if(faults, is_bad, FaultKind::BadList, section.line)
}

// adds the faults of a section on its own, and what it names; returns whether it is an object list
// at fault
fn add_section(
    faults: &mut Vec<SheetFault>,
    named: &mut Vec<Listing>,
    section: &TextSection,
) -> Result<bool, AllocError>
    ensures found { OnOk result (faults.new.items
        ≡ faults.old.items ++ section_collected (section_view section.now)) }
    ensures named { OnOk result (map listing_view named.new.items
        ≡ map listing_view named.old.items ++ named_by (section_view section.now)) }
    ensures bad { IfOk result (λ bad. bad ≡ is_list_at_fault (section_view section.now)) }
{
    attempt!(add_numbers(faults, section));
    if !section.kind.is_list() {
        return Ok(false);
    }
    let is_bad = attempt!(read_list(named, section));
    attempt!(add_bad_list(faults, section, is_bad));
    let is_unread = has_unread(section);
    Ok(is_unread | is_bad)
}

/// Adds the faults of the object lists, DummyUsage, DeviceInfo and the device commissioning on
/// their own, and what the lists name. Returns whether one of the lists is at fault.
pub(crate) fn add_sections(
    faults: &mut Vec<SheetFault>,
    named: &mut Vec<Listing>,
    sections: &[TextSection],
) -> Result<bool, AllocError>
    ensures found { OnOk result (faults.new.items ≡ faults.old.items
        ++ flat_map section_collected (map section_view sections.now)) }
    ensures named { OnOk result (map listing_view named.new.items
        ≡ map listing_view named.old.items ++ flat_map named_by (map section_view sections.now)) }
    ensures bad { IfOk result (λ bad. bad
        ≡ list_any is_list_at_fault (map section_view sections.now)) }
{
    let mut is_bad = false;
    for section in sections {
        let is_here = attempt!(add_section(faults, named, section));
        is_bad |= is_here;
    }
    Ok(is_bad)
}

// whether a listing names an index again, or one without a section
fn is_listing_bad(tables: &Tables, listing: &Listing, is_first: bool) -> bool
    requires { is_first ≡ not (is_listed_before (listings tables.now) (listing_view listing.now)) }
    ensures { result ≡ is_listing_at_fault tables.now (listing_view listing.now) }
{
    let object = tables.object(listing.index);
    !is_first | object.is_none()
}

// adds the faults of a listing and, at the first line that names it, of its object
fn add_listing(
    faults: &mut Vec<SheetFault>,
    tables: &Tables,
    listing: &Listing,
    is_first: bool,
) -> Result<(), AllocError>
    requires { is_first ≡ not (is_listed_before (listings tables.now) (listing_view listing.now)) }
    ensures { OnOk result (faults.new.items
        ≡ faults.old.items ++ listing_collected tables.now (listing_view listing.now)) }
{
    if listing.index > 0xFFFF {
        return Ok(());
    }
    if !is_first {
        return add_if(faults, true, FaultKind::ListedTwice, listing.line);
    }
    match tables.object(listing.index) {
        Some(object) => add_object(faults, tables, &object),
        None => add_if(faults, true, FaultKind::MissingSection, listing.line),
    }
}

// adds the faults of each listing, and of its object at the first; `seen` has the indices so far
fn add_each_listing(
    faults: &mut Vec<SheetFault>,
    seen: &mut IndexSet<u64>,
    tables: &Tables,
    named: &[Listing],
) -> Result<bool, AllocError>
    requires none { seen.old.keys ≡ [] }
    requires named { map listing_view named.now ≡ listings tables.now }
    requires parsed { IsParsed tables.now }
    ensures found { OnOk result (faults.new.items ≡ faults.old.items
        ++ flat_map (listing_collected tables.now) (listings tables.now)) }
    ensures bad { IfOk result (λ bad. bad
        ≡ list_any (is_listing_at_fault tables.now) (listings tables.now)) }
{
    let mut is_bad = false;
    for listing in named {
        let is_first = attempt_in_memory!(seen.insert(listing.index));
        attempt!(add_listing(faults, tables, listing, is_first));
        is_bad |= is_listing_bad(tables, listing, is_first);
    }
    Ok(is_bad)
}

/// Adds the faults of what the object lists of these sections name, those of an object at the first
/// line that names it. Returns whether a line names an index again, or one without a section.
pub(crate) fn add_listings(
    alloc: Global,
    faults: &mut Vec<SheetFault>,
    sections: &[TextSection],
    named: &[Listing],
) -> Result<bool, AllocError>
    requires named { map listing_view named.now ≡ listings (map section_view sections.now) }
    requires parsed { IsParsed (map section_view sections.now) }
    ensures found { OnOk result (faults.new.items ≡ faults.old.items
        ++ flat_map (listing_collected (map section_view sections.now))
        (listings (map section_view sections.now))) }
    ensures bad { IfOk result (λ bad. bad
        ≡ list_any (is_listing_at_fault (map section_view sections.now))
        (listings (map section_view sections.now))) }
{
    let tables = attempt!(Tables::new(alloc, sections));
    let mut seen = IndexSet::new(alloc);
    add_each_listing(faults, &mut seen, &tables, named)
}
