//! What is at fault in an object.

ghost use Rattle.std.specs.Prelude.{◌≡◌, ◌++◌, ◌==◌, map, flat_map, OnOk, Some};
ghost use Rattle.std.specs.List.{list_any};
ghost use Rattle.co_sheet_text.specs.Views.{section_view};
ghost use Rattle.co_sheet.specs.ObjectLists.{is_one_of};
ghost use Rattle.co_sheet.specs.Entries.{compound_codes, object_code};
ghost use Rattle.co_sheet.specs.SectionViews.{object_view, entry_view};
ghost use Rattle.co_sheet_faults.specs.Soundness.{is_compact};
ghost use Rattle.co_sheet_faults.specs.AllChecks.{sub_index_0_found};
ghost use Rattle.co_sheet_faults.specs.private.Collected.{
  object_type_collected,
  compact_collected,
  part_collected,
  parts_collected,
  object_collected,
};
ghost use Rattle.co_sheet_faults.specs.private.EntryParts.{codes_of};

use crate::entries::{add_entry, is_single};
use crate::faults::{add_compact_form, add_if, add_unread, add_unread_at};
use co_sheet::{EntrySection, FaultKind, ListedSection, SheetFault, Tables};
use co_sheet_text::{TextSection, unsigned_number};
use co_value::Key;
use std::alloc::AllocError;

// whether an object type's entries are its sub-index sections
fn is_compound(code: Option<u64>) -> bool
    ensures { result ≡ is_one_of compound_codes code }
{
    matches!(code, Some(8 | 9))
}

// the object type, VAR's where none is stated; `None` where it is no number
fn object_code(section: &TextSection) -> Option<u64>
    ensures { result ≡ object_code (section_view section.now) }
{
    match section.property(b"ObjectType") {
        Some(given) => given.number(),
        None => Some(7),
    }
}

// whether an object type is one that an object may have, or a sub-index: VAR's or DOMAIN's
fn is_known(is_part: bool, code: u64) -> bool
    ensures { result ≡ is_one_of (codes_of is_part) (Some code) }
{
    is_single(Some(code)) || (!is_part && is_compound(Some(code)))
}

// adds an ObjectType of an object or a sub-index that is no number, or isn't known
fn add_object_type(
    faults: &mut Vec<SheetFault>,
    section: &TextSection,
    is_part: bool,
) -> Result<(), AllocError>
    ensures { OnOk result (faults.new.items ≡ faults.old.items
        ++ object_type_collected (codes_of is_part) (section_view section.now)) }
{
    let Some(given) = section.property(b"ObjectType") else {
        return Ok(());
    };
    match unsigned_number(given.value) {
        Ok(code) => {
            let is_known = is_known(is_part, code);
            add_if(faults, !is_known, FaultKind::BadType, given.line)
        }
        Err(fault) => add_unread(faults, fault, given.line),
    }
}

// adds a CompactSubObj that is no number, or isn't 0
fn add_compact(faults: &mut Vec<SheetFault>, section: &TextSection) -> Result<(), AllocError>
    ensures { OnOk result (faults.new.items
        ≡ faults.old.items ++ compact_collected (section_view section.now)) }
{
    attempt!(add_unread_at(faults, section, b"CompactSubObj"));
    add_compact_form(faults, section, b"CompactSubObj")
}

// whether a CompactSubObj is given and isn't 0
fn is_compact(section: &TextSection) -> bool
    ensures { result ≡ is_compact (section_view section.now) }
{
    match section.property(b"CompactSubObj") {
        Some(given) => !matches!(given.number(), Some(0)),
        None => false,
    }
}

fn has_sub_index_0(parts: &[EntrySection]) -> bool
    ensures { result ≡ list_any (λ part. part.key.sub == 0) parts.now }
{
    parts.iter().any(|part| part.key.sub == 0)
}

// adds an ARRAY or a RECORD without sub-index 0
fn add_missing_sub_index_0(
    faults: &mut Vec<SheetFault>,
    tables: &Tables,
    object: &ListedSection,
) -> Result<(), AllocError>
    ensures { OnOk result (faults.new.items
        ≡ faults.old.items ++ sub_index_0_found tables.now (object_view object.now)) }
{
    let section = object.section;
    if is_compact(section) || !is_compound(object_code(section)) {
        return Ok(());
    }
    let has_first = has_sub_index_0(tables.parts(object.index));
    add_if(faults, !has_first, FaultKind::MissingSub0, section.line)
}

// adds the faults of a sub-index section, which is an entry of an ARRAY or a RECORD
fn add_part(
    faults: &mut Vec<SheetFault>,
    part: &EntrySection,
    is_entry: bool,
) -> Result<(), AllocError>
    ensures { OnOk result (faults.new.items
        ≡ faults.old.items ++ part_collected is_entry (entry_view part.now)) }
{
    attempt!(add_object_type(faults, part.section, true));
    if is_entry {
        add_entry(faults, part)
    } else {
        Ok(())
    }
}

fn add_each_part(
    faults: &mut Vec<SheetFault>,
    parts: &[EntrySection],
    is_entry: bool,
) -> Result<(), AllocError>
    ensures { OnOk result (faults.new.items ≡ faults.old.items
        ++ flat_map (part_collected is_entry) (map entry_view parts.now)) }
{
    for part in parts {
        attempt!(add_part(faults, part, is_entry));
    }
    Ok(())
}

// adds the faults of an object's entries and sub-index sections; those sections of a VAR or a
// DOMAIN are passed over
fn add_parts(
    faults: &mut Vec<SheetFault>,
    tables: &Tables,
    object: &ListedSection,
) -> Result<(), AllocError>
    ensures { OnOk result (faults.new.items
        ≡ faults.old.items ++ parts_collected tables.now (object_view object.now)) }
{
    let code = object_code(object.section);
    if is_single(code) {
        let key = Key {
            index: object.index,
            sub: 0,
        };
        let entry = EntrySection {
            key,
            section: object.section,
        };
        return add_entry(faults, &entry);
    }
    add_each_part(faults, tables.parts(object.index), is_compound(code))
}

/// Adds all faults of an object and of its entries (CiA 306, object description).
pub(crate) fn add_object(
    faults: &mut Vec<SheetFault>,
    tables: &Tables,
    object: &ListedSection,
) -> Result<(), AllocError>
    ensures { OnOk result (faults.new.items
        ≡ faults.old.items ++ object_collected tables.now (object_view object.now)) }
{
    attempt!(add_object_type(faults, object.section, false));
    attempt!(add_compact(faults, object.section));
    attempt!(add_missing_sub_index_0(faults, tables, object));
    add_parts(faults, tables, object)
}
