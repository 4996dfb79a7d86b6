//! The listed objects: their rows, their entries, and what is checked of them.

ghost use Rattle.std.specs.Prelude.{◌≡◌, ◌==◌, ◌++◌, ◌∷◌, [], map, option_map, Some, None, IfOk, IfErr, OnOk};
ghost use Rattle.std.specs.List.{list_any};
ghost use Rattle.std.specs.Result.{result_ok, result_err};
ghost use Rattle.co_sheet_text.specs.Views.{section_view};
ghost use Rattle.co_sheet.specs.ObjectLists.{listings};
ghost use Rattle.co_sheet.specs.Entries.{entries_in, entries_of};
ghost use Rattle.co_sheet.specs.Checks.{object_checks};
ghost use Rattle.co_sheet.specs.Accepted.{least_fault, first_found, IsAnswered};
ghost use Rattle.co_sheet.specs.Content.{object_row_of};
ghost use Rattle.co_sheet.specs.SectionViews.{object_view, entry_view};
ghost use Rattle.co_sheet.specs.SheetViews.{object_row_view};
ghost use Rattle.co_sheet.specs.private.Findings.{found_by, soonest};
ghost use Rattle.co_sheet.specs.private.ListReadings.{listing_view};
ghost use Rattle.co_sheet.specs.private.ObjectReadings.{
  type_of,
  type_finding,
  object_codes,
  part_finding,
  sub_0_finding,
  form_finding,
  parts_finding,
  compact_pdo,
  object_finding,
  listing_finding,
  rows_so_far,
  row_at,
  entries_at,
};

use crate::checks::faults::number_of;
use crate::checks::findings::{Finding, checked, sooner, unless};
use crate::checks::lists::Listing;
use crate::object_type::object_type_with;
use crate::rows::name_of;
use crate::sections::section_at;
use crate::tables::{EntrySection, ListedSection, Tables};
use co_sheet_rows::{FaultKind, Object, ObjectType, SheetFault};
use co_sheet_text::{SectionKind, TextSection};
use co_value::Key;
use std::alloc::AllocError;

impl<'s, 'a> EntrySection<'s, 'a> {
    // an ObjectType of a sub-index that is no number, or another than VAR's or DOMAIN's
    fn type_finding(&self) -> Option<Finding>
        ensures { result ≡ part_finding (entry_view self.now) }
    {
        let given = self.section.property(b"ObjectType")?;
        match number_of(&given) {
            Ok(2 | 7) => None,
            Ok(_) => Some(Finding {
                check: 7,
                fault: SheetFault {
                    kind: FaultKind::BadType,
                    line: given.line,
                },
            }),
            Err(fault) => Some(Finding { check: 6, fault }),
        }
    }
}

fn parts_finding(parts: &[EntrySection]) -> Option<Finding>
    ensures { result ≡ soonest part_finding (map entry_view parts.now) }
{
    let mut first = None;
    for part in parts {
        first = sooner(first, part.type_finding());
    }
    first
}

fn has_sub_index_0(parts: &[EntrySection]) -> bool
    ensures { result ≡ list_any (λ part. part.key.sub == 0) parts.now }
{
    parts.iter().any(|part| part.key.sub == 0)
}

// an ARRAY or a RECORD without sub-index 0
fn missing_sub_index_0(parts: &[EntrySection], line: usize) -> Option<Finding>
    ensures { result ≡ sub_0_finding line (map entry_view parts.now) }
{
    if has_sub_index_0(parts) {
        return None;
    }
    Some(Finding {
        check: 9,
        fault: SheetFault {
            kind: FaultKind::MissingSub0,
            line,
        },
    })
}

impl<'s, 'a> ListedSection<'s, 'a> {
    // the object type, VAR where none is stated
    fn object_type(&self) -> Result<ObjectType, Finding>
        ensures finding { result_err result
            ≡ type_finding object_codes (section_view self.now.section.now) }
        ensures read { result_ok result ≡ type_of (section_view self.now.section.now) }
    {
        let Some(given) = self.section.property(b"ObjectType") else {
            return Ok(ObjectType::Var);
        };
        let code = checked(6, number_of(&given))?;
        object_type_with(code).ok_or(Finding {
            check: 7,
            fault: SheetFault {
                kind: FaultKind::BadType,
                line: given.line,
            },
        })
    }

    // a CompactSubObj that is no number, or another than 0
    fn form_finding(&self) -> Option<Finding>
        ensures { result ≡ form_finding (section_view self.now.section.now) }
    {
        let given = self.section.property(b"CompactSubObj")?;
        match number_of(&given) {
            Ok(0) => None,
            Ok(_) => Some(Finding {
                check: 8,
                fault: SheetFault {
                    kind: FaultKind::CompactForm,
                    line: given.line,
                },
            }),
            Err(fault) => Some(Finding { check: 6, fault }),
        }
    }

    // what is found in the sub-index sections; those of a VAR or a DOMAIN are passed over
    fn parts_finding(
        &self,
        parts: &[EntrySection],
        object_type: &Result<ObjectType, Finding>,
    ) -> Option<Finding>
        ensures { result ≡ parts_finding (result_ok object_type.now) self.now.section.now.line
            (map entry_view parts.now) }
    {
        match object_type {
            Ok(ObjectType::Var | ObjectType::Domain) => None,
            Ok(ObjectType::Array | ObjectType::Record) => sooner(
                parts_finding(parts),
                missing_sub_index_0(parts, self.section.line),
            ),
            Err(_) => parts_finding(parts),
        }
    }

    // the row of the object, or what the first of its checks that finds anything finds (CiA 306,
    // object description)
    fn read(&self, tables: &Tables<'s, 'a>) -> Result<Object<'a>, Finding>
        ensures finding { result_err result ≡ object_finding tables.now (object_view self.now) }
        ensures row { IfOk result
            (λ row. object_row_of (object_view self.now) ≡ Some (object_row_view row)) }
    {
        let of_type = self.object_type();
        let of_parts = self.parts_finding(tables.parts(self.index), &of_type);
        let found = sooner(self.form_finding(), of_parts);
        Ok(Object {
            index: self.index,
            object_type: unless(of_type, found)?,
            name: name_of(self.section),
            line: self.section.line,
        })
    }
}

fn add_parts<'s, 'a>(
    entries: &mut Vec<EntrySection<'s, 'a>>,
    parts: &[EntrySection<'s, 'a>],
) -> Result<(), AllocError>
    ensures { OnOk result (map entry_view entries.new.items
        ≡ map entry_view entries.old.items ++ map entry_view parts.now) }
{
    for part in parts {
        entries.push(*part)?;
    }
    Ok(())
}

// adds the entries of an object: a VAR's or a DOMAIN's is its own section, an ARRAY's or a RECORD's
// are its sub-index sections
fn add_entries<'s, 'a>(
    entries: &mut Vec<EntrySection<'s, 'a>>,
    tables: &Tables<'s, 'a>,
    object: &ListedSection<'s, 'a>,
    object_type: ObjectType,
) -> Result<(), AllocError>
    requires { type_of (section_view object.now.section.now) ≡ Some object_type }
    ensures { OnOk result (map entry_view entries.new.items
        ≡ map entry_view entries.old.items ++ entries_in tables.now (object_view object.now)) }
{
    match object_type {
        ObjectType::Var | ObjectType::Domain => {
            let key = Key {
                index: object.index,
                sub: 0,
            };
            entries.push(EntrySection {
                key,
                section: object.section,
            })?;
        }
        ObjectType::Array | ObjectType::Record => {
            add_parts(entries, tables.parts(object.index))?;
        }
    }
    Ok(())
}

// adds the object of a listing and its entries, or returns what is found first in it
fn take<'s, 'a>(
    objects: &mut Vec<Object<'a>>,
    entries: &mut Vec<EntrySection<'s, 'a>>,
    tables: &Tables<'s, 'a>,
    listing: &Listing,
) -> Result<Option<Finding>, AllocError>
    ensures finding { IfOk result
        (λ found. found ≡ listing_finding tables.now (listing_view listing.now)) }
    ensures objects { IfOk result (λ found. found ≡ None → rows_so_far objects.new.items
        ≡ rows_so_far objects.old.items ++ row_at tables.now (listing_view listing.now) ∷ []) }
    ensures entries { IfOk result (λ found. found ≡ None → map entry_view entries.new.items
        ≡ map entry_view entries.old.items ++ entries_at tables.now (listing_view listing.now)) }
{
    let Some(object) = tables.object(listing.index) else {
        return Ok(Some(Finding {
            check: 5,
            fault: SheetFault {
                kind: FaultKind::MissingSection,
                line: listing.line,
            },
        }));
    };
    match object.read(tables) {
        Ok(row) => {
            add_entries(entries, tables, &object, row.object_type)?;
            objects.push(row)?;
            Ok(None)
        }
        Err(found) => Ok(Some(found)),
    }
}

// a compact form of PDOs
fn compact_pdo(sections: &[TextSection]) -> Option<Finding>
    ensures { result
        ≡ option_map (found_by 8) (least_fault (compact_pdo (map section_view sections.now))) }
{
    let given = section_at(sections, SectionKind::DeviceInfo)?.property(b"CompactPDO")?;
    match given.number() {
        None | Some(0) => None,
        Some(_) => Some(Finding {
            check: 8,
            fault: SheetFault {
                kind: FaultKind::CompactForm,
                line: given.line,
            },
        }),
    }
}

/// Adds the objects of these listings and the sections of their entries. `Err`: the fault that is
/// found first in them; out of memory has no line.
pub(crate) fn read_objects<'s, 'a>(
    objects: &mut Vec<Object<'a>>,
    entries: &mut Vec<EntrySection<'s, 'a>>,
    tables: &Tables<'s, 'a>,
    named: &[Listing],
) -> Result<(), SheetFault>
    requires { map listing_view named.now ≡ listings tables.now }
    ensures objects { OnOk result (rows_so_far objects.new.items
        ≡ rows_so_far objects.old.items ++ map (row_at tables.now) (listings tables.now)) }
    ensures entries { OnOk result (map entry_view entries.new.items
        ≡ map entry_view entries.old.items ++ entries_of tables.now) }
    ensures none { OnOk result (first_found object_checks tables.now ≡ None) }
    ensures err { IfErr result (IsAnswered (first_found object_checks tables.now)) }
{
    let mut first = compact_pdo(tables.sections());
    for listing in named {
        first = sooner(first, take(objects, entries, tables, listing)?);
    }
    match first {
        Some(found) => Err(found.fault),
        None => Ok(()),
    }
}
