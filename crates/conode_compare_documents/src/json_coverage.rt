//! What a recording covers, in JSON.

ghost use Rattle.std.specs.Prelude.{map, zip};
ghost use Rattle.std.specs.List.{flat_map};
ghost use Rattle.co_sheet.specs.SheetViews.{row_view};
ghost use Rattle.conode_json.specs.Appended.{Appended};
ghost use Rattle.conode_compare_documents.specs.CoverageTokens.{
  aborts_member,
  coverage_member,
  entry_tokens,
  services_member,
  types_member,
};

use crate::member::Member;
use crate::parts::{Document, Part};
use co_sheet::EntryRow;
use conode_compare_report::{Coverage, Covered, Numbered, Served};

fn put_entry(document: &mut Document, row: &EntryRow<'_>, covered: Covered)
    ensures { Appended document.old (entry_tokens (row_view row.now, covered)) document.new }
{
    document.put(&[
        Part::BeginObject,
        Part::Number(Member::Index, row.key.index as u64),
        Part::Number(Member::SubIndex, row.key.sub as u64),
    ]);
    document.put_bytes(Member::Name, row.name);
    document.put(&[
        Part::Flag(Member::Read, covered.read),
        Part::Flag(Member::Written, covered.written),
        Part::Flag(Member::Refused, covered.refused),
        Part::EndObject,
    ]);
}

// the entries of the sheet, each with what the recording has of it
fn put_rows(document: &mut Document, rows: &[EntryRow<'_>], covered: &[Covered])
    ensures { Appended document.old
        (flat_map entry_tokens (zip (map row_view rows.now) covered.now)) document.new }
{
    for (place, row) in rows.iter().enumerate() {
        if let Some(covered) = covered.get(place) {
            put_entry(document, row, *covered);
        }
    }
}

fn put_services(document: &mut Document, services: &[Served])
    ensures { Appended document.old (services_member services.now) document.new }
{
    document.put(&[Part::Array(Member::Services)]);
    for served in services {
        document.put(&[
            Part::BeginObject,
            Part::Text(Member::Name, served.service.name()),
            Part::Number(Member::Count, served.count),
            Part::EndObject,
        ]);
    }
    document.put(&[Part::EndArray]);
}

// the transmission types that were seen
fn put_types(document: &mut Document, types: &[Numbered])
    ensures { Appended document.old (types_member types.now) document.new }
{
    document.put(&[Part::Array(Member::TpdoTypes)]);
    for numbered in types {
        document.put(&[
            Part::BeginObject,
            Part::Number(Member::Type, numbered.number as u64),
            Part::Number(Member::Count, numbered.count),
            Part::EndObject,
        ]);
    }
    document.put(&[Part::EndArray]);
}

// the abort codes that were seen
fn put_aborts(document: &mut Document, aborts: &[Numbered])
    ensures { Appended document.old (aborts_member aborts.now) document.new }
{
    document.put(&[Part::Array(Member::AbortCodes)]);
    for numbered in aborts {
        document.put(&[
            Part::BeginObject,
            Part::Code(Member::Code, numbered.number),
            Part::Number(Member::Count, numbered.count),
            Part::EndObject,
        ]);
    }
    document.put(&[Part::EndArray]);
}

/// Writes the member with what the recording covers of the entries of the sheet.
pub(crate) fn put_coverage(document: &mut Document, rows: &[EntryRow<'_>], coverage: &Coverage)
    ensures { Appended document.old
        (coverage_member (map row_view rows.now) coverage.now) document.new }
{
    document.put(&[Part::Object(Member::Coverage), Part::Array(Member::Entries)]);
    put_rows(document, rows, coverage.entries.as_slice());
    document.put(&[Part::EndArray]);
    put_services(document, coverage.services.as_slice());
    document.put(&[
        Part::Object(Member::States),
        Part::Flag(Member::Initialising, coverage.states.initialising),
        Part::Flag(Member::PreOperational, coverage.states.pre_operational),
        Part::Flag(Member::Operational, coverage.states.operational),
        Part::Flag(Member::Stopped, coverage.states.stopped),
        Part::EndObject,
    ]);
    put_types(document, coverage.types.as_slice());
    put_aborts(document, coverage.aborts.as_slice());
    document.put(&[Part::EndObject]);
}
