//! The document of JSON (RFC 8259).

ghost use Rattle.std.specs.Prelude.{◌≡◌, IfOk};
ghost use Rattle.conode_compare_report.specs.Abouts.{about_view};
ghost use Rattle.conode_json.specs.Appended.{Appended};
ghost use Rattle.conode_compare_documents.specs.JsonDocument.{
  document_begin,
  end_of,
  ended_members,
  json_document,
  kinds_member,
};

use crate::json_coverage::put_coverage;
use crate::json_findings::put_findings;
use crate::member::Member;
use crate::parts::{Document, Part};
use conode_compare_report::{About, Counted, Coverage, Outcome, Report};
use conode_compare_text::Tally;
use std::alloc::{AllocError, Global};

/// The version of the document's form.
const VERSION: u64 = 1;

// what was compared, and how
fn begin_document(document: &mut Document, about: &About<'_, '_>, coverage: &Coverage)
    ensures { Appended document.old
        (document_begin (about_view about.now) coverage.now.identity) document.new }
{
    let shown = coverage.identity;
    document.put(&[Part::BeginObject, Part::Number(Member::Version, VERSION)]);
    document.put_text(Member::Program, about.version);
    document.put_text(Member::Sheet, about.sheet);
    document.put_text(Member::Recording, about.recording);
    document.put(&[
        Part::Object(Member::Device),
        Part::Number(Member::Node, about.node as u64),
        Part::NumberIf(Member::Vendor, about.vendor),
        Part::NumberIf(Member::Product, about.product),
        Part::NumberIf(Member::Revision, about.revision),
    ]);
    document.put_bytes(Member::VendorName, about.names.vendor);
    document.put_bytes(Member::ProductName, about.names.product);
    document.put(&[
        Part::NumberIf(Member::RecordedRevision, shown.revision),
        Part::NumberIf(Member::RecordedSerial, shown.serial),
        Part::EndObject,
        Part::Object(Member::Limits),
        Part::Number(Member::Tolerance, about.limits.tolerance as u64),
        Part::Number(Member::Drift, about.limits.drift as u64),
        Part::Number(Member::Answer, about.limits.answer as u64),
        Part::Number(Member::Boot, about.limits.boot as u64),
        Part::EndObject,
    ]);
}

// the stamp of the newest frame, if there is one
fn end_of(report: &Report) -> Option<u64>
    ensures { result ≡ end_of report.now }
{
    let _begin = report.begin?;
    Some(report.end)
}

// how it ended, with this verdict, the newest frame at this stamp
fn put_ended(
    document: &mut Document,
    verdict: &'static str,
    tally: Tally,
    report: &Report,
    end: Option<u64>,
)
    ensures { Appended document.old
        (ended_members verdict.now tally report.now end) document.new }
{
    document.put(&[
        Part::Text(Member::Verdict, verdict),
        Part::Object(Member::Frames),
        Part::Number(Member::Prescribed, tally.prescribed),
        Part::Number(Member::Different, tally.different),
        Part::Number(Member::Unjudged, tally.unjudged),
        Part::EndObject,
        Part::Object(Member::UnjudgedFrames),
        Part::Number(Member::Heartbeats, tally.services.heartbeats),
        Part::Number(Member::Emergencies, tally.services.emergencies),
        Part::Number(Member::Answers, tally.services.answers),
        Part::Number(Member::Tpdos, tally.services.tpdos),
        Part::EndObject,
        Part::Number(Member::Lines, report.lines),
        Part::Number(Member::BadLines, report.bad_lines),
        Part::NumberIf(Member::Begin, report.begin),
        Part::NumberIf(Member::End, end),
        Part::Number(Member::Unlisted, report.unlisted),
    ]);
}

fn put_kinds(document: &mut Document, kinds: &[Counted])
    ensures { Appended document.old (kinds_member kinds.now) document.new }
{
    document.put(&[Part::Array(Member::Kinds)]);
    for counted in kinds {
        document.put(&[
            Part::BeginObject,
            Part::Text(Member::Name, counted.kind.name()),
            Part::Text(Member::Rule, counted.kind.rule()),
            Part::Number(Member::Found, counted.found),
            Part::Number(Member::Occasions, counted.occasions),
            Part::EndObject,
        ]);
    }
    document.put(&[Part::EndArray]);
}

/// The comparison as one document of JSON, with a line feed at its end. `Err`: out of memory.
pub fn json_document(
    alloc: Global,
    about: &About<'_, '_>,
    report: &Report,
) -> Result<Vec<u8>, AllocError>
    ensures { IfOk result (λ text. text.items ≡ json_document (about_view about.now) report.now) }
{
    let mut document = Document::new(alloc);
    begin_document(&mut document, about, &report.coverage);
    let verdict = Outcome::of(about).name();
    put_ended(&mut document, verdict, about.tally, report, end_of(report));
    put_findings(alloc, &mut document, report, report.noted.as_slice());
    put_kinds(&mut document, report.kinds.as_slice());
    put_coverage(&mut document, about.rows, &report.coverage);
    document.put(&[Part::EndObject]);
    document.into_text()
}
