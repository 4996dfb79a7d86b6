//! The differences that are listed, in JSON.

ghost use Rattle.conode_compare_text.specs.FindingTexts.{finding_text};
ghost use Rattle.conode_json.specs.Appended.{Appended};
ghost use Rattle.conode_compare_documents.specs.NotedTokens.{
  context_member,
  context_tokens,
  findings_member,
  noted_tokens,
  said_tokens,
};

use crate::member::Member;
use crate::parts::{Document, Part};
use crate::words::finding_words;
use conode_compare_report::{ContextLine, Kind, Noted, Report};
use std::alloc::Global;

fn put_context_line(document: &mut Document, line: &ContextLine)
    ensures { Appended document.old (context_tokens line.now) document.new }
{
    document.put(&[Part::BeginObject, Part::Number(Member::Line, line.number)]);
    document.put_bytes(Member::Text, Some(line.bytes.as_slice()));
    document.put(&[Part::EndObject]);
}

// the lines around a difference
fn put_context(document: &mut Document, lines: &[ContextLine])
    ensures { Appended document.old (context_member lines.now) document.new }
{
    document.put(&[Part::Array(Member::Context)]);
    for line in lines {
        put_context_line(document, line);
    }
    document.put(&[Part::EndArray]);
}

// what was found: its kind, and what CiA 301 prescribes
fn put_found(alloc: Global, document: &mut Document, noted: &Noted)
    ensures { Appended document.old (said_tokens noted.now
        (finding_text noted.now.details noted.now.finding)) document.new }
{
    let kind = Kind::of(noted.finding);
    match finding_words(alloc, noted) {
        Ok(text) => {
            document.put(&[
                Part::BeginObject,
                Part::Number(Member::Line, noted.line),
                Part::Number(Member::Stamp, noted.micros),
                Part::Text(Member::Kind, kind.name()),
            ]);
            document.put_text(Member::Text, text.as_str());
            document.put(&[Part::Text(Member::Rule, kind.rule())]);
        }
        Err(_) => document.fail(),
    }
}

fn put_noted(alloc: Global, document: &mut Document, report: &Report, noted: &Noted)
    ensures { Appended document.old (noted_tokens report.now.context noted.now) document.new }
{
    put_found(alloc, document, noted);
    put_context(document, report.around(noted));
    document.put(&[Part::EndObject]);
}

/// Writes the member with the differences.
pub(crate) fn put_findings(
    alloc: Global,
    document: &mut Document,
    report: &Report,
    listed: &[Noted],
)
    ensures { Appended document.old
        (findings_member report.now.context listed.now) document.new }
{
    document.put(&[Part::Array(Member::Findings)]);
    for noted in listed {
        put_noted(alloc, document, report, noted);
    }
    document.put(&[Part::EndArray]);
}
