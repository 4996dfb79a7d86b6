//! Findings as one document of JSON.

ghost use Rattle.std.specs.Prelude.{◌≡◌, ◌++◌, [], ◌∷◌, List, OnOk};
ghost use Rattle.json.specs.Token.{Token, end_array, end_object};
ghost use Rattle.conode_text.specs.Appended.{Appended};
ghost use Rattle.conode_lint_text.specs.JsonForm.{
  document_end,
  document_head,
  file_tokens,
  finding_tokens,
};

use crate::finding::Finding;
use crate::member::Member;
use crate::parts::Part;
use crate::words::fix_of;
use conode_json::{Document, HasTokens, JsonWriter, put_parts};
use std::alloc::{AllocError, Global};

// writes a finding; `Err`: out of memory, and some tokens may be there
fn put_finding<'p>(
    alloc: Global,
    writer: &mut JsonWriter,
    finding: &'p Finding<'p>,
) -> Result<(), AllocError>
    ensures { OnOk result (writer.new ≡ writer.old ++ finding_tokens finding.now) }
{
    put_parts(
        alloc,
        writer,
        &[
            Part::BeginObject,
            Part::Number(Member::Line, finding.line),
            Part::Column(Member::Column, finding),
            Part::Severity(Member::Severity, finding.severity),
            Part::Text(Member::Name, finding.name),
            Part::Message(Member::Meaning, finding),
            Part::Line(Member::Text, finding.text),
            Part::Text(Member::Fix, fix_of(finding)),
            Part::Text(Member::Subject, finding.subject),
            Part::EndObject,
        ],
    )
}

impl HasTokens for Finding<'_> {
    ghost tokens_of = { finding_tokens };

    fn put(&self, alloc: Global, writer: &mut JsonWriter) -> Result<(), AllocError> {
        put_finding(alloc, writer, self)
    }
}

fn end_file(document: &mut Document)
    ensures { Appended document.old (end_array ∷ end_object ∷ []) document.new }
{
    document.put(&[Part::EndArray, Part::EndObject]);
}

/// Writes a file: its name, whether it could be read, `counts` of its errors, its warnings and the
/// findings left out, and its findings.
pub fn put_file(
    document: &mut Document,
    name: &str,
    is_read: bool,
    counts: (usize, usize, usize),
    findings: &[Finding<'_>],
)
    ensures { Appended document.old
        (file_tokens name.now is_read counts.0 counts.1 counts.2 findings.now) document.new }
{
    let (errors, warnings, more) = counts;
    document.put(&[
        Part::BeginObject,
        Part::Text(Member::File, name),
        Part::Flag(Member::Read, is_read),
        Part::Number(Member::Errors, errors),
        Part::Number(Member::Warnings, warnings),
        Part::Number(Member::More, more),
        Part::Array(Member::Findings),
    ]);
    document.put(findings);
    end_file(document);
}

/// Writes what comes before the files.
pub fn put_document_head(document: &mut Document)
    ensures { Appended document.old document_head document.new }
{
    document.put(&[
        Part::BeginObject,
        Part::Number(Member::Version, 1),
        Part::Array(Member::Files),
    ]);
}

/// Writes what comes after the files: the numbers of errors and warnings in all.
pub fn put_document_end(document: &mut Document, errors: usize, warnings: usize)
    ensures { Appended document.old (document_end errors warnings) document.new }
{
    document.put(&[
        Part::EndArray,
        Part::Number(Member::Errors, errors),
        Part::Number(Member::Warnings, warnings),
        Part::EndObject,
    ]);
}
