//! Findings as a log of SARIF 2.1.0.

ghost use Rattle.std.specs.Prelude.{◌≡◌, ◌++◌, if◌then◌else◌, [], ◌∷◌, List, OnOk};
ghost use Rattle.std.specs.List.{flat_map};
ghost use Rattle.json.specs.Token.{Token, end_array, end_object};
ghost use Rattle.conode_text.specs.Appended.{Appended};
ghost use Rattle.conode_lint_text.specs.SarifForm.{
  context_members,
  left_out,
  line_members,
  log_end,
  log_head,
  region_end,
  region_members,
  result_end,
  result_tokens,
  rule_tokens,
};

use crate::column::own_column;
use crate::finding::{Finding, Rule};
use crate::member::Member;
use crate::parts::Part;
use crate::words::fix_of;
use conode_json::{Document, HasTokens, JsonWriter, put_parts};
use std::alloc::{AllocError, Global};

/// The JSON schema of SARIF 2.1.0.
const SCHEMA: &str = "https://json.schemastore.org/sarif-2.1.0.json";

// writes a rule; `Err`: out of memory, and some tokens may be there
fn put_rule<'p>(
    alloc: Global,
    writer: &mut JsonWriter,
    rule: &'p Rule<'p>,
) -> Result<(), AllocError>
    ensures { OnOk result (writer.new ≡ writer.old ++ rule_tokens rule.now) }
{
    put_parts(
        alloc,
        writer,
        &[
            Part::BeginObject,
            Part::Text(Member::Id, rule.name),
            Part::Object(Member::ShortDescription),
            Part::Text(Member::Text, rule.meaning),
            Part::EndObject,
            Part::Object(Member::Help),
            Part::Help(Member::Text, rule),
            Part::EndObject,
            Part::Object(Member::DefaultConfiguration),
            Part::Severity(Member::Level, rule.severity),
            Part::EndObject,
            Part::EndObject,
        ],
    )
}

impl HasTokens for Rule<'_> {
    ghost tokens_of = { rule_tokens };

    fn put(&self, alloc: Global, writer: &mut JsonWriter) -> Result<(), AllocError> {
        put_rule(alloc, writer, self)
    }
}

// writes the line as the snippet of the region, or of a region of its own around it
fn put_snippet<'p>(
    alloc: Global,
    writer: &mut JsonWriter,
    is_whole: bool,
    finding: &'p Finding<'p>,
) -> Result<(), AllocError>
    ensures { OnOk result (writer.new ≡ writer.old
        ++ (if is_whole then region_end finding.now else context_members finding.now)) }
{
    if is_whole {
        return put_parts(
            alloc,
            writer,
            &[
                Part::Object(Member::Snippet),
                Part::Line(Member::Text, finding.text),
                Part::EndObject,
                Part::EndObject,
            ],
        );
    }
    put_parts(
        alloc,
        writer,
        &[
            Part::EndObject,
            Part::Object(Member::ContextRegion),
            Part::Number(Member::StartLine, finding.line),
            Part::Object(Member::Snippet),
            Part::Line(Member::Text, finding.text),
            Part::EndObject,
            Part::EndObject,
        ],
    )
}

// what follows the column in a region
#[tactic(auto, unfolding(crate::specs::SarifForm::line_members))]
fn put_line<'p>(
    alloc: Global,
    writer: &mut JsonWriter,
    finding: &'p Finding<'p>,
) -> Result<(), AllocError>
    ensures { OnOk result (writer.new ≡ writer.old ++ line_members finding.now) }
{
    match own_column(alloc, finding) {
        Ok(column) => put_snippet(alloc, writer, column == 1, finding),
        Err(fault) => Err(fault),
    }
}

/// The line of a finding, as it follows the column.
#[derive(Clone, Copy)]
struct FindingLine<'p> {
    finding: &'p Finding<'p>,
}

impl HasTokens for FindingLine<'_> {
    ghost tokens_of = { λ line. line_members line.finding.now };

    fn put(&self, alloc: Global, writer: &mut JsonWriter) -> Result<(), AllocError> {
        put_line(alloc, writer, self.finding)
    }
}

// the region, and the whole line, if a line is to blame
fn put_region<'p>(document: &mut Document, finding: &'p Finding<'p>)
    ensures { Appended document.old (region_members finding.now) document.new }
{
    if finding.line == 0 {
        return;
    }
    document.put(&[
        Part::Object(Member::Region),
        Part::Number(Member::StartLine, finding.line),
        Part::Column(Member::StartColumn, finding),
    ]);
    document.put(&[FindingLine { finding }]);
}

// the end of where it is, and how to fix it
fn end_result<'p>(document: &mut Document, finding: &'p Finding<'p>)
    ensures { Appended document.old
        (end_object ∷ end_object ∷ end_array ∷ result_end finding.now) document.new }
{
    document.put(&[
        Part::EndObject,
        Part::EndObject,
        Part::EndArray,
        Part::Object(Member::Properties),
        Part::Text(Member::Fix, fix_of(finding)),
        Part::EndObject,
        Part::EndObject,
    ]);
}

fn put_result<'p>(document: &mut Document, uri: &'p str, finding: &'p Finding<'p>)
    ensures { Appended document.old (result_tokens uri.now finding.now) document.new }
{
    document.put(&[
        Part::BeginObject,
        Part::Text(Member::RuleId, finding.name),
        Part::Severity(Member::Level, finding.severity),
        Part::Object(Member::Message),
        Part::Message(Member::Text, finding),
        Part::EndObject,
        Part::Array(Member::Locations),
        Part::BeginObject,
        Part::Object(Member::PhysicalLocation),
        Part::Object(Member::ArtifactLocation),
        Part::Text(Member::Uri, uri),
        Part::EndObject,
    ]);
    put_region(document, finding);
    end_result(document, finding);
}

/// Writes the results of a file, which has this URI.
pub fn put_results(document: &mut Document, uri: &str, findings: &[Finding<'_>])
    ensures { Appended document.old
        (flat_map (result_tokens uri.now) findings.now) document.new }
{
    for finding in findings {
        put_result(document, uri, finding);
    }
}

/// Writes what comes before the results: the schema and the version of SARIF, and the tool with its
/// rules.
pub fn put_log_head(document: &mut Document, version: &str, rules: &[Rule<'_>])
    ensures { Appended document.old (log_head version.now rules.now) document.new }
{
    document.put(&[
        Part::BeginObject,
        Part::Text(Member::Schema, SCHEMA),
        Part::Text(Member::Version, "2.1.0"),
        Part::Array(Member::Runs),
        Part::BeginObject,
        Part::Object(Member::Tool),
        Part::Object(Member::Driver),
        Part::Text(Member::Name, "conode"),
        Part::Text(Member::Version, version),
        Part::Array(Member::Rules),
    ]);
    document.put(rules);
    document.put(&[
        Part::EndArray,
        Part::EndObject,
        Part::EndObject,
        Part::Text(Member::ColumnKind, "unicodeCodePoints"),
        Part::Array(Member::Results),
    ]);
}

// writes how many findings aren't among the results, if any
fn put_left_out(document: &mut Document, more: usize)
    ensures { Appended document.old (left_out more) document.new }
{
    if more == 0 {
        return;
    }
    document.put(&[
        Part::Array(Member::Invocations),
        Part::BeginObject,
        Part::Flag(Member::ExecutionSuccessful, true),
        Part::Array(Member::ToolExecutionNotifications),
        Part::BeginObject,
        Part::Text(Member::Level, "note"),
        Part::Object(Member::Message),
        Part::LeftOut(Member::Text, more),
        Part::EndObject,
        Part::EndObject,
        Part::EndArray,
        Part::EndObject,
        Part::EndArray,
    ]);
}

/// Writes what comes after the results: how many findings aren't among them, if any.
pub fn put_log_end(document: &mut Document, more: usize)
    ensures { Appended document.old (log_end more) document.new }
{
    document.put(&[Part::EndArray]);
    put_left_out(document, more);
    document.put(&[Part::EndObject, Part::EndArray, Part::EndObject]);
}
