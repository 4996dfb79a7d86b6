//! What is written about many files, in one of three forms.

ghost use Rattle.std.specs.Prelude.{◌≡◌, ◌++◌, [], IfOk, OnOk, Some, string_bytes};
ghost use Rattle.std.specs.List.{flat_map};
ghost use Rattle.conode_text.specs.Appended.{Appended};
ghost use Rattle.conode_json.specs.Characters.{characters_of};
ghost use Rattle.conode_lint_text.specs.JsonForm.{document_end};
ghost use Rattle.conode_lint_text.specs.SarifForm.{log_end, result_tokens};
ghost use Rattle.conode_lint_text.specs.TextForm.{finding_lines, summary_line};
ghost use Rattle.conode_lint.specs.Reports.{
  Begins,
  BeginsLog,
  Grows,
  IsEmptyReport,
  ended_by,
  file_lines,
  found_lines,
  found_tokens,
  last_bytes,
  lines_from,
  scheme_of,
  unread_tokens,
  uri_of,
  with_found,
};

use crate::linted_text::Linted;
use crate::rules::add_rules;
use conode_json::{Document, characters_of};
use conode_lint_text::{
    Finding, push_finding, push_more, push_summary, put_document_end, put_document_head, put_file,
    put_log_end, put_log_head, put_results,
};
use percent_encoding::{AsciiSet, NON_ALPHANUMERIC, ascii_set, percent_encode};
use std::alloc::{AllocError, Global};

/// What is escaped in a URI: all but letters, digits and these five.
const ESCAPED: AsciiSet = ascii_set!(
    NON_ALPHANUMERIC
        .remove(b'-')
        .remove(b'.')
        .remove(b'_')
        .remove(b'~')
        .remove(b'/')
);

/// The form in which findings are written.
#[derive(Clone, Copy)]
pub enum Form {
    /// As compilers print, perhaps in colours.
    Text { colours: bool },
    /// As one document of JSON.
    Json,
    /// As a log of SARIF 2.1.0.
    Sarif,
}

/// How much was found.
#[derive(Clone, Copy)]
pub struct Counts {
    /// The number of errors in all files.
    pub errors: usize,
    /// The number of warnings in all files.
    pub warnings: usize,
    /// How many of them aren't listed.
    pub more: usize,
    /// How many files were read.
    pub files: usize,
    /// How many files and folders couldn't be read.
    pub unread: usize,
}

impl Counts {
    /// Nothing yet.
    pub const NONE: Counts = Counts {
        errors: 0,
        warnings: 0,
        more: 0,
        files: 0,
        unread: 0,
    };

    pub(crate) fn add(&mut self, linted: &Linted<'_>)
        ensures { self.new ≡ with_found self.old linted.now }
    {
        self.errors = self.errors.saturating_add(linted.errors);
        self.warnings = self.warnings.saturating_add(linted.warnings);
        self.more = self.more.saturating_add(linted.more);
        self.files = self.files.saturating_add(1);
    }
}

fn scheme_of(path: &str) -> &'static str
    ensures { result.now ≡ scheme_of path.now }
{
    match path.as_bytes() {
        [b'/', ..] => "file://",
        _ => "",
    }
}

// the URI of a path: a reference for a relative one
#[tactic(auto, unfolding(crate::specs::Reports::uri_of))]
fn push_uri(uri: &mut String, path: &str) -> Result<(), AllocError>
    ensures { OnOk result (string_bytes uri.new ≡ string_bytes uri.old ++ uri_of path.now) }
{
    attempt!(uri.push_str(scheme_of(path)));
    percent_encode(path.as_bytes(), ESCAPED).append_to(uri)
}

// appends the lines of findings in a file of this name, in characters
fn push_findings(
    alloc: Global,
    text: &mut String,
    colours: bool,
    file: &[char],
    findings: &[Finding<'_>],
) -> Result<(), AllocError>
    ensures { OnOk result (string_bytes text.new
        ≡ string_bytes text.old ++ flat_map (finding_lines colours file.now) findings.now) }
{
    for finding in findings {
        attempt!(push_finding(alloc, text, colours, file, finding));
    }
    Ok(())
}

// appends the same, and the line that counts the findings that aren't listed, if there are any
fn push_all(
    alloc: Global,
    text: &mut String,
    colours: bool,
    file: &[char],
    linted: &Linted<'_>,
) -> Result<(), AllocError>
    ensures { OnOk result (string_bytes text.new
        ≡ string_bytes text.old ++ lines_from colours file.now linted.now) }
{
    attempt!(push_findings(alloc, text, colours, file, linted.findings.as_slice()));
    if linted.more > 0 {
        return push_more(text, file, linted.more);
    }
    Ok(())
}

// appends the lines of a file's findings
fn push_file(
    alloc: Global,
    text: &mut String,
    colours: bool,
    name: &str,
    linted: &Linted<'_>,
) -> Result<(), AllocError>
    ensures { OnOk result (string_bytes text.new
        ≡ string_bytes text.old ++ file_lines colours name.now linted.now) }
{
    match characters_of(alloc, name.as_bytes()) {
        Ok(file) => push_all(alloc, text, colours, file.as_slice(), linted),
        Err(fault) => Err(fault),
    }
}

// writes the results of a file's findings; memory may run out for its URI
fn put_uri_results(alloc: Global, document: &mut Document, name: &str, findings: &[Finding<'_>])
    ensures { Appended document.old
        (flat_map (result_tokens (uri_of name.now)) findings.now) document.new }
{
    let mut uri = String::new(alloc);
    match push_uri(&mut uri, name) {
        Ok(()) => put_results(document, uri.as_str(), findings),
        Err(_) => document.fail(),
    }
}

// begins a log of SARIF: the tool with all kinds of findings
fn begin_log(alloc: Global, document: &mut Document, version: &str)
    ensures { BeginsLog version.now document.old document.new }
{
    let mut rules = Vec::new(alloc);
    match add_rules(&mut rules) {
        Ok(()) => put_log_head(document, version, rules.as_slice()),
        Err(_) => document.fail(),
    }
}

/// The report so far: the lines that weren't handed over yet, or the document of JSON or SARIF,
/// which remembers until `into_bytes` that memory ran out.
#[derive(Drop)]
pub(crate) struct Report {
    form: Form,
    text: String,
    document: Document,
}

impl Report {
    /// A report that isn't begun.
    pub(crate) fn new(alloc: Global, form: Form) -> Report
        ensures { IsEmptyReport form result }
    {
        Report {
            form,
            text: String::new(alloc),
            document: Document::new(alloc),
        }
    }

    /// Begins the report: no file yet.
    pub(crate) fn begin(&mut self, alloc: Global, version: &str)
        ensures { Begins version.now self.old self.new }
    {
        match self.form {
            Form::Text { .. } => {}
            Form::Json => put_document_head(&mut self.document),
            Form::Sarif => begin_log(alloc, &mut self.document, version),
        }
    }

    /// Adds what was found in a file. `Err`: out of memory, here as for the other calls.
    pub(crate) fn add(
        &mut self,
        alloc: Global,
        name: &str,
        linted: &Linted<'_>,
    ) -> Result<(), AllocError>
        ensures { OnOk result (Grows (found_lines self.old.form name.now linted.now)
            (found_tokens self.old.form name.now linted.now) self.old self.new) }
    {
        let findings = linted.findings.as_slice();
        match self.form {
            Form::Text { colours } => {
                return push_file(alloc, &mut self.text, colours, name, linted);
            }
            Form::Json => {
                let counts = (linted.errors, linted.warnings, linted.more);
                put_file(&mut self.document, name, true, counts, findings);
            }
            Form::Sarif => put_uri_results(alloc, &mut self.document, name, findings),
        }
        Ok(())
    }

    /// Adds a file or a folder that can't be read.
    pub(crate) fn add_unread(&mut self, name: &str)
        ensures { Grows [] (unread_tokens self.old.form name.now) self.old self.new }
    {
        match self.form {
            Form::Json => put_file(&mut self.document, name, false, (0, 0, 0), &[]),
            Form::Text { .. } | Form::Sarif => {}
        }
    }

    /// The lines that can be handed over now; none before the end in JSON and SARIF.
    pub(crate) fn lines(&self) -> &str
        ensures { result.now ≡ string_bytes self.now.text }
    {
        self.text.as_str()
    }

    /// Drops the lines that were handed over.
    pub(crate) fn drop_lines(&mut self)
        ensures form { self.new.form ≡ self.old.form }
        ensures text { string_bytes self.new.text ≡ [] }
        ensures document { self.new.document ≡ self.old.document }
    {
        self.text.clear();
    }

    /// The last bytes to hand over: the report's end, after the lines that weren't handed over.
    pub(crate) fn into_bytes(self, counts: &Counts) -> Result<Vec<u8>, AllocError>
        ensures { IfOk result (λ bytes.
            Some bytes.items
            ≡ last_bytes self.form (string_bytes self.text) self.document counts.now) }
    {
        let Report {
            form,
            text,
            document,
        } = self;
        match form {
            Form::Text { .. } => ended_lines(text, counts),
            Form::Json => ended_document(document, counts),
            Form::Sarif => ended_log(document, counts),
        }
    }
}

// the lines, and after them the one that counts
fn ended_lines(text: String, counts: &Counts) -> Result<Vec<u8>, AllocError>
    ensures { IfOk result (λ bytes. bytes.items ≡ string_bytes text
        ++ summary_line counts.now.errors counts.now.warnings counts.now.files) }
{
    let mut text = text;
    match push_summary(&mut text, counts.errors, counts.warnings, counts.files) {
        Ok(()) => Ok(text.into_bytes()),
        Err(fault) => Err(fault),
    }
}

// the document with its end
fn ended_document(document: Document, counts: &Counts) -> Result<Vec<u8>, AllocError>
    ensures { IfOk result (λ bytes. Some bytes.items
        ≡ ended_by (document_end counts.now.errors counts.now.warnings) document) }
{
    let mut document = document;
    put_document_end(&mut document, counts.errors, counts.warnings);
    document.into_text()
}

// the log with its end
fn ended_log(document: Document, counts: &Counts) -> Result<Vec<u8>, AllocError>
    ensures { IfOk result (λ bytes.
        Some bytes.items ≡ ended_by (log_end counts.now.more) document) }
{
    let mut document = document;
    put_log_end(&mut document, counts.more);
    document.into_text()
}
