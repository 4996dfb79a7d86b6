//! The document of JUnit.

ghost use Rattle.std.specs.Prelude.{◌≡◌, count_by, IfOk, string_bytes};
ghost use Rattle.std.specs.List.{flat_map};
ghost use Rattle.conode_compare_report.specs.Abouts.{about_view};
ghost use Rattle.conode_json.specs.Appended.{Appended};
ghost use Rattle.conode_compare_documents.specs.JunitCases.{case_markup};
ghost use Rattle.conode_compare_documents.specs.JunitDocument.{
  error_count,
  is_failed,
  is_skipped,
  junit_document,
  numbers_of,
  span_of,
  suite_begin,
};

use crate::junit_cases::{push_case, push_outcome};
use conode_compare_report::{About, Counted, Noted, Outcome, Report};
use conode_json::{Markup, Value};
use std::alloc::{AllocError, Global};

/// The document up to the name of its test cases.
const OPENING: &str = "<?xml version=\"1.0\" encoding=\"UTF-8\"?>\n\
    <testsuites>\n\
    <testsuite name=\"";

/// How many test cases there are, and how many of them are failed, have an error, or are skipped.
#[derive(Clone, Copy)]
struct Numbers {
    tests: u64,
    failures: u64,
    errors: u64,
    skipped: u64,
}

fn is_failed(counted: &Counted) -> bool
    ensures { result ≡ is_failed counted.now }
{
    counted.found > 0
}

fn is_skipped(counted: &Counted) -> bool
    ensures { result ≡ is_skipped counted.now }
{
    counted.found == 0 && counted.occasions == 0
}

// how many test cases are failed, and how many are skipped
fn counts_of(kinds: &[Counted]) -> (usize, usize)
    ensures failed { result.0 ≡ count_by is_failed kinds.now }
    ensures skipped { result.1 ≡ count_by is_skipped kinds.now }
{
    let mut failed = 0;
    let mut skipped = 0;
    for counted in kinds {
        if is_failed(counted) {
            failed += 1;
        }
        if is_skipped(counted) {
            skipped += 1;
        }
    }
    (failed, skipped)
}

// how many test cases have an error: one if nothing could be compared
fn error_count(outcome: Outcome) -> usize
    ensures { result ≡ error_count outcome }
{
    match outcome {
        Outcome::NoDifference | Outcome::Differences => 0,
        Outcome::NoFrame | Outcome::SeveralInterfaces => 1,
    }
}

// the microseconds from the first frame to the newest
fn span_of(report: &Report) -> u64
    ensures { result ≡ span_of report.now }
{
    match report.begin {
        Some(begin) => report.end.saturating_sub(begin),
        None => 0,
    }
}

// how many test cases there are, and how they ended
fn numbers_of(about: &About<'_, '_>, report: &Report) -> Numbers
    ensures { result ≡ numbers_of (about_view about.now) report.now }
{
    let errors = error_count(Outcome::of(about));
    let (failed, skipped) = counts_of(report.kinds.as_slice());
    Numbers {
        tests: (report.kinds.len() + errors) as u64,
        failures: failed as u64,
        errors: errors as u64,
        skipped: skipped as u64,
    }
}

// up to the test cases: their numbers, and what was compared
fn begin_suite(suite: &mut Markup, about: &About<'_, '_>, numbers: Numbers, micros: u64)
    ensures { Appended suite.old (suite_begin (about_view about.now) numbers micros) suite.new }
{
    suite.put(
        "%%\" tests=\"%\" failures=\"%\" errors=\"%\" skipped=\"%\" time=\"%\">\n<properties>\n\
        <property name=\"version\" value=\"%\"/>\n<property name=\"sheet\" value=\"%\"/>\n\
        <property name=\"recording\" value=\"%\"/>\n<property name=\"node\" value=\"%\"/>\n\
        </properties>\n",
        &[
            Value::Words(OPENING),
            Value::Name(about.recording),
            Value::Number(numbers.tests),
            Value::Number(numbers.failures),
            Value::Number(numbers.errors),
            Value::Number(numbers.skipped),
            Value::Seconds(micros),
            Value::Name(about.version),
            Value::Name(about.sheet),
            Value::Name(about.recording),
            Value::Number(about.node as u64),
        ],
    );
}

fn push_cases(
    alloc: Global,
    suite: &mut Markup,
    recording: &str,
    kinds: &[Counted],
    noted: &[Noted],
)
    ensures { Appended suite.old (flat_map
        (case_markup recording.now noted.now) kinds.now) suite.new }
{
    for counted in kinds {
        push_case(alloc, suite, recording, *counted, noted);
    }
}

/// The comparison as a document of JUnit: a test case a kind of difference, with the recording's
/// span in seconds as its time. `Err`: out of memory.
pub fn junit_document(
    alloc: Global,
    about: &About<'_, '_>,
    report: &Report,
) -> Result<String, AllocError>
    ensures { IfOk result
        (λ text. string_bytes text ≡ junit_document (about_view about.now) report.now) }
{
    let mut suite = Markup::new(alloc);
    let numbers = numbers_of(about, report);
    begin_suite(&mut suite, about, numbers, span_of(report));
    push_cases(
        alloc,
        &mut suite,
        about.recording,
        report.kinds.as_slice(),
        report.noted.as_slice(),
    );
    push_outcome(&mut suite, about);
    suite.put_words("</testsuite>\n</testsuites>\n");
    suite.into_text()
}
