//! The test cases of JUnit.

ghost use Rattle.std.specs.Prelude.{◌≡◌, filter, length, min, take, IfOk, string_bytes};
ghost use Rattle.std.specs.List.{flat_map};
ghost use Rattle.conode_compare_text.specs.FindingTexts.{finding_line};
ghost use Rattle.conode_compare_report.specs.Abouts.{about_view};
ghost use Rattle.conode_compare_report.specs.Outcomes.{outcome_of};
ghost use Rattle.conode_json.specs.Appended.{Appended};
ghost use Rattle.conode_compare_documents.specs.JunitCases.{
  case_markup,
  failed_markup,
  has_line,
  is_of_kind,
  line_markup,
  more_markup,
  outcome_case,
  own_count,
  own_line,
};

use conode_compare_report::{About, Counted, Kind, Noted, Outcome};
use conode_compare_text::set_finding_line;
use conode_json::{Markup, Value};
use std::alloc::{AllocError, Global};

/// How many differences of a kind have a line.
const MOST_LINES: usize = 100;

/// The end of a test case that was skipped.
const SKIPPED: &str = "\"><skipped message=\"no occasion in this recording\"/></testcase>\n";

fn is_of_kind(kind: Kind, noted: &Noted) -> bool
    ensures { result ≡ is_of_kind kind noted.now }
{
    Kind::of(noted.finding).number() == kind.number()
}

// whether a difference is of this kind, and fewer than a hundred have a line
fn has_line(kind: Kind, count: usize, noted: &Noted) -> bool
    ensures { result ≡ has_line kind count noted.now }
{
    count < MOST_LINES && is_of_kind(kind, noted)
}

// the line of a difference, as the text has it. `Err`: out of memory
fn finding_line(alloc: Global, recording: &str, noted: &Noted) -> Result<String, AllocError>
    ensures { IfOk result (λ line. string_bytes line ≡ finding_line
        recording.now noted.now.line noted.now.details noted.now.finding) }
{
    let mut line = String::new(alloc);
    set_finding_line(
        &mut line,
        recording,
        noted.line,
        noted.details,
        noted.finding,
    )?;
    Ok(line)
}

fn push_line(alloc: Global, suite: &mut Markup, recording: &str, noted: &Noted)
    ensures { Appended suite.old (line_markup recording.now noted.now) suite.new }
{
    match finding_line(alloc, recording, noted) {
        Ok(line) => suite.put("%", &[Value::Name(line.as_str())]),
        Err(_) => suite.fail(),
    }
}

// the line of a difference of this kind; how many have one then
fn push_own_line(
    alloc: Global,
    suite: &mut Markup,
    recording: &str,
    kind: Kind,
    count: usize,
    noted: &Noted,
) -> usize
    ensures line { Appended suite.old (own_line recording.now kind count noted.now) suite.new }
    ensures count { result ≡ own_count kind count noted.now }
{
    if !has_line(kind, count, noted) {
        return count;
    }
    push_line(alloc, suite, recording, noted);
    count + 1
}

// the lines of the first differences of this kind; how many they are
fn push_own_lines(
    alloc: Global,
    suite: &mut Markup,
    recording: &str,
    kind: Kind,
    noted: &[Noted],
) -> usize
    ensures lines { Appended suite.old (flat_map (line_markup recording.now)
        (take 100 (filter (is_of_kind kind) noted.now))) suite.new }
    ensures count { result ≡ min (length (filter (is_of_kind kind) noted.now)) 100 }
{
    let mut count = 0;
    for one in noted {
        count = push_own_line(alloc, suite, recording, kind, count, one);
    }
    count
}

// how many differences have no line
fn push_more(suite: &mut Markup, count: u64)
    ensures { Appended suite.old (more_markup count) suite.new }
{
    if count == 0 {
        return;
    }
    suite.put("and % more\n", &[Value::Number(count)]);
}

// a test case that failed
fn push_failed(
    alloc: Global,
    suite: &mut Markup,
    recording: &str,
    counted: Counted,
    noted: &[Noted],
)
    ensures { Appended suite.old (failed_markup recording.now counted noted.now) suite.new }
{
    let kind = counted.kind.name();
    suite.put(
        "<testcase classname=\"conode.compare\" name=\"%\"><failure type=\"%\" message=\"%%%\">",
        &[
            Value::Words(kind),
            Value::Words(kind),
            Value::Number(counted.found),
            Value::Either(counted.found == 1, " difference: ", " differences: "),
            Value::Name(counted.kind.rule()),
        ],
    );
    let count = push_own_lines(alloc, suite, recording, counted.kind, noted);
    push_more(suite, counted.found.saturating_sub(count as u64));
    suite.put_words("</failure></testcase>\n");
}

/// The test case of a kind: failed with its differences, skipped if there was no occasion for one.
pub(crate) fn push_case(
    alloc: Global,
    suite: &mut Markup,
    recording: &str,
    counted: Counted,
    noted: &[Noted],
)
    ensures { Appended suite.old (case_markup recording.now noted.now counted) suite.new }
{
    if counted.found > 0 {
        return push_failed(alloc, suite, recording, counted, noted);
    }
    suite.put(
        "<testcase classname=\"conode.compare\" name=\"%%",
        &[
            Value::Words(counted.kind.name()),
            Value::Either(counted.occasions == 0, SKIPPED, "\"/>\n"),
        ],
    );
}

/// The test case of a comparison that couldn't be made; nothing if it was.
pub(crate) fn push_outcome(suite: &mut Markup, about: &About<'_, '_>)
    ensures { Appended suite.old
        (outcome_case about.now.node (outcome_of (about_view about.now))) suite.new }
{
    match Outcome::of(about) {
        Outcome::NoDifference => {}
        Outcome::Differences => {}
        Outcome::NoFrame => suite.put(
            "<testcase classname=\"conode.compare\" name=\"compared\">\
            <error type=\"not-compared\" message=\"no frame of node %\"/></testcase>\n",
            &[Value::Number(about.node as u64)],
        ),
        Outcome::SeveralInterfaces => suite.put_words(
            "<testcase classname=\"conode.compare\" name=\"compared\">\
            <error type=\"not-compared\" message=\"several interfaces: name one with \
            --interface\"/></testcase>\n",
        ),
    }
}
