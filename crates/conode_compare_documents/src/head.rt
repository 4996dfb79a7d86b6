//! The beginning of the page: how the comparison ended.

ghost use Rattle.std.specs.Prelude.{◌≡◌};
ghost use Rattle.conode_json.specs.Appended.{Appended};
ghost use Rattle.conode_compare_report.specs.Abouts.{about_view};
ghost use Rattle.conode_json.specs.Filled.{value_text};
ghost use Rattle.conode_compare_documents.specs.Head.{
  difference_count,
  head,
  headline_number,
  headline_words,
  outcome_class,
  reason,
};

use crate::style::STYLE;
use conode_compare_report::{About, Outcome, Report};
use conode_json::{Markup, Value};

/// The page up to its title.
const OPENING: &str = "<!DOCTYPE html>\n\
    <html xmlns=\"http://www.w3.org/1999/xhtml\" lang=\"en\">\n\
    <head>\n\
    <meta charset=\"utf-8\"/>\n\
    <meta name=\"viewport\" content=\"width=device-width, initial-scale=1\"/>\n\
    <title>";

/// The classes of the colours, in the order of `Outcome`.
static CLASSES: [&str; 4] = ["good", "bad", "open", "open"];

/// Why nothing was compared, in this order.
static REASONS: [&str; 4] = [
    "",
    "",
    "<p>It has no frame of this node.</p>\n",
    "<p>It has frames of several interfaces: name one with <code>--interface</code>.</p>\n",
];

/// How many differences there are, listed or not.
pub(crate) fn difference_count(report: &Report) -> u64
    ensures { result ≡ difference_count report.now }
{
    (report.noted.len() as u64).saturating_add(report.unlisted)
}

/// The number at the beginning of the headline.
pub(crate) fn headline_number(outcome: Outcome, count: u64) -> Value<'static>
    ensures { value_text result ≡ headline_number outcome count }
{
    match outcome {
        Outcome::Differences => Value::Number(count),
        _ => Value::Words(""),
    }
}

/// The headline without it.
pub(crate) fn headline_words(outcome: Outcome, count: u64) -> &'static str
    ensures { result.now ≡ headline_words outcome count }
{
    match outcome {
        Outcome::NoDifference => "No difference",
        Outcome::Differences => {
            if count == 1 {
                " difference"
            } else {
                " differences"
            }
        }
        Outcome::NoFrame | Outcome::SeveralInterfaces => "Not compared",
    }
}

/// The class of its colour.
pub(crate) fn outcome_class(outcome: Outcome) -> &'static str
    ensures { result.now ≡ outcome_class outcome }
{
    CLASSES[outcome as usize]
}

/// Why nothing was compared, if so.
pub(crate) fn reason(outcome: Outcome) -> &'static str
    ensures { result.now ≡ reason outcome }
{
    REASONS[outcome as usize]
}

/// Appends what comes before the page's body, and how the comparison ended, of what: the headline,
/// the class of its colour, and why nothing was compared.
pub(crate) fn push_head(
    page: &mut Markup,
    about: &About<'_, '_>,
    number: Value<'static>,
    words: &'static str,
    class: &'static str,
    why: &'static str,
)
    ensures { Appended page.old (head (about_view about.now)
        (value_text number.entry) words.now class.now why.now) page.new }
{
    page.put(
        "%%%: %</title>\n<style>\n%</style>\n</head>\n<body>\n<header class=\"%\">\n<h1>%%</h1>\n\
        <p>Node % in <code>%</code>, against its data sheet <code>%</code> and CiA 301</p>\n%\
        <dl class=\"counts\">\n<div><dt>frames as prescribed</dt><dd>%</dd></div>\n\
        <div><dt>with a difference</dt><dd>%</dd></div>\n\
        <div><dt>unjudged</dt><dd>%</dd></div>\n</dl>\n</header>\n",
        &[
            Value::Words(OPENING),
            number,
            Value::Words(words),
            Value::Name(about.recording),
            Value::Words(STYLE),
            Value::Words(class),
            number,
            Value::Words(words),
            Value::Number(about.node as u64),
            Value::Name(about.recording),
            Value::Name(about.sheet),
            Value::Words(why),
            Value::Number(about.tally.prescribed),
            Value::Number(about.tally.different),
            Value::Number(about.tally.unjudged),
        ],
    );
}
