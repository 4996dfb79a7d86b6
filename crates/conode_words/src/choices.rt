//! Words of options that name a choice. Each function returns `None` for a word that is none of its
//! choices.

ghost use Rattle.std.specs.Prelude.{◌≡◌, map, option_and_then};
ghost use Rattle.clap.specs.Words.{first_of, found_of, rows_of};
ghost use Rattle.conode_words.specs.Choices.{
  choice_named,
  colours_for,
  format_for,
  lines_as_for,
  log_form_for,
  mode_for,
  report_as_for,
  shown_for,
  stamps_for,
  zeros_for,
  zeros_of,
};

use crate::found::{is, word_for};
use crate::tasks::{
    Colours, Format, LeadingZeros, LinesAs, LogForm, Mode, ReportAs, ShownAs, Stamps,
};
use clap::ArgMatches;

// the choice that a word names, of these
fn choice_named<T: Copy>(word: &str, choices: &[(&str, T)]) -> Option<T>
    ensures { result ≡ choice_named (map (λ c. (c.0.now, c.1)) choices.now) word.now }
{
    for (name, choice) in choices {
        if is(word, name) {
            return Some(*choice);
        }
    }
    None
}

// the choice that the word of an option names
fn choice_for<T: Copy>(found: &ArgMatches<'_>, name: &str, choices: &[(&str, T)]) -> Option<T>
    ensures { result ≡ option_and_then (choice_named (map (λ c. (c.0.now, c.1)) choices.now))
        (first_of name.now (rows_of (found_of found.now))) }
{
    let Some(word) = word_for(found, name) else {
        return None;
    };
    choice_named(word, choices)
}

/// The format of `lint`.
#[tactic(auto, unfolding(crate::specs::Choices::format_for, crate::specs::Choices::format_of))]
pub(crate) fn format_for(found: &ArgMatches<'_>) -> Option<Format>
    ensures { result ≡ format_for (rows_of (found_of found.now)) }
{
    choice_for(
        found,
        "format",
        &[
            ("text", Format::Text),
            ("json", Format::Json),
            ("sarif", Format::Sarif),
        ],
    )
}

/// When `lint` and `explain` write in colours.
#[tactic(auto, unfolding(crate::specs::Choices::colours_for, crate::specs::Choices::colours_of))]
pub(crate) fn colours_for(found: &ArgMatches<'_>) -> Option<Colours>
    ensures { result ≡ colours_for (rows_of (found_of found.now)) }
{
    choice_for(
        found,
        "color",
        &[
            ("auto", Colours::Auto),
            ("always", Colours::Always),
            ("never", Colours::Never),
        ],
    )
}

/// The mode of `loop`.
#[tactic(auto, unfolding(crate::specs::Choices::mode_for, crate::specs::Choices::mode_of))]
pub(crate) fn mode_for(found: &ArgMatches<'_>) -> Option<Mode>
    ensures { result ≡ mode_for (rows_of (found_of found.now)) }
{
    choice_for(
        found,
        "mode",
        &[
            ("plain", Mode::Plain),
            ("segmented", Mode::Segmented),
            ("block", Mode::Block),
        ],
    )
}

/// The form of `show`.
#[tactic(auto, unfolding(crate::specs::Choices::shown_for, crate::specs::Choices::shown_as))]
pub(crate) fn shown_for(found: &ArgMatches<'_>) -> Option<ShownAs>
    ensures { result ≡ shown_for (rows_of (found_of found.now)) }
{
    choice_for(
        found,
        "format",
        &[
            ("text", ShownAs::Columns),
            ("markdown", ShownAs::Markdown),
            ("json", ShownAs::Json),
        ],
    )
}

// how leading zeros are read, by a word
#[tactic(auto, unfolding(crate::specs::Choices::zeros_of))]
fn zeros_of(word: &str) -> Option<LeadingZeros>
    ensures { result ≡ zeros_of word.now }
{
    let bases = [
        ("octal", LeadingZeros::Octal),
        ("decimal", LeadingZeros::Decimal),
    ];
    choice_named(word, &bases)
}

/// How `adapt` reads leading zeros; `Some(None)` if the option isn't used.
#[tactic(auto, unfolding(crate::specs::Choices::zeros_for))]
pub(crate) fn zeros_for(found: &ArgMatches<'_>) -> Option<Option<LeadingZeros>>
    ensures { result ≡ zeros_for (rows_of (found_of found.now)) }
{
    let Some(word) = word_for(found, "leading-zeros") else {
        return Some(None);
    };
    let Some(zeros) = zeros_of(word) else {
        return None;
    };
    Some(Some(zeros))
}

/// The form of stamps.
#[tactic(auto, unfolding(crate::specs::Choices::stamps_for, crate::specs::Choices::stamps_of))]
pub(crate) fn stamps_for(found: &ArgMatches<'_>) -> Option<Stamps>
    ensures { result ≡ stamps_for (rows_of (found_of found.now)) }
{
    choice_for(
        found,
        "stamps",
        &[
            ("relative", Stamps::Relative),
            ("z", Stamps::Relative),
            ("absolute", Stamps::Absolute),
            ("a", Stamps::Absolute),
            ("delta", Stamps::Delta),
            ("d", Stamps::Delta),
            ("date", Stamps::Date),
            ("A", Stamps::Date),
        ],
    )
}

/// How lines are written.
#[tactic(auto, unfolding(crate::specs::Choices::lines_as_for, crate::specs::Choices::lines_as_of))]
pub(crate) fn lines_as_for(found: &ArgMatches<'_>) -> Option<LinesAs>
    ensures { result ≡ lines_as_for (rows_of (found_of found.now)) }
{
    choice_for(
        found,
        "format",
        &[("text", LinesAs::Text), ("json", LinesAs::Json)],
    )
}

/// The form of a log.
#[tactic(auto, unfolding(crate::specs::Choices::log_form_for, crate::specs::Choices::log_form_of))]
pub(crate) fn log_form_for(found: &ArgMatches<'_>) -> Option<LogForm>
    ensures { result ≡ log_form_for (rows_of (found_of found.now)) }
{
    choice_for(
        found,
        "log",
        &[
            ("auto", LogForm::Auto),
            ("candump", LogForm::Candump),
            ("screen", LogForm::Screen),
            ("screen-delta", LogForm::ScreenDelta),
            ("trc", LogForm::Trc),
            ("asc", LogForm::Asc),
        ],
    )
}

/// How `compare` writes what it finds.
#[tactic(auto, unfolding(crate::specs::Choices::report_as_for, crate::specs::Choices::report_as_of))]
pub(crate) fn report_as_for(found: &ArgMatches<'_>) -> Option<ReportAs>
    ensures { result ≡ report_as_for (rows_of (found_of found.now)) }
{
    choice_for(
        found,
        "format",
        &[
            ("text", ReportAs::Text),
            ("json", ReportAs::Json),
            ("junit", ReportAs::JUnit),
            ("html", ReportAs::Html),
        ],
    )
}
