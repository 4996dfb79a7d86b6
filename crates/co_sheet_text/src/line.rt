//! The lines of a data sheet.

ghost use Rattle.std.specs.Prelude.{◌≡◌};
ghost use Rattle.std.specs.List.{before_first};
ghost use Rattle.co_sheet_text.specs.Text.{trim};
ghost use Rattle.co_sheet_text.specs.Sections.{form_of, property_form, is_equals};
ghost use Rattle.co_sheet_text.specs.Views.{form_view};

use crate::text::trim;
use co_text::split_at_first;

/// What a line is, by its bytes alone.
#[derive(Clone, Copy)]
pub(crate) enum LineForm<'a> {
    /// Empty, or a comment.
    Skipped,
    /// A section line, with its name.
    Section(&'a [u8]),
    /// A section line without `]`.
    Unclosed,
    /// The name and the value of a property; the value may be empty.
    NameValue(&'a [u8], &'a [u8]),
    /// Any other: no `=`, or no name before it.
    Malformed,
}

/// What a line is: blanks at its ends and around names and values are dropped (CiA 306, structure
/// of an EDS).
pub(crate) fn form_of(line: &[u8]) -> LineForm<'_>
    ensures { form_view result ≡ form_of (trim line.now) }
{
    let text = trim(line);
    match text {
        [] | [b';', ..] => LineForm::Skipped,
        [b'[', rest @ ..] => match split_at_first(rest, b']') {
            Some((name, _)) => LineForm::Section(trim(name)),
            None => LineForm::Unclosed,
        },
        _ => property_form(text),
    }
}

fn property_form(text: &[u8]) -> LineForm<'_>
    ensures { form_view result ≡ property_form text.now (trim (before_first is_equals text.now)) }
{
    let Some((name, value)) = split_at_first(text, b'=') else {
        return LineForm::Malformed;
    };
    let name = trim(name);
    if name.is_empty() {
        return LineForm::Malformed;
    }
    LineForm::NameValue(name, trim(value))
}
