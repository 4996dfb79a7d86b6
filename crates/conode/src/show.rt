//! `show`.

use conode_show::{Form, Format, show_file};
use conode_words::{ShowWords, ShownAs};
use std::io::Write;
use std::process::ExitCode;

/// The form in which a dictionary is shown.
fn shown_form(shown_as: ShownAs) -> Form {
    match shown_as {
        ShownAs::Columns => Form::Lines(Format::Text),
        ShownAs::Markdown => Form::Lines(Format::Markdown),
        ShownAs::Json => Form::Json,
    }
}

/// Shows the object dictionary of a data sheet.
pub(crate) fn show<O: Write, E: Write>(
    rt: &HostRuntime,
    words: &ShowWords<'_>,
    out: &mut O,
    err: &mut E,
) -> ExitCode {
    show_file(
        rt,
        words.sheet,
        shown_form(words.shown_as),
        words.node,
        out,
        err,
    )
}
