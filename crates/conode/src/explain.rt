//! `explain`.

use crate::colours::has_colours;
use crate::log_form::recorded_form;
use conode_explain::{ExplainOptions, LineFormat, StampForm, explain_files};
use conode_explain_filter::FilterWords;
use conode_words::{ExplainWords, LinesAs, OnlyWords, Stamps};
use std::io::Write;
use std::process::ExitCode;

/// The form in which stamps are written.
fn stamp_form(stamps: Stamps) -> StampForm {
    match stamps {
        Stamps::Relative => StampForm::Relative,
        Stamps::Absolute => StampForm::Absolute,
        Stamps::Delta => StampForm::Delta,
        Stamps::Date => StampForm::Date,
    }
}

/// How lines are written.
fn line_format(lines_as: LinesAs) -> LineFormat {
    match lines_as {
        LinesAs::Text => LineFormat::Text,
        LinesAs::Json => LineFormat::Json,
    }
}

/// Which lines are printed.
fn filter_words<'a>(only: &OnlyWords<'a>) -> FilterWords<'a> {
    FilterWords {
        of: only.of,
        id: only.id,
        kind: only.kind,
        from: only.from,
        to: only.to,
    }
}

/// Explains a recording.
pub(crate) fn explain<O: Write, E: Write>(
    rt: &HostRuntime,
    words: &ExplainWords<'_>,
    out: &mut O,
    err: &mut E,
) -> ExitCode {
    let options = ExplainOptions {
        stamps: stamp_form(words.stamps),
        transfers: words.transfers,
        changes: words.changes,
        stop: words.stop,
        colours: has_colours(rt, words.colours),
        format: line_format(words.lines_as),
        log: recorded_form(words.form),
        filter: filter_words(&words.only),
        signals: words.signals,
    };
    explain_files(rt, words.trace, words.sheets.as_slice(), &options, out, err)
}
