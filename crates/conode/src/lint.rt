//! `lint`.

use crate::colours::has_colours;
use crate::dictionary::limits_of;
use crate::version::version;
use conode_lint::{Checks, Form, LintOptions, lint_files};
use conode_words::{Format, LintWords};
use std::io::Write;
use std::process::ExitCode;

/// The form in which findings are written.
fn form_of(rt: &HostRuntime, words: &LintWords<'_>) -> Form {
    match words.format {
        Format::Text => Form::Text {
            colours: has_colours(rt, words.colours),
        },
        Format::Json => Form::Json,
        Format::Sarif => Form::Sarif,
    }
}

/// Lints data sheets.
pub(crate) fn lint<O: Write, E: Write>(
    rt: &HostRuntime,
    words: &LintWords<'_>,
    out: &mut O,
    err: &mut E,
) -> ExitCode {
    let options = LintOptions {
        checks: Checks {
            node: words.dictionary.node,
            limits: limits_of(&words.dictionary),
            all: words.all,
            allowed: words.allowed.as_slice(),
        },
        form: form_of(rt, words),
        strict: words.strict,
        version: version(),
    };
    lint_files(rt, words.sheets.as_slice(), &options, out, err)
}
