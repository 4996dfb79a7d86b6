//! `convert`.

use crate::log_form::recorded_form;
use conode_convert::convert_file;
use conode_words::ConvertWords;
use std::io::Write;
use std::process::ExitCode;

/// Converts a log of another recorder.
pub(crate) fn convert<O: Write, E: Write>(
    rt: &HostRuntime,
    words: &ConvertWords<'_>,
    out: &mut O,
    err: &mut E,
) -> ExitCode {
    convert_file(rt, words.log, recorded_form(words.form), out, err)
}
