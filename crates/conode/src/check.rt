//! `check`.

use crate::dictionary::limits_of;
use conode_check::check_file;
use conode_words::CheckWords;
use std::io::Write;
use std::process::ExitCode;

/// Checks a data sheet.
pub(crate) fn check<O: Write, E: Write>(
    rt: &HostRuntime,
    words: &CheckWords<'_>,
    out: &mut O,
    err: &mut E,
) -> ExitCode {
    let limits = limits_of(&words.dictionary);
    check_file(rt, words.sheet, words.dictionary.node, &limits, out, err)
}
