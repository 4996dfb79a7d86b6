//! `stats`.

use crate::log_form::recorded_form;
use conode_stats::{StatsWords as Asked, stats_file};
use conode_words::{LinesAs, StatsWords};
use std::io::Write;
use std::process::ExitCode;

/// Prints the statistics of a bus.
pub(crate) fn stats<O: Write, E: Write>(
    rt: &HostRuntime,
    words: &StatsWords<'_>,
    out: &mut O,
    err: &mut E,
) -> ExitCode {
    let asked = Asked {
        sheets: words.sheets.as_slice(),
        bit_rate: words.bit_rate,
        json: words.lines_as == LinesAs::Json,
        log: recorded_form(words.form),
    };
    stats_file(rt, words.trace, &asked, out, err)
}
