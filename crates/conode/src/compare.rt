//! `compare`.

use crate::log_form::recorded_form;
use crate::version::version;
use conode_compare::{Asked, Format, compare_files};
use conode_compare_nmt::Limits;
use conode_compare_values::Rooms;
use conode_words::{CompareWords, ReportAs, RoomWords, TimingWords};
use std::io::Write;
use std::process::ExitCode;

/// How a comparison is written.
fn compared_format(report_as: ReportAs) -> Format {
    match report_as {
        ReportAs::Text => Format::Text,
        ReportAs::Json => Format::Json,
        ReportAs::JUnit => Format::JUnit,
        ReportAs::Html => Format::Html,
    }
}

/// How far times may be off.
fn limits_of(timing: &TimingWords) -> Limits {
    Limits {
        tolerance: timing.tolerance,
        drift: timing.drift,
        answer: timing.answer,
        boot: timing.boot,
        time: timing.time,
    }
}

/// The room of strings and domains.
fn rooms_of(rooms: &RoomWords) -> Rooms {
    Rooms {
        strings: rooms.strings,
        domains: rooms.domains,
    }
}

/// Compares a recorded device with what its data sheet prescribes.
pub(crate) fn compare<O: Write, E: Write>(
    rt: &HostRuntime,
    words: &CompareWords<'_>,
    out: &mut O,
    err: &mut E,
) -> ExitCode {
    let asked = Asked {
        node: words.node,
        limits: limits_of(&words.timing),
        rooms: rooms_of(&words.rooms),
        interface: words.interface,
        held: words.held,
        form: recorded_form(words.form),
        choices: words.choices,
        learned: words.learned,
        format: compared_format(words.report_as),
        version: version(),
    };
    compare_files(rt, words.sheet, words.trace, asked, out, err)
}
