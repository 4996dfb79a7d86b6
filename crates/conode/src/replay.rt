//! `replay`, and the program without a subcommand.

use crate::device::config_of;
use conode_device::{replay_files, replay_stored};
use conode_words::ReplayWords;
use std::io::Write;
use std::process::ExitCode;

/// Plays a trace to the device of a data sheet.
pub(crate) fn replay<O: Write, E: Write>(
    rt: &HostRuntime,
    words: &ReplayWords<'_>,
    out: &mut O,
    err: &mut E,
) -> ExitCode {
    let node = words.device.dictionary.node;
    let config = config_of(&words.device);
    replay_files(rt, words.sheet, words.trace, node, &config, out, err)
}

/// Plays standard input to the device of the stored data sheet.
pub(crate) fn first_run<O: Write, E: Write>(
    rt: &HostRuntime,
    out: &mut O,
    err: &mut E,
) -> ExitCode {
    replay_stored(rt.alloc(), rt.reader(), out, err)
}
