//! `loop`.

use crate::device::config_of;
use co_sdo_client::Mode as TransferMode;
use conode_device::loop_files;
use conode_words::{LoopWords, Mode};
use std::io::Write;
use std::process::ExitCode;

/// How a client transfers.
fn transfer_mode(mode: Mode) -> TransferMode {
    match mode {
        Mode::Plain => TransferMode::Plain,
        Mode::Segmented => TransferMode::Segmented,
        Mode::Block => TransferMode::Block,
    }
}

/// Lets an SDO client download bytes to the device of a data sheet.
pub(crate) fn loop_back<O: Write, E: Write>(
    rt: &HostRuntime,
    words: &LoopWords<'_>,
    out: &mut O,
    err: &mut E,
) -> ExitCode {
    let node = words.device.dictionary.node;
    let config = config_of(&words.device);
    let mode = transfer_mode(words.mode);
    loop_files(
        rt,
        words.sheet,
        words.key,
        words.bytes,
        node,
        mode,
        &config,
        out,
        err,
    )
}
