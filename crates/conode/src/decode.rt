//! `decode`.

use conode_decode::decode_files;
use conode_words::DecodeWords;
use std::io::Write;
use std::process::ExitCode;

/// Decodes a trace.
pub(crate) fn decode<O: Write, E: Write>(
    rt: &HostRuntime,
    words: &DecodeWords<'_>,
    out: &mut O,
    err: &mut E,
) -> ExitCode {
    decode_files(rt, words.trace, words.sheet, words.node, out, err)
}
