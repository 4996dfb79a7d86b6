//! The file of a trace, replayed against the device of a data sheet.

ghost use Rattle.std.specs.Prelude.{◌≡◌, ◌⊎◌, ℕ, List, [], None, IfSome, IsSomeAnd};
ghost use Rattle.std.specs.Option.{option_or};
ghost use Rattle.std.specs.Process.{exit_status};
ghost use Rattle.co_node.specs.Nodes.{built_constants, planned};
ghost use Rattle.conode_io.specs.TraceTexts.{GaveText};
ghost use Rattle.conode_device.specs.Files.{OfSheet, ReplaysTrace};
ghost use Rattle.conode_device.specs.Runs.{AfterAny, ReplaysAll};

use crate::replayed_trace::replay_from;
use co_dict_build::Limits;
use co_node::{Config, Node};
use co_sheet::{Sheet, read};
use conode_io::{
    BufferedRead, CmdFault, Ending, Waits, cannot_read, faulty_build, faulty_sheet, file_text,
    flushed, no_node_id, no_text, stopped,
};
use std::alloc::Global;
use std::fs;
use std::io::{BufReader, Input, Read, Write};
use std::process::ExitCode;
use std::rt::Files;

/// The path that stands for standard input.
const STANDARD_INPUT: &str = "-";

/// The data sheet of a device with only the mandatory objects: device type 191h, error register,
/// and identity.
const STORED_SHEET: &[u8] =
    b"[MandatoryObjects]\nSupportedObjects=3\n1=0x1000\n2=0x1001\n3=0x1018\n\
    [1000]\nDataType=7\nAccessType=ro\nDefaultValue=0x191\n\
    [1001]\nDataType=5\nAccessType=ro\n\
    [1018]\nObjectType=9\n\
    [1018sub0]\nDataType=5\nAccessType=ro\nDefaultValue=1\n\
    [1018sub1]\nDataType=7\nAccessType=ro\n";

/// The node-ID of that device.
const STORED_NODE_ID: u8 = 5;

/// Its configuration: no strings and no domains that may be written, and an SDO timeout of 1000 ms.
const STORED_CONFIG: Config<'static> = Config {
    limits: Limits {
        strings: 0,
        domains: 0,
        own: &[],
    },
    time: 1000,
};

/// Replays a trace from an input against a device, and prints on `out`. If it stops early, it says
/// why: on `out`, after what was printed before, or on `err` if `out` can't be written.
fn replay_input<R: Read, P: Waits<R>, O: Write, E: Write>(
    alloc: Global,
    node: &mut Node,
    input: &mut R,
    out: &mut O,
    err: &mut E,
) -> Ending
    // All of the trace is good, and all is written.
    ensures whole { result ≡ Ending.Whole →
        GaveText (R.remaining input.old) (R.remaining input.new) (λ text.
        AfterAny node.old (λ k before.
        ReplaysAll k before (O.contents out.old) (O.contents out.new) text)) }
{
    let outcome = replay_from::<R, P, O>(alloc, node, input, out);
    match flushed(out, outcome) {
        Ok(_) => Ending::Whole,
        Err(fault) => stopped(fault, out, err),
    }
}

// replays an input through a buffer, to need few system calls
fn replay_buffered<R: Read + Drop, O: Write, E: Write>(
    alloc: Global,
    node: &mut Node,
    input: R,
    out: &mut O,
    err: &mut E,
) -> ExitCode
    ensures status { (exit_status result ≡ 0) ⊎ (exit_status result ≡ 1) }
    ensures whole { exit_status result ≡ 0 → (text : List ℕ) × AfterAny node.old (λ k before.
        ReplaysAll k before (O.contents out.old) (O.contents out.new) text) }
{
    let Ok(mut input) = BufReader::new(alloc, input) else {
        return stopped(CmdFault::Memory, out, err).status();
    };
    replay_input::<BufReader<R>, BufferedRead, O, E>(alloc, node, &mut input, out, err).status()
}

// replays the trace of a path, or of standard input for `-`
fn replay_trace<R: Files + AllocGlobal + Input, O: Write, E: Write>(
    rt: &R,
    node: &mut Node,
    path: &str,
    out: &mut O,
    err: &mut E,
) -> ExitCode
    ensures status { (exit_status result ≡ 0) ⊎ (exit_status result ≡ 1) }
    ensures whole { exit_status result ≡ 0 → (text : List ℕ) × AfterAny node.old (λ k before.
        ReplaysAll k before (O.contents out.old) (O.contents out.new) text) }
{
    if path == STANDARD_INPUT {
        return replay_buffered(rt.alloc(), node, rt.reader(), out, err);
    }
    match fs::open(rt, path) {
        Ok(file) => replay_buffered(rt.alloc(), node, file, out, err),
        Err(_) => cannot_read(path, err),
    }
}

// replays the trace of a path against the device of a data sheet at a node-ID
fn replay_device<R: Files + AllocGlobal + Input, O: Write, E: Write>(
    rt: &R,
    sheet: &Sheet<'_>,
    trace: &str,
    node_id: u8,
    config: &Config<'_>,
    out: &mut O,
    err: &mut E,
) -> ExitCode
    ensures status { (exit_status result ≡ 0) ⊎ (exit_status result ≡ 1) }
    // The device is that of this sheet, node-ID, rooms and SDO timeout; it took a whole trace
    // without a bad line.
    ensures whole { exit_status result ≡ 0 → (text : List ℕ) × ReplaysAll
        (built_constants (planned sheet.now node_id config.now) config.now.time) []
        (O.contents out.old) (O.contents out.new) text }
{
    match Node::build(rt.alloc(), sheet, node_id, config) {
        Ok(mut node) => replay_trace(rt, &mut node, trace, out, err),
        Err(fault) => faulty_build(fault, out),
    }
}

// replays the trace of a path against the device of a data sheet, at the given node-ID, or else the
// sheet's own
fn replay_sheet<R: Files + AllocGlobal + Input, O: Write, E: Write>(
    rt: &R,
    sheet: &Sheet<'_>,
    trace: &str,
    node: Option<u8>,
    config: &Config<'_>,
    out: &mut O,
    err: &mut E,
) -> ExitCode
    ensures none { option_or node sheet.now.node_id ≡ None → exit_status result ≡ 2 }
    ensures some { IfSome (option_or node sheet.now.node_id)
        (λ id. (exit_status result ≡ 0) ⊎ (exit_status result ≡ 1)) }
    // A given node-ID takes precedence over the sheet's own.
    ensures whole { exit_status result ≡ 0 → IsSomeAnd (option_or node sheet.now.node_id) (λ id.
        (text : List ℕ) × ReplaysAll
        (built_constants (planned sheet.now id config.now) config.now.time) []
        (O.contents out.old) (O.contents out.new) text) }
{
    match node.or(sheet.node_id()) {
        Some(node_id) => replay_device(rt, sheet, trace, node_id, config, out, err),
        None => no_node_id(err),
    }
}

// replays the trace of a path against the device of a data sheet, if this text is one
fn replay_text<R: Files + AllocGlobal + Input, O: Write, E: Write>(
    rt: &R,
    text: &[u8],
    trace: &str,
    node: Option<u8>,
    config: &Config<'_>,
    out: &mut O,
    err: &mut E,
) -> ExitCode
    ensures given { IfSome node (λ id. (exit_status result ≡ 0) ⊎ (exit_status result ≡ 1)) }
    ensures status { (exit_status result ≡ 0) ⊎ (exit_status result ≡ 1)
        ⊎ (exit_status result ≡ 2) }
    ensures whole { exit_status result ≡ 0 → OfSheet text.now node config.now
        (ReplaysTrace (O.contents out.old) (O.contents out.new)) }
{
    match read(rt.alloc(), text) {
        Ok(sheet) => replay_sheet(rt, &sheet, trace, node, config, out, err),
        Err(fault) => faulty_sheet(fault, out),
    }
}

/// Replays the trace of a path, or of standard input for `-`, against the device of the data sheet
/// of another path, as `replay` does. Its node-ID is the given one, or else the sheet's own, as a
/// device configuration file has it. The replay goes to `out`, and so do a fault of the sheet or
/// its build, and the line that says why the replay stopped early. A file that can't be read is
/// named on `err`; `no node-ID` is said there if there is none.
///
/// Faults are looked for in this order: the sheet's file, the sheet, node-ID, build, the trace's
/// file, the trace. The status is 2 without a node-ID, 1 after any other fault, also of the trace,
/// else 0. A refused event is no fault.
pub fn replay_files<R: Files + AllocGlobal + Input, O: Write, E: Write>(
    rt: &R,
    sheet: &str,
    trace: &str,
    node: Option<u8>,
    config: &Config<'_>,
    out: &mut O,
    err: &mut E,
) -> ExitCode
    ensures given { IfSome node (λ id. (exit_status result ≡ 0) ⊎ (exit_status result ≡ 1)) }
    ensures status { (exit_status result ≡ 0) ⊎ (exit_status result ≡ 1)
        ⊎ (exit_status result ≡ 2) }
    // The device is that of a text that is a data sheet; it took a whole trace without a bad line,
    // and the boot-up, the lines and the totals are written.
    ensures whole { exit_status result ≡ 0 → (text : List ℕ) × OfSheet text node config.now
        (ReplaysTrace (O.contents out.old) (O.contents out.new)) }
{
    match file_text(rt, sheet) {
        Ok(text) => replay_text(rt, text.as_slice(), trace, node, config, out, err),
        Err(fault) => no_text(fault, sheet, out, err),
    }
}

// replays an input against the device of a data sheet, with the stored node-ID and configuration
fn replay_stored_sheet<R: Read + Drop, O: Write, E: Write>(
    alloc: Global,
    sheet: &Sheet<'_>,
    input: R,
    out: &mut O,
    err: &mut E,
) -> ExitCode
    ensures { (exit_status result ≡ 0) ⊎ (exit_status result ≡ 1) }
{
    match Node::build(alloc, sheet, STORED_NODE_ID, &STORED_CONFIG) {
        Ok(mut node) => replay_buffered(alloc, &mut node, input, out, err),
        Err(fault) => faulty_build(fault, out),
    }
}

/// Replays a trace from an input against a device with only the mandatory objects: device type
/// 191h, at node-ID 5.
pub fn replay_stored<R: Read + Drop, O: Write, E: Write>(
    alloc: Global,
    input: R,
    out: &mut O,
    err: &mut E,
) -> ExitCode
    ensures { (exit_status result ≡ 0) ⊎ (exit_status result ≡ 1) }
{
    match read(alloc, STORED_SHEET) {
        Ok(sheet) => replay_stored_sheet(alloc, &sheet, input, out, err),
        Err(fault) => faulty_sheet(fault, out),
    }
}
