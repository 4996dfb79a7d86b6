//! A download looped against the node of a data sheet's file.

ghost use Rattle.std.specs.Prelude.{ℕ, ◌≡◌, ◌⊎◌, ◌≤◌, List, [], length, None, Some, IfOk, IfSome, IsSomeAnd, option_map};
ghost use Rattle.std.specs.Option.{option_or};
ghost use Rattle.std.specs.Process.{exit_status};
ghost use Rattle.co_value.specs.KeyTexts.{key_in};
ghost use Rattle.co_node_model.specs.Inputs.{Inputs};
ghost use Rattle.co_node_model.specs.Moments.{Constants};
ghost use Rattle.co_node.specs.Nodes.{Stands, built_constants, planned};
ghost use Rattle.conode_device.specs.Files.{OfSheet};
ghost use Rattle.conode_device.specs.Standing.{EndsDone};
ghost use Rattle.conode_device.specs.Words.{bytes_in};

use crate::looped::loop_back;
use co_node::{Config, Node};
use co_sdo_client::{ClientState, Mode};
use co_sheet::{Sheet, read};
use co_text::HexPairs;
use co_value::Key;
use conode_io::{
    CmdFault, bad_word, faulty_build, faulty_sheet, file_text, flushed, no_node_id, no_text,
    stopped,
};
use std::alloc::{AllocError, Global};
use std::io::Write;
use std::process::ExitCode;
use std::rt::Files;

/// The most bytes that a client downloads.
const MOST_BYTES: usize = 65_535;

// The bytes of pairs of digits.
fn collected(alloc: Global, pairs: HexPairs<'_>) -> Result<Vec<u8>, AllocError>
    ensures { IfOk result (λ bytes. bytes.items ≡ pairs.entry) }
{
    let mut left = pairs;
    let mut bytes = Vec::new(alloc);
    while let Some(byte) = left.next() {
        let Ok(()) = bytes.push(byte) else {
            return Err(AllocError);
        };
    }
    Ok(bytes)
}

// The bytes that a word spells in pairs of hexadecimal digits, at most 65,535, or `-` for none;
// `None` for other words.
#[tactic(auto, unfolding(crate::specs::Words::bytes_in))]
fn bytes_in(alloc: Global, word: &str) -> Result<Option<Vec<u8>>, AllocError>
    ensures spelled { IfOk result (λ bytes. option_map (λ b. b.items) bytes ≡ bytes_in word.now) }
    ensures few { IfOk result (λ bytes. IfSome bytes (λ b. length b.items ≤ 65535)) }
{
    let Some(pairs) = HexPairs::read(word.as_bytes()) else {
        return Ok(None);
    };
    if pairs.len() > MOST_BYTES {
        return Ok(None);
    }
    let Ok(bytes) = collected(alloc, pairs) else {
        return Err(AllocError);
    };
    Ok(Some(bytes))
}

/// A download that a client loops against a node.
#[derive(Drop)]
struct Job<'a> {
    key: Key,
    bytes: &'a [u8],
    mode: Mode,
}

// Loops a download against a node, prints on `out`, and says why it stopped early, if it did.
fn loop_node<O: Write, E: Write>(
    alloc: Global,
    node: &mut Node,
    job: &Job<'_>,
    out: &mut O,
    err: &mut E,
) -> ExitCode
    requires { length job.now.bytes.now ≤ 65535 }
    ensures status { (exit_status result ≡ 0) ⊎ (exit_status result ≡ 1) }
    // The status is 0 only if the client is done and all is written.
    ensures done { exit_status result ≡ 0 → (k : Constants) (before : Inputs) →
        Stands k node.old before → EndsDone k before job.now.key job.now.bytes.now job.now.mode
        (O.contents out.old) (O.contents out.new) }
{
    let outcome = loop_back(alloc, node, job.key, job.bytes, job.mode, out);
    match flushed(out, outcome) {
        Ok(ClientState::Done) => ExitCode::SUCCESS,
        Ok(_) => ExitCode::FAILURE,
        Err(fault) => stopped(fault, out, err).status(),
    }
}

// Loops a download against the node of a data sheet at a node-ID.
fn loop_device<O: Write, E: Write>(
    alloc: Global,
    sheet: &Sheet<'_>,
    job: &Job<'_>,
    node_id: u8,
    config: &Config<'_>,
    out: &mut O,
    err: &mut E,
) -> ExitCode
    requires { length job.now.bytes.now ≤ 65535 }
    ensures status { (exit_status result ≡ 0) ⊎ (exit_status result ≡ 1) }
    // The device is that of this sheet, node-ID, rooms and SDO timeout.
    ensures done { exit_status result ≡ 0 → EndsDone
        (built_constants (planned sheet.now node_id config.now) config.now.time) []
        job.now.key job.now.bytes.now job.now.mode (O.contents out.old) (O.contents out.new) }
{
    match Node::build(alloc, sheet, node_id, config) {
        Ok(mut node) => loop_node(alloc, &mut node, job, out, err),
        Err(fault) => faulty_build(fault, out),
    }
}

// Loops a download against the node of a data sheet, at the given node-ID, or else the sheet's own.
fn loop_sheet<O: Write, E: Write>(
    alloc: Global,
    sheet: &Sheet<'_>,
    job: &Job<'_>,
    node: Option<u8>,
    config: &Config<'_>,
    out: &mut O,
    err: &mut E,
) -> ExitCode
    requires { length job.now.bytes.now ≤ 65535 }
    ensures none { option_or node sheet.now.node_id ≡ None → exit_status result ≡ 2 }
    ensures some { IfSome (option_or node sheet.now.node_id)
        (λ id. (exit_status result ≡ 0) ⊎ (exit_status result ≡ 1)) }
    // A given node-ID takes precedence over the sheet's own.
    ensures done { exit_status result ≡ 0 → IsSomeAnd (option_or node sheet.now.node_id) (λ id.
        EndsDone (built_constants (planned sheet.now id config.now) config.now.time) []
        job.now.key job.now.bytes.now job.now.mode (O.contents out.old) (O.contents out.new)) }
{
    match node.or(sheet.node_id()) {
        Some(node_id) => loop_device(alloc, sheet, job, node_id, config, out, err),
        None => no_node_id(err),
    }
}

// Loops a download against the node of a data sheet, if this text is one.
fn loop_text<O: Write, E: Write>(
    alloc: Global,
    text: &[u8],
    job: &Job<'_>,
    node: Option<u8>,
    config: &Config<'_>,
    out: &mut O,
    err: &mut E,
) -> ExitCode
    requires { length job.now.bytes.now ≤ 65535 }
    ensures given { IfSome node (λ id. (exit_status result ≡ 0) ⊎ (exit_status result ≡ 1)) }
    ensures status { (exit_status result ≡ 0) ⊎ (exit_status result ≡ 1)
        ⊎ (exit_status result ≡ 2) }
    ensures done { exit_status result ≡ 0 → OfSheet text.now node config.now (λ k.
        EndsDone k [] job.now.key job.now.bytes.now job.now.mode
        (O.contents out.old) (O.contents out.new)) }
{
    match read(alloc, text) {
        Ok(sheet) => loop_sheet(alloc, &sheet, job, node, config, out, err),
        Err(fault) => faulty_sheet(fault, out),
    }
}

// Loops a download against the node of the data sheet of a path.
fn loop_path<R: Files + AllocGlobal, O: Write, E: Write>(
    rt: &R,
    path: &str,
    job: &Job<'_>,
    node: Option<u8>,
    config: &Config<'_>,
    out: &mut O,
    err: &mut E,
) -> ExitCode
    requires { length job.now.bytes.now ≤ 65535 }
    ensures given { IfSome node (λ id. (exit_status result ≡ 0) ⊎ (exit_status result ≡ 1)) }
    ensures status { (exit_status result ≡ 0) ⊎ (exit_status result ≡ 1)
        ⊎ (exit_status result ≡ 2) }
    ensures done { exit_status result ≡ 0 → (text : List ℕ) × OfSheet text node config.now (λ k.
        EndsDone k [] job.now.key job.now.bytes.now job.now.mode
        (O.contents out.old) (O.contents out.new)) }
{
    match file_text(rt, path) {
        Ok(text) => loop_text(rt.alloc(), text.as_slice(), job, node, config, out, err),
        Err(fault) => no_text(fault, path, out, err),
    }
}

/// Loops a download against the node of the data sheet of a path, as `loop_back` does, and prints
/// on `out`. The node-ID is the given one, or else the sheet's own, as a device configuration file
/// has it. `key` is a key as `2001:00`; `hex` are the bytes in pairs of hexadecimal digits, or `-`
/// for none.
///
/// `bad key` and then `bad bytes`, also for more than 65,535 bytes, go to `err` before the file is
/// opened, and `no node-ID` after the sheet was read; the status is then 2. A file that can't be
/// read is named on `err`; a fault of the sheet and one of its build go to `out`. The status is 0
/// if the client is done, else 1.
pub fn loop_files<R: Files + AllocGlobal, O: Write, E: Write>(
    rt: &R,
    sheet: &str,
    key: &str,
    hex: &str,
    node: Option<u8>,
    mode: Mode,
    config: &Config<'_>,
    out: &mut O,
    err: &mut E,
) -> ExitCode
    ensures bad_key { key_in key.now ≡ None → exit_status result ≡ 2 }
    ensures bad_bytes { bytes_in hex.now ≡ None →
        (exit_status result ≡ 1) ⊎ (exit_status result ≡ 2) }
    ensures given { IfSome (key_in key.now) (λ k. IfSome (bytes_in hex.now) (λ b.
        IfSome node (λ id. (exit_status result ≡ 0) ⊎ (exit_status result ≡ 1)))) }
    ensures status { (exit_status result ≡ 0) ⊎ (exit_status result ≡ 1)
        ⊎ (exit_status result ≡ 2) }
    // The client has downloaded what the words say to the device of a text that is a data sheet,
    // and all lines are written.
    ensures done { exit_status result ≡ 0 → IsSomeAnd (key_in key.now) (λ at.
        IsSomeAnd (bytes_in hex.now) (λ bytes. (text : List ℕ) ×
        OfSheet text node config.now (λ k. EndsDone k [] at bytes mode
        (O.contents out.old) (O.contents out.new)))) }
{
    let Some(key) = Key::parse(key.as_bytes()) else {
        return bad_word("bad key", err);
    };
    match bytes_in(rt.alloc(), hex) {
        Ok(Some(bytes)) => {
            let job = Job {
                key,
                bytes: bytes.as_slice(),
                mode,
            };
            loop_path(rt, sheet, &job, node, config, out, err)
        }
        Ok(None) => bad_word("bad bytes", err),
        Err(_) => stopped(CmdFault::Memory, out, err).status(),
    }
}
