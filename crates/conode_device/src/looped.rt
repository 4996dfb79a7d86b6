//! A download looped against a node.

ghost use Rattle.std.specs.Prelude.{◌≡◌, ◌⊎◌, ◌≤◌, ◌++◌, length, OnOk, IfOk, IfErr, Err, string_bytes};
ghost use Rattle.co_node_model.specs.Moments.{Constants};
ghost use Rattle.co_node_model.specs.Inputs.{Inputs};
ghost use Rattle.co_node.specs.Nodes.{Stands};
ghost use Rattle.co_node.specs.Served.{IsComplete, IsPermitted};
ghost use Rattle.co_node_model.specs.Loop.{Loop, BothEnds, download_of, first_ends, last_ends, state_at};
ghost use Rattle.conode_io.specs.Written.{WritesFront, WritesLines, WritesSome};
ghost use Rattle.conode_device.specs.Printed.{last_line, loop_lines};
ghost use Rattle.conode_device.specs.Standing.{EndsStand, Looped, StandsAfterSome};

use crate::rounds::all_rounds;
use co_frame::{Frame, Ids, Outbox};
use co_node::{Node, permitted_download_completes};
use co_sdo_client::{Client, ClientState, Mode};
use co_value::Key;
use conode_io::{CmdFault, hand_over};
use conode_text::{Value, push_filled};
use std::alloc::{AllocError, Global};
use std::io::Write;

// Sets the text to the last line: the state of the client, and how many frames it sent. `Err`: out
// of memory; the text then has a part of the line.
#[tactic(auto, unfolding(crate::specs::Printed::last_line, crate::specs::Printed::requests_text, conode_text::specs::Filled::filled))]
fn set_last_line(text: &mut String, state: ClientState, sent: u64) -> Result<(), AllocError>
    ensures { OnOk result (string_bytes text.new ≡ last_line state sent) }
{
    text.clear();
    match state {
        ClientState::Waiting => text.push_str("; gave up\n"),
        ClientState::Done => push_filled(text, "; done, % requests\n", &[Value::Number(sent)]),
        ClientState::Failed(code) => push_filled(
            text,
            "; failed %, % requests\n",
            &[Value::Long(code.0), Value::Number(sent)],
        ),
    }
}

// Runs all rounds of a client that has begun, and writes the last line.
fn loop_client<W: Write>(
    node: &mut Node,
    client: &mut Client<'_>,
    waiting: &mut Vec<Frame>,
    line: &mut String,
    writer: &mut W,
) -> Result<ClientState, CmdFault>
    ensures looped { (l : Loop) (e : BothEnds) → EndsStand l e node.old client.old
        waiting.old.items →
        Looped l e node.new (W.contents writer.old) (W.contents writer.new) result }
    ensures err { IfErr result (λ fault. (fault ≡ CmdFault.Write) ⊎ (fault ≡ CmdFault.Memory)) }
{
    all_rounds(node, client, waiting, writer)?;
    let state = client.state();
    set_last_line(line, state, client.sent())?;
    hand_over(line.as_bytes(), writer)?;
    Ok(state)
}

// Begins a client's download, runs all rounds, and writes the last line.
fn loop_download<W: Write>(
    alloc: Global,
    node: &mut Node,
    key: Key,
    bytes: &[u8],
    mode: Mode,
    writer: &mut W,
) -> Result<ClientState, CmdFault>
    requires { length bytes.now ≤ 65535 }
    ensures looped { (k : Constants) (before : Inputs) → Stands k node.old before → Looped
        (download_of k key bytes.now mode) (first_ends (download_of k key bytes.now mode) before)
        node.new (W.contents writer.old) (W.contents writer.new) result }
    ensures err { IfErr result (λ fault. (fault ≡ CmdFault.Write) ⊎ (fault ≡ CmdFault.Memory)) }
{
    let node_id = u16::from(node.node_id());
    let ids = Ids {
        request: 0x600 + node_id,
        answer: 0x580 + node_id,
    };
    let mut client = Client::download(ids, key, bytes, mode, true, 0);
    let mut sent = Outbox::new();
    client.begin(&mut sent);
    let mut waiting = Vec::new(alloc);
    waiting.extend_from_slice(&sent)?;
    let mut line = String::new(alloc);
    loop_client(node, &mut client, &mut waiting, &mut line, writer)
}

/// Downloads bytes, at most 65,535, to an entry of a node by an SDO client over the node's default
/// channel (CiA 301, 7.2.4.3): 600h + node-ID and 580h + node-ID. The client indicates the size,
/// and has no timeout.
///
/// In each round the node takes one request of the client; if none is queued, 1 ms elapses for
/// both. The client then takes all frames that the node sends. Rounds go on while the client waits
/// for an answer, or one of its requests is queued; at most 20,000. So the node also takes an abort
/// that the client sends.
///
/// Each frame is written as the line of a trace at time 0: a request, and after it what the node
/// sends; in a round with a tick only the latter. The last line is `; done, 3 requests` or
/// `; failed 06070012, 1 requests`, with the number of frames that the client sent, or `; gave up`
/// if it still waits after the last round. Returns the state of the client.
///
/// A segmented download that the node permits completes: it takes one request, and one for each
/// segment of at most seven bytes, and the entry then has the bytes (`done`).
///
/// * `Write`: the writer failed. Some of the lines have been written, and perhaps a part of the
///   next one.
/// * `Memory`: memory ran out. Some of the lines have been written, never all.
///
/// The node has then taken the inputs of some rounds, and the lines of all but the last of these
/// have been written (`some`). So if the first write fails, the node has taken at most the first
/// request.
pub fn loop_back<W: Write>(
    alloc: Global,
    node: &mut Node,
    key: Key,
    bytes: &[u8],
    mode: Mode,
    writer: &mut W,
) -> Result<ClientState, CmdFault>
    requires { length bytes.now ≤ 65535 }
    ensures state { (k : Constants) (before : Inputs) → Stands k node.old before →
        IfOk result (λ state.
        state ≡ state_at (download_of k key bytes.now mode)
        (last_ends (download_of k key bytes.now mode) before)) }
    ensures text { (k : Constants) (before : Inputs) → Stands k node.old before → OnOk result
        (WritesLines (W.contents writer.old) (W.contents writer.new)
        (loop_lines (download_of k key bytes.now mode) before)) }
    ensures node { (k : Constants) (before : Inputs) → Stands k node.old before → OnOk result
        (Stands k node.new (last_ends (download_of k key bytes.now mode) before).inputs) }
    ensures write { (k : Constants) (before : Inputs) → Stands k node.old before →
        result ≡ Err CmdFault.Write → WritesFront (W.contents writer.old) (W.contents writer.new)
        (loop_lines (download_of k key bytes.now mode) before) }
    ensures memory { (k : Constants) (before : Inputs) → Stands k node.old before →
        result ≡ Err CmdFault.Memory → WritesSome (W.contents writer.old) (W.contents writer.new)
        (loop_lines (download_of k key bytes.now mode) before) }
    ensures some { (k : Constants) (before : Inputs) → Stands k node.old before → StandsAfterSome
        (download_of k key bytes.now mode) (first_ends (download_of k key bytes.now mode) before)
        node.new (W.contents writer.old) (W.contents writer.new) }
    ensures done { (k : Constants) (before : Inputs) → Stands k node.old before →
        IsPermitted k before key bytes.now mode →
        IfOk result (IsComplete k before key bytes.now mode) }
    ensures err { IfErr result (λ fault. (fault ≡ CmdFault.Write) ⊎ (fault ≡ CmdFault.Memory)) }
{
    permitted_download_completes();
    loop_download(alloc, node, key, bytes, mode, writer)
}
