//! Printing frames, and passing them to the client.

ghost use Rattle.std.specs.Prelude.{◌≡◌, ◌++◌, ◌∷◌, List, OnOk, IfErr};
ghost use Rattle.co_sdo_client.specs.Calls.{Call, Event, Ticked, frames_on};
ghost use Rattle.co_sdo_client.specs.Outcomes.{asked_by};
ghost use Rattle.co_sdo_client.specs.Standing.{ClientStands};
ghost use Rattle.conode_io.specs.Written.{WritesFront, WritesLines};
ghost use Rattle.conode_device.specs.Printed.{frame_lines};
ghost use Rattle.co_node_model.specs.Loop.{asked_after, events_after};

use co_frame::{Frame, Outbox};
use co_sdo_client::Client;
use conode_io::{CmdFault, hand_over};
use conode_trace::frame_line;
use std::alloc::AllocError;
use std::io::Write;

/// Writes the line of each frame, at time 0. `Write` if the writer fails.
pub(crate) fn write_frames<W: Write>(frames: &[Frame], writer: &mut W) -> Result<(), CmdFault>
    ensures ok { OnOk result
        (WritesLines (W.contents writer.old) (W.contents writer.new) (frame_lines frames.now)) }
    ensures fault { IfErr result (λ fault. fault ≡ CmdFault.Write) }
    ensures front { IfErr result (λ _.
        WritesFront (W.contents writer.old) (W.contents writer.new) (frame_lines frames.now)) }
{
    for frame in frames {
        let line = frame_line(0, frame);
        hand_over(line.as_slice(), writer)?;
    }
    Ok(())
}

/// Passes frames of the node to the client, and queues what the client then sends. `Err`: out of
/// memory.
pub(crate) fn take_frames(
    client: &mut Client<'_>,
    frames: &[Frame],
    waiting: &mut Vec<Frame>,
) -> Result<(), AllocError>
    ensures stands { (call : Call) (events : List Event) → ClientStands call events client.old →
        OnOk result
        (ClientStands call (events_after client.old.answer events frames.now) client.new) }
    ensures asked { (call : Call) (events : List Event) → ClientStands call events client.old →
        OnOk result (waiting.new.items ≡ waiting.old.items ++ asked_after client.old.request
        client.old.answer call events frames.now) }
    ensures request { client.new.request ≡ client.old.request }
    ensures answer { client.new.answer ≡ client.old.answer }
{
    let mut asked = Outbox::new();
    for frame in frames {
        asked.clear();
        client.take(frame, &mut asked);
        waiting.extend_from_slice(&asked)?;
    }
    Ok(())
}

/// Passes a tick of 1 ms to the client, and queues what the client then sends. `Err`: out of
/// memory.
pub(crate) fn take_tick(client: &mut Client<'_>, waiting: &mut Vec<Frame>) -> Result<(), AllocError>
    ensures stands { (call : Call) (events : List Event) → ClientStands call events client.old →
        OnOk result (ClientStands call (Ticked ∷ events) client.new) }
    ensures asked { (call : Call) (events : List Event) → ClientStands call events client.old →
        OnOk result (waiting.new.items ≡ waiting.old.items
        ++ frames_on client.old.request (asked_by call events Ticked)) }
    ensures request { client.new.request ≡ client.old.request }
    ensures answer { client.new.answer ≡ client.old.answer }
{
    let mut asked = Outbox::new();
    client.tick(&mut asked);
    waiting.extend_from_slice(&asked)
}
