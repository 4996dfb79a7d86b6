//! The rounds of a client and a node.

ghost use Rattle.std.specs.Prelude.{◌≡◌, ◌⊎◌, ◌<◌, [], length, IfErr};
ghost use Rattle.co_sdo_client.specs.Calls as client;
ghost use Rattle.co_sdo_client.specs.Standing.{ClientStands};
ghost use Rattle.co_node_model.specs.Loop.{Loop, BothEnds, goes_on};
ghost use Rattle.conode_device.specs.Standing.{EndsStand, RoundMade, RoundsMade};

use crate::frames::{take_frames, take_tick, write_frames};
use co_frame::{Frame, Outbox};
use co_node::{Node, most_rounds};
use co_sdo_client::{Client, ClientState};
use conode_io::CmdFault;
use std::io::Write;

// Whether another round follows: the client waits for an answer, or one of its requests is queued.
fn goes_on(client: &Client<'_>, waiting: &[Frame]) -> bool
    ensures { (l : Loop) (e : BothEnds) → ClientStands l.call e.events client.now →
        waiting.now ≡ e.waiting → result ≡ goes_on l e }
{
    match client.state() {
        ClientState::Waiting => true,
        _ => !waiting.is_empty(),
    }
}

// A round without a queued request: both take a tick.
fn tick<W: Write>(
    node: &mut Node,
    client: &mut Client<'_>,
    waiting: &mut Vec<Frame>,
    writer: &mut W,
) -> Result<(), CmdFault>
    requires { waiting.old.items ≡ [] }
    ensures made { (l : Loop) (e : BothEnds) → EndsStand l e node.old client.old waiting.old.items →
        RoundMade l e node.new client.new waiting.new.items
        (W.contents writer.old) (W.contents writer.new) result }
    ensures err { IfErr result (λ fault. (fault ≡ CmdFault.Write) ⊎ (fault ≡ CmdFault.Memory)) }
{
    let mut sent = Outbox::new();
    node.tick(&mut sent);
    write_frames(&sent, writer)?;
    take_tick(client, waiting)?;
    take_frames(client, &sent, waiting)?;
    Ok(())
}

// A round with a queued request: the node takes the oldest.
fn exchange<W: Write>(
    node: &mut Node,
    client: &mut Client<'_>,
    waiting: &mut Vec<Frame>,
    writer: &mut W,
) -> Result<(), CmdFault>
    requires { 0 < length waiting.old.items }
    ensures made { (l : Loop) (e : BothEnds) → EndsStand l e node.old client.old waiting.old.items →
        RoundMade l e node.new client.new waiting.new.items
        (W.contents writer.old) (W.contents writer.new) result }
    ensures err { IfErr result (λ fault. (fault ≡ CmdFault.Write) ⊎ (fault ≡ CmdFault.Memory)) }
{
    let request = waiting.remove(0);
    let mut sent = Outbox::new();
    node.take_frame(&request, &mut sent);
    write_frames(&[request], writer)?;
    write_frames(&sent, writer)?;
    take_frames(client, &sent, waiting)?;
    Ok(())
}

// One round.
fn round<W: Write>(
    node: &mut Node,
    client: &mut Client<'_>,
    waiting: &mut Vec<Frame>,
    writer: &mut W,
) -> Result<(), CmdFault>
    ensures made { (l : Loop) (e : BothEnds) → EndsStand l e node.old client.old waiting.old.items →
        RoundMade l e node.new client.new waiting.new.items
        (W.contents writer.old) (W.contents writer.new) result }
    ensures err { IfErr result (λ fault. (fault ≡ CmdFault.Write) ⊎ (fault ≡ CmdFault.Memory)) }
{
    if waiting.is_empty() {
        tick(node, client, waiting, writer)
    } else {
        exchange(node, client, waiting, writer)
    }
}

/// All rounds.
pub(crate) fn all_rounds<W: Write>(
    node: &mut Node,
    client: &mut Client<'_>,
    waiting: &mut Vec<Frame>,
    writer: &mut W,
) -> Result<(), CmdFault>
    ensures made { (l : Loop) (e : BothEnds) → EndsStand l e node.old client.old waiting.old.items →
        RoundsMade l e node.new client.new waiting.new.items
        (W.contents writer.old) (W.contents writer.new) result }
    ensures err { IfErr result (λ fault. (fault ≡ CmdFault.Write) ⊎ (fault ≡ CmdFault.Memory)) }
{
    let mut done = 0;
    let most = most_rounds();
    while done < most {
        if !goes_on(client, waiting) {
            return Ok(());
        }
        round(node, client, waiting, writer)?;
        done += 1;
    }
    Ok(())
}
