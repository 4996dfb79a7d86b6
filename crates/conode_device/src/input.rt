//! One input of a trace: the device takes it, and the result is printed.

ghost use Rattle.std.specs.Prelude.{◌≡◌, ◌∷◌};
ghost use Rattle.co_node_model.specs.Inputs.{Inputs, Framed, Ticked, Applied, event_view};
ghost use Rattle.co_node_model.specs.Moments.{Constants};
ghost use Rattle.co_node_model.specs.Device.{prescribed};
ghost use Rattle.co_node.specs.Nodes.{Stands};
ghost use Rattle.conode_trace.specs.declared.event_line.EventLine.TheVariants.{App};
ghost use Rattle.conode_trace.specs.Events.{HasFewBytes};
ghost use Rattle.conode_trace.specs.Traces.{tick};
ghost use Rattle.conode_device.specs.Lines.{input_lines};
ghost use Rattle.conode_device.specs.Runs.{WrittenAfter};

use crate::lines::print_input;
use co_frame::{Frame, Outbox};
use co_node::{AppEvent, Node};
use co_text::HexPairs;
use conode_io::CmdFault;
use conode_trace::written_bytes;
use std::io::Write;

/// The device takes a frame. The outbox then holds the frames that it sends, and no others.
#[inline(always)]
pub(crate) fn take(node: &mut Node, frame: Frame, sent: &mut Outbox)
    ensures frames { (k : Constants) (before : Inputs) → Stands k node.old before →
        sent.new.items ≡ prescribed k before (Framed frame) }
    ensures stands { (k : Constants) (before : Inputs) → Stands k node.old before →
        Stands k node.new (Framed frame ∷ before) }
{
    node.take_frame(&frame, sent);
}

/// The device takes an event of the application. The outbox then holds the frames that it sends,
/// and no others.
pub(crate) fn apply(node: &mut Node, event: &AppEvent<HexPairs<'_>>, sent: &mut Outbox)
    requires { HasFewBytes (App event.now) }
    ensures frames { (k : Constants) (before : Inputs) → Stands k node.old before →
        sent.new.items ≡ prescribed k before (Applied (event_view event.now)) }
    ensures stands { (k : Constants) (before : Inputs) → Stands k node.old before →
        Stands k node.new (Applied (event_view event.now) ∷ before) }
{
    let bytes = written_bytes(event);
    node.take_event(event.with_bytes(bytes.as_slice()), sent);
}

/// The device takes a tick of a line, at a time in ms, and what it sends is printed.
#[inline]
pub(crate) fn tick<W: Write>(
    text: &mut String,
    node: &mut Node,
    number: usize,
    ms: u128,
    sent: &mut Outbox,
    writer: &mut W,
) -> Result<(), CmdFault>
    ensures frames { (k : Constants) (before : Inputs) → Stands k node.old before →
        sent.new.items ≡ prescribed k before Ticked }
    ensures stands { (k : Constants) (before : Inputs) → Stands k node.old before →
        Stands k node.new (Ticked ∷ before) }
    ensures written { WrittenAfter node.old (W.contents writer.old) (W.contents writer.new)
        (λ k before. input_lines k before (record { line = number; ms = ms; input = tick }))
        result }
{
    node.tick(sent);
    print_input(text, number, ms, node.last_app(), sent.as_slice(), writer)
}
