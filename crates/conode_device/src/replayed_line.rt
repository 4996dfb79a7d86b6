//! The inputs of one line of a trace.

ghost use Rattle.std.specs.Prelude.{◌≡◌, ◌+◌, ◌^◌, ◌<◌, ◌≤◌, IfOk};
ghost use Rattle.conode_trace.specs.declared.trace_line.TraceLine.TheVariants.{Event};
ghost use Rattle.conode_trace.specs.Events.{HasFewBytes};
ghost use Rattle.conode_trace.specs.FrameLines.{WritesFewBytes};
ghost use Rattle.conode_trace.specs.Traces.{inputs_of, ticks_after};
ghost use Rattle.conode_device.specs.Lines.{own_inputs};
ghost use Rattle.conode_device.specs.Runs.{PrintedBy, TookOwn};

use crate::input::{apply, take, tick};
use crate::lines::print_input;
use co_frame::Outbox;
use co_node::Node;
use conode_io::CmdFault;
use conode_trace::{EventLine, TimedLine, TraceLine};
use std::io::Write;

// the clock in ms at a line's tick, after `elapsed` ticks of that line
#[inline(always)]
fn clock_after(before: u128, elapsed: u32) -> u128
    requires { before + 2 ^ 32 < 2 ^ 128 }
    ensures { result ≡ before + 1 + elapsed }
{
    before + 1 + u128::from(elapsed)
}

// replays the ticks of a line, and returns how many frames are printed
fn replay_ticks<W: Write>(
    text: &mut String,
    node: &mut Node,
    timed: &TimedLine<'_>,
    sent: &mut Outbox,
    writer: &mut W,
) -> Result<u64, CmdFault>
    requires { timed.now.before + 2 ^ 32 < 2 ^ 128 }
    ensures printed { PrintedBy node.old (W.contents writer.old) (W.contents writer.new) node.new
        (ticks_after timed.now.number timed.now.before timed.now.ticks) result }
    ensures few { IfOk result (λ printed. printed < 2 ^ 42) }
{
    let mut printed: u64 = 0;
    for elapsed in 0..timed.ticks {
        let ms = clock_after(timed.before, elapsed);
        tick(text, node, timed.number, ms, sent, writer)?;
        printed += sent.len() as u64;
    }
    Ok(printed)
}

// the device takes an event of the application, if the event line has one; returns whether it has
fn take_event(node: &mut Node, event: &EventLine<'_>, sent: &mut Outbox) -> bool
    requires { HasFewBytes event.now }
    ensures { TookOwn node.old node.new (Event event.now) sent.new.items result }
{
    match event {
        EventLine::App(applied) => {
            apply(node, applied, sent);
            true
        }
        EventLine::Ticks(_) => false,
    }
}

// the device takes a line's own input, if it has one; returns whether it has
fn take_own(node: &mut Node, said: &TraceLine<'_>, sent: &mut Outbox) -> bool
    requires { WritesFewBytes said.now }
    ensures { TookOwn node.old node.new said.now sent.new.items result }
{
    match said {
        TraceLine::Data { frame, .. } => {
            take(node, *frame, sent);
            true
        }
        TraceLine::Event(event) => take_event(node, event, sent),
        TraceLine::Skipped => false,
        TraceLine::PassedOver { .. } => false,
    }
}

// replays the own input of a line, if it has one, and returns how many frames are printed
fn replay_own<W: Write>(
    text: &mut String,
    node: &mut Node,
    timed: &TimedLine<'_>,
    sent: &mut Outbox,
    writer: &mut W,
) -> Result<u64, CmdFault>
    requires { WritesFewBytes timed.now.said }
    ensures printed { PrintedBy node.old (W.contents writer.old) (W.contents writer.new) node.new
        (own_inputs timed.now) result }
    ensures few { IfOk result (λ printed. printed ≤ 514) }
{
    let taken = take_own(node, &timed.said, sent);
    if !taken {
        return Ok(0);
    }
    print_input(
        text,
        timed.number,
        timed.ms,
        node.last_app(),
        sent.as_slice(),
        writer,
    )?;
    Ok(sent.len() as u64)
}

/// Replays the inputs of a line: the device takes each of them, and its result is printed at once.
/// Returns how many frames are printed. The caller keeps the outbox, since making one for each line
/// takes longer than the line.
pub(crate) fn replay_line<W: Write>(
    text: &mut String,
    node: &mut Node,
    timed: &TimedLine<'_>,
    sent: &mut Outbox,
    writer: &mut W,
) -> Result<u64, CmdFault>
    requires early { timed.now.before + 2 ^ 32 < 2 ^ 128 }
    requires few { WritesFewBytes timed.now.said }
    ensures printed { PrintedBy node.old (W.contents writer.old) (W.contents writer.new) node.new
        (inputs_of timed.now) result }
    ensures few { IfOk result (λ printed. printed < 2 ^ 43) }
{
    let ticked = replay_ticks(text, node, timed, sent, writer)?;
    let own = replay_own(text, node, timed, sent, writer)?;
    Ok(ticked + own)
}
