//! The inputs of a line of a script.

ghost use Rattle.conode_trace.specs.declared.event_line.EventLine.TheVariants.{App};
ghost use Rattle.conode_trace.specs.Events.{HasFewBytes};

use crate::bad_script::BadScript;
use crate::device::{apply, elapse, take};
use crate::frames::frame_of;
use co_frame::{Frame, Outbox};
use co_node::{AppEvent, Node};
use co_text::HexPairs;
use conode_trace::{EventLine, TraceLine, written_bytes};

// An event of the application.
fn apply_line(node: &mut Node, event: &AppEvent<HexPairs<'_>>, sent: &mut Outbox)
    requires { HasFewBytes (App event.now) }
{
    let bytes = written_bytes(event);
    apply(node, event.with_bytes(bytes.as_slice()), sent);
}

// `count` ticks; false if one before the last sends frames.
fn tick(node: &mut Node, count: u32, sent: &mut Outbox) -> bool {
    for left in (0..count).rev() {
        elapse(node, sent);
        if left > 0 && !sent.is_empty() {
            return false;
        }
    }
    true
}

// The segments of a sub-block up to number `last`; false if one before it is answered.
fn send_segments(node: &mut Node, last: u8, sent: &mut Outbox) -> Result<bool, BadScript> {
    for sequence in 1..=last {
        let data = [sequence, 0, 0, 0, 0, 0, 0, 0];
        let frame = Frame::new(0x605, &data).ok().ok_or(BadScript)?;
        take(node, frame, sent);
        if sequence < last && !sent.is_empty() {
            return Ok(false);
        }
    }
    Ok(true)
}

/// Hands the inputs of a line to a device. False if one before the last sends frames.
pub(crate) fn give(node: &mut Node, line: &str, sent: &mut Outbox) -> Result<bool, BadScript> {
    if let Some(last) = line.strip_prefix("segments ") {
        let last = last.parse().ok().ok_or(BadScript)?;
        return send_segments(node, last, sent);
    }
    if line.starts_with('!') {
        return match &TraceLine::read(line.as_bytes()) {
            Some(TraceLine::Event(EventLine::Ticks(count))) => Ok(tick(node, *count, sent)),
            Some(TraceLine::Event(EventLine::App(event))) => {
                apply_line(node, event, sent);
                Ok(true)
            }
            _ => Err(BadScript),
        };
    }
    take(node, frame_of(line)?, sent);
    Ok(true)
}
