//! Scripts of the inputs of a device and the frames that it sends.
//!
//! A line of a script is an input and, after ` = `, exactly the frames that are then sent; or a
//! question. Inputs are a frame, such as `605#4000100000000000`, and the event lines of a trace,
//! such as `!event 0`; of several ticks only the last may send frames. `segments 127` are the
//! segments 1 to 127 of a sub-block, all zeros, of which only the last may be answered. Questions
//! are `value 2001:00 3031`, `held 0 7`, `state Stopped`, `done`, and `refused 06020000`. A script
//! begins with `new 1000 1017=10`: a new device with an SDO timeout of 1000 ms and that default of
//! 1017h. With `+` after the time it has a SYNC counter.

use crate::bad_script::BadScript;
use crate::device::node_by;
use crate::frames::are_frames;
use crate::input_lines::give;
use crate::questions::answer;
use co_frame::Outbox;
use co_node::Node;
use std::alloc::Global;

/// The devices of a script, one for each line `new`.
pub fn devices_of(alloc: Global, script: &str) -> Result<Vec<Node>, BadScript> {
    let mut devices = Vec::new(alloc);
    for line in script.lines() {
        if let Some(words) = line.strip_prefix("new ") {
            let node = node_by(alloc, words)?;
            devices.push(node).ok().ok_or(BadScript)?;
        }
    }
    Ok(devices)
}

// Whether a device acts as a line states.
fn is_shown(node: &mut Node, line: &str, sent: &mut Outbox) -> Result<bool, BadScript> {
    if let Some(is_right) = answer(node, line)? {
        return Ok(is_right);
    }
    let (input, frames) = line.split_once(" = ").unwrap_or((line, ""));
    sent.clear();
    Ok(give(node, input, sent)? && are_frames(sent.as_slice(), frames)?)
}

/// The first line at which the devices of a script differ, or that is no line of a script; the
/// outbox has the frames sent last. It allocates no memory.
pub fn first_wrong<'a>(
    devices: &mut [Node],
    script: &'a str,
    sent: &mut Outbox,
) -> Option<&'a str> {
    let mut used: usize = 0;
    for line in script.lines() {
        if line.starts_with("new ") {
            used = used.saturating_add(1);
            continue;
        }
        let Some(node) = devices.get_mut(used.saturating_sub(1)) else {
            return Some(line);
        };
        if is_shown(node, line, sent) != Ok(true) {
            return Some(line);
        }
    }
    None
}
