//! A device from a table, and single inputs of it.

use crate::bad_script::BadScript;
use crate::sheet::{COUNTER, MANUFACTURER, PDOS, PROFILE, sheet_of};
use co_dict_build::Limits;
use co_frame::{Frame, Outbox};
use co_node::{AppEvent, Config, Input, Node};
use co_sheet::read;
use co_value::Key;
use std::alloc::{AllocError, Global};
use std::string::String;

/// The device of a sheet at node-ID 5, with room for strings of 16 bytes and domains of 889; `time`
/// is the SDO timeout in ms.
pub fn node_of(alloc: Global, text: &str, time: u16) -> Result<Node, BadScript> {
    let sheet = read(alloc, text.as_bytes()).ok().ok_or(BadScript)?;
    let config = Config {
        limits: Limits {
            strings: 16,
            domains: 889,
            own: &[],
        },
        time,
    };
    Node::build(alloc, &sheet, 5, &config).ok().ok_or(BadScript)
}

/// The sheet of most scripts, by the words of a line `new`.
pub fn sheet_by(alloc: Global, words: &str) -> Result<String, AllocError> {
    if words.contains('+') {
        sheet_of(alloc, &[PROFILE, PDOS, COUNTER], &[MANUFACTURER], words)
    } else {
        sheet_of(alloc, &[PROFILE, PDOS], &[MANUFACTURER], words)
    }
}

/// The device of a line `new`.
pub(crate) fn node_by(alloc: Global, words: &str) -> Result<Node, BadScript> {
    let time = words.split_whitespace().next().ok_or(BadScript)?;
    let time = time.parse().ok().ok_or(BadScript)?;
    let text = sheet_by(alloc, words).ok().ok_or(BadScript)?;
    node_of(alloc, text.as_str(), time)
}

// Replaces `sent` by the frames of an input: a frame, else an application event, else a tick.
fn step(node: &mut Node, frame: Option<Frame>, event: Option<AppEvent<&[u8]>>, sent: &mut Outbox) {
    match (frame, event) {
        (Some(frame), _) => node.step(Input::Frame(frame), sent),
        (None, Some(event)) => node.step(Input::App(event), sent),
        (None, None) => node.step(Input::Tick, sent),
    }
}

/// Replaces `sent` by the frames that a received frame causes.
pub(crate) fn take(node: &mut Node, frame: Frame, sent: &mut Outbox) {
    step(node, Some(frame), None, sent);
}

/// The same for a tick.
pub(crate) fn elapse(node: &mut Node, sent: &mut Outbox) {
    step(node, None, None, sent);
}

/// The same for an application event.
pub(crate) fn apply(node: &mut Node, event: AppEvent<&[u8]>, sent: &mut Outbox) {
    step(node, None, Some(event), sent);
}

/// The same for a write by the application.
pub fn write(node: &mut Node, key: Key, bytes: &[u8], sent: &mut Outbox) {
    step(node, None, Some(AppEvent::Write(key, bytes)), sent);
}
