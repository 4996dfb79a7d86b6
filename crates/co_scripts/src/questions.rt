//! Questions about a device.

use crate::bad_script::BadScript;
use co_frame::AbortCode;
use co_node::{AppAnswer, Node, NodeState};
use co_text::HexPairs;
use co_value::Key;

// Whether an entry has the bytes of a text such as `2001:00 3031`.
fn has_value(node: &Node, words: &str) -> Result<bool, BadScript> {
    let (key, bytes) = words.split_once(' ').ok_or(BadScript)?;
    let key = Key::parse(key.as_bytes()).ok_or(BadScript)?;
    let bytes = HexPairs::read(bytes.as_bytes()).ok_or(BadScript)?;
    if bytes.len() > 256 {
        return Err(BadScript);
    }
    Ok(match node.value(key) {
        Some(value) => value == bytes.bytes().as_slice(),
        None => false,
    })
}

// Whether a channel holds a number of bytes: `0 7`.
fn holds(node: &Node, words: &str) -> Result<bool, BadScript> {
    let (channel, held) = words.split_once(' ').ok_or(BadScript)?;
    let channel = channel.parse().ok().ok_or(BadScript)?;
    let held: usize = held.parse().ok().ok_or(BadScript)?;
    Ok(node.held(channel) == held)
}

fn state_of(word: &str) -> Result<NodeState, BadScript> {
    match word.as_bytes() {
        b"PreOperational" => Ok(NodeState::PreOperational),
        b"Operational" => Ok(NodeState::Operational),
        b"Stopped" => Ok(NodeState::Stopped),
        _ => Err(BadScript),
    }
}

// Whether the last application event was refused with this code.
fn is_refused(node: &Node, code: &str) -> Result<bool, BadScript> {
    let code = u32::from_str_radix(code, 16).ok().ok_or(BadScript)?;
    Ok(node.last_app() == AppAnswer::Refused(AbortCode(code)))
}

/// Whether the answer to a question is yes; `None` if a line is no question.
pub(crate) fn answer(node: &Node, line: &str) -> Result<Option<bool>, BadScript> {
    let (question, words) = line.split_once(' ').unwrap_or((line, ""));
    Ok(Some(match question.as_bytes() {
        b"value" => has_value(node, words)?,
        b"held" => holds(node, words)?,
        b"state" => node.state() == state_of(words)?,
        b"done" => node.last_app() == AppAnswer::Done,
        b"refused" => is_refused(node, words)?,
        _ => return Ok(None),
    }))
}
