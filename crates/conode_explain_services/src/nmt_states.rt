//! The NMT states of nodes, as a recording shows them: by frames of error control, and by commands.

ghost use Rattle.std.specs.Prelude.{◌≡◌, ◌++◌, OnOk, string_bytes};
ghost use Rattle.conode_explain_services.specs.NmtStates.{
  command_name,
  commanded_words,
  found_words,
  is_command,
  is_long_command,
  is_service,
  long_for_all,
  long_for_one,
  long_words,
  of_all,
  other_words,
  same_state,
  seen_or,
  shown_words,
  state_after,
  state_at,
  state_commanded,
};

use crate::nmt_state::{KnownState, NmtState};
use crate::texts::{Row, words_in};
use co_frame::Frame;
use conode_text::{Value, push_filled};
use std::alloc::AllocError;

#[tactic(auto, unfolding(crate::specs::NmtStates::state_at))]
fn state_at(byte: u8) -> Option<NmtState>
    ensures { result ≡ state_at byte }
{
    if byte == 0 {
        return Some(NmtState::PreOperational);
    }
    match byte % 128 {
        4 => Some(NmtState::Stopped),
        5 => Some(NmtState::Operational),
        127 => Some(NmtState::PreOperational),
        _ => None,
    }
}

/// What is known after a byte of error control.
pub(crate) fn state_after(known: KnownState, byte: u8) -> KnownState
    ensures { result ≡ state_after known byte }
{
    match state_at(byte) {
        Some(state) => KnownState::Seen(state),
        None => known,
    }
}

fn is_service(command: u8) -> bool
    ensures { result ≡ is_service command }
{
    command == 1 || command == 2 || (127 < command && command < 131)
}

/// Whether a frame is an NMT command, for one node or for all.
pub(crate) fn is_command(frame: &Frame) -> bool
    ensures { result ≡ is_command frame.now }
{
    let bytes = frame.bytes();
    frame.id() == 0 && bytes.len() == 2 && is_service(bytes[0]) && bytes[1] < 128
}

/// Whether a frame is an NMT command in more than two bytes, which some devices take and others don't.
pub(crate) fn is_long_command(frame: &Frame) -> bool
    ensures { result ≡ is_long_command frame.now }
{
    let bytes = frame.bytes();
    frame.id() == 0 && bytes.len() > 2 && is_service(bytes[0]) && bytes[1] < 128
}

/// The command after which as little is known as after one of more than two bytes.
pub(crate) const DOUBTFUL: u8 = 129;

/// What is known of a node after a command that is for it.
#[tactic(auto, unfolding(crate::specs::NmtStates::state_commanded))]
pub(crate) fn state_commanded(known: KnownState, command: u8) -> KnownState
    ensures { result ≡ state_commanded known command }
{
    match command {
        1 => KnownState::Commanded(NmtState::Operational),
        2 => KnownState::Commanded(NmtState::Stopped),
        128 => KnownState::Commanded(NmtState::PreOperational),
        129 | 130 => KnownState::Unknown,
        _ => known,
    }
}

/// What is known of a node of which nothing is kept, by what was commanded of all nodes.
pub(crate) fn of_all(known: KnownState) -> KnownState
    ensures { result ≡ of_all known }
{
    match known {
        KnownState::Commanded(state) => KnownState::CommandedOfAll(state),
        _ => known,
    }
}

fn commanded_words(state: NmtState) -> &'static str
    ensures { result.now ≡ commanded_words state }
{
    match state {
        NmtState::Stopped => " (stopped commanded)",
        NmtState::Operational => " (operational commanded)",
        NmtState::PreOperational => " (pre-operational commanded)",
    }
}

/// The state in which a command finds its node: ` (pre-operational seen)`.
#[tactic(auto, unfolding(crate::specs::NmtStates::found_words))]
pub(crate) fn found_words(known: KnownState) -> &'static str
    ensures { result.now ≡ found_words known }
{
    match known {
        KnownState::Unknown => " (state ?)",
        KnownState::Seen(NmtState::Stopped) => " (stopped seen)",
        KnownState::Seen(NmtState::Operational) => " (operational seen)",
        KnownState::Seen(NmtState::PreOperational) => " (pre-operational seen)",
        KnownState::Commanded(state) | KnownState::CommandedOfAll(state) => commanded_words(state),
    }
}

fn same_state(one: NmtState, other: NmtState) -> bool
    ensures { result ≡ same_state one other }
{
    match (one, other) {
        (NmtState::Stopped, NmtState::Stopped)
        | (NmtState::Operational, NmtState::Operational)
        | (NmtState::PreOperational, NmtState::PreOperational) => true,
        _ => false,
    }
}

// the same, where a byte of error control shows another state than the commanded one
fn other_words(commanded: NmtState, byte: u8) -> &'static str
    ensures { result.now ≡ other_words commanded byte }
{
    match state_at(byte) {
        Some(shown) if !same_state(commanded, shown) => commanded_words(commanded),
        _ => "",
    }
}

/// Appends the state that was commanded, where a byte of error control shows another one: `
/// (operational commanded)`; nothing of a node's first boot-up, after a command to all nodes. On an
/// `Err` memory ran out, and a part of it may be there.
#[tactic(auto, unfolding(crate::specs::NmtStates::shown_words))]
pub(crate) fn push_shown(text: &mut String, known: KnownState, byte: u8) -> Result<(), AllocError>
    ensures { OnOk result (string_bytes text.new ≡ string_bytes text.old ++ shown_words known byte) }
{
    match known {
        KnownState::Commanded(state) => text.push_str(other_words(state, byte)),
        KnownState::CommandedOfAll(state) if byte != 0 => text.push_str(other_words(state, byte)),
        _ => Ok(()),
    }
}

/// The commands, by their numbers.
const COMMANDS: [Row; 5] = [
    Row(1, "start"),
    Row(2, "stop"),
    Row(128, "pre-operational"),
    Row(129, "reset-node"),
    Row(130, "reset-communication"),
];

#[tactic(auto, unfolding(crate::specs::NmtStates::command_name))]
fn command_name(command: u8) -> &'static str
    ensures { result.now ≡ command_name command }
{
    words_in(&COMMANDS, command as u16)
}

#[tactic(auto, unfolding(crate::specs::NmtStates::long_for_all))]
fn push_long_for_all(text: &mut String, command: u8, count: usize) -> Result<(), AllocError>
    ensures { OnOk result
        (string_bytes text.new ≡ string_bytes text.old ++ long_for_all command count) }
{
    push_filled(
        text,
        "NMT % all nodes (length % in place of 2)",
        &[
            Value::Words(command_name(command)),
            Value::Number(count as u64),
        ],
    )
}

#[tactic(auto, unfolding(crate::specs::NmtStates::long_for_one))]
fn push_long_for_one(
    text: &mut String,
    command: u8,
    node: u8,
    count: usize,
) -> Result<(), AllocError>
    ensures { OnOk result
        (string_bytes text.new ≡ string_bytes text.old ++ long_for_one command node count) }
{
    push_filled(
        text,
        "NMT % % (length % in place of 2)",
        &[
            Value::Words(command_name(command)),
            Value::Number(node as u64),
            Value::Number(count as u64),
        ],
    )
}

/// Appends an NMT command in so many bytes, more than two: `NMT start 5 (length 8 in place of 2)`. On
/// an `Err` memory ran out, and a part of it may be there.
pub(crate) fn push_long(
    text: &mut String,
    command: u8,
    node: u8,
    count: usize,
) -> Result<(), AllocError>
    ensures { OnOk result
        (string_bytes text.new ≡ string_bytes text.old ++ long_words command node count) }
{
    if node == 0 {
        return push_long_for_all(text, command, count);
    }
    push_long_for_one(text, command, node, count)
}
