//! Node guarding: what a node answers (CiA 301, 7.2.8.3.2.1).

ghost use Rattle.std.specs.Prelude.{◌≡◌, ◌++◌, OnOk, string_bytes};
ghost use Rattle.conode_explain_services.specs.Guardings.{
  guarding_answer_words,
  after_state,
  answers_zero,
  awaited_of,
  awaited_text,
  guarding_after,
  guarding_asked,
  guarding_request_words,
  is_answer,
  is_no_state,
  is_state,
  no_state_words,
  set_toggle_text,
  state_words,
  toggle_text,
  why_none,
};

use crate::guarding::Guarding;
use crate::texts::{Row, words_in};
use conode_text::{Value, push_filled};
use std::alloc::AllocError;

fn is_state(byte: u8) -> bool
    ensures { result ≡ is_state byte }
{
    let state = byte % 128;
    state == 4 || state == 5 || state == 127
}

/// Whether the byte of a frame of error control is neither a boot-up nor a state.
pub(crate) fn is_no_state(byte: u8) -> bool
    ensures { result ≡ is_no_state byte }
{
    byte != 0 && !is_state(byte)
}

/// The states, by the lower seven bits of the byte.
const STATES: [Row; 3] = [
    Row(4, "stopped"),
    Row(5, "operational"),
    Row(127, "pre-operational"),
];

#[tactic(auto, unfolding(crate::specs::Guardings::state_words))]
fn state_words(byte: u8) -> &'static str
    ensures { result.now ≡ state_words byte }
{
    words_in(&STATES, (byte % 128) as u16)
}

fn awaited_of(guarding: Guarding) -> Option<bool>
    ensures { result ≡ awaited_of guarding }
{
    match guarding {
        Guarding::NotSeen => None,
        Guarding::BootedUp => Some(false),
        Guarding::Requested(awaited) => awaited,
        Guarding::Answered(awaited) => Some(awaited),
    }
}

fn answers_zero(guarding: Guarding) -> bool
    ensures { result ≡ answers_zero guarding }
{
    match guarding {
        Guarding::NotSeen | Guarding::BootedUp => false,
        Guarding::Requested(_) => true,
        Guarding::Answered(awaited) => !awaited,
    }
}

/// Whether the byte of a frame of error control is an answer to a guarding request.
pub(crate) fn is_answer(guarding: Guarding, byte: u8) -> bool
    ensures { result ≡ is_answer guarding byte }
{
    is_state(byte) && (byte > 127 || answers_zero(guarding))
}

fn after_state(guarding: Guarding, byte: u8) -> Guarding
    ensures { result ≡ after_state guarding byte }
{
    if is_answer(guarding, byte) {
        Guarding::Answered(byte <= 127)
    } else {
        Guarding::NotSeen
    }
}

/// The guarding after a byte of error control.
pub(crate) fn guarding_after(guarding: Guarding, byte: u8) -> Guarding
    ensures { result ≡ guarding_after guarding byte }
{
    if byte == 0 {
        Guarding::BootedUp
    } else if is_state(byte) {
        after_state(guarding, byte)
    } else {
        guarding
    }
}

/// The guarding after a request.
pub(crate) fn guarding_asked(guarding: Guarding) -> Guarding
    ensures { result ≡ guarding_asked guarding }
{
    Guarding::Requested(awaited_of(guarding))
}

fn toggle_text(toggle: bool) -> &'static str
    ensures { result.now ≡ toggle_text toggle }
{
    if toggle { "1" } else { "0" }
}

fn awaited_text(awaited: Option<bool>, toggle: bool) -> &'static str
    ensures { result.now ≡ awaited_text awaited toggle }
{
    match awaited {
        None => "",
        Some(true) => if toggle { "" } else { " (1 is awaited)" },
        Some(false) => if toggle { " (0 is awaited)" } else { "" },
    }
}

/// Appends a node's answer: its state, its toggle bit, and the expected toggle bit if that differs.
/// On an `Err` memory ran out, and a part of it may be there.
#[tactic(auto, unfolding(crate::specs::Guardings::guarding_answer_words))]
pub(crate) fn push_answer(
    text: &mut String,
    node: u8,
    guarding: Guarding,
    byte: u8,
) -> Result<(), AllocError>
    ensures { OnOk result
        (string_bytes text.new ≡ string_bytes text.old ++ guarding_answer_words node guarding byte) }
{
    let toggle = byte > 127;
    push_filled(
        text,
        "guarding answer node % % toggle %%",
        &[
            Value::Number(node as u64),
            Value::Words(state_words(byte)),
            Value::Words(toggle_text(toggle)),
            Value::Words(awaited_text(awaited_of(guarding), toggle)),
        ],
    )
}

fn set_toggle_text(toggle: bool) -> &'static str
    ensures { result.now ≡ set_toggle_text toggle }
{
    if toggle { " toggle 1" } else { "" }
}

// why a byte is neither a boot-up nor a state
fn why_none(byte: u8) -> &'static str
    ensures { result.now ≡ why_none byte }
{
    if byte == 128 {
        "a boot-up has no toggle bit, a guarding answer no state 0"
    } else {
        "CiA 301 has no such state"
    }
}

/// Appends the number in a frame of error control that no state has, its toggle bit, if that is set, and
/// why it is none: `error control node 5 state 3 (CiA 301 has no such state)`. On an `Err` memory ran out,
/// and a part of it may be there.
#[tactic(auto, unfolding(crate::specs::Guardings::no_state_words))]
pub(crate) fn push_no_state(text: &mut String, node: u8, byte: u8) -> Result<(), AllocError>
    ensures { OnOk result
        (string_bytes text.new ≡ string_bytes text.old ++ no_state_words node byte) }
{
    push_filled(
        text,
        "error control node % state %% (%)",
        &[
            Value::Number(node as u64),
            Value::Number((byte % 128) as u64),
            Value::Words(set_toggle_text(byte > 127)),
            Value::Words(why_none(byte)),
        ],
    )
}

/// Appends a master's request to a node. On an `Err` memory ran out, and a part of it may be there.
#[tactic(auto, unfolding(crate::specs::Guardings::guarding_request_words))]
pub(crate) fn push_request(text: &mut String, node: u8) -> Result<(), AllocError>
    ensures { OnOk result
        (string_bytes text.new ≡ string_bytes text.old ++ guarding_request_words node) }
{
    push_filled(
        text,
        "guarding request node %",
        &[Value::Number(node as u64)],
    )
}
