//! What a frame says by its service.

ghost use Rattle.std.specs.Prelude.{◌≡◌, ◌++◌, ◌<◌, [], OnOk, IfOk, is_some, string_bytes, unwrap_or};
ghost use Rattle.conode_explain_services.specs.Services.{
  is_guarding,
  is_lss,
  is_odd_counter,
  is_odd_sync,
  is_stateless,
  is_time,
  remote_words,
  service_words,
  state_words,
};

use crate::emergencies::push_emergency;
use crate::guardings::{is_answer, is_no_state, push_answer, push_no_state, push_request};
use crate::last::Last;
use crate::lengths::{has_odd_length, push_length};
use crate::lss::{push_lss_answer, push_lss_request};
use crate::nmt_states::{found_words, is_command, is_long_command, push_long, push_shown};
use crate::nodes::{is_emergency, is_error_control, is_error_control_id};
use crate::reserved::{LSS_ANSWER, LSS_REQUEST, is_reserved, reserved_words};
use crate::times::push_time;
use co_frame::{Emergency, Frame};
use std::alloc::AllocError;

fn is_lss(id: u16, frame: &Frame) -> bool
    ensures { result ≡ is_lss id frame.now }
{
    frame.id() == id && frame.bytes().len() == 8
}

fn is_time(frame: &Frame) -> bool
    ensures { result ≡ is_time frame.now }
{
    frame.id() == 0x100 && frame.bytes().len() == 6
}

fn is_guarding(last: Last, frame: &Frame) -> bool
    ensures { result ≡ is_guarding last frame.now }
{
    is_error_control(frame) && is_answer(last.guarding, frame.bytes()[0])
}

fn is_stateless(frame: &Frame) -> bool
    ensures { result ≡ is_stateless frame.now }
{
    is_error_control(frame) && is_no_state(frame.bytes()[0])
}

// whether a data frame says something by its service
#[tactic(auto, unfolding(crate::specs::Services::service_words))]
fn is_said(drive: bool, last: Last, frame: &Frame) -> bool
    ensures { result ≡ is_some (service_words drive last frame.now) }
{
    is_emergency(frame)
        || is_guarding(last, frame)
        || is_time(frame)
        || is_lss(LSS_REQUEST, frame)
        || is_lss(LSS_ANSWER, frame)
        || is_reserved(frame.id())
        || is_stateless(frame)
        || is_long_command(frame)
        || has_odd_length(frame)
}

// appends it
#[tactic(auto, unfolding(crate::specs::Services::service_words))]
fn push_said(text: &mut String, drive: bool, last: Last, frame: &Frame) -> Result<(), AllocError>
    ensures { OnOk result (string_bytes text.new
        ≡ string_bytes text.old ++ unwrap_or (service_words drive last frame.now) []) }
{
    let bytes = frame.bytes();
    if is_emergency(frame) {
        let Some(emergency) = Emergency::read(frame) else {
            unreachable!()
        };
        let node = (frame.id() - 0x080) as u8;
        return push_emergency(text, drive, node, last.register, &emergency);
    }
    if is_guarding(last, frame) {
        attempt!(push_answer(text, (frame.id() - 0x700) as u8, last.guarding, bytes[0]));
        return push_shown(text, last.state, bytes[0]);
    }
    if is_time(frame) {
        return push_time(text, bytes);
    }
    if is_lss(LSS_REQUEST, frame) {
        return push_lss_request(text, bytes);
    }
    if is_lss(LSS_ANSWER, frame) {
        return push_lss_answer(text, bytes);
    }
    if is_reserved(frame.id()) {
        return text.push_str(reserved_words());
    }
    if is_stateless(frame) {
        return push_no_state(text, (frame.id() - 0x700) as u8, bytes[0]);
    }
    if is_long_command(frame) {
        return push_long(text, bytes[0], bytes[1], bytes.len());
    }
    push_length(text, frame)
}

/// Appends what a data frame says by its service; `drive` is whether its node is a drive, `last`
/// what the last frames of its node had. Returns whether it appended anything: if not, the text of
/// `conode decode` stands. On an `Err` memory ran out, and a part of it may be there.
pub fn push_service(
    text: &mut String,
    drive: bool,
    last: Last,
    frame: &Frame,
) -> Result<bool, AllocError>
    ensures said { IfOk result (λ said. said ≡ is_some (service_words drive last frame.now)) }
    ensures words { OnOk result (string_bytes text.new
        ≡ string_bytes text.old ++ unwrap_or (service_words drive last frame.now) []) }
{
    if !is_said(drive, last, frame) {
        return Ok(false);
    }
    attempt!(push_said(text, drive, last, frame));
    Ok(true)
}

fn is_odd_counter(counter: u8) -> bool
    ensures { result ≡ is_odd_counter counter }
{
    counter == 0 || counter > 240
}

fn is_odd_sync(frame: &Frame) -> bool
    ensures { result ≡ is_odd_sync frame.now }
{
    frame.id() == 0x080 && (frame.bytes().len() == 1 && is_odd_counter(frame.bytes()[0]))
}

/// Appends what the NMT state of its node is, after the text of a data frame: of a command for one
/// node the state in which it finds the node, ` (pre-operational seen)`; of error control the state
/// that was commanded, where it shows another one; of SYNC that its counter isn't 1 to 240; nothing of
/// every other frame. On an `Err` memory ran out, and a part of it may be there.
#[tactic(auto, unfolding(crate::specs::Services::state_words))]
pub fn push_state(text: &mut String, last: Last, frame: &Frame) -> Result<(), AllocError>
    ensures { OnOk result
        (string_bytes text.new ≡ string_bytes text.old ++ state_words last frame.now) }
{
    let bytes = frame.bytes();
    if is_command(frame) {
        if bytes[1] == 0 {
            return Ok(());
        }
        return text.push_str(found_words(last.state));
    }
    if is_error_control(frame) {
        return push_shown(text, last.state, bytes[0]);
    }
    if is_odd_sync(frame) {
        return text.push_str(" (a counter is 1 to 240)");
    }
    Ok(())
}

/// Appends what a remote frame with this identifier, at most 7FFh, says. On an `Err` memory ran
/// out, and a part of it may be there.
#[tactic(auto, unfolding(crate::specs::Services::remote_words))]
pub fn push_remote(text: &mut String, id: u16) -> Result<(), AllocError>
    requires { id < 2048 }
    ensures { OnOk result (string_bytes text.new ≡ string_bytes text.old ++ remote_words id) }
{
    if is_error_control_id(id) {
        return push_request(text, (id - 0x700) as u8);
    }
    text.push_str("remote frame")
}
