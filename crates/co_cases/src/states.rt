//! A channel in each of its states: its answers to every value of a frame's first two bytes.

use crate::channel::{Device, device_of, shows};
use co_frame::{Frame, Outbox};
use co_scripts::{Outcome, STATES, State};
use co_value::Key;
use std::process::Abort;
use std::test::Fail;

const STRING: Key = Key {
    index: 0x2001,
    sub: 0,
};

// Whether the frames sent, the key that was set, the bytes held and the entries are those of an
// outcome.
fn is_shown(device: &Device, sent: &[Frame], set: Option<Key>, outcome: &Outcome) -> bool {
    let mut answers = sent.iter();
    for data in outcome.answers.iter().flatten() {
        match answers.next() {
            Some(frame) if frame.id() == 0x585 && frame.bytes() == data.as_slice() => {}
            _ => return false,
        }
    }
    let (key, bytes) = match &outcome.set {
        Some(bytes) => (Some(STRING), bytes),
        None => (None, b"0123456789"),
    };
    answers.next().is_none()
        && set == key
        && device.held() == outcome.held
        && device.has(0x2001, bytes)
        && device.has(0x2002, &[0xEF, 0xBE, 0xAD, 0xDE])
}

// Sends the requests that lead to a state.
fn open(device: &mut Device, requests: &[Frame], sent: &mut Outbox) {
    for request in requests {
        device.take_into(request, sent);
    }
}

// Sends a frame whose other bytes are 0, compares the outcome, and drops the open transfer.
fn check(
    rt: &impl Abort,
    device: &mut Device,
    state: State,
    bytes: [u8; 2],
    sent: &mut Outbox,
) -> Result<(), Fail> {
    let [first, second] = bytes;
    let frame = Frame::new(0x605, &[first, second, 0, 0, 0, 0, 0, 0])?;
    let set = device.take_into(&frame, sent);
    let outcome = state.outcome(first, second);
    let is_right = is_shown(device, sent.as_slice(), set, &outcome);
    assert!(rt;
        is_right,
        "{state:?} {bytes:?}: {sent:?}, {set:?} and not {outcome:?}"
    );
    device.drop_transfer();
    if set.is_some() {
        device.restore();
    }
    Ok(())
}

// Sends each frame of a state, after the requests that lead to it.
fn check_all(rt: &impl Abort, device: &mut Device, state: State) -> Result<(), Fail> {
    shows(rt, device, state.opening());
    device.drop_transfer();
    let requests = state.requests()?;
    let mut sent = Outbox::new();
    for number in 0..=0xFFFFu16 {
        open(device, requests.as_slice(), &mut sent);
        check(rt, device, state, number.to_be_bytes(), &mut sent)?;
    }
    Ok(())
}

#[test]
fn every_frame(rt: HostRuntime) -> Result<(), Fail> {
    let mut device = device_of(rt.alloc(), 0, 65535)?;
    for state in STATES {
        check_all(&rt, &mut device, state)?;
    }
    Ok(())
}
