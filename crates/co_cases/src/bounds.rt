//! The most frames of an input, and records of many inputs.

use crate::scripts::shows;
use co_frame::Outbox;
use co_node::{AppEvent, Input, Node, Record};
use co_scripts::{BadScript, are_frames, devices_of, frame_of, write};
use co_value::Key;
use std::alloc::{AllocError, Global};
use std::string::String;
use std::test::Fail;

// Runs a device on four requests and an event, without the first `without` of them. Returns how
// many it took.
fn run(devices: &mut [Node], without: usize, record: &mut Record) -> Result<usize, BadScript> {
    let request = frame_of("605#4000100000000000")?;
    let inputs = [
        Input::Frame(request),
        Input::Frame(request),
        Input::Frame(request),
        Input::Frame(request),
        Input::App(AppEvent::Clear(1)),
    ];
    let inputs = inputs.get(without..).ok_or(BadScript)?;
    let node = devices.first_mut().ok_or(BadScript)?;
    Ok(node.run(inputs, record))
}

// The frames that they send.
const SENT: &str = "\
585#4300100091010000 585#4300100091010000 585#4300100091010000 585#4300100091010000
085#0000000000000000
";

const ENDS: [usize; 5] = [1, 2, 3, 4, 5];

// Whether a record has the first `taken` inputs, with a frame each.
fn has_taken(record: &Record, taken: usize) -> Result<bool, BadScript> {
    let ends = ENDS.get(..taken).ok_or(BadScript)?;
    let text = SENT.get(..taken.saturating_mul(21)).ok_or(BadScript)?;
    Ok(record.ends() == ends && are_frames(record.frames(), text)?)
}

/// How many inputs a record takes, and how many of those after the second once it is cleared.
#[derive(Clone, Copy)]
struct Counts {
    taken: usize,
    again: usize,
}

// Whether a record takes these numbers of inputs.
fn is_right(devices: &mut [Node], record: &mut Record, counts: Counts) -> Result<bool, BadScript> {
    let Counts { taken, again } = counts;
    if run(devices, 0, record)? != taken || !has_taken(record, taken)? {
        return Ok(false);
    }
    record.clear();
    Ok(run(devices, 2, record)? == again)
}

// The same for a new record, with room for `frames` frames and `inputs` inputs.
fn takes(
    alloc: Global,
    devices: &mut [Node],
    frames: usize,
    inputs: usize,
    counts: Counts,
) -> Result<bool, AllocError> {
    let mut record = Record::new(alloc, frames, inputs)?;
    Ok(is_right(devices, &mut record, counts) == Ok(true))
}

// The same for a new device. A row is the room for frames and for inputs, and the two counts.
fn is_row_right(alloc: Global, row: &str) -> Result<bool, Fail> {
    let mut numbers = [0; 4];
    let mut words = row.split_whitespace();
    for number in numbers.iter_mut() {
        *number = words.next().ok_or("too few")?.parse()?;
    }
    let [frames, inputs, taken, again] = numbers;
    let mut devices = devices_of(alloc, "new 1000")?;
    let counts = Counts { taken, again };
    Ok(takes(alloc, devices.as_mut_slice(), frames, inputs, counts)?)
}

// A run stops when the record has no room for the most frames of one more input, or for its end.
const RECORDS: &str = "\
130 4 2 2
128 1 0 0
514 2 2 2
133 5 5 3
132 5 4 3";

#[test]
fn records(rt: HostRuntime) -> Result<(), Fail> {
    for row in RECORDS.lines() {
        assert!(rt; is_row_right(rt.alloc(), row)?, "{row}");
    }
    Ok(())
}

// The application writes the domain of the first device.
fn write_domain(devices: &mut [Node], bytes: &[u8]) {
    let domain = Key {
        index: 0x2100,
        sub: 0,
    };
    let mut sent = Outbox::new();
    if let Some(node) = devices.first_mut() {
        write(node, domain, bytes, &mut sent);
    }
}

// Three emergencies wait while the device is stopped; one is sent at each input after that.
const WAITING: &str = "\
done
000#0205
!raise 1000 01 0000000000
!raise 1000 01 0000000000
!raise 1000 01 0000000000
000#0105 = 085#0010010000000000
605#A00021007F000000 = 585#C200210079030000 085#0010010000000000
";

// The segments of 889 bytes 5Ah, and the emergency after them: 128 frames.
fn push_segments(script: &mut String) -> Result<(), AllocError> {
    script.push_str("605#A300000000000000 =")?;
    for sequence in 1..=126u8 {
        write!(script, " 585#{sequence:02X}5A5A5A5A5A5A5A")?;
    }
    script.push_str(" 585#FF5A5A5A5A5A5A5A 085#0010010000000000\n")
}

// A sub-block of 127 segments and an emergency.
#[test]
fn most_frames_of_a_channel(rt: HostRuntime) -> Result<(), Fail> {
    let mut devices = devices_of(rt.alloc(), "new 1000")?;
    let value = vec![in rt.alloc(); 0x5A; 889]?;
    write_domain(devices.as_mut_slice(), value.as_slice());
    let mut script = format!(in rt.alloc(); "{WAITING}")?;
    push_segments(&mut script)?;
    shows(&rt, devices.as_mut_slice(), script.as_str());
    Ok(())
}
