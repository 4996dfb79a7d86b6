//! Devices with as many TPDOs, and as many SDO channels, as there may be.

use crate::scripts::shows;
use co_node::Node;
use co_scripts::{node_of, sheet_of};
use co_text::word_digits;
use std::alloc::{AllocError, Global};
use std::string::String;
use std::test::Fail;

const WITH_NUMBER: &str = "\
2002 7 rw PDOMapping=1
2100 2
";

// A heartbeat at each tick, and 512 TPDOs with an event timer of one tick, all with identifier
// 185h.
fn with_tpdos(alloc: Global) -> Result<Node, Fail> {
    let mut table = format!(in alloc; "1017 6 rw 1\n")?;
    for number in 0..512u16 {
        let communication = word_digits(0x1800 + number);
        let name = communication.as_str();
        write!(
            table,
            "{name} 9\n{name}sub0 5 ro 5\n{name}sub1 7 rw 0x185\n"
        )?;
        write!(table, "{name}sub2 5 rw 255\n{name}sub5 6 rw 1\n")?;
        let mapping = word_digits(0x1A00 + number);
        let name = mapping.as_str();
        write!(
            table,
            "{name} 9\n{name}sub0 5 rw 1\n{name}sub1 7 rw 0x20020020\n"
        )?;
    }
    let text = sheet_of(alloc, &[table.as_str()], &[WITH_NUMBER], "")?;
    Ok(node_of(alloc, text.as_str(), 1)?)
}

// The abort of a transfer that times out, a heartbeat, and all TPDOs, at one tick: 514 frames.
const TICK: &str = "\
000#0105
605#2000210000000000 = 585#6000210000000000
!tick 1 = 585#8000210000000405 705#05";

#[test]
fn most_frames_of_a_tick(rt: HostRuntime) -> Result<(), Fail> {
    let mut script = format!(in rt.alloc(); "{TICK}")?;
    for _ in 0..512u16 {
        script.push_str(" 185#00000000")?;
    }
    let mut devices = Vec::new(rt.alloc());
    devices.push(with_tpdos(rt.alloc())?)?;
    shows(&rt, devices.as_mut_slice(), script.as_str());
    Ok(())
}

// SDO channels 1 to 127, with requests from 201h on and answers from 301h on.
fn with_channels(alloc: Global) -> Result<Node, Fail> {
    let mut table = String::new(alloc);
    for channel in 1..=127u16 {
        let object = word_digits(0x1200 + channel);
        let name = object.as_str();
        let request = 0x200 + channel;
        let answer = 0x300 + channel;
        write!(table, "{name} 9\n{name}sub0 5 ro 2\n")?;
        write!(
            table,
            "{name}sub1 7 ro {request}\n{name}sub2 7 ro {answer}\n"
        )?;
    }
    let text = sheet_of(alloc, &[table.as_str()], &["2100 2"], "")?;
    Ok(node_of(alloc, text.as_str(), 1)?)
}

// The identifiers of a channel's requests and answers.
fn ids_of(channel: u16) -> (u16, u16) {
    match channel {
        0 => (0x605, 0x585),
        number => (number.saturating_add(0x200), number.saturating_add(0x300)),
    }
}

// A frame with these data on each channel in turn, with its answer.
fn push_on_all(script: &mut String, data: &str, answer: &str) -> Result<(), AllocError> {
    for channel in 0..128u16 {
        let (request, id) = ids_of(channel);
        if answer.is_empty() {
            write!(script, "{request:03X}#{data}\n")?;
        } else {
            write!(script, "{request:03X}#{data} = {id:03X}#{answer}\n")?;
        }
    }
    Ok(())
}

const ACKNOWLEDGED: &str = "A27F7F0000000000";

// The segments of a sub-block on each channel; these are the data of the last one.
fn push_sub_block(alloc: Global, script: &mut String, last: &str) -> Result<(), AllocError> {
    for sequence in 1..=126u8 {
        let data = format!(in alloc; "{sequence:02X}00000000000000")?;
        push_on_all(script, data.as_str(), "")?;
    }
    push_on_all(script, last, ACKNOWLEDGED)
}

// All channels hold two sub-blocks at once, and then time out one after another.
fn push_time_outs(script: &mut String) -> Result<(), AllocError> {
    for channel in 0..128u16 {
        write!(script, "held {channel} 1778\n")?;
    }
    for channel in 0..128u16 {
        let (_, id) = ids_of(channel);
        write!(script, "!tick 1 = {id:03X}#8000210000000405\n")?;
    }
    script.push_str("!tick 1\nheld 0 0\nheld 127 0\n")
}

#[test]
fn all_channels(rt: HostRuntime) -> Result<(), Fail> {
    let alloc = rt.alloc();
    let mut script = String::new(alloc);
    push_on_all(&mut script, "C000210000000000", "A00021007F000000")?;
    push_sub_block(alloc, &mut script, "7F00000000000000")?;
    push_sub_block(alloc, &mut script, "FF00000000000000")?;
    push_time_outs(&mut script)?;
    let mut devices = Vec::new(alloc);
    devices.push(with_channels(alloc)?)?;
    shows(&rt, devices.as_mut_slice(), script.as_str());
    Ok(())
}
