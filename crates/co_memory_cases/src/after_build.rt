//! Devices after their build, when every allocation is refused: worked sequences, and a run with a
//! record.

use co_frame::Outbox;
use co_node::{AppEvent, Input, Node, Record};
use co_scripts::{
    APPLICATION, BLOCKS, BadScript, EMERGENCIES, RPDOS, SEGMENTED, TPDOS, first_wrong, frame_of,
};
use std::alloc::{AllocError, Global};
use std::string::String;

/// All worked sequences, one after the other.
pub(crate) fn script_of(alloc: Global) -> Result<String, AllocError> {
    format!(in alloc; "{SEGMENTED}{BLOCKS}{RPDOS}{TPDOS}{EMERGENCIES}{APPLICATION}")
}

// Runs the first device on four requests and an event; returns how many it took.
fn run(devices: &mut [Node], kept: &mut Record) -> Result<usize, BadScript> {
    let request = frame_of("605#4000100000000000")?;
    let inputs = [
        Input::Frame(request),
        Input::Frame(request),
        Input::Frame(request),
        Input::Frame(request),
        Input::App(AppEvent::Clear(1)),
    ];
    let node = devices.first_mut().ok_or(BadScript)?;
    Ok(node.run(&inputs, kept))
}

// Whether a record with room for two inputs takes two, and two again once it is cleared.
fn has_run(devices: &mut [Node], kept: &mut Record) -> bool {
    if run(devices, kept) != Ok(2) || kept.ends().len() != 2 || kept.frames().len() != 2 {
        return false;
    }
    kept.clear();
    run(devices, kept) == Ok(2)
}

// Whether devices follow a script.
fn are_shown(devices: &mut [Node], script: &str) -> bool {
    let mut sent = Outbox::new();
    first_wrong(devices, script, &mut sent).is_none()
}

/// Whether the devices of a script follow it, after the first of them has run with a record.
pub(crate) fn are_right(devices: &mut [Node], script: &str, kept: &mut Record) -> bool {
    has_run(devices, kept) && are_shown(devices, script)
}
