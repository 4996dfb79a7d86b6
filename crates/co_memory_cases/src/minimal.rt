//! The smallest data sheet, with the mandatory objects alone: it is read, its device is built,
//! boots, and answers a frame into a record; and a schedule is made over its dictionary.

use crate::LIMITS;
use crate::outcome::{Outcome, refused_if, right_if};
use co_dict_list::{BuildFault, ListStore};
use co_frame::Outbox;
use co_node::{Config, Input, Node, Record};
use co_pdo::Schedule;
use co_scripts::{BadScript, are_frames, frame_of};
use co_sheet::{FaultKind, Sheet, read};
use std::alloc::Global;

fn scheduled_over(alloc: Global, store: &ListStore) -> Outcome {
    match Schedule::new(alloc, store) {
        Ok(schedule) => right_if(schedule.tpdo_count() == 0),
        Err(_) => Outcome::Refused,
    }
}

fn scheduled(alloc: Global, sheet: &Sheet<'_>) -> Outcome {
    match ListStore::build(alloc, sheet, 5, &LIMITS) {
        Ok(store) => scheduled_over(alloc, &store),
        Err(fault) => refused_if(fault == BuildFault::Memory),
    }
}

// Whether a device boots up.
fn boots(node: &Node) -> bool {
    let mut sent = Outbox::new();
    node.boot(&mut sent);
    are_frames(sent.as_slice(), "705#00") == Ok(true)
}

// Whether a device answers an upload of its device type.
fn runs(node: &mut Node, kept: &mut Record) -> Result<bool, BadScript> {
    let inputs = [Input::Frame(frame_of("605#4000100000000000")?)];
    Ok(node.run(&inputs, kept) == 1 && are_frames(kept.frames(), "585#4300100091010000")?)
}

fn recorded(alloc: Global, node: &mut Node) -> Outcome {
    match Record::new(alloc, 514, 1) {
        Ok(mut kept) => right_if(boots(node) && runs(node, &mut kept) == Ok(true)),
        Err(_) => Outcome::Refused,
    }
}

fn built(alloc: Global, sheet: &Sheet<'_>) -> Outcome {
    let config = Config {
        limits: LIMITS,
        time: 1000,
    };
    match Node::build(alloc, sheet, 5, &config) {
        Ok(mut node) => recorded(alloc, &mut node),
        Err(fault) => refused_if(fault == BuildFault::Memory),
    }
}

fn sheet_read(alloc: Global, text: &str) -> Outcome {
    match read(alloc, text.as_bytes()) {
        Ok(sheet) => match built(alloc, &sheet) {
            Outcome::Right => scheduled(alloc, &sheet),
            other => other,
        },
        Err(fault) => refused_if(fault.kind == FaultKind::Memory && fault.line == 0),
    }
}

// The first part of a data sheet, itself a data sheet.
fn mandatory(text: &str) -> &str {
    match text.split_once("[1003]") {
        Some((front, _)) => front,
        None => "",
    }
}

pub(crate) fn minimal(alloc: Global, sheet: &str) -> Outcome {
    sheet_read(alloc, mandatory(sheet))
}
