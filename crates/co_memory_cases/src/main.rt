//! Makes each call of the libraries that allocates memory, over a data sheet, with the dialogue
//! that it begins. A call that reports that it is out of memory is made again. The status is 0 if
//! all were right at once, 2 if one of them ran out of memory, and 1 if one was wrong: its name is
//! printed. Before the calls a block of a unique size is allocated. If that is refused, the worked
//! sequences of devices that are already built are run in place of the calls; the status is 4 if
//! all were right. `tests/refused_memory` refuses each allocation of a run in turn, from that block
//! on, and all of them at once.
#![tactic(auto)]

mod after_build;
mod minimal;
mod outcome;
mod transfers;

use crate::after_build::{are_right, script_of};
use crate::minimal::minimal;
use crate::outcome::{Outcome, refused_if, right_if};
use crate::transfers::{timed_out, uploaded, uploaded_by_blocks, uploaded_too_long};
use co_dict::ObjectStore;
use co_dict_image::ImageStore;
use co_dict_list::{BuildFault, Limits, ListStore};
use co_node::{Config, Node, Record};
use co_node_worked::worked;
use co_pdo::Schedule;
use co_scripts::{MANUFACTURER, PDOS, PROFILE, devices_of, sheet_of};
use co_sheet::{FaultKind, Sheet, SheetFault, read};
use co_stream::{StreamFault, read_text};
use co_value::Key;
use std::alloc::{AllocError, Global};
use std::process::ExitCode;

pub(crate) const LIMITS: Limits<'static> = Limits {
    strings: 16,
    domains: 889,
    own: &[],
};

/// The device type, 191h in the sheet.
const DEVICE_TYPE: Key = Key {
    index: 0x1000,
    sub: 0,
};

/// The greatest capacity of an entry, that of a domain, in bytes.
const GREATEST: u16 = 889;

#[derive(Clone, Copy)]
enum Call {
    ReadText,
    Read,
    ReadFaulty,
    ListStore,
    ImageStore,
    Schedule,
    Channel,
    Upload,
    UploadTooLong,
    UploadByBlocks,
    Node,
    Record,
    Worked,
    Minimal,
    NodeIdZero,
    TooLarge,
}

const CALLS: [Call; 16] = [
    Call::ReadText,
    Call::Read,
    Call::ReadFaulty,
    Call::ListStore,
    Call::ImageStore,
    Call::Schedule,
    Call::Channel,
    Call::Upload,
    Call::UploadTooLong,
    Call::UploadByBlocks,
    Call::Node,
    Call::Record,
    Call::Worked,
    Call::Minimal,
    Call::NodeIdZero,
    Call::TooLarge,
];

impl Call {
    fn name(self) -> &'static str {
        match self {
            Call::ReadText => "read_text",
            Call::Read => "read",
            Call::ReadFaulty => "read of a sheet without mandatory objects",
            Call::ListStore => "ListStore::build",
            Call::ImageStore => "ImageStore::build",
            Call::Schedule => "Schedule::new",
            Call::Channel => "Channel::new",
            Call::Upload => "Client::upload",
            Call::UploadTooLong => "Client::upload of too many bytes",
            Call::UploadByBlocks => "Client::upload by blocks",
            Call::Node => "Node::build",
            Call::Record => "Record::new",
            Call::Worked => "worked",
            Call::Minimal => "calls over the mandatory objects alone",
            Call::NodeIdZero => "builds with node-ID 0",
            Call::TooLarge => "read of a sheet that is too large",
        }
    }
}

fn is_memory(fault: SheetFault) -> bool {
    fault.kind == FaultKind::Memory && fault.line == 0
}

fn text_read(alloc: Global, whole: &[u8]) -> Outcome {
    let mut text = Vec::new(alloc);
    let mut left = whole;
    match read_text(&mut left, &mut text) {
        Ok(()) => right_if(text.as_slice() == whole),
        Err(fault) => {
            refused_if(fault == StreamFault::Memory && whole.starts_with(text.as_slice()))
        }
    }
}

fn sheet_read(alloc: Global, text: &[u8]) -> Outcome {
    match read(alloc, text) {
        Ok(sheet) => right_if(
            sheet.objects().len() == 22
                && sheet.entries().len() == 46
                && sheet.sections().len() == 60
                && sheet.notes().is_empty(),
        ),
        Err(fault) => refused_if(is_memory(fault)),
    }
}

// a fault that the last check finds
fn faulty_read(alloc: Global) -> Outcome {
    let text =
        b"[MandatoryObjects]\nSupportedObjects=1\n1=0x1000\n[1000]\nDataType=7\nAccessType=ro\n";
    match read(alloc, text) {
        Ok(_) => Outcome::Wrong,
        Err(fault) if fault.kind == FaultKind::MissingMandatory => right_if(fault.line == 0),
        Err(fault) => refused_if(is_memory(fault)),
    }
}

fn has_device_type<S: ObjectStore>(store: &S) -> bool {
    store.node_id() == 5 && store.bytes(DEVICE_TYPE) == Some(&[0x91, 1, 0, 0])
}

fn list_built(alloc: Global, sheet: &Sheet<'_>) -> Outcome {
    match ListStore::build(alloc, sheet, 5, &LIMITS) {
        Ok(store) => right_if(has_device_type(&store) && store.greatest_capacity() == GREATEST),
        Err(fault) => refused_if(fault == BuildFault::Memory),
    }
}

fn image_built(alloc: Global, sheet: &Sheet<'_>) -> Outcome {
    match ImageStore::build(alloc, sheet, 5, &LIMITS) {
        Ok(store) => right_if(has_device_type(&store) && store.greatest_capacity() == GREATEST),
        Err(fault) => refused_if(fault == BuildFault::Memory),
    }
}

fn schedule_made(alloc: Global, store: &ListStore) -> Outcome {
    match Schedule::new(alloc, store) {
        Ok(schedule) => right_if(schedule.tpdo_count() == 2),
        Err(_) => Outcome::Refused,
    }
}

fn node_built(alloc: Global, sheet: &Sheet<'_>) -> Outcome {
    let config = Config {
        limits: LIMITS,
        time: 65_535,
    };
    match Node::build(alloc, sheet, 5, &config) {
        Ok(node) => right_if(node.value(DEVICE_TYPE) == Some(&[0x91, 1, 0, 0])),
        Err(fault) => refused_if(fault == BuildFault::Memory),
    }
}

fn record_made(alloc: Global) -> Outcome {
    match Record::new(alloc, 514, 16) {
        Ok(kept) => right_if(kept.frames().is_empty() && kept.ends().is_empty()),
        Err(_) => Outcome::Refused,
    }
}

// the frames that it sends are proved
fn worked_out(alloc: Global) -> Outcome {
    match worked(alloc) {
        Some(sent) => right_if(sent.response.len() == 1 && sent.later.ends() == [0, 1].as_slice()),
        None => Outcome::Refused,
    }
}

// refused before any allocation
fn node_id_refused(alloc: Global, sheet: &Sheet<'_>) -> Outcome {
    let config = Config {
        limits: LIMITS,
        time: 0,
    };
    right_if(
        ListStore::build(alloc, sheet, 0, &LIMITS).err() == Some(BuildFault::NodeId)
            && ImageStore::build(alloc, sheet, 0, &LIMITS).err() == Some(BuildFault::NodeId)
            && Node::build(alloc, sheet, 0, &config).err() == Some(BuildFault::NodeId),
    )
}

// the same
fn size_refused(alloc: Global, text: &[u8]) -> Outcome {
    match read(alloc, text) {
        Ok(_) => Outcome::Wrong,
        Err(fault) => right_if(fault.kind == FaultKind::TooLarge && fault.line == 0),
    }
}

/// The arguments of the calls.
#[derive(Clone, Copy)]
struct Given<'a, 's> {
    alloc: Global,
    text: &'a str,
    sheet: &'a Sheet<'s>,
    store: &'a ListStore,
    too_large: &'a [u8],
}

fn outcome_of(call: Call, given: &Given<'_, '_>) -> Outcome {
    let Given {
        alloc,
        text,
        sheet,
        store,
        too_large,
    } = *given;
    match call {
        Call::ReadText => text_read(alloc, text.as_bytes()),
        Call::Read => sheet_read(alloc, text.as_bytes()),
        Call::ReadFaulty => faulty_read(alloc),
        Call::ListStore => list_built(alloc, sheet),
        Call::ImageStore => image_built(alloc, sheet),
        Call::Schedule => schedule_made(alloc, store),
        Call::Channel => timed_out(alloc, sheet),
        Call::Upload => uploaded(alloc),
        Call::UploadTooLong => uploaded_too_long(alloc),
        Call::UploadByBlocks => uploaded_by_blocks(alloc),
        Call::Node => node_built(alloc, sheet),
        Call::Record => record_made(alloc),
        Call::Worked => worked_out(alloc),
        Call::Minimal => minimal(alloc, text),
        Call::NodeIdZero => node_id_refused(alloc, sheet),
        Call::TooLarge => size_refused(alloc, too_large),
    }
}

/// Makes each call. `Err` with the first that is wrong, or out of memory a second time in the run;
/// else whether one was out of memory.
fn make_calls(given: &Given<'_, '_>) -> Result<bool, Call> {
    let mut was_refused = false;
    for call in CALLS {
        let mut outcome = outcome_of(call, given);
        if outcome == Outcome::Refused && !was_refused {
            was_refused = true;
            outcome = outcome_of(call, given);
        }
        if outcome != Outcome::Right {
            return Err(call);
        }
    }
    Ok(was_refused)
}

fn status_of_calls(rt: &HostRuntime, given: &Given<'_, '_>) -> ExitCode {
    match make_calls(given) {
        Ok(false) => ExitCode::SUCCESS,
        Ok(true) => ExitCode::from(2),
        Err(call) => {
            let name = call.name();
            let _ = println!(rt; "{name}");
            ExitCode::FAILURE
        }
    }
}

fn status_after_build(
    rt: &HostRuntime,
    devices: &mut [Node],
    script: &str,
    kept: &mut Record,
) -> ExitCode {
    if are_right(devices, script, kept) {
        return ExitCode::from(4);
    }
    let _ = println!(rt; "after the build");
    ExitCode::FAILURE
}

/// The size of the first allocation that is refused, in bytes.
const ROOM: usize = 54_321;

fn block(alloc: Global) -> Result<Vec<u8>, AllocError> {
    Vec::with_capacity(alloc, ROOM)
}

/// The status if an allocation before that one fails.
const NO_MEMORY: u8 = 3;

// Each of these functions makes one value and passes it on.

fn with_record(
    rt: &HostRuntime,
    given: &Given<'_, '_>,
    devices: &mut [Node],
    script: &str,
) -> ExitCode {
    let Ok(mut kept) = Record::new(given.alloc, 130, 4) else {
        return ExitCode::from(NO_MEMORY);
    };
    match block(given.alloc) {
        Ok(_) => status_of_calls(rt, given),
        Err(_) => status_after_build(rt, devices, script, &mut kept),
    }
}

fn with_devices(rt: &HostRuntime, given: &Given<'_, '_>, script: &str) -> ExitCode {
    match devices_of(given.alloc, script) {
        Ok(mut devices) => with_record(rt, given, devices.as_mut_slice(), script),
        Err(_) => ExitCode::from(NO_MEMORY),
    }
}

fn with_script(rt: &HostRuntime, given: &Given<'_, '_>) -> ExitCode {
    match script_of(given.alloc) {
        Ok(script) => with_devices(rt, given, script.as_str()),
        Err(_) => ExitCode::from(NO_MEMORY),
    }
}

fn with_text(rt: &HostRuntime, text: &str, sheet: &Sheet<'_>, store: &ListStore) -> ExitCode {
    let alloc = rt.alloc();
    let Ok(too_large) = vec![in alloc; b'\n'; 1_048_577] else {
        return ExitCode::from(NO_MEMORY);
    };
    let given = Given {
        alloc,
        text,
        sheet,
        store,
        too_large: too_large.as_slice(),
    };
    with_script(rt, &given)
}

fn with_store(rt: &HostRuntime, text: &str, sheet: &Sheet<'_>) -> ExitCode {
    match ListStore::build(rt.alloc(), sheet, 5, &LIMITS) {
        Ok(store) => with_text(rt, text, sheet, &store),
        Err(_) => ExitCode::from(NO_MEMORY),
    }
}

fn with_sheet(rt: &HostRuntime, text: &str) -> ExitCode {
    match read(rt.alloc(), text.as_bytes()) {
        Ok(sheet) => with_store(rt, text, &sheet),
        Err(_) => ExitCode::from(NO_MEMORY),
    }
}

fn main(rt: HostRuntime) -> ExitCode {
    match sheet_of(rt.alloc(), &[PROFILE, PDOS], &[MANUFACTURER], "") {
        Ok(text) => with_sheet(&rt, text.as_str()),
        Err(_) => ExitCode::from(NO_MEMORY),
    }
}
