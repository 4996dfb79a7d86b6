//! Building a device for C.

ghost use Rattle.std.specs.Prelude.{◌≡◌, ◌≤◌, None, true, false, length, IfErr, IfOk};
ghost use Rattle.co_sheet_changes.specs.Originals.{original_at};
ghost use Rattle.co_dict_build.specs.BuildFaults.{build_fault};
ghost use Rattle.co_dict_build.specs.Built.{Plan};
ghost use Rattle.co_dict_table.specs.Entries.{contents_of_rows};
ghost use Rattle.std.specs.Box.{boxed_slice_items};
ghost use Rattle.bafokun.specs.Changes.{no_changes};
ghost use Rattle.bafokun.specs.Builds.{
  IsBuilt,
  IsHeld,
  IsHeldOf,
  IsNodeOf,
  IsPlaced,
  IsRefused,
  IsUnbuilt,
  limits_for,
  plan_for,
};
ghost use Rattle.bafokun.specs.Faults.{device_fault, no_fault, sheet_fault};
ghost use Rattle.bafokun.specs.Devices.{IsEmpty};

use crate::ending::Ending;
use crate::handle::Handle;
use crate::happened::Events;
use crate::held::Held;
use co_dict_build::{BuildFault, Limits};
use co_dict_table::EntryTable;
use co_frame::Outbox;
use co_node::{Config, Node};
use co_sheet::{Sheet, SheetFault, read};
use co_value::Key;
use std::alloc::Global;
use std::boxed::BoxedSlice;

/// The configuration that a data sheet doesn't contain, 6 bytes without padding: `struct
/// bafokun_config`.
#[repr(C)]
#[derive(Clone, Copy)]
pub struct Settings {
    /// The capacity of each string that may be written, in bytes; a longer default makes it
    /// greater.
    pub strings: u16,
    /// The capacity of each domain, in bytes.
    pub domains: u16,
    /// The SDO timeout in ms; 0 disables it.
    pub time: u16,
}

/// Why a device couldn't be built, 16 bytes without padding: `struct bafokun_fault`.
#[repr(C)]
#[derive(Clone, Copy)]
pub struct Fault {
    /// The line of a fault of the data sheet, from 1; 0 if no line is at fault, and for a fault of
    /// the device.
    pub line: u64,
    /// 0 no fault, 1 a fault of the data sheet, 2 a fault of the device built from it.
    pub stage: u16,
    /// The fault's number: 1 to 20 of a data sheet, 1 to 7 of a device.
    pub number: u16,
    /// The index of the entry that a fault of a device names; else 0, as the sub-index.
    pub index: u16,
    /// The sub-index.
    pub sub_index: u16,
}

impl Fault {
    const NONE: Fault = Fault {
        line: 0,
        stage: 0,
        number: 0,
        index: 0,
        sub_index: 0,
    };

    fn of_sheet(fault: SheetFault) -> Fault
        ensures { result ≡ sheet_fault fault }
    {
        Fault {
            line: fault.line as u64,
            stage: 1,
            number: u16::from(fault.kind.number()),
            index: 0,
            sub_index: 0,
        }
    }

    fn of_build(fault: BuildFault) -> Fault
        ensures { result ≡ device_fault fault }
    {
        let key = match fault {
            BuildFault::ValueRange(key) | BuildFault::BadCobId(key) | BuildFault::BadMapping(key) =>
                key,
            BuildFault::PdoPair(index) => Key { index, sub: 0 },
            BuildFault::NodeId | BuildFault::TooMany | BuildFault::Memory => Key {
                index: 0,
                sub: 0,
            },
        };
        Fault {
            line: 0,
            stage: 2,
            number: u16::from(fault.number()),
            index: key.index,
            sub_index: u16::from(key.sub),
        }
    }
}

// The node of a sheet.
fn node_of(
    alloc: Global,
    sheet: &Sheet<'_>,
    node_id: u8,
    settings: &Settings,
) -> Result<Node, Fault>
    ensures ok { IfOk result (IsNodeOf node_id settings.now sheet.now) }
    ensures err { IfErr result (IsUnbuilt (plan_for node_id settings.now sheet.now)) }
{
    let limits = Limits {
        strings: settings.strings,
        domains: settings.domains,
        own: &[],
    };
    let config = Config {
        limits,
        time: settings.time,
    };
    match Node::build(alloc, sheet, node_id, &config) {
        Ok(node) => Ok(node),
        Err(fault) => Err(Fault::of_build(fault)),
    }
}

// The entry table of a text and its sheet.
fn entries_of(
    alloc: Global,
    text: &[u8],
    sheet: &Sheet<'_>,
    node_id: u8,
    settings: &Settings,
) -> Result<EntryTable, Fault>
    requires size { length text.now ≤ 1048576 }
    requires faultless { build_fault (plan_for node_id settings.now sheet.now) ≡ None }
    ensures ok { IfOk result (λ entries. entries
        ≡ contents_of_rows (original_at text.now) (limits_for settings.now) sheet.now.rows) }
    ensures err { IfErr result (IsUnbuilt (plan_for node_id settings.now sheet.now)) }
{
    let limits = Limits {
        strings: settings.strings,
        domains: settings.domains,
        own: &[],
    };
    match EntryTable::of(alloc, node_id, &limits, text, sheet.entries()) {
        Ok(entries) => Ok(entries),
        Err(_) => Err(Fault::of_build(BuildFault::Memory)),
    }
}

// Moves a node, its entries and a bit for each of them into memory of their own; no frame has been
// sent, and nothing happened.
fn boxed(
    alloc: Global,
    node: Node,
    entries: EntryTable,
    changes: BoxedSlice<u8>,
) -> Result<Box<Held>, Fault>
    ensures ok { IfOk result (λ held. IsHeld node entries (boxed_slice_items changes) held.value) }
    ensures err { (plan : Plan) → IfErr result (IsUnbuilt plan) }
{
    let held = Held {
        node,
        sent: Outbox::new(),
        entries,
        changes,
        events: Events::none(),
        ending: Ending::no_error(),
    };
    match Box::new(alloc, held) {
        Ok(held) => Ok(held),
        Err(_) => Err(Fault::of_build(BuildFault::Memory)),
    }
}

// A bit for each of `count` entries, none of them set.
fn unchanged(alloc: Global, count: usize) -> Result<BoxedSlice<u8>, Fault>
    ensures ok { IfOk result (λ changes. boxed_slice_items changes ≡ no_changes count) }
    ensures err { (plan : Plan) → IfErr result (IsUnbuilt plan) }
{
    match vec![in alloc; 0; count / 8 + 1] {
        Ok(changes) => Ok(changes.into_boxed_slice()),
        Err(_) => Err(Fault::of_build(BuildFault::Memory)),
    }
}

// The device of a text and its sheet.
fn held_of(
    alloc: Global,
    text: &[u8],
    sheet: &Sheet<'_>,
    node_id: u8,
    settings: &Settings,
) -> Result<Box<Held>, Fault>
    requires { length text.now ≤ 1048576 }
    ensures ok { IfOk result (λ held.
        IsHeldOf (original_at text.now) node_id settings.now sheet.now held.value) }
    ensures err { IfErr result (IsUnbuilt (plan_for node_id settings.now sheet.now)) }
{
    let node = node_of(alloc, sheet, node_id, settings)?;
    let entries = entries_of(alloc, text, sheet, node_id, settings)?;
    let changes = unchanged(alloc, entries.len())?;
    boxed(alloc, node, entries, changes)
}

// The device of a text.
fn build(alloc: Global, text: &[u8], node_id: u8, settings: &Settings) -> Result<Box<Held>, Fault>
    ensures ok { IfOk result (λ held. IsBuilt text.now node_id settings.now held.value) }
    ensures err { IfErr result (IsRefused text.now node_id settings.now) }
{
    match read(alloc, text) {
        Ok(sheet) => held_of(alloc, text, &sheet, node_id, settings),
        Err(fault) => Err(Fault::of_sheet(fault)),
    }
}

/// Builds the device of a data sheet (CiA 306) at a node-ID, 1 to 127, in NMT state
/// pre-operational, and puts it into a place; a device that was there is freed first. Returns
/// whether there is a device; if not, `fault` is the reason, and the place is empty. Only this call
/// allocates memory. C must pass a place, empty or filled by this call, as many bytes of text as it
/// states, settings and a fault, none of which overlap. The text isn't needed after the call.
#[unsafe(no_mangle)]
pub extern "C" fn bafokun_build(
    alloc: Global,
    node: &mut Handle,
    text: &[u8],
    node_id: u8,
    settings: &Settings,
    fault: &mut Fault,
) -> bool
    ensures ok { result ≡ true → IsPlaced text.now node_id settings.now node.new }
    ensures no_fault { result ≡ true → fault.new ≡ no_fault }
    ensures err { result ≡ false → IsRefused text.now node_id settings.now fault.new }
    ensures empty { result ≡ false → IsEmpty node.new }
{
    drop(node.take(alloc));
    match build(alloc, text, node_id, settings) {
        Ok(held) => {
            *node = Handle::of(held);
            *fault = Fault::NONE;
            true
        }
        Err(why) => {
            *fault = why;
            false
        }
    }
}
