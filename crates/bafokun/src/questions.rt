//! Reading from a device, and freeing it.

ghost use Rattle.std.specs.Prelude.{◌≡◌, ℕ, ◌≤◌, None, drop, length, option_map};
ghost use Rattle.co_node_model.specs.Inputs.{Inputs};
ghost use Rattle.co_node_model.specs.Moments.{Constants};
ghost use Rattle.co_node_model.specs.Ticks.{IsQuietFor};
ghost use Rattle.co_node_model.specs.Device.{app_after, contents_of, held_of, room_of, state_of};
ghost use Rattle.bafokun.specs.Answers.{IsCopied, IsRead, answer_code, refusal_code, state_code};
ghost use Rattle.bafokun.specs.Changes.{changes_of};
ghost use Rattle.bafokun.specs.Devices.{IsDevice, IsEmpty, entries_of, sent_of};
ghost use Rattle.bafokun.specs.Ending.{ending_of};
ghost use Rattle.bafokun.specs.Entries.{value_numbered};
ghost use Rattle.bafokun.specs.Frames.{ArePut};
ghost use Rattle.bafokun.specs.Happened.{IsTold, events_of, left_of, told_of};
ghost use Rattle.bafokun.specs.Ticks.{AreTicks};

use crate::frames::{CanFrame, put};
use crate::handle::Handle;
use crate::happened::{Events, state_code};
use co_node::AppAnswer;
use co_value::Key;
use std::alloc::Global;

/// The frames of the last input, from number `from` on: for an array that had no room for all. They
/// are put into the array, as many as it has room for; returns how many there are from that one on,
/// 0 without a device. C must pass what `bafokun_tick` requires.
#[unsafe(no_mangle)]
pub extern "C" fn bafokun_sent(
    alloc: Global,
    node: &mut Handle,
    from: usize,
    frames: &mut [CanFrame],
) -> usize
    ensures same { node.new.seal.value ≡ node.old.seal.value }
    ensures put { ArePut (drop from (sent_of node.old)) frames.old frames.new }
    ensures count { result ≡ length (drop from (sent_of node.old)) }
{
    match node.take(alloc) {
        Some(held) => {
            let count = match held.sent.get(from..) {
                Some(rest) => {
                    put(rest, frames);
                    rest.len()
                }
                None => 0,
            };
            *node = Handle::of(held);
            count
        }
        None => 0,
    }
}

/// Gets the bytes of an entry: they are put into the array, as many as it has room for, and
/// `length` is how many the entry has. Returns whether there is such an entry; if not, nothing is
/// written. C must pass what `bafokun_tick` requires, and `length` outside the array.
#[unsafe(no_mangle)]
pub extern "C" fn bafokun_value(
    alloc: Global,
    node: &mut Handle,
    index: u16,
    sub_index: u8,
    bytes: &mut [u8],
    length: &mut usize,
) -> bool
    ensures same { node.new.seal.value ≡ node.old.seal.value }
    ensures value { (k : Constants) (before : Inputs) → IsDevice k node.old before →
        IsRead (contents_of k before (record { index = index; sub = sub_index }))
        bytes.old bytes.new length.old length.new result }
    ensures empty { IsEmpty node.old →
        IsRead None bytes.old bytes.new length.old length.new result }
{
    let key = Key {
        index,
        sub: sub_index,
    };
    match node.take(alloc) {
        Some(held) => {
            let found = read(held.node.value(key), bytes, length);
            *node = Handle::of(held);
            found
        }
        None => false,
    }
}

/// The same of the entry with a number, without a search. C must pass what `bafokun_value`
/// requires.
#[unsafe(no_mangle)]
pub extern "C" fn bafokun_value_at(
    alloc: Global,
    node: &mut Handle,
    number: usize,
    bytes: &mut [u8],
    length: &mut usize,
) -> bool
    ensures same { node.new.seal.value ≡ node.old.seal.value }
    ensures value { (k : Constants) (before : Inputs) → IsDevice k node.old before →
        IsRead (value_numbered (entries_of node.old) (contents_of k before) number)
        bytes.old bytes.new length.old length.new result }
    ensures empty { IsEmpty node.old →
        IsRead None bytes.old bytes.new length.old length.new result }
{
    match node.take(alloc) {
        Some(held) => {
            let value = match held.entries.get(number) {
                Some(described) => held.node.value_at(number, described.facts.key),
                None => None,
            };
            let found = read(value, bytes, length);
            *node = Handle::of(held);
            found
        }
        None => false,
    }
}

// Copies the bytes of an entry, if there is one, and counts them. Returns whether there is one.
fn read(value: Option<&[u8]>, bytes: &mut [u8], length: &mut usize) -> bool
    ensures { IsRead (option_map (λ value. value.now) value.entry)
        bytes.old bytes.new length.old length.new result }
{
    match value {
        Some(value) => {
            copy(value, bytes);
            *length = value.len();
            true
        }
        None => false,
    }
}

/// Copies bytes into an array, as many as it has room for.
pub(crate) fn copy(value: &[u8], bytes: &mut [u8])
    ensures { IsCopied value.now bytes.old bytes.new }
{
    for i in 0..value.len().min(bytes.len()) {
        bytes[i] = value[i];
    }
}

/// The node-ID, 1 to 127; 0 without a device. C must pass what `bafokun_tick` requires.
#[unsafe(no_mangle)]
pub extern "C" fn bafokun_node_id(alloc: Global, node: &mut Handle) -> u8
    ensures same { node.new.seal.value ≡ node.old.seal.value }
    ensures id { (k : Constants) (before : Inputs) → IsDevice k node.old before →
        result ≡ k.description.node }
    ensures empty { IsEmpty node.old → result ≡ 0 }
{
    match node.take(alloc) {
        Some(held) => {
            let id = held.node.node_id();
            *node = Handle::of(held);
            id
        }
        None => 0,
    }
}

/// During this many ms the device sends nothing, and its entries and its NMT state stay the same,
/// if it gets no other input: a lower bound. These ticks, or fewer, may be passed at once by
/// `bafokun_ticks`. 4294967295 without a device. C must pass what `bafokun_tick` requires.
#[unsafe(no_mangle)]
pub extern "C" fn bafokun_idle(alloc: Global, node: &mut Handle) -> u32
    ensures same { node.new.seal.value ≡ node.old.seal.value }
    ensures idle { (k : Constants) (before : Inputs) → IsDevice k node.old before →
        IsQuietFor k before result }
    ensures empty { IsEmpty node.old → result ≡ 4294967295 }
{
    match node.take(alloc) {
        Some(held) => {
            let idle = held.node.idle();
            *node = Handle::of(held);
            idle
        }
        None => u32::MAX,
    }
}

/// If a device is quiet for at least `most` ticks, as by `bafokun_idle`, `bafokun_ticks` lets all
/// of these elapse: it doesn't end early. This is a law: a call of it changes nothing.
#[tactic(auto, using(crate::proofs::Ticks::all_elapse))]
pub fn idle_ticks_elapse()
    ensures { (k : Constants) (before : Inputs) (count most elapsed : ℕ) →
        IsQuietFor k before count → most ≤ count → AreTicks k before most elapsed →
        elapsed ≡ most }
{}

/// The NMT state (CiA 301, 7.3.2), as the byte of a heartbeat: 4 stopped, 5 operational, 127
/// pre-operational; 0 without a device. C must pass what `bafokun_tick` requires.
#[unsafe(no_mangle)]
pub extern "C" fn bafokun_state(alloc: Global, node: &mut Handle) -> u8
    ensures same { node.new.seal.value ≡ node.old.seal.value }
    ensures state { (k : Constants) (before : Inputs) → IsDevice k node.old before →
        result ≡ state_code (state_of k before) }
    ensures empty { IsEmpty node.old → result ≡ 0 }
{
    match node.take(alloc) {
        Some(held) => {
            let state = state_code(held.node.state());
            *node = Handle::of(held);
            state
        }
        None => 0,
    }
}

/// Gets what happened to the device since the last result of this call, or since the build: what
/// the inputs did. Returns whether anything happened; if not, nothing is written. It is forgotten
/// then, but for the nodes whose heartbeat is lost. C must pass what `bafokun_tick` requires, and
/// events.
#[unsafe(no_mangle)]
pub extern "C" fn bafokun_happened(alloc: Global, node: &mut Handle, events: &mut Events) -> bool
    ensures told { IsTold (told_of (events_of node.old)) events.old events.new result }
    ensures events { events_of node.new ≡ left_of (events_of node.old) }
    ensures device { (k : Constants) (before : Inputs) → IsDevice k node.old before →
        IsDevice k node.new before }
    ensures sent { sent_of node.new ≡ sent_of node.old }
    ensures entries { entries_of node.new ≡ entries_of node.old }
    ensures changes { changes_of node.new ≡ changes_of node.old }
    ensures ending { ending_of node.new ≡ ending_of node.old }
    ensures empty { IsEmpty node.old → IsEmpty node.new }
    ensures untouched { IsEmpty node.old → events.new ≡ events.old }
{
    match node.take(alloc) {
        Some(mut held) => {
            let told = held.happened();
            *node = Handle::of(held);
            match told {
                Some(told) => {
                    *events = told;
                    true
                }
                None => false,
            }
        }
        None => false,
    }
}

/// The answer to the last input: 0 if that was no application event, 1 done, 2 refused. `abort` is
/// the abort code if it was refused, else 0. C must pass what `bafokun_tick` requires, and an abort
/// code.
#[unsafe(no_mangle)]
pub extern "C" fn bafokun_answer(alloc: Global, node: &mut Handle, abort: &mut u32) -> u8
    ensures same { node.new.seal.value ≡ node.old.seal.value }
    ensures answer { (k : Constants) (before : Inputs) → IsDevice k node.old before →
        result ≡ answer_code (app_after k before) }
    ensures abort { (k : Constants) (before : Inputs) → IsDevice k node.old before →
        abort.new ≡ refusal_code (app_after k before) }
    ensures empty { IsEmpty node.old → result ≡ 0 }
{
    *abort = 0;
    match node.take(alloc) {
        Some(held) => {
            let answer = held.node.last_app();
            *node = Handle::of(held);
            match answer {
                AppAnswer::None => 0,
                AppAnswer::Done => 1,
                AppAnswer::Refused(code) => {
                    *abort = code.0;
                    2
                }
            }
        }
        None => 0,
    }
}

/// How many bytes are held for the transfer of an SDO channel; 0 if there is no such channel or no
/// device. They are at most the capacity of the transferred entry plus 889. C must pass what
/// `bafokun_tick` requires.
#[unsafe(no_mangle)]
pub extern "C" fn bafokun_held(alloc: Global, node: &mut Handle, channel: u8) -> usize
    ensures same { node.new.seal.value ≡ node.old.seal.value }
    ensures held { (k : Constants) (before : Inputs) → IsDevice k node.old before →
        result ≡ held_of k before channel }
    ensures room { (k : Constants) (before : Inputs) → IsDevice k node.old before →
        result ≤ room_of k before channel }
    ensures empty { IsEmpty node.old → result ≡ 0 }
{
    match node.take(alloc) {
        Some(held) => {
            let count = held.node.held(channel);
            *node = Handle::of(held);
            count
        }
        None => 0,
    }
}

/// Frees the device and its memory: the place is then empty. C must pass what `bafokun_tick`
/// requires.
#[unsafe(no_mangle)]
pub extern "C" fn bafokun_free(alloc: Global, node: &mut Handle)
    ensures { IsEmpty node.new }
{
    drop(node.take(alloc));
}
