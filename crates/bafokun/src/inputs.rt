//! The inputs of a device from C.

ghost use Rattle.std.specs.Prelude.{◌≡◌, Some};
ghost use Rattle.co_node_model.specs.Inputs.{
  Inputs,
  Framed,
  Ticked,
  Applied,
  Written,
  EventOn,
  ChangedAt,
  Raised,
  Cleared,
};
ghost use Rattle.co_node_model.specs.Moments.{Constants};
ghost use Rattle.bafokun.specs.Bus.{GivesBus, bus_input, ending_after};
ghost use Rattle.bafokun.specs.Devices.{Gives, GivesBootUp, IsDevice, IsEmpty, IsQuiet, entries_of};
ghost use Rattle.bafokun.specs.Changes.{and_set, changes_of};
ghost use Rattle.bafokun.specs.Ending.{by_input, by_ticks, ending_of};
ghost use Rattle.bafokun.specs.Entries.{key_numbered};
ghost use Rattle.bafokun.specs.Frames.{IsCan, content_of};
ghost use Rattle.bafokun.specs.Happened.{and_bus, and_input, and_ticks, events_of};
ghost use Rattle.bafokun.specs.Ticks.{GivesTicks};

use crate::entries::Named;
use crate::frames::CanFrame;
use crate::handle::Handle;
use co_node::AppEvent;
use co_value::Key;
use std::alloc::Global;

/// The boot-up of a device (CiA 301, 7.2.8.3.3), to be sent once after it was built; put and
/// counted as by `bafokun_tick`. C must pass what `bafokun_tick` requires.
#[unsafe(no_mangle)]
pub extern "C" fn bafokun_boot(alloc: Global, node: &mut Handle, frames: &mut [CanFrame]) -> usize
    ensures gives { (k : Constants) (before : Inputs) → IsDevice k node.old before →
        GivesBootUp k before node.new frames.old frames.new result }
    ensures empty { IsEmpty node.old → IsQuiet node.new frames.old frames.new result }
    ensures entries { entries_of node.new ≡ entries_of node.old }
    ensures changes { changes_of node.new ≡ changes_of node.old }
    ensures events { events_of node.new ≡ events_of node.old }
    ensures ending { ending_of node.new ≡ ending_of node.old }
{
    match node.take(alloc) {
        Some(mut held) => {
            held.boot();
            node.give(held, frames)
        }
        None => 0,
    }
}

/// A frame was received. Nothing happens if it is no CAN frame: an identifier above 7FFh, or more
/// than 8 bytes. C must pass what `bafokun_tick` requires, and a frame outside the array.
#[unsafe(no_mangle)]
pub extern "C" fn bafokun_take(
    node: &mut Handle,
    frame: &CanFrame,
    frames: &mut [CanFrame],
) -> usize
    ensures gives { (k : Constants) (before : Inputs) → IsDevice k node.old before →
        IsCan frame.now →
        Gives k before (Framed (content_of frame.now)) node.new frames.old frames.new result }
    ensures empty { IsEmpty node.old → IsQuiet node.new frames.old frames.new result }
    ensures entries { entries_of node.new ≡ entries_of node.old }
    ensures changes { (k : Constants) (before : Inputs) → IsDevice k node.old before →
        IsCan frame.now →
        changes_of node.new ≡ and_set k before (Framed (content_of frame.now)) (entries_of node.old)
        (changes_of node.old) }
    ensures events { (k : Constants) (before : Inputs) → IsDevice k node.old before →
        IsCan frame.now →
        events_of node.new ≡ and_input k before (Framed (content_of frame.now))
        (events_of node.old) }
    ensures ending { (k : Constants) (before : Inputs) → IsDevice k node.old before →
        IsCan frame.now →
        ending_of node.new ≡ by_input k before (Framed (content_of frame.now))
        (ending_of node.old) }
    ensures no_frame { (IsCan frame.now → ⊥) → node.new ≡ node.old }
    ensures nothing { (IsCan frame.now → ⊥) → result ≡ 0 }
    ensures untouched { (IsCan frame.now → ⊥) → frames.new ≡ frames.old }
{
    match frame.read() {
        Some(frame) => node.take_frame(&frame, frames),
        None => 0,
    }
}

/// 1 ms elapsed. The frames that the device then sends are put into the array, as many as it has
/// room for. Returns how many there are; `bafokun_sent` returns the others. C must pass the place
/// of a device, empty or filled by `bafokun_build`, and an array of as many frames as it states; it
/// must make no other call for this place at the same time.
#[unsafe(no_mangle)]
pub extern "C" fn bafokun_tick(node: &mut Handle, frames: &mut [CanFrame]) -> usize
    ensures gives { (k : Constants) (before : Inputs) → IsDevice k node.old before →
        Gives k before Ticked node.new frames.old frames.new result }
    ensures empty { IsEmpty node.old → IsQuiet node.new frames.old frames.new result }
    ensures entries { entries_of node.new ≡ entries_of node.old }
    ensures changes { changes_of node.new ≡ changes_of node.old }
    ensures events { (k : Constants) (before : Inputs) → IsDevice k node.old before →
        events_of node.new ≡ and_input k before Ticked (events_of node.old) }
    ensures ending { (k : Constants) (before : Inputs) → IsDevice k node.old before →
        ending_of node.new ≡ by_input k before Ticked (ending_of node.old) }
{
    node.tick(frames)
}

/// Several ms elapsed, at most `most`: the ticks end with the first that sends frames, so that
/// these are sent before the next tick. `elapsed` is how many elapsed: all, if none sends frames.
/// The frames of the last one are put and counted as by `bafokun_tick`. Without a device all
/// elapse, and nothing happens. C must pass what `bafokun_tick` requires, and `elapsed` outside the
/// array.
#[unsafe(no_mangle)]
pub extern "C" fn bafokun_ticks(
    alloc: Global,
    node: &mut Handle,
    most: u32,
    elapsed: &mut u32,
    frames: &mut [CanFrame],
) -> usize
    ensures gives { (k : Constants) (before : Inputs) → IsDevice k node.old before →
        GivesTicks k before most elapsed.new node.new frames.old frames.new result }
    ensures empty { IsEmpty node.old → IsQuiet node.new frames.old frames.new result }
    ensures entries { entries_of node.new ≡ entries_of node.old }
    ensures changes { changes_of node.new ≡ changes_of node.old }
    ensures events { (k : Constants) (before : Inputs) → IsDevice k node.old before →
        events_of node.new ≡ and_ticks k before elapsed.new (events_of node.old) }
    ensures ending { (k : Constants) (before : Inputs) → IsDevice k node.old before →
        ending_of node.new ≡ by_ticks k before elapsed.new (ending_of node.old) }
    ensures all { IsEmpty node.old → elapsed.new ≡ most }
{
    match node.take(alloc) {
        Some(mut held) => {
            *elapsed = held.ticks(most);
            node.give(held, frames)
        }
        None => {
            *elapsed = most;
            0
        }
    }
}

/// The application writes an entry, even if SDO clients may only read it; `bafokun_answer` returns
/// the answer. C must pass what `bafokun_tick` requires, and as many bytes as it states, outside
/// the array.
#[unsafe(no_mangle)]
pub extern "C" fn bafokun_write(
    alloc: Global,
    node: &mut Handle,
    index: u16,
    sub_index: u8,
    bytes: &[u8],
    frames: &mut [CanFrame],
) -> usize
    ensures gives { (k : Constants) (before : Inputs) → IsDevice k node.old before →
        Gives k before (Applied (Written (record { index = index; sub = sub_index }) bytes.now))
        node.new frames.old frames.new result }
    ensures empty { IsEmpty node.old → IsQuiet node.new frames.old frames.new result }
    ensures entries { entries_of node.new ≡ entries_of node.old }
    ensures changes { changes_of node.new ≡ changes_of node.old }
    ensures events { (k : Constants) (before : Inputs) → IsDevice k node.old before →
        events_of node.new ≡ and_input k before
        (Applied (Written (record { index = index; sub = sub_index }) bytes.now))
        (events_of node.old) }
    ensures ending { (k : Constants) (before : Inputs) → IsDevice k node.old before →
        ending_of node.new ≡ by_input k before
        (Applied (Written (record { index = index; sub = sub_index }) bytes.now))
        (ending_of node.old) }
{
    let key = Key {
        index,
        sub: sub_index,
    };
    node.write(alloc, Named::Key(key), bytes, frames)
}

/// The same of the entry with a number, without a search. A number that no entry has is refused, as
/// key 0000:00, which no device has. C must pass what `bafokun_write` requires.
#[unsafe(no_mangle)]
pub extern "C" fn bafokun_write_at(
    alloc: Global,
    node: &mut Handle,
    number: usize,
    bytes: &[u8],
    frames: &mut [CanFrame],
) -> usize
    ensures gives { (k : Constants) (before : Inputs) → IsDevice k node.old before →
        Gives k before (Applied (Written (key_numbered (entries_of node.old) number) bytes.now))
        node.new frames.old frames.new result }
    ensures empty { IsEmpty node.old → IsQuiet node.new frames.old frames.new result }
    ensures entries { entries_of node.new ≡ entries_of node.old }
    ensures changes { changes_of node.new ≡ changes_of node.old }
    ensures events { (k : Constants) (before : Inputs) → IsDevice k node.old before →
        events_of node.new ≡ and_input k before
        (Applied (Written (key_numbered (entries_of node.old) number) bytes.now))
        (events_of node.old) }
    ensures ending { (k : Constants) (before : Inputs) → IsDevice k node.old before →
        ending_of node.new ≡ by_input k before
        (Applied (Written (key_numbered (entries_of node.old) number) bytes.now))
        (ending_of node.old) }
{
    node.write(alloc, Named::Number(number), bytes, frames)
}

/// An event of the TPDO with a number, from 0: k of 1800h + k. C must pass what `bafokun_tick`
/// requires.
#[unsafe(no_mangle)]
pub extern "C" fn bafokun_event(
    alloc: Global,
    node: &mut Handle,
    tpdo: u16,
    frames: &mut [CanFrame],
) -> usize
    ensures gives { (k : Constants) (before : Inputs) → IsDevice k node.old before →
        Gives k before (Applied (EventOn tpdo)) node.new frames.old frames.new result }
    ensures empty { IsEmpty node.old → IsQuiet node.new frames.old frames.new result }
    ensures entries { entries_of node.new ≡ entries_of node.old }
    ensures changes { changes_of node.new ≡ changes_of node.old }
    ensures events { (k : Constants) (before : Inputs) → IsDevice k node.old before →
        events_of node.new ≡ and_input k before (Applied (EventOn tpdo)) (events_of node.old) }
    ensures ending { (k : Constants) (before : Inputs) → IsDevice k node.old before →
        ending_of node.new ≡ by_input k before (Applied (EventOn tpdo)) (ending_of node.old) }
{
    node.take_event(alloc, AppEvent::Event(tpdo), frames)
}

/// The value of an entry changed: an event of each active TPDO that maps it. C must pass what
/// `bafokun_tick` requires.
#[unsafe(no_mangle)]
pub extern "C" fn bafokun_changed(
    alloc: Global,
    node: &mut Handle,
    index: u16,
    sub_index: u8,
    frames: &mut [CanFrame],
) -> usize
    ensures gives { (k : Constants) (before : Inputs) → IsDevice k node.old before →
        Gives k before (Applied (ChangedAt (record { index = index; sub = sub_index })))
        node.new frames.old frames.new result }
    ensures empty { IsEmpty node.old → IsQuiet node.new frames.old frames.new result }
    ensures entries { entries_of node.new ≡ entries_of node.old }
    ensures changes { changes_of node.new ≡ changes_of node.old }
    ensures events { (k : Constants) (before : Inputs) → IsDevice k node.old before →
        events_of node.new ≡ and_input k before
        (Applied (ChangedAt (record { index = index; sub = sub_index }))) (events_of node.old) }
    ensures ending { (k : Constants) (before : Inputs) → IsDevice k node.old before →
        ending_of node.new ≡ by_input k before
        (Applied (ChangedAt (record { index = index; sub = sub_index }))) (ending_of node.old) }
{
    let key = Key {
        index,
        sub: sub_index,
    };
    node.take_event(alloc, AppEvent::Changed(key), frames)
}

/// An error is raised: its emergency error code, the bits that it sets in the error register
/// besides bit 0, and the manufacturer-specific five bytes (CiA 301, 7.2.7). Code 0 is refused. C
/// must pass what `bafokun_tick` requires, and the five bytes, outside the array.
#[unsafe(no_mangle)]
pub extern "C" fn bafokun_raise(
    alloc: Global,
    node: &mut Handle,
    code: u16,
    bits: u8,
    manufacturer: &[u8; 5],
    frames: &mut [CanFrame],
) -> usize
    ensures gives { (k : Constants) (before : Inputs) → IsDevice k node.old before →
        Gives k before (Applied (Raised code bits manufacturer.now))
        node.new frames.old frames.new result }
    ensures empty { IsEmpty node.old → IsQuiet node.new frames.old frames.new result }
    ensures entries { entries_of node.new ≡ entries_of node.old }
    ensures changes { changes_of node.new ≡ changes_of node.old }
    ensures events { (k : Constants) (before : Inputs) → IsDevice k node.old before →
        events_of node.new ≡ and_input k before (Applied (Raised code bits manufacturer.now))
        (events_of node.old) }
    ensures ending { (k : Constants) (before : Inputs) → IsDevice k node.old before →
        ending_of node.new ≡ by_input k before (Applied (Raised code bits manufacturer.now))
        (ending_of node.old) }
{
    node.take_event(alloc, AppEvent::Raise(code, bits, *manufacturer), frames)
}

/// Errors are gone: these bits of the error register are cleared. C must pass what `bafokun_tick`
/// requires.
#[unsafe(no_mangle)]
pub extern "C" fn bafokun_clear(
    alloc: Global,
    node: &mut Handle,
    bits: u8,
    frames: &mut [CanFrame],
) -> usize
    ensures gives { (k : Constants) (before : Inputs) → IsDevice k node.old before →
        Gives k before (Applied (Cleared bits)) node.new frames.old frames.new result }
    ensures empty { IsEmpty node.old → IsQuiet node.new frames.old frames.new result }
    ensures entries { entries_of node.new ≡ entries_of node.old }
    ensures changes { changes_of node.new ≡ changes_of node.old }
    ensures events { (k : Constants) (before : Inputs) → IsDevice k node.old before →
        events_of node.new ≡ and_input k before (Applied (Cleared bits)) (events_of node.old) }
    ensures ending { (k : Constants) (before : Inputs) → IsDevice k node.old before →
        ending_of node.new ≡ by_input k before (Applied (Cleared bits)) (ending_of node.old) }
{
    node.take_event(alloc, AppEvent::Clear(bits), frames)
}

/// A change of the CAN controller: 0 error active again, 1 error passive, 2 bus-off, 3 recovered
/// from bus-off. Error passive raises error 8120h, recovered 8140h, each with bit 4 of the error
/// register. Error active clears that bit if these two alone have set it, and bit 0 if no other is
/// left and no error is known that has it alone (CiA 301, 7.2.7.1). Bus-off changes the NMT state
/// as a lost heartbeat does, by 1029:01 (CiA 301, 7.5.2.32). Any other number is no input. C must
/// pass what `bafokun_tick` requires.
#[tactic(auto, using(crate::proofs::GivenBus::given_bus))]
#[unsafe(no_mangle)]
pub extern "C" fn bafokun_bus(
    alloc: Global,
    node: &mut Handle,
    change: u8,
    frames: &mut [CanFrame],
) -> usize
    ensures gives { (k : Constants) (before : Inputs) → IsDevice k node.old before →
        GivesBus k before (bus_input k before (ending_of node.old) change)
        node.new frames.old frames.new result }
    ensures empty { IsEmpty node.old → IsQuiet node.new frames.old frames.new result }
    ensures entries { entries_of node.new ≡ entries_of node.old }
    ensures changes { changes_of node.new ≡ changes_of node.old }
    ensures events { (k : Constants) (before : Inputs) → IsDevice k node.old before →
        events_of node.new ≡ and_bus k before (bus_input k before (ending_of node.old) change)
        (events_of node.old) }
    ensures ending { (k : Constants) (before : Inputs) → IsDevice k node.old before →
        ending_of node.new ≡ ending_after k before change (ending_of node.old) }
{
    match node.take(alloc) {
        Some(mut held) => {
            held.bus(change);
            node.give(held, frames)
        }
        None => 0,
    }
}
