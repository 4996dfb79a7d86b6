//! The entries of a device for C, by their numbers: from 0 on by increasing key.

ghost use Rattle.std.specs.Prelude.{◌≡◌, false, length};
ghost use Rattle.co_node_model.specs.Inputs.{Inputs};
ghost use Rattle.co_node_model.specs.Moments.{Constants};
ghost use Rattle.co_node_model.specs.Device.{contents_of};
ghost use Rattle.bafokun.specs.Changes.{IsGiven, changes_of};
ghost use Rattle.bafokun.specs.Devices.{IsDevice, IsEmpty, entries_of, sent_of};
ghost use Rattle.co_dict_table.specs.Entries.{entry_at, name_at, number_of};
ghost use Rattle.bafokun.specs.Ending.{ending_of};
ghost use Rattle.bafokun.specs.Entries.{IsEntry, IsNumber};
ghost use Rattle.bafokun.specs.Happened.{events_of};
ghost use Rattle.bafokun.specs.Texts.{IsText};

use crate::entries::Entry;
use crate::handle::Handle;
use crate::texts::put_text;
use co_value::Key;
use std::alloc::Global;

/// Gets the entry with a number, from 0 on by increasing key, so that a loop from 0 until there is
/// none visits all. Returns whether there is such an entry; if not, `entry` is unchanged. C must
/// pass what `bafokun_tick` requires, and an entry.
#[unsafe(no_mangle)]
pub extern "C" fn bafokun_entry(
    alloc: Global,
    node: &mut Handle,
    number: usize,
    entry: &mut Entry,
) -> bool
    ensures same { node.new.seal.value ≡ node.old.seal.value }
    ensures entry { (k : Constants) (before : Inputs) → IsDevice k node.old before →
        IsEntry (entry_at (entries_of node.old) number) (contents_of k before)
        entry.old entry.new result }
    ensures empty { IsEmpty node.old → result ≡ false }
    ensures untouched { IsEmpty node.old → entry.new ≡ entry.old }
{
    match node.take(alloc) {
        Some(held) => {
            let found = match held.entries.get(number) {
                Some(described) => {
                    let length = match held.node.value_at(number, described.facts.key) {
                        Some(bytes) => bytes.len(),
                        None => 0,
                    };
                    *entry = Entry::of(&described, length);
                    true
                }
                None => false,
            };
            *node = Handle::of(held);
            found
        }
        None => false,
    }
}

/// The name of the entry with a number, its ParameterName, as text by the rules of
/// `bafokun_abort_text`; empty if it has none, and if there is no such entry. C must pass what
/// `bafokun_tick` requires, and an array of as many bytes as it states.
#[unsafe(no_mangle)]
pub extern "C" fn bafokun_entry_name(
    alloc: Global,
    node: &mut Handle,
    number: usize,
    text: &mut [u8],
) -> usize
    ensures same { node.new.seal.value ≡ node.old.seal.value }
    ensures name { IsText (name_at (entries_of node.old) number) text.old text.new result }
{
    match node.take(alloc) {
        Some(held) => {
            let count = match held.entries.get(number) {
                Some(described) => put_text(described.name, text),
                None => put_text(&[], text),
            };
            *node = Handle::of(held);
            count
        }
        None => put_text(&[], text),
    }
}

/// Gets the number of the entry with a key. Returns whether there is such an entry; if not,
/// `number` is unchanged. C must pass what `bafokun_tick` requires, and a number.
#[unsafe(no_mangle)]
pub extern "C" fn bafokun_find(
    alloc: Global,
    node: &mut Handle,
    index: u16,
    sub_index: u8,
    number: &mut usize,
) -> bool
    ensures same { node.new.seal.value ≡ node.old.seal.value }
    ensures number { IsNumber
        (number_of (entries_of node.old) (record { index = index; sub = sub_index }))
        number.old number.new result }
{
    let key = Key {
        index,
        sub: sub_index,
    };
    match node.take(alloc) {
        Some(held) => {
            let found = match held.entries.number(key) {
                Some(at) => {
                    *number = at;
                    true
                }
                None => false,
            };
            *node = Handle::of(held);
            found
        }
        None => false,
    }
}

/// Gets the first entry, from number `from` on, that an SDO download, an RPDO or a reset set since
/// the last result of this call that was this entry, or since the build; also to the bytes that it
/// had. It is forgotten then, so that a loop from the number after it visits each such entry once.
/// Returns whether there is one; if not, `number` is unchanged. C must pass what `bafokun_find`
/// requires.
#[unsafe(no_mangle)]
pub extern "C" fn bafokun_next_changed(
    alloc: Global,
    node: &mut Handle,
    from: usize,
    number: &mut usize,
) -> bool
    ensures given { IsGiven (length (entries_of node.old)) (changes_of node.old) from
        number.old number.new result (changes_of node.new) }
    ensures device { (k : Constants) (before : Inputs) → IsDevice k node.old before →
        IsDevice k node.new before }
    ensures sent { sent_of node.new ≡ sent_of node.old }
    ensures entries { entries_of node.new ≡ entries_of node.old }
    ensures events { events_of node.new ≡ events_of node.old }
    ensures ending { ending_of node.new ≡ ending_of node.old }
    ensures empty { IsEmpty node.old → IsEmpty node.new }
    ensures nothing { IsEmpty node.old → result ≡ false }
    ensures untouched { IsEmpty node.old → number.new ≡ number.old }
{
    match node.take(alloc) {
        Some(mut held) => {
            let found = held.next_changed(from);
            *node = Handle::of(held);
            match found {
                Some(at) => {
                    *number = at;
                    true
                }
                None => false,
            }
        }
        None => false,
    }
}
