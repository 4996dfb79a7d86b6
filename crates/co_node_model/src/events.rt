//! What an input is to the parts of a device, by its mark.

ghost use Rattle.std.specs.Prelude.{◌≡◌};
ghost use Rattle.co_node_model.specs.Addresses.{is_address_set, may_change_addresses};
ghost use Rattle.co_node_model.specs.Emergencies.{emergency_event};
ghost use Rattle.co_node_model.specs.Heartbeats.{life_of};
ghost use Rattle.co_node_model.specs.Keys.{is_set};
ghost use Rattle.co_node_model.specs.Mappings.{is_mapping_set, may_change_mappings};
ghost use Rattle.co_node_model.specs.Marks.{marked_key};
ghost use Rattle.co_node_model.specs.Nmt.{state_event};
ghost use Rattle.co_node_model.specs.Rpdos.{emptied_by};

use crate::mark::Mark;
use co_frame::Heartbeat;
use co_node_parts::{EmergencyEvent, NodeState, SlotEvent, StateEvent};
use co_profile::{IndexRange, PDO_COB_ID, PdoNumber, TRANSMISSION_TYPE, keys};
use co_value::Key;

/// The event of the NMT state at an input, besides heartbeats that are lost at it.
#[inline(always)]
pub fn state_event(mark: &Mark) -> StateEvent
    ensures { result ≡ state_event mark.now }
{
    match mark.command() {
        Some(service) => StateEvent::Command(service),
        None => StateEvent::Quiet,
    }
}

/// Whether the COB-ID of SYNC or a parameter of an RPDO was written.
#[inline(always)]
fn is_address_set(set: Option<Key>) -> bool
    ensures { result ≡ is_address_set set }
{
    match set {
        Some(key) => {
            key == keys::SYNC_COB_ID
                || IndexRange::RPDO_COMMUNICATION.contains(key.index)
                || IndexRange::RPDO_MAPPING.contains(key.index)
        }
        None => false,
    }
}

/// Whether the input may have changed the identifier of SYNC or of an RPDO: it was a reset, or
/// wrote the COB-ID of SYNC or a parameter of an RPDO.
#[inline(always)]
pub fn may_change_addresses(mark: &Mark) -> bool
    ensures { result ≡ may_change_addresses mark.now }
{
    mark.is_reset() || is_address_set(mark.written())
}

/// Whether a mapping parameter was written.
#[inline(always)]
fn is_mapping_set(set: Option<Key>) -> bool
    ensures { result ≡ is_mapping_set set }
{
    match set {
        Some(key) => {
            IndexRange::RPDO_MAPPING.contains(key.index)
                || IndexRange::TPDO_MAPPING.contains(key.index)
        }
        None => false,
    }
}

/// Whether an input may have changed the mapping of a PDO: it was a reset, or wrote a mapping
/// parameter.
#[inline(always)]
pub fn may_change_mappings(mark: &Mark) -> bool
    ensures { result ≡ may_change_mappings mark.now }
{
    mark.is_reset() || is_mapping_set(mark.written())
}

/// The event of the emergency queue at an input, besides the emergencies that this raised.
#[inline(always)]
pub fn emergency_event(mark: &Mark) -> EmergencyEvent
    ensures { result ≡ emergency_event mark.now }
{
    if mark.is_reset() {
        EmergencyEvent::Empty
    } else if mark.is_tick() {
        EmergencyEvent::Tick
    } else {
        EmergencyEvent::Quiet
    }
}

/// Whether this key was written.
#[inline(always)]
pub fn is_set(mark: &Mark, key: Key) -> bool
    ensures { result ≡ is_set (marked_key mark.now) key }
{
    match mark.written() {
        Some(set) => set == key,
        None => false,
    }
}

/// The boot-up at a reset, else the heartbeat of the state after the input, if one is due.
#[inline(always)]
pub fn life_of(mark: &Mark, after: NodeState, is_due: bool) -> Option<Heartbeat>
    ensures { result ≡ life_of mark.now after is_due }
{
    if mark.is_reset() {
        Some(Heartbeat::BootUp)
    } else if is_due {
        Some(after.heartbeat())
    } else {
        None
    }
}

/// The event of the waiting frames at a write.
#[inline(always)]
pub fn emptied_by(set: Option<Key>) -> SlotEvent
    ensures { result ≡ emptied_by set }
{
    let Some(key) = set else {
        return SlotEvent::Quiet;
    };
    let is_named = key.sub == PDO_COB_ID || key.sub == TRANSMISSION_TYPE;
    if IndexRange::RPDO_COMMUNICATION.contains(key.index) && is_named {
        let number = PdoNumber::of(key.index - IndexRange::RPDO_COMMUNICATION.0);
        SlotEvent::Empty(number)
    } else {
        SlotEvent::Quiet
    }
}
