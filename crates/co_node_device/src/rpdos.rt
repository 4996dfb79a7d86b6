//! RPDOs: their frames, those that wait for a SYNC, errors of length, and data that take effect
//! (CiA 301, 7.2.2).

ghost use Rattle.std.specs.Prelude.{◌≡◌, None, IfSome, [], if◌then◌else◌, ◌∷◌, true};
ghost use Rattle.co_dict.specs.Rows.{Contents};
ghost use Rattle.co_dict.specs.Stores.{Description};
ghost use Rattle.co_node_model.specs.Rpdos.{
  IsMappedLength,
  IsTypeOf,
  is_short,
  kept_by,
  mapped_length,
  slot_event,
  rpdo_errors,
  after_data,
  data_emergencies,
  immediate,
  value_errors,
  after_all_data,
  all_data_emergencies,
};
ghost use Rattle.std.specs.List.{cons_option};
ghost use Rattle.co_dict.specs.declared.side.Side.TheVariants.{Rpdo};
ghost use Rattle.co_node_device.specs.MappingTables.{HaveParts, IsMappingTable};
ghost use Rattle.co_node_device.specs.SlotTables.{AreSlotsOf};
ghost use Rattle.co_pdo.specs.Mappings.{has_pdo};
ghost use Rattle.co_node_parts.specs.EmergencyQueues.{EmergencyLog, EmergenciesStand, with_queued};
ghost use Rattle.co_pdo.specs.Images.{answered};
ghost use Rattle.co_node_model.specs.Emergencies.{all_raised, emergencies_of};
ghost use Rattle.co_node_parts.specs.RpdoSlots.{SlotLog};
ghost use Rattle.co_node_device.specs.Effects.{length_errors_of, after_lengths, after_effects, effect_emergencies};
ghost use Rattle.co_node_model.specs.Marks.{marked_rpdo};
ghost use Rattle.co_dict_placed.specs.Changes.{with_keys};
ghost use Rattle.co_node_device.specs.SetEntries.{set_by_all_data, set_by_data, set_by_effects};

use crate::emergencies::{raise_and_queue, raise_some};
use crate::mapping_table::{MappingTable, mappings_stay};
use crate::sync::sync_error;
use co_dict::{ObjectStore, number_u8};
use co_frame::Frame;
use co_node_laws::settings_kept;
use co_node_model::{DeviceError, Mark, emptied_by};
use co_node_parts::{Emergencies, KeptFrame, NodeState, RpdoSlots, SlotEvent, Transition};
use co_pdo::PdoFault;
use co_profile::{IndexRange, TRANSMISSION_TYPE, TransmissionType};
use co_value::Key;

/// The transmission type of the RPDO of a received frame, 0 if the dictionary has none; 0 if there
/// is no such frame (CiA 301, 7.5.2.35).
fn type_of<S: ObjectStore>(store: &S, rpdo: &Option<KeptFrame>) -> u8
    ensures { IsTypeOf (S.contents store.now) rpdo.now result }
{
    match rpdo {
        Some(rpdo) => {
            let index = IndexRange::RPDO_COMMUNICATION.nth(rpdo.number.get());
            number_u8(
                store,
                Key {
                    index,
                    sub: TRANSMISSION_TYPE,
                },
            )
        }
        None => 0,
    }
}

/// Whether a frame of an RPDO has fewer than the `mapped` bytes.
#[inline(always)]
fn is_short(mapped: usize, rpdo: &KeptFrame) -> bool
    ensures { (d : Description) (contents : Contents) →
        mapped ≡ mapped_length d contents rpdo.now.number →
        result ≡ is_short d contents rpdo.now }
{
    rpdo.frame.bytes().len() < mapped
}

/// The event of the waiting frames at a frame of an RPDO, which has transmission type `kind` and
/// maps `mapped` bytes.
#[inline(always)]
fn kept_by(kind: u8, mapped: usize, rpdo: &Option<KeptFrame>) -> SlotEvent
    ensures { (d : Description) (contents : Contents) → IsTypeOf contents rpdo.now kind →
        IsMappedLength d contents rpdo.now mapped → result ≡ kept_by d contents rpdo.now }
{
    let Some(rpdo) = rpdo else {
        return SlotEvent::Quiet;
    };
    if TransmissionType(kind).is_synchronous() && !is_short(mapped, rpdo) {
        SlotEvent::Keep(rpdo.number, rpdo.frame)
    } else {
        SlotEvent::Quiet
    }
}

/// The event of the frames that wait for a SYNC, by the states before and after the input. The RPDO
/// of a received frame has transmission type `kind`, and maps `mapped` bytes.
#[inline(always)]
fn slot_event(mark: &Mark, kind: u8, mapped: usize, transition: Transition) -> SlotEvent
    ensures { (d : Description) (contents : Contents) →
        IsTypeOf contents (marked_rpdo mark.now) kind → IsMappedLength d contents
        (marked_rpdo mark.now) mapped →
        result ≡ slot_event d contents mark.now transition }
{
    if mark.is_reset() || transition.leaves(NodeState::Operational) {
        return SlotEvent::EmptyAll;
    }
    if mark.sync().is_some() && transition.after == NodeState::Operational {
        return SlotEvent::Sync;
    }
    if mark.written().is_some() {
        return emptied_by(mark.written());
    }
    kept_by(kind, mapped, &mark.rpdo())
}

/// The error of the length of a received frame of an RPDO, which maps `mapped` bytes: 8210h if the
/// frame has fewer, 8220h if it has more, at any transmission type (CiA 301, 7.2.2.5).
#[inline(always)]
fn rpdo_error(mapped: usize, rpdo: &Option<KeptFrame>) -> Option<DeviceError>
    ensures { (d : Description) (contents : Contents) → IsMappedLength d contents rpdo.now mapped →
        cons_option result [] ≡ rpdo_errors d contents rpdo.now }
{
    let Some(rpdo) = rpdo else {
        return None;
    };
    let count = rpdo.frame.bytes().len();
    if count < mapped {
        Some(DeviceError::PDO_TOO_SHORT)
    } else if mapped < count {
        Some(DeviceError::PDO_TOO_LONG)
    } else {
        None
    }
}

/// Whether the data of a received frame of an RPDO take effect at once: its transmission type
/// `kind` is 254 or 255, and it has at least the `mapped` bytes (CiA 301, 7.2.2.2 and 7.5.2.35).
#[inline(always)]
fn is_immediate(kind: u8, mapped: usize, rpdo: &Option<KeptFrame>) -> bool
    ensures { (d : Description) (contents : Contents) → IsTypeOf contents rpdo.now kind →
        IsMappedLength d contents rpdo.now mapped →
        (if result then cons_option rpdo.now [] else []) ≡ immediate d contents rpdo.now }
{
    let Some(rpdo) = rpdo else {
        return false;
    };
    TransmissionType(kind).is_event_driven() && !is_short(mapped, rpdo)
}

/// Raises the error of data that took effect, if any, and queues its emergency.
fn raise_outcome<S: ObjectStore>(
    store: &mut S,
    emergencies: &mut Emergencies,
    outcome: Result<(), PdoFault>,
)
    ensures description { S.description store.new ≡ S.description store.old }
    ensures contents { S.contents store.new ≡ all_raised (S.description store.old).rows
        (value_errors (answered outcome)) (S.contents store.old) }
    ensures emergencies { (log : EmergencyLog) → EmergenciesStand emergencies.old log →
        EmergenciesStand emergencies.new (with_queued (emergencies_of
        (S.description store.old).rows (value_errors (answered outcome)) (S.contents store.old))
        log) }
{
    if let Err(PdoFault::OutOfLimits) = outcome {
        raise_and_queue(DeviceError::VALUE_OUTSIDE_LIMITS, store, emergencies);
    }
}

/// The data of a frame of an RPDO take effect, by the compiled mappings of the RPDOs: all values
/// are written. If one is outside its limits none is, and error 8200h is raised and its emergency
/// queued. The length was checked at reception. The entries that are written are noted in `changes`.
fn take_data<S: ObjectStore>(
    store: &mut S,
    mappings: &MappingTable,
    emergencies: &mut Emergencies,
    changes: &mut [u8],
    rpdo: &KeptFrame,
)
    requires { HaveParts (S.description store.old) mappings.now }
    ensures description { S.description store.new ≡ S.description store.old }
    ensures contents { IsMappingTable Rpdo (S.description store.old) (S.contents store.old)
        mappings.now →
        S.contents store.new ≡
        after_data (S.description store.old) (S.contents store.old) rpdo.now }
    ensures table { IsMappingTable Rpdo (S.description store.old) (S.contents store.old)
        mappings.now →
        IsMappingTable Rpdo (S.description store.old) (S.contents store.new) mappings.now }
    ensures emergencies { (log : EmergencyLog) →
        IsMappingTable Rpdo (S.description store.old) (S.contents store.old) mappings.now →
        EmergenciesStand emergencies.old log →
        EmergenciesStand emergencies.new (with_queued
        (data_emergencies (S.description store.old) (S.contents store.old) rpdo.now) log) }
    ensures changes { IsMappingTable Rpdo (S.description store.old) (S.contents store.old)
        mappings.now →
        changes.new ≡ with_keys (S.description store.old)
        (set_by_data (S.description store.old) (S.contents store.old) rpdo.now) changes.old }
{
    let outcome = mappings.apply(store, rpdo.number, rpdo.frame.bytes(), changes);
    raise_outcome(store, emergencies, outcome);
    // laws: calls of them change nothing
    settings_kept();
    mappings_stay();
}

/// Raises the errors of the length of a SYNC, and of a frame of an RPDO, which maps `mapped` bytes.
#[inline(always)]
fn raise_lengths<S: ObjectStore>(
    store: &mut S,
    emergencies: &mut Emergencies,
    mark: &Mark,
    mapped: usize,
)
    ensures description { S.description store.new ≡ S.description store.old }
    ensures contents { IsMappedLength (S.description store.old) (S.contents store.old)
        (marked_rpdo mark.now) mapped →
        S.contents store.new ≡
        after_lengths (S.description store.old) (S.contents store.old) mark.now }
    ensures emergencies { (queued : EmergencyLog) →
        IsMappedLength (S.description store.old) (S.contents store.old) (marked_rpdo mark.now)
        mapped →
        EmergenciesStand emergencies.old queued →
        EmergenciesStand emergencies.new (with_queued (emergencies_of (S.description store.old).rows
        (length_errors_of (S.description store.old) (S.contents store.old) mark.now)
        (S.contents store.old)) queued) }
{
    let of_sync = sync_error(store, &mark.sync());
    let of_rpdo = rpdo_error(mapped, &mark.rpdo());
    raise_some(store, emergencies, of_sync);
    raise_some(store, emergencies, of_rpdo);
}

/// The data of frames take effect, in order.
#[inline(always)]
fn take_all_data<S: ObjectStore>(
    store: &mut S,
    mappings: &MappingTable,
    emergencies: &mut Emergencies,
    changes: &mut [u8],
    rpdos: &[KeptFrame],
)
    requires { HaveParts (S.description store.old) mappings.now }
    ensures description { S.description store.new ≡ S.description store.old }
    ensures contents { IsMappingTable Rpdo (S.description store.old) (S.contents store.old)
        mappings.now → S.contents store.new ≡
        after_all_data (S.description store.old) (S.contents store.old) rpdos.now }
    ensures table { IsMappingTable Rpdo (S.description store.old) (S.contents store.old)
        mappings.now →
        IsMappingTable Rpdo (S.description store.old) (S.contents store.new) mappings.now }
    ensures emergencies { (queued : EmergencyLog) →
        IsMappingTable Rpdo (S.description store.old) (S.contents store.old) mappings.now →
        EmergenciesStand emergencies.old queued → EmergenciesStand emergencies.new (with_queued
        (all_data_emergencies (S.description store.old) (S.contents store.old) rpdos.now) queued) }
    ensures changes { IsMappingTable Rpdo (S.description store.old) (S.contents store.old)
        mappings.now → changes.new ≡ with_keys (S.description store.old)
        (set_by_all_data (S.description store.old) (S.contents store.old) rpdos.now) changes.old }
{
    for rpdo in rpdos {
        take_data(store, mappings, emergencies, changes, rpdo);
    }
}

/// The data of a received frame take effect, if `is_immediate`.
#[inline(always)]
fn take_at_once<S: ObjectStore>(
    store: &mut S,
    mappings: &MappingTable,
    emergencies: &mut Emergencies,
    changes: &mut [u8],
    rpdo: &Option<KeptFrame>,
    is_immediate: bool,
)
    requires { HaveParts (S.description store.old) mappings.now }
    ensures description { S.description store.new ≡ S.description store.old }
    ensures contents { IsMappingTable Rpdo (S.description store.old) (S.contents store.old)
        mappings.now →
        S.contents store.new ≡ after_all_data (S.description store.old) (S.contents store.old)
        (if is_immediate then cons_option rpdo.now [] else []) }
    ensures emergencies { (queued : EmergencyLog) →
        IsMappingTable Rpdo (S.description store.old) (S.contents store.old) mappings.now →
        EmergenciesStand emergencies.old queued →
        EmergenciesStand emergencies.new (with_queued (all_data_emergencies
        (S.description store.old) (S.contents store.old)
        (if is_immediate then cons_option rpdo.now [] else [])) queued) }
    ensures changes { IsMappingTable Rpdo (S.description store.old) (S.contents store.old)
        mappings.now →
        changes.new ≡ with_keys (S.description store.old) (set_by_all_data (S.description store.old)
        (S.contents store.old) (if is_immediate then cons_option rpdo.now [] else [])) changes.old }
{
    if !is_immediate {
        return;
    }
    if let Some(rpdo) = rpdo {
        take_data(store, mappings, emergencies, changes, rpdo);
    }
}

/// How many bytes the RPDO of a received frame maps; 0 if there is no such frame.
#[inline(always)]
fn mapped_length(mappings: &MappingTable, rpdo: &Option<KeptFrame>) -> usize
    ensures { (d : Description) (contents : Contents) →
        IsMappingTable Rpdo d contents mappings.now → IsMappedLength d contents rpdo.now result }
{
    match rpdo {
        Some(rpdo) => mappings.width(rpdo.number),
        None => 0,
    }
}

/// SYNC and RPDO frames at an input, by the NMT states before and after it. Errors of their lengths
/// are raised first; then data take effect, by number: at a SYNC those of the waiting frames, and
/// those of a received frame of transmission type 254 or 255. The emergency of each error is
/// queued. `mappings` are the compiled mappings of the RPDOs in the dictionary now. The entries that
/// are written are noted in `changes`.
#[inline(always)]
pub(crate) fn take_pdos<S: ObjectStore>(
    store: &mut S,
    mappings: &MappingTable,
    slots: &mut RpdoSlots,
    emergencies: &mut Emergencies,
    changes: &mut [u8],
    mark: &Mark,
    transition: Transition,
)
    requires { HaveParts (S.description store.old) mappings.now }
    ensures description { S.description store.new ≡ S.description store.old }
    ensures slots { (log : SlotLog) →
        IsMappingTable Rpdo (S.description store.old) (S.contents store.old) mappings.now →
        AreSlotsOf (S.description store.old) slots.old log →
        IfSome (marked_rpdo mark.now) (λ rpdo.
        has_pdo Rpdo (S.description store.old).rows rpdo.number ≡ true) →
        AreSlotsOf (S.description store.old) slots.new
        (slot_event (S.description store.old) (S.contents store.old) mark.now transition ∷ log) }
    ensures contents { (log : SlotLog) →
        IsMappingTable Rpdo (S.description store.old) (S.contents store.old) mappings.now →
        AreSlotsOf (S.description store.old) slots.old log → S.contents store.new ≡
        after_effects (S.description store.old) (S.contents store.old) mark.now transition log }
    ensures emergencies { (log : SlotLog) (queued : EmergencyLog) →
        IsMappingTable Rpdo (S.description store.old) (S.contents store.old) mappings.now →
        AreSlotsOf (S.description store.old) slots.old log →
        EmergenciesStand emergencies.old queued →
        EmergenciesStand emergencies.new (with_queued (effect_emergencies
        (S.description store.old) (S.contents store.old) mark.now transition log) queued) }
    ensures changes { (log : SlotLog) →
        IsMappingTable Rpdo (S.description store.old) (S.contents store.old) mappings.now →
        AreSlotsOf (S.description store.old) slots.old log →
        changes.new ≡ with_keys (S.description store.old) (set_by_effects (S.description store.old)
        (S.contents store.old) mark.now transition log) changes.old }
{
    // borrowed in place of the mark, so that facts about the mark stay known
    let rpdo = mark.rpdo();
    let mapped = mapped_length(mappings, &rpdo);
    let kind = type_of(store, &rpdo);
    slots.note(slot_event(mark, kind, mapped, transition));
    let at_once = is_immediate(kind, mapped, &rpdo);
    raise_lengths(store, emergencies, mark, mapped);
    take_all_data(store, mappings, emergencies, changes, slots.taken());
    take_at_once(store, mappings, emergencies, changes, &rpdo, at_once);
    // laws: calls of them change nothing
    settings_kept();
    mappings_stay();
}
