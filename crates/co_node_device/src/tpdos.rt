//! TPDOs: the turn of their schedule at an input, which are due, and their frames (CiA 301, 7.2.2.2
//! to 7.2.2.4).

ghost use Rattle.std.specs.Prelude.{◌≡◌, ◌≤◌, [], length, true, false, ◌+◌, ◌++◌, map};
ghost use Rattle.std.specs.List.{list_any};
ghost use Rattle.co_node_model.specs.Tpdos.{
  is_entry,
  is_mapped_into,
  numbers_asked,
  turn_of,
  turn_by_write,
  due_at,
  with_turn,
  tpdo_frame,
};
ghost use Rattle.co_pdo.specs.Schedules.{History, IsScheduleAfter, AllCurrent};
ghost use Rattle.co_node_laws.specs.Calls.{is_asked};
ghost use Rattle.co_frame.specs.Outboxes.{outbox_room};
ghost use Rattle.co_dict.specs.declared.side.Side.TheVariants.{Tpdo};
ghost use Rattle.co_node_device.specs.MappingTables.{HaveParts, IsMappingTable};
ghost use Rattle.co_node_device.specs.Receiving.{may_be_due};

use crate::mapping_table::MappingTable;
use arrayvec::ArrayVec;
use co_dict::{ObjectStore, Side};
use co_frame::{Frame, Outbox};
use co_node_model::{Asked, Mark, Turn, counter_in};
use co_node_parts::{NodeState, Transition};
use co_pdo::{Due, Mapped, Mapping, Part, PdoNumber, Schedule, is_active};
use co_profile::{EVENT_TIMER, IndexRange, PDO_COB_ID, TRANSMISSION_TYPE};
use co_value::Key;

/// Whether a mapped object is this entry.
fn is_entry(key: Key, mapped: Mapped) -> bool
    ensures { result ≡ is_entry key mapped }
{
    match mapped {
        Mapped::Entry(entry, _) => entry == key,
        Mapped::Dummy(_) => false,
    }
}

/// Whether an entry is mapped, once or more.
fn maps(mapping: &[Mapped], key: Key) -> bool
    ensures { result ≡ list_any (is_entry key) mapping.now }
{
    mapping.iter().any(|&mapped| is_entry(key, mapped))
}

/// Whether a TPDO is active and maps an entry.
fn is_mapped_into<S: ObjectStore>(store: &S, key: Key, number: PdoNumber) -> bool
    ensures { result ≡
        is_mapped_into (S.description store.now) (S.contents store.now) key number }
{
    is_active(store, Side::Tpdo, number)
        && maps(Mapping::read(store, Side::Tpdo, number).entries(), key)
}

/// The numbers of the active TPDOs that map an entry, increasing.
fn numbers_with<S: ObjectStore>(store: &S, key: Key) -> ArrayVec<PdoNumber, 512>
    ensures { result.items ≡ numbers_asked (S.description store.now) (S.contents store.now)
        (Asked.Changed key) }
{
    let mut numbers = ArrayVec::new();
    for k in 0..512u16 {
        let number = PdoNumber::of(k);
        if is_mapped_into(store, key, number) {
            numbers.push(number);
        }
    }
    numbers
}

/// The numbers of the TPDOs of an application event, increasing.
fn numbers_asked<S: ObjectStore>(store: &S, asked: Asked) -> ArrayVec<PdoNumber, 512>
    ensures { result.items ≡ numbers_asked (S.description store.now) (S.contents store.now) asked }
{
    match asked {
        Asked::Event(number) => {
            let mut numbers = ArrayVec::new();
            numbers.push(number);
            numbers
        }
        Asked::Changed(key) => numbers_with(store, key),
    }
}

/// The turn of a write to an entry.
#[inline(always)]
fn turn_by_write(key: Key) -> Turn
    ensures turn { result ≡ turn_by_write key }
    ensures unasked { is_asked result ≡ false }
{
    if !IndexRange::TPDO_COMMUNICATION.contains(key.index) {
        return Turn::Quiet;
    }
    let number = PdoNumber::of(key.index - IndexRange::TPDO_COMMUNICATION.0);
    if key.sub == PDO_COB_ID || key.sub == TRANSMISSION_TYPE {
        Turn::Start(number, Part::Whole)
    } else if key.sub == EVENT_TIMER {
        Turn::Start(number, Part::Timer)
    } else {
        Turn::Quiet
    }
}

/// The turn of the schedule of TPDOs at an input, by the states before and after it.
#[inline(always)]
pub(crate) fn turn_of(mark: &Mark, transition: Transition) -> Turn
    ensures turn { result ≡ turn_of mark.now transition }
    ensures asked { is_asked result ≡ true → may_be_due mark.now ≡ true }
{
    if transition.after != NodeState::Operational {
        return Turn::Quiet;
    }
    if transition.before != NodeState::Operational {
        return Turn::StartAll;
    }
    if let Some(key) = mark.written() {
        return turn_by_write(key);
    }
    if mark.is_tick() {
        return Turn::Tick;
    }
    if let Some(frame) = mark.sync() {
        return Turn::Sync(counter_in(&frame));
    }
    match mark.asked() {
        Some(asked) => Turn::Asked(asked),
        None => Turn::Quiet,
    }
}

/// Leaves the numbers of the TPDOs that are due at an application event in `sent`, increasing; they
/// count as sent.
#[cold]
#[inline(never)]
fn take_asked<S: ObjectStore>(schedule: &mut Schedule, store: &S, asked: Asked, sent: &mut Due)
    ensures due { (history : History) →
        IsScheduleAfter (S.description store.now) schedule.old history →
        AllCurrent (S.contents store.now) history →
        sent.new.items ≡ due_at (S.description store.now) (Turn.Asked asked)
        (S.contents store.now) history }
    ensures after { (history : History) →
        IsScheduleAfter (S.description store.now) schedule.old history →
        AllCurrent (S.contents store.now) history →
        IsScheduleAfter (S.description store.now) schedule.new (with_turn
        (S.description store.now) (Turn.Asked asked) (S.contents store.now) sent.new.items
        history) }
    ensures few { length sent.new.items ≤ length schedule.old.tpdos }
    ensures size { length schedule.new.tpdos ≡ length schedule.old.tpdos }
{
    schedule.on_events(store, &numbers_asked(store, asked), sent);
}

/// Leaves the numbers of the TPDOs that are due at a turn in `sent`, increasing; they count as
/// sent. If the schedule is asked, each TPDO has to have been started with its current settings.
#[inline(always)]
pub(crate) fn take_turn<S: ObjectStore>(
    schedule: &mut Schedule,
    store: &S,
    turn: Turn,
    sent: &mut Due,
)
    ensures idle { is_asked turn ≡ false → sent.new.items ≡ [] }
    ensures due { (history : History) →
        IsScheduleAfter (S.description store.now) schedule.old history →
        (is_asked turn ≡ true → AllCurrent (S.contents store.now) history) →
        sent.new.items ≡
        due_at (S.description store.now) turn (S.contents store.now) history }
    ensures after { (history : History) →
        IsScheduleAfter (S.description store.now) schedule.old history →
        (is_asked turn ≡ true → AllCurrent (S.contents store.now) history) →
        IsScheduleAfter (S.description store.now) schedule.new (with_turn
        (S.description store.now) turn (S.contents store.now) sent.new.items history) }
    ensures few { length sent.new.items ≤ length schedule.old.tpdos }
    ensures size { length schedule.new.tpdos ≡ length schedule.old.tpdos }
{
    match turn {
        Turn::Quiet => sent.clear(),
        Turn::StartAll => {
            schedule.start_all(store);
            sent.clear();
        }
        Turn::Start(number, part) => {
            schedule.start(store, number, part);
            sent.clear();
        }
        Turn::Sync(counter) => schedule.on_sync(store, counter, sent),
        Turn::Asked(asked) => take_asked(schedule, store, asked, sent),
        Turn::Tick => schedule.on_tick(store, sent),
    }
}

/// The frame of a TPDO, by the schedule and the compiled mappings of the TPDOs.
#[inline(always)]
fn tpdo_frame<S: ObjectStore>(
    store: &S,
    schedule: &Schedule,
    mappings: &MappingTable,
    number: PdoNumber,
) -> Frame
    requires { HaveParts (S.description store.now) mappings.now }
    ensures { (history : History) → IsScheduleAfter (S.description store.now) schedule.now history →
        IsMappingTable Tpdo (S.description store.now) (S.contents store.now) mappings.now →
        result ≡ tpdo_frame (S.description store.now) (S.contents store.now) number }
{
    let image = mappings.image(store, number);
    Frame::packed(schedule.cob_id(store, number).identifier(), &image)
}

/// Puts the frames of TPDOs into the outbox, which has room for all of them. `schedule` and
/// `mappings` are those of the TPDOs in the dictionary now.
#[inline(always)]
pub(crate) fn send_tpdos<S: ObjectStore>(
    store: &S,
    schedule: &Schedule,
    mappings: &MappingTable,
    numbers: &[PdoNumber],
    outbox: &mut Outbox,
)
    requires room { length outbox.old.items + length numbers.now ≤ outbox_room }
    requires parts { HaveParts (S.description store.now) mappings.now }
    ensures { (history : History) → IsScheduleAfter (S.description store.now) schedule.now history →
        IsMappingTable Tpdo (S.description store.now) (S.contents store.now) mappings.now →
        outbox.new.items ≡ outbox.old.items
        ++ map (tpdo_frame (S.description store.now) (S.contents store.now)) numbers.now }
{
    for &number in numbers {
        outbox.push(tpdo_frame(store, schedule, mappings, number));
    }
}
