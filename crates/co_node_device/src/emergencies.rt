//! EMCY: errors are raised and cleared, and emergencies sent (CiA 301, 7.2.7).

ghost use Rattle.std.specs.Prelude.{◌≡◌, ◌∷◌, [], ◌+◌, ◌≤◌, ◌++◌, true, None, is_some, if◌then◌else◌};
ghost use Rattle.co_node_parts.specs.EmergencyQueues.{
  EmergencyLog,
  EmergenciesStand,
  Noted,
  with_queued,
  emergency_due,
  with_sending,
};
ghost use Rattle.co_node_model.specs.Emergencies.{
  cleared,
  clearing_of,
  emergency_of,
  error_register,
  raised,
  with_register,
  all_raised,
  emergencies_of,
  may_send,
  emergency_frames,
};
ghost use Rattle.std.specs.List.{cons_option};
ghost use Rattle.arrayvec.specs.ArrayVec.{array_vec_len};
ghost use Rattle.co_frame.specs.Outboxes.{HasRoomFor};
ghost use Rattle.co_dict.specs.Rows.{number_at};
ghost use Rattle.co_profile.specs.Keys.{emergency_inhibit_key};
ghost use Rattle.co_node_model.specs.Marks.{marked_time_out};

use co_dict::{CobId, ObjectStore, number_u8, number_u16, number_u32, push_error, set_u8};
use co_frame::{Emergency, Outbox};
use co_node_model::{DeviceError, Mark};
use co_node_parts::{Emergencies, EmergencyEvent, NodeState};
use co_profile::keys;

/// The error register; 0 if there is none.
fn error_register<S: ObjectStore>(store: &S) -> u8
    ensures { result ≡ error_register (S.contents store.now) }
{
    number_u8(store, keys::ERROR_REGISTER)
}

/// Sets the error register, if there is one.
fn set_register<S: ObjectStore>(store: &mut S, register: u8)
    ensures contents { S.contents store.new
        ≡ with_register (S.description store.old).rows register (S.contents store.old) }
    ensures description { S.description store.new ≡ S.description store.old }
{
    set_u8(store, keys::ERROR_REGISTER, register);
}

/// Raises an error: sets its bits in the error register, puts its code first into the pre-defined
/// error field, and returns the emergency to be queued (CiA 301, 7.2.7, 7.5.2.2 and 7.5.2.4).
fn raise<S: ObjectStore>(error: DeviceError, store: &mut S) -> Emergency
    ensures emergency { result ≡ emergency_of error (S.contents store.old) }
    ensures contents { S.contents store.new
        ≡ raised (S.description store.old).rows error (S.contents store.old) }
    ensures description { S.description store.new ≡ S.description store.old }
{
    let register = error_register(store) | error.bits;
    set_register(store, register);
    push_error(store, error.code);
    let manufacturer = error.manufacturer;
    Emergency {
        code: error.code,
        register,
        manufacturer,
    }
}

/// Raises an error, and queues its emergency.
pub(crate) fn raise_and_queue<S: ObjectStore>(
    error: DeviceError,
    store: &mut S,
    emergencies: &mut Emergencies,
)
    ensures description { S.description store.new ≡ S.description store.old }
    ensures contents { S.contents store.new
        ≡ raised (S.description store.old).rows error (S.contents store.old) }
    ensures emergencies { (log : EmergencyLog) → EmergenciesStand emergencies.old log →
        EmergenciesStand emergencies.new
        (Noted (EmergencyEvent.Queue (emergency_of error (S.contents store.old))) ∷ log) }
{
    let emergency = raise(error, store);
    emergencies.note(EmergencyEvent::Queue(emergency));
}

/// Raises an error, if there is one, and queues its emergency.
#[inline(always)]
pub(crate) fn raise_some<S: ObjectStore>(
    store: &mut S,
    emergencies: &mut Emergencies,
    error: Option<DeviceError>,
)
    ensures description { S.description store.new ≡ S.description store.old }
    ensures contents { S.contents store.new ≡ all_raised
        (S.description store.old).rows (cons_option error []) (S.contents store.old) }
    ensures emergencies { (queued : EmergencyLog) → EmergenciesStand emergencies.old queued →
        EmergenciesStand emergencies.new (with_queued (emergencies_of
        (S.description store.old).rows (cons_option error []) (S.contents store.old)) queued) }
{
    if let Some(error) = error {
        raise_and_queue(error, store, emergencies);
    }
}

/// Clears bits of the error register, and returns the emergency to be queued: error code 0000h,
/// with the register after it. The pre-defined error field stays (CiA 301, 7.2.7.1).
pub(crate) fn clear<S: ObjectStore>(store: &mut S, bits: u8) -> Emergency
    ensures emergency { result ≡ clearing_of bits (S.contents store.old) }
    ensures contents { S.contents store.new
        ≡ cleared (S.description store.old).rows bits (S.contents store.old) }
    ensures description { S.description store.new ≡ S.description store.old }
{
    let register = error_register(store) & !bits;
    set_register(store, register);
    Emergency {
        code: 0,
        register,
        manufacturer: [0; 5],
    }
}

/// Whether an emergency may be sent at the end of an input, by the state after it.
#[inline(always)]
pub(crate) fn may_send<S: ObjectStore>(mark: &Mark, store: &S, after: NodeState) -> bool
    ensures { result ≡ may_send mark.now after (S.contents store.now) }
{
    after != NodeState::Stopped
        && CobId(number_u32(store, keys::EMERGENCY_COB_ID)).is_valid()
        && !mark.is_time_out()
}

/// Takes the emergency that is sent at the end of an input, if any, by the NMT state after it. The
/// dictionary is read only if one waits and the inhibit time is over.
#[inline(always)]
pub(crate) fn take_emergency<S: ObjectStore>(
    store: &S,
    emergencies: &mut Emergencies,
    mark: &Mark,
    after: NodeState,
) -> Option<Emergency>
    ensures due { (log : EmergencyLog) → EmergenciesStand emergencies.old log →
        result ≡ emergency_due (may_send mark.now after (S.contents store.now)) log }
    ensures alone { marked_time_out mark.now ≡ true → result ≡ None }
    ensures stands { (log : EmergencyLog) → EmergenciesStand emergencies.old log →
        EmergenciesStand emergencies.new
        (with_sending result (number_at (S.contents store.now) emergency_inhibit_key) log) }
{
    if !emergencies.is_ready() {
        return None;
    }
    let may = may_send(mark, store, after);
    let inhibit = number_u16(store, keys::EMERGENCY_INHIBIT_TIME);
    emergencies.send(may, inhibit)
}

/// Puts an emergency into the outbox, if there is one.
#[inline(always)]
pub(crate) fn send_emergency<S: ObjectStore>(
    store: &S,
    emergency: Option<Emergency>,
    outbox: &mut Outbox,
)
    requires { HasRoomFor 1 outbox.old }
    ensures frames { outbox.new.items ≡
        outbox.old.items ++ emergency_frames (S.contents store.now) emergency }
    ensures few { array_vec_len outbox.new ≤
        array_vec_len outbox.old + (if is_some emergency then 1 else 0) }
{
    if let Some(emergency) = emergency {
        let id = CobId(number_u32(store, keys::EMERGENCY_COB_ID)).identifier();
        outbox.push(emergency.write(id));
    }
}
