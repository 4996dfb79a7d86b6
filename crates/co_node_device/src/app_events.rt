//! Application events, at reception.

ghost use Rattle.std.specs.Prelude.{◌≡◌, false, true, MatchOption};
ghost use Rattle.co_frame_aborts.specs.declared.abort_code.AbortCode.{AbortCode};
ghost use Rattle.co_node_parts.specs.EmergencyQueues.{EmergencyLog, EmergenciesStand, with_queued};
ghost use Rattle.co_node_model.specs.AppEvents.{is_tpdo};
ghost use Rattle.co_node_model.specs.Inputs.{Written, EventOn, ChangedAt, Raised, Cleared, app_view};
ghost use Rattle.co_node_model.specs.declared.mark.Mark.TheVariants as was;
ghost use Rattle.co_node_device.specs.Given.{IsPlaceOf};
ghost use Rattle.co_node_device.specs.Receiving.{app_moment};

use crate::emergencies::{clear, raise_and_queue};
use crate::receiving::Received;
use co_dict::{ObjectStore, Side, app_store, entry_row};
use co_dict_placed::app_store_at;
use co_frame::{AbortCode, AppEvent};
use co_node_model::{AppAnswer, Asked, DeviceError, Mark};
use co_node_parts::{Emergencies, EmergencyEvent};
use co_pdo::{PdoNumber, has_pdo};
use co_value::Key;

/// The result of a refused event.
fn refused(code: AbortCode) -> Received
    ensures mark { result.mark ≡ was.Quiet }
    ensures app { result.app ≡ AppAnswer.Refused code }
{
    Received {
        mark: Mark::Quiet,
        app: AppAnswer::Refused(code),
    }
}

/// The result of an event that was done.
fn done(mark: Mark) -> Received
    ensures mark { result.mark ≡ mark }
    ensures app { result.app ≡ AppAnswer.Done }
{
    Received {
        mark,
        app: AppAnswer::Done,
    }
}

/// The application writes bytes into an entry; without a search for it where its place is known.
pub(crate) fn write<S: ObjectStore>(
    store: &mut S,
    place: Option<u32>,
    key: Key,
    bytes: &[u8],
) -> Received
    requires { IsPlaceOf (S.description store.old) key place }
    ensures mark { result.mark ≡ (app_moment (S.description store.old) (S.contents store.old)
        (Written key bytes.now)).mark }
    ensures app { result.app ≡ (app_moment (S.description store.old) (S.contents store.old)
        (Written key bytes.now)).app }
    ensures contents { S.contents store.new ≡ (app_moment (S.description store.old)
        (S.contents store.old) (Written key bytes.now)).received }
    ensures description { S.description store.new ≡ S.description store.old }
{
    match place {
        Some(place) => {
            if let Err(code) = app_store_at(store, place, key, bytes) {
                return refused(code);
            }
            store.set_at(place, bytes);
        }
        None => {
            if let Err(code) = app_store(store, key, bytes) {
                return refused(code);
            }
            store.set(key, bytes);
        }
    }
    done(Mark::Written(key))
}

/// The TPDO with a number, if the dictionary has it; never from 512 on.
fn tpdo_at<S: ObjectStore>(store: &S, number: u16) -> Option<PdoNumber>
    ensures { MatchOption result (is_tpdo (S.description store.now).rows number ≡ false)
        (λ k. (k ≡ number) × (is_tpdo (S.description store.now).rows number ≡ true)) }
{
    match PdoNumber::new(number) {
        Some(k) if has_pdo(store, Side::Tpdo, k) => Some(k),
        _ => None,
    }
}

/// An application event of a TPDO.
fn event<S: ObjectStore>(store: &S, number: u16) -> Received
    ensures mark { result.mark ≡ (app_moment (S.description store.now) (S.contents store.now)
        (EventOn number)).mark }
    ensures app { result.app ≡ (app_moment (S.description store.now) (S.contents store.now)
        (EventOn number)).app }
    ensures contents { S.contents store.now ≡ (app_moment (S.description store.now)
        (S.contents store.now) (EventOn number)).received }
{
    match tpdo_at(store, number) {
        Some(k) => done(Mark::Asked(Asked::Event(k))),
        None => refused(AbortCode::OBJECT_MISSING),
    }
}

/// The application reports that the value of an entry changed.
fn change<S: ObjectStore>(store: &S, key: Key) -> Received
    ensures mark { result.mark ≡ (app_moment (S.description store.now) (S.contents store.now)
        (ChangedAt key)).mark }
    ensures app { result.app ≡ (app_moment (S.description store.now) (S.contents store.now)
        (ChangedAt key)).app }
    ensures contents { S.contents store.now ≡ (app_moment (S.description store.now)
        (S.contents store.now) (ChangedAt key)).received }
{
    match entry_row(store, key) {
        Ok(_) => done(Mark::Asked(Asked::Changed(key))),
        Err(code) => refused(code),
    }
}

/// The application raises an error; bit 0, generic error, is set as well.
fn raise<S: ObjectStore>(
    store: &mut S,
    emergencies: &mut Emergencies,
    code: u16,
    bits: u8,
    manufacturer: [u8; 5],
) -> Received
    ensures mark { result.mark ≡ (app_moment (S.description store.old) (S.contents store.old)
        (Raised code bits manufacturer)).mark }
    ensures app { result.app ≡ (app_moment (S.description store.old) (S.contents store.old)
        (Raised code bits manufacturer)).app }
    ensures contents { S.contents store.new ≡ (app_moment (S.description store.old)
        (S.contents store.old) (Raised code bits manufacturer)).received }
    ensures description { S.description store.new ≡ S.description store.old }
    ensures emergencies { (log : EmergencyLog) → EmergenciesStand emergencies.old log →
        EmergenciesStand emergencies.new (with_queued (app_moment (S.description store.old)
        (S.contents store.old) (Raised code bits manufacturer)).raised_by_app log) }
{
    if code == 0 {
        return refused(AbortCode::INVALID_VALUE);
    }
    let error = DeviceError {
        code,
        bits: bits | 1,
        manufacturer,
    };
    raise_and_queue(error, store, emergencies);
    done(Mark::Quiet)
}

/// The application clears bits of the error register.
fn clear_errors<S: ObjectStore>(store: &mut S, emergencies: &mut Emergencies, bits: u8) -> Received
    ensures mark { result.mark ≡ (app_moment (S.description store.old) (S.contents store.old)
        (Cleared bits)).mark }
    ensures app { result.app ≡ (app_moment (S.description store.old) (S.contents store.old)
        (Cleared bits)).app }
    ensures contents { S.contents store.new ≡ (app_moment (S.description store.old)
        (S.contents store.old) (Cleared bits)).received }
    ensures description { S.description store.new ≡ S.description store.old }
    ensures emergencies { (log : EmergencyLog) → EmergenciesStand emergencies.old log →
        EmergenciesStand emergencies.new (with_queued (app_moment (S.description store.old)
        (S.contents store.old) (Cleared bits)).raised_by_app log) }
{
    let emergency = clear(store, bits);
    emergencies.note(EmergencyEvent::Queue(emergency));
    done(Mark::Quiet)
}

/// Receives an event of the application: it changes an entry or the error register, or is for TPDOs.
/// The emergency of an error is queued.
#[inline(always)]
pub(crate) fn take_event<S: ObjectStore>(
    store: &mut S,
    emergencies: &mut Emergencies,
    given: AppEvent<&[u8]>,
) -> Received
    ensures mark { result.mark ≡ (app_moment (S.description store.old) (S.contents store.old)
        (app_view given.entry)).mark }
    ensures app { result.app ≡ (app_moment (S.description store.old) (S.contents store.old)
        (app_view given.entry)).app }
    ensures contents { S.contents store.new ≡ (app_moment (S.description store.old)
        (S.contents store.old) (app_view given.entry)).received }
    ensures description { S.description store.new ≡ S.description store.old }
    ensures emergencies { (log : EmergencyLog) → EmergenciesStand emergencies.old log →
        EmergenciesStand emergencies.new (with_queued (app_moment (S.description store.old)
        (S.contents store.old) (app_view given.entry)).raised_by_app log) }
{
    match given {
        AppEvent::Write(key, bytes) => write(store, None, key, bytes),
        AppEvent::Event(number) => event(store, number),
        AppEvent::Changed(key) => change(store, key),
        AppEvent::Raise(code, bits, manufacturer) => {
            raise(store, emergencies, code, bits, manufacturer)
        }
        AppEvent::Clear(bits) => clear_errors(store, emergencies, bits),
    }
}
