//! Receiving an input, by its kind; a frame by its addressee.

ghost use Rattle.std.specs.Prelude.{◌≡◌, ◌+◌, ◌≤◌, ◌++◌, true, if◌then◌else◌};
ghost use Rattle.arrayvec.specs.ArrayVec.{array_vec_len};
ghost use Rattle.co_frame.specs.Outboxes.{HasRoomFor};
ghost use Rattle.co_frame.specs.SegmentSizes.{segments_per_sub_block};
ghost use Rattle.co_sdo.specs.Banks.{BankStands, all_settings};
ghost use Rattle.co_sdo.specs.Channels.{HaveRoom};
ghost use Rattle.co_sdo.specs.Events.{frames_at};
ghost use Rattle.co_node_model.specs.declared.address.Address.TheVariants.{Channel};
ghost use Rattle.co_node_model.specs.Moments.{Constants, History, channels};
ghost use Rattle.co_node_device.specs.Befores.{IsBefore, IsAddressed, logs_received};
ghost use Rattle.co_node_device.specs.Receiving.{IsFrameReceived, frame_moment, may_be_due};
ghost use Rattle.co_node_parts.specs.EmergencyQueues.{EmergencyLog, EmergenciesStand, with_queued};
ghost use Rattle.co_node_model.specs.Device.{received_at};
ghost use Rattle.co_node_device.specs.Given.{IsPlaced, given_view};
ghost use Rattle.co_node_model.specs.Marks.{marked_time_out};

use crate::app_events::{take_event, write};
use crate::given::Given;
use crate::nmt::take_command;
use crate::sdo::{take_request, take_tick};
use co_dict::ObjectStore;
use co_frame::{Frame, Outbox};
use co_node_model::{Address, AppAnswer, Mark, error_control_mark, rpdo_mark, sync_mark};
use co_node_parts::{Emergencies, NodeState};
use co_sdo::Bank;

/// Hands a frame to its addressee.
#[inline(always)]
fn take_frame<S: ObjectStore>(
    store: &mut S,
    bank: &mut Bank,
    state: NodeState,
    address: Address,
    frame: &Frame,
    outbox: &mut Outbox,
) -> Mark
    requires outbox { HasRoomFor segments_per_sub_block outbox.old }
    requires room { HaveRoom (S.description store.old).rows (all_settings bank.old) }
    ensures few { array_vec_len outbox.new ≤ array_vec_len outbox.old + segments_per_sub_block }
    ensures alone { may_be_due result ≡ true → array_vec_len outbox.new ≡ array_vec_len outbox.old }
    ensures settings { all_settings bank.new ≡ all_settings bank.old }
    ensures description { S.description store.new ≡ S.description store.old }
    ensures received { (k : Constants) (history : History) →
        IsBefore k history (S.description store.old) (S.contents store.old) bank.old state →
        IsFrameReceived (S.description store.old) k history
        (frame_moment k history address frame.now) result (S.contents store.new)
        outbox.old.items outbox.new.items bank.new }
{
    match address {
        Address::Nmt => take_command(store, frame),
        Address::Sync => sync_mark(state, frame),
        Address::Channel(_) => take_request(store, bank, state, frame, outbox),
        Address::Rpdo(number) => rpdo_mark(state, number, frame),
        Address::ErrorControl(node) => error_control_mark(node, frame),
        Address::Nobody => Mark::Quiet,
    }
}

/// The mark of a received input, and the answer if it is an application event.
#[derive(Clone, Copy)]
pub(crate) struct Received {
    /// The mark of the input, for the parts of the device.
    pub(crate) mark: Mark,
    /// The answer to an application event.
    pub(crate) app: AppAnswer,
}

/// Receives an input in an NMT state: a frame goes to its addressee, a tick to all SDO channels, an
/// application event to the entries or the error register. The frames of SDO channels are put into
/// the outbox, at most 127; if TPDOs may be due, at most the abort of a transfer that timed out.
/// The emergencies that the application raises are queued.
#[inline(always)]
pub(crate) fn receive<S: ObjectStore>(
    store: &mut S,
    bank: &mut Bank,
    emergencies: &mut Emergencies,
    state: NodeState,
    given: Given<'_>,
    address: Address,
    frame: &Frame,
    outbox: &mut Outbox,
) -> Received
    requires outbox { HasRoomFor segments_per_sub_block outbox.old }
    requires room { HaveRoom (S.description store.old).rows (all_settings bank.old) }
    requires placed { IsPlaced (S.description store.old) given }
    ensures few { array_vec_len outbox.new ≤ array_vec_len outbox.old + segments_per_sub_block }
    ensures alone { may_be_due result.mark ≡ true → array_vec_len outbox.new ≤
        array_vec_len outbox.old + (if marked_time_out result.mark then 1 else 0) }
    ensures settings { all_settings bank.new ≡ all_settings bank.old }
    ensures description { S.description store.new ≡ S.description store.old }
    ensures mark { (k : Constants) (history : History) →
        IsBefore k history (S.description store.old) (S.contents store.old) bank.old state →
        IsAddressed k history given.entry address frame.now →
        result.mark ≡ (received_at k history (given_view given.entry frame.now)).mark }
    ensures app { (k : Constants) (history : History) →
        IsBefore k history (S.description store.old) (S.contents store.old) bank.old state →
        IsAddressed k history given.entry address frame.now →
        result.app ≡ (received_at k history (given_view given.entry frame.now)).app }
    ensures contents { (k : Constants) (history : History) →
        IsBefore k history (S.description store.old) (S.contents store.old) bank.old state →
        IsAddressed k history given.entry address frame.now →
        S.contents store.new ≡ (received_at k history (given_view given.entry frame.now)).received }
    ensures frames { (k : Constants) (history : History) →
        IsBefore k history (S.description store.old) (S.contents store.old) bank.old state →
        IsAddressed k history given.entry address frame.now →
        outbox.new.items ≡ outbox.old.items
        ++ (frames_at (received_at k history (given_view given.entry frame.now)).exchange
        ++ frames_at (received_at k history (given_view given.entry frame.now)).timed_out) }
    ensures channels { (k : Constants) (history : History) →
        IsBefore k history (S.description store.old) (S.contents store.old) bank.old state →
        IsAddressed k history given.entry address frame.now →
        BankStands (S.description store.old) (channels k) bank.new
        (logs_received (received_at k history (given_view given.entry frame.now)) history) }
    ensures emergencies { (k : Constants) (history : History) (log : EmergencyLog) →
        IsBefore k history (S.description store.old) (S.contents store.old) bank.old state →
        IsAddressed k history given.entry address frame.now →
        EmergenciesStand emergencies.old log → EmergenciesStand emergencies.new (with_queued
        (received_at k history (given_view given.entry frame.now)).raised_by_app log) }
{
    match given {
        Given::Frame => Received {
            mark: take_frame(store, bank, state, address, frame, outbox),
            app: AppAnswer::None,
        },
        Given::Tick => Received {
            mark: take_tick(bank, outbox),
            app: AppAnswer::None,
        },
        Given::WriteAt(place, key, bytes) => write(store, Some(place), key, bytes),
        Given::App(event) => take_event(store, emergencies, event),
    }
}
