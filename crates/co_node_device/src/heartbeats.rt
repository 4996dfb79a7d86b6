//! Heartbeats: the monitoring of other nodes, and the device's own (CiA 301, 7.2.8.3.2 and
//! 7.2.8.3.3).

ghost use Rattle.std.specs.Prelude.{◌≡◌, ◌+◌, ◌≤◌, ◌++◌, ◌∷◌, ◌&&◌, []};
ghost use Rattle.co_dict.specs.Rows.{number_at};
ghost use Rattle.co_node_model.specs.Heartbeats.{
  consumers_event,
  producer_event,
  consumers_call,
  consumer_words,
  loss_errors,
  loss_event,
  life_frames,
};
ghost use Rattle.co_profile.specs.Keys.{producer_key};
ghost use Rattle.co_node_parts.specs.ConsumerTables.{AllBegun, ConsumersLog, ConsumersStand};
ghost use Rattle.co_node_parts.specs.EmergencyQueues.{EmergencyLog, EmergenciesStand, with_queued};
ghost use Rattle.co_node_model.specs.Emergencies.{all_raised, emergencies_of};
ghost use Rattle.co_node_device.specs.Losses.{lost_now};
ghost use Rattle.co_value.specs.declared.key.Key.{Key};
ghost use Rattle.co_node_parts.specs.Producers.{ProducerStands};
ghost use Rattle.arrayvec.specs.ArrayVec.{array_vec_len};
ghost use Rattle.co_frame.specs.Outboxes.{HasRoomFor};

use crate::emergencies::raise_and_queue;
use arrayvec::ArrayVec;
use co_dict::{ObjectStore, number_u8, number_u16, number_u32};
use co_frame::{Heartbeat, Outbox};
use co_node_model::{DeviceError, Mark, is_set};
use co_node_parts::{
    ConsumersEvent, Emergencies, HeartbeatConsumers, HeartbeatProducer, LossReaction,
    LostHeartbeats, ProducerEvent, StateEvent,
};
use co_profile::{CONSUMER_HEARTBEAT, keys};
use co_value::Key;

/// The event of the heartbeat consumers at an input that is no reset. At a reset all of them begin.
#[inline(always)]
fn consumers_event<S: ObjectStore>(mark: &Mark, store: &S) -> ConsumersEvent
    ensures { result ≡ consumers_event mark.now (S.contents store.now) }
{
    if mark.is_tick() {
        return ConsumersEvent::Tick;
    }
    if let Some(node) = mark.heard() {
        return ConsumersEvent::Heard(node);
    }
    match mark.written() {
        Some(key) if key.index == CONSUMER_HEARTBEAT && 1 <= key.sub && key.sub <= 127 => {
            ConsumersEvent::Begin(key.sub, number_u32(store, key))
        }
        _ => ConsumersEvent::Quiet,
    }
}

/// The words of consumer heartbeat time 1016h, sub-indices 1 to 127 (CiA 301, 7.5.2.19).
fn consumer_words<S: ObjectStore>(store: &S) -> ArrayVec<u32, 127>
    ensures { result.items ≡ consumer_words (S.contents store.now) }
{
    let mut words = ArrayVec::new();
    for sub in 1..128u8 {
        words.push(number_u32(
            store,
            Key {
                index: CONSUMER_HEARTBEAT,
                sub,
            },
        ));
    }
    words
}

/// The heartbeat consumers, each begun with its word.
pub(crate) fn begun_consumers<S: ObjectStore>(store: &S) -> HeartbeatConsumers
    ensures { ConsumersStand result (AllBegun (consumer_words (S.contents store.now)) ∷ []) }
{
    let mut consumers = HeartbeatConsumers::new();
    consumers.begin_all(&consumer_words(store));
    consumers
}

/// Begins all monitoring again, with the current words of the entries.
#[cold]
#[inline(never)]
fn begin_anew<S: ObjectStore>(store: &S, consumers: &mut HeartbeatConsumers)
    ensures { (log : ConsumersLog) → ConsumersStand consumers.old log →
        ConsumersStand consumers.new (AllBegun (consumer_words (S.contents store.now)) ∷ log) }
{
    consumers.begin_all(&consumer_words(store));
}

/// Raises an error for each lost heartbeat, and queues its emergency.
fn raise_losses<S: ObjectStore>(store: &mut S, emergencies: &mut Emergencies, lost: &[u8])
    ensures description { S.description store.new ≡ S.description store.old }
    ensures contents { S.contents store.new ≡
        all_raised (S.description store.old).rows (loss_errors lost.now) (S.contents store.old) }
    ensures emergencies { (queued : EmergencyLog) → EmergenciesStand emergencies.old queued →
        EmergenciesStand emergencies.new (with_queued (emergencies_of
        (S.description store.old).rows (loss_errors lost.now) (S.contents store.old)) queued) }
{
    for _ in lost {
        raise_and_queue(DeviceError::HEARTBEAT_LOST, store, emergencies);
    }
}

/// Monitors the heartbeats of other nodes at an input. Each loss raises error 8130h and queues its
/// emergency. At a reset all monitoring begins again. Returns the event of the NMT state, by the
/// error behaviour in 1029h, sub-index 1, before the losses. `lost` then has the sub-indices of the
/// lost heartbeats.
#[inline(always)]
pub(crate) fn watch<S: ObjectStore>(
    store: &mut S,
    consumers: &mut HeartbeatConsumers,
    emergencies: &mut Emergencies,
    mark: &Mark,
    lost: &mut LostHeartbeats,
) -> StateEvent
    ensures description { S.description store.new ≡ S.description store.old }
    ensures loss { (log : ConsumersLog) → ConsumersStand consumers.old log → result ≡
        loss_event (lost_now mark.now (S.contents store.old) log) (S.contents store.old) }
    ensures lost { (log : ConsumersLog) → ConsumersStand consumers.old log → lost.new.items ≡
        lost_now mark.now (S.contents store.old) log }
    ensures contents { (log : ConsumersLog) → ConsumersStand consumers.old log →
        S.contents store.new ≡ all_raised (S.description store.old).rows
        (loss_errors (lost_now mark.now (S.contents store.old) log)) (S.contents store.old) }
    ensures consumers { (log : ConsumersLog) → ConsumersStand consumers.old log →
        ConsumersStand consumers.new (consumers_call mark.now (S.contents store.old) ∷ log) }
    ensures emergencies { (log : ConsumersLog) (queued : EmergencyLog) →
        ConsumersStand consumers.old log → EmergenciesStand emergencies.old queued →
        EmergenciesStand emergencies.new (with_queued (emergencies_of
        (S.description store.old).rows (loss_errors (lost_now mark.now (S.contents store.old)
        log)) (S.contents store.old)) queued) }
{
    if mark.is_reset() {
        begin_anew(store, consumers);
        lost.clear();
        return StateEvent::Quiet;
    }
    consumers.note(consumers_event(mark, store), lost);
    if lost.is_empty() {
        return StateEvent::Quiet;
    }
    let reaction = LossReaction::from_code(number_u8(store, keys::COMMUNICATION_ERROR));
    raise_losses(store, emergencies, lost);
    StateEvent::HeartbeatLost(reaction)
}

/// The event of the heartbeat producer at an input.
#[inline(always)]
pub(crate) fn producer_event<S: ObjectStore>(mark: &Mark, store: &S) -> ProducerEvent
    ensures { result ≡ producer_event mark.now (S.contents store.now) }
{
    if mark.is_reset() || is_set(mark, keys::PRODUCER_HEARTBEAT) {
        ProducerEvent::Begin(number_u16(store, keys::PRODUCER_HEARTBEAT))
    } else if mark.is_tick() {
        ProducerEvent::Tick
    } else {
        ProducerEvent::Quiet
    }
}

/// The heartbeat producer, begun with its time.
pub(crate) fn begun_producer<S: ObjectStore>(store: &S) -> HeartbeatProducer
    ensures { ProducerStands result
        (ProducerEvent.Begin (number_at (S.contents store.now) producer_key) ∷ []) }
{
    let mut producer = HeartbeatProducer::new();
    let time = number_u16(store, keys::PRODUCER_HEARTBEAT);
    producer.note(ProducerEvent::Begin(time));
    producer
}

/// Puts a boot-up or heartbeat into the outbox, if there is one.
#[inline(always)]
pub(crate) fn send_life<S: ObjectStore>(store: &S, life: Option<Heartbeat>, outbox: &mut Outbox)
    requires { HasRoomFor 1 outbox.old }
    ensures frames { outbox.new.items ≡
        outbox.old.items ++ life_frames (S.description store.now).node life }
    ensures few { array_vec_len outbox.new ≤ array_vec_len outbox.old + 1 }
{
    if let Some(life) = life {
        outbox.push(life.write(0x700 + u16::from(store.node_id())));
    }
}
