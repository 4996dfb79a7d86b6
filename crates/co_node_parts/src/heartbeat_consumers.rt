//! The heartbeat consumers: the entries of 1016h.

ghost use Rattle.std.specs.Prelude.{◌≡◌, ℕ, ◌≤◌, [], ◌∷◌, length, slice_index};
ghost use Rattle.std.specs.List.{filter, range_with_len, slice_index_or};
ghost use Rattle.co_node_parts.specs.declared.heartbeat_consumer.HeartbeatConsumer.{HeartbeatConsumer};
ghost use Rattle.co_node_parts.specs.Consumers.{ConsumerLog, is_lost};
ghost use Rattle.co_node_parts.specs.ConsumerTables.{
  AreIdleFrom,
  AreKeptFor,
  ArePassedFrom,
  ConsumersLog,
  NoneLostFor,
  Noted,
  AllBegun,
  ConsumersStand,
  AllStand,
  event_of,
  lost_at,
};

use crate::heartbeat_consumer::{ConsumerEvent, HeartbeatConsumer};
use arrayvec::ArrayVec;
use std::marker::Model;

/// The most entries of 1016h: sub-indices 1 to 127.
const ENTRIES: usize = 127;

/// The sub-indices of the entries of 1016h whose heartbeat is lost, increasing.
pub type LostHeartbeats = ArrayVec<u8, 127>;

/// An event of the heartbeat consumers.
#[derive(Clone, Copy)]
pub enum ConsumersEvent {
    /// The entry with this sub-index, 1 to 127, begins with this word: at each accepted write, also
    /// of the same word. Any other sub-index has no entry, and nothing begins.
    Begin(u8, u32),
    /// The heartbeat of the node with this node-ID was received.
    Heard(u8),
    /// 1 ms elapsed.
    Tick,
    /// Any other event.
    Quiet,
}

impl ConsumersEvent {
    /// The event of the entry with a sub-index.
    fn for_entry(self, sub: u8) -> ConsumerEvent
        ensures { result ≡ event_of sub (Noted self) }
    {
        match self {
            ConsumersEvent::Begin(begun, word) if begun == sub => ConsumerEvent::Begin(word),
            ConsumersEvent::Heard(node) => ConsumerEvent::Heard(node),
            ConsumersEvent::Tick => ConsumerEvent::Tick,
            ConsumersEvent::Begin(_, _) | ConsumersEvent::Quiet => ConsumerEvent::Quiet,
        }
    }
}

/// Notes an event for each entry, and leaves the sub-indices of those that lose their heartbeat in
/// `lost`. The event doesn't concern the entries from `used` on.
#[inline(always)]
fn note_all(
    entries: &mut [HeartbeatConsumer],
    used: usize,
    event: ConsumersEvent,
    lost: &mut LostHeartbeats,
)
    requires few { length entries.old ≤ 127 }
    requires within { used ≤ length entries.old }
    requires used { ArePassedFrom event used entries.old }
    ensures lost { (logs : ℕ → ConsumerLog) → AllStand entries.old logs →
        lost.new.items ≡ filter (λ sub. is_lost (event_of sub (Noted event)) (logs sub))
        (range_with_len 1 (length entries.old)) }
    ensures stand { (logs : ℕ → ConsumerLog) → AllStand entries.old logs →
        AllStand entries.new (λ sub. event_of sub (Noted event) ∷ logs sub) }
    ensures rest { (i : ℕ) (d : HeartbeatConsumer) → used ≤ i →
        slice_index_or entries.new i d ≡ slice_index_or entries.old i d }
{
    lost.clear();
    for i in 0..used {
        let sub = i as u8 + 1;
        if entries[i].note(event.for_entry(sub)) {
            lost.push(sub);
        }
    }
}

/// The entry from which on none monitors a node.
fn used_among(entries: &[HeartbeatConsumer]) -> usize
    ensures within { result ≤ length entries.now }
    ensures idle { AreIdleFrom result entries.now }
{
    let mut used = 0;
    for i in 0..entries.len() {
        if entries[i].monitored.is_some() {
            used = i + 1;
        }
    }
    used
}

/// The word at a place, 0 past the last one.
fn word_at(words: &[u32], place: usize) -> u32
    ensures { result ≡ slice_index words.now place }
{
    words.get(place).copied().unwrap_or(0)
}

/// Begins each entry with its word.
fn begin_each(entries: &mut [HeartbeatConsumer], words: &[u32])
    ensures { (logs : ℕ → ConsumerLog) → AllStand entries.old logs →
        AllStand entries.new (λ sub. event_of sub (AllBegun words.now) ∷ logs sub) }
{
    for i in 0..entries.len() {
        entries[i].note(ConsumerEvent::Begin(word_at(words, i)));
    }
}

/// During this many ticks none of these entries loses its heartbeat, if nothing else happens: a
/// lower bound.
fn idle_among(entries: &[HeartbeatConsumer]) -> u32
    ensures { (logs : ℕ → ConsumerLog) (n : ℕ) → AllStand entries.now logs → n ≤ result →
        AreKeptFor n (length entries.now) logs }
{
    let mut least = u32::MAX;
    for i in 0..entries.len() {
        least = least.min(entries[i].idle());
    }
    least
}

/// The heartbeat consumers: the nodes that 1016h monitors, and whose heartbeat is lost (CiA 301,
/// 7.2.8.3.2 and 7.5.2.19). Monitoring of an entry starts at the first heartbeat after the entry
/// began. It stops when the heartbeat is lost, and starts again at the next one.
#[derive(Drop)]
pub struct HeartbeatConsumers {
    entries: [HeartbeatConsumer; ENTRIES],
    // no entry from here on monitors a node, so that a tick reads few of them
    used: usize,
}

impl Model for HeartbeatConsumers {
    ghost use Rattle.std.specs.Prelude.{◌≤◌, List};
    ghost use Rattle.co_node_parts.specs.declared.heartbeat_consumer.HeartbeatConsumer.{HeartbeatConsumer};
    ghost use Rattle.co_node_parts.specs.ConsumerTables.{AreIdleFrom};

    ghost Value = { List HeartbeatConsumer };

    ghost view = { λ c. c.entries };

    ghost invariant = { λ c. (c.used ≤ 127) × AreIdleFrom c.used c.entries };
}

impl HeartbeatConsumers {
    /// Consumers of which no entry has begun: nothing is monitored.
    pub fn new() -> HeartbeatConsumers
        ensures { ConsumersStand result [] }
    {
        let entry = HeartbeatConsumer::new();
        HeartbeatConsumers {
            entries: [entry; ENTRIES],
            used: 0,
        }
    }

    /// Begins all entries, when the device is built and at each reset: sub-index 1 with the first
    /// of these words, and so on. Entries past the last word are not used.
    pub fn begin_all(&mut self, words: &[u32])
        ensures { (log : ConsumersLog) → ConsumersStand self.old log →
            ConsumersStand self.new (AllBegun words.now ∷ log) }
    {
        begin_each(&mut self.entries, words);
        self.used = used_among(&self.entries);
    }

    /// Notes an event, and leaves in `lost` exactly the sub-indices of the entries that lose their
    /// heartbeat at it.
    #[inline(always)]
    pub fn note(&mut self, event: ConsumersEvent, lost: &mut LostHeartbeats)
        ensures lost { (log : ConsumersLog) → ConsumersStand self.old log →
            lost.new.items ≡ lost_at event log }
        ensures stands { (log : ConsumersLog) → ConsumersStand self.old log →
            ConsumersStand self.new (Noted event ∷ log) }
    {
        match event {
            ConsumersEvent::Quiet => lost.clear(),
            ConsumersEvent::Begin(_, _) => {
                note_all(&mut self.entries, ENTRIES, event, lost);
                self.used = used_among(&self.entries);
            }
            ConsumersEvent::Heard(_) | ConsumersEvent::Tick => {
                note_all(&mut self.entries, self.used, event, lost);
            }
        }
    }

    /// During this many ticks (1 ms each) no heartbeat is lost, if nothing else happens: a lower
    /// bound.
    pub fn idle(&self) -> u32
        ensures { (log : ConsumersLog) (n : ℕ) → ConsumersStand self.now log → n ≤ result →
            NoneLostFor n log }
    {
        idle_among(&self.entries)
    }
}
