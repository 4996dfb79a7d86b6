//! The queue of emergencies.

ghost use Rattle.std.specs.Prelude.{◌≡◌, ℕ, ◌≤◌, ◌++◌, List, [], ◌∷◌, Bool, false, None, IfOk};
ghost use Rattle.co_node_parts.specs.EmergencyQueues.{
  EmergencyLog,
  Noted,
  EmergenciesStand,
  NoneSentFor,
  emergency_due,
  with_sending,
  with_queued,
};

use circular_buffer::HeapCircularBuffer;
use co_frame::Emergency;
use std::alloc::{AllocError, Global};
use std::marker::Model;

/// The most emergencies that wait.
const ROOM: usize = 8;

/// An event of the queue of emergencies.
#[derive(Clone, Copy)]
pub enum EmergencyEvent {
    /// An emergency is queued. If eight wait, it overwrites the oldest.
    Queue(Emergency),
    /// A reset: the queue is emptied, and the inhibit time is over.
    Empty,
    /// 1 ms elapsed.
    Tick,
    /// Any other event.
    Quiet,
}

/// The queue of emergencies to be sent, at most eight, and the inhibit time between two of them
/// (CiA 301, 7.2.7 and 7.5.2.18). It allocates no memory after `new`.
#[derive(Drop)]
pub struct Emergencies {
    queue: HeapCircularBuffer<Emergency>,
    left: u16,
}

impl Model for Emergencies {
    ghost use Rattle.std.specs.Prelude.{◌≡◌};
    ghost use Rattle.co_node_parts.specs.EmergencyQueues.{Pending};

    ghost Value = { Pending };

    ghost view = { λ e. record { queue = e.queue.items; left = e.left } };

    ghost invariant = { λ e. e.queue.capacity ≡ 8 };
}

/// Of several emergencies the last one is queued last. This is a law: a call of it changes nothing.
pub fn queued_last()
    ensures { (several : List Emergency) (last : Emergency) (log : EmergencyLog) →
        with_queued (several ++ last ∷ []) log ≡
        Noted (EmergencyEvent.Queue last) ∷ with_queued several log }
{}

impl Emergencies {
    /// An empty queue. `AllocError` if it can't be allocated.
    pub fn new(alloc: Global) -> Result<Emergencies, AllocError>
        ensures { IfOk result (λ emergencies. EmergenciesStand emergencies []) }
    {
        let queue = HeapCircularBuffer::with_capacity(alloc, ROOM)?;
        Ok(Emergencies { queue, left: 0 })
    }

    /// Notes an event.
    pub fn note(&mut self, event: EmergencyEvent)
        ensures { (log : EmergencyLog) → EmergenciesStand self.old log →
            EmergenciesStand self.new (Noted event ∷ log) }
    {
        match event {
            EmergencyEvent::Queue(emergency) => {
                self.queue.push_back(emergency);
            }
            EmergencyEvent::Empty => {
                self.queue.clear();
                self.left = 0;
            }
            EmergencyEvent::Tick => self.left = self.left.saturating_sub(1),
            EmergencyEvent::Quiet => {}
        }
    }

    /// Whether an emergency waits and the inhibit time is over. If not, `send` returns `None` and
    /// changes nothing.
    pub fn is_ready(&self) -> bool
        ensures { (may : Bool) (log : EmergencyLog) → EmergenciesStand self.now log →
            result ≡ false → emergency_due may log ≡ None }
    {
        self.left == 0 && !self.queue.is_empty()
    }

    /// During this many ticks (1 ms each) no emergency is due, if nothing else happens and `may`
    /// stays the same: a lower bound.
    pub fn idle(&self, may: bool) -> u32
        ensures { (log : EmergencyLog) (n : ℕ) → EmergenciesStand self.now log → n ≤ result →
            NoneSentFor may n log }
    {
        if !may || self.queue.is_empty() {
            return u32::MAX;
        }
        u32::from(self.left).saturating_sub(1)
    }

    /// Takes the emergency to be sent now, if any: the oldest, if `may` and the inhibit time is
    /// over. `inhibit` is the inhibit time EMCY of 1015h, in 100 µs. It runs from this sending on,
    /// rounded up to ms; a later write of 1015h doesn't change it.
    pub fn send(&mut self, may: bool, inhibit: u16) -> Option<Emergency>
        ensures due { (log : EmergencyLog) → EmergenciesStand self.old log →
            result ≡ emergency_due may log }
        ensures stands { (log : EmergencyLog) → EmergenciesStand self.old log →
            EmergenciesStand self.new (with_sending result inhibit log) }
        ensures only { may ≡ false → result ≡ None }
    {
        if !may || self.left > 0 {
            return None;
        }
        let emergency = self.queue.pop_front()?;
        self.left = inhibit.div_ceil(10);
        Some(emergency)
    }
}
