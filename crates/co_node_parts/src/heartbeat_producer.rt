//! The heartbeat producer.

ghost use Rattle.std.specs.Prelude.{◌≡◌, ℕ, ◌≤◌, [], ◌∷◌};
ghost use Rattle.co_node_parts.specs.Producers.{
  NoneDueFor,
  ProducerLog,
  ProducerStands,
  is_heartbeat_due,
};

use std::marker::Model;

/// An event of the heartbeat producer.
#[derive(Clone, Copy)]
pub enum ProducerEvent {
    /// It begins with the producer heartbeat time of 1017h in ms; 0 disables it: when the device is
    /// built, at each reset, and at each accepted write of 1017h, also of the same time.
    Begin(u16),
    /// 1 ms elapsed.
    Tick,
    /// Any other event.
    Quiet,
}

/// When the device sends its heartbeat (CiA 301, 7.2.8.3.2 and 7.5.2.20).
#[derive(Drop)]
pub struct HeartbeatProducer {
    period: u16,
    left: u16,
}

impl Model for HeartbeatProducer {
    ghost use Rattle.co_node_parts.specs.Producers.{Producer};

    ghost Value = { Producer };

    ghost view = { λ p. record { period = p.period; left = p.left } };
}

impl HeartbeatProducer {
    /// A stopped producer: nothing is due.
    pub fn new() -> HeartbeatProducer
        ensures { ProducerStands result [] }
    {
        HeartbeatProducer { period: 0, left: 0 }
    }

    /// Notes an event, and returns whether a heartbeat is due at it.
    pub fn note(&mut self, event: ProducerEvent) -> bool
        ensures due { (log : ProducerLog) → ProducerStands self.old log →
            result ≡ is_heartbeat_due event log }
        ensures stands { (log : ProducerLog) → ProducerStands self.old log →
            ProducerStands self.new (event ∷ log) }
    {
        match event {
            ProducerEvent::Begin(period) => {
                self.period = period;
                self.left = period;
                false
            }
            ProducerEvent::Tick => {
                if self.left > 1 {
                    self.left -= 1;
                    return false;
                }
                self.left = self.period;
                self.period > 0
            }
            ProducerEvent::Quiet => false,
        }
    }

    /// During this many ticks (1 ms each) no heartbeat is due, if nothing else happens: a lower
    /// bound.
    pub fn idle(&self) -> u32
        ensures { (log : ProducerLog) (n : ℕ) → ProducerStands self.now log → n ≤ result →
            NoneDueFor n log }
    {
        if self.period == 0 {
            return u32::MAX;
        }
        u32::from(self.left).saturating_sub(1)
    }
}
