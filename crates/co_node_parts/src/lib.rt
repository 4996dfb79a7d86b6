//! The service parts of a CANopen device: NMT state, heartbeats, emergencies, and the RPDO frames
//! that wait for a SYNC. Each part is a type of its own, and its contracts are about the log of its
//! events.
#![tactic(auto)]

mod emergencies;
mod heartbeat_consumer;
mod heartbeat_consumers;
mod heartbeat_producer;
mod nmt_state;
mod rpdo_slots;

pub use emergencies::{Emergencies, EmergencyEvent, queued_last};
pub use heartbeat_consumers::{ConsumersEvent, HeartbeatConsumers, LostHeartbeats};
pub use heartbeat_producer::{HeartbeatProducer, ProducerEvent};
pub use nmt_state::{LossReaction, NmtState, NodeState, StateEvent, Transition};
pub use rpdo_slots::{KeptFrame, RpdoSlots, SlotEvent};
