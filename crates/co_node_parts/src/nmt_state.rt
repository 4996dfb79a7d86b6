//! The NMT state of the device.

ghost use Rattle.std.specs.Prelude.{◌≡◌, [], ◌∷◌};
ghost use Rattle.co_node_parts.specs.NmtStates.{
  StateLog,
  state_after,
  transition_by,
  reaction_with,
  heartbeat_of,
  enters,
  leaves,
};

use co_frame::{Heartbeat, NmtService};
use std::marker::Model;

/// An NMT state of an initialised device (CiA 301, 7.3.2.2), and the services that run in it.
#[derive(Clone, Copy, Debug, PartialEq, Eq)]
pub enum NodeState {
    /// SDO, SYNC, EMCY, NMT and heartbeats, but no PDO.
    PreOperational,
    /// PDOs as well.
    Operational,
    /// NMT and heartbeats alone.
    Stopped,
}

impl NodeState {
    /// The heartbeat that reports the state (CiA 301, 7.2.8.3.2).
    pub fn heartbeat(self) -> Heartbeat
        ensures { result ≡ heartbeat_of self }
    {
        match self {
            NodeState::PreOperational => Heartbeat::PreOperational,
            NodeState::Operational => Heartbeat::Operational,
            NodeState::Stopped => Heartbeat::Stopped,
        }
    }
}

/// The reaction of the device to the loss of another node's heartbeat: error behaviour object
/// 1029h, sub-index 1, communication error (CiA 301, 7.5.2.32).
#[derive(Clone, Copy)]
pub enum LossReaction {
    /// 0: operational becomes pre-operational; the other states stay.
    LeaveOperational,
    /// 1, and every reserved or manufacturer-specific value: no change.
    NoChange,
    /// 2: it stops.
    EnterStopped,
}

impl LossReaction {
    /// The reaction for a value of 1029h:01. Without that entry the value is 0.
    pub fn from_code(code: u8) -> LossReaction
        ensures { result ≡ reaction_with code }
    {
        match code {
            0 => LossReaction::LeaveOperational,
            2 => LossReaction::EnterStopped,
            _ => LossReaction::NoChange,
        }
    }
}

/// An event of the NMT state.
#[derive(Clone, Copy)]
pub enum StateEvent {
    /// An NMT command for this node or for all nodes.
    Command(NmtService),
    /// The heartbeat of another node was lost.
    HeartbeatLost(LossReaction),
    /// Any other event.
    Quiet,
}

/// The states before and after an event.
#[derive(Clone, Copy)]
pub struct Transition {
    /// The state before it.
    pub before: NodeState,
    /// The state after it, which may be the same.
    pub after: NodeState,
}

impl Transition {
    /// Whether the state is entered from another one.
    pub fn enters(self, state: NodeState) -> bool
        ensures { result ≡ enters state self }
    {
        self.before != state && self.after == state
    }

    /// Whether the state is left for another one.
    pub fn leaves(self, state: NodeState) -> bool
        ensures { result ≡ leaves state self }
    {
        self.before == state && self.after != state
    }
}

/// The NMT state of the device (CiA 301, 7.3.2). Contracts see the state itself.
#[derive(Drop)]
pub struct NmtState {
    state: NodeState,
}

impl Model for NmtState {
    ghost use Rattle.co_node_parts.specs.declared.nmt_state.NodeState.{NodeState};

    ghost Value = { NodeState };

    ghost view = { λ s. s.state };
}

impl NmtState {
    /// The state of a device that has just been built: pre-operational.
    pub fn new() -> NmtState
        ensures { result ≡ state_after [] }
    {
        NmtState {
            state: NodeState::PreOperational,
        }
    }

    /// The state.
    pub fn get(&self) -> NodeState
        ensures { result ≡ self.now }
    {
        self.state
    }

    /// Notes an event, and returns the states before and after it.
    pub fn note(&mut self, event: StateEvent) -> Transition
        ensures transition { (log : StateLog) → self.old ≡ state_after log →
            result ≡ transition_by event log }
        ensures stands { (log : StateLog) → self.old ≡ state_after log →
            self.new ≡ state_after (event ∷ log) }
    {
        let before = self.state;
        let after = match event {
            StateEvent::Command(NmtService::Start) => NodeState::Operational,
            StateEvent::Command(NmtService::Stop) => NodeState::Stopped,
            StateEvent::Command(_) => NodeState::PreOperational,
            StateEvent::HeartbeatLost(LossReaction::EnterStopped) => NodeState::Stopped,
            StateEvent::HeartbeatLost(LossReaction::LeaveOperational)
                if before == NodeState::Operational => { NodeState::PreOperational }
            StateEvent::HeartbeatLost(_) | StateEvent::Quiet => before,
        };
        self.state = after;
        Transition { before, after }
    }
}
