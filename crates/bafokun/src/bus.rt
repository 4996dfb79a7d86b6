//! Changes of the CAN controller as inputs of a device: bus-off, error passive, and their ends
//! (CiA 301, 7.2.7.1 and 7.5.2.32).

ghost use Rattle.std.specs.Prelude.{◌≡◌, option_map};
ghost use Rattle.co_profile.specs.Keys.{error_behaviour_key};
ghost use Rattle.co_node_parts.specs.NmtStates.{after_loss, reaction_with};
ghost use Rattle.co_node_model.specs.Inputs.{Inputs, input_view};
ghost use Rattle.co_node_model.specs.Moments.{Constants};
ghost use Rattle.co_node_model.specs.Device.{contents_of, state_of};
ghost use Rattle.co_node.specs.Nodes.{Stands};
ghost use Rattle.bafokun.specs.declared.ending.Ending.{Ending};
ghost use Rattle.bafokun.specs.Bus.{
  after_bus,
  byte_of,
  bus_error,
  bus_input,
  by_reaction,
  command_to_all,
  ending_after,
};

use crate::ending::Ending;
use crate::happened::byte_in;
use co_frame::{NmtCommand, NmtService};
use co_node::{AppEvent, Input, LossReaction, Node, NodeState, state_by_kind};
use co_profile::keys;
use co_value::Key;

// The first byte of an entry; 0 if there is no such entry.
fn byte_at(node: &Node, key: Key) -> u8
    ensures { (k : Constants) (before : Inputs) → Stands k node.now before →
        result ≡ byte_of (contents_of k before key) }
{
    match node.value(key) {
        Some(bytes) => byte_in(bytes, 0),
        None => 0,
    }
}

// A communication error with this code.
fn bus_error(code: u16) -> Input<'static>
    ensures { input_view result ≡ bus_error code }
{
    Input::App(AppEvent::Raise(code, 0x10, [0; 5]))
}

// An NMT command to all nodes.
fn command_to_all(service: NmtService) -> Input<'static>
    ensures { input_view result ≡ command_to_all service }
{
    let command = NmtCommand { service, node: 0 };
    Input::Frame(command.write())
}

// The NMT command that has the effect of a lost heartbeat in a state, by a value of 1029:01.
fn by_reaction(code: u8, state: NodeState) -> Option<Input<'static>>
    ensures { option_map input_view result ≡ by_reaction (reaction_with code) state }
{
    match LossReaction::from_code(code) {
        LossReaction::EnterStopped => Some(command_to_all(NmtService::Stop)),
        LossReaction::NoChange => None,
        LossReaction::LeaveOperational => match state {
            NodeState::Operational => Some(command_to_all(NmtService::EnterPreOperational)),
            NodeState::PreOperational | NodeState::Stopped => None,
        },
    }
}

/// The input of a change of the CAN controller: 0 error active again, 1 error passive, 2 bus-off, 3
/// recovered from bus-off. `None` for any other number, and for a bus-off without an NMT command by
/// 1029:01.
pub(crate) fn bus_input(node: &Node, ending: Ending, change: u8) -> Option<Input<'static>>
    ensures { (k : Constants) (before : Inputs) → Stands k node.now before →
        option_map input_view result ≡ bus_input k before ending change }
{
    match change {
        0 => {
            let register = byte_at(node, keys::ERROR_REGISTER);
            Some(Input::App(AppEvent::Clear(ending.bits(register))))
        }
        1 => Some(bus_error(0x8120)),
        2 => by_reaction(byte_at(node, keys::COMMUNICATION_ERROR), node.state()),
        3 => Some(bus_error(0x8140)),
        _ => None,
    }
}

/// Which bits of the error register end after a change of the CAN controller, by the device before
/// it.
pub(crate) fn ending_after(node: &Node, change: u8, ending: Ending) -> Ending
    ensures { (k : Constants) (before : Inputs) → Stands k node.now before →
        result ≡ ending_after k before change ending }
{
    ending.after_change(change, byte_at(node, keys::ERROR_REGISTER))
}

/// After bus-off the NMT state is that after a lost heartbeat, by the error behaviour in 1029:01
/// (CiA 301, 7.5.2.32). This is a law: a call of it changes nothing.
#[tactic(auto, using(crate::proofs::AsLoss::as_loss))]
pub fn bus_off_as_lost_heartbeat()
    ensures { (k : Constants) (before : Inputs) (e : Ending) →
        state_of k (after_bus (bus_input k before e 2) before)
        ≡ after_loss (reaction_with (byte_of (contents_of k before error_behaviour_key)))
        (state_of k before) }
{
    state_by_kind();
}
