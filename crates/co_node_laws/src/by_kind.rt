//! A device by the kind of its inputs. Each is a law: a call of it changes nothing.

ghost use Rattle.std.specs.Prelude.{◌≡◌, ◌∷◌, ℕ, [], true, false};
ghost use Rattle.co_sdo.specs.Events.{held_on};
ghost use Rattle.co_node_model.specs.Inputs.{InputView, Inputs};
ghost use Rattle.co_node_model.specs.Moments.{Constants, channels};
ghost use Rattle.co_node_model.specs.Device.{prescribed, state_of, contents_of, held_of};
ghost use Rattle.co_node_model.specs.Emergencies.{emergency_frames};
ghost use Rattle.co_node_parts.specs.declared.nmt_state.NodeState.TheVariants.{Stopped};
ghost use Rattle.co_node_laws.specs.ByKind.{
  Heard,
  by_heartbeat,
  device_after,
  device_of,
  is_inert,
  is_silent_while_stopped,
  kind_of,
  no_frame,
  sent_by,
  state_with,
};
ghost use Rattle.co_node_laws.specs.Devices.{emergency_at_end};

use co_dict::{invalid_pdo_law, own_rule_law};
use co_pdo::written_from_2000;
use co_sdo::Bank;

/// After any inputs, a device is as `specs/ByKind.antt` describes it by the kind of each input: its
/// frames (`frames`), its NMT state (`state`), its entries (`entries`), and the bytes held for the
/// transfers of its SDO channels (`held`).
pub fn device_by_kind()
    ensures frames { (k : Constants) (inputs : Inputs) (input : InputView) →
        prescribed k inputs input ≡ sent_by k inputs input }
    ensures state { (k : Constants) (inputs : Inputs) →
        state_of k inputs ≡ (device_of k inputs).state }
    ensures entries { (k : Constants) (inputs : Inputs) →
        contents_of k inputs ≡ (device_of k inputs).entries }
    ensures held { (k : Constants) (inputs : Inputs) (j : ℕ) →
        held_of k inputs j ≡ held_on (channels k) (device_of k inputs).transfers j }
{
    own_rule_law();
    invalid_pdo_law();
    written_from_2000();
    Bank::set_is_permitted();
}

/// A heartbeat of node c, in any state (CiA 301, 7.2.8.3.2): no frame is sent but a waiting
/// emergency (`frames`), and the state (`state`) and the entries (`entries`) stay the same. The
/// entries of 1016h that monitor node c restart their count; nothing else changes but for the
/// emergency that is sent (`device`).
pub fn heartbeat_of_another()
    ensures frames { (k : Constants) (inputs : Inputs) (input : InputView) (c : ℕ) →
        kind_of k (device_of k inputs) input ≡ Heard c →
        prescribed k inputs input
        ≡ emergency_frames (contents_of k inputs) (emergency_at_end false (device_of k inputs)) }
    ensures state { (k : Constants) (inputs : Inputs) (input : InputView) (c : ℕ) →
        kind_of k (device_of k inputs) input ≡ Heard c →
        state_of k (input ∷ inputs) ≡ state_of k inputs }
    ensures entries { (k : Constants) (inputs : Inputs) (input : InputView) (c : ℕ) →
        kind_of k (device_of k inputs) input ≡ Heard c →
        contents_of k (input ∷ inputs) ≡ contents_of k inputs }
    ensures device { (k : Constants) (inputs : Inputs) (input : InputView) (c : ℕ) →
        kind_of k (device_of k inputs) input ≡ Heard c →
        device_of k (input ∷ inputs) ≡ device_after (by_heartbeat c (device_of k inputs)) }
{
    device_by_kind();
}

/// An input that is for nobody, a command to another node, a boot-up of another node, or a refused
/// application event: no frame is sent but a waiting emergency (`frames`); the state (`state`) and
/// the entries (`entries`) stay the same. Nothing else changes but for the emergency that is sent
/// (`device`).
pub fn inert_input()
    ensures frames { (k : Constants) (inputs : Inputs) (input : InputView) →
        is_inert (kind_of k (device_of k inputs) input) ≡ true →
        prescribed k inputs input
        ≡ emergency_frames (contents_of k inputs) (emergency_at_end false (device_of k inputs)) }
    ensures state { (k : Constants) (inputs : Inputs) (input : InputView) →
        is_inert (kind_of k (device_of k inputs) input) ≡ true →
        state_of k (input ∷ inputs) ≡ state_of k inputs }
    ensures entries { (k : Constants) (inputs : Inputs) (input : InputView) →
        is_inert (kind_of k (device_of k inputs) input) ≡ true →
        contents_of k (input ∷ inputs) ≡ contents_of k inputs }
    ensures device { (k : Constants) (inputs : Inputs) (input : InputView) →
        is_inert (kind_of k (device_of k inputs) input) ≡ true →
        device_of k (input ∷ inputs) ≡ device_after (no_frame (device_of k inputs)) }
{
    device_by_kind();
}

/// Only NMT commands to this node or to all nodes, and lost heartbeats of other nodes, change the
/// NMT state (CiA 301, 7.3.2 and 7.5.2.32): after one more input of any kind it is `state_with`.
pub fn state_by_kind()
    ensures { (k : Constants) (inputs : Inputs) (input : InputView) →
        state_of k (input ∷ inputs)
        ≡ state_with (kind_of k (device_of k inputs) input) (device_of k inputs) }
{
    device_by_kind();
}

/// While stopped, a SYNC, a frame to an SDO channel and a frame of an RPDO send no frame at all,
/// and change nothing (CiA 301, 7.3.2.2).
pub fn nothing_while_stopped()
    ensures frames { (k : Constants) (inputs : Inputs) (input : InputView) →
        state_of k inputs ≡ Stopped →
        is_silent_while_stopped (kind_of k (device_of k inputs) input) ≡ true →
        prescribed k inputs input ≡ [] }
    ensures device { (k : Constants) (inputs : Inputs) (input : InputView) →
        state_of k inputs ≡ Stopped →
        is_silent_while_stopped (kind_of k (device_of k inputs) input) ≡ true →
        device_of k (input ∷ inputs) ≡ device_of k inputs }
{
    device_by_kind();
}
