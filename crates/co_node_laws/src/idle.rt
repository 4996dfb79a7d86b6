//! Ticks at which nothing is due. This is a law: a call of it changes nothing.

ghost use Rattle.std.specs.Prelude.{ℕ};
ghost use Rattle.co_node_model.specs.Inputs.{Inputs};
ghost use Rattle.co_node_model.specs.Moments.{Constants};
ghost use Rattle.co_node_model.specs.Device.{moments};
ghost use Rattle.co_node_model.specs.Ticks.{IsQuietFor};
ghost use Rattle.co_node_laws.specs.Idle.{NothingDueFor};

/// If no part of a device has anything due at any of the next `count` ticks, none of them sends a
/// frame, and the entries, the NMT state and the bytes held by SDO channels stay the same.
#[tactic(auto, using(crate::proofs::Idles::quiet_for))]
pub fn quiet_ticks()
    ensures { (k : Constants) (inputs : Inputs) (count : ℕ) →
        NothingDueFor k (moments k inputs) count → IsQuietFor k inputs count }
{}
