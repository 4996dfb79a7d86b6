//! The bytes that a device holds for its SDO transfers. This is a law: a call of it changes
//! nothing.

ghost use Rattle.std.specs.Prelude.{◌≤◌, ℕ};
ghost use Rattle.co_node_model.specs.Inputs.{Inputs};
ghost use Rattle.co_node_model.specs.Moments.{Constants};
ghost use Rattle.co_node_model.specs.Device.{held_of, room_of};
ghost use Rattle.co_node_laws.specs.Lengths.{AllDictionaries};

/// An SDO channel holds at most the capacity of the transferred entry plus 889 bytes, a sub-block,
/// for its transfer. The condition is that the entries were always those of a dictionary, as each
/// store ensures.
#[tactic(auto, using(crate::proofs::HeldBytes::held_within))]
pub fn held_within_room()
    ensures { (k : Constants) (inputs : Inputs) (j : ℕ) → AllDictionaries k inputs →
        held_of k inputs j ≤ room_of k inputs j }
{}
