//! Laws about the entries that an input sets: a call of one changes nothing.

ghost use Rattle.std.specs.Prelude.{◌≡◌, ◌∷◌, [], ℕ, true, false};
ghost use Rattle.std.specs.List.{cons_option};
ghost use Rattle.co_frame.specs.FrameContent.{FrameContent};
ghost use Rattle.co_sdo.specs.Completed.{key_set};
ghost use Rattle.co_sdo.specs.Events.{set_of};
ghost use Rattle.co_node_parts.specs.NmtStates.{is_state};
ghost use Rattle.co_node_parts.specs.declared.nmt_state.NodeState.TheVariants.{Stopped};
ghost use Rattle.co_node_model.specs.declared.address.Address.TheVariants.{Channel};
ghost use Rattle.co_node_model.specs.Addresses.{address_at};
ghost use Rattle.co_node_model.specs.Inputs.{AppView, Applied, Framed, Inputs, Ticked};
ghost use Rattle.co_node_model.specs.Moments.{Constants, channels};
ghost use Rattle.co_node_model.specs.Sdo.{channel_logs};
ghost use Rattle.co_node_model.specs.Device.{contents_of, moments, state_of};
ghost use Rattle.co_node_device.specs.SetEntries.{last_set};

/// The entries that an input sets by SDO or by RPDOs: a request to an SDO channel sets the entry of
/// the whole, permitted download that it completes, if it completes one (CiA 301, 7.2.4.3); while
/// the device is stopped it sets none. Ticks and application events set none.
pub fn set_by_kind()
    ensures requests { (k : Constants) (before : Inputs) (frame : FrameContent) (j : ℕ) →
        address_at k (moments k before) frame.id ≡ Channel j →
        is_state Stopped (state_of k before) ≡ false → last_set k (Framed frame ∷ before)
        ≡ cons_option (key_set (set_of (channels k) k.description (contents_of k before)
        (channel_logs (moments k before)) frame)) [] }
    ensures stopped { (k : Constants) (before : Inputs) (frame : FrameContent) (j : ℕ) →
        address_at k (moments k before) frame.id ≡ Channel j →
        is_state Stopped (state_of k before) ≡ true → last_set k (Framed frame ∷ before) ≡ [] }
    ensures ticks { (k : Constants) (before : Inputs) → last_set k (Ticked ∷ before) ≡ [] }
    ensures events { (k : Constants) (before : Inputs) (event : AppView) →
        last_set k (Applied event ∷ before) ≡ [] }
{}
