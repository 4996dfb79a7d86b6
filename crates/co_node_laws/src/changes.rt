//! The changes of the entries by an input. Each function is a law: a call of it changes nothing.

ghost use Rattle.std.specs.Prelude.{◌≡◌, ◌∷◌, ℕ, Some, None, true, false};
ghost use Rattle.co_frame.specs.FrameContent.{FrameContent};
ghost use Rattle.co_sdo.specs.Completed.{contents_with};
ghost use Rattle.co_sdo.specs.Events.{set_of};
ghost use Rattle.co_node_parts.specs.NmtStates.{is_state};
ghost use Rattle.co_node_parts.specs.declared.nmt_state.NodeState.TheVariants.{Stopped};
ghost use Rattle.co_node_model.specs.declared.address.Address.TheVariants.{Channel};
ghost use Rattle.co_node_model.specs.AppEvents.{event_refusal, app_contents};
ghost use Rattle.co_node_model.specs.Inputs.{Inputs, AppView, Framed, Applied};
ghost use Rattle.co_node_model.specs.Moments.{Constants, channels};
ghost use Rattle.co_node_model.specs.Addresses.{address_at};
ghost use Rattle.co_node_model.specs.Sdo.{channel_logs};
ghost use Rattle.co_node_model.specs.Device.{moments, state_of, contents_of};

/// A refused application event changes no entry. Any other changes exactly these: a write its
/// entry, an error the error register and the pre-defined error field, a clear the error register,
/// an event or a change none.
pub fn changes_by_event()
    ensures done { (k : Constants) (inputs : Inputs) (event : AppView) →
        event_refusal k.description (contents_of k inputs) event ≡ None →
        contents_of k (Applied event ∷ inputs) ≡
        app_contents k.description event (contents_of k inputs) }
    ensures refused { (k : Constants) (inputs : Inputs) (event : AppView) (code : ℕ) →
        event_refusal k.description (contents_of k inputs) event ≡ Some code →
        contents_of k (Applied event ∷ inputs) ≡ contents_of k inputs }
{}

/// A frame to an SDO channel sets at most one entry: that of the whole, permitted download which it
/// completes. While the device is stopped it sets none (CiA 301, 7.2.4.3).
pub fn changes_by_request()
    ensures running { (k : Constants) (inputs : Inputs) (frame : FrameContent) (j : ℕ) →
        address_at k (moments k inputs) frame.id ≡ Channel j →
        is_state Stopped (state_of k inputs) ≡ false →
        contents_of k (Framed frame ∷ inputs) ≡ contents_with (contents_of k inputs)
        (set_of (channels k) k.description (contents_of k inputs)
        (channel_logs (moments k inputs)) frame) }
    ensures stopped { (k : Constants) (inputs : Inputs) (frame : FrameContent) (j : ℕ) →
        address_at k (moments k inputs) frame.id ≡ Channel j →
        is_state Stopped (state_of k inputs) ≡ true →
        contents_of k (Framed frame ∷ inputs) ≡ contents_of k inputs }
{}
