//! The entries that each kind of input changes; it changes no other. Each function is a law: a call
//! of it changes nothing.

ghost use Rattle.std.specs.Prelude.{◌≡◌, ◌≢◌, ◌<◌, ◌∷◌, ℕ, [], Some, None, length, true, false};
ghost use Rattle.co_frame.specs.FrameContent.{FrameContent};
ghost use Rattle.co_frame.specs.Nmt.{nmt_command_in};
ghost use Rattle.co_dict.specs.declared.area.Area.{Area};
ghost use Rattle.co_dict.specs.Rows.{restored, written};
ghost use Rattle.co_sdo.specs.Completed.{completed_by};
ghost use Rattle.co_sdo.specs.Downloads.{Download};
ghost use Rattle.co_sdo.specs.OpenTransfers.{open_transfer};
ghost use Rattle.co_sdo.specs.Refused.{completion_refusal};
ghost use Rattle.co_node_parts.specs.NmtStates.{is_state};
ghost use Rattle.co_node_parts.specs.declared.nmt_state.NodeState.TheVariants.{PreOperational, Stopped};
ghost use Rattle.co_node_model.specs.declared.address.Address.TheVariants.{Channel};
ghost use Rattle.co_node_model.specs.Inputs.{InputView, Inputs, Framed};
ghost use Rattle.co_node_model.specs.Nmt.{is_reset_by, service_for};
ghost use Rattle.co_node_model.specs.Heartbeats.{boot_up};
ghost use Rattle.co_node_model.specs.Sdo.{channel_logs};
ghost use Rattle.co_node_model.specs.Moments.{Constants};
ghost use Rattle.co_node_model.specs.Addresses.{address_at};
ghost use Rattle.co_node_model.specs.Device.{contents_of, moments, prescribed, state_of};
ghost use Rattle.co_node_laws.specs.Changes.{changed_by, reset_to, is_for};

/// The entries after any one more input are `changed_by`, by the kind of input, and for a frame by
/// its addressee. A reset restores its area. A SYNC and a frame of an RPDO raise the error of their
/// length; then the data that take effect are written. A frame to an SDO channel sets the entry
/// whose permitted download it completes. A tick raises an error for each heartbeat lost at it. An
/// application event has its own effect, unless it is refused. Nothing else changes an entry.
#[tactic(auto, using(crate::proofs::Changed::changed))]
pub fn changes_by_kind()
    ensures { (k : Constants) (inputs : Inputs) (input : InputView) →
        contents_of k (input ∷ inputs) ≡ changed_by k inputs input }
{}

/// An NMT command that is no reset of this node changes no entry (CiA 301, 7.2.8.3.1).
pub fn changes_by_command()
    ensures { (k : Constants) (inputs : Inputs) (frame : FrameContent) → frame.id ≡ 0 →
        is_reset_by (service_for k.description.node (nmt_command_in frame)) ≡ false →
        contents_of k (Framed frame ∷ inputs) ≡ contents_of k inputs }
{}

/// A reset of all nodes or of this node alone, in any state and after any inputs, restores its area
/// and changes no other entry (`contents`), ends in pre-operational (`state`) and sends the boot-up
/// alone (`frames`). A reset of another node changes no entry (`another`; CiA 301, 7.2.8.3.1,
/// 7.2.8.3.3 and 7.3.2.2).
pub fn changes_by_reset()
    ensures contents { (k : Constants) (inputs : Inputs) (node : ℕ) (area : Area) → node < 128 →
        is_for k node ≡ true →
        contents_of k (reset_to node area ∷ inputs) ≡
        restored area k.description.initial (contents_of k inputs) }
    ensures state { (k : Constants) (inputs : Inputs) (node : ℕ) (area : Area) → node < 128 →
        is_for k node ≡ true →
        state_of k (reset_to node area ∷ inputs) ≡ PreOperational }
    ensures frames { (k : Constants) (inputs : Inputs) (node : ℕ) (area : Area) → node < 128 →
        is_for k node ≡ true →
        prescribed k inputs (reset_to node area) ≡ boot_up k ∷ [] }
    ensures another { (k : Constants) (inputs : Inputs) (node : ℕ) (area : Area) →
        is_for k node ≡ false →
        contents_of k (reset_to node area ∷ inputs) ≡ contents_of k inputs }
{}

/// While the device isn't stopped, a frame of eight bytes to SDO channel j sets an entry if and
/// only if it completes a download that the dictionary permits: the entry then has the bytes of the
/// download. Else no entry changes (CiA 301, 7.2.4.3).
pub fn set_exactly()
    ensures set { (k : Constants) (inputs : Inputs) (frame : FrameContent) (j : ℕ) (w : Download) →
        address_at k (moments k inputs) frame.id ≡ Channel j →
        is_state Stopped (state_of k inputs) ≡ false → length frame.bytes ≡ 8 →
        completed_by k.description.rows (open_transfer (channel_logs (moments k inputs) j))
        frame.bytes ≡ Some w →
        completion_refusal k.description (contents_of k inputs) w.key w.indicated w.bytes ≡ None →
        contents_of k (Framed frame ∷ inputs) ≡ written (contents_of k inputs) w.key w.bytes }
    ensures refused { (k : Constants) (inputs : Inputs) (frame : FrameContent) (j : ℕ)
        (w : Download) (code : ℕ) →
        address_at k (moments k inputs) frame.id ≡ Channel j →
        completed_by k.description.rows (open_transfer (channel_logs (moments k inputs) j))
        frame.bytes ≡ Some w →
        completion_refusal k.description (contents_of k inputs) w.key w.indicated w.bytes
        ≡ Some code →
        contents_of k (Framed frame ∷ inputs) ≡ contents_of k inputs }
    ensures incomplete { (k : Constants) (inputs : Inputs) (frame : FrameContent) (j : ℕ) →
        address_at k (moments k inputs) frame.id ≡ Channel j →
        completed_by k.description.rows (open_transfer (channel_logs (moments k inputs) j))
        frame.bytes ≡ None →
        contents_of k (Framed frame ∷ inputs) ≡ contents_of k inputs }
    ensures ignored { (k : Constants) (inputs : Inputs) (frame : FrameContent) (j : ℕ) →
        address_at k (moments k inputs) frame.id ≡ Channel j → length frame.bytes ≢ 8 →
        contents_of k (Framed frame ∷ inputs) ≡ contents_of k inputs }
{}
