//! How many frames an input prescribes. Each function is a law: a call of it changes nothing.

ghost use Rattle.std.specs.Prelude.{◌≡◌, ◌≤◌, ◌+◌, length, max, true};
ghost use Rattle.co_frame.specs.FrameContent.{FrameContent};
ghost use Rattle.co_node_model.specs.Inputs.{InputView, Inputs, Framed};
ghost use Rattle.co_sdo.specs.Events.{frames_at};
ghost use Rattle.co_node_model.specs.Moments.{Constants};
ghost use Rattle.co_node_model.specs.Device.{moment, moments, prescribed, frame_bound};
ghost use Rattle.co_node_model.specs.Addresses.{address_at};
ghost use Rattle.co_node_model.specs.Tpdos.{tpdo_count};
ghost use Rattle.co_node_laws.specs.Kinds.{is_unanswered};
ghost use Rattle.co_node_laws.specs.Lengths.{HasParts};

/// A frame that is neither for an SDO channel nor SYNC sends at most one frame: an emergency, or
/// the boot-up (CiA 301, 7.2.7 and 7.2.8.3.3).
#[tactic(auto, using(crate::proofs::Counts::few_unanswered))]
pub fn few_unanswered()
    ensures { (k : Constants) (inputs : Inputs) (frame : FrameContent) →
        is_unanswered (address_at k (moments k inputs) frame.id) ≡ true →
        length (prescribed k inputs (Framed frame)) ≤ frame_bound k inputs (Framed frame) }
{}

/// After any inputs, an SDO channel answers a frame with at most 127 frames: a sub-block of an
/// upload has no more segments, since a greater block size is refused (CiA 301, 7.2.4.3.13 to
/// 7.2.4.3.15).
#[tactic(auto, using(crate::proofs::FewExchanged::few_exchanged))]
pub fn few_responses()
    ensures { (k : Constants) (inputs : Inputs) (input : InputView) →
        length (frames_at (moment k (moments k inputs) input).exchange) ≤ 127 }
{}

/// No input sends more frames than its bound: an NMT command 1, a request to an SDO channel 128,
/// SYNC and an application event the number of TPDOs plus 1, a tick the number of TPDOs plus 2, any
/// other 1. The condition is that the entries are those of a dictionary, as each store ensures.
#[tactic(auto, using(crate::proofs::Bounds::few))]
pub fn few()
    ensures { (k : Constants) (inputs : Inputs) (input : InputView) → HasParts k inputs input →
        length (prescribed k inputs input) ≤ frame_bound k inputs input }
{}

/// No bound is above 129, or the number of TPDOs plus 2 if that is more.
#[tactic(auto, using(crate::proofs::Bounds::greatest))]
pub fn greatest_bound()
    ensures { (k : Constants) (inputs : Inputs) (input : InputView) →
        frame_bound k inputs input ≤ max 127 (tpdo_count k.description.rows) + 2 }
{}
