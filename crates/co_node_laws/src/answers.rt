//! Answers to application events, and resets of all nodes. Each function is a law: a call of it
//! changes nothing.

ghost use Rattle.std.specs.Prelude.{◌≡◌, [], ◌∷◌};
ghost use Rattle.co_dict.specs.Rows.{restored};
ghost use Rattle.co_dict.specs.declared.area.Area.{Area};
ghost use Rattle.co_frame.specs.FrameContent.{FrameContent};
ghost use Rattle.co_node_model.specs.AppEvents.{app_answer};
ghost use Rattle.co_node_model.specs.Inputs.{Inputs, AppView, Framed, Ticked, Applied};
ghost use Rattle.co_node_model.specs.declared.app_answer.AppAnswer.TheVariants as answer;
ghost use Rattle.co_node_parts.specs.declared.nmt_state.NodeState.TheVariants.{PreOperational};
ghost use Rattle.co_node_model.specs.Moments.{Constants};
ghost use Rattle.co_node_model.specs.Device.{app_after, prescribed, state_of, contents_of};
ghost use Rattle.co_node_model.specs.Nmt.{reset_of};
ghost use Rattle.co_node_model.specs.Heartbeats.{boot_up};

/// After a frame there is no answer to an application event.
#[tactic(auto, using(crate::proofs::EventAnswers::none_to_frame))]
pub fn no_answer_to_frames()
    ensures { (k : Constants) (inputs : Inputs) (frame : FrameContent) →
        app_after k (Framed frame ∷ inputs) ≡ answer.None }
{}

/// After a tick there is no answer to an application event.
pub fn no_answer_to_ticks()
    ensures { (k : Constants) (inputs : Inputs) →
        app_after k (Ticked ∷ inputs) ≡ answer.None }
{}

/// The answer to an application event is that it was done, or the abort code of its refusal.
#[tactic(auto, using(crate::proofs::EventAnswers::to_event))]
pub fn event_answer()
    ensures { (k : Constants) (inputs : Inputs) (event : AppView) →
        app_after k (Applied event ∷ inputs) ≡
        app_answer k.description (contents_of k inputs) event }
{}

/// A reset of all nodes, in any state and after any inputs, restores its area (`contents`) and ends
/// in pre-operational (`state`; CiA 301, 7.3.2.2).
#[tactic(auto, using(crate::proofs::ResetsOfAll::pre_operational, crate::proofs::ResetsOfAll::area_restored))]
pub fn reset_restores_area()
    ensures state { (k : Constants) (inputs : Inputs) (area : Area) →
        state_of k (reset_of area ∷ inputs) ≡ PreOperational }
    ensures contents { (k : Constants) (inputs : Inputs) (area : Area) →
        contents_of k (reset_of area ∷ inputs) ≡
        restored area k.description.initial (contents_of k inputs) }
{}

/// A reset of all nodes sends the boot-up alone: no emergency, no heartbeat and no TPDO (CiA 301,
/// 7.2.8.3.3).
#[tactic(auto, using(crate::proofs::BootUps::boot_up_alone))]
pub fn reset_sends_boot_up_alone()
    ensures { (k : Constants) (inputs : Inputs) (area : Area) →
        prescribed k inputs (reset_of area) ≡ boot_up k ∷ [] }
{}
