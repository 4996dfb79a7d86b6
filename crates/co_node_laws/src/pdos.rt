//! When TPDOs are due and the data of RPDOs take effect, over all inputs. Each function is a law: a
//! call of it changes nothing.

ghost use Rattle.std.specs.Prelude.{◌≡◌, ◌+◌, ◌==◌, ◌&&◌, ◌∷◌, ◌++◌, ℕ, Option, [], Some, true, false};
ghost use Rattle.co_frame.specs.FrameContent.{FrameContent};
ghost use Rattle.co_pdo.specs.declared.tpdo.Occasion.TheVariants as occasion;
ghost use Rattle.co_pdo.specs.Due.{is_due, is_inhibit_over, event_waits};
ghost use Rattle.co_profile.specs.TransmissionTypes.{is_event_driven};
ghost use Rattle.co_pdo.specs.Log.{Happened};
ghost use Rattle.co_pdo.specs.Schedules.{is_among, sync_with};
ghost use Rattle.co_pdo.specs.Tpdos.{is_active, settings_of};
ghost use Rattle.co_node_parts.specs.declared.nmt_state.NodeState.TheVariants.{Operational};
ghost use Rattle.co_node_model.specs.Rpdos.{rpdo_type, is_short};
ghost use Rattle.co_profile.specs.TransmissionTypes.{is_synchronous};
ghost use Rattle.co_node_model.specs.Tpdos.{numbers_asked};
ghost use Rattle.co_node_model.specs.Inputs.{InputView, Inputs, Framed, Ticked};
ghost use Rattle.co_node_model.specs.declared.address.Address.TheVariants.{Sync, Rpdo};
ghost use Rattle.co_node_model.specs.declared.mark.Asked.{Asked};
ghost use Rattle.co_node_model.specs.declared.turn.Turn.TheVariants as turn;
ghost use Rattle.co_node_model.specs.Moments.{Constants};
ghost use Rattle.co_node_model.specs.Addresses.{address_at};
ghost use Rattle.co_node_model.specs.Device.{contents_of, moments, state_of};
ghost use Rattle.co_node_laws.specs.Calls.{is_asked};
ghost use Rattle.co_node_laws.specs.Distances.{moment_at};
ghost use Rattle.co_node_laws.specs.RpdoWaits.{
  IsLastAccepted,
  all_keep_waiting,
  waiting_frame,
  waiting_frames,
};
ghost use Rattle.co_node_laws.specs.TpdoDistances.{is_sent, ticks_of_timer, tpdo_log, turn_of_input};

use co_profile::PdoNumber;

/// In operational, the TPDO with this number is sent at a SYNC, a tick or one of its application
/// events if and only if it is due (`is_due`) by its transmission type and its log of all inputs,
/// with the entries at the end of the input. No other input sends one. An event-driven TPDO without
/// a waiting event, whose inhibit time is over, is sent at exactly the tick at which its event timer
/// has elapsed since it was started or sent (CiA 301, 7.2.2.2 to 7.2.2.4 and 7.5.2.37).
pub fn tpdo_due(number: PdoNumber)
    ensures at_sync { (k : Constants) (inputs : Inputs) (input : InputView) (counter : Option ℕ) →
        turn_of_input k inputs input ≡ turn.Sync counter →
        is_sent k number inputs input ≡
        is_due (settings_of (contents_of k (input ∷ inputs)) number) (tpdo_log k number inputs)
        (sync_with counter (contents_of k (input ∷ inputs))) }
    ensures at_tick { (k : Constants) (inputs : Inputs) (input : InputView) →
        turn_of_input k inputs input ≡ turn.Tick →
        is_sent k number inputs input ≡
        is_due (settings_of (contents_of k (input ∷ inputs)) number) (tpdo_log k number inputs)
        occasion.Tick }
    ensures at_event { (k : Constants) (inputs : Inputs) (input : InputView) (asked : Asked) →
        turn_of_input k inputs input ≡ turn.Asked asked →
        is_sent k number inputs input ≡
        is_among number (numbers_asked k.description (contents_of k (input ∷ inputs)) asked)
        && is_due (settings_of (contents_of k (input ∷ inputs)) number) (tpdo_log k number inputs)
        occasion.Event }
    ensures elsewhere { (k : Constants) (inputs : Inputs) (input : InputView) →
        is_asked (turn_of_input k inputs input) ≡ false →
        (moment_at k inputs input).due ≡ [] }
    ensures at_timer { (k : Constants) (inputs : Inputs) →
        let contents = contents_of k (Ticked ∷ inputs) in
        let settings = settings_of contents number in
        turn_of_input k inputs Ticked ≡ turn.Tick → is_active contents number ≡ true →
        is_event_driven settings.transmission_type.0 ≡ true →
        event_waits (tpdo_log k number inputs) ≡ false →
        is_inhibit_over settings.inhibit_time
        (Happened occasion.Tick settings false ∷ tpdo_log k number inputs) ≡ true →
        is_sent k number inputs Ticked
        ≡ (ticks_of_timer k number inputs + 1 == settings.event_timer) }
{
    number.get();
}

/// In operational, a frame of an RPDO of type 0 to 240 waits for a SYNC, unless it is too short
/// (`waits`). It waits until a SYNC comes in operational, operational is left, the device is reset,
/// the COB-ID or transmission type of the RPDO is written, or a newer frame replaces it; a frame
/// that is too short is dropped and replaces none. The next SYNC in operational takes all waiting
/// frames, by number: their data take effect then (`taken`). Each of them is the last frame that
/// its RPDO accepted, and nothing has ended its wait since, so that no earlier SYNC took it
/// (`last`; CiA 301, 7.2.2.2, 7.2.2.4 and 7.5.2.35).
pub fn takes_effect_at_sync()
    ensures waits { (k : Constants) (inputs later : Inputs) (n : ℕ) (frame : FrameContent) →
        address_at k (moments k inputs) frame.id ≡ Rpdo n → state_of k inputs ≡ Operational →
        is_synchronous (rpdo_type (contents_of k inputs) n) ≡ true →
        is_short k.description (contents_of k inputs) (record { number = n; frame = frame })
        ≡ false →
        all_keep_waiting k n (Framed frame ∷ inputs) later ≡ true →
        waiting_frame k n (later ++ Framed frame ∷ inputs) ≡ Some frame }
    ensures taken { (k : Constants) (inputs : Inputs) (frame : FrameContent) →
        address_at k (moments k inputs) frame.id ≡ Sync → state_of k inputs ≡ Operational →
        (moment_at k inputs (Framed frame)).taken ≡ waiting_frames k inputs }
    ensures last { (k : Constants) (inputs : Inputs) (n : ℕ) (frame : FrameContent) →
        waiting_frame k n inputs ≡ Some frame → IsLastAccepted k n inputs frame }
{}
