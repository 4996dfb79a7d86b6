//! The condition of the schedule of TPDOs, over all inputs. Each function is a law: a call of it
//! changes nothing.

ghost use Rattle.std.specs.Prelude.{◌≡◌, ◌∷◌, true};
ghost use Rattle.co_node_model.specs.Inputs.{InputView, Inputs};
ghost use Rattle.co_node_parts.specs.declared.nmt_state.NodeState.TheVariants.{Operational};
ghost use Rattle.co_pdo.specs.Schedules.{AllCurrent};
ghost use Rattle.co_node_model.specs.Moments.{Constants};
ghost use Rattle.co_node_model.specs.Tpdos.{schedule_log, turn_at};
ghost use Rattle.co_node_model.specs.Device.{moment, moments, state_of, contents_of};
ghost use Rattle.co_node_laws.specs.Calls.{is_asked};

use co_dict::{invalid_pdo_law, own_rule_law};
use co_pdo::written_from_2000;
use co_sdo::Bank;

/// In operational, after any inputs, each active TPDO had its last whole start with the
/// transmission type and the inhibit time that its entries have now, and the last start of its
/// event timer with the time that it has now (CiA 301, 7.2.2.2 to 7.2.2.4 and 7.5.2.37).
pub fn schedule_current()
    ensures { (k : Constants) (inputs : Inputs) → state_of k inputs ≡ Operational →
        AllCurrent (contents_of k inputs) (schedule_log k (moments k inputs)) }
{
    own_rule_law();
    invalid_pdo_law();
    written_from_2000();
    Bank::set_is_permitted();
}

/// The same holds for the entries at the end of an input at which the schedule is asked: a SYNC,
/// application events of TPDOs, or a tick. So a device may ask then which TPDOs are due.
pub fn schedule_ready()
    ensures { (k : Constants) (inputs : Inputs) (input : InputView) →
        is_asked (turn_at (moment k (moments k inputs) input) (moments k inputs)) ≡ true →
        AllCurrent (contents_of k (input ∷ inputs)) (schedule_log k (moments k inputs)) }
{
    own_rule_law();
    invalid_pdo_law();
    written_from_2000();
    Bank::set_is_permitted();
}
