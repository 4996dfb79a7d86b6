//! When heartbeats and emergencies are sent, and heartbeats of others lost, by distances over all
//! inputs. Each function is a law: a call of it changes nothing.

ghost use Rattle.std.specs.Prelude.{◌≡◌, ◌≤◌, ℕ, [], Some, None, true, false};
ghost use Rattle.co_frame.specs.declared.heartbeat.Heartbeat.TheVariants.{BootUp};
ghost use Rattle.co_dict.specs.ConsumerHeartbeats.{consumer_key};
ghost use Rattle.co_dict.specs.Rows.{number_at};
ghost use Rattle.co_pdo.specs.Schedules.{is_among};
ghost use Rattle.co_node_parts.specs.Consumers.{monitored_by};
ghost use Rattle.co_profile.specs.Keys.{producer_key};
ghost use Rattle.co_node_model.specs.Inputs.{InputView, Inputs, Ticked};
ghost use Rattle.co_node_model.specs.Nmt.{is_reset};
ghost use Rattle.co_node_model.specs.Device.{contents_of};
ghost use Rattle.co_node_model.specs.Moments.{Constants};
ghost use Rattle.co_node_laws.specs.Kinds.{is_tick};
ghost use Rattle.co_node_laws.specs.Distances.{
  moment_at,
  heartbeat_at_tick,
  heartbeat_period,
  is_time_passed,
  monitored,
  emergency_by,
};

use co_dict::{invalid_pdo_law, own_rule_law};
use co_pdo::written_from_2000;
use co_sdo::Bank;

/// A heartbeat is sent at a tick if and only if the number of ticks since the last reset or write
/// of 1017:00, or since the device was built, is a positive multiple of the value of 1017:00 (in
/// ms). It has the state at the end of the tick. No other input sends one; a reset sends the
/// boot-up (CiA 301, 7.2.8.3.2, 7.2.8.3.3 and 7.5.2.20).
pub fn heartbeat_due()
    ensures at_tick { (k : Constants) (inputs : Inputs) →
        (moment_at k inputs Ticked).life ≡ heartbeat_at_tick k inputs }
    ensures reset { (k : Constants) (inputs : Inputs) (input : InputView) →
        is_reset (moment_at k inputs input).mark ≡ true →
        (moment_at k inputs input).life ≡ Some BootUp }
    ensures elsewhere { (k : Constants) (inputs : Inputs) (input : InputView) →
        is_tick input ≡ false →
        is_reset (moment_at k inputs input).mark ≡ false →
        (moment_at k inputs input).life ≡ None }
    ensures period { (k : Constants) (inputs : Inputs) →
        heartbeat_period k inputs ≡ number_at (contents_of k inputs) producer_key }
{
    own_rule_law();
    invalid_pdo_law();
    written_from_2000();
    Bank::set_is_permitted();
}

/// The heartbeat that an entry of 1016h monitors is lost at exactly the tick at which the time of
/// the entry has elapsed since the last heartbeat. It is never lost if no heartbeat came since the
/// entry was written, since the last reset, or since the device was built. No other input loses
/// one. An entry monitors the node of its current word (CiA 301, 7.2.8.3.2 and 7.5.2.19).
pub fn heartbeat_lost()
    ensures at_tick { (k : Constants) (inputs : Inputs) (sub : ℕ) → 1 ≤ sub → sub ≤ 127 →
        is_among sub (moment_at k inputs Ticked).lost ≡ is_time_passed k sub inputs }
    ensures elsewhere { (k : Constants) (inputs : Inputs) (input : InputView) →
        is_tick input ≡ false →
        (moment_at k inputs input).lost ≡ [] }
    ensures monitored { (k : Constants) (sub : ℕ) (inputs : Inputs) →
        monitored k sub inputs
        ≡ monitored_by (number_at (contents_of k inputs) (consumer_key sub)) }
{
    own_rule_law();
    invalid_pdo_law();
    written_from_2000();
    Bank::set_is_permitted();
}

/// An input sends the front of the emergency queue if one waits, the device may send it, and the
/// inhibit time of each sending since the last reset has elapsed: 1015:00 as it was then, rounded
/// up to ms (CiA 301, 7.2.7, 7.5.2.17 and 7.5.2.18).
pub fn emergency_sent()
    ensures { (k : Constants) (inputs : Inputs) (input : InputView) →
        (moment_at k inputs input).emergency ≡ emergency_by k inputs input }
{}
