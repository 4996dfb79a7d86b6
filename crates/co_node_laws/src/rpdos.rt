//! Which inputs change the identifiers of SYNC and RPDOs, and the mappings of PDOs. Each function
//! is a law: a call of it changes nothing.

ghost use Rattle.std.specs.Prelude.{◌≡◌, ◌≤◌, ◌<◌, ◌∷◌, false};
ghost use Rattle.co_value.specs.declared.key.Key.{Key};
ghost use Rattle.co_node_model.specs.Inputs.{InputView, Inputs};
ghost use Rattle.co_node_model.specs.Addresses.{may_change_addresses};
ghost use Rattle.co_profile.specs.Keys.{sync_key};
ghost use Rattle.co_node_model.specs.Moments.{Constants};
ghost use Rattle.co_node_model.specs.Device.{moment, moments, contents_of};
ghost use Rattle.co_node_model.specs.Mappings.{may_change_mappings, AgreeOnMappings};

use co_dict::{invalid_pdo_law, own_rule_law};
use co_pdo::written_from_2000;
use co_sdo::Bank;

/// An input that is no reset and writes neither 1005h nor a parameter of an RPDO leaves 1005h and
/// 1400h to 17FFh as they are. So the identifiers of SYNC and RPDOs have to be looked up again only
/// after a reset or such a write.
pub fn addresses_kept()
    ensures sync { (k : Constants) (inputs : Inputs) (input : InputView) →
        may_change_addresses (moment k (moments k inputs) input).mark ≡ false →
        contents_of k inputs sync_key ≡ contents_of k (input ∷ inputs) sync_key }
    ensures rpdos { (k : Constants) (inputs : Inputs) (input : InputView) →
        may_change_addresses (moment k (moments k inputs) input).mark ≡ false →
        (key : Key) → 0x1400 ≤ key.index → key.index < 0x1800 →
        contents_of k inputs key ≡ contents_of k (input ∷ inputs) key }
{
    own_rule_law();
    invalid_pdo_law();
    written_from_2000();
    Bank::set_is_permitted();
}

/// An input that is no reset and writes no mapping parameter leaves 1600h to 17FFh and 1A00h to
/// 1BFFh as they are (`before`). So mappings have to be compiled again only after a reset or such a
/// write. Within an input nothing changes them after the lost heartbeats, when SYNC and RPDOs take
/// effect (`after`).
pub fn mappings_kept()
    ensures before { (k : Constants) (inputs : Inputs) (input : InputView) →
        may_change_mappings (moment k (moments k inputs) input).mark ≡ false →
        AgreeOnMappings (contents_of k inputs) (moment k (moments k inputs) input).watched }
    ensures after { (k : Constants) (inputs : Inputs) (input : InputView) →
        AgreeOnMappings (moment k (moments k inputs) input).watched
        (contents_of k (input ∷ inputs)) }
{
    own_rule_law();
    invalid_pdo_law();
    written_from_2000();
    Bank::set_is_permitted();
}
