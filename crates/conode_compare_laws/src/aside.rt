//! The identifiers that a device sends on.

ghost use Rattle.std.specs.Prelude.{List, []};
ghost use Rattle.co_node_model.specs.Moments.{Constants};
ghost use Rattle.conode_compare_laws.specs.Identifiers.{AllSendAside, BeginsAside};
ghost use Rattle.conode_compare_laws.specs.Recordings.{Stamped};

use co_dict::{invalid_pdo_law, own_rule_law};
use co_pdo::written_from_2000;
use co_sdo::Bank;

/// A device that is built with its SDO channels, EMCY and TPDOs aside from the identifiers of NMT
/// and of its error control never sends one of these there, whatever inputs come: a write of such a
/// COB-ID is refused, and nothing but a reset changes one otherwise (CiA 301, 7.3.5). This is a
/// law: a call of it changes nothing.
pub fn sends_aside()
    ensures { (k : Constants) (inputs : List Stamped) → BeginsAside k → AllSendAside k [] inputs }
{
    own_rule_law();
    invalid_pdo_law();
    written_from_2000();
    Bank::set_is_permitted();
}
