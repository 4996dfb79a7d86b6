//! SYNC and EMCY never use the identifiers of a node's default SDO channel. This is a law: a call
//! of it changes nothing.

ghost use Rattle.co_node_model.specs.Inputs.{Inputs};
ghost use Rattle.co_node_model.specs.Moments.{Constants};
ghost use Rattle.co_node_model.specs.Device.{contents_of};
ghost use Rattle.co_node_laws.specs.Apart.{AreApart, BeginsApart};

use co_dict::{invalid_pdo_law, own_rule_law};
use co_pdo::written_from_2000;
use co_sdo::Bank;

/// If a device begins with SYNC and EMCY apart from its default SDO channel, they stay apart after
/// any inputs. Only resets, which restore 1005:00 and 1014:00, and writes change these entries; a
/// write that gives SYNC, or a valid EMCY, an identifier of a default SDO channel is refused
/// (CiA 301, 7.3.5).
pub fn stays_apart()
    ensures { (k : Constants) (inputs : Inputs) → BeginsApart k →
        AreApart k.description.node (contents_of k inputs) }
{
    own_rule_law();
    invalid_pdo_law();
    written_from_2000();
    Bank::set_is_permitted();
}
