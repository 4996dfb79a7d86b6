//! When transfers are aborted as timed out.

ghost use Rattle.std.specs.Prelude.{◌≡◌, ◌+◌, List, []};
ghost use Rattle.co_dict_build.specs.Built.{Plan};
ghost use Rattle.co_sheet.specs.Content.{Row};
ghost use Rattle.co_node.specs.Built.{IsBuilt};
ghost use Rattle.co_node_laws.specs.Apart.{BeginsApart};
ghost use Rattle.co_node_model.specs.Moments.{Constants};
ghost use Rattle.conode_compare_nmt.specs.declared.limits.Subject.{Subject};
ghost use Rattle.conode_compare_laws.specs.AnswerFindings.{timeout_differences};
ghost use Rattle.conode_compare_laws.specs.AnswerSenders.{BeginsOther};
ghost use Rattle.conode_compare_laws.specs.Differences.{differences_in};
ghost use Rattle.conode_compare_laws.specs.Identifiers.{AreElsewhere, BeginsAside};
ghost use Rattle.conode_compare_laws.specs.Periods.{KnowsTimeout};
ghost use Rattle.conode_compare_laws.specs.Recordings.{AreUnhurried, Stamped, recording};

use crate::answer_laws::{begins_other, sends_other};
use crate::built_devices::begins_aside;
use co_node::begins_apart;
use co_node_laws::stays_apart;

/// The recording of a device has no `abort-early` (CiA 301, 7.2.4.3.17), whatever the tolerance and
/// the drift, and whatever transfers there are, in segments and in blocks: no transfer is aborted
/// as timed out sooner after the client's newest frame than its time. Requests may come in whatever
/// state, out of turn, and of any length; the data of block uploads may look like such an abort.
/// Conditions: `compare` has the device's node-ID; the time that it is given is none, or above 0
/// and no longer than the device's own SDO timeout, where that isn't 0 (`KnowsTimeout`); no stamp is
/// earlier than the ticks have it (`AreUnhurried`); no other node sends on the identifier of the
/// answers (`AreElsewhere`); and the COB-IDs with which the device is built are apart from its
/// default channel, from NMT and from its error control (`BeginsApart`, `BeginsAside`,
/// `BeginsOther`). This is a law: a call of it changes nothing.
pub fn no_early_aborts()
    ensures { (k : Constants) (subject : Subject) (rows : List Row) (inputs : List Stamped) →
        subject.node ≡ k.description.node → KnowsTimeout k subject → AreUnhurried inputs →
        AreElsewhere (0x580 + k.description.node) inputs → BeginsApart k → BeginsAside k →
        BeginsOther k →
        differences_in timeout_differences subject rows (recording k inputs) ≡ [] }
{
    sends_other();
    stays_apart();
}

/// So has the recording of each device that is built from a data sheet: `no_early_aborts` of it.
/// This is a law: a call of it changes nothing.
pub fn built_no_early_aborts()
    ensures { (plan : Plan) (k : Constants) (subject : Subject) (rows : List Row)
        (inputs : List Stamped) → IsBuilt plan k → subject.node ≡ k.description.node →
        KnowsTimeout k subject → AreUnhurried inputs →
        AreElsewhere (0x580 + k.description.node) inputs →
        differences_in timeout_differences subject rows (recording k inputs) ≡ [] }
{
    begins_apart();
    begins_aside();
    begins_other();
    no_early_aborts();
}
