//! Devices that are built from a data sheet.

ghost use Rattle.std.specs.Prelude.{◌≡◌, ◌+◌, List, []};
ghost use Rattle.co_dict_build.specs.Built.{Plan};
ghost use Rattle.co_sheet.specs.Content.{Row};
ghost use Rattle.co_node.specs.Built.{IsBuilt};
ghost use Rattle.co_node_model.specs.Moments.{Constants};
ghost use Rattle.conode_compare_nmt.specs.declared.limits.Subject.{Subject};
ghost use Rattle.conode_compare_laws.specs.Differences.{differences_in, state_differences};
ghost use Rattle.conode_compare_laws.specs.Identifiers.{AreElsewhere, BeginsAside};
ghost use Rattle.conode_compare_laws.specs.Recordings.{Stamped, recording};

use crate::states::no_state_differences;

/// A device built from a data sheet, as by `Node::build` of `co_node`, begins with its SDO
/// channels, EMCY and TPDOs aside from the identifiers of NMT and of its error control: else
/// `build` reports `NodeId` or `BadCobId` (CiA 301, 7.3.5). This is a law: a call of it changes
/// nothing.
pub fn begins_aside()
    ensures { (plan : Plan) (k : Constants) → IsBuilt plan k → BeginsAside k }
{}

/// The recording of such a device, over whatever inputs with whatever stamps, has no difference of
/// NMT or error control, where no other node sends on the identifier of its error control:
/// `no_state_differences` of every device that is built. This is a law: a call of it changes
/// nothing.
pub fn built_no_state_differences()
    ensures { (plan : Plan) (k : Constants) (subject : Subject) (rows : List Row)
        (inputs : List Stamped) → IsBuilt plan k → subject.node ≡ k.description.node →
        AreElsewhere (0x700 + k.description.node) inputs →
        differences_in state_differences subject rows (recording k inputs) ≡ [] }
{
    begins_aside();
    no_state_differences();
}
