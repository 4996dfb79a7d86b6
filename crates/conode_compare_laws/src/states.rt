//! NMT states, boot-ups and error control.

ghost use Rattle.std.specs.Prelude.{◌≡◌, ◌+◌, List, []};
ghost use Rattle.co_sheet.specs.Content.{Row};
ghost use Rattle.co_node_model.specs.Moments.{Constants};
ghost use Rattle.conode_compare_nmt.specs.declared.limits.Subject.{Subject};
ghost use Rattle.conode_compare_laws.specs.Differences.{differences_in, state_differences};
ghost use Rattle.conode_compare_laws.specs.Identifiers.{AllSendAside, AreElsewhere, BeginsAside};
ghost use Rattle.conode_compare_laws.specs.Recordings.{Stamped, recording};

use crate::aside::sends_aside;

/// The recording of a device, over whatever inputs with whatever stamps, has no difference of NMT
/// or error control (CiA 301, 7.2.8.2 and 7.2.8.3): no `boot-missing` at any frame, and of error
/// control no second boot-up, no state that the device can't be in, no byte that is no state, and
/// no other length than one byte. However the device is judged (limits), and whatever is known of
/// its data sheet (facts, entries that are held). Conditions: `compare` has its node-ID; no other
/// node sends on the identifier of its error control (`AreElsewhere`); and of its own SDO, EMCY and
/// TPDOs none is sent there or as an NMT command. `sent`: where none is (`AllSendAside`). `begun`:
/// a device that is built so sends none (`BeginsAside`). This is a law: a call of it changes
/// nothing.
pub fn no_state_differences()
    ensures sent { (k : Constants) (subject : Subject) (rows : List Row) (inputs : List Stamped) →
        subject.node ≡ k.description.node → AreElsewhere (0x700 + k.description.node) inputs →
        AllSendAside k [] inputs →
        differences_in state_differences subject rows (recording k inputs) ≡ [] }
    ensures begun { (k : Constants) (subject : Subject) (rows : List Row) (inputs : List Stamped) →
        subject.node ≡ k.description.node → AreElsewhere (0x700 + k.description.node) inputs →
        BeginsAside k →
        differences_in state_differences subject rows (recording k inputs) ≡ [] }
{
    sends_aside();
}
