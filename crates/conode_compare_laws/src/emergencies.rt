//! EMCY.

ghost use Rattle.std.specs.Prelude.{◌≡◌, ◌⊎◌, ◌+◌, List, []};
ghost use Rattle.co_sheet.specs.Content.{Row};
ghost use Rattle.co_node_model.specs.Moments.{Constants};
ghost use Rattle.conode_compare_nmt.specs.declared.limits.Subject.{Subject};
ghost use Rattle.conode_compare_laws.specs.Differences.{differences_in, emergency_differences};
ghost use Rattle.conode_compare_laws.specs.Identifiers.{
  AllSendWithout,
  AreElsewhere,
  AreNoEvents,
  BeginsAside,
  JudgesNone,
};
ghost use Rattle.conode_compare_laws.specs.Recordings.{Stamped, recording};

use crate::aside::sends_aside;

/// The recording of a device, over whatever inputs with whatever stamps but events of the
/// application, has no difference of EMCY other than of their inhibit time (CiA 301, 7.2.7): none
/// while stopped, each with bit 0 of the error register, and of eight bytes. Conditions: `compare`
/// has its node-ID; no other node sends on the identifiers of its error control and of its EMCY
/// (`AreElsewhere`), and none of its own SDO channels and TPDOs sends on the latter, 80h + node-ID
/// (`AllSendWithout`). CiA 301 doesn't restrict that one, and the dictionary permits it: where a
/// TPDO has it by the data sheet, `compare` judges no EMCY, and nothing is asked of the device's
/// frames (`JudgesNone`). This is a law: a call of it changes nothing.
pub fn no_emergency_differences()
    ensures { (k : Constants) (subject : Subject) (rows : List Row) (inputs : List Stamped) →
        subject.node ≡ k.description.node → AreNoEvents inputs →
        AreElsewhere (0x700 + k.description.node) inputs →
        AreElsewhere (0x80 + k.description.node) inputs → BeginsAside k →
        JudgesNone subject ⊎ AllSendWithout (0x80 + k.description.node) k [] inputs →
        differences_in emergency_differences subject rows (recording k inputs) ≡ [] }
{
    sends_aside();
}
