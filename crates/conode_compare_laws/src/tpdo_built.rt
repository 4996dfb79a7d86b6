//! The parameters of TPDOs of devices that are built from a data sheet.

ghost use Rattle.std.specs.Prelude.{◌≡◌, ◌+◌, List, []};
ghost use Rattle.std.specs.List.{All};
ghost use Rattle.co_dict_build.specs.Built.{Plan};
ghost use Rattle.co_node.specs.Built.{IsBuilt};
ghost use Rattle.co_node_model.specs.Moments.{Constants};
ghost use Rattle.co_sheet.specs.Content.{Row};
ghost use Rattle.co_sheet.specs.SheetLaws.{IsSheetRow};
ghost use Rattle.conode_compare_pdos.specs.Followed.{pdos_of, uncounted};
ghost use Rattle.conode_compare_nmt.specs.declared.limits.Subject.{Subject};
ghost use Rattle.conode_compare_laws.specs.Differences.{differences_in};
ghost use Rattle.conode_compare_laws.specs.Identifiers.{AreElsewhere};
ghost use Rattle.conode_compare_laws.specs.NamedTpdos.{AreNoSdoSyncs, NameNoTpdos};
ghost use Rattle.conode_compare_laws.specs.Recordings.{Stamped, recording};
ghost use Rattle.conode_compare_laws.specs.TpdoDifferences.{
  is_pdo_length,
  is_pdo_sync,
  tpdo_differences,
};
ghost use Rattle.conode_compare_laws.specs.TpdoFrames.{AllSendBesideTpdos, AreNoTpdos};
ghost use Rattle.conode_compare_laws.specs.TpdoParameters.{AllKeepTpdos, AllWriteNone, AreTpdosOf};
ghost use Rattle.conode_compare_laws.specs.TpdoSheets.{AreOnTheirOwn};

use crate::aside::sends_aside;
use crate::built_devices::begins_aside;
use co_dict::{invalid_pdo_law, own_rule_law};
use co_pdo::written_from_2000;
use co_sdo::Bank;

/// A device built from a data sheet, as by `Node::build` of `co_node`, keeps the parameters of its
/// TPDOs and 1005h as they are over all inputs, where no SDO channel and no event of the
/// application writes one of them (`AllWriteNone`): a reset restores what they began with, and
/// nothing else changes them. This is a law: a call of it changes nothing.
pub fn keeps_tpdos()
    ensures { (plan : Plan) (k : Constants) (inputs : List Stamped) → IsBuilt plan k →
        AllWriteNone k [] inputs → AllKeepTpdos k [] inputs }
{
    own_rule_law();
    invalid_pdo_law();
    written_from_2000();
    Bank::set_is_permitted();
}

/// The transmission type, the inhibit time and the event timer that `compare` has of the first four
/// TPDOs by a data sheet, the number of their bytes, and the identifier of SYNC are those with
/// which a device that is built of it begins: a mapping that the dictionary would refuse is a fault
/// of the sheet, `BadMapping` (CiA 301, 7.5.2.38). Conditions: the rows are those of a sheet that
/// was read (`IsSheetRow`); no other TPDO has the identifier of one of the four, nor SYNC
/// (`AreOnTheirOwn`). `master`: so they are where SYNCs aren't counted, as of a device that may be the
/// NMT master (`uncounted`). This is a law: a call of it changes nothing.
pub fn tpdos_of_sheet()
    ensures counted { (plan : Plan) (k : Constants) → IsBuilt plan k → All IsSheetRow plan.rows →
        AreOnTheirOwn k (pdos_of plan.rows plan.node) →
        AreTpdosOf k (pdos_of plan.rows plan.node) }
    ensures master { (plan : Plan) (k : Constants) → IsBuilt plan k → All IsSheetRow plan.rows →
        AreOnTheirOwn k (pdos_of plan.rows plan.node) →
        AreTpdosOf k (uncounted (pdos_of plan.rows plan.node)) }
{}

/// The recording of a device that is built from a data sheet has no `pdo-length` (CiA 301,
/// 7.5.2.38): `no_pdo_length` of it, without a condition on its entries, since what is written into
/// them fits. Conditions: the rows are those of a sheet that was read (`IsSheetRow`); `compare` has
/// the device's node-ID; what it has of the TPDOs is what the device was built with (`AreTpdosOf`,
/// as by `tpdos_of_sheet`); no SDO channel and no event of the application writes a parameter of a
/// TPDO, nor 1005h (`AllWriteNone`); and those of `no_pdo_length` on the frames. This is a law: a
/// call of it changes nothing.
pub fn built_no_pdo_length()
    ensures { (plan : Plan) (k : Constants) (subject : Subject) (rows : List Row)
        (inputs : List Stamped) → IsBuilt plan k → All IsSheetRow plan.rows →
        subject.node ≡ k.description.node → AreTpdosOf k subject.facts.pdos →
        AllWriteNone k [] inputs → AreElsewhere (0x700 + k.description.node) inputs →
        AreNoTpdos subject.facts.pdos inputs →
        AllSendBesideTpdos subject.facts.pdos k [] inputs →
        NameNoTpdos k.description.node (recording k inputs) →
        differences_in (tpdo_differences is_pdo_length) subject rows (recording k inputs) ≡ [] }
{
    Bank::set_is_permitted();
    begins_aside();
    keeps_tpdos();
    sends_aside();
}

/// The recording of a device that is built from a data sheet has no `pdo-sync` (CiA 301, 7.2.2.2.1
/// and 7.5.2.37): `no_pdo_sync` of it. Conditions: `compare` has the device's node-ID; what it has
/// of the TPDOs is what the device was built with (`AreTpdosOf`, as by `tpdos_of_sheet`); no SDO
/// channel and no event of the application writes a parameter of a TPDO, nor 1005h
/// (`AllWriteNone`); and those of `no_pdo_sync` on the frames. This is a law: a call of it changes
/// nothing.
pub fn built_no_pdo_sync()
    ensures { (plan : Plan) (k : Constants) (subject : Subject) (rows : List Row)
        (inputs : List Stamped) → IsBuilt plan k → subject.node ≡ k.description.node →
        AreTpdosOf k subject.facts.pdos → AllWriteNone k [] inputs →
        AreElsewhere (0x700 + k.description.node) inputs →
        AreElsewhere (0x80 + k.description.node) inputs →
        AreNoTpdos subject.facts.pdos inputs →
        AllSendBesideTpdos subject.facts.pdos k [] inputs →
        NameNoTpdos k.description.node (recording k inputs) →
        AreNoSdoSyncs subject.facts.pdos k.description.node (recording k inputs) →
        differences_in (tpdo_differences is_pdo_sync) subject rows (recording k inputs) ≡ [] }
{
    begins_aside();
    keeps_tpdos();
    sends_aside();
}
