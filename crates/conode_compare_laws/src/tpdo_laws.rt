//! TPDOs.

ghost use Rattle.std.specs.Prelude.{◌≡◌, ◌+◌, List, []};
ghost use Rattle.co_sheet.specs.Content.{Row};
ghost use Rattle.co_node_model.specs.Moments.{Constants};
ghost use Rattle.conode_compare_nmt.specs.declared.limits.Subject.{Subject};
ghost use Rattle.conode_compare_laws.specs.Differences.{differences_in};
ghost use Rattle.conode_compare_laws.specs.Identifiers.{AreElsewhere, BeginsAside};
ghost use Rattle.conode_compare_laws.specs.NamedTpdos.{AreNoSdoSyncs, NameNoTpdos};
ghost use Rattle.conode_compare_laws.specs.Recordings.{AreTimed, AreUnhurried, Stamped, recording};
ghost use Rattle.conode_compare_laws.specs.TpdoDifferences.{
  is_pdo_inhibit,
  is_pdo_late,
  is_pdo_length,
  is_pdo_state,
  is_pdo_sync,
  tpdo_differences,
};
ghost use Rattle.conode_compare_laws.specs.TpdoFrames.{AllSendBesideTpdos, AreNoTpdos};
ghost use Rattle.conode_compare_laws.specs.TpdoParameters.{AllAreFilled, AllKeepTpdos, AreTpdosOf};

use crate::aside::sends_aside;

/// The recording of a device has no `pdo-state` (CiA 301, 7.3.2.2.3): it sends TPDOs while
/// operational alone, over whatever inputs with whatever stamps, events of the application and
/// writes on other channels too, and whatever transfers there are on its default SDO channel but of
/// TPDOs. Conditions: `compare` has its node-ID; no other node sends on the identifier of its error
/// control (`AreElsewhere`), and neither another node nor the device's own SDO and EMCY on one that
/// `compare` has for a TPDO by the data sheet (`AreNoTpdos`, `AllSendBesideTpdos`); and on its
/// default SDO channel no frame of a client names 1800h to 1803h, and none asks to write 1A00h to
/// 1A03h or 1005:00 (`NameNoTpdos`). This is a law: a call of it changes nothing.
pub fn no_pdo_state()
    ensures { (k : Constants) (subject : Subject) (rows : List Row) (inputs : List Stamped) →
        subject.node ≡ k.description.node → AreElsewhere (0x700 + k.description.node) inputs →
        AreNoTpdos subject.facts.pdos inputs → BeginsAside k →
        AllSendBesideTpdos subject.facts.pdos k [] inputs →
        NameNoTpdos k.description.node (recording k inputs) →
        differences_in (tpdo_differences is_pdo_state) subject rows (recording k inputs) ≡ [] }
{
    sends_aside();
}

/// Nor has it a `pdo-length` (CiA 301, 7.5.2.38): each TPDO has as many bytes as the data sheet
/// maps. Further conditions: no parameter of a TPDO is written, nor 1005h (`AllKeepTpdos`); the
/// entries are those of a dictionary, as each store ensures (`AllAreFilled`); what `compare` has of
/// the TPDOs by the data sheet is what the device was built with, and no two have one identifier
/// (`AreTpdosOf`). This is a law: a call of it changes nothing.
pub fn no_pdo_length()
    ensures { (k : Constants) (subject : Subject) (rows : List Row) (inputs : List Stamped) →
        subject.node ≡ k.description.node → AreTpdosOf k subject.facts.pdos →
        AllKeepTpdos k [] inputs → AllAreFilled k [] inputs →
        AreElsewhere (0x700 + k.description.node) inputs →
        AreNoTpdos subject.facts.pdos inputs → BeginsAside k →
        AllSendBesideTpdos subject.facts.pdos k [] inputs →
        NameNoTpdos k.description.node (recording k inputs) →
        differences_in (tpdo_differences is_pdo_length) subject rows (recording k inputs) ≡ [] }
{
    sends_aside();
}

/// Nor has it a `pdo-sync` (CiA 301, 7.2.2.2.1 and 7.5.2.37): a TPDO of type 0 to 240 comes after a
/// SYNC, and one of type n = 2 to 240 not after fewer than n. Conditions as those of
/// `no_pdo_length` but that of the entries; that no other node sends on 80h + node-ID, not even
/// SYNC (`AreElsewhere`); and that SYNC, as far as `compare` knows its identifier, doesn't come on
/// the default SDO channel (`AreNoSdoSyncs`). This is a law: a call of it changes nothing.
pub fn no_pdo_sync()
    ensures { (k : Constants) (subject : Subject) (rows : List Row) (inputs : List Stamped) →
        subject.node ≡ k.description.node → AreTpdosOf k subject.facts.pdos →
        AllKeepTpdos k [] inputs → AreElsewhere (0x700 + k.description.node) inputs →
        AreElsewhere (0x80 + k.description.node) inputs →
        AreNoTpdos subject.facts.pdos inputs → BeginsAside k →
        AllSendBesideTpdos subject.facts.pdos k [] inputs →
        NameNoTpdos k.description.node (recording k inputs) →
        AreNoSdoSyncs subject.facts.pdos k.description.node (recording k inputs) →
        differences_in (tpdo_differences is_pdo_sync) subject rows (recording k inputs) ≡ [] }
{
    sends_aside();
}

/// Nor has it a `pdo-inhibit` (CiA 301, 7.5.2.37), whatever the tolerance and the drift. Conditions
/// as those of `no_pdo_length` but that of the entries, and that no stamp is earlier than the ticks
/// have it (`AreUnhurried`). This is a law: a call of it changes nothing.
pub fn no_pdo_inhibit()
    ensures { (k : Constants) (subject : Subject) (rows : List Row) (inputs : List Stamped) →
        subject.node ≡ k.description.node → AreTpdosOf k subject.facts.pdos →
        AllKeepTpdos k [] inputs → AreUnhurried inputs →
        AreElsewhere (0x700 + k.description.node) inputs →
        AreNoTpdos subject.facts.pdos inputs → BeginsAside k →
        AllSendBesideTpdos subject.facts.pdos k [] inputs →
        NameNoTpdos k.description.node (recording k inputs) →
        differences_in (tpdo_differences is_pdo_inhibit) subject rows (recording k inputs) ≡ [] }
{
    sends_aside();
}

/// Nor has it a `pdo-late` (CiA 301, 7.5.2.37), whatever the tolerance and the drift: conditions as
/// those of `no_pdo_inhibit`, but that no stamp is later than the ticks have it (`AreTimed`). This
/// is a law: a call of it changes nothing.
pub fn no_pdo_late()
    ensures { (k : Constants) (subject : Subject) (rows : List Row) (inputs : List Stamped) →
        subject.node ≡ k.description.node → AreTpdosOf k subject.facts.pdos →
        AllKeepTpdos k [] inputs → AreTimed inputs →
        AreElsewhere (0x700 + k.description.node) inputs →
        AreNoTpdos subject.facts.pdos inputs → BeginsAside k →
        AllSendBesideTpdos subject.facts.pdos k [] inputs →
        NameNoTpdos k.description.node (recording k inputs) →
        differences_in (tpdo_differences is_pdo_late) subject rows (recording k inputs) ≡ [] }
{
    sends_aside();
}
