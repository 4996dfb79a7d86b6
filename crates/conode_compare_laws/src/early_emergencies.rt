//! When EMCY come.

ghost use Rattle.std.specs.Prelude.{◌≡◌, ◌+◌, ℕ, Bool, List, []};
ghost use Rattle.std.specs.List.{All};
ghost use Rattle.co_profile.specs.Keys.{emergency_inhibit_key};
ghost use Rattle.co_dict.specs.Rows.{number_at};
ghost use Rattle.co_dict_build.specs.Built.{Plan};
ghost use Rattle.co_node.specs.Built.{IsBuilt};
ghost use Rattle.co_sheet.specs.Content.{Row};
ghost use Rattle.co_sheet.specs.SheetLaws.{IsSheetRow};
ghost use Rattle.co_node_laws.specs.Apart.{BeginsApart};
ghost use Rattle.co_node_model.specs.Moments.{Constants};
ghost use Rattle.conode_compare_nmt.specs.declared.limits.Subject.{Subject};
ghost use Rattle.conode_compare_nmt.specs.EntriesInForce.{facts_of, with_master};
ghost use Rattle.conode_compare_laws.specs.AnswerSenders.{BeginsOther, HaveBytes};
ghost use Rattle.conode_compare_laws.specs.Differences.{differences_in, inhibit_differences};
ghost use Rattle.conode_compare_laws.specs.Identifiers.{
  AllSendWithout,
  AreElsewhere,
  BeginsAside,
  IsUnnamed,
};
ghost use Rattle.conode_compare_laws.specs.Periods.{AllHaveInhibit, AllWriteFirst, KnowsInhibit};
ghost use Rattle.conode_compare_laws.specs.Recordings.{AreUnhurried, Stamped, recording};
ghost use Rattle.conode_compare_laws.specs.ShownWords.{AllHaveWord, AllKeepWord};

use crate::answer_laws::{begins_other, sends_other};
use crate::aside::sends_aside;
use crate::built_devices::begins_aside;
use crate::kept_times::{keeps_inhibit, leaves_asked, times_of_sheet};
use co_node::begins_apart;
use co_node_laws::stays_apart;
use co_sdo::Bank;

/// The recording of a device has no `emcy-inhibit` (CiA 301, 7.2.7), whatever the tolerance and the
/// drift, with events of the application too, and whatever transfers there are on its default SDO
/// channel but of 1015:00. Conditions: `compare` has its node-ID; 1015:00 has one number
/// (`AllHaveInhibit`), which the data sheet has, if it is known by it (`KnowsInhibit`); no stamp is
/// earlier than the ticks have it (`AreUnhurried`); no other node sends on the identifiers of its
/// error control and of its EMCY (`AreElsewhere`), none of its own SDO channels and TPDOs on the
/// latter, 80h + node-ID (`AllSendWithout`), and no frame of a client names 1015:00 on its default
/// SDO channel (`IsUnnamed`). This is a law: a call of it changes nothing.
pub fn no_early_emergencies()
    ensures { (k : Constants) (subject : Subject) (rows : List Row) (inhibit : ℕ)
        (inputs : List Stamped) → subject.node ≡ k.description.node →
        AllHaveInhibit inhibit k [] inputs → KnowsInhibit inhibit subject → AreUnhurried inputs →
        AreElsewhere (0x700 + k.description.node) inputs →
        AreElsewhere (0x80 + k.description.node) inputs → BeginsAside k →
        AllSendWithout (0x80 + k.description.node) k [] inputs →
        IsUnnamed emergency_inhibit_key k.description.node (recording k inputs) →
        differences_in inhibit_differences subject rows (recording k inputs) ≡ [] }
{
    sends_aside();
}

/// So it has none where clients read 1015:00 on its default SDO channel, and ask to write it: what
/// an expedited upload shows is the time. Conditions: those of `no_early_emergencies`, but that no
/// client names 1015:00; each expedited download of it asks for the number that it has, or is
/// refused, as where it isn't written (`AllKeepWord`); the entry has two bytes, of that number, or it
/// isn't there (`AllHaveWord`); frames have bytes (`HaveBytes`); no other node sends on the identifier
/// of the answers (`AreElsewhere`); and the COB-IDs with which the device is built are apart from its
/// default channel, from NMT and from its error control (`BeginsApart`, `BeginsAside`,
/// `BeginsOther`). This is a law: a call of it changes nothing.
pub fn no_early_emergencies_shown()
    ensures { (k : Constants) (subject : Subject) (rows : List Row) (inhibit : ℕ)
        (inputs : List Stamped) → subject.node ≡ k.description.node →
        AllHaveInhibit inhibit k [] inputs → AllHaveWord emergency_inhibit_key inhibit k [] inputs →
        KnowsInhibit inhibit subject → AreUnhurried inputs → HaveBytes inputs →
        AllKeepWord emergency_inhibit_key inhibit k [] inputs →
        AreElsewhere (0x700 + k.description.node) inputs →
        AreElsewhere (0x80 + k.description.node) inputs →
        AreElsewhere (0x580 + k.description.node) inputs → BeginsApart k → BeginsAside k →
        BeginsOther k → AllSendWithout (0x80 + k.description.node) k [] inputs →
        differences_in inhibit_differences subject rows (recording k inputs) ≡ [] }
{
    sends_aside();
    sends_other();
    stays_apart();
}

/// So has the recording of each device that is built from a data sheet:
/// `no_early_emergencies_shown` of it, without a condition on the bytes of 1015:00, since what is
/// written into it fits, nor on what clients ask to write, since that is what it then has.
/// Conditions: the rows are those of a sheet that was read (`IsSheetRow`); `compare` has the device's
/// node-ID; 1015:00 has one number from the build on (`AllHaveInhibit`); and those of
/// `no_early_emergencies_shown` on the data sheet, the stamps and the frames. This is a law: a call
/// of it changes nothing.
pub fn built_no_early_emergencies()
    ensures { (plan : Plan) (k : Constants) (subject : Subject) (rows : List Row) (inhibit : ℕ)
        (inputs : List Stamped) → IsBuilt plan k → All IsSheetRow plan.rows →
        subject.node ≡ k.description.node → number_at k.start emergency_inhibit_key ≡ inhibit →
        AllHaveInhibit inhibit k [] inputs → KnowsInhibit inhibit subject →
        AreUnhurried inputs → HaveBytes inputs →
        AreElsewhere (0x700 + k.description.node) inputs →
        AreElsewhere (0x80 + k.description.node) inputs →
        AreElsewhere (0x580 + k.description.node) inputs →
        AllSendWithout (0x80 + k.description.node) k [] inputs →
        differences_in inhibit_differences subject rows (recording k inputs) ≡ [] }
{
    Bank::set_is_permitted();
    begins_apart();
    begins_aside();
    begins_other();
    leaves_asked();
    no_early_emergencies_shown();
}

/// So has the recording of each such device where `compare` has the facts of its data sheet
/// (`facts_of`, `with_master`), without a condition on what is known of 1015:00. Conditions: the rows are those of
/// a sheet that was read (`IsSheetRow`); `compare` has the device's node-ID; whoever writes 1015:00
/// writes the number that it began with (`AllWriteFirst`), as where it is constant
/// (`constant_unwritten`); and those of `no_early_emergencies_shown` on the stamps and the frames.
/// This is a law: a call of it changes nothing.
pub fn sheet_no_early_emergencies()
    ensures { (plan : Plan) (k : Constants) (subject : Subject) (rows : List Row)
        (configured : Bool) (master : Bool) (inputs : List Stamped) → IsBuilt plan k →
        All IsSheetRow plan.rows → subject.node ≡ k.description.node →
        subject.facts ≡ with_master master (facts_of plan.rows plan.node configured) →
        AllWriteFirst emergency_inhibit_key k [] inputs → AreUnhurried inputs →
        HaveBytes inputs → AreElsewhere (0x700 + k.description.node) inputs →
        AreElsewhere (0x80 + k.description.node) inputs →
        AreElsewhere (0x580 + k.description.node) inputs →
        AllSendWithout (0x80 + k.description.node) k [] inputs →
        differences_in inhibit_differences subject rows (recording k inputs) ≡ [] }
{
    built_no_early_emergencies();
    keeps_inhibit();
    times_of_sheet();
}
