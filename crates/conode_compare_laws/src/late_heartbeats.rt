//! When heartbeats come.

ghost use Rattle.std.specs.Prelude.{◌≡◌, ◌+◌, ℕ, Bool, List, [], None, false};
ghost use Rattle.std.specs.List.{All};
ghost use Rattle.co_profile.specs.Keys.{producer_key};
ghost use Rattle.co_dict.specs.Rows.{number_at};
ghost use Rattle.co_dict_build.specs.Built.{Plan};
ghost use Rattle.co_node.specs.Built.{IsBuilt};
ghost use Rattle.co_sheet.specs.Content.{Row};
ghost use Rattle.co_sheet.specs.SheetLaws.{IsSheetRow};
ghost use Rattle.co_node_laws.specs.Apart.{BeginsApart};
ghost use Rattle.co_node_model.specs.Moments.{Constants};
ghost use Rattle.conode_compare_nmt.specs.declared.limits.Subject.{Subject};
ghost use Rattle.conode_compare_nmt.specs.EntriesInForce.{facts_of, with_master};
ghost use Rattle.conode_compare_nmt.specs.OtherClients.{has_hidden_channel};
ghost use Rattle.conode_compare_laws.specs.AnswerSenders.{BeginsOther, HaveBytes};
ghost use Rattle.conode_compare_laws.specs.Differences.{differences_in, late_differences};
ghost use Rattle.conode_compare_laws.specs.Identifiers.{AreElsewhere, BeginsAside, IsUnnamed};
ghost use Rattle.conode_compare_laws.specs.OtherWriters.{AllGiven, AllWriteNot};
ghost use Rattle.conode_compare_laws.specs.Periods.{
  AllFollowPeriod,
  AllKeepPeriod,
  AllWriteSeen,
  KnowsPeriod,
};
ghost use Rattle.conode_compare_laws.specs.Recordings.{AreTimed, Stamped, recording};
ghost use Rattle.conode_compare_laws.specs.ShownWords.{AllAskPeriod, AllHavePeriodBytes, AllHaveWord};

use crate::answer_laws::{begins_other, sends_other};
use crate::aside::sends_aside;
use crate::built_devices::begins_aside;
use crate::kept_times::{follows_period, leaves_asked, times_of_sheet, told_of_sheet, writes_seen};
use co_node::begins_apart;
use co_node_laws::stays_apart;
use co_sdo::Bank;

/// The recording of a device has no `heartbeat-late` (CiA 301, 7.2.8.3.2) and no `heartbeat-off`
/// (7.5.2.20), whatever the tolerance and the drift, and whatever transfers there are on its default
/// SDO channel but of 1017:00. Conditions: `compare` has its node-ID; 1017:00 has the period from the
/// build on, and isn't written (`AllKeepPeriod`); the data sheet has this period, if it is known by
/// it (`KnowsPeriod`); no stamp is later than the ticks have it (`AreTimed`); no other node sends on
/// the identifier of its error control (`AreElsewhere`), and no frame of a client names 1017:00
/// on its default SDO channel (`IsUnnamed`). This is a law: a call of it changes nothing.
pub fn no_late_heartbeats()
    ensures { (k : Constants) (subject : Subject) (rows : List Row) (period : ℕ)
        (inputs : List Stamped) → subject.node ≡ k.description.node →
        number_at k.start producer_key ≡ period → AllKeepPeriod period k [] inputs →
        KnowsPeriod period subject → AreTimed inputs →
        AreElsewhere (0x700 + k.description.node) inputs → BeginsAside k →
        IsUnnamed producer_key k.description.node (recording k inputs) →
        differences_in late_differences subject rows (recording k inputs) ≡ [] }
{
    sends_aside();
}

/// So it has none where clients read 1017:00 on its default SDO channel, and ask to write it: what
/// an expedited upload shows is the period, and no write is confirmed. Conditions: those of
/// `no_late_heartbeats`, but that no client names 1017:00; the entry has two bytes (`AllHaveWord`);
/// frames have bytes (`HaveBytes`); no other node sends on the identifier of the answers
/// (`AreElsewhere`); and the COB-IDs with which the device is built are apart from its default
/// channel, from NMT and from its error control (`BeginsApart`, `BeginsAside`, `BeginsOther`).
/// This is a law: a call of it changes nothing.
pub fn no_late_heartbeats_shown()
    ensures { (k : Constants) (subject : Subject) (rows : List Row) (period : ℕ)
        (inputs : List Stamped) → subject.node ≡ k.description.node →
        number_at k.start producer_key ≡ period → AllKeepPeriod period k [] inputs →
        AllHaveWord producer_key period k [] inputs → KnowsPeriod period subject →
        AreTimed inputs → HaveBytes inputs →
        AreElsewhere (0x700 + k.description.node) inputs →
        AreElsewhere (0x580 + k.description.node) inputs → BeginsApart k → BeginsAside k →
        BeginsOther k →
        differences_in late_differences subject rows (recording k inputs) ≡ [] }
{
    sends_aside();
    sends_other();
    stays_apart();
}

/// So has the recording of each device that is built from a data sheet: `no_late_heartbeats_shown`
/// of it, without a condition on the bytes of 1017:00, since what is written into it fits.
/// Conditions: the rows are those of a sheet that was read (`IsSheetRow`); `compare` has the
/// device's node-ID; and those of `no_late_heartbeats_shown` on the period, the stamps and the
/// frames. This is a law: a call of it changes nothing.
pub fn built_no_late_heartbeats()
    ensures { (plan : Plan) (k : Constants) (subject : Subject) (rows : List Row) (period : ℕ)
        (inputs : List Stamped) → IsBuilt plan k → All IsSheetRow plan.rows →
        subject.node ≡ k.description.node → number_at k.start producer_key ≡ period →
        AllKeepPeriod period k [] inputs → KnowsPeriod period subject →
        AreTimed inputs → HaveBytes inputs →
        AreElsewhere (0x700 + k.description.node) inputs →
        AreElsewhere (0x580 + k.description.node) inputs →
        differences_in late_differences subject rows (recording k inputs) ≡ [] }
{
    Bank::set_is_permitted();
    begins_apart();
    begins_aside();
    begins_other();
    no_late_heartbeats_shown();
}

/// So it has none where clients also write 1017:00: expedited, in segments or in blocks, whatever
/// numbers. Each such write begins the period anew, and `compare` knows nothing of 1017:00 from the
/// request on, until a transfer shows it. Conditions: those of `no_late_heartbeats_shown`, but for
/// those on 1017:00. It changes by such a write, and at a reset, which restores its first number, but
/// not by the application, which `compare` doesn't see; a frame that writes it is one of the client
/// of the default SDO channel, or `compare` takes it for one of the client of another SDO channel, by
/// the data sheet (`AllFollowPeriod`); each expedited download of it on the default channel that is
/// done asks for the number that it then has (`AllAskPeriod`); it has two bytes, or it isn't there
/// (`AllHavePeriodBytes`); and by the data sheet its first number is known, or nothing
/// (`KnowsPeriod`), but nothing before a boot-up, as of an entry that isn't `const`. This is a law:
/// a call of it changes nothing.
pub fn no_late_heartbeats_written()
    ensures { (k : Constants) (subject : Subject) (rows : List Row) (inputs : List Stamped) →
        subject.node ≡ k.description.node → AllFollowPeriod subject.facts.clients k [] inputs →
        AllAskPeriod k [] inputs → AllHavePeriodBytes k [] inputs →
        KnowsPeriod (number_at k.start producer_key) subject →
        subject.facts.before.period ≡ None → AreTimed inputs → HaveBytes inputs →
        AreElsewhere (0x700 + k.description.node) inputs →
        AreElsewhere (0x580 + k.description.node) inputs → BeginsApart k → BeginsAside k →
        BeginsOther k →
        differences_in late_differences subject rows (recording k inputs) ≡ [] }
{
    sends_aside();
    sends_other();
    stays_apart();
}

/// So has the recording of each device that is built from a data sheet:
/// `no_late_heartbeats_written` of it, without a condition on what 1017:00 has. Conditions: the rows
/// are those of a sheet that was read (`IsSheetRow`); `compare` has the device's node-ID; clients
/// alone write 1017:00, whose frames `compare` takes for such (`AllWriteSeen`); and those of
/// `no_late_heartbeats_written` on the data sheet, the stamps and the frames. This is a law: a call
/// of it changes nothing.
pub fn built_no_late_heartbeats_written()
    ensures { (plan : Plan) (k : Constants) (subject : Subject) (rows : List Row)
        (inputs : List Stamped) → IsBuilt plan k → All IsSheetRow plan.rows →
        subject.node ≡ k.description.node →
        AllWriteSeen subject.facts.clients producer_key k [] inputs →
        KnowsPeriod (number_at k.start producer_key) subject →
        subject.facts.before.period ≡ None → AreTimed inputs → HaveBytes inputs →
        AreElsewhere (0x700 + k.description.node) inputs →
        AreElsewhere (0x580 + k.description.node) inputs →
        differences_in late_differences subject rows (recording k inputs) ≡ [] }
{
    Bank::set_is_permitted();
    begins_apart();
    begins_aside();
    begins_other();
    follows_period();
    leaves_asked();
    no_late_heartbeats_written();
}

/// So has the recording of each such device where `compare` has the facts of its data sheet
/// (`facts_of`, `with_master`), without a condition on what is known of 1017:00: if that is constant, nothing writes
/// it (`constant_unwritten`). Conditions: the rows are those of a sheet that was read (`IsSheetRow`); `compare` has
/// the device's node-ID; no stamp is later than the ticks have it (`AreTimed`); frames have bytes
/// (`HaveBytes`); and no other node sends on the identifiers of its error control and of the answers
/// (`AreElsewhere`). `seen`: where clients alone write 1017:00, and `compare` takes their frames for
/// such (`AllWriteSeen`). `told`: where the application doesn't write it (`AllWriteNot`), and by the
/// data sheet frames to other SDO channels are recognized (`has_hidden_channel`, `AllGiven`). This is
/// a law: a call of it changes nothing.
pub fn sheet_no_late_heartbeats()
    ensures seen { (plan : Plan) (k : Constants) (subject : Subject) (rows : List Row)
        (configured : Bool) (master : Bool) (inputs : List Stamped) → IsBuilt plan k →
        All IsSheetRow plan.rows → subject.node ≡ k.description.node →
        subject.facts ≡ with_master master (facts_of plan.rows plan.node configured) →
        AllWriteSeen subject.facts.clients producer_key k [] inputs → AreTimed inputs →
        HaveBytes inputs → AreElsewhere (0x700 + k.description.node) inputs →
        AreElsewhere (0x580 + k.description.node) inputs →
        differences_in late_differences subject rows (recording k inputs) ≡ [] }
    ensures told { (plan : Plan) (k : Constants) (subject : Subject) (rows : List Row)
        (configured : Bool) (master : Bool) (inputs : List Stamped) → IsBuilt plan k →
        All IsSheetRow plan.rows → subject.node ≡ k.description.node →
        subject.facts ≡ with_master master (facts_of plan.rows plan.node configured) →
        AllWriteNot producer_key inputs → AllGiven plan.node plan.rows →
        has_hidden_channel plan.rows plan.node ≡ false → AreTimed inputs →
        HaveBytes inputs → AreElsewhere (0x700 + k.description.node) inputs →
        AreElsewhere (0x580 + k.description.node) inputs →
        differences_in late_differences subject rows (recording k inputs) ≡ [] }
{
    built_no_late_heartbeats();
    built_no_late_heartbeats_written();
    follows_period();
    times_of_sheet();
    told_of_sheet();
    writes_seen();
}
