//! 1017:00 and 1015:00 of devices that are built from a data sheet.

ghost use Rattle.std.specs.Prelude.{◌≡◌, ℕ, Bool, List, [], None, false, true};
ghost use Rattle.std.specs.List.{All};
ghost use Rattle.co_value.specs.declared.key.Key.{Key};
ghost use Rattle.co_profile.specs.Keys.{emergency_inhibit_key, producer_key};
ghost use Rattle.co_dict.specs.Rows.{number_at};
ghost use Rattle.co_dict_build.specs.Built.{Plan};
ghost use Rattle.co_node.specs.Built.{IsBuilt};
ghost use Rattle.co_sheet.specs.SheetLaws.{IsSheetRow};
ghost use Rattle.co_node_model.specs.Moments.{Constants};
ghost use Rattle.conode_compare_nmt.specs.declared.clients.OtherClients.{OtherClients};
ghost use Rattle.conode_compare_nmt.specs.declared.limits.Subject.{Subject};
ghost use Rattle.conode_compare_nmt.specs.EntriesInForce.{facts_of, is_constant, with_master};
ghost use Rattle.conode_compare_nmt.specs.OtherClients.{clients_of, has_hidden_channel};
ghost use Rattle.conode_compare_laws.specs.OtherWriters.{AllGiven, AllToTold, AllWriteNot};
ghost use Rattle.conode_compare_laws.specs.Periods.{
  AllFollowPeriod,
  AllHaveInhibit,
  AllKeepPeriod,
  AllWriteFirst,
  AllWriteSeen,
  KnowsInhibit,
  KnowsPeriod,
};
ghost use Rattle.conode_compare_laws.specs.Recordings.{Stamped};
ghost use Rattle.conode_compare_laws.specs.ShownWords.{AllAskPeriod, AllKeepWord};

use crate::answer_laws::begins_other;
use crate::built_devices::begins_aside;
use co_dict::{invalid_pdo_law, own_rule_law};
use co_node::begins_apart;
use co_node_laws::stays_apart;
use co_pdo::written_from_2000;
use co_sdo::Bank;

/// Clients alone write an entry of a device that is built from a data sheet, and `compare` takes
/// their frames for such, where the application doesn't write it (`AllWriteNot`), and each frame to
/// another SDO channel than the default one is recognized (`AllToTold`), as where none comes. This
/// is a law: a call of it changes nothing.
pub fn writes_seen()
    ensures { (plan : Plan) (k : Constants) (clients : OtherClients) (key : Key)
        (inputs : List Stamped) → IsBuilt plan k → AllWriteNot key inputs →
        AllToTold k clients inputs → AllWriteSeen clients key k [] inputs }
{
    begins_aside();
    begins_other();
}

/// By a data sheet `compare` takes each frame to another SDO channel of a device that is built of it
/// for one of that channel's client, where these frames can be told from the device's own
/// (`has_hidden_channel`). Conditions: the rows are those of a sheet that was read (`IsSheetRow`);
/// it has a number for each COB-ID of such a client (`AllGiven`), or that begins with 0, and not with
/// a limit. This is a law: a call of it changes nothing.
pub fn told_of_sheet()
    ensures { (plan : Plan) (k : Constants) (inputs : List Stamped) → IsBuilt plan k →
        All IsSheetRow plan.rows → AllGiven plan.node plan.rows →
        has_hidden_channel plan.rows plan.node ≡ false →
        AllToTold k (clients_of plan.rows plan.node) inputs }
{}

/// An entry that is constant by the data sheet, or isn't there, is never written: what clients and
/// the application ask for is refused (CiA 301, 7.2.4.3.17). So it meets what the laws ask of writes
/// (`seen`, `first`). This is a law: a call of it changes nothing.
pub fn constant_unwritten()
    ensures seen { (plan : Plan) (k : Constants) (clients : OtherClients) (key : Key)
        (inputs : List Stamped) → IsBuilt plan k → is_constant plan.rows key ≡ true →
        AllWriteSeen clients key k [] inputs }
    ensures first { (plan : Plan) (k : Constants) (key : Key) (inputs : List Stamped) →
        IsBuilt plan k → is_constant plan.rows key ≡ true → AllWriteFirst key k [] inputs }
{
    Bank::set_is_permitted();
}

/// Where clients alone write 1017:00, whose frames `compare` takes for such (`AllWriteSeen`), it has
/// its number until then, and a reset restores the first one (`follow`); it keeps that if it is
/// constant by the data sheet (`keep`; CiA 301, 7.3.2.2.1). This is a law: a call of it changes
/// nothing.
pub fn follows_period()
    ensures follow { (plan : Plan) (k : Constants) (clients : OtherClients)
        (inputs : List Stamped) → IsBuilt plan k →
        AllWriteSeen clients producer_key k [] inputs → AllFollowPeriod clients k [] inputs }
    ensures keep { (plan : Plan) (k : Constants) (inputs : List Stamped) → IsBuilt plan k →
        is_constant plan.rows producer_key ≡ true →
        AllKeepPeriod (number_at k.start producer_key) k [] inputs }
{
    own_rule_law();
    invalid_pdo_law();
    written_from_2000();
    Bank::set_is_permitted();
}

/// 1015:00 has the number throughout that it began with, where whoever writes it writes that
/// (`AllWriteFirst`): nothing else changes it, and a reset restores it. This is a law: a call of it
/// changes nothing.
pub fn keeps_inhibit()
    ensures { (plan : Plan) (k : Constants) (inputs : List Stamped) → IsBuilt plan k →
        AllWriteFirst emergency_inhibit_key k [] inputs →
        AllHaveInhibit (number_at k.start emergency_inhibit_key) k [] inputs }
{
    own_rule_law();
    invalid_pdo_law();
    written_from_2000();
    Bank::set_is_permitted();
}

/// What an expedited download of 1017:00 or 1015:00 asks for is the number that the entry then has,
/// or the download isn't done (CiA 301, 7.2.4.3.3): more or fewer bytes than its two are refused,
/// and where no size is indicated the first two of the four count. `period`: of 1017:00. `inhibit`:
/// of 1015:00, where that has one number throughout. Conditions: the rows are those of a sheet that
/// was read (`IsSheetRow`). This is a law: a call of it changes nothing.
pub fn leaves_asked()
    ensures period { (plan : Plan) (k : Constants) (inputs : List Stamped) → IsBuilt plan k →
        All IsSheetRow plan.rows → AllAskPeriod k [] inputs }
    ensures inhibit { (plan : Plan) (k : Constants) (inhibit : ℕ) (inputs : List Stamped) →
        IsBuilt plan k → All IsSheetRow plan.rows → AllHaveInhibit inhibit k [] inputs →
        AllKeepWord emergency_inhibit_key inhibit k [] inputs }
{
    Bank::set_is_permitted();
    begins_apart();
    stays_apart();
}

/// What `compare` knows of 1017:00 and 1015:00 by a data sheet (`facts_of`, `with_master`), before a boot-up and
/// after one, is nothing, or the number with which a device that is built of the sheet begins
/// (`period`, `inhibit`); and before a boot-up nothing is known of 1017:00, unless it is constant
/// (`unknown`). `clients`: the clients of other SDO channels are those of the sheet. Conditions: the rows
/// are those of a sheet that was read (`IsSheetRow`). This is a
/// law: a call of it changes nothing.
pub fn times_of_sheet()
    ensures period { (plan : Plan) (k : Constants) (subject : Subject) (configured : Bool)
        (master : Bool) →
        IsBuilt plan k → All IsSheetRow plan.rows →
        subject.facts ≡ with_master master (facts_of plan.rows plan.node configured) →
        KnowsPeriod (number_at k.start producer_key) subject }
    ensures inhibit { (plan : Plan) (k : Constants) (subject : Subject) (configured : Bool)
        (master : Bool) →
        IsBuilt plan k → All IsSheetRow plan.rows →
        subject.facts ≡ with_master master (facts_of plan.rows plan.node configured) →
        KnowsInhibit (number_at k.start emergency_inhibit_key) subject }
    ensures unknown { (plan : Plan) (subject : Subject) (configured : Bool)
        (master : Bool) →
        subject.facts ≡ with_master master (facts_of plan.rows plan.node configured) →
        is_constant plan.rows producer_key ≡ false → subject.facts.before.period ≡ None }
    ensures clients { (plan : Plan) (subject : Subject) (configured : Bool)
        (master : Bool) →
        subject.facts ≡ with_master master (facts_of plan.rows plan.node configured) →
        subject.facts.clients ≡ clients_of plan.rows plan.node }
{}
