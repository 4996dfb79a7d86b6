//! The entries of a device.

ghost use Rattle.std.specs.Prelude.{List, []};
ghost use Rattle.co_dict.specs.Stores.{IsDictionary};
ghost use Rattle.co_node_model.specs.Moments.{Constants};
ghost use Rattle.conode_compare_laws.specs.AnswerEntries.{AllAreHeld};
ghost use Rattle.conode_compare_laws.specs.AnswerSenders.{HaveBytes};
ghost use Rattle.conode_compare_laws.specs.Recordings.{Stamped};
ghost use Rattle.conode_compare_laws.specs.TpdoParameters.{AllAreFilled};
ghost use Rattle.conode_compare_laws.specs.WrittenEntries.{WriteBytes};

use co_sdo::Bank;

/// The entries of a device that begins with those of a dictionary, as each store ensures, are those
/// of a dictionary before each input (`held`) and after it (`filled`), whatever inputs come: what
/// SDO and the application write is refused where it doesn't fit; the data of RPDOs, and what
/// errors write, fit; and a reset restores what fitted (CiA 301, 7.2.4.3.17 and 7.3.2.2.1).
/// Conditions: frames have bytes (`HaveBytes`), and so has what the application writes
/// (`WriteBytes`). A device that `Node::build` of `co_node` makes begins so
/// (`stands_on_dictionary`). This is a law: a call of it changes nothing.
pub fn stays_dictionary()
    ensures held { (k : Constants) (inputs : List Stamped) → IsDictionary k.description k.start →
        HaveBytes inputs → WriteBytes inputs → AllAreHeld k [] inputs }
    ensures filled { (k : Constants) (inputs : List Stamped) →
        IsDictionary k.description k.start → HaveBytes inputs → WriteBytes inputs →
        AllAreFilled k [] inputs }
{
    Bank::set_is_permitted();
}
