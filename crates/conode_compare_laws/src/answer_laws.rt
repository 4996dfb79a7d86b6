//! Answers on the default SDO channel.

ghost use Rattle.std.specs.Prelude.{◌≡◌, ◌+◌, List, []};
ghost use Rattle.co_dict_build.specs.Built.{Plan};
ghost use Rattle.co_sheet.specs.Content.{Row};
ghost use Rattle.co_node.specs.declared.node.Node.{Node};
ghost use Rattle.co_node.specs.Built.{IsBuilt};
ghost use Rattle.co_node.specs.Nodes.{Stands};
ghost use Rattle.co_node_laws.specs.Apart.{BeginsApart};
ghost use Rattle.co_node_model.specs.Moments.{Constants};
ghost use Rattle.conode_compare_nmt.specs.declared.limits.Subject.{Subject};
ghost use Rattle.conode_compare_laws.specs.AnswerFindings.{
  answer_differences,
  data_differences,
  toggle_differences,
  transfer_differences,
};
ghost use Rattle.conode_compare_laws.specs.AnswerEntries.{AllAreHeld};
ghost use Rattle.conode_compare_laws.specs.AnswerSenders.{
  AllSendOther,
  BeginNoBlocks,
  BeginsOther,
  HaveBytes,
};
ghost use Rattle.conode_compare_laws.specs.Differences.{differences_in};
ghost use Rattle.conode_compare_laws.specs.Identifiers.{AreElsewhere, BeginsAside};
ghost use Rattle.conode_compare_laws.specs.Recordings.{Stamped, recording};
ghost use Rattle.conode_compare_laws.specs.WrittenEntries.{WriteBytes};

use crate::aside::sends_aside;
use crate::built_devices::begins_aside;
use crate::entries::stays_dictionary;
use co_dict::{invalid_pdo_law, own_rule_law};
use co_node::{begins_apart, stands_on_dictionary};
use co_node_laws::stays_apart;
use co_pdo::written_from_2000;
use co_sdo::Bank;

/// A device that is built with the COB-IDs of its EMCY and TPDOs apart from default SDO channels
/// never sends one of these on its own, whatever inputs come: a write of such a COB-ID is
/// refused, and nothing but a reset changes one otherwise (CiA 301, 7.3.5). This is a law: a call
/// of it changes nothing.
pub fn sends_other()
    ensures { (k : Constants) (inputs : List Stamped) → BeginsOther k → AllSendOther k [] inputs }
{
    own_rule_law();
    invalid_pdo_law();
    written_from_2000();
    Bank::set_is_permitted();
}

/// A device built from a data sheet, as by `Node::build` of `co_node`, begins with its EMCY, its
/// TPDOs and the answers of its other SDO channels apart from its default SDO channel: else
/// `build` reports `NodeId` or `BadCobId` (CiA 301, 7.3.5). This is a law: a call of it changes
/// nothing.
pub fn begins_other()
    ensures { (plan : Plan) (k : Constants) → IsBuilt plan k → BeginsOther k }
{}

/// The recording of a device, over whatever inputs with whatever stamps, has no difference of
/// these: `no-answer`, `answer-state`, `answer-key`, `second-sender` of answers, and
/// `answer-form` of the answer to an initiate request (CiA 301, 7.2.4.3). Requests may come while
/// the device is stopped, on other channels, out of turn, and of any length; transfers may time
/// out; transfers may be in blocks, up and down, and a segment may look like any request; events
/// of the application may come. Conditions: `compare` has its node-ID; frames have bytes
/// (`HaveBytes`); no other node sends on the identifiers of its answers and of its error control
/// (`AreElsewhere`); and the COB-IDs with which it is built are apart from that channel, from NMT
/// and from its error control (`BeginsApart`, `BeginsAside`, `BeginsOther`). This is a law: a call
/// of it changes nothing.
pub fn no_answer_differences()
    ensures { (k : Constants) (subject : Subject) (rows : List Row) (inputs : List Stamped) →
        subject.node ≡ k.description.node → HaveBytes inputs →
        AreElsewhere (0x580 + k.description.node) inputs →
        AreElsewhere (0x700 + k.description.node) inputs → BeginsApart k → BeginsAside k →
        BeginsOther k →
        differences_in answer_differences subject rows (recording k inputs) ≡ [] }
{
    sends_aside();
    sends_other();
    stays_apart();
}

/// So has the recording of each device that is built from a data sheet: `no_answer_differences`
/// of it. This is a law: a call of it changes nothing.
pub fn built_no_answer_differences()
    ensures { (plan : Plan) (k : Constants) (subject : Subject) (rows : List Row)
        (inputs : List Stamped) → IsBuilt plan k → subject.node ≡ k.description.node →
        HaveBytes inputs → AreElsewhere (0x580 + k.description.node) inputs →
        AreElsewhere (0x700 + k.description.node) inputs →
        differences_in answer_differences subject rows (recording k inputs) ≡ [] }
{
    begins_apart();
    begins_aside();
    begins_other();
    no_answer_differences();
}

/// The recording of a device without block downloads, over whatever inputs with whatever stamps,
/// has no difference of these within its transfers: `answer-toggle`, `answer-form` of later
/// answers, `abort-key` and `answer-crc` (CiA 301, 7.2.4.3): in segments, and in the blocks of
/// uploads, whose segments may be acknowledged in part, and asked for again. Requests may come
/// while the device is stopped, out of turn, with wrong toggle bits and numbers, and of any
/// length; transfers may time out; events of the application may come. Conditions: those of
/// `no_answer_differences`, but for error control. This is a law: a call of it changes nothing.
pub fn no_transfer_differences()
    ensures { (k : Constants) (subject : Subject) (rows : List Row) (inputs : List Stamped) →
        subject.node ≡ k.description.node → HaveBytes inputs →
        BeginNoBlocks k.description.node inputs →
        AreElsewhere (0x580 + k.description.node) inputs → BeginsApart k → BeginsAside k →
        BeginsOther k →
        differences_in transfer_differences subject rows (recording k inputs) ≡ [] }
{
    sends_other();
    stays_apart();
}

/// So has the recording of each device that is built from a data sheet: `no_transfer_differences`
/// of it. This is a law: a call of it changes nothing.
pub fn built_no_transfer_differences()
    ensures { (plan : Plan) (k : Constants) (subject : Subject) (rows : List Row)
        (inputs : List Stamped) → IsBuilt plan k → subject.node ≡ k.description.node →
        HaveBytes inputs → BeginNoBlocks k.description.node inputs →
        AreElsewhere (0x580 + k.description.node) inputs →
        differences_in transfer_differences subject rows (recording k inputs) ≡ [] }
{
    begins_apart();
    begins_aside();
    begins_other();
    no_transfer_differences();
}

/// The recording of a device, over whatever inputs with whatever stamps, has no transfer that ends
/// with another number of bytes than the device named, or with another CRC: no `answer-size` and no
/// `answer-crc`, expedited, in segments and in blocks (CiA 301, 7.2.4.3). Requests may come while
/// the device is stopped, out of turn, with wrong toggle bits and numbers, and of any length;
/// transfers may time out, and end when the recording begins anew; entries may be written while
/// they are uploaded. Conditions: `compare` has the device's node-ID; frames have bytes
/// (`HaveBytes`); the entries are those of a dictionary (`AllAreHeld`); no other node sends on the
/// identifier of the answers (`AreElsewhere`); and the COB-IDs with which the device is built are
/// apart from its default channel, from NMT and from its error control (`BeginsApart`,
/// `BeginsAside`, `BeginsOther`). This is a law: a call of it changes nothing.
pub fn no_data_differences()
    ensures { (k : Constants) (subject : Subject) (rows : List Row) (inputs : List Stamped) →
        subject.node ≡ k.description.node → HaveBytes inputs → AllAreHeld k [] inputs →
        AreElsewhere (0x580 + k.description.node) inputs → BeginsApart k → BeginsAside k →
        BeginsOther k →
        differences_in data_differences subject rows (recording k inputs) ≡ [] }
{
    sends_other();
    stays_apart();
}

/// So has the recording of each device that is built from a data sheet: `no_data_differences` of
/// it. This is a law: a call of it changes nothing.
pub fn built_no_data_differences()
    ensures { (plan : Plan) (k : Constants) (subject : Subject) (rows : List Row)
        (inputs : List Stamped) → IsBuilt plan k → subject.node ≡ k.description.node →
        HaveBytes inputs → AllAreHeld k [] inputs →
        AreElsewhere (0x580 + k.description.node) inputs →
        differences_in data_differences subject rows (recording k inputs) ≡ [] }
{
    begins_apart();
    begins_aside();
    begins_other();
    no_data_differences();
}

/// So has the recording of each device that `Node::build` of `co_node` makes, without a condition
/// on its entries: they are those of a dictionary (`stays_dictionary`). Conditions: `compare` has
/// the device's node-ID; frames, and what the application writes, have bytes (`HaveBytes`,
/// `WriteBytes`); and no other node sends on the identifier of the answers (`AreElsewhere`). This
/// is a law: a call of it changes nothing.
pub fn node_no_data_differences()
    ensures { (plan : Plan) (k : Constants) (node : Node) (subject : Subject) (rows : List Row)
        (inputs : List Stamped) → IsBuilt plan k → Stands k node [] →
        subject.node ≡ k.description.node → HaveBytes inputs → WriteBytes inputs →
        AreElsewhere (0x580 + k.description.node) inputs →
        differences_in data_differences subject rows (recording k inputs) ≡ [] }
{
    stands_on_dictionary();
    stays_dictionary();
    built_no_data_differences();
}

/// The recording of a device, over whatever inputs with whatever stamps, has no `answer-toggle`: no
/// answer has the toggle bit of the one before, whatever transfers there are, in segments and in
/// blocks (CiA 301, 7.2.4.3). Conditions: `compare` has the device's node-ID; no other node sends
/// on the identifier of the answers (`AreElsewhere`); and the COB-IDs with which the device is
/// built are apart from its default channel, from NMT and from its error control (`BeginsApart`,
/// `BeginsAside`, `BeginsOther`). This is a law: a call of it changes nothing.
pub fn no_toggle_differences()
    ensures { (k : Constants) (subject : Subject) (rows : List Row) (inputs : List Stamped) →
        subject.node ≡ k.description.node →
        AreElsewhere (0x580 + k.description.node) inputs → BeginsApart k → BeginsAside k →
        BeginsOther k →
        differences_in toggle_differences subject rows (recording k inputs) ≡ [] }
{
    sends_other();
    stays_apart();
}

/// So has the recording of each device that is built from a data sheet: `no_toggle_differences` of
/// it. This is a law: a call of it changes nothing.
pub fn built_no_toggle_differences()
    ensures { (plan : Plan) (k : Constants) (subject : Subject) (rows : List Row)
        (inputs : List Stamped) → IsBuilt plan k → subject.node ≡ k.description.node →
        AreElsewhere (0x580 + k.description.node) inputs →
        differences_in toggle_differences subject rows (recording k inputs) ≡ [] }
{
    begins_apart();
    begins_aside();
    begins_other();
    no_toggle_differences();
}
