//! Values and access of entries.

ghost use Rattle.std.specs.Prelude.{◌≡◌, ◌+◌, List, []};
ghost use Rattle.std.specs.List.{All};
ghost use Rattle.co_dict_build.specs.Built.{Plan};
ghost use Rattle.co_node.specs.declared.node.Node.{Node};
ghost use Rattle.co_node.specs.Built.{IsBuilt};
ghost use Rattle.co_node.specs.Nodes.{Stands};
ghost use Rattle.co_node_model.specs.Moments.{Constants};
ghost use Rattle.co_sheet.specs.SheetLaws.{IsSheetRow};
ghost use Rattle.conode_compare_nmt.specs.declared.limits.Subject.{Subject};
ghost use Rattle.conode_compare_laws.specs.AnswerEntries.{AllAreHeld};
ghost use Rattle.conode_compare_laws.specs.AnswerSenders.{HaveBytes};
ghost use Rattle.conode_compare_laws.specs.Differences.{differences_in};
ghost use Rattle.conode_compare_laws.specs.GivenRooms.{AreAmple, AreRoomsOf};
ghost use Rattle.conode_compare_laws.specs.Identifiers.{AreElsewhere};
ghost use Rattle.conode_compare_laws.specs.IdentityEntries.{AllHaveIdentity, AreNeverWritten};
ghost use Rattle.conode_compare_laws.specs.Recordings.{Stamped, recording};
ghost use Rattle.conode_compare_laws.specs.ValueFindings.{
  constant_differences,
  length_differences,
  limit_differences,
  read_differences,
  room_differences,
  write_differences,
};
ghost use Rattle.conode_compare_laws.specs.WrittenEntries.{WriteBytes};

use crate::answer_laws::{begins_other, sends_other};
use crate::built_devices::begins_aside;
use crate::entries::stays_dictionary;
use co_node::{begins_apart, stands_on_dictionary};
use co_node_laws::stays_apart;
use co_sdo::Bank;

/// The recording of a device that is built from a data sheet, over whatever inputs with whatever
/// stamps, has no `access-write` by that sheet: no download of an entry that it has as `ro` or
/// `const` is acknowledged, expedited, in segments and in blocks (CiA 301, 7.2.4.3). Requests may
/// come while the device is stopped, out of turn, with wrong toggle bits and numbers, and of any
/// length; transfers may time out, and end when the recording begins anew; events of the
/// application may come. Conditions: `compare` has the device's node-ID and the rows of its sheet;
/// frames have bytes (`HaveBytes`); the entries are those of a dictionary (`AllAreHeld`); and no
/// other node sends on the identifier of the answers (`AreElsewhere`). This is a law: a call of it
/// changes nothing.
pub fn built_no_write_differences()
    ensures { (plan : Plan) (k : Constants) (subject : Subject) (inputs : List Stamped) →
        IsBuilt plan k → subject.node ≡ k.description.node → HaveBytes inputs →
        AllAreHeld k [] inputs → AreElsewhere (0x580 + k.description.node) inputs →
        differences_in write_differences subject plan.rows (recording k inputs) ≡ [] }
{
    begins_apart();
    begins_aside();
    begins_other();
    sends_other();
    stays_apart();
}

/// Nor has it `access-limits` of numbers: no download of a number above the HighLimit of the sheet,
/// or below its LowLimit, is acknowledged (CiA 301, 7.2.4.3.17). Of an expedited download without a
/// size as many bytes count as the type has. Conditions: those of `built_no_write_differences`.
/// This is a law: a call of it changes nothing.
pub fn built_no_limit_differences()
    ensures { (plan : Plan) (k : Constants) (subject : Subject) (inputs : List Stamped) →
        IsBuilt plan k → subject.node ≡ k.description.node → HaveBytes inputs →
        AllAreHeld k [] inputs → AreElsewhere (0x580 + k.description.node) inputs →
        differences_in limit_differences subject plan.rows (recording k inputs) ≡ [] }
{
    begins_apart();
    begins_aside();
    begins_other();
    sends_other();
    stays_apart();
}

/// Nor has it `access-limits` of strings and DOMAINs: no download of more bytes than there is room
/// for is acknowledged, expedited, in segments and in blocks. Conditions: the rooms that `compare`
/// is given are those with which the device was built (`AreRoomsOf`), each of four bytes at least
/// (`AreAmple`); and those of `built_no_write_differences`. This is a law: a call of it changes
/// nothing.
pub fn built_no_room_differences()
    ensures { (plan : Plan) (k : Constants) (subject : Subject) (inputs : List Stamped) →
        IsBuilt plan k → AreRoomsOf plan.limits subject.rooms → AreAmple subject.rooms →
        subject.node ≡ k.description.node → HaveBytes inputs → AllAreHeld k [] inputs →
        AreElsewhere (0x580 + k.description.node) inputs →
        differences_in room_differences subject plan.rows (recording k inputs) ≡ [] }
{
    begins_apart();
    begins_aside();
    begins_other();
    sends_other();
    stays_apart();
}

/// So the recording of each device that `Node::build` of `co_node` makes has no `access-write` by
/// its data sheet, without a condition on its entries: they are those of a dictionary
/// (`stays_dictionary`). Conditions: `compare` has the device's node-ID and the rows of its sheet;
/// frames, and what the application writes, have bytes (`HaveBytes`, `WriteBytes`); and no other
/// node sends on the identifier of the answers (`AreElsewhere`). This is a law: a call of it
/// changes nothing.
pub fn node_no_write_differences()
    ensures { (plan : Plan) (k : Constants) (node : Node) (subject : Subject)
        (inputs : List Stamped) → IsBuilt plan k → Stands k node [] →
        subject.node ≡ k.description.node → HaveBytes inputs → WriteBytes inputs →
        AreElsewhere (0x580 + k.description.node) inputs →
        differences_in write_differences subject plan.rows (recording k inputs) ≡ [] }
{
    stands_on_dictionary();
    stays_dictionary();
    built_no_write_differences();
}

/// Nor has it `access-limits` of numbers: `built_no_limit_differences` of it, under the conditions
/// of `node_no_write_differences`. This is a law: a call of it changes nothing.
pub fn node_no_limit_differences()
    ensures { (plan : Plan) (k : Constants) (node : Node) (subject : Subject)
        (inputs : List Stamped) → IsBuilt plan k → Stands k node [] →
        subject.node ≡ k.description.node → HaveBytes inputs → WriteBytes inputs →
        AreElsewhere (0x580 + k.description.node) inputs →
        differences_in limit_differences subject plan.rows (recording k inputs) ≡ [] }
{
    stands_on_dictionary();
    stays_dictionary();
    built_no_limit_differences();
}

/// Nor has it `access-limits` of strings and DOMAINs: `built_no_room_differences` of it, under the
/// conditions of `node_no_write_differences`, `AreRoomsOf` and `AreAmple`. This is a law: a call of
/// it changes nothing.
pub fn node_no_room_differences()
    ensures { (plan : Plan) (k : Constants) (node : Node) (subject : Subject)
        (inputs : List Stamped) → IsBuilt plan k → AreRoomsOf plan.limits subject.rooms →
        AreAmple subject.rooms → Stands k node [] → subject.node ≡ k.description.node →
        HaveBytes inputs → WriteBytes inputs → AreElsewhere (0x580 + k.description.node) inputs →
        differences_in room_differences subject plan.rows (recording k inputs) ≡ [] }
{
    stands_on_dictionary();
    stays_dictionary();
    built_no_room_differences();
}

/// The recording of a device that is built from a data sheet, over whatever inputs with whatever
/// stamps, has no `value-length` by that sheet: each number that is uploaded has as many bytes as
/// its type, expedited, in segments and in blocks (CiA 301, 7.2.4.3), also where it is written
/// while it is uploaded. Conditions: those of `built_no_write_differences`. This is a law: a call
/// of it changes nothing.
pub fn built_no_length_differences()
    ensures { (plan : Plan) (k : Constants) (subject : Subject) (inputs : List Stamped) →
        IsBuilt plan k → subject.node ≡ k.description.node → HaveBytes inputs →
        AllAreHeld k [] inputs → AreElsewhere (0x580 + k.description.node) inputs →
        differences_in length_differences subject plan.rows (recording k inputs) ≡ [] }
{
    begins_apart();
    begins_aside();
    begins_other();
    sends_other();
    stays_apart();
}

/// So has the recording of each device that `Node::build` of `co_node` makes:
/// `built_no_length_differences` of it, under the conditions of `node_no_write_differences`. This
/// is a law: a call of it changes nothing.
pub fn node_no_length_differences()
    ensures { (plan : Plan) (k : Constants) (node : Node) (subject : Subject)
        (inputs : List Stamped) → IsBuilt plan k → Stands k node [] →
        subject.node ≡ k.description.node → HaveBytes inputs → WriteBytes inputs →
        AreElsewhere (0x580 + k.description.node) inputs →
        differences_in length_differences subject plan.rows (recording k inputs) ≡ [] }
{
    stands_on_dictionary();
    stays_dictionary();
    built_no_length_differences();
}

/// The recording of a device that is built from a data sheet, over whatever inputs with whatever
/// stamps, has no `value-const` by that sheet: each number that is compared with it is the sheet's,
/// also of `$NODEID`, and so is each text, expedited, in segments and in blocks (CiA 301, 7.2.4.3).
/// What is `const` is never written (CiA 301, 7.2.4.3.17), and no error, no RPDO and no reset
/// changes it. Conditions: the rows are those of a sheet that was read (`IsSheetRow`); the device
/// type, the vendor-ID and the product code, which are compared whatever access the sheet has them
/// with, have the bytes with which the device was built, where they aren't `const`
/// (`AllHaveIdentity`, as by `keeps_identity`); and those of `built_no_write_differences`. This is
/// a law: a call of it changes nothing.
pub fn built_no_constant_differences()
    ensures { (plan : Plan) (k : Constants) (subject : Subject) (inputs : List Stamped) →
        IsBuilt plan k → All IsSheetRow plan.rows → subject.node ≡ k.description.node →
        HaveBytes inputs → AllAreHeld k [] inputs → AllHaveIdentity k [] inputs →
        AreElsewhere (0x580 + k.description.node) inputs →
        differences_in constant_differences subject plan.rows (recording k inputs) ≡ [] }
{
    begins_apart();
    begins_aside();
    begins_other();
    sends_other();
    stays_apart();
    Bank::set_is_permitted();
}

/// So has the recording of each device that `Node::build` of `co_node` makes:
/// `built_no_constant_differences` of it, without a condition on what fits its entries
/// (`stays_dictionary`), where what the application writes has bytes (`WriteBytes`). This is a law:
/// a call of it changes nothing.
pub fn node_no_constant_differences()
    ensures { (plan : Plan) (k : Constants) (node : Node) (subject : Subject)
        (inputs : List Stamped) → IsBuilt plan k → All IsSheetRow plan.rows → Stands k node [] →
        subject.node ≡ k.description.node → HaveBytes inputs → WriteBytes inputs →
        AllHaveIdentity k [] inputs → AreElsewhere (0x580 + k.description.node) inputs →
        differences_in constant_differences subject plan.rows (recording k inputs) ≡ [] }
{
    stands_on_dictionary();
    stays_dictionary();
    built_no_constant_differences();
}

/// The recording of a device that is built from a data sheet, over whatever inputs with whatever
/// stamps, has no `access-read` by that sheet: no upload of an entry that it has as readable is
/// refused with 06010001, nor at sub-index 0 or of 1018:01 with 06020000 or 06090011 (CiA 301,
/// 7.2.4.3.17), in whatever state, expedited, in segments and in blocks; nor is the last segment of
/// a block upload taken for such an abort, whatever data it has. And no upload gives data of an
/// entry that the sheet has as write only. Conditions: those of `built_no_write_differences`. This
/// is a law: a call of it changes nothing.
pub fn built_no_read_differences()
    ensures { (plan : Plan) (k : Constants) (subject : Subject) (inputs : List Stamped) →
        IsBuilt plan k → subject.node ≡ k.description.node → HaveBytes inputs →
        AllAreHeld k [] inputs → AreElsewhere (0x580 + k.description.node) inputs →
        differences_in read_differences subject plan.rows (recording k inputs) ≡ [] }
{
    begins_apart();
    begins_aside();
    begins_other();
    sends_other();
    stays_apart();
}

/// So has the recording of each device that `Node::build` of `co_node` makes:
/// `built_no_read_differences` of it, under the conditions of `node_no_write_differences`. This is
/// a law: a call of it changes nothing.
pub fn node_no_read_differences()
    ensures { (plan : Plan) (k : Constants) (node : Node) (subject : Subject)
        (inputs : List Stamped) → IsBuilt plan k → Stands k node [] →
        subject.node ≡ k.description.node → HaveBytes inputs → WriteBytes inputs →
        AreElsewhere (0x580 + k.description.node) inputs →
        differences_in read_differences subject plan.rows (recording k inputs) ≡ [] }
{
    stands_on_dictionary();
    stays_dictionary();
    built_no_read_differences();
}

/// The device type, the vendor-ID and the product code of a device that is built from a data sheet
/// have the bytes with which it was built over all inputs, where none of them can be written
/// (`AreNeverWritten`): each that the sheet has is `const` there, or it is `ro` and the application
/// doesn't write it. This is a law: a call of it changes nothing.
pub fn keeps_identity()
    ensures { (plan : Plan) (k : Constants) (inputs : List Stamped) → IsBuilt plan k →
        AreNeverWritten inputs plan.rows → AllHaveIdentity k [] inputs }
{
    Bank::set_is_permitted();
}
