//! What a frame of a recording is to the device that is compared.

ghost use Rattle.std.specs.Prelude.{◌≡◌, ◌<◌};
ghost use Rattle.conode_record.specs.Grammar.{IsIdentifier};
ghost use Rattle.conode_compare_rules.specs.FrameKinds.{
  command_kind,
  control_kind,
  data_kind,
  emergency_kind,
  length_of,
  kind_of,
  long_command_in,
  long_to,
};

use co_frame::{Emergency, Frame, NmtCommand, NmtService};
use co_value::PackedBytes;
use conode_explain_transfers::Side;
use conode_record::{Content, Identifier};

/// What a frame is to a device.
#[derive(Drop)]
pub enum FrameKind {
    /// An NMT command to it (CiA 301, 7.2.8.3.1).
    Command(NmtService),
    /// An NMT command to all nodes, which it doesn't follow if it sent that itself.
    CommandToAll(NmtService),
    /// An NMT command with more than two bytes, to it or to all nodes: devices differ in whether
    /// they take that.
    LongCommand(NmtService),
    /// A remote frame that asks for its state: node guarding.
    Guarding,
    /// One byte on its identifier of error control: a boot-up, 0, or a heartbeat (CiA 301,
    /// 7.2.8.3.2 and 7.2.8.3.3).
    Control(u8),
    /// Another number of bytes there.
    OddControl(u8),
    /// Eight bytes on its default identifier of EMCY: the code and the error register (CiA 301,
    /// 7.2.7).
    Emergency(u16, u8),
    /// Another number of bytes there.
    OddEmergency(u8),
    /// A frame of its default SDO channel, by an end.
    Sdo(Side, Frame),
    /// Another data frame, by its identifier and the number of its bytes: a SYNC, a PDO, or one of
    /// another node.
    Process(u16, u8),
    /// Another remote frame, by its identifier.
    Polled(u16),
    /// An error frame.
    Fault,
    /// Nothing of these.
    Other,
}

// how many bytes a frame has
fn length_of(frame: &Frame) -> u8
    ensures { result ≡ length_of frame.now }
{
    frame.bytes().len() as u8
}

// the command that the first two of more bytes are
fn long_command_in(frame: &Frame) -> Option<NmtCommand>
    ensures { result ≡ long_command_in frame.now }
{
    match frame.bytes() {
        [specifier, node, _, ..] => {
            let mut bytes = PackedBytes::new();
            bytes.append(&[*specifier, *node]);
            NmtCommand::read(&Frame::packed(frame.id(), &bytes))
        }
        _ => None,
    }
}

fn long_kind(node: u8, frame: &Frame) -> FrameKind
    ensures { result ≡ long_to node (long_command_in frame.now) }
{
    match long_command_in(frame) {
        Some(command) if command.node == 0 || command.node == node => {
            FrameKind::LongCommand(command.service)
        }
        _ => FrameKind::Other,
    }
}

fn command_kind(node: u8, frame: &Frame) -> FrameKind
    ensures { result ≡ command_kind node frame.now }
{
    match NmtCommand::read(frame) {
        Some(command) if command.node == 0 => FrameKind::CommandToAll(command.service),
        Some(command) if command.node == node => FrameKind::Command(command.service),
        Some(_) => FrameKind::Other,
        None => long_kind(node, frame),
    }
}

fn control_kind(frame: &Frame) -> FrameKind
    ensures { result ≡ control_kind frame.now }
{
    match frame.bytes() {
        [byte] => FrameKind::Control(*byte),
        _ => FrameKind::OddControl(length_of(frame)),
    }
}

fn emergency_kind(frame: &Frame) -> FrameKind
    ensures { result ≡ emergency_kind frame.now }
{
    match Emergency::read(frame) {
        Some(emergency) => FrameKind::Emergency(emergency.code, emergency.register),
        None => FrameKind::OddEmergency(length_of(frame)),
    }
}

// of a data frame
fn data_kind(node: u8, frame: Frame) -> FrameKind
    ensures { result ≡ data_kind node frame }
{
    let id = frame.id();
    let node_id = node as u16;
    if id == 0 {
        return command_kind(node, &frame);
    }
    if id == 0x80 + node_id {
        return emergency_kind(&frame);
    }
    if id == 0x580 + node_id {
        return FrameKind::Sdo(Side::Server, frame);
    }
    if id == 0x600 + node_id {
        return FrameKind::Sdo(Side::Client, frame);
    }
    if id == 0x700 + node_id {
        return control_kind(&frame);
    }
    FrameKind::Process(id, length_of(&frame))
}

/// What a frame is to the device with a node-ID.
pub fn kind_of(node: u8, id: Identifier, content: &Content<'_>) -> FrameKind
    requires { IsIdentifier id }
    ensures { result ≡ kind_of node id content.now }
{
    match id {
        Identifier::Error(_) => FrameKind::Fault,
        Identifier::Extended(_) => FrameKind::Other,
        Identifier::Base(id) => match content {
            Content::Data(bytes) => data_kind(node, Frame::packed(id, bytes)),
            Content::Remote(_) if id == 0x700 + node as u16 => FrameKind::Guarding,
            Content::Remote(_) => FrameKind::Polled(id),
            _ => FrameKind::Other,
        },
    }
}
