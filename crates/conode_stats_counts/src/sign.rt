//! What a frame shows of nodes.

ghost use Rattle.std.specs.Prelude.{◌≡◌};
ghost use Rattle.conode_stats_counts.specs.Nodes.{
  command_in,
  control_in,
  remote_sign,
  sign_as,
  sign_in,
};
ghost use Rattle.conode_stats_counts.specs.SdoFrames.{request_in, response_in};

use crate::sdo_frame::SdoFrame;
use crate::state::NmtState;
use co_value::PackedBytes;
use conode_record::{Content, Identifier};

/// What a frame is to the nodes of its bus.
#[derive(Clone, Copy)]
pub(crate) enum Sign {
    /// A command to reset a node or its communication (NMT, cs = 129, 130); of all nodes: 0. It may have
    /// more than its two bytes, since some devices take one that has.
    Reset(u8),
    /// A node's frame of error control shows this state; whether its toggle bit is set.
    Shows(u8, NmtState, bool),
    /// An SDO frame on a node's default channel.
    Exchanges(u8, SdoFrame),
    /// A guarding request for a node.
    Asks(u8),
    /// None of these.
    Other,
}

/// The command specifiers of reset node and of reset communication (CiA 301, 7.2.8.3.1).
const RESET_NODE: u8 = 129;

const RESET_COMMUNICATION: u8 = 130;

// a frame with the identifier of NMT commands
fn command_in(bytes: &[u8]) -> Sign
    ensures { result ≡ command_in bytes.now }
{
    match bytes {
        [RESET_NODE | RESET_COMMUNICATION, node, ..] if *node < 128 => Sign::Reset(*node),
        _ => Sign::Other,
    }
}

// a frame with a node's identifier of error control
fn control_in(node: u8, bytes: &[u8]) -> Sign
    ensures { result ≡ control_in node bytes.now }
{
    match bytes {
        [byte] => Sign::Shows(node, NmtState::of(*byte), *byte > 127),
        _ => Sign::Other,
    }
}

// a frame with the identifier of requests on a node's default channel
fn request_in(node: u8, bytes: &[u8]) -> Sign
    ensures { result ≡ request_in node bytes.now }
{
    match bytes {
        [0x80, _, _, _, _, _, _, _] => Sign::Exchanges(node, SdoFrame::Abort),
        [_, _, _, _, _, _, _, _] => Sign::Exchanges(node, SdoFrame::Request),
        _ => Sign::Other,
    }
}

// a frame with the identifier of responses there
fn response_in(node: u8, bytes: &[u8]) -> Sign
    ensures { result ≡ response_in node bytes.now }
{
    match bytes {
        [_, _, _, _, _, _, _, _] => Sign::Exchanges(node, SdoFrame::Response),
        _ => Sign::Other,
    }
}

// a frame with data, by its identifier
fn sign_in(id: u16, bytes: &PackedBytes) -> Sign
    ensures { result ≡ sign_in id bytes.now }
{
    if id == 0 {
        return command_in(bytes.to_list().as_slice());
    }
    if 0x700 < id && id < 0x780 {
        return control_in((id - 0x700) as u8, bytes.to_list().as_slice());
    }
    if 0x580 < id && id < 0x600 {
        return response_in((id - 0x580) as u8, bytes.to_list().as_slice());
    }
    if 0x600 < id && id < 0x680 {
        return request_in((id - 0x600) as u8, bytes.to_list().as_slice());
    }
    Sign::Other
}

// a remote frame, by its identifier: with that of a node's error control it is a guarding request
fn remote_sign(id: u16) -> Sign
    ensures { result ≡ remote_sign id }
{
    if 0x700 < id && id < 0x780 {
        return Sign::Asks((id - 0x700) as u8);
    }
    Sign::Other
}

impl Sign {
    /// What a frame with this identifier and content shows.
    pub(crate) fn of(id: Identifier, content: &Content<'_>) -> Sign
        ensures { result ≡ sign_as id content.now }
    {
        match (id, content) {
            (Identifier::Base(id), Content::Data(data)) => sign_in(id, data),
            (Identifier::Base(id), Content::Remote(_)) => remote_sign(id),
            _ => Sign::Other,
        }
    }
}
