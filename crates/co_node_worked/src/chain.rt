//! The device of a data sheet and its frames: a function for each step, of which only `worked` has
//! clauses without a premise.

ghost use Rattle.std.specs.Prelude.{◌≡◌, [], ◌∷◌, IfSome};
ghost use Rattle.co_node.specs.Nodes.{Stands};
ghost use Rattle.co_node_worked.specs.Worked.{asked, constants, heartbeats, responses};

use co_dict_build::Limits;
use co_frame::{Frame, Outbox};
use co_node::{AppEvent, Config, Input, Node, Record};
use co_sheet::read;
use std::alloc::Global;

/// A device that sends a heartbeat every 2 ms.
const SHEET: &[u8] = b"\
[MandatoryObjects]
SupportedObjects=3
1=0x1000
2=0x1001
3=0x1018
[1000]
DataType=7
AccessType=ro
DefaultValue=0x191
[1001]
DataType=5
AccessType=ro
[1018]
ObjectType=9
[1018sub0]
DataType=5
AccessType=ro
DefaultValue=1
[1018sub1]
DataType=7
AccessType=ro
[OptionalObjects]
SupportedObjects=1
1=0x1017
[1017]
DataType=6
AccessType=rw
DefaultValue=2
";

// The device of the sheet at node-ID 5.
fn built(alloc: Global) -> Option<Node>
    ensures begins { IfSome result (λ node. Stands constants node []) }
{
    let config = Config {
        limits: Limits {
            strings: 16,
            domains: 889,
            own: &[],
        },
        time: 1000,
    };
    let Ok(sheet) = read(alloc, SHEET) else {
        return None;
    };
    let Ok(node) = Node::build(alloc, &sheet, 5, &config) else {
        return None;
    };
    Some(node)
}

// Starts the device and reads its device type; the frames that it sends.
fn respond(node: &mut Node) -> Option<Outbox>
    ensures responses { Stands constants node.old [] →
        IfSome result (λ sent. sent.items ≡ responses) }
    ensures stands { Stands constants node.old [] →
        IfSome result (λ _. Stands constants node.new asked) }
{
    let Ok(start) = Frame::new(0, &[1, 5]) else {
        return None;
    };
    let Ok(request) = Frame::new(0x605, &[0x40, 0, 0x10, 0, 0, 0, 0, 0]) else {
        return None;
    };
    // this name gives the checker the type of an input's events
    let _event: Option<AppEvent<&[u8]>> = None;
    let mut sent = Outbox::new();
    node.step(Input::Frame(start), &mut sent);
    node.step(Input::Frame(request), &mut sent);
    Some(sent)
}

// Lets 2 ms elapse after that; the frames that the device sends.
fn elapse(alloc: Global, node: &mut Node) -> Option<Record>
    ensures heartbeats { Stands constants node.old asked →
        IfSome result (λ later. later.frames ≡ heartbeats) }
{
    let Ok(mut later) = Record::new(alloc, 258, 2) else {
        return None;
    };
    node.run(&[Input::Tick, Input::Tick], &mut later);
    Some(later)
}

/// The frames that the device sends.
#[derive(Drop)]
pub struct Sent {
    /// The response to the request for its device type.
    pub response: Outbox,
    /// The frames of the two ticks after that.
    pub later: Record,
}

/// Builds the device of the sheet at node-ID 5, starts it, reads its device type (1000:00, 191h) by
/// SDO upload, and lets 2 ms elapse. Returns the frames that it sends; `None` if one of the calls
/// fails.
pub fn worked(alloc: Global) -> Option<Sent>
    ensures response { IfSome result (λ sent. sent.response.items ≡ record {
      id = 0x585;
      bytes = 0x43 ∷ 0x00 ∷ 0x10 ∷ 0x00 ∷ 0x91 ∷ 0x01 ∷ 0x00 ∷ 0x00 ∷ [];
    } ∷ []) }
    ensures later { IfSome result (λ sent. sent.later.frames ≡
        record { id = 0x705; bytes = 0x05 ∷ [] } ∷ []) }
{
    let Some(mut node) = built(alloc) else {
        return None;
    };
    let Some(response) = respond(&mut node) else {
        return None;
    };
    let Some(later) = elapse(alloc, &mut node) else {
        return None;
    };
    Some(Sent { response, later })
}
