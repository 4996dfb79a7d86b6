//! The nodes of a bus, by node-ID.

ghost use Rattle.std.specs.Prelude.{◌≡◌, [], map, IfOk};
ghost use Rattle.conode_stats_counts.specs.Nodes.{changed_at, nodes_of, nodes_timed, nodes_with};
ghost use Rattle.conode_stats_counts.specs.NodeCounts.{
  node_asked,
  node_commanded,
  node_exchanged,
  node_with,
};

use crate::node::Node;
use crate::sdo_frame::SdoFrame;
use crate::shown_time::ShownTime;
use crate::sign::Sign;
use crate::state::NmtState;
use std::alloc::{AllocError, Global};

/// Node-IDs are below this number; 0 is none.
const MOST_NODES: usize = 128;

/// Nodes that sent nothing. `Err`: out of memory.
pub(crate) fn new_nodes(alloc: Global) -> Result<Vec<Node>, AllocError>
    ensures { IfOk result (λ nodes. nodes.items ≡ nodes_of []) }
{
    let mut nodes = attempt!(Vec::with_capacity(alloc, MOST_NODES));
    for _number in 0..MOST_NODES {
        nodes.push(Node::new())?;
    }
    Ok(nodes)
}

// notes a command to reset all nodes
#[tactic(auto, using(crate::proofs::Changes::done_more, crate::proofs::Changes::all_done))]
fn command_all(nodes: &mut [Node])
    ensures { nodes.new ≡ map node_commanded nodes.old }
{
    for node in nodes.iter_mut() {
        node.command();
    }
}

// notes a command to reset a node
fn command_one(nodes: &mut [Node], node: u8)
    ensures { nodes.new ≡ changed_at node node_commanded nodes.old }
{
    let place = node as usize;
    if place < nodes.len() {
        nodes[place].command();
    }
}

// counts a node's frame of error control
fn show_one(nodes: &mut [Node], node: u8, state: NmtState, toggle: bool, micros: u64)
    ensures { nodes.new ≡ changed_at node (node_with state toggle micros) nodes.old }
{
    let place = node as usize;
    if place < nodes.len() {
        nodes[place].show(state, toggle, micros);
    }
}

// counts an SDO frame on a node's default channel
fn exchange_one(nodes: &mut [Node], node: u8, frame: SdoFrame, micros: u64)
    ensures { nodes.new ≡ changed_at node (node_exchanged frame micros) nodes.old }
{
    let place = node as usize;
    if place < nodes.len() {
        nodes[place].exchange(frame, micros);
    }
}

// notes a guarding request for a node
fn ask_one(nodes: &mut [Node], node: u8, micros: u64)
    ensures { nodes.new ≡ changed_at node (node_asked micros) nodes.old }
{
    let place = node as usize;
    if place < nodes.len() {
        nodes[place].ask(micros);
    }
}

/// Counts a frame that shows this.
#[tactic(auto, unfolding(crate::specs::Nodes::nodes_with))]
pub(crate) fn show_sign(nodes: &mut [Node], sign: Sign, micros: u64)
    ensures { nodes.new ≡ nodes_with sign micros nodes.old }
{
    match sign {
        Sign::Reset(0) => command_all(nodes),
        Sign::Reset(node) => command_one(nodes, node),
        Sign::Shows(node, state, toggle) => show_one(nodes, node, state, toggle, micros),
        Sign::Exchanges(node, frame) => exchange_one(nodes, node, frame, micros),
        Sign::Asks(node) => ask_one(nodes, node, micros),
        Sign::Other => {}
    }
}

/// Notes the producer heartbeat time that a transfer shows, if it does.
#[tactic(auto, unfolding(crate::specs::Nodes::nodes_timed))]
pub(crate) fn show_time(nodes: &mut [Node], shown: Option<ShownTime>, micros: u64)
    ensures { nodes.new ≡ nodes_timed shown micros nodes.old }
{
    if let Some(shown) = shown {
        let place = shown.node as usize;
        if place < nodes.len() {
            nodes[place].show_time(shown.direction, shown.time, micros);
        }
    }
}
