//! The nodes of a recording, by error control.

ghost use Rattle.std.specs.Prelude.{◌≡◌, ◌<◌, IfSome};
ghost use Rattle.conode_compare.specs.NodesSeen.{no_nodes, node_of, nodes_with};

use conode_io::hand_over;
use conode_record::{Content, Identifier, Record};
use std::io::Write;

/// The nodes whose boot-ups, heartbeats or answers of node guarding a recording has.
#[derive(Clone, Copy)]
pub struct NodesSeen {
    /// By node-ID.
    pub nodes: [bool; 128],
}

// the node-ID in the identifier of a data frame
fn node_of(id: Identifier, content: &Content<'_>) -> Option<u16>
    ensures node { result ≡ node_of id content.now }
    ensures small { IfSome result (λ node. node < 128) }
{
    match (id, content) {
        (Identifier::Base(id), Content::Data(_)) if 0x700 < id && id < 0x780 => Some(id - 0x700),
        _ => None,
    }
}

impl NodesSeen {
    /// None is seen.
    #[tactic(auto, unfolding(crate::specs::NodesSeen::no_nodes))]
    pub(crate) fn new() -> NodesSeen
        ensures { result ≡ no_nodes }
    {
        NodesSeen {
            nodes: [false; 128],
        }
    }

    /// A frame came.
    pub(crate) fn note(&mut self, frame: &Record<'_>)
        ensures { self.new ≡ nodes_with self.old frame.now }
    {
        if let Some(node) = node_of(frame.id, &frame.content) {
            self.nodes[node as usize] = true;
        }
    }

    /// Names them on `err`, if there are any.
    pub(crate) fn name<E: Write>(&self, err: &mut E) {
        let mut named = false;
        for node in 1..128 {
            if self.nodes[node] {
                let front = if named { "," } else { "nodes seen:" };
                let _ = write!(err, "{front} {node}");
                named = true;
            }
        }
        if named {
            let _ = hand_over(b"\n", err);
        }
    }
}
