//! The nodes of a recording, with what their last frames had.

ghost use Rattle.std.specs.Prelude.{◌≡◌, ◌<◌, ◌≤◌, [], length, map, OnOk, IfSome};
ghost use Rattle.conode_explain_services.specs.Nodes.{
  commanded,
  has_room,
  is_emergency,
  is_error_control,
  is_error_control_id,
  last_for,
  last_in,
  last_not_kept,
  last_of,
  last_of_all,
  last_with,
  nodes_after,
  nodes_asked,
  nodes_commanded,
  noted,
  nothing_seen,
  place_of,
  register_after,
};

use crate::guarding::Guarding;
use crate::guardings::{guarding_after, guarding_asked};
use crate::last::{Last, Shown};
use crate::nmt_state::KnownState;
use crate::nmt_states::{
    DOUBTFUL, is_command, is_long_command, of_all, state_after, state_commanded,
};
use crate::node::Node;
use co_frame::Frame;
use std::alloc::{AllocError, Global};
use std::marker::Model;

/// How many nodes are kept at most.
const MOST_NODES: usize = 1024;

/// The nodes of a recording by interface and node-ID, with what their last frames had: at most
/// 1,024, on each of 8 interfaces 127, and node 0 once a command came to all nodes. Contracts see
/// them in the order in which they came first.
#[derive(Drop)]
pub struct Nodes {
    nodes: Vec<Node>,
}

impl Model for Nodes {
    ghost use Rattle.std.specs.Prelude.{List};
    ghost use Rattle.conode_explain_services.specs.declared.node.Node.{Node};

    ghost Value = { List Node };

    ghost view = { λ nodes. nodes.nodes.items };
}

// the place of a node on an interface
fn place_of(nodes: &[Node], interface: &[u8], id: u8) -> Option<usize>
    ensures place { result ≡ place_of nodes.now interface.now id }
    ensures within { IfSome result (λ place. place < length nodes.now) }
{
    nodes.iter().position(|node| node.is_of(interface, id))
}

/// Whether a frame is an emergency: eight bytes on 081h to 0FFh (CiA 301, 7.2.7).
pub fn is_emergency(frame: &Frame) -> bool
    ensures { result ≡ is_emergency frame.now }
{
    (0x080 < frame.id() && frame.id() < 0x100) && frame.bytes().len() == 8
}

/// Whether an identifier is of error control.
pub(crate) fn is_error_control_id(id: u16) -> bool
    ensures { result ≡ is_error_control_id id }
{
    0x700 < id && id < 0x780
}

/// Whether a frame is of error control.
pub(crate) fn is_error_control(frame: &Frame) -> bool
    ensures { result ≡ is_error_control frame.now }
{
    is_error_control_id(frame.id()) && frame.bytes().len() == 1
}

// with a boot-up the error register begins anew
fn register_after(register: Option<u8>, byte: u8) -> Option<u8>
    ensures { result ≡ register_after register byte }
{
    if byte == 0 { None } else { register }
}

impl Last {
    /// Nothing came.
    pub fn new() -> Last
        ensures { result ≡ nothing_seen }
    {
        Last {
            register: None,
            guarding: Guarding::NotSeen,
            state: KnownState::Unknown,
        }
    }

    /// After a frame that shows this.
    pub(crate) fn with(self, shown: Shown) -> Last
        ensures { result ≡ last_with self shown }
    {
        match shown {
            Shown::Register(register) => Last {
                register: Some(register),
                guarding: self.guarding,
                state: self.state,
            },
            Shown::State(byte) => Last {
                register: register_after(self.register, byte),
                guarding: guarding_after(self.guarding, byte),
                state: state_after(self.state, byte),
            },
            Shown::Request => Last {
                register: self.register,
                guarding: guarding_asked(self.guarding),
                state: self.state,
            },
            Shown::Command(command) => Last {
                register: self.register,
                guarding: self.guarding,
                state: state_commanded(self.state, command),
            },
        }
    }
}

impl Nodes {
    /// Nothing came.
    pub fn new(alloc: Global) -> Nodes
        ensures { result ≡ [] }
    {
        Nodes {
            nodes: Vec::new(alloc),
        }
    }

    // node 0: what was commanded of all nodes
    fn last_of_all(&self, interface: &[u8]) -> Last
        ensures { result ≡ last_of_all self.now interface.now }
    {
        match place_of(self.nodes.as_slice(), interface, 0) {
            Some(place) => self.nodes[place].last,
            None => Last::new(),
        }
    }

    // of a node that isn't kept
    fn last_not_kept(&self, interface: &[u8]) -> Last
        ensures { result ≡ last_not_kept (has_room self.now) (last_of_all self.now interface.now).state }
    {
        if self.nodes.len() >= MOST_NODES {
            return Last::new();
        }
        Last {
            register: None,
            guarding: Guarding::NotSeen,
            state: of_all(self.last_of_all(interface).state),
        }
    }

    #[tactic(auto, unfolding(crate::specs::Nodes::last_in))]
    fn last_in(&self, interface: &[u8], id: u8) -> Last
        ensures { result ≡ last_in self.now interface.now id }
    {
        match place_of(self.nodes.as_slice(), interface, id) {
            Some(place) => self.nodes[place].last,
            None => self.last_not_kept(interface),
        }
    }

    /// What the last frames of the node of an identifier on an interface had; nothing where the
    /// identifier is neither of emergencies nor of error control.
    #[tactic(auto, unfolding(crate::specs::Nodes::last_of))]
    pub fn last(&self, interface: &[u8], id: u16) -> Last
        ensures { result ≡ last_of self.now interface.now id }
    {
        if 0x080 < id && id < 0x100 {
            return self.last_in(interface, (id - 0x080) as u8);
        }
        if is_error_control_id(id) {
            return self.last_in(interface, (id - 0x700) as u8);
        }
        Last::new()
    }

    // Notes what a frame shows of its node.
    #[tactic(auto, unfolding(crate::specs::Nodes::noted))]
    fn note(&mut self, interface: &[u8], id: u8, shown: Shown) -> Result<(), AllocError>
        requires { length interface.now ≤ 15 }
        ensures { OnOk result (self.new ≡ noted self.old interface.now id shown) }
    {
        if let Some(place) = place_of(self.nodes.as_slice(), interface, id) {
            self.nodes[place].last = self.nodes[place].last.with(shown);
            return Ok(());
        }
        if self.nodes.len() >= MOST_NODES {
            return Ok(());
        }
        let last = self.last_of_all(interface).with(shown);
        match self.nodes.push(Node::new(interface, id, last)) {
            Ok(()) => Ok(()),
            Err(_) => Err(AllocError),
        }
    }

    /// Takes a data frame on an interface, whose name has at most 15 bytes. It allocates when a
    /// node is noted first; on an `Err` memory ran out.
    #[tactic(auto, unfolding(crate::specs::Nodes::nodes_after))]
    pub fn take(&mut self, interface: &[u8], frame: &Frame) -> Result<(), AllocError>
        requires { length interface.now ≤ 15 }
        ensures { OnOk result (self.new ≡ nodes_after self.old interface.now frame.now) }
    {
        let bytes = frame.bytes();
        if is_emergency(frame) {
            let id = (frame.id() - 0x080) as u8;
            return self.note(interface, id, Shown::Register(bytes[2]));
        }
        if is_error_control(frame) {
            let id = (frame.id() - 0x700) as u8;
            return self.note(interface, id, Shown::State(bytes[0]));
        }
        if is_command(frame) {
            return self.command(interface, bytes[0], bytes[1]);
        }
        if is_long_command(frame) {
            return self.command(interface, DOUBTFUL, bytes[1]);
        }
        Ok(())
    }

    // Takes a command for all nodes of an interface that are kept.
    #[tactic(auto, using(crate::proofs::Changes::done_more, crate::proofs::Changes::all_done))]
    fn command_all(&mut self, interface: &[u8], command: u8)
        ensures { self.new ≡ map (commanded interface.now command) self.old }
    {
        for node in self.nodes.iter_mut() {
            node.take_command(interface, command);
        }
    }

    // Takes a command for a node, or for all.
    #[tactic(auto, unfolding(crate::specs::Nodes::nodes_commanded))]
    fn command(&mut self, interface: &[u8], command: u8, id: u8) -> Result<(), AllocError>
        requires { length interface.now ≤ 15 }
        ensures { OnOk result (self.new ≡ nodes_commanded self.old interface.now command id) }
    {
        if id == 0 {
            self.command_all(interface, command);
        }
        self.note(interface, id, Shown::Command(command))
    }

    /// What the last frames of the node of a data frame on an interface had: of an NMT command, the
    /// node that it is for.
    #[tactic(auto, unfolding(crate::specs::Nodes::last_for))]
    pub fn last_for(&self, interface: &[u8], frame: &Frame) -> Last
        ensures { result ≡ last_for self.now interface.now frame.now }
    {
        if is_command(frame) {
            return self.last_in(interface, frame.bytes()[1]);
        }
        self.last(interface, frame.id())
    }

    /// Takes a remote frame with this identifier on an interface, as `take` does.
    #[tactic(auto, unfolding(crate::specs::Nodes::nodes_asked))]
    pub fn take_remote(&mut self, interface: &[u8], id: u16) -> Result<(), AllocError>
        requires { length interface.now ≤ 15 }
        ensures { OnOk result (self.new ≡ nodes_asked self.old interface.now id) }
    {
        if is_error_control_id(id) {
            return self.note(interface, (id - 0x700) as u8, Shown::Request);
        }
        Ok(())
    }
}
