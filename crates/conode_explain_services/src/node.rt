//! A node on an interface.

ghost use Rattle.std.specs.Prelude.{◌≡◌, ◌≤◌, length};
ghost use Rattle.conode_explain_services.specs.Nodes.{commanded, is_of, new_node};

use crate::last::{Last, Shown};
use arrayvec::ArrayVec;

/// A node on an interface.
#[derive(Drop)]
pub struct Node {
    /// The name of the interface.
    pub interface: ArrayVec<u8, 15>,
    /// The node-ID.
    pub id: u8,
    /// What its last frames had.
    pub last: Last,
}

impl Node {
    pub(crate) fn new(interface: &[u8], id: u8, last: Last) -> Node
        requires { length interface.now ≤ 15 }
        ensures { result ≡ new_node interface.now id last }
    {
        let mut name = ArrayVec::new();
        name.try_extend_from_slice(interface).unwrap();
        Node {
            interface: name,
            id,
            last,
        }
    }

    // Whether it is that of this node-ID on this interface.
    pub(crate) fn is_of(&self, interface: &[u8], id: u8) -> bool
        ensures { result ≡ is_of interface.now id self.now }
    {
        self.id == id && self.interface.as_slice() == interface
    }

    // Takes a command for all nodes of an interface.
    pub(crate) fn take_command(&mut self, interface: &[u8], command: u8)
        ensures { self.new ≡ commanded interface.now command self.old }
    {
        if self.interface.as_slice() == interface {
            self.last = self.last.with(Shown::Command(command));
        }
    }
}
