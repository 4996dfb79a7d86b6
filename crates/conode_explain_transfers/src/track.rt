//! The SDO channel of one node on one interface.

ghost use Rattle.std.specs.Prelude.{◌≡◌, ◌≤◌, length};
ghost use Rattle.conode_explain_transfers.specs.Tracks.{new_track, is_of};

use crate::Channel;
use arrayvec::ArrayVec;

/// The SDO channel of a node on an interface.
#[derive(Drop)]
pub struct Track {
    /// The name of the interface.
    pub interface: ArrayVec<u8, 15>,
    /// The node-ID of the server.
    pub node: u8,
    /// Its transfers.
    pub channel: Channel,
}

impl Track {
    // Nothing was heard on it.
    pub(crate) fn new(interface: &[u8], node: u8) -> Track
        requires { length interface.now ≤ 15 }
        ensures { result ≡ new_track interface.now node }
    {
        let mut name = ArrayVec::new();
        name.try_extend_from_slice(interface).unwrap();
        Track {
            interface: name,
            node,
            channel: Channel::new(),
        }
    }

    // Whether it is that of this node on this interface.
    pub(crate) fn is_of(&self, interface: &[u8], node: u8) -> bool
        ensures { result ≡ is_of interface.now node self.now }
    {
        self.node == node && self.interface.as_slice() == interface
    }
}
