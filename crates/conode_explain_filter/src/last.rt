//! What was said last of one identifier on one interface.

ghost use Rattle.std.specs.Prelude.{◌≡◌, ◌≤◌, length, IfOk};
ghost use Rattle.conode_explain_filter.specs.Changes.{is_of, is_same};

use arrayvec::ArrayVec;
use std::alloc::{AllocError, Global};
use std::marker::Model;

/// What was said last of an identifier on an interface. Contracts see these, the bytes of the frame
/// and the words.
#[derive(Drop)]
pub(crate) struct Last {
    interface: ArrayVec<u8, 15>,
    id: u32,
    bytes: ArrayVec<u8, 8>,
    words: Vec<u8>,
}

impl Model for Last {
    ghost use Rattle.conode_explain_filter.specs.Changes.{Said};

    ghost Value = { Said };

    ghost view = { λ last. record {
      interface = last.interface.items;
      id = last.id;
      bytes = last.bytes.items;
      words = last.words.items;
    } };
}

impl Last {
    /// A frame with these bytes and words. On an `Err` memory ran out.
    pub(crate) fn new(
        alloc: Global,
        interface: &[u8],
        id: u32,
        bytes: &[u8],
        words: &[u8],
    ) -> Result<Last, AllocError>
        requires name { length interface.now ≤ 15 }
        requires bytes { length bytes.now ≤ 8 }
        ensures { IfOk result (λ last. last ≡ record {
          interface = interface.now;
          id = id;
          bytes = bytes.now;
          words = words.now;
        }) }
    {
        let mut name = ArrayVec::new();
        name.try_extend_from_slice(interface).unwrap();
        let mut data = ArrayVec::new();
        data.try_extend_from_slice(bytes).unwrap();
        let words = attempt!(words.to_vec(alloc));
        Ok(Last {
            interface: name,
            id,
            bytes: data,
            words,
        })
    }

    /// Whether it is of this identifier on this interface.
    pub(crate) fn is_of(&self, interface: &[u8], id: u32) -> bool
        ensures { result ≡ is_of interface.now id self.now }
    {
        self.id == id && self.interface.as_slice() == interface
    }

    /// Whether what is said now, of the same identifier, is the same.
    pub(crate) fn is_same(&self, said: &Last) -> bool
        ensures { result ≡ is_same self.now said.now }
    {
        self.bytes.as_slice() == said.bytes.as_slice()
            && self.words.as_slice() == said.words.as_slice()
    }
}
