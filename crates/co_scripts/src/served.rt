//! A channel of a server and its dictionary.

ghost use Rattle.std.specs.Prelude.{◌≤◌};
ghost use Rattle.co_value.specs.declared.key.Key.{Key};
ghost use Rattle.co_sdo.specs.Refused.{capacity_at};

use crate::bad_script::BadScript;
use co_dict::{Area, ObjectStore, app_store, capacity_law};
use co_frame::{Frame, Ids, Outbox};
use co_sdo::Channel;
use co_value::Key;
use std::alloc::{AllocError, Global};

/// A channel, with the requests 605h and the answers 585h, and its dictionary.
#[derive(Drop)]
pub struct Served<S: ObjectStore> {
    pub(crate) channel: Channel,
    store: S,
    ghost greatest: { (key : Key) → capacity_at (S.description store).rows key ≤ channel.greatest },
}

impl<S: ObjectStore + Drop> Served<S> {
    /// A channel over a dictionary, with room for its greatest entry; `time` is the SDO timeout in
    /// ms. `AllocError` if its buffer can't be allocated.
    pub fn over(alloc: Global, store: S, time: u16) -> Result<Served<S>, AllocError> {
        capacity_law(&store);
        let ids = Ids {
            request: 0x605,
            answer: 0x585,
        };
        let channel = Channel::new(alloc, ids, 65535, time)?;
        Ok(Served { channel, store })
    }

    /// Replaces `sent` by the answers to a request, and returns the key that it set.
    pub fn take_into(&mut self, request: &Frame, sent: &mut Outbox) -> Option<Key> {
        sent.clear();
        self.channel.take(&mut self.store, request, sent)
    }

    /// The frames that answer a request.
    pub fn take(&mut self, request: &Frame) -> Outbox {
        let mut sent = Outbox::new();
        self.channel.take(&mut self.store, request, &mut sent);
        sent
    }

    /// How many bytes the channel holds.
    pub fn held(&self) -> usize {
        self.channel.held()
    }

    /// Drops an open transfer without an abort.
    pub fn drop_transfer(&mut self) {
        self.channel.drop_transfer();
    }

    /// The application writes an entry. `BadScript` if this is refused.
    pub fn write(&mut self, index: u16, bytes: &[u8]) -> Result<(), BadScript> {
        let key = Key { index, sub: 0 };
        app_store(&self.store, key, bytes).ok().ok_or(BadScript)?;
        self.store.set(key, bytes);
        Ok(())
    }

    /// Restores the initial bytes of all entries.
    pub fn restore(&mut self) {
        self.store.reset(Area::All);
    }

    /// Whether an entry has these bytes.
    pub fn has(&self, index: u16, bytes: &[u8]) -> bool {
        match self.store.bytes(Key { index, sub: 0 }) {
            Some(found) => found == bytes,
            None => false,
        }
    }
}
