//! A store in which the place of one entry is known.

ghost use Rattle.std.specs.Prelude.{◌≡◌, Some};
ghost use Rattle.co_dict.specs.Places.{key_at};

use co_dict::{Area, ObjectStore, Row};
use co_value::Key;

/// A store in which the place of one entry is known, so that its row is found without a search: the
/// rules of `co_dict` name entries by their keys.
#[derive(Drop)]
pub(crate) struct Placed<'a, S: ObjectStore> {
    pub(crate) store: &'a mut S,
    pub(crate) key: Key,
    pub(crate) place: u32,
    ghost there: { key_at (S.description store.now) place ≡ Some key },
}

impl<'a, S: ObjectStore> ObjectStore for Placed<'a, S> {
    ghost description = { λ placed. S.description placed.store.now };

    ghost contents = { λ placed. S.contents placed.store.now };

    fn node_id(&self) -> u8 {
        self.store.node_id()
    }

    fn row(&self, key: Key) -> Option<Row> {
        if key == self.key {
            self.store.row_at(self.place)
        } else {
            self.store.row(key)
        }
    }

    fn bytes(&self, key: Key) -> Option<&[u8]> {
        self.store.bytes(key)
    }

    fn dummy(&self, index: u16) -> bool {
        self.store.dummy(index)
    }

    fn set(&mut self, key: Key, bytes: &[u8]) {
        self.store.set(key, bytes);
    }

    fn place(&self, key: Key) -> Option<u32> {
        self.store.place(key)
    }

    fn row_at(&self, place: u32) -> Option<Row> {
        self.store.row_at(place)
    }

    fn bytes_at(&self, place: u32) -> Option<&[u8]> {
        self.store.bytes_at(place)
    }

    fn set_at(&mut self, place: u32, bytes: &[u8]) {
        self.store.set_at(place, bytes);
    }

    fn reset(&mut self, area: Area) {
        self.store.reset(area);
    }

    fn greatest_capacity(&self) -> u16 {
        self.store.greatest_capacity()
    }

    ghost lawful = { λ placed. S.lawful placed.store.now };
}
