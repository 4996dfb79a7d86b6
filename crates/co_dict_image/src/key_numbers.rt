//! The keys of an image, numbered.

ghost use Rattle.std.specs.Prelude.{◌≡◌, true, position, IfOk};
ghost use Rattle.co_value.specs.Keys.{same_key};
ghost use Rattle.co_dict_build.specs.ListedEntries.{are_increasing};
ghost use Rattle.co_dict_image.specs.Slots.{keys_of};

use crate::slot::Slot;
use co_value::Key;
use indexmap::IndexSet;
use std::alloc::{AllocError, Global};
use std::marker::Model;

/// The keys of slots, numbered in their order, in a table of hashed keys. No method changes it, so
/// that it never grows.
#[derive(Drop)]
pub(crate) struct KeyNumbers {
    keys: IndexSet<Key>,
}

impl Model for KeyNumbers {
    ghost use Rattle.std.specs.Prelude.{List};
    ghost use Rattle.co_value.specs.declared.key.Key.{Key};

    ghost Value = { List Key };

    ghost view = { λ n. n.keys.keys };
}

impl KeyNumbers {
    /// The keys of these slots, numbered. `AllocError`: out of memory.
    pub(crate) fn of(alloc: Global, slots: &[Slot]) -> Result<KeyNumbers, AllocError>
        requires { are_increasing (keys_of slots.now) ≡ true }
        ensures { IfOk result (λ numbers. numbers ≡ keys_of slots.now) }
    {
        let mut keys = IndexSet::with_capacity(alloc, slots.len())?;
        for slot in slots {
            keys.insert(slot.key)?;
        }
        Ok(KeyNumbers { keys })
    }

    /// The number of a key; `None` where it isn't among them.
    #[inline(always)]
    pub(crate) fn get(&self, key: Key) -> Option<usize>
        ensures { result ≡ position (same_key key) self.now }
    {
        self.keys.get_index_of(&key)
    }
}
