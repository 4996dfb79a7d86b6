//! The entries that clients asked to write.

ghost use Rattle.std.specs.Prelude.{◌≡◌, ◌<◌, [], length, OnOk, IfSome};
ghost use Rattle.conode_compare_notes.specs.WrittenContents.{
  content_of,
  noted_at,
  place_of,
  with_content,
};

use crate::contents::Content;
use co_value::Key;
use std::alloc::{AllocError, Global};
use std::marker::Model;

/// An entry that a client asked to write.
#[derive(Clone, Copy)]
pub struct Wrote {
    /// Which entry it is.
    pub key: Key,
    /// What a download wrote, until an upload showed it.
    pub content: Option<Content>,
}

/// The entries that clients asked to write. Contracts see them in the order in which they were
/// asked for first.
#[derive(Drop)]
pub struct Writes {
    all: Vec<Wrote>,
}

impl Model for Writes {
    ghost use Rattle.std.specs.Prelude.{List};
    ghost use Rattle.conode_compare_notes.specs.declared.writes.Wrote.{Wrote};

    ghost Value = { List Wrote };

    ghost view = { λ writes. writes.all.items };
}

impl Writes {
    /// None was.
    pub(crate) fn new(alloc: Global) -> Writes
        ensures { result ≡ [] }
    {
        Writes {
            all: Vec::new(alloc),
        }
    }

    /// None was since.
    pub(crate) fn clear(&mut self)
        ensures { self.new ≡ [] }
    {
        self.all.clear();
    }

    // the place of an entry
    fn place(&self, key: Key) -> Option<usize>
        ensures place { result ≡ place_of self.now key }
        ensures within { IfSome result (λ place. place < length self.now) }
    {
        self.all.iter().position(|wrote| wrote.key == key)
    }

    // Notes what is known of the entry at a place.
    fn note_at(&mut self, place: Option<usize>, wrote: Wrote) -> Result<(), AllocError>
        requires { IfSome place (λ p. p < length self.old) }
        ensures { OnOk result (self.new ≡ noted_at place self.old wrote) }
    {
        match place {
            Some(place) => {
                self.all[place] = wrote;
                Ok(())
            }
            None => match self.all.push(wrote) {
                Ok(()) => Ok(()),
                Err(_) => Err(AllocError),
            },
        }
    }

    /// Notes what is known of an entry. On an `Err` memory ran out.
    pub(crate) fn note(&mut self, key: Key, content: Option<Content>) -> Result<(), AllocError>
        ensures { OnOk result (self.new ≡ with_content self.old key content) }
    {
        let place = self.place(key);
        self.note_at(place, Wrote { key, content })
    }

    /// What is known of an entry, if it was asked to be written.
    pub(crate) fn content(&self, key: Key) -> Option<Option<Content>>
        ensures { result ≡ content_of self.now key }
    {
        let all = self.all.as_slice();
        for wrote in all {
            if wrote.key == key {
                return Some(wrote.content);
            }
        }
        None
    }
}
