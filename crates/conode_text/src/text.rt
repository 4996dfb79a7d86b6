//! A text that is being written.

ghost use Rattle.std.specs.Prelude.{◌≡◌, [], IfOk, IfSome, None, Some, length, map, string_bytes};
ghost use Rattle.conode_text.specs.Appended.{Appended};
ghost use Rattle.conode_text.specs.Filled.{filled};

use crate::filled::{HasText, push_filled};
use std::alloc::{AllocError, Global};
use std::marker::Model;

/// A text that is being written. Contracts see it as its bytes, and as `None` once memory ran out.
/// This is remembered until `into_text`, so what appends to it returns nothing.
#[derive(Drop)]
pub struct Text {
    text: String,
    is_whole: bool,
}

impl Model for Text {
    ghost use Rattle.std.specs.Prelude.{ℕ, if◌then◌else◌, List, Option, None, Some, string_bytes};

    ghost Value = { Option (List ℕ) };

    ghost view = { λ t. if t.is_whole then Some (string_bytes t.text) else None };
}

impl Text {
    /// Nothing is written.
    pub fn new(alloc: Global) -> Self
        ensures { result ≡ Some [] }
    {
        Text {
            text: String::new(alloc),
            is_whole: true,
        }
    }

    /// Appends words of the program as they are, with these values in their places, one after
    /// another: each percent sign is a place.
    #[tactic(auto, using(crate::proofs::Appending::kept, crate::proofs::Appending::never_whole))]
    pub fn put<V: HasText>(&mut self, words: &str, values: &[V])
        ensures { Appended self.old (filled words.now (map V.text_of values.now)) self.new }
    {
        if !self.is_whole {
            return;
        }
        self.is_whole = push_filled(&mut self.text, words, values).is_ok();
    }

    /// Appends words of the program as they are.
    #[tactic(auto, using(crate::proofs::Appending::kept, crate::proofs::Appending::never_whole))]
    pub fn put_words(&mut self, words: &str)
        ensures { Appended self.old words.now self.new }
    {
        if !self.is_whole {
            return;
        }
        self.is_whole = self.text.push_str(words).is_ok();
    }

    /// Memory ran out for what is to be appended.
    pub fn fail(&mut self)
        ensures { self.new ≡ None }
    {
        self.is_whole = false;
    }

    /// How many bytes were written before memory ran out.
    pub fn len(&self) -> usize
        ensures { IfSome self.now (λ bytes. result ≡ length bytes) }
    {
        self.text.len()
    }

    /// The text. `Err`: memory ran out.
    pub fn into_text(self) -> Result<String, AllocError>
        ensures { IfOk result (λ text. self ≡ Some (string_bytes text)) }
    {
        let Text { text, is_whole } = self;
        if is_whole { Ok(text) } else { Err(AllocError) }
    }
}
