//! Markup that is being written.

ghost use Rattle.std.specs.Prelude.{◌≡◌, [], IfOk, None, Some, string_bytes};
ghost use Rattle.conode_text.specs.Appended.{Appended};
ghost use Rattle.conode_json.specs.Filled.{filled};

use crate::value::Value;
use conode_text::Text;
use std::alloc::{AllocError, Global};
use std::marker::Model;

/// Markup that is being written: a document of XML or HTML. Contracts see its text, and `None` once
/// memory ran out. This is remembered until `into_text`, so what appends to it returns nothing.
#[derive(Drop)]
pub struct Markup {
    text: Text,
}

impl Model for Markup {
    ghost use Rattle.std.specs.Prelude.{ℕ, List, Option};

    ghost Value = { Option (List ℕ) };

    ghost view = { λ m. m.text };
}

impl Markup {
    /// Nothing is written.
    pub fn new(alloc: Global) -> Self
        ensures { result ≡ Some [] }
    {
        Markup {
            text: Text::new(alloc),
        }
    }

    /// Appends markup, tags and words of the program as they are, with these values in its places,
    /// one after another: each percent sign is a place.
    pub fn put(&mut self, markup: &str, values: &[Value<'_>])
        ensures { Appended self.old (filled markup.now values.now) self.new }
    {
        self.text.put(markup, values);
    }

    /// Appends tags and words of the program as they are.
    pub fn put_words(&mut self, words: &str)
        ensures { Appended self.old words.now self.new }
    {
        self.text.put_words(words);
    }

    /// Memory ran out for what is to be appended.
    pub fn fail(&mut self)
        ensures { self.new ≡ None }
    {
        self.text.fail();
    }

    /// The text. `Err`: memory ran out.
    pub fn into_text(self) -> Result<String, AllocError>
        ensures { IfOk result (λ text. self ≡ Some (string_bytes text)) }
    {
        let Markup { text } = self;
        text.into_text()
    }
}
