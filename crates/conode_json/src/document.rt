//! A JSON document in parts.

ghost use Rattle.std.specs.Prelude.{
  ◌≡◌,
  ◌++◌,
  [],
  ◌∷◌,
  IfOk,
  List,
  None,
  OnOk,
  Some,
  option_map,
};
ghost use Rattle.std.specs.List.{flat_map};
ghost use Rattle.json.specs.Print.{print};
ghost use Rattle.json.specs.Token.{Token};
ghost use Rattle.conode_text.specs.Appended.{Appended};

use crate::json_writer::JsonWriter;
use std::alloc::{AllocError, Global};
use std::marker::Model;

/// A part of a document: a bracket, a member of an object, or many of them.
pub trait HasTokens {
    /// Its tokens.
    ghost tokens_of: { Self → List Token };

    /// Writes its tokens. `Err`: out of memory; some of them may be there.
    fn put(&self, alloc: Global, writer: &mut JsonWriter) -> Result<(), AllocError>
        ensures { OnOk result (writer.new ≡ writer.old ++ tokens_of self.now) };
}

/// Writes parts, one after another. `Err`: out of memory; some tokens may be there.
pub fn put_parts<P: HasTokens>(
    alloc: Global,
    writer: &mut JsonWriter,
    parts: &[P],
) -> Result<(), AllocError>
    ensures { OnOk result (writer.new ≡ writer.old ++ flat_map P.tokens_of parts.now) }
{
    for part in parts {
        part.put(alloc, writer)?;
    }
    Ok(())
}

/// A document that is being written. Contracts see its tokens, and `None` once memory ran out. This
/// is remembered until `into_text`, so what appends to it returns nothing.
#[derive(Drop)]
pub struct Document {
    alloc: Global,
    writer: JsonWriter,
    is_whole: bool,
}

impl Model for Document {
    ghost use Rattle.std.specs.Prelude.{if◌then◌else◌, List, Option, None, Some};
    ghost use Rattle.std.specs.Coded.{coded_option};
    ghost use Rattle.json.specs.Token.{Token, tokens_code};

    ghost Value = { Option (List Token) };

    ghost coded = { coded_option tokens_code };

    ghost view = { λ d. if d.is_whole then Some d.writer else None };
}

impl Document {
    /// Nothing is written.
    pub fn new(alloc: Global) -> Self
        ensures { result ≡ Some [] }
    {
        Document {
            alloc,
            writer: JsonWriter::new(alloc),
            is_whole: true,
        }
    }

    /// Appends parts, one after another.
    #[tactic(auto, using(conode_text::proofs::Appending::kept, conode_text::proofs::Appending::never_whole))]
    pub fn put<P: HasTokens>(&mut self, parts: &[P])
        ensures { Appended self.old (flat_map P.tokens_of parts.now) self.new }
    {
        if !self.is_whole {
            return;
        }
        self.is_whole = put_parts(self.alloc, &mut self.writer, parts).is_ok();
    }

    /// Memory ran out for what is to be appended.
    pub fn fail(&mut self)
        ensures { self.new ≡ None }
    {
        self.is_whole = false;
    }

    /// The text, with a line feed at its end. `Err`: memory ran out.
    pub fn into_text(self) -> Result<Vec<u8>, AllocError>
        ensures { IfOk result (λ text.
            option_map (λ tokens. print tokens ++ 10 ∷ []) self ≡ Some text.items) }
    {
        let Document {
            writer,
            is_whole,
            ..
        } = self;
        if !is_whole {
            return Err(AllocError);
        }
        writer.into_text()
    }
}
