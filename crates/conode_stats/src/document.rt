//! A JSON document that is being written.

ghost use Rattle.std.specs.Prelude.{◌≡◌, ◌++◌, [], ◌∷◌, Some, IfOk};
ghost use Rattle.json.specs.Print.{print};
ghost use Rattle.std.specs.List.{flat_map};
ghost use Rattle.conode_stats_text.specs.Papers.{IsAppended};
ghost use Rattle.conode_stats.specs.Parts.{part_tokens};

use crate::parts::{Part, put_parts};
use conode_json::JsonWriter;
use std::alloc::{AllocError, Global};
use std::marker::Model;

/// A document that is being written. It remembers that memory ran out, and takes nothing more then.
/// Contracts see its tokens, `None` once memory ran out.
#[derive(Drop)]
pub(crate) struct Document {
    alloc: Global,
    writer: JsonWriter,
    // why nothing more is taken, if memory ran out
    fault: Option<AllocError>,
}

impl Model for Document {
    ghost use Rattle.std.specs.Prelude.{List, Option};
    ghost use Rattle.std.specs.Coded.{coded_option};
    ghost use Rattle.json.specs.Token.{Token, tokens_code};
    ghost use Rattle.conode_stats_text.specs.Papers.{written_if};

    ghost Value = { Option (List Token) };

    ghost coded = { coded_option tokens_code };

    ghost view = { λ document. written_if document.fault document.writer };
}

impl Document {
    /// Nothing is written.
    pub(crate) fn new(alloc: Global) -> Document
        ensures { result ≡ Some [] }
    {
        Document {
            alloc,
            writer: JsonWriter::new(alloc),
            fault: None,
        }
    }

    /// Writes parts.
    pub(crate) fn put(&mut self, parts: &[Part<'_>])
        ensures { IsAppended self.old (flat_map part_tokens parts.now) self.new }
    {
        if self.fault.is_none() {
            if let Err(fault) = put_parts(self.alloc, &mut self.writer, parts) {
                self.fault = Some(fault);
            }
        }
    }

    /// Notes that memory ran out.
    pub(crate) fn end(&mut self, fault: AllocError) {
        self.fault = Some(fault);
    }

    /// The text, with a line feed at its end. `Err`: memory ran out.
    pub(crate) fn into_text(self) -> Result<Vec<u8>, AllocError> {
        let Document {
            alloc: _,
            writer,
            fault,
        } = self;
        match fault {
            None => writer.into_text(),
            Some(fault) => Err(fault),
        }
    }
}
