//! Documents that are being written: JSON, in members of objects and elements of arrays; XML and
//! HTML, in markup with values in it.
#![tactic(auto)]

mod characters;
mod document;
mod escape;
mod json_writer;
mod markup;
mod value;

pub use characters::{characters_of, utf8_of};
pub use document::{Document, HasTokens, put_parts};
pub use json_writer::JsonWriter;
pub use markup::Markup;
pub use value::Value;
