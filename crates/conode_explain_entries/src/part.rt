//! The parts of a line of a transfer.

ghost use Rattle.std.specs.Prelude.{◌≡◌, ◌++◌, OnOk, string_bytes};
ghost use Rattle.conode_explain_entries.specs.Ends.{
  direction_text,
  entry_text,
  in_brackets,
  quoted,
  side_text,
};
ghost use Rattle.conode_explain_entries.specs.Parts.{part_text};

use crate::numbers::{push_grouped, push_seconds};
use co_text::{push_u16, push_u32};
use co_value::Key;
use conode_explain_transfers::{Direction, Side};
use conode_text::{HasText, Value, push_filled};
use std::alloc::AllocError;

/// A part of a line of a transfer.
#[derive(Clone, Copy)]
pub(crate) enum Part<'a> {
    /// Client or server.
    Sender(Side),
    /// Words in brackets after a blank, where there are some.
    InBrackets(&'a str),
    /// A number with commas between its digits.
    Grouped(u64),
    /// The time from one stamp to another, in seconds.
    Seconds(u64, u64),
    /// A CRC.
    Crc(u16),
    /// An abort code.
    Code(u32),
}

/// Which way the data went.
pub(crate) fn direction_text(direction: Direction) -> &'static str
    ensures { result.now ≡ direction_text direction }
{
    match direction {
        Direction::Download => "download",
        Direction::Upload => "upload",
    }
}

fn side_text(side: Side) -> &'static str
    ensures { result.now ≡ side_text side }
{
    match side {
        Side::Client => "client",
        Side::Server => "server",
    }
}

fn push_quoted(text: &mut String, name: &str) -> Result<(), AllocError>
    ensures { OnOk result (string_bytes text.new ≡ string_bytes text.old ++ quoted name.now) }
{
    if name.is_empty() {
        return Ok(());
    }
    attempt!(text.push_str(" \""));
    attempt!(text.push_str(name));
    text.push('"')
}

/// Appends the key of an entry, and its name in double quotes, if it has one.
#[tactic(auto, unfolding(crate::specs::Ends::entry_text))]
pub(crate) fn push_entry(text: &mut String, key: Key, name: &str) -> Result<(), AllocError>
    ensures { OnOk result
        (string_bytes text.new ≡ string_bytes text.old ++ entry_text key name.now) }
{
    attempt!(text.push_str(key.text().as_str()));
    push_quoted(text, name)
}

#[tactic(auto, unfolding(conode_text::specs::Filled::filled))]
fn push_in_brackets(text: &mut String, words: &str) -> Result<(), AllocError>
    ensures { OnOk result (string_bytes text.new ≡ string_bytes text.old ++ in_brackets words.now) }
{
    if words.is_empty() {
        return Ok(());
    }
    push_filled(text, " (%)", &[Value::Words(words)])
}

impl HasText for Part<'_> {
    ghost text_of = { part_text };

    fn push(&self, text: &mut String) -> Result<(), AllocError> {
        match *self {
            Part::Sender(side) => text.push_str(side_text(side)),
            Part::InBrackets(words) => push_in_brackets(text, words),
            Part::Grouped(number) => push_grouped(text, number),
            Part::Seconds(from, to) => push_seconds(text, from, to),
            Part::Crc(crc) => push_u16(text, crc),
            Part::Code(code) => push_u32(text, code),
        }
    }
}
